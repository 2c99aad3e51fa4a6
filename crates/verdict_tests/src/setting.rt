//! A book of one decided record, and lines of transaction certificates.

use arrayvec::ArrayVec;
use clearing_check::Book;
use cryptogram_in::expected;
use issuer_base::{Entry, Parts, Reply, Request};
use issuer_setup::Issuer;
use sample_issuer::{CARDS, CRYPTOGRAM, deciding_table, issuer, purchase, purchase_parts};
use std::alloc::Global;
use terminal_kernel::{MAX_REQUEST_LINE, request_line};

/// The unpredictable number of the decided purchase.
pub(crate) const UNPREDICTABLE: u32 = 0x1A2B3C4D;

/// An issuer of two cards.
pub(crate) fn sample(alloc: Global) -> Option<Issuer> {
    issuer(alloc, 1, &CARDS[..2], deciding_table()?)
}

/// The record of the first card's transaction 7.
fn decided(approve: bool) -> Option<Entry> {
    Some(Entry::Decided {
        request: purchase(7, UNPREDICTABLE, CRYPTOGRAM)?,
        reply: Reply {
            arc: [0x30, 0x30],
            approve,
            bytes: ArrayVec::new(),
        },
    })
}

/// The book of that record alone, the first of shard 0.
pub(crate) fn book(alloc: Global, issuer: &Issuer, approve: bool) -> Option<Book> {
    let mut book = Book::new(alloc, issuer).ok()?;
    book.add(issuer, 0, 0, &decided(approve)?).ok()?;
    Some(book)
}

/// The fields of that transaction at its end, with this cryptogram information data.
pub(crate) fn ended(cid: u8) -> Option<Parts> {
    let parts = purchase_parts(7, UNPREDICTABLE, CRYPTOGRAM)?;
    Some(Parts { cid, ..parts })
}

/// The line of these fields with the cryptogram that their card makes over them.
pub(crate) fn certificate(issuer: &Issuer, parts: Parts) -> Option<ArrayVec<u8, MAX_REQUEST_LINE>> {
    let unsigned = Request::new(parts)?;
    let mut parts = *unsigned.parts();
    let card = issuer.card(&parts.pan, parts.psn)?;
    if card >= issuer.cards() {
        return None;
    }
    let slot = issuer.key_slot(card, &unsigned)?;
    parts.ac = expected(&issuer.session(slot, parts.atc), &unsigned);
    Some(request_line(&Request::new(parts)?))
}
