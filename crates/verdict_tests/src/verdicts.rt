//! Each verdict, on lines that differ from the certificate of the decided record.

use crate::setting::{book, certificate, ended, sample};
use answer_text::LINE_ROOM;
use arrayvec::ArrayVec;
use clearing_check::{Verdict, write_verdict};
use issuer_base::{Pan, Parts, Request};
use std::test::Fail;
use terminal_kernel::request_line;

/// The cryptogram information data of a transaction certificate.
const TC: u8 = 0x40;

/// That of an application authentication cryptogram.
const AAC: u8 = 0x00;

/// That of an authorisation request cryptogram.
const ARQC: u8 = 0x80;

/// The line of the verdict.
fn text_of(verdict: &Verdict) -> ArrayVec<u8, LINE_ROOM> {
    let mut text = ArrayVec::new();
    write_verdict(verdict, &mut text);
    text
}

/// How the fields of a line differ from those of the decided transaction.
#[derive(Clone, Copy)]
enum Change {
    Nothing,
    Amount,
    Currency,
    Date,
    Unpredictable,
    TerminalResults,
    Atc,
    Card,
    Keys,
}

/// The fields of the transaction at its end with this cryptogram information data, changed.
fn changed(cid: u8, change: Change) -> Option<Parts> {
    let mut parts = ended(cid)?;
    match change {
        Change::Nothing => {}
        Change::Amount => parts.amount[5] = 0x46,
        Change::Currency => parts.currency = [0x08, 0x40],
        Change::Date => parts.date[2] = 0x16,
        Change::Unpredictable => parts.un[3] = 0x4E,
        Change::TerminalResults => parts.tvr = [0; 5],
        Change::Atc => parts.atc = 8,
        Change::Card => parts.pan = Pan::new(&[4, 0, 0, 0, 0, 0, 0, 0, 0, 0, 0, 0, 0, 0, 2, 8])?,
        Change::Keys => parts.iad[2] = 0x09,
    }
    Some(parts)
}

#[test]
fn compares_what_a_card_presents_with_the_record(rt: HostRuntime) -> Result<(), Fail> {
    let issuer = sample(rt.alloc()).ok_or("an issuer")?;
    for (approve, cid, change, expected) in [
        (true, TC, Change::Nothing, "certified 0 0\n"),
        (false, TC, Change::Nothing, "against 0 0\n"),
        (true, AAC, Change::Nothing, "declined 0 0\n"),
        (false, AAC, Change::Nothing, "declined 0 0\n"),
        (true, TC, Change::Amount, "differs 0 0\n"),
        (true, TC, Change::Currency, "differs 0 0\n"),
        (true, TC, Change::Date, "differs 0 0\n"),
        (true, TC, Change::Unpredictable, "differs 0 0\n"),
        (false, AAC, Change::Amount, "differs 0 0\n"),
        (true, TC, Change::TerminalResults, "certified 0 0\n"),
        (true, TC, Change::Atc, "lone\n"),
    ] {
        let mut book = book(rt.alloc(), &issuer, approve).ok_or("a book")?;
        let parts = changed(cid, change).ok_or("the fields")?;
        let line = certificate(&issuer, parts).ok_or("a line")?;
        let text = text_of(&book.judge(&issuer, line.as_slice()));
        assert_eq!(rt; text.as_slice(), expected.as_bytes(), "{approve} {cid}");
    }
    Ok(())
}

#[test]
fn refuses_fields_at_their_first_fault(rt: HostRuntime) -> Result<(), Fail> {
    let issuer = sample(rt.alloc()).ok_or("an issuer")?;
    let mut book = book(rt.alloc(), &issuer, true).ok_or("a book")?;
    for (name, cid, change, expected) in [
        ("an unknown card", ARQC, Change::Card, "refused 6\n"),
        ("an ARQC", ARQC, Change::Nothing, "refused 17\n"),
        (
            "a reserved cryptogram",
            0xC0,
            Change::Nothing,
            "refused 17\n",
        ),
        (
            "an ARQC of unknown keys",
            ARQC,
            Change::Keys,
            "refused 17\n",
        ),
        ("unknown keys", TC, Change::Keys, "refused 8 09\n"),
        (
            "the cryptogram of another amount",
            TC,
            Change::Amount,
            "refused 9\n",
        ),
    ] {
        let request = Request::new(changed(cid, change).ok_or("the fields")?).ok_or("a request")?;
        let text = text_of(&book.judge(&issuer, request_line(&request).as_slice()));
        assert_eq!(rt; text.as_slice(), expected.as_bytes(), "{name}");
    }
    Ok(())
}

#[test]
fn refuses_lines_of_other_forms(rt: HostRuntime) -> Result<(), Fail> {
    let issuer = sample(rt.alloc()).ok_or("an issuer")?;
    let mut book = book(rt.alloc(), &issuer, true).ok_or("a book")?;
    for (name, line, expected) in [
        ("an empty line", "", "refused 1 1\n"),
        (
            "a command",
            "Q 4000000000000002 00 8424000000",
            "refused 1 1\n",
        ),
        ("a status", "S 4000000000000002 00 1", "refused 1 1\n"),
        (
            "a status cut short",
            "S 4000000000000002 00 ",
            "refused 1 23\n",
        ),
        ("a torn object", "A 9C", "refused 2 0\n"),
        ("no account number", "A 9C0100", "refused 3 5a\n"),
        (
            "a short date",
            "A 5A0840000000000000029A0126",
            "refused 3 82\n",
        ),
    ] {
        let text = text_of(&book.judge(&issuer, line.as_bytes()));
        assert_eq!(rt; text.as_slice(), expected.as_bytes(), "{name}");
    }
    Ok(())
}
