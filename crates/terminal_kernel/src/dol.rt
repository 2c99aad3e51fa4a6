//! A list of data objects (DOL), read: EMV 4.3 Book 3, section 5.4.
ghost use Rattle.std.specs.Prelude.{◌≡◌, ◌≤◌, IfOk, option_map};
ghost use Rattle.terminal_kernel.specs.Dol.{dol_of, front_entry, is_within, total_length};

use crate::limits::{MAX_ENTRIES, MAX_FILLED_BYTES};
use arrayvec::ArrayVec;
use tlv_objects::read_tag;

/// An entry of a DOL: a data object that a card asks the terminal for, and in how many bytes.
#[derive(Clone, Copy, Debug, Default, PartialEq, Eq)]
pub struct DolEntry {
    /// The one to three bytes of the tag as a big-endian number, as 0x9F02.
    pub tag: u32,
    /// How many bytes the data object gets in the filled list.
    pub length: u8,
    /// The offset in the list where the entry begins.
    pub at: usize,
}

/// The first entry that a DOL may not have: it is torn, its tag has more than three bytes, it is the 65th, or it
/// brings the sum of the lengths above 252.
#[derive(Clone, Copy, Debug, PartialEq, Eq)]
pub struct BadDol {
    /// The offset in the list where that entry begins.
    pub at: usize,
}

/// The entries of a DOL, each a BER-TLV tag of one to three bytes and one byte of length.
pub fn read_dol(bytes: &[u8]) -> Result<ArrayVec<DolEntry, MAX_ENTRIES>, BadDol>
    ensures exact { result ≡ dol_of bytes.now }
    ensures short { IfOk result (λ dol. total_length dol.items ≤ MAX_FILLED_BYTES) }
{
    let mut entries = ArrayVec::new();
    let mut total = 0;
    let mut unread = bytes;
    while !unread.is_empty() {
        let at = bytes.len() - unread.len();
        let Some((tag, length, rest)) = read_entry(unread) else {
            return Err(BadDol { at });
        };
        total += usize::from(length);
        if !is_within(entries.len() + 1, total) {
            return Err(BadDol { at });
        }
        entries.push(DolEntry { tag, length, at });
        unread = rest;
    }
    Ok(entries)
}

/// Whether so many entries, whose lengths have this sum, are no more than a DOL may have.
fn is_within(count: usize, total: usize) -> bool
    ensures { result ≡ is_within count total }
{
    count <= MAX_ENTRIES && total <= MAX_FILLED_BYTES
}

/// The tag and the length of the first entry, and the bytes after it.
#[tactic(auto, unfolding(crate::specs::Dol::front_entry))]
fn read_entry(bytes: &[u8]) -> Option<(u32, u8, &[u8])>
    ensures { option_map (λ found. record { tag = found.0; size = found.1; rest = found.2.now }) result
        ≡ front_entry bytes.now }
{
    let (tag, rest) = read_tag(bytes)?;
    let [length, rest @ ..] = rest else {
        return None;
    };
    Some((tag, *length, rest))
}
