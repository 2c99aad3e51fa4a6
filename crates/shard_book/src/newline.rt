//! Newlines in a text and in a store.
ghost use Rattle.std.specs.Prelude.{◌<◌, ◌≤◌, length, drop, MatchBool, MatchOption, IfOk, IfSome, is_err};
ghost use Rattle.journal_rec.specs.RecordText.{IsUnbroken};
ghost use Rattle.shard_book.specs.LineAhead.{HasLineAhead, IsLineAhead};
ghost use Rattle.shard_book.specs.Loads.{Reads};

use issuer_base::{Store, StoreFail};
use journal_store::read_from;
use memchr::memchr;

/// How many bytes are before the first newline.
pub fn first_newline(bytes: &[u8]) -> Option<usize>
    ensures { MatchOption result (IsUnbroken bytes.now) (IsLineAhead bytes.now) }
{
    memchr(b'\n', bytes)
}

/// How many bytes are before the first newline from an offset on.
pub(crate) fn next_newline(text: &[u8], from: usize) -> Option<usize>
    requires { from ≤ length text.now }
    ensures { MatchOption result (IsUnbroken (drop from text.now)) (IsLineAhead (drop from text.now)) }
{
    first_newline(&text[from..])
}

/// Whether a store has a newline from an offset on. The buffer is for its parts.
pub fn has_newline<S: Store>(store: &mut S, from: u64, buffer: &mut [u8]) -> Result<bool, StoreFail>
    requires within { from ≤ S.size store.old }
    requires room { 0 < length buffer.old }
    ensures found { IfOk result (λ found. IfSome (S.bytes store.old)
        (λ text. MatchBool found (HasLineAhead (drop from text)) (IsUnbroken (drop from text)))) }
    ensures read { Reads S.size S.bytes S.disk S.room S.faults (is_err result) store.old store.new }
{
    let mut at = from;
    'parts: while at < store.len() {
        let Ok(count) = read_from(store, at, buffer) else {
            return Err(StoreFail);
        };
        if first_newline(&buffer[..count]).is_some() {
            return Ok(true);
        }
        at += count as u64;
    }
    Ok(false)
}
