//! The parser of a record's line.
ghost use Rattle.std.specs.Prelude.{◌≡◌, ◌↔◌, option_map};
ghost use Rattle.issuer_base.specs.declared.entry.Entry.{Entry};
ghost use Rattle.journal_rec.specs.Record.{IsLineOf};
ghost use Rattle.journal_rec.specs.Reading.{approval_at, after_letter, card_at, decided_at, entry_at, parts_at, psn_at, queued_at, reply_at, status_at};

use crate::limits::COMMAND_BYTES;
use crate::record_line::Line;
use issuer_base::{Entry, NotEntry, Pan, Parts, Reply, Request, is_decimal};
use script_commands::read_command;

/// Parses a line, without its newline, as a record. The error `NotEntry` means that the line is that of no record.
pub fn read_entry(line: &[u8]) -> Result<Entry, NotEntry>
    ensures { (entry : Entry) → (result ≡ Ok entry) ↔ IsLineOf entry line.now }
{
    entry(&mut Line::new(line)).ok_or(NotEntry)
}

#[tactic(auto, unfolding(crate::specs::Reading::entry_at))]
fn entry(line: &mut Line) -> Option<Entry>
    ensures { option_map (λ entry. (entry, line.new)) result ≡ entry_at line.old }
{
    let letter = line.next()?;
    let entry = after_letter(line, letter)?;
    line.end()?;
    Some(entry)
}

// Each kind of line has a call of its own, since inlined, each line would pay for the values of all three.
fn after_letter(line: &mut Line, letter: u8) -> Option<Entry>
    ensures { option_map (λ entry. (entry, line.new)) result ≡ after_letter letter line.old }
{
    match letter {
        b'd' => decided(line),
        b'q' => queued(line),
        b's' => status(line),
        _ => None,
    }
}

#[inline(never)]
#[tactic(auto, unfolding(crate::specs::Reading::decided_at, crate::specs::Reading::request_at))]
fn decided(line: &mut Line) -> Option<Entry>
    ensures { option_map (λ entry. (entry, line.new)) result ≡ decided_at line.old }
{
    line.mark(b' ')?;
    let request = Request::new(parts(line)?)?;
    line.mark(b' ')?;
    let reply = reply(line)?;
    Some(Entry::Decided { request, reply })
}

#[tactic(auto, unfolding(crate::specs::Reading::parts_at))]
fn parts(line: &mut Line) -> Option<Parts>
    ensures { option_map (λ parts. (parts, line.new)) result ≡ parts_at line.old }
{
    Some(Parts {
        pan: line.pan()?,
        psn: line.byte()?,
        aip: line.bytes()?,
        atc: line.counter()?,
        tvr: line.bytes()?,
        date: line.bytes()?,
        kind: line.byte()?,
        amount: line.bytes()?,
        other: line.bytes()?,
        country: line.bytes()?,
        currency: line.bytes()?,
        un: line.bytes()?,
        cid: line.byte()?,
        iad: line.bytes()?,
        ac: line.bytes()?,
    })
}

#[tactic(auto, unfolding(crate::specs::Reading::reply_at))]
fn reply(line: &mut Line) -> Option<Reply>
    ensures { option_map (λ reply. (reply, line.new)) result ≡ reply_at line.old }
{
    let arc = line.bytes()?;
    line.mark(b' ')?;
    let approve = approval(line)?;
    line.mark(b' ')?;
    let bytes = line.rest()?;
    if bytes.is_empty() {
        return None;
    }
    Some(Reply {
        arc,
        approve,
        bytes,
    })
}

#[tactic(auto, unfolding(crate::specs::Reading::approval_at))]
fn approval(line: &mut Line) -> Option<bool>
    ensures { option_map (λ approve. (approve, line.new)) result ≡ approval_at line.old }
{
    match line.next()? {
        b'1' => Some(true),
        b'0' => Some(false),
        _ => None,
    }
}

#[inline(never)]
#[tactic(auto, unfolding(crate::specs::Reading::queued_at))]
fn queued(line: &mut Line) -> Option<Entry>
    ensures { option_map (λ entry. (entry, line.new)) result ≡ queued_at line.old }
{
    let (pan, psn) = card(line)?;
    let bytes = line.rest::<COMMAND_BYTES>()?;
    let command = read_command(bytes.as_slice()).ok()?;
    Some(Entry::Queued { pan, psn, command })
}

#[inline(never)]
#[tactic(auto, unfolding(crate::specs::Reading::status_at))]
fn status(line: &mut Line) -> Option<Entry>
    ensures { option_map (λ entry. (entry, line.new)) result ≡ status_at line.old }
{
    let (pan, psn) = card(line)?;
    let digit = line.next()?;
    if !digit.is_ascii_digit() {
        return None;
    }
    Some(Entry::Status {
        pan,
        psn,
        status: digit - b'0',
    })
}

#[tactic(auto, unfolding(crate::specs::Reading::card_at))]
fn card(line: &mut Line) -> Option<(Pan, u8)>
    ensures { option_map (λ card. (card, line.new)) result ≡ card_at line.old }
{
    line.mark(b' ')?;
    let pan = line.pan()?;
    line.mark(b' ')?;
    let psn = sequence_number(line)?;
    line.mark(b' ')?;
    Some((pan, psn))
}

#[tactic(auto, unfolding(crate::specs::Reading::psn_at))]
fn sequence_number(line: &mut Line) -> Option<u8>
    ensures { option_map (λ psn. (psn, line.new)) result ≡ psn_at line.old }
{
    let psn = line.byte()?;
    if !is_decimal(psn) {
        return None;
    }
    Some(psn)
}
