//! Writing the line of a record.
ghost use Rattle.std.specs.Prelude.{◌≡◌, ◌+◌, ◌*◌, ◌^◌, ◌<◌, ◌≤◌, [], ◌∷◌, ◌++◌, length, map, IsTrue};
ghost use Rattle.hex.specs.Hex.{encode_lower, IsBytes};
ghost use Rattle.arrayvec.specs.ArrayVec.{array_vec_len};
ghost use Rattle.issuer_base.specs.ScriptCommand.{command_bytes};
ghost use Rattle.issuer_base.specs.CardNumber.{is_pan};
ghost use Rattle.journal_rec.specs.RecordText.{pan_bytes, request_bytes, request_fields, text_of};
ghost use Rattle.journal_rec.specs.Record.{IsCommand, IsRecord, IsReply, IsRequest, is_record, request_sizes};

use crate::limits::{COMMAND_BYTES, RECORD_ROOM, REQUEST_BYTES};
use crate::pan::pan_bytes;
use arrayvec::ArrayVec;
use hex_lower::encode_into;
use issuer_base::{Command, Entry, MAX_BODY_BYTES, MAX_REPLY_BYTES, Pan, Parts, Reply, Request};

const NEWLINE: u8 = b'\n';

/// What stands for the digits of a word until they are written: as many as the longest reply has.
const BLANKS: [u8; 2 * MAX_REPLY_BYTES] = [0; 2 * MAX_REPLY_BYTES];

/// The text of a record: its line, and the newline that ends it. The reply of a decided request must not be empty. A
/// sequence number must be two decimal digits, a queued command one that the host sends, and a status 0 to 9.
pub fn write_entry(entry: &Entry) -> ArrayVec<u8, RECORD_ROOM>
    requires { IsTrue (is_record entry.now) }
    ensures text { result.items ≡ text_of entry.now }
    ensures record { IsRecord entry.now }
{
    match entry {
        Entry::Decided { request, reply } => decided_line(request, reply),
        Entry::Queued { pan, psn, command } => queued_line(pan, *psn, command),
        Entry::Status { pan, psn, status } => status_line(pan, *psn, *status),
    }
}

/// Writes the text of a decided request into an empty line: the text that [`write_entry`] returns for the entry with
/// this request and reply. The reply must not be empty.
#[tactic(auto, unfolding(crate::specs::RecordText::text_of))]
pub fn write_decided(line: &mut ArrayVec<u8, RECORD_ROOM>, request: &Request, reply: &Reply)
    requires empty { line.old.items ≡ [] }
    requires some { 1 ≤ length reply.now.bytes.items }
    ensures text { line.new.items ≡ text_of (Entry.Decided request.now reply.now) }
    ensures record { IsRecord (Entry.Decided request.now reply.now) }
{
    line.push(b'd');
    put_word(line, request_bytes(request.parts()).as_slice());
    put_word(line, &reply.arc);
    line.push(b' ');
    line.push(if reply.approve { b'1' } else { b'0' });
    put_word(line, reply.bytes.as_slice());
    line.push(NEWLINE);
}

/// The text of a decided request.
fn decided_line(request: &Request, reply: &Reply) -> ArrayVec<u8, RECORD_ROOM>
    requires { 1 ≤ length reply.now.bytes.items }
    ensures text { result.items ≡ text_of (Entry.Decided request.now reply.now) }
    ensures record { IsRecord (Entry.Decided request.now reply.now) }
{
    let mut line = ArrayVec::new();
    write_decided(&mut line, request, reply);
    line
}

#[tactic(auto, unfolding(crate::specs::RecordText::text_of))]
fn queued_line(pan: &Pan, psn: u8, command: &Command) -> ArrayVec<u8, RECORD_ROOM>
    ensures text { result.items ≡ text_of (Entry.Queued pan.now psn command.now) }
    ensures card { IsTrue (is_pan pan.now) × (psn < 256) }
    ensures command { IsCommand command.now }
{
    let mut line = card_line(b'q', pan, psn);
    put_word(&mut line, command_bytes(command).as_slice());
    line.push(NEWLINE);
    line
}

fn status_line(pan: &Pan, psn: u8, status: u8) -> ArrayVec<u8, RECORD_ROOM>
    requires { status ≤ 9 }
    ensures text { result.items ≡ text_of (Entry.Status pan.now psn status) }
    ensures card { IsTrue (is_pan pan.now) × (psn < 256) }
{
    let mut line = card_line(b's', pan, psn);
    line.push(b' ');
    line.push(b'0' + status);
    line.push(NEWLINE);
    line
}

/// The first words of a line: a letter, and the card.
fn card_line(letter: u8, pan: &Pan, psn: u8) -> ArrayVec<u8, RECORD_ROOM>
    ensures text { result.items ≡ letter ∷ (32 ∷ encode_lower (pan_bytes pan.now) ++ 32 ∷ encode_lower (psn ∷ [])) }
    ensures room { array_vec_len result ≡ 25 }
    ensures card { IsTrue (is_pan pan.now) × (psn < 256) }
{
    let mut line = ArrayVec::new();
    line.push(letter);
    put_word(&mut line, &pan_bytes(pan));
    put_word(&mut line, &[psn]);
    line
}

fn command_bytes(command: &Command) -> ArrayVec<u8, COMMAND_BYTES>
    ensures bytes { result.items ≡ command_bytes command.now }
    ensures size { length command.now.body.items ≤ MAX_BODY_BYTES }
{
    let mut bytes = ArrayVec::new();
    put(
        &mut bytes,
        &[command.cla, command.ins, command.p1, command.p2],
    );
    put(&mut bytes, command.body.as_slice());
    bytes
}

/// Appends a space, and the bytes in hexadecimal.
fn put_word(line: &mut ArrayVec<u8, RECORD_ROOM>, bytes: &[u8])
    requires short { length bytes.now ≤ MAX_REPLY_BYTES }
    requires room { array_vec_len line.old + (2 * length bytes.now + 1) ≤ RECORD_ROOM }
    ensures text { line.new.items ≡ line.old.items ++ 32 ∷ encode_lower bytes.now }
    ensures room { array_vec_len line.new ≡ array_vec_len line.old + (2 * length bytes.now + 1) }
    ensures bytes { IsBytes bytes.now }
{
    line.push(b' ');
    let start = line.len();
    put(line, &BLANKS[..2 * bytes.len()]);
    encode_into(bytes, &mut line.as_mut_slice()[start..]);
}

/// Appends these bytes.
fn put<const CAP: usize>(out: &mut ArrayVec<u8, CAP>, bytes: &[u8])
    requires { array_vec_len out.old + length bytes.now ≤ CAP }
    ensures text { out.new.items ≡ out.old.items ++ bytes.now }
    ensures room { array_vec_len out.new ≡ array_vec_len out.old + length bytes.now }
{
    out.try_extend_from_slice(bytes).unwrap();
}

/// The fields of a request, one after another.
fn request_bytes(parts: &Parts) -> ArrayVec<u8, REQUEST_BYTES>
    ensures bytes { result.items ≡ request_bytes parts.now }
    ensures sizes { map length (request_fields parts.now) ≡ request_sizes }
    ensures pan { IsTrue (is_pan parts.now.pan) }
    ensures counter { parts.now.atc < 2 ^ 16 }
{
    let mut bytes = ArrayVec::new();
    put(&mut bytes, &pan_bytes(&parts.pan));
    put(&mut bytes, &[parts.psn]);
    put(&mut bytes, &parts.aip);
    put(&mut bytes, &parts.atc.to_be_bytes());
    put(&mut bytes, &parts.tvr);
    put(&mut bytes, &parts.date);
    put(&mut bytes, &[parts.kind]);
    put(&mut bytes, &parts.amount);
    put(&mut bytes, &parts.other);
    put(&mut bytes, &parts.country);
    put(&mut bytes, &parts.currency);
    put(&mut bytes, &parts.un);
    put(&mut bytes, &[parts.cid]);
    put(&mut bytes, &parts.iad);
    put(&mut bytes, &parts.ac);
    bytes
}
