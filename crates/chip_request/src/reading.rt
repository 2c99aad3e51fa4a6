//! The parser of a request's chip data.
ghost use Rattle.std.specs.Prelude.{◌≡◌, ◌≤◌, ◌<◌, ◌+◌, ◌^◌, ℕ, None, length, map, OnOk, IfErr};
ghost use Rattle.tlv_objects.specs.Tlv.{objects_of, objects_ahead};
ghost use Rattle.chip_request.specs.Fields.{fields};
ghost use Rattle.chip_request.specs.Reading.{request_of};
ghost use Rattle.chip_request.specs.Slots.{fault_among, request_in, unfound, with_objects};
ghost use Rattle.chip_request.specs.SlotViews.{founds_in};

use crate::form::account_number;
use crate::slots::{Slots, Wrong};
use issuer_base::{MAX_CHIP_BYTES, Parts, Request};
use tlv_objects::{Objects, TlvFault};

/// Why chip data are no request: the first of these that applies.
#[derive(Clone, Copy, Debug, PartialEq, Eq)]
pub enum RequestFault {
    /// No BER-TLV object begins at this offset.
    BadTlv(u32),
    /// No object has this tag, which is required.
    Missing(u32),
    /// The value of the first object with this tag isn't of the field's form.
    BadField(u32),
    /// Two objects have this tag.
    Repeated(u32),
}

/// Parses chip data as a request. The data are BER-TLV objects in any order; objects of other tags are skipped.
/// A torn text is refused first, then a missing field, a malformed one and a repeated one. Each time it is the first in
/// the order of the table.
#[inline(always)]
pub fn read_request(bytes: &[u8]) -> Result<Request, RequestFault>
    requires { length bytes.now ≤ MAX_CHIP_BYTES }
    ensures { result ≡ request_of bytes.now }
{
    let mut slots = Slots::unfound();
    note_all(&mut slots, Objects::new(bytes))?;
    if slots.are_single() && slots.have_sizes() {
        if let Some(request) = request_in(&slots) {
            return Ok(request);
        }
    }
    Err(first_fault(&slots).unwrap())
}

/// The first fault of the fields in the slots.
#[tactic(auto, unfolding(crate::specs::Slots::fault_among))]
fn first_fault(slots: &Slots<'_>) -> Option<RequestFault>
    ensures { result ≡ fault_among (founds_in slots.now) }
{
    if let Some(tag) = slots.first_wrong(Wrong::Missing) {
        return Some(RequestFault::Missing(tag));
    }
    if let Some(tag) = slots.first_wrong(Wrong::Misformed) {
        return Some(RequestFault::BadField(tag));
    }
    if let Some(tag) = slots.first_wrong(Wrong::Repeated) {
        return Some(RequestFault::Repeated(tag));
    }
    None
}

// Notes the unread objects of a cursor, up to the end of its text.
fn note_all<'a>(slots: &mut Slots<'a>, mut objects: Objects<'a>) -> Result<(), RequestFault>
    requires { objects.at + length objects.bytes < 2 ^ 32 }
    ensures ok { OnOk result (((objects_ahead objects.entry).torn ≡ None)
        × (founds_in slots.new ≡ with_objects (founds_in slots.old) (objects_ahead objects.entry).objects)) }
    ensures err { IfErr result (λ fault. (place : ℕ)
        × ((objects_ahead objects.entry).torn ≡ Some place) × (fault ≡ RequestFault.BadTlv place)) }
{
    note_short(slots, &mut objects);
    while let Some(item) = objects.next() {
        match item {
            Ok(object) => slots.note(object),
            Err(TlvFault::Torn(at)) => return Err(RequestFault::BadTlv(at as u32)),
        }
        note_short(slots, &mut objects);
    }
    Ok(())
}

// Notes the next objects of a cursor, up to one that doesn't begin as most do.
#[inline(always)]
fn note_short<'a>(slots: &mut Slots<'a>, objects: &mut Objects<'a>)
    ensures found { with_objects (founds_in slots.new) (objects_ahead objects.new).objects
        ≡ with_objects (founds_in slots.old) (objects_ahead objects.old).objects }
    ensures torn { (objects_ahead objects.new).torn ≡ (objects_ahead objects.old).torn }
    ensures end { objects.new.at + length objects.new.bytes ≡ objects.old.at + length objects.old.bytes }
    ensures shorter { length objects.new.bytes ≤ length objects.old.bytes }
{
    while let Some(object) = objects.next_short() {
        slots.note(object);
    }
}

// The request in the slots, if their values make one.
#[tactic(auto, unfolding(crate::specs::Slots::request_in))]
#[inline(always)]
fn request_in(slots: &Slots<'_>) -> Option<Request>
    ensures { result ≡ request_in (founds_in slots.now) }
{
    let pan = account_number(slots.first_value(0x5A)?)?;
    Request::new(Parts {
        pan,
        psn: slots.bytes_or(0x5F34, &[0; 1])[0],
        aip: *slots.bytes_or(0x82, &[0; 2]),
        atc: u16::from_be_bytes(*slots.bytes_or(0x9F36, &[0; 2])),
        tvr: *slots.bytes_or(0x95, &[0; 5]),
        date: *slots.bytes_or(0x9A, &[0; 3]),
        kind: slots.bytes_or(0x9C, &[0; 1])[0],
        amount: *slots.bytes_or(0x9F02, &[0; 6]),
        other: *slots.bytes_or(0x9F03, &[0; 6]),
        country: *slots.bytes_or(0x9F1A, &[0; 2]),
        currency: *slots.bytes_or(0x5F2A, &[0; 2]),
        un: *slots.bytes_or(0x9F37, &[0; 4]),
        cid: slots.bytes_or(0x9F27, &[0; 1])[0],
        iad: *slots.bytes_or(0x9F10, &[0; 32]),
        ac: *slots.bytes_or(0x9F26, &[0; 8]),
    })
}
