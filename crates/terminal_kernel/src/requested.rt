//! The data objects of a request.
ghost use Rattle.std.specs.Prelude.{◌≡◌, ◌+◌, ◌<◌, ◌≤◌, ◌++◌, length, IsTrue, Ok};
ghost use Rattle.hex.specs.Hex.{IsBytes};
ghost use Rattle.arrayvec.specs.ArrayVec.{array_vec_len};
ghost use Rattle.tlv_objects.specs.Writing.{is_tag_number, object_text, tag_bytes};
ghost use Rattle.chip_request.specs.Reading.{request_of};
ghost use Rattle.terminal_kernel.specs.Held.{IsHeld};
ghost use Rattle.terminal_kernel.specs.Requested.{chip_data};

use crate::limits::MAX_REQUEST_BYTES;
use crate::number::number_bytes;
use arrayvec::ArrayVec;
use issuer_base::{MAX_CHIP_BYTES, Request};
use tlv_objects::{ROOM, put};

/// The data objects of a request: its fifteen fields in the order of their table, each in its shortest form, with an
/// account number in as few bytes as say it. `read_request` parses them as just this request.
pub fn request_objects(request: &Request) -> ArrayVec<u8, MAX_CHIP_BYTES>
    ensures bytes { result.items ≡ chip_data request.now }
    ensures size { length result.items ≤ MAX_REQUEST_BYTES }
    ensures read { request_of result.items ≡ Ok request.now }
{
    let mut text = ArrayVec::new();
    text.try_extend_from_slice(chip_data(request).as_slice())
        .unwrap();
    text
}

fn chip_data(request: &Request) -> ArrayVec<u8, ROOM>
    ensures bytes { result.items ≡ chip_data request.now }
    ensures held { IsHeld request.now }
{
    let parts = request.parts();
    let mut out = ArrayVec::new();
    put_field(&mut out, 0x5A, number_bytes(&parts.pan).as_slice());
    put_field(&mut out, 0x5F34, &[parts.psn]);
    put_field(&mut out, 0x82, &parts.aip);
    put_field(&mut out, 0x95, &parts.tvr);
    put_field(&mut out, 0x9A, &parts.date);
    put_field(&mut out, 0x9C, &[parts.kind]);
    put_field(&mut out, 0x9F02, &parts.amount);
    put_field(&mut out, 0x9F03, &parts.other);
    put_field(&mut out, 0x9F10, &parts.iad);
    put_field(&mut out, 0x9F1A, &parts.country);
    put_field(&mut out, 0x5F2A, &parts.currency);
    put_field(&mut out, 0x9F26, &parts.ac);
    put_field(&mut out, 0x9F27, &[parts.cid]);
    put_field(&mut out, 0x9F36, &parts.atc.to_be_bytes());
    put_field(&mut out, 0x9F37, &parts.un);
    out
}

// Appends a field, for which there is room.
fn put_field(out: &mut ArrayVec<u8, ROOM>, tag: u32, value: &[u8])
    requires tag { IsTrue (is_tag_number tag) }
    requires short { length value.now < 128 }
    requires room { array_vec_len out.old + (length (tag_bytes tag) + (1 + length value.now)) ≤ ROOM }
    ensures text { out.new.items ≡ out.old.items ++ object_text tag value.now }
    ensures room { array_vec_len out.new ≡ array_vec_len out.old + (length (tag_bytes tag) + (1 + length value.now)) }
    ensures bytes { IsBytes value.now }
{
    put(out, tag, value).unwrap();
}
