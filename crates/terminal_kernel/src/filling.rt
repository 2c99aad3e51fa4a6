//! A list of data objects, filled.
ghost use Rattle.std.specs.Prelude.{◌≡◌, ◌+◌, ◌-◌, ◌<◌, ◌≤◌, ◌++◌, length, replicate, Option, Some, None};
ghost use Rattle.arrayvec.specs.ArrayVec.{array_vec_len};
ghost use Rattle.terminal_kernel.specs.Dol.{total_length};
ghost use Rattle.terminal_kernel.specs.Given.{value_of};
ghost use Rattle.terminal_kernel.specs.Filling.{filled, filled_entry, fitted, is_constructed, is_numeric, is_compressed_numeric, left_justified, right_justified};

use crate::dol::DolEntry;
use crate::given::Data;
use crate::limits::MAX_FILLED_BYTES;
use arrayvec::ArrayVec;
use tlv_objects::tag_bytes;

type Filled = ArrayVec<u8, MAX_FILLED_BYTES>;

/// The bytes of a filled DOL, entry by entry: EMV 4.3 Book 3, section 5.4, "Rules for using a DOL".
pub fn fill(dol: &[DolEntry], given: &Data) -> ArrayVec<u8, MAX_FILLED_BYTES>
    requires { total_length dol.now ≤ MAX_FILLED_BYTES }
    ensures exact { result.items ≡ filled given.now dol.now }
    ensures size { array_vec_len result ≡ total_length dol.now }
{
    let mut out = Filled::new();
    for entry in dol {
        put_entry(&mut out, entry, given);
    }
    out
}

fn put_entry(out: &mut Filled, entry: &DolEntry, given: &Data)
    requires { array_vec_len out.old + entry.now.length ≤ MAX_FILLED_BYTES }
    ensures bytes { out.new.items ≡ out.old.items ++ filled_entry given.now entry.now }
    ensures size { array_vec_len out.new ≡ array_vec_len out.old + entry.now.length }
{
    let size = usize::from(entry.length);
    if is_constructed(entry.tag) {
        put_copies(out, 0x00, size);
        return;
    }
    match given.get(entry.tag) {
        Some(value) => put_fitted(out, entry.tag, size, value),
        None => put_copies(out, 0x00, size),
    }
}

/// Appends a value in so many bytes, as the format of its tag says.
fn put_fitted(out: &mut Filled, tag: u32, size: usize, value: &[u8])
    requires { array_vec_len out.old + size ≤ MAX_FILLED_BYTES }
    ensures bytes { out.new.items ≡ out.old.items ++ fitted tag size value.now }
    ensures size { array_vec_len out.new ≡ array_vec_len out.old + size }
{
    if is_numeric(tag) {
        put_right(out, size, value);
        return;
    }
    let filling = if is_compressed_numeric(tag) {
        0xFF
    } else {
        0x00
    };
    put_left(out, size, value, filling);
}

/// Appends the last bytes of a value, with 00 bytes before it where it is shorter.
fn put_right(out: &mut Filled, size: usize, value: &[u8])
    requires { array_vec_len out.old + size ≤ MAX_FILLED_BYTES }
    ensures bytes { out.new.items ≡ out.old.items ++ right_justified size value.now }
    ensures size { array_vec_len out.new ≡ array_vec_len out.old + size }
{
    if value.len() >= size {
        out.try_extend_from_slice(&value[value.len() - size..])
            .unwrap();
        return;
    }
    put_copies(out, 0x00, size - value.len());
    out.try_extend_from_slice(value).unwrap();
}

/// Appends the first bytes of a value, with filling bytes after it where it is shorter.
fn put_left(out: &mut Filled, size: usize, value: &[u8], filling: u8)
    requires { array_vec_len out.old + size ≤ MAX_FILLED_BYTES }
    ensures bytes { out.new.items ≡ out.old.items ++ left_justified filling size value.now }
    ensures size { array_vec_len out.new ≡ array_vec_len out.old + size }
{
    if value.len() >= size {
        out.try_extend_from_slice(&value[..size]).unwrap();
        return;
    }
    out.try_extend_from_slice(value).unwrap();
    put_copies(out, filling, size - value.len());
}

fn put_copies(out: &mut Filled, byte: u8, count: usize)
    requires { array_vec_len out.old + count ≤ MAX_FILLED_BYTES }
    ensures bytes { out.new.items ≡ out.old.items ++ replicate count byte }
    ensures size { array_vec_len out.new ≡ array_vec_len out.old + count }
{
    let bytes = [byte; MAX_FILLED_BYTES];
    out.try_extend_from_slice(&bytes[..count]).unwrap();
}

/// Whether a tag is that of a constructed data object: bit 6 of its first byte.
fn is_constructed(tag: u32) -> bool
    ensures { result ≡ is_constructed tag }
{
    tag_bytes(tag).as_slice()[0] & 0x20 == 0x20
}

/// Whether the data object with this tag has format n: decimal digits, two a byte, which end at the right.
fn is_numeric(tag: u32) -> bool
    ensures { result ≡ is_numeric tag }
{
    matches!(
        tag,
        0x5F34 | 0x9A | 0x9C | 0x9F02 | 0x9F03 | 0x9F1A | 0x5F2A
    )
}

/// Whether it has format cn: decimal digits, two a byte, which begin at the left, with nibbles F after them.
fn is_compressed_numeric(tag: u32) -> bool
    ensures { result ≡ is_compressed_numeric tag }
{
    tag == 0x5A
}
