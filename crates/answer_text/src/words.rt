//! The words of a line, each appended to what is written already.
ghost use Rattle.std.specs.Prelude.{◌≡◌, ◌+◌, ◌*◌, ◌<◌, ◌≤◌, [], ◌∷◌, ◌++◌, length};
ghost use Rattle.std.specs.Fmt.{decimal};
ghost use Rattle.hex.specs.Hex.{encode_lower};
ghost use Rattle.arrayvec.specs.ArrayVec.{array_vec_len};
ghost use Rattle.tlv_objects.specs.Writing.{tag_bytes};

use arrayvec::ArrayVec;
use hex_lower::encode_into;
use itoa::Buffer;
use tlv_objects::tag_bytes;

/// The capacity in bytes of the buffer of a line; the longest line has 360.
pub const LINE_ROOM: usize = 512;

/// What stands for digits until they are written.
const BLANKS: [u8; LINE_ROOM] = [0; LINE_ROOM];

/// Appends the text. The line needs room for it.
pub fn put(out: &mut ArrayVec<u8, LINE_ROOM>, text: &[u8])
    requires { array_vec_len out.old + length text.now ≤ LINE_ROOM }
    ensures text { out.new.items ≡ out.old.items ++ text.now }
    ensures room { array_vec_len out.new ≡ array_vec_len out.old + length text.now }
{
    out.try_extend_from_slice(text).unwrap();
}

/// Appends a space, and the number in decimal digits. The line needs room for them.
pub fn put_number(out: &mut ArrayVec<u8, LINE_ROOM>, number: u64)
    requires { array_vec_len out.old + 21 ≤ LINE_ROOM }
    ensures text { out.new.items ≡ out.old.items ++ 32 ∷ decimal number }
    ensures room { array_vec_len out.new ≤ array_vec_len out.old + 21 }
{
    out.push(b' ');
    if number < 1000 {
        put_short(out, number);
    } else {
        put_long(out, number);
    }
}

/// Appends a number of any size; apart from [`put_number`], so that a short number takes no buffer.
#[inline(never)]
fn put_long(out: &mut ArrayVec<u8, LINE_ROOM>, number: u64)
    requires { array_vec_len out.old + 20 ≤ LINE_ROOM }
    ensures text { out.new.items ≡ out.old.items ++ decimal number }
    ensures room { array_vec_len out.new ≤ array_vec_len out.old + 20 }
{
    let mut buffer = Buffer::new();
    put(out, buffer.format(number).as_bytes());
}

/// Appends a number of at most three decimal digits.
fn put_short(out: &mut ArrayVec<u8, LINE_ROOM>, number: u64)
    requires short { number < 1000 }
    requires room { array_vec_len out.old + 3 ≤ LINE_ROOM }
    ensures text { out.new.items ≡ out.old.items ++ decimal number }
    ensures room { array_vec_len out.new ≤ array_vec_len out.old + 3 }
{
    if number >= 100 {
        out.push(b'0' + (number / 100) as u8);
    }
    if number >= 10 {
        out.push(b'0' + (number / 10 % 10) as u8);
    }
    out.push(b'0' + (number % 10) as u8);
}

/// Appends a space, and the bytes in hexadecimal digits.
pub(crate) fn put_hex(out: &mut ArrayVec<u8, LINE_ROOM>, bytes: &[u8])
    requires { array_vec_len out.old + (2 * length bytes.now + 1) ≤ LINE_ROOM }
    ensures text { out.new.items ≡ out.old.items ++ 32 ∷ encode_lower bytes.now }
    ensures room { array_vec_len out.new ≡ array_vec_len out.old + (2 * length bytes.now + 1) }
{
    out.push(b' ');
    put_digits(out, bytes);
}

/// Appends the bytes in hexadecimal digits.
pub(crate) fn put_digits(out: &mut ArrayVec<u8, LINE_ROOM>, bytes: &[u8])
    requires { array_vec_len out.old + 2 * length bytes.now ≤ LINE_ROOM }
    ensures text { out.new.items ≡ out.old.items ++ encode_lower bytes.now }
    ensures room { array_vec_len out.new ≡ array_vec_len out.old + 2 * length bytes.now }
{
    let start = out.len();
    put(out, &BLANKS[..2 * bytes.len()]);
    encode_into(bytes, &mut out.as_mut_slice()[start..]);
}

/// Appends a space, and the tag's bytes in hexadecimal digits, without leading zero bytes.
pub(crate) fn put_tag(out: &mut ArrayVec<u8, LINE_ROOM>, tag: u32)
    requires { array_vec_len out.old + 9 ≤ LINE_ROOM }
    ensures text { out.new.items ≡ out.old.items ++ 32 ∷ encode_lower (tag_bytes tag) }
    ensures room { array_vec_len out.new ≤ array_vec_len out.old + 9 }
{
    put_hex(out, tag_bytes(tag).as_slice());
}

/// Appends the word, then a space and the shard, then a space and the record's index.
pub(crate) fn put_place(out: &mut ArrayVec<u8, LINE_ROOM>, word: &[u8], shard: u8, place: u64)
    requires { array_vec_len out.old + length word.now + 42 ≤ LINE_ROOM }
    ensures text { out.new.items ≡ out.old.items ++ word.now ++ 32 ∷ decimal shard ++ 32 ∷ decimal place }
    ensures room { array_vec_len out.new ≤ array_vec_len out.old + length word.now + 42 }
{
    put(out, word);
    put_number(out, u64::from(shard));
    put_number(out, place);
}
