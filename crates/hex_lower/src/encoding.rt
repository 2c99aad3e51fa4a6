//! The encoding of bytes.
ghost use Rattle.std.specs.Prelude.{◌≡◌, ◌*◌, ◌/◌, ◌%◌, length, slice_index};
ghost use Rattle.hex.specs.Hex.{encode_lower, lower_digits, IsBytes};

/// How many bytes the compiler encodes at once.
const LANES: usize = 8;

/// Encodes the bytes as digits. If their number is no multiple of eight, the last eight are encoded together, some of
/// them for the second time, since that takes less time than the remainder one byte at a time.
pub fn encode_into(bytes: &[u8], out: &mut [u8])
    requires { length out.old ≡ 2 * length bytes.now }
    ensures digits { out.new ≡ encode_lower bytes.now }
    ensures bytes { IsBytes bytes.now }
{
    let whole = bytes.len() - bytes.len() % LANES;
    encode_each(&bytes[..whole], &mut out[..2 * whole]);
    if whole < bytes.len() {
        let last = bytes.len().saturating_sub(LANES);
        encode_each(&bytes[last..], &mut out[2 * last..]);
    }
}

/// Encodes the bytes one after another. Digits are computed by sums, not read from a table, so that the compiler can
/// vectorise the loop.
fn encode_each(bytes: &[u8], out: &mut [u8])
    requires { length out.old ≡ 2 * length bytes.now }
    ensures digits { out.new ≡ encode_lower bytes.now }
    ensures bytes { IsBytes bytes.now }
{
    'bytes: for i in 0..bytes.len() {
        let [high, low] = digits(bytes[i]);
        out[2 * i] = high;
        out[2 * i + 1] = low;
    }
}

/// The two digits of a byte, computed together as the halves of a number.
fn digits(byte: u8) -> [u8; 2]
    ensures high { slice_index result 0 ≡ slice_index lower_digits (byte / 16) }
    ensures low { slice_index result 1 ≡ slice_index lower_digits (byte % 16) }
{
    let values = u16::from(byte / 16) + 256 * u16::from(byte % 16);

    // 6 more carries where a value is above 9.
    let letters = ((values + 0x0606) / 16) & 0x0101;
    (values + 0x3030 + u16::from(b'a' - b'0' - 10) * letters).to_le_bytes()
}
