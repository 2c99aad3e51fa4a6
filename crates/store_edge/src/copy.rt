//! Reading bytes in memory.
ghost use Rattle.std.specs.Prelude.{◌≡◌, ◌-◌, length, min, take, drop};

/// Copies the bytes from offset `at`, as many as there are and fit, into a prefix of `into`. Returns how many.
pub fn copy_from(bytes: &[u8], at: u64, into: &mut [u8]) -> usize
    ensures count { result ≡ min (length bytes.now - at) (length into.old) }
    ensures front { take result into.new ≡ take result (drop at bytes.now) }
{
    if at >= bytes.len() as u64 {
        return 0;
    }
    let rest = &bytes[at as usize..];
    let count = rest.len().min(into.len());
    into[..count].copy_from_slice(&rest[..count]);
    count
}
