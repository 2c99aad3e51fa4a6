//! Eight bytes as the first half of a block of AES.

ghost use Rattle.std.specs.Prelude.{◌≡◌, ◌++◌, take, replicate};

/// The first eight bytes of a block.
pub fn first_half(block: [u8; 16]) -> [u8; 8]
    ensures { result ≡ take 8 block }
{
    let [a, b, c, d, e, f, g, h, ..] = block;
    [a, b, c, d, e, f, g, h]
}

/// A block of these eight bytes and zeros.
pub fn with_zeros(bytes: [u8; 8]) -> [u8; 16]
    ensures { result ≡ bytes ++ replicate 8 0 }
{
    let mut block = [0; 16];
    block[..8].copy_from_slice(&bytes);
    block
}
