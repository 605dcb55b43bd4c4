//! The blocks of a message that begins with a block: its rest and the padding (FIPS 180-4, section
//! 5.1.1).

ghost use Rattle.std.specs.Prelude.{◌≡◌, ℕ, ◌+◌, ◌-◌, ◌*◌, ◌/◌, ◌%◌, ◌<◌, ◌≤◌, ◌++◌, List, length, take, replicate, ◌∷◌};
ghost use Rattle.krb_digests.specs.Rest.{rest_block, rest_blocks};

use std::marker::Model;

// The padding's first bytes: a bit 1, then zeros.
const PADDING: [u8; 64] = [
    0x80, 0, 0, 0, 0, 0, 0, 0, 0, 0, 0, 0, 0, 0, 0, 0, 0, 0, 0, 0, 0, 0, 0, 0, 0, 0, 0, 0, 0, 0, 0,
    0, 0, 0, 0, 0, 0, 0, 0, 0, 0, 0, 0, 0, 0, 0, 0, 0, 0, 0, 0, 0, 0, 0, 0, 0, 0, 0, 0, 0, 0, 0, 0,
    0,
];

/// What follows the first block of a message. A proof sees it as its bytes.
#[derive(Drop)]
pub struct Rest<'a> {
    bytes: &'a [u8],
    // The bytes after the whole blocks, and the padding: one block or two, of `size` bytes.
    end: [u8; 128],
    size: usize,
}

impl<'a> Model for Rest<'a> {
    ghost use Rattle.std.specs.Prelude.{ℕ, List};

    ghost Value = { List ℕ };

    ghost use Rattle.krb_digests.specs.RestInside.{HasItsEnd};

    ghost view = { λ a. a.bytes.now };

    ghost invariant = { λ a. HasItsEnd a.bytes.now a.end a.size };
}

// Writes the end of a message: what is left of it, the padding, and the length in bits.
fn write_end(end: &mut [u8; 128], left: &[u8], bits: [u8; 8], size: usize)
    requires room { length left.now + 9 ≤ size }
    requires near { size ≤ length left.now + 72 }
    requires fits { size ≤ 128 }
    ensures { take size end.new
        ≡ left.now ++ 0x80 ∷ (replicate (size - 9 - length left.now) 0 ++ bits) }
{
    let used = left.len();
    end[..used].copy_from_slice(left);
    end[used..size - 8].copy_from_slice(&PADDING[..size - 8 - used]);
    end[size - 8..size].copy_from_slice(&bits);
}

impl<'a> Rest<'a> {
    /// The rest of a message, after its first block.
    pub fn new(bytes: &'a [u8]) -> Rest<'a>
        ensures { result ≡ bytes.now }
    {
        let left = &bytes[bytes.len() / 64 * 64..];
        let size = if left.len() < 56 { 64 } else { 128 };
        let bits = (bytes.len() as u64).wrapping_add(64).wrapping_mul(8);
        let mut end = [0u8; 128];
        write_end(&mut end, left, bits.to_be_bytes(), size);
        Rest { bytes, end, size }
    }

    /// How many blocks it has with the padding.
    pub fn count(&self) -> usize
        ensures { result ≡ rest_blocks self.now }
    {
        let len = self.bytes.len();
        len / 64 + (len % 64 + 72) / 64
    }

    /// Block `n` of them, and zeros where there is none.
    pub fn block(&self, n: usize) -> [u8; 64]
        ensures { n < rest_blocks self.now → result ≡ rest_block self.now n }
    {
        let whole = self.bytes.len() / 64;
        let mut block = [0u8; 64];
        if n < whole {
            block.copy_from_slice(&self.bytes[64 * n..64 * n + 64]);
        } else if n - whole < self.size / 64 {
            let at = 64 * (n - whole);
            block.copy_from_slice(&self.end[at..at + 64]);
        }
        block
    }
}
