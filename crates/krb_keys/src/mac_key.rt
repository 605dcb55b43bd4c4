//! A key for HMAC-SHA1 that is used for several texts: both hashes are kept after the padded key
//! (RFC 2104, section 4).

ghost use Rattle.std.specs.Prelude.{◌≡◌, ℕ, List, map, bit_xor};
ghost use Rattle.sha1.specs.Sha1.{Holds};
ghost use Rattle.krb_keys.specs.Hmac.{key_block, pad, hmac, hmac96, joined};
ghost use Rattle.krb_keys.specs.MacKey.{HoldsKey, IsForgotten};

use sha1::Sha1;

/// RFC 2104 calls this byte, repeated over a block, ipad.
pub const INNER_PAD: u8 = 0x36;

/// And this one opad.
pub const OUTER_PAD: u8 = 0x5c;

// The key as one block of the hash.
fn key_block(key: &[u8]) -> [u8; 64]
    ensures { result ≡ key_block key.now }
{
    let mut block = [0u8; 64];
    if key.len() > 64 {
        let digest = Sha1::digest(key);
        block[..20].copy_from_slice(&digest);
    } else {
        block[..key.len()].copy_from_slice(key);
    }
    block
}

// Adds `byte` to each byte of the block by exclusive or.
fn mask(block: &mut [u8], byte: u8)
    ensures { block.new ≡ map (λ b. bit_xor b byte) block.old }
{
    for b in block.iter_mut() {
        *b ^= byte;
    }
}

/// The key, padded with `byte`.
pub fn padded_key(byte: u8, key: &[u8]) -> [u8; 64]
    ensures { result ≡ pad byte key.now }
{
    let mut block = key_block(key);
    mask(&mut block, byte);
    block
}

// A hash that has taken in the key, padded with `byte`.
fn keyed(byte: u8, key: &[u8]) -> Sha1
    ensures { Holds result (pad byte key.now) }
{
    let mut hash = Sha1::new();
    hash.update(&padded_key(byte, key));
    hash
}

/// A key for HMAC-SHA1 (RFC 2104) that is ready for use: the two hashes of HMAC are kept where each
/// has taken in its padded key (section 4 of the RFC), so a code costs two blocks less.
///
/// Whoever has these hashes can make codes as the holder of the key can. So a `MacKey` isn't
/// dropped: it ends by `wipe` and then `spend`.
pub struct MacKey {
    inner: Sha1,
    outer: Sha1,
}

impl MacKey {
    /// The key `key`, of any length.
    pub fn new(key: &[u8]) -> MacKey
        ensures { HoldsKey result key.now }
    {
        MacKey {
            inner: keyed(INNER_PAD, key),
            outer: keyed(OUTER_PAD, key),
        }
    }

    /// The 20 bytes of HMAC-SHA1 of the parts, one after another. The parts aren't copied.
    pub fn hmac_sha1(&self, parts: &[&[u8]]) -> [u8; 20]
        ensures { (key : List ℕ) → HoldsKey self.now key → result ≡ hmac key (joined parts.now) }
    {
        let mut inner = self.inner.clone().unwrap();
        for part in parts {
            inner.update(part);
        }
        let mut outer = self.outer.clone().unwrap();
        outer.update(&inner.finalize());
        outer.finalize()
    }

    /// HMAC-SHA1-96 (RFC 3962, section 6): the first 12 bytes of `hmac_sha1`.
    pub fn hmac96(&self, parts: &[&[u8]]) -> [u8; 12]
        ensures { (key : List ℕ) → HoldsKey self.now key → result ≡ hmac96 key (joined parts.now) }
    {
        let whole = self.hmac_sha1(parts);
        let mut first = [0u8; 12];
        first.copy_from_slice(&whole[..12]);
        first
    }

    /// Forgets the key: both hashes are as new. Codes made after that are under no key.
    pub fn wipe(&mut self)
        ensures { IsForgotten self.new }
    {
        self.inner = Sha1::new();
        self.outer = Sha1::new();
    }

    /// Ends a key. Both of its hashes have to be as new.
    pub fn spend(self)
        requires { IsForgotten self }
    {
        let MacKey { inner: _, outer: _ } = self;
    }
}
