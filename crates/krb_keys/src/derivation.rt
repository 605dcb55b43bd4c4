//! Key derivation, DR and DK (RFC 3961, section 5.1), and the three keys of a key usage (section
//! 5.3).

ghost use Rattle.std.specs.Prelude.{◌≡◌, ◌++◌, length};
ghost use Rattle.krb_aes.specs.Keys.{expanded_key};
ghost use Rattle.krb_keys.specs.Derivation.{constant, dk, dr};

use crate::fold::nfold;
use krb_aes::{CipherKey, Schedule};

/// The tail of the key of a checksum, Kc (RFC 3961, section 5.3).
pub const CHECKSUM_TAIL: u8 = 0x99;

/// The tail of the key that encrypts, Ke.
pub const ENCRYPTION_TAIL: u8 = 0xaa;

/// The tail of the key for the integrity of what is encrypted, Ki.
pub const INTEGRITY_TAIL: u8 = 0x55;

// The constant of a key usage and a tail byte.
fn constant(usage: u32, tail: u8) -> [u8; 5]
    ensures { result ≡ constant usage tail }
{
    let mut bytes = [tail; 5];
    bytes[..4].copy_from_slice(&usage.to_be_bytes());
    bytes
}

fn joined(first: &[u8; 16], second: &[u8; 16]) -> [u8; 32]
    ensures { result ≡ first.now ++ second.now }
{
    let mut both = [0u8; 32];
    both[..16].copy_from_slice(first);
    both[16..].copy_from_slice(second);
    both
}

/// The key that `key` gives for a constant that is n-folded to a block already, DR of RFC 3961
/// section 5.1, of the same size as `key`. The schedule has the round keys of `key`.
///
/// For several keys from one, the schedule is made once, and the n-fold of a constant that never
/// changes needn't be computed.
pub fn derive_folded(key: &CipherKey, schedule: &Schedule, folded: &[u8; 16]) -> CipherKey
    requires { schedule.now ≡ expanded_key key.now }
    ensures value { result ≡ dr key.now folded.now }
    ensures size { length result ≡ length key.now }
{
    let first = schedule.encrypt_block(folded);
    if key.bytes().len() == 32 {
        let second = schedule.encrypt_block(&first);
        CipherKey::from_256(joined(&first, &second))
    } else {
        CipherKey::from_128(first)
    }
}

/// The key that `key` gives for a key usage and a tail, DK of RFC 3961 section 5.1, of the same
/// size as `key`.
///
/// Kerberos has three tails: [`CHECKSUM_TAIL`], [`ENCRYPTION_TAIL`] and [`INTEGRITY_TAIL`]. The
/// round keys of `key` are wiped before the return.
pub fn derive(key: &CipherKey, usage: u32, tail: u8) -> CipherKey
    ensures value { result ≡ dk key.now usage tail }
    ensures size { length result ≡ length key.now }
{
    let mut block = [0u8; 16];
    nfold(&constant(usage, tail), &mut block);
    let mut schedule = Schedule::new(key);
    let derived = derive_folded(key, &schedule, &block);
    schedule.wipe();
    schedule.spend();
    derived
}
