//! The keys that a session key gives (RFC 3961 section 5.3).

ghost use Rattle.std.specs.Prelude.{◌≡◌, length};
ghost use Rattle.krb_keys.specs.BatchMac.{HoldsBatchKey};
ghost use Rattle.krb_keys.specs.MacKey.{HoldsKey};
ghost use Rattle.krb_keys.specs.Nfold.{nfold};
ghost use Rattle.krb_keys.specs.Derivation.{constant, dr};
ghost use Rattle.krb_etype.specs.Keys.{checksum_key, encryption_key, integrity_key};

use krb_aes::{CipherKey, Schedule};
use krb_keys::{BatchMac, MacKey, derive_folded};

/// The constant of Kc, n-folded to a block: that of the key usage 15, the checksum of KRB-SAFE (RFC
/// 4120 section 7.5.1).
const CHECKSUM_CONSTANT: [u8; 16] = [
    0x0d, 0xd3, 0xea, 0x75, 0xb3, 0x13, 0xcb, 0x3f, 0x83, 0x41, 0xa0, 0xd0, 0x66, 0x41, 0xf4, 0x1a,
];

/// The same of Ke: that of the key usage 13, the encrypted part of KRB-PRIV.
const ENCRYPTION_CONSTANT: [u8; 16] = [
    0x0e, 0x5c, 0x2e, 0x97, 0xc5, 0x13, 0x53, 0x37, 0xc3, 0x61, 0xb0, 0xd8, 0x6a, 0x81, 0xb6, 0x1b,
];

/// The same of Ki.
const INTEGRITY_CONSTANT: [u8; 16] = [
    0xbb, 0x88, 0x44, 0xa2, 0xca, 0xc0, 0xab, 0x36, 0x6e, 0xb7, 0x5b, 0xad, 0xd5, 0x41, 0xab, 0x75,
];

/// The law of the constants: each is the n-fold that RFC 3961 asks for, so that nobody computes it
/// when keys are made.
pub fn folded_constants()
    ensures checksum { CHECKSUM_CONSTANT ≡ nfold 16 (constant 15 0x99) }
    ensures encryption { ENCRYPTION_CONSTANT ≡ nfold 16 (constant 13 0xaa) }
    ensures integrity { INTEGRITY_CONSTANT ≡ nfold 16 (constant 13 0x55) }
{}

/// A derived key, ready for message codes. The key is overwritten.
fn ready(mut key: CipherKey) -> MacKey
    ensures { HoldsKey result key }
{
    let mac_key = MacKey::new(key.bytes());
    key.wipe();
    key.spend();
    mac_key
}

/// The same for eight texts at a time.
fn batch_ready(mut derived: CipherKey) -> BatchMac
    ensures { HoldsBatchKey result derived }
{
    let mac = BatchMac::new(derived.bytes());
    derived.wipe();
    derived.spend();
    mac
}

/// The key that a session key gives for a constant, which is folded.
fn derived(base: &CipherKey, folded: &[u8; 16]) -> CipherKey
    ensures { result ≡ dr base.now folded.now }
{
    let mut schedule = Schedule::new(base);
    let key = derive_folded(base, &schedule, folded);
    schedule.wipe();
    schedule.spend();
    key
}

/// Kc of a session key, ready for the checksums of KRB-SAFE.
pub fn checksum_key(base: &CipherKey) -> MacKey
    ensures { HoldsKey result (checksum_key base.now) }
{
    ready(derived(base, &CHECKSUM_CONSTANT))
}

/// The same for eight messages at a time.
pub fn checksum_batch(base: &CipherKey) -> BatchMac
    ensures { HoldsBatchKey result (checksum_key base.now) }
{
    batch_ready(derived(base, &CHECKSUM_CONSTANT))
}

/// Ki of a session key, ready for the codes of eight messages at a time.
pub fn integrity_batch(base: &CipherKey) -> BatchMac
    ensures { HoldsBatchKey result (integrity_key base.now) }
{
    batch_ready(derived(base, &INTEGRITY_CONSTANT))
}

/// Ki of a session key, ready for the codes of KRB-PRIV, and Ke, under which its part is
/// enciphered.
pub fn private_keys(base: &CipherKey) -> (MacKey, CipherKey)
    ensures integrity { HoldsKey result.0 (integrity_key base.now) }
    ensures encryption { result.1 ≡ encryption_key base.now }
{
    let mut schedule = Schedule::new(base);
    let integrity = derive_folded(base, &schedule, &INTEGRITY_CONSTANT);
    let encryption = derive_folded(base, &schedule, &ENCRYPTION_CONSTANT);
    schedule.wipe();
    schedule.spend();
    (ready(integrity), encryption)
}
