//! HMAC-SHA1 (RFC 2104) of one text, and its first 12 bytes (RFC 3962, section 6).

ghost use Rattle.std.specs.Prelude.{◌≡◌, ℕ, List, length};
ghost use Rattle.krb_keys.specs.Hmac.{hmac, hmac96, joined};

use crate::mac_key::MacKey;

/// The 20 bytes of HMAC-SHA1 (RFC 2104) of `bytes` under a key of any length.
///
/// For several codes under one key, [`MacKey`] hashes the padded key once.
pub fn hmac_sha1(key: &[u8], bytes: &[u8]) -> [u8; 20]
    ensures { result ≡ hmac key.now bytes.now }
{
    let mut mac = MacKey::new(key);
    let code = mac.hmac_sha1(&[bytes]);
    mac.wipe();
    mac.spend();
    code
}

/// HMAC-SHA1-96 (RFC 3962, section 6): the first 12 bytes of HMAC-SHA1 of the parts, one after
/// another, under a key of any length. The parts aren't copied.
pub fn hmac96(key: &[u8], parts: &[&[u8]]) -> [u8; 12]
    ensures { result ≡ hmac96 key.now (joined parts.now) }
{
    let mut mac = MacKey::new(key);
    let code = mac.hmac96(parts);
    mac.wipe();
    mac.spend();
    code
}

/// The law of the lengths: 20 bytes, of which 12 are kept.
pub fn hmac_length_law()
    ensures whole { (key text : List ℕ) → length (hmac key text) ≡ 20 }
    ensures cut { (key text : List ℕ) → length (hmac96 key text) ≡ 12 }
{}
