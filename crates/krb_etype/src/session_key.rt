//! A session key, which knows its encryption type.

ghost use Rattle.std.specs.Prelude.{◌≡◌, ◌↔◌, length, replicate, IfSome, IsSome};
ghost use Rattle.krb_etype.specs.Etype.{key_size};
ghost use Rattle.krb_etype.specs.TypedKey.{typed_key};

use crate::etype::Etype;
use krb_aes::CipherKey;
use std::marker::Model;

/// A session key of an encryption type. Sealers and openers are made from it. Dropping it
/// overwrites it where it lies.
pub struct SessionKey {
    etype: Etype,
    key: CipherKey,
}

impl Model for SessionKey {
    ghost use Rattle.krb_etype.specs.TypedKey.{TypedKey, typed_key};

    ghost Value = { TypedKey };

    ghost use Rattle.krb_etype.specs.SessionKeyInside.{HasItsSize};

    ghost view = { λ a. typed_key a.etype a.key };

    ghost invariant = { HasItsSize };
}

impl Drop for SessionKey {
    fn drop(mut self) {
        self.key.wipe();
        let SessionKey { etype: _, key } = self;
        key.spend();
    }
}

impl SessionKey {
    /// Takes the key of an encryption type: the caller's bytes are zero afterwards, also if they
    /// aren't as many as a key of the type has.
    pub fn new(etype: Etype, bytes: &mut [u8]) -> Option<SessionKey>
        ensures made { IfSome result (λ key. key ≡ typed_key etype bytes.old) }
        ensures size { IsSome result ↔ (length bytes.old ≡ key_size etype) }
        ensures taken { bytes.new ≡ replicate (length bytes.old) 0 }
    {
        let key = SessionKey::copy_of(etype, bytes);
        bytes.fill(0);
        key
    }

    /// A copy of the key of an encryption type, whose bytes stay with the caller. There is none if
    /// and only if they aren't as many as a key of the type has.
    pub fn copy_of(etype: Etype, bytes: &[u8]) -> Option<SessionKey>
        ensures made { IfSome result (λ key. key ≡ typed_key etype bytes.now) }
        ensures size { IsSome result ↔ (length bytes.now ≡ key_size etype) }
    {
        if bytes.len() != etype.key_size() {
            return None;
        }
        match etype {
            Etype::Aes128 => Some(copy_of_128(bytes)),
            Etype::Aes256 => Some(copy_of_256(bytes)),
        }
    }

    /// Takes the key of encryption type 17: the caller's bytes are zero afterwards.
    pub fn new_128(key: &mut [u8; 16]) -> SessionKey
        ensures made { result ≡ typed_key Etype.Aes128 key.old }
        ensures taken { key.new ≡ replicate 16 0 }
    {
        let held = CipherKey::from_128(*key);
        *key = [0; 16];
        SessionKey {
            etype: Etype::Aes128,
            key: held,
        }
    }

    /// Takes the key of encryption type 18: the caller's bytes are zero afterwards.
    pub fn new_256(key: &mut [u8; 32]) -> SessionKey
        ensures made { result ≡ typed_key Etype.Aes256 key.old }
        ensures taken { key.new ≡ replicate 32 0 }
    {
        let held = CipherKey::from_256(*key);
        *key = [0; 32];
        SessionKey {
            etype: Etype::Aes256,
            key: held,
        }
    }

    /// The encryption type.
    pub fn etype(&self) -> Etype
        ensures { result ≡ self.now.etype }
    {
        self.etype
    }

    /// The key of an encryption type all of whose bytes are `byte`.
    pub fn filled(etype: Etype, byte: u8) -> SessionKey
        ensures { result ≡ typed_key etype (replicate (key_size etype) byte) }
    {
        match etype {
            Etype::Aes128 => SessionKey::new_128(&mut [byte; 16]),
            Etype::Aes256 => SessionKey::new_256(&mut [byte; 32]),
        }
    }

    /// The encryption type, and the key of its cipher.
    pub fn into_parts(self) -> (Etype, CipherKey)
        ensures etype { result.0 ≡ self.etype }
        ensures key { result.1 ≡ self.bytes }
        ensures size { length result.1 ≡ key_size result.0 }
    {
        let SessionKey { etype, key } = self;
        (etype, key)
    }
}

/// A copy of a key of encryption type 17.
fn copy_of_128(bytes: &[u8]) -> SessionKey
    requires { length bytes.now ≡ 16 }
    ensures { result ≡ typed_key Etype.Aes128 bytes.now }
{
    let mut copy = [0; 16];
    copy.copy_from_slice(bytes);
    SessionKey::new_128(&mut copy)
}

/// A copy of a key of encryption type 18.
fn copy_of_256(bytes: &[u8]) -> SessionKey
    requires { length bytes.now ≡ 32 }
    ensures { result ≡ typed_key Etype.Aes256 bytes.now }
{
    let mut copy = [0; 32];
    copy.copy_from_slice(bytes);
    SessionKey::new_256(&mut copy)
}
