//! The keys of KRB-PRIV, as one end uses them.

ghost use Rattle.std.specs.Prelude.{◌≡◌, ◌≤◌, ℕ, List, length};
ghost use Rattle.krb_base.specs.Bytes.{AreZero, AreBytes};
ghost use Rattle.krb_aes.specs.Keys.{expanded_key};
ghost use Rattle.krb_aes.specs.Stealing.{cts};
ghost use Rattle.krb_etype.specs.Keys.{encryption_key, tag_of};
ghost use Rattle.krb_etype.specs.PrivateKeys.{AreForgotten, AreOf, ArePrivateKeys, words_of};
ghost use Rattle.krb_etype.specs.declared.private_keys.End.TheVariants as ends;

use crate::derived::private_keys;
use crate::etype::CODE_SIZE;
use krb_aes::{CipherKey, InverseSchedule, Schedule, cts_decrypt, cts_encrypt};
use krb_chains::cts_encrypt_four;
use krb_keys::MacKey;

/// An end of a session.
#[derive(Clone, Copy, Debug, PartialEq, Eq)]
pub enum End {
    /// It seals, so it enciphers.
    Sealer,
    /// It opens, so it deciphers.
    Opener,
}

/// Round keys for what an end does with them. They aren't `Drop`: they end by
/// [`RoundKeys::spend`].
pub enum RoundKeys {
    /// For the cipher.
    Enciphering(Schedule),
    /// For the inverse cipher.
    Deciphering(InverseSchedule),
}

impl RoundKeys {
    /// The round keys of a key. The key is overwritten.
    fn new(end: End, mut key: CipherKey) -> RoundKeys
        ensures words { words_of result ≡ expanded_key key }
        ensures end { AreOf end result }
    {
        let keys = match end {
            End::Sealer => RoundKeys::Enciphering(Schedule::new(&key)),
            End::Opener => RoundKeys::Deciphering(InverseSchedule::new(&key)),
        };
        key.wipe();
        key.spend();
        keys
    }

    /// Overwrites them.
    fn wipe(&mut self)
        ensures { AreZero (words_of self.new) }
    {
        match self {
            RoundKeys::Enciphering(schedule) => schedule.wipe(),
            RoundKeys::Deciphering(schedule) => schedule.wipe(),
        }
    }

    /// Ends round keys that are wiped.
    fn spend(self)
        requires { AreZero (words_of self) }
    {
        match self {
            RoundKeys::Enciphering(schedule) => schedule.spend(),
            RoundKeys::Deciphering(schedule) => schedule.spend(),
        }
    }
}

/// Ki, ready for codes, and the round keys of Ke. They aren't `Drop`: they end by
/// [`PrivateKeys::spend`].
pub struct PrivateKeys {
    integrity: MacKey,
    encryption: RoundKeys,
}

impl PrivateKeys {
    /// The keys that a session key gives.
    pub fn new(end: End, base: &CipherKey) -> PrivateKeys
        ensures { ArePrivateKeys end base.now result }
    {
        let (integrity, encryption) = private_keys(base);
        PrivateKeys {
            integrity,
            encryption: RoundKeys::new(end, encryption),
        }
    }

    /// Overwrites them.
    pub fn wipe(&mut self)
        ensures { AreForgotten self.new }
    {
        self.integrity.wipe();
        self.encryption.wipe();
    }

    /// Ends keys that are wiped.
    pub fn spend(self)
        requires { AreForgotten self }
    {
        let PrivateKeys {
            integrity,
            encryption,
        } = self;
        integrity.spend();
        encryption.spend();
    }

    /// The code of a text that is encrypted beside it.
    pub fn tag(&self, text: &[u8]) -> [u8; CODE_SIZE]
        ensures { (end : _) (key : List ℕ) → ArePrivateKeys end key self.now
            → result ≡ tag_of key text.now }
    {
        self.integrity.hmac96(&[text])
    }

    /// Enciphers a text in place.
    pub fn encipher(&self, text: &mut [u8])
        requires end { AreOf ends.Sealer self.now.encryption }
        requires long { 16 ≤ length text.old }
        ensures { (key : List ℕ) → words_of self.now.encryption ≡ expanded_key (encryption_key key)
            → text.new ≡ cts (expanded_key (encryption_key key)) text.old }
    {
        match &self.encryption {
            RoundKeys::Enciphering(schedule) => cts_encrypt(schedule, text),
            RoundKeys::Deciphering(_) => unreachable!(),
        }
    }

    /// Enciphers four texts in place, side by side.
    pub fn encipher_four(&self, a: &mut [u8], b: &mut [u8], c: &mut [u8], d: &mut [u8])
        requires end { AreOf ends.Sealer self.now.encryption }
        requires a { 16 ≤ length a.old }
        requires b { 16 ≤ length b.old }
        requires c { 16 ≤ length c.old }
        requires d { 16 ≤ length d.old }
        ensures a { a.new ≡ cts (words_of self.now.encryption) a.old }
        ensures b { b.new ≡ cts (words_of self.now.encryption) b.old }
        ensures c { c.new ≡ cts (words_of self.now.encryption) c.old }
        ensures d { d.new ≡ cts (words_of self.now.encryption) d.old }
    {
        match &self.encryption {
            RoundKeys::Enciphering(schedule) => cts_encrypt_four(schedule, a, b, c, d),
            RoundKeys::Deciphering(_) => unreachable!(),
        }
    }

    /// Deciphers a text in place.
    pub fn decipher(&self, text: &mut [u8])
        requires end { AreOf ends.Opener self.now.encryption }
        requires long { 16 ≤ length text.old }
        ensures image { (key : List ℕ)
            → words_of self.now.encryption ≡ expanded_key (encryption_key key)
            → cts (expanded_key (encryption_key key)) text.new ≡ text.old }
        ensures size { length text.new ≡ length text.old }
        ensures bytes { AreBytes text.new }
    {
        match &self.encryption {
            RoundKeys::Deciphering(schedule) => cts_decrypt(schedule, text),
            RoundKeys::Enciphering(_) => unreachable!(),
        }
    }
}
