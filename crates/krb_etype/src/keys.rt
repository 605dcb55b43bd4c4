//! A session key with the keys derived from it.

ghost use Rattle.std.specs.Prelude.{◌≡◌, ◌≤◌, ◌↔◌, ◌+◌, ◌++◌, IfNone, IfSome, IsSome, false, length};
ghost use Rattle.std.specs.Borrow.{sem};
ghost use Rattle.std.specs.Io.BufRead.{Rests};
ghost use Rattle.krb_aes.specs.Keys.{expanded_key};
ghost use Rattle.krb_aes.specs.Stealing.{cts};
ghost use Rattle.krb_base.specs.Bytes.{AreBytes, AreZero};
ghost use Rattle.krb_keys.specs.BatchMac.{HoldsBatchKey};
ghost use Rattle.krb_keys.specs.Hmac.{hmac96, joined};
ghost use Rattle.krb_etype.specs.declared.private_keys.End.TheVariants.{Sealer, Opener};
ghost use Rattle.krb_etype.specs.declared.keys.Purpose.TheVariants.{Checksum, Encryption};
ghost use Rattle.krb_etype.specs.Etype.{code_size, confounder_size};
ghost use Rattle.krb_etype.specs.Keys.{checksum_key, encryption_key, tag_of, IsEncryption};
ghost use Rattle.krb_etype.specs.CodeKey.{code_key};
ghost use Rattle.krb_etype.specs.HeldKeys.{fresh_keys, keys_for, wiped_keys};
ghost use Rattle.krb_etype.specs.PrivateKeys.{ArePrivateKeys};

use crate::derived::{checksum_batch, checksum_key, integrity_batch};
use crate::etype::CODE_SIZE;
use crate::private_keys::{End, PrivateKeys};
use krb_aes::CipherKey;
use krb_base::Bytes;
use krb_keys::{BatchMac, MacKey};
use std::marker::Model;

/// What derived keys are for.
#[derive(Clone, Copy, Debug, PartialEq, Eq)]
pub enum Purpose {
    /// The checksum of KRB-SAFE (RFC 4120 section 5.6.1).
    Checksum,
    /// The encrypted part of KRB-PRIV (RFC 4120 section 5.7.1).
    Encryption,
}

/// Overwrites and ends a key for checksums, if there is one.
fn end_checksum(key: Option<MacKey>) {
    if let Some(mut held) = key {
        held.wipe();
        held.spend();
    }
}

/// The same of the keys of KRB-PRIV.
fn end_private(keys: Option<PrivateKeys>) {
    if let Some(mut held) = keys {
        held.wipe();
        held.spend();
    }
}

/// The same of a key for eight codes at a time.
fn end_batch(key: Option<BatchMac>) {
    if let Some(mut held) = key {
        held.wipe();
        held.spend();
    }
}

/// A session key with the keys derived from it that its end needs for its purpose, each ready for use
/// (RFC 3961 section 5.3).
///
/// Contracts see the session key, the end, the purpose, and whether all keys were wiped. `Keys` aren't
/// `Drop`: they end by [`Keys::spend`].
pub struct Keys {
    base: CipherKey,
    end: End,
    purpose: Purpose,
    // Kc, for the checksum of KRB-SAFE, once that purpose was asked for.
    checksum: Option<MacKey>,
    // Ki and Ke, for the encrypted part of KRB-PRIV, once that purpose was asked for.
    private: Option<PrivateKeys>,
    // The key of the codes of the present purpose, for eight texts at a time, once it was asked for.
    batch: Option<BatchMac>,
    wiped: bool,
}

impl Model for Keys {
    ghost use Rattle.krb_etype.specs.HeldKeys.{HeldKeys};

    ghost Value = { HeldKeys };

    ghost use Rattle.krb_etype.specs.KeysInside.{AreDerived};

    ghost view = { λ a. record { key = a.base; end = a.end; purpose = a.purpose; wiped = a.wiped } };

    ghost invariant = { AreDerived };
}

impl Keys {
    ghost use Rattle.krb_etype.specs.contracts.keys.Keys.{the_row};

    /// Derives the keys of a session key for an end and a purpose.
    pub fn new(base: CipherKey, end: End, purpose: Purpose) -> Keys
        ensures { result ≡ fresh_keys base end purpose }
    {
        let checksum = match purpose {
            Purpose::Checksum => Some(checksum_key(&base)),
            Purpose::Encryption => None,
        };
        let private = match purpose {
            Purpose::Checksum => None,
            Purpose::Encryption => Some(PrivateKeys::new(end, &base)),
        };
        Keys {
            base,
            end,
            purpose,
            checksum,
            private,
            batch: None,
            wiped: false,
        }
    }

    /// Serves this purpose from now on. Its keys are derived, unless they are there.
    pub fn set_purpose(&mut self, purpose: Purpose)
        ensures { self.new ≡ keys_for self.old purpose }
    {
        if self.purpose != purpose {
            end_batch(self.batch.take());
        }
        self.purpose = purpose;
        if self.wiped {
            return;
        }
        match purpose {
            Purpose::Checksum => {
                if self.checksum.is_none() {
                    end_checksum(self.checksum.replace(checksum_key(&self.base)));
                }
            }
            Purpose::Encryption => {
                if self.private.is_none() {
                    end_private(self.private.replace(PrivateKeys::new(self.end, &self.base)));
                }
            }
        }
    }

    /// Whether the keys were wiped.
    pub fn is_wiped(&self) -> bool
        ensures { result ≡ self.now.wiped }
    {
        self.wiped
    }

    /// Overwrites all keys.
    pub fn wipe(&mut self)
        ensures { self.new ≡ wiped_keys self.old }
    {
        self.base.wipe();
        if let Some(key) = &mut self.checksum {
            key.wipe();
        }
        if let Some(keys) = &mut self.private {
            keys.wipe();
        }
        if let Some(key) = &mut self.batch {
            key.wipe();
        }
        self.wiped = true;
    }

    /// Overwrites and ends all keys.
    pub fn spend(self) {
        let Keys {
            mut base,
            end: _,
            purpose: _,
            checksum,
            private,
            batch,
            wiped: _,
        } = self;
        base.wipe();
        base.spend();
        end_checksum(checksum);
        end_private(private);
        end_batch(batch);
    }

    /// The checksum of KRB-SAFE over these parts, one after another.
    pub fn checksum(&self, parts: &[&[u8]]) -> [u8; CODE_SIZE]
        requires live { self.now.wiped ≡ false }
        requires purpose { self.now.purpose ≡ Checksum }
        ensures { result ≡ hmac96 (checksum_key self.now.key) (joined parts.now) }
    {
        match &self.checksum {
            Some(key) => key.hmac96(parts),
            None => unreachable!(),
        }
    }

    /// The keys of KRB-PRIV.
    fn private(&self) -> &PrivateKeys
        requires live { self.now.wiped ≡ false }
        requires purpose { self.now.purpose ≡ Encryption }
        ensures { ArePrivateKeys self.now.end self.now.key result.now }
    {
        match &self.private {
            Some(keys) => keys,
            None => unreachable!(),
        }
    }

    /// The code of a text that is encrypted beside it.
    pub fn tag(&self, text: &[u8]) -> [u8; CODE_SIZE]
        requires live { self.now.wiped ≡ false }
        requires purpose { self.now.purpose ≡ Encryption }
        ensures { result ≡ tag_of self.now.key text.now }
    {
        self.private().tag(text)
    }

    /// Enciphers a text in place.
    pub fn encipher(&self, text: &mut [u8])
        requires live { self.now.wiped ≡ false }
        requires purpose { self.now.purpose ≡ Encryption }
        requires end { self.now.end ≡ Sealer }
        requires long { 16 ≤ length text.old }
        ensures { text.new ≡ cts (expanded_key (encryption_key self.now.key)) text.old }
    {
        self.private().encipher(text);
    }

    /// Enciphers four texts in place, side by side.
    pub fn encipher_four(&self, a: &mut [u8], b: &mut [u8], c: &mut [u8], d: &mut [u8])
        requires live { self.now.wiped ≡ false }
        requires purpose { self.now.purpose ≡ Encryption }
        requires end { self.now.end ≡ Sealer }
        requires a { 16 ≤ length a.old }
        requires b { 16 ≤ length b.old }
        requires c { 16 ≤ length c.old }
        requires d { 16 ≤ length d.old }
        ensures a { a.new ≡ cts (expanded_key (encryption_key self.now.key)) a.old }
        ensures b { b.new ≡ cts (expanded_key (encryption_key self.now.key)) b.old }
        ensures c { c.new ≡ cts (expanded_key (encryption_key self.now.key)) c.old }
        ensures d { d.new ≡ cts (expanded_key (encryption_key self.now.key)) d.old }
    {
        self.private().encipher_four(a, b, c, d);
    }

    /// Makes the key of the codes that its purpose asks for ready for eight texts at a time, unless it is, and
    /// gives it. So what makes one code at a time doesn't pay for it. Wiped keys have none.
    pub fn prepare_batch(&mut self) -> Option<&BatchMac>
        ensures there { IsSome result ↔ self.old.wiped ≡ false }
        ensures key { IfSome result (λ mac.
            HoldsBatchKey mac.now (code_key self.old.purpose self.old.key)) }
        ensures none { IfNone result (AreZero self.old.key) }
        ensures* same { sem 𝓛 (Rests the_row self.entry (λ new. new ≡ self.old)) }
    {
        if self.wiped {
            return None;
        }
        if self.batch.is_none() {
            let key = match self.purpose {
                Purpose::Checksum => checksum_batch(&self.base),
                Purpose::Encryption => integrity_batch(&self.base),
            };
            end_batch(self.batch.replace(key));
        }
        self.batch.as_ref()
    }

    /// That key, if it was made ready.
    pub fn batch_mac(&self) -> Option<&BatchMac>
        requires { self.now.wiped ≡ false }
        ensures { IfSome result (λ mac.
            HoldsBatchKey mac.now (code_key self.now.purpose self.now.key)) }
    {
        self.batch.as_ref()
    }

    /// Deciphers a text in place.
    pub fn decipher(&self, text: &mut [u8])
        requires live { self.now.wiped ≡ false }
        requires purpose { self.now.purpose ≡ Encryption }
        requires end { self.now.end ≡ Opener }
        requires long { 16 ≤ length text.old }
        ensures image { cts (expanded_key (encryption_key self.now.key)) text.new ≡ text.old }
        ensures size { length text.new ≡ length text.old }
        ensures bytes { AreBytes text.new }
    {
        self.private().decipher(text);
    }

    /// The text and the code of a cipher.
    pub fn decrypted(&self, cipher: Bytes) -> (Vec<u8>, [u8; CODE_SIZE])
        requires live { self.now.wiped ≡ false }
        requires purpose { self.now.purpose ≡ Encryption }
        requires end { self.now.end ≡ Opener }
        requires long { confounder_size + code_size ≤ length cipher }
        ensures { IsEncryption self.now.key cipher result.0.items result.1 }
    {
        let mut text = cipher.into_vec();
        let size = text.len() - CODE_SIZE;
        let mut tag = [0u8; CODE_SIZE];
        tag.copy_from_slice(&text[size..]);
        text.truncate(size);
        self.decipher(&mut text);
        (text, tag)
    }
}
