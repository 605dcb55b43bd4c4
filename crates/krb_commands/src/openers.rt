//! The openers of both kinds of messages under one key.

ghost use Rattle.std.specs.Prelude.{◌≡◌, IfOk, Some};
ghost use Rattle.krb_commands.specs.Key.{IsInside, key_of, key_of_type, nobody, opener_under};
ghost use Rattle.krb_commands.specs.Printed.{HasPrintableBody};

use crate::inside::Inside;
use krb_der::{Bytes, HostAddress, Message};
use krb_seal::{Etype, Expect, Mode, Opener, Refusal, SessionKey};
use std::alloc::{AllocError, Global};
use std::marker::Model;

/// What opens a KRB-SAFE, and what opens a KRB-PRIV, under one key. Neither demands anything of
/// addresses, time and number. Dropping it overwrites all keys.
#[derive(Drop)]
pub struct Openers {
    etype: Etype,
    safe: Opener,
    private: Opener,
}

impl Model for Openers {
    ghost use Rattle.krb_etype.specs.TypedKey.{TypedKey, typed_key};

    ghost Value = { TypedKey };

    ghost use Rattle.krb_commands.specs.OpenersInside.{HasOneKey};

    ghost view = { λ a. typed_key a.etype a.safe.key };

    ghost invariant = { HasOneKey };
}

impl Openers {
    /// The openers under a key of a type, if the bytes are as many as one has.
    pub fn new(alloc: Global, etype: Etype, bytes: &[u8]) -> Option<Openers>
        ensures { result ≡ key_of_type etype bytes.now }
    {
        let safe = opener(alloc, SessionKey::copy_of(etype, bytes)?, Mode::Safe);
        let private = opener(alloc, SessionKey::copy_of(etype, bytes)?, Mode::Priv);
        Some(Openers {
            etype,
            safe,
            private,
        })
    }

    /// The encryption type of the key.
    pub fn etype(&self) -> Etype
        ensures { result ≡ self.now.etype }
    {
        self.etype
    }

    /// What the key gives of the message that the bytes spell.
    pub fn open(&self, alloc: Global, message: &Message, bytes: &[u8]) -> Result<Inside, AllocError>
        ensures inside { IfOk result (IsInside (Some self.now) message.now bytes.now) }
        ensures printable { IfOk result HasPrintableBody }
    {
        let opener = match message {
            Message::Safe(_) => &self.safe,
            Message::Priv(_) => &self.private,
        };
        match opener.authenticate(alloc, bytes) {
            Ok(body) => Ok(Inside::Opened(body)),
            Err(Refusal::Memory) => Err(AllocError),
            Err(refusal) => Ok(Inside::Refused(refusal)),
        }
    }
}

/// What is inside the message that the bytes spell, under a key if there is one.
pub(crate) fn inside_of(
    alloc: Global,
    openers: Option<&Openers>,
    message: &Message,
    bytes: &[u8],
) -> Result<Inside, AllocError>
    ensures inside { IfOk result
        (IsInside (key_of openers.entry) message.now bytes.now) }
    ensures printable { IfOk result HasPrintableBody }
{
    match openers {
        Some(openers) => openers.open(alloc, message, bytes),
        None => Ok(Inside::Unasked),
    }
}

/// The opener of a kind of message that demands nothing else.
fn opener(alloc: Global, key: SessionKey, mode: Mode) -> Opener
    ensures { result ≡ opener_under key mode }
{
    let expect = Expect {
        mode,
        s_addr: nobody(alloc),
        r_addr: nobody(alloc),
        require_r: false,
        expect_time: false,
        skew: 0,
    };
    Opener::new(key, expect)
}

/// An address without bytes.
fn nobody(alloc: Global) -> HostAddress
    ensures { result ≡ nobody }
{
    HostAddress {
        kind: 0,
        bytes: Bytes::new(Vec::new(alloc)),
    }
}
