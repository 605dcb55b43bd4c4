//! An opener whose keys can be overwritten where they lie.

ghost use Rattle.std.specs.Prelude.{◌≡◌, length, IfOk, OnErr, None, Some};
ghost use Rattle.krb_seal.specs.Opens.{opener_of};
ghost use Rattle.krb_structs.specs.Fault.{answer_of};
ghost use Rattle.krb_structs.specs.Reasons.{NewAnswer};
ghost use Rattle.krb_structs.specs.Session.{IsExpect, expect_of};

use crate::fault::Fault;
use crate::session::{KrbExpect, expectation, session_key};
use crate::wipe::Wipe;
use krb_seal::{Opener, Refusal};
use std::alloc::Global;
use std::marker::Model;

/// An opener, until it is wiped. Contracts see nothing of one that was wiped, and the key of what
/// lies there then is zeros.
#[derive(Drop)]
pub struct WipeableOpener {
    opener: Opener,
    wiped: bool,
}

impl Model for WipeableOpener {
    ghost use Rattle.std.specs.Prelude.{Option};
    ghost use Rattle.krb_seal.specs.Opens.{OpenerState};

    ghost Value = { Option OpenerState };

    ghost use Rattle.krb_structs.specs.Wipeable.{unless_wiped, IsOverwritten};

    ghost view = { λ a. unless_wiped a.wiped a.opener };

    ghost invariant = { λ a. IsOverwritten a.wiped a.opener };
}

impl WipeableOpener {
    /// An opener.
    pub(crate) fn of(
        alloc: Global,
        etype: i32,
        key: &[u8],
        told: &KrbExpect,
    ) -> Result<WipeableOpener, Fault>
        ensures made { IfOk result (λ o.
            o ≡ Some (opener_of etype key.now (expect_of told.now))) }
        ensures answer { NewAnswer etype (length key.now) (IsExpect told.now) told.now.mode
            told.now.sender.len told.now.receiver.len (answer_of result) }
    {
        let key = session_key(etype, key)?;
        Ok(WipeableOpener {
            opener: Opener::new(key, expectation(alloc, told)?),
            wiped: false,
        })
    }

    /// An opener on the heap.
    pub fn new(
        alloc: Global,
        etype: i32,
        key: &[u8],
        told: &KrbExpect,
    ) -> Result<Box<WipeableOpener>, Fault>
        ensures made { IfOk result (λ b.
            b.value ≡ Some (opener_of etype key.now (expect_of told.now))) }
        ensures answer { NewAnswer etype (length key.now) (IsExpect told.now) told.now.mode
            told.now.sender.len told.now.receiver.len (answer_of result) }
    {
        let opener = WipeableOpener::of(alloc, etype, key, told)?;
        match Box::new(alloc, opener) {
            Ok(opener) => Ok(opener),
            Err(_) => Err(Fault::Refused(Refusal::Memory)),
        }
    }

    /// The opener, unless it was wiped.
    pub fn live(&self) -> Result<&Opener, Fault>
        ensures live { IfOk result (λ o. self.now ≡ Some o.now) }
        ensures wiped { OnErr result (self.now ≡ None) }
        ensures err { OnErr result (result ≡ Err Fault.Wiped) }
    {
        if self.wiped {
            return Err(Fault::Wiped);
        }
        Ok(&self.opener)
    }
}

impl Wipe for WipeableOpener {
    ghost IsWiped = { λ o. o ≡ None };

    /// Overwrites all keys where they lie. It opens nothing from then on.
    fn wipe(&mut self)
        ensures { self.new ≡ None }
    {
        self.opener.wipe();
        self.wiped = true;
    }
}
