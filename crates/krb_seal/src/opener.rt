//! The opener of a session's frames.

ghost use Rattle.std.specs.Prelude.{◌≡◌, ◌≤◌, pos, true, length, replicate, Err, IfErr, IfNone, IfOk, IfSome};
ghost use Rattle.std.specs.Borrow.{sem};
ghost use Rattle.std.specs.Io.BufRead.{Rests};
ghost use Rattle.std.specs.Option.{ForSome};
ghost use Rattle.krb_base.specs.Bytes.{AreZero};
ghost use Rattle.krb_base.specs.Limits.{frame_limit};
ghost use Rattle.krb_der.specs.Body.{InRange};
ghost use Rattle.krb_etype.specs.declared.private_keys.End.TheVariants as ends;
ghost use Rattle.krb_etype.specs.Etype.{number_of};
ghost use Rattle.krb_etype.specs.HeldKeys.{fresh_keys};
ghost use Rattle.krb_keys.specs.BatchMac.{HoldsBatchKey};
ghost use Rattle.krb_seal.specs.Covered.{CoversFrame, IsCodedFrame, code_key_of};
ghost use Rattle.krb_seal.specs.Mode.{purpose_of};
ghost use Rattle.krb_seal.specs.Opens.{Opens, opener_of};
ghost use Rattle.krb_seal.specs.Authentic.{Authenticates};
ghost use Rattle.krb_seal.specs.Number.{TellsNoOther, TellsNumber};
ghost use Rattle.krb_seal.specs.Memory.{AsksForMemory, AsksWithoutDemands};
ghost use Rattle.krb_seal.specs.Unseals.{OrMemory, seen, untold};

use crate::coded::{Coded, Covered};
use crate::opening::Opening;
use crate::refusal::Refusal;
use crate::session::Expect;
use crate::unopened::Unopened;
use krb_base::Bytes;
use krb_der::{Body, Moment};
use krb_etype::{End, Etype, Keys, SessionKey};
use krb_keys::BatchMac;
use std::alloc::Global;
use std::marker::Model;

/// Opens the frames of one sender. Dropping it overwrites all its keys.
pub struct Opener {
    etype: Etype,
    keys: Keys,
    expect: Expect,
}

impl Model for Opener {
    ghost use Rattle.krb_etype.specs.Etype.{number_of};
    ghost use Rattle.krb_seal.specs.Opens.{OpenerState, opener_of};

    ghost Value = { OpenerState };

    ghost use Rattle.krb_seal.specs.OpenerInside.{HasKeys};

    ghost view = { λ a. opener_of (number_of a.etype) a.keys.key a.expect };

    ghost invariant = { HasKeys };
}

impl Drop for Opener {
    fn drop(self) {
        let Opener {
            etype: _,
            keys,
            expect: _,
        } = self;
        keys.spend();
    }
}

impl Opener {
    ghost use Rattle.krb_seal.specs.contracts.opener.Opener.{the_row};

    /// Takes the session key.
    pub fn new(key: SessionKey, expect: Expect) -> Opener
        ensures { result ≡ opener_of (number_of key.etype) key.bytes expect }
    {
        let (etype, held) = key.into_parts();
        Opener {
            etype,
            keys: Keys::new(held, End::Opener, expect.mode.purpose()),
            expect,
        }
    }

    /// Takes the key of encryption type 17: the caller's bytes are zero afterwards.
    pub fn new_128(key: &mut [u8; 16], expect: Expect) -> Opener
        ensures made { result ≡ opener_of (pos 17) key.old expect }
        ensures taken { key.new ≡ replicate 16 0 }
    {
        Opener::new(SessionKey::new_128(key), expect)
    }

    /// Takes the key of encryption type 18: the caller's bytes are zero afterwards.
    pub fn new_256(key: &mut [u8; 32], expect: Expect) -> Opener
        ensures made { result ≡ opener_of (pos 18) key.old expect }
        ensures taken { key.new ≡ replicate 32 0 }
    {
        Opener::new(SessionKey::new_256(key), expect)
    }

    /// The user data of a frame that carries the sequence number `number`, opened at `now`.
    ///
    /// The refusal is that of the first check which the frame fails. No frame carries a number
    /// over [`LAST_NUMBER`](krb_base::LAST_NUMBER). `Memory` is returned only where the frame is a
    /// KRB-SAFE that passes all checks, or a KRB-PRIV that passes those of its header.
    pub fn unseal(
        &self,
        alloc: Global,
        frame: &[u8],
        number: u64,
        now: Moment,
    ) -> Result<Vec<u8>, Refusal>
        ensures answer { OrMemory (Opens self.now number now frame.now) (seen result) }
        ensures memory { result ≡ Err Refusal.Memory
            → AsksForMemory self.now number now frame.now }
    {
        let user_data = self.unseal_telling(alloc, frame, number, now)?;
        Ok(user_data.into_vec())
    }

    /// As [`unseal`](Opener::unseal), but the user data stay where they were deciphered. And of a frame
    /// that is refused by its number it tells at which number it opens: one below the demanded number
    /// is a repeat, one above it leaves a gap.
    pub fn unseal_telling(
        &self,
        alloc: Global,
        frame: &[u8],
        number: u64,
        now: Moment,
    ) -> Result<Bytes, Unopened>
        ensures answer { OrMemory (Opens self.now number now frame.now) (untold result) }
        ensures number { IfErr result (TellsNumber self.now now frame.now) }
        ensures no_other { IfErr result TellsNoOther }
        ensures memory { untold result ≡ Err Refusal.Memory
            → AsksForMemory self.now number now frame.now }
    {
        if self.keys.is_wiped() {
            let zeros = self.keys_of_zeros();
            let answer = Opening::new(self.etype, &zeros, &self.expect).unseal(
                alloc, frame, number, now,
            );
            zeros.spend();
            return answer;
        }
        Opening::new(self.etype, &self.keys, &self.expect).unseal(alloc, frame, number, now)
    }

    /// What the integrity code of a frame is computed over: of a KRB-SAFE the bytes under its checksum, of
    /// a KRB-PRIV its deciphered text. There is none if the frame is no message whose header passes its
    /// checks, nor without memory, nor once the opener is wiped.
    pub fn covered<'f>(&self, alloc: Global, frame: &'f [u8]) -> Option<Covered<'f>>
        ensures { IfSome result (CoversFrame self.now frame.now) }
    {
        if self.keys.is_wiped() {
            return None;
        }
        Opening::new(self.etype, &self.keys, &self.expect).covered(alloc, frame)
    }

    /// Makes the key of its frames' codes ready for eight at a time, and gives it. What opens one at a time
    /// doesn't need it. A wiped opener, whose key is zeros, has none.
    pub fn prepare_batch(&mut self) -> Option<&BatchMac>
        ensures key { IfSome result (λ mac. HoldsBatchKey mac.now (code_key_of self.old)) }
        ensures none { IfNone result (AreZero self.old.key) }
        ensures* same { sem 𝓛 (Rests the_row self.entry (λ new. new ≡ self.old)) }
    {
        self.keys.prepare_batch()
    }

    /// That key, if it was made ready. There is none once the opener is wiped.
    pub fn batch_mac(&self) -> Option<&BatchMac>
        ensures { IfSome result (λ mac. HoldsBatchKey mac.now (code_key_of self.now)) }
    {
        if self.keys.is_wiped() {
            return None;
        }
        self.keys.batch_mac()
    }

    /// As [`unseal_telling`](Opener::unseal_telling), by a code that was computed before. If none is given,
    /// it is computed.
    pub fn unseal_coded(
        &self,
        alloc: Global,
        frame: &[u8],
        coded: Option<Coded<'_>>,
        number: u64,
        now: Moment,
    ) -> Result<Bytes, Unopened>
        requires coded { ForSome coded (IsCodedFrame self.now frame.now) }
        ensures answer { OrMemory (Opens self.now number now frame.now) (untold result) }
        ensures number { IfErr result (TellsNumber self.now now frame.now) }
        ensures no_other { IfErr result TellsNoOther }
        ensures memory { untold result ≡ Err Refusal.Memory
            → AsksForMemory self.now number now frame.now }
    {
        let Some(coded) = coded else {
            return self.unseal_telling(alloc, frame, number, now);
        };
        if self.keys.is_wiped() {
            return self.unseal_telling(alloc, frame, number, now);
        }
        Opening::new(self.etype, &self.keys, &self.expect).unseal_coded(
            alloc, frame, coded, number, now,
        )
    }

    /// The authenticated body of a frame: its user data, time, number and addresses, each absent if
    /// the frame leaves it out. Nothing is demanded of them: that is left to the caller.
    ///
    /// The refusal is that of the first check which the frame fails: its size, its spelling, its
    /// version, its kind, its encryption type and its integrity, or its checksum's type and its
    /// checksum.
    pub fn authenticate(&self, alloc: Global, frame: &[u8]) -> Result<Body, Refusal>
        ensures answer { OrMemory (Authenticates self.now frame.now) result }
        ensures range { IfOk result InRange }
        ensures memory { result ≡ Err Refusal.Memory → AsksWithoutDemands self.now frame.now }
    {
        if self.keys.is_wiped() {
            let zeros = self.keys_of_zeros();
            let answer = Opening::new(self.etype, &zeros, &self.expect).authenticate(alloc, frame);
            zeros.spend();
            return answer;
        }
        Opening::new(self.etype, &self.keys, &self.expect).authenticate(alloc, frame)
    }

    /// Overwrites all keys in place, and derives none. What is left is the opener of a key of as many
    /// zeros, which nobody uses.
    pub fn wipe(&mut self)
        ensures key { self.new.key ≡ replicate (length self.old.key) 0 }
        ensures etype { self.new.etype ≡ self.old.etype }
        ensures expect { self.new.expect ≡ self.old.expect }
    {
        self.keys.wipe();
    }

    /// The keys that the session key of a wiped opener gives, which is zeros. Only a caller who
    /// still opens frames by it has them derived.
    fn keys_of_zeros(&self) -> Keys
        requires { self.now.key ≡ replicate (length self.now.key) 0 }
        ensures { result ≡ fresh_keys self.now.key ends.Opener (purpose_of self.now.expect.mode) }
    {
        let (_, zeros) = SessionKey::filled(self.etype, 0).into_parts();
        Keys::new(zeros, End::Opener, self.expect.mode.purpose())
    }
}
