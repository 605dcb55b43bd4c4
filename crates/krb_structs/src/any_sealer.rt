//! A sealer whose frames fit.

ghost use Rattle.std.specs.Prelude.{◌≡◌, ◌≤◌, ◌+◌, ◌↔◌, true, drop, length, take, IfErr, IfOk, IfSome, IsSome, OnOk, OnErr, false};
ghost use Rattle.std.specs.Borrow.{sem};
ghost use Rattle.std.specs.Io.BufRead.{Rests};
ghost use Rattle.krb_structs.specs.Fault.{answer_of, fault_code};
ghost use Rattle.krb_structs.specs.Moment.{micros_of};
ghost use Rattle.krb_structs.specs.Reasons.{ModeAnswer, NewAnswer, RecordAnswer, SealAnswer, SizeAnswer};
ghost use Rattle.krb_structs.specs.Record.{SealsRecord};
ghost use Rattle.krb_structs.specs.Sealing.{CanPut, IsReady, SizesNext};
ghost use Rattle.krb_structs.specs.Session.{IsSession, mode_of, session_of};
ghost use Rattle.krb_seal.specs.Sealer.{SealsNext, advanced, end_of_numbers, in_mode, new_state, wiped_state};
ghost use Rattle.krb_seal.specs.Lent.{advanced_by};
ghost use Rattle.krb_seal.specs.Mode.{purpose_of};
ghost use Rattle.krb_etype.specs.CodeKey.{code_key};
ghost use Rattle.krb_keys.specs.BatchMac.{HoldsBatchKey};

use crate::buffer::put_front;
use crate::fault::Fault;
use crate::moment::KrbMoment;
use crate::record::{kind_with, record_of};
use crate::session::{KrbSession, mode, session, session_key};
use crate::wipe::Wipe;
use krb_base::{LAST_NUMBER, USER_DATA_LIMIT};
use krb_der::Moment;
use krb_keys::BatchMac;
use krb_seal::{Refusal, Sealer, SessionSealer};
use std::alloc::{AllocError, Global};
use std::marker::Model;

/// A sealer of any encryption type, whose session's addresses have at most 40 bytes each.
#[derive(Drop)]
pub struct AnySealer {
    sealer: SessionSealer,
}

impl Model for AnySealer {
    ghost use Rattle.krb_seal.specs.Sealer.{SealerState};

    ghost Value = { SealerState };

    ghost view = { λ a. a.sealer };

    ghost use Rattle.krb_seal.specs.Session.{HasShortAddresses};

    ghost invariant = { λ a. HasShortAddresses a.sealer.session };
}

impl AnySealer {
    ghost use Rattle.krb_structs.specs.contracts.any_sealer.AnySealer.{the_row};

    /// A sealer.
    pub(crate) fn of(
        alloc: Global,
        etype: i32,
        key: &[u8],
        told: &KrbSession,
    ) -> Result<AnySealer, Fault>
        ensures made { IfOk result (λ s. s ≡ new_state etype key.now (session_of told.now)) }
        ensures answer { NewAnswer etype (length key.now) (IsSession told.now) told.now.mode
            told.now.sender.len told.now.receiver.len (answer_of result) }
    {
        let key = session_key(etype, key)?;
        Ok(AnySealer {
            sealer: SessionSealer::new(key, session(alloc, told)?),
        })
    }

    /// A sealer on the heap.
    pub fn new(
        alloc: Global,
        etype: i32,
        key: &[u8],
        told: &KrbSession,
    ) -> Result<Box<AnySealer>, Fault>
        ensures made { IfOk result (λ b.
            b.value ≡ new_state etype key.now (session_of told.now)) }
        ensures answer { NewAnswer etype (length key.now) (IsSession told.now) told.now.mode
            told.now.sender.len told.now.receiver.len (answer_of result) }
    {
        let sealer = AnySealer::of(alloc, etype, key, told)?;
        match Box::new(alloc, sealer) {
            Ok(sealer) => Ok(sealer),
            Err(_) => Err(Fault::Refused(Refusal::Memory)),
        }
    }

    /// Makes the key of its codes ready for eight messages at a time, and gives it, as `AesSealer::prepare_batch` does.
    pub fn prepare_batch(&mut self) -> Option<&BatchMac>
        ensures there { IsSome result ↔ self.old.wiped ≡ false }
        ensures key { IfSome result (λ mac.
            HoldsBatchKey mac.now (code_key (purpose_of self.old.session.mode) self.old.key)) }
        ensures* same { sem 𝓛 (Rests the_row self.entry (λ new. new ≡ self.old)) }
    {
        self.sealer.prepare_batch()
    }

    /// The sealer that it holds, for what seals several messages in one call.
    pub fn session_sealer(&self) -> &SessionSealer
        ensures { result.now ≡ self.now }
    {
        &self.sealer
    }

    /// Passes over the numbers at which so many frames were sealed with that sealer.
    pub fn pass(&mut self, count: u64)
        requires { self.old.next + count ≤ end_of_numbers }
        ensures { self.new ≡ advanced_by self.old count }
    {
        self.sealer.pass(count);
    }

    /// The next sequence number.
    pub fn next(&self) -> u64
        ensures value { result ≡ self.now.next }
        ensures in_range { self.now.next ≤ end_of_numbers }
    {
        self.sealer.next()
    }

    /// The size of the next frame with so many bytes of user data at a moment.
    pub fn next_size(&self, len: usize, at: &KrbMoment) -> Result<usize, Fault>
        ensures size { IfOk result (SizesNext self.now len at.now) }
        ensures answer { SizeAnswer len at.now (answer_of result) }
    {
        let at = at.moment()?;
        if len > USER_DATA_LIMIT {
            return Err(Fault::TooLong);
        }
        Ok(self.sealer.frame_size(len, at))
    }

    /// Whether so much user data can be sealed at a moment into so much room, which takes no memory.
    /// Answers the moment.
    fn ready(&self, len: usize, at: &KrbMoment, room: usize) -> Result<Moment, Fault>
        ensures value { IfOk result (λ m. m ≡ micros_of at.now) }
        ensures ready { OnOk result (IsReady self.now len at.now room) }
        ensures fails { IfErr result (λ f. SealAnswer self.now len at.now room (fault_code f)) }
    {
        let at = at.moment()?;
        if self.sealer.is_wiped() {
            return Err(Fault::Wiped);
        }
        if len > USER_DATA_LIMIT {
            return Err(Fault::TooLong);
        }
        if self.sealer.next() > LAST_NUMBER {
            return Err(Fault::Exhausted);
        }
        if self.sealer.frame_size(len, at) > room {
            return Err(Fault::Room);
        }
        Ok(at)
    }

    /// Seals what is ready to be sealed: out of memory is the only fault.
    fn put_sealed(
        &mut self,
        alloc: Global,
        user: &[u8],
        at: Moment,
        confounder: &[u8; 16],
        out: &mut [u8],
    ) -> Result<usize, AllocError>
        requires { CanPut self.old (length user.now) at (length out.old) }
        ensures sealed { IfOk result (λ size. SealsNext self.old user.now at confounder.now
            (take size out.new)) }
        ensures size { IfOk result (λ size. size ≤ length out.new) }
        ensures rest { IfOk result (λ size. drop size out.new ≡ drop size out.old) }
        ensures advanced { OnOk result (self.new ≡ advanced self.old) }
        ensures unchanged { OnErr result (self.new ≡ self.old) }
        ensures kept { OnErr result (out.new ≡ out.old) }
    {
        let Ok(frame) = self.sealer.seal(alloc, user, at, *confounder) else {
            return Err(AllocError);
        };
        put_front(out, &frame);
        Ok(frame.len())
    }

    /// Seals into a buffer that has room for the frame, and answers its size. What follows the frame
    /// stays, and so does the whole buffer if nothing is sealed.
    pub fn seal(
        &mut self,
        alloc: Global,
        user: &[u8],
        at: &KrbMoment,
        confounder: &[u8; 16],
        out: &mut [u8],
    ) -> Result<usize, Fault>
        ensures sealed { IfOk result (λ size. SealsNext self.old user.now (micros_of at.now)
            confounder.now (take size out.new)) }
        ensures size { IfOk result (λ size. size ≤ length out.new) }
        ensures rest { IfOk result (λ size. drop size out.new ≡ drop size out.old) }
        ensures advanced { OnOk result (self.new ≡ advanced self.old) }
        ensures unchanged { OnErr result (self.new ≡ self.old) }
        ensures kept { OnErr result (out.new ≡ out.old) }
        ensures answer { SealAnswer self.old (length user.now) at.now (length out.old)
            (answer_of result) }
    {
        let at = self.ready(user.len(), at, out.len())?;
        Ok(self.put_sealed(alloc, user, at, confounder, out)?)
    }

    /// Seals the record of this kind whose bytes after the first are `body`, as [`AnySealer::seal`]
    /// does.
    pub fn seal_record(
        &mut self,
        alloc: Global,
        kind: u32,
        body: &[u8],
        at: &KrbMoment,
        confounder: &[u8; 16],
        out: &mut [u8],
    ) -> Result<usize, Fault>
        ensures sealed { IfOk result (λ size. SealsRecord self.old kind body.now
            (micros_of at.now) confounder.now (take size out.new)) }
        ensures size { IfOk result (λ size. size ≤ length out.new) }
        ensures rest { IfOk result (λ size. drop size out.new ≡ drop size out.old) }
        ensures advanced { OnOk result (self.new ≡ advanced self.old) }
        ensures unchanged { OnErr result (self.new ≡ self.old) }
        ensures kept { OnErr result (out.new ≡ out.old) }
        ensures answer { RecordAnswer self.old kind body.now at.now (length out.old)
            (answer_of result) }
    {
        let kind = kind_with(kind, body)?;
        let at = self.ready(1 + body.len(), at, out.len())?;
        let user = record_of(alloc, kind, body)?;
        Ok(self.put_sealed(alloc, user.as_slice(), at, confounder, out)?)
    }

    /// Seals in the mode with this number from now on.
    pub fn set_mode(&mut self, number: u32) -> Result<(), Fault>
        ensures set { OnOk result (self.new ≡ in_mode self.old (mode_of number)) }
        ensures unchanged { OnErr result (self.new ≡ self.old) }
        ensures answer { ModeAnswer number (answer_of result) }
    {
        self.sealer.set_mode(mode(number)?);
        Ok(())
    }
}

impl Wipe for AnySealer {
    ghost IsWiped = { λ s. s.wiped ≡ true };

    fn wipe(&mut self)
        ensures wiped { self.new.wiped ≡ true }
        ensures state { self.new ≡ wiped_state self.old }
    {
        self.sealer.wipe();
    }
}
