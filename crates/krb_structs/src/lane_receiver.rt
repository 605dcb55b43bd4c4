//! What takes the frames of one sender, one number after another.

ghost use Rattle.std.specs.Prelude.{◌≡◌, ◌≤◌, length, drop, take, Err, IfErr, IfOk, IfNone, IfSome, OnErr, OnOk, Some};
ghost use Rattle.std.specs.Borrow.{sem};
ghost use Rattle.std.specs.Io.BufRead.{Rests};
ghost use Rattle.std.specs.Option.{ForSome};
ghost use Rattle.krb_base.specs.Bytes.{AreZero};
ghost use Rattle.krb_base.specs.Limits.{last_number};
ghost use Rattle.krb_peers.specs.Receiver.{IsJudgement, OpensRecord, TakesMemory};
ghost use Rattle.krb_seal.specs.declared.refusal.Refusal.TheVariants.{BadOrder};
ghost use Rattle.krb_keys.specs.BatchMac.{HoldsBatchKey};
ghost use Rattle.krb_seal.specs.Covered.{IsCodedFrame, code_key_of};
ghost use Rattle.krb_seal.specs.Opens.{opener_of};
ghost use Rattle.krb_structs.specs.declared.fault.Fault.TheVariants.{Refused};
ghost use Rattle.krb_structs.specs.Fault.{answer_of, fault_code};
ghost use Rattle.krb_structs.specs.Moment.{micros_of};
ghost use Rattle.krb_structs.specs.Reasons.{ReceiverAnswer, TakeAnswer};
ghost use Rattle.krb_structs.specs.Number.{TellsItsNumber, number_told};
ghost use Rattle.krb_structs.specs.Record.{Accepts};
ghost use Rattle.krb_structs.specs.Session.{IsExpect, expect_of};
ghost use Rattle.krb_structs.specs.Wipeable.{IsWipedReceiver};

use crate::buffer::put_within;
use crate::fault::Fault;
use crate::moment::KrbMoment;
use crate::session::{KrbExpect, expectation, session_key};
use crate::wipe::Wipe;
use krb_base::LAST_NUMBER;
use krb_der::Moment;
use krb_keys::BatchMac;
use krb_peers::{Opened, Receiver};
use krb_seal::{Coded, Opener, Refusal};
use std::alloc::Global;
use std::marker::Model;

/// A receiver of `krb_peers`, which goes on from any state.
#[derive(Drop)]
pub struct LaneReceiver {
    receiver: Receiver,
}

impl Model for LaneReceiver {
    ghost use Rattle.krb_peers.specs.ReceiverState.{ReceiverState};

    ghost Value = { ReceiverState };

    ghost view = { λ a. a.receiver };
}

impl LaneReceiver {
    ghost use Rattle.krb_structs.specs.contracts.lane_receiver.LaneReceiver.{the_row};

    /// A receiver on the heap, which demands this number next, or nothing after a close.
    pub fn new(
        alloc: Global,
        etype: i32,
        key: &[u8],
        told: &KrbExpect,
        expected: u64,
        closed: bool,
    ) -> Result<Box<LaneReceiver>, Fault>
        ensures opener { IfOk result (λ b.
            b.value.opener ≡ opener_of etype key.now (expect_of told.now)) }
        ensures expected { IfOk result (λ b. b.value.demand.expected ≡ expected) }
        ensures closed { IfOk result (λ b. b.value.demand.closed ≡ closed) }
        ensures answer { ReceiverAnswer expected etype (length key.now) (IsExpect told.now)
            told.now.mode told.now.sender.len told.now.receiver.len (answer_of result) }
    {
        if expected > LAST_NUMBER + 1 {
            return Err(Fault::Argument);
        }
        let key = session_key(etype, key)?;
        let opener = Opener::new(key, expectation(alloc, told)?);
        let receiver = LaneReceiver {
            receiver: Receiver::resume(opener, expected, closed),
        };
        match Box::new(alloc, receiver) {
            Ok(receiver) => Ok(receiver),
            Err(_) => Err(Fault::Refused(Refusal::Memory)),
        }
    }

    /// The number that is demanded next: at most one over the last, which no message has.
    pub fn expected(&self) -> u64
        ensures { result ≡ self.now.demand.expected }
    {
        self.receiver.expected()
    }

    /// Whether a close was accepted.
    pub fn closed(&self) -> bool
        ensures { result ≡ self.now.demand.closed }
    {
        self.receiver.closed()
    }

    /// What opens its frames. It stays as it is while frames are taken.
    pub fn opener(&self) -> &Opener
        ensures { result.now ≡ self.now.opener }
    {
        self.receiver.opener()
    }

    /// Makes the key of its frames' codes ready for eight at a time, and gives it, as [`Opener::prepare_batch`] does.
    pub fn prepare_batch(&mut self) -> Option<&BatchMac>
        ensures key { IfSome result (λ mac. HoldsBatchKey mac.now (code_key_of self.old.opener)) }
        ensures none { IfNone result (AreZero self.old.opener.key) }
        ensures* same { sem 𝓛 (Rests the_row self.entry (λ new. new ≡ self.old)) }
    {
        self.receiver.prepare_batch()
    }

    /// Takes a frame at a moment, and writes the bytes of its record after the first: answers the
    /// record's kind and their number. Each fault leaves all as it was. The user data's block is
    /// overwritten before it is freed.
    pub fn take(
        &mut self,
        alloc: Global,
        frame: &[u8],
        at: &KrbMoment,
        out: &mut [u8],
    ) -> Result<(u32, usize), Fault>
        ensures accepted { IfOk result (λ taken. Accepts self.old (micros_of at.now) frame.now
            taken.0 (take taken.1 out.new) self.new) }
        ensures size { IfOk result (λ taken. taken.1 ≤ length out.new) }
        ensures rest { IfOk result (λ taken. drop taken.1 out.new ≡ drop taken.1 out.old) }
        ensures unchanged { OnErr result (self.new ≡ self.old) }
        ensures kept { OnErr result (out.new ≡ out.old) }
        ensures answer { TakeAnswer (Some self.old) at.now frame.now (length out.old)
            (answer_of result) }
    {
        let mut number = 0;
        self.take_numbered(alloc, frame, at, out, &mut number)
    }

    /// Takes a frame as [`LaneReceiver::take`] does, and tells its number. If its number is all that
    /// the frame is refused by, it tells the one at which the frame opens, and `u64::MAX` if it opens
    /// at none.
    pub fn take_numbered(
        &mut self,
        alloc: Global,
        frame: &[u8],
        at: &KrbMoment,
        out: &mut [u8],
        number: &mut u64,
    ) -> Result<(u32, usize), Fault>
        ensures accepted { IfOk result (λ taken. Accepts self.old (micros_of at.now) frame.now
            taken.0 (take taken.1 out.new) self.new) }
        ensures size { IfOk result (λ taken. taken.1 ≤ length out.new) }
        ensures rest { IfOk result (λ taken. drop taken.1 out.new ≡ drop taken.1 out.old) }
        ensures unchanged { OnErr result (self.new ≡ self.old) }
        ensures kept { OnErr result (out.new ≡ out.old) }
        ensures answer { TakeAnswer (Some self.old) at.now frame.now (length out.old)
            (answer_of result) }
        ensures number { OnOk result (number.new ≡ self.old.demand.expected) }
        ensures misordered { answer_of result ≡ fault_code (Refused BadOrder)
            → TellsItsNumber self.old.opener (micros_of at.now) frame.now number.new }
        ensures untold { IfErr result (λ fault. ¬ (fault ≡ Refused BadOrder)
            → number.new ≡ number.old) }
    {
        self.take_coded(alloc, frame, None, at, out, number)
    }

    /// Takes a frame as [`LaneReceiver::take_numbered`] does, by a code that was computed before
    /// ([`Opener::unseal_coded`]).
    pub fn take_coded(
        &mut self,
        alloc: Global,
        frame: &[u8],
        coded: Option<Coded<'_>>,
        at: &KrbMoment,
        out: &mut [u8],
        number: &mut u64,
    ) -> Result<(u32, usize), Fault>
        requires coded { ForSome coded (IsCodedFrame self.old.opener frame.now) }
        ensures accepted { IfOk result (λ taken. Accepts self.old (micros_of at.now) frame.now
            taken.0 (take taken.1 out.new) self.new) }
        ensures size { IfOk result (λ taken. taken.1 ≤ length out.new) }
        ensures rest { IfOk result (λ taken. drop taken.1 out.new ≡ drop taken.1 out.old) }
        ensures unchanged { OnErr result (self.new ≡ self.old) }
        ensures kept { OnErr result (out.new ≡ out.old) }
        ensures answer { TakeAnswer (Some self.old) at.now frame.now (length out.old)
            (answer_of result) }
        ensures number { OnOk result (number.new ≡ self.old.demand.expected) }
        ensures misordered { answer_of result ≡ fault_code (Refused BadOrder)
            → TellsItsNumber self.old.opener (micros_of at.now) frame.now number.new }
        ensures untold { IfErr result (λ fault. ¬ (fault ≡ Refused BadOrder)
            → number.new ≡ number.old) }
    {
        let now = at.moment()?;
        let opened = self.open(alloc, frame, coded, now, number)?;
        let size = put_within(out, &opened.bytes.as_slice()[1..])?;
        *number = self.receiver.expected();
        self.receiver.accept(opened.kind);
        Ok((opened.kind.number(), size))
    }

    /// Opens a frame, whose code may be given, and tells its number if that is all that it is refused by.
    fn open(
        &self,
        alloc: Global,
        frame: &[u8],
        coded: Option<Coded<'_>>,
        now: Moment,
        number: &mut u64,
    ) -> Result<Opened, Refusal>
        requires coded { ForSome coded (IsCodedFrame self.now.opener frame.now) }
        ensures opened { IfOk result (OpensRecord self.now now frame.now) }
        ensures refused { IfErr result (λ refusal.
            IsJudgement self.now now frame.now (Err refusal)) }
        ensures memory { result ≡ Err Refusal.Memory → TakesMemory self.now now frame.now }
        ensures in_range { OnOk result (self.now.demand.expected ≤ last_number) }
        ensures misordered { result ≡ Err Refusal.BadOrder
            → TellsItsNumber self.now.opener now frame.now number.new }
        ensures untold { ¬ (result ≡ Err Refusal.BadOrder) → number.new ≡ number.old }
    {
        match self.receiver.open_coded(alloc, frame, coded, now) {
            Ok(opened) => Ok(opened),
            Err(unopened) => {
                if matches!(unopened.refusal, Refusal::BadOrder) {
                    *number = number_told(unopened.number);
                }
                Err(unopened.refusal)
            }
        }
    }
}

/// A number as C gets it: the highest of 64 bits where there is none.
fn number_told(number: Option<u32>) -> u64
    ensures { result ≡ number_told number }
{
    match number {
        Some(number) => u64::from(number),
        None => u64::MAX,
    }
}

impl Wipe for LaneReceiver {
    ghost IsWiped = { IsWipedReceiver };

    /// Overwrites all keys where they lie. Each frame is refused from then on, as after a close.
    fn wipe(&mut self)
        ensures { IsWipedReceiver self.new }
    {
        self.receiver.wipe();
    }
}
