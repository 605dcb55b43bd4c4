//! The receiver of a lane.

ghost use Rattle.std.specs.Prelude.{◌≡◌, ◌⊎◌, ◌+◌, ◌<◌, ◌≤◌, length, replicate, IsFalse, IsTrue, IfErr, IfNone, IfOk, IfSome, Ok, Err, OnOk, OnErr};
ghost use Rattle.std.specs.Borrow.{sem};
ghost use Rattle.std.specs.Io.BufRead.{Rests};
ghost use Rattle.std.specs.Option.{ForSome};
ghost use Rattle.krb_base.specs.Bytes.{AreZero};
ghost use Rattle.krb_base.specs.Limits.{last_number};
ghost use Rattle.krb_record.specs.Record.{is_close, kind_of};
ghost use Rattle.krb_keys.specs.BatchMac.{HoldsBatchKey};
ghost use Rattle.krb_seal.specs.Covered.{IsCodedFrame, code_key_of};
ghost use Rattle.krb_seal.specs.Number.{TellsNoOther, TellsNumber};
ghost use Rattle.krb_seal.specs.Opens.{Opens};
ghost use Rattle.krb_seal.specs.Unseals.{untold};
ghost use Rattle.krb_peers.specs.declared.delivery.Delivery.{Delivery as DeliveryValue};
ghost use Rattle.krb_peers.specs.Moments.{moment_at};
ghost use Rattle.krb_peers.specs.Verdicts.{Fails, IsVerdict, record_of};
ghost use Rattle.krb_peers.specs.Order.{first_demand};
ghost use Rattle.krb_peers.specs.Receiver.{verdict_by, IsJudgement, OpensRecord, TakesMemory, receiver_after, advanced};
ghost use Rattle.krb_peers.specs.Logged.{noted, IsShut, LogsNext};

use crate::delivery::Delivery;
use crate::log::Log;
use crate::order::Order;
use krb_base::{Bytes, Secret};
use krb_der::Moment;
use krb_keys::BatchMac;
use krb_record::{RecordError, RecordKind, into_record};
use krb_seal::{Coded, Opener, Refusal, Unopened};
use std::alloc::{AllocError, Global};
use std::marker::Model;

/// Opens the frames of one sender, and accepts only the next number.
///
/// Contracts see it as its opener, and what it demands.
#[derive(Drop)]
pub struct Receiver {
    opener: Opener,
    order: Order,
}

/// A record in the block in which its frame was opened. The block is overwritten before it is freed.
#[derive(Drop)]
pub struct Opened {
    /// Its kind.
    pub kind: RecordKind,
    /// Its bytes, of which the first tells the kind.
    pub bytes: Secret,
}

/// A receiver and the timestamps at which it takes frames: entry i for the i-th, refused ones
/// counted, and the last one for all others. There is at least one.
#[derive(Drop)]
pub struct Receiving {
    /// What takes the frames.
    pub receiver: Receiver,
    /// The timestamps, in order.
    pub nows: Vec<Moment>,
}

impl Receiving {
    /// The timestamp at which the frame of this place is taken: the last one serves all later
    /// places.
    pub fn moment_at(&self, place: usize) -> Moment
        requires { 0 < length self.now.nows.items }
        ensures { result ≡ moment_at self.now.nows.items place }
    {
        self.nows[place.min(self.nows.len() - 1)]
    }
}

impl Model for Receiver {
    ghost use Rattle.krb_peers.specs.ReceiverState.{ReceiverState};

    ghost Value = { ReceiverState };

    ghost view = { λ receiver. record { opener = receiver.opener; demand = receiver.order } };
}

impl Receiver {
    ghost use Rattle.krb_peers.specs.contracts.receiver.Receiver.{the_row};

    /// A receiver that has taken nothing, and demands the number `first`.
    pub fn new(opener: Opener, first: u32) -> Receiver
        ensures opener { result.opener ≡ opener }
        ensures demand { result.demand ≡ first_demand first }
    {
        Receiver {
            opener,
            order: Order::new(first),
        }
    }

    /// A receiver that goes on from what another one told: it demands the number `demanded`, at most
    /// one over the last, or nothing if a close was accepted.
    pub fn resume(opener: Opener, demanded: u64, closed: bool) -> Receiver
        requires { demanded ≤ last_number + 1 }
        ensures opener { result.opener ≡ opener }
        ensures expected { result.demand.expected ≡ demanded }
        ensures closed { result.demand.closed ≡ closed }
    {
        Receiver {
            opener,
            order: Order::resume(demanded, closed),
        }
    }

    /// The number that is demanded next: at most one over the last, which no message has.
    pub fn expected(&self) -> u64
        ensures number { result ≡ self.now.demand.expected }
        ensures in_range { result ≤ last_number + 1 }
    {
        self.order.expected()
    }

    /// Whether a close was accepted.
    pub fn closed(&self) -> bool
        ensures { result ≡ self.now.demand.closed }
    {
        self.order.closed()
    }

    /// What opens its frames. It stays as it is while frames are taken.
    pub fn opener(&self) -> &Opener
        ensures { result.now ≡ self.now.opener }
    {
        &self.opener
    }

    /// Makes the key of its frames' codes ready for eight at a time, and gives it, as [`Opener::prepare_batch`] does.
    pub fn prepare_batch(&mut self) -> Option<&BatchMac>
        ensures key { IfSome result (λ mac. HoldsBatchKey mac.now (code_key_of self.old.opener)) }
        ensures none { IfNone result (AreZero self.old.opener.key) }
        ensures* same { sem 𝓛 (Rests the_row self.entry (λ new. new ≡ self.old)) }
    {
        self.opener.prepare_batch()
    }

    /// Takes a frame at the timestamp `now`: what it carries, or the refusal of the first check
    /// that it fails.
    ///
    /// `Memory` is returned if an allocation failed: only of a KRB-SAFE that passes all checks, and of a
    /// KRB-PRIV that passes those of its header, and never after a close. Each refusal leaves the
    /// receiver as it was.
    pub fn take(&mut self, alloc: Global, frame: &[u8], now: Moment) -> Result<Delivery, Refusal>
        ensures verdict { IsJudgement self.old now frame.now result }
        ensures memory { result ≡ Err Refusal.Memory → TakesMemory self.old now frame.now }
        ensures after { self.new ≡ receiver_after self.old result }

        ensures number { OnOk result (self.new.demand.expected ≡ self.old.demand.expected + 1) }
        ensures closed { IfOk result (λ carried.
            self.new.demand.closed ≡ is_close (record_of carried)) }
        ensures err { OnErr result (self.new ≡ self.old) }
    {
        self.take_coded(alloc, frame, None, now)
    }

    /// Takes a frame as [`take`](Receiver::take) does, by a code that was computed before
    /// ([`Opener::unseal_coded`]).
    pub fn take_coded(
        &mut self,
        alloc: Global,
        frame: &[u8],
        coded: Option<Coded<'_>>,
        now: Moment,
    ) -> Result<Delivery, Refusal>
        requires coded { ForSome coded (IsCodedFrame self.old.opener frame.now) }
        ensures verdict { IsJudgement self.old now frame.now result }
        ensures memory { result ≡ Err Refusal.Memory → TakesMemory self.old now frame.now }
        ensures after { self.new ≡ receiver_after self.old result }
        ensures number { OnOk result (self.new.demand.expected ≡ self.old.demand.expected + 1) }
        ensures closed { IfOk result (λ carried.
            self.new.demand.closed ≡ is_close (record_of carried)) }
        ensures err { OnErr result (self.new ≡ self.old) }
    {
        let delivery = self.judge(alloc, frame, coded, now)?;
        self.advance(delivery.is_close());
        Ok(delivery)
    }

    /// Opens a frame as [`take`](Receiver::take) does, and leaves its record where it was opened:
    /// nothing is copied or moved. Nothing changes either: [`accept`](Receiver::accept) moves on.
    ///
    /// `Memory` is returned where [`take`](Receiver::take) may return it. A frame that is refused by its
    /// number tells at which number it opens.
    pub fn open(&self, alloc: Global, frame: &[u8], now: Moment) -> Result<Opened, Unopened>
        ensures opened { IfOk result (OpensRecord self.now now frame.now) }
        ensures refused { IfErr result (λ unopened.
            IsJudgement self.now now frame.now (Err unopened.refusal)) }
        ensures number { IfErr result (TellsNumber self.now.opener now frame.now) }
        ensures no_other { IfErr result TellsNoOther }
        ensures memory { untold result ≡ Err Refusal.Memory → TakesMemory self.now now frame.now }
        ensures in_range { OnOk result (self.now.demand.expected ≤ last_number) }
    {
        self.open_coded(alloc, frame, None, now)
    }

    /// Opens a frame as [`open`](Receiver::open) does, by a code that was computed before
    /// ([`Opener::unseal_coded`]).
    pub fn open_coded(
        &self,
        alloc: Global,
        frame: &[u8],
        coded: Option<Coded<'_>>,
        now: Moment,
    ) -> Result<Opened, Unopened>
        requires coded { ForSome coded (IsCodedFrame self.now.opener frame.now) }
        ensures opened { IfOk result (OpensRecord self.now now frame.now) }
        ensures refused { IfErr result (λ unopened.
            IsJudgement self.now now frame.now (Err unopened.refusal)) }
        ensures number { IfErr result (TellsNumber self.now.opener now frame.now) }
        ensures no_other { IfErr result TellsNoOther }
        ensures memory { untold result ≡ Err Refusal.Memory → TakesMemory self.now now frame.now }
        ensures in_range { OnOk result (self.now.demand.expected ≤ last_number) }
    {
        let bytes = Secret::from(self.unsealed(alloc, frame, coded, now)?);
        match RecordKind::of(bytes.as_slice()) {
            Some(kind) => Ok(Opened { kind, bytes }),
            None => Err(Unopened::from(Refusal::BadRecord)),
        }
    }

    /// Moves on after an opened record of this kind, as after its delivery.
    pub fn accept(&mut self, kind: RecordKind)
        requires number { self.old.demand.expected ≤ last_number }
        requires open { IsFalse self.old.demand.closed }
        ensures { (delivery : DeliveryValue) → kind ≡ kind_of (record_of delivery)
            → self.new ≡ receiver_after self.old (Ok delivery) }
    {
        self.advance(matches!(kind, RecordKind::Close));
    }

    /// Takes a frame as [`take`](Receiver::take) does, and enters the outcome in the log as an
    /// event of `lane`, or one for each text of a batch.
    ///
    /// Every allocation comes before the first change, so out of memory, which is the only error,
    /// changes nothing.
    pub fn take_into(
        &mut self,
        log: &mut Log,
        alloc: Global,
        lane: u32,
        frame: &[u8],
        now: Moment,
    ) -> Result<(), AllocError>
        requires lane { lane < log.old.lanes }
        requires shut { IsShut log.old lane self.old }
        ensures verdict { OnOk result (IsVerdict self.old.opener self.old.demand now frame.now
            (verdict_by self.old now frame.now)) }
        ensures receiver { OnOk result
            (self.new ≡ receiver_after self.old (verdict_by self.old now frame.now)) }
        ensures log { OnOk result
            (log.new ≡ noted log.old lane (verdict_by self.old now frame.now)) }
        ensures unchanged { OnErr result (self.new ≡ self.old) }
        ensures unwritten { OnErr result (log.new ≡ log.old) }

        // Whatever was taken before, the frame comes after it, and other lanes' entries stay.
        ensures logged { OnOk result
            (LogsNext self.old log.old lane now frame.now self.new log.new) }
    {
        let verdict = self.verdict_on(alloc, frame, now)?;
        match verdict {
            Ok(delivery) => {
                let close = delivery.is_close();
                log.note(lane, Ok(delivery))?;
                self.advance(close);
            }
            Err(refusal) => log.note(lane, Err(refusal))?,
        }
        Ok(())
    }

    /// Overwrites the keys where they lie. Each frame is refused from then on, as after a close.
    pub fn wipe(&mut self)
        ensures key { self.new.opener.key ≡ replicate (length self.old.opener.key) 0 }
        ensures closed { IsTrue self.new.demand.closed }
        ensures expected { self.new.demand.expected ≡ self.old.demand.expected }
    {
        self.opener.wipe();
        self.order.shut();
    }

    /// The verdict on a frame. Nothing changes. Out of memory is no verdict, and is returned only where
    /// memory is asked for.
    fn verdict_on(
        &self,
        alloc: Global,
        frame: &[u8],
        now: Moment,
    ) -> Result<Result<Delivery, Refusal>, AllocError>
        ensures verdict { IfOk result (λ verdict.
            IsVerdict self.now.opener self.now.demand now frame.now verdict) }
        ensures memory { OnErr result (TakesMemory self.now now frame.now) }
        ensures in_range { IfOk result (λ verdict.
            OnOk verdict (self.now.demand.expected ≤ last_number)) }
    {
        match self.judge(alloc, frame, None, now) {
            Ok(delivery) => Ok(Ok(delivery)),
            Err(Refusal::Memory) => Err(AllocError),
            Err(refusal) => Ok(Err(refusal)),
        }
    }

    /// What [`take`](Receiver::take) would return now. Nothing changes. The frame's code may be given.
    fn judge(
        &self,
        alloc: Global,
        frame: &[u8],
        coded: Option<Coded<'_>>,
        now: Moment,
    ) -> Result<Delivery, Refusal>
        requires coded { ForSome coded (IsCodedFrame self.now.opener frame.now) }
        ensures verdict { IsJudgement self.now now frame.now result }
        ensures memory { result ≡ Err Refusal.Memory → TakesMemory self.now now frame.now }
        ensures in_range { OnOk result (self.now.demand.expected ≤ last_number) }
    {
        let user_data = self.unsealed(alloc, frame, coded, now)?;
        match into_record(alloc, user_data) {
            Ok(record) => Ok(Delivery::from(record)),
            Err(RecordError::BadRecord) => Err(Refusal::BadRecord),
            Err(RecordError::Memory) => Err(Refusal::Memory),
        }
    }

    /// The user data of a frame that carries the demanded number, unless a close was accepted. Its code
    /// may be given.
    fn unsealed(
        &self,
        alloc: Global,
        frame: &[u8],
        coded: Option<Coded<'_>>,
        now: Moment,
    ) -> Result<Bytes, Unopened>
        requires coded { ForSome coded (IsCodedFrame self.now.opener frame.now) }
        ensures open { OnOk result (IsFalse self.now.demand.closed) }
        ensures opened { IfOk result (λ user. Opens self.now.opener self.now.demand.expected now
            frame.now (Ok user)) }
        ensures refused { IfErr result (λ unopened. (unopened.refusal ≡ Refusal.Memory)
            ⊎ Fails self.now.opener self.now.demand now frame.now unopened.refusal) }
        ensures number { IfErr result (TellsNumber self.now.opener now frame.now) }
        ensures no_other { IfErr result TellsNoOther }
        ensures memory { untold result ≡ Err Refusal.Memory → TakesMemory self.now now frame.now }
        ensures in_range { OnOk result (self.now.demand.expected ≤ last_number) }
    {
        if self.order.closed() {
            return Err(Unopened::from(Refusal::AfterClose));
        }
        self.opener
            .unseal_coded(alloc, frame, coded, self.order.expected(), now)
    }

    /// Moves on after what [`judge`](Receiver::judge) delivered: the next number is demanded, and a
    /// close is noted.
    fn advance(&mut self, close: bool)
        requires { self.old.demand.expected ≤ last_number }
        ensures { self.new ≡ advanced self.old close }
    {
        self.order.advance(close);
    }
}
