//! One end of a session of plain user data, in both directions.

ghost use Rattle.std.specs.Prelude.{◌≡◌, ◌≤◌, ◌↔◌, ◌+◌, true, drop, length, take, IfErr, IfOk, IfSome, IsSome, IsTrue, OnErr, OnOk, None, Some, false};
ghost use Rattle.std.specs.Borrow.{sem};
ghost use Rattle.std.specs.Io.BufRead.{Rests};
ghost use Rattle.krb_etype.specs.CodeKey.{code_key};
ghost use Rattle.krb_keys.specs.BatchMac.{HoldsBatchKey};
ghost use Rattle.krb_seal.specs.Mode.{purpose_of};
ghost use Rattle.krb_seal.specs.Sealer.{SealsNext, end_of_numbers, wiped_state};
ghost use Rattle.krb_structs.specs.Fault.{IsDone, Needs, answer_of};
ghost use Rattle.krb_structs.specs.Moment.{micros_of};
ghost use Rattle.krb_structs.specs.Opening.{GivesTo, MisordersTo};
ghost use Rattle.krb_structs.specs.Peer.{CanResume, IsPeerDemand, Resumes, new_peer, peer_expect, peer_opened, peer_sealed, peer_sealed_many};
ghost use Rattle.krb_structs.specs.PeerExport.{Exports, export_of};
ghost use Rattle.krb_structs.specs.Reasons.{DemandAnswer, NewAnswer, PeerAnswer, ResumeAnswer, SealAnswer};
ghost use Rattle.krb_structs.specs.Session.{IsSession};

use crate::any_sealer::AnySealer;
use crate::carried::KrbCarried;
use crate::demand::{KrbDemand, is_demand};
use crate::fault::Fault;
use crate::moment::KrbMoment;
use crate::opening::open_telling;
use crate::peer_export::{EXPORT_SIZE, export_of, exported};
use crate::session::{KrbExpect, KrbSession};
use crate::wipe::Wipe;
use crate::wipeable_opener::WipeableOpener;
use krb_base::LAST_NUMBER;
use krb_keys::BatchMac;
use krb_seal::Refusal;
use std::alloc::Global;
use std::marker::Model;

/// One end of a session, in both directions: it seals under its own numbers, and opens what the other
/// end sealed, in order (RFC 4120 sections 3.4 and 3.5). One key serves both directions, so it is the
/// addresses that tell a message of the other end from one of this end.
#[derive(Drop)]
pub struct Peer {
    sealer: AnySealer,
    opener: WipeableOpener,
    /// Its number is the one that is expected.
    demand: KrbDemand,
}

impl Model for Peer {
    ghost use Rattle.krb_structs.specs.Peer.{PeerState, IsPeerDemand};

    ghost Value = { PeerState };

    ghost view = { λ a. record { sealer = a.sealer; opener = a.opener; demand = a.demand } };

    ghost invariant = { λ a. IsPeerDemand a.demand };
}

/// Whether it is a demand whose number can rise.
fn is_peer_demand(demand: &KrbDemand) -> bool
    ensures { IsTrue result ↔ IsPeerDemand demand.now }
{
    is_demand(demand)
        && (demand.how_number == 2 || demand.how_number == 3)
        && demand.number <= LAST_NUMBER + 1
}

/// What the opener of a peer expects: the session's mode.
fn peer_expect(told: &KrbSession, demand: &KrbDemand) -> KrbExpect
    ensures { result ≡ peer_expect told.now demand.now }
{
    KrbExpect {
        mode: told.mode,
        sender: demand.sender,
        receiver: demand.receiver,
        require_receiver: 0,
        require_time: 0,
        skew: 0,
        reserved: [0; 4],
    }
}

/// The numbers of an export, if a peer can go on from it.
fn numbers_of(
    told: &KrbSession,
    demand: &KrbDemand,
    state: &[u8; EXPORT_SIZE],
) -> Result<(u64, u64), Fault>
    ensures numbers { IfOk result (λ numbers. Exports state.now numbers.0 numbers.1) }
    ensures answer { Needs (CanResume told.now demand.now state.now) Fault.Argument IsDone
        (answer_of result) }
{
    if !is_peer_demand(demand) || told.first != 0 || demand.number != 0 {
        return Err(Fault::Argument);
    }
    match exported(state) {
        Some(numbers) => Ok(numbers),
        None => Err(Fault::Argument),
    }
}

impl Peer {
    ghost use Rattle.krb_structs.specs.contracts.peer.Peer.{the_row};

    /// A peer on the heap, which writes what the session says, and demands this of the other end's
    /// messages, first of all the demand's number.
    pub fn new(
        alloc: Global,
        etype: i32,
        key: &[u8],
        told: &KrbSession,
        demand: &KrbDemand,
    ) -> Result<Box<Peer>, Fault>
        ensures made { IfOk result (λ b. b.value ≡ new_peer etype key.now told.now demand.now) }
        ensures answer { PeerAnswer etype (length key.now) told.now demand.now
            (answer_of result) }
    {
        if !is_peer_demand(demand) {
            return Err(Fault::Argument);
        }
        Peer::begin(alloc, etype, key, told, demand)
    }

    /// A peer on the heap, which goes on where another was exported. The numbers of the session and
    /// of the demand are 0, since the export tells them.
    pub fn resume(
        alloc: Global,
        etype: i32,
        key: &[u8],
        told: &KrbSession,
        demand: &KrbDemand,
        state: &[u8; EXPORT_SIZE],
    ) -> Result<Box<Peer>, Fault>
        ensures made { IfOk result (λ b.
            Resumes etype key.now told.now demand.now state.now b.value) }
        ensures answer { ResumeAnswer etype (length key.now) told.now demand.now state.now
            (answer_of result) }
    {
        let (next, expected) = numbers_of(told, demand, state)?;
        if next > LAST_NUMBER {
            return Err(Fault::Exhausted);
        }
        let mut session = *told;
        session.first = next as u32;
        let mut expecting = *demand;
        expecting.number = expected;
        Peer::begin(alloc, etype, key, &session, &expecting)
    }

    /// A peer on the heap, whose demand was checked.
    fn begin(
        alloc: Global,
        etype: i32,
        key: &[u8],
        told: &KrbSession,
        demand: &KrbDemand,
    ) -> Result<Box<Peer>, Fault>
        requires { IsPeerDemand demand.now }
        ensures made { IfOk result (λ b. b.value ≡ new_peer etype key.now told.now demand.now) }
        ensures answer { NewAnswer etype (length key.now) (IsSession told.now) told.now.mode
            told.now.sender.len told.now.receiver.len (answer_of result) }
    {
        let sealer = AnySealer::of(alloc, etype, key, told)?;
        let opener = WipeableOpener::of(alloc, etype, key, &peer_expect(told, demand))?;
        let peer = Peer {
            sealer,
            opener,
            demand: *demand,
        };
        match Box::new(alloc, peer) {
            Ok(peer) => Ok(peer),
            Err(_) => Err(Fault::Refused(Refusal::Memory)),
        }
    }

    /// Seals at this end's next number, as [`AnySealer::seal`] does.
    pub fn seal(
        &mut self,
        alloc: Global,
        user: &[u8],
        at: &KrbMoment,
        confounder: &[u8; 16],
        out: &mut [u8],
    ) -> Result<usize, Fault>
        ensures sealed { IfOk result (λ size. SealsNext self.old.sealer user.now
            (micros_of at.now) confounder.now (take size out.new)) }
        ensures size { IfOk result (λ size. size ≤ length out.new) }
        ensures rest { IfOk result (λ size. drop size out.new ≡ drop size out.old) }
        ensures advanced { OnOk result (self.new ≡ peer_sealed self.old) }
        ensures unchanged { OnErr result (self.new ≡ self.old) }
        ensures kept { OnErr result (out.new ≡ out.old) }
        ensures answer { SealAnswer self.old.sealer (length user.now) at.now (length out.old)
            (answer_of result) }
    {
        self.sealer.seal(alloc, user, at, confounder, out)
    }

    /// Makes the key of its own codes ready for eight messages at a time, and gives it. A wiped peer has none.
    pub fn prepare_batch(&mut self) -> Option<&BatchMac>
        ensures there { IsSome result ↔ self.old.sealer.wiped ≡ false }
        ensures key { IfSome result (λ mac.
            HoldsBatchKey mac.now (code_key (purpose_of self.old.sealer.session.mode) self.old.sealer.key)) }
        ensures* same { sem 𝓛 (Rests the_row self.entry (λ new. new ≡ self.old)) }
    {
        self.sealer.prepare_batch()
    }

    /// The sealer that it holds, for what seals several messages in one call.
    pub fn any_sealer(&self) -> &AnySealer
        ensures { result.now ≡ self.now.sealer }
    {
        &self.sealer
    }

    /// Passes over the numbers at which so many frames were sealed with that sealer.
    pub fn pass(&mut self, count: u64)
        requires { self.old.sealer.next + count ≤ end_of_numbers }
        ensures { self.new ≡ peer_sealed_many self.old count }
    {
        self.sealer.pass(count);
    }

    /// Opens a frame of the other end's into a buffer if it carries the number that is expected, which
    /// is one more then. Tells what else the message carried, and answers the size of the user data.
    ///
    /// BADORDER is the refusal of an authentic message that passes all checks but the number's. Then
    /// what the message carried is written too: a number below the expected one is a repeat, one above
    /// it says that others are missing. Nothing else changes, and nothing at all on any other fault.
    pub fn open(
        &mut self,
        alloc: Global,
        frame: &[u8],
        at: &KrbMoment,
        out: &mut [u8],
        told: &mut KrbCarried,
    ) -> Result<usize, Fault>
        ensures opened { IfOk result (λ size. GivesTo (Some self.old.opener) self.old.demand
            (micros_of at.now) frame.now (take size out.new) told.new) }
        ensures size { IfOk result (λ size. size ≤ length out.new) }
        ensures rest { IfOk result (λ size. drop size out.new ≡ drop size out.old) }
        ensures risen { OnOk result (self.new ≡ peer_opened self.old) }
        ensures unchanged { OnErr result (self.new ≡ self.old) }
        ensures kept { OnErr result (out.new ≡ out.old) }
        ensures misordered { answer_of result ≡ 42 → MisordersTo (Some self.old.opener)
            self.old.demand (micros_of at.now) frame.now told.new }
        ensures untold { ¬ (answer_of result ≡ 0) → ¬ (answer_of result ≡ 42) → told.new ≡ told.old }
        ensures answer { DemandAnswer (Some self.old.opener) self.old.demand at.now frame.now
            (length out.old) (answer_of result) }
    {
        let size = open_telling(alloc, &self.opener, frame, &self.demand, at, out, told)?;
        self.demand.number = u64::from(told.number) + 1;
        Ok(size)
    }

    /// The next sequence number that is sealed, one over the last where none is left.
    pub fn next(&self) -> u64
        ensures value { result ≡ self.now.sealer.next }
        ensures in_range { self.now.sealer.next ≤ end_of_numbers }
    {
        self.sealer.next()
    }

    /// The sequence number that is expected, one over the last where none is left.
    pub fn expected(&self) -> u64
        ensures value { result ≡ self.now.demand.number }
        ensures in_range { self.now.demand.number ≤ end_of_numbers }
    {
        self.demand.number
    }

    /// Both numbers, from which [`Peer::resume`] goes on. There is no secret in them.
    pub fn export(&self) -> [u8; EXPORT_SIZE]
        ensures value { result ≡ export_of self.now.sealer.next self.now.demand.number }
        ensures read { Exports result self.now.sealer.next self.now.demand.number }
    {
        export_of(self.next(), self.expected())
    }
}

impl Wipe for Peer {
    ghost IsWiped = { λ p. (p.sealer.wiped ≡ true) × (p.opener ≡ None) };

    /// Overwrites all keys where they lie. It seals and opens nothing from then on.
    fn wipe(&mut self)
        ensures wiped { (self.new.sealer.wiped ≡ true) × (self.new.opener ≡ None) }
        ensures state { self.new.sealer ≡ wiped_state self.old.sealer }
        ensures demand { self.new.demand ≡ self.old.demand }
    {
        self.sealer.wipe();
        self.opener.wipe();
    }
}
