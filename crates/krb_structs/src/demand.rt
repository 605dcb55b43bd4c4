//! What a caller demands of an authentic message.

ghost use Rattle.std.specs.Prelude.{◌≡◌, ◌↔◌, ◌≤◌, length, IsTrue, IfErr, IfOk, OnOk, Err};
ghost use Rattle.krb_der.specs.Body.{InRange};
ghost use Rattle.krb_der.specs.Address.{same_address};
ghost use Rattle.krb_seal.specs.Memory.{AsksWithoutDemands};
ghost use Rattle.krb_seal.specs.Unseals.{OrMemory, first_unmet, refusal_of};
ghost use Rattle.krb_structs.specs.Carried.{carried_of};
ghost use Rattle.krb_structs.specs.Opening.{Misorders};
ghost use Rattle.krb_structs.specs.Session.{address_of, address_room};
ghost use Rattle.krb_structs.specs.Demand.{AreAddresses, AreHows, AreNumbers, AreShort, IsDemand, OpensWith, all_have_room, demand_checks, has_room, is_near, is_within, needs_meet, number_meets, receiver_meets, sender_meets, tells_time, time_meets};

use crate::carried::{KrbCarried, carried};
use crate::session::{ADDRESS_ROOM, KrbAddress, are_zeros, is_no_address};
use krb_base::Secret;
use krb_der::{Body, HostAddress, MICROS_PER_SECOND};
use krb_seal::{Opener, Refusal};
use std::alloc::Global;

/// What is demanded of the addresses, the time and the number of a message, each by a number that
/// says how: 0 nothing, 1 that what the message tells fits, 2 that the message tells it and it
/// fits. 3 says so of a number and a time, and counts an absent integer as 0 (RFC 4120 section
/// 5.1.2): a message without a number has the number 0, and a time without microseconds is a whole
/// second.
#[repr(C)]
#[derive(Clone, Copy)]
pub struct KrbDemand {
    /// How the sender's address is demanded.
    pub how_sender: u32,
    /// How the receiver's address is demanded.
    pub how_receiver: u32,
    /// How the time is demanded.
    pub how_time: u32,
    /// How the sequence number is demanded.
    pub how_number: u32,
    /// The sequence number, where one is demanded; else 0.
    pub number: u64,
    /// How many seconds the time may be off, where one is demanded; else 0.
    pub skew: u32,
    /// The sender's address, where one is demanded; else zeros.
    pub sender: KrbAddress,
    /// The receiver's address, where one is demanded; else zeros.
    pub receiver: KrbAddress,
    /// 1 refuses a message that tells neither its time nor a number (RFC 4120 sections 3.4.2 and
    /// 3.5.2); else 0.
    pub needs_time_or_number: u32,
    /// Zeros.
    pub reserved: [u32; 4],
}

/// Whether the demands are ones that there are.
fn are_hows(demand: &KrbDemand) -> bool
    ensures { IsTrue result ↔ AreHows demand.now }
{
    demand.how_sender <= 2
        && demand.how_receiver <= 2
        && demand.how_time <= 3
        && demand.how_number <= 3
        && demand.needs_time_or_number <= 1
}

/// Whether the addresses fit, and are zeros where none is demanded.
fn are_addresses(demand: &KrbDemand) -> bool
    ensures { IsTrue result ↔ AreAddresses demand.now }
{
    demand.sender.len as usize <= ADDRESS_ROOM
        && demand.receiver.len as usize <= ADDRESS_ROOM
        && (demand.how_sender != 0 || is_no_address(&demand.sender))
        && (demand.how_receiver != 0 || is_no_address(&demand.receiver))
}

/// Whether the other fields are 0 where they aren't read.
fn are_numbers(demand: &KrbDemand) -> bool
    ensures { IsTrue result ↔ AreNumbers demand.now }
{
    (demand.how_time != 0 || demand.skew == 0)
        && (demand.how_number != 0 || demand.number == 0)
        && are_zeros(&demand.reserved)
}

/// Whether it is a demand: its values are ones that there are, and what isn't read is zeros.
pub fn is_demand(demand: &KrbDemand) -> bool
    ensures { IsTrue result ↔ IsDemand demand.now }
{
    are_hows(demand) && are_addresses(demand) && are_numbers(demand)
}

fn has_room(address: &HostAddress) -> bool
    ensures { result ≡ has_room address.now }
{
    address.bytes.as_slice().len() <= ADDRESS_ROOM
}

fn all_have_room(sender: &HostAddress, receiver: &Option<HostAddress>) -> bool
    ensures value { result ≡ all_have_room sender.now receiver.now }
    ensures short { IsTrue result → AreShort sender.now receiver.now }
{
    match receiver {
        None => has_room(sender),
        Some(receiver) => has_room(sender) && has_room(receiver),
    }
}

/// Whether the address is that of a C program.
fn is_address(address: &HostAddress, expected: &KrbAddress) -> bool
    requires { expected.now.len ≤ address_room }
    ensures { result ≡ same_address address.now (address_of expected.now) }
{
    let bytes = &expected.bytes[..expected.len as usize];
    address.kind == expected.kind && address.bytes.as_slice() == bytes
}

fn sender_meets(demand: &KrbDemand, sender: &HostAddress) -> bool
    requires { IsDemand demand.now }
    ensures { result ≡ sender_meets demand.now sender.now }
{
    demand.how_sender == 0 || is_address(sender, &demand.sender)
}

fn receiver_meets(demand: &KrbDemand, receiver: &Option<HostAddress>) -> bool
    requires { IsDemand demand.now }
    ensures { result ≡ receiver_meets demand.now receiver.now }
{
    match receiver {
        None => demand.how_receiver != 2,
        Some(address) => demand.how_receiver == 0 || is_address(address, &demand.receiver),
    }
}

/// Whether a moment, in microseconds, is off by at most the skew.
fn is_near(demand: &KrbDemand, now: u64, at: u64) -> bool
    ensures { result ≡ is_near demand.now now at }
{
    now.abs_diff(at) <= MICROS_PER_SECOND * u64::from(demand.skew)
}

fn is_within(demand: &KrbDemand, now: u64, body: &Body) -> bool
    requires { InRange body.now }
    ensures { result ≡ is_within demand.now now body.now.time body.now.usec }
{
    match (body.time, body.usec) {
        (Some(secs), Some(usec)) => {
            is_near(demand, now, MICROS_PER_SECOND * secs + u64::from(usec))
        }
        (Some(secs), None) => {
            demand.how_time == 3 && is_near(demand, now, MICROS_PER_SECOND * secs)
        }
        (None, None) => demand.how_time <= 1,
        (None, Some(_)) => false,
    }
}

fn time_meets(demand: &KrbDemand, now: u64, body: &Body) -> bool
    requires { InRange body.now }
    ensures { result ≡ time_meets demand.now now body.now }
{
    demand.how_time == 0 || is_within(demand, now, body)
}

fn number_meets(demand: &KrbDemand, seq: Option<u32>) -> bool
    ensures { result ≡ number_meets demand.now seq }
{
    match seq {
        None => demand.how_number != 2 && (demand.how_number != 3 || demand.number == 0),
        Some(n) => demand.how_number == 0 || u64::from(n) == demand.number,
    }
}

fn tells_time(demand: &KrbDemand, body: &Body) -> bool
    ensures { result ≡ tells_time demand.now body.now.time body.now.usec }
{
    match (body.time, body.usec) {
        (Some(_), Some(_)) => true,
        (Some(_), None) => demand.how_time == 3,
        (None, _) => false,
    }
}

fn needs_meet(demand: &KrbDemand, body: &Body) -> bool
    ensures { result ≡ needs_meet demand.now body.now }
{
    demand.needs_time_or_number == 0 || tells_time(demand, body) || body.seq.is_some()
}

/// The addresses, the time and the number of an authentic body.
fn check_demand(demand: &KrbDemand, now: u64, body: &Body) -> Result<(), Refusal>
    requires demand { IsDemand demand.now }
    requires range { InRange body.now }
    ensures checks { first_unmet (demand_checks demand.now now body.now) ≡ refusal_of result }
    ensures short { OnOk result (AreShort body.now.s_addr body.now.r_addr) }
    ensures short_misordered { result ≡ Err Refusal.BadOrder → AreShort body.now.s_addr body.now.r_addr }
    ensures memory { IfErr result (λ r. ¬ (r ≡ Refusal.Memory)) }
{
    if !all_have_room(&body.s_addr, &body.r_addr) {
        return Err(Refusal::BadAddr);
    }
    if !(sender_meets(demand, &body.s_addr) && receiver_meets(demand, &body.r_addr)) {
        return Err(Refusal::BadAddr);
    }
    if !time_meets(demand, now, body) {
        return Err(Refusal::Skew);
    }
    if !number_meets(demand, body.seq) {
        return Err(Refusal::BadOrder);
    }
    if !needs_meet(demand, body) {
        return Err(Refusal::Modified);
    }
    Ok(())
}

/// Ends a body whose user data the caller doesn't get: they are overwritten before they are freed.
fn refuse(body: Body) {
    let Body { user_data, .. } = body;
    drop(Secret::from(user_data));
}

/// The authentic body of a frame, where it meets the demands. Where it meets all but the number, what
/// it carried is written to `told`.
pub fn open_body(
    alloc: Global,
    opener: &Opener,
    frame: &[u8],
    demand: &KrbDemand,
    now: u64,
    told: &mut KrbCarried,
) -> Result<Body, Refusal>
    requires { IsDemand demand.now }
    ensures answer { OrMemory (OpensWith opener.now demand.now now frame.now) result }
    ensures short { IfOk result (λ b. AreShort b.s_addr b.r_addr) }
    ensures misordered { result ≡ Err Refusal.BadOrder
        → Misorders opener.now demand.now now frame.now told.new }
    ensures untold { ¬ (result ≡ Err Refusal.BadOrder) → told.new ≡ told.old }
    ensures memory { result ≡ Err Refusal.Memory → AsksWithoutDemands opener.now frame.now }
{
    let body = opener.authenticate(alloc, frame)?;
    match check_demand(demand, now, &body) {
        Ok(()) => Ok(body),
        Err(refusal) => {
            tell_misordered(refusal, &body, told);
            refuse(body);
            Err(refusal)
        }
    }
}

/// Tells what a body carries that is refused for its number alone.
fn tell_misordered(refusal: Refusal, body: &Body, told: &mut KrbCarried)
    requires { refusal ≡ Refusal.BadOrder → AreShort body.now.s_addr body.now.r_addr }
    ensures told { refusal ≡ Refusal.BadOrder → told.new ≡ carried_of body.now }
    ensures untold { ¬ (refusal ≡ Refusal.BadOrder) → told.new ≡ told.old }
{
    if matches!(refusal, Refusal::BadOrder) {
        *told = carried(body);
    }
}
