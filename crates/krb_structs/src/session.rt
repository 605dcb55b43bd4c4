//! Sessions as C writes them.

ghost use Rattle.std.specs.Prelude.{◌≡◌, ◌≤◌, ◌↔◌, length, IfOk, IsTrue};
ghost use Rattle.krb_etype.specs.Etype.{number_of};
ghost use Rattle.krb_seal.specs.Session.{HasShortAddresses, IsShortAddress};
ghost use Rattle.krb_structs.specs.Fault.{IsDone, answer_of};
ghost use Rattle.krb_structs.specs.Session.{AreZeros, HaveRoom, IsExpect, IsNoAddress, IsSession, address_of, address_room, expect_of, mode_of, session_of};
ghost use Rattle.krb_structs.specs.Reasons.{ModeAnswer, NeedsKey, SessionAnswer};

use crate::fault::Fault;
use krb_der::HostAddress;
use krb_seal::{Etype, Expect, Mode, Session, SessionKey};
use std::alloc::{AllocError, Global};

/// How many bytes of an address there is room for.
pub const ADDRESS_ROOM: usize = 40;

/// An address: its kind, and the first `len` of the bytes.
#[repr(C)]
#[derive(Clone, Copy)]
pub struct KrbAddress {
    /// The type of the address, 2 for IPv4 (RFC 4120 section 7.5.3).
    pub kind: i32,
    /// How many bytes it has: 40 at most.
    pub len: u32,
    /// Its bytes, in network order.
    pub bytes: [u8; ADDRESS_ROOM],
}

/// What a sealer writes into each message.
#[repr(C)]
#[derive(Clone, Copy)]
pub struct KrbSession {
    /// 20 for KRB-SAFE, 21 for KRB-PRIV.
    pub mode: u32,
    /// The first sequence number.
    pub first: u32,
    /// The sender's address.
    pub sender: KrbAddress,
    /// Whether the messages tell the receiver's address: 0 if they don't.
    pub has_receiver: u32,
    /// The receiver's address, where they do; else zeros.
    pub receiver: KrbAddress,
    /// Zeros.
    pub reserved: [u32; 5],
}

/// What an opener demands of each message.
#[repr(C)]
#[derive(Clone, Copy)]
pub struct KrbExpect {
    /// 20 for KRB-SAFE, 21 for KRB-PRIV.
    pub mode: u32,
    /// The sender's address.
    pub sender: KrbAddress,
    /// The receiver's address.
    pub receiver: KrbAddress,
    /// Whether a message must tell the receiver's address: 0 if it need not.
    pub require_receiver: u32,
    /// Whether a message must tell its time: 0 if it need not.
    pub require_time: u32,
    /// How many seconds a message's time may be off.
    pub skew: u32,
    /// Zeros.
    pub reserved: [u32; 4],
}

/// Whether each number is 0.
pub fn are_zeros(numbers: &[u32]) -> bool
    ensures { IsTrue result ↔ AreZeros numbers.now }
{
    numbers.iter().all(|number| *number == 0)
}

/// Whether all of an address is zeros.
pub fn is_no_address(address: &KrbAddress) -> bool
    ensures { IsTrue result ↔ IsNoAddress address.now }
{
    address.kind == 0 && address.len == 0 && address.bytes.iter().all(|byte| *byte == 0)
}

/// Whether what isn't read of a session is zeros.
fn is_session(session: &KrbSession) -> bool
    ensures { IsTrue result ↔ IsSession session.now }
{
    are_zeros(&session.reserved) && (session.has_receiver != 0 || is_no_address(&session.receiver))
}

/// Whether both addresses have room.
fn have_room(sender: &KrbAddress, receiver: &KrbAddress) -> bool
    ensures { IsTrue result ↔ HaveRoom sender.now.len receiver.now.len }
{
    sender.len as usize <= ADDRESS_ROOM && receiver.len as usize <= ADDRESS_ROOM
}

/// The address, whose bytes are copied.
fn host_address(alloc: Global, address: &KrbAddress) -> Result<HostAddress, AllocError>
    requires { address.now.len ≤ address_room }
    ensures value { IfOk result (λ a. a ≡ address_of address.now) }
    ensures short { IfOk result IsShortAddress }
{
    HostAddress::new(alloc, address.kind, &address.bytes[..address.len as usize])
}

/// The mode with this number.
pub fn mode(number: u32) -> Result<Mode, Fault>
    ensures value { IfOk result (λ m. m ≡ mode_of number) }
    ensures answer { ModeAnswer number (answer_of result) }
{
    match number {
        20 => Ok(Mode::Safe),
        21 => Ok(Mode::Priv),
        _ => Err(Fault::Mode),
    }
}

/// The session that C wrote. All is checked before anything is allocated.
pub fn session(alloc: Global, session: &KrbSession) -> Result<Session, Fault>
    ensures value { IfOk result (λ s. s ≡ session_of session.now) }
    ensures short { IfOk result HasShortAddresses }
    ensures answer { SessionAnswer (IsSession session.now) session.now.mode
        session.now.sender.len session.now.receiver.len (answer_of result) }
{
    if !is_session(session) {
        return Err(Fault::Argument);
    }
    let mode = mode(session.mode)?;
    if !have_room(&session.sender, &session.receiver) {
        return Err(Fault::Address);
    }
    let s_addr = host_address(alloc, &session.sender)?;
    let r_addr = if session.has_receiver == 0 {
        None
    } else {
        Some(host_address(alloc, &session.receiver)?)
    };
    Ok(Session {
        mode,
        s_addr,
        r_addr,
        first: session.first,
    })
}

/// The demands that C wrote. All is checked before anything is allocated.
pub fn expectation(alloc: Global, expect: &KrbExpect) -> Result<Expect, Fault>
    ensures value { IfOk result (λ x. x ≡ expect_of expect.now) }
    ensures answer { SessionAnswer (IsExpect expect.now) expect.now.mode
        expect.now.sender.len expect.now.receiver.len (answer_of result) }
{
    if !are_zeros(&expect.reserved) {
        return Err(Fault::Argument);
    }
    let mode = mode(expect.mode)?;
    if !have_room(&expect.sender, &expect.receiver) {
        return Err(Fault::Address);
    }
    Ok(Expect {
        mode,
        s_addr: host_address(alloc, &expect.sender)?,
        r_addr: host_address(alloc, &expect.receiver)?,
        require_r: expect.require_receiver != 0,
        expect_time: expect.require_time != 0,
        skew: expect.skew,
    })
}

/// A copy of the session key of the encryption type with this number.
pub fn session_key(etype: i32, key: &[u8]) -> Result<SessionKey, Fault>
    ensures etype { IfOk result (λ k. number_of k.etype ≡ etype) }
    ensures bytes { IfOk result (λ k. k.bytes ≡ key.now) }
    ensures answer { NeedsKey etype (length key.now) IsDone (answer_of result) }
{
    let Some(etype) = Etype::from_number(etype) else {
        return Err(Fault::Etype);
    };
    match SessionKey::copy_of(etype, key) {
        Some(key) => Ok(key),
        None => Err(Fault::KeySize),
    }
}
