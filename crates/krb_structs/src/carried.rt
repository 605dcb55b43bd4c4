//! What an authentic message carried beside its user data.

ghost use Rattle.std.specs.Prelude.{◌≡◌};
ghost use Rattle.std.specs.Option.{ForSome};
ghost use Rattle.krb_seal.specs.Session.{IsShortAddress};
ghost use Rattle.krb_structs.specs.Demand.{AreShort};
ghost use Rattle.krb_structs.specs.Carried.{c_address, carried_of, told_address};

use crate::buffer::put_front;
use crate::session::{ADDRESS_ROOM, KrbAddress};
use krb_der::{Body, HostAddress};

/// The time, the number and the addresses of an authentic message. What it doesn't tell is zeros.
#[repr(C)]
#[derive(Clone, Copy)]
pub struct KrbCarried {
    /// The seconds of its time since 1970-01-01T00:00:00Z.
    pub seconds: u64,
    /// The microseconds of its time.
    pub microseconds: u32,
    /// Whether `seconds` is present: 0 if it isn't.
    pub has_seconds: u32,
    /// Whether `microseconds` is present: 0 if it isn't.
    pub has_microseconds: u32,
    /// Whether `number` is present: 0 if it isn't.
    pub has_number: u32,
    /// The sequence number.
    pub number: u32,
    /// Whether `receiver` is present: 0 if it isn't.
    pub has_receiver: u32,
    /// The sender's address.
    pub sender: KrbAddress,
    /// The receiver's address.
    pub receiver: KrbAddress,
    /// Zeros.
    pub reserved: [u32; 6],
}

fn c_address(address: &HostAddress) -> KrbAddress
    requires { IsShortAddress address.now }
    ensures { result ≡ c_address address.now }
{
    let text = address.bytes.as_slice();
    let mut bytes = [0u8; ADDRESS_ROOM];
    put_front(&mut bytes, text);
    KrbAddress {
        kind: address.kind,
        len: text.len() as u32,
        bytes,
    }
}

fn told_address(address: &Option<HostAddress>) -> KrbAddress
    requires { ForSome address.now IsShortAddress }
    ensures { result ≡ told_address address.now }
{
    match address {
        None => KrbAddress {
            kind: 0,
            len: 0,
            bytes: [0; ADDRESS_ROOM],
        },
        Some(address) => c_address(address),
    }
}

/// What a body carries.
pub fn carried(body: &Body) -> KrbCarried
    requires { AreShort body.now.s_addr body.now.r_addr }
    ensures { result ≡ carried_of body.now }
{
    KrbCarried {
        seconds: body.time.unwrap_or(0),
        microseconds: body.usec.unwrap_or(0),
        has_seconds: u32::from(body.time.is_some()),
        has_microseconds: u32::from(body.usec.is_some()),
        has_number: u32::from(body.seq.is_some()),
        number: body.seq.unwrap_or(0),
        has_receiver: u32::from(body.r_addr.is_some()),
        sender: c_address(&body.s_addr),
        receiver: told_address(&body.r_addr),
        reserved: [0; 6],
    }
}
