//! Sessions and expectations.

ghost use Rattle.std.specs.Prelude.{◌≡◌, ◌↔◌, ◌≤◌, IsTrue, None};
ghost use Rattle.krb_structs.specs.Session.{IsMode, address_room};
ghost use Rattle.krb_calls.specs.Session.{ExpectField, IsWholeExpect, IsWholeSession, SessionField, TellsReceiver};

use crate::field::Field;
use krb_structs::{ADDRESS_ROOM, KrbAddress, KrbExpect, KrbSession, are_zeros, is_no_address};

/// Whether an address has room.
pub fn has_room(address: &KrbAddress) -> bool
    ensures { IsTrue result ↔ (address.now.len ≤ address_room) }
{
    address.len as usize <= ADDRESS_ROOM
}

fn is_mode(mode: u32) -> bool
    ensures { IsTrue result ↔ IsMode mode }
{
    mode == 20 || mode == 21
}

/// Whether the receiver's address has room, and is zeros if the messages don't tell it.
fn tells_receiver(session: &KrbSession) -> bool
    ensures { IsTrue result ↔ TellsReceiver session.now }
{
    has_room(&session.receiver) && (session.has_receiver != 0 || is_no_address(&session.receiver))
}

/// The first field of a session by which a call refuses it.
pub fn session_field(session: &KrbSession) -> Option<Field>
    ensures field { SessionField session.now result }
    ensures none { (result ≡ None) ↔ IsWholeSession session.now }
{
    if !is_mode(session.mode) {
        return Some(Field::Mode);
    }
    if !has_room(&session.sender) {
        return Some(Field::Sender);
    }
    if !tells_receiver(session) {
        return Some(Field::Receiver);
    }
    if !are_zeros(&session.reserved) {
        return Some(Field::Reserved);
    }
    None
}

/// The first field of an expectation by which a call refuses it.
pub fn expect_field(expect: &KrbExpect) -> Option<Field>
    ensures field { ExpectField expect.now result }
    ensures none { (result ≡ None) ↔ IsWholeExpect expect.now }
{
    if !is_mode(expect.mode) {
        return Some(Field::Mode);
    }
    if !has_room(&expect.sender) {
        return Some(Field::Sender);
    }
    if !has_room(&expect.receiver) {
        return Some(Field::Receiver);
    }
    if !are_zeros(&expect.reserved) {
        return Some(Field::Reserved);
    }
    None
}
