//! Demands.

ghost use Rattle.std.specs.Prelude.{◌≡◌, ◌↔◌, IsTrue, None};
ghost use Rattle.krb_structs.specs.Demand.{IsDemand};
ghost use Rattle.krb_structs.specs.Peer.{IsPeerDemand};
ghost use Rattle.krb_calls.specs.Demand.{AreFirstHows, AreLast, DemandField, FirstHow, FitsReceiver, FitsSender, IsHowNumber, LastField, PeerDemandField};

use crate::field::Field;
use crate::session::has_room;
use krb_base::LAST_NUMBER;
use krb_structs::{KrbDemand, are_zeros, is_no_address};

/// The first of the fields that say how addresses and time are demanded, if one is none that there is.
fn first_how(demand: &KrbDemand) -> Option<Field>
    ensures field { FirstHow demand.now result }
    ensures none { (result ≡ None) ↔ AreFirstHows demand.now }
{
    if demand.how_sender > 2 {
        return Some(Field::HowSender);
    }
    if demand.how_receiver > 2 {
        return Some(Field::HowReceiver);
    }
    if demand.how_time > 3 {
        return Some(Field::HowTime);
    }
    None
}

/// Whether the sender's address has room, and is zeros if none is demanded.
fn fits_sender(demand: &KrbDemand) -> bool
    ensures { IsTrue result ↔ FitsSender demand.now }
{
    has_room(&demand.sender) && (demand.how_sender != 0 || is_no_address(&demand.sender))
}

/// Whether the receiver's address has room, and is zeros if none is demanded.
fn fits_receiver(demand: &KrbDemand) -> bool
    ensures { IsTrue result ↔ FitsReceiver demand.now }
{
    has_room(&demand.receiver) && (demand.how_receiver != 0 || is_no_address(&demand.receiver))
}

/// The first of the fields after the number that isn't as it has to be.
fn last_field(demand: &KrbDemand) -> Option<Field>
    ensures field { LastField demand.now result }
    ensures none { (result ≡ None) ↔ AreLast demand.now }
{
    if demand.how_time == 0 && demand.skew != 0 {
        return Some(Field::Skew);
    }
    if !fits_sender(demand) {
        return Some(Field::Sender);
    }
    if !fits_receiver(demand) {
        return Some(Field::Receiver);
    }
    if demand.needs_time_or_number > 1 {
        return Some(Field::NeedsTimeOrNumber);
    }
    if !are_zeros(&demand.reserved) {
        return Some(Field::Reserved);
    }
    None
}

/// The first field of a demand by which an opener refuses it.
pub fn demand_field(demand: &KrbDemand) -> Option<Field>
    ensures field { DemandField demand.now result }
    ensures none { (result ≡ None) ↔ IsDemand demand.now }
{
    if let Some(field) = first_how(demand) {
        return Some(field);
    }
    if demand.how_number > 3 {
        return Some(Field::HowNumber);
    }
    if demand.how_number == 0 && demand.number != 0 {
        return Some(Field::Number);
    }
    last_field(demand)
}

/// Whether the number is demanded as a peer has it.
fn demands_number(demand: &KrbDemand) -> bool
    ensures { IsTrue result ↔ IsHowNumber demand.now }
{
    demand.how_number == 2 || demand.how_number == 3
}

/// The first field of a demand by which a peer refuses it.
pub fn peer_demand_field(demand: &KrbDemand) -> Option<Field>
    ensures field { PeerDemandField demand.now result }
    ensures none { (result ≡ None) ↔ IsPeerDemand demand.now }
{
    if let Some(field) = first_how(demand) {
        return Some(field);
    }
    if !demands_number(demand) {
        return Some(Field::HowNumber);
    }
    if demand.number > LAST_NUMBER + 1 {
        return Some(Field::Number);
    }
    last_field(demand)
}
