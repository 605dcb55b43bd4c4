//! The numbers of what C says of a receiver's shard with all its sessions, and of what that says.

ghost use Rattle.std.specs.Prelude.{◌≡◌, None};
ghost use Rattle.krb_carrier_structs.specs.Receipt.{told_receipt};
ghost use Rattle.krb_carrier_structs.specs.Shard.{found_number, receipt_due, then_number, told_effects, told_failure, turn_number, turn_time};

use crate::receipt::{KrbReceipt, receipt_told};
use krb_receiver::{Due, Effects, Failure, Found, Then, Turn};

/// What effects are, by two flags.
pub fn effects_of(are_outside: u32, put_aside: u32) -> Effects
    ensures { result ≡ told_effects are_outside put_aside }
{
    Effects {
        are_outside: are_outside != 0,
        put_aside: put_aside != 0,
    }
}

/// The failure of this number, if there is one.
pub fn failure_of(number: u32) -> Option<Failure>
    ensures { result ≡ told_failure number }
{
    match number {
        1 => Some(Failure::Refused),
        2 => Some(Failure::Later),
        3 => Some(Failure::Fenced),
        4 => Some(Failure::Fault),
        _ => None,
    }
}

/// The number of what happens to a transaction.
pub fn number_of_then(then: Then) -> u32
    ensures { result ≡ then_number then }
{
    match then {
        Then::Store => 0,
        Then::Again => 1,
        Then::Wait => 2,
    }
}

/// The number of what a store has, beside what is known of it.
pub fn number_of_found(found: Found) -> u32
    ensures { result ≡ found_number found }
{
    match found {
        Found::Same => 0,
        Found::Ahead => 1,
        Found::Behind => 2,
    }
}

/// The number of what is to be done next.
pub fn number_of_turn(turn: Turn) -> u32
    ensures { result ≡ turn_number turn }
{
    match turn {
        Turn::Load => 0,
        Turn::Wait { at: _ } => 1,
        Turn::Read => 2,
    }
}

/// When something is to be done next: 0, if it is now.
pub fn time_of_turn(turn: Turn) -> u64
    ensures { result ≡ turn_time turn }
{
    match turn {
        Turn::Wait { at } => at,
        Turn::Load | Turn::Read => 0,
    }
}

/// The struct of a receipt that leaves, or of none.
pub fn due_told(due: Option<Due>) -> KrbReceipt
    ensures value { told_receipt result ≡ receipt_due due }
    ensures none { due ≡ None → result.asks ≡ 0 }
{
    match due {
        Some(due) => receipt_told(Some((due.receipt, due.asks))),
        None => receipt_told(None),
    }
}
