//! A shard of a sender with all its sessions, as C writes and reads it.

ghost use Rattle.std.specs.Prelude.{◌≡◌};
ghost use Rattle.krb_carrier_structs.specs.Lane.{lane_heard_number, own_of, served_told, told_row, turn_told};

use crate::command::KrbCommand;
use krb_carry::HISTORY_SIZE;
use krb_engine::Command;
use krb_sender::{Heard, Own, Row, Served, Turn};

/// What an outbox has of a session.
#[repr(C)]
#[derive(Clone, Copy)]
pub struct KrbStored {
    /// The frames below this number are stored.
    pub next: u64,
    /// The frames below this number count as carried.
    pub carried: u64,
    /// The offset of the last frame that counts as carried.
    pub at: u64,
    /// The frames below this number took effect.
    pub done: u64,
    /// The list of the shard for which frames count as carried.
    pub list: u64,
}

impl KrbStored {
    /// The row that it tells.
    pub fn row(&self) -> Row
        ensures { result ≡ told_row self.now }
    {
        Row {
            next: self.next,
            carried: self.carried,
            at: self.at,
            done: self.done,
            list: self.list,
        }
    }
}

/// A session of a shard that was served.
#[repr(C)]
#[derive(Clone, Copy)]
pub struct KrbServed {
    /// What is to be done, or that its opening is held (4).
    pub command: KrbCommand,
    /// Its place in the shard.
    pub place: u32,
    /// 1: it counted for a different list than its shard's, and all that isn't done leaves again; else 0.
    pub is_moved: u32,
}

impl KrbServed {
    /// The struct of a session that was served.
    pub fn of(served: Served) -> KrbServed
        ensures { result ≡ served_told served }
    {
        KrbServed {
            command: command_of(served.turn),
            place: served.place,
            is_moved: u32::from(served.is_moved),
        }
    }
}

/// The struct of a turn.
fn command_of(turn: Turn) -> KrbCommand
    ensures { result ≡ turn_told turn }
{
    match turn {
        Turn::Does(command) => KrbCommand::of(command),
        Turn::Held => KrbCommand {
            kind: 4,
            ..KrbCommand::of(Command::Idle)
        },
    }
}

/// The digest of an outbox's own frames, if this number says whether there is one.
pub fn own_of(number: u32, history: &[u8; HISTORY_SIZE]) -> Option<Own>
    ensures { result ≡ own_of number history.now }
{
    match number {
        1 => Some(Own::Known(*history)),
        2 => Some(Own::Unknown),
        3 => Some(Own::Fault),
        _ => None,
    }
}

/// The number of what a session of a shard finds by a receipt.
pub fn number_of_lane_heard(heard: Heard) -> u32
    ensures { result ≡ lane_heard_number heard }
{
    match heard {
        Heard::Nothing => 0,
        Heard::Delivered => 1,
        Heard::Ended => 2,
        Heard::Again => 3,
    }
}
