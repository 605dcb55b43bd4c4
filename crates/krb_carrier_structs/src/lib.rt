//! What both ends of a carrier keep, as flat structs of the caller's: what `krb_c` exports under C's
//! names.
//!
//! Each struct tells a value of krb_carry, krb_engine, krb_receiver or krb_sender, or none. A function that reads one
//! answers the value, or `None` where the numbers tell none; one that makes a struct makes it of the value.
//! An option is a flag beside its value, or a number that no value has. Any flag but 0 says yes.
#![tactic(auto)]

mod command;
mod lane;
mod numbers;
mod pause;
mod progress;
mod receipt;
mod receiving;
mod sending;
mod shard;
mod shards;
mod stream;

pub use command::KrbCommand;
pub use lane::{KrbServed, KrbStored, number_of_lane_heard, own_of};
pub use numbers::{
    asks_of, number_of_heard, number_of_judged, number_of_outcome, number_of_read, number_of_stands,
};
pub use pause::KrbPause;
pub use progress::KrbProgress;
pub use receipt::{KrbReceipt, receipt_told};
pub use receiving::{KrbReceiving, KrbRow, KrbSeen};
pub use sending::KrbSending;
pub use shard::{
    due_told, effects_of, failure_of, number_of_found, number_of_then, number_of_turn, time_of_turn,
};
pub use shards::{KrbFlow, KrbReading, KrbSpot};
pub use stream::{KrbHead, KrbOpening};
