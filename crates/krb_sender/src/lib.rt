//! A shard of a sender with all its sessions, as one value without I/O.
//!
//! [`Lane`] has each session's end (krb_engine's `Sending`), a queue of those that have something to do, a time at which
//! each is looked at, and the shard's list and room. What happens is a call, and [`Lane::turn`] says which session is
//! served, and what is to be done. The caller has the outbox, keys, frames, the connection and the clock.
//!
//! ```text
//! while let Some(served) = lane.turn(now) {
//!     match served.turn {
//!         Turn::Does(Command::Publish { from, count }) => ..,  // these frames of session `served.place` leave
//!         Turn::Does(Command::Probe { .. }) => ..,             // this frame leaves again
//!         Turn::Does(Command::Wake { .. } | Command::Idle) => {}  // the lane knows when it is looked at again
//!         Turn::Held => ..,                                    // `lane.released(place)`, if its opening may leave now
//!     }
//! }
//! sleep_until(lane.next_time());
//! ```
//!
//! What holds of each lane that there is stands at [`Lane::laws`]: no session is forgotten, none that could publish waits
//! in vain, and the room is the sum.
#![tactic(auto)]

mod lane;
mod session;
mod times;

pub use lane::{Lane, Served};
pub use session::{Heard, Own, Row, Session, Turn};
pub use times::Times;
