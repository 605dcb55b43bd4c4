//! Calls of many messages over flat structs and buffers of the caller's, as C has them, and which field of a struct is
//! wrong: what `krb_c` exports under C's names.
//!
//! Which field a C program filled in wrongly is for whoever got `KRBRELAY_ARGUMENT`, `KRBRELAY_MODE` or
//! `KRBRELAY_ADDRESS` from a call that takes the struct. Each check names the first field, in the order of the
//! struct, that isn't as it has to be, and none if and only if the struct is one that the calls take.
//!
//! Several messages KRB-SAFE or KRB-PRIV (RFC 4120) are sealed in one call, all or none. A [`ManyFault`] says why
//! nothing was done: of a message it is the fault of the first that isn't sealed, which is the one that its own call
//! would have.
//!
//! Of several frames of one session each is taken as a call of its own takes it after the frames before it
//! ([`LaneReceiver::take_numbered`](krb_structs::LaneReceiver::take_numbered)), with the room of the buffer
//! that is left. [`take_many_into`] computes the integrity codes of eight frames side by side. What is left
//! over is taken one frame at a time.
#![tactic(auto)]

mod checks;
mod codes;
mod demand;
mod field;
mod frame;
mod frames;
mod laws;
mod many;
mod many_fault;
mod one;
mod session;
mod taken;
mod takes_many;
mod unsealed;

pub use demand::{demand_field, peer_demand_field};
pub use field::{Field, field_number};
pub use frame::KrbFrame;
pub use laws::takes_laws;
pub use many::{MOST_MESSAGES, peer_seal_many_into, seal_many_into};
pub use many_fault::ManyFault;
pub use session::{expect_field, session_field};
pub use taken::KrbTaken;
pub use takes_many::{MOST_FRAMES, take_many_into};
pub use unsealed::KrbUnsealed;
