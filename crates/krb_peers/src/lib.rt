//! The two ends of a lane: what a sender seals, and a receiver's verdicts on what it takes.
//!
//! The user data of a message is a [`Record`]: a text, a batch of texts or the close. A [`Sending`]
//! seals its texts as records of rising numbers, some together if its `batch` is more than 1, and a
//! plan ([`emit`]) may repeat, drop, reorder or change the frames on purpose. [`emit_sealed`] does
//! both, and [`emit_sealed_within`] calls a [`Gate`] before and after each seal call. A [`Receiver`]
//! demands the numbers one after another ([`Order`]), and accepts nothing after a close. A [`Log`]
//! keeps the outcomes of the frames of each lane.
//!
//! [`frames_laws`] says what is delivered and refused of a session, whatever frames come, in any
//! order, whoever seals and brings them. In a program of its own a session's records are those that it
//! gave its sealer, one for each number, over all its starts. A lane of this crate, with a [`Sending`]
//! and its plan, is one instance ([`source_laws`]). There [`headline_laws`] says what is delivered and refused, whatever
//! the plan; [`carried_laws`] that all is delivered if each frame comes in its turn, whatever else
//! comes, and [`going_on_laws`] what receivers that continue one after the other deliver together.
//! [`relay_laws`] says it of the log of any relay, stepped or on threads, that has the verdicts of all
//! lanes in rounds.
//!
//! ```rust crates/example_relay/src/main.rt
//! Ok(Sending {
//!     sealer,
//!     texts: vec![in alloc; Bytes::new(Vec::from_slice(alloc, text)?)]?,
//!     batch: 1,
//!     ats: vec![in alloc; at]?,
//!     draws: ChaCha20Rng::from_seed(seed),
//!     plan,
//! })
//! ```
#![tactic(auto)]

mod boxed;
mod calls;
mod confounder;
mod delivery;
mod emission;
mod frames;
mod gate;
mod laws;
mod log;
mod order;
mod plan;
mod planned;
mod receiver;
mod receivers;
mod relay;
mod sending;
mod start;
mod wire;

pub use boxed::Boxed;
pub use calls::calls_laws;
pub use delivery::Delivery;
pub use emission::emit;
pub use frames::{attempt_laws, frames_laws};
pub use gate::{Gate, NoGate};
pub use krb_base::{BATCH_LIMIT, LAST_NUMBER, TEXT_LIMIT, USER_DATA_LIMIT};
pub use krb_record::{
    Emit, Record, RecordError, RecordKind, Texts, read_record, record_bytes, record_laws,
};
pub use laws::{accepted_laws, logged_laws, rounds_laws, verdict_laws};
pub use log::{Entry, Event, Log, Status};
pub use order::{Order, OrderRefusal};
pub use plan::EmitError;
pub use planned::{carried_laws, going_on_laws, headline_laws, source_laws, undisturbed_laws};
pub use receiver::{Opened, Receiver, Receiving};
pub use receivers::{Receivers, wipe_receivers};
pub use relay::relay_laws;
pub use sending::{Ending, Sending, Sent};
pub use start::{StartError, emit_sealed, emit_sealed_within};
pub use wire::Wire;
