//! Both ends of a carrier as state machines: no call waits, reads a clock or draws.
//!
//! The sender is the only one that repeats, and a receipt is the only word that deletes. [`Sending`] is
//! one session's end at a sender: what happens to it is a call (frames were sealed, a confirmation or a
//! receipt came, the shard has a different list), and [`Sending::serve`] says what is to be done next.
//! What a sender does is bounded and told: names, keys, texts and frames stay with the caller.
//!
//! ```text
//! match sending.serve(room, now) {
//!     Command::Publish { from, count } => ..,  // these frames leave, in order
//!     Command::Probe { .. } => ..,             // this frame alone leaves again: its answer is a receipt
//!     Command::Wake { at } => ..,              // nothing is to be done before then
//!     Command::Idle => ..,                     // nothing, until something happens
//! }
//! ```
//!
//! [`sending_laws`] say what holds of whatever happens, and [`liveness_laws`] that all is delivered in the end.
//!
//! Whose turn it is, and how long to wait: a queue of sessions that have something to do, and pauses
//! that grow.
//!
//! A sender has many sessions, and one loop that serves them. Sessions with something to do stand in a
//! [`Queue`], each once, first in and first out. What nobody answered is tried again after a [`Pause`],
//! which doubles up to a cap.
//!
//! ```text
//! queue.ready(session)?;                     // it has something to do
//! while let Some(session) = queue.serve() {  // the next one; if it has more to do, it is ready again
//!     ..
//! }
//! ```
//!
//! [`queue_laws`] say that the queue is fair, and [`pause_laws`] how rarely what has no answer is tried.
//! Nothing here waits or reads a clock: whoever calls says what time it is.
#![tactic(auto)]

mod laws;
mod parts;
mod pause;
mod queue;
mod receiving;
mod sending;
mod shards;
mod stream;

pub use laws::{liveness_laws, receiving_laws, sending_laws};
pub use parts::SendingParts;
pub use pause::{Pause, pause_laws};
pub use queue::{Queue, queue_laws};
pub use receiving::{Outcome, Receiving, Row, Seen};
pub use sending::{Asks, Command, Ended, Heard, Sending, Stands};
pub use shards::{Flow, Read, Reading, Spot, shard_laws};
pub use stream::{Head, Judged, Opening, judge, stream_laws};
