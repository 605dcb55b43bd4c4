//! The relay on threads: one to eight senders, each with a worker and a lane of its own, and one
//! receiving thread.
//!
//! [`relay`] starts a worker for each sender, which seals its texts and sends the frames, and
//! receives in rounds on the calling thread: in each round one item of each lane whose end wasn't
//! taken, by the lane's number. The codes of a round's frames are computed together where they are many, and
//! long frames are opened in threads that it waits for. The log is the same in every schedule: that of the stepped relay of
//! `krb_core` when it runs to its end. A [`Gate`] is called before and after each seal call.
//!
//! ```rust crates/example_relay/src/main.rt
//! let sendings = vec![in alloc; first, second]?;
//! let receivings = vec![in alloc; receiving(alloc, 1, at)?, receiving(alloc, 2, at)?]?;
//! Ok(relay(rt, alloc, sendings, receivings, 8, &NoGate)?)
//! ```
//!
//! [`relay`] waits for its workers. Its contract holds if it returns.
#![tactic(auto)]

mod cause;
mod codes;
mod fault;
mod laws;
mod levels;
mod logging;
mod opening;
mod rounds;
mod running;
mod serving;
mod side_by_side;
mod taking;
mod together;
mod waiting;
mod work;
mod worker;

pub use cause::Cause;
pub use fault::Fault;
pub use krb_peers::{Boxed, Gate, NoGate};
pub use laws::stop_laws;
pub use running::{Report, relay};
