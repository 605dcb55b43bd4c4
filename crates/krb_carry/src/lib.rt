//! Sessions over a carrier: what an outbox, a shard and a store promise together.
//!
//! An application puts texts into an outbox. Sender processes seal them, each under a number, and
//! publish the frames into a shard, which a carrier keeps. Receiver processes take the frames from
//! there, and write the effects of their texts into a store. Any process may die, be slow, wake
//! again, or believe wrongly that it is the only one, and a shard may have frames repeated, early,
//! changed or made up.
//!
//! [`delivery_laws`] is the promise: each text takes effect at most once and in order, and exactly
//! once if the shard keeps it and it is read in time. It follows from three rules, each of which has
//! laws of its own: compare-and-set at the store ([`store_laws`]), one frame for each number at the
//! outbox ([`outbox_laws`]), and the rule of carried frames ([`progress_laws`]), which [`Progress`] keeps.
//! A database's transactions and a carrier's log are what the definitions say of them: no code of theirs
//! is proved here.
//!
//! All of these stand on what krb_peers claims of any frames
//! ([`frames_laws`](krb_peers::frames_laws)): a session has one record under each number, whoever
//! seals it, and a receiver takes whatever comes.
//!
//! The history of a session: one digest of the frames that took effect, in their order.
//!
//! Numbers don't tell two senders apart: an outbox that was restored or copied seals other frames under
//! numbers that were used. The digest does. A receiver stores it beside the number that it demands, and
//! says it in its receipts; a sender compares it with that of the frames that it keeps.
//!
//! ```text
//! history = with_frame(&history, frame);   // of a frame that takes effect; zeros where there is none
//! ```
//!
//! [`histories_laws`] says what a digest tells.
//!
//! An outbox that is restored or copied, and what a receipt lets each copy do.
//!
//! krb_carry speaks of one outbox. A file can be restored from an older copy, and a copy of it can be used
//! on another machine: then two senders seal other frames under the same numbers, and only one of them
//! takes effect under each. A receipt says which by a digest of all that took effect (krb_carry).
//! A sender compares it with the digest of its own frames, and takes texts for delivered only where both
//! are the same:
//!
//! ```text
//! let own = own_history(&done.history, frames);   // its frames from done.number to receipt.number
//! match compare_receipt(done.number, next, &own, &receipt) {
//!     Finding::Repeat => {}                       // it says nothing new
//!     Finding::Delivered => done = receipt,       // all below its number took effect
//!     Finding::Older | Finding::Forked => ..      // the session is stopped
//! }
//! ```
//!
//! [`copies_laws`] say what follows.
#![tactic(auto)]

mod copies;
mod history;
mod laws;
mod outbox;
mod progress;
mod receipt;
mod store;

pub use copies::copies_laws;
pub use history::{HISTORY_SIZE, TAG_SIZE, with_frame};
pub use laws::histories_laws;
pub use outbox::{delivery_laws, outbox_laws};
pub use progress::{Progress, progress_laws};
pub use receipt::{Finding, Receipt, compare_receipt, own_history};
pub use store::store_laws;
