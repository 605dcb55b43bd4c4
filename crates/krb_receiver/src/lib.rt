//! A shard of a receiver with all its sessions, as one value without I/O.
//!
//! [`Shard`] has each session's end (krb_engine's `Receiving`), the place up to which the shard's list was taken, the
//! transaction that is under way, what is tried again and when, and a time at which each owed receipt leaves. What happens
//! is a call, and [`Shard::turn`] says what is to be done. The caller has the store, keys, frames, the effects of texts, the
//! connection and the clock.
//!
//! ```text
//! while let Some(due) = shard.receipt(now) { .. }    // this receipt leaves
//! match shard.turn(now) {
//!     Turn::Load => ..,         // what the store has of the shard: `loaded`, and then `listed`
//!     Turn::Wait { at } => ..,  // nothing is to be done before then, but receipts
//!     Turn::Read => ..,         // a transaction of the frames that follow: `begin`; for each frame `take` or `pass`, until
//!                               // `is_full`; then `stored`. Where something fails, `failed` says what happens to it
//! }
//! ```
//!
//! What holds of each shard that there is stands at [`Shard::laws`], and of all transactions at [`transaction_laws`].
#![tactic(auto)]

mod shard;

pub use shard::{Attempt, Due, Effects, Failure, Found, Shard, Then, Turn, transaction_laws};
