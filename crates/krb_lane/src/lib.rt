//! One bounded lane: frames from one sender to one receiver, in order, each once.
//!
//! [`lane`] makes both ends, which may be in two threads. After both have ended, [`meet`] brings them
//! together: what was got is a prefix of what was sent, and all of it if End was got.
//!
//! ```rust crates/krb_thread_tests/src/lane.rt
//! let (mut tx, mut rx) = lane(&rt, alloc, 2)?;
//! tx.send(&rt, [0x61].to_vec(alloc)?)?;
//! tx.send(&rt, [0x62].to_vec(alloc)?)?;
//! assert_same(&rt, tx.count(), 2);
//! assert!(rt; next_is(&rt, &mut rx, 0, 0x61));
//! assert!(rt; next_is(&rt, &mut rx, 1, 0x62));
//! let Ok(sent) = tx.end(&rt) else {
//!     return Err(Fail::from("end"));
//! };
//! assert!(rt; next_is_end(&rt, &mut rx));
//! assert!(rt; next_is_end(&rt, &mut rx));
//! assert_same(&rt, (sent.count(), rx.count()), (2, 2));
//! let met = meet(sent, rx);
//! assert_same(&rt, (met.sent, met.got), (2, 2));
//! ```
//!
//! Only `send`, `end` and `take` may wait. A call that returns `Err` has changed nothing.
#![tactic(auto)]

mod item;
mod meeting;
mod opening;
mod passes;
mod patience;
mod receiving;
mod rule;
mod sending;
mod sent;

pub use item::Item;
pub use meeting::{Met, meet};
pub use opening::{LaneError, lane};
pub use receiving::{LaneRx, Lost};
pub use rule::every_step;
pub use sending::LaneTx;
pub use sent::SentAll;
