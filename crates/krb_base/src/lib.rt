//! What several crates of the relay use: byte strings on the heap, some of which are
//! overwritten when they end, prefixes of lists, the lane as a
//! state machine, and the limits of texts and messages.
//!
//! ```rust crates/krb_message_tests/src/base.rt
//! let bytes = Bytes::new(vec![in rt.alloc(); 0x68, 0x69]?);
//! assert_same(&rt, bytes.as_slice(), b"hi".as_slice());
//! assert_same(&rt, bytes.into_vec().as_slice(), b"hi".as_slice());
//! ```
#![tactic(auto)]

mod bytes;
mod lane;
mod limits;
mod prefix;
mod secret;

pub use bytes::{Bytes, known_bytes};
pub use lane::lane_laws;
pub use limits::{
    ADDRESS_LIMIT, BATCH_LIMIT, BATCH_SIZE_LIMIT, CAPACITY_LIMIT, ENTRIES_LIMIT, FRAME_LIMIT,
    LANE_LIMIT, LAST_NUMBER, RAW_LIMIT, SKEW_LIMIT, TEXT_LIMIT, TEXTS_LIMIT, USER_DATA_LIMIT,
    limit_laws,
};
pub use prefix::prefix_laws;
pub use secret::Secret;
