//! The times of Kerberos V5 (RFC 4120 section 5.2.3): timestamps in whole microseconds since
//! 1970-01-01T00:00:00Z, and the fifteen bytes YYYYMMDDHHMMSSZ that name a second.
//!
//! ```rust crates/krb_message_tests/src/time.rt
//! fn is_time_of(secs: u64, text: &[u8; 15]) -> bool {
//!     secs <= LAST_SECOND && kerberos_time(secs) == *text && read_kerberos_time(text) == Some(secs)
//! }
//! ```
#![tactic(auto)]

mod moment;
mod time;

pub use moment::{LAST_USEC, MICROS_PER_SECOND, Moment};
pub use time::{LAST_SECOND, kerberos_time, kerberos_time_names_its_second, read_kerberos_time};
