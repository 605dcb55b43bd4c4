//! The stepped relay: senders and receivers with a lane each, moved one event at a time by one
//! thread, in any order of turns.
//!
//! [`Stepped`] has one to eight lanes and one [`Log`]. [`stepped_laws`] says what turns leave: the
//! headline of each lane, by what the log has of it. Senders, receivers, plans and the log are
//! those of [`krb_peers`], and are re-exported here.
//!
//! ```rust crates/krb_thread_tests/src/stepped/steps.rt
//! relay.run(&[SEND, SEND, TAKE, TAKE, SEND, TAKE, SEND, TAKE])?;
//! assert!(rt; is_whole(relay.log()) && relay.done());
//! let sent = relay.sent(0);
//! assert_same(&rt, (sent.sealed, sent.texts), (1, 1));
//! ```
#![tactic(auto)]

mod begin;
mod relayed;
mod settled;
mod stepped;
mod track;
mod turn;

pub use krb_peers::{
    Boxed, Delivery, Emit, EmitError, Ending, Entry, Event, LAST_NUMBER, Log, Order, OrderRefusal,
    Receiver, Receiving, Record, RecordError, Sending, Sent, StartError, Status, TEXT_LIMIT, Texts,
    USER_DATA_LIMIT, Wire, accepted_laws, attempt_laws, carried_laws, emit, emit_sealed,
    frames_laws, going_on_laws, headline_laws, logged_laws, read_record, record_bytes, record_laws,
    relay_laws, rounds_laws, source_laws, undisturbed_laws, verdict_laws,
};
pub use relayed::stepped_laws;
pub use stepped::Stepped;
pub use turn::{Did, Turn};
