//! Records: what the user data of a relayed message is, and its bytes.
//!
//! A [`Record`] is a text, a batch of texts, or the close. [`record_bytes`] writes records and
//! [`read_record`] reads them; [`record_laws`] says that no bytes are those of two records.
//!
//! A batch is byte 42 (hexadecimal) followed by 2 to 1,000 texts, each as its length in four bytes,
//! most significant first, and its bytes. The format is this project's own. [`batch_bytes`] writes
//! batches, and [`read_batch`] reads them; [`batch_laws`] says that each batch has one spelling and
//! each spelling one batch. [`group_end`] says how many of a sender's texts go together, and
//! [`group_laws`] what the groups of all of them are.
//!
//! ```rust crates/krb_message_tests/src/batch.rt
//! let texts = read_batch(rt.alloc(), b"\x42\0\0\0\x01\x61\0\0\0\x01\x62")?;
//! assert_same(&rt, texts.as_slice().len(), 2);
//! ```
//!
//! Plans of a wire, which may repeat, drop, reorder and change the frames of a sender on purpose: a
//! list of emissions ([`Emit`]). What a plan puts on a wire is krb_peers' to say.
#![tactic(auto)]

mod batch;
mod groups;
mod plan;
mod record;
mod texts;

pub use batch::{BATCH_BYTE, BatchError, batch_bytes, batch_laws, read_batch};
pub use groups::{group_end, group_laws};
pub use plan::Emit;
pub use record::{
    Record, RecordError, RecordKind, group_bytes, into_record, read_record, record_bytes,
    record_laws,
};
pub use texts::Texts;
