//! What somebody holds who has made a receiver accept what nobody sealed: bytes that were never coded, and their code.
//!
//! The headline of krb_peers rests on one premise, `no_forgery`: a frame that passes every check was sealed of one of the
//! session's records, or carries the record of its number. [`forgery_laws`] reduce it to the codes of bytes: whoever makes
//! a frame that breaks it has found bytes of which nobody with the key made the code, and that code. [`shown`] and
//! [`code_in`] take both from the frame:
//!
//! ```text
//! let covered = shown(&opener, alloc, frame)?;    // of a frame that opens
//! covered.bytes()                                 // what the code is of
//! code_in(&covered)                               // the code that the frame has
//! ```
//!
//! That nobody finds such bytes is an assumption on HMAC-SHA1-96, of which docs/FORGERY.md speaks.
#![tactic(auto)]

mod laws;
mod showing;
#[cfg(test)]
mod tests;

pub use laws::forgery_laws;
pub use showing::{code_in, shown};
