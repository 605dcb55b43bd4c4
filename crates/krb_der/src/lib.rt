//! The DER spelling of the messages KRB-SAFE and KRB-PRIV of Kerberos V5 (RFC 4120), of the
//! encrypted part of KRB-PRIV, and of their times.
//!
//! Each value has one spelling, and each spelling one value: [`decode`] reads exactly what the
//! grammar spells, and [`encode_safe`], [`encode_priv`] and [`encode_part`] write it. [`decode_borrowed`] reads the
//! same and copies nothing: the byte strings lie in the bytes that were given. So bytes that spell
//! nothing are refused as malformed whether or not there is memory.
//!
//! ```rust crates/krb_message_tests/src/codec.rt
//! fn decode_safe(alloc: Global, bytes: &[u8]) -> Result<SafeMsg, DerError> {
//!     match decode(alloc, bytes)? {
//!         Message::Safe(m) => Ok(m),
//!         Message::Priv(_) => Err(DerError::Malformed),
//!     }
//! }
//! ```
#![tactic(auto)]

mod address;
mod addresses;
mod body;
mod body_reading;
mod error;
mod laws;
mod message;
mod part;
mod private;
mod safe;
mod tag;
mod typed;

pub use address::{AddressRef, HostAddress};
pub use addresses::Addresses;
pub use body::{Body, BodyRef};
pub use error::DerError;
pub use krb_base::Bytes;
pub use krb_time::{
    LAST_SECOND, LAST_USEC, MICROS_PER_SECOND, Moment, kerberos_time,
    kerberos_time_names_its_second, read_kerberos_time,
};
pub use laws::{earlier_spellings, reading_laws, size_laws, unique_spelling};
pub use message::{Message, MessageRef, decode, decode_borrowed};
pub use part::{decode_part, decode_part_from, encode_part};
pub use private::{Draft, PrivMsg, PrivRef, draft_priv, encode_priv, priv_size};
pub use safe::{
    Covering, SafeDraft, SafeMsg, SafeRef, covering_of, draft_safe, encode_safe, safe_input,
};
