//! n-fold, HMAC-SHA1 and key derivation, as Kerberos uses them (RFC 3961, 3962 and 2104).
//!
//! ```rust crates/krb_message_tests/src/keys.rt
//! let mut mac = MacKey::new(key);
//! let first = mac.hmac_sha1(&[data]);
//! let second = mac.hmac_sha1(&[&[], data, &[]]);
//! let short = mac.hmac96(&[data]);
//! mac.wipe();
//! let wiped = mac.hmac_sha1(&[data]);
//! mac.spend();
//! ```
#![tactic(auto)]

mod batch_mac;
mod derivation;
mod equality;
mod fold;
mod hmac;
mod mac_key;

pub use batch_mac::BatchMac;
pub use derivation::{CHECKSUM_TAIL, ENCRYPTION_TAIL, INTEGRITY_TAIL, derive, derive_folded};
pub use equality::mac_equal;
pub use fold::{lcm_law, nfold};
pub use hmac::{hmac_length_law, hmac_sha1, hmac96};
pub use mac_key::MacKey;
