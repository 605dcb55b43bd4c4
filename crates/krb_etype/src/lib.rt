//! The encryption types 17 and 18 (RFC 3962): their session keys, the keys that these give (RFC 3961
//! section 5.3), and what is done under them: the checksum of KRB-SAFE, and the code and the cipher
//! of KRB-PRIV (RFC 4120 sections 5.6.1 and 5.7.1).
//!
//! A [`SessionKey`] knows its encryption type, an [`Etype`]. [`Keys`] holds one with the derived keys
//! that an end of a session needs in its mode, and overwrites them when it ends.
#![tactic(auto)]

mod derived;
mod etype;
mod keys;
mod private_keys;
mod session_key;

pub use derived::folded_constants;
pub use etype::{CODE_SIZE, CONFOUNDER_SIZE, Etype};
pub use keys::{Keys, Purpose};
pub use private_keys::End;
pub use session_key::SessionKey;
