//! Several messages KRB-SAFE or KRB-PRIV (RFC 4120 sections 3.4 and 3.5) sealed in one call, each exactly
//! the frame that a call of its own gives.
//!
//! [`seal_many`] computes the codes of eight messages side by side, and enciphers four texts side by
//! side. What is left over is sealed one message at a time.
#![tactic(auto)]

mod bulk;
mod four;
mod laws;
mod many;
mod many_error;
mod private;
mod safe;
mod unsealed;

pub use four::{Four, eight_codes};
pub use laws::bulk_laws;
pub use many::{are_many, check_size, frames_of, seal_many};
pub use many_error::ManyError;
pub use unsealed::Unsealed;
