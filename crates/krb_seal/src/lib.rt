//! Sealing and opening of KRB-SAFE and KRB-PRIV messages (RFC 4120 sections 3.4 and 3.5) under
//! encryption types 17 and 18 (RFC 3962).
//!
//! A [`SessionKey`] knows its encryption type, an [`Etype`]; sealers and openers are made from it. A
//! [`Sealer`] seals data at one sequence number after another. An [`Opener`] returns the data of a
//! frame at a demanded number, or the first check that it fails. [`Opener::authenticate`] demands
//! nothing of addresses, time and number, and returns them.
//!
//! ```rust crates/example_seal/src/main.rt
//! let mut sealer = Aes256Sealer::new(&mut { KEY }, session(alloc)?);
//! let frame = sealer.seal(alloc, b"hi", at, CONFOUNDER)?;
//! println!(rt; "sealed: {} bytes", frame.len())?;
//!
//! let opener = Opener::new_256(&mut { KEY }, expect(alloc)?);
//! for number in [7, 8] {
//!     match opener.unseal(alloc, &frame, number, at) {
//!         Ok(data) => println!(rt; "at {number}: {}", String::from_utf8(data)?)?,
//!         Err(refusal) => println!(rt; "at {number}: {} {}", refusal.code(), refusal.name())?,
//!     }
//! }
//! ```
#![tactic(auto)]

mod aes_sealer;
mod boxed;
mod checks;
mod checksum;
mod coded;
mod exists;
mod frame;
mod laws;
mod limit;
mod opener;
mod opening;
mod refusal;
mod seal_error;
mod sealer;
mod session;
mod unopened;

pub use aes_sealer::{Aes128Sealer, Aes256Sealer, AesSealer, SealerParts, SessionSealer};
pub use checksum::{checksum_input, put_checksum_input};
pub use coded::{Coded, Covered};
pub use exists::exists_laws;
pub use frame::{frame_of, unenciphered, unsigned};
pub use krb_etype::{Etype, SessionKey};
pub use laws::{authentic_laws, one_outcome, opens_at_its_number_alone};
pub use limit::within_limit;
pub use opener::Opener;
pub use refusal::Refusal;
pub use seal_error::SealError;
pub use sealer::Sealer;
pub use session::{Expect, Mode, Session};
pub use unopened::Unopened;
