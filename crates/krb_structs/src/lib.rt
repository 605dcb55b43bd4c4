//! Sealing and opening of KRB-SAFE and KRB-PRIV messages (RFC 4120) over flat structs and buffers of the
//! caller's, as C has them: what `krb_c` exports under C's names, for programs in Rattle.
//!
//! A [`KrbSession`] or a [`KrbExpect`] makes an [`AnySealer`], a [`WipeableOpener`] or a
//! [`LaneReceiver`] on the heap, and a session with a [`KrbDemand`] a [`Peer`]. These write into the caller's buffer. A [`Fault`] says why nothing was
//! done, and has the number that C is answered ([`Fault::code`]). It is that of the first condition that
//! doesn't hold, and leaves sealer, receiver, peer and buffer as they were.
#![tactic(auto)]

mod answers;
mod any_sealer;
mod buffer;
mod carried;
mod demand;
mod fault;
mod header;
mod lane_receiver;
mod laws;
mod moment;
mod opening;
mod peer;
mod peer_export;
mod record;
mod room;
mod session;
mod wipe;
mod wipeable_opener;

pub use answers::{name_into, text_into};
pub use any_sealer::AnySealer;
pub use carried::KrbCarried;
pub use demand::KrbDemand;
pub use fault::{Fault, answer};
pub use header::{KrbHeader, message_header};
pub use lane_receiver::LaneReceiver;
pub use laws::{demand_laws, export_laws};
pub use moment::KrbMoment;
pub use opening::{open_into, unseal_in_place, unseal_into};
pub use peer::Peer;
pub use peer_export::EXPORT_SIZE;
pub use room::frame_size;
pub use session::{ADDRESS_ROOM, KrbAddress, KrbExpect, KrbSession, are_zeros, is_no_address};
pub use wipe::Wipe;
pub use wipeable_opener::WipeableOpener;
