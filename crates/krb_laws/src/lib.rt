//! What the calls of a receiver and of two peers amount to, whatever frames come.
//!
//! [`peer_laws`] says what two peers open of what they seal, in both directions, and
//! [`reflection_laws`] that a frame that comes back to its maker is refused.
//! [`demand_fields_laws`] says what demands mean on the fields of a message.
//! [`calls_in_c_laws`] says that the calls by which C takes frames are those of which
//! [`calls_laws`](krb_peers::calls_laws) speaks, [`sealed_records_laws`] that the records of a
//! session can be sealed, and [`frame_sizes_laws`] that there are the frames for which there is to be room.
//! The functions [`take_frame`], [`take_each`], [`seal_peer`], [`open_peer`] and [`resume_peer`] call the
//! API, and their contracts say that each call is one of the calls of the laws. [`open_each`] opens frames
//! one after another, and [`open_through_export`] does so with an export in between: their contracts are
//! the headline of user data.
//!
//! A store and an outbox as tables of a database, and the transactions on them.
//!
//! krb_carry speaks of transactions that commit or do nothing. Here they are what the carrier's
//! programs write in SQL: statements that change one row where their WHERE holds, one after the other
//! on a copy, given up where a count isn't what it has to be, and then committed or rolled back, or
//! nobody learns which. [`store_tables_laws`] and [`outbox_tables_laws`] say that each is what
//! krb_carry speaks of, and [`rows_laws`] what follows for the rows of effects.
//!
//! That a database does this is what the definitions say of it, and that the programs write these
//! statements is to be read: no code of theirs is proved here.
#![tactic(auto)]

mod demands;
mod fits;
mod frame_sizes;
mod in_c;
mod opened;
mod outbox;
mod peers;
mod sealed_records;
mod store;

pub use demands::demand_fields_laws;
pub use fits::{open_peer, resume_peer, seal_peer, take_each, take_frame};
pub use frame_sizes::frame_sizes_laws;
pub use in_c::calls_in_c_laws;
pub use opened::{open_each, open_frame, open_through_export};
pub use outbox::outbox_tables_laws;
pub use peers::{peer_laws, reflection_laws};
pub use sealed_records::sealed_records_laws;
pub use store::{rows_laws, store_tables_laws};
