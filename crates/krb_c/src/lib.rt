//! Sealing and opening of KRB-SAFE and KRB-PRIV messages (RFC 4120) for programs in C:
//! `krbrelay.h` declares what this library exports, and the page krbrelay(3) has a whole program.
//!
//! A handle is a struct of the caller's, made of zeros, which then holds a sealer, an opener, a
//! receiver or a peer on the heap. Each export says of the handle what the function of `krb_structs` says: its
//! answer is that of the first condition that doesn't hold. The progress of a session's frames
//! ([`krb_carry::Progress`]) and a window ([`krb_window::Window`]) have no handle: they are numbers of
//! the caller's. So is all that both ends of a carrier keep but the queue and whole shards (krb_engine,
//! krb_sender and krb_receiver, over the structs of krb_carrier_structs). Nor has the history of a session
//! ([`krb_carry::with_frame`]) a handle, which is bytes of the caller's.
//!
//! A value on the heap, or nothing, as C holds it: a pointer and a count, of which `krb_c` makes a struct for
//! each kind of value.
#![tactic(auto)]

mod field_calls;
mod handle;
mod held;
mod held_lane;
mod held_queue;
mod held_shard;
mod history_calls;
mod lane_calls;
mod lane_handle;
mod many_calls;
mod message_calls;
mod opener_calls;
mod opener_handle;
mod parts;
mod pause_calls;
mod peer_calls;
mod peer_handle;
mod progress_calls;
mod queue_calls;
mod queue_handle;
mod reading_calls;
mod receiver_calls;
mod receiver_handle;
mod receiving_calls;
mod sealer_calls;
mod sealer_handle;
mod sending_calls;
mod shard_calls;
mod shard_handle;
mod taking_calls;
mod window_calls;

pub use held::Held;
