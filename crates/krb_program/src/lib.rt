//! What the program `krbrelay` does, from the words of its command line to its exit code.
//!
//! [`obey`] runs the command that the words name, over a reader and a writer; [`command_of`] reads
//! what they ask, an [`Asked`], and [`run`] runs a [`Cmd`]. [`relay`] is the command of that name, the others
//! are krb_commands'; [`relay_job`] relays a job's lanes. [`finish`], [`usage`] and [`bad_words`]
//! tell what went otherwise on standard error, and give the exit code.
//!
//! ```text
//! match obey(&rt, rt.alloc(), words.as_slice(), &mut rt.reader(), &mut writer, &NoGate) {
//!     Ok(outcome) => finish(&rt, outcome),
//!     Err(error) => usage(&rt, &error),
//! }
//! ```
#![tactic(auto)]

mod command;
mod ending;
mod help;
mod relay_command;
mod relaying;
mod running;

pub use command::{Asked, Cmd, command_of};
pub use ending::{bad_words, finish, usage};
pub use relay_command::relay;
pub use relaying::relay_job;
pub use running::{obey, run};
