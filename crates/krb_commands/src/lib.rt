//! The commands of the program `krbrelay` but for `relay`, each over a reader and a writer.
//!
//! [`show`] prints messages, whose lines it reads by a [`Form`], and what the key that [`read_key`]
//! reads gives of them; [`vectors`] published values of the ciphers. [`seal_job`] and [`open_job`]
//! print what a job's sender seals and its receiver opens; [`sealer_of`], [`sending_of`] and
//! [`receiving_of`] make the two ends of a lane from the job, and [`print_log`] and [`print_ends`]
//! print the lines of a log. Each command answers the exit status, or the [`Fault`] that ended it.
//!
//! ```text
//! let input = read_all(alloc, &mut reader)?;
//! let job = read_job(alloc, input.as_slice(), Command::Open)?;
//! let receiving = receiving_of(alloc, &job.senders[0])?;
//! let status = open_job(alloc, receiving, job.senders[0].frames.as_slice(), &mut writer)?;
//! ```
#![tactic(auto)]

mod digits;
mod ends;
mod fault;
mod form;
mod input;
mod inside;
mod job_lines;
mod jobs;
mod key_file;
mod line;
mod lines;
mod messages;
mod openers;
mod opening;
mod output;
mod plain;
mod published;
mod reading;
mod sealing;
mod text;

pub use ends::{
    job_lanes_are_paired, key_of, push_lane, receiving_of, sealer_of, sending_of, session_of,
};
pub use fault::{Fault, KeyFault};
pub use form::Form;
pub use input::{LIMIT, limit_law, read_all};
pub use job_lines::{print_ends, print_log};
pub use jobs::{open, open_plain, parsed_job, seal};
pub use key_file::read_key;
pub use messages::{one_reading, show};
pub use openers::Openers;
pub use opening::open_job;
pub use published::vectors;
pub use sealing::seal_job;
