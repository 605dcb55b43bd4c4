//! Job files: the input of the commands `seal`, `open` and `relay`, read from the tree of a TOML
//! document.
#![tactic(auto)]

mod address;
mod bad_input;
mod decimal;
mod emission;
mod job;
mod lists;
mod parts;
mod place;
mod read;
mod sender;
mod table;
mod text;
mod tree;
mod values;

pub use bad_input::{BadInput, JobError};
pub use job::{Command, Job, SenderJob};
pub use place::Place;
pub use read::read_job;
