//! Tests of what no clause says, of [`krb_lane`]: calls that succeed, a sender that waits for room, and a lane
//! whose allocations fail.
//!
//! Of both relays: calls that succeed, gates, which allocation may fail, and one worked relay of each.
//! `stepped` tests the relay of `krb_core`, which one thread steps, and `threads` that of `krb_relay`, which has
//! a worker for each sender. What whole relays print is in `tests/jobs`.
//!
//! Of `krbrelay` from its job files up, what can't be seen from outside of the program: the seal calls of
//! workers (module `gate`), a sealer that refuses a call (`stopped`), and what callers of krb_job see (`job`).
//! What can be driven from outside is in `tests/jobs`, as jobs and their lines, and in `tests/failing_calls`, as a
//! read or a write that fails at each of its calls.
//!
//! The crate has tests alone and no public item, so that the libraries are proved once and not a
//! second time under their tests.
#![tactic(auto)]

#[cfg(test)]
mod asserts;
#[cfg(test)]
mod gate;
#[cfg(test)]
mod job;
#[cfg(test)]
mod lane;
#[cfg(test)]
mod lanes;
#[cfg(test)]
mod program_asserts;
#[cfg(test)]
mod relay_asserts;
#[cfg(test)]
mod runs;
#[cfg(test)]
mod stepped;
#[cfg(test)]
mod stopped;
#[cfg(test)]
mod threads;
#[cfg(test)]
mod watch;
