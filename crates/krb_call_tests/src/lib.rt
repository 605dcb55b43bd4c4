//! The tests of [`krb_structs`] over what it has public, against frames of an independent sealer as
//! `tests/frames.py` prints them. Each public function is called on its happy path, and each struct is
//! one that C would write. What else the exports for C answer is tested in `krb_c` and by programs in C
//! (`c/tests`).
//!
//! The tests of [`krb_engine`], [`krb_sender`], [`krb_receiver`], [`krb_laws`] and [`krb_carry`]: each public function of the
//! first three once, each function of krb_laws that gives and takes frames, with those of the independent sealer, and each function
//! whose contract is a law.
#![tactic(auto)]

#[cfg(test)]
mod engine;
#[cfg(test)]
mod laws;
#[cfg(test)]
mod receiver;
#[cfg(test)]
mod sender;
#[cfg(test)]
mod structs;
