//! The tests of the libraries from [`krb_base`] and [`krb_record`] to [`krb_seal`], [`krb_bulk`] and [`krb_peers`], over
//! what these have public: vectors of the standards, messages worked out by hand, frames of an independent
//! sealer, the order of records, and which allocation may fail. What a reader, an opener or a receiver refuses is
//! in `tests/jobs`. They stand in a crate of their own, which has no public item, so that each library is
//! proved once.
#![tactic(auto)]

#[cfg(test)]
mod asserts;
#[cfg(test)]
mod base;
#[cfg(test)]
mod batch;
#[cfg(test)]
mod bulk;
#[cfg(test)]
mod cipher;
#[cfg(test)]
mod codec;
#[cfg(test)]
mod eight;
#[cfg(test)]
mod keys;
#[cfg(test)]
mod order;
#[cfg(test)]
mod peers_asserts;
#[cfg(test)]
mod record;
#[cfg(test)]
mod sealing;
#[cfg(test)]
mod stolen;
#[cfg(test)]
mod time;
#[cfg(test)]
mod tlv;
