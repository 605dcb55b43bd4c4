//! SHA-1 (FIPS 180-4) of eight messages side by side, which begin with the same block, as the
//! messages do that HMAC hashes under one key (RFC 2104), or each with a block of its own.
#![tactic(auto)]

mod blocks;
mod compression;
mod prefix;

pub use prefix::{MESSAGES, Prefix};
