//! CBC with ciphertext stealing (RFC 3962, section 5) of four texts side by side.
#![tactic(auto)]

mod chains;
mod pair_cipher;

pub use chains::cts_encrypt_four;
