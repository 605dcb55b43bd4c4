//! The parts of a sender, as they are read.

ghost use Rattle.std.specs.Prelude.{◌≡◌, ◌≤◌, length};
ghost use Rattle.krb_base.specs.Limits.{last_number, skew_limit};
ghost use Rattle.krb_seal.specs.Session.{IsShortAddress};
ghost use Rattle.krb_etype.specs.Etype.{key_size};

use krb_base::Secret;
use krb_der::HostAddress;
use krb_seal::{Etype, Mode};

/// How the texts are protected.
#[derive(Drop)]
pub(crate) struct Protection {
    pub(crate) etype: Etype,
    pub(crate) key: Secret,
    pub(crate) mode: Mode,
    pub(crate) first: u64,
    ghost key_fits: { length key ≡ key_size etype },
    ghost first_fits: { first ≤ last_number },
}

/// The addresses of both ends, and what the receiver demands.
#[derive(Drop)]
pub(crate) struct Parties {
    pub(crate) from: HostAddress,
    pub(crate) to: HostAddress,
    pub(crate) write_to: bool,
    pub(crate) require_to: bool,
    pub(crate) expect_time: bool,
    pub(crate) skew: u64,
    ghost from_short: { IsShortAddress from },
    ghost to_short: { IsShortAddress to },
    ghost skew_fits: { skew ≤ skew_limit },
}
