//! What both ends of a session agree on.

ghost use Rattle.std.specs.Prelude.{◌≡◌};
ghost use Rattle.krb_seal.specs.Mode.{purpose_of};

use krb_der::HostAddress;
use krb_etype::Purpose;

/// How the texts of a session are protected.
#[derive(Clone, Copy, Debug, PartialEq, Eq)]
pub enum Mode {
    /// By a checksum: the messages are KRB-SAFE (RFC 4120 section 3.4).
    Safe,
    /// By encryption: the messages are KRB-PRIV (RFC 4120 section 3.5).
    Priv,
}

impl Mode {
    /// What the keys of a session are for in this mode.
    pub(crate) fn purpose(self) -> Purpose
        ensures { result ≡ purpose_of self }
    {
        match self {
            Mode::Safe => Purpose::Checksum,
            Mode::Priv => Purpose::Encryption,
        }
    }
}

/// What a sealer writes into each message. An address has at most 40 bytes.
#[derive(Debug, Drop)]
pub struct Session {
    /// The kind of message.
    pub mode: Mode,
    /// The sender's address.
    pub s_addr: HostAddress,
    /// The receiver's address, if the messages carry it.
    pub r_addr: Option<HostAddress>,
    /// The first sequence number.
    pub first: u32,
}

/// What an opener demands of each message. The skew is at most a day in this project's jobs.
#[derive(Debug, Drop)]
pub struct Expect {
    /// The kind of message.
    pub mode: Mode,
    /// The sender's address.
    pub s_addr: HostAddress,
    /// The receiver's address.
    pub r_addr: HostAddress,
    /// Whether a message must carry the receiver's address.
    pub require_r: bool,
    /// Whether a message must carry its time.
    pub expect_time: bool,
    /// How many seconds a message's time may be off.
    pub skew: u32,
}
