//! Why a frame is refused.

ghost use Rattle.std.specs.Prelude.{◌≡◌, Some};
ghost use Rattle.krb_seal.specs.Refusal.{code_of, name_of};

use std::alloc::AllocError;
use std::error::Error;
use std::fmt;

/// Why a frame is refused: the first check that it fails. Codes up to 127 are those of RFC 4120
/// section 7.5.9; those from 901 on are this project's own.
#[derive(Clone, Copy, Debug, PartialEq, Eq)]
pub enum Refusal {
    /// 61: the frame is longer than a message may be.
    FieldTooLong,
    /// 901: the bytes aren't the encoding of a message.
    Malformed,
    /// 39: the protocol version isn't 5.
    BadVersion,
    /// 40: the message is of another kind than the session's.
    MsgType,
    /// 14: the encryption type isn't the session's.
    EtypeNoSupp,
    /// 31: the encrypted part is too short, or its authentication code differs.
    BadIntegrity,
    /// 50: the checksum's type isn't that of the session's encryption type.
    InappCksum,
    /// 38: an address isn't the expected one, or is missing.
    BadAddr,
    /// 37: the time is off by more than the skew, or is missing.
    Skew,
    /// 42: the sequence number isn't the demanded one.
    BadOrder,
    /// 41: the checksum differs.
    Modified,
    /// 902: the user data isn't a record.
    BadRecord,
    /// 903: a close was accepted before.
    AfterClose,
    /// 904: out of memory.
    Memory,
}

impl Refusal {
    /// The number of this refusal.
    pub fn code(&self) -> u32
        ensures { result ≡ code_of self.now }
    {
        match self {
            Refusal::FieldTooLong => 61,
            Refusal::Malformed => 901,
            Refusal::BadVersion => 39,
            Refusal::MsgType => 40,
            Refusal::EtypeNoSupp => 14,
            Refusal::BadIntegrity => 31,
            Refusal::InappCksum => 50,
            Refusal::BadAddr => 38,
            Refusal::Skew => 37,
            Refusal::BadOrder => 42,
            Refusal::Modified => 41,
            Refusal::BadRecord => 902,
            Refusal::AfterClose => 903,
            Refusal::Memory => 904,
        }
    }

    /// The name of this refusal: that of RFC 4120 section 7.5.9 without its prefix.
    pub fn name(&self) -> &'static str
        ensures { result.now ≡ name_of self.now }
    {
        match self {
            Refusal::FieldTooLong => "FIELD_TOOLONG",
            Refusal::Malformed => "MALFORMED",
            Refusal::BadVersion => "BADVERSION",
            Refusal::MsgType => "MSG_TYPE",
            Refusal::EtypeNoSupp => "ETYPE_NOSUPP",
            Refusal::BadIntegrity => "BAD_INTEGRITY",
            Refusal::InappCksum => "INAPP_CKSUM",
            Refusal::BadAddr => "BADADDR",
            Refusal::Skew => "SKEW",
            Refusal::BadOrder => "BADORDER",
            Refusal::Modified => "MODIFIED",
            Refusal::BadRecord => "BAD_RECORD",
            Refusal::AfterClose => "AFTER_CLOSE",
            Refusal::Memory => "MEMORY",
        }
    }
}

impl fmt::Display for Refusal {
    ghost output = { λ refusal. Some (name_of refusal) };

    fn fmt<W: fmt::Write>(&self, f: &mut fmt::Formatter<W>) -> fmt::Result {
        f.write_str(self.name())
    }
}

impl Error for Refusal {}

impl From<AllocError> for Refusal {
    ghost use Rattle.krb_seal.specs.declared.refusal.Refusal.TheVariants.{Memory};

    ghost from_gives = { λ _ refusal. refusal ≡ Memory };

    fn from(_error: AllocError) -> Refusal {
        Refusal::Memory
    }
}
