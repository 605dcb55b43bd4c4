//! What an export answers.

ghost use Rattle.std.specs.Prelude.{◌≡◌, Ok};
ghost use Rattle.krb_structs.specs.Fault.{answer_of, fault_code};

use krb_seal::{Refusal, SealError};
use std::alloc::AllocError;

/// Why an export does nothing.
#[derive(Clone, Copy)]
pub enum Fault {
    /// 1: the keys of the handle were overwritten.
    Wiped,
    /// 2: the user data has more bytes than a message may carry.
    TooLong,
    /// 3: no sequence number is left.
    Exhausted,
    /// A refusal of the frame, or out of memory.
    Refused(Refusal),
    /// 905: the encryption type is neither 17 nor 18.
    Etype,
    /// 906: the buffer is too small.
    Room,
    /// 907: the handle holds nothing.
    Empty,
    /// 908: the key hasn't the size of its encryption type.
    KeySize,
    /// 909: the mode is neither KRB-SAFE nor KRB-PRIV.
    Mode,
    /// 910: the time is outside the years 1970 to 9999.
    Moment,
    /// 911: an address has more bytes than there is room for.
    Address,
    /// 912: an argument is out of its range.
    Argument,
    /// 913: the texts don't fit in a record.
    Record,
    /// 917: the number was taken before.
    Repeated,
    /// 918: the number is too far below the highest that was taken.
    TooOld,
}

impl Fault {
    /// The number of this fault, which isn't 0.
    pub fn code(&self) -> u32
        ensures value { result ≡ fault_code self.now }
        ensures not_zero { ¬ (result ≡ 0) }
    {
        match self {
            Fault::Wiped => 1,
            Fault::TooLong => 2,
            Fault::Exhausted => 3,
            Fault::Refused(refusal) => refusal.code(),
            Fault::Etype => 905,
            Fault::Room => 906,
            Fault::Empty => 907,
            Fault::KeySize => 908,
            Fault::Mode => 909,
            Fault::Moment => 910,
            Fault::Address => 911,
            Fault::Argument => 912,
            Fault::Record => 913,
            Fault::Repeated => 917,
            Fault::TooOld => 918,
        }
    }
}

/// Tells a size and answers 0, or answers the number of the fault and tells nothing.
pub fn answer(size: &mut usize, made: Result<usize, Fault>) -> u32
    ensures answer { result ≡ answer_of made }
    ensures told { result ≡ 0 → made ≡ Ok size.new }
    ensures untold { ¬ (result ≡ 0) → size.new ≡ size.old }
{
    match made {
        Ok(made) => {
            *size = made;
            0
        }
        Err(fault) => fault.code(),
    }
}

impl From<AllocError> for Fault {
    ghost use Rattle.krb_seal.specs.declared.refusal.Refusal.TheVariants.{Memory};
    ghost use Rattle.krb_structs.specs.declared.fault.Fault.TheVariants.{Refused};

    ghost from_gives = { λ _ fault. fault ≡ Refused Memory };

    fn from(_error: AllocError) -> Fault {
        Fault::Refused(Refusal::Memory)
    }
}

impl From<SealError> for Fault {
    ghost use Rattle.krb_structs.specs.Fault.{fault_of};

    ghost from_gives = { λ error fault. fault ≡ fault_of error };

    fn from(error: SealError) -> Fault {
        match error {
            SealError::Wiped => Fault::Wiped,
            SealError::TooLong => Fault::TooLong,
            SealError::Exhausted => Fault::Exhausted,
            SealError::Memory => Fault::Refused(Refusal::Memory),
        }
    }
}

impl From<Refusal> for Fault {
    ghost use Rattle.krb_structs.specs.declared.fault.Fault.TheVariants.{Refused};

    ghost from_gives = { λ refusal fault. fault ≡ Refused refusal };

    fn from(refusal: Refusal) -> Fault {
        Fault::Refused(refusal)
    }
}
