//! Moments as C writes them.

ghost use Rattle.std.specs.Prelude.{◌≡◌, IfOk};
ghost use Rattle.krb_structs.specs.Fault.{IsDone, answer_of};
ghost use Rattle.krb_structs.specs.Moment.{micros_of};
ghost use Rattle.krb_structs.specs.Reasons.{NeedsMoment};

use crate::fault::Fault;
use krb_der::Moment;

/// A moment of the years 1970 to 9999.
#[repr(C)]
#[derive(Clone, Copy)]
pub struct KrbMoment {
    /// The seconds since 1970-01-01T00:00:00Z.
    pub seconds: u64,
    /// The microseconds after that second, below a million.
    pub microseconds: u32,
    /// Zero.
    pub reserved: u32,
}

impl KrbMoment {
    /// The moment in Rattle's type.
    pub fn moment(&self) -> Result<Moment, Fault>
        ensures value { IfOk result (λ m. m ≡ micros_of self.now) }
        ensures answer { NeedsMoment self.now IsDone (answer_of result) }
    {
        if self.reserved != 0 {
            return Err(Fault::Argument);
        }
        match Moment::new(self.seconds, self.microseconds) {
            Some(moment) => Ok(moment),
            None => Err(Fault::Moment),
        }
    }
}
