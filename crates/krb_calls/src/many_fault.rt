//! Why none of several messages was sealed.

use krb_structs::Fault;

/// Why none of several messages was sealed.
#[derive(Clone, Copy)]
pub enum ManyFault {
    /// A message isn't sealed: the first for which a call of its own would answer a fault.
    Message {
        /// Its index.
        index: usize,
        /// The fault that this call would answer.
        fault: Fault,
    },
    /// All could be sealed, but for this.
    All(Fault),
}

impl From<Fault> for ManyFault {
    ghost use Rattle.std.specs.Prelude.{◌≡◌};
    ghost use Rattle.krb_calls.specs.declared.many_fault.ManyFault.TheVariants.{All};

    ghost from_gives = { λ fault many. many ≡ All fault };

    fn from(fault: Fault) -> ManyFault {
        ManyFault::All(fault)
    }
}
