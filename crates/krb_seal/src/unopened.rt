//! Why a frame isn't opened, and its number.

ghost use Rattle.std.specs.Prelude.{◌≡◌, None};

use crate::refusal::Refusal;

/// Why a frame isn't opened, and at which number it would open.
#[derive(Clone, Copy, Debug, PartialEq, Eq)]
pub struct Unopened {
    /// The first check that the frame fails.
    pub refusal: Refusal,
    /// If that is [`Refusal::BadOrder`], the number at which the frame opens, if there is one: the
    /// message carries it, and passes all other checks. There is none after another refusal.
    pub number: Option<u32>,
}

impl Unopened {
    /// Refused so. The number is that of the message, which counts if it is what is refused.
    pub(crate) fn new(refusal: Refusal, number: Option<u32>) -> Unopened
        ensures refusal { result.refusal ≡ refusal }
        ensures order { refusal ≡ Refusal.BadOrder → result.number ≡ number }
        ensures other { ¬ (refusal ≡ Refusal.BadOrder) → result.number ≡ None }
    {
        match refusal {
            Refusal::BadOrder => Unopened { refusal, number },
            _ => Unopened::from(refusal),
        }
    }
}

impl From<Refusal> for Unopened {
    ghost from_gives = { λ refusal unopened. unopened ≡ record { refusal = refusal; number = None } };

    ghost use Rattle.std.specs.Prelude.{◌≡◌, None};

    fn from(refusal: Refusal) -> Unopened {
        Unopened {
            refusal,
            number: None,
        }
    }
}

impl From<Unopened> for Refusal {
    ghost from_gives = { λ unopened refusal. refusal ≡ unopened.refusal };

    ghost use Rattle.std.specs.Prelude.{◌≡◌};

    fn from(unopened: Unopened) -> Refusal {
        unopened.refusal
    }
}
