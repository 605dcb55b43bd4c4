//! Laws of the definitions: what a user may rely on without reading any code.

ghost use Rattle.krb_seal.specs.Laws.{OneOutcome, OneFrame, NowhereElse, AtItsNumber, OneAuthenticity, OpensTheAuthentic, SealedIsAuthentic};

/// Each frame has one outcome at each number and timestamp, and each sealed message has one frame.
pub fn one_outcome()
    ensures outcome { OneOutcome }
    ensures frame { OneFrame }
{}

/// A frame opens at its own number alone.
///
/// Opened at any other number by an opener with the sealer's key and encryption type, whatever
/// else that opener expects, a sealed frame is refused; at its own number it gives the data that
/// was sealed or is refused (`nothing_else`). It gives the data if both ends agree on mode and
/// addresses and the timestamps are within the skew (`opens`).
pub fn opens_at_its_number_alone()
    ensures nothing_else { NowhereElse }
    ensures opens { AtItsNumber }
{}

/// Opening with demands and without.
///
/// [`Opener::unseal`](crate::Opener::unseal) returns data if and only if
/// [`Opener::authenticate`](crate::Opener::authenticate) returns a body that passes the checks of
/// addresses, time and number, and then the data of that body (`opens`). Each frame has one
/// outcome (`one`), and a sealed frame has the body that was sealed (`sealed`).
pub fn authentic_laws()
    ensures one { OneAuthenticity }
    ensures opens { OpensTheAuthentic }
    ensures sealed { SealedIsAuthentic }
{}
