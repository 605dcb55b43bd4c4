//! The calls of a receiver, as a caller's loop in C makes them.

ghost use Rattle.krb_laws.specs.InC.{CallsAreTakesInC};

/// Each call that takes a frame in C is one of the calls of a loop of [`calls_laws`](krb_peers::calls_laws):
/// 0 and the number of a refusal are verdicts, and out of memory, too little room, a moment that is none
/// and an argument that is none aren't, and change nothing.
pub fn calls_in_c_laws()
    ensures { CallsAreTakesInC }
{}
