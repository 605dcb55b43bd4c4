//! Laws of calls of many.

ghost use Rattle.krb_calls.specs.Laws.{NumbersInTurn};

/// What taking several frames in one call means. It does nothing when it runs.
///
/// Those that are accepted have one number after another, from the number on that the receiver demanded, and it demands
/// the next one then (`numbers`).
pub fn takes_laws()
    ensures numbers { NumbersInTurn }
{}
