//! Laws of messages that are sealed in one call.

ghost use Rattle.krb_bulk.specs.Laws.{EachAtItsNumber, TheFirstIsRefused, WhatCanBeSealed};

/// What sealing several messages in one call means. It does nothing when it runs.
///
/// Each message has one frame, at its own number (`numbers`). A message can be sealed if and only if the sealer isn't
/// wiped, the message is short enough, and a number is left (`limits`). Where one is refused, each before it can be sealed
/// (`first`).
pub fn bulk_laws()
    ensures numbers { EachAtItsNumber }
    ensures limits { WhatCanBeSealed }
    ensures first { TheFirstIsRefused }
{}
