//! What is true of a stepped relay after any turns.

ghost use Rattle.krb_core.specs.Laws.{TurnsKeepHeadline, TurnsKeepLanes, EntriesFollowTurns, EndsAreNoted, SentsStay};

/// What turns leave of a relay.
///
/// The headline holds of each lane: the log has the verdicts on the frames that its receiver took,
/// and the claims hold of them (`headline`). The lane is what the events of its turns leave of an
/// empty one, and what was sent is a prefix of what its sender emits (`lanes`). The entries are
/// what the verdicts on the frames bring, in the order of the turns that took them (`order`). The
/// log notes that a lane has ended if and only if its End was taken (`ended`). How much each sender
/// sealed stays as it was (`sents`).
pub fn stepped_laws()
    ensures headline { TurnsKeepHeadline }
    ensures lanes { TurnsKeepLanes }
    ensures order { EntriesFollowTurns }
    ensures ended { EndsAreNoted }
    ensures sents { SentsStay }
{}
