//! What follows of the lanes of any relay, over the definitions alone.

ghost use Rattle.krb_peers.specs.Laws.{FrontsHaveHeadline, FrontsAreRelayed, OneWholeLog};

/// What follows, in any schedule, from a prefix of each lane's wire that was taken.
///
/// Let a log have the verdicts on the prefixes, in rounds, and let a lane end only after all that
/// its wire carries. Then the headline holds of each lane (`claims`), and so the log is a relayed
/// one (`relayed`). The whole log of given lanes is one list, and so is the report of how much
/// their senders sealed: they don't depend on the schedule or on a queue's room (`one`).
pub fn relay_laws()
    ensures claims { FrontsHaveHeadline }
    ensures relayed { FrontsAreRelayed }
    ensures one { OneWholeLog }
{}
