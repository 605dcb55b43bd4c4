//! What a digest tells.

ghost use Rattle.krb_carry.specs.HistoryLaws.{GoesOn, OneHistory, ReceiptsNameTheHistory};

/// As many frames that have one digest have the same tags, or two texts that have one SHA-1 are found
/// (`one`). A digest goes on from that of the frames before (`goes_on`), so each end keeps one digest
/// and no list. A receipt names the first frames that took effect: where a sender's own first frames
/// have its digest, they have the tags of these; where they don't, other frames took effect
/// (`receipts`).
pub fn histories_laws()
    ensures one { OneHistory }
    ensures goes_on { GoesOn }
    ensures receipts { ReceiptsNameTheHistory }
{}
