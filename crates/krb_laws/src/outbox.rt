//! What the tables of an outbox have of a session.

ghost use Rattle.krb_laws.specs.Laws.{TextsAreActs, SendingsAreActs, TablesAreOutboxes, OneRowForEachNumber};
ghost use Rattle.krb_laws.specs.Laws.{NoRowIsCompared, SendingsHappen, OneForEachNumber, LastIsNotEnough};

/// A transaction on an outbox is an act of krb_carry or does nothing.
///
/// An application's inserts a text, unless the session was closed (`texts`). A sender's inserts
/// frames, deletes the texts of which they were sealed, moves the next numbers, and deletes frames that
/// are carried (`sendings`). So whatever transactions come, the tables hold what some acts leave
/// (`outboxes`), and at most one frame ever has a row under a number (`one`). Where a session has no
/// row yet, its next number is the first one: a transaction that goes on from another number does nothing
/// (`no_row`). One that goes on from the first can take effect (`happen`).
///
/// Where the outbox becomes an earlier state of itself, a sender that begins has to have seen all that
/// left, and begins above the highest number of it. Then no number leaves for two records, however
/// often that happens (`restored`). The last frame that the carrier has doesn't tell (`last`): frames
/// come again.
pub fn outbox_tables_laws()
    ensures texts { TextsAreActs }
    ensures sendings { SendingsAreActs }
    ensures outboxes { TablesAreOutboxes }
    ensures one { OneRowForEachNumber }
    ensures no_row { NoRowIsCompared }
    ensures happen { SendingsHappen }
    ensures restored { OneForEachNumber }
    ensures last { LastIsNotEnough }
{}
