//! What the tables of a store have of a session.

ghost use Rattle.krb_laws.specs.Laws.{BatchesCommit, BatchesLeaveAlone, BatchesCommitReadings};
ghost use Rattle.krb_laws.specs.Laws.{BatchesHappen, BlindBatchesDoNot, RowLocksAreEnough};
ghost use Rattle.krb_laws.specs.Laws.{TablesAreHistories, TablesAreReadings, RowsAtMostOnce, RowsOnce};

use krb_carry::delivery_laws;

/// A receiver's transaction commits its attempts or does nothing.
///
/// It moves a shard's row from where its receiver read it, inserts rows of effects, and moves the rows
/// of any number of sessions from what was read of each. Whatever stands in the tables, and however it
/// ends, what they have of a session that it moves is what krb_carry's `Commits` says (`commit`), with
/// the shard's offset what `CommitsReading` says (`reading`), and what they have of another stays
/// (`alone`). It can take effect, and leaves what the attempt makes of what was stored (`happen`), which a
/// transaction without a statement doesn't. It is no such thing where its UPDATE has lost its WHERE
/// (`blind`). So whatever whole transactions of any receivers come, in whatever order, what the tables
/// have of a session is what a history of attempts leaves (`histories`), and of a session of one shard,
/// what a history of readings leaves, though a session of which nothing was accepted isn't compared
/// (`readings`).
///
/// Whole transactions are more than read committed gives: there others commit between two statements.
/// Where each statement's WHERE is decided on the latest committed row, and nobody else writes this
/// until the transaction ends, it leaves what it would leave at once, after all of them (`locks`).
pub fn store_tables_laws()
    ensures commit { BatchesCommit }
    ensures alone { BatchesLeaveAlone }
    ensures reading { BatchesCommitReadings }
    ensures happen { BatchesHappen }
    ensures blind { BlindBatchesDoNot }
    ensures histories { TablesAreHistories }
    ensures readings { TablesAreReadings }
    ensures locks { RowLocksAreEnough }
{}

/// So what krb_carry promises of a store it promises of the rows of effects.
///
/// Each text that was put in has one row at most, and the rows of a session are in the order in which
/// they were put in (`at_most_once`). Each has exactly one, once nothing waits in the outbox, all
/// frames count as carried, and the offset in the shard's row is past the last one (`once`).
pub fn rows_laws()
    ensures at_most_once { RowsAtMostOnce }
    ensures once { RowsOnce }
{
    delivery_laws();
}
