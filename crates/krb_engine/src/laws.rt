//! What is claimed of a session's ends, over the definitions alone.

ghost use Rattle.krb_engine.specs.Laws.{CarriedStandInTurn, CopiesAreFew, DeletedTookEffect, DeliversByReceipts, DeliversByTheShard, EachListBegins, EachRunIsAHistory, EachServiceIsSmall, HearsAsACopy, LoadsGoOn, NothingStandsStill, ProbesAreRare, RepeatsAreRare, SealsOneAfterAnother};
ghost use Rattle.krb_engine.specs.ReceivingLaws.{AcceptsInTurn, ClosesAreStored, GoesWithTheStore, ReceiptsAreOwed, ReceiptsAreTrue, ReceiptsLeave, RefusesByNumber};
ghost use Rattle.krb_engine.specs.Liveness.{AllIsDone, AsksAreHeeded, GoodRoundsHappen, IdleIsDone, MoreMayBeSealed, RefusalsAreTold, RoundsDeliver, StoppedHoldNoRoom, WakesAreToCome};

use krb_carry::{copies_laws, delivery_laws, progress_laws};

/// What holds of a session's end, whatever happens to it and whenever it is served.
///
/// **Carried frames.** Its progress is what a history of krb_carry leaves (`histories`), since the shard
/// has the present list (`lists`) or since it began again there, with a number of which it has a receipt;
/// also through a load, if what was stored was such a state (`loads`). So each frame that isn't done and
/// counts as carried stands in the shard after the one before (`in_turn`), and what
/// [`delivery_laws`](krb_carry::delivery_laws) say of receipts holds of it (`delivers`). It is assumed that
/// confirmations are true. Nothing else rests on that.
///
/// **Receipts.** Where they are true, all that is put in took effect, each text once, once all is done and
/// nothing waits, whatever carriers did (`receipts`). What a receipt does is what it does to a copy of an
/// outbox in [`copies_laws`](krb_carry::copies_laws) (`hears`). So of what it takes for done its own
/// frames took effect, also where an outbox was restored or copied (`deletes`). It seals one number after
/// another, as the outbox of that copy, so none twice (`seals`).
///
/// **Nothing stands still.** Unless all is done or it is stopped, it has a command, or a time that is still to
/// come, at which one of its pauses is over or it asks again for room, whatever room there is (`stands`). One service is at most so many frames, within the session's window and
/// what the shard has room for (`small`).
///
/// **Patience.** While nothing happens to it, a frame leaves once, and once more for each time that
/// something wasn't confirmed (`few`). That takes at least as many pauses, which double up to a cap
/// (`rare`). And so do probes (`probes`).
pub fn sending_laws()
    ensures histories { EachRunIsAHistory }
    ensures lists { EachListBegins }
    ensures loads { LoadsGoOn }
    ensures in_turn { CarriedStandInTurn }
    ensures delivers { DeliversByTheShard }
    ensures receipts { DeliversByReceipts }
    ensures hears { HearsAsACopy }
    ensures deletes { DeletedTookEffect }
    ensures seals { SealsOneAfterAnother }
    ensures stands { NothingStandsStill }
    ensures small { EachServiceIsSmall }
    ensures few { CopiesAreFew }
    ensures rare { RepeatsAreRare }
    ensures probes { ProbesAreRare }
{
    progress_laws();
    delivery_laws();
    copies_laws();
}

/// It gets on.
///
/// From whatever state that isn't stopped more is done after each good round, unless all is (`rounds`). In a
/// good round, at a time at which its pauses are over, a receipt comes that asks for the demanded frame, the
/// session is served with room, what leaves is taken in order, and the receipt for it comes; one can happen at each such time (`happen`). So all is done
/// after as many of them as it had frames that weren't (`all`). A time to wake is still to come (`wakes`).
/// One that is stopped has nothing under way, whatever comes, so it takes no room of its shard (`stopped`).
///
/// It is idle only if all is done or it is stopped (`idle`). A receiver that asks is heeded: the frame leaves
/// again, alone (`heeds`). Where receivers refuse the first frame that isn't done, the session stands for that, heeded
/// or not (`told`). And more may be sealed, as long as few wait to be carried (`seals`).
pub fn liveness_laws()
    ensures rounds { RoundsDeliver }
    ensures happen { GoodRoundsHappen }
    ensures all { AllIsDone }
    ensures wakes { WakesAreToCome }
    ensures stopped { StoppedHoldNoRoom }
    ensures idle { IdleIsDone }
    ensures heeds { AsksAreHeeded }
    ensures told { RefusalsAreTold }
    ensures seals { MoreMayBeSealed }
{}

/// What holds of a session's end at a receiver, whatever frames come and whichever transactions take effect.
///
/// What it has for stored and for the transaction under way is what the store has and would have (`store`):
/// the number that is demanded, and the digest of all frames that took effect. So each receipt that leaves
/// is true of what is stored then (`receipts`), and none leaves while a transaction is under way; it stays
/// true, by [`copies_laws`](krb_carry::copies_laws). A frame is accepted in its turn alone, and none after
/// the close (`accepts`); the number at which a frame opens says why it isn't accepted (`refuses`).
///
/// Each frame of the session is owed a receipt (`owes`), which leaves once the transaction took effect
/// (`leaves`). A close is stored with its transaction, and nothing is accepted after it (`closes`).
pub fn receiving_laws()
    ensures store { GoesWithTheStore }
    ensures receipts { ReceiptsAreTrue }
    ensures accepts { AcceptsInTurn }
    ensures refuses { RefusesByNumber }
    ensures owes { ReceiptsAreOwed }
    ensures leaves { ReceiptsLeave }
    ensures closes { ClosesAreStored }
{}
