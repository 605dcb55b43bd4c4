//! What is claimed of a session from an application's outbox on, over the definitions alone.

ghost use Rattle.krb_carry.specs.Laws.{StoredIsSealed, EachTextIsSealedOnce, OneFrameForEachNumber, BlindSealingsClash};
ghost use Rattle.krb_carry.specs.Laws.{EachTakesEffectAtMostOnce, EachTakesEffectOnce, EachTakesEffectOnceByReceipts, DeliveriesHappen};

/// What leaves an outbox, by compare-and-set.
///
/// An application puts in texts, and the close last. Sender processes are any number, and each makes
/// a sealer of its own. A transaction of one takes some of the oldest texts that wait, stores frames
/// that it sealed of them, each with its number, and moves the next number: all of it or nothing,
/// and only if the stored number is that from which it sealed. A frame leaves only as it is stored.
///
/// Then whatever processes there were, the stored frames are sealed of the records of one session,
/// under one number after another, with the close last (`sealed`), which is what [`store_laws`](crate::store_laws)
/// and [`progress_laws`](crate::progress_laws) speak of. Each text is sealed once and in order
/// (`texts`), and at most one frame ever leaves under a number (`one`). Without compare-and-set two
/// may (`blind`).
pub fn outbox_laws()
    ensures sealed { StoredIsSealed }
    ensures texts { EachTextIsSealedOnce }
    ensures one { OneFrameForEachNumber }
    ensures blind { BlindSealingsClash }
{}

/// The promise of an outbox, a shard and a store together.
///
/// Each text that was put in takes effect at most once, and in the order in which they were put in
/// (`at_most_once`): whatever processes of both ends died, were slow or came twice, and whatever the
/// carrier does. It is assumed that no receiver accepts a forged frame, unless this carries the
/// record of its number.
///
/// Each takes effect exactly once, and the close is accepted if it was put in, once nothing waits in
/// the outbox, all frames count as carried, and the stored offset is past the last one (`once`). For
/// this it is assumed too that confirmations are true, that receivers take all that the shard has
/// from the stored offset on, that they agree with the senders on mode and addresses, and that a
/// frame that is demanded is taken within the skew.
///
/// What a carrier confirmed it may lose: all of it, at any moment and any number of times. A sender
/// that keeps its frames until a receipt says that all below a number took effect begins again with
/// the first frame of which it has no receipt. If one carrier keeps what comes from then on, each text
/// takes effect exactly once (`receipts`), whatever others confirmed and lost before.
///
/// That all this comes to pass, since processes are
/// started again, is assumed and not claimed. That it can, all at once, is proved: of whatever is
/// sealed there is such a delivery, with a receiver that can take it (`happens`).
pub fn delivery_laws()
    ensures at_most_once { EachTakesEffectAtMostOnce }
    ensures once { EachTakesEffectOnce }
    ensures receipts { EachTakesEffectOnceByReceipts }
    ensures happens { DeliveriesHappen }
{}
