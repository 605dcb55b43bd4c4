//! What is claimed of a session whose receivers share a store, over the definitions alone.

ghost use Rattle.krb_carry.specs.Laws.{FirstRecordsTakeEffect, TextsTakeEffectInOrder, AllTakeEffectWhereClosed, NothingAfterTheClose, NumberTellsTheRest};
ghost use Rattle.krb_carry.specs.Laws.{BlindTransactionsRepeat, OneReceiverDoes};

/// What takes effect of a session, by compare-and-set.
///
/// Receivers are any number of processes that have the session's key. An attempt of one begins with
/// a demand (the number that is demanded next, and whether the close was accepted), takes any
/// frames, and has verdicts on them. Its transaction writes the texts that the verdicts deliver and
/// moves the demand, both or neither, and only if the stored demand is the one with which the
/// attempt began. It may fail even then. Nothing else is assumed: an attempt may begin with any
/// demand, at any time, and end late or never. What a receiver accepts was sealed of one of the
/// session's records, by anyone and however often, or carries the record of its number.
///
/// Then whatever attempts the store serialized, in whatever order, what took effect are the texts
/// of the session's first records, in order and each once, and what is demanded is what comes after
/// exactly these (`first`). So the effects are a prefix of the texts (`texts`), and all of them if
/// the close was accepted (`whole`), after which nothing changes (`closed`). The number alone tells
/// all that is stored (`number`): to receivers that begin with what was stored, it is enough to
/// compare it. Without compare-and-set this fails: an attempt that delivered all texts, and whose
/// transaction comes twice, delivers each of them twice (`blind`). The premises can be met: a new
/// receiver that takes all in agreement makes an attempt, and though its transaction comes twice, each
/// text takes effect once (`met`).
pub fn store_laws()
    ensures first { FirstRecordsTakeEffect }
    ensures texts { TextsTakeEffectInOrder }
    ensures whole { AllTakeEffectWhereClosed }
    ensures closed { NothingAfterTheClose }
    ensures number { NumberTellsTheRest }
    ensures blind { BlindTransactionsRepeat }
    ensures met { OneReceiverDoes }
{}
