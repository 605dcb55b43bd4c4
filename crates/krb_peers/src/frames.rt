//! What is claimed of the frames of a session, whoever seals them and whoever brings them, over the
//! definitions alone.

ghost use Rattle.krb_peers.specs.Laws.{FramesHaveHeadline};
ghost use Rattle.krb_peers.specs.Laws.{AttemptsAcceptInOrder, AttemptsDemandInTurn, AttemptsAcceptRest, AttemptsRefuseNone, AttemptsHappen};

/// The headline: what a receiver delivers and refuses of a session, whatever frames come.
///
/// A session has one record under each number from its first one on, and none after a close. Whoever
/// has the key seals its records: at any timestamps, under any confounders, and again after a crash.
/// A receiver has the key too, and begins with the session or after its first records. It takes any
/// frames, in any order, from anyone. What it accepts was sealed of one of the records, or carries
/// the record of its number.
///
/// Then what its verdicts deliver, as a log has it, continues the texts of the first records, in
/// order and each once. All texts are delivered if the close was accepted, or if each record comes in
/// its turn, whatever comes in between. Of any verdicts, without these premises, nothing is delivered
/// after a close, a frame is refused if and only if it fails a check, by the first that it fails, and
/// then it delivers nothing and moves no number.
pub fn frames_laws()
    ensures headline { FramesHaveHeadline }
{}

/// What a receiver accepts of a session, whatever frames come.
///
/// The premises are those of [`frames_laws`]. What is accepted are the next records (`in_order`).
/// After a record in its turn, a number after its own is demanded (`demands_next`). If each of the
/// rest comes in its turn, all of the rest is accepted (`rest`), and if nothing else comes, no frame
/// is refused (`none_refused`). The premises can be met at once: a new receiver that takes all that is
/// sealed in agreement accepts all (`met`).
pub fn attempt_laws()
    ensures in_order { AttemptsAcceptInOrder }
    ensures demands_next { AttemptsDemandInTurn }
    ensures rest { AttemptsAcceptRest }
    ensures none_refused { AttemptsRefuseNone }
    ensures met { AttemptsHappen }
{}
