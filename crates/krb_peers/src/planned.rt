//! What is claimed of a lane whose sender seals by one rule and whose wire a plan makes, as one
//! instance of a session ([`frames_laws`](crate::frames_laws)): its frames, the plan of its wire, and
//! the verdicts of its receiver.

ghost use Rattle.krb_peers.specs.Laws.{VerdictsAreQuietAfterClose, VerdictsRefuseExactly, VerdictsOfRefusalsDeliverNothing};
ghost use Rattle.krb_peers.specs.Planned.{SourcesSealRecords, RunsAreAttempts, RunsTakeInTurn};
ghost use Rattle.krb_peers.specs.Planned.{RunsDeliverPrefix, RunsDeliverAllWhereClosed, AcceptsSealedOnly};
ghost use Rattle.krb_peers.specs.Planned.{NoneIsRefused, AcceptsFirstRecords, DemandsNumberAfter, DeliversAllThatIsTaken};
ghost use Rattle.krb_peers.specs.Planned.{DemandsNumbersInTurn, DeliversAllThatIsCarried, UndisturbedIsCarried, UndisturbedIsHonest};
ghost use Rattle.krb_peers.specs.Planned.{PairedAcceptInOrder, GoingOnAcceptsInOrder, InOrderDeliversPrefix, GoingOnDeliversAll};

/// How a lane is an instance of a session.
///
/// The records of a sender are those of a session, each of its frames is sealed of one of them, and
/// their texts are the texts that it seals (`sources`). Each run of a paired lane in which altered
/// frames are honest is an attempt at them (`runs`). It takes them in turn if each frame comes in its
/// turn and all of the wire was taken (`in_turn`). So [`frames_laws`](crate::frames_laws) holds of
/// each lane, and the laws of this module are what it says there.
pub fn source_laws()
    ensures sources { SourcesSealRecords }
    ensures runs { RunsAreAttempts }
    ensures in_turn { RunsTakeInTurn }
{}

/// What a receiver delivers and refuses of what a sender sealed.
///
/// The sender's frames go over a wire that repeats, drops, reorders, changes and makes up frames by
/// a plan, and the receiver takes any number of them. The claims about what was sealed need a
/// paired lane, and that no changed or made-up frame is accepted unless it is one of the sender's
/// own after all, or carries the record of its number.
///
/// What is delivered is a prefix of the texts sealed, in order and each once (`delivered_prefix`);
/// without a plan, if sealing was stopped, of those sealed until then (`sealed_only`). Nothing is
/// delivered after a close (`nothing_after_close`). All texts are delivered if the close was
/// accepted (`all_where_closed`). A frame is refused if and only if it fails a check, by the first
/// that it fails (`refused_exactly`), and then it delivers nothing and moves no number
/// (`refusals_deliver_nothing`).
pub fn headline_laws()
    ensures delivered_prefix { RunsDeliverPrefix }
    ensures all_where_closed { RunsDeliverAllWhereClosed }
    ensures sealed_only { AcceptsSealedOnly }
    ensures nothing_after_close { VerdictsAreQuietAfterClose }
    ensures refused_exactly { VerdictsRefuseExactly }
    ensures refusals_deliver_nothing { VerdictsOfRefusalsDeliverNothing }
{}

/// What a receiver accepts of a clean lane.
///
/// Both ends have one key and agree on mode and addresses, each frame is taken within the skew, and
/// the wire carries the frames as they are. Then no frame is refused (`none_refused`): the receiver
/// accepts the first records, one for each frame that it takes (`first_records`), and demands the
/// number after them (`demands_next`). If it takes all frames, it delivers all texts (`all_texts`).
pub fn undisturbed_laws()
    ensures none_refused { NoneIsRefused }
    ensures first_records { AcceptsFirstRecords }
    ensures demands_next { DemandsNumberAfter }
    ensures all_texts { DeliversAllThatIsTaken }
{}

/// What a receiver accepts if each of the sender's frames comes in its turn, whatever else comes.
///
/// The carrier may bring frames repeated and early, and others that are changed or made up. Both
/// ends have one key and agree on mode and addresses, each of the sender's frames comes somewhere
/// after the one before and is taken there within the skew, and no changed or made-up frame is
/// accepted unless it is one of the sender's own after all, or carries the record of its number.
///
/// Then, after frame k in its turn, a number after that of record k is demanded (`demands_next`).
/// If the receiver takes all of the wire, it delivers all texts, in order and each once, and
/// accepts the close (`all_texts`). A clean lane is one of these (`undisturbed`), and has no
/// altered frame (`honest`).
pub fn carried_laws()
    ensures demands_next { DemandsNumbersInTurn }
    ensures all_texts { DeliversAllThatIsCarried }
    ensures undisturbed { UndisturbedIsCarried }
    ensures honest { UndisturbedIsHonest }
{}

/// What receivers deliver together, if each continues after those before it.
///
/// All of a receiver's state is its key, the number that it demands, and whether the close was
/// accepted. Another one that begins with these continues where the first one was lost, over a wire
/// of its own, of the same sender: it may begin anywhere, and repeat frames.
///
/// What a receiver of a paired lane accepts are the first records of the sender, in order and each
/// once (`first`), and so are those of all receivers together, with each one that continues
/// (`goes_on`). So what they deliver is a prefix of the texts (`texts`). They deliver all texts,
/// and the close is accepted, if each frame that none had accepted comes to the last one in its
/// turn (`all_texts`).
pub fn going_on_laws()
    ensures first { PairedAcceptInOrder }
    ensures goes_on { GoingOnAcceptsInOrder }
    ensures texts { InOrderDeliversPrefix }
    ensures all_texts { GoingOnDeliversAll }
{}
