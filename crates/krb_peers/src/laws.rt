//! Laws of the definitions: what a user may rely on without reading any code.

ghost use Rattle.krb_peers.specs.Laws.{OneListOfAnswers, CloseIsLast, AcceptsPrefix, AcceptsTextsPrefix, AcceptsWhole};
ghost use Rattle.krb_peers.specs.Laws.{OneVerdict, OneListOfVerdicts, VerdictsGoOn, NextVerdict, OneListOfFrames};
ghost use Rattle.krb_peers.specs.Laws.{NothingIsLogged, LoggedIsShut, OneListOfRounds, RoundsKeepLanes, RoundGoesOn, RoundsGoOn};

/// The laws of accepted offers, over their definition alone.
///
/// Each list of offers has one list of answers, the one that an [`Order`](crate::Order) gives offer
/// by offer (`one`). Nothing is accepted after a close (`close_last`).
///
/// Let each offer numbered `first + k` carry record k of a list. Then the accepted records, in
/// order, are a prefix of that list (`prefix`), and so are their texts (`texts`). If the list's one
/// close is last and was accepted, they are the whole list (`whole`).
pub fn accepted_laws()
    ensures one { OneListOfAnswers }
    ensures close_last { CloseIsLast }
    ensures prefix { AcceptsPrefix }
    ensures texts { AcceptsTextsPrefix }
    ensures whole { AcceptsWhole }
{}

/// The laws of verdicts and of frames.
///
/// A frame of bytes has one verdict (`one`), and frames of bytes have one list of verdicts (`all`).
/// One more frame brings one more verdict, by what is demanded then (`goes_on`, and `next` of the
/// list as it is computed). The frames of a sender's records are one list (`frames`).
pub fn verdict_laws()
    ensures one { OneVerdict }
    ensures all { OneListOfVerdicts }
    ensures goes_on { VerdictsGoOn }
    ensures next { NextVerdict }
    ensures frames { OneListOfFrames }
{}

/// The laws of what a log has of a lane.
///
/// Before the first frame it has nothing (`none`). After a close that is there, the receiver
/// accepts no more (`shut`), as [`Receiver::take_into`](crate::Receiver::take_into) requires, which
/// enters the next frame.
pub fn logged_laws()
    ensures none { NothingIsLogged }
    ensures shut { LoggedIsShut }
{}

/// The laws of rounds.
///
/// Each lane has groups of events, one for each verdict. The entries are those of the groups of all
/// lanes, each once, by their places and then by their lanes, and no other list is that
/// (`by_places`). The events of a lane stay in their order (`of_lane`). One more group, of a lane
/// whose followers have no more groups than it had, comes last (`goes_on`), and last of all rounds
/// if no lane before it has more groups than it has then (`next`).
pub fn rounds_laws()
    ensures by_places { OneListOfRounds }
    ensures of_lane { RoundsKeepLanes }
    ensures goes_on { RoundGoesOn }
    ensures next { RoundsGoOn }
{}
