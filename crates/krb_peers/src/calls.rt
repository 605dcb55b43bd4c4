//! The calls of a receiver, as a caller's loop makes them.

ghost use Rattle.krb_peers.specs.CallLaws.{CallsAreTakes, CallsGoOn, CallsWithoutVerdict, CallsAreJudged, CallsHaveHeadline, LoopsAreAttempts};

/// What a caller's loop comes to, which takes frames one after another, whatever each call answers.
///
/// An answer is a verdict, or none: out of memory, or in C also any other answer that tells nothing
/// of the frame. Each call of [`Receiver::take`](crate::Receiver::take) is one of such a loop
/// (`take`), and one more call goes on from where it is (`goes_on`). A call without a verdict may be
/// left out: it changes nothing (`none`). The verdicts of the others are those of a receiver that took
/// their frames alone, and the receiver is where these leave it (`judged`). So the headline of
/// [`frames_laws`](crate::frames_laws) holds of the loop (`headline`). Its premise of an attempt is met
/// if the loop's records are a session's, it begins after the first of them, and no call accepts a
/// forgery (`attempt`).
pub fn calls_laws()
    ensures take { CallsAreTakes }
    ensures goes_on { CallsGoOn }
    ensures none { CallsWithoutVerdict }
    ensures judged { CallsAreJudged }
    ensures headline { CallsHaveHeadline }
    ensures attempt { LoopsAreAttempts }
{}
