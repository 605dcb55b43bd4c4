//! The laws of a lane: what was sent, got and queued after any events.

ghost use Rattle.std.specs.Prelude.{◌≡◌, ◌≤◌, ◌++◌, ℕ, true, false, List, length};
ghost use Rattle.krb_base.specs.Prefix.{IsPrefix};
ghost use Rattle.krb_base.specs.Lane.{Lane, Event, empty, has_end, is_possible, moved, after_event, after, Always, IsEndLast};

/// The laws of a lane whose frames are of any type.
///
/// After any events of an empty lane, what was sent is what was got and then what is queued
/// (`linked`), the queue is within the capacity (`within`), and End is last and occurs at most once
/// (`end_last`). So what was got is a prefix of what was sent (`begins`), and all of it if End was
/// got (`whole`). The capacity stays (`capacity`). A possible event moves its item (`possible`),
/// and an impossible one changes nothing (`impossible`).
pub fn lane_laws<F>()
    ensures linked { Always F (λ lane. lane.sent ≡ lane.got ++ lane.queue) }
    ensures within { Always F (λ lane. length lane.queue ≤ lane.capacity) }
    ensures end_last { Always F (λ lane. IsEndLast lane.sent) }
    ensures begins { Always F (λ lane. IsPrefix lane.got lane.sent) }
    ensures whole { Always F (λ lane. has_end lane.got ≡ true → lane.got ≡ lane.sent) }
    ensures capacity { (n : ℕ) (events : List (Event F)) → (after (empty n) events).capacity ≡ n }
    ensures possible { (lane : Lane F) (event : Event F)
        → is_possible lane event ≡ true → after_event lane event ≡ moved lane event }
    ensures impossible { (lane : Lane F) (event : Event F)
        → is_possible lane event ≡ false → after_event lane event ≡ lane }
{}
