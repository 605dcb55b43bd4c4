//! Both ends of a lane brought together after its end: what was got is a prefix of what was sent.

ghost use Rattle.std.specs.Prelude.{◌≡◌, ◌≤◌, ◌+◌, true, length};
ghost use Rattle.krb_base.specs.Prefix.{IsPrefix};

use crate::passes::{Total, Whole};
use crate::receiving::LaneRx;
use crate::sent::SentAll;

/// How many frames were sent into a lane and how many were got, End not counted.
#[derive(Clone, Copy, Debug, PartialEq, Eq)]
pub struct Met {
    pub sent: u64,
    pub got: u64,
}

/// Brings both ends of one lane together: what was got is a prefix of what was sent, byte for byte,
/// and all of it if End was got. It never waits.
///
/// What was sent and not got is at most what the lane can queue.
pub fn meet(sent: SentAll, rx: LaneRx) -> Met
    requires { sent.lane ≡ rx.lane }
    ensures sent { result.sent ≡ length sent.frames }
    ensures got { result.got ≡ length rx.frames }
    ensures prefix { IsPrefix rx.frames sent.frames }
    ensures whole { rx.ended ≡ true → (rx.frames ≡ sent.frames) × (sent.ended ≡ true) }
    ensures queued { length sent.frames ≤ length rx.frames + sent.capacity }
{
    let SentAll {
        sender,
        mut pass,
        count,
    } = sent;
    let LaneRx {
        receiver: _,
        pass: other,
        count: got,
        ended: _,
    } = rx;
    sender.absorb::<Whole>(&mut pass, other);
    sender.learn_as::<Total>(&mut pass);
    Met { sent: count, got }
}
