//! A queue, a pause, a session's end at a sender and at a receiver, openings, and shards: what happens, step by step,
//! and what each answers. The steps are rows of data, since a long function takes long to prove.

use krb_carry::Receipt;
use krb_engine::{
    Asks, Command, Ended, Flow, Head, Heard, Judged, Opening, Outcome, Pause, Queue, Read, Reading,
    Receiving, Row, Seen, Sending, SendingParts, Spot, Stands, judge, liveness_laws, pause_laws,
    queue_laws, receiving_laws, sending_laws, shard_laws, stream_laws,
};
use std::process::Abort;
use std::test::Fail;

/// The digests of a sender's own frames, and of another one's.
const OWN: [u8; 20] = [1; 20];

const OTHER: [u8; 20] = [2; 20];

// ---- a queue, and a pause

/// What happens to a queue: a session is ready, or this one is served.
#[derive(Clone, Copy)]
enum Turn {
    Ready(u32),
    Serves(Option<u32>),
}

fn take_turn(rt: &impl Abort, queue: &mut Queue, turn: &Turn) -> Result<(), Fail> {
    match *turn {
        Turn::Ready(session) => queue.ready(session)?,
        Turn::Serves(session) => assert_eq!(rt; queue.serve(), session),
    }
    Ok(())
}

#[test]
fn sessions_wait_once_and_in_order(rt: HostRuntime) -> Result<(), Fail> {
    let mut queue = Queue::new(rt.alloc());
    assert!(rt; queue.is_empty());
    for turn in &[
        Turn::Ready(7),
        Turn::Ready(2),
        Turn::Ready(7),
        Turn::Serves(Some(7)),
        Turn::Ready(7),
        Turn::Serves(Some(2)),
        Turn::Serves(Some(7)),
        Turn::Serves(None),
        Turn::Ready(3),
    ] {
        take_turn(&rt, &mut queue, turn)?;
    }
    assert_eq!(rt; queue.len(), 1);
    queue_laws();
    Ok(())
}

#[test]
fn a_pause_doubles_up_to_its_cap(rt: HostRuntime) {
    let mut pause = Pause::begin(2_000, 10_000);
    for (now, is_over) in [(11_999, false), (12_000, true), (9_000, false)] {
        assert_eq!(rt; pause.is_over(now), is_over);
    }
    for (now, end) in [(12_000, 16_000), (16_000, 21_000)] {
        pause.grow(5_000, now);
        assert_eq!(rt; pause.end(), end);
    }
    assert_eq!(rt; Pause::begin(u64::MAX, 1).end(), u64::MAX);
    pause_laws();
}

// ---- a session's end at a sender

/// What happens to a session's end at a sender, and what it answers.
#[derive(Clone, Copy)]
enum Step {
    Sealed(u64),
    Serves(u64, u64, Command),
    Confirmed(u64, u64, u64, bool),
    Listed(u64, bool),
    Reconnected,
    Receipt(u64, [u8; 20], Asks, u64, Heard),
    Stands(Option<Stands>),
    Window(u64),
    Carried(u64),
    Done(u64),
}

/// A receipt of the end's own frames, or of others.
fn receipt_of(number: u64, history: [u8; 20]) -> Receipt {
    Receipt { number, history }
}

fn take_step(rt: &impl Abort, sending: &mut Sending, step: &Step) {
    match *step {
        Step::Sealed(count) => {
            assert!(rt; count < 1_000 && sending.progress().next() < 1_000);
            sending.sealed(count);
        }
        Step::Serves(room, now, command) => assert_eq!(rt; sending.serve(room, now), command),
        Step::Confirmed(number, offset, now, counts) => {
            assert_eq!(rt; sending.confirmed(number, offset, now), counts);
        }
        Step::Listed(list, is_other) => assert_eq!(rt; sending.listed(list), is_other),
        Step::Reconnected => sending.reconnected(),
        Step::Receipt(number, history, asks, now, heard) => {
            let receipt = receipt_of(number, history);
            assert_eq!(rt; sending.receipt(&receipt, &OWN, asks, now), heard);
        }
        Step::Stands(why) => assert_eq!(rt; sending.stands(), why),
        Step::Window(window) => assert_eq!(rt; sending.parts().window, window),
        Step::Carried(carried) => assert_eq!(rt; sending.progress().carried(), carried),
        Step::Done(done) => assert_eq!(rt; sending.done(), done),
    }
}

fn take_steps(rt: &impl Abort, sending: &mut Sending, steps: &[Step]) {
    for step in steps {
        take_step(rt, sending, step);
    }
}

/// So many frames leave from this number on.
const fn publish(from: u64, count: u64) -> Command {
    Command::Publish { from, count }
}

const fn wake(at: u64) -> Command {
    Command::Wake { at }
}

#[test]
fn frames_leave_until_the_window_is_full(rt: HostRuntime) {
    let mut sending = Sending::load(0, 0, 0, 0, 5, 0);
    take_steps(
        &rt,
        &mut sending,
        &[
            Step::Serves(256, 0, Command::Idle),
            Step::Sealed(40),
            Step::Serves(3, 0, publish(0, 3)),
            Step::Serves(256, 0, publish(3, 13)),
            Step::Serves(256, 0, wake(2_000)),
            // with each frame that is confirmed one more may be under way
            Step::Confirmed(0, 1, 100, true),
            Step::Confirmed(0, 2, 100, false),
            Step::Serves(256, 100, publish(16, 2)),
            Step::Serves(256, 100, wake(2_100)),
            Step::Window(17),
            // what isn't confirmed in time leaves again
            Step::Serves(256, 2_099, wake(2_100)),
            Step::Serves(256, 2_100, publish(1, 16)),
            Step::Reconnected,
            // without room it asks again
            Step::Serves(0, 2_200, wake(4_200)),
            Step::Serves(256, 2_200, publish(1, 16)),
            Step::Listed(5, false),
            Step::Listed(6, true),
            Step::Serves(256, 2_300, publish(0, 16)),
        ],
    );
    sending_laws();
    liveness_laws();
}

#[test]
fn an_end_is_kept_by_its_parts(rt: HostRuntime) -> Result<(), Fail> {
    let mut sending = Sending::load(6, 2, 9, 1, 5, 100);
    assert_eq!(rt; sending.serve(3, 100), publish(2, 3));
    let parts = sending.parts();
    let SendingParts {
        next,
        carried,
        at,
        sent,
        done,
        list,
        recovers,
        window,
        ..
    } = parts;
    assert_eq!(rt;
        [next, carried, at, sent, done, list, recovers, window],
        [6, 2, 9, 5, 1, 5, 1, 16]
    );
    assert!(rt; parts.ask.is_none() && !parts.is_held && !parts.is_answered);
    assert_eq!(rt;
        [parts.again, parts.probe],
        [Pause::begin(2_000, 100), Pause::begin(5_000, 100)]
    );
    assert_eq!(rt; parts.ended, None);
    let Some(mut again) = Sending::restore(&parts) else {
        return Err(Fail::from("the parts of an end are none"));
    };
    assert_eq!(rt; again.serve(8, 100), publish(5, 1));
    // what took effect was carried, what is carried was published, and only what is stored is published
    for (done, carried, sent, next, window) in [
        (3, 2, 5, 6, 16),
        (1, 6, 5, 6, 16),
        (1, 2, 7, 6, 16),
        (1, 2, 5, 6, 0),
    ] {
        let wrong = SendingParts {
            done,
            carried,
            sent,
            next,
            window,
            ..parts
        };
        assert!(rt; Sending::restore(&wrong).is_none());
    }
    Ok(())
}

#[test]
fn receipts_alone_settle(rt: HostRuntime) {
    let mut sending = Sending::load(4, 4, 9, 0, 5, 0);
    let probe = Command::Probe {
        number: 3,
        opening: true,
    };
    take_steps(
        &rt,
        &mut sending,
        &[
            // no receipt comes: the last carried frame is probed, with the opening
            Step::Serves(256, 4_999, wake(5_000)),
            Step::Serves(256, 5_000, probe),
            Step::Serves(256, 5_000, wake(15_000)),
            Step::Stands(None),
            Step::Receipt(2, OWN, Asks::Nothing, 6_000, Heard::Delivered),
            Step::Done(2),
            Step::Receipt(2, OWN, Asks::Nothing, 6_000, Heard::Nothing),
            // the third frame is missing: it leaves again, alone
            Step::Receipt(2, OWN, Asks::Missing, 6_100, Heard::Nothing),
            Step::Serves(256, 6_100, publish(2, 1)),
            Step::Confirmed(2, 10, 6_200, true),
            // a receiver that asks again too soon isn't heeded; the session stands for its refusal
            Step::Receipt(2, OWN, Asks::Refused, 6_300, Heard::Nothing),
            Step::Carried(3),
            Step::Stands(Some(Stands::Refused)),
            // it asks again later, since it refuses the frame, which then leaves after a pause
            Step::Receipt(2, OWN, Asks::Refused, 10_100, Heard::Nothing),
            Step::Serves(256, 10_100, wake(18_100)),
            Step::Stands(Some(Stands::Refused)),
            Step::Serves(256, 18_100, publish(2, 1)),
            Step::Receipt(4, OWN, Asks::Nothing, 18_200, Heard::Delivered),
            Step::Serves(256, 18_200, Command::Idle),
        ],
    );
    assert!(rt; sending.is_settled());
}

#[test]
fn an_older_outbox_and_a_fork_are_stopped(rt: HostRuntime) {
    let mut older = Sending::load(4, 2, 9, 0, 5, 0);
    take_steps(
        &rt,
        &mut older,
        &[
            Step::Serves(256, 0, publish(2, 2)),
            Step::Receipt(5, OWN, Asks::Nothing, 0, Heard::Ended),
            Step::Stands(Some(Stands::Stopped(Ended::Older))),
            Step::Serves(256, 99_000, Command::Idle),
        ],
    );
    assert_eq!(rt; older.ended(), Some(Ended::Older));
    // it gives up what was under way
    assert_eq!(rt; older.under_way(), 0);
    let mut forked = Sending::load(4, 4, 9, 0, 5, 0);
    take_steps(
        &rt,
        &mut forked,
        &[
            Step::Receipt(3, OTHER, Asks::Missing, 0, Heard::Ended),
            Step::Stands(Some(Stands::Stopped(Ended::Forked))),
            Step::Receipt(3, OWN, Asks::Nothing, 0, Heard::Nothing),
            Step::Done(0),
        ],
    );
    assert_eq!(rt; forked.ended(), Some(Ended::Forked));
}

// ---- a session's end at a receiver

/// The code of a frame (RFC 3962, section 6), and SHA-1 of 20 zeros and these 12 bytes.
const TAG: [u8; 12] = [
    0xb0, 0xc4, 0x46, 0x36, 0x32, 0x64, 0xcc, 0xe7, 0x02, 0x29, 0x52, 0x91,
];

const HISTORY_OF_ONE: [u8; 20] = [
    0xd6, 0x24, 0x0c, 0xe1, 0xbf, 0x87, 0xf7, 0x25, 0x39, 0x29, 0xa8, 0xcb, 0x1c, 0xf4, 0xf1, 0xfa,
    0xb6, 0x5a, 0xf9, 0xdb,
];

/// A frame that opens at another number than the demanded one, or at none.
fn refused(opened: Option<u64>) -> Seen {
    Seen {
        accepted: false,
        is_close: false,
        opened,
    }
}

/// A frame that is accepted if it comes before the close.
fn passes(is_close: bool) -> Seen {
    Seen {
        accepted: true,
        is_close,
        opened: None,
    }
}

/// What happens to a session's end at a receiver, and what it answers.
#[derive(Clone, Copy)]
enum Comes {
    Frame(Seen, Outcome),
    Stored,
    Dropped,
    Receipt(u64, Option<(Receipt, Asks)>),
    Owes(Option<Asks>),
}

fn take_frame(rt: &impl Abort, end: &mut Receiving, seen: Seen, outcome: Outcome) {
    assert!(rt; end.drafted.demanded.number < 100);
    assert_eq!(rt; end.take(&TAG, seen), outcome);
}

fn take_all(rt: &impl Abort, end: &mut Receiving, all: &[Comes]) {
    for it in all {
        match *it {
            Comes::Frame(seen, outcome) => take_frame(rt, end, seen, outcome),
            Comes::Stored => end.stored(),
            Comes::Dropped => end.dropped(),
            Comes::Receipt(now, receipt) => assert_eq!(rt; end.receipt(now), receipt),
            Comes::Owes(asks) => assert_eq!(rt; end.owed, asks),
        }
    }
}

/// An end that demands number 3, of which nothing took effect.
fn demanding_three() -> Receiving {
    Receiving::load(
        Row {
            demanded: receipt_of(3, [0; 20]),
            closed: false,
        },
        0,
    )
}

#[test]
fn receipts_are_of_what_is_stored(rt: HostRuntime) {
    let mut end = demanding_three();
    let (none, one) = (receipt_of(3, [0; 20]), receipt_of(4, HISTORY_OF_ONE));
    take_all(
        &rt,
        &mut end,
        &[
            Comes::Receipt(0, None),
            Comes::Frame(refused(Some(5)), Outcome::Early),
            // not before the transaction took effect
            Comes::Receipt(0, None),
            Comes::Stored,
            Comes::Receipt(10, Some((none, Asks::Missing))),
            Comes::Frame(passes(false), Outcome::Accepted),
            Comes::Stored,
            // not soon after another one
            Comes::Receipt(209, None),
            Comes::Receipt(210, Some((one, Asks::Nothing))),
            // a transaction that had no effect leaves nothing
            Comes::Frame(passes(false), Outcome::Accepted),
            Comes::Dropped,
            Comes::Receipt(999, None),
        ],
    );
    assert_eq!(rt; end.drafted.demanded, one);
    receiving_laws();
}

#[test]
fn frames_are_told_by_their_numbers(rt: HostRuntime) {
    let mut end = demanding_three();
    take_all(
        &rt,
        &mut end,
        &[
            Comes::Frame(refused(None), Outcome::Unknown),
            Comes::Owes(None),
            Comes::Frame(refused(Some(2)), Outcome::Repeat),
            Comes::Owes(Some(Asks::Nothing)),
            Comes::Frame(refused(Some(3)), Outcome::Unsettled),
            Comes::Frame(refused(Some(4)), Outcome::Early),
            Comes::Owes(Some(Asks::Refused)),
            Comes::Frame(passes(true), Outcome::Accepted),
            Comes::Frame(passes(false), Outcome::Repeat),
        ],
    );
    assert!(rt; end.drafted.closed);
}

#[test]
fn sessions_of_a_stream_begin_in_turn(rt: HostRuntime) {
    let (none, own) = (receipt_of(0, [0; 20]), receipt_of(9, OWN));
    let open = Head {
        turn: 1,
        closed: false,
        took: own,
    };
    let closed = Head {
        closed: true,
        ..open
    };
    for (head, turn, before, judged) in [
        (None, 1, none, Judged::Begins),
        (None, 2, own, Judged::Later),
        (Some(open), 2, own, Judged::Later),
        (Some(closed), 2, own, Judged::Begins),
        (Some(closed), 1, none, Judged::Forked),
        (Some(closed), 2, receipt_of(9, OTHER), Judged::Forked),
        (Some(closed), 2, receipt_of(8, OWN), Judged::Forked),
        (Some(closed), 3, own, Judged::Later),
    ] {
        assert_eq!(rt; judge(head, &Opening { turn, before }), judged);
    }
    stream_laws();
}

// ---- shards

#[test]
fn a_shard_has_room_for_so_many(rt: HostRuntime) {
    let mut flow = Flow {
        list: None,
        under_way: 10,
    };
    assert_eq!(rt; flow.room(), 0);
    flow.list = Some(5);
    assert_eq!(rt; flow.room(), 2_038);
    flow.moved(4, 7);
    assert_eq!(rt; flow.under_way, 13);
    let mut sending = Sending::load(300, 4, 9, 4, 5, 0);
    assert_eq!(rt; sending.sealing_room(), 0);
    assert_eq!(rt; sending.serve(flow.room(), 0), publish(4, 16));
    assert_eq!(rt; sending.under_way(), 16);
    shard_laws();
}

/// What a shard of a receiver reads: the list, its last offset and so many frames, and what that results in, with the
/// place up to which it is read then.
fn read(rt: &impl Abort, reading: &mut Reading, found: (u64, u64, u64), answer: Read, at: Spot) {
    let (list, last, count) = found;
    assert!(rt; reading.read.offset < 100 && count < 100);
    assert_eq!(rt; reading.frames(list, last, count), answer);
    assert_eq!(rt; reading.read, at);
}

/// A place in a list.
fn spot(list: u64, offset: u64) -> Spot {
    Spot { list, offset }
}

#[test]
fn a_shard_is_read_on(rt: HostRuntime) {
    let mut reading = Reading::load(spot(5, 7));
    for (found, answer, at) in [
        ((5, 7, 0), Read::Nothing, spot(5, 7)),
        ((5, 9, 2), Read::Take, spot(5, 9)),
        // one transaction at a time
        ((5, 12, 3), Read::Nothing, spot(5, 9)),
    ] {
        read(&rt, &mut reading, found, answer, at);
    }
    reading.stored();
    assert_eq!(rt; reading.stored, spot(5, 9));
    for (found, answer, at) in [
        // its end was cut off
        ((5, 6, 0), Read::Elsewhere, spot(5, 6)),
        ((8, 3, 3), Read::Elsewhere, spot(8, 0)),
    ] {
        read(&rt, &mut reading, found, answer, at);
    }
    assert_eq!(rt; reading.stored, spot(5, 9));
}
