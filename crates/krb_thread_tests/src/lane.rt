//! A lane in one thread and between two, and where either end is gone.

ghost use Rattle.std.specs.Prelude.{◌≡◌, ◌<◌, ◌≤◌};

mod passing;
mod room;
mod sweep;

use crate::asserts::assert_same;
use krb_base::Bytes;
use krb_lane::{Item, LaneRx, lane, meet};
use passing::pass_on;
use std::alloc::Global;
use std::process::Abort;
use std::sync::Wait;
use std::test::Fail;
use std::thread::Threads;

// Whether the next item is this frame.
fn next_is(rt: &impl Wait, rx: &mut LaneRx, index: u64, byte: u8) -> bool
    ensures { rx.new.lane ≡ rx.old.lane }
{
    match rx.take(rt) {
        Ok(Item::Frame { index: i, bytes }) => i == index && bytes.as_slice() == [byte].as_slice(),
        Ok(Item::End) => false,
        Err(_) => false,
    }
}

// Whether the next item is End.
fn next_is_end(rt: &impl Wait, rx: &mut LaneRx) -> bool
    ensures { rx.new.lane ≡ rx.old.lane }
{
    match rx.take(rt) {
        Ok(Item::Frame { .. }) => false,
        Ok(Item::End) => true,
        Err(_) => false,
    }
}

#[test]
fn frames_come_in_order_and_then_end(rt: HostRuntime) -> Result<(), Fail> {
    let alloc = rt.alloc();
    let (mut tx, mut rx) = lane(&rt, alloc, 2)?;
    tx.send(&rt, [0x61].to_vec(alloc)?)?;
    tx.send(&rt, [0x62].to_vec(alloc)?)?;
    assert_same(&rt, tx.count(), 2);
    assert!(rt; next_is(&rt, &mut rx, 0, 0x61));
    assert!(rt; next_is(&rt, &mut rx, 1, 0x62));
    let Ok(sent) = tx.end(&rt) else {
        return Err(Fail::from("end"));
    };
    assert!(rt; next_is_end(&rt, &mut rx));
    assert!(rt; next_is_end(&rt, &mut rx));
    assert_same(&rt, (sent.count(), rx.count()), (2, 2));
    let met = meet(sent, rx);
    assert_same(&rt, (met.sent, met.got), (2, 2));
    Ok(())
}

#[test]
fn what_was_sent_comes_back_where_the_receiver_is_gone(rt: HostRuntime) -> Result<(), Fail> {
    let alloc = rt.alloc();
    let (mut tx, rx) = lane(&rt, alloc, 2)?;
    tx.send(&rt, [0x60].to_vec(alloc)?)?;
    drop(rx);
    match tx.send(&rt, [0x61].to_vec(alloc)?) {
        Ok(()) => return Err(Fail::from("sent")),
        Err(back) => assert_same(&rt, back.as_slice(), [0x61].as_slice()),
    }
    assert_same(&rt, tx.count(), 1);
    match tx.end(&rt) {
        Ok(_) => Err(Fail::from("ended")),
        Err(tx) => {
            assert_same(&rt, tx.count(), 1);
            assert_same(&rt, tx.stop().count(), 1);
            Ok(())
        }
    }
}

#[test]
fn longest_raw_frame_comes_back_whole(rt: HostRuntime) -> Result<(), Fail> {
    let alloc = rt.alloc();
    let (mut tx, rx) = lane(&rt, alloc, 64)?;
    drop(rx);
    let expected = vec![in alloc; 0x61; 1_010_000]?;
    match tx.send(&rt, vec![in alloc; 0x61; 1_010_000]?) {
        Ok(()) => Err(Fail::from("sent")),
        Err(back) => {
            assert!(rt; back.as_slice() == expected.as_slice());
            assert_same(&rt, tx.count(), 0);
            Ok(())
        }
    }
}

#[test]
fn lost_follows_the_frames_where_the_sender_is_gone(rt: HostRuntime) -> Result<(), Fail> {
    let alloc = rt.alloc();
    let (mut tx, mut rx) = lane(&rt, alloc, 2)?;
    tx.send(&rt, [0x61].to_vec(alloc)?)?;
    drop(tx);
    assert!(rt; next_is(&rt, &mut rx, 0, 0x61));
    assert!(rt; rx.take(&rt).is_err());
    assert!(rt; rx.take(&rt).is_err());
    assert_same(&rt, rx.count(), 1);
    Ok(())
}

/// Passes 10,000 frames, frame i with i as its bytes.
fn pass_ten_thousand<R: Abort + Threads + Wait + Sync>(
    rt: &R,
    alloc: Global,
    capacity: usize,
) -> Result<(), Fail>
    requires { (0 < capacity) × (capacity ≤ 64) }
{
    let mut frames = Vec::new(alloc);
    for i in 0..10_000u64 {
        frames.push(Bytes::new(i.to_be_bytes().to_vec(alloc)?))?;
    }
    assert_eq!(rt; frames.len(), 10_000);
    let Ok((got, met)) = pass_on(rt, alloc, capacity, frames) else {
        return Err(Fail::from("a fault"));
    };
    assert_same(rt, got.len(), 10_000);
    let mut expected = 0u64;
    for bytes in &got {
        assert_same(rt, bytes.as_slice(), expected.to_be_bytes().as_slice());
        expected = expected.wrapping_add(1);
    }
    assert_same(rt, (met.sent, met.got), (10_000, 10_000));
    Ok(())
}

// The sender of each lane finds it full again and again.
#[test]
fn ten_thousand_frames_pass_between_two_threads(rt: HostRuntime) -> Result<(), Fail> {
    pass_ten_thousand(&rt, rt.alloc(), 1)?;
    pass_ten_thousand(&rt, rt.alloc(), 9)?;
    pass_ten_thousand(&rt, rt.alloc(), 64)
}
