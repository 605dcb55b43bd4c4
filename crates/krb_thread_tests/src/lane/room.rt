//! When a sender waits: a lane with room takes a frame, whoever runs; a sender of a full lane waits
//! until there is room, or until the receiver is gone.

ghost use Rattle.std.specs.Prelude.{◌≡◌, ◌<◌, ◌≤◌};

use super::next_is;
use crate::asserts::assert_same;
use krb_lane::{LaneRx, LaneTx, lane};
use std::alloc::Global;
use std::process::Abort;
use std::sync::Wait;
use std::test::Fail;
use std::thread;
use std::thread::Threads;
use std::time::{Clock, Duration};

/// Sends a frame of one byte, and says whether it was sent. After 100 frames it sends none.
fn sends(rt: &impl Wait, alloc: Global, tx: &mut LaneTx) -> bool
    ensures { tx.new.lane ≡ tx.old.lane }
{
    let Ok(bytes) = [0x61].to_vec(alloc) else {
        return false;
    };
    tx.count() < 100 && tx.send(rt, bytes).is_ok()
}

/// Fills a lane in one thread, and then sends a frame for each one that was taken.
fn assert_room_is_used<R: Abort + Wait>(rt: &R, alloc: Global, capacity: usize)
    requires { (0 < capacity) × (capacity ≤ 64) }
{
    let Ok((mut tx, mut rx)) = lane(rt, alloc, capacity) else {
        assert!(rt; false);
        return;
    };
    for _ in 0..capacity {
        assert!(rt; sends(rt, alloc, &mut tx));
    }
    assert!(rt; next_is(rt, &mut rx, 0, 0x61));
    assert!(rt; sends(rt, alloc, &mut tx));
    assert!(rt; next_is(rt, &mut rx, 1, 0x61));
    assert!(rt; sends(rt, alloc, &mut tx));
}

#[test]
fn sender_with_room_never_waits(rt: HostRuntime) {
    for capacity in 1..65 {
        assert_room_is_used(&rt, rt.alloc(), capacity);
    }
}

/// The bytes of a frame that can't be sent.
fn sent_back(rt: &impl Wait, tx: LaneTx, bytes: Vec<u8>) -> Option<Vec<u8>> {
    let mut tx = tx;
    if tx.count() < 100 {
        return tx.send(rt, bytes).err();
    }
    None
}

/// The bytes of a frame that a worker sends, if the receiver is dropped before there is room.
fn back_from_worker<R: Threads + Wait + Sync + Clock>(
    rt: &R,
    tx: LaneTx,
    rx: LaneRx,
    bytes: Vec<u8>,
) -> Option<Vec<u8>> {
    thread::scope(thread::scope_env(), rt, move |scope| -> Option<Vec<u8>> {
        let work = move || -> Option<Vec<u8>> { sent_back(rt, tx, bytes) };
        let Ok(worker) = scope.spawn(work) else {
            return None;
        };
        thread::sleep(rt, Duration::from_millis(50));
        drop(rx);
        worker.join(rt)
    })
}

/// Asserts of a full lane that a worker who waits for room gets its bytes back.
fn assert_handed_back<R: Abort + Threads + Wait + Sync + Clock>(
    rt: &R,
    alloc: Global,
    capacity: usize,
) -> Result<(), Fail>
    requires { (0 < capacity) × (capacity ≤ 64) }
{
    let (mut tx, rx) = lane(rt, alloc, capacity)?;
    for _ in 0..capacity {
        assert!(rt; sends(rt, alloc, &mut tx));
    }
    let Some(back) = back_from_worker(rt, tx, rx, [0x61, 0x62].to_vec(alloc)?) else {
        return Err(Fail::from("nothing came back"));
    };
    assert_same(rt, back.as_slice(), [0x61, 0x62].as_slice());
    Ok(())
}

#[test]
fn waiting_sender_whose_receiver_is_dropped_gets_its_bytes_back(
    rt: HostRuntime,
) -> Result<(), Fail> {
    for capacity in [1, 8, 64] {
        assert_handed_back(&rt, rt.alloc(), capacity)?;
    }
    Ok(())
}
