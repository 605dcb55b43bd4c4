//! The body of an authentic frame, of which nothing is demanded, and the refusals of other frames.

use super::frames::{
    PRIV_17, PRIV_18, PRIV_CUT_PART, PRIV_EMPTY, SAFE_17, SAFE_LONG_CHECKSUM, SAFE_NO_NUMBER,
    SAFE_NO_TIME, SAFE_NO_USEC, SAFE_TIMELESS, SAFE_TO_RECEIVER,
};
use super::opener;
use crate::peers_asserts::{assert_same, assert_same_at};
use krb_seal::{Mode, Opener, authentic_laws};
use std::alloc::Global;

/// The time, the microseconds and the number of an authentic frame with the user data 44 68 69 from
/// 10.0.0.1, and whether it tells a receiver; or the code of its refusal, and 1 for other data.
fn carried(
    alloc: Global,
    opener: &Opener,
    frame: &[u8],
) -> Result<(Option<u64>, Option<u32>, Option<u32>, bool), u32> {
    match opener.authenticate(alloc, frame) {
        Ok(body) => {
            let same = body.user_data.as_slice() == b"Dhi".as_slice()
                && body.s_addr.bytes.as_slice() == [10, 0, 0, 1].as_slice();
            if !same {
                return Err(1);
            }
            Ok((body.time, body.usec, body.seq, body.r_addr.is_some()))
        }
        Err(refusal) => Err(refusal.code()),
    }
}

#[test]
fn what_a_frame_leaves_out_is_absent(rt: HostRuntime) {
    let safe = opener(rt.alloc(), false, Mode::Safe).expect(&rt, "memory");
    let secs = Some(1_700_000_000);
    for (case, (frame, expected)) in [
        (SAFE_17.as_slice(), (secs, Some(5), Some(7), false)),
        (&SAFE_TO_RECEIVER, (secs, Some(5), Some(7), true)),
        (&SAFE_NO_USEC, (secs, None, Some(7), false)),
        (&SAFE_NO_TIME, (None, Some(5), Some(7), false)),
        (&SAFE_TIMELESS, (None, None, Some(7), false)),
        (&SAFE_NO_NUMBER, (secs, Some(5), None, false)),
    ]
    .into_iter()
    .enumerate()
    {
        assert_same_at(&rt, carried(rt.alloc(), &safe, frame), Ok(expected), case);
    }
    // Another checksum is modified.
    assert_same(
        &rt,
        carried(rt.alloc(), &safe, &SAFE_LONG_CHECKSUM),
        Err(41),
    );
    assert_same(&rt, carried(rt.alloc(), &safe, &SAFE_17[1..]), Err(901));
}

#[test]
fn an_encrypted_body_is_authentic(rt: HostRuntime) {
    let narrow = opener(rt.alloc(), false, Mode::Priv).expect(&rt, "memory");
    let wide = opener(rt.alloc(), true, Mode::Priv).expect(&rt, "memory");
    let expected = Ok((Some(1_700_000_000), Some(5), Some(7), false));
    assert_same(&rt, carried(rt.alloc(), &narrow, &PRIV_17), expected);
    assert_same(&rt, carried(rt.alloc(), &wide, &PRIV_18), expected);
    assert_same(&rt, carried(rt.alloc(), &wide, &PRIV_17), Err(14));
    assert_same(&rt, carried(rt.alloc(), &narrow, &PRIV_CUT_PART), Err(901));
    assert_same(&rt, carried(rt.alloc(), &narrow, &PRIV_EMPTY), Err(31));
    assert_same(&rt, carried(rt.alloc(), &narrow, &SAFE_17), Err(40));
    authentic_laws();
}
