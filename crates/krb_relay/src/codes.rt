//! The integrity codes of the frames that wait first, computed side by side.

ghost use Rattle.std.specs.Prelude.{◌≡◌, ◌<◌, ℕ, List, length, get_or, slice_index_or, IfSome, None, Some};
ghost use Rattle.std.specs.Option.{ForSome};
ghost use Rattle.krb_digests.specs.Lanes.{message};
ghost use Rattle.krb_keys.specs.BatchMac.{HoldsBatchKey};
ghost use Rattle.krb_keys.specs.Hmac.{hmac96};
ghost use Rattle.krb_seal.specs.Covered.{bytes_of};
ghost use Rattle.krb_peers.specs.declared.receiver.Receiving.{Receiving as ReceivingValue};
ghost use Rattle.krb_relay.specs.declared.codes.Keyed.{Keyed as KeyedValue};
ghost use Rattle.krb_relay.specs.declared.waiting.Waiting.{Waiting as WaitingValue};
ghost use Rattle.krb_relay.specs.Codes.{IsCodedFirst, IsKeyed, bytes_in, coded_by};

use crate::waiting::Waiting;
use krb_base::LANE_LIMIT;
use krb_etype::CODE_SIZE;
use krb_keys::BatchMac;
use krb_peers::Receiving;
use krb_seal::{Coded, Covered};
use std::alloc::Global;

/// What the code of a frame is computed over, and under which key.
#[derive(Drop)]
pub(crate) struct Keyed<'k, 'f> {
    mac: &'k BatchMac,
    covered: Covered<'f>,
}

/// That of the first frame that waits of a lane. There is none if no frame waits or if its code isn't
/// asked for.
fn keyed_of<'k, 'f>(
    alloc: Global,
    receiving: &'k Receiving,
    waiting: &'f Waiting,
) -> Option<Keyed<'k, 'f>>
    ensures { IfSome result (IsKeyed receiving.now waiting.now) }
{
    let frame = waiting.frames.front()?;
    let opener = receiving.receiver.opener();
    let mac = opener.batch_mac()?;
    let covered = opener.covered(alloc, frame.as_slice())?;
    Some(Keyed { mac, covered })
}

/// The same of the lane with this number, if there is one.
fn keyed_at<'k, 'f>(
    alloc: Global,
    receivings: &'k [Receiving],
    waiting: &'f [Waiting],
    lane: usize,
) -> Option<Keyed<'k, 'f>>
    requires { length receivings.now ≡ length waiting.now }
    ensures { (r : ReceivingValue) (w : WaitingValue) → lane < length receivings.now
        → IfSome result (IsKeyed (get_or receivings.now lane r) (get_or waiting.now lane w)) }
{
    if lane < receivings.len() {
        keyed_of(alloc, &receivings[lane], &waiting[lane])
    } else {
        None
    }
}

/// The key of one of them, and where there is none, this one.
fn mac_of<'k>(keyed: &Option<Keyed<'k, '_>>, other: &'k BatchMac) -> &'k BatchMac
    ensures { (k : KeyedValue) → keyed.now ≡ Some k → result.now ≡ k.mac.now }
{
    match keyed {
        Some(keyed) => keyed.mac,
        None => other,
    }
}

/// What the code is computed over, and nothing if there is none.
fn bytes_in<'a>(keyed: &'a Option<Keyed<'_, '_>>) -> &'a [u8]
    ensures { result.now ≡ bytes_in keyed.now }
{
    match keyed {
        Some(keyed) => keyed.covered.bytes(),
        None => &[],
    }
}

/// The codes of eight frames.
fn codes_of<'k>(
    keyed: &[Option<Keyed<'k, '_>>; LANE_LIMIT],
    other: &'k BatchMac,
) -> [[u8; CODE_SIZE]; LANE_LIMIT]
    ensures { (j : ℕ) (k : KeyedValue) (key : List ℕ) → j < 8
        → slice_index_or keyed.now j None ≡ Some k → HoldsBatchKey k.mac.now key
        → message j result ≡ hmac96 key (bytes_of k.covered) }
{
    let macs = [
        mac_of(&keyed[0], other),
        mac_of(&keyed[1], other),
        mac_of(&keyed[2], other),
        mac_of(&keyed[3], other),
        mac_of(&keyed[4], other),
        mac_of(&keyed[5], other),
        mac_of(&keyed[6], other),
        mac_of(&keyed[7], other),
    ];
    let texts = [
        bytes_in(&keyed[0]),
        bytes_in(&keyed[1]),
        bytes_in(&keyed[2]),
        bytes_in(&keyed[3]),
        bytes_in(&keyed[4]),
        bytes_in(&keyed[5]),
        bytes_in(&keyed[6]),
        bytes_in(&keyed[7]),
    ];
    BatchMac::hmac96_under(&macs, &texts)
}

/// The same with its code.
fn coded<'f>(keyed: Option<Keyed<'_, 'f>>, code: [u8; CODE_SIZE]) -> Option<Coded<'f>>
    ensures { result ≡ coded_by keyed.entry code }
{
    match keyed {
        Some(keyed) => Some(Coded {
            covered: keyed.covered,
            code,
        }),
        None => None,
    }
}

/// No codes.
fn no_codes<'f>() -> [Option<Coded<'f>>; LANE_LIMIT]
    ensures size { length result ≡ 8 }
    ensures none { (lane : ℕ) → slice_index_or result lane None ≡ None }
{
    [None, None, None, None, None, None, None, None]
}

/// The codes of the first frames that wait, for each lane that has one.
pub(crate) fn codes<'f>(
    alloc: Global,
    receivings: &[Receiving],
    waiting: &'f [Waiting],
) -> [Option<Coded<'f>>; LANE_LIMIT]
    requires { length receivings.now ≡ length waiting.now }
    ensures size { length result ≡ 8 }
    ensures codes { (lane : ℕ) (r : ReceivingValue) (w : WaitingValue) → lane < length receivings.now
        → ForSome (slice_index_or result lane None)
        (IsCodedFirst (get_or receivings.now lane r) (get_or waiting.now lane w)) }
{
    let Some(receiving) = receivings.first() else {
        return no_codes();
    };
    let Some(other) = receiving.receiver.opener().batch_mac() else {
        return no_codes();
    };
    let mut keyed = [
        keyed_at(alloc, receivings, waiting, 0),
        keyed_at(alloc, receivings, waiting, 1),
        keyed_at(alloc, receivings, waiting, 2),
        keyed_at(alloc, receivings, waiting, 3),
        keyed_at(alloc, receivings, waiting, 4),
        keyed_at(alloc, receivings, waiting, 5),
        keyed_at(alloc, receivings, waiting, 6),
        keyed_at(alloc, receivings, waiting, 7),
    ];
    let codes = codes_of(&keyed, other);
    [
        coded(keyed[0].take(), codes[0]),
        coded(keyed[1].take(), codes[1]),
        coded(keyed[2].take(), codes[2]),
        coded(keyed[3].take(), codes[3]),
        coded(keyed[4].take(), codes[4]),
        coded(keyed[5].take(), codes[5]),
        coded(keyed[6].take(), codes[6]),
        coded(keyed[7].take(), codes[7]),
    ]
}
