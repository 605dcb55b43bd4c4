//! The codes of eight frames, side by side.

ghost use Rattle.std.specs.Prelude.{◌≡◌, ◌<◌, ◌≤◌, ◌+◌, ◌++◌, ◌∷◌, [], ℕ, List, length, OnOk};
ghost use Rattle.krb_bulk.specs.Four.{AreFrom};
ghost use Rattle.krb_keys.specs.BatchMac.{HoldsBatchKey};
ghost use Rattle.krb_seal.specs.Covered.{CoversFrame, code_key_of};
ghost use Rattle.krb_calls.specs.Codes.{AreCoded, AreCodesOf, CoversAt, bytes_in, coded_by};

use crate::frame::KrbFrame;
use krb_bulk::{Four, are_many, eight_codes};
use krb_etype::CODE_SIZE;
use krb_keys::BatchMac;
use krb_seal::{Coded, Covered, Opener};
use std::alloc::{AllocError, Global};
use std::collections::VecDeque;

/// What the code of a frame is computed over, and nothing if there is none.
fn bytes_in<'a>(covered: &'a Option<Covered<'_>>) -> &'a [u8]
    ensures { result.now ≡ bytes_in covered.now }
{
    match covered {
        Some(covered) => covered.bytes(),
        None => &[],
    }
}

/// The codes of what was read of eight frames.
fn codes_of(
    mac: &BatchMac,
    first: &Four<Option<Covered<'_>>>,
    second: &Four<Option<Covered<'_>>>,
) -> (Four<[u8; CODE_SIZE]>, Four<[u8; CODE_SIZE]>)
    ensures first { (key : List ℕ) → HoldsBatchKey mac.now key
        → AreCodesOf key first.now result.0 }
    ensures second { (key : List ℕ) → HoldsBatchKey mac.now key
        → AreCodesOf key second.now result.1 }
{
    let codes = mac.hmac96(&[
        bytes_in(&first.a),
        bytes_in(&first.b),
        bytes_in(&first.c),
        bytes_in(&first.d),
        bytes_in(&second.a),
        bytes_in(&second.b),
        bytes_in(&second.c),
        bytes_in(&second.d),
    ]);
    eight_codes(&codes)
}

/// What the codes of four frames from this index on are computed over.
fn four_covered<'f>(
    alloc: Global,
    opener: &Opener,
    frames: &[KrbFrame<'f>],
    from: usize,
) -> Four<Option<Covered<'f>>>
    requires { from + 4 ≤ length frames.now }
    ensures { AreFrom (CoversAt opener.now frames.now) from result }
{
    Four {
        a: opener.covered(alloc, frames[from].bytes),
        b: opener.covered(alloc, frames[from + 1].bytes),
        c: opener.covered(alloc, frames[from + 2].bytes),
        d: opener.covered(alloc, frames[from + 3].bytes),
    }
}

/// The same with its code.
fn coded(covered: Option<Covered<'_>>, code: [u8; CODE_SIZE]) -> Option<Coded<'_>>
    ensures { result ≡ coded_by covered.entry code }
{
    match covered {
        Some(covered) => Some(Coded { covered, code }),
        None => None,
    }
}

/// Appends four of them.
fn put_four<'f>(
    queue: &mut VecDeque<Option<Coded<'f>>>,
    covered: Four<Option<Covered<'f>>>,
    codes: &Four<[u8; CODE_SIZE]>,
) -> Result<(), AllocError>
    ensures { OnOk result (queue.new.items ≡ queue.old.items
        ++ coded_by covered.entry.a codes.now.a ∷ coded_by covered.entry.b codes.now.b
        ∷ coded_by covered.entry.c codes.now.c ∷ coded_by covered.entry.d codes.now.d ∷ []) }
{
    let Four { a, b, c, d } = covered;
    queue.push_back(coded(a, codes.a))?;
    queue.push_back(coded(b, codes.b))?;
    queue.push_back(coded(c, codes.c))?;
    queue.push_back(coded(d, codes.d))?;
    Ok(())
}

/// Puts what was computed of eight frames into a queue that is empty.
fn put_eight<'f>(
    alloc: Global,
    opener: &Opener,
    mac: &BatchMac,
    frames: &[KrbFrame<'f>],
    queue: &mut VecDeque<Option<Coded<'f>>>,
) -> Result<(), AllocError>
    requires mac { HoldsBatchKey mac.now (code_key_of opener.now) }
    requires frames { 8 ≤ length frames.now }
    requires empty { queue.old.items ≡ [] }
    ensures { OnOk result (AreCoded opener.now frames.now queue.new.items) }
{
    let first = four_covered(alloc, opener, frames, 0);
    let second = four_covered(alloc, opener, frames, 4);
    let (codes, others) = codes_of(mac, &first, &second);
    put_four(queue, first, &codes)?;
    put_four(queue, second, &others)
}

/// Puts the codes of the next eight frames into a queue that is empty, if there are so many and the opener
/// is prepared for it. Without memory it stays empty.
fn put_codes<'f>(
    alloc: Global,
    opener: &Opener,
    frames: &[KrbFrame<'f>],
    queue: &mut VecDeque<Option<Coded<'f>>>,
)
    requires empty { queue.old.items ≡ [] }
    ensures { AreCoded opener.now frames.now queue.new.items }
{
    let Some(mac) = opener.batch_mac() else {
        return;
    };
    if are_many(frames.len()) && put_eight(alloc, opener, mac, frames, queue).is_err() {
        queue.clear();
    }
}

/// The code of the first of these frames, if it was computed. The queue has those of the frames after it.
/// If it is empty, the codes of the next eight are computed first.
pub fn next_code<'f>(
    alloc: Global,
    opener: &Opener,
    frames: &[KrbFrame<'f>],
    queue: &mut VecDeque<Option<Coded<'f>>>,
) -> Option<Coded<'f>>
    requires frames { 0 < length frames.now }
    requires queue { AreCoded opener.now frames.now queue.old.items }
    ensures { AreCoded opener.now frames.now (result ∷ queue.new.items) }
{
    if queue.is_empty() {
        put_codes(alloc, opener, frames, queue);
    }
    queue.pop_front().unwrap_or(None)
}
