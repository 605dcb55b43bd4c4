//! Relays that stop while frames are taken: the fault, and the lines that are printed before it.

ghost use Rattle.std.specs.Prelude.{◌≡◌, ◌≤◌, false, IfOk, IsSome};
ghost use Rattle.krb_base.specs.Limits.{last_number};

use crate::program_asserts::assert_same_at;
use crate::runs::{TWO_LANES, TWO_SENDERS};
use krb_base::{LAST_NUMBER, USER_DATA_LIMIT};
use krb_commands::{Fault, push_lane, sealer_of};
use krb_der::Moment;
use krb_job::{Command, SenderJob, read_job};
use krb_program::relay_job;
use krb_relay::{Boxed, NoGate};
use krb_seal::{SealError, Sealer, SessionSealer};
use std::alloc::{AllocError, Global};
use std::process::Abort;
use std::sync::Wait;
use std::test::Fail;
use std::thread::Threads;

/// A sealer that answers `Memory` at one of its calls.
#[derive(Drop)]
struct RefusingSealer {
    inner: SessionSealer,
    wiped: bool,
    calls: u64,
    fails_at: u64,
    ghost flag: { wiped ≡ inner.wiped },
}

impl RefusingSealer {
    /// A sealer of the session of a job's sender that refuses this call, from 1 on (0: none).
    fn of_sender(
        alloc: Global,
        sender: &SenderJob,
        fails_at: u64,
    ) -> Result<RefusingSealer, AllocError>
        ensures live { IfOk result (λ sealer. sealer.inner.wiped ≡ false) }
        ensures next { IfOk result (λ sealer. sealer.inner.next ≤ last_number) }
    {
        Ok(RefusingSealer {
            inner: sealer_of(alloc, sender)?,
            wiped: false,
            calls: 0,
            fails_at,
        })
    }
}

// Its keys are those of a test.
impl Boxed for RefusingSealer {}

impl Sealer for RefusingSealer {
    ghost state = { λ s. s.inner };

    fn etype(&self) -> i32 {
        self.inner.etype()
    }

    fn next(&self) -> u64 {
        self.inner.next()
    }

    fn seal(
        &mut self,
        alloc: Global,
        bytes: &[u8],
        at: Moment,
        confounder: [u8; 16],
    ) -> Result<Vec<u8>, SealError> {
        self.calls = self.calls.saturating_add(1);
        let may_refuse = !self.wiped
            && bytes.len() <= USER_DATA_LIMIT
            && self.inner.next() <= LAST_NUMBER;
        if may_refuse && self.calls == self.fails_at {
            return Err(SealError::Memory);
        }
        self.inner.seal(alloc, bytes, at, confounder)
    }

    fn wipe(&mut self) {
        self.inner.wipe();
        self.wiped = true;
    }
}

/// Takes both senders, which have seeds.
fn take_two(rt: &impl Abort, senders: &mut Vec<SenderJob>) -> (SenderJob, SenderJob)
    ensures first { IsSome result.0.seed }
    ensures second { IsSome result.1.seed }
{
    assert!(rt; senders.len() == 2);
    let second = senders.pop().unwrap();
    let first = senders.pop().unwrap();
    assert!(rt; first.seed.is_some());
    assert!(rt; second.seed.is_some());
    (first, second)
}

/// Relays the two senders. The sealer of the first refuses this call.
fn relayed(
    rt: &(impl Threads + Wait + Sync + Abort + Alloc<A = Global>),
    fails_at: u64,
    capacity: usize,
) -> Result<(Result<u8, Fault>, Vec<u8>), Fail> {
    let alloc = rt.alloc();
    let mut job = read_job(alloc, TWO_SENDERS.as_bytes(), Command::Relay)?;
    let (first, second) = take_two(rt, &mut job.senders);
    let sealer = RefusingSealer::of_sender(alloc, &first, fails_at)?;
    let other = RefusingSealer::of_sender(alloc, &second, 0)?;
    let mut sendings = Vec::new(alloc);
    let mut receivings = Vec::new(alloc);
    push_lane(alloc, &mut sendings, &mut receivings, first, sealer)?;
    push_lane(alloc, &mut sendings, &mut receivings, second, other)?;
    assert!(rt; 0 < capacity && capacity <= 64);
    let mut output = Vec::new(alloc);
    let outcome = relay_job(
        rt,
        alloc,
        sendings,
        receivings,
        capacity,
        &mut output,
        &NoGate,
    );
    Ok((outcome, output))
}

/// The call that is refused, the answer, and the lines that are printed.
static STOPPED: [(u64, Result<u8, Fault>, &str); 4] = [
    (1, Err(Fault::Stopped { lines: 1 }), "lane 1 closed\n"),
    (
        2,
        Err(Fault::Stopped { lines: 2 }),
        "lane 0 text 61\nlane 1 closed\n",
    ),
    (
        3,
        Err(Fault::Stopped { lines: 3 }),
        "lane 0 text 61\nlane 1 closed\nlane 0 text 62\n",
    ),
    (0, Ok(0), TWO_LANES),
];

#[test]
fn outcome_of_each_frame_until_the_fault_is_printed(rt: HostRuntime) -> Result<(), Fail> {
    for (fails_at, answer, text) in STOPPED.iter() {
        for capacity in [1, 64] {
            let (outcome, output) = relayed(&rt, *fails_at, capacity)?;
            assert_same_at(&rt, outcome, *answer, *fails_at);
            let printed = output.as_slice() == text.as_bytes();
            assert_same_at(&rt, printed, true, *fails_at);
        }
    }
    Ok(())
}
