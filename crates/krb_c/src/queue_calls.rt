//! What C calls of a queue of sessions. A handle of zeros is one in which none waits.

ghost use Rattle.std.specs.Prelude.{◌≡◌, ◌↔◌, ◌++◌, ◌≤◌, [], None, length, IfSome};
ghost use Rattle.krb_c.specs.Queue.{out_of_memory, served, waiting};
ghost use Rattle.krb_engine.specs.Queue.{with_session};

use crate::handle::Handle;
use crate::held_queue::HeldQueue;
use crate::queue_handle::KrbQueue;
use krb_engine::Queue;
use krb_seal::Refusal;
use krb_structs::Fault;
use std::alloc::Global;

/// The session has something to do: it waits last, or where it waits already. If memory runs out, the queue
/// is as it was.
#[unsafe(no_mangle)]
pub extern "C" fn krbrelay_queue_ready(alloc: Global, handle: &mut KrbQueue, session: u32) -> u32
    ensures ready { result ≡ 0
        → waiting handle.new.queue ≡ with_session (waiting handle.old.queue) session }
    ensures memory { ¬ (result ≡ 0) → result ≡ out_of_memory }
    ensures kept { ¬ (result ≡ 0) → waiting handle.new.queue ≡ waiting handle.old.queue }
{
    let Some(mut held) = held_or_new(alloc, handle) else {
        return Fault::Refused(Refusal::Memory).code();
    };
    let made = held.queue.ready(session);
    handle.put(alloc, held);
    match made {
        Ok(()) => 0,
        Err(_) => Fault::Refused(Refusal::Memory).code(),
    }
}

/// Takes the queue, or makes one, if there is memory.
fn held_or_new(alloc: Global, handle: &mut KrbQueue) -> Option<Box<HeldQueue>>
    ensures held { IfSome result (λ held. held.value.queue ≡ waiting handle.old.queue) }
    ensures kept { result ≡ None → waiting handle.new.queue ≡ waiting handle.old.queue }
{
    if let Some(held) = handle.take(alloc) {
        return Some(held);
    }
    let queue = Queue::new(alloc);
    match Box::new(alloc, HeldQueue { queue }) {
        Ok(held) => Some(held),
        Err(_) => None,
    }
}

/// Tells the session that is served next, which waits no longer, and answers 1; or answers 0, if none waits.
#[unsafe(no_mangle)]
pub extern "C" fn krbrelay_queue_serve(
    alloc: Global,
    handle: &mut KrbQueue,
    session: &mut u32,
) -> u32
    ensures served { waiting handle.old.queue ≡ served result session.new ++ waiting handle.new.queue }
    ensures or_not { result ≤ 1 }
    ensures untold { result ≡ 0 → session.new ≡ session.old }
    ensures none { result ≡ 0 ↔ (waiting handle.old.queue ≡ []) }
{
    let Some(mut held) = handle.take(alloc) else {
        return 0;
    };
    let first = held.queue.serve();
    handle.put(alloc, held);
    let Some(first) = first else {
        return 0;
    };
    *session = first;
    1
}

/// How many sessions wait.
#[unsafe(no_mangle)]
pub extern "C" fn krbrelay_queue_len(alloc: Global, handle: &mut KrbQueue) -> usize
    ensures value { result ≡ length (waiting handle.old.queue) }
    ensures kept { handle.new.queue ≡ handle.old.queue }
{
    let Some(held) = handle.take(alloc) else {
        return 0;
    };
    let len = held.queue.len();
    handle.put(alloc, held);
    len
}

/// Frees the queue. The handle holds nothing then.
#[unsafe(no_mangle)]
pub extern "C" fn krbrelay_queue_free(alloc: Global, handle: &mut KrbQueue)
    ensures { handle.new.queue ≡ None }
{
    handle.clear(alloc);
}
