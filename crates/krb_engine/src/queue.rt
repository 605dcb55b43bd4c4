//! The sessions that have something to do, in the order in which they are served.

ghost use Rattle.std.specs.Prelude.{◌≡◌, ◌++◌, ◌↔◌, ◌≤◌, [], length, vec_len, IfOk, IsNone, IsTrue, IsSome, OnErr, OnOk, option_to_list};
ghost use Rattle.krb_engine.specs.Queue.{SameMarks, with_session};
ghost use Rattle.krb_engine.specs.QueueLaws.{EachWaitsOnce, NoneIsLost, NoneOvertakes, ServedInTurn};

use std::alloc::{AllocError, Global};
use std::collections::VecDeque;
use std::marker::Model;

/// Sessions that wait for a service, each once, in the order in which they came. A session is its place
/// in its owner's table.
#[derive(Drop)]
pub struct Queue {
    order: VecDeque<u32>,
    // by session: whether it waits
    waits: Vec<bool>,
}

impl Model for Queue {
    ghost use Rattle.std.specs.Prelude.{List, ℕ};
    ghost use Rattle.krb_engine.specs.Queue.{IsMarked};

    ghost Value = { List ℕ };

    ghost view = { λ queue. queue.order.items };

    ghost invariant = { λ queue. IsMarked queue.order.items queue.waits.items };
}

impl Queue {
    /// A queue in which none waits.
    pub fn new(alloc: Global) -> Queue
        ensures { result ≡ [] }
    {
        Queue {
            order: VecDeque::new(alloc),
            waits: Vec::new(alloc),
        }
    }

    /// How many sessions wait.
    pub fn len(&self) -> usize
        ensures { result ≡ length self.now }
    {
        self.order.len()
    }

    /// Whether none waits.
    pub fn is_empty(&self) -> bool
        ensures { IsTrue result ↔ (self.now ≡ []) }
    {
        self.order.is_empty()
    }

    /// The session has something to do: it waits last, or where it waits already. If memory
    /// runs out, the queue is as it was.
    pub fn ready(&mut self, session: u32) -> Result<(), AllocError>
        ensures ok { OnOk result (self.new ≡ with_session self.old session) }
        ensures err { OnErr result (self.new ≡ self.old) }
    {
        make_room(&mut self.waits, session as usize + 1)?;
        if self.waits[session as usize] {
            return Ok(());
        }
        self.order.push_back(session)?;
        self.waits[session as usize] = true;
        Ok(())
    }

    /// The session that is served next: it waits no longer.
    pub fn serve(&mut self) -> Option<u32>
        ensures first { self.old ≡ option_to_list result ++ self.new }
        ensures none { IsNone result ↔ (self.old ≡ []) }
    {
        let session = self.order.pop_front()?;
        self.waits[session as usize] = false;
        Some(session)
    }
}

/// Makes room for so many marks: each new one says that its session doesn't wait.
fn make_room(marks: &mut Vec<bool>, count: usize) -> Result<(), AllocError>
    ensures room { OnOk result (count ≤ vec_len marks.new) }
    ensures same { SameMarks marks.old.items marks.new.items }
{
    if marks.len() < count {
        marks.resize(count, false)?;
    }
    Ok(())
}

/// What a queue does, whatever sessions are ready and whenever they are served.
///
/// A session that waits behind so many others is the one that is served after exactly so many services,
/// whatever becomes ready meanwhile (`in_turn`). Each waits once, so those before it are as many different
/// sessions (`once`), and none of them is served twice before it (`overtakes`). A session that waits is
/// served, or still waits (`lost`).
pub fn queue_laws()
    ensures in_turn { ServedInTurn }
    ensures once { EachWaitsOnce }
    ensures overtakes { NoneOvertakes }
    ensures lost { NoneIsLost }
{}
