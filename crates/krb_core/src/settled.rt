//! Receivers that stay where they lie.

ghost use Rattle.std.specs.Prelude.{◌≡◌, ◌<◌, length, IfOk, OnOk, OnErr};
ghost use Rattle.krb_peers.specs.Logged.{noted, IsShut, LogsNext};
ghost use Rattle.krb_peers.specs.Moments.{moment_at};
ghost use Rattle.krb_peers.specs.Receiver.{verdict_by, receiver_after};

use krb_der::HostAddress;
use krb_peers::{Log, Receiver, Receivers, Receiving};
use krb_seal::{Expect, Mode, Opener};
use std::alloc::{AllocError, Global};
use std::marker::Model;
use std::mem;

/// A receiver in a block of its own, in which its keys are overwritten before it is freed. Contracts
/// see the receiver.
pub(crate) struct Settled {
    block: Box<Receiving>,
}

impl Model for Settled {
    ghost use Rattle.std.specs.Prelude.{box_value};
    ghost use Rattle.krb_peers.specs.declared.receiver.Receiving.{Receiving};

    ghost Value = { Receiving };

    ghost view = { λ settled. box_value settled.block };
}

impl Drop for Settled {
    fn drop(self) {
        let Settled { mut block } = self;
        block.receiver.wipe();
    }
}

impl Settled {
    /// Takes the frame of this place, at its timestamp, and enters the outcome in the log.
    ///
    /// Out of memory, which is the only error, changes nothing.
    pub(crate) fn take_into(
        &mut self,
        log: &mut Log,
        alloc: Global,
        lane: u32,
        frame: &[u8],
        place: usize,
    ) -> Result<(), AllocError>
        requires lane { lane < log.old.lanes }
        requires shut { IsShut log.old lane self.old.receiver }
        requires moments { 0 < length self.old.nows.items }
        ensures receiver { OnOk result (self.new.receiver ≡ receiver_after self.old.receiver
            (verdict_by self.old.receiver (moment_at self.old.nows.items place) frame.now)) }
        ensures log { OnOk result (log.new ≡ noted log.old lane
            (verdict_by self.old.receiver (moment_at self.old.nows.items place) frame.now)) }
        ensures logged { OnOk result (LogsNext self.old.receiver log.old lane
            (moment_at self.old.nows.items place) frame.now self.new.receiver log.new) }
        ensures nows { self.new.nows ≡ self.old.nows }
        ensures unchanged { OnErr result (self.new ≡ self.old) }
        ensures unwritten { OnErr result (log.new ≡ log.old) }
    {
        let now = self.block.moment_at(place);
        self.block.receiver.take_into(log, alloc, lane, frame, now)
    }
}

/// The receivers, each in a block of its own. None of their keys is left in their list.
pub(crate) fn settle_all(
    alloc: Global,
    receivings: Vec<Receiving>,
) -> Result<Vec<Settled>, AllocError>
    ensures { IfOk result (λ settled. settled.items ≡ receivings.items) }
{
    let mut receivers = Receivers { items: receivings };
    let mut settled = Vec::with_capacity(alloc, receivers.items.len())?;
    for lane in 0..receivers.items.len() {
        let receiving = mem::replace(&mut receivers.items[lane], blank(alloc)?);
        let block = Box::new(alloc, receiving)?;
        settled.push(Settled { block })?;
    }
    Ok(settled)
}

/// A receiver under a key of zeros, which overwrites another one.
fn blank(alloc: Global) -> Result<Receiving, AllocError> {
    let expect = Expect {
        mode: Mode::Safe,
        s_addr: HostAddress::new(alloc, 0, &[])?,
        r_addr: HostAddress::new(alloc, 0, &[])?,
        require_r: false,
        expect_time: false,
        skew: 0,
    };
    Ok(Receiving {
        receiver: Receiver::new(Opener::new_256(&mut [0; 32], expect), 0),
        nows: Vec::new(alloc),
    })
}
