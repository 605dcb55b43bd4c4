//! The two ends of lanes: senders of few texts, and their receivers.

ghost use Rattle.std.specs.Prelude.{◌≡◌, length, IfOk};
ghost use Rattle.krb_seal.specs.Session.{IsShortAddress};

use crate::relay_asserts::{assert_receivers, assert_senders};
use crate::watch::{Odd, OddSealer, Watch};
use krb_base::Bytes;
use krb_core::{StartError, Stepped};
use krb_der::{HostAddress, Moment};
use krb_peers::{Emit, Receiver, Receiving, Sending};
use krb_relay::{Fault, Report, relay};
use krb_seal::{Expect, Mode, Opener, Sealer, Session, SessionKey, SessionSealer};
use rand_chacha::ChaCha20Rng;
use rand_core::SeedableRng;
use std::alloc::{AllocError, Global};
use std::process::Abort;
use std::sync::Wait;
use std::test::Fail;
use std::thread::Threads;

/// 2023-11-14T22:13:20Z and 5 microseconds.
const MICROS: u64 = 1_700_000_000_000_005;

fn moment() -> Result<Moment, Fail> {
    Ok(Moment::from_micros(MICROS).ok_or("past the year 9999")?)
}

/// The key of each sender of encryption type 18, or else 17.
fn key(long: bool) -> SessionKey {
    if long {
        SessionKey::new_256(&mut [0x11; 32])
    } else {
        SessionKey::new_128(&mut [0, 1, 2, 3, 4, 5, 6, 7, 8, 9, 10, 11, 12, 13, 14, 15])
    }
}

/// The address 10.0.0.`host`.
fn address(alloc: Global, host: u8) -> Result<HostAddress, AllocError>
    ensures { IfOk result IsShortAddress }
{
    Ok(HostAddress {
        kind: 2,
        bytes: Bytes::new(Vec::from_slice(alloc, &[10, 0, 0, host])?),
    })
}

/// A receiver of 10.0.0.`host` that demands the number 7.
fn receiver(alloc: Global, long: bool, mode: Mode, host: u8) -> Result<Receiver, AllocError> {
    let expect = Expect {
        mode,
        s_addr: address(alloc, host)?,
        r_addr: address(alloc, 255)?,
        require_r: false,
        expect_time: true,
        skew: 300,
    };
    Ok(Receiver::new(Opener::new(key(long), expect), 7))
}

/// A sealer of 10.0.0.`host` from number 7 on, which is odd.
fn sealer(
    alloc: Global,
    long: bool,
    mode: Mode,
    odd: Odd,
    gate: &Watch,
    host: u8,
) -> Result<Box<dyn Sealer + Send>, Fail> {
    let session = Session {
        mode,
        s_addr: address(alloc, host)?,
        r_addr: None,
        first: 7,
    };
    let inner = SessionSealer::new(key(long), session);
    let counts = gate.lanes.get(host as usize).ok_or("no lane")?;
    Ok(Box::new(alloc, OddSealer::new(inner, odd, counts)?)?)
}

/// Texts, each of `size` times one of these bytes.
fn texts_of(alloc: Global, bytes: &[u8], size: usize) -> Result<Vec<Bytes>, AllocError> {
    let mut all = Vec::with_capacity(alloc, bytes.len())?;
    for byte in bytes {
        all.push(Bytes::new(Vec::from_elem(alloc, *byte, size)?))?;
    }
    Ok(all)
}

/// One end and the other of each lane.
#[derive(Drop)]
pub(crate) struct Lanes {
    pub(crate) sendings: Vec<Sending>,
    receivings: Vec<Receiving>,
}

impl Lanes {
    pub(crate) fn new(alloc: Global) -> Lanes {
        Lanes {
            sendings: Vec::new(alloc),
            receivings: Vec::new(alloc),
        }
    }

    /// Adds a lane whose sender has these texts, each of one byte, so many together at most, with
    /// encryption type 18 where `long`, else 17.
    pub(crate) fn add(
        &mut self,
        alloc: Global,
        gate: &Watch,
        long: bool,
        odd: Odd,
        texts: &[u8],
        batch: usize,
    ) -> Result<(), Fail> {
        let all = texts_of(alloc, texts, 1)?;
        self.add_texts(alloc, gate, long, odd, all, batch)
    }

    /// The same of texts of `size` times the same byte, each in a record of its own.
    pub(crate) fn add_long(
        &mut self,
        alloc: Global,
        gate: &Watch,
        long: bool,
        odd: Odd,
        texts: &[u8],
        size: usize,
    ) -> Result<(), Fail> {
        let all = texts_of(alloc, texts, size)?;
        self.add_texts(alloc, gate, long, odd, all, 1)
    }

    fn add_texts(
        &mut self,
        alloc: Global,
        gate: &Watch,
        long: bool,
        odd: Odd,
        texts: Vec<Bytes>,
        batch: usize,
    ) -> Result<(), Fail> {
        let mode = if long { Mode::Priv } else { Mode::Safe };
        let host = (self.sendings.len() % 8) as u8;
        self.sendings.push(Sending {
            sealer: sealer(alloc, long, mode, odd, gate, host)?,
            texts,
            batch,
            ats: vec![in alloc; moment()?]?,
            draws: ChaCha20Rng::from_seed([0; 32]),
            plan: None,
        })?;
        self.receivings.push(Receiving {
            receiver: receiver(alloc, long, mode, host)?,
            nows: vec![in alloc; moment()?]?,
        })?;
        Ok(())
    }

    /// Gives the last sender a plan: these frames.
    pub(crate) fn plan(&mut self, alloc: Global, numbers: &[usize]) -> Result<(), AllocError> {
        let mut plan = Vec::with_capacity(alloc, numbers.len())?;
        for number in numbers {
            plan.push(Emit::Frame(*number)).map_err(AllocError::from)?;
        }
        if let Some(last) = self.sendings.last_mut() {
            last.plan = Some(plan);
        }
        Ok(())
    }

    /// The stepped relay of these lanes.
    pub(crate) fn begin(
        self,
        rt: &impl Abort,
        alloc: Global,
        capacity: usize,
    ) -> Result<Stepped, StartError>
        ensures { IfOk result (λ stepped. length stepped.tracks ≡ length self.sendings.items) }
    {
        let Lanes {
            sendings,
            receivings,
        } = self;
        assert!(rt; 1 <= sendings.len() && sendings.len() <= 8);
        assert!(rt; sendings.len() == receivings.len());
        assert_senders(rt, sendings.as_slice());
        assert_receivers(rt, receivings.as_slice());
        Stepped::new(alloc, sendings, receivings, capacity)
    }

    /// Relays these lanes on threads, each with room for so many items.
    pub(crate) fn run<R: Threads + Wait + Abort + Sync>(
        self,
        rt: &R,
        alloc: Global,
        capacity: usize,
        gate: &Watch,
    ) -> Result<Report, Fault> {
        let Lanes {
            sendings,
            receivings,
        } = self;
        assert!(rt; 1 <= sendings.len() && sendings.len() <= 8);
        assert!(rt; sendings.len() == receivings.len());
        assert!(rt; 0 < capacity && capacity <= 64);
        assert_senders(rt, sendings.as_slice());
        assert_receivers(rt, receivings.as_slice());
        relay(rt, alloc, sendings, receivings, capacity, gate)
    }
}
