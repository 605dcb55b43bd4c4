//! Jobs, as the commands use them.

ghost use Rattle.std.specs.Prelude.{◌≡◌, ◌≤◌, ◌<◌, length, IsSome};
ghost use Rattle.std.proofs.Props.{props};
ghost use Rattle.krb_base.specs.Limits.{skew_limit, batch_limit, capacity_limit, lane_limit};
ghost use Rattle.krb_etype.specs.Etype.{key_size};
ghost use Rattle.krb_seal.specs.Session.{IsShortAddress};
ghost use Rattle.krb_job.specs.Limits.{AreShortTexts};
ghost use Rattle.krb_job.specs.SenderKeys.{seals, opens};

use krb_base::{Bytes, Secret};
use krb_der::{HostAddress, Moment};
use krb_record::Emit;
use krb_seal::{Etype, Mode};

/// The commands that read a job.
#[derive(Clone, Copy, Debug, PartialEq, Eq)]
pub enum Command {
    /// Seals the texts of one sender.
    Seal,
    /// Opens the frames of one sender.
    Open,
    /// Relays the texts of one to eight senders.
    Relay,
}

impl Command {
    /// Whether the command seals texts.
    pub(crate) fn seals(self) -> bool
        ensures { result ≡ seals self }
    {
        matches!(self, Command::Seal | Command::Relay)
    }

    /// Whether the command opens the frames of the job.
    pub(crate) fn opens(self) -> bool
        ensures { result ≡ opens self }
    {
        matches!(self, Command::Open)
    }
}

/// One sender of a job. What the command doesn't allow is `None` or empty.
#[derive(Debug, Drop)]
pub struct SenderJob {
    /// The encryption type.
    pub etype: Etype,
    /// The key, with as many bytes as a key of the type has.
    pub key: Secret,
    /// How the texts are protected.
    pub mode: Mode,
    /// The first sequence number.
    pub first: u32,
    /// The sender's address.
    pub from: HostAddress,
    /// The receiver's address.
    pub to: HostAddress,
    /// Whether the messages carry the receiver's address.
    pub write_to: bool,
    /// Whether a message must carry the receiver's address.
    pub require_to: bool,
    /// Whether a message must carry its time.
    pub expect_time: bool,
    /// How many seconds a message's time may be off.
    pub skew: u32,
    /// The seed from which the confounders are drawn.
    pub seed: Option<[u8; 32]>,
    /// When the frames are sealed.
    pub ats: Vec<Moment>,
    /// When the frames are opened.
    pub nows: Vec<Moment>,
    /// The texts that are sealed.
    pub texts: Vec<Bytes>,
    /// How many texts a frame carries at most, 1 to 1,000; 1 by default.
    pub batch: usize,
    /// What is put on the wire; by default each frame once.
    pub plan: Option<Vec<Emit>>,
    /// The frames that are opened.
    pub frames: Vec<Bytes>,
    // Each limit was checked when the job was read.
    pub ghost key_fits: { length key ≡ key_size etype },
    pub ghost from_short: { IsShortAddress from },
    pub ghost to_short: { IsShortAddress to },
    pub ghost skew_fits: { skew ≤ skew_limit },
    pub ghost texts_short: { AreShortTexts texts.items } by { Prim.hlevel props },
    pub ghost has_batch: { 1 ≤ batch },
    pub ghost batch_fits: { batch ≤ batch_limit },
    pub ghost has_nows: { 0 < length nows.items },
    pub ghost has_ats: { IsSome seed → 0 < length ats.items },
}

/// A job.
#[derive(Debug, Drop)]
pub struct Job {
    /// How many items a lane holds, 1 to 64.
    pub capacity: usize,
    /// The senders, 1 to 8 for `relay`, one for the other commands.
    pub senders: Vec<SenderJob>,
    pub ghost capacity_fits: { capacity ≤ capacity_limit },
    pub ghost has_capacity: { 1 ≤ capacity },
    pub ghost senders_fit: { length senders.items ≤ lane_limit },
    pub ghost has_sender: { 1 ≤ length senders.items },
}
