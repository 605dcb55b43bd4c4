//! A sender: its sealer, what it seals, and the plan of its wire.

ghost use Rattle.std.specs.Prelude.{◌≡◌, ◌≢◌, ◌↔◌, ◌≤◌, ◌+◌, ◌∷◌, ◌++◌, [], ℕ, List, length, drop, true, slice_get, Some, IfOk, IfErr, OnOk, OnErr, IsErr, ◌⊎◌, ◌<◌};
ghost use Rattle.krb_base.specs.Limits.{user_data_limit};
ghost use Rattle.krb_seal.specs.Sealer.{SealsNext};
ghost use Rattle.krb_record.specs.Record.{bytes_of, FitsLimits, record_for};
ghost use Rattle.krb_peers.specs.Draws.{confounder_at};
ghost use Rattle.krb_peers.specs.Plan.{contents};
ghost use Rattle.krb_peers.specs.Sender.{Source, AreFrames, records, sealed_groups, sealed_texts};
ghost use Rattle.krb_peers.specs.Moments.{moment_at};
ghost use Rattle.krb_peers.specs.Sender.{group_after, texts_before, record_at};
ghost use Rattle.krb_peers.specs.Verdicts.{AllBytes};
ghost use Rattle.krb_peers.specs.Sending.{source_of, sealed_of, sent_of, before, source_after, IsSender, HasSealed, SealsAll, StandsAfterSome};

use crate::confounder::draw_confounder;
use crate::gate::{Gate, NoGate};
use krb_base::{Bytes, LAST_NUMBER, known_bytes};
use krb_der::Moment;
use krb_record::{Emit, Record, group_bytes, group_end, record_bytes};
use krb_seal::{SealError, Sealer};
use rand_chacha::ChaCha20Rng;
use std::alloc::{AllocError, Global};

/// A sealer and what it is to seal.
///
/// Its limits: a text has at most 1,000,000 bytes, at most 1,000 texts go together, there is at
/// least one timestamp, and the sealer's next number is at most [`LAST_NUMBER`]. With fewer
/// timestamps than records, the last one serves the others. Its drop wipes the sealer where it
/// lies, a boxed one in its box.
pub struct Sending<S: Sealer = Box<dyn Sealer + Send>> {
    /// What seals.
    pub sealer: S,
    /// The texts, in order.
    pub texts: Vec<Bytes>,
    /// How many texts go together in one record at most, 1 to 1,000: with 1, each goes alone. Those
    /// that go together take at most 1,000,000 bytes, for each its length and four.
    pub batch: usize,
    /// The timestamps of the records, in order.
    pub ats: Vec<Moment>,
    /// Where the confounders come from: four words each.
    pub draws: ChaCha20Rng,
    /// What the wire makes of the frames. Without a plan it carries them as they are.
    pub plan: Option<Vec<Emit>>,
}

impl<S: Sealer> Drop for Sending<S> {
    fn drop(self) {
        let Sending {
            mut sealer,
            texts: _,
            batch: _,
            ats: _,
            draws: _,
            plan: _,
        } = self;
        sealer.wipe();
    }
}

/// How much of a sender's texts is sealed.
#[derive(Clone, Copy, Debug, PartialEq, Eq)]
pub struct Sent {
    /// How many texts are sealed.
    pub sealed: usize,
    /// How many texts there are.
    pub texts: usize,
    /// Why no more are sealed.
    pub ending: Ending,
}

/// Why no more texts are sealed.
#[derive(Clone, Copy, Debug, PartialEq, Eq)]
pub enum Ending {
    /// All texts are sealed.
    Done,
    /// The last number is kept for the close.
    LastNumber,
}

/// How much of a sender's texts is sealed.
#[derive(Drop)]
struct Sealed {
    /// How many groups are sealed.
    groups: usize,
    /// How many texts these have.
    texts: usize,
}

impl<S: Sealer> Sending<S> {
    /// What is sealed from the sealer's next number on: the last number is kept for the close.
    fn sealed(&self) -> Sealed
        ensures groups { result.groups ≡ length (sealed_groups (source_of S.state self.now)) }
        ensures texts { result.texts ≡ length (sealed_texts (source_of S.state self.now)) }
    {
        let left = LAST_NUMBER.saturating_sub(self.sealer.next()) as usize;
        let mut groups = 0;
        let mut passed = 0;
        while groups < left && passed < self.texts.len() {
            passed += group_end(self.texts_after(passed), self.batch);
            groups += 1;
        }
        Sealed {
            groups,
            texts: passed,
        }
    }

    /// How many records are sealed: those of the texts, and the close.
    pub fn records(&self) -> usize
        ensures { result ≡ length (records (source_of S.state self.now)) }
    {
        self.sealed().groups + 1
    }

    /// How many texts of how many are sealed.
    pub fn sent(&self) -> Sent
        ensures sent { result ≡ sent_of (source_of S.state self.now) }
        ensures sealed { result.sealed ≡ sealed_of (source_of S.state self.now) }
        ensures count { result.texts ≡ length (source_of S.state self.now).texts }
        ensures done { (result.ending ≡ Ending.Done) ↔ (result.sealed ≡ result.texts) }
    {
        let sealed = self.sealed().texts;
        let texts = self.texts.len();
        let ending = if sealed == texts {
            Ending::Done
        } else {
            Ending::LastNumber
        };
        Sent {
            sealed,
            texts,
            ending,
        }
    }

    /// Seals record `k` at the sealer's next number, under the next four words of `draws`.
    ///
    /// Record 0 is the one at the number `k` before the next: the records are those of a sender who
    /// has sealed `k` of them. Those carried `passed` texts, 0 before the first, and the record's
    /// own are added. The only errors are `Wiped`, if the sealer was wiped, and `Memory`. Each
    /// leaves the sealer as it was, but the generator may have moved.
    pub fn seal_record(
        &mut self,
        alloc: Global,
        k: usize,
        passed: &mut usize,
    ) -> Result<Vec<u8>, SealError>
        requires sender { IsSender (source_of S.state self.old) }
        requires begun { k ≤ (S.state self.old.sealer).next }
        requires there { k < length (records (before k (source_of S.state self.old))) }
        requires passed { passed.old ≡ texts_before k (source_of S.state self.old) }

        ensures sealed { IfOk result (λ frame. (r : Record)
            → slice_get (records (before k (source_of S.state self.old))) k ≡ Some r
            → SealsNext (S.state self.old.sealer) (bytes_of r) (moment_at self.old.ats.items k)
            (confounder_at self.old.draws 0) frame.items) }
        ensures source_after { OnOk result
            (source_of S.state self.new ≡ source_after 1 (source_of S.state self.old)) }

        // Whatever a sender has sealed before, its frames continue as those of its records.
        ensures frames { IfOk result (λ frame. (source : Source) (frames : List (List ℕ))
            → HasSealed source k frames (source_of S.state self.old)
            → HasSealed source (k + 1) (frames ++ frame.items ∷ []) (source_of S.state self.new)) }

        // After it the texts of this record are counted.
        ensures passed { OnOk result
            (passed.new ≡ texts_before (k + 1) (source_of S.state self.old)) }
        ensures stays { OnErr result (passed.new ≡ passed.old) }

        ensures wiped { (S.state self.old.sealer).wiped ≡ true → IsErr result }
        ensures errors { IfErr result (λ e.
            ((e ≡ SealError.Wiped) × ((S.state self.old.sealer).wiped ≡ true))
            ⊎ (e ≡ SealError.Memory)) }
        ensures unchanged { OnErr result (S.state self.new.sealer ≡ S.state self.old.sealer) }
        ensures texts { self.new.texts ≡ self.old.texts }
        ensures batch { self.new.batch ≡ self.old.batch }
        ensures ats { self.new.ats ≡ self.old.ats }
        ensures plan { self.new.plan ≡ self.old.plan }
    {
        let group = self.group_after(*passed);
        let count = group.len();
        let bytes = self.record_at(alloc, group)?;
        let at = self.ats[k.min(self.ats.len() - 1)];
        let confounder = draw_confounder(&mut self.draws);
        let sealed = self.sealer.seal(alloc, &bytes, at, confounder);
        if sealed.is_ok() {
            *passed += count;
        }
        sealed
    }

    /// Seals all records, the close last.
    ///
    /// The errors are those of [`seal_record`](Sending::seal_record). The first one ends it, and
    /// the sealer is then after the records that were sealed until then.
    pub fn seal_all(&mut self, alloc: Global) -> Result<Vec<Vec<u8>>, SealError>
        requires { IsSender (source_of S.state self.old) }
        ensures frames { IfOk result (λ frames. AreFrames (source_of S.state self.old)
            (records (source_of S.state self.old)) (contents frames.items)) }
        ensures bytes { IfOk result (λ frames. AllBytes (contents frames.items)) }
        ensures source_after { OnOk result (source_of S.state self.new ≡ source_after
            (length (records (source_of S.state self.old))) (source_of S.state self.old)) }
        ensures stopped { OnErr result
            (StandsAfterSome (source_of S.state self.old) (S.state self.new.sealer)) }
        ensures wiped { (S.state self.old.sealer).wiped ≡ true → IsErr result }
        ensures errors { IfErr result (λ e.
            ((e ≡ SealError.Wiped) × ((S.state self.old.sealer).wiped ≡ true))
            ⊎ (e ≡ SealError.Memory)) }
        ensures texts { self.new.texts ≡ self.old.texts }
        ensures batch { self.new.batch ≡ self.old.batch }
        ensures ats { self.new.ats ≡ self.old.ats }
        ensures plan { self.new.plan ≡ self.old.plan }
    {
        self.seal_all_within(alloc, &NoGate, 0)
    }

    /// Seals all records of the sender of `lane`, the close last, each seal call within `gate`.
    pub(crate) fn seal_all_within<G: Gate>(
        &mut self,
        alloc: Global,
        gate: &G,
        lane: u32,
    ) -> Result<Vec<Vec<u8>>, SealError>
        requires { IsSender (source_of S.state self.old) }
        ensures { SealsAll S.state self.old self.new result }
    {
        let count = self.records();
        let mut frames = Vec::with_capacity(alloc, count)?;
        let mut passed = 0;
        for k in 0..count {
            gate.enter(lane);
            let sealed = self.seal_record(alloc, k, &mut passed);
            gate.leave(lane);
            let frame = sealed?;
            known_bytes(frame.as_slice());
            frames.push(frame).map_err(AllocError::from)?;
        }
        Ok(frames)
    }

    /// The texts that go together next, after the first `passed` ones: none if none is left.
    fn group_after(&self, passed: usize) -> &[Bytes]
        requires { passed ≤ length self.now.texts.items }
        ensures { result.now ≡ group_after passed (source_of S.state self.now) }
    {
        let rest = self.texts_after(passed);
        if rest.is_empty() {
            return rest;
        }
        rest.split_at(group_end(rest, self.batch)).0
    }

    /// The texts after the first `passed` ones.
    fn texts_after(&self, passed: usize) -> &[Bytes]
        requires { passed ≤ length self.now.texts.items }
        ensures { result.now ≡ drop passed self.now.texts.items }
    {
        self.texts.split_at(passed).1
    }

    /// The bytes of the record that comes at the sealer's next number, if this group is next: the
    /// close if no text is left or the number is the last.
    fn record_at(&self, alloc: Global, group: &[Bytes]) -> Result<Vec<u8>, AllocError>
        requires { group.now ≢ [] → FitsLimits (record_for group.now) }
        ensures bytes { IfOk result (λ bytes.
            bytes.items ≡ bytes_of (record_at (S.state self.now.sealer).next group.now)) }
        ensures short { IfOk result (λ bytes. length bytes.items ≤ user_data_limit) }
    {
        if group.is_empty() || self.sealer.next() >= LAST_NUMBER {
            return record_bytes(alloc, &Record::Close);
        }
        group_bytes(alloc, group)
    }
}
