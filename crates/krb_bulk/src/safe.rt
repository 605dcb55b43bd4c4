//! KRB-SAFE, eight at a time.

ghost use Rattle.std.specs.Prelude.{◌≡◌, ◌≤◌, ◌+◌, ◌<◌, ℕ, List, length, IfOk};
ghost use Rattle.krb_etype.specs.Keys.{checksum_key};
ghost use Rattle.krb_keys.specs.BatchMac.{HoldsBatchKey};
ghost use Rattle.krb_seal.specs.declared.session.Mode.TheVariants.{Safe};
ghost use Rattle.krb_bulk.specs.Four.{AreEach, AreFrom};
ghost use Rattle.krb_bulk.specs.BulkInside.{AreSums, HasInputs, HasShortFields, HasSum, IsDraftAt, IsReady, IsSumAt, IsUnsummedAt, LiesIn, PutsInput, SealsAt, input_of};
ghost use Rattle.krb_bulk.specs.declared.bulk.Bulk.{Bulk};

use crate::bulk::Bulk;
use crate::four::{Four, eight_codes};
use crate::unsealed::known_confounder;
use krb_der::{SafeDraft, draft_safe};
use krb_etype::CODE_SIZE;
use krb_keys::BatchMac;
use krb_seal::{put_checksum_input, unsigned, within_limit};
use std::alloc::{AllocError, Global};

/// The bytes of the last field under a checksum, which stands for none (RFC 4120 section 5.6.1).
const NO_CHECKSUM_SIZE: usize = 13;

/// The most bytes under the checksum of a message: those before its checksum, and the field for none.
fn input_size(draft: &SafeDraft) -> usize {
    draft.bytes.len().saturating_add(NO_CHECKSUM_SIZE)
}

/// The most of four messages.
fn input_sizes(drafts: &Four<SafeDraft>) -> usize {
    input_size(&drafts.a)
        .saturating_add(input_size(&drafts.b))
        .saturating_add(input_size(&drafts.c))
        .saturating_add(input_size(&drafts.d))
}

/// A KRB-SAFE that has no checksum yet. The bytes under its checksum (RFC 4120 section 5.6.1) lie in
/// a buffer, which four messages share.
#[derive(Drop)]
pub struct Unsummed {
    draft: SafeDraft,
    /// Where these bytes begin in the buffer.
    start: usize,
    /// Where they end.
    end: usize,
}

impl Unsummed {
    /// That of a draft. The bytes under its checksum are appended to a buffer.
    fn new(draft: SafeDraft, inputs: &mut Vec<u8>) -> Result<Unsummed, AllocError>
        requires { HasShortFields draft }
        ensures { IfOk result (λ u. (b : Bulk) (index : ℕ) → index < length b.messages.now
            → IsDraftAt b index draft
            → PutsInput b index inputs.old.items inputs.new.items u) }
    {
        let start = inputs.len();
        put_checksum_input(inputs, draft.fields())?;
        Ok(Unsummed {
            draft,
            start,
            end: inputs.len(),
        })
    }

    /// The bytes under its checksum.
    fn input<'a>(&self, inputs: &'a [u8]) -> &'a [u8]
        requires { LiesIn inputs.now self.now }
        ensures { result.now ≡ input_of inputs.now self.now }
    {
        &inputs[self.start..self.end]
    }
}

/// Four KRB-SAFE that have no checksums yet, and the buffer with the bytes under these.
#[derive(Drop)]
pub struct FourUnsummed {
    messages: Four<Unsummed>,
    inputs: Vec<u8>,
}

impl FourUnsummed {
    /// Those of four drafts.
    fn new(alloc: Global, drafts: Four<SafeDraft>) -> Result<FourUnsummed, AllocError>
        requires { AreEach HasShortFields drafts }
        ensures { IfOk result (λ four. (b : Bulk) (from : ℕ) → from + 4 ≤ length b.messages.now
            → AreFrom (IsDraftAt b) from drafts → HasInputs b from four) }
    {
        let mut inputs = Vec::with_capacity(alloc, input_sizes(&drafts))?;
        let Four { a, b, c, d } = drafts;
        let messages = Four {
            a: Unsummed::new(a, &mut inputs)?,
            b: Unsummed::new(b, &mut inputs)?,
            c: Unsummed::new(c, &mut inputs)?,
            d: Unsummed::new(d, &mut inputs)?,
        };
        Ok(FourUnsummed { messages, inputs })
    }
}

/// The checksums of eight messages, side by side.
fn eight_sums(
    mac: &BatchMac,
    first: &FourUnsummed,
    second: &FourUnsummed,
) -> (Four<[u8; CODE_SIZE]>, Four<[u8; CODE_SIZE]>)
    requires first { AreEach (LiesIn first.now.inputs.items) first.now.messages }
    requires second { AreEach (LiesIn second.now.inputs.items) second.now.messages }
    ensures first { (key : List ℕ) → HoldsBatchKey mac.now (checksum_key key)
        → AreSums key first.now.inputs.items first.now.messages result.0 }
    ensures second { (key : List ℕ) → HoldsBatchKey mac.now (checksum_key key)
        → AreSums key second.now.inputs.items second.now.messages result.1 }
{
    let (one, two) = (first.inputs.as_slice(), second.inputs.as_slice());
    let sums = mac.hmac96(&[
        first.messages.a.input(one),
        first.messages.b.input(one),
        first.messages.c.input(one),
        first.messages.d.input(one),
        second.messages.a.input(two),
        second.messages.b.input(two),
        second.messages.c.input(two),
        second.messages.d.input(two),
    ]);
    eight_codes(&sums)
}

impl Bulk<'_, '_, '_> {
    /// The KRB-SAFE of the message with this index, which has no checksum yet.
    fn draft(&self, alloc: Global, index: usize) -> Result<SafeDraft, AllocError>
        requires ready { IsReady self.now }
        requires index { index < length self.now.messages.now }
        ensures { IfOk result (IsDraftAt self.now index) }
    {
        known_confounder(&self.messages[index].confounder);
        let message = unsigned(self.parts.etype, self.body(index));
        within_limit(draft_safe(alloc, &message, CODE_SIZE))
    }

    /// Those of four messages from this index on.
    fn four_drafts(&self, alloc: Global, from: usize) -> Result<Four<SafeDraft>, AllocError>
        requires ready { IsReady self.now }
        requires from { from + 4 ≤ length self.now.messages.now }
        ensures { IfOk result (AreFrom (IsDraftAt self.now) from) }
    {
        Ok(Four {
            a: self.draft(alloc, from)?,
            b: self.draft(alloc, from + 1)?,
            c: self.draft(alloc, from + 2)?,
            d: self.draft(alloc, from + 3)?,
        })
    }

    /// The same with what is under their checksums.
    fn four_unsummed(&self, alloc: Global, from: usize) -> Result<FourUnsummed, AllocError>
        requires ready { IsReady self.now }
        requires from { from + 4 ≤ length self.now.messages.now }
        ensures { IfOk result (HasInputs self.now from) }
    {
        let drafts = self.four_drafts(alloc, from)?;
        FourUnsummed::new(alloc, drafts)
    }

    /// The frame of a message with this checksum.
    fn summed(&self, message: Unsummed, sum: &[u8; CODE_SIZE]) -> Result<Vec<u8>, AllocError>
        ensures { IfOk result (λ v. HasSum self.now.parts.etype message sum.now v.items) }
    {
        message
            .draft
            .with_checksum(self.parts.etype.checksum_number(), sum)
    }

    /// The frames of four messages from this index on, with their checksums.
    fn four_summed(
        &self,
        from: usize,
        messages: Four<Unsummed>,
        sums: &Four<[u8; CODE_SIZE]>,
    ) -> Result<Four<Vec<u8>>, AllocError>
        requires ready { IsReady self.now }
        requires mode { self.now.parts.session.now.mode ≡ Safe }
        requires from { from + 4 ≤ length self.now.messages.now }
        requires messages { AreFrom (IsUnsummedAt self.now) from messages }
        requires sums { AreFrom (IsSumAt self.now) from sums.now }
        ensures { IfOk result (AreFrom (λ k v. SealsAt self.now k v.items) from) }
    {
        let Four { a, b, c, d } = messages;
        Ok(Four {
            a: self.summed(a, &sums.a)?,
            b: self.summed(b, &sums.b)?,
            c: self.summed(c, &sums.c)?,
            d: self.summed(d, &sums.d)?,
        })
    }

    /// The frames of eight messages from this index on.
    pub fn eight_safe(
        &self,
        alloc: Global,
        mac: &BatchMac,
        from: usize,
    ) -> Result<(Four<Vec<u8>>, Four<Vec<u8>>), AllocError>
        requires ready { IsReady self.now }
        requires mode { self.now.parts.session.now.mode ≡ Safe }
        requires from { from + 8 ≤ length self.now.messages.now }
        requires mac { HoldsBatchKey mac.now (checksum_key self.now.parts.keys.now.key) }
        ensures first { IfOk result (λ r. AreFrom (λ k v. SealsAt self.now k v.items) from r.0) }
        ensures second { IfOk result (λ r.
            AreFrom (λ k v. SealsAt self.now k v.items) (from + 4) r.1) }
    {
        let first = self.four_unsummed(alloc, from)?;
        let second = self.four_unsummed(alloc, from + 4)?;
        let (sums, others) = eight_sums(mac, &first, &second);
        let first = self.four_summed(from, first.messages, &sums)?;
        let second = self.four_summed(from + 4, second.messages, &others)?;
        Ok((first, second))
    }
}
