//! KRB-PRIV, four and eight at a time.

ghost use Rattle.std.specs.Prelude.{◌≡◌, ◌≤◌, ◌+◌, ◌<◌, ◌++◌, ℕ, List, length, drop, IfOk};
ghost use Rattle.krb_etype.specs.HeldKeys.{IsEnciphering};
ghost use Rattle.krb_etype.specs.Keys.{integrity_key};
ghost use Rattle.krb_keys.specs.BatchMac.{HoldsBatchKey};
ghost use Rattle.krb_seal.specs.declared.session.Mode.TheVariants.{Priv};
ghost use Rattle.krb_bulk.specs.Four.{AreBoth, AreEach, AreFrom};
ghost use Rattle.krb_bulk.specs.BulkInside.{AreTags, Enciphers, IsLong, IsPlainAt, IsReady, SealsAt};

use crate::bulk::Bulk;
use crate::four::{Four, eight_codes};
use crate::unsealed::known_confounder;
use krb_base::{Secret, known_bytes};
use krb_der::{Draft, draft_priv};
use krb_etype::{CODE_SIZE, Keys};
use krb_keys::BatchMac;
use krb_seal::{unenciphered, within_limit};
use std::alloc::{AllocError, Global};

/// A KRB-PRIV whose part isn't enciphered yet. All its bytes are overwritten if it is dropped.
#[derive(Drop)]
pub struct Plain {
    bytes: Secret,
    /// Where its cipher begins.
    start: usize,
}

impl Plain {
    /// The text that is enciphered.
    fn text(&self) -> &[u8]
        requires { self.now.start ≤ length self.now.bytes }
        ensures { result.now ≡ drop self.now.start self.now.bytes }
    {
        &self.bytes.as_slice()[self.start..]
    }
}

/// Enciphers four texts in their places, side by side.
fn enciphered(alloc: Global, keys: &Keys, plain: Four<Plain>) -> Four<Vec<u8>>
    requires keys { IsEnciphering keys.now }
    requires long { AreEach IsLong plain }
    ensures { AreBoth (λ p v. Enciphers keys.now.key p v.items) plain result }
{
    let (a_start, b_start, c_start, d_start) = (
        plain.a.start,
        plain.b.start,
        plain.c.start,
        plain.d.start,
    );
    let mut a = plain.a.bytes.into_vec(alloc);
    let mut b = plain.b.bytes.into_vec(alloc);
    let mut c = plain.c.bytes.into_vec(alloc);
    let mut d = plain.d.bytes.into_vec(alloc);
    known_bytes(&a[a_start..]);
    known_bytes(&b[b_start..]);
    known_bytes(&c[c_start..]);
    known_bytes(&d[d_start..]);
    keys.encipher_four(
        &mut a[a_start..],
        &mut b[b_start..],
        &mut c[c_start..],
        &mut d[d_start..],
    );
    Four { a, b, c, d }
}

/// Appends a code.
fn with_tag(mut bytes: Vec<u8>, tag: &[u8; CODE_SIZE]) -> Result<Vec<u8>, AllocError>
    ensures { IfOk result (λ v. v.items ≡ bytes.items ++ tag.now) }
{
    bytes.extend_from_slice(tag)?;
    Ok(bytes)
}

/// The codes of four texts.
fn tags(keys: &Keys, plain: &Four<Plain>) -> Four<[u8; CODE_SIZE]>
    requires keys { IsEnciphering keys.now }
    requires long { AreEach IsLong plain.now }
    ensures { AreTags keys.now.key plain.now result }
{
    Four {
        a: keys.tag(plain.a.text()),
        b: keys.tag(plain.b.text()),
        c: keys.tag(plain.c.text()),
        d: keys.tag(plain.d.text()),
    }
}

/// The codes of eight texts, side by side.
fn eight_tags(
    mac: &BatchMac,
    first: &Four<Plain>,
    second: &Four<Plain>,
) -> (Four<[u8; CODE_SIZE]>, Four<[u8; CODE_SIZE]>)
    requires first { AreEach IsLong first.now }
    requires second { AreEach IsLong second.now }
    ensures first { (key : List ℕ) → HoldsBatchKey mac.now (integrity_key key)
        → AreTags key first.now result.0 }
    ensures second { (key : List ℕ) → HoldsBatchKey mac.now (integrity_key key)
        → AreTags key second.now result.1 }
{
    let tags = mac.hmac96(&[
        first.a.text(),
        first.b.text(),
        first.c.text(),
        first.d.text(),
        second.a.text(),
        second.b.text(),
        second.c.text(),
        second.d.text(),
    ]);
    eight_codes(&tags)
}

impl Bulk<'_, '_, '_> {
    /// The KRB-PRIV of the message with this index, whose part isn't enciphered yet.
    fn plain(&self, alloc: Global, index: usize) -> Result<Plain, AllocError>
        requires ready { IsReady self.now }
        requires index { index < length self.now.messages.now }
        ensures { IfOk result (IsPlainAt self.now index) }
    {
        let message = unenciphered(alloc, self.parts.etype);
        let body = self.body(index);
        let confounder = &self.messages[index].confounder;
        known_confounder(confounder);
        let draft = within_limit(draft_priv(alloc, &message, confounder, &body, CODE_SIZE))?;
        let Draft { bytes, start } = draft;
        Ok(Plain {
            bytes: Secret::new(bytes),
            start,
        })
    }

    /// Those of four messages from this index on.
    fn four_plain(&self, alloc: Global, from: usize) -> Result<Four<Plain>, AllocError>
        requires ready { IsReady self.now }
        requires from { from + 4 ≤ length self.now.messages.now }
        ensures { IfOk result (AreFrom (IsPlainAt self.now) from) }
    {
        let a = self.plain(alloc, from)?;
        let b = self.plain(alloc, from + 1)?;
        let c = self.plain(alloc, from + 2)?;
        let d = self.plain(alloc, from + 3)?;
        Ok(Four { a, b, c, d })
    }
}

impl Bulk<'_, '_, '_> {
    /// The frames of four messages from this index on, from their texts and codes.
    fn four_sealed(
        &self,
        alloc: Global,
        from: usize,
        plain: Four<Plain>,
        tags: &Four<[u8; CODE_SIZE]>,
    ) -> Result<Four<Vec<u8>>, AllocError>
        requires ready { IsReady self.now }
        requires mode { self.now.parts.session.now.mode ≡ Priv }
        requires from { from + 4 ≤ length self.now.messages.now }
        requires plain { AreFrom (IsPlainAt self.now) from plain }
        requires tags { AreTags self.now.parts.keys.now.key plain tags.now }
        ensures { IfOk result (AreFrom (λ k v. SealsAt self.now k v.items) from) }
    {
        let Four { a, b, c, d } = enciphered(alloc, self.parts.keys, plain);
        Ok(Four {
            a: with_tag(a, &tags.a)?,
            b: with_tag(b, &tags.b)?,
            c: with_tag(c, &tags.c)?,
            d: with_tag(d, &tags.d)?,
        })
    }

    /// The frames of four messages from this index on.
    pub fn four_private(&self, alloc: Global, from: usize) -> Result<Four<Vec<u8>>, AllocError>
        requires ready { IsReady self.now }
        requires mode { self.now.parts.session.now.mode ≡ Priv }
        requires from { from + 4 ≤ length self.now.messages.now }
        ensures { IfOk result (AreFrom (λ k v. SealsAt self.now k v.items) from) }
    {
        let plain = self.four_plain(alloc, from)?;
        let tags = tags(self.parts.keys, &plain);
        self.four_sealed(alloc, from, plain, &tags)
    }

    /// The frames of eight messages from this index on.
    pub fn eight_private(
        &self,
        alloc: Global,
        mac: &BatchMac,
        from: usize,
    ) -> Result<(Four<Vec<u8>>, Four<Vec<u8>>), AllocError>
        requires ready { IsReady self.now }
        requires mode { self.now.parts.session.now.mode ≡ Priv }
        requires from { from + 8 ≤ length self.now.messages.now }
        requires mac { HoldsBatchKey mac.now (integrity_key self.now.parts.keys.now.key) }
        ensures first { IfOk result (λ r. AreFrom (λ k v. SealsAt self.now k v.items) from r.0) }
        ensures second { IfOk result (λ r.
            AreFrom (λ k v. SealsAt self.now k v.items) (from + 4) r.1) }
    {
        let first = self.four_plain(alloc, from)?;
        let second = self.four_plain(alloc, from + 4)?;
        let (tags, others) = eight_tags(mac, &first, &second);
        let first = self.four_sealed(alloc, from, first, &tags)?;
        let second = self.four_sealed(alloc, from + 4, second, &others)?;
        Ok((first, second))
    }
}
