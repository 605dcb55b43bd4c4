//! The encrypted part of KRB-PRIV (RFC 4120 section 5.7.1).

ghost use Rattle.std.specs.Prelude.{◌≡◌, ◌<◌, ◌≤◌, ◌++◌, ◌-◌, ℕ, length, get_or, take, drop, Err, None, IfNone, IfOk, IfSome, OnOk, OnErr, MatchResult};
ghost use Rattle.krb_base.specs.Limits.{frame_limit};
ghost use Rattle.krb_time.specs.Time.{IsSecond};
ghost use Rattle.krb_der.specs.declared.body.Body.{Body as BodyValue};
ghost use Rattle.krb_der.specs.declared.error.DerError.TheVariants.{Memory};
ghost use Rattle.krb_der.specs.Body.{InRange, IsBody, part};
ghost use Rattle.krb_der.specs.Message.{Decodes, Encodes, SpellsPart};
ghost use Rattle.krb_tlv.specs.Reading.{Finds};
ghost use Rattle.krb_der.specs.Reading.{EndsWith, Gives, after_of, part_of};
ghost use Rattle.krb_der.specs.Size.{HasAddressesWithinLimit, HasPartSize};
ghost use Rattle.krb_der.specs.Writing.{IsShortBody};

use crate::body::{Body, BodyRef};
use crate::body_reading::{read_after, read_body, split_data};
use crate::error::DerError;
use crate::tag;
use krb_base::{FRAME_LIMIT, Secret, known_bytes};
use krb_tlv::{Writer, only_element, size_around};
use std::alloc::{AllocError, Global};

impl<'a> BodyRef<'a> {
    /// How many bytes its spelling as an encrypted part has with so many bytes of data in place of
    /// its own: so a size is known before there are data.
    pub fn part_size_with(&self, len: usize) -> usize
        requires limit { len ≤ frame_limit }
        requires addresses { HasAddressesWithinLimit self.now }
        requires range { InRange self.now }
        ensures { HasPartSize self.now len result }
    {
        size_around(self.size_with(len))
    }

    /// How many bytes its spelling as an encrypted part has.
    fn part_size(&self) -> usize
        requires short { IsShortBody self.now }
        requires time { IfSome self.now.time IsSecond }
        ensures { result ≡ length (part self.now) }
    {
        size_around(self.size())
    }

    /// The same, if it is within the limit.
    pub(crate) fn limited_part_size(&self) -> Result<usize, DerError>
        requires { InRange self.now }
        ensures value { IfOk result (λ size. size ≡ length (part self.now)) }
        ensures limit { IfOk result (λ size. size ≤ frame_limit) }
        ensures short { OnOk result (IsShortBody self.now) }
        ensures body { OnOk result (IsBody self.now) }
        ensures too_long { OnErr result (frame_limit < length (part self.now)) }
        ensures err { OnErr result (result ≡ Err DerError.TooLong) }
    {
        self.known();
        if !self.is_short() {
            return Err(DerError::TooLong);
        }
        let size = self.part_size();
        if size > FRAME_LIMIT {
            return Err(DerError::TooLong);
        }
        Ok(size)
    }

    /// Adds its spelling as an encrypted part.
    pub(crate) fn write_part(&self, out: &mut Writer) -> Result<(), AllocError>
        requires short { IsShortBody self.now }
        requires time { IfSome self.now.time IsSecond }
        ensures { OnOk result (out.new ≡ out.old ++ part self.now) }
    {
        self.write_in(out, tag::ENC_KRB_PRIV_PART, self.fields_size())
    }

    /// Its spelling as an encrypted part, in a `Vec` with room for so many bytes.
    fn part_spelling(&self, alloc: Global, room: usize) -> Result<Vec<u8>, AllocError>
        requires short { IsShortBody self.now }
        requires time { IfSome self.now.time IsSecond }
        ensures { IfOk result (λ v. v.items ≡ part self.now) }
    {
        let mut out = Writer::with_capacity(alloc, room)?;
        self.write_part(&mut out)?;
        Ok(out.into_vec())
    }
}

/// The spelling of the body as the encrypted part of KRB-PRIV (RFC 4120 section 5.7.1).
///
/// [`DerError::TooLong`] is returned if and only if it has over 1,005,000 bytes, before any
/// allocation.
pub fn encode_part(alloc: Global, b: &Body) -> Result<Vec<u8>, DerError>
    requires { InRange b.now }
    ensures { Encodes SpellsPart part b.now result }
{
    let b = b.borrowed();
    let size = b.limited_part_size()?;
    Ok(b.part_spelling(alloc, size)?)
}

/// The data of the body that the bytes spell as an encrypted part, and the fields after them, which
/// are the last of the bytes.
#[tactic(auto, unfolding(crate::specs::Reading::part_of))]
fn split_part(bytes: &[u8]) -> Option<(&[u8], &[u8])>
    ensures fields { IfSome result (λ x. part_of bytes.now ≡ after_of x.0.now x.1.now) }
    ensures none { IfNone result (part_of bytes.now ≡ None) }
    ensures place { IfSome result (λ x. EndsWith (x.0.now ++ x.1.now) bytes.now) }
{
    split_data(only_element(tag::ENC_KRB_PRIV_PART, bytes)?)
}

#[tactic(auto, unfolding(crate::specs::Reading::part_of))]
fn part_in(bytes: &[u8]) -> Option<BodyRef<'_>>
    ensures { Finds (λ x. x) result (part_of bytes.now) }
{
    read_body(only_element(tag::ENC_KRB_PRIV_PART, bytes)?)
}

fn read_part(alloc: Global, bytes: &[u8]) -> Result<Body, DerError>
    ensures { Gives (λ x. x) result (part_of bytes.now) }
{
    match part_in(bytes) {
        Some(found) => Ok(found.to_owned(alloc)?),
        None => Err(DerError::Malformed),
    }
}

/// The body that the bytes spell as the encrypted part of KRB-PRIV.
///
/// [`DerError::TooLong`] is returned if and only if there are over 1,005,000 bytes, and
/// [`DerError::Malformed`] if and only if there are no more and they spell nothing. So
/// [`DerError::Memory`] is returned only if they spell a body. A body that is read is in range.
pub fn decode_part(alloc: Global, bytes: &[u8]) -> Result<Body, DerError>
    ensures answer { Decodes SpellsPart result bytes.now }
    ensures only { (b : BodyValue) → SpellsPart b bytes.now
        → MatchResult result (λ v. v ≡ b) (λ e. e ≡ Memory) }
{
    if bytes.len() > FRAME_LIMIT {
        return Err(DerError::TooLong);
    }
    read_part(alloc, bytes)
}

/// The same as `read_part` of the bytes from `start` on; its data stay where they lie in the bytes'
/// block, and the block is overwritten if there is no body.
fn take_part(alloc: Global, bytes: Secret, start: usize) -> Result<Body, DerError>
    requires { start ≤ length bytes }
    ensures { Gives (λ x. x) result (part_of (drop start bytes)) }
{
    let Some((data, following)) = split_part(&bytes.as_slice()[start..]) else {
        return Err(DerError::Malformed);
    };
    let Some(found) = read_after(data, following) else {
        return Err(DerError::Malformed);
    };
    let details = found.details(alloc)?;
    let end = bytes.as_slice().len() - following.len();
    let front = end - data.len();
    let data = bytes.into_bytes(alloc).cut(front, end);
    Ok(details.with(data))
}

/// The body that the bytes from `start` on spell as the encrypted part of KRB-PRIV, as
/// [`decode_part`] gives it. Its data stay where they lie: nothing is moved or allocated for them. If
/// there is no body, the block is overwritten before it is freed, since it holds what was deciphered.
pub fn decode_part_from(alloc: Global, bytes: Vec<u8>, start: usize) -> Result<Body, DerError>
    requires { start ≤ length bytes.items }
    ensures answer { Decodes SpellsPart result (drop start bytes.items) }
    ensures only { (b : BodyValue) → SpellsPart b (drop start bytes.items)
        → MatchResult result (λ v. v ≡ b) (λ e. e ≡ Memory) }
{
    let bytes = Secret::new(bytes);
    known_bytes(bytes.as_slice());
    if bytes.as_slice().len() - start > FRAME_LIMIT {
        return Err(DerError::TooLong);
    }
    take_part(alloc, bytes, start)
}
