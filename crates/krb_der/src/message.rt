//! A message: KRB-SAFE or KRB-PRIV (RFC 4120 sections 5.6.1 and 5.7.1).

ghost use Rattle.std.specs.Prelude.{◌≡◌, IfOk, MatchResult};
ghost use Rattle.krb_der.specs.declared.error.DerError.TheVariants.{Memory};
ghost use Rattle.krb_der.specs.declared.message.Message.{Message as MessageValue};
ghost use Rattle.krb_der.specs.Message.{Decodes, Spells, DecodesBorrowed};
ghost use Rattle.krb_der.specs.MessageRef.{owned};
ghost use Rattle.krb_tlv.specs.Reading.{Finds};
ghost use Rattle.krb_der.specs.Reading.{message_of};

use crate::error::DerError;
use crate::private::{PrivMsg, PrivRef, read_private};
use crate::safe::{SafeMsg, SafeRef, read_safe};
use crate::tag;
use krb_base::FRAME_LIMIT;
use krb_tlv::{Reader, only_element};
use std::alloc::{AllocError, Global};

/// A message of the relay (RFC 4120 section 5.10 has the numbers of all messages).
#[derive(Debug, Drop)]
pub enum Message {
    /// KRB-SAFE.
    Safe(SafeMsg),
    /// KRB-PRIV.
    Priv(PrivMsg),
}

/// A [`Message`] whose byte strings are borrowed.
#[derive(Drop)]
pub enum MessageRef<'a> {
    /// KRB-SAFE.
    Safe(SafeRef<'a>),
    /// KRB-PRIV.
    Priv(PrivRef<'a>),
}

impl<'a> MessageRef<'a> {
    /// The message, with byte strings of its own.
    pub fn to_owned(&self, alloc: Global) -> Result<Message, AllocError>
        ensures { IfOk result (λ m. m ≡ owned self.now) }
    {
        match self {
            MessageRef::Safe(m) => Ok(Message::Safe(m.to_owned(alloc)?)),
            MessageRef::Priv(m) => Ok(Message::Priv(m.to_owned(alloc)?)),
        }
    }
}

/// The message that the bytes spell, whatever their number.
#[tactic(auto, unfolding(crate::specs::Reading::message_of))]
fn message_in(bytes: &[u8]) -> Option<MessageRef<'_>>
    ensures { Finds owned result (message_of bytes.now) }
{
    if Reader::new(bytes).is_at(tag::KRB_SAFE) {
        let found = read_safe(only_element(tag::KRB_SAFE, bytes)?)?;
        return Some(MessageRef::Safe(found));
    }
    let found = read_private(only_element(tag::KRB_PRIV, bytes)?)?;
    Some(MessageRef::Priv(found))
}

/// The message that the bytes spell, with its byte strings where they lie. Nothing is allocated.
///
/// [`DerError::TooLong`] is returned if and only if there are over 1,005,000 bytes, and
/// [`DerError::Malformed`] if and only if there are no more and they spell nothing;
/// [`DerError::Memory`] never.
pub fn decode_borrowed(bytes: &[u8]) -> Result<MessageRef<'_>, DerError>
    ensures { DecodesBorrowed Spells owned result bytes.now }
{
    if bytes.len() > FRAME_LIMIT {
        return Err(DerError::TooLong);
    }
    match message_in(bytes) {
        Some(found) => Ok(found),
        None => Err(DerError::Malformed),
    }
}

/// The message that the bytes spell.
///
/// [`DerError::TooLong`] is returned if and only if there are over 1,005,000 bytes, and
/// [`DerError::Malformed`] if and only if there are no more and they spell nothing. So
/// [`DerError::Memory`] is returned only if they spell a message. Bodies that are read are in range.
pub fn decode(alloc: Global, bytes: &[u8]) -> Result<Message, DerError>
    ensures answer { Decodes Spells result bytes.now }
    ensures only { (m : MessageValue) → Spells m bytes.now
        → MatchResult result (λ v. v ≡ m) (λ e. e ≡ Memory) }
{
    let found = decode_borrowed(bytes)?;
    Ok(found.to_owned(alloc)?)
}
