//! What a text of the input reads as.

use crate::digits::digits_of;
use crate::form::Form;
use crate::inside::Inside;
use crate::openers::{Openers, inside_of};
use hex::FromHexError;
use krb_der::{DerError, Message, decode};
use std::alloc::{AllocError, Global};

/// What a text of hexadecimal digits reads as.
#[derive(Debug, Drop)]
pub enum Reading {
    /// The message that the digits' bytes spell, and what is inside.
    Message(Message, Inside),
    /// The bytes spell no message.
    Malformed,
    /// The bytes are more than a message may have.
    TooLong,
    /// There is an odd number of digits, or another byte.
    NotHexadecimal,
}

impl Reading {
    ghost use Rattle.std.specs.Prelude.{◌≡◌, List, ℕ, IfOk};
    ghost use Rattle.krb_commands.specs.Key.{key_of};
    ghost use Rattle.krb_commands.specs.Printed.{IsPrintable};
    ghost use Rattle.krb_commands.specs.Digits.{digits_in};
    ghost use Rattle.krb_commands.specs.Reading.{Reads, HasBytes, is_accepted, is_message};

    /// Reads a text in a form, under a key if there is one.
    pub fn of_text(
        alloc: Global,
        form: Form,
        openers: Option<&Openers>,
        text: &[u8],
    ) -> Result<Reading, AllocError>
        ensures reads { IfOk result (Reads (key_of openers.entry) (digits_in form text.now)) }
        ensures printable { IfOk result IsPrintable }
    {
        match form {
            Form::Lines => Reading::of_digits(alloc, openers, text),
            Form::Any => {
                let digits = digits_of(alloc, text)?;
                Reading::of_digits(alloc, openers, digits.as_slice())
            }
        }
    }

    /// Reads what has to be digits.
    fn of_digits(
        alloc: Global,
        openers: Option<&Openers>,
        digits: &[u8],
    ) -> Result<Reading, AllocError>
        ensures reads { IfOk result (Reads (key_of openers.entry) digits.now) }
        ensures printable { IfOk result IsPrintable }
    {
        match hex::decode(alloc, digits) {
            Ok(bytes) => Reading::of_bytes(alloc, openers, &bytes),
            Err(FromHexError::OutOfMemory) => Err(AllocError),
            Err(_) => Ok(Reading::NotHexadecimal),
        }
    }

    /// Reads the bytes of digits.
    fn of_bytes(
        alloc: Global,
        openers: Option<&Openers>,
        bytes: &[u8],
    ) -> Result<Reading, AllocError>
        ensures reads { IfOk result (λ reading. (digits : List ℕ) → HasBytes digits bytes.now
            → Reads (key_of openers.entry) digits reading) }
        ensures printable { IfOk result IsPrintable }
    {
        match decode(alloc, bytes) {
            Ok(message) => {
                let inside = inside_of(alloc, openers, &message, bytes)?;
                Ok(Reading::Message(message, inside))
            }
            Err(DerError::Malformed) => Ok(Reading::Malformed),
            Err(DerError::TooLong) => Ok(Reading::TooLong),
            Err(DerError::Memory) => Err(AllocError),
        }
    }

    /// Whether the text spelt a message.
    pub fn is_message(&self) -> bool
        ensures { result ≡ is_message self.now }
    {
        matches!(self, Reading::Message(_, _))
    }

    /// Whether the text spelt a message that no key refuses.
    pub fn is_accepted(&self) -> bool
        ensures { result ≡ is_accepted self.now }
    {
        match self {
            Reading::Message(_, inside) => !matches!(inside, Inside::Refused(_)),
            _ => false,
        }
    }
}
