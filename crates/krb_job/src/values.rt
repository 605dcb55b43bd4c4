//! The values of a job.

ghost use Rattle.std.specs.Prelude.{◌≡◌, ◌≤◌, ok_or, IfSome};
ghost use Rattle.toml.specs.View.{view};
ghost use Rattle.krb_job.specs.Checks.{Gives};
ghost use Rattle.krb_job.specs.Values.{number_of, etype_of, mode_of, mode_named, hex_of};
ghost use Rattle.krb_job.specs.Values.{bytes_of, seed_of};

use crate::place::{KeyError, Place};
use hex::FromHexError;
use krb_base::{Bytes, Secret};
use krb_seal::{Etype, Mode};
use std::alloc::Global;
use toml::Value;

/// A whole number from `low` to `high`.
pub(crate) fn read_number(value: &Value, low: u64, high: u64) -> Option<u64>
    ensures value { result ≡ number_of low high (view value.now) }
    ensures low { IfSome result (λ n. low ≤ n) }
    ensures high { IfSome result (λ n. n ≤ high) }
{
    let number = u64::try_from(value.as_integer()?).ok()?;
    if low <= number && number <= high {
        Some(number)
    } else {
        None
    }
}

/// The encryption type that has this number.
pub(crate) fn read_etype(value: &Value) -> Option<Etype>
    ensures { result ≡ etype_of (view value.now) }
{
    let number = i32::try_from(value.as_integer()?).ok()?;
    Etype::from_number(number)
}

pub(crate) fn read_mode(value: &Value) -> Option<Mode>
    ensures { result ≡ mode_of (view value.now) }
{
    mode_named(value.as_str()?)
}

fn mode_named(text: &str) -> Option<Mode>
    ensures { result ≡ mode_named text.now }
{
    if text == "safe" {
        Some(Mode::Safe)
    } else if text == "priv" {
        Some(Mode::Priv)
    } else {
        None
    }
}

/// The bytes of hexadecimal digits of either case, `low` to `high` bytes.
pub(crate) fn read_hex(
    alloc: Global,
    place: Place,
    text: &[u8],
    low: usize,
    high: usize,
) -> Result<Bytes, KeyError>
    ensures { Gives (λ b. b) result (ok_or (hex_of low high text.now) place) }
{
    match hex::decode(alloc, text) {
        Ok(bytes) if low <= bytes.len() && bytes.len() <= high => Ok(Bytes::new(bytes)),
        Err(FromHexError::OutOfMemory) => Err(KeyError::Memory),
        _ => Err(KeyError::Bad(place)),
    }
}

/// The bytes of a hexadecimal text, `low` to `high` bytes.
pub(crate) fn read_bytes(
    alloc: Global,
    place: Place,
    value: &Value,
    low: usize,
    high: usize,
) -> Result<Bytes, KeyError>
    ensures { Gives (λ b. b) result (ok_or (bytes_of low high (view value.now)) place) }
{
    match value.as_str() {
        Some(text) => read_hex(alloc, place, text.as_bytes(), low, high),
        None => Err(KeyError::Bad(place)),
    }
}

/// The bytes of a hexadecimal text, so many of them, in a block that is overwritten before it is
/// freed: also if they are too few or too many, or a digit is none.
pub(crate) fn read_secret(
    alloc: Global,
    place: Place,
    value: &Value,
    size: usize,
) -> Result<Secret, KeyError>
    ensures { Gives (λ b. b) result (ok_or (bytes_of size size (view value.now)) place) }
{
    match value.as_str() {
        Some(text) => decode_secret(alloc, place, text.as_bytes(), size),
        None => Err(KeyError::Bad(place)),
    }
}

/// The same of its digits.
fn decode_secret(alloc: Global, place: Place, text: &[u8], size: usize) -> Result<Secret, KeyError>
    ensures { Gives (λ b. b) result (ok_or (hex_of size size text.now) place) }
{
    let mut bytes = vec![in alloc; 0; text.len() / 2]?;
    let decoded = hex::decode_to_slice(text, &mut bytes);
    let secret = Secret::new(bytes);
    match decoded {
        Ok(()) if secret.as_slice().len() == size => Ok(secret),
        _ => Err(KeyError::Bad(place)),
    }
}

/// The 32 bytes of a hexadecimal text.
pub(crate) fn read_seed(value: &Value) -> Option<[u8; 32]>
    ensures { result ≡ seed_of (view value.now) }
{
    let text = value.as_str()?;
    let mut seed = [0u8; 32];
    hex::decode_to_slice(text, &mut seed).ok()?;
    Some(seed)
}
