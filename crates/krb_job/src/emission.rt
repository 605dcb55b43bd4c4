//! Emissions of a plan.

ghost use Rattle.std.specs.Prelude.{◌≡◌, ok_or};
ghost use Rattle.toml.specs.View.{view};
ghost use Rattle.krb_job.specs.Checks.{Gives};
ghost use Rattle.krb_job.specs.Emission.{mask_of, flip_of, emission_named, emission_of};

use crate::decimal::read_decimal;
use crate::place::{KeyError, Place};
use crate::text::split_at;
use crate::values::read_hex;
use krb_base::RAW_LIMIT;
use krb_record::Emit;
use std::alloc::Global;
use toml::Value;

/// The most digits of the number of a frame or of a byte.
const NUMBER_DIGITS: usize = 9;

/// The emission that a text as `0`, `flip 0 9 01` or `raw 74` names.
pub(crate) fn read_emission(alloc: Global, place: Place, value: &Value) -> Result<Emit, KeyError>
    ensures { Gives (λ e. e) result (ok_or (emission_of (view value.now)) place) }
{
    match value.as_str() {
        Some(text) => emission_named(alloc, place, text.as_bytes()),
        None => Err(KeyError::Bad(place)),
    }
}

#[tactic(auto, using(crate::proofs::TextLemmas::same_turned), unfolding(crate::specs::Emission::emission_named))]
fn emission_named(alloc: Global, place: Place, text: &[u8]) -> Result<Emit, KeyError>
    ensures { Gives (λ e. e) result (ok_or (emission_named text.now) place) }
{
    if let Some(flip) = text.strip_prefix(b"flip ") {
        flip_of(flip).ok_or(KeyError::Bad(place))
    } else if let Some(digits) = text.strip_prefix(b"raw ") {
        let bytes = read_hex(alloc, place, digits, 0, RAW_LIMIT)?;
        Ok(Emit::Raw(bytes))
    } else {
        let k = read_decimal(text, NUMBER_DIGITS).ok_or(KeyError::Bad(place))?;
        Ok(Emit::Frame(k as usize))
    }
}

fn flip_of(text: &[u8]) -> Option<Emit>
    ensures { result ≡ flip_of text.now }
{
    let (k, others) = split_at(b' ', text)?;
    let k = read_decimal(k, NUMBER_DIGITS)? as usize;
    let (at, mask) = split_at(b' ', others)?;
    let at = read_decimal(at, NUMBER_DIGITS)? as usize;
    let mask = read_mask(mask)?;
    Some(Emit::Flip { k, at, mask })
}

fn read_mask(digits: &[u8]) -> Option<u8>
    ensures { result ≡ mask_of digits.now }
{
    let mut mask = [0u8; 1];
    hex::decode_to_slice(digits, &mut mask).ok()?;
    Some(mask[0])
}
