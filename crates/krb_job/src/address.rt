//! Addresses of a job.

ghost use Rattle.std.specs.Prelude.{◌≡◌, ok_or};
ghost use Rattle.toml.specs.View.{view};
ghost use Rattle.krb_job.specs.Checks.{Gives};
ghost use Rattle.krb_job.specs.Address.{address_named, address_of};

use crate::decimal::read_int32;
use crate::place::{KeyError, Place};
use crate::text::split_at;
use crate::values::read_hex;
use krb_base::ADDRESS_LIMIT;
use krb_der::HostAddress;
use std::alloc::Global;
use toml::Value;

/// The address that a text as `2:c0000201` names.
pub(crate) fn read_address(
    alloc: Global,
    place: Place,
    value: &Value,
) -> Result<HostAddress, KeyError>
    ensures { Gives (λ a. a) result (ok_or (address_of (view value.now)) place) }
{
    match value.as_str() {
        Some(text) => address_named(alloc, place, text.as_bytes()),
        None => Err(KeyError::Bad(place)),
    }
}

fn address_named(alloc: Global, place: Place, text: &[u8]) -> Result<HostAddress, KeyError>
    ensures { Gives (λ a. a) result (ok_or (address_named text.now) place) }
{
    let (kind, digits) = split_at(b':', text).ok_or(KeyError::Bad(place))?;
    let kind = read_int32(kind).ok_or(KeyError::Bad(place))?;
    let bytes = read_hex(alloc, place, digits, 0, ADDRESS_LIMIT)?;
    Ok(HostAddress { kind, bytes })
}
