//! Lists of a job.

ghost use Rattle.std.specs.Prelude.{◌≡◌, ok_or, option_map};
ghost use Rattle.toml.specs.View.{view, array_view, items_view};
ghost use Rattle.krb_job.specs.Checks.{Gives};
ghost use Rattle.krb_job.specs.Values.{bytes_of};
ghost use Rattle.krb_job.specs.Emission.{emission_of};
ghost use Rattle.krb_job.specs.Lists.{each, items_of, moment_of, moments_of, texts_of, plan_of};
ghost use Rattle.krb_job.specs.Lists.{frames_of};

use crate::emission::read_emission;
use crate::place::{KeyError, Place};
use crate::values::read_bytes;
use krb_base::{Bytes, ENTRIES_LIMIT, RAW_LIMIT, TEXT_LIMIT, TEXTS_LIMIT};
use krb_der::Moment;
use krb_record::Emit;
use std::alloc::Global;
use toml::Value;
use toml::value::Array;

/// 1 to [`ENTRIES_LIMIT`] moments, each a number of microseconds since 1970-01-01T00:00:00Z.
pub(crate) fn read_moments(
    alloc: Global,
    place: Place,
    value: &Value,
) -> Result<Vec<Moment>, KeyError>
    ensures { Gives (λ v. v.items) result (ok_or (moments_of (view value.now)) place) }
{
    match items_of(value, 1, ENTRIES_LIMIT) {
        Some(items) => each_moment(alloc, place, items.as_slice()),
        None => Err(KeyError::Bad(place)),
    }
}

/// At most [`TEXTS_LIMIT`] texts.
pub(crate) fn read_texts(alloc: Global, place: Place, value: &Value) -> Result<Vec<Bytes>, KeyError>
    ensures { Gives (λ v. v.items) result (ok_or (texts_of (view value.now)) place) }
{
    match items_of(value, 0, TEXTS_LIMIT) {
        Some(items) => each_bytes(alloc, place, items.as_slice(), TEXT_LIMIT),
        None => Err(KeyError::Bad(place)),
    }
}

/// At most [`ENTRIES_LIMIT`] frames.
pub(crate) fn read_frames(
    alloc: Global,
    place: Place,
    value: &Value,
) -> Result<Vec<Bytes>, KeyError>
    ensures { Gives (λ v. v.items) result (ok_or (frames_of (view value.now)) place) }
{
    match items_of(value, 0, ENTRIES_LIMIT) {
        Some(items) => each_bytes(alloc, place, items.as_slice(), RAW_LIMIT),
        None => Err(KeyError::Bad(place)),
    }
}

/// At most [`ENTRIES_LIMIT`] emissions.
pub(crate) fn read_plan(alloc: Global, place: Place, value: &Value) -> Result<Vec<Emit>, KeyError>
    ensures { Gives (λ v. v.items) result (ok_or (plan_of (view value.now)) place) }
{
    match items_of(value, 0, ENTRIES_LIMIT) {
        Some(items) => each_emission(alloc, place, items.as_slice()),
        None => Err(KeyError::Bad(place)),
    }
}

/// The items of a list of `low` to `high` items.
fn items_of(value: &Value, low: usize, high: usize) -> Option<&Array>
    ensures { option_map (λ v. array_view v.now) result ≡ items_of low high (view value.now) }
{
    let items = value.as_array()?;
    if low <= items.len() && items.len() <= high {
        Some(items)
    } else {
        None
    }
}

fn read_moment(value: &Value) -> Option<Moment>
    ensures { result ≡ moment_of (view value.now) }
{
    let micros = u64::try_from(value.as_integer()?).ok()?;
    Moment::from_micros(micros)
}

fn each_moment(alloc: Global, place: Place, items: &[Value]) -> Result<Vec<Moment>, KeyError>
    ensures { Gives (λ v. v.items) result (ok_or (each moment_of (items_view items.now)) place) }
{
    let mut moments = Vec::new(alloc);
    for item in items {
        let moment = read_moment(item).ok_or(KeyError::Bad(place))?;
        moments.push(moment)?;
    }
    Ok(moments)
}

fn each_bytes(
    alloc: Global,
    place: Place,
    items: &[Value],
    high: usize,
) -> Result<Vec<Bytes>, KeyError>
    ensures { Gives (λ v. v.items) result
        (ok_or (each (bytes_of 0 high) (items_view items.now)) place) }
{
    let mut texts = Vec::new(alloc);
    for item in items {
        let text = read_bytes(alloc, place, item, 0, high)?;
        texts.push(text)?;
    }
    Ok(texts)
}

fn each_emission(alloc: Global, place: Place, items: &[Value]) -> Result<Vec<Emit>, KeyError>
    ensures { Gives (λ v. v.items) result (ok_or (each emission_of (items_view items.now)) place) }
{
    let mut plan = Vec::new(alloc);
    for item in items {
        let emission = read_emission(alloc, place, item)?;
        plan.push(emission)?;
    }
    Ok(plan)
}
