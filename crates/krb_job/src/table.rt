//! The keys of a table.

ghost use Rattle.std.specs.Prelude.{◌≡◌, ◌≤◌, [], true, map, option_map, string_bytes, IfOk, IsSome};
ghost use Rattle.std.specs.BTreeMap.{keys};
ghost use Rattle.std.specs.List.{list_all, list_any};
ghost use Rattle.std.specs.Str.{bytes_eq};
ghost use Rattle.toml.specs.Data.{get_member};
ghost use Rattle.toml.specs.View.{view, table_view};
ghost use Rattle.krb_base.specs.Limits.{batch_limit};
ghost use Rattle.krb_job.specs.Checks.{Gives};
ghost use Rattle.krb_job.specs.Values.{number_of, etype_of, flag_of, mode_of, seed_of};
ghost use Rattle.krb_job.specs.Address.{address_of};
ghost use Rattle.krb_job.specs.Lists.{moments_of, texts_of, plan_of, frames_of};
ghost use Rattle.krb_job.specs.Keys.{at_key, needed, optional, only_if, some, has_only};

use crate::address::read_address;
use crate::lists::{read_frames, read_moments, read_plan, read_texts};
use crate::place::{KeyError, Place};
use crate::values::{read_etype, read_mode, read_number, read_seed};
use krb_base::{BATCH_LIMIT, Bytes};
use krb_der::{HostAddress, Moment};
use krb_record::Emit;
use krb_seal::{Etype, Mode};
use std::alloc::Global;
use toml::{Table, Value};

/// The value of a key of any table.
pub(crate) fn get<'a>(table: &'a Table, key: &str) -> Option<&'a Value>
    ensures { option_map (λ v. view v.now) result ≡ get_member key.now (table_view table.now) }
{
    table.get(key)
}

/// The value of a key of a sender.
fn entry(table: &Table, place: Place) -> Option<&Value>
    ensures { option_map (λ v. view v.now) result ≡ at_key place (table_view table.now) }
{
    get(table, place.name())
}

/// The value of a key that a sender must have.
pub(crate) fn needed(table: &Table, place: Place) -> Result<&Value, KeyError>
    ensures { Gives (λ v. view v.now) result (needed place Some (table_view table.now)) }
{
    entry(table, place).ok_or(KeyError::Bad(place))
}

/// The value of a key of some commands alone: it has to be present if it is allowed, and absent if
/// it isn't.
fn if_allowed(table: &Table, place: Place, allowed: bool) -> Result<Option<&Value>, KeyError>
    ensures value { Gives (option_map (λ v. view v.now)) result
        (only_if allowed None place (needed place (some Some) (table_view table.now))
        (table_view table.now)) }
    ensures there { allowed ≡ true → IfOk result (λ value. IsSome value) }
{
    match entry(table, place) {
        Some(value) if allowed => Ok(Some(value)),
        None if !allowed => Ok(None),
        _ => Err(KeyError::Bad(place)),
    }
}

pub(crate) fn number(table: &Table, place: Place, low: u64, high: u64) -> Result<u64, KeyError>
    ensures value { Gives (λ n. n) result
        (needed place (number_of low high) (table_view table.now)) }
    ensures low { IfOk result (λ n. low ≤ n) }
    ensures high { IfOk result (λ n. n ≤ high) }
{
    read_number(needed(table, place)?, low, high).ok_or(KeyError::Bad(place))
}

pub(crate) fn etype(table: &Table, place: Place) -> Result<Etype, KeyError>
    ensures { Gives (λ e. e) result (needed place etype_of (table_view table.now)) }
{
    read_etype(needed(table, place)?).ok_or(KeyError::Bad(place))
}

pub(crate) fn flag(table: &Table, place: Place, absent: bool) -> Result<bool, KeyError>
    ensures { Gives (λ b. b) result (optional absent place flag_of (table_view table.now)) }
{
    match entry(table, place) {
        Some(value) => value.as_bool().ok_or(KeyError::Bad(place)),
        None => Ok(absent),
    }
}

pub(crate) fn mode(table: &Table, place: Place) -> Result<Mode, KeyError>
    ensures { Gives (λ m. m) result (needed place mode_of (table_view table.now)) }
{
    read_mode(needed(table, place)?).ok_or(KeyError::Bad(place))
}

pub(crate) fn address(alloc: Global, table: &Table, place: Place) -> Result<HostAddress, KeyError>
    ensures { Gives (λ a. a) result (needed place address_of (table_view table.now)) }
{
    read_address(alloc, place, needed(table, place)?)
}

pub(crate) fn seed(table: &Table, place: Place, allowed: bool) -> Result<Option<[u8; 32]>, KeyError>
    ensures value { Gives (λ s. s) result
        (only_if allowed None place (needed place (some seed_of) (table_view table.now))
        (table_view table.now)) }
    ensures there { allowed ≡ true → IfOk result (λ seed. IsSome seed) }
{
    match if_allowed(table, place, allowed)? {
        Some(value) => read_seed(value).map(Some).ok_or(KeyError::Bad(place)),
        None => Ok(None),
    }
}

pub(crate) fn moments(alloc: Global, table: &Table, place: Place) -> Result<Vec<Moment>, KeyError>
    ensures { Gives (λ v. v.items) result (needed place moments_of (table_view table.now)) }
{
    read_moments(alloc, place, needed(table, place)?)
}

pub(crate) fn moments_if(
    alloc: Global,
    table: &Table,
    place: Place,
    allowed: bool,
) -> Result<Vec<Moment>, KeyError>
    ensures { Gives (λ v. v.items) result
        (only_if allowed [] place (needed place moments_of (table_view table.now))
        (table_view table.now)) }
{
    match if_allowed(table, place, allowed)? {
        Some(value) => read_moments(alloc, place, value),
        None => Ok(Vec::new(alloc)),
    }
}

pub(crate) fn texts(
    alloc: Global,
    table: &Table,
    place: Place,
    allowed: bool,
) -> Result<Vec<Bytes>, KeyError>
    ensures { Gives (λ v. v.items) result
        (only_if allowed [] place (needed place texts_of (table_view table.now))
        (table_view table.now)) }
{
    match if_allowed(table, place, allowed)? {
        Some(value) => read_texts(alloc, place, value),
        None => Ok(Vec::new(alloc)),
    }
}

/// How many texts a frame carries at most; by default 1.
pub(crate) fn batch(table: &Table, place: Place, allowed: bool) -> Result<usize, KeyError>
    ensures value { Gives (λ n. n) result
        (only_if allowed 1 place (optional 1 place (number_of 1 batch_limit) (table_view table.now))
        (table_view table.now)) }
    ensures low { IfOk result (λ n. 1 ≤ n) }
    ensures high { IfOk result (λ n. n ≤ batch_limit) }
{
    match entry(table, place) {
        Some(value) if allowed => match read_number(value, 1, BATCH_LIMIT as u64) {
            Some(batch) => Ok(batch as usize),
            None => Err(KeyError::Bad(place)),
        },
        None => Ok(1),
        _ => Err(KeyError::Bad(place)),
    }
}

pub(crate) fn frames(
    alloc: Global,
    table: &Table,
    place: Place,
    allowed: bool,
) -> Result<Vec<Bytes>, KeyError>
    ensures { Gives (λ v. v.items) result
        (only_if allowed [] place (needed place frames_of (table_view table.now))
        (table_view table.now)) }
{
    match if_allowed(table, place, allowed)? {
        Some(value) => read_frames(alloc, place, value),
        None => Ok(Vec::new(alloc)),
    }
}

pub(crate) fn plan(
    alloc: Global,
    table: &Table,
    place: Place,
    allowed: bool,
) -> Result<Option<Vec<Emit>>, KeyError>
    ensures { Gives (λ o. option_map (λ v. v.items) o) result
        (only_if allowed None place (optional None place (some plan_of) (table_view table.now))
        (table_view table.now)) }
{
    match entry(table, place) {
        Some(value) if allowed => Ok(Some(read_plan(alloc, place, value)?)),
        None => Ok(None),
        _ => Err(KeyError::Bad(place)),
    }
}

/// Whether each key of the table is among these.
pub(crate) fn has_only(table: &Table, known: &[&str]) -> bool
    ensures { result ≡ has_only (map (λ k. k.now) known.now) (table_view table.now) }
{
    names_pass(table, known)
}

fn names_pass(table: &Table, known: &[&str]) -> bool
    ensures { result ≡ list_all
        (λ name. list_any (λ k. bytes_eq (string_bytes name) k.now) known.now) (keys table.now) }
{
    table.keys().all(|name| is_among(name.as_str(), known))
}

fn is_among(name: &str, known: &[&str]) -> bool
    ensures { result ≡ list_any (λ k. bytes_eq name.now k.now) known.now }
{
    known.iter().any(|key| name == *key)
}
