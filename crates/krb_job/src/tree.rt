//! The top of a job's document.

ghost use Rattle.std.specs.Prelude.{◌≡◌, nat_le, ◌&&◌, is_some};
ghost use Rattle.std.specs.List.{list_all};
ghost use Rattle.toml.specs.Data.{as_table};
ghost use Rattle.toml.specs.View.{view, array_view, table_view};
ghost use Rattle.krb_job.specs.Job.{IsTree, ReadsTree, GivesJob, capacity_of, items_of_senders};
ghost use Rattle.krb_job.specs.Job.{are_senders, most_senders, has_top_keys};

use crate::bad_input::{BadInput, JobError};
use crate::job::Command;
use crate::table::{get, has_only};
use crate::values::read_number;
use krb_base::{CAPACITY_LIMIT, LANE_LIMIT, Secret};
use std::alloc::Global;
use toml::value::Array;
use toml::{Table, Value};

/// The table of the document that the bytes spell.
pub(crate) fn read_tree(alloc: Global, bytes: &[u8]) -> Result<Table, JobError>
    ensures { ReadsTree bytes.now result }
{
    match toml::table_from_slice(alloc, bytes) {
        Ok(table) => Ok(table),
        Err(error) if error.is_memory() => Err(JobError::Memory),
        Err(_) => Err(JobError::Bad(BadInput::Toml)),
    }
}

/// Drops a document, and first overwrites each text in it, at every depth: its keys may stand
/// anywhere.
#[cycle(wipe)]
pub(crate) fn wipe_tree(table: Table) {
    for (name, value) in table {
        drop(Secret::new(name.into_bytes()));
        wipe_value(value);
    }
}

#[cycle(wipe)]
fn wipe_value(value: Value) {
    match value {
        Value::String(text) => drop(Secret::new(text.into_bytes())),
        Value::Array(items) => {
            for item in items {
                wipe_value(item);
            }
        }
        Value::Table(table) => wipe_tree(table),
        _ => {}
    }
}

/// How many items a lane holds; by default 1.
pub(crate) fn capacity(table: &Table) -> Result<usize, JobError>
    ensures { GivesJob (λ n. n) result (capacity_of (table_view table.now)) }
{
    match get(table, "capacity") {
        Some(value) => match read_number(value, 1, CAPACITY_LIMIT as u64) {
            Some(capacity) => Ok(capacity as usize),
            None => Err(JobError::Bad(BadInput::Capacity)),
        },
        None => Ok(1),
    }
}

/// The tables of the senders, as many as the command allows.
pub(crate) fn sender_items(table: &Table, command: Command) -> Result<&Array, JobError>
    ensures { GivesJob (λ v. array_view v.now) result
        (items_of_senders command (table_view table.now)) }
{
    let value = get(table, "sender").ok_or(JobError::Bad(BadInput::Sender))?;
    let items = value.as_array().ok_or(JobError::Bad(BadInput::Sender))?;
    if are_senders(items, command) {
        Ok(items)
    } else {
        Err(JobError::Bad(BadInput::Sender))
    }
}

#[tactic(auto, using(crate::proofs::ListLemmas::count_view, crate::proofs::TreeLemmas::tables_view))]
fn are_senders(items: &Array, command: Command) -> bool
    ensures { result ≡ are_senders command (array_view items.now) }
{
    let count = items.len();
    are_tables(items.as_slice()) && 1 <= count && count <= most_senders(command)
}

fn most_senders(command: Command) -> usize
    ensures { result ≡ most_senders command }
{
    match command {
        Command::Seal => 1,
        Command::Open => 1,
        Command::Relay => LANE_LIMIT,
    }
}

fn are_tables(items: &[Value]) -> bool
    ensures { result ≡ list_all (λ v. is_some (as_table (view v))) items.now }
{
    items.iter().all(|item| item.is_table())
}

static TOP_KEYS: [&str; 2] = ["capacity", "sender"];

pub(crate) fn has_top_keys(table: &Table) -> bool
    ensures { result ≡ has_top_keys (table_view table.now) }
{
    has_only(table, TOP_KEYS.as_slice())
}
