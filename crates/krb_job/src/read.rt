//! Whole jobs.

ghost use Rattle.std.specs.Prelude.{◌≡◌, [], map, true, length, IsSome, IfOk, All};
ghost use Rattle.toml.specs.View.{view, items_view, table_view};
ghost use Rattle.krb_job.specs.SenderView.{keys_of, sender_view};
ghost use Rattle.toml.specs.Data.{Members};
ghost use Rattle.krb_job.specs.Job.{GivesJob, IsTree, job_of, job_view, most_senders, sender_at};
ghost use Rattle.krb_job.specs.Job.{senders_from};
ghost use Rattle.krb_job.specs.SenderKeys.{seals};

use crate::bad_input::{BadInput, JobError};
use crate::job::{Command, Job, SenderJob};
use crate::place::KeyError;
use crate::sender::read_sender;
use crate::tree::{capacity, has_top_keys, read_tree, sender_items, wipe_tree};
use std::alloc::Global;
use toml::{Table, Value};

/// The job that a TOML document states for the command.
///
/// An error names the first check that fails: the document, `capacity`, `sender`, a top key that no
/// job has, and then sender by sender its keys in the order of [`Place`](crate::Place). The size of
/// the input isn't checked here.
pub fn read_job(alloc: Global, bytes: &[u8], command: Command) -> Result<Job, JobError>
    ensures document { (ms : Members) → IsTree bytes.now ms
        → GivesJob job_view result (job_of command ms) }
    ensures none { ((ms : Members) → ¬ IsTree bytes.now ms)
        → GivesJob job_view result (Err BadInput.Toml) }

    // A command of one sender has one, and each sender of a command that seals has a seed.
    ensures one { most_senders command ≡ 1
        → IfOk result (λ job. length job.senders.items ≡ 1) }
    ensures seeds { seals command ≡ true
        → IfOk result (λ job. All (λ sender. IsSome sender.seed) job.senders.items) }
{
    let table = read_tree(alloc, bytes)?;
    let job = read_members(alloc, &table, command);
    wipe_tree(table);
    job
}

#[tactic(auto, unfolding(crate::specs::Job::job_of))]
fn read_members(alloc: Global, table: &Table, command: Command) -> Result<Job, JobError>
    ensures value { GivesJob job_view result (job_of command (table_view table.now)) }
    ensures seeds { seals command ≡ true
        → IfOk result (λ job. All (λ sender. IsSome sender.seed) job.senders.items) }
{
    let capacity = capacity(table)?;
    let items = sender_items(table, command)?;
    if !has_top_keys(table) {
        return Err(JobError::Bad(BadInput::UnknownKey));
    }
    let senders = read_senders(alloc, command, items.as_slice())?;
    Ok(Job { capacity, senders })
}

fn read_sender_at(
    alloc: Global,
    command: Command,
    j: usize,
    item: &Value,
    earlier: &[SenderJob],
) -> Result<SenderJob, JobError>
    ensures value { GivesJob sender_view result
        (sender_at command j (keys_of earlier.now) (view item.now)) }
    ensures seed { seals command ≡ true → IfOk result (λ sender. IsSome sender.seed) }
{
    let Some(table) = item.as_table() else {
        return Err(JobError::Bad(BadInput::Sender));
    };
    read_sender(alloc, table, command, earlier).map_err(|error| match error {
        KeyError::Bad(place) => JobError::Bad(BadInput::InSender { sender: j, place }),
        KeyError::Memory => JobError::Memory,
    })
}

fn read_senders(
    alloc: Global,
    command: Command,
    items: &[Value],
) -> Result<Vec<SenderJob>, JobError>
    ensures value { GivesJob (λ v. map sender_view v.items) result
        (senders_from command 0 [] (items_view items.now)) }
    ensures seeds { seals command ≡ true
        → IfOk result (λ senders. All (λ sender. IsSome sender.seed) senders.items) }
{
    let mut senders = Vec::new(alloc);
    for (j, item) in items.iter().enumerate() {
        let sender = read_sender_at(alloc, command, j, item, senders.as_slice())?;
        senders.push(sender)?;
    }
    Ok(senders)
}
