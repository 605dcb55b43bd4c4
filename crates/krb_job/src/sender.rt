//! One sender of a job.

ghost use Rattle.std.specs.Prelude.{◌≡◌, ◌≤◌, ◌<◌, true, map, ok_or, IfOk, IsSome, option_map};
ghost use Rattle.std.specs.List.{list_any};
ghost use Rattle.std.specs.Str.{bytes_eq};
ghost use Rattle.toml.specs.View.{view, table_view};
ghost use Rattle.krb_job.specs.Checks.{Gives};
ghost use Rattle.krb_job.specs.Values.{key_of};
ghost use Rattle.krb_job.specs.Keys.{needed, has_only};
ghost use Rattle.krb_job.specs.Place.{sender_keys};
ghost use Rattle.krb_job.specs.SenderKeys.{protection_of, parties_of, traffic_of, sender_of};
ghost use Rattle.krb_job.specs.SenderKeys.{sender_with, seals};
ghost use Rattle.krb_job.specs.SenderView.{keys_of, protection_view, parties_view, sender_view};

use crate::job::{Command, SenderJob};
use crate::parts::{Parties, Protection};
use crate::place::{KeyError, Place, SENDER_KEYS};
use crate::table::{
    address, batch, etype, flag, frames, has_only, mode, moments, moments_if, needed, number, plan,
    seed, texts,
};
use crate::values::read_secret;
use krb_base::{SKEW_LIMIT, Secret};
use krb_seal::Etype;
use std::alloc::Global;
use toml::{Table, Value};

/// Whether a sender has the key.
fn is_used(key: &[u8], earlier: &[SenderJob]) -> bool
    ensures { result ≡ list_any (λ s. bytes_eq key.now s.key) earlier.now }
{
    earlier.iter().any(|sender| key == sender.key.as_slice())
}

/// The key of a sender, which no earlier sender has.
fn key(
    alloc: Global,
    table: &Table,
    etype: Etype,
    earlier: &[SenderJob],
) -> Result<Secret, KeyError>
    ensures { Gives (λ b. b) result
        (needed Place.Key (key_of etype (keys_of earlier.now)) (table_view table.now)) }
{
    let value = needed(table, Place::Key)?;
    let key = read_secret(alloc, Place::Key, value, etype.key_size())?;
    if is_used(key.as_slice(), earlier) {
        Err(KeyError::Bad(Place::Key))
    } else {
        Ok(key)
    }
}

#[tactic(auto, unfolding(crate::specs::SenderKeys::protection_of))]
fn read_protection(
    alloc: Global,
    table: &Table,
    earlier: &[SenderJob],
) -> Result<Protection, KeyError>
    ensures { Gives protection_view result
        (protection_of (keys_of earlier.now) (table_view table.now)) }
{
    let etype = etype(table, Place::Etype)?;
    let key = key(alloc, table, etype, earlier)?;
    let mode = mode(table, Place::Mode)?;
    let first = number(table, Place::First, 0, 4_294_967_295)?;
    Ok(Protection {
        etype,
        key,
        mode,
        first,
    })
}

fn has_sender_keys(table: &Table) -> bool
    ensures { result ≡ has_only sender_keys (table_view table.now) }
{
    has_only(table, SENDER_KEYS.as_slice())
}

#[tactic(auto, unfolding(crate::specs::SenderKeys::parties_of))]
fn read_parties(alloc: Global, table: &Table) -> Result<Parties, KeyError>
    ensures { Gives parties_view result (parties_of (table_view table.now)) }
{
    let from = address(alloc, table, Place::From)?;
    let to = address(alloc, table, Place::To)?;
    let write_to = flag(table, Place::WriteTo, false)?;
    let require_to = flag(table, Place::RequireTo, false)?;
    let expect_time = flag(table, Place::ExpectTime, true)?;
    let skew = number(table, Place::Skew, 0, u64::from(SKEW_LIMIT))?;
    Ok(Parties {
        from,
        to,
        write_to,
        require_to,
        expect_time,
        skew,
    })
}

/// What is sent or opened, and with it the whole sender.
#[tactic(auto, unfolding(crate::specs::SenderKeys::traffic_of))]
fn read_traffic(
    alloc: Global,
    table: &Table,
    command: Command,
    protection: Protection,
    parties: Parties,
) -> Result<SenderJob, KeyError>
    ensures value { Gives sender_view result
        (sender_with (protection_view protection) (parties_view parties)
        (traffic_of command (table_view table.now))) }
    ensures seed { seals command ≡ true → IfOk result (λ sender. IsSome sender.seed) }
{
    let seals = command.seals();
    Ok(SenderJob {
        etype: protection.etype,
        key: protection.key,
        mode: protection.mode,
        first: protection.first as u32,
        from: parties.from,
        to: parties.to,
        write_to: parties.write_to,
        require_to: parties.require_to,
        expect_time: parties.expect_time,
        skew: parties.skew as u32,
        seed: seed(table, Place::Seed, seals)?,
        ats: moments_if(alloc, table, Place::At, seals)?,
        nows: moments(alloc, table, Place::Now)?,
        texts: texts(alloc, table, Place::Texts, seals)?,
        batch: batch(table, Place::Batch, seals)?,
        plan: plan(alloc, table, Place::Plan, seals)?,
        frames: frames(alloc, table, Place::Frames, command.opens())?,
    })
}

/// The sender that a table states, for the command. No earlier sender has its key.
///
/// An error names the first key, in the order of [`Place`], that is absent, is not allowed or
/// stands for nothing, or the keys that no sender has.
#[tactic(auto, unfolding(crate::specs::SenderKeys::sender_of))]
pub(crate) fn read_sender(
    alloc: Global,
    table: &Table,
    command: Command,
    earlier: &[SenderJob],
) -> Result<SenderJob, KeyError>
    ensures value { Gives sender_view result
        (sender_of command (keys_of earlier.now) (table_view table.now)) }
    ensures seed { seals command ≡ true → IfOk result (λ sender. IsSome sender.seed) }
{
    let protection = read_protection(alloc, table, earlier)?;
    let parties = read_parties(alloc, table)?;
    let sender = read_traffic(alloc, table, command, protection, parties)?;
    if has_sender_keys(table) {
        Ok(sender)
    } else {
        Err(KeyError::Bad(Place::UnknownKey))
    }
}
