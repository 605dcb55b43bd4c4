//! Records as C sees them: the number of one's kind, and its bytes after the first.

ghost use Rattle.std.specs.Prelude.{◌≡◌, ◌<◌, ◌∷◌, length, IfOk, OnOk};
ghost use Rattle.krb_base.specs.Limits.{user_data_limit};
ghost use Rattle.krb_record.specs.declared.record.Record.{Record as RecordValue};
ghost use Rattle.krb_record.specs.Record.{first_byte_of};
ghost use Rattle.krb_structs.specs.Fault.{IsDone, Needs, answer_of};
ghost use Rattle.krb_structs.specs.Reasons.{HasRecord};
ghost use Rattle.krb_structs.specs.Record.{IsRecordOf};

use crate::fault::Fault;
use krb_base::Secret;
use krb_peers::RecordKind;
use krb_record::record_laws;
use std::alloc::{AllocError, Global};

/// The kind with this number, if a record of it has these bytes after its first. Nothing is allocated.
pub fn kind_with(number: u32, body: &[u8]) -> Result<RecordKind, Fault>
    ensures ok { IfOk result (λ kind. (r : RecordValue)
        × IsRecordOf number body.now r (first_byte_of kind ∷ body.now)) }
    ensures short { OnOk result (length body.now < user_data_limit) }
    ensures answer { Needs (HasRecord number body.now) Fault.Record IsDone (answer_of result) }
{
    record_laws();
    let Some(kind) = RecordKind::from_number(number) else {
        return Err(Fault::Record);
    };
    if kind.has(body) {
        Ok(kind)
    } else {
        Err(Fault::Record)
    }
}

/// The user data of a record of this kind, whose bytes after the first are `body`. The block is
/// overwritten before it is freed.
pub fn record_of(alloc: Global, kind: RecordKind, body: &[u8]) -> Result<Secret, AllocError>
    requires { length body.now < user_data_limit }
    ensures { IfOk result (λ user. user ≡ first_byte_of kind ∷ body.now) }
{
    with_first(alloc, kind.first_byte(), body)
}

/// The bytes with this one before them, in a block of their size.
fn with_first(alloc: Global, first: u8, bytes: &[u8]) -> Result<Secret, AllocError>
    requires { length bytes.now < user_data_limit }
    ensures { IfOk result (λ all. all ≡ first ∷ bytes.now) }
{
    let mut all = Vec::with_capacity(alloc, 1 + bytes.len())?;
    all.push(first)?;
    all.extend_from_slice(bytes)?;
    Ok(Secret::new(all))
}
