//! The checksum of KRB-SAFE.

ghost use Rattle.std.specs.Prelude.{◌≡◌, ◌≤◌, false, length, IfOk, OnOk};
ghost use Rattle.krb_base.specs.Limits.{frame_limit};
ghost use Rattle.krb_etype.specs.declared.keys.Purpose.TheVariants.{Checksum};
ghost use Rattle.krb_seal.specs.Checksum.{IsCovered, PutsCovered, Sums};

use krb_der::covering_of;
use krb_etype::{CODE_SIZE, Keys};
use std::alloc::{AllocError, Global};

/// The checksum of each message that has these fields before its checksum (RFC 4120 section 5.6.1).
/// The fields aren't copied to be hashed.
pub fn checksum_of(keys: &Keys, fields: &[u8]) -> [u8; CODE_SIZE]
    requires live { keys.now.wiped ≡ false }
    requires purpose { keys.now.purpose ≡ Checksum }
    requires limit { length fields.now ≤ frame_limit }
    ensures { Sums keys.now.key fields.now result }
{
    let around = covering_of(fields.len());
    let headers = (around.message.as_slice(), around.sequence.as_slice());
    keys.checksum(&[headers.0, headers.1, fields, &around.last])
}

/// How many bytes stand around the fields at most: two tags with their lengths, and the field of no
/// checksum.
const MOST_AROUND: usize = 23;

/// The bytes under the checksum of each message that has these fields before its checksum, in one
/// piece.
pub fn checksum_input(alloc: Global, fields: &[u8]) -> Result<Vec<u8>, AllocError>
    requires { length fields.now ≤ frame_limit }
    ensures { IfOk result (λ v. IsCovered fields.now v.items) }
{
    let mut bytes = Vec::with_capacity(alloc, MOST_AROUND + fields.len())?;
    put_checksum_input(&mut bytes, fields)?;
    Ok(bytes)
}

/// Appends the bytes under the checksum of each message that has these fields, of at most 1,005,000
/// bytes, before its checksum (RFC 4120 section 5.6.1). The only error is out of memory; nobody knows
/// then what was appended.
pub fn put_checksum_input(bytes: &mut Vec<u8>, fields: &[u8]) -> Result<(), AllocError>
    requires limit { length fields.now ≤ frame_limit }
    ensures input { OnOk result (PutsCovered fields.now bytes.old.items bytes.new.items) }
{
    let around = covering_of(fields.len());
    bytes.extend_from_slice(around.message.as_slice())?;
    bytes.extend_from_slice(around.sequence.as_slice())?;
    bytes.extend_from_slice(fields)?;
    bytes.extend_from_slice(&around.last)
}
