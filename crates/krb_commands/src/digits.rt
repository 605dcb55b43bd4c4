//! The digits of a text.

ghost use Rattle.std.specs.Prelude.{◌≡◌, IfOk};
ghost use Rattle.std.specs.Result.{result_ok};
ghost use Rattle.hex.specs.Hex.{decode_of};
ghost use Rattle.krb_commands.specs.Digits as digits;

use krb_base::Secret;
use std::alloc::{AllocError, Global};

/// The bytes of a text without the separators, which may stand between digits.
pub(crate) fn digits_of(alloc: Global, text: &[u8]) -> Result<Secret, AllocError>
    ensures { IfOk result (λ bytes. bytes ≡ digits.digits_of text.now) }
{
    let mut bytes = text.to_vec(alloc)?;
    bytes.retain(|byte| !is_separator(*byte));
    Ok(Secret::new(bytes))
}

fn is_separator(byte: u8) -> bool
    ensures { result ≡ digits.is_separator byte }
{
    matches!(byte, b' ' | b'\t' | b'\n' | b'\r' | b':')
}

/// The bytes that digits spell, if they spell any, in a block that is overwritten before it is
/// freed: also if a digit is none.
pub(crate) fn decode_secret(alloc: Global, digits: &[u8]) -> Result<Option<Secret>, AllocError>
    ensures { IfOk result (λ bytes. bytes ≡ result_ok (decode_of digits.now)) }
{
    let mut bytes = vec![in alloc; 0; digits.len() / 2]?;
    let decoded = hex::decode_to_slice(digits, &mut bytes);
    let secret = Secret::new(bytes);
    match decoded {
        Ok(()) => Ok(Some(secret)),
        Err(_) => Ok(None),
    }
}
