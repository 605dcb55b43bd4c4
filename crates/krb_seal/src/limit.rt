//! Spellings that are known to be within the limit of a message.

ghost use Rattle.std.specs.Prelude.{◌≡◌, IfOk};
ghost use Rattle.std.specs.Result.{ForErr};
ghost use Rattle.krb_der.specs.declared.error.DerError.TheVariants as errors;

use krb_der::DerError;
use std::alloc::AllocError;

/// An encoding within the limit fails only if it runs out of memory.
pub fn within_limit<T>(spelling: Result<T, DerError>) -> Result<T, AllocError>
    requires { ForErr spelling (λ e. e ≡ errors.Memory) }
    ensures { IfOk result (λ v. spelling ≡ Ok v) }
{
    match spelling {
        Ok(spelling) => Ok(spelling),
        Err(_) => Err(AllocError),
    }
}
