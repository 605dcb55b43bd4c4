//! The key of a file.

ghost use Rattle.std.specs.Prelude.{◌≡◌, ◌⊎◌, ◌↔◌, IfOk, IfErr, IfSome, IsTrue, None, Some};
ghost use Rattle.krb_commands.specs.Fault.{IsOfKey};
ghost use Rattle.krb_commands.specs.Key as key;

use crate::digits::{decode_secret, digits_of};
use crate::fault::{Fault, KeyFault};
use crate::input::read_all;
use crate::openers::Openers;
use krb_base::Secret;
use krb_seal::Etype;
use std::alloc::{AllocError, Global};
use std::io::Read;

/// Reads a file that holds a key, and makes the openers under it.
///
/// The key is what the digits of the file spell, or else the bytes of the file themselves: 16 for
/// encryption type 17, and 32 for 18. If a type is stated, the key has to be of it. What was read is
/// overwritten before it is freed.
pub fn read_key<R: Read>(
    alloc: Global,
    file: &mut R,
    stated: Option<Etype>,
) -> Result<Openers, Fault>
    ensures found { IfOk result (λ openers. IfSome (R.remaining file.old) (λ bytes.
        key.key_in bytes ≡ Some openers)) }
    ensures stated { IfOk result (λ openers. key.IsStated stated openers.etype) }

    ensures no_key { result ≡ Err (Fault.Key KeyFault.NoKey)
        → IfSome (R.remaining file.old) (λ bytes. key.key_in bytes ≡ None) }
    ensures other_type { result ≡ Err (Fault.Key KeyFault.OtherType)
        → IfSome (R.remaining file.old) (key.HasOtherType stated) }
    ensures faults { IfErr result IsOfKey }
{
    let bytes = read_file(alloc, file)?;
    let Some(openers) = key_in(alloc, bytes.as_slice())? else {
        return Err(Fault::Key(KeyFault::NoKey));
    };
    if !is_stated(stated, openers.etype()) {
        return Err(Fault::Key(KeyFault::OtherType));
    }
    Ok(openers)
}

/// Whether a type is the one that is stated, if one is.
fn is_stated(stated: Option<Etype>, etype: Etype) -> bool
    ensures { IsTrue result ↔ key.IsStated stated etype }
{
    match stated {
        Some(wanted) => etype == wanted,
        None => true,
    }
}

/// All bytes of a file.
fn read_file<R: Read>(alloc: Global, file: &mut R) -> Result<Secret, Fault>
    ensures whole { IfOk result (λ bytes. IfSome (R.remaining file.old) (λ all. bytes ≡ all)) }
    ensures faults { IfErr result (λ fault.
        (fault ≡ Fault.Memory) ⊎ (fault ≡ Fault.Key KeyFault.Unreadable)) }
{
    match read_all(alloc, file) {
        Ok(bytes) => Ok(bytes),
        Err(Fault::Memory) => Err(Fault::Memory),
        Err(_) => Err(Fault::Key(KeyFault::Unreadable)),
    }
}

/// The openers under the key of a file, if it holds one.
fn key_in(alloc: Global, file: &[u8]) -> Result<Option<Openers>, AllocError>
    ensures { IfOk result (λ openers. openers ≡ key.key_in file.now) }
{
    let digits = digits_of(alloc, file)?;
    if let Some(spelt) = decode_secret(alloc, digits.as_slice())? {
        if let Some(openers) = openers_of(alloc, spelt.as_slice()) {
            return Ok(Some(openers));
        }
    }
    Ok(openers_of(alloc, file))
}

/// The openers under the bytes as a key.
fn openers_of(alloc: Global, bytes: &[u8]) -> Option<Openers>
    ensures { result ≡ key.key_of_bytes bytes.now }
{
    match Openers::new(alloc, Etype::Aes128, bytes) {
        Some(openers) => Some(openers),
        None => Openers::new(alloc, Etype::Aes256, bytes),
    }
}
