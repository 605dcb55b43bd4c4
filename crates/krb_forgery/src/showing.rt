//! The bytes under the code of a frame, and the code that it has.

ghost use Rattle.std.specs.Prelude.{◌≡◌, IfSome};
ghost use Rattle.krb_seal.specs.Covered.{bytes_of};
ghost use Rattle.krb_forgery.specs.Forgery.{Has, code_in};

use krb_seal::{Covered, Opener};
use std::alloc::Global;

/// The bytes under the code of a frame: of a KRB-SAFE the message with an empty checksum, of a KRB-PRIV its deciphered
/// text. There are none if the frame is no message whose header passes its checks, nor without memory, nor once the
/// opener is wiped.
pub fn shown<'f>(opener: &Opener, alloc: Global, frame: &'f [u8]) -> Option<Covered<'f>>
    ensures { IfSome result (λ covered. Has opener.now.key frame.now (bytes_of covered) (code_in covered)) }
{
    let covered = opener.covered(alloc, frame)?;
    Some(covered)
}

/// The code that the frame has: of a KRB-SAFE its checksum, of a KRB-PRIV what follows its cipher.
pub fn code_in<'c>(covered: &'c Covered<'_>) -> &'c [u8]
    ensures { result.now ≡ code_in covered.now }
{
    match covered {
        Covered::Safe(message, _) => message.checksum(),
        Covered::Priv(_, _, code) => code,
    }
}
