//! What the integrity code of a frame is computed over, and that code.

ghost use Rattle.std.specs.Prelude.{◌≡◌};
ghost use Rattle.krb_seal.specs.Covered.{bytes_of};

use krb_base::Secret;
use krb_der::{PrivRef, SafeRef};
use krb_etype::CODE_SIZE;

/// A message whose header passed its checks, and what its integrity code is computed over. A deciphered
/// text is overwritten before it is freed.
#[derive(Drop)]
pub enum Covered<'a> {
    /// A KRB-SAFE, and the bytes under its checksum (RFC 4120 section 5.6.1).
    Safe(SafeRef<'a>, Vec<u8>),
    /// A KRB-PRIV, its deciphered text, and the code after its cipher.
    Priv(PrivRef<'a>, Secret, [u8; CODE_SIZE]),
}

impl<'a> Covered<'a> {
    /// What the code is computed over.
    pub fn bytes(&self) -> &[u8]
        ensures { result.now ≡ bytes_of self.now }
    {
        match self {
            Covered::Safe(_, bytes) => bytes.as_slice(),
            Covered::Priv(_, text, _) => text.as_slice(),
        }
    }
}

/// The same, and the code of these bytes: what the message's own code ought to be.
#[derive(Drop)]
pub struct Coded<'a> {
    /// The message and the bytes.
    pub covered: Covered<'a>,
    /// The code of the bytes.
    pub code: [u8; CODE_SIZE],
}
