//! What is inside a message.

use krb_der::Body;
use krb_seal::Refusal;

/// What a key gives of a message.
#[derive(Debug, Drop)]
pub enum Inside {
    /// There is no key.
    Unasked,
    /// The message is authentic, and carries this.
    Opened(Body),
    /// The message isn't opened.
    Refused(Refusal),
}
