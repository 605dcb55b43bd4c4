//! What a message says of itself before any key is chosen.

ghost use Rattle.std.specs.Prelude.{◌≡◌, IfOk};
ghost use Rattle.krb_structs.specs.Header.{ReadsHeader, header_of_priv, header_of_safe};
ghost use Rattle.krb_structs.specs.Fault.{answer_of};
ghost use Rattle.krb_structs.specs.Reasons.{HeaderAnswer};

use crate::fault::Fault;
use krb_der::{DerError, MessageRef, PrivRef, SafeRef, decode_borrowed};
use krb_seal::Refusal;

/// What a message says of itself in clear. None of it is authentic until the message is opened.
#[repr(C)]
#[derive(Clone, Copy)]
pub struct KrbHeader {
    /// 20 for KRB-SAFE, 21 for KRB-PRIV: the tag of the message.
    pub kind: u32,
    /// The encryption type of KRB-PRIV; 0 for KRB-SAFE, which tells none.
    pub etype: i32,
    /// The checksum type of KRB-SAFE, 15 under encryption type 17 and 16 under 18; 0 for KRB-PRIV.
    pub checksum_type: i32,
    /// Whether `number` is present: 0 if it isn't.
    pub has_number: u32,
    /// The sequence number of KRB-SAFE; that of KRB-PRIV is encrypted.
    pub number: u32,
    /// Whether `key_version` is present: 0 if it isn't.
    pub has_key_version: u32,
    /// The version of the key of KRB-PRIV; KRB-SAFE tells none.
    pub key_version: u32,
    /// Zero.
    pub reserved: u32,
}

fn safe_header(m: &SafeRef<'_>) -> KrbHeader
    ensures { result ≡ header_of_safe m.now }
{
    KrbHeader {
        kind: 20,
        etype: 0,
        checksum_type: m.cksum_type(),
        has_number: u32::from(m.body().seq().is_some()),
        number: m.body().seq().unwrap_or(0),
        has_key_version: 0,
        key_version: 0,
        reserved: 0,
    }
}

fn priv_header(m: &PrivRef<'_>) -> KrbHeader
    ensures { result ≡ header_of_priv m.now }
{
    KrbHeader {
        kind: 21,
        etype: m.etype(),
        checksum_type: 0,
        has_number: 0,
        number: 0,
        has_key_version: u32::from(m.kvno().is_some()),
        key_version: m.kvno().unwrap_or(0),
        reserved: 0,
    }
}

/// What the message that the bytes spell says of itself. Nothing is allocated.
pub fn message_header(frame: &[u8]) -> Result<KrbHeader, Fault>
    ensures read { IfOk result (ReadsHeader frame.now) }
    ensures answer { HeaderAnswer frame.now (answer_of result) }
{
    match decode_borrowed(frame) {
        Ok(MessageRef::Safe(m)) => Ok(safe_header(&m)),
        Ok(MessageRef::Priv(m)) => Ok(priv_header(&m)),
        Err(DerError::TooLong) => Err(Fault::Refused(Refusal::FieldTooLong)),
        Err(DerError::Malformed) => Err(Fault::Refused(Refusal::Malformed)),
        Err(DerError::Memory) => unreachable!(),
    }
}
