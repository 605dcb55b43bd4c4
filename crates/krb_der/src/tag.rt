//! Identifier octets: those of the messages (RFC 4120 section 5.10), and those of all DER.

pub use krb_tlv::{
    FIELD_0, FIELD_1, FIELD_2, FIELD_3, FIELD_4, FIELD_5, GENERALIZED_TIME, INTEGER, OCTET_STRING,
    SEQUENCE,
};

/// KRB-SAFE, `[APPLICATION 20]`.
pub const KRB_SAFE: u8 = 0x74;
/// KRB-PRIV, `[APPLICATION 21]`.
pub const KRB_PRIV: u8 = 0x75;
/// EncKrbPrivPart, `[APPLICATION 28]`.
pub const ENC_KRB_PRIV_PART: u8 = 0x7C;
