//! Identifier octets (X.690 section 8.1.2).

/// INTEGER.
pub const INTEGER: u8 = 0x02;
/// OCTET STRING.
pub const OCTET_STRING: u8 = 0x04;
/// GeneralizedTime.
pub const GENERALIZED_TIME: u8 = 0x18;
/// SEQUENCE.
pub const SEQUENCE: u8 = 0x30;
/// The explicit tags `[0]` to `[5]` of fields.
pub const FIELD_0: u8 = 0xA0;

pub const FIELD_1: u8 = 0xA1;

pub const FIELD_2: u8 = 0xA2;

pub const FIELD_3: u8 = 0xA3;

pub const FIELD_4: u8 = 0xA4;

pub const FIELD_5: u8 = 0xA5;
