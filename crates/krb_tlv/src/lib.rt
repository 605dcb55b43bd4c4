//! Tag, length, value: the part of DER (X.690) that the messages of Kerberos V5 need. Elements,
//! lengths in their shortest form, OCTET STRING, and INTEGER of at most 32 bits are read from left
//! to right ([`Reader`]) and written so ([`Writer`]).
//!
//! Reading copies nothing: what is read is a number, or bytes where they lie. It gives `None` if and only
//! if what is asked for doesn't stand there in its one DER encoding. Writing fails only if memory runs out.
#![tactic(auto)]

mod header;
mod integer;
mod length;
mod reader;
mod tag;
mod writer;

pub use header::Header;
pub use integer::{
    UINT32_LIMIT, int32_field_size, known_int32, known_uint32, natural_field_size,
    read_int32_field, read_optional_natural, write_int32_field, write_natural_field,
};
pub use reader::{Reader, only_element, read_octets_field};
pub use tag::{
    FIELD_0, FIELD_1, FIELD_2, FIELD_3, FIELD_4, FIELD_5, GENERALIZED_TIME, INTEGER, OCTET_STRING,
    SEQUENCE,
};
pub use writer::{Writer, size_around};
