//! What bytes spell as a body, with data and addresses where they lie.

ghost use Rattle.std.specs.Prelude.{◌≡◌, ◌++◌, None, IfNone, IfSome};
ghost use Rattle.krb_time.specs.Reading.{time_of};
ghost use Rattle.krb_tlv.specs.Reading.{Finds, Takes, optional_at};
ghost use Rattle.krb_der.specs.Reading.{EndsWith, time_element_of, address_of, after_of, body_of};

use crate::address::{AddressRef, read_address};
use crate::body::BodyRef;
use crate::tag;
use krb_time::{LAST_USEC, read_kerberos_time};
use krb_tlv::{Reader, UINT32_LIMIT, only_element, read_optional_natural};

/// The first number that is no count of microseconds beyond a second.
const MICROSECONDS_END: u64 = LAST_USEC as u64 + 1;

/// The second whose text the bytes are.
fn time_at(text: &[u8]) -> Option<u64>
    ensures { result ≡ time_of text.now }
{
    read_kerberos_time(text)
}

fn read_time(bytes: &[u8]) -> Option<u64>
    ensures { Finds (λ x. x) result (time_element_of bytes.now) }
{
    let mut reader = Reader::new(bytes);
    let secs = time_at(reader.element(tag::GENERALIZED_TIME)?)?;
    reader.finish(secs)
}

#[tactic(auto, unfolding(krb_tlv::specs::Reading::optional_at))]
fn read_optional_time(fields: &mut Reader<'_>, tag: u8) -> Option<Option<u64>>
    ensures { Takes (λ x. x) result fields.new (optional_at tag time_element_of fields.old) }
{
    if !fields.is_at(tag) {
        return Some(None);
    }
    let secs = read_time(fields.element(tag)?)?;
    Some(Some(secs))
}

#[tactic(auto, unfolding(krb_tlv::specs::Reading::optional_at))]
fn read_optional_address<'a>(fields: &mut Reader<'a>, tag: u8) -> Option<Option<AddressRef<'a>>>
    ensures { Takes (λ x. x) result fields.new (optional_at tag address_of fields.old) }
{
    if !fields.is_at(tag) {
        return Some(None);
    }
    let address = read_address(fields.element(tag)?)?;
    Some(Some(address))
}

/// The data of the body that the bytes spell, and the fields after them, which are the last of the
/// bytes.
#[tactic(auto, unfolding(crate::specs::Reading::body_of, krb_tlv::specs::Reading::octets_of))]
pub fn split_data(bytes: &[u8]) -> Option<(&[u8], &[u8])>
    ensures fields { IfSome result (λ x. body_of bytes.now ≡ after_of x.0.now x.1.now) }
    ensures none { IfNone result (body_of bytes.now ≡ None) }
    ensures place { IfSome result (λ x. EndsWith (x.0.now ++ x.1.now) bytes.now) }
{
    let mut fields = Reader::inside(tag::SEQUENCE, bytes)?;
    let data = only_element(tag::OCTET_STRING, fields.element(tag::FIELD_0)?)?;
    Some((data, fields.rest()))
}

/// The body with these data whose fields after them the bytes spell.
#[tactic(auto, unfolding(crate::specs::Reading::after_of))]
pub fn read_after<'a>(user_data: &'a [u8], bytes: &'a [u8]) -> Option<BodyRef<'a>>
    ensures found { Finds (λ x. x) result (after_of user_data.now bytes.now) }
    ensures data { IfSome result (λ x. x.user_data ≡ user_data.now) }
{
    let mut fields = Reader::new(bytes);
    let time = read_optional_time(&mut fields, tag::FIELD_1)?;
    let usec = read_optional_natural(&mut fields, tag::FIELD_2, MICROSECONDS_END)?;
    let seq = read_optional_natural(&mut fields, tag::FIELD_3, UINT32_LIMIT)?;
    let s_addr = read_address(fields.element(tag::FIELD_4)?)?;
    let r_addr = read_optional_address(&mut fields, tag::FIELD_5)?;
    fields.finish(BodyRef {
        user_data,
        time,
        usec,
        seq,
        s_addr,
        r_addr,
        addresses: None,
    })
}

/// The body that the bytes spell.
pub fn read_body(bytes: &[u8]) -> Option<BodyRef<'_>>
    ensures { Finds (λ x. x) result (body_of bytes.now) }
{
    let (user_data, following) = split_data(bytes)?;
    read_after(user_data, following)
}
