//! Reading of elements from left to right (X.690 section 8.1).

ghost use Rattle.std.specs.Prelude.{◌≡◌, Some};
ghost use Rattle.krb_tlv.specs.Reading.{Finds, Takes, ended, tagged_at, field_at, alone, octets_of, starts_with};

use crate::length::read_length;
use crate::tag;
use std::marker::Model;

/// What is left to read of a spelling, from left to right.
#[derive(Drop)]
pub struct Reader<'a> {
    rest: &'a [u8],
}

impl<'a> Model for Reader<'a> {
    ghost use Rattle.std.specs.Prelude.{List, ℕ};

    ghost Value = { List ℕ };

    ghost view = { λ r. r.rest.now };
}

impl<'a> Reader<'a> {
    /// A reader of all the bytes.
    pub fn new(bytes: &'a [u8]) -> Reader<'a>
        ensures { result ≡ bytes.now }
    {
        Reader { rest: bytes }
    }

    /// A reader of the content of the one element that the bytes are.
    pub fn inside(tag: u8, bytes: &'a [u8]) -> Option<Reader<'a>>
        ensures { Finds (λ r. r) result (alone tag Some bytes.now) }
    {
        let content = only_element(tag, bytes)?;
        Some(Reader::new(content))
    }

    /// Whether an element with this tag begins here.
    pub fn is_at(&self, tag: u8) -> bool
        ensures { result ≡ starts_with tag self.now }
    {
        match self.rest {
            [] => false,
            [first, ..] => *first == tag,
        }
    }

    /// The content of the element with this tag that begins here.
    pub fn element(&mut self, tag: u8) -> Option<&'a [u8]>
        ensures { Takes (λ x. x.now) result self.new (tagged_at tag self.old) }
    {
        let (content, rest) = split_element(tag, self.rest)?;
        self.rest = rest;
        Some(content)
    }

    /// What is left.
    pub fn rest(&self) -> &'a [u8]
        ensures { result.now ≡ self.now }
    {
        self.rest
    }

    /// The value, if nothing is left.
    pub fn finish<T: Drop>(&self, value: T) -> Option<T>
        ensures { Finds (λ x. x) result (ended value self.now) }
    {
        if self.rest.is_empty() {
            Some(value)
        } else {
            None
        }
    }
}

/// The content of the first element, which has this tag, and what follows it.
#[tactic(auto, unfolding(crate::specs::Reading::tagged_at))]
fn split_element(tag: u8, bytes: &[u8]) -> Option<(&[u8], &[u8])>
    ensures { Finds (λ x. (x.0.now, x.1.now)) result (tagged_at tag bytes.now) }
{
    match bytes {
        [] => None,
        [first, rest @ ..] => {
            if *first != tag {
                return None;
            }
            let (size, rest) = read_length(rest)?;
            let size = size as usize;
            if rest.len() < size {
                return None;
            }
            Some(rest.split_at(size))
        }
    }
}

/// The content of the one element that the bytes are.
pub fn only_element(tag: u8, bytes: &[u8]) -> Option<&[u8]>
    ensures { Finds (λ x. x.now) result (alone tag Some bytes.now) }
{
    let (content, rest) = split_element(tag, bytes)?;
    if !rest.is_empty() {
        return None;
    }
    Some(content)
}

/// The bytes of the OCTET STRING of a field (X.690 section 8.7), where they lie.
#[tactic(auto, unfolding(crate::specs::Reading::field_at, crate::specs::Reading::octets_of))]
pub fn read_octets_field<'a>(fields: &mut Reader<'a>, tag: u8) -> Option<&'a [u8]>
    ensures { Takes (λ x. x.now) result fields.new (field_at tag octets_of fields.old) }
{
    only_element(tag::OCTET_STRING, fields.element(tag)?)
}
