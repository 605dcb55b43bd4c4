//! Writing of elements from left to right (X.690 section 8.1).

ghost use Rattle.std.specs.Prelude.{◌≡◌, ◌+◌, ◌<◌, ◌≤◌, ◌^◌, ◌++◌, [], length, IfOk, OnOk};
ghost use Rattle.krb_tlv.specs.Element.{header, octets, tagged};
ghost use Rattle.krb_tlv.specs.Writing.{IsShort, element_size};

use crate::header::Header;
use crate::length::length_size;
use crate::tag;
use std::alloc::{AllocError, Global};
use std::marker::Model;

/// A spelling that is being written, from left to right, into one `Vec`.
#[derive(Drop)]
pub struct Writer {
    bytes: Vec<u8>,
}

impl Model for Writer {
    ghost use Rattle.std.specs.Prelude.{List, ℕ};

    ghost Value = { List ℕ };

    ghost view = { λ w. w.bytes.items };
}

impl Writer {
    /// A writer with room for so many bytes: the only allocation, if no more are written.
    pub fn with_capacity(alloc: Global, capacity: usize) -> Result<Writer, AllocError>
        ensures { IfOk result (λ w. w ≡ []) }
    {
        let bytes = Vec::with_capacity(alloc, capacity)?;
        Ok(Writer { bytes })
    }

    /// A writer that goes on after these bytes.
    pub fn after(bytes: Vec<u8>) -> Writer
        ensures { result ≡ bytes.items }
    {
        Writer { bytes }
    }

    /// How many bytes are written.
    pub fn len(&self) -> usize
        ensures { result ≡ length self.now }
    {
        self.bytes.len()
    }

    /// Adds bytes.
    pub fn put(&mut self, bytes: &[u8]) -> Result<(), AllocError>
        ensures { OnOk result (self.new ≡ self.old ++ bytes.now) }
    {
        self.bytes.extend_from_slice(bytes)
    }

    /// Adds what comes before a content of so many bytes: its tag and its length.
    #[tactic(auto, unfolding(crate::specs::Element::header, crate::specs::Length::length_octets))]
    pub fn begin(&mut self, tag: u8, content: usize) -> Result<(), AllocError>
        requires { content < 2 ^ 24 }
        ensures { OnOk result (self.new ≡ self.old ++ header tag content) }
    {
        if content < 128 {
            return self.put(&[tag, content as u8]);
        }
        self.put(Header::new(tag, content).as_slice())
    }

    /// Adds what comes before a content of so many bytes that stands in an element within an element
    /// (X.690 section 8.1): the tags and the lengths of both. The only error is out of memory; nobody
    /// knows then what was written.
    #[tactic(auto, unfolding(crate::specs::Element::header, crate::specs::Length::length_octets))]
    pub fn begin_two(&mut self, outer: u8, inner: u8, content: usize) -> Result<(), AllocError>
        requires limit { content + 6 < 2 ^ 24 }
        ensures headers { OnOk result (self.new
            ≡ self.old ++ (header outer (element_size content) ++ header inner content)) }
    {
        if content < 126 {
            let size = content as u8;
            return self.put(&[outer, size + 2, inner, size]);
        }
        if content >= 128 && content < 253 {
            let size = content as u8;
            return self.put(&[outer, 0x81, size + 3, inner, 0x81, size]);
        }
        self.begin(outer, size_around(content))?;
        self.begin(inner, content)
    }

    /// Adds an element with this content.
    #[tactic(auto, unfolding(crate::specs::Element::tagged))]
    pub fn element(&mut self, tag: u8, content: &[u8]) -> Result<(), AllocError>
        requires { length content.now < 2 ^ 24 }
        ensures { OnOk result (self.new ≡ self.old ++ tagged tag content.now) }
    {
        self.begin(tag, content.len())?;
        self.put(content)
    }

    /// Adds an OCTET STRING under the tag of a field (X.690 section 8.7).
    pub fn octets_field(&mut self, tag: u8, bytes: &[u8]) -> Result<(), AllocError>
        requires { IsShort bytes.now }
        ensures { OnOk result (self.new ≡ self.old ++ tagged tag (octets bytes.now)) }
    {
        self.begin_two(tag, tag::OCTET_STRING, bytes.len())?;
        self.put(bytes)
    }

    /// The spelling.
    pub fn into_vec(self) -> Vec<u8>
        ensures { result.items ≡ self }
    {
        let Writer { bytes } = self;
        bytes
    }
}

/// How many bytes an element has whose content has so many.
pub fn size_around(content: usize) -> usize
    requires { content < 2 ^ 24 }
    ensures value { result ≡ element_size content }
    ensures bound { result < content + 6 }
{
    1 + length_size(content) + content
}
