//! What stands before the content of an element (X.690 sections 8.1.2 and 8.1.3).

ghost use Rattle.std.specs.Prelude.{◌≡◌, ◌<◌, ◌^◌};
ghost use Rattle.krb_tlv.specs.Element.{header};

use std::marker::Model;

/// The tag and the length of an element, each in the fewest bytes. Nothing is allocated for them.
#[derive(Drop)]
pub struct Header {
    octets: [u8; 5],
    len: usize,
}

impl Model for Header {
    ghost use Rattle.std.specs.Prelude.{List, ℕ, ◌≤◌, take};

    ghost Value = { List ℕ };

    ghost view = { λ h. take h.len h.octets };

    ghost invariant = { λ h. h.len ≤ 5 };
}

impl Header {
    /// The header of an element with this tag whose content has so many bytes.
    #[tactic(auto, unfolding(crate::specs::Element::header, crate::specs::Length::length_octets))]
    pub fn new(tag: u8, content: usize) -> Header
        requires { content < 2 ^ 24 }
        ensures { result ≡ header tag content }
    {
        if content < 128 {
            return Header {
                octets: [tag, content as u8, 0, 0, 0],
                len: 2,
            };
        }
        if content < 256 {
            return Header {
                octets: [tag, 0x81, content as u8, 0, 0],
                len: 3,
            };
        }
        let low = (content % 256) as u8;
        if content < 65536 {
            return Header {
                octets: [tag, 0x82, (content / 256) as u8, low, 0],
                len: 4,
            };
        }
        let high = (content / 65536) as u8;
        Header {
            octets: [tag, 0x83, high, (content / 256 % 256) as u8, low],
            len: 5,
        }
    }

    /// Its bytes.
    pub fn as_slice(&self) -> &[u8]
        ensures { result.now ≡ self.now }
    {
        &self.octets[..self.len]
    }
}
