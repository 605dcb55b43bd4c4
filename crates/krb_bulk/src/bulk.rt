//! Messages of one call, one by one.

ghost use Rattle.std.specs.Prelude.{◌≡◌, ◌<◌, length, IfOk, Some};
ghost use Rattle.krb_der.specs.Moment.{secs_of, usec_of};
ghost use Rattle.krb_der.specs.Body.{InRange};
ghost use Rattle.krb_seal.specs.Body.{IsSmall};
ghost use Rattle.krb_bulk.specs.BulkInside.{CarriesAt, IsReady, SealsAt};

use crate::unsealed::Unsealed;
use krb_der::{Addresses, BodyRef, Moment};
use krb_seal::{SealerParts, frame_of};
use std::alloc::{AllocError, Global};

/// Messages of one call, and what seals them.
#[derive(Drop)]
pub struct Bulk<'a, 'b, 'c> {
    pub parts: SealerParts<'a>,
    /// The number of the first.
    pub next: u64,
    pub messages: &'b [Unsealed<'c>],
    /// The addresses of its session.
    pub addresses: &'b Addresses<'a>,
}

/// What a message between these addresses carries.
fn body_of<'a>(
    addresses: &'a Addresses<'_>,
    user_data: &'a [u8],
    at: Moment,
    number: u32,
) -> BodyRef<'a>
    ensures body { result ≡ record {
      user_data = user_data.now;
      time = Some (secs_of at);
      usec = Some (usec_of at);
      seq = Some number;
      s_addr = addresses.now.s_addr;
      r_addr = addresses.now.r_addr;
    } }
    ensures range { InRange result }
{
    BodyRef::between(user_data, at, number, addresses)
}

impl Bulk<'_, '_, '_> {
    /// What the message with this index carries.
    pub fn body(&self, index: usize) -> BodyRef<'_>
        requires ready { IsReady self.now }
        requires index { index < length self.now.messages.now }
        ensures body { CarriesAt self.now index result }
        ensures range { InRange result }
        ensures small { IsSmall result }
    {
        let message = &self.messages[index];
        let number = (self.next + index as u64) as u32;
        body_of(self.addresses, message.user_data, message.at, number)
    }

    /// The frame of the message with this index.
    pub fn frame(&self, alloc: Global, index: usize) -> Result<Vec<u8>, AllocError>
        requires ready { IsReady self.now }
        requires index { index < length self.now.messages.now }
        ensures { IfOk result (λ frame. SealsAt self.now index frame.items) }
    {
        let parts = &self.parts;
        frame_of(
            alloc,
            parts.keys,
            parts.etype,
            parts.session.mode,
            self.body(index),
            self.messages[index].confounder,
        )
    }
}
