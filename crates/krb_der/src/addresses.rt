//! Both addresses of a body (RFC 4120 sections 5.6.1 and 5.7.1), encoded once for many messages.

ghost use Rattle.std.specs.Prelude.{◌≡◌, IfOk, IfSome};
ghost use Rattle.krb_der.specs.Addresses.{address_fields};
ghost use Rattle.krb_tlv.specs.Writing.{IsShort};

use crate::address::HostAddress;
use crate::body::{addresses_size, borrowed_address, write_addresses};
use krb_tlv::Writer;
use std::alloc::{AllocError, Global};
use std::marker::Model;

/// The sender's and the receiver's address, with the fields that they are in a body, encoded: so
/// many messages between them encode them once.
#[derive(Drop)]
pub struct Addresses<'a> {
    s_addr: &'a HostAddress,
    r_addr: &'a Option<HostAddress>,
    encoded: Vec<u8>,
}

impl<'a> Model for Addresses<'a> {
    ghost use Rattle.std.specs.Prelude.{◌≡◌};
    ghost use Rattle.krb_der.specs.Addresses.{AddressPair, address_fields};

    ghost Value = { AddressPair };

    ghost view = { λ a. record { s_addr = a.s_addr.now; r_addr = a.r_addr.now } };

    ghost invariant = { λ a. a.encoded.items ≡ address_fields a.s_addr.now a.r_addr.now };
}

impl<'a> Addresses<'a> {
    /// These addresses, each of at most 1,005,000 bytes, encoded as the fields s-address and
    /// r-address of a body (RFC 4120 sections 5.6.1 and 5.7.1). The only error is out of memory.
    pub fn new(
        alloc: Global,
        s_addr: &'a HostAddress,
        r_addr: &'a Option<HostAddress>,
    ) -> Result<Addresses<'a>, AllocError>
        requires sender { IsShort s_addr.now.bytes }
        requires receiver { IfSome r_addr.now (λ a. IsShort a.bytes) }
        ensures sender { IfOk result (λ addresses. addresses.s_addr ≡ s_addr.now) }
        ensures receiver { IfOk result (λ addresses. addresses.r_addr ≡ r_addr.now) }
    {
        let (sender, receiver) = (s_addr.borrowed(), borrowed_address(r_addr));
        let mut out = Writer::with_capacity(alloc, addresses_size(&sender, &receiver))?;
        write_addresses(&mut out, &sender, &receiver)?;
        Ok(Addresses {
            s_addr,
            r_addr,
            encoded: out.into_vec(),
        })
    }

    /// Both addresses, and the fields that they are.
    pub(crate) fn encoded(&self) -> (&HostAddress, &Option<HostAddress>, &[u8])
        ensures sender { result.0.now ≡ self.now.s_addr }
        ensures receiver { result.1.now ≡ self.now.r_addr }
        ensures encoded { result.2.now ≡ address_fields self.now.s_addr self.now.r_addr }
    {
        (self.s_addr, self.r_addr, self.encoded.as_slice())
    }
}
