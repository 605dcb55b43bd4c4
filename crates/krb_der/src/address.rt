//! Network addresses (RFC 4120 section 5.2.5).

ghost use Rattle.std.specs.Prelude.{◌≡◌, ◌↔◌, IsTrue, IfOk};
ghost use Rattle.krb_der.specs.Address.{IsAddress, same_address};
ghost use Rattle.krb_tlv.specs.Reading.{Finds};
ghost use Rattle.krb_der.specs.Reading.{address_of};

use crate::typed::read_typed;
use krb_base::Bytes;
use krb_tlv::known_int32;
use std::alloc::{AllocError, Global};
use std::marker::Model;

/// A network address (RFC 4120 section 5.2.5).
///
/// It has any number of bytes; those of a session (`krb_seal::Session`) have at most 40.
#[derive(Debug, Drop)]
pub struct HostAddress {
    /// The type of the address, 2 for IPv4 (RFC 4120 section 7.5.3).
    pub kind: i32,
    /// Its bytes, in network order.
    pub bytes: Bytes,
}

impl HostAddress {
    /// The address of this type with a copy of these bytes, which are in network order.
    pub fn new(alloc: Global, kind: i32, bytes: &[u8]) -> Result<HostAddress, AllocError>
        ensures kind { IfOk result (λ address. address.kind ≡ kind) }
        ensures bytes { IfOk result (λ address. address.bytes ≡ bytes.now) }
    {
        Ok(HostAddress {
            kind,
            bytes: Bytes::new(Vec::from_slice(alloc, bytes)?),
        })
    }

    /// Whether type and bytes are equal.
    pub fn same(&self, other: &HostAddress) -> bool
        ensures same { IsTrue result ↔ (self.now ≡ other.now) }
        ensures test { result ≡ same_address self.now other.now }
    {
        self.kind == other.kind && self.bytes.as_slice() == other.bytes.as_slice()
    }
}

/// The same address, with bytes of its own. The only error is out of memory.
impl Clone for HostAddress {
    ghost is_clone = { λ address copy. copy ≡ address };

    fn clone(&self) -> Result<HostAddress, AllocError> {
        Ok(HostAddress {
            kind: self.kind,
            bytes: self.bytes.clone()?,
        })
    }
}

/// A [`HostAddress`] whose bytes are borrowed.
#[derive(Drop)]
pub struct AddressRef<'a> {
    kind: i32,
    bytes: &'a [u8],
}

impl<'a> Model for AddressRef<'a> {
    ghost use Rattle.krb_der.specs.declared.address.HostAddress.{HostAddress};

    ghost Value = { HostAddress };

    ghost view = { λ a. record { kind = a.kind; bytes = a.bytes.now } };
}

impl HostAddress {
    /// The address, borrowed.
    pub fn borrowed(&self) -> AddressRef<'_>
        ensures { result ≡ self.now }
    {
        AddressRef {
            kind: self.kind,
            bytes: self.bytes.as_slice(),
        }
    }
}

impl<'a> AddressRef<'a> {
    /// Its type.
    pub(crate) fn kind(&self) -> &i32
        ensures { result.now ≡ self.now.kind }
    {
        &self.kind
    }

    /// Its bytes, in network order.
    pub(crate) fn bytes(&self) -> &'a [u8]
        ensures { result.now ≡ self.now.bytes }
    {
        self.bytes
    }

    /// Whether type and bytes are those of an address.
    pub fn is(&self, address: &HostAddress) -> bool
        ensures same { IsTrue result ↔ (self.now ≡ address.now) }
        ensures test { result ≡ same_address self.now address.now }
    {
        self.kind == address.kind && self.bytes == address.bytes.as_slice()
    }

    /// The address, with bytes of its own.
    pub fn to_owned(&self, alloc: Global) -> Result<HostAddress, AllocError>
        ensures { IfOk result (λ address. address ≡ self.now) }
    {
        HostAddress::new(alloc, self.kind, self.bytes)
    }
}

/// The address that the bytes spell.
#[tactic(auto, unfolding(crate::specs::Reading::address_of))]
pub fn read_address(bytes: &[u8]) -> Option<AddressRef<'_>>
    ensures { Finds (λ x. x) result (address_of bytes.now) }
{
    let (kind, bytes) = read_typed(bytes)?;
    Some(AddressRef { kind, bytes })
}

/// A law: the number of an address is an Int32, as its type says. It does nothing when it runs.
pub fn known_address(address: &AddressRef<'_>)
    ensures { IsAddress address.now }
{
    known_int32(address.kind());
}
