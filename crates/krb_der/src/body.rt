//! What a message carries (RFC 4120 sections 5.6.1 and 5.7.1), and how it is written.

ghost use Rattle.std.specs.Prelude.{◌≡◌, ◌↔◌, ◌<◌, ◌≤◌, ◌+◌, ◌*◌, ◌++◌, length, Some, IfOk, OnOk, IfSome, IsTrue};
ghost use Rattle.std.specs.List.{concat};
ghost use Rattle.krb_base.specs.Limits.{frame_limit};
ghost use Rattle.krb_tlv.specs.Element.{optional, tagged};
ghost use Rattle.krb_time.specs.Moment.{secs_of, usec_of};
ghost use Rattle.krb_time.specs.Time.{IsSecond};
ghost use Rattle.krb_der.specs.KerberosTime;
ghost use Rattle.krb_der.specs.Address.{host_address, IsAddress};
ghost use Rattle.krb_der.specs.Addresses.{address_fields};
ghost use Rattle.krb_der.specs.Body.{InRange, IsBody, body, body_fields};
ghost use Rattle.krb_der.specs.Reading.{body_with};
ghost use Rattle.krb_der.specs.Size.{HasAddressesWithinLimit};
ghost use Rattle.krb_tlv.specs.Writing.{IsShort};
ghost use Rattle.krb_der.specs.Writing.{IsShortBody, body_fields_size, body_size};

use crate::address::{AddressRef, HostAddress, known_address};
use crate::addresses::Addresses;
use crate::tag;
use crate::typed::{typed_size, write_typed_field};
use krb_base::{Bytes, FRAME_LIMIT};
use krb_time::{LAST_SECOND, LAST_USEC, Moment, kerberos_time};
use krb_tlv::{Writer, known_uint32, natural_field_size, size_around, write_natural_field};
use std::alloc::{AllocError, Global};
use std::marker::Model;

/// What KRB-SAFE and the encrypted part of KRB-PRIV carry (RFC 4120 sections 5.6.1 and 5.7.1).
#[derive(Debug, Drop)]
pub struct Body {
    /// The text.
    pub user_data: Bytes,
    /// The sender's time, in seconds since 1970-01-01T00:00:00Z.
    pub time: Option<u64>,
    /// The microseconds of that time.
    pub usec: Option<u32>,
    /// The sequence number.
    pub seq: Option<u32>,
    /// The sender's address.
    pub s_addr: HostAddress,
    /// The receiver's address.
    pub r_addr: Option<HostAddress>,
}

impl Body {
    /// Whether time and microseconds are within the limits of [`Moment`](crate::Moment).
    pub fn in_range(&self) -> bool
        ensures { IsTrue result ↔ InRange self.now }
    {
        let time = match self.time {
            Some(secs) => secs <= LAST_SECOND,
            None => true,
        };
        let usec = match self.usec {
            Some(usec) => usec <= LAST_USEC,
            None => true,
        };
        time && usec
    }
}

/// Whether the bytes are no more than a message may have.
pub fn is_short(bytes: &[u8]) -> bool
    ensures { IsTrue result ↔ IsShort bytes.now }
{
    bytes.len() <= FRAME_LIMIT
}

fn optional_time_size(time: Option<u64>) -> usize
    requires { IfSome time IsSecond }
    ensures value { result ≡ length (optional 0 KerberosTime.time time) }
    ensures bound { result ≤ 19 }
{
    match time {
        Some(_) => 19,
        None => 0,
    }
}

fn write_optional_time(out: &mut Writer, tag: u8, time: Option<u64>) -> Result<(), AllocError>
    requires { IfSome time IsSecond }
    ensures { OnOk result (out.new ≡ out.old ++ optional tag KerberosTime.time time) }
{
    match time {
        Some(secs) => {
            out.put(&[tag, 17, tag::GENERALIZED_TIME, 15])?;
            out.put(&kerberos_time(secs))
        }
        None => Ok(()),
    }
}

fn optional_address_size(address: &Option<AddressRef<'_>>) -> usize
    requires { IfSome address.now (λ a. IsShort a.bytes) }
    ensures value { result ≡ length (optional 0 host_address address.now) }
    ensures bound { result ≤ frame_limit + 40 }
{
    match address {
        Some(address) => size_around(typed_size(address.kind(), address.bytes())),
        None => 0,
    }
}

fn write_optional_address(
    out: &mut Writer,
    tag: u8,
    address: &Option<AddressRef<'_>>,
) -> Result<(), AllocError>
    requires { IfSome address.now (λ a. IsShort a.bytes) }
    ensures { OnOk result (out.new ≡ out.old ++ optional tag host_address address.now) }
{
    match address {
        Some(address) => write_typed_field(out, tag, address.kind(), address.bytes()),
        None => Ok(()),
    }
}

/// How many bytes the fields of both addresses have.
pub fn addresses_size(s_addr: &AddressRef<'_>, r_addr: &Option<AddressRef<'_>>) -> usize
    requires sender { IsShort s_addr.now.bytes }
    requires receiver { IfSome r_addr.now (λ a. IsShort a.bytes) }
    ensures value { result ≡ length (address_fields s_addr.now r_addr.now) }
    ensures bound { result ≤ 2 * frame_limit + 80 }
{
    size_around(typed_size(s_addr.kind(), s_addr.bytes())) + optional_address_size(r_addr)
}

/// Adds the fields of both addresses.
pub fn write_addresses(
    out: &mut Writer,
    s_addr: &AddressRef<'_>,
    r_addr: &Option<AddressRef<'_>>,
) -> Result<(), AllocError>
    requires sender { IsShort s_addr.now.bytes }
    requires receiver { IfSome r_addr.now (λ a. IsShort a.bytes) }
    ensures { OnOk result (out.new ≡ out.old ++ address_fields s_addr.now r_addr.now) }
{
    write_typed_field(out, tag::FIELD_4, s_addr.kind(), s_addr.bytes())?;
    write_optional_address(out, tag::FIELD_5, r_addr)
}

// A law: the number of an address is an Int32, as its type says. It does nothing when it runs.
fn known_optional_address(address: &Option<AddressRef<'_>>)
    ensures { IfSome address.now IsAddress }
{
    if let Some(address) = address {
        known_address(address);
    }
}

/// What a body carries beside its data.
#[derive(Drop)]
pub struct Details {
    time: Option<u64>,
    usec: Option<u32>,
    seq: Option<u32>,
    s_addr: HostAddress,
    r_addr: Option<HostAddress>,
}

impl Details {
    /// The body with these data.
    pub fn with(self, user_data: Bytes) -> Body
        ensures { result ≡ body_with user_data self }
    {
        Body {
            user_data,
            time: self.time,
            usec: self.usec,
            seq: self.seq,
            s_addr: self.s_addr,
            r_addr: self.r_addr,
        }
    }
}

/// A [`Body`] whose data and addresses are borrowed: of one that is written without a copy of them, or
/// of bytes that spell it.
#[derive(Drop)]
pub struct BodyRef<'a> {
    pub(crate) user_data: &'a [u8],
    pub(crate) time: Option<u64>,
    pub(crate) usec: Option<u32>,
    pub(crate) seq: Option<u32>,
    pub(crate) s_addr: AddressRef<'a>,
    pub(crate) r_addr: Option<AddressRef<'a>>,
    /// The fields of both addresses, where they are encoded already.
    pub(crate) addresses: Option<&'a [u8]>,
}

impl<'a> Model for BodyRef<'a> {
    ghost use Rattle.std.specs.Prelude.{◌≡◌, IfSome};
    ghost use Rattle.krb_der.specs.Addresses.{address_fields};
    ghost use Rattle.krb_der.specs.declared.body.Body.{Body};

    ghost Value = { Body };

    ghost view = { λ b. record {
      user_data = b.user_data.now;
      time = b.time;
      usec = b.usec;
      seq = b.seq;
      s_addr = b.s_addr;
      r_addr = b.r_addr;
    } };

    ghost invariant = { λ b. IfSome b.addresses (λ a. a.now ≡ address_fields b.s_addr b.r_addr) };
}

/// An address that may be absent, borrowed.
pub fn borrowed_address(address: &Option<HostAddress>) -> Option<AddressRef<'_>>
    ensures { result ≡ address.now }
{
    match address {
        Some(address) => Some(address.borrowed()),
        None => None,
    }
}

/// An address that may be absent, with bytes of its own.
fn owned_address(
    alloc: Global,
    address: &Option<AddressRef<'_>>,
) -> Result<Option<HostAddress>, AllocError>
    ensures { IfOk result (λ owned. owned ≡ address.now) }
{
    match address {
        Some(address) => Ok(Some(address.to_owned(alloc)?)),
        None => Ok(None),
    }
}

impl Body {
    /// The body, borrowed.
    pub fn borrowed(&self) -> BodyRef<'_>
        ensures { result ≡ self.now }
    {
        BodyRef {
            user_data: self.user_data.as_slice(),
            time: self.time,
            usec: self.usec,
            seq: self.seq,
            s_addr: self.s_addr.borrowed(),
            r_addr: borrowed_address(&self.r_addr),
            addresses: None,
        }
    }
}

impl<'a> BodyRef<'a> {
    /// The body with this data, at a timestamp and a sequence number, from one address to another.
    pub fn new(
        user_data: &'a [u8],
        at: Moment,
        seq: u32,
        s_addr: &'a HostAddress,
        r_addr: &'a Option<HostAddress>,
    ) -> BodyRef<'a>
        ensures { result ≡ record {
          user_data = user_data.now;
          time = Some (secs_of at);
          usec = Some (usec_of at);
          seq = Some seq;
          s_addr = s_addr.now;
          r_addr = r_addr.now;
        } }
    {
        BodyRef {
            user_data,
            time: Some(at.secs()),
            usec: Some(at.usec()),
            seq: Some(seq),
            s_addr: s_addr.borrowed(),
            r_addr: borrowed_address(r_addr),
            addresses: None,
        }
    }

    /// The body with this data, at a timestamp and a sequence number, between addresses that are
    /// encoded already (RFC 4120 sections 5.6.1 and 5.7.1): the same as [`BodyRef::new`] of them.
    pub fn between(
        user_data: &'a [u8],
        at: Moment,
        seq: u32,
        addresses: &'a Addresses<'_>,
    ) -> BodyRef<'a>
        ensures { result ≡ record {
          user_data = user_data.now;
          time = Some (secs_of at);
          usec = Some (usec_of at);
          seq = Some seq;
          s_addr = addresses.now.s_addr;
          r_addr = addresses.now.r_addr;
        } }
    {
        let (s_addr, r_addr, encoded) = addresses.encoded();
        BodyRef {
            user_data,
            time: Some(at.secs()),
            usec: Some(at.usec()),
            seq: Some(seq),
            s_addr: s_addr.borrowed(),
            r_addr: borrowed_address(r_addr),
            addresses: Some(encoded),
        }
    }

    /// The data.
    pub fn user_data(&self) -> &'a [u8]
        ensures { result.now ≡ self.now.user_data }
    {
        self.user_data
    }

    /// The sender's time in seconds, and the microseconds of it.
    pub fn time(&self) -> (Option<u64>, Option<u32>)
        ensures { result ≡ (self.now.time, self.now.usec) }
    {
        (self.time, self.usec)
    }

    /// The sequence number.
    pub fn seq(&self) -> Option<u32>
        ensures { result ≡ self.now.seq }
    {
        self.seq
    }

    /// The sender's address.
    pub fn s_addr(&self) -> &AddressRef<'a>
        ensures { result.now ≡ self.now.s_addr }
    {
        &self.s_addr
    }

    /// The receiver's address.
    pub fn r_addr(&self) -> &Option<AddressRef<'a>>
        ensures { result.now ≡ self.now.r_addr }
    {
        &self.r_addr
    }

    /// What it carries beside its data, with addresses of its own.
    pub(crate) fn details(&self, alloc: Global) -> Result<Details, AllocError>
        ensures { IfOk result (λ details. self.now ≡ body_with self.now.user_data details) }
    {
        Ok(Details {
            time: self.time,
            usec: self.usec,
            seq: self.seq,
            s_addr: self.s_addr.to_owned(alloc)?,
            r_addr: owned_address(alloc, &self.r_addr)?,
        })
    }

    /// The body, with data and addresses of its own.
    pub fn to_owned(&self, alloc: Global) -> Result<Body, AllocError>
        ensures { IfOk result (λ body. body ≡ self.now) }
    {
        let details = self.details(alloc)?;
        let user_data = Bytes::new(Vec::from_slice(alloc, self.user_data)?);
        Ok(details.with(user_data))
    }
}

impl<'a> BodyRef<'a> {
    /// Whether no byte string of it is longer than a message may be.
    pub(crate) fn is_short(&self) -> bool
        ensures { IsTrue result ↔ IsShortBody self.now }
    {
        let r_addr = match &self.r_addr {
            Some(address) => is_short(address.bytes()),
            None => true,
        };
        is_short(self.user_data) && is_short(self.s_addr.bytes()) && r_addr
    }

    /// What the types of its numbers say, besides the ranges that are required.
    pub(crate) fn known(&self)
        requires { InRange self.now }
        ensures { IsBody self.now }
    {
        known_uint32(&self.seq);
        known_address(&self.s_addr);
        known_optional_address(&self.r_addr);
    }

    /// How many bytes the fields of both addresses have.
    fn addresses_size(&self) -> usize
        requires { HasAddressesWithinLimit self.now }
        ensures value { result ≡ length (address_fields self.now.s_addr self.now.r_addr) }
        ensures bound { result ≤ 2 * frame_limit + 80 }
    {
        match self.addresses {
            Some(encoded) => encoded.len(),
            None => addresses_size(&self.s_addr, &self.r_addr),
        }
    }

    fn fields_size_with(&self, len: usize) -> usize
        requires limit { len ≤ frame_limit }
        requires addresses { HasAddressesWithinLimit self.now }
        requires time { IfSome self.now.time IsSecond }
        ensures value { result ≡ body_fields_size self.now len }
        ensures bound { result ≤ 3 * frame_limit + 200 }
    {
        size_around(size_around(len))
            + optional_time_size(self.time)
            + natural_field_size(self.usec)
            + natural_field_size(self.seq)
            + self.addresses_size()
    }

    /// How many bytes it has with so many bytes of data in place of its own.
    pub(crate) fn size_with(&self, len: usize) -> usize
        requires limit { len ≤ frame_limit }
        requires addresses { HasAddressesWithinLimit self.now }
        requires time { IfSome self.now.time IsSecond }
        ensures value { result ≡ body_size self.now len }
        ensures bound { result ≤ 3 * frame_limit + 210 }
    {
        size_around(self.fields_size_with(len))
    }

    /// How many bytes its fields have.
    pub(crate) fn fields_size(&self) -> usize
        requires short { IsShortBody self.now }
        requires time { IfSome self.now.time IsSecond }
        ensures value { result ≡ length (concat (body_fields self.now)) }
        ensures bound { result ≤ 3 * frame_limit + 200 }
    {
        self.fields_size_with(self.user_data.len())
    }

    /// How many bytes it has.
    pub(crate) fn size(&self) -> usize
        requires short { IsShortBody self.now }
        requires time { IfSome self.now.time IsSecond }
        ensures value { result ≡ length (body self.now) }
        ensures bound { result ≤ 3 * frame_limit + 210 }
    {
        size_around(self.fields_size())
    }

    /// Adds the fields of both addresses.
    fn write_addresses(&self, out: &mut Writer) -> Result<(), AllocError>
        requires { HasAddressesWithinLimit self.now }
        ensures { OnOk result (out.new
            ≡ out.old ++ address_fields self.now.s_addr self.now.r_addr) }
    {
        match self.addresses {
            Some(encoded) => out.put(encoded),
            None => write_addresses(out, &self.s_addr, &self.r_addr),
        }
    }

    /// Adds its fields.
    fn write_fields(&self, out: &mut Writer) -> Result<(), AllocError>
        requires short { IsShortBody self.now }
        requires time { IfSome self.now.time IsSecond }
        ensures { OnOk result (out.new ≡ out.old ++ concat (body_fields self.now)) }
    {
        out.octets_field(tag::FIELD_0, self.user_data)?;
        write_optional_time(out, tag::FIELD_1, self.time)?;
        write_natural_field(out, tag::FIELD_2, self.usec)?;
        write_natural_field(out, tag::FIELD_3, self.seq)?;
        self.write_addresses(out)
    }

    /// Adds it as the content of an element with this tag; its fields have so many bytes.
    pub(crate) fn write_in(
        &self,
        out: &mut Writer,
        tag: u8,
        fields: usize,
    ) -> Result<(), AllocError>
        requires short { IsShortBody self.now }
        requires time { IfSome self.now.time IsSecond }
        requires fields { fields ≡ length (concat (body_fields self.now)) }
        requires bound { fields ≤ 3 * frame_limit + 200 }
        ensures { OnOk result (out.new ≡ out.old ++ tagged tag (body self.now)) }
    {
        out.begin_two(tag, tag::SEQUENCE, fields)?;
        self.write_fields(out)
    }
}
