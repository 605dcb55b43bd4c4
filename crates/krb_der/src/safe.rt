//! KRB-SAFE (RFC 4120 section 5.6.1).

ghost use Rattle.std.specs.Prelude.{◌≡◌, ◌<◌, ◌≤◌, ◌+◌, ◌*◌, ◌++◌, [], length, drop, IfOk, IfSome, OnOk};
ghost use Rattle.krb_base.specs.Limits.{frame_limit};
ghost use Rattle.krb_der.specs.declared.message.Message.TheVariants.{Safe};
ghost use Rattle.krb_tlv.specs.Element.{tagged};
ghost use Rattle.krb_tlv.specs.Integer.{integer, IsInt32};
ghost use Rattle.krb_tlv.specs.Tag.{context};
ghost use Rattle.krb_time.specs.Time.{IsSecond};
ghost use Rattle.std.specs.List.{concat};
ghost use Rattle.krb_der.specs.Body.{InRange, IsBody, body_fields};
ghost use Rattle.krb_der.specs.Safe.{before_checksum, checksum_field, with_checksum, without_checksum};
ghost use Rattle.krb_der.specs.Message.{safe_input};
ghost use Rattle.krb_der.specs.Message.{Covers, DraftsSafe, Encodes, Spells, message};
ghost use Rattle.krb_tlv.specs.Reading.{Finds};
ghost use Rattle.krb_der.specs.Reading.{safe_of};
ghost use Rattle.krb_der.specs.Size.{HasAddressesWithinLimit, HasSafeSize};
ghost use Rattle.krb_tlv.specs.Writing.{IsShort};
ghost use Rattle.krb_der.specs.Writing.{IsShortBody, before_checksum_size, safe_fields_size, safe_headers};

use crate::body::{Body, BodyRef, is_short};
use crate::body_reading::read_body;
use crate::error::DerError;
use crate::tag;
use crate::typed::{read_typed_field, typed_size, typed_size_of, write_typed_field};
use krb_base::{Bytes, FRAME_LIMIT};
use krb_tlv::{
    Header, Reader, Writer, int32_field_size, known_int32, read_int32_field, size_around,
    write_int32_field,
};
use std::alloc::{AllocError, Global};
use std::marker::Model;

/// The last field of a KRB-SAFE in the bytes under its checksum: checksum type 0 and an empty
/// checksum (RFC 4120 section 5.6.1).
const NO_CHECKSUM: [u8; 13] = [0xA3, 11, 0x30, 9, 0xA0, 3, 0x02, 1, 0, 0xA1, 2, 0x04, 0];

/// The fields pvno and msg-type of a KRB-SAFE (RFC 4120 section 5.6.1): 5 and 20.
const NUMBERS: [u8; 10] = [0xA0, 3, 0x02, 1, 5, 0xA1, 3, 0x02, 1, 20];

/// Adds the fields pvno and msg-type.
#[tactic(auto, unfolding(krb_tlv::specs::Element::tagged, krb_tlv::specs::Element::header, krb_tlv::specs::Length::length_octets, krb_tlv::specs::Integer::int_octets))]
fn write_numbers(out: &mut Writer, pvno: &i32, msg_type: &i32) -> Result<(), AllocError>
    ensures { OnOk result (out.new ≡ out.old ++ (tagged (context 0) (integer pvno.now)
        ++ tagged (context 1) (integer msg_type.now))) }
{
    if *pvno == 5 && *msg_type == 20 {
        return out.put(&NUMBERS);
    }
    write_int32_field(out, tag::FIELD_0, pvno)?;
    write_int32_field(out, tag::FIELD_1, msg_type)
}

/// A message KRB-SAFE (RFC 4120 section 5.6.1).
#[derive(Debug, Drop)]
pub struct SafeMsg {
    /// The protocol version, 5.
    pub pvno: i32,
    /// The kind of message, 20.
    pub msg_type: i32,
    /// What the message carries.
    pub body: Body,
    /// The type of the checksum (RFC 3961 section 8).
    pub cksum_type: i32,
    /// The checksum.
    pub checksum: Bytes,
}

/// The message whose fields, as one sequence, the bytes are.
#[tactic(auto, unfolding(crate::specs::Reading::safe_of))]
pub fn read_safe(bytes: &[u8]) -> Option<SafeRef<'_>>
    ensures { Finds (λ x. x) result (safe_of bytes.now) }
{
    let mut fields = Reader::inside(tag::SEQUENCE, bytes)?;
    let pvno = read_int32_field(&mut fields, tag::FIELD_0)?;
    let msg_type = read_int32_field(&mut fields, tag::FIELD_1)?;
    let body = read_body(fields.element(tag::FIELD_2)?)?;
    let (cksum_type, checksum) = read_typed_field(&mut fields, tag::FIELD_3)?;
    fields.finish(SafeRef {
        pvno,
        msg_type,
        body,
        cksum_type,
        checksum,
    })
}

/// What stands around the fields before the checksum of a KRB-SAFE in the bytes under its checksum
/// (RFC 4120 section 5.6.1), so these fields needn't be copied to be hashed.
#[derive(Drop)]
pub struct Covering {
    /// The tag and the length of the message.
    pub message: Header,
    /// The tag and the length of its sequence.
    pub sequence: Header,
    /// The field after them: checksum type 0 and an empty checksum.
    pub last: [u8; 13],
}

/// What stands around fields of so many bytes.
pub fn covering_of(fields: usize) -> Covering
    requires { fields ≤ frame_limit }
    ensures { Covers fields result }
{
    let content = fields + NO_CHECKSUM.len();
    Covering {
        message: Header::new(tag::KRB_SAFE, size_around(content)),
        sequence: Header::new(tag::SEQUENCE, content),
        last: NO_CHECKSUM,
    }
}

/// A KRB-SAFE that has no checksum yet: its bytes before the last field.
#[derive(Drop)]
pub struct SafeDraft {
    /// The message so far.
    pub bytes: Vec<u8>,
    /// Where its fields begin.
    pub start: usize,
}

impl SafeDraft {
    /// The fields before the checksum.
    pub fn fields(&self) -> &[u8]
        requires { self.now.start ≤ length self.now.bytes.items }
        ensures { result.now ≡ drop self.now.start self.now.bytes.items }
    {
        &self.bytes[self.start..]
    }

    /// The message with a checksum of this type as its last field.
    pub fn with_checksum(self, kind: i32, checksum: &[u8]) -> Result<Vec<u8>, AllocError>
        requires { length checksum.now ≤ frame_limit }
        ensures { IfOk result (λ v. v.items ≡ self.bytes.items ++ checksum_field kind checksum.now) }
    {
        self.finished(&kind, checksum)
    }

    /// The message with this last field.
    fn finished(self, kind: &i32, checksum: &[u8]) -> Result<Vec<u8>, AllocError>
        requires { length checksum.now ≤ frame_limit }
        ensures { IfOk result (λ v. v.items
            ≡ self.bytes.items ++ checksum_field kind.now checksum.now) }
    {
        let SafeDraft { bytes, .. } = self;
        let mut out = Writer::after(bytes);
        write_typed_field(&mut out, tag::FIELD_3, kind, checksum)?;
        Ok(out.into_vec())
    }
}

/// A [`SafeMsg`] whose data, addresses and checksum are borrowed: of one that is written without a copy
/// of them, or of bytes that spell it.
#[derive(Drop)]
pub struct SafeRef<'a> {
    pvno: i32,
    msg_type: i32,
    body: BodyRef<'a>,
    cksum_type: i32,
    checksum: &'a [u8],
}

impl<'a> Model for SafeRef<'a> {
    ghost use Rattle.krb_der.specs.declared.safe.SafeMsg.{SafeMsg};

    ghost Value = { SafeMsg };

    ghost view = { λ m. record {
      pvno = m.pvno;
      msg_type = m.msg_type;
      body = m.body;
      cksum_type = m.cksum_type;
      checksum = m.checksum.now;
    } };
}

impl SafeMsg {
    /// The message, borrowed.
    pub fn borrowed(&self) -> SafeRef<'_>
        ensures { result ≡ self.now }
    {
        SafeRef {
            pvno: self.pvno,
            msg_type: self.msg_type,
            body: self.body.borrowed(),
            cksum_type: self.cksum_type,
            checksum: self.checksum.as_slice(),
        }
    }
}

impl<'a> SafeRef<'a> {
    /// The message that carries a body, with an empty checksum.
    pub fn unsigned(pvno: i32, msg_type: i32, body: BodyRef<'a>, cksum_type: i32) -> SafeRef<'a>
        ensures { result ≡ record {
          pvno = pvno;
          msg_type = msg_type;
          body = body.entry;
          cksum_type = cksum_type;
          checksum = [];
        } }
    {
        SafeRef {
            pvno,
            msg_type,
            body,
            cksum_type,
            checksum: &[],
        }
    }
}

impl<'a> SafeRef<'a> {
    /// The protocol version.
    pub fn pvno(&self) -> i32
        ensures { result ≡ self.now.pvno }
    {
        self.pvno
    }

    /// The kind of message.
    pub fn msg_type(&self) -> i32
        ensures { result ≡ self.now.msg_type }
    {
        self.msg_type
    }

    /// What the message carries.
    pub fn body(&self) -> &BodyRef<'a>
        ensures { result.now ≡ self.now.body }
    {
        &self.body
    }

    /// The type of the checksum.
    pub fn cksum_type(&self) -> i32
        ensures { result ≡ self.now.cksum_type }
    {
        self.cksum_type
    }

    /// The checksum.
    pub fn checksum(&self) -> &'a [u8]
        ensures { result.now ≡ self.now.checksum }
    {
        self.checksum
    }

    /// The message, with byte strings of its own.
    pub fn to_owned(&self, alloc: Global) -> Result<SafeMsg, AllocError>
        ensures { IfOk result (λ m. m ≡ self.now) }
    {
        Ok(SafeMsg {
            pvno: self.pvno,
            msg_type: self.msg_type,
            body: self.body.to_owned(alloc)?,
            cksum_type: self.cksum_type,
            checksum: Bytes::new(Vec::from_slice(alloc, self.checksum)?),
        })
    }

    /// The fields before the checksum, in the bytes that spell the message.
    pub fn before_checksum_in<'b>(&self, bytes: &'b [u8]) -> &'b [u8]
        requires { Spells (Safe self.now) bytes.now }
        ensures fields { result.now ≡ before_checksum self.now }
        ensures limit { length result.now ≤ frame_limit }
    {
        let last = size_around(typed_size(&self.cksum_type, self.checksum));
        let end = bytes.len() - last;
        let start = end - self.before_checksum_size(self.body.user_data().len());
        &bytes[start..end]
    }

    /// How many bytes the fields before the checksum have with so many bytes of data.
    fn before_checksum_size(&self, len: usize) -> usize
        requires data_limit { len ≤ frame_limit }
        requires addresses { HasAddressesWithinLimit self.now.body }
        requires time { IfSome self.now.body.time IsSecond }
        ensures value { result ≡ before_checksum_size self.now len }
        ensures bound { result ≤ 3 * frame_limit + 250 }
    {
        int32_field_size(&self.pvno)
            + int32_field_size(&self.msg_type)
            + size_around(self.body.size_with(len))
    }

    fn fields_size_with(&self, kind: &i32, checksum: usize, len: usize) -> usize
        requires checksum_limit { checksum ≤ frame_limit }
        requires data_limit { len ≤ frame_limit }
        requires addresses { HasAddressesWithinLimit self.now.body }
        requires time { IfSome self.now.body.time IsSecond }
        ensures value { result ≡ safe_fields_size self.now kind.now checksum len }
        ensures bound { result ≤ 4 * frame_limit + 300 }
    {
        self.before_checksum_size(len) + size_around(typed_size_of(kind, checksum))
    }

    /// How many bytes its spelling has with a checksum and data of so many bytes in place of its own:
    /// so a size is known before there are data.
    pub fn size_with(&self, checksum: usize, len: usize) -> usize
        requires checksum_limit { checksum ≤ frame_limit }
        requires data_limit { len ≤ frame_limit }
        requires addresses { HasAddressesWithinLimit self.now.body }
        requires range { InRange self.now.body }
        ensures { HasSafeSize self.now checksum len result }
    {
        size_around(size_around(self.fields_size_with(&self.cksum_type, checksum, len)))
    }

    /// Adds the fields before the checksum; those of the body have so many bytes.
    fn write_before_checksum(&self, out: &mut Writer, body: usize) -> Result<(), AllocError>
        requires short { IsShortBody self.now.body }
        requires time { IfSome self.now.body.time IsSecond }
        requires body { body ≡ length (concat (body_fields self.now.body)) }
        requires bound { body ≤ 3 * frame_limit + 200 }
        ensures { OnOk result (out.new ≡ out.old ++ before_checksum self.now) }
    {
        write_numbers(out, &self.pvno, &self.msg_type)?;
        self.body.write_in(out, tag::FIELD_2, body)
    }

    /// Its draft for a sequence of `fields` bytes, in a `Vec` with room for the whole message. The fields of
    /// its body have `body` bytes.
    fn draft_of(&self, alloc: Global, fields: usize, body: usize) -> Result<SafeDraft, AllocError>
        requires limit { fields ≤ 4 * frame_limit + 300 }
        requires short { IsShortBody self.now.body }
        requires time { IfSome self.now.body.time IsSecond }
        requires body { body ≡ length (concat (body_fields self.now.body)) }
        requires bound { body ≤ 3 * frame_limit + 200 }
        ensures start { IfOk result (λ draft. draft.start ≡ length (safe_headers fields)) }
        ensures bytes { IfOk result (λ draft. draft.bytes.items
            ≡ safe_headers fields ++ before_checksum self.now) }
    {
        let content = size_around(fields);
        let mut out = Writer::with_capacity(alloc, size_around(content))?;
        out.begin_two(tag::KRB_SAFE, tag::SEQUENCE, fields)?;
        let start = out.len();
        self.write_before_checksum(&mut out, body)?;
        Ok(SafeDraft {
            bytes: out.into_vec(),
            start,
        })
    }

    /// How many bytes its fields have around those of its body.
    fn fields_size_around(&self, kind: &i32, checksum: usize, body: usize) -> usize
        requires checksum_limit { checksum ≤ frame_limit }
        requires body { body ≡ length (concat (body_fields self.now.body)) }
        requires bound { body ≤ 3 * frame_limit + 200 }
        ensures value { result ≡ safe_fields_size self.now kind.now checksum
            (length self.now.body.user_data) }
        ensures bound { result ≤ 4 * frame_limit + 300 }
    {
        int32_field_size(&self.pvno)
            + int32_field_size(&self.msg_type)
            + size_around(size_around(body))
            + size_around(typed_size_of(kind, checksum))
    }

    /// Its draft for a checksum of this type and so many bytes.
    fn draft(&self, alloc: Global, kind: &i32, checksum: usize) -> Result<SafeDraft, DerError>
        requires range { InRange self.now.body }
        requires limit { checksum ≤ frame_limit }
        ensures { DraftsSafe self.now kind.now checksum result }
    {
        self.known();
        known_int32(kind);
        if !self.body.is_short() {
            return Err(DerError::TooLong);
        }
        let body = self.body.fields_size();
        let fields = self.fields_size_around(kind, checksum, body);
        if size_around(size_around(fields)) > FRAME_LIMIT {
            return Err(DerError::TooLong);
        }
        Ok(self.draft_of(alloc, fields, body)?)
    }

    /// Its spelling with this checksum in place of its own.
    fn encode_with(&self, alloc: Global, kind: &i32, checksum: &[u8]) -> Result<Vec<u8>, DerError>
        requires { InRange self.now.body }
        ensures { Encodes Spells message
            (Safe (with_checksum self.now kind.now checksum.now)) result }
    {
        if !is_short(checksum) {
            return Err(DerError::TooLong);
        }
        let draft = self.draft(alloc, kind, checksum.len())?;
        Ok(draft.finished(kind, checksum)?)
    }

    /// What the types of its numbers say.
    fn known(&self)
        requires { InRange self.now.body }
        ensures pvno { IsInt32 self.now.pvno }
        ensures msg_type { IsInt32 self.now.msg_type }
        ensures body { IsBody self.now.body }
    {
        known_int32(&self.pvno);
        known_int32(&self.msg_type);
        self.body.known();
    }
}

/// The spelling of the message.
///
/// [`DerError::TooLong`] is returned if and only if it has over 1,005,000 bytes, before any
/// allocation.
pub fn encode_safe(alloc: Global, m: &SafeMsg) -> Result<Vec<u8>, DerError>
    requires { InRange m.now.body }
    ensures { Encodes Spells message (Safe m.now) result }
{
    let lent = m.borrowed();
    lent.encode_with(alloc, &m.cksum_type, m.checksum.as_slice())
}

/// The bytes under the checksum of the message: its spelling with checksum type 0 and an empty
/// checksum (RFC 4120 section 5.6.1).
///
/// [`DerError::TooLong`] is returned if and only if they are over 1,005,000 bytes, before any
/// allocation.
pub fn safe_input(alloc: Global, m: &SafeMsg) -> Result<Vec<u8>, DerError>
    requires { InRange m.now.body }
    ensures input { IfOk result (λ bytes. bytes.items ≡ safe_input m.now) }
    ensures answer { Encodes Spells message (Safe (without_checksum m.now)) result }
{
    m.borrowed().encode_with(alloc, &0, &[])
}

/// The message up to its checksum, with room for one of so many bytes.
///
/// [`DerError::TooLong`] is returned if and only if the message would have over 1,005,000 bytes,
/// before any allocation.
pub fn draft_safe(alloc: Global, m: &SafeRef<'_>, checksum: usize) -> Result<SafeDraft, DerError>
    requires range { InRange m.now.body }
    requires limit { checksum ≤ frame_limit }
    ensures { DraftsSafe m.now m.now.cksum_type checksum result }
{
    m.draft(alloc, &m.cksum_type, checksum)
}
