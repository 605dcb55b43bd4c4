//! KRB-PRIV (RFC 4120 section 5.7.1).

ghost use Rattle.std.specs.Prelude.{◌≡◌, ◌<◌, ◌≤◌, ◌+◌, ◌++◌, [], length, Err, IfOk, IfSome, OnOk, OnErr};
ghost use Rattle.krb_base.specs.Limits.{frame_limit};
ghost use Rattle.krb_der.specs.declared.message.Message.TheVariants.{Priv};
ghost use Rattle.krb_der.specs.Size.{HasPrivateSize};
ghost use Rattle.krb_tlv.specs.Writing.{IsShort, element_size};
ghost use Rattle.krb_der.specs.Writing.{IsShortBody, encrypted_fields_size, encrypted_before_cipher, private_fields_size, private_size, private_before_cipher};
ghost use Rattle.krb_tlv.specs.Integer.{integer};
ghost use Rattle.krb_time.specs.Time.{IsSecond};
ghost use Rattle.krb_der.specs.Body.{InRange, part};
ghost use Rattle.krb_der.specs.Private.{IsPrivate};
ghost use Rattle.krb_der.specs.Message.{private};
ghost use Rattle.krb_der.specs.Message.{Drafts, Encodes, Spells, message};
ghost use Rattle.krb_tlv.specs.Reading.{Finds};
ghost use Rattle.krb_der.specs.Reading.{encrypted_of, private_of};

use crate::body::BodyRef;
use crate::error::DerError;
use crate::tag;
use krb_base::{Bytes, FRAME_LIMIT};
use krb_tlv::{
    Reader, UINT32_LIMIT, Writer, int32_field_size, known_int32, known_uint32, natural_field_size,
    read_int32_field, read_octets_field, read_optional_natural, size_around, write_int32_field,
    write_natural_field,
};
use std::alloc::{AllocError, Global};
use std::marker::Model;

/// A message KRB-PRIV (RFC 4120 section 5.7.1).
#[derive(Debug, Drop)]
pub struct PrivMsg {
    /// The protocol version, 5.
    pub pvno: i32,
    /// The kind of message, 21.
    pub msg_type: i32,
    /// The encryption type.
    pub etype: i32,
    /// The version of the key, if there is one.
    pub kvno: Option<u32>,
    /// The encrypted part, with its checksum.
    pub cipher: Bytes,
}

/// A [`PrivMsg`] whose encrypted part is borrowed.
#[derive(Drop)]
pub struct PrivRef<'a> {
    pvno: i32,
    msg_type: i32,
    etype: i32,
    kvno: Option<u32>,
    cipher: &'a [u8],
}

impl<'a> Model for PrivRef<'a> {
    ghost use Rattle.krb_der.specs.declared.private.PrivMsg.{PrivMsg};

    ghost Value = { PrivMsg };

    ghost view = { λ m. record {
      pvno = m.pvno;
      msg_type = m.msg_type;
      etype = m.etype;
      kvno = m.kvno;
      cipher = m.cipher.now;
    } };
}

impl<'a> PrivRef<'a> {
    /// The protocol version.
    pub fn pvno(&self) -> i32
        ensures { result ≡ self.now.pvno }
    {
        self.pvno
    }

    /// The kind of message.
    pub fn msg_type(&self) -> i32
        ensures { result ≡ self.now.msg_type }
    {
        self.msg_type
    }

    /// The encryption type.
    pub fn etype(&self) -> i32
        ensures { result ≡ self.now.etype }
    {
        self.etype
    }

    /// The version of the key, if there is one.
    pub fn kvno(&self) -> Option<u32>
        ensures { result ≡ self.now.kvno }
    {
        self.kvno
    }

    /// The encrypted part, with its checksum.
    pub fn cipher(&self) -> &'a [u8]
        ensures { result.now ≡ self.now.cipher }
    {
        self.cipher
    }

    /// The message, with an encrypted part of its own.
    pub fn to_owned(&self, alloc: Global) -> Result<PrivMsg, AllocError>
        ensures { IfOk result (λ m. m ≡ self.now) }
    {
        Ok(PrivMsg {
            pvno: self.pvno,
            msg_type: self.msg_type,
            etype: self.etype,
            kvno: self.kvno,
            cipher: Bytes::new(Vec::from_slice(alloc, self.cipher)?),
        })
    }
}

#[tactic(auto, unfolding(crate::specs::Reading::encrypted_of))]
fn read_encrypted(bytes: &[u8]) -> Option<(i32, Option<u32>, &[u8])>
    ensures { Finds (λ x. (x.0, x.1, x.2.now)) result (encrypted_of bytes.now) }
{
    let mut fields = Reader::inside(tag::SEQUENCE, bytes)?;
    let etype = read_int32_field(&mut fields, tag::FIELD_0)?;
    let kvno = read_optional_natural(&mut fields, tag::FIELD_1, UINT32_LIMIT)?;
    let cipher = read_octets_field(&mut fields, tag::FIELD_2)?;
    fields.finish((etype, kvno, cipher))
}

/// The message whose fields, as one sequence, the bytes are.
#[tactic(auto, unfolding(crate::specs::Reading::private_of))]
pub fn read_private(bytes: &[u8]) -> Option<PrivRef<'_>>
    ensures { Finds (λ x. x) result (private_of bytes.now) }
{
    let mut fields = Reader::inside(tag::SEQUENCE, bytes)?;
    let pvno = read_int32_field(&mut fields, tag::FIELD_0)?;
    let msg_type = read_int32_field(&mut fields, tag::FIELD_1)?;
    let (etype, kvno, cipher) = read_encrypted(fields.element(tag::FIELD_3)?)?;
    fields.finish(PrivRef {
        pvno,
        msg_type,
        etype,
        kvno,
        cipher,
    })
}

fn encrypted_fields_size(etype: &i32, kvno: Option<u32>, cipher: usize) -> usize
    requires { cipher ≤ frame_limit }
    ensures value { result ≡ encrypted_fields_size etype.now kvno cipher }
    ensures bound { result ≤ frame_limit + 40 }
{
    int32_field_size(etype) + natural_field_size(kvno) + size_around(size_around(cipher))
}

/// How many bytes the fields have around the fields of the encrypted data.
fn fields_size_around(pvno: &i32, msg_type: &i32, encrypted: usize) -> usize
    requires { encrypted ≤ frame_limit + 40 }
    ensures value { result ≡ element_size (length (integer pvno.now))
        + element_size (length (integer msg_type.now))
        + element_size (element_size encrypted) }
    ensures bound { result ≤ encrypted + 40 }
{
    int32_field_size(pvno) + int32_field_size(msg_type) + size_around(size_around(encrypted))
}

impl PrivMsg {
    /// What the types of its numbers say.
    fn known(&self)
        ensures { IsPrivate self.now }
    {
        known_int32(&self.pvno);
        known_int32(&self.msg_type);
        known_int32(&self.etype);
        known_uint32(&self.kvno);
    }

    fn encrypted_fields_size(&self, cipher: usize) -> usize
        requires { cipher ≤ frame_limit }
        ensures value { result ≡ encrypted_fields_size self.now.etype self.now.kvno cipher }
        ensures bound { result ≤ frame_limit + 40 }
    {
        encrypted_fields_size(&self.etype, self.kvno, cipher)
    }

    /// Adds the encrypted data up to a cipher of so many bytes.
    #[tactic(auto, unfolding(krb_tlv::specs::Element::tagged))]
    fn write_encrypted(&self, out: &mut Writer, cipher: usize) -> Result<(), AllocError>
        requires { cipher ≤ frame_limit }
        ensures { OnOk result (out.new
            ≡ out.old ++ encrypted_before_cipher self.now.etype self.now.kvno cipher) }
    {
        out.begin(tag::SEQUENCE, self.encrypted_fields_size(cipher))?;
        write_int32_field(out, tag::FIELD_0, &self.etype)?;
        write_natural_field(out, tag::FIELD_1, self.kvno)?;
        out.begin(tag::FIELD_2, size_around(cipher))?;
        out.begin(tag::OCTET_STRING, cipher)
    }

    fn fields_size(&self, cipher: usize) -> usize
        requires { cipher ≤ frame_limit }
        ensures value { result ≡ private_fields_size self.now cipher }
        ensures bound { result ≤ frame_limit + 100 }
    {
        fields_size_around(
            &self.pvno,
            &self.msg_type,
            self.encrypted_fields_size(cipher),
        )
    }

    /// How many bytes its spelling has with a cipher of so many bytes.
    fn size(&self, cipher: usize) -> usize
        requires { cipher ≤ frame_limit }
        ensures value { result ≡ private_size self.now cipher }
        ensures bound { result ≤ frame_limit + 110 }
    {
        size_around(size_around(self.fields_size(cipher)))
    }

    /// The same, if it is within the limit.
    fn limited_size(&self, cipher: usize) -> Result<usize, DerError>
        ensures value { IfOk result (λ size. size ≡ private_size self.now cipher) }
        ensures limit { IfOk result (λ size. size ≤ frame_limit) }
        ensures short { OnOk result (cipher ≤ frame_limit) }
        ensures too_long { OnErr result (frame_limit < private_size self.now cipher) }
        ensures err { OnErr result (result ≡ Err DerError.TooLong) }
    {
        if cipher > FRAME_LIMIT {
            return Err(DerError::TooLong);
        }
        let size = self.size(cipher);
        if size > FRAME_LIMIT {
            return Err(DerError::TooLong);
        }
        Ok(size)
    }

    /// Adds what comes before a cipher of so many bytes.
    fn write_before_cipher(&self, out: &mut Writer, cipher: usize) -> Result<(), AllocError>
        requires { cipher ≤ frame_limit }
        ensures { OnOk result (out.new ≡ out.old ++ private_before_cipher self.now cipher) }
    {
        let fields = self.fields_size(cipher);
        out.begin(tag::KRB_PRIV, size_around(fields))?;
        out.begin(tag::SEQUENCE, fields)?;
        write_int32_field(out, tag::FIELD_0, &self.pvno)?;
        write_int32_field(out, tag::FIELD_1, &self.msg_type)?;
        out.begin(
            tag::FIELD_3,
            size_around(self.encrypted_fields_size(cipher)),
        )?;
        self.write_encrypted(out, cipher)
    }

    /// Its spelling, in a `Vec` with room for so many bytes.
    fn spelling(&self, alloc: Global, size: usize) -> Result<Vec<u8>, AllocError>
        requires { IsShort self.now.cipher }
        ensures { IfOk result (λ v. v.items ≡ private self.now) }
    {
        let cipher = self.cipher.as_slice();
        let mut out = Writer::with_capacity(alloc, size)?;
        self.write_before_cipher(&mut out, cipher.len())?;
        out.put(cipher)?;
        Ok(out.into_vec())
    }

    /// The draft of the message with a cipher of so many bytes, in a `Vec` with room for `size`.
    fn draft(
        &self,
        alloc: Global,
        before: &[u8],
        b: &BodyRef<'_>,
        cipher: usize,
        size: usize,
    ) -> Result<Draft, AllocError>
        requires limit { cipher ≤ frame_limit }
        requires short { IsShortBody b.now }
        requires time { IfSome b.now.time IsSecond }
        ensures start { IfOk result (λ draft.
            draft.start ≡ length (private_before_cipher self.now cipher)) }
        ensures bytes { IfOk result (λ draft. draft.bytes.items
            ≡ private_before_cipher self.now cipher ++ (before.now ++ part b.now)) }
    {
        let mut out = Writer::with_capacity(alloc, size)?;
        self.write_before_cipher(&mut out, cipher)?;
        let start = out.len();
        out.put(before)?;
        b.write_part(&mut out)?;
        Ok(Draft {
            bytes: out.into_vec(),
            start,
        })
    }
}

/// The spelling of the message.
///
/// [`DerError::TooLong`] is returned if and only if it has over 1,005,000 bytes, before any
/// allocation.
pub fn encode_priv(alloc: Global, m: &PrivMsg) -> Result<Vec<u8>, DerError>
    ensures { Encodes Spells message (Priv m.now) result }
{
    m.known();
    let size = m.limited_size(m.cipher.as_slice().len())?;
    Ok(m.spelling(alloc, size)?)
}

fn size_of(pvno: &i32, msg_type: &i32, etype: &i32, kvno: Option<u32>, cipher: usize) -> usize
    requires { cipher ≤ frame_limit }
    ensures { HasPrivateSize (record {
      pvno = pvno.now;
      msg_type = msg_type.now;
      etype = etype.now;
      kvno = kvno;
      cipher = [];
    }) cipher result }
{
    let encrypted = encrypted_fields_size(etype, kvno, cipher);
    size_around(size_around(fields_size_around(pvno, msg_type, encrypted)))
}

/// How many bytes the spelling of a KRB-PRIV has with a cipher of so many bytes: so a size is known
/// before there is a cipher.
pub fn priv_size(pvno: i32, msg_type: i32, etype: i32, kvno: Option<u32>, cipher: usize) -> usize
    requires { cipher ≤ frame_limit }
    ensures { HasPrivateSize (record {
      pvno = pvno;
      msg_type = msg_type;
      etype = etype;
      kvno = kvno;
      cipher = [];
    }) cipher result }
{
    size_of(&pvno, &msg_type, &etype, kvno, cipher)
}

/// A KRB-PRIV whose cipher isn't encrypted yet: from `start` on it has the plaintext, with room for
/// what an encryption appends.
#[derive(Drop)]
pub struct Draft {
    /// The message so far.
    pub bytes: Vec<u8>,
    /// Where its cipher begins.
    pub start: usize,
}

/// The message with the bytes `before` and the part of a body in the place of its cipher, and with
/// room for `following` more bytes of that cipher: so a part is encrypted where it is written (RFC
/// 3961 section 5.3). The cipher of `m` itself isn't used.
///
/// [`DerError::TooLong`] is returned if and only if the message would have over 1,005,000 bytes,
/// before any allocation.
pub fn draft_priv(
    alloc: Global,
    m: &PrivMsg,
    before: &[u8],
    b: &BodyRef<'_>,
    following: usize,
) -> Result<Draft, DerError>
    requires { InRange b.now }
    ensures { Drafts m.now before.now b.now
        (length before.now + length (part b.now) + following) result }
{
    m.known();
    let part = b.limited_part_size()?;
    let cipher = before.len().saturating_add(part).saturating_add(following);
    let size = m.limited_size(cipher)?;
    Ok(m.draft(alloc, before, b, cipher, size)?)
}
