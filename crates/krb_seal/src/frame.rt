//! A message and its protection.

ghost use Rattle.std.specs.Prelude.{◌≡◌, ◌≤◌, ◌++◌, false, length, take, drop, IfOk, OnOk};
ghost use Rattle.krb_der.specs.Body.{InRange};
ghost use Rattle.krb_seal.specs.declared.session.Mode.TheVariants.{Safe, Priv};
ghost use Rattle.krb_base.specs.Bytes.{AreBytes};
ghost use Rattle.krb_etype.specs.Etype.{number_of};
ghost use Rattle.krb_etype.specs.Keys.{encrypted};
ghost use Rattle.krb_etype.specs.HeldKeys.{IsEnciphering, fresh_keys};
ghost use Rattle.krb_etype.specs.declared.private_keys.End.TheVariants.{Sealer};
ghost use Rattle.krb_etype.specs.declared.keys.Purpose.TheVariants.{Checksum};
ghost use Rattle.krb_seal.specs.Mode.{purpose_of};
ghost use Rattle.krb_seal.specs.Seals.{SealsBody, unsigned, unenciphered};
ghost use Rattle.krb_base.specs.Limits.{frame_limit, user_data_limit};
ghost use Rattle.krb_der.specs.Size.{HasPrivateSize};
ghost use Rattle.krb_seal.specs.Body.{HasSizeOf, HasSmallAddresses, IsSmall};

use crate::checksum::checksum_of;
use crate::limit::within_limit;
use crate::session::Mode;
use krb_base::known_bytes;
use krb_der::{BodyRef, Bytes, Draft, PrivMsg, SafeRef, draft_priv, draft_safe, priv_size};
use krb_etype::{CODE_SIZE, CONFOUNDER_SIZE, Etype, Keys};
use std::alloc::{AllocError, Global};

/// The KRB-SAFE that carries a body, before it has its checksum.
pub fn unsigned<'a>(etype: Etype, body: BodyRef<'a>) -> SafeRef<'a>
    ensures { result ≡ unsigned etype body.entry }
{
    SafeRef::unsigned(5, 20, body, etype.checksum_number())
}

/// The KRB-SAFE that carries a body. Its fields are written once, and hashed where they stand in the
/// frame.
fn safe_frame(
    alloc: Global,
    keys: &Keys,
    etype: Etype,
    message: &SafeRef<'_>,
    confounder: [u8; 16],
) -> Result<Vec<u8>, AllocError>
    requires live { keys.now.wiped ≡ false }
    requires purpose { keys.now.purpose ≡ Checksum }
    requires message { message.now ≡ unsigned etype message.now.body }
    requires range { InRange message.now.body }
    requires small { IsSmall message.now.body }
    ensures { IfOk result (λ frame. SealsBody Safe (number_of etype) keys.now.key confounder
        message.now.body frame.items) }
{
    let draft = within_limit(draft_safe(alloc, message, CODE_SIZE))?;
    let checksum = checksum_of(keys, draft.fields());
    draft.with_checksum(etype.checksum_number(), &checksum)
}

/// Enciphers a text in place, and gives the code that follows it.
fn encipher(keys: &Keys, text: &mut [u8]) -> [u8; CODE_SIZE]
    requires keys { IsEnciphering keys.now }
    requires long { 16 ≤ length text.old }
    ensures encrypted { text.new ++ result ≡ encrypted keys.now.key text.old }
    ensures bytes { AreBytes text.old }
{
    known_bytes(text);
    let tag = keys.tag(text);
    keys.encipher(text);
    tag
}

/// The KRB-PRIV of a draft.
fn finished(keys: &Keys, draft: Draft) -> Result<Vec<u8>, AllocError>
    requires keys { IsEnciphering keys.now }
    requires within { draft.start ≤ length draft.bytes.items }
    requires long { 16 ≤ length (drop draft.start draft.bytes.items) }
    ensures frame { IfOk result (λ frame. frame.items
        ≡ take draft.start draft.bytes.items
        ++ encrypted keys.now.key (drop draft.start draft.bytes.items)) }
    ensures plain { OnOk result (AreBytes (drop draft.start draft.bytes.items)) }
{
    let Draft { mut bytes, start } = draft;
    let tag = encipher(keys, &mut bytes[start..]);
    bytes.extend_from_slice(&tag)?;
    Ok(bytes)
}

/// A KRB-PRIV before it has its cipher.
pub fn unenciphered(alloc: Global, etype: Etype) -> PrivMsg
    ensures { result ≡ unenciphered etype }
{
    PrivMsg {
        pvno: 5,
        msg_type: 21,
        etype: etype.number(),
        kvno: None,
        cipher: Bytes::new(Vec::new(alloc)),
    }
}

/// The KRB-PRIV that carries a body. The part is written and enciphered in its place in the
/// frame.
fn priv_frame(
    alloc: Global,
    keys: &Keys,
    etype: Etype,
    body: &BodyRef<'_>,
    confounder: [u8; 16],
) -> Result<Vec<u8>, AllocError>
    requires keys { IsEnciphering keys.now }
    requires range { InRange body.now }
    requires small { IsSmall body.now }
    ensures { IfOk result (λ frame. SealsBody Priv (number_of etype) keys.now.key confounder
        body.now frame.items) }
{
    let message = unenciphered(alloc, etype);
    let draft = within_limit(draft_priv(alloc, &message, &confounder, body, CODE_SIZE))?;
    finished(keys, draft)
}

/// The message that carries a body in a mode.
pub fn frame_of(
    alloc: Global,
    keys: &Keys,
    etype: Etype,
    mode: Mode,
    body: BodyRef<'_>,
    confounder: [u8; 16],
) -> Result<Vec<u8>, AllocError>
    requires keys { keys.now ≡ fresh_keys keys.now.key Sealer (purpose_of mode) }
    requires range { InRange body }
    requires small { IsSmall body }
    ensures { IfOk result (λ frame. SealsBody mode (number_of etype) keys.now.key confounder
        body.entry frame.items) }
{
    match mode {
        Mode::Safe => safe_frame(alloc, keys, etype, &unsigned(etype, body), confounder),
        Mode::Priv => priv_frame(alloc, keys, etype, &body, confounder),
    }
}

/// How many bytes the KRB-SAFE of a body has with so many bytes of user data.
fn safe_frame_size(draft: &SafeRef<'_>, etype: Etype, len: usize) -> usize
    requires limit { len ≤ user_data_limit }
    requires draft { draft.now ≡ unsigned etype draft.now.body }
    requires range { InRange draft.now.body }
    requires small { HasSmallAddresses draft.now.body }
    ensures { HasSizeOf Safe (number_of etype) draft.now.body len result }
{
    draft.size_with(CODE_SIZE, len)
}

/// How many bytes a KRB-PRIV has with a cipher of so many bytes.
fn enciphered_size(etype: Etype, cipher: usize) -> usize
    requires { cipher ≤ frame_limit }
    ensures { HasPrivateSize (unenciphered etype) cipher result }
{
    priv_size(5, 21, etype.number(), None, cipher)
}

/// How many bytes the KRB-PRIV of a body has with so many bytes of user data.
fn priv_frame_size(etype: Etype, body: &BodyRef<'_>, len: usize) -> usize
    requires limit { len ≤ user_data_limit }
    requires range { InRange body.now }
    requires small { HasSmallAddresses body.now }
    ensures { HasSizeOf Priv (number_of etype) body.now len result }
{
    let text = CONFOUNDER_SIZE + body.part_size_with(len);
    enciphered_size(etype, text + CODE_SIZE)
}

/// How many bytes the message that carries a body in a mode has with so many bytes of user data.
pub fn frame_size(etype: Etype, mode: Mode, body: BodyRef<'_>, len: usize) -> usize
    requires limit { len ≤ user_data_limit }
    requires range { InRange body }
    requires small { HasSmallAddresses body }
    ensures { HasSizeOf mode (number_of etype) body.entry len result }
{
    match mode {
        Mode::Safe => safe_frame_size(&unsigned(etype, body), etype, len),
        Mode::Priv => priv_frame_size(etype, &body, len),
    }
}
