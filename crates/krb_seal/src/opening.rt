//! One opening of a frame.

ghost use Rattle.std.specs.Prelude.{◌≡◌, ◌↔◌, ◌≤◌, ◌++◌, drop, length, Err, IfErr, IfOk, IfSome, IsTrue, None};
ghost use Rattle.std.specs.Option.{ForSome};
ghost use Rattle.krb_base.specs.Limits.{frame_limit};
ghost use Rattle.krb_der.specs.declared.body.Body.{Body as BodyValue};
ghost use Rattle.krb_der.specs.declared.message.Message.TheVariants as messages;
ghost use Rattle.krb_der.specs.Body.{InRange};
ghost use Rattle.krb_der.specs.Message.{Spells, SpellsPart};
ghost use Rattle.krb_seal.specs.declared.session.Mode.TheVariants.{Safe, Priv};
ghost use Rattle.krb_etype.specs.Etype.{number_of};
ghost use Rattle.krb_etype.specs.HeldKeys.{fresh_keys};
ghost use Rattle.krb_etype.specs.Keys.{IsEncryption, tag_of};
ghost use Rattle.krb_etype.specs.declared.private_keys.End.TheVariants as ends;
ghost use Rattle.krb_seal.specs.Mode.{purpose_of};
ghost use Rattle.krb_seal.specs.Opens.{Opens, OpensMessage, OpensText, Read, body_checks, opener_of, priv_header, safe_checks, safe_header};
ghost use Rattle.krb_seal.specs.OpensParts.{OpensPart, checksum_checks};
ghost use Rattle.krb_seal.specs.Authentic.{Authenticates, AuthenticMessage, AuthenticText, GivesBody, authentic_checks};
ghost use Rattle.krb_seal.specs.Covered.{CoversFrame, IsCodedFrame};
ghost use Rattle.krb_seal.specs.Seals.{safe_checksum};
ghost use Rattle.krb_seal.specs.Number.{TellsNoOther, TellsNumber};
ghost use Rattle.krb_seal.specs.NumberInside.{IsAuthenticNumber, TellsOfBody, TellsOfMessage, TellsOfText};
ghost use Rattle.krb_seal.specs.Memory.{AreMet, AsksForMemory, AsksWithoutDemands};
ghost use Rattle.krb_seal.specs.Unseals.{Checked, OrMemory, untold};

use crate::checks::{check_body, check_priv_header, check_safe_header, has_checksum};
use crate::checksum::{checksum_input, checksum_of};
use crate::coded::{Coded, Covered};
use crate::refusal::Refusal;
use crate::session::Expect;
use crate::unopened::Unopened;
use krb_base::{Bytes, Secret};
use krb_der::{
    Body, DerError, MessageRef, Moment, PrivRef, SafeRef, decode_borrowed, decode_part_from,
};
use krb_etype::{CODE_SIZE, CONFOUNDER_SIZE, Etype, Keys};
use krb_keys::mac_equal;
use std::alloc::Global;
use std::marker::Model;

/// What frames are opened by: an encryption type, live keys, and what is demanded of each message.
#[derive(Drop)]
pub struct Opening<'a> {
    etype: Etype,
    keys: &'a Keys,
    expect: &'a Expect,
}

impl<'a> Model for Opening<'a> {
    ghost use Rattle.krb_etype.specs.Etype.{number_of};
    ghost use Rattle.krb_seal.specs.Opens.{OpenerState, opener_of};

    ghost Value = { OpenerState };

    ghost use Rattle.krb_seal.specs.OpeningInside.{HasLiveKeys};

    ghost view = { λ a. opener_of (number_of a.etype) a.keys.now.key a.expect.now };

    ghost invariant = { HasLiveKeys };
}

impl<'a> Opening<'a> {
    /// Opens by these keys, which are those of an opener in the mode that is expected.
    pub fn new(etype: Etype, keys: &'a Keys, expect: &'a Expect) -> Opening<'a>
        requires { keys.now ≡ fresh_keys keys.now.key ends.Opener (purpose_of expect.now.mode) }
        ensures { result ≡ opener_of (number_of etype) keys.now.key expect.now }
    {
        Opening {
            etype,
            keys,
            expect,
        }
    }

    /// As [`Opener::unseal_telling`](crate::Opener::unseal_telling).
    pub fn unseal(
        &self,
        alloc: Global,
        frame: &[u8],
        number: u64,
        now: Moment,
    ) -> Result<Bytes, Unopened>
        ensures answer { OrMemory (Opens self.now number now frame.now) (untold result) }
        ensures number { IfErr result (TellsNumber self.now now frame.now) }
        ensures no_other { IfErr result TellsNoOther }
        ensures memory { untold result ≡ Err Refusal.Memory
            → AsksForMemory self.now number now frame.now }
    {
        let now = now.micros();
        match decode_borrowed(frame) {
            Ok(MessageRef::Safe(m)) => self.open_safe(alloc, frame, &m, None, number, now),
            Ok(MessageRef::Priv(m)) => self.open_priv(alloc, &m, number, now),
            Err(DerError::TooLong) => Err(Unopened::from(Refusal::FieldTooLong)),
            Err(DerError::Malformed) => Err(Unopened::from(Refusal::Malformed)),
            Err(DerError::Memory) => unreachable!(),
        }
    }

    /// As [`Opener::authenticate`](crate::Opener::authenticate).
    pub fn authenticate(&self, alloc: Global, frame: &[u8]) -> Result<Body, Refusal>
        ensures answer { OrMemory (Authenticates self.now frame.now) result }
        ensures range { IfOk result InRange }
        ensures memory { result ≡ Err Refusal.Memory → AsksWithoutDemands self.now frame.now }
    {
        match decode_borrowed(frame) {
            Ok(MessageRef::Safe(m)) => self.authentic_safe(alloc, frame, &m),
            Ok(MessageRef::Priv(m)) => self.authentic_priv(alloc, &m),
            Err(DerError::TooLong) => Err(Refusal::FieldTooLong),
            Err(DerError::Malformed) => Err(Refusal::Malformed),
            Err(DerError::Memory) => unreachable!(),
        }
    }
}

impl<'a> Opening<'a> {
    /// As [`Opener::covered`](crate::Opener::covered).
    pub fn covered<'f>(&self, alloc: Global, frame: &'f [u8]) -> Option<Covered<'f>>
        ensures { IfSome result (CoversFrame self.now frame.now) }
    {
        match decode_borrowed(frame) {
            Ok(MessageRef::Safe(m)) => self.covered_safe(alloc, frame, m),
            Ok(MessageRef::Priv(m)) => self.covered_priv(alloc, frame, m),
            Err(_) => None,
        }
    }

    /// The same of a KRB-SAFE.
    fn covered_safe<'f>(
        &self,
        alloc: Global,
        frame: &'f [u8],
        message: SafeRef<'f>,
    ) -> Option<Covered<'f>>
        requires spelt { Spells (messages.Safe message) frame.now }
        ensures { IfSome result (CoversFrame self.now frame.now) }
    {
        if check_safe_header(self.etype, self.expect, &message).is_err() {
            return None;
        }
        let Ok(bytes) = checksum_input(alloc, message.before_checksum_in(frame)) else {
            return None;
        };
        Some(Covered::Safe(message, bytes))
    }

    /// The same of a KRB-PRIV.
    fn covered_priv<'f>(
        &self,
        alloc: Global,
        frame: &'f [u8],
        message: PrivRef<'f>,
    ) -> Option<Covered<'f>>
        requires spelt { Spells (messages.Priv message) frame.now }
        ensures { IfSome result (CoversFrame self.now frame.now) }
    {
        if check_priv_header(self.etype, self.expect, &message).is_err() {
            return None;
        }
        let (text, tag) = self.deciphered(alloc, &message)?;
        Some(Covered::Priv(message, text, tag))
    }

    /// As [`Opener::unseal_coded`](crate::Opener::unseal_coded).
    pub fn unseal_coded(
        &self,
        alloc: Global,
        frame: &[u8],
        coded: Coded<'_>,
        number: u64,
        now: Moment,
    ) -> Result<Bytes, Unopened>
        requires coded { IsCodedFrame self.now frame.now coded }
        ensures answer { OrMemory (Opens self.now number now frame.now) (untold result) }
        ensures number { IfErr result (TellsNumber self.now now frame.now) }
        ensures no_other { IfErr result TellsNoOther }
        ensures memory { untold result ≡ Err Refusal.Memory
            → AsksForMemory self.now number now frame.now }
    {
        let now = now.micros();
        let Coded { covered, code } = coded;
        match covered {
            Covered::Safe(message, _bytes) => {
                self.open_safe(alloc, frame, &message, Some(code), number, now)
            }
            Covered::Priv(_message, text, tag) => {
                self.open_text(alloc, text, &tag, Some(code), number, now)
            }
        }
    }
}

impl<'a> Opening<'a> {
    /// The checksum that a KRB-SAFE ought to have: the given one, else that of the bytes that it was
    /// read of.
    fn checksum(
        &self,
        frame: &[u8],
        m: &SafeRef<'_>,
        given: Option<[u8; CODE_SIZE]>,
    ) -> [u8; CODE_SIZE]
        requires mode { self.now.expect.mode ≡ Safe }
        requires spelt { Spells (messages.Safe m.now) frame.now }
        requires given { ForSome given (λ code. code ≡ safe_checksum self.now.key m.now) }
        ensures { result ≡ safe_checksum self.now.key m.now }
    {
        match given {
            Some(code) => code,
            None => checksum_of(self.keys, m.before_checksum_in(frame)),
        }
    }

    /// The checksum of a KRB-SAFE. What it ought to be may be given.
    fn check_checksum(
        &self,
        frame: &[u8],
        m: &SafeRef<'_>,
        given: Option<[u8; CODE_SIZE]>,
    ) -> Result<(), Refusal>
        requires mode { self.now.expect.mode ≡ Safe }
        requires spelt { Spells (messages.Safe m.now) frame.now }
        requires given { ForSome given (λ code. code ≡ safe_checksum self.now.key m.now) }
        ensures { Checked (checksum_checks self.now.key m.now) result }
    {
        let checksum = self.checksum(frame, m, given);
        if !has_checksum(m, &checksum) {
            return Err(Refusal::Modified);
        }
        Ok(())
    }

    /// The checks of a KRB-SAFE but for its checksum.
    fn check_fields(&self, m: &SafeRef<'_>, number: u64, now: u64) -> Result<(), Refusal>
        requires { InRange m.now.body }
        ensures { Checked (safe_header self.now.etype self.now.expect m.now
            ++ body_checks self.now.expect number now m.now.body) result }
    {
        check_safe_header(self.etype, self.expect, m)?;
        check_body(self.expect, number, now, m.body())
    }

    /// The checks of a KRB-SAFE but for those of its body.
    fn check_authentic(
        &self,
        frame: &[u8],
        m: &SafeRef<'_>,
        given: Option<[u8; CODE_SIZE]>,
    ) -> Result<(), Refusal>
        requires spelt { Spells (messages.Safe m.now) frame.now }
        requires given { ForSome given (λ code. code ≡ safe_checksum self.now.key m.now) }
        ensures { Checked (authentic_checks self.now m.now) result }
    {
        check_safe_header(self.etype, self.expect, m)?;
        self.check_checksum(frame, m, given)
    }

    /// All checks of a KRB-SAFE.
    fn check_safe(
        &self,
        frame: &[u8],
        m: &SafeRef<'_>,
        given: Option<[u8; CODE_SIZE]>,
        number: u64,
        now: u64,
    ) -> Result<(), Unopened>
        requires spelt { Spells (messages.Safe m.now) frame.now }
        requires given { ForSome given (λ code. code ≡ safe_checksum self.now.key m.now) }
        ensures checked { Checked (safe_checks self.now number now m.now) (untold result) }
        ensures number { IfErr result (TellsOfMessage self.now now (messages.Safe m.now)) }
        ensures no_other { IfErr result TellsNoOther }
    {
        if let Err(refusal) = self.check_fields(m, number, now) {
            let number = self.number_of(frame, m, given, refusal);
            return Err(Unopened { refusal, number });
        }
        self.check_checksum(frame, m, given)?;
        Ok(())
    }

    /// What a KRB-SAFE gives, whose checksum may be given. Its user data are copied once it is accepted.
    fn open_safe(
        &self,
        alloc: Global,
        frame: &[u8],
        m: &SafeRef<'_>,
        given: Option<[u8; CODE_SIZE]>,
        number: u64,
        now: u64,
    ) -> Result<Bytes, Unopened>
        requires spelt { Spells (messages.Safe m.now) frame.now }
        requires given { ForSome given (λ code. code ≡ safe_checksum self.now.key m.now) }
        ensures answer { OrMemory (OpensMessage self.now number now (messages.Safe m.now))
            (untold result) }
        ensures number { IfErr result (TellsOfMessage self.now now (messages.Safe m.now)) }
        ensures no_other { IfErr result TellsNoOther }
        ensures memory { untold result ≡ Err Refusal.Memory
            → AreMet (safe_checks self.now number now m.now) }
    {
        self.check_safe(frame, m, given, number, now)?;
        match Vec::from_slice(alloc, m.body().user_data()) {
            Ok(user_data) => Ok(Bytes::new(user_data)),
            Err(_) => Err(Unopened::from(Refusal::Memory)),
        }
    }

    /// The number of a KRB-SAFE that is refused so, if it is by its number and the checksum is right.
    fn number_of(
        &self,
        frame: &[u8],
        m: &SafeRef<'_>,
        given: Option<[u8; CODE_SIZE]>,
        refusal: Refusal,
    ) -> Option<u32>
        requires spelt { Spells (messages.Safe m.now) frame.now }
        requires given { ForSome given (λ code. code ≡ safe_checksum self.now.key m.now) }
        ensures order { refusal ≡ Refusal.BadOrder → IsAuthenticNumber self.now m.now result }
        ensures other { ¬ (refusal ≡ Refusal.BadOrder) → result ≡ None }
    {
        if !matches!(refusal, Refusal::BadOrder) {
            return None;
        }
        match self.check_authentic(frame, m, given) {
            Ok(()) => m.body().seq(),
            Err(_) => None,
        }
    }

    /// The body of a KRB-SAFE that is authentic.
    fn authentic_safe(&self, alloc: Global, frame: &[u8], m: &SafeRef<'_>) -> Result<Body, Refusal>
        requires spelt { Spells (messages.Safe m.now) frame.now }
        ensures answer { OrMemory (AuthenticMessage self.now (messages.Safe m.now)) result }
        ensures range { IfOk result InRange }
        ensures memory { result ≡ Err Refusal.Memory → AreMet (authentic_checks self.now m.now) }
    {
        self.check_authentic(frame, m, None)?;
        match m.body().to_owned(alloc) {
            Ok(body) => Ok(body),
            Err(_) => Err(Refusal::Memory),
        }
    }

    /// What a KRB-PRIV gives.
    fn open_priv(
        &self,
        alloc: Global,
        m: &PrivRef<'_>,
        number: u64,
        now: u64,
    ) -> Result<Bytes, Unopened>
        ensures answer { OrMemory (OpensMessage self.now number now (messages.Priv m.now))
            (untold result) }
        ensures number { IfErr result (TellsOfMessage self.now now (messages.Priv m.now)) }
        ensures no_other { IfErr result TellsNoOther }
        ensures memory { untold result ≡ Err Refusal.Memory
            → AreMet (priv_header self.now.etype self.now.expect m.now) }
    {
        check_priv_header(self.etype, self.expect, m)?;
        let Some(found) = self.deciphered(alloc, m) else {
            return Err(Unopened::from(Refusal::Memory));
        };
        let (text, tag) = found;
        self.open_text(alloc, text, &tag, None, number, now)
    }

    /// What a deciphered text gives, whose code may be given.
    fn open_text(
        &self,
        alloc: Global,
        text: Secret,
        tag: &[u8; CODE_SIZE],
        given: Option<[u8; CODE_SIZE]>,
        number: u64,
        now: u64,
    ) -> Result<Bytes, Unopened>
        requires mode { self.now.expect.mode ≡ Priv }
        requires long { 16 ≤ length text }
        requires given { ForSome given (λ code. code ≡ tag_of self.now.key text) }
        ensures answer { OrMemory (OpensText self.now number now text tag.now) (untold result) }
        ensures number { IfErr result (TellsOfText self.now now text tag.now) }
        ensures no_other { IfErr result TellsNoOther }
    {
        match self.authentic_text(alloc, text, tag, given) {
            Ok(body) => self.open_body(alloc, body, number, now),
            Err(refusal) => Err(Unopened::from(refusal)),
        }
    }

    /// What an authentic body gives. If it is refused, its data are overwritten before they are freed.
    fn open_body(&self, alloc: Global, body: Body, number: u64, now: u64) -> Result<Bytes, Unopened>
        requires range { InRange body }
        ensures answer { OpensPart self.now.expect number now body (untold result) }
        ensures number { IfErr result (TellsOfBody self.now.expect now body) }
        ensures no_other { IfErr result TellsNoOther }
    {
        let checked = check_body(self.expect, number, now, &body.borrowed());
        let Body { user_data, seq, .. } = body;
        let user_data = Secret::from(user_data);
        match checked {
            Ok(()) => Ok(user_data.into_bytes(alloc)),
            Err(refusal) => Err(Unopened::new(refusal, seq)),
        }
    }

    /// The body of a KRB-PRIV that is authentic.
    fn authentic_priv(&self, alloc: Global, m: &PrivRef<'_>) -> Result<Body, Refusal>
        ensures answer { OrMemory (AuthenticMessage self.now (messages.Priv m.now)) result }
        ensures range { IfOk result InRange }
        ensures memory { result ≡ Err Refusal.Memory
            → AreMet (priv_header self.now.etype self.now.expect m.now) }
    {
        check_priv_header(self.etype, self.expect, m)?;
        let Some(found) = self.deciphered(alloc, m) else {
            return Err(Refusal::Memory);
        };
        let (text, tag) = found;
        self.authentic_text(alloc, text, &tag, None)
    }

    /// The text of a KRB-PRIV whose header passes, and the code after its cipher. There is none without
    /// memory.
    fn deciphered(&self, alloc: Global, m: &PrivRef<'_>) -> Option<(Secret, [u8; CODE_SIZE])>
        requires header { AreMet (priv_header self.now.etype self.now.expect m.now) }
        ensures mode { self.now.expect.mode ≡ Priv }
        ensures text { IfSome result (λ t. IsEncryption self.now.key m.now.cipher t.0 t.1) }
    {
        let Ok(cipher) = Vec::from_slice(alloc, m.cipher()) else {
            return None;
        };
        let (text, tag) = self.keys.decrypted(Bytes::new(cipher));
        Some((Secret::new(text), tag))
    }

    /// The code that a deciphered text ought to have: the given one, else that of the text.
    fn tag(&self, text: &[u8], given: Option<[u8; CODE_SIZE]>) -> [u8; CODE_SIZE]
        requires mode { self.now.expect.mode ≡ Priv }
        requires given { ForSome given (λ code. code ≡ tag_of self.now.key text.now) }
        ensures { result ≡ tag_of self.now.key text.now }
    {
        match given {
            Some(code) => code,
            None => self.keys.tag(text),
        }
    }

    /// Whether the code after a cipher is that of its text. What it ought to be may be given.
    fn is_tag(&self, tag: &[u8; CODE_SIZE], text: &[u8], given: Option<[u8; CODE_SIZE]>) -> bool
        requires mode { self.now.expect.mode ≡ Priv }
        requires given { ForSome given (λ code. code ≡ tag_of self.now.key text.now) }
        ensures { IsTrue result ↔ (tag.now ≡ tag_of self.now.key text.now) }
    {
        let code = self.tag(text, given);
        mac_equal(tag, &code)
    }

    /// The body of a deciphered text that is authentic. If it is refused, the text is overwritten before
    /// it is freed.
    fn authentic_text(
        &self,
        alloc: Global,
        text: Secret,
        tag: &[u8; CODE_SIZE],
        given: Option<[u8; CODE_SIZE]>,
    ) -> Result<Body, Refusal>
        requires mode { self.now.expect.mode ≡ Priv }
        requires long { 16 ≤ length text }
        requires given { ForSome given (λ code. code ≡ tag_of self.now.key text) }
        ensures answer { OrMemory (AuthenticText self.now.key text tag.now) result }
        ensures range { IfOk result InRange }
    {
        if !self.is_tag(tag, text.as_slice(), given) {
            return Err(Refusal::BadIntegrity);
        }
        read_part(alloc, text.into_vec(alloc))
    }
}

/// The body after the confounder of a text. Its data take the text's own block.
fn read_part(alloc: Global, text: Vec<u8>) -> Result<Body, Refusal>
    requires { 16 ≤ length text.items }
    ensures answer { OrMemory (Read SpellsPart (drop 16 text.items) GivesBody) result }
    ensures range { IfOk result InRange }
    ensures memory { result ≡ Err Refusal.Memory → (b : BodyValue) × SpellsPart b (drop 16 text.items) }
{
    match decode_part_from(alloc, text, CONFOUNDER_SIZE) {
        Ok(body) => Ok(body),
        Err(DerError::Memory) => Err(Refusal::Memory),
        Err(DerError::TooLong | DerError::Malformed) => Err(Refusal::Malformed),
    }
}
