//! The answers by their numbers.

ghost use Rattle.std.specs.Prelude.{◌≡◌, ◌+◌, ◌<◌, ◌++◌, [], ◌∷◌, length, take, IfOk, IfSome, OnErr, None};
ghost use Rattle.krb_seal.specs.declared.refusal.Refusal.{Refusal as RefusalValue};
ghost use Rattle.krb_seal.specs.Refusal.{code_of};
ghost use Rattle.krb_structs.specs.declared.fault.Fault.{Fault as FaultValue};
ghost use Rattle.krb_structs.specs.Fault.{IsDone, Needs, answer_of, fault_code};
ghost use Rattle.krb_structs.specs.Answers.{IsWritten, name_of, ok_name, ok_text, refusal_text, text_of};
ghost use Rattle.krb_structs.specs.Reasons.{TextAnswer};

use crate::buffer::put_front;
use crate::fault::Fault;
use krb_seal::Refusal;

/// Writes the name of the answer with this number and a zero after it, and answers the name's size.
pub fn name_into(code: u32, out: &mut [u8]) -> Result<usize, Fault>
    ensures named { IfOk result (λ size. IsWritten name_of ok_name code size out.new) }
    ensures kept { OnErr result (out.new ≡ out.old) }
    ensures answer { TextAnswer name_of ok_name code (length out.old) (answer_of result) }
{
    if code == 0 {
        return put_text(out, "OK");
    }
    let fault = fault_at(code).ok_or(Fault::Argument)?;
    put_text(out, fault.name())
}

/// Writes what the answer with this number says and a zero after it, and answers its size.
pub fn text_into(code: u32, out: &mut [u8]) -> Result<usize, Fault>
    ensures told { IfOk result (λ size. IsWritten text_of ok_text code size out.new) }
    ensures kept { OnErr result (out.new ≡ out.old) }
    ensures answer { TextAnswer text_of ok_text code (length out.old) (answer_of result) }
{
    if code == 0 {
        return put_text(out, "done");
    }
    let fault = fault_at(code).ok_or(Fault::Argument)?;
    put_text(out, fault.text())
}

/// Writes a text and a zero, and answers the text's size.
fn put_text(out: &mut [u8], text: &str) -> Result<usize, Fault>
    ensures size { IfOk result (λ size. size ≡ length text.now) }
    ensures written { IfOk result (λ size. take (size + 1) out.new ≡ text.now ++ 0 ∷ []) }
    ensures kept { OnErr result (out.new ≡ out.old) }
    ensures answer { Needs (length text.now < length out.old) Fault.Room IsDone (answer_of result) }
{
    let bytes = text.as_bytes();
    if out.len() <= bytes.len() {
        return Err(Fault::Room);
    }
    put_front(out, bytes);
    out[bytes.len()] = 0;
    Ok(bytes.len())
}

impl Fault {
    /// Its name: of a refusal that of RFC 4120 section 7.5.9 without its prefix.
    fn name(&self) -> &'static str
        ensures { result.now ≡ name_of self.now }
    {
        match self {
            Fault::Refused(refusal) => refusal.name(),
            Fault::Wiped => "WIPED",
            Fault::TooLong => "TOO_LONG",
            Fault::Exhausted => "EXHAUSTED",
            Fault::Etype => "ETYPE",
            Fault::Room => "ROOM",
            Fault::Empty => "EMPTY",
            Fault::KeySize => "KEY_SIZE",
            Fault::Mode => "MODE",
            Fault::Moment => "MOMENT",
            Fault::Address => "ADDRESS",
            Fault::Argument => "ARGUMENT",
            Fault::Record => "RECORD",
            Fault::Repeated => "REPEATED",
            Fault::TooOld => "TOO_OLD",
        }
    }

    /// What it says.
    fn text(&self) -> &'static str
        ensures { result.now ≡ text_of self.now }
    {
        match self {
            Fault::Refused(refusal) => refusal_text(refusal),
            Fault::Wiped => "the keys were overwritten",
            Fault::TooLong => "the user data are longer than a message may carry",
            Fault::Exhausted => "no sequence number is left",
            Fault::Etype => "the encryption type is neither 17 nor 18",
            Fault::Room => "a buffer is too small",
            Fault::Empty => "the handle holds nothing",
            Fault::KeySize => "the key hasn't the size of its encryption type",
            Fault::Mode => "the mode is neither KRB-SAFE nor KRB-PRIV",
            Fault::Moment => "the time is outside the years 1970 to 9999",
            Fault::Address => "an address has over 40 bytes",
            Fault::Argument => "an argument is out of its range",
            Fault::Record => "the texts don't fit in a record",
            Fault::Repeated => "the number was taken before",
            Fault::TooOld => "the number is too far below the highest that was taken",
        }
    }
}

/// What a refusal says.
fn refusal_text(refusal: &Refusal) -> &'static str
    ensures { result.now ≡ refusal_text refusal.now }
{
    match refusal {
        Refusal::FieldTooLong => "the message is longer than a message may be",
        Refusal::Malformed => "not a DER-encoded KRB-SAFE or KRB-PRIV message",
        Refusal::BadVersion => "the protocol version isn't 5",
        Refusal::MsgType => "the message isn't of the expected kind, KRB-SAFE or KRB-PRIV",
        Refusal::EtypeNoSupp => "the encryption type isn't the expected one",
        Refusal::BadIntegrity => "the encrypted part is too short, or its integrity check fails",
        Refusal::InappCksum => "the checksum's type isn't the expected one",
        Refusal::BadAddr => "an address isn't the expected one, or is missing",
        Refusal::Skew => "the time is off by more than the skew, or is missing",
        Refusal::BadOrder => "the sequence number isn't the expected one",
        Refusal::Modified => "the checksum differs",
        Refusal::BadRecord => "the user data aren't a record",
        Refusal::AfterClose => "a close was accepted before",
        Refusal::Memory => "out of memory",
    }
}

/// The fault with this number.
fn fault_at(code: u32) -> Option<Fault>
    ensures some { IfSome result (λ f. code ≡ fault_code f) }
    ensures none { result ≡ None → (f : FaultValue) → ¬ (code ≡ fault_code f) }
{
    let fault = match code {
        1 => Fault::Wiped,
        2 => Fault::TooLong,
        3 => Fault::Exhausted,
        905 => Fault::Etype,
        906 => Fault::Room,
        907 => Fault::Empty,
        908 => Fault::KeySize,
        909 => Fault::Mode,
        910 => Fault::Moment,
        911 => Fault::Address,
        912 => Fault::Argument,
        913 => Fault::Record,
        917 => Fault::Repeated,
        918 => Fault::TooOld,
        _ => return refusal_at(code),
    };
    Some(fault)
}

/// The refusal with this number.
fn refusal_at(code: u32) -> Option<Fault>
    ensures some { IfSome result (λ f. (r : RefusalValue)
        × (f ≡ Fault.Refused r) × (code ≡ code_of r)) }
    ensures none { result ≡ None → (r : RefusalValue) → ¬ (code ≡ code_of r) }
{
    let refusal = match code {
        61 => Refusal::FieldTooLong,
        901 => Refusal::Malformed,
        39 => Refusal::BadVersion,
        40 => Refusal::MsgType,
        14 => Refusal::EtypeNoSupp,
        31 => Refusal::BadIntegrity,
        50 => Refusal::InappCksum,
        38 => Refusal::BadAddr,
        37 => Refusal::Skew,
        42 => Refusal::BadOrder,
        41 => Refusal::Modified,
        902 => Refusal::BadRecord,
        903 => Refusal::AfterClose,
        904 => Refusal::Memory,
        _ => return None,
    };
    Some(Fault::Refused(refusal))
}
