//! The checks of a message, in their order.

ghost use Rattle.std.specs.Prelude.{◌≡◌, ◌↔◌, IsTrue};
ghost use Rattle.krb_der.specs.Body.{InRange};
ghost use Rattle.krb_etype.specs.Etype.{etype_of, is_checksum_of, number_of};
ghost use Rattle.krb_seal.specs.Opens.{addresses_fit, body_checks, is_current, is_number, is_safe, priv_header, receiver_fits, safe_header};
ghost use Rattle.krb_seal.specs.Unseals.{Checked};

use crate::refusal::Refusal;
use crate::session::{Expect, Mode};
use krb_der::{AddressRef, BodyRef, MICROS_PER_SECOND, PrivRef, SafeRef};
use krb_etype::{CODE_SIZE, CONFOUNDER_SIZE, Etype};
use krb_keys::mac_equal;

fn receiver_fits(expect: &Expect, r_addr: &Option<AddressRef<'_>>) -> bool
    ensures { result ≡ receiver_fits expect.now r_addr.now }
{
    match r_addr {
        None => !expect.require_r,
        Some(address) => address.is(&expect.r_addr),
    }
}

fn addresses_fit(expect: &Expect, body: &BodyRef<'_>) -> bool
    ensures { result ≡ addresses_fit expect.now body.now }
{
    body.s_addr().is(&expect.s_addr) && receiver_fits(expect, body.r_addr())
}

fn is_current(expect: &Expect, now: u64, body: &BodyRef<'_>) -> bool
    requires { InRange body.now }
    ensures { result ≡ is_current expect.now now body.now.time body.now.usec }
{
    match body.time() {
        (Some(secs), Some(usec)) => {
            let at = MICROS_PER_SECOND * secs + u64::from(usec);
            now.abs_diff(at) <= MICROS_PER_SECOND * u64::from(expect.skew)
        }
        (None, None) => !expect.expect_time,
        (Some(_), None) => false,
        (None, Some(_)) => false,
    }
}

fn is_number(number: u64, seq: Option<u32>) -> bool
    ensures { result ≡ is_number number seq }
{
    match seq {
        None => false,
        Some(n) => u64::from(n) == number,
    }
}

fn is_safe(mode: Mode) -> bool
    ensures { result ≡ is_safe mode }
{
    match mode {
        Mode::Safe => true,
        Mode::Priv => false,
    }
}

/// Whether a checksum's number is that of the encryption type's checksum.
fn is_checksum_of(etype: Etype, number: i32) -> bool
    ensures { result ≡ is_checksum_of (etype_of (number_of etype)) number }
{
    number == etype.checksum_number()
}

/// The version, the kind of message and the checksum's type of KRB-SAFE.
pub fn check_safe_header(etype: Etype, expect: &Expect, m: &SafeRef<'_>) -> Result<(), Refusal>
    ensures { Checked (safe_header (number_of etype) expect.now m.now) result }
{
    if m.pvno() != 5 {
        return Err(Refusal::BadVersion);
    }
    if !(is_safe(expect.mode) && m.msg_type() == 20) {
        return Err(Refusal::MsgType);
    }
    if !is_checksum_of(etype, m.cksum_type()) {
        return Err(Refusal::InappCksum);
    }
    Ok(())
}

/// The version, the kind of message, the encryption type and the size of a cipher of KRB-PRIV.
pub fn check_priv_header(etype: Etype, expect: &Expect, m: &PrivRef<'_>) -> Result<(), Refusal>
    ensures { Checked (priv_header (number_of etype) expect.now m.now) result }
{
    if m.pvno() != 5 {
        return Err(Refusal::BadVersion);
    }
    if is_safe(expect.mode) || m.msg_type() != 21 {
        return Err(Refusal::MsgType);
    }
    if m.etype() != etype.number() {
        return Err(Refusal::EtypeNoSupp);
    }
    if m.cipher().len() < CONFOUNDER_SIZE + CODE_SIZE {
        return Err(Refusal::BadIntegrity);
    }
    Ok(())
}

/// Whether the message has this checksum.
pub fn has_checksum(m: &SafeRef<'_>, checksum: &[u8; CODE_SIZE]) -> bool
    ensures { IsTrue result ↔ (m.now.checksum ≡ checksum.now) }
{
    mac_equal(m.checksum(), checksum)
}

/// The addresses, the time and the number of a body of either kind.
pub fn check_body(expect: &Expect, number: u64, now: u64, body: &BodyRef<'_>) -> Result<(), Refusal>
    requires { InRange body.now }
    ensures { Checked (body_checks expect.now number now body.now) result }
{
    if !addresses_fit(expect, body) {
        return Err(Refusal::BadAddr);
    }
    if !is_current(expect, now, body) {
        return Err(Refusal::Skew);
    }
    if !is_number(number, body.seq()) {
        return Err(Refusal::BadOrder);
    }
    Ok(())
}
