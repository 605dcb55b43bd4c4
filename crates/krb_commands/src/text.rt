//! The line that is printed for a reading.
ghost use Rattle.std.specs.Prelude.{◌≡◌, ◌++◌, codes, IfOk, IfSome};
ghost use Rattle.std.specs.String.{string_bytes};
ghost use Rattle.std.specs.Fmt.{decimal};
ghost use Rattle.krb_der.specs.Time.{IsSecond, kerberos_time};
ghost use Rattle.krb_commands.specs.Printed as printed;
ghost use Rattle.krb_commands.specs.Printed.{IsPrintable, HasPrintableBody, HasPrintableTime, HasTime, message_text, printed_line, or_dash};
ghost use Rattle.std.specs.Cow.{cow_str_bytes};

use crate::inside::Inside;
use crate::reading::Reading;
use krb_der::{Body, Bytes, HostAddress, Message, PrivMsg, SafeMsg, kerberos_time};
use std::alloc::{AllocError, Global};
use std::borrow::CowStr;

impl Reading {
    /// The line that is printed for a reading, with its line feed.
    pub fn line(&self, alloc: Global) -> Result<CowStr<'static>, AllocError>
        requires { IsPrintable self.now }
        ensures { IfOk result (λ line. cow_str_bytes line ≡ printed_line self.now) }
    {
        match self {
            Reading::Message(message, inside) => {
                let line = message_line(alloc, message, inside)?;
                Ok(CowStr::Owned(line))
            }
            Reading::Malformed => Ok(CowStr::Borrowed("refused 901 MALFORMED\n")),
            Reading::TooLong => Ok(CowStr::Borrowed("refused 61 FIELD_TOOLONG\n")),
            Reading::NotHexadecimal => Ok(CowStr::Borrowed("not hexadecimal\n")),
        }
    }
}

fn message_line(alloc: Global, message: &Message, inside: &Inside) -> Result<String, AllocError>
    requires time { HasPrintableTime message.now }
    requires body { HasPrintableBody inside.now }
    ensures { IfOk result (λ line. string_bytes line
        ≡ message_text message.now ++ printed.inside_text inside.now ++ codes "\n") }
{
    let inside = inside_text(alloc, inside)?;
    match message {
        Message::Safe(m) => safe_line(alloc, m, &inside),
        Message::Priv(m) => priv_line(alloc, m, &inside),
    }
}

/// What is printed after the fields of a message.
fn inside_text(alloc: Global, inside: &Inside) -> Result<String, AllocError>
    requires { HasPrintableBody inside.now }
    ensures { IfOk result (λ text. string_bytes text ≡ printed.inside_text inside.now) }
{
    match inside {
        Inside::Unasked => Ok(String::new(alloc)),
        Inside::Opened(body) => {
            let body = body_text(alloc, body)?;
            format!(in alloc; " opened {body}")
        }
        Inside::Refused(refusal) => {
            let (code, name) = (refusal.code(), refusal.name());
            format!(in alloc; " refused {code} {name}")
        }
    }
}

fn safe_line(alloc: Global, m: &SafeMsg, inside: &str) -> Result<String, AllocError>
    requires { HasTime m.now.body }
    ensures { IfOk result (λ line. string_bytes line
        ≡ printed.safe_text m.now ++ inside.now ++ codes "\n") }
{
    let (pvno, msg_type) = (m.pvno, m.msg_type);
    let body = body_text(alloc, &m.body)?;
    let cksum = typed_text(alloc, m.cksum_type, &m.checksum)?;
    format!(in alloc; "SAFE {pvno} {msg_type} {body} cksum={cksum}{inside}\n")
}

fn body_text(alloc: Global, body: &Body) -> Result<String, AllocError>
    requires { HasTime body.now }
    ensures { IfOk result (λ text. string_bytes text ≡ printed.body_text body.now) }
{
    let data = hex::encode(alloc, body.user_data.as_slice())?;
    let time = time_text(alloc, body.time)?;
    let usec = number_text(alloc, body.usec)?;
    let seq = number_text(alloc, body.seq)?;
    let from = address_text(alloc, &body.s_addr)?;
    let to = receiver_text(alloc, &body.r_addr)?;
    format!(in alloc; "data={data} time={time} usec={usec} seq={seq} from={from} to={to}")
}

fn priv_line(alloc: Global, m: &PrivMsg, inside: &str) -> Result<String, AllocError>
    ensures { IfOk result (λ line. string_bytes line
        ≡ printed.priv_text m.now ++ inside.now ++ codes "\n") }
{
    let (pvno, msg_type, etype) = (m.pvno, m.msg_type, m.etype);
    let kvno = number_text(alloc, m.kvno)?;
    let cipher = hex::encode(alloc, m.cipher.as_slice())?;
    format!(in alloc; "PRIV {pvno} {msg_type} etype={etype} kvno={kvno} cipher={cipher}{inside}\n")
}

fn time_text(alloc: Global, time: Option<u64>) -> Result<String, AllocError>
    requires { IfSome time IsSecond }
    ensures { IfOk result (λ text. string_bytes text ≡ or_dash kerberos_time time) }
{
    match time {
        Some(second) => {
            let digits = kerberos_time(second);
            String::from_str(alloc, str::from_utf8(&digits).unwrap())
        }
        None => String::from_str(alloc, "-"),
    }
}

fn number_text(alloc: Global, number: Option<u32>) -> Result<String, AllocError>
    ensures { IfOk result (λ text. string_bytes text ≡ or_dash decimal number) }
{
    match number {
        Some(number) => format!(in alloc; "{number}"),
        None => String::from_str(alloc, "-"),
    }
}

fn receiver_text(alloc: Global, address: &Option<HostAddress>) -> Result<String, AllocError>
    ensures { IfOk result (λ text. string_bytes text ≡ or_dash printed.address_text address.now) }
{
    match address {
        Some(address) => address_text(alloc, address),
        None => String::from_str(alloc, "-"),
    }
}

fn address_text(alloc: Global, address: &HostAddress) -> Result<String, AllocError>
    ensures { IfOk result (λ text. string_bytes text ≡ printed.address_text address.now) }
{
    typed_text(alloc, address.kind, &address.bytes)
}

fn typed_text(alloc: Global, kind: i32, bytes: &Bytes) -> Result<String, AllocError>
    ensures { IfOk result (λ text. string_bytes text ≡ printed.typed_text kind bytes.now) }
{
    let digits = hex::encode(alloc, bytes.as_slice())?;
    format!(in alloc; "{kind}:{digits}")
}
