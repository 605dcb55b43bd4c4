//! A caller that relies on a law: what comes out of an opener is the text that was sealed, and
//! comes out only at the number that it was sealed at.
#![tactic(auto)]

ghost use Rattle.std.specs.Prelude.{◌≡◌, IfOk, OnOk};
ghost use Rattle.krb_seal.specs.Session.{HasShortAddresses};

use krb_der::{HostAddress, Moment};
use krb_seal::{
    Aes256Sealer, Expect, Mode, Opener, Refusal, SealError, Sealer, Session,
    opens_at_its_number_alone,
};
use std::alloc::{AllocError, Global};
use std::io;
use thiserror::Error;

/// Why a text didn't come through.
#[derive(Debug, Drop, Error)]
enum Lost {
    #[error("not sealed: {0}")]
    Unsealed(#[from] SealError),
    #[error("refused: {0}")]
    Refused(#[from] Refusal),
    #[error("out of memory")]
    Memory(#[from] AllocError),
}

/// Seals a text at the sealer's next number, and opens the frame at `number`.
///
/// Both ends have one key of one encryption type. They may differ in all else.
fn pass<S: Sealer>(
    alloc: Global,
    sealer: &mut S,
    opener: &Opener,
    text: &[u8],
    number: u64,
    at: Moment,
) -> Result<Vec<u8>, Lost>
    requires etype { opener.now.etype ≡ (S.state sealer.old).etype }
    requires key { opener.now.key ≡ (S.state sealer.old).key }
    ensures text { IfOk result (λ given. given.items ≡ text.now) }
    ensures number { OnOk result (number ≡ (S.state sealer.old).next) }
{
    let frame = sealer.seal(alloc, text, at, [7; 16])?;
    opens_at_its_number_alone();
    Ok(opener.unseal(alloc, &frame, number, at)?)
}

/// The session of 10.0.0.1 from the number 7 on.
fn session(alloc: Global) -> Result<Session, AllocError>
    ensures short { IfOk result HasShortAddresses }
    ensures first { IfOk result (λ session. session.first ≡ 7) }
{
    Ok(Session {
        mode: Mode::Priv,
        s_addr: HostAddress::new(alloc, 2, &[10, 0, 0, 1])?,
        r_addr: None,
        first: 7,
    })
}

/// What 10.0.0.255 demands of each message from 10.0.0.1.
fn expect(alloc: Global) -> Result<Expect, AllocError> {
    Ok(Expect {
        mode: Mode::Priv,
        s_addr: HostAddress::new(alloc, 2, &[10, 0, 0, 1])?,
        r_addr: HostAddress::new(alloc, 2, &[10, 0, 0, 255])?,
        require_r: false,
        expect_time: true,
        skew: 300,
    })
}

/// Seals a text at the number 7, and opens the frame at `number`.
fn pass_once(alloc: Global, text: &[u8], number: u64, at: Moment) -> Result<Vec<u8>, Lost>
    ensures text { IfOk result (λ given. given.items ≡ text.now) }
    ensures number { OnOk result (number ≡ 7) }
{
    let key = [0x11; 32];
    let mut sealer = Aes256Sealer::new(&mut { key }, session(alloc)?);
    let opener = Opener::new_256(&mut { key }, expect(alloc)?);
    pass(alloc, &mut sealer, &opener, text, number, at)
}

fn main(rt: HostRuntime) -> io::Result<()> {
    let Some(at) = Moment::from_micros(1_700_000_000_000_005) else {
        return Ok(());
    };
    for number in [6, 7, 8] {
        match pass_once(rt.alloc(), b"hi", number, at) {
            Ok(given) => {
                prove!(number == 7 && given.as_slice() == b"hi".as_slice());
                println!(rt; "{number}: {} bytes", given.len())?;
            }
            Err(lost) => println!(rt; "{number}: {lost}")?,
        }
    }
    Ok(())
}
