//! Peers, receivers and receipts, and the laws of their calls.

ghost use Rattle.std.specs.Prelude.{◌≡◌, length, IfOk};
ghost use Rattle.krb_seal.specs.Session.{IsShortAddress};

use krb_carry::{Finding, Receipt, compare_receipt, copies_laws, own_history};
use krb_der::{Bytes, HostAddress, Moment};
use krb_laws::{
    calls_in_c_laws, demand_fields_laws, frame_sizes_laws, open_each, open_frame, open_peer,
    open_through_export, outbox_tables_laws, peer_laws, reflection_laws, resume_peer, rows_laws,
    seal_peer, sealed_records_laws, store_tables_laws, take_each, take_frame,
};
use krb_peers::{Delivery, Receiver};
use krb_seal::{Expect, Mode, Opener, Refusal, SessionKey, exists_laws};
use krb_structs::{Fault, KrbAddress, KrbCarried, KrbDemand, KrbMoment, KrbSession, Peer};
use std::alloc::{AllocError, Global};
use std::test::Fail;

/// 2023-11-14T22:13:20Z and 5 microseconds, in microseconds.
const MICROS: u64 = 1_700_000_000_000_005;

const KEY: [u8; 16] = [
    0x00, 0x01, 0x02, 0x03, 0x04, 0x05, 0x06, 0x07, 0x08, 0x09, 0x0a, 0x0b, 0x0c, 0x0d, 0x0e, 0x0f,
];

/// User data 44 68 69 at number 7, that second and 5 microseconds, from 10.0.0.1, under encryption
/// type 17.
const SAFE_17: [u8; 96] = [
    0x74, 0x5e, 0x30, 0x5c, 0xa0, 0x03, 0x02, 0x01, 0x05, 0xa1, 0x03, 0x02, 0x01, 0x14, 0xa2, 0x37,
    0x30, 0x35, 0xa0, 0x05, 0x04, 0x03, 0x44, 0x68, 0x69, 0xa1, 0x11, 0x18, 0x0f, 0x32, 0x30, 0x32,
    0x33, 0x31, 0x31, 0x31, 0x34, 0x32, 0x32, 0x31, 0x33, 0x32, 0x30, 0x5a, 0xa2, 0x03, 0x02, 0x01,
    0x05, 0xa3, 0x03, 0x02, 0x01, 0x07, 0xa4, 0x0f, 0x30, 0x0d, 0xa0, 0x03, 0x02, 0x01, 0x02, 0xa1,
    0x06, 0x04, 0x04, 0x0a, 0x00, 0x00, 0x01, 0xa3, 0x17, 0x30, 0x15, 0xa0, 0x03, 0x02, 0x01, 0x0f,
    0xa1, 0x0e, 0x04, 0x0c, 0xb0, 0xc4, 0x46, 0x36, 0x32, 0x64, 0xcc, 0xe7, 0x02, 0x29, 0x52, 0x91,
];

/// SHA-1 of 20 zeros and the last 12 bytes of that frame.
const HISTORY_OF_ONE: [u8; 20] = [
    0xd6, 0x24, 0x0c, 0xe1, 0xbf, 0x87, 0xf7, 0x25, 0x39, 0x29, 0xa8, 0xcb, 0x1c, 0xf4, 0xf1, 0xfa,
    0xb6, 0x5a, 0xf9, 0xdb,
];

/// SHA-1 of these 20 bytes and the last 12 of `SHORT`.
const HISTORY_OF_TWO: [u8; 20] = [
    0xaf, 0x02, 0xe5, 0x01, 0x12, 0x4c, 0x17, 0x79, 0x10, 0x57, 0x2c, 0x23, 0x22, 0xcf, 0xb4, 0xff,
    0x76, 0xa0, 0xfe, 0x5a,
];

/// Bytes in place of another sender's frame.
const SHORT: [u8; 17] = *b"of another sender";

/// The same user data and address, with neither timestamp nor number.
const BARE_17: [u8; 67] = [
    0x74, 0x41, 0x30, 0x3f, 0xa0, 0x03, 0x02, 0x01, 0x05, 0xa1, 0x03, 0x02, 0x01, 0x14, 0xa2, 0x1a,
    0x30, 0x18, 0xa0, 0x05, 0x04, 0x03, 0x44, 0x68, 0x69, 0xa4, 0x0f, 0x30, 0x0d, 0xa0, 0x03, 0x02,
    0x01, 0x02, 0xa1, 0x06, 0x04, 0x04, 0x0a, 0x00, 0x00, 0x01, 0xa3, 0x17, 0x30, 0x15, 0xa0, 0x03,
    0x02, 0x01, 0x0f, 0xa1, 0x0e, 0x04, 0x0c, 0xf3, 0x16, 0x4d, 0x72, 0xa6, 0x54, 0xd1, 0xdc, 0x94,
    0xfb, 0x5e, 0x1a,
];

const AT: KrbMoment = KrbMoment {
    seconds: 1_700_000_000,
    microseconds: 5,
    reserved: 0,
};

const NO_ADDRESS: KrbAddress = KrbAddress {
    kind: 0,
    len: 0,
    bytes: [0; 40],
};

/// The address 10.0.0.`last`.
fn host(last: u8) -> KrbAddress {
    let mut bytes = [0u8; 40];
    bytes[0] = 10;
    bytes[3] = last;
    KrbAddress {
        kind: 2,
        len: 4,
        bytes,
    }
}

/// The session of KRB-SAFE of 10.0.0.`sender`, from a number on.
fn session(sender: u8, first: u32) -> KrbSession {
    KrbSession {
        mode: 20,
        first,
        sender: host(sender),
        has_receiver: 0,
        receiver: NO_ADDRESS,
        reserved: [0; 5],
    }
}

/// A demand of messages of 10.0.0.`sender`, first of all of this number.
fn demand(sender: u8, number: u64) -> KrbDemand {
    KrbDemand {
        how_sender: 2,
        how_receiver: 0,
        how_time: 2,
        how_number: 2,
        number,
        skew: 300,
        sender: host(sender),
        receiver: NO_ADDRESS,
        needs_time_or_number: 0,
        reserved: [0; 4],
    }
}

fn nothing_carried() -> KrbCarried {
    KrbCarried {
        seconds: 0,
        microseconds: 0,
        has_seconds: 0,
        has_microseconds: 0,
        has_number: 0,
        number: 0,
        has_receiver: 0,
        sender: NO_ADDRESS,
        receiver: NO_ADDRESS,
        reserved: [0; 6],
    }
}

/// The number of a fault, or 0.
fn code_of<T: Drop>(answered: &Result<T, Fault>) -> u32 {
    match answered {
        Ok(_) => 0,
        Err(fault) => fault.code(),
    }
}

/// What was made; a test whose value isn't made fails.
fn made<T: Drop>(answered: Result<T, Fault>) -> Result<T, Fail> {
    match answered {
        Ok(value) => Ok(value),
        Err(fault) => Err(Fail::new(fault.code())),
    }
}

/// A peer of 10.0.0.`own` that demands messages of 10.0.0.`other`, both from number 7 on.
fn peer(alloc: Global, own: u8, other: u8) -> Result<Box<Peer>, Fail> {
    made(Peer::new(alloc, 17, &KEY, &session(own, 7), &demand(other, 7)))
}

/// The address 10.0.0.`last`, as a receiver has it.
fn address(alloc: Global, last: u8) -> Result<HostAddress, AllocError>
    ensures { IfOk result IsShortAddress }
{
    Ok(HostAddress {
        kind: 2,
        bytes: Bytes::new(Vec::from_slice(alloc, &[10, 0, 0, last])?),
    })
}

/// That second and its 5 microseconds.
fn moment() -> Result<Moment, Fail> {
    match Moment::from_micros(MICROS) {
        Some(at) => Ok(at),
        None => Err(Fail::new(MICROS)),
    }
}

/// A receiver of the records of 10.0.0.1, which demands the number 7.
fn receiver(alloc: Global) -> Result<Receiver, AllocError> {
    let expect = Expect {
        mode: Mode::Safe,
        s_addr: address(alloc, 1)?,
        r_addr: address(alloc, 255)?,
        require_r: false,
        expect_time: true,
        skew: 300,
    };
    let key = SessionKey::new_128(&mut { KEY });
    Ok(Receiver::new(Opener::new(key, expect), 7))
}

#[test]
fn a_peer_seals_the_frame_of_another(rt: HostRuntime) -> Result<(), Fail> {
    peer_laws();
    let (alloc, mut frame) = (rt.alloc(), [0u8; 96]);
    let mut one = peer(alloc, 1, 2)?;
    let size = seal_peer(&mut *one, alloc, b"Dhi", &AT, &[0; 16], &mut frame);
    assert_eq!(rt; size.ok(), Some(96));
    assert_eq!(rt; frame.as_slice(), SAFE_17.as_slice());
    assert_eq!(rt; (one.next(), one.expected()), (8, 7));
    let mut short = [0u8; 95];
    let none = seal_peer(&mut *one, alloc, b"Dhi", &AT, &[0; 16], &mut short);
    assert_eq!(rt; (code_of(&none), one.next()), (906, 8));
    Ok(())
}

#[test]
fn a_peer_opens_the_frame_of_another_once(rt: HostRuntime) -> Result<(), Fail> {
    demand_fields_laws();
    let (alloc, mut text, mut told) = (rt.alloc(), [0u8; 4], nothing_carried());
    let mut other = peer(alloc, 2, 1)?;
    let size = open_peer(&mut *other, alloc, &SAFE_17, &AT, &mut text, &mut told);
    assert_eq!(rt; (size.ok(), &text, told.number), (Some(3), b"Dhi\0", 7));
    let again = open_peer(&mut *other, alloc, &SAFE_17, &AT, &mut text, &mut told);
    assert_eq!(rt; (code_of(&again), other.expected()), (42, 8));
    Ok(())
}

#[test]
fn a_frame_that_comes_back_is_refused(rt: HostRuntime) -> Result<(), Fail> {
    reflection_laws();
    let (alloc, mut text, mut told) = (rt.alloc(), [0u8; 4], nothing_carried());
    let mut one = peer(alloc, 1, 2)?;
    let back = open_peer(&mut *one, alloc, &SAFE_17, &AT, &mut text, &mut told);
    assert_eq!(rt; (code_of(&back), one.expected()), (38, 7));
    Ok(())
}

#[test]
fn a_peer_goes_on(rt: HostRuntime) -> Result<(), Fail> {
    let (alloc, mut text, mut told) = (rt.alloc(), [0u8; 4], nothing_carried());
    let mut other = peer(alloc, 2, 1)?;
    let _size = open_peer(&mut *other, alloc, &SAFE_17, &AT, &mut text, &mut told);
    let resumed = resume_peer(&*other, alloc, 17, &KEY, &session(2, 0), &demand(1, 0));
    let mut later = made(resumed)?;
    assert_eq!(rt; (later.next(), later.expected()), (7, 8));
    let again = open_peer(&mut *later, alloc, &SAFE_17, &AT, &mut text, &mut told);
    assert_eq!(rt; code_of(&again), 42);
    let none = resume_peer(&*other, alloc, 17, &KEY, &session(2, 7), &demand(1, 0));
    assert_eq!(rt; code_of(&none), 912);
    Ok(())
}

#[test]
fn a_receiver_takes_the_frame_of_another(rt: HostRuntime) -> Result<(), Fail> {
    exists_laws();
    calls_in_c_laws();
    sealed_records_laws();
    let alloc = rt.alloc();
    let at = moment()?;
    let mut one = receiver(alloc)?;
    let taken = take_frame(&mut one, alloc, &SAFE_17, at);
    assert!(rt; matches!(&taken, Ok(Delivery::Text(text)) if text.as_slice() == b"hi".as_slice()));
    let again = take_frame(&mut one, alloc, &SAFE_17, at);
    assert!(rt; matches!(&again, Err(Refusal::BadOrder)));
    assert_eq!(rt; one.expected(), 8);
    Ok(())
}

#[test]
fn all_frames_are_taken(rt: HostRuntime) -> Result<(), Fail> {
    store_tables_laws();
    outbox_tables_laws();
    rows_laws();
    let alloc = rt.alloc();
    let at = moment()?;
    let mut one = receiver(alloc)?;
    let junk = Vec::from_slice(alloc, &[0])?;
    let frame = Vec::from_slice(alloc, &SAFE_17)?;
    let frames = vec![in alloc; junk, frame]?;
    let mut answers = [Err(Refusal::Memory), Err(Refusal::Memory)];
    take_each(&mut one, alloc, frames.as_slice(), at, &mut answers);
    assert_eq!(rt; (one.expected(), one.closed()), (8, false));
    assert!(rt; matches!(&answers[0], Err(Refusal::Malformed)));
    assert!(rt;
        matches!(&answers[1], Ok(Delivery::Text(text)) if text.as_slice() == b"hi".as_slice())
    );
    Ok(())
}

/// Whether the answer is these user data.
fn is_user(answer: &Result<Vec<u8>, Fault>, user: &[u8]) -> bool {
    match answer {
        Ok(opened) => opened.as_slice() == user,
        Err(_) => false,
    }
}

#[test]
fn a_peer_gives_the_data_of_a_frame(rt: HostRuntime) -> Result<(), Fail> {
    frame_sizes_laws();
    let alloc = rt.alloc();
    let mut other = peer(alloc, 2, 1)?;
    let opened = open_frame(&mut *other, alloc, &SAFE_17, &AT);
    assert!(rt; is_user(&opened, b"Dhi"));
    let again = open_frame(&mut *other, alloc, &SAFE_17, &AT);
    assert_eq!(rt; (code_of(&again), other.expected()), (42, 8));
    Ok(())
}

/// One byte that is no message, the frame of another, and it once more.
fn three(alloc: Global) -> Result<Vec<Vec<u8>>, AllocError>
    ensures { IfOk result (λ frames. length frames.items ≡ 3) }
{
    let junk = Vec::from_slice(alloc, &[0])?;
    let frame = Vec::from_slice(alloc, &SAFE_17)?;
    let again = Vec::from_slice(alloc, &SAFE_17)?;
    Ok(vec![in alloc; junk, frame, again]?)
}

#[test]
fn a_peer_opens_each_frame_once(rt: HostRuntime) -> Result<(), Fail> {
    let alloc = rt.alloc();
    let mut other = peer(alloc, 2, 1)?;
    let frames = three(alloc)?;
    let mut answers = [Err(Fault::Empty), Err(Fault::Empty), Err(Fault::Empty)];
    open_each(&mut *other, alloc, frames.as_slice(), &AT, &mut answers);
    assert_eq!(rt; (code_of(&answers[0]), code_of(&answers[2])), (901, 42));
    assert!(rt; is_user(&answers[1], b"Dhi"));
    assert_eq!(rt; (other.next(), other.expected()), (7, 8));
    Ok(())
}

#[test]
fn a_copy_of_an_outbox_is_stopped(rt: HostRuntime) -> Result<(), Fail> {
    copies_laws();
    let frames: [&[u8]; 2] = [&SAFE_17, &SHORT];
    assert_eq!(rt; own_history(&[0; 20], &frames), HISTORY_OF_TWO);
    assert_eq!(rt; own_history(&HISTORY_OF_ONE, &frames[1..]), HISTORY_OF_TWO);
    let receipt = Receipt {
        number: 9,
        history: HISTORY_OF_TWO,
    };
    let both = compare_receipt(7, 9, &HISTORY_OF_TWO, &receipt);
    let again = compare_receipt(9, 9, &HISTORY_OF_TWO, &receipt);
    let restored = compare_receipt(7, 8, &HISTORY_OF_ONE, &receipt);
    let copied = compare_receipt(7, 9, &HISTORY_OF_ONE, &receipt);
    assert_eq!(rt; (both, again), (Finding::Delivered, Finding::Repeat));
    assert_eq!(rt; (restored, copied), (Finding::Older, Finding::Forked));
    Ok(())
}

#[test]
fn a_resumed_peer_opens_no_frame_again(rt: HostRuntime) -> Result<(), Fail> {
    let alloc = rt.alloc();
    let (mut other, frames) = (peer(alloc, 2, 1)?, three(alloc)?);
    let mut answers = [Err(Fault::Empty), Err(Fault::Empty), Err(Fault::Empty)];
    let (of, from) = (session(2, 0), demand(1, 0));
    let frames = frames.as_slice();
    let resumed = open_through_export(
        &mut *other,
        alloc,
        17,
        &KEY,
        &of,
        &from,
        frames,
        2,
        &AT,
        &mut answers,
    );
    let later = made(resumed)?;
    assert_eq!(rt; (code_of(&answers[0]), code_of(&answers[2])), (901, 42));
    assert!(rt; is_user(&answers[1], b"Dhi"));
    assert_eq!(rt; (later.next(), later.expected()), (7, 8));
    Ok(())
}

/// A demand that ignores the sender's address, takes a message without a timestamp, and begins with the number 0.
/// If `how_number` is 3, a message without a number counts as the number 0 (RFC 4120 section 5.1.2).
fn partial_demand(how_number: u32) -> KrbDemand {
    let mut partial = demand(1, 0);
    partial.how_sender = 0;
    partial.sender = NO_ADDRESS;
    partial.how_time = 1;
    partial.how_number = how_number;
    partial
}

#[test]
fn a_partial_demand_is_met(rt: HostRuntime) -> Result<(), Fail> {
    let (alloc, mut text, mut told) = (rt.alloc(), [0u8; 3], nothing_carried());
    let mut other = made(Peer::new(alloc, 17, &KEY, &session(2, 7), &partial_demand(3)))?;
    let size = open_peer(&mut *other, alloc, &BARE_17, &AT, &mut text, &mut told);
    assert_eq!(rt; (size.ok(), &text), (Some(3), b"Dhi"));
    assert_eq!(rt;
        (told.has_seconds, told.has_microseconds, told.has_number),
        (0, 0, 0)
    );
    assert_eq!(rt; other.expected(), 1);
    let again = open_frame(&mut *other, alloc, &BARE_17, &AT);
    assert_eq!(rt; (code_of(&again), other.expected()), (42, 1));
    let mut strict = made(Peer::new(alloc, 17, &KEY, &session(2, 7), &partial_demand(2)))?;
    let none = open_frame(&mut *strict, alloc, &BARE_17, &AT);
    assert_eq!(rt; (code_of(&none), strict.expected()), (42, 0));
    Ok(())
}
