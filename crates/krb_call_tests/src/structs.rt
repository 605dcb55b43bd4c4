//! Sealing, opening and receiving, and what needs no key.

use krb_structs::{
    AnySealer, Fault, KrbAddress, KrbCarried, KrbDemand, KrbExpect, KrbMoment, KrbSession,
    LaneReceiver, Wipe, WipeableOpener, answer, frame_size, message_header, name_into, open_into,
    text_into, unseal_in_place, unseal_into,
};
use std::alloc::Global;
use std::test::Fail;

/// 2023-11-14T22:13:20Z
const SECS: u64 = 1_700_000_000;

const KEY_128: [u8; 16] = [
    0x00, 0x01, 0x02, 0x03, 0x04, 0x05, 0x06, 0x07, 0x08, 0x09, 0x0a, 0x0b, 0x0c, 0x0d, 0x0e, 0x0f,
];

const KEY_256: [u8; 32] = [0x11; 32];

/// User data 44 68 69 at number 7, that second and 5 microseconds, from 10.0.0.1, under encryption
/// type 17.
const SAFE_17: [u8; 96] = [
    0x74, 0x5e, 0x30, 0x5c, 0xa0, 0x03, 0x02, 0x01, 0x05, 0xa1, 0x03, 0x02, 0x01, 0x14, 0xa2, 0x37,
    0x30, 0x35, 0xa0, 0x05, 0x04, 0x03, 0x44, 0x68, 0x69, 0xa1, 0x11, 0x18, 0x0f, 0x32, 0x30, 0x32,
    0x33, 0x31, 0x31, 0x31, 0x34, 0x32, 0x32, 0x31, 0x33, 0x32, 0x30, 0x5a, 0xa2, 0x03, 0x02, 0x01,
    0x05, 0xa3, 0x03, 0x02, 0x01, 0x07, 0xa4, 0x0f, 0x30, 0x0d, 0xa0, 0x03, 0x02, 0x01, 0x02, 0xa1,
    0x06, 0x04, 0x04, 0x0a, 0x00, 0x00, 0x01, 0xa3, 0x17, 0x30, 0x15, 0xa0, 0x03, 0x02, 0x01, 0x0f,
    0xa1, 0x0e, 0x04, 0x0c, 0xb0, 0xc4, 0x46, 0x36, 0x32, 0x64, 0xcc, 0xe7, 0x02, 0x29, 0x52, 0x91,
];

/// The same as KRB-PRIV under encryption type 18, and a confounder of zeros.
const PRIV_18: [u8; 112] = [
    0x75, 0x6e, 0x30, 0x6c, 0xa0, 0x03, 0x02, 0x01, 0x05, 0xa1, 0x03, 0x02, 0x01, 0x15, 0xa3, 0x60,
    0x30, 0x5e, 0xa0, 0x03, 0x02, 0x01, 0x12, 0xa2, 0x57, 0x04, 0x55, 0x18, 0xe5, 0x3e, 0x7a, 0xd7,
    0x5f, 0xd7, 0x27, 0xa7, 0x33, 0xe9, 0xca, 0x6e, 0x5e, 0xa8, 0x44, 0x17, 0x2a, 0xd0, 0x5d, 0x2b,
    0xfd, 0xde, 0x45, 0xd5, 0xc4, 0xf8, 0x4a, 0xf4, 0x19, 0xf1, 0x37, 0x3d, 0xc8, 0xf7, 0x24, 0x9a,
    0x3a, 0x3e, 0xf5, 0xbc, 0x2f, 0x2e, 0x38, 0xa3, 0xa5, 0xf7, 0x4d, 0x3c, 0xac, 0x4f, 0x4a, 0xde,
    0x95, 0xec, 0x82, 0xdb, 0xdf, 0xbe, 0x95, 0xf2, 0x14, 0x59, 0x89, 0x05, 0x8a, 0xce, 0xb5, 0x78,
    0x01, 0x50, 0x42, 0x60, 0xad, 0xf1, 0x8d, 0xc9, 0xce, 0x67, 0xb8, 0x5c, 0x38, 0xa9, 0x2d, 0x99,
];

const AT: KrbMoment = KrbMoment {
    seconds: SECS,
    microseconds: 5,
    reserved: 0,
};

fn host(last: u8) -> KrbAddress {
    let mut bytes = [0u8; 40];
    bytes[0] = 10;
    bytes[3] = last;
    KrbAddress {
        kind: 2,
        len: 4,
        bytes,
    }
}

fn session(mode: u32) -> KrbSession {
    KrbSession {
        mode,
        first: 7,
        sender: host(1),
        has_receiver: 0,
        receiver: NO_ADDRESS,
        reserved: [0; 5],
    }
}

fn expect(mode: u32) -> KrbExpect {
    KrbExpect {
        mode,
        sender: host(1),
        receiver: host(255),
        require_receiver: 0,
        require_time: 1,
        skew: 300,
        reserved: [0; 4],
    }
}

/// Demands number 7, and nothing else.
const DEMANDS_7: KrbDemand = KrbDemand {
    how_sender: 0,
    how_receiver: 0,
    how_time: 0,
    how_number: 2,
    number: 7,
    skew: 0,
    sender: NO_ADDRESS,
    receiver: NO_ADDRESS,
    needs_time_or_number: 0,
    reserved: [0; 4],
};

const NO_ADDRESS: KrbAddress = KrbAddress {
    kind: 0,
    len: 0,
    bytes: [0; 40],
};

fn nothing_carried() -> KrbCarried {
    KrbCarried {
        seconds: 0,
        microseconds: 0,
        has_seconds: 0,
        has_microseconds: 0,
        has_number: 0,
        number: 0,
        has_receiver: 0,
        sender: NO_ADDRESS,
        receiver: NO_ADDRESS,
        reserved: [0; 6],
    }
}

/// The number of a fault, or 0.
fn code_of<T: Drop>(answered: &Result<T, Fault>) -> u32 {
    match answered {
        Ok(_) => 0,
        Err(fault) => fault.code(),
    }
}

/// What was made; a test whose value isn't made fails.
fn made<T: Drop>(answered: Result<T, Fault>) -> Result<T, Fail> {
    match answered {
        Ok(value) => Ok(value),
        Err(fault) => Err(Fail::new(fault.code())),
    }
}

#[test]
fn a_sealer_seals_the_frame_of_another(rt: HostRuntime) -> Result<(), Fail> {
    let (alloc, mut frame) = (rt.alloc(), [0u8; 96]);
    let mut sealer = made(AnySealer::new(alloc, 17, &KEY_128, &session(21)))?;
    assert_eq!(rt; code_of(&sealer.set_mode(20)), 0);
    assert_eq!(rt; sealer.next_size(3, &AT).ok(), Some(96));
    let size = sealer.seal(alloc, b"Dhi", &AT, &[0; 16], &mut frame);
    assert_eq!(rt; size.ok(), Some(96));
    assert_eq!(rt; frame.as_slice(), SAFE_17.as_slice());
    assert_eq!(rt; sealer.next(), 8);
    sealer.wipe();
    let wiped = sealer.seal(alloc, b"Dhi", &AT, &[0; 16], &mut frame);
    assert_eq!(rt; code_of(&wiped), 1);
    Ok(())
}

#[test]
fn a_record_is_a_frame_of_another_sealer(rt: HostRuntime) -> Result<(), Fail> {
    let (alloc, mut frame) = (rt.alloc(), [0u8; 500]);
    let mut sealer = made(AnySealer::new(alloc, 18, &KEY_256, &session(21)))?;
    let size = sealer.seal_record(alloc, 1, b"hi", &AT, &[0; 16], &mut frame);
    assert_eq!(rt; size.ok(), Some(112));
    assert_eq!(rt; &frame[..112], PRIV_18.as_slice());
    Ok(())
}

#[test]
fn an_opener_opens_the_frame_of_another(rt: HostRuntime) -> Result<(), Fail> {
    let (alloc, mut text, mut told) = (rt.alloc(), [0u8; 4], nothing_carried());
    let mut opener = made(WipeableOpener::new(alloc, 18, &KEY_256, &expect(21)))?;
    let size = unseal_into(alloc, &opener, &PRIV_18, 7, &AT, &mut text);
    assert_eq!(rt; (size.ok(), &text), (Some(3), b"Dhi\0"));
    let size = open_into(
        alloc, &opener, &PRIV_18, &DEMANDS_7, &AT, &mut text, &mut told,
    );
    assert_eq!(rt; (size.ok(), told.seconds, told.number), (Some(3), SECS, 7));
    let mut frame = PRIV_18;
    let size = unseal_in_place(alloc, &opener, &mut frame, 7, &AT);
    assert_eq!(rt; (size.ok(), &frame[..4]), (Some(3), b"Dhi\x6c".as_slice()));
    assert!(rt; opener.live().is_ok());
    opener.wipe();
    let wiped = unseal_into(alloc, &opener, &PRIV_18, 7, &AT, &mut text);
    assert_eq!(rt; code_of(&wiped), 1);
    Ok(())
}

#[test]
fn a_receiver_takes_the_frame_of_another(rt: HostRuntime) -> Result<(), Fail> {
    let (alloc, mut text) = (rt.alloc(), [0u8; 4]);
    let made_of = LaneReceiver::new(alloc, 18, &KEY_256, &expect(21), 7, false);
    let mut receiver = made(made_of)?;
    let taken = receiver.take(alloc, &PRIV_18, &AT, &mut text);
    assert_eq!(rt; (taken.ok(), &text), (Some((1, 2)), b"hi\0\0"));
    assert_eq!(rt; (receiver.expected(), receiver.closed()), (8, false));
    receiver.wipe();
    let wiped = receiver.take(alloc, &PRIV_18, &AT, &mut text);
    assert_eq!(rt; code_of(&wiped), 903);
    Ok(())
}

#[test]
fn what_needs_no_key(rt: HostRuntime) -> Result<(), Fail> {
    let (mut name, mut size) = ([0xee_u8; 12], 9usize);
    let header = made(message_header(&SAFE_17))?;
    assert_eq!(rt;
        (header.kind, header.checksum_type, header.number),
        (20, 15, 7)
    );
    assert_eq!(rt; name_into(42, &mut name).ok(), Some(8));
    assert_eq!(rt; &name[..9], b"BADORDER\0".as_slice());
    assert_eq!(rt; text_into(0, &mut name).ok(), Some(4));
    assert_eq!(rt; &name[..5], b"done\0".as_slice());
    assert_eq!(rt; (answer(&mut size, Ok(4)), size), (0, 4));
    assert_eq!(rt; (answer(&mut size, Err(Fault::Room)), size), (906, 4));
    assert!(rt; frame_size(3) >= PRIV_18.len());
    assert_eq!(rt;
        AT.moment().map(|at| at.micros()).ok(),
        Some(1_700_000_000_000_005)
    );
    Ok(())
}
