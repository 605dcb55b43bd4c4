//! The cipher on vectors of FIPS 197, NIST SP 800-38A and RFC 3962.

use crate::stolen::STOLEN;
use krb_aes::{CipherKey, InverseSchedule, Schedule, cts_decrypt, cts_encrypt};
use krb_chains::cts_encrypt_four;
use std::process::Abort;

// The text of RFC 3962, appendix B, whose vectors are beginnings of it: of 17, 31, 32, 47, 48 and 64 bytes.
const SOUP: [u8; 64] = *b"I would like the General Gau's Chicken, please, and wonton soup.";

/// The key of these halves.
fn wide_key(first: u128, second: u128) -> CipherKey {
    let mut key = [0; 32];
    key[..16].copy_from_slice(&first.to_be_bytes());
    key[16..].copy_from_slice(&second.to_be_bytes());
    CipherKey::from_256(key)
}

/// The round keys of a key, for both directions.
struct Schedules {
    forward: Schedule,
    backward: InverseSchedule,
}

impl Schedules {
    /// The schedules of a key, which ends here.
    fn new(mut key: CipherKey) -> Schedules {
        let schedules = Schedules {
            forward: Schedule::new(&key),
            backward: InverseSchedule::new(&key),
        };
        key.wipe();
        key.spend();
        schedules
    }

    fn end(self) {
        let Schedules {
            mut forward,
            mut backward,
        } = self;
        forward.wipe();
        forward.spend();
        backward.wipe();
        backward.spend();
    }
}

/// Asserts that a block is enciphered so under the key, which ends here, and deciphered again.
fn assert_blocks(rt: &impl Abort, key: CipherKey, text: u128, cipher: u128) {
    let schedules = Schedules::new(key);
    let enciphered = schedules.forward.encrypt_block(&text.to_be_bytes());
    let deciphered = schedules.backward.decrypt_block(&enciphered);
    schedules.end();
    assert!(rt; u128::from_be_bytes(enciphered) == cipher);
    assert!(rt; u128::from_be_bytes(deciphered) == text);
}

/// A key of 128 bits or of 256 in two halves, a text and its cipher: FIPS 197, appendix B (under the
/// key whose expansion appendix A.1 has) and C.1; NIST SP 800-38A, appendix F.1.5 (under the key
/// whose expansion FIPS 197, appendix A.3, has), and FIPS 197, appendix C.3.
static BLOCKS: [(u128, Option<u128>, u128, u128); 4] = [
    (
        0x2b7e151628aed2a6abf7158809cf4f3c,
        None,
        0x3243f6a8885a308d313198a2e0370734,
        0x3925841d02dc09fbdc118597196a0b32,
    ),
    (
        0x000102030405060708090a0b0c0d0e0f,
        None,
        0x00112233445566778899aabbccddeeff,
        0x69c4e0d86a7b0430d8cdb78070b4c55a,
    ),
    (
        0x603deb1015ca71be2b73aef0857d7781,
        Some(0x1f352c073b6108d72d9810a30914dff4),
        0x6bc1bee22e409f96e93d7e117393172a,
        0xf3eed1bdb5d2a03c064b5a7e3db181f8,
    ),
    (
        0x000102030405060708090a0b0c0d0e0f,
        Some(0x101112131415161718191a1b1c1d1e1f),
        0x00112233445566778899aabbccddeeff,
        0x8ea2b7ca516745bfeafc49904b496089,
    ),
];

#[test]
fn blocks_of_fips_197_and_sp_800_38a(rt: HostRuntime) {
    for (first, second, text, cipher) in &BLOCKS {
        let key = match second {
            None => CipherKey::from_128(first.to_be_bytes()),
            Some(second) => wide_key(*first, *second),
        };
        assert_blocks(&rt, key, *text, *cipher);
    }
}

/// Asserts that the beginning of the text is enciphered so under a key, which ends here, and
/// deciphered again.
fn assert_steals(rt: &impl Abort, key: CipherKey, cipher: &[u8]) {
    let size = cipher.len();
    let mut text = SOUP;
    let schedules = Schedules::new(key);
    let is_in_range = size >= 16 && size <= 64;
    if is_in_range {
        cts_encrypt(&schedules.forward, &mut text[..size]);
    }
    let is_cipher = is_in_range && &text[..size] == cipher;
    if is_in_range {
        cts_decrypt(&schedules.backward, &mut text[..size]);
    }
    schedules.end();
    assert!(rt; is_cipher, "at {size} bytes");
    assert!(rt; text == SOUP, "at {size} bytes");
}

// The value under 256 bits is OpenSSL's, by CBC of the padded text with its last two blocks swapped
// and cut.
#[test]
fn stealing_of_each_length_from_16_to_64(rt: HostRuntime) {
    for cipher in &STOLEN {
        assert_steals(&rt, CipherKey::from_128(*b"chicken teriyaki"), cipher);
    }
    let (first, second) = (
        0x000102030405060708090a0b0c0d0e0f,
        0x101112131415161718191a1b1c1d1e1f,
    );
    let wanted: [u8; 33] = [
        0x51, 0x66, 0xdb, 0x97, 0xd1, 0xb3, 0x39, 0xcd, 0xa7, 0xc4, 0x85, 0x15, 0xbd, 0xd9, 0x73,
        0xde, 0x6a, 0x9b, 0x2c, 0x34, 0x33, 0x20, 0x54, 0x0e, 0xda, 0x75, 0xa0, 0x10, 0xf6, 0xd2,
        0x4d, 0x67, 0xf8,
    ];
    assert_steals(&rt, wide_key(first, second), &wanted);
}

/// Asserts that four beginnings of the text are enciphered so side by side.
fn assert_steals_four(rt: &impl Abort, schedule: &Schedule, ciphers: [&[u8]; 4]) {
    let [a, b, c, d] = ciphers;
    let sizes = (a.len(), b.len(), c.len(), d.len());
    let mut texts = (SOUP, SOUP, SOUP, SOUP);
    let are_in_range = sizes.0 >= 16
        && sizes.0 <= 64
        && sizes.1 >= 16
        && sizes.1 <= 64
        && sizes.2 >= 16
        && sizes.2 <= 64
        && sizes.3 >= 16
        && sizes.3 <= 64;
    assert!(rt; are_in_range);
    cts_encrypt_four(
        schedule,
        &mut texts.0[..sizes.0],
        &mut texts.1[..sizes.1],
        &mut texts.2[..sizes.2],
        &mut texts.3[..sizes.3],
    );
    assert!(rt; &texts.0[..sizes.0] == a, "the first of {sizes:?}");
    assert!(rt; &texts.1[..sizes.1] == b, "the second of {sizes:?}");
    assert!(rt; &texts.2[..sizes.2] == c, "the third of {sizes:?}");
    assert!(rt; &texts.3[..sizes.3] == d, "the fourth of {sizes:?}");
}

// Each length in each place, beside others that are shorter and longer.
#[test]
fn stealing_of_four_texts_of_each_length(rt: HostRuntime) {
    let mut key = CipherKey::from_128(*b"chicken teriyaki");
    let mut schedule = Schedule::new(&key);
    key.wipe();
    key.spend();
    for i in 0..49 {
        let ciphers = [
            STOLEN[i],
            STOLEN[(i + 1) % 49],
            STOLEN[(i + 17) % 49],
            STOLEN[48 - i],
        ];
        assert_steals_four(&rt, &schedule, ciphers);
    }
    schedule.wipe();
    schedule.spend();
}
