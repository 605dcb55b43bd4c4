//! Eight texts at a time: their digests after a block, and their codes under one key or several. The first is a
//! case of RFC 2202; the others are on both sides of the ends of a block, and their values are
//! OpenSSL's.

use crate::keys::assert_hex;
use krb_digests::{MESSAGES, Prefix};
use krb_keys::BatchMac;

/// A text, the first 24 digits of its code under the key `Jefe`, and the digest of 64 bytes 36 and the
/// text.
static TEXTS: [(&[u8], &str, &str); MESSAGES] = [
    (
        b"what do ya want for nothing?",
        "effcdf6ae5eb2fa2d27416d5",
        "e3b42b396bedc1b9a9f075a3413c8d5d767e41ca",
    ),
    (
        b"",
        "09d9e59d72239e62a8155c58",
        "56f3665434ec84583e435e8e8ea6cb3936161b60",
    ),
    (
        &[b'a'; 55],
        "0bee98e1561022f4c807f650",
        "1f65e4923b7d1abd329b1cc0f34aadb3e96fa56c",
    ),
    (
        &[b'a'; 56],
        "6faed2c8625f2fc8ddcc9321",
        "b613b7459538b3168c67c0b896f739d450eb8704",
    ),
    (
        &[b'a'; 63],
        "070039c22153ffa246e38685",
        "1a0f1ae228ce36b5ba43c1542604e6334f136d5a",
    ),
    (
        &[b'a'; 64],
        "fe41459726f909a10037475c",
        "fa0b4ca09efddface375078fbe76e3f05ed1c678",
    ),
    (
        &[b'a'; 119],
        "f7d23403b18ba1d40d663d27",
        "8b20196f624ae744948961d8d39464b8e2b9d67e",
    ),
    (
        &[b'a'; 1000],
        "2c24953ae504009e41f503b9",
        "85ea1658c331c6a18459c4204103bd9389184e6e",
    ),
];

/// The digests of 64 bytes 5c and 20 letters `a`, and so on up to `h`, by OpenSSL.
static DIGESTS_OF_20: [&str; MESSAGES] = [
    "8a95f0e5b1d605ca9a069c2f4018d2fc35f97681",
    "b5d3131ca7041de1bfba8345c879157a375e4a56",
    "01f3267be5eb57558f921b030476c0f40c706bb9",
    "cc2462187a084f97087a5d1e6c8c4a39e0e00f6e",
    "3ae95db9447d03d39a613a7bff663193ff5c46bf",
    "485db91859874aca23622764bb7a12037bf4f96e",
    "33bfc312fe55034035c0d90d3e0ecc6e8e2aa747",
    "14bb73b13bcc4d54b6140cceb40679d90e9ff0cb",
];

/// The first 24 digits of the codes of these texts under a key of 20 bytes 0b, that of the first case of
/// RFC 2202, by OpenSSL.
static CODES_OF_ANOTHER: [&str; MESSAGES] = [
    "14f898b578cf6f53df011902",
    "123fd78bda0100786ae86b76",
    "db2e8eba5041268f19dac327",
    "6e785ab2fe0b4fd656d0e404",
    "5e121ecd7c94715fe116b241",
    "ce91b833ba99cb4c6c9bf80f",
    "a882558b2d0345be3744799b",
    "bfd5507fa5350581b7636bf2",
];

/// The digests of 64 bytes 5c and each text, by OpenSSL.
static DIGESTS_OF_ANOTHER: [&str; MESSAGES] = [
    "13ca6419ab4e4ae879ba4994da96aa63989c1939",
    "6fec0850050e689a75fd136b82ea0d0197f027c2",
    "cfcb08f42492f0c7a9ac1059bad8728d200a167e",
    "d7a2c5fc392b50f5fd25af66b441549b55bcaeac",
    "29ea1f4dfcb607d68db81698222cca32d1e5abe2",
    "0ba4d3c20f7926ef490c77bd15d05a352f773fc0",
    "8ade3f41b2b1a04fecce9a777fc17c1ac7ce29d3",
    "7d8aea5ae4ce83ebd8d54ff653bd85b57f44c9be",
];

/// The digests of 64 bytes 36 and 20 letters `a`, and so on up to `h`, by OpenSSL.
static DIGESTS_OF_20_OF_ANOTHER: [&str; MESSAGES] = [
    "bd0ca1badf6cf1a99ccad50fe1aa494325c189c1",
    "099318f9aba94aad78daabe8076e0acb237efe7f",
    "558b7dff464a643260b117e9724b61b45acf6881",
    "207b134a6b8765ce2c77bddae13448c7cb85cb92",
    "3477fe9a44046144f46c6d440be878b125d31a2c",
    "4730b3ea931624300f23166a6fe7953ebf5eb9db",
    "a9dd41e0ca50def47758732a614a9945bb82651c",
    "08a8e13a41d8793f1e5318c9910e26c2ad38f043",
];

/// The texts, from the one at `first` on, around.
fn texts_from(first: usize) -> [&'static [u8]; MESSAGES] {
    [
        TEXTS[first % 8].0,
        TEXTS[(first % 8 + 1) % 8].0,
        TEXTS[(first % 8 + 2) % 8].0,
        TEXTS[(first % 8 + 3) % 8].0,
        TEXTS[(first % 8 + 4) % 8].0,
        TEXTS[(first % 8 + 5) % 8].0,
        TEXTS[(first % 8 + 6) % 8].0,
        TEXTS[(first % 8 + 7) % 8].0,
    ]
}

// Each text in each place.
#[test]
fn codes_and_digests_of_eight_texts(rt: HostRuntime) {
    for first in 0..8 {
        let mut mac = BatchMac::new(b"Jefe");
        let (mut inner, mut outer) = Prefix::pair(&[0x36; 64], &[0x5c; 64]);
        let codes = mac.hmac96(&texts_from(first));
        let digests = inner.digests(&texts_from(first));
        mac.wipe();
        mac.spend();
        inner.wipe();
        inner.spend();
        outer.wipe();
        outer.spend();
        for j in 0..8 {
            let (_, code, digest) = TEXTS[(first + j) % 8];
            assert_hex(&rt, &codes[j], code);
            assert_hex(&rt, &digests[j], digest);
        }
    }
}

#[test]
fn digests_of_20_bytes(rt: HostRuntime) {
    let mut messages = [[0; 20]; MESSAGES];
    for j in 0..8 {
        messages[j] = [b'a' + j as u8; 20];
    }
    let (mut inner, mut outer) = Prefix::pair(&[0x36; 64], &[0x5c; 64]);
    let digests = outer.digests_of_20(&messages);
    inner.wipe();
    inner.spend();
    outer.wipe();
    outer.spend();
    for j in 0..8 {
        assert_hex(&rt, &digests[j], DIGESTS_OF_20[j]);
    }
}

/// One of two in each place, by turns: the first where `first` and the place are even together.
fn by_turns<'a, T>(one: &'a T, other: &'a T, first: usize) -> [&'a T; MESSAGES] {
    if first % 2 == 0 {
        [one, other, one, other, one, other, one, other]
    } else {
        [other, one, other, one, other, one, other, one]
    }
}

// Each text in each place, under each of two keys.
#[test]
fn codes_under_keys_of_their_own(rt: HostRuntime) {
    for first in 0..16 {
        let mut mac = BatchMac::new(b"Jefe");
        let mut another = BatchMac::new(&[0x0b; 20]);
        let macs = by_turns(&mac, &another, first / 8);
        let codes = BatchMac::hmac96_under(&macs, &texts_from(first));
        mac.wipe();
        mac.spend();
        another.wipe();
        another.spend();
        for j in 0..8 {
            let text = (first + j) % 8;
            let is_first = (first / 8 + j) % 2 == 0;
            let expected = if is_first {
                TEXTS[text].1
            } else {
                CODES_OF_ANOTHER[text]
            };
            assert_hex(&rt, &codes[j], expected);
        }
    }
}

// The same of digests after blocks of their own.
#[test]
fn digests_after_blocks_of_their_own(rt: HostRuntime) {
    let mut messages = [[0; 20]; MESSAGES];
    for j in 0..8 {
        messages[j] = [b'a' + j as u8; 20];
    }
    for first in 0..16 {
        let (mut inner, mut outer) = Prefix::pair(&[0x36; 64], &[0x5c; 64]);
        let prefixes = by_turns(&inner, &outer, first / 8);
        let digests = Prefix::digests_after(&prefixes, &texts_from(first));
        let of_20 = Prefix::digests_of_20_after(&prefixes, &messages);
        inner.wipe();
        inner.spend();
        outer.wipe();
        outer.spend();
        for j in 0..8 {
            let text = (first + j) % 8;
            let is_inner = (first / 8 + j) % 2 == 0;
            let expected = if is_inner {
                TEXTS[text].2
            } else {
                DIGESTS_OF_ANOTHER[text]
            };
            assert_hex(&rt, &digests[j], expected);
            let expected = if is_inner {
                DIGESTS_OF_20_OF_ANOTHER[j]
            } else {
                DIGESTS_OF_20[j]
            };
            assert_hex(&rt, &of_20[j], expected);
        }
    }
}

// What is made after a wipe is under no key.
#[test]
fn wiped_keys_make_other_codes(rt: HostRuntime) {
    let mut mac = BatchMac::new(b"Jefe");
    let before = mac.hmac96(&texts_from(0));
    mac.wipe();
    let after = mac.hmac96(&texts_from(0));
    mac.spend();
    for j in 0..8 {
        assert!(rt; before[j] != after[j], "at {j}");
    }
}
