//! n-fold, HMAC-SHA1 and derivation on values from outside: the vectors of the RFCs, and those of
//! another implementation for derived keys.

use crate::asserts::assert_same;
use krb_aes::CipherKey;
use krb_keys::{
    CHECKSUM_TAIL, ENCRYPTION_TAIL, INTEGRITY_TAIL, MacKey, derive, hmac_sha1, hmac96, mac_equal,
    nfold,
};
use std::alloc::{AllocError, Global};
use std::fmt::Write;
use std::process::Abort;

/// The bytes as lower-case digits.
fn hex(alloc: Global, bytes: &[u8]) -> Result<String, AllocError> {
    let mut digits = String::new(alloc);
    for byte in bytes {
        write!(digits, "{byte:02x}")?;
    }
    Ok(digits)
}

/// Asserts that the bytes are written with these digits.
pub fn assert_hex(rt: &(impl Abort + Alloc<A = Global>), bytes: &[u8], digits: &str) {
    let written = hex(rt.alloc(), bytes).expect(rt, "memory");
    assert_same(rt, written.as_str(), digits);
}

/// RFC 3961, appendix A.1: a text, a size in bytes, and the text folded to it.
static FOLDS: [(&str, usize, &str); 11] = [
    ("012345", 8, "be072631276b1955"),
    ("password", 7, "78a07b6caf85fa"),
    ("Rough Consensus, and Running Code", 8, "bb6ed30870b7f0e0"),
    ("password", 21, "59e4a8ca7c0385c3c37b3f6d2000247cb6e6bd5b3e"),
    (
        "MASSACHVSETTS INSTITVTE OF TECHNOLOGY",
        24,
        "db3b0d8f0b061e603282b308a50841229ad798fab9540c1b",
    ),
    ("Q", 21, "518a54a215a8452a518a54a215a8452a518a54a215"),
    ("ba", 21, "fb25d531ae8974499f52fd92ea9857c4ba24cf297e"),
    ("kerberos", 8, "6b65726265726f73"),
    ("kerberos", 16, "6b65726265726f737b9b5b2b93132b93"),
    ("kerberos", 21, "8372c236344e5f1550cd0747e15d62ca7a5a3bcea4"),
    (
        "kerberos",
        32,
        "6b65726265726f737b9b5b2b93132b935c9bdcdad95c9899c4cae4dee6d6cae4",
    ),
];

fn assert_folds(rt: &(impl Abort + Alloc<A = Global>), text: &[u8], size: usize, digits: &str) {
    let len = text.len();
    assert!(rt; 0 < len && len <= 64 && 0 < size && size <= 64);
    let mut out = [0xff; 64];
    nfold(text, &mut out[..size]);
    assert_hex(rt, &out[..size], digits);
}

#[test]
fn folds_as_in_rfc_3961(rt: HostRuntime) {
    for (text, size, digits) in &FOLDS {
        assert_folds(&rt, text.as_bytes(), *size, digits);
    }
}

// The ends of the range of lengths, and sums that are zero or a multiple of 2^n - 1. Computed apart
// from this project, by n-fold on strings of digits 0 and 1.
#[test]
fn folds_at_the_limits(rt: HostRuntime) {
    let mut counting = [0; 64];
    for (i, byte) in counting.iter_mut().enumerate() {
        *byte = i as u8;
    }
    let mut long = [0x55; 63];
    nfold(&counting, &mut long);
    assert_hex(&rt, &long[..16], "44d3d65d4c24c0d17eb1d384abaf9dbf");
    assert_hex(&rt, &long[47..], "88540375609668b49bfbcfe6f7718f0c");
    assert_folds(&rt, &counting, 1, "e7");
    assert_folds(&rt, &[0; 8], 16, "00000000000000000000000000000000");
    assert_folds(&rt, &[0xff; 8], 16, "ffffffffffffffffffffffffffffffff");
}

/// Test cases 1 to 7 of HMAC-SHA-1 in RFC 2202, section 3: key, data, digest.
static RFC_2202: [(&[u8], &[u8], &str); 7] = [
    (
        &[0x0b; 20],
        b"Hi There",
        "b617318655057264e28bc0b6fb378c8ef146be00",
    ),
    (
        b"Jefe",
        b"what do ya want for nothing?",
        "effcdf6ae5eb2fa2d27416d5f184df9c259a7c79",
    ),
    (
        &[0xaa; 20],
        &[0xdd; 50],
        "125d7342b9ac11cd91a39af48aa17b4f63f175d3",
    ),
    (
        &[
            1, 2, 3, 4, 5, 6, 7, 8, 9, 10, 11, 12, 13, 14, 15, 16, 17, 18, 19, 20, 21, 22, 23, 24,
            25,
        ],
        &[0xcd; 50],
        "4c9007f4026250c6bc8414f9bf50c86c2d7235da",
    ),
    (
        &[0x0c; 20],
        b"Test With Truncation",
        "4c1a03424b55e07fe7f27be1d58bb9324a9a5a04",
    ),
    (
        &[0xaa; 80],
        b"Test Using Larger Than Block-Size Key - Hash Key First",
        "aa4ae5e15272d00e95705637ce8a3b55ed402112",
    ),
    (
        &[0xaa; 80],
        b"Test Using Larger Than Block-Size Key and Larger Than One Block-Size Data",
        "e8e99d0f45237d786d6bbaa7965c7808bbff1a91",
    ),
];

/// Asserts that the code has these digits, however the data are cut in two.
fn assert_joins(rt: &(impl Abort + Alloc<A = Global>), key: &[u8], data: &[u8], digits: &str) {
    for cut in 0..data.len() + 1 {
        assert_hex(rt, &hmac96(key, &[&data[..cut], &data[cut..]]), digits);
    }
}

// The first 24 digits of RFC 2202's.
#[test]
fn joins_the_parts(rt: HostRuntime) {
    assert_joins(
        &rt,
        b"Jefe",
        b"what do ya want for nothing?",
        "effcdf6ae5eb2fa2d27416d5",
    );
    assert_joins(&rt, &[0x0b; 20], b"Hi There", "b617318655057264e28bc0b6");
}

/// Asserts that a kept key gives what the plain calls give, time after time, and nothing of it once
/// it is wiped.
fn assert_keeps(rt: &(impl Abort + Alloc<A = Global>), key: &[u8], data: &[u8], digits: &str) {
    let mut mac = MacKey::new(key);
    let first = mac.hmac_sha1(&[data]);
    let second = mac.hmac_sha1(&[&[], data, &[]]);
    let short = mac.hmac96(&[data]);
    mac.wipe();
    let wiped = mac.hmac_sha1(&[data]);
    mac.spend();
    assert_hex(rt, &first, digits);
    assert!(rt; first == second);
    assert!(rt; mac_equal(&first[..12], &short));
    assert!(rt; !mac_equal(&first, &wiped));
}

#[test]
fn codes_as_in_rfc_2202(rt: HostRuntime) {
    for (key, data, digits) in &RFC_2202 {
        assert_hex(&rt, &hmac_sha1(key, data), digits);
        assert_keeps(&rt, key, data, digits);
    }
}

/// Asserts that the key, which ends here, is derived for key usage 2 to the key with these digits.
fn assert_derives(
    rt: &(impl Abort + Alloc<A = Global>),
    mut key: CipherKey,
    tail: u8,
    digits: &str,
) {
    let mut derived = derive(&key, 2, tail);
    key.wipe();
    key.spend();
    assert_hex(rt, derived.bytes(), digits);
    derived.wipe();
    derived.spend();
}

// The derived keys of MIT krb5's own test of derivation, src/lib/crypto/crypto_tests/t_derive.c:
// key usage 2 under aes128-cts and aes256-cts.
#[test]
fn derives_as_krb5_does(rt: HostRuntime) {
    for (tail, digits) in [
        (CHECKSUM_TAIL, "34280a382bc92769b2da2f9ef066854b"),
        (ENCRYPTION_TAIL, "5b14fc4e250e14ddf9dccf1af6674f53"),
        (INTEGRITY_TAIL, "4ed31063621684f09ae8d89991af3e8f"),
    ] {
        let key = 0x42263c6e89f4fc28b8df68ee09799f15u128.to_be_bytes();
        assert_derives(&rt, CipherKey::from_128(key), tail, digits);
    }
    let mut key = [0; 32];
    key[..16].copy_from_slice(&0xfe697b52bc0d3ce14432ba036a92e65bu128.to_be_bytes());
    key[16..].copy_from_slice(&0xbb52280990a2fa27883998d72af30161u128.to_be_bytes());
    for (tail, digits) in [
        (
            CHECKSUM_TAIL,
            "bfab388bdcb238e9f9c98d6a878304f04d30c82556375ac507a7a852790f4674",
        ),
        (
            ENCRYPTION_TAIL,
            "c7cfd9cd75fe793a586a542d87e0d1396f1134a104bb1a9190b8c90ada3ddf37",
        ),
        (
            INTEGRITY_TAIL,
            "97151b4c76945063e2eb0529dc067d97d7bba90776d8126d91f34f3101aea8ba",
        ),
    ] {
        assert_derives(&rt, CipherKey::from_256(key), tail, digits);
    }
}
