//! SubBytes (FIPS 197, section 5.1.1) on vectors of 16 bytes. It is read from tables of 16 bytes
//! that lie in vectors, so that no address and no branch depends on a byte, as in "Accelerating AES
//! with Vector Permute Instructions" (Hamburg, 2009).
//!
//! A byte is split into two elements of the field of 16 elements, its nibbles (specs/Nibbles.antt).
//! The inverse of a byte is then a matter of a few look-ups by nibbles: they give two places, and
//! what is sought of the inverse is the sum of what two tables give, one at each place. Each pair
//! of tables below is named after what it gives. tests/vector_tables.py computes all the tables,
//! and compares them with these.

ghost use Rattle.std.specs.Prelude.{◌≡◌, ◌/◌, List, ℕ, map, bit_xor, bit_and};
ghost use Rattle.krb_aes.specs.Field.{sbox};
ghost use Rattle.krb_aes.specs.Keys.{sub_word};
ghost use Rattle.krb_base.specs.Bytes.{AreBytes};
ghost use Rattle.krb_aes.specs.Nibbles.{ArePlaces, entry, first_place, second_place, nibbles_of, bare_nibbles, bare_doubled};

use crate::words;
use std::simd::prelude::*;

// The inverse of each element of the field of 16 elements; 0 has none, and means no place.
pub const INVERSES: [u8; 16] = [
    0x80, 0x01, 0x09, 0x0e, 0x0d, 0x0b, 0x07, 0x06, 0x0f, 0x02, 0x0c, 0x05, 0x0a, 0x04, 0x03, 0x08,
];

// The same times g.
pub const SCALED_INVERSES: [u8; 16] = [
    0x80, 0x02, 0x01, 0x0f, 0x09, 0x05, 0x0e, 0x0c, 0x0d, 0x04, 0x0b, 0x0a, 0x07, 0x08, 0x06, 0x03,
];

// The nibbles of a byte: what its higher and its lower half give.
pub const NIBBLES_HIGH: [u8; 16] = [
    0x00, 0x86, 0xfd, 0x7b, 0x8e, 0x08, 0x73, 0xf5, 0x77, 0xf1, 0x8a, 0x0c, 0xf9, 0x7f, 0x04, 0x82,
];

pub const NIBBLES_LOW: [u8; 16] = [
    0x00, 0x01, 0x1c, 0x1d, 0x2d, 0x2c, 0x31, 0x30, 0x27, 0x26, 0x3b, 0x3a, 0x0a, 0x0b, 0x16, 0x17,
];

// The nibbles of the S-box without its constant 0x63.
pub const SBOX_FIRST: [u8; 16] = [
    0x00, 0xc3, 0x4f, 0x0c, 0xfc, 0x7c, 0x43, 0x80, 0xcf, 0x33, 0x3f, 0x70, 0xbf, 0xb3, 0xf0, 0x8c,
];

pub const SBOX_SECOND: [u8; 16] = [
    0x00, 0xe6, 0x72, 0xb7, 0xe5, 0xc6, 0xc5, 0x23, 0x51, 0xb4, 0x03, 0x71, 0x20, 0x97, 0x52, 0x94,
];

// The same times 2, for MixColumns.
pub const DOUBLED_FIRST: [u8; 16] = [
    0x00, 0x7c, 0x20, 0xcf, 0x92, 0x01, 0xef, 0x93, 0xb3, 0x21, 0xee, 0xce, 0x7d, 0xb2, 0x5d, 0x5c,
];

pub const DOUBLED_SECOND: [u8; 16] = [
    0x00, 0xd1, 0xe5, 0xf7, 0xe6, 0x25, 0x12, 0xc3, 0x26, 0xc0, 0x37, 0xd2, 0xf4, 0x03, 0x11, 0x34,
];

// The S-box without its constant, as plain bytes.
pub const BARE_FIRST: [u8; 16] = [
    0x00, 0xcb, 0xd7, 0xb0, 0x21, 0x8d, 0x67, 0xac, 0x7b, 0x5a, 0xea, 0x3d, 0x46, 0xf6, 0x91, 0x1c,
];

pub const BARE_SECOND: [u8; 16] = [
    0x00, 0x9f, 0x61, 0x16, 0xc2, 0x2a, 0x77, 0xe8, 0x89, 0x4b, 0x5d, 0x3c, 0xb5, 0xa3, 0xd4, 0xfe,
];

#[inline(always)]
pub fn high(x: u8x16) -> u8x16
    ensures { result ≡ map (λ b. b / 16) x }
{
    x >> u8x16::splat(4)
}

#[inline(always)]
pub fn low(x: u8x16) -> u8x16
    ensures { result ≡ map (λ b. bit_and b 15) x }
{
    x & u8x16::splat(15)
}

// The bytes of a table at these places.
#[inline(always)]
pub fn look_up(table: [u8; 16], places: u8x16) -> u8x16
    requires { ArePlaces places }
    ensures { result ≡ map (entry table) places }
{
    u8x16::from_array(table).swizzle_dyn(places)
}

// The two places at which the pairs of tables are read, for bytes given as nibbles.
#[inline(always)]
pub fn places(x: u8x16) -> (u8x16, u8x16)
    ensures first { result.0 ≡ map first_place x }
    ensures second { result.1 ≡ map second_place x }
    ensures first_ok { ArePlaces result.0 }
    ensures second_ok { ArePlaces result.1 }
{
    let i = high(x);
    let k = low(x);
    let j = i ^ k;
    let scaled = look_up(SCALED_INVERSES, k);
    let first = look_up(INVERSES, i) ^ scaled;
    let second = look_up(INVERSES, j) ^ scaled;
    (look_up(INVERSES, first) ^ j, look_up(INVERSES, second) ^ i)
}

// The S-box of each byte without its constant, as nibbles, times 1 and 2.
#[inline(always)]
pub fn sub_bytes_products(x: u8x16) -> (u8x16, u8x16)
    ensures by_1 { (s : List ℕ) → AreBytes s → x ≡ map nibbles_of s
        → result.0 ≡ map (λ b. bare_nibbles (sbox b)) s }
    ensures by_2 { (s : List ℕ) → AreBytes s → x ≡ map nibbles_of s
        → result.1 ≡ map (λ b. bare_doubled (sbox b)) s }
{
    let (first, second) = places(x);
    (
        look_up(SBOX_FIRST, first) ^ look_up(SBOX_SECOND, second),
        look_up(DOUBLED_FIRST, first) ^ look_up(DOUBLED_SECOND, second),
    )
}

// The S-box of each byte without its constant.
#[inline(always)]
pub fn bare_sub_bytes(x: u8x16) -> u8x16
    ensures { (s : List ℕ) → AreBytes s → x ≡ map nibbles_of s
        → result ≡ map (λ b. bit_xor (sbox b) 0x63) s }
{
    let (first, second) = places(x);
    look_up(BARE_FIRST, first) ^ look_up(BARE_SECOND, second)
}

// The nibbles of each byte.
#[inline(always)]
pub fn to_nibbles(x: u8x16) -> u8x16
    ensures { result ≡ map nibbles_of x }
{
    look_up(NIBBLES_HIGH, high(x)) ^ look_up(NIBBLES_LOW, low(x))
}

// SubWord of the key expansion (FIPS 197, section 5.2).
pub fn sub_word(x: u32) -> u32
    ensures { result ≡ sub_word x }
{
    let split = to_nibbles(u8x16::from_array(words::store([x, 0, 0, 0])));
    let out = (bare_sub_bytes(split) ^ u8x16::splat(0x63)).to_array();
    u32::from_be_bytes([out[0], out[1], out[2], out[3]])
}
