//! InvSubBytes (FIPS 197, section 5.3.2) on vectors of 16 bytes, read from tables of 16 bytes as
//! SubBytes is.
//!
//! Between the rounds of the inverse cipher the S-box's affine map is undone already, so that the
//! inverse S-box of a byte is the inverse of what its nibbles mean. tests/vector_tables.py computes
//! the tables.

ghost use Rattle.std.specs.Prelude.{◌≡◌, List, ℕ, map};
ghost use Rattle.krb_aes.specs.Field.{times};
ghost use Rattle.krb_aes.specs.InverseCipher.{inv_sbox};
ghost use Rattle.krb_base.specs.Bytes.{AreBytes};
ghost use Rattle.krb_aes.specs.Nibbles.{inv_linear_nibbles, inv_affine_nibbles};

use crate::sbox::{high, look_up, low, places};
use std::simd::prelude::*;

// The nibbles of a byte with the affine map undone: what its higher and its lower half give. The
// constant is in the first.
pub const UNDONE_HIGH: [u8; 16] = [
    0x2c, 0x8b, 0x84, 0x23, 0xc1, 0x66, 0x69, 0xce, 0xfd, 0x5a, 0x55, 0xf2, 0x10, 0xb7, 0xb8, 0x1f,
];

pub const UNDONE_LOW: [u8; 16] = [
    0x00, 0xb5, 0xdc, 0x69, 0xdb, 0x6e, 0x07, 0xb2, 0x14, 0xa1, 0xc8, 0x7d, 0xcf, 0x7a, 0x13, 0xa6,
];

// The inverse S-box times 14, with the linear part of the affine map undone: InvMixColumns'
// products, in the form that the next round takes.
pub const TIMES_14_FIRST: [u8; 16] = [
    0x00, 0xeb, 0xa6, 0xb9, 0x7b, 0x8f, 0x1f, 0xf4, 0x52, 0x29, 0x90, 0x36, 0x64, 0xdd, 0xc2, 0x4d,
];

pub const TIMES_14_SECOND: [u8; 16] = [
    0x00, 0xfd, 0xdf, 0x65, 0x9d, 0xda, 0xba, 0x47, 0x98, 0x05, 0x60, 0xbf, 0x27, 0x42, 0xf8, 0x22,
];

// The same times 11.
pub const TIMES_11_FIRST: [u8; 16] = [
    0x00, 0xc2, 0x4d, 0xeb, 0xdd, 0xb9, 0xa6, 0x64, 0x29, 0xf4, 0x1f, 0x52, 0x7b, 0x90, 0x36, 0x8f,
];

pub const TIMES_11_SECOND: [u8; 16] = [
    0x00, 0xf8, 0x22, 0xfd, 0x42, 0x65, 0xdf, 0x27, 0x05, 0x47, 0xba, 0x98, 0x9d, 0x60, 0xbf, 0xda,
];

// The same times 13.
pub const TIMES_13_FIRST: [u8; 16] = [
    0x00, 0x7c, 0x1b, 0x3d, 0x15, 0x4f, 0x26, 0x5a, 0x41, 0x54, 0x69, 0x72, 0x33, 0x0e, 0x28, 0x67,
];

pub const TIMES_13_SECOND: [u8; 16] = [
    0x00, 0x77, 0xb2, 0xb0, 0xb6, 0xc3, 0x02, 0x75, 0xc7, 0x71, 0xc1, 0x73, 0xb4, 0x04, 0x06, 0xc5,
];

// The same times 9.
pub const TIMES_9_FIRST: [u8; 16] = [
    0x00, 0x27, 0xbf, 0x47, 0xda, 0x05, 0xf8, 0xdf, 0x60, 0xba, 0xfd, 0x42, 0x22, 0x65, 0x9d, 0x98,
];

pub const TIMES_9_SECOND: [u8; 16] = [
    0x00, 0x01, 0x8c, 0x2e, 0xa8, 0x0b, 0xa2, 0xa3, 0x2f, 0x87, 0xa9, 0x25, 0x0a, 0x24, 0x86, 0x8d,
];

// The inverse S-box as plain bytes.
pub const INV_SBOX_FIRST: [u8; 16] = [
    0x00, 0x3b, 0xe4, 0xc8, 0x03, 0x14, 0x2c, 0x17, 0xf3, 0xf0, 0x38, 0xdc, 0x2f, 0xe7, 0xcb, 0xdf,
];

pub const INV_SBOX_SECOND: [u8; 16] = [
    0x00, 0x24, 0x91, 0x19, 0x23, 0x8f, 0x88, 0xac, 0x3d, 0x1e, 0x07, 0x96, 0xab, 0xb2, 0x3a, 0xb5,
];

// The nibbles of each byte with the affine map undone.
#[inline(always)]
pub fn undo_affine(x: u8x16) -> u8x16
    ensures { result ≡ map inv_affine_nibbles x }
{
    look_up(UNDONE_HIGH, high(x)) ^ look_up(UNDONE_LOW, low(x))
}

// The inverse S-box of each byte.
#[inline(always)]
pub fn inv_sub_bytes(x: u8x16) -> u8x16
    ensures { (s : List ℕ) → AreBytes s → x ≡ map inv_affine_nibbles s → result ≡ map inv_sbox s }
{
    let (first, second) = places(x);
    look_up(INV_SBOX_FIRST, first) ^ look_up(INV_SBOX_SECOND, second)
}

// The inverse S-box of each byte, times the numbers of InvMixColumns.
#[inline(always)]
pub fn inv_products(x: u8x16) -> (u8x16, u8x16, u8x16, u8x16)
    ensures by_14 { (s : List ℕ) → AreBytes s → x ≡ map inv_affine_nibbles s
        → result.0 ≡ map (λ b. inv_linear_nibbles (times 14 (inv_sbox b))) s }
    ensures by_11 { (s : List ℕ) → AreBytes s → x ≡ map inv_affine_nibbles s
        → result.1 ≡ map (λ b. inv_linear_nibbles (times 11 (inv_sbox b))) s }
    ensures by_13 { (s : List ℕ) → AreBytes s → x ≡ map inv_affine_nibbles s
        → result.2 ≡ map (λ b. inv_linear_nibbles (times 13 (inv_sbox b))) s }
    ensures by_9 { (s : List ℕ) → AreBytes s → x ≡ map inv_affine_nibbles s
        → result.3 ≡ map (λ b. inv_linear_nibbles (times 9 (inv_sbox b))) s }
{
    let (first, second) = places(x);
    (
        look_up(TIMES_14_FIRST, first) ^ look_up(TIMES_14_SECOND, second),
        look_up(TIMES_11_FIRST, first) ^ look_up(TIMES_11_SECOND, second),
        look_up(TIMES_13_FIRST, first) ^ look_up(TIMES_13_SECOND, second),
        look_up(TIMES_9_FIRST, first) ^ look_up(TIMES_9_SECOND, second),
    )
}
