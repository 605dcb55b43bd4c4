//! Pairs of blocks, each pair in one vector of 32 bytes, and the reading of tables at places in them.
//! The compiler makes of such a vector what the processor has: two vectors of 16 bytes, or one of 32.

ghost use Rattle.std.specs.Prelude.{◌≡◌, ◌/◌, length, map, bit_and};
ghost use Rattle.krb_aes.specs.Nibbles.{ArePlaces, entry, first_place, second_place};
ghost use Rattle.krb_aes.specs.Pairs.{twice};

use crate::sbox::{INVERSES, SCALED_INVERSES};
use std::simd::prelude::*;

/// The same block twice.
#[inline(always)]
pub fn twice(block: u8x16) -> u8x32
    ensures value { result ≡ twice block }
    ensures whole { length block ≡ 16 }
{
    block.swizzle([
        0, 1, 2, 3, 4, 5, 6, 7, 8, 9, 10, 11, 12, 13, 14, 15, 0, 1, 2, 3, 4, 5, 6, 7, 8, 9, 10, 11,
        12, 13, 14, 15,
    ])
}

/// The higher half of each byte.
#[inline(always)]
pub fn high(x: u8x32) -> u8x32
    ensures { result ≡ map (λ b. b / 16) x }
{
    x >> u8x32::splat(4)
}

/// The lower half of each byte.
#[inline(always)]
pub fn low(x: u8x32) -> u8x32
    ensures { result ≡ map (λ b. bit_and b 15) x }
{
    x & u8x32::splat(15)
}

/// The bytes of a table at these places.
#[inline(always)]
pub fn look_up(table: [u8; 16], places: u8x32) -> u8x32
    requires { ArePlaces places }
    ensures { result ≡ map (entry table) places }
{
    twice(u8x16::from_array(table)).swizzle_dyn_within::<16>(places)
}

/// The two places at which the pairs of tables are read, for bytes given as nibbles.
#[inline(always)]
pub fn places(x: u8x32) -> (u8x32, u8x32)
    ensures first { result.0 ≡ map first_place x }
    ensures second { result.1 ≡ map second_place x }
    ensures first_ok { ArePlaces result.0 }
    ensures second_ok { ArePlaces result.1 }
{
    let i = high(x);
    let k = low(x);
    let j = i ^ k;
    let scaled = look_up(SCALED_INVERSES, k);
    let first = look_up(INVERSES, i) ^ scaled;
    let second = look_up(INVERSES, j) ^ scaled;
    (look_up(INVERSES, first) ^ j, look_up(INVERSES, second) ^ i)
}
