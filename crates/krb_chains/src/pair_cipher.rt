//! The cipher on pairs of blocks, each in one vector of 32 bytes: each step is that of cipher.rt in both
//! blocks, which are of different chains. Two pairs go side by side.

ghost use Rattle.std.specs.Prelude.{◌≡◌, ℕ, ◌+◌, ◌*◌, ◌%◌, ◌≤◌, List, length, map, bit_xor};
ghost use Rattle.krb_aes.specs.Field.{sbox};
ghost use Rattle.krb_aes.specs.Cipher.{sub_bytes, shift_rows, mix_columns, add_round_key, cipher};
ghost use Rattle.krb_base.specs.Bytes.{AreBytes};
ghost use Rattle.krb_aes.specs.Stealing.{xor_block};
ghost use Rattle.krb_aes.specs.Words.{IsBlock};
ghost use Rattle.krb_aes.specs.Nibbles.{nibbles_of, bare_nibbles, bare_doubled};
ghost use Rattle.krb_aes.specs.Rounds.{rows_shifted, columns_raised, round_key, AreRoundKeys};
ghost use Rattle.krb_aes.specs.Pairs.{pair, twice};

use krb_aes::key_at;
use krb_aes::pairs::{high, look_up, low, places, twice};
use krb_aes::sbox::{
    BARE_FIRST, BARE_SECOND, DOUBLED_FIRST, DOUBLED_SECOND, NIBBLES_HIGH, NIBBLES_LOW, SBOX_FIRST,
    SBOX_SECOND,
};
use std::simd::prelude::*;

// The nibbles of each byte.
#[inline(always)]
fn to_nibbles(x: u8x32) -> u8x32
    ensures { result ≡ map nibbles_of x }
{
    look_up(NIBBLES_HIGH, high(x)) ^ look_up(NIBBLES_LOW, low(x))
}

// The S-box of each byte without its constant, as nibbles, times 1 and 2.
#[inline(always)]
fn sub_bytes_products(x: u8x32) -> (u8x32, u8x32)
    ensures by_1 { (s : List ℕ) → AreBytes s → x ≡ map nibbles_of s
        → result.0 ≡ map (λ b. bare_nibbles (sbox b)) s }
    ensures by_2 { (s : List ℕ) → AreBytes s → x ≡ map nibbles_of s
        → result.1 ≡ map (λ b. bare_doubled (sbox b)) s }
{
    let (first, second) = places(x);
    (
        look_up(SBOX_FIRST, first) ^ look_up(SBOX_SECOND, second),
        look_up(DOUBLED_FIRST, first) ^ look_up(DOUBLED_SECOND, second),
    )
}

// The S-box of each byte without its constant.
#[inline(always)]
fn bare_sub_bytes(x: u8x32) -> u8x32
    ensures { (s : List ℕ) → AreBytes s → x ≡ map nibbles_of s
        → result ≡ map (λ b. bit_xor (sbox b) 0x63) s }
{
    let (first, second) = places(x);
    look_up(BARE_FIRST, first) ^ look_up(BARE_SECOND, second)
}

// As `mix_0` of one block.
#[inline(always)]
fn mix_0(a: u8x32, b: u8x32, key: u8x32) -> u8x32
    ensures { (s t k : List ℕ) → AreBytes s → AreBytes t → AreBytes k
        → a ≡ map bare_nibbles (pair (rows_shifted 1 s) (rows_shifted 1 t))
        → b ≡ map bare_doubled (pair (rows_shifted 1 s) (rows_shifted 1 t))
        → key ≡ twice (map bare_nibbles (rows_shifted 0 (columns_raised k)))
        → result ≡ map nibbles_of (pair (rows_shifted 0 (xor_block (mix_columns (shift_rows s)) k))
        (rows_shifted 0 (xor_block (mix_columns (shift_rows t)) k))) }
{
    let next = a.swizzle([
        1, 2, 3, 0, 5, 6, 7, 4, 9, 10, 11, 8, 13, 14, 15, 12, 17, 18, 19, 16, 21, 22, 23, 20, 25,
        26, 27, 24, 29, 30, 31, 28,
    ]) ^ b;
    next.swizzle([
        1, 2, 3, 0, 5, 6, 7, 4, 9, 10, 11, 8, 13, 14, 15, 12, 17, 18, 19, 16, 21, 22, 23, 20, 25,
        26, 27, 24, 29, 30, 31, 28,
    ]) ^ (next
        ^ (a ^ key).swizzle([
            3, 0, 1, 2, 7, 4, 5, 6, 11, 8, 9, 10, 15, 12, 13, 14, 19, 16, 17, 18, 23, 20, 21, 22,
            27, 24, 25, 26, 31, 28, 29, 30,
        ]))
}

// As `round_0` of one block.
#[inline(always)]
fn round_0(x: u8x32, key: u8x16) -> u8x32
    ensures { (s t w : List ℕ) (n : ℕ) → AreBytes s → AreBytes t → x ≡ map nibbles_of (pair (rows_shifted 1 s) (rows_shifted 1 t))
        → key ≡ map bare_nibbles (rows_shifted 0 (columns_raised (round_key w n)))
        → result ≡ map nibbles_of
        (pair (rows_shifted 0 (add_round_key w n (mix_columns (shift_rows (sub_bytes s)))))
        (rows_shifted 0 (add_round_key w n (mix_columns (shift_rows (sub_bytes t)))))) }
{
    let (a, b) = sub_bytes_products(x);
    mix_0(a, b, twice(key))
}

// As `mix_1` of one block.
#[inline(always)]
fn mix_1(a: u8x32, b: u8x32, key: u8x32) -> u8x32
    ensures { (s t k : List ℕ) → AreBytes s → AreBytes t → AreBytes k
        → a ≡ map bare_nibbles (pair (rows_shifted 0 s) (rows_shifted 0 t))
        → b ≡ map bare_doubled (pair (rows_shifted 0 s) (rows_shifted 0 t))
        → key ≡ twice (map bare_nibbles (rows_shifted 3 (columns_raised k)))
        → result ≡ map nibbles_of (pair (rows_shifted 3 (xor_block (mix_columns (shift_rows s)) k))
        (rows_shifted 3 (xor_block (mix_columns (shift_rows t)) k))) }
{
    let next = a.swizzle([
        5, 6, 7, 4, 9, 10, 11, 8, 13, 14, 15, 12, 1, 2, 3, 0, 21, 22, 23, 20, 25, 26, 27, 24, 29,
        30, 31, 28, 17, 18, 19, 16,
    ]) ^ b;
    next.swizzle([
        5, 6, 7, 4, 9, 10, 11, 8, 13, 14, 15, 12, 1, 2, 3, 0, 21, 22, 23, 20, 25, 26, 27, 24, 29,
        30, 31, 28, 17, 18, 19, 16,
    ]) ^ (next
        ^ (a ^ key).swizzle([
            15, 12, 13, 14, 3, 0, 1, 2, 7, 4, 5, 6, 11, 8, 9, 10, 31, 28, 29, 30, 19, 16, 17, 18,
            23, 20, 21, 22, 27, 24, 25, 26,
        ]))
}

// As `round_1` of one block.
#[inline(always)]
fn round_1(x: u8x32, key: u8x16) -> u8x32
    ensures { (s t w : List ℕ) (n : ℕ) → AreBytes s → AreBytes t → x ≡ map nibbles_of (pair (rows_shifted 0 s) (rows_shifted 0 t))
        → key ≡ map bare_nibbles (rows_shifted 3 (columns_raised (round_key w n)))
        → result ≡ map nibbles_of
        (pair (rows_shifted 3 (add_round_key w n (mix_columns (shift_rows (sub_bytes s)))))
        (rows_shifted 3 (add_round_key w n (mix_columns (shift_rows (sub_bytes t)))))) }
{
    let (a, b) = sub_bytes_products(x);
    mix_1(a, b, twice(key))
}

// As `mix_2` of one block.
#[inline(always)]
fn mix_2(a: u8x32, b: u8x32, key: u8x32) -> u8x32
    ensures { (s t k : List ℕ) → AreBytes s → AreBytes t → AreBytes k
        → a ≡ map bare_nibbles (pair (rows_shifted 3 s) (rows_shifted 3 t))
        → b ≡ map bare_doubled (pair (rows_shifted 3 s) (rows_shifted 3 t))
        → key ≡ twice (map bare_nibbles (rows_shifted 2 (columns_raised k)))
        → result ≡ map nibbles_of (pair (rows_shifted 2 (xor_block (mix_columns (shift_rows s)) k))
        (rows_shifted 2 (xor_block (mix_columns (shift_rows t)) k))) }
{
    let next = a.swizzle([
        9, 10, 11, 8, 13, 14, 15, 12, 1, 2, 3, 0, 5, 6, 7, 4, 25, 26, 27, 24, 29, 30, 31, 28, 17,
        18, 19, 16, 21, 22, 23, 20,
    ]) ^ b;
    next.swizzle([
        9, 10, 11, 8, 13, 14, 15, 12, 1, 2, 3, 0, 5, 6, 7, 4, 25, 26, 27, 24, 29, 30, 31, 28, 17,
        18, 19, 16, 21, 22, 23, 20,
    ]) ^ (next
        ^ (a ^ key).swizzle([
            11, 8, 9, 10, 15, 12, 13, 14, 3, 0, 1, 2, 7, 4, 5, 6, 27, 24, 25, 26, 31, 28, 29, 30,
            19, 16, 17, 18, 23, 20, 21, 22,
        ]))
}

// As `round_2` of one block.
#[inline(always)]
fn round_2(x: u8x32, key: u8x16) -> u8x32
    ensures { (s t w : List ℕ) (n : ℕ) → AreBytes s → AreBytes t → x ≡ map nibbles_of (pair (rows_shifted 3 s) (rows_shifted 3 t))
        → key ≡ map bare_nibbles (rows_shifted 2 (columns_raised (round_key w n)))
        → result ≡ map nibbles_of
        (pair (rows_shifted 2 (add_round_key w n (mix_columns (shift_rows (sub_bytes s)))))
        (rows_shifted 2 (add_round_key w n (mix_columns (shift_rows (sub_bytes t)))))) }
{
    let (a, b) = sub_bytes_products(x);
    mix_2(a, b, twice(key))
}

// As `mix_3` of one block.
#[inline(always)]
fn mix_3(a: u8x32, b: u8x32, key: u8x32) -> u8x32
    ensures { (s t k : List ℕ) → AreBytes s → AreBytes t → AreBytes k
        → a ≡ map bare_nibbles (pair (rows_shifted 2 s) (rows_shifted 2 t))
        → b ≡ map bare_doubled (pair (rows_shifted 2 s) (rows_shifted 2 t))
        → key ≡ twice (map bare_nibbles (rows_shifted 1 (columns_raised k)))
        → result ≡ map nibbles_of (pair (rows_shifted 1 (xor_block (mix_columns (shift_rows s)) k))
        (rows_shifted 1 (xor_block (mix_columns (shift_rows t)) k))) }
{
    let next = a.swizzle([
        13, 14, 15, 12, 1, 2, 3, 0, 5, 6, 7, 4, 9, 10, 11, 8, 29, 30, 31, 28, 17, 18, 19, 16, 21,
        22, 23, 20, 25, 26, 27, 24,
    ]) ^ b;
    next.swizzle([
        13, 14, 15, 12, 1, 2, 3, 0, 5, 6, 7, 4, 9, 10, 11, 8, 29, 30, 31, 28, 17, 18, 19, 16, 21,
        22, 23, 20, 25, 26, 27, 24,
    ]) ^ (next
        ^ (a ^ key).swizzle([
            7, 4, 5, 6, 11, 8, 9, 10, 15, 12, 13, 14, 3, 0, 1, 2, 23, 20, 21, 22, 27, 24, 25, 26,
            31, 28, 29, 30, 19, 16, 17, 18,
        ]))
}

// As `round_3` of one block.
#[inline(always)]
fn round_3(x: u8x32, key: u8x16) -> u8x32
    ensures { (s t w : List ℕ) (n : ℕ) → AreBytes s → AreBytes t → x ≡ map nibbles_of (pair (rows_shifted 2 s) (rows_shifted 2 t))
        → key ≡ map bare_nibbles (rows_shifted 1 (columns_raised (round_key w n)))
        → result ≡ map nibbles_of
        (pair (rows_shifted 1 (add_round_key w n (mix_columns (shift_rows (sub_bytes s)))))
        (rows_shifted 1 (add_round_key w n (mix_columns (shift_rows (sub_bytes t)))))) }
{
    let (a, b) = sub_bytes_products(x);
    mix_3(a, b, twice(key))
}

// The last round, which does not mix.
#[inline(always)]
fn last_round(x: u8x32, key: u8x16) -> u8x32
    ensures { (s t w : List ℕ) (n : ℕ) → AreBytes s → AreBytes t
        → x ≡ map nibbles_of (pair (rows_shifted 3 s) (rows_shifted 3 t))
        → key ≡ map (λ b. bit_xor b 0x63) (round_key w n)
        → result ≡ pair (add_round_key w n (shift_rows (sub_bytes s)))
        (add_round_key w n (shift_rows (sub_bytes t))) }
{
    bare_sub_bytes(x).swizzle([
        0, 9, 2, 11, 4, 13, 6, 15, 8, 1, 10, 3, 12, 5, 14, 7, 16, 25, 18, 27, 20, 29, 22, 31, 24,
        17, 26, 19, 28, 21, 30, 23,
    ]) ^ twice(key)
}

// AddRoundKey with the first round key.
#[inline(always)]
fn start(blocks: u8x32, key: u8x16) -> u8x32
    ensures { (a b w : List ℕ) → IsBlock a → IsBlock b → blocks ≡ pair a b
        → key ≡ map nibbles_of (round_key w 0)
        → result ≡ map nibbles_of (pair (rows_shifted 0 (add_round_key w 0 a))
        (rows_shifted 0 (add_round_key w 0 b))) }
{
    to_nibbles(blocks) ^ twice(key)
}

/// The cipher of two pairs of blocks side by side.
#[inline(always)]
pub fn encrypt_pairs(
    keys: &[[u8; 16]; 15],
    turns: usize,
    one: u8x32,
    other: u8x32,
) -> (u8x32, u8x32)
    requires { turns ≤ 3 }
    ensures first { (w a b : List ℕ) → AreRoundKeys keys.now turns w
        → IsBlock a → IsBlock b → one ≡ pair a b → result.0 ≡ pair (cipher w a) (cipher w b) }
    ensures second { (w a b : List ℕ) → AreRoundKeys keys.now turns w
        → IsBlock a → IsBlock b → other ≡ pair a b → result.1 ≡ pair (cipher w a) (cipher w b) }
{
    let begin = key_at(keys, 0);
    let key = key_at(keys, 1);
    let mut first = round_1(start(one, begin), key);
    let mut second = round_1(start(other, begin), key);
    for n in 0..turns {
        let key_2 = key_at(keys, 4 * n + 2);
        let first_2 = round_2(first, key_2);
        let second_2 = round_2(second, key_2);
        let key_3 = key_at(keys, 4 * n + 3);
        let first_3 = round_3(first_2, key_3);
        let second_3 = round_3(second_2, key_3);
        let key_0 = key_at(keys, 4 * n + 4);
        let first_0 = round_0(first_3, key_0);
        let second_0 = round_0(second_3, key_0);
        let key_1 = key_at(keys, 4 * n + 5);
        first = round_1(first_0, key_1);
        second = round_1(second_0, key_1);
    }
    let end = key_at(keys, 4 * turns + 2);
    (last_round(first, end), last_round(second, end))
}
