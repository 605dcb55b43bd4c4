//! The inverse cipher on pairs of blocks, each pair in one vector of 32 bytes: each step is that of
//! inverse_cipher.rt in both blocks. The compiler makes of such a vector what the processor has: two
//! vectors of 16 bytes, or one of 32. Two pairs are decrypted side by side.

ghost use Rattle.std.specs.Prelude.{◌≡◌, ℕ, ◌+◌, ◌-◌, ◌*◌, ◌/◌, ◌≤◌, ◌++◌, List, length, drop, map, bit_and};
ghost use Rattle.krb_aes.specs.Field.{times};
ghost use Rattle.krb_aes.specs.Cipher.{add_round_key};
ghost use Rattle.krb_aes.specs.InverseCipher.{inv_sbox, inv_sub_bytes, inv_shift_rows, inv_mix_columns, inv_cipher};
ghost use Rattle.krb_base.specs.Bytes.{AreBytes};
ghost use Rattle.krb_aes.specs.Stealing.{xor_block};
ghost use Rattle.krb_aes.specs.Chain.{unchained_four};
ghost use Rattle.krb_aes.specs.Nibbles.{ArePlaces, entry, first_place, second_place, inv_linear_nibbles, inv_affine_nibbles};
ghost use Rattle.krb_aes.specs.Rounds.{rows_shifted, columns_raised, round_key, AreInverseRoundKeys};
ghost use Rattle.krb_aes.specs.Pairs.{pair, twice};
ghost use Rattle.krb_aes.specs.Words.{IsBlock};

use crate::cipher::key_at;
use crate::inverse_sbox::{
    INV_SBOX_FIRST, INV_SBOX_SECOND, TIMES_9_FIRST, TIMES_9_SECOND, TIMES_11_FIRST,
    TIMES_11_SECOND, TIMES_13_FIRST, TIMES_13_SECOND, TIMES_14_FIRST, TIMES_14_SECOND, UNDONE_HIGH,
    UNDONE_LOW,
};
use crate::pairs::{high, look_up, low, places, twice};
use std::simd::prelude::*;

// The nibbles of each byte with the affine map undone.
#[inline(always)]
fn undo_affine(x: u8x32) -> u8x32
    ensures { result ≡ map inv_affine_nibbles x }
{
    look_up(UNDONE_HIGH, high(x)) ^ look_up(UNDONE_LOW, low(x))
}

// The inverse S-box of each byte.
#[inline(always)]
fn inv_sub_bytes(x: u8x32) -> u8x32
    ensures { (s : List ℕ) → AreBytes s → x ≡ map inv_affine_nibbles s → result ≡ map inv_sbox s }
{
    let (first, second) = places(x);
    look_up(INV_SBOX_FIRST, first) ^ look_up(INV_SBOX_SECOND, second)
}

// The inverse S-box of each byte, times the numbers of InvMixColumns.
#[inline(always)]
fn inv_products(x: u8x32) -> (u8x32, u8x32, u8x32, u8x32)
    ensures by_14 { (s : List ℕ) → AreBytes s → x ≡ map inv_affine_nibbles s
        → result.0 ≡ map (λ b. inv_linear_nibbles (times 14 (inv_sbox b))) s }
    ensures by_11 { (s : List ℕ) → AreBytes s → x ≡ map inv_affine_nibbles s
        → result.1 ≡ map (λ b. inv_linear_nibbles (times 11 (inv_sbox b))) s }
    ensures by_13 { (s : List ℕ) → AreBytes s → x ≡ map inv_affine_nibbles s
        → result.2 ≡ map (λ b. inv_linear_nibbles (times 13 (inv_sbox b))) s }
    ensures by_9 { (s : List ℕ) → AreBytes s → x ≡ map inv_affine_nibbles s
        → result.3 ≡ map (λ b. inv_linear_nibbles (times 9 (inv_sbox b))) s }
{
    let (first, second) = places(x);
    (
        look_up(TIMES_14_FIRST, first) ^ look_up(TIMES_14_SECOND, second),
        look_up(TIMES_11_FIRST, first) ^ look_up(TIMES_11_SECOND, second),
        look_up(TIMES_13_FIRST, first) ^ look_up(TIMES_13_SECOND, second),
        look_up(TIMES_9_FIRST, first) ^ look_up(TIMES_9_SECOND, second),
    )
}

// As `inv_mix_1` of one block.
#[inline(always)]
fn inv_mix_1(by_14: u8x32, by_11: u8x32, by_13: u8x32, by_9: u8x32, key: u8x32) -> u8x32
    ensures { (s t k : List ℕ) → AreBytes s → AreBytes t → AreBytes k
        → by_14 ≡ map (λ b. inv_linear_nibbles (times 14 (inv_sbox b)))
        (pair (rows_shifted 0 s) (rows_shifted 0 t))
        → by_11 ≡ map (λ b. inv_linear_nibbles (times 11 (inv_sbox b)))
        (pair (rows_shifted 0 s) (rows_shifted 0 t))
        → by_13 ≡ map (λ b. inv_linear_nibbles (times 13 (inv_sbox b)))
        (pair (rows_shifted 0 s) (rows_shifted 0 t))
        → by_9 ≡ map (λ b. inv_linear_nibbles (times 9 (inv_sbox b)))
        (pair (rows_shifted 0 s) (rows_shifted 0 t))
        → key ≡ twice (map inv_affine_nibbles (rows_shifted 1 (columns_raised (inv_mix_columns k))))
        → result ≡ map inv_affine_nibbles (pair
        (rows_shifted 1 (inv_mix_columns (xor_block (inv_sub_bytes (inv_shift_rows s)) k)))
        (rows_shifted 1 (inv_mix_columns (xor_block (inv_sub_bytes (inv_shift_rows t)) k)))) }
{
    let late = by_13
        ^ (by_9 ^ key).swizzle([
            13, 14, 15, 12, 1, 2, 3, 0, 5, 6, 7, 4, 9, 10, 11, 8, 29, 30, 31, 28, 17, 18, 19, 16,
            21, 22, 23, 20, 25, 26, 27, 24,
        ]);
    let middle = by_11
        ^ late.swizzle([
            13, 14, 15, 12, 1, 2, 3, 0, 5, 6, 7, 4, 9, 10, 11, 8, 29, 30, 31, 28, 17, 18, 19, 16,
            21, 22, 23, 20, 25, 26, 27, 24,
        ]);
    by_14
        ^ middle.swizzle([
            13, 14, 15, 12, 1, 2, 3, 0, 5, 6, 7, 4, 9, 10, 11, 8, 29, 30, 31, 28, 17, 18, 19, 16,
            21, 22, 23, 20, 25, 26, 27, 24,
        ])
}

// As `inv_round_1` of one block.
#[inline(always)]
fn inv_round_1(x: u8x32, key: u8x16) -> u8x32
    ensures { (s t w : List ℕ) (n : ℕ) → AreBytes s → AreBytes t
        → x ≡ map inv_affine_nibbles (pair (rows_shifted 0 s) (rows_shifted 0 t))
        → key ≡ map inv_affine_nibbles
        (rows_shifted 1 (columns_raised (inv_mix_columns (round_key w n))))
        → result ≡ map inv_affine_nibbles (pair
        (rows_shifted 1 (inv_mix_columns (add_round_key w n (inv_sub_bytes (inv_shift_rows s)))))
        (rows_shifted 1 (inv_mix_columns (add_round_key w n (inv_sub_bytes (inv_shift_rows t)))))) }
{
    let (by_14, by_11, by_13, by_9) = inv_products(x);
    inv_mix_1(by_14, by_11, by_13, by_9, twice(key))
}

// As `inv_mix_2` of one block.
#[inline(always)]
fn inv_mix_2(by_14: u8x32, by_11: u8x32, by_13: u8x32, by_9: u8x32, key: u8x32) -> u8x32
    ensures { (s t k : List ℕ) → AreBytes s → AreBytes t → AreBytes k
        → by_14 ≡ map (λ b. inv_linear_nibbles (times 14 (inv_sbox b)))
        (pair (rows_shifted 1 s) (rows_shifted 1 t))
        → by_11 ≡ map (λ b. inv_linear_nibbles (times 11 (inv_sbox b)))
        (pair (rows_shifted 1 s) (rows_shifted 1 t))
        → by_13 ≡ map (λ b. inv_linear_nibbles (times 13 (inv_sbox b)))
        (pair (rows_shifted 1 s) (rows_shifted 1 t))
        → by_9 ≡ map (λ b. inv_linear_nibbles (times 9 (inv_sbox b)))
        (pair (rows_shifted 1 s) (rows_shifted 1 t))
        → key ≡ twice (map inv_affine_nibbles (rows_shifted 2 (columns_raised (inv_mix_columns k))))
        → result ≡ map inv_affine_nibbles (pair
        (rows_shifted 2 (inv_mix_columns (xor_block (inv_sub_bytes (inv_shift_rows s)) k)))
        (rows_shifted 2 (inv_mix_columns (xor_block (inv_sub_bytes (inv_shift_rows t)) k)))) }
{
    let late = by_13
        ^ (by_9 ^ key).swizzle([
            9, 10, 11, 8, 13, 14, 15, 12, 1, 2, 3, 0, 5, 6, 7, 4, 25, 26, 27, 24, 29, 30, 31, 28,
            17, 18, 19, 16, 21, 22, 23, 20,
        ]);
    let middle = by_11
        ^ late.swizzle([
            9, 10, 11, 8, 13, 14, 15, 12, 1, 2, 3, 0, 5, 6, 7, 4, 25, 26, 27, 24, 29, 30, 31, 28,
            17, 18, 19, 16, 21, 22, 23, 20,
        ]);
    by_14
        ^ middle.swizzle([
            9, 10, 11, 8, 13, 14, 15, 12, 1, 2, 3, 0, 5, 6, 7, 4, 25, 26, 27, 24, 29, 30, 31, 28,
            17, 18, 19, 16, 21, 22, 23, 20,
        ])
}

// As `inv_round_2` of one block.
#[inline(always)]
fn inv_round_2(x: u8x32, key: u8x16) -> u8x32
    ensures { (s t w : List ℕ) (n : ℕ) → AreBytes s → AreBytes t
        → x ≡ map inv_affine_nibbles (pair (rows_shifted 1 s) (rows_shifted 1 t))
        → key ≡ map inv_affine_nibbles
        (rows_shifted 2 (columns_raised (inv_mix_columns (round_key w n))))
        → result ≡ map inv_affine_nibbles (pair
        (rows_shifted 2 (inv_mix_columns (add_round_key w n (inv_sub_bytes (inv_shift_rows s)))))
        (rows_shifted 2 (inv_mix_columns (add_round_key w n (inv_sub_bytes (inv_shift_rows t)))))) }
{
    let (by_14, by_11, by_13, by_9) = inv_products(x);
    inv_mix_2(by_14, by_11, by_13, by_9, twice(key))
}

// As `inv_mix_3` of one block.
#[inline(always)]
fn inv_mix_3(by_14: u8x32, by_11: u8x32, by_13: u8x32, by_9: u8x32, key: u8x32) -> u8x32
    ensures { (s t k : List ℕ) → AreBytes s → AreBytes t → AreBytes k
        → by_14 ≡ map (λ b. inv_linear_nibbles (times 14 (inv_sbox b)))
        (pair (rows_shifted 2 s) (rows_shifted 2 t))
        → by_11 ≡ map (λ b. inv_linear_nibbles (times 11 (inv_sbox b)))
        (pair (rows_shifted 2 s) (rows_shifted 2 t))
        → by_13 ≡ map (λ b. inv_linear_nibbles (times 13 (inv_sbox b)))
        (pair (rows_shifted 2 s) (rows_shifted 2 t))
        → by_9 ≡ map (λ b. inv_linear_nibbles (times 9 (inv_sbox b)))
        (pair (rows_shifted 2 s) (rows_shifted 2 t))
        → key ≡ twice (map inv_affine_nibbles (rows_shifted 3 (columns_raised (inv_mix_columns k))))
        → result ≡ map inv_affine_nibbles (pair
        (rows_shifted 3 (inv_mix_columns (xor_block (inv_sub_bytes (inv_shift_rows s)) k)))
        (rows_shifted 3 (inv_mix_columns (xor_block (inv_sub_bytes (inv_shift_rows t)) k)))) }
{
    let late = by_13
        ^ (by_9 ^ key).swizzle([
            5, 6, 7, 4, 9, 10, 11, 8, 13, 14, 15, 12, 1, 2, 3, 0, 21, 22, 23, 20, 25, 26, 27, 24,
            29, 30, 31, 28, 17, 18, 19, 16,
        ]);
    let middle = by_11
        ^ late.swizzle([
            5, 6, 7, 4, 9, 10, 11, 8, 13, 14, 15, 12, 1, 2, 3, 0, 21, 22, 23, 20, 25, 26, 27, 24,
            29, 30, 31, 28, 17, 18, 19, 16,
        ]);
    by_14
        ^ middle.swizzle([
            5, 6, 7, 4, 9, 10, 11, 8, 13, 14, 15, 12, 1, 2, 3, 0, 21, 22, 23, 20, 25, 26, 27, 24,
            29, 30, 31, 28, 17, 18, 19, 16,
        ])
}

// As `inv_round_3` of one block.
#[inline(always)]
fn inv_round_3(x: u8x32, key: u8x16) -> u8x32
    ensures { (s t w : List ℕ) (n : ℕ) → AreBytes s → AreBytes t
        → x ≡ map inv_affine_nibbles (pair (rows_shifted 2 s) (rows_shifted 2 t))
        → key ≡ map inv_affine_nibbles
        (rows_shifted 3 (columns_raised (inv_mix_columns (round_key w n))))
        → result ≡ map inv_affine_nibbles (pair
        (rows_shifted 3 (inv_mix_columns (add_round_key w n (inv_sub_bytes (inv_shift_rows s)))))
        (rows_shifted 3 (inv_mix_columns (add_round_key w n (inv_sub_bytes (inv_shift_rows t)))))) }
{
    let (by_14, by_11, by_13, by_9) = inv_products(x);
    inv_mix_3(by_14, by_11, by_13, by_9, twice(key))
}

// As `inv_mix_0` of one block.
#[inline(always)]
fn inv_mix_0(by_14: u8x32, by_11: u8x32, by_13: u8x32, by_9: u8x32, key: u8x32) -> u8x32
    ensures { (s t k : List ℕ) → AreBytes s → AreBytes t → AreBytes k
        → by_14 ≡ map (λ b. inv_linear_nibbles (times 14 (inv_sbox b)))
        (pair (rows_shifted 3 s) (rows_shifted 3 t))
        → by_11 ≡ map (λ b. inv_linear_nibbles (times 11 (inv_sbox b)))
        (pair (rows_shifted 3 s) (rows_shifted 3 t))
        → by_13 ≡ map (λ b. inv_linear_nibbles (times 13 (inv_sbox b)))
        (pair (rows_shifted 3 s) (rows_shifted 3 t))
        → by_9 ≡ map (λ b. inv_linear_nibbles (times 9 (inv_sbox b)))
        (pair (rows_shifted 3 s) (rows_shifted 3 t))
        → key ≡ twice (map inv_affine_nibbles (rows_shifted 0 (columns_raised (inv_mix_columns k))))
        → result ≡ map inv_affine_nibbles (pair
        (rows_shifted 0 (inv_mix_columns (xor_block (inv_sub_bytes (inv_shift_rows s)) k)))
        (rows_shifted 0 (inv_mix_columns (xor_block (inv_sub_bytes (inv_shift_rows t)) k)))) }
{
    let late = by_13
        ^ (by_9 ^ key).swizzle([
            1, 2, 3, 0, 5, 6, 7, 4, 9, 10, 11, 8, 13, 14, 15, 12, 17, 18, 19, 16, 21, 22, 23, 20,
            25, 26, 27, 24, 29, 30, 31, 28,
        ]);
    let middle = by_11
        ^ late.swizzle([
            1, 2, 3, 0, 5, 6, 7, 4, 9, 10, 11, 8, 13, 14, 15, 12, 17, 18, 19, 16, 21, 22, 23, 20,
            25, 26, 27, 24, 29, 30, 31, 28,
        ]);
    by_14
        ^ middle.swizzle([
            1, 2, 3, 0, 5, 6, 7, 4, 9, 10, 11, 8, 13, 14, 15, 12, 17, 18, 19, 16, 21, 22, 23, 20,
            25, 26, 27, 24, 29, 30, 31, 28,
        ])
}

// As `inv_round_0` of one block.
#[inline(always)]
fn inv_round_0(x: u8x32, key: u8x16) -> u8x32
    ensures { (s t w : List ℕ) (n : ℕ) → AreBytes s → AreBytes t
        → x ≡ map inv_affine_nibbles (pair (rows_shifted 3 s) (rows_shifted 3 t))
        → key ≡ map inv_affine_nibbles
        (rows_shifted 0 (columns_raised (inv_mix_columns (round_key w n))))
        → result ≡ map inv_affine_nibbles (pair
        (rows_shifted 0 (inv_mix_columns (add_round_key w n (inv_sub_bytes (inv_shift_rows s)))))
        (rows_shifted 0 (inv_mix_columns (add_round_key w n (inv_sub_bytes (inv_shift_rows t)))))) }
{
    let (by_14, by_11, by_13, by_9) = inv_products(x);
    inv_mix_0(by_14, by_11, by_13, by_9, twice(key))
}

// The round that is undone last, whose key is the first.
#[inline(always)]
fn inv_last_round(x: u8x32, key: u8x16) -> u8x32
    ensures { (s t w : List ℕ) → AreBytes s → AreBytes t
        → x ≡ map inv_affine_nibbles (pair (rows_shifted 1 s) (rows_shifted 1 t))
        → key ≡ round_key w 0
        → result ≡ pair (add_round_key w 0 (inv_sub_bytes (inv_shift_rows s)))
        (add_round_key w 0 (inv_sub_bytes (inv_shift_rows t))) }
{
    inv_sub_bytes(x).swizzle([
        0, 9, 2, 11, 4, 13, 6, 15, 8, 1, 10, 3, 12, 5, 14, 7, 16, 25, 18, 27, 20, 29, 22, 31, 24,
        17, 26, 19, 28, 21, 30, 23,
    ]) ^ twice(key)
}

// AddRoundKey with the last round key.
#[inline(always)]
fn inv_start(blocks: u8x32, key: u8x16) -> u8x32
    ensures { (a b w : List ℕ) (n : ℕ) → IsBlock a → IsBlock b
        → blocks ≡ pair a b → key ≡ map inv_linear_nibbles (round_key w n)
        → result ≡ map inv_affine_nibbles (pair (rows_shifted 0 (add_round_key w n a))
        (rows_shifted 0 (add_round_key w n b))) }
{
    undo_affine(blocks) ^ twice(key)
}

// Decrypts two pairs of blocks side by side.
#[inline(always)]
fn decrypt_pairs(keys: &[[u8; 16]; 15], turns: usize, one: u8x32, other: u8x32) -> (u8x32, u8x32)
    requires { turns ≤ 3 }
    ensures one_bytes { AreBytes one }
    ensures other_bytes { AreBytes other }
    ensures first { (w a b : List ℕ) → AreInverseRoundKeys keys.now turns w
        → IsBlock a → IsBlock b → one ≡ pair a b
        → result.0 ≡ pair (inv_cipher w a) (inv_cipher w b) }
    ensures second { (w a b : List ℕ) → AreInverseRoundKeys keys.now turns w
        → IsBlock a → IsBlock b → other ≡ pair a b
        → result.1 ≡ pair (inv_cipher w a) (inv_cipher w b) }
{
    let last = 4 * turns + 2;
    let start = key_at(keys, last);
    let key = key_at(keys, last - 1);
    let mut first = inv_round_1(inv_start(one, start), key);
    let mut second = inv_round_1(inv_start(other, start), key);
    for i in 0..turns {
        let n = 4 * (turns - i);
        let key_2 = key_at(keys, n);
        let first_2 = inv_round_2(first, key_2);
        let second_2 = inv_round_2(second, key_2);
        let key_3 = key_at(keys, n - 1);
        let first_3 = inv_round_3(first_2, key_3);
        let second_3 = inv_round_3(second_2, key_3);
        let key_0 = key_at(keys, n - 2);
        let first_0 = inv_round_0(first_3, key_0);
        let second_0 = inv_round_0(second_3, key_0);
        let key_1 = key_at(keys, n - 3);
        first = inv_round_1(first_0, key_1);
        second = inv_round_1(second_0, key_1);
    }
    let end = key_at(keys, 0);
    (inv_last_round(first, end), inv_last_round(second, end))
}

// The blocks before a pair of a chain, whose state is the first of them.
#[inline(always)]
fn preceding(state: u8x16, blocks: u8x32) -> u8x32
    ensures { (a b : List ℕ) → IsBlock a → IsBlock b → blocks ≡ pair a b
        → result ≡ pair state a }
{
    twice(state).shuffle(
        blocks,
        [
            0, 1, 2, 3, 4, 5, 6, 7, 8, 9, 10, 11, 12, 13, 14, 15, 32, 33, 34, 35, 36, 37, 38, 39,
            40, 41, 42, 43, 44, 45, 46, 47,
        ],
    )
}

// The blocks before a pair of a chain, of which the first ends another pair.
#[inline(always)]
fn between(before: u8x32, blocks: u8x32) -> u8x32
    ensures { (a b c d : List ℕ) → IsBlock a → IsBlock b → IsBlock c → IsBlock d
        → before ≡ pair a b → blocks ≡ pair c d → result ≡ pair b c }
{
    before.shuffle(
        blocks,
        [
            16, 17, 18, 19, 20, 21, 22, 23, 24, 25, 26, 27, 28, 29, 30, 31, 32, 33, 34, 35, 36, 37,
            38, 39, 40, 41, 42, 43, 44, 45, 46, 47,
        ],
    )
}

/// Decrypts four blocks of a chain in place, and gives the last that was there.
#[inline(always)]
pub fn unchain_four(keys: &[[u8; 16]; 15], turns: usize, part: &mut [u8], state: u8x16) -> u8x16
    requires few { turns ≤ 3 }
    requires whole { length part.old ≡ 64 }
    ensures kept { length part.new ≡ 64 }
    ensures bytes { AreBytes part.old }
    ensures last { result ≡ drop 48 part.old }
    ensures written { (w : List ℕ) → AreInverseRoundKeys keys.now turns w
        → part.new ≡ unchained_four w state part.old }
{
    let one = u8x32::from_slice(part);
    let other = u8x32::from_slice(&part[32..]);
    let last = u8x16::from_slice(&part[48..]);
    let (first, second) = decrypt_pairs(keys, turns, one, other);
    (first ^ preceding(state, one)).copy_to_slice(part);
    (second ^ between(one, other)).copy_to_slice(&mut part[32..]);
    last
}
