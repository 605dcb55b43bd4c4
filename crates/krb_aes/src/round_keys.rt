//! The words of an expanded key in the forms in which the rounds on vectors take them
//! (specs/Rounds.antt).

ghost use Rattle.std.specs.Prelude.{◌≡◌, ℕ, ◌+◌, ◌*◌, ◌/◌, ◌%◌, ◌≤◌, List, length, map};
ghost use Rattle.krb_aes.specs.Cipher.{sub_bytes};
ghost use Rattle.krb_aes.specs.InverseCipher.{inv_mix_columns};
ghost use Rattle.krb_aes.specs.Nibbles.{bare_nibbles, inv_linear_nibbles, inv_affine_nibbles};
ghost use Rattle.krb_aes.specs.Rounds.{rows_shifted, columns_raised, round_key, AreRoundKeys, AreInverseRoundKeys};

use crate::inverse_cipher::inv_round_0;
use crate::inverse_sbox::undo_affine;
use crate::sbox::{bare_sub_bytes, to_nibbles};
use crate::words;
use std::simd::prelude::*;

// The bytes of round key n.
fn key_bytes_at(w: &[u32], n: usize) -> u8x16
    requires { 4 * n + 4 ≤ length w.now }
    ensures { result ≡ round_key w.now n }
{
    u8x16::from_array(words::store([w[4 * n], w[4 * n + 1], w[4 * n + 2], w[4 * n + 3]]))
}

// A round key with its rows as the state's are after round n, that is with ShiftRows done 3 n
// times, and each column raised by one place.
fn arranged(x: u8x16, n: usize) -> u8x16
    ensures { (f : ℕ → ℕ) (s : List ℕ) → x ≡ map f (rows_shifted 0 s)
        → result ≡ map f (rows_shifted (3 * n % 4) (columns_raised s)) }
{
    if n % 4 == 0 {
        return x.swizzle([1, 2, 3, 0, 5, 6, 7, 4, 9, 10, 11, 8, 13, 14, 15, 12]);
    }
    if n % 4 == 1 {
        return x.swizzle([1, 14, 11, 4, 5, 2, 15, 8, 9, 6, 3, 12, 13, 10, 7, 0]);
    }
    if n % 4 == 2 {
        return x.swizzle([1, 10, 3, 8, 5, 14, 7, 12, 9, 2, 11, 0, 13, 6, 15, 4]);
    }
    x.swizzle([1, 6, 11, 12, 5, 10, 15, 0, 9, 14, 3, 4, 13, 2, 7, 8])
}

// The key of a round that mixes.
fn mixing_key(w: &[u32], n: usize) -> u8x16
    requires { 4 * n + 4 ≤ length w.now }
    ensures { result
        ≡ map bare_nibbles (rows_shifted (3 * n % 4) (columns_raised (round_key w.now n))) }
{
    to_nibbles(arranged(key_bytes_at(w, n), n) ^ u8x16::splat(0x63))
}

/// The round keys of an expanded key, for the cipher.
pub fn round_keys(w: &[u32], turns: usize) -> [[u8; 16]; 15]
    requires few { turns ≤ 3 }
    requires size { length w.now / 4 ≡ 4 * turns + 3 }
    ensures { AreRoundKeys result turns w.now }
{
    let last = 4 * turns + 2;
    let mut keys = [[0u8; 16]; 15];
    keys[0] = to_nibbles(key_bytes_at(w, 0)).to_array();
    for n in 1..last {
        keys[n] = mixing_key(w, n).to_array();
    }
    keys[last] = (key_bytes_at(w, last) ^ u8x16::splat(0x63)).to_array();
    keys
}

// SubBytes of round key n.
fn substituted_key(w: &[u32], n: usize) -> u8x16
    requires { 4 * n + 4 ≤ length w.now }
    ensures { result ≡ sub_bytes (round_key w.now n) }
{
    bare_sub_bytes(to_nibbles(key_bytes_at(w, n))) ^ u8x16::splat(0x63)
}

// The key of a round that mixes, mixed back. A round of the inverse cipher with a key of zeros
// undoes SubBytes and mixes back. It undoes ShiftRows too, which is the same as if ShiftRows had
// been done three times before; so it takes `substituted_key` as it is.
fn inverse_key(w: &[u32], n: usize) -> u8x16
    requires { 4 * n + 4 ≤ length w.now }
    ensures { result ≡ map inv_affine_nibbles
        (rows_shifted (3 * (n + 2) % 4) (columns_raised (inv_mix_columns (round_key w.now n)))) }
{
    let mixed = inv_round_0(
        undo_affine(substituted_key(w, n)),
        undo_affine(u8x16::splat(0)),
    );
    arranged(mixed, n + 2)
}

// The last round key, from which the inverse cipher starts.
fn inverse_first_key(w: &[u32], n: usize) -> u8x16
    requires { 4 * n + 4 ≤ length w.now }
    ensures { result ≡ map inv_linear_nibbles (round_key w.now n) }
{
    undo_affine(key_bytes_at(w, n) ^ u8x16::splat(0x63))
}

/// The round keys of an expanded key, for the inverse cipher.
pub fn inverse_round_keys(w: &[u32], turns: usize) -> [[u8; 16]; 15]
    requires few { turns ≤ 3 }
    requires size { length w.now / 4 ≡ 4 * turns + 3 }
    ensures { AreInverseRoundKeys result turns w.now }
{
    let last = 4 * turns + 2;
    let mut keys = [[0u8; 16]; 15];
    keys[0] = key_bytes_at(w, 0).to_array();
    for n in 1..last {
        keys[n] = inverse_key(w, n).to_array();
    }
    keys[last] = inverse_first_key(w, last).to_array();
    keys
}
