//! CBC of four texts side by side (RFC 3962, section 5).

ghost use Rattle.std.specs.Prelude.{◌≡◌, ◌⊎◌, ℕ, ◌+◌, ◌*◌, ◌<◌, ◌≤◌, ◌++◌, List, length, take, drop, replicate};
ghost use Rattle.krb_base.specs.Bytes.{AreBytes};
ghost use Rattle.krb_aes.specs.Cipher.{cipher};
ghost use Rattle.krb_aes.specs.Stealing.{xor_block, cts};
ghost use Rattle.krb_aes.specs.Chain.{IsChained};
ghost use Rattle.krb_aes.specs.Pairs.{pair};
ghost use Rattle.krb_aes.specs.Rounds.{AreRoundKeys};

use crate::pair_cipher::encrypt_pairs;
use krb_aes::{Schedule, cts_encrypt, encrypt_from};
use std::simd::prelude::*;

// Two blocks in one vector.
#[inline(always)]
fn joined(a: &[u8], b: &[u8]) -> u8x32
    requires first { length a.now ≡ 16 }
    requires second { length b.now ≡ 16 }
    ensures value { result ≡ pair a.now b.now }
    ensures first_bytes { AreBytes a.now }
    ensures second_bytes { AreBytes b.now }
{
    u8x16::from_slice(a).shuffle(
        u8x16::from_slice(b),
        [
            0, 1, 2, 3, 4, 5, 6, 7, 8, 9, 10, 11, 12, 13, 14, 15, 16, 17, 18, 19, 20, 21, 22, 23,
            24, 25, 26, 27, 28, 29, 30, 31,
        ],
    )
}

// Writes the blocks of a vector.
#[inline(always)]
fn write_pair(blocks: u8x32, a: &mut [u8], b: &mut [u8])
    requires first { length a.old ≡ 16 }
    requires second { length b.old ≡ 16 }
    ensures first { a.new ≡ take 16 blocks }
    ensures second { b.new ≡ drop 16 blocks }
{
    blocks.extract::<0, 16>().copy_to_slice(a);
    blocks.extract::<16, 16>().copy_to_slice(b);
}

// Encrypts one block of each of four chains, from the blocks before them, of which each vector has two,
// and gives what was written.
#[inline(always)]
fn chain_four(
    keys: &[[u8; 16]; 15],
    turns: usize,
    a: &mut [u8],
    b: &mut [u8],
    c: &mut [u8],
    d: &mut [u8],
    state: u8x32,
    other: u8x32,
) -> (u8x32, u8x32)
    requires few { turns ≤ 3 }
    requires a { length a.old ≡ 16 }
    requires b { length b.old ≡ 16 }
    requires c { length c.old ≡ 16 }
    requires d { length d.old ≡ 16 }
    ensures a { (w : List ℕ) → AreRoundKeys keys.now turns w
        → take 16 result.0 ≡ cipher w (xor_block a.old (take 16 state)) }
    ensures b { (w : List ℕ) → AreRoundKeys keys.now turns w
        → drop 16 result.0 ≡ cipher w (xor_block b.old (drop 16 state)) }
    ensures c { (w : List ℕ) → AreRoundKeys keys.now turns w
        → take 16 result.1 ≡ cipher w (xor_block c.old (take 16 other)) }
    ensures d { (w : List ℕ) → AreRoundKeys keys.now turns w
        → drop 16 result.1 ≡ cipher w (xor_block d.old (drop 16 other)) }
    ensures a_written { a.new ≡ take 16 result.0 }
    ensures b_written { b.new ≡ drop 16 result.0 }
    ensures c_written { c.new ≡ take 16 result.1 }
    ensures d_written { d.new ≡ drop 16 result.1 }
{
    let (first, second) = encrypt_pairs(keys, turns, joined(a, b) ^ state, joined(c, d) ^ other);
    write_pair(first, a, b);
    write_pair(second, c, d);
    (first, second)
}

// Encrypts so many blocks of each of four texts as chains from zeros, and gives the last of each, of
// which each vector has two. It is the one caller of `chain_four`, so that LLVM puts the rounds into
// its loop and loads their tables once.
#[inline(never)]
fn chain_fronts(
    keys: &[[u8; 16]; 15],
    turns: usize,
    count: usize,
    a: &mut [u8],
    b: &mut [u8],
    c: &mut [u8],
    d: &mut [u8],
) -> (u8x32, u8x32)
    requires few { turns ≤ 3 }
    requires a { length a.old ≡ 16 * count }
    requires b { length b.old ≡ 16 * count }
    requires c { length c.old ≡ 16 * count }
    requires d { length d.old ≡ 16 * count }
    ensures a { (w : List ℕ) → AreRoundKeys keys.now turns w
        → IsChained w (replicate 16 0) a.old a.new (take 16 result.0) }
    ensures b { (w : List ℕ) → AreRoundKeys keys.now turns w
        → IsChained w (replicate 16 0) b.old b.new (drop 16 result.0) }
    ensures c { (w : List ℕ) → AreRoundKeys keys.now turns w
        → IsChained w (replicate 16 0) c.old c.new (take 16 result.1) }
    ensures d { (w : List ℕ) → AreRoundKeys keys.now turns w
        → IsChained w (replicate 16 0) d.old d.new (drop 16 result.1) }
{
    let mut state = u8x32::splat(0);
    let mut other = u8x32::splat(0);
    for i in 0..count {
        let at = 16 * i;
        let (next, other_next) = chain_four(
            keys,
            turns,
            &mut a[at..at + 16],
            &mut b[at..at + 16],
            &mut c[at..at + 16],
            &mut d[at..at + 16],
            state,
            other,
        );
        state = next;
        other = other_next;
    }
    (state, other)
}

// How many blocks of a text are followed by more than one.
fn front_blocks(len: usize) -> usize
    requires { 16 ≤ len }
    ensures { (0 < result) → 16 * result + 16 < len }
{
    ((len - 1) / 16).saturating_sub(1)
}

/// Encrypts four texts of 16 bytes or more in place, each as `cts_encrypt` does (RFC 3962, section 5).
/// As many blocks as the shortest has are encrypted side by side, but for the last two of each text.
pub fn cts_encrypt_four(schedule: &Schedule, a: &mut [u8], b: &mut [u8], c: &mut [u8], d: &mut [u8])
    requires a { 16 ≤ length a.old }
    requires b { 16 ≤ length b.old }
    requires c { 16 ≤ length c.old }
    requires d { 16 ≤ length d.old }
    ensures a { a.new ≡ cts schedule.now a.old }
    ensures b { b.new ≡ cts schedule.now b.old }
    ensures c { c.new ≡ cts schedule.now c.old }
    ensures d { d.new ≡ cts schedule.now d.old }
{
    let first = front_blocks(a.len()).min(front_blocks(b.len()));
    let second = front_blocks(c.len()).min(front_blocks(d.len()));
    let count = first.min(second);
    if count == 0 {
        cts_encrypt(schedule, a);
        cts_encrypt(schedule, b);
        cts_encrypt(schedule, c);
        cts_encrypt(schedule, d);
        return;
    }
    let (keys, turns) = schedule.forward();
    let at = 16 * count;
    let (state, other) = chain_fronts(
        keys,
        turns,
        count,
        &mut a[..at],
        &mut b[..at],
        &mut c[..at],
        &mut d[..at],
    );
    encrypt_from(keys, turns, &mut a[at..], state.extract::<0, 16>());
    encrypt_from(keys, turns, &mut b[at..], state.extract::<16, 16>());
    encrypt_from(keys, turns, &mut c[at..], other.extract::<0, 16>());
    encrypt_from(keys, turns, &mut d[at..], other.extract::<16, 16>());
}
