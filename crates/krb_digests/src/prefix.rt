//! Digests of messages that begin with the same block.

ghost use Rattle.std.specs.Prelude.{◌≡◌, ℕ, ◌+◌, ◌<◌, ◌≤◌, List, ◌++◌, length, slice_index};
ghost use Rattle.sha1.specs.Sha1.{digest_bytes, sha1};
ghost use Rattle.krb_digests.specs.Lanes.{lane, message, texts};
ghost use Rattle.krb_digests.specs.Rest.{after_block, rest_block, rest_blocks, wiped_hash};

use crate::blocks::Rest;
use crate::compression::compress;
use std::marker::Model;
use std::simd::u32x8;

// The block that follows the first one where 20 bytes do, with zeros in their place, and then the padding of
// 84 bytes (FIPS 180-4, section 5.1.1): it ends with their number of bits, 672.
const BLOCK_OF_20: [u8; 64] = [
    0, 0, 0, 0, 0, 0, 0, 0, 0, 0, 0, 0, 0, 0, 0, 0, 0, 0, 0, 0, 0x80, 0, 0, 0, 0, 0, 0, 0, 0, 0, 0,
    0, 0, 0, 0, 0, 0, 0, 0, 0, 0, 0, 0, 0, 0, 0, 0, 0, 0, 0, 0, 0, 0, 0, 0, 0, 0, 0, 0, 0, 0, 0,
    0x02, 0xa0,
];

/// How many messages are hashed side by side.
pub const MESSAGES: usize = 8;

// The initial hash value (FIPS 180-4, section 5.3.1).
const INITIAL_HASH: [u32; 5] = [
    0x6745_2301,
    0xefcd_ab89,
    0x98ba_dcfe,
    0x1032_5476,
    0xc3d2_e1f0,
];

/// The hash value after a first block, from which the digests of messages that begin with this block
/// go on.
///
/// HMAC's first block is its padded key (RFC 2104), so whoever has the hash values after both can make
/// codes. So a `Prefix` isn't dropped: it ends by `wipe` and then `spend`.
pub struct Prefix {
    hash: [u32; 5],
}

impl Model for Prefix {
    ghost use Rattle.std.specs.Prelude.{ℕ, List};

    ghost Value = { List ℕ };

    ghost view = { λ a. a.hash };
}

// The same hash value for each message.
fn each(hash: &[u32; 5]) -> [u32x8; 5]
    ensures { (j : ℕ) → j < 8 → lane j result ≡ hash.now }
{
    [
        u32x8::splat(hash[0]),
        u32x8::splat(hash[1]),
        u32x8::splat(hash[2]),
        u32x8::splat(hash[3]),
        u32x8::splat(hash[4]),
    ]
}

// Word `i` of each hash value.
fn word_of_each(hashes: &[[u32; 5]; 8], i: usize) -> u32x8
    requires { i < 5 }
    ensures { (j : ℕ) → j < 8 → slice_index result j ≡ slice_index (message j hashes.now) i }
{
    u32x8::from_array([
        hashes[0][i],
        hashes[1][i],
        hashes[2][i],
        hashes[3][i],
        hashes[4][i],
        hashes[5][i],
        hashes[6][i],
        hashes[7][i],
    ])
}

// A hash value for each message.
fn side_by_side(hashes: &[[u32; 5]; 8]) -> [u32x8; 5]
    requires { (j : ℕ) → j < 8 → length (message j hashes.now) ≡ 5 }
    ensures { (j : ℕ) → j < 8 → lane j result ≡ message j hashes.now }
{
    [
        word_of_each(hashes, 0),
        word_of_each(hashes, 1),
        word_of_each(hashes, 2),
        word_of_each(hashes, 3),
        word_of_each(hashes, 4),
    ]
}

// The hash value of message `j`.
fn hash_of(state: &[u32x8; 5], j: usize) -> [u32; 5]
    requires { j < 8 }
    ensures { result ≡ lane j state.now }
{
    [
        state[0].to_array()[j],
        state[1].to_array()[j],
        state[2].to_array()[j],
        state[3].to_array()[j],
        state[4].to_array()[j],
    ]
}

// The bytes of a hash value.
fn bytes_of(hash: &[u32; 5]) -> [u8; 20]
    ensures { result ≡ digest_bytes hash.now 5 }
{
    let mut bytes = [0u8; 20];
    for i in 0..5 {
        bytes[4 * i..4 * i + 4].copy_from_slice(&hash[i].to_be_bytes());
    }
    bytes
}

// What follows the first block of each message.
fn rests<'a>(messages: &[&'a [u8]; 8]) -> [Rest<'a>; 8]
    ensures { (j : ℕ) → j < 8 → message j result ≡ message j (texts messages.now) }
{
    [
        Rest::new(messages[0]),
        Rest::new(messages[1]),
        Rest::new(messages[2]),
        Rest::new(messages[3]),
        Rest::new(messages[4]),
        Rest::new(messages[5]),
        Rest::new(messages[6]),
        Rest::new(messages[7]),
    ]
}

// Block `n` of each.
fn blocks_at(rests: &[Rest<'_>; 8], n: usize) -> [[u8; 64]; 8]
    ensures { (j : ℕ) → j < 8 → n < rest_blocks (message j rests.now)
        → message j result ≡ rest_block (message j rests.now) n }
{
    [
        rests[0].block(n),
        rests[1].block(n),
        rests[2].block(n),
        rests[3].block(n),
        rests[4].block(n),
        rests[5].block(n),
        rests[6].block(n),
        rests[7].block(n),
    ]
}

// The one block that follows the first where 20 bytes do.
fn block_of_20(bytes: &[u8; 20]) -> [u8; 64]
    ensures one { rest_blocks bytes.now ≡ 1 }
    ensures block { result ≡ rest_block bytes.now 0 }
{
    let mut block = BLOCK_OF_20;
    block[..20].copy_from_slice(bytes);
    block
}

// That of each message.
fn blocks_of_20(messages: &[[u8; 20]; 8]) -> [[u8; 64]; 8]
    ensures one { (j : ℕ) → j < 8 → rest_blocks (message j messages.now) ≡ 1 }
    ensures blocks { (j : ℕ) → j < 8 → message j result ≡ rest_block (message j messages.now) 0 }
{
    [
        block_of_20(&messages[0]),
        block_of_20(&messages[1]),
        block_of_20(&messages[2]),
        block_of_20(&messages[3]),
        block_of_20(&messages[4]),
        block_of_20(&messages[5]),
        block_of_20(&messages[6]),
        block_of_20(&messages[7]),
    ]
}

// The bytes of the hash value of each message.
fn digests_of(state: &[u32x8; 5]) -> [[u8; 20]; 8]
    ensures { (j : ℕ) → j < 8 → message j result ≡ digest_bytes (lane j state.now) 5 }
{
    [
        bytes_of(&hash_of(state, 0)),
        bytes_of(&hash_of(state, 1)),
        bytes_of(&hash_of(state, 2)),
        bytes_of(&hash_of(state, 3)),
        bytes_of(&hash_of(state, 4)),
        bytes_of(&hash_of(state, 5)),
        bytes_of(&hash_of(state, 6)),
        bytes_of(&hash_of(state, 7)),
    ]
}

// How many blocks the longest has.
fn most_blocks(rests: &[Rest<'_>; 8]) -> usize
    ensures { (j : ℕ) → j < 8 → rest_blocks (message j rests.now) ≤ result }
{
    let mut most = 0;
    for rest in rests {
        most = most.max(rest.count());
    }
    most
}

// Notes the digests of the messages that have `n` blocks after the first.
fn note_ended(digests: &mut [[u8; 20]; 8], state: &[u32x8; 5], rests: &[Rest<'_>; 8], n: usize)
    ensures ended { (j : ℕ) → j < 8 → rest_blocks (message j rests.now) ≡ n
        → message j digests.new ≡ digest_bytes (lane j state.now) 5 }
    ensures kept { (j : ℕ) → ¬ (rest_blocks (message j rests.now) ≡ n)
        → message j digests.new ≡ message j digests.old }
{
    for j in 0..8 {
        if rests[j].count() == n {
            digests[j] = bytes_of(&hash_of(state, j));
        }
    }
}

// The digests of eight messages, from the hash values after their first blocks on.
fn digests_from(first: &[u32x8; 5], messages: &[&[u8]; 8]) -> [[u8; 20]; 8]
    ensures { (block : List ℕ) (j : ℕ) → length block ≡ 64 → lane j first.now ≡ after_block block
        → j < 8 → message j result ≡ sha1 (block ++ message j (texts messages.now)) }
{
    let rests = rests(messages);
    let mut state = *first;
    let mut digests = [[0u8; 20]; 8];
    for n in 0..most_blocks(&rests) {
        compress(&mut state, &blocks_at(&rests, n));
        note_ended(&mut digests, &state, &rests, n + 1);
    }
    digests
}

// The same where 20 bytes follow the first block of each.
fn digests_of_20_from(first: &[u32x8; 5], messages: &[[u8; 20]; 8]) -> [[u8; 20]; 8]
    ensures { (block : List ℕ) (j : ℕ) → length block ≡ 64 → lane j first.now ≡ after_block block
        → j < 8 → message j result ≡ sha1 (block ++ message j messages.now) }
{
    let mut state = *first;
    compress(&mut state, &blocks_of_20(messages));
    digests_of(&state)
}

// The hash values after the first blocks.
fn hashes_of(prefixes: &[&Prefix; 8]) -> [[u32; 5]; 8]
    ensures words { (j : ℕ) → j < 8 → length (message j result) ≡ 5 }
    ensures each { (j : ℕ) → j < 8 → message j result ≡ message j (texts prefixes.now) }
{
    [
        prefixes[0].hash(),
        prefixes[1].hash(),
        prefixes[2].hash(),
        prefixes[3].hash(),
        prefixes[4].hash(),
        prefixes[5].hash(),
        prefixes[6].hash(),
        prefixes[7].hash(),
    ]
}

impl Prefix {
    /// The hash values after two blocks, as HMAC has two.
    pub fn pair(first: &[u8; 64], second: &[u8; 64]) -> (Prefix, Prefix)
        ensures first { result.0 ≡ after_block first.now }
        ensures second { result.1 ≡ after_block second.now }
    {
        let mut blocks = [*first; 8];
        blocks[1] = *second;
        let mut state = each(&INITIAL_HASH);
        compress(&mut state, &blocks);
        let (first, second) = (hash_of(&state, 0), hash_of(&state, 1));
        (Prefix { hash: first }, Prefix { hash: second })
    }

    // The hash value after the first block.
    fn hash(&self) -> [u32; 5]
        ensures words { length result ≡ 5 }
        ensures hash { result ≡ self.now }
    {
        self.hash
    }

    /// The digests of eight messages, of which each is the block followed by its bytes.
    pub fn digests(&self, messages: &[&[u8]; 8]) -> [[u8; 20]; 8]
        ensures { (block : List ℕ) (j : ℕ) → length block ≡ 64 → self.now ≡ after_block block → j < 8
            → message j result ≡ sha1 (block ++ message j (texts messages.now)) }
    {
        digests_from(&each(&self.hash), messages)
    }

    /// The same of messages of which each is the block followed by 20 bytes, as the digests are that HMAC hashes last.
    pub fn digests_of_20(&self, messages: &[[u8; 20]; 8]) -> [[u8; 20]; 8]
        ensures { (block : List ℕ) (j : ℕ) → length block ≡ 64 → self.now ≡ after_block block → j < 8
            → message j result ≡ sha1 (block ++ message j messages.now) }
    {
        digests_of_20_from(&each(&self.hash), messages)
    }

    /// The digests of eight messages that begin with blocks of their own: each is its block followed by its
    /// bytes.
    pub fn digests_after(prefixes: &[&Prefix; 8], messages: &[&[u8]; 8]) -> [[u8; 20]; 8]
        ensures { (block : List ℕ) (j : ℕ) → length block ≡ 64
            → message j (texts prefixes.now) ≡ after_block block → j < 8
            → message j result ≡ sha1 (block ++ message j (texts messages.now)) }
    {
        digests_from(&side_by_side(&hashes_of(prefixes)), messages)
    }

    /// The same of messages of which each is its block followed by 20 bytes.
    pub fn digests_of_20_after(prefixes: &[&Prefix; 8], messages: &[[u8; 20]; 8]) -> [[u8; 20]; 8]
        ensures { (block : List ℕ) (j : ℕ) → length block ≡ 64
            → message j (texts prefixes.now) ≡ after_block block → j < 8
            → message j result ≡ sha1 (block ++ message j messages.now) }
    {
        digests_of_20_from(&side_by_side(&hashes_of(prefixes)), messages)
    }

    /// Overwrites the hash value with zeros.
    pub fn wipe(&mut self)
        ensures { self.new ≡ wiped_hash }
    {
        self.hash = [0; 5];
    }

    /// Ends a prefix, which has to be wiped.
    pub fn spend(self)
        requires { self ≡ wiped_hash }
    {
        let Prefix { hash: _ } = self;
    }
}
