//! Batches, and their bytes.

ghost use Rattle.std.specs.Prelude.{◌≡◌, ◌↔◌, ◌≤◌, ◌<◌, ◌+◌, ◌^◌, ◌++◌, ◌∷◌, ℕ, List, length, All, IfOk, IfSome, IfNone, IsTrue, OnOk, MatchResult, Some};
ghost use Rattle.std.specs.List.{flat_map};
ghost use Rattle.krb_base.specs.Limits.{batch_size_limit, text_limit, user_data_limit};
ghost use Rattle.krb_record.specs.Batch.{IsBatch, SpellsBatch, text_bytes, texts_size, words_of};
ghost use Rattle.krb_record.specs.Reading.{batch_in};

use crate::texts::Texts;
use krb_base::{BATCH_LIMIT, BATCH_SIZE_LIMIT, Bytes};
use std::alloc::{AllocError, Global};
use std::error::Error;
use std::fmt;

/// The first byte of a batch.
pub const BATCH_BYTE: u8 = 0x42;

/// Why [`read_batch`] gives no batch.
#[derive(Clone, Copy, Debug, PartialEq, Eq)]
pub enum BatchError {
    /// The bytes are those of no batch.
    NoBatch,
    /// Out of memory.
    Memory,
}

impl fmt::Display for BatchError {
    ghost output = { λ error. Some (words_of error) };

    fn fmt<W: fmt::Write>(&self, f: &mut fmt::Formatter<W>) -> fmt::Result {
        match self {
            BatchError::NoBatch => write!(f, "the bytes are no batch"),
            BatchError::Memory => write!(f, "out of memory"),
        }
    }
}

impl Error for BatchError {}

impl From<AllocError> for BatchError {
    ghost use Rattle.krb_record.specs.declared.batch.BatchError.TheVariants.{Memory};

    ghost from_gives = { λ _ e. e ≡ Memory };

    fn from(_: AllocError) -> BatchError {
        BatchError::Memory
    }
}

/// The bytes that `texts` take in a batch.
fn size_of(texts: &[Bytes]) -> usize
    requires { texts_size texts.now ≤ batch_size_limit }
    ensures { result ≡ texts_size texts.now }
{
    let mut size = 0;
    for text in texts {
        size += 4 + text.as_slice().len();
    }
    size
}

/// The bytes of the batch of `texts`, which are its user data.
///
/// The texts are 2 to [`BATCH_LIMIT`], and take at most [`BATCH_SIZE_LIMIT`] bytes, for each text
/// its length and four. The only error is out of memory.
pub fn batch_bytes(alloc: Global, texts: &[Bytes]) -> Result<Vec<u8>, AllocError>
    requires { IsBatch texts.now }
    ensures { IfOk result (λ bytes. SpellsBatch texts.now bytes.items) }
{
    let mut bytes = Vec::with_capacity(alloc, 1 + size_of(texts))?;
    bytes.push(BATCH_BYTE)?;
    for text in texts {
        put_text(&mut bytes, text.as_slice())?;
    }
    Ok(bytes)
}

/// Adds a text: its length, and its bytes.
fn put_text(bytes: &mut Vec<u8>, text: &[u8]) -> Result<(), AllocError>
    requires { length text.now < 2 ^ 32 }
    ensures { OnOk result (bytes.new.items ≡ bytes.old.items ++ text_bytes text.now) }
{
    let len = text.len() as u32;
    bytes.extend_from_slice(&len.to_be_bytes())?;
    bytes.extend_from_slice(text)?;
    Ok(())
}

/// The first text, and what follows it.
fn first_text(bytes: &[u8]) -> Option<(&[u8], &[u8])>
    ensures found { IfSome result (λ found. bytes.now ≡ text_bytes found.0.now ++ found.1.now) }
    ensures small { IfSome result (λ found. length found.0.now < 2 ^ 32) }
    ensures shorter { IfSome result (λ found. length found.1.now < length bytes.now) }
    ensures none { IfNone result ((text rest : List ℕ) → length text < 2 ^ 32
        → ¬ (bytes.now ≡ text_bytes text ++ rest)) }
{
    if bytes.len() < 4 {
        return None;
    }
    let (front, rest) = bytes.split_at(4);
    let len = u32::from_be_bytes([front[0], front[1], front[2], front[3]]) as usize;
    if rest.len() < len {
        return None;
    }
    Some(rest.split_at(len))
}

/// How many texts these bytes are, one after the other, if they are texts.
fn count_texts(bytes: &[u8]) -> Option<usize>
    requires { length bytes.now ≤ batch_size_limit }
    ensures some { IfSome result (λ count. (texts : List (List ℕ))
        × (bytes.now ≡ flat_map text_bytes texts) × (length texts ≡ count)) }
    ensures none { IfNone result ((texts : List (List ℕ))
        → ¬ (bytes.now ≡ flat_map text_bytes texts)) }
{
    let mut rest = bytes;
    let mut count = 0;
    while let Some((_, after)) = first_text(rest) {
        count += 1;
        rest = after;
    }
    if rest.is_empty() { Some(count) } else { None }
}

/// The `count` texts that these bytes are, one after the other.
fn take_texts(alloc: Global, count: usize, bytes: &[u8]) -> Result<Vec<Bytes>, AllocError>
    requires { length bytes.now ≤ batch_size_limit }
    ensures { IfOk result (λ vec. (texts : List (List ℕ))
        → bytes.now ≡ flat_map text_bytes texts → vec.items ≡ texts) }
{
    let mut texts = Vec::with_capacity(alloc, count)?;
    let mut rest = bytes;
    while let Some((text, after)) = first_text(rest) {
        texts.push(Bytes::new(Vec::from_slice(alloc, text)?))?;
        rest = after;
    }
    Ok(texts)
}

/// How many texts a batch has that has these bytes after its first, if there is one.
fn texts_in_batch(body: &[u8]) -> Option<usize>
    ensures some { IfSome result (λ _. (texts : List (List ℕ)) × IsBatch texts
        × (body.now ≡ flat_map text_bytes texts)) }
    ensures short { IfSome result (λ _. length body.now ≤ batch_size_limit) }
    ensures none { IfNone result ((texts : List (List ℕ)) → IsBatch texts
        → ¬ (body.now ≡ flat_map text_bytes texts)) }
{
    if body.len() > BATCH_SIZE_LIMIT {
        return None;
    }
    let count = count_texts(body)?;
    if (2..=BATCH_LIMIT).contains(&count) {
        Some(count)
    } else {
        None
    }
}

/// Whether a batch has these bytes after its first. Nothing is allocated, and the time is linear in
/// the bytes.
pub(crate) fn is_batch_body(body: &[u8]) -> bool
    ensures { IsTrue result ↔ ((texts : List (List ℕ)) × SpellsBatch texts (0x42 ∷ body.now)) }
{
    texts_in_batch(body).is_some()
}

/// What follows the first byte, if that is a batch's.
fn after_tag(bytes: &[u8]) -> Option<&[u8]>
    ensures some { IfSome result (λ rest. bytes.now ≡ 0x42 ∷ rest.now) }
    ensures none { IfNone result ((rest : List ℕ) → ¬ (bytes.now ≡ 0x42 ∷ rest)) }
{
    match bytes.split_first() {
        Some((tag, rest)) if *tag == BATCH_BYTE => Some(rest),
        _ => None,
    }
}

/// How many texts the batch has whose spelling `bytes` is, and their bytes, if it is one's.
fn batch_in(bytes: &[u8]) -> Option<(usize, &[u8])>
    ensures some { IfSome result (λ found. (texts : List (List ℕ)) × SpellsBatch texts bytes.now
        × (found.1.now ≡ flat_map text_bytes texts)) }
    ensures short { IfSome result (λ found. length found.1.now ≤ batch_size_limit) }
    ensures none { IfNone result ((texts : List (List ℕ)) → ¬ SpellsBatch texts bytes.now) }
{
    let rest = after_tag(bytes)?;
    let count = texts_in_batch(rest)?;
    Some((count, rest))
}

/// Whether the bytes are those of a batch. Nothing is allocated, and the time is linear in the bytes.
pub(crate) fn is_batch(bytes: &[u8]) -> bool
    ensures { IsTrue result ↔ ((texts : List (List ℕ)) × SpellsBatch texts bytes.now) }
{
    batch_in(bytes).is_some()
}

/// The texts of the batch whose spelling `bytes` is.
///
/// `NoBatch` is returned if and only if there is none, before any allocation: what a length claims
/// is compared to what follows it. The time is linear in the bytes.
pub fn read_batch(alloc: Global, bytes: &[u8]) -> Result<Texts, BatchError>
    ensures ok { IfOk result (λ texts. SpellsBatch texts bytes.now) }

    // If the bytes are those of a batch, the only error is out of memory.
    ensures only { (texts : List (List ℕ)) → SpellsBatch texts bytes.now
        → MatchResult result (λ got. got ≡ texts) (λ e. e ≡ BatchError.Memory) }
    ensures no_batch { (result ≡ Err BatchError.NoBatch)
        ↔ ((texts : List (List ℕ)) → ¬ SpellsBatch texts bytes.now) }
    ensures memory { result ≡ Err BatchError.Memory
        → (texts : List (List ℕ)) × SpellsBatch texts bytes.now }
{
    let Some((count, rest)) = batch_in(bytes) else {
        return Err(BatchError::NoBatch);
    };
    Ok(Texts::new(take_texts(alloc, count, rest)?))
}

/// The laws of batches.
///
/// Each batch has one spelling (`one_spelling`), and each spelling is of one batch (`one_batch`). A
/// spelling is short enough for a message (`short`), and so is each text of a batch (`texts`). The
/// function `batch_in` finds the batch whose spelling bytes are (`found`).
pub fn batch_laws()
    ensures one_spelling { (texts : List (List ℕ)) (a b : List ℕ)
        → SpellsBatch texts a → SpellsBatch texts b → a ≡ b }
    ensures one_batch { (texts others : List (List ℕ)) (bytes : List ℕ)
        → SpellsBatch texts bytes → SpellsBatch others bytes → texts ≡ others }
    ensures short { (texts : List (List ℕ)) (bytes : List ℕ)
        → SpellsBatch texts bytes → length bytes ≤ user_data_limit }
    ensures texts { (texts : List (List ℕ)) → IsBatch texts
        → All (λ text. length text ≤ text_limit) texts }
    ensures found { (texts : List (List ℕ)) (bytes : List ℕ)
        → SpellsBatch texts bytes ↔ (batch_in bytes ≡ Some texts) }
{}
