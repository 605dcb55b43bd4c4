//! Records, and their bytes.

ghost use Rattle.std.specs.Prelude.{◌≡◌, ◌≢◌, ◌↔◌, ◌≤◌, ◌∷◌, ℕ, List, length, IfNone, IfOk, IfSome, IsTrue, MatchResult, Some};
ghost use Rattle.krb_base.specs.Limits.{text_limit, user_data_limit};
ghost use Rattle.krb_record.specs.Batch.{SpellsBatch};
ghost use Rattle.krb_record.specs.Record.{FitsLimits, SpellsRecord, bytes_of, code_of, record_for, words_of};
ghost use Rattle.krb_record.specs.Record.{kind_of, kind_of_number, number_of, first_byte_of};

use crate::batch::{BATCH_BYTE, BatchError, batch_bytes, is_batch, is_batch_body, read_batch};
use crate::texts::Texts;
use krb_base::{Bytes, TEXT_LIMIT};
use std::alloc::{AllocError, Global};
use std::error::Error;
use std::fmt;

/// The first byte of a text.
const TEXT_BYTE: u8 = 0x44;

/// The one byte of the close.
const CLOSE_BYTE: u8 = 0x43;

/// What the user data of a relayed message is.
#[derive(Debug, Drop)]
pub enum Record {
    /// A text of at most [`TEXT_LIMIT`] bytes.
    Text(Bytes),
    /// A batch of 2 to 1,000 texts, which take at most 1,000,000 bytes, for each its length and
    /// four.
    Batch(Texts),
    /// The close: no text follows.
    Close,
}

impl Record {
    /// Its kind.
    pub fn kind(&self) -> RecordKind
        ensures { result ≡ kind_of self.now }
    {
        match self {
            Record::Text(_) => RecordKind::Text,
            Record::Batch(_) => RecordKind::Batch,
            Record::Close => RecordKind::Close,
        }
    }
}

/// The kinds of records.
#[derive(Clone, Copy, Debug, PartialEq, Eq)]
pub enum RecordKind {
    /// A text.
    Text,
    /// A batch.
    Batch,
    /// The close.
    Close,
}

impl RecordKind {
    /// The kind of the record that the bytes are, if they are one. Nothing is allocated.
    pub fn of(bytes: &[u8]) -> Option<RecordKind>
        ensures some { IfSome result (λ kind.
            (r : Record) × SpellsRecord r bytes.now × (kind ≡ kind_of r)) }
        ensures none { IfNone result ((r : Record) → ¬ SpellsRecord r bytes.now) }
    {
        if is_text(bytes) {
            return Some(RecordKind::Text);
        }
        if is_close(bytes) {
            return Some(RecordKind::Close);
        }
        if is_batch(bytes) {
            Some(RecordKind::Batch)
        } else {
            None
        }
    }

    /// Whether a record of this kind has these bytes after its first. Nothing is allocated.
    pub fn has(self, body: &[u8]) -> bool
        ensures { IsTrue result ↔ ((r : Record) × (self ≡ kind_of r)
            × SpellsRecord r (first_byte_of self ∷ body.now)) }
    {
        match self {
            RecordKind::Text => body.len() <= TEXT_LIMIT,
            RecordKind::Batch => is_batch_body(body),
            RecordKind::Close => body.is_empty(),
        }
    }

    /// The kind that has this number, if one has it.
    pub fn from_number(number: u32) -> Option<RecordKind>
        ensures { result ≡ kind_of_number number }
    {
        match number {
            1 => Some(RecordKind::Text),
            2 => Some(RecordKind::Batch),
            3 => Some(RecordKind::Close),
            _ => None,
        }
    }

    /// Its number, which C programs use: 1, 2 or 3.
    pub fn number(self) -> u32
        ensures { result ≡ number_of self }
    {
        match self {
            RecordKind::Text => 1,
            RecordKind::Batch => 2,
            RecordKind::Close => 3,
        }
    }

    /// The first byte of its records: 44, 42 or 43 (hexadecimal).
    pub fn first_byte(self) -> u8
        ensures { result ≡ first_byte_of self }
    {
        match self {
            RecordKind::Text => TEXT_BYTE,
            RecordKind::Batch => BATCH_BYTE,
            RecordKind::Close => CLOSE_BYTE,
        }
    }
}

/// Why [`read_record`] gives no record.
#[derive(Clone, Copy, Debug, PartialEq, Eq)]
pub enum RecordError {
    /// The bytes are those of no record.
    BadRecord,
    /// Out of memory.
    Memory,
}

impl RecordError {
    /// The number of this error: 1 or 2.
    pub fn code(&self) -> u32
        ensures { result ≡ code_of self.now }
    {
        match self {
            RecordError::BadRecord => 1,
            RecordError::Memory => 2,
        }
    }
}

impl fmt::Display for RecordError {
    ghost output = { λ error. Some (words_of error) };

    fn fmt<W: fmt::Write>(&self, f: &mut fmt::Formatter<W>) -> fmt::Result {
        match self {
            RecordError::BadRecord => write!(f, "the bytes are no record"),
            RecordError::Memory => write!(f, "out of memory"),
        }
    }
}

impl Error for RecordError {}

impl From<AllocError> for RecordError {
    ghost use Rattle.krb_record.specs.declared.record.RecordError.TheVariants.{Memory};

    ghost from_gives = { λ _ e. e ≡ Memory };

    fn from(_: AllocError) -> RecordError {
        RecordError::Memory
    }
}

/// The bytes of `record`, which are its user data.
///
/// A text has at most [`TEXT_LIMIT`] bytes, and a batch is within the limits of [`Record::Batch`].
/// The only error is out of memory.
pub fn record_bytes(alloc: Global, record: &Record) -> Result<Vec<u8>, AllocError>
    requires { FitsLimits «record».now }
    ensures { IfOk result (λ bytes. SpellsRecord «record».now bytes.items) }
{
    match record {
        Record::Text(text) => text_record(alloc, text.as_slice()),
        Record::Batch(texts) => batch_bytes(alloc, texts.as_slice()),
        Record::Close => close_record(alloc),
    }
}

/// The bytes of the record of texts that go together: a text if it is one, else a batch.
///
/// The record is within its limits. The only error is out of memory.
pub fn group_bytes(alloc: Global, group: &[Bytes]) -> Result<Vec<u8>, AllocError>
    requires { FitsLimits (record_for group.now) }
    ensures { IfOk result (λ bytes. bytes.items ≡ bytes_of (record_for group.now)) }
{
    match group {
        [text] => text_record(alloc, text.as_slice()),
        _ => batch_bytes(alloc, group),
    }
}

/// The bytes of a text, as a record.
fn text_record(alloc: Global, text: &[u8]) -> Result<Vec<u8>, AllocError>
    requires { length text.now ≤ text_limit }
    ensures { IfOk result (λ bytes. bytes.items ≡ bytes_of (Record.Text text.now)) }
{
    let mut bytes = Vec::with_capacity(alloc, 1 + text.len())?;
    bytes.push(TEXT_BYTE)?;
    bytes.extend_from_slice(text)?;
    Ok(bytes)
}

/// The bytes of the close.
fn close_record(alloc: Global) -> Result<Vec<u8>, AllocError>
    ensures { IfOk result (λ bytes. bytes.items ≡ bytes_of Record.Close) }
{
    Vec::from_slice(alloc, &[CLOSE_BYTE])
}

/// The record whose bytes these are.
///
/// `BadRecord` is returned if and only if there is none. The close allocates nothing.
pub fn read_record(alloc: Global, bytes: &[u8]) -> Result<Record, RecordError>
    ensures ok { IfOk result (λ r. SpellsRecord r bytes.now) }

    // If the bytes are those of a record, the only error is out of memory.
    ensures only { (r : Record) → SpellsRecord r bytes.now
        → MatchResult result (λ got. got ≡ r) (λ e. e ≡ RecordError.Memory) }
    ensures bad { (result ≡ Err RecordError.BadRecord) ↔ ((r : Record) → ¬ SpellsRecord r bytes.now) }
    ensures memory { result ≡ Err RecordError.Memory
        → (r : Record) × SpellsRecord r bytes.now × (r ≢ Record.Close) }
{
    let Some((first, rest)) = bytes.split_first() else {
        return Err(RecordError::BadRecord);
    };
    match *first {
        TEXT_BYTE if rest.len() <= TEXT_LIMIT => {
            let text = Vec::from_slice(alloc, rest)?;
            Ok(Record::Text(Bytes::new(text)))
        }
        CLOSE_BYTE if rest.is_empty() => Ok(Record::Close),
        _ => batch_record(alloc, bytes),
    }
}

/// The record whose bytes these are, as [`read_record`] gives it, but a text stays where it lies, and
/// only a batch allocates.
pub fn into_record(alloc: Global, bytes: Bytes) -> Result<Record, RecordError>
    ensures ok { IfOk result (λ r. SpellsRecord r bytes) }

    // If the bytes are those of a record, the only error is out of memory.
    ensures only { (r : Record) → SpellsRecord r bytes
        → MatchResult result (λ got. got ≡ r) (λ e. e ≡ RecordError.Memory) }
    ensures bad { (result ≡ Err RecordError.BadRecord) ↔ ((r : Record) → ¬ SpellsRecord r bytes) }
    ensures memory { result ≡ Err RecordError.Memory
        → (texts : List (List ℕ)) × SpellsBatch texts bytes }
{
    let end = bytes.as_slice().len();
    if is_text(bytes.as_slice()) {
        return Ok(Record::Text(bytes.cut(1, end)));
    }
    read_record(alloc, bytes.as_slice())
}

/// Whether the bytes are those of a text.
fn is_text(bytes: &[u8]) -> bool
    ensures { IsTrue result ↔ ((text : List ℕ) × SpellsRecord (Record.Text text) bytes.now) }
{
    match bytes.split_first() {
        Some((first, rest)) => *first == TEXT_BYTE && rest.len() <= TEXT_LIMIT,
        None => false,
    }
}

/// Whether the bytes are those of the close.
fn is_close(bytes: &[u8]) -> bool
    ensures { IsTrue result ↔ SpellsRecord Record.Close bytes.now }
{
    bytes.len() == 1 && bytes[0] == CLOSE_BYTE
}

/// The batch whose bytes these are, as a record.
fn batch_record(alloc: Global, bytes: &[u8]) -> Result<Record, RecordError>
    ensures ok { IfOk result (λ r. (texts : List (List ℕ))
        × (r ≡ Record.Batch texts) × SpellsBatch texts bytes.now) }
    ensures bad { (result ≡ Err RecordError.BadRecord)
        ↔ ((texts : List (List ℕ)) → ¬ SpellsBatch texts bytes.now) }
    ensures memory { result ≡ Err RecordError.Memory
        → (texts : List (List ℕ)) × SpellsBatch texts bytes.now }
{
    match read_batch(alloc, bytes) {
        Ok(texts) => Ok(Record::Batch(texts)),
        Err(BatchError::NoBatch) => Err(RecordError::BadRecord),
        Err(BatchError::Memory) => Err(RecordError::Memory),
    }
}

/// The laws of records' bytes.
///
/// No bytes are those of two records (`one`), and none are longer than the user data (`short`).
pub fn record_laws()
    ensures one { (bytes : List ℕ) (r s : Record)
        → SpellsRecord r bytes → SpellsRecord s bytes → r ≡ s }
    ensures short { (bytes : List ℕ) (r : Record)
        → SpellsRecord r bytes → length bytes ≤ user_data_limit }
{}
