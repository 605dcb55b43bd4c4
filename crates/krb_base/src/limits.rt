//! The limits of texts, messages, jobs and lanes, and a law that they are those of the definitions.

ghost use Rattle.std.specs.Prelude.{◌≡◌};
ghost use Rattle.krb_base.specs.Limits.{text_limit, user_data_limit, frame_limit, raw_limit, address_limit, last_number};
ghost use Rattle.krb_base.specs.Limits.{lane_limit, capacity_limit, skew_limit, texts_limit, batch_limit, batch_size_limit, entries_limit};

/// The most bytes of a text.
pub const TEXT_LIMIT: usize = 1_000_000;

/// The most bytes of the user data of a message: a text and the byte before it.
pub const USER_DATA_LIMIT: usize = TEXT_LIMIT + 1;

/// The most bytes of a message on the wire, and of the encrypted part of one.
pub const FRAME_LIMIT: usize = 1_005_000;

/// The most bytes of a raw emission of a plan.
pub const RAW_LIMIT: usize = 1_010_000;

/// The most bytes of an address in a job.
pub const ADDRESS_LIMIT: usize = 32;

/// The most lanes of a relay, and senders of a job.
pub const LANE_LIMIT: usize = 8;

/// The most items of a lane, its end counted.
pub const CAPACITY_LIMIT: usize = 64;

/// The most seconds that a message's time may be off: a day.
pub const SKEW_LIMIT: u32 = 86_400;

/// The most texts of a job's sender.
pub const TEXTS_LIMIT: usize = 1_000;

/// The most texts of a batch.
pub const BATCH_LIMIT: usize = 1_000;

/// The most bytes of a batch after its first byte: for each text its length and four.
pub const BATCH_SIZE_LIMIT: usize = 1_000_000;

/// The most timestamps of a job's sender, and the most emissions or frames.
pub const ENTRIES_LIMIT: usize = 2_000;

/// The last sequence number (RFC 4120 section 5.2.4, UInt32). It is kept for the close.
pub const LAST_NUMBER: u64 = 4_294_967_295;

/// A law: the constants are the limits of the definitions. It does nothing when it runs.
pub fn limit_laws()
    ensures text { TEXT_LIMIT ≡ text_limit }
    ensures user_data { USER_DATA_LIMIT ≡ user_data_limit }
    ensures frame { FRAME_LIMIT ≡ frame_limit }
    ensures raw { RAW_LIMIT ≡ raw_limit }
    ensures address { ADDRESS_LIMIT ≡ address_limit }
    ensures lane { LANE_LIMIT ≡ lane_limit }
    ensures capacity { CAPACITY_LIMIT ≡ capacity_limit }
    ensures skew { SKEW_LIMIT ≡ skew_limit }
    ensures texts { TEXTS_LIMIT ≡ texts_limit }
    ensures batch { BATCH_LIMIT ≡ batch_limit }
    ensures batch_size { BATCH_SIZE_LIMIT ≡ batch_size_limit }
    ensures entries { ENTRIES_LIMIT ≡ entries_limit }
    ensures number { LAST_NUMBER ≡ last_number }
{}
