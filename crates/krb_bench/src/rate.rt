//! How many of something there are in a second.

/// How many a second, if so many take so many microseconds.
pub(crate) fn rate(count: u128, micros: u128) -> u128 {
    count.saturating_mul(1_000_000) / micros.max(1)
}
