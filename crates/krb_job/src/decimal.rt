//! Decimal numbers with one spelling each.

ghost use Rattle.std.specs.Prelude.{◌≡◌, ◌≤◌, ◌<◌, length, IfSome};
ghost use Rattle.krb_job.specs.Decimal.{digit_of, is_plain, digits_from, decimal_of, negative};
ghost use Rattle.krb_job.specs.Decimal.{not_negative, int32_of};

/// The most digits of a number that is read here.
const MOST_DIGITS: usize = 10;

/// The number of at most `most` digits that the text spells.
pub(crate) fn read_decimal(text: &[u8], most: usize) -> Option<u64>
    requires { most ≤ MOST_DIGITS }
    ensures { result ≡ decimal_of most text.now }
{
    if is_plain(text) && text.len() <= most {
        digits_value(text)
    } else {
        None
    }
}

/// The number from -2147483648 to 2147483647 that the text spells.
pub(crate) fn read_int32(text: &[u8]) -> Option<i32>
    ensures { result ≡ int32_of text.now }
{
    match text {
        [] => None,
        [b'-', digits @ ..] => negative(read_decimal(digits, MOST_DIGITS)?),
        _ => not_negative(read_decimal(text, MOST_DIGITS)?),
    }
}

fn not_negative(number: u64) -> Option<i32>
    ensures { result ≡ not_negative number }
{
    if number < 1 << 31 {
        Some(number as i32)
    } else {
        None
    }
}

fn negative(number: u64) -> Option<i32>
    ensures { result ≡ negative number }
{
    if 1 <= number && number <= 1 << 31 {
        Some((0 - number as i64) as i32)
    } else {
        None
    }
}

fn is_plain(text: &[u8]) -> bool
    ensures { result ≡ is_plain text.now }
{
    match text {
        [] => false,
        [_] => true,
        [first, ..] => *first != b'0',
    }
}

fn digit_of(byte: u8) -> Option<u8>
    ensures value { result ≡ digit_of byte }
    ensures bound { IfSome result (λ digit. digit < 10) }
{
    if b'0' <= byte && byte <= b'9' {
        Some(byte - b'0')
    } else {
        None
    }
}

fn digits_value(text: &[u8]) -> Option<u64>
    requires { length text.now ≤ MOST_DIGITS }
    ensures { result ≡ digits_from 0 text.now }
{
    let mut value = 0u64;
    for byte in text {
        let digit = digit_of(*byte)?;
        value = 10 * value + u64::from(digit);
    }
    Some(value)
}
