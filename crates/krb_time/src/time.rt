//! KerberosTime (RFC 4120 section 5.2.3): the fifteen bytes YYYYMMDDHHMMSSZ of a second.

ghost use Rattle.std.specs.Prelude.{◌≡◌, ◌↔◌, ◌<◌, ◌≤◌, ◌*◌, ℕ, List, pos, Some, IfSome, option_map};
ghost use Rattle.jiff.specs.Words.{civil_nanos};
ghost use Rattle.krb_time.specs.Reading;
ghost use Rattle.krb_time.specs.Time;
ghost use Rattle.krb_time.specs.Reading.{pair_of, time_of};
ghost use Rattle.krb_time.specs.Time.{last_second, IsKerberosTime, NamesSameTime};

use jiff::civil::{DateTime, datetime};
use std::time::Duration;

/// The last second whose year has four digits, 9999-12-31T23:59:59Z.
pub const LAST_SECOND: u64 = 253_402_300_799;

/// 1970-01-01T00:00:00, from which seconds are counted.
fn epoch() -> DateTime
    ensures { civil_nanos result ≡ pos 0 }
{
    datetime(1970, 1, 1, 0, 0, 0, 0)
}

/// The date and the time of day of a second.
fn civil(secs: u64) -> DateTime
    requires { secs ≤ last_second }
    ensures { civil_nanos result ≡ pos (1_000_000_000 * secs) }
{
    epoch() + Duration::from_secs(secs)
}

/// The last decimal digit of a number.
fn digit(n: u16) -> u8
    ensures { result ≡ Time.digit n }
{
    b'0' + (n % 10) as u8
}

/// The text of a second, counted from 1970-01-01T00:00:00Z: the digits of its year, month, day,
/// hour, minute and second in UTC, and a `Z` (RFC 4120 section 5.2.3).
pub fn kerberos_time(secs: u64) -> [u8; 15]
    requires { secs ≤ last_second }
    ensures { result ≡ Time.kerberos_time secs }
{
    let at = civil(secs);
    let year = at.year() as u16;
    let (month, day) = (at.month() as u16, at.day() as u16);
    let (hour, minute, second) = (at.hour() as u16, at.minute() as u16, at.second() as u16);
    [
        digit(year / 1000),
        digit(year / 100),
        digit(year / 10),
        digit(year),
        digit(month / 10),
        digit(month),
        digit(day / 10),
        digit(day),
        digit(hour / 10),
        digit(hour),
        digit(minute / 10),
        digit(minute),
        digit(second / 10),
        digit(second),
        b'Z',
    ]
}

/// The number that two digits write, and what follows them.
#[tactic(auto, unfolding(crate::specs::Reading::pair_of))]
fn pair(text: &[u8]) -> Option<(u8, &[u8])>
    ensures gives { option_map (λ x. (x.0, x.1.now)) result ≡ pair_of text.now }
    ensures below { IfSome result (λ x. x.0 < 100) }
{
    match text {
        [tens, units, rest @ ..] if tens.is_ascii_digit() && units.is_ascii_digit() => {
            Some((10 * (*tens - b'0') + (*units - b'0'), rest))
        }
        _ => None,
    }
}

/// Whether nothing is left but the `Z`.
fn is_zulu(rest: &[u8]) -> bool
    ensures { result ≡ Reading.is_zulu rest.now }
{
    matches!(rest, [b'Z'])
}

/// The second that a date and a time of day name, from 1970 on.
fn second_of(year: u16, month: u8, day: u8, hour: u8, minute: u8, second: u8) -> Option<u64>
    requires year { year < 10_000 }
    requires month { month < 100 }
    requires day { day < 100 }
    requires hour { hour < 100 }
    requires minute { minute < 100 }
    requires second { second < 100 }
    ensures { result ≡ Reading.second_of year month day hour minute second }
{
    if year < 1970 {
        return None;
    }
    let at = DateTime::new(
        year as i16,
        month as i8,
        day as i8,
        hour as i8,
        minute as i8,
        second as i8,
        0,
    )
    .ok()?;
    Some(at.duration_since(epoch()).as_secs() as u64)
}

/// The second that a text names.
#[tactic(auto, unfolding(crate::specs::Reading::time_of))]
fn time_at(text: &[u8]) -> Option<u64>
    ensures { result ≡ time_of text.now }
{
    let (century, rest) = pair(text)?;
    let (year, rest) = pair(rest)?;
    let (month, rest) = pair(rest)?;
    let (day, rest) = pair(rest)?;
    let (hour, rest) = pair(rest)?;
    let (minute, rest) = pair(rest)?;
    let (second, rest) = pair(rest)?;
    if !is_zulu(rest) {
        return None;
    }
    second_of(
        100 * u16::from(century) + u16::from(year),
        month,
        day,
        hour,
        minute,
        second,
    )
}

/// The second whose [`kerberos_time`] this text is. The result is `None` for any other text: one of
/// another length or form, a date that the calendar doesn't have, a year before 1970, a second 60.
pub fn read_kerberos_time(text: &[u8]) -> Option<u64>
    ensures { (s : ℕ) → (result ≡ Some s) ↔ IsKerberosTime s text.now }
{
    time_at(text)
}

/// A law, which does nothing when it runs: a text is the KerberosTime of a second if and only if
/// both name the same date of the calendar and time of day, in the years 1970 to 9999.
pub fn kerberos_time_names_its_second()
    ensures { (s : ℕ) (text : List ℕ) → IsKerberosTime s text ↔ NamesSameTime s text }
{}
