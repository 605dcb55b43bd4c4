//! The lengths of elements (X.690 sections 8.1.3 and 10.1).

ghost use Rattle.std.specs.Prelude.{◌≡◌, ◌≤◌, length};
ghost use Rattle.krb_tlv.specs.Length.{length_octets};
ghost use Rattle.krb_tlv.specs.Reading.{Finds, be_value, wide_length_at, length_at};

/// The number that at most five octets are, the most significant first.
pub fn be_number(octets: &[u8]) -> u64
    requires { length octets.now ≤ 5 }
    ensures { result ≡ be_value octets.now }
{
    let mut number = 0;
    for octet in octets {
        number = number * 0x100 + u64::from(*octet);
    }
    number
}

/// A length of `count` octets that no shorter form has, and what follows it.
fn wide_length(count: usize, least: u64, octets: &[u8]) -> Option<(u64, &[u8])>
    requires { count ≤ 5 }
    ensures { Finds (λ x. (x.0, x.1.now)) result (wide_length_at count least octets.now) }
{
    if octets.len() < count {
        return None;
    }
    let (front, rest) = octets.split_at(count);
    let n = be_number(front);
    if n < least {
        return None;
    }
    Some((n, rest))
}

/// The length at the beginning, in its shortest form, and what follows it.
#[tactic(auto, unfolding(crate::specs::Reading::length_at))]
pub fn read_length(octets: &[u8]) -> Option<(u64, &[u8])>
    ensures { Finds (λ x. (x.0, x.1.now)) result (length_at octets.now) }
{
    match octets {
        [] => None,
        [first, rest @ ..] => {
            if *first < 128 {
                return Some((u64::from(*first), rest));
            }
            match *first {
                0x81 => wide_length(1, 128, rest),
                0x82 => wide_length(2, 256, rest),
                0x83 => wide_length(3, 65536, rest),
                _ => None,
            }
        }
    }
}

/// How many octets the length has.
#[tactic(auto, unfolding(crate::specs::Length::length_octets))]
pub fn length_size(n: usize) -> usize
    ensures value { result ≡ length (length_octets n) }
    ensures bound { result ≤ 4 }
{
    if n < 128 {
        1
    } else if n < 256 {
        2
    } else if n < 65536 {
        3
    } else {
        4
    }
}
