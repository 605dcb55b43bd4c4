//! Four of a kind, which are worked on side by side.

ghost use Rattle.std.specs.Prelude.{◌≡◌, ℕ};
ghost use Rattle.krb_digests.specs.Lanes.{message};
ghost use Rattle.krb_bulk.specs.Four.{AreFrom};

use krb_etype::CODE_SIZE;

/// Four of a kind, in the order of their messages.
#[derive(Drop)]
pub struct Four<T> {
    pub a: T,
    pub b: T,
    pub c: T,
    pub d: T,
}

/// Eight codes as twice four.
pub fn eight_codes(codes: &[[u8; CODE_SIZE]; 8]) -> (Four<[u8; CODE_SIZE]>, Four<[u8; CODE_SIZE]>)
    ensures first { AreFrom (λ k code. code ≡ message k codes.now) 0 result.0 }
    ensures second { AreFrom (λ k code. code ≡ message k codes.now) 4 result.1 }
{
    let first = Four {
        a: codes[0],
        b: codes[1],
        c: codes[2],
        d: codes[3],
    };
    let second = Four {
        a: codes[4],
        b: codes[5],
        c: codes[6],
        d: codes[7],
    };
    (first, second)
}
