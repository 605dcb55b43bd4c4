//! HMAC-SHA1-96 (RFC 3962, section 6) of eight texts at a time, under one key or each under a key of its own.

ghost use Rattle.std.specs.Prelude.{◌≡◌, ℕ, ◌<◌, List, take, slice_index_or};
ghost use Rattle.std.specs.Borrow.{Bor};
ghost use Rattle.krb_digests.specs.Lanes.{message, texts};
ghost use Rattle.krb_keys.specs.Hmac.{hmac, hmac96};
ghost use Rattle.krb_keys.specs.BatchMac.{HoldsBatchKey, IsBatchForgotten};
ghost use Rattle.krb_keys.specs.declared.batch_mac.BatchMac.{BatchMac};

use crate::mac_key::{INNER_PAD, OUTER_PAD, padded_key};
use krb_digests::Prefix;

/// A key for HMAC-SHA1 (RFC 2104) that makes the codes of eight texts at a time: the hash values after
/// both padded keys are kept, as in a [`MacKey`](crate::MacKey).
///
/// Whoever has them can make codes as the holder of the key can. So a `BatchMac` isn't dropped: it ends
/// by `wipe` and then `spend`.
pub struct BatchMac {
    inner: Prefix,
    outer: Prefix,
}

// The first 12 bytes of a code (RFC 3962, section 6).
fn cut(code: &[u8; 20]) -> [u8; 12]
    ensures { result ≡ take 12 code.now }
{
    let mut first = [0u8; 12];
    first.copy_from_slice(&code[..12]);
    first
}

// The same of each code.
fn cut_each(codes: &[[u8; 20]; 8]) -> [[u8; 12]; 8]
    ensures { (j : ℕ) → j < 8 → message j result ≡ take 12 (message j codes.now) }
{
    [
        cut(&codes[0]),
        cut(&codes[1]),
        cut(&codes[2]),
        cut(&codes[3]),
        cut(&codes[4]),
        cut(&codes[5]),
        cut(&codes[6]),
        cut(&codes[7]),
    ]
}

// The hash values after the first padded key of each.
fn inners<'a>(macs: &[&'a BatchMac; 8]) -> [&'a Prefix; 8]
    ensures { (j : ℕ) (none : Bor BatchMac) → j < 8
        → message j (texts result) ≡ (slice_index_or macs.now j none).now.inner }
{
    let [a, b, c, d, e, f, g, h] = *macs;
    [
        &a.inner, &b.inner, &c.inner, &d.inner, &e.inner, &f.inner, &g.inner, &h.inner,
    ]
}

// The hash values after the second padded key of each.
fn outers<'a>(macs: &[&'a BatchMac; 8]) -> [&'a Prefix; 8]
    ensures { (j : ℕ) (none : Bor BatchMac) → j < 8
        → message j (texts result) ≡ (slice_index_or macs.now j none).now.outer }
{
    let [a, b, c, d, e, f, g, h] = *macs;
    [
        &a.outer, &b.outer, &c.outer, &d.outer, &e.outer, &f.outer, &g.outer, &h.outer,
    ]
}

impl BatchMac {
    /// The key `key`, of any length.
    pub fn new(key: &[u8]) -> BatchMac
        ensures { HoldsBatchKey result key.now }
    {
        let (inner, outer) = Prefix::pair(&padded_key(INNER_PAD, key), &padded_key(OUTER_PAD, key));
        BatchMac { inner, outer }
    }

    /// The codes of eight texts, of 20 bytes each.
    fn codes(&self, messages: &[&[u8]; 8]) -> [[u8; 20]; 8]
        ensures { (key : List ℕ) (j : ℕ) → HoldsBatchKey self.now key → j < 8
            → message j result ≡ hmac key (message j (texts messages.now)) }
    {
        let first = self.inner.digests(messages);
        self.outer.digests_of_20(&first)
    }

    /// HMAC-SHA1-96 (RFC 3962, section 6) of eight texts: the first 12 bytes of each code.
    pub fn hmac96(&self, messages: &[&[u8]; 8]) -> [[u8; 12]; 8]
        ensures { (key : List ℕ) (j : ℕ) → HoldsBatchKey self.now key → j < 8
            → message j result ≡ hmac96 key (message j (texts messages.now)) }
    {
        cut_each(&self.codes(messages))
    }

    /// The same of eight texts of which each is under a key of its own.
    pub fn hmac96_under(macs: &[&BatchMac; 8], messages: &[&[u8]; 8]) -> [[u8; 12]; 8]
        ensures { (j : ℕ) (key : List ℕ) (none : Bor BatchMac) → j < 8
            → HoldsBatchKey (slice_index_or macs.now j none).now key
            → message j result ≡ hmac96 key (message j (texts messages.now)) }
    {
        let first = Prefix::digests_after(&inners(macs), messages);
        cut_each(&Prefix::digests_of_20_after(&outers(macs), &first))
    }

    /// Forgets the key.
    pub fn wipe(&mut self)
        ensures { IsBatchForgotten self.new }
    {
        self.inner.wipe();
        self.outer.wipe();
    }

    /// Ends a key that is wiped.
    pub fn spend(self)
        requires { IsBatchForgotten self }
    {
        let BatchMac { inner, outer } = self;
        inner.spend();
        outer.spend();
    }
}
