//! n-fold (RFC 3961, section 5.1): bytes folded to another length.

ghost use Rattle.std.specs.Prelude.{◌≡◌, ℕ, ◌+◌, ◌-◌, ◌*◌, ◌/◌, ◌%◌, ◌^◌, ◌<◌, ◌≤◌, length, slice_index};
ghost use Rattle.krb_keys.specs.Nfold.{number, lcm, IsLcm, nfold};
ghost use Rattle.krb_keys.specs.Stream.{rotated_byte, stream_byte, around};

// Adds `piece` and a carry to `out`, byte by byte from the low end, and gives the carry that is
// left.
fn add_with_carry(out: &mut [u8], piece: &[u8], carry: u16) -> u16
    requires same { length piece.now ≡ length out.old }
    requires one { carry ≤ 1 }
    ensures sum { number out.new + result * 256 ^ length out.old
        ≡ number out.old + number piece.now + carry }
    ensures small { result ≤ 1 }
    ensures fitted { number out.old < 256 ^ length out.old }
    ensures fits { number out.new < 256 ^ length out.old }
{
    let mut left = carry;
    for i in (0..out.len()).rev() {
        let sum = out[i] as u16 + piece[i] as u16 + left;
        out[i] = (sum % 256) as u8;
        left = sum / 256;
    }
    left
}

// Adds `piece` to `out`, and the carry at the low end.
fn add_end_around(out: &mut [u8], piece: &[u8])
    requires same { length piece.now ≡ length out.old }
    requires room { length out.old ≤ 64 }
    ensures { number out.new ≡ around (length out.old) (number out.old + number piece.now) }
{
    let zeros = [0u8; 64];
    let carry = add_with_carry(out, piece, 0);
    let n = out.len();
    let _last = add_with_carry(out, &zeros[..n], carry);
}

// How many repetitions of `len` bytes are the least common multiple of `len` and `n`.
fn repetitions(len: usize, n: usize) -> usize
    requires some { 0 < n }
    requires len_room { len ≤ 64 }
    requires room { n ≤ 64 }
    ensures value { result * len ≡ lcm len n }
    ensures whole { result * len % n ≡ 0 }
    ensures most { result ≤ n }
{
    for m in 1..n {
        if m * len % n == 0 {
            return m;
        }
    }
    n
}

// Byte `j` of `text` rotated right by `r` bits.
fn rotated_byte(text: &[u8], r: usize, j: usize) -> u8
    requires within { j < length text.now }
    requires room { length text.now ≤ 64 }
    ensures { result ≡ rotated_byte text.now r j }
{
    let len = text.len();
    let s = 8 * len - r % (8 * len) + 8 * j;
    let first = text[s / 8 % len] as usize;
    let second = text[(s / 8 + 1) % len] as usize;
    (((first * 256 + second) >> (8 - s % 8)) % 256) as u8
}

// Byte `t` of the repetitions of `text`, each rotated right by 13 bits more than the one before.
fn stream_byte(text: &[u8], t: usize) -> u8
    requires some { 0 < length text.now }
    requires room { length text.now ≤ 64 }
    requires within { t ≤ 4096 }
    ensures { result ≡ stream_byte text.now t }
{
    rotated_byte(text, 13 * (t / text.len()), t % text.len())
}

// Fills `piece` with the repetitions of `text`, from byte `start` on.
fn fill_piece(text: &[u8], start: usize, piece: &mut [u8])
    requires some { 0 < length text.now }
    requires room { length text.now ≤ 64 }
    requires within { start + length piece.old ≤ 4096 }
    ensures { (k : ℕ) → k < length piece.new
        → slice_index piece.new k ≡ stream_byte text.now (start + k) }
{
    for (k, byte) in piece.iter_mut().enumerate() {
        *byte = stream_byte(text, start + k);
    }
}

/// n-fold of RFC 3961 section 5.1: stretches or shrinks `input` to the length of `out`, and
/// overwrites `out` with the result. Both have 1 to 64 bytes; the RFC's n is 8 times the length of
/// `out`.
///
/// The input is repeated up to the least common multiple of both lengths, each repetition rotated
/// right by 13 bits more than the one before. The pieces as long as `out` are added with
/// end-around carry.
pub fn nfold(input: &[u8], out: &mut [u8])
    requires some { 0 < length input.now }
    requires room { length input.now ≤ 64 }
    requires out_some { 0 < length out.old }
    requires out_room { length out.old ≤ 64 }
    ensures { out.new ≡ nfold (length out.old) input.now }
{
    out.fill(0);
    let n = out.len();
    let whole = repetitions(input.len(), n) * input.len();
    for p in 0..whole / n {
        let mut piece = [0u8; 64];
        fill_piece(input, p * n, &mut piece[..n]);
        add_end_around(out, &piece[..n]);
    }
}

/// The law that the length to which n-fold repeats a text is the least common multiple: both
/// lengths divide it, and it divides each number that both divide.
pub fn lcm_law()
    ensures { (a b : ℕ) → 0 < b → IsLcm a b (lcm a b) }
{}
