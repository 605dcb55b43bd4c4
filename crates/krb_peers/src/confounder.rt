//! Confounders: the sixteen bytes that come before what a KRB-PRIV encrypts (RFC 3961 section 5.3).

ghost use Rattle.std.specs.Prelude.{◌≡◌, length};
ghost use Rattle.krb_peers.specs.Draws.{word_bytes, after_word, after_words, confounder_at};

use rand_chacha::ChaCha20Rng;
use rand_core::utils::NextWord;

/// The next four words of `draws`, in order, each as four bytes, least significant first.
///
/// The generator is then after these words.
pub fn draw_confounder(draws: &mut ChaCha20Rng) -> [u8; 16]
    ensures bytes { result ≡ confounder_at draws.old 0 }
    ensures after { draws.new ≡ after_words 4 draws.old }
{
    let [a, b, c, d] = draw_word(draws);
    let [e, f, g, h] = draw_word(draws);
    let [i, j, k, l] = draw_word(draws);
    let [m, n, o, p] = draw_word(draws);
    [a, b, c, d, e, f, g, h, i, j, k, l, m, n, o, p]
}

/// The next word.
fn draw_word(draws: &mut ChaCha20Rng) -> [u8; 4]
    ensures len { length result ≡ 4 }
    ensures bytes { result ≡ word_bytes draws.old }
    ensures after { draws.new ≡ after_word draws.old }
{
    draws.next_word().to_le_bytes()
}
