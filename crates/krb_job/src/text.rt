//! Parts of a text.

ghost use Rattle.std.specs.Prelude.{◌≡◌, ◌==◌, option_map};
ghost use Rattle.std.specs.List.{position};
ghost use Rattle.krb_job.specs.Text.{split_at};

/// The text before the first such byte, and the text after it.
pub(crate) fn split_at(byte: u8, text: &[u8]) -> Option<(&[u8], &[u8])>
    ensures { option_map (λ p. (p.0.now, p.1.now)) result ≡ split_at byte text.now }
{
    let i = place_of(byte, text)?;
    Some((&text[..i], &text[i + 1..]))
}

fn place_of(byte: u8, text: &[u8]) -> Option<usize>
    ensures { result ≡ position (λ b. b == byte) text.now }
{
    text.iter().position(|b| *b == byte)
}
