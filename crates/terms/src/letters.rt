// Runs of letters.
ghost use Rattle.std.specs.Prelude.{◌≡◌, ℕ, List};
ghost use Rattle.terms.specs.Letters.{letter, WordAt, ReadAt};

// The first letter may be any byte, so that it is no enum.
/// Whether the byte is one of the 26 letters from the first one on.
pub fn is_letter(byte: u8, first: u8) -> bool
    ensures { result ≡ letter first byte }
{
    first <= byte && byte - first <= 25
}

/// The word of letters, from one letter on through the 25 after it, that stands at a place of the text; of more than eight letters the first eight, past the end of the text none.
pub fn word_at(text: &[u8], at: usize, first: u8) -> &[u8]
    ensures word { (w : List ℕ) → WordAt text.now at first w → result.now ≡ w }
    ensures read { ReadAt text.now at first result.now }
{
    let Some(rest) = text.get(at..) else {
        return &[];
    };
    let len = rest
        .iter()
        .take(8)
        .take_while(|byte| is_letter(**byte, first))
        .count();
    &rest[..len]
}
