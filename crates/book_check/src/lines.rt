ghost use Rattle.std.specs.Prelude.{◌≡◌, ◌-◌, ◌<◌, ◌∷◌, length, drop, take};
ghost use Rattle.text_model.specs.Lines.{lines_of};
ghost use Rattle.book_check.specs.Inputs.{after_spaces, are_spaces, is_book, is_summary};

/// Whether a line is one of the summary.
pub fn is_summary(line: &[u8]) -> bool
    ensures { result ≡ is_summary line.now }
{
    match line.first() {
        Some(byte) => *byte == b'>',
        None => false,
    }
}

/// The line from its first byte on that isn't a space.
#[tactic(auto, using(crate::proofs::LineLaws::after_spaces_steps, std::proofs::lemmas::Grind::common_steps))]
fn after_spaces(line: &[u8]) -> &[u8]
    ensures { result.now ≡ after_spaces line.now }
{
    for (i, byte) in line.iter().enumerate() {
        if *byte != b' ' {
            return &line[i..];
        }
    }
    &[]
}

/// Whether each byte is a space.
fn are_spaces(bytes: &[u8]) -> bool
    ensures { result ≡ are_spaces bytes.now }
{
    bytes.iter().all(|byte| *byte == b' ')
}

/// Whether the only field of a line is `book`.
#[tactic(auto, unfolding(crate::specs::Inputs::is_book))]
pub fn is_book(line: &[u8]) -> bool
    ensures { result ≡ is_book line.now }
{
    match after_spaces(line).strip_prefix(b"book".as_slice()) {
        Some(rest) => are_spaces(rest),
        None => false,
    }
}
