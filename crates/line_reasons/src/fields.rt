ghost use Rattle.std.specs.Prelude.{◌≡◌, ◌==◌, ◌<◌, ◌∷◌, [], length, is_some, IfSome, IfNone, codes};
ghost use Rattle.std.specs.List.{position};
ghost use Rattle.std.specs.Str.{bytes_eq};
ghost use Rattle.script.specs.Fields.{is_printable};
ghost use Rattle.book.specs.Reading.{is_plain, number_of, word_of, dotted_of};
ghost use Rattle.line_reasons.specs.Grammar.{pieces, is_frame};

use mword::{Word, read_octal};
use script::read_number;

/// The place of the first such byte of a text.
fn place_of(byte: u8, text: &[u8]) -> Option<usize>
    ensures { result ≡ position (λ b. b == byte) text.now }
{
    text.iter().position(|b| *b == byte)
}

/// The field before the first space of a line, and what follows that space. `None` exactly where the line has no space.
#[tactic(auto, using(crate::proofs::CutLaws::text_cut, std::proofs::lemmas::Grind::common_steps))]
pub(crate) fn split_piece(line: &[u8]) -> Option<(&[u8], &[u8])>
    ensures some { IfSome result (λ cut. pieces line.now ≡ cut.0.now ∷ pieces cut.1.now) }
    ensures less { IfSome result (λ cut. length cut.1.now < length line.now) }
    ensures none { IfNone result (pieces line.now ≡ line.now ∷ []) }
{
    match place_of(b' ', line) {
        Some(space) => Some((&line[..space], &line[space + 1..])),
        None => None,
    }
}

/// Whether each byte is a printable ASCII character, or a space.
#[tactic(auto, unfolding(script::specs::Fields::is_printable))]
pub(crate) fn is_printable(line: &[u8]) -> bool
    ensures { result ≡ is_printable line.now }
{
    line.iter().all(|byte| 32 <= *byte && *byte <= 126)
}

/// Whether a field has 1 to 10 bytes, and its first is a zero only where it is the only one.
fn is_plain(field: &[u8]) -> bool
    ensures { result ≡ is_plain field.now }
{
    !field.is_empty() && field.len() <= 10 && (field[0] != b'0' || field.len() == 1)
}

/// The number that a field is: decimal digits without a leading zero, of 32 bits.
#[tactic(auto, using(book::proofs::Numbers::plain_number, book::proofs::Numbers::not_plain))]
fn number(field: &[u8]) -> Option<u32>
    ensures { result ≡ number_of field.now }
{
    if is_plain(field) {
        read_number(field)
    } else {
        None
    }
}

/// Whether a field is a number.
pub(crate) fn is_number(field: &[u8]) -> bool
    ensures { result ≡ is_some (number_of field.now) }
{
    number(field).is_some()
}

/// Whether a field is a number, or `-` for none.
#[tactic(auto, unfolding(crate::specs::Grammar::is_frame))]
pub(crate) fn is_number_or_none(field: &[u8]) -> bool
    ensures { result ≡ is_frame field.now }
{
    field == b"-".as_slice() || is_number(field)
}

/// The word that twelve octal digits are.
#[tactic(auto, unfolding(book::specs::Reading::word_of))]
fn octal_word(field: &[u8]) -> Option<Word>
    ensures { result ≡ word_of field.now }
{
    if field.len() == 12 {
        read_octal(field)
    } else {
        None
    }
}

/// Whether a field has twelve octal digits.
pub(crate) fn is_word(field: &[u8]) -> bool
    ensures { result ≡ is_some (word_of field.now) }
{
    octal_word(field).is_some()
}

/// The process and the place of a command.
#[tactic(auto, using(book::proofs::Words::no_dot, std::proofs::lemmas::Grind::common_steps))]
fn dotted(field: &[u8]) -> Option<(u32, u32)>
    ensures { result ≡ dotted_of field.now }
{
    let dot = place_of(b'.', field)?;
    let process = number(&field[..dot])?;
    let place = number(&field[dot + 1..])?;
    Some((process, place))
}

/// Whether a field is two numbers with a dot between them.
pub(crate) fn is_command(field: &[u8]) -> bool
    ensures { result ≡ is_some (dotted_of field.now) }
{
    dotted(field).is_some()
}
