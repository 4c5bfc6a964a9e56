ghost use Rattle.std.specs.Prelude.{◌≡◌, ◌↔◌, Some, IsSome, IfOk};
ghost use Rattle.std.specs.String.{string_bytes};
ghost use Rattle.std.specs.Str.{IsUtf8};
ghost use Rattle.mword.specs.Octal.{octal_digits, octal_value, IsOctal};

use crate::NoMemory;
use crate::word::Word;
use std::alloc::Global;
use std::fmt;

/// How many octal digits a word has.
const DIGITS: usize = 12;

/// The octal digits of a word, the highest first.
#[tactic(auto, using(crate::proofs::OctalLaws::digits_of_steps, std::proofs::lemmas::Grind::common_steps))]
fn digits_of(word: Word) -> [u8; 12]
    ensures digits { result ≡ octal_digits 12 word }
    ensures text { IsUtf8 result }
{
    let mut digits = [b'0'; 12];
    let mut rest = word.value();
    for place in (0..12usize).rev() {
        digits[place] = b'0' + (rest % 8) as u8;
        rest /= 8;
    }
    digits
}

/// Twelve octal digits.
impl fmt::Display for Word {
    ghost output = { λ word. Some (octal_digits 12 word) };

    fn fmt<W: fmt::Write>(&self, f: &mut fmt::Formatter<W>) -> fmt::Result {
        let digits = digits_of(*self);
        match std::str::from_utf8(&digits) {
            Ok(text) => f.write_str(text),
            Err(_) => unreachable!(),
        }
    }
}

/// The twelve octal digits of a word. They read back as the word.
#[tactic(auto, using(crate::proofs::OctalLaws::octal_reads_back, std::proofs::lemmas::Grind::common_steps))]
pub fn octal(alloc: Global, w: Word) -> Result<String, NoMemory>
    ensures digits { IfOk result (λ text. string_bytes text ≡ octal_digits 12 w) }
    ensures reads_back { IfOk result (λ text. octal_value (string_bytes text) ≡ Some w) }
{
    Ok(format!(in alloc; "{w}")?)
}

/// The word that a text stands for. `None` exactly where the text isn't 1 to 12 octal digits.
#[tactic(auto, using(crate::proofs::OctalLaws::read_octal_steps, std::proofs::lemmas::Grind::common_steps))]
pub fn read_octal(text: &[u8]) -> Option<Word>
    ensures value { result ≡ octal_value text.now }
    ensures octal { IsSome result ↔ IsOctal text.now }
{
    if text.is_empty() || DIGITS < text.len() {
        return None;
    }
    let mut value = 0;
    for &byte in text {
        match byte {
            b'0'..=b'7' => value = 8 * value + u64::from(byte - b'0'),
            _ => return None,
        }
    }
    Word::new(value)
}
