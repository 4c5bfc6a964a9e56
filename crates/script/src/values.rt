ghost use Rattle.std.specs.Prelude.{◌≡◌, ◌<◌, ◌≤◌, true, IfOk, length};
ghost use Rattle.mnames.specs.Names.{is_name};
ghost use Rattle.mword.specs.Octal.{octal_value};
ghost use Rattle.script.specs.Fields.{decimal_value, number_of};
ghost use Rattle.script.specs.Forms.{ArePools, is_from};
ghost use Rattle.script.specs.Heads.{pools_in};
ghost use Rattle.script.specs.Lines.{number_in, word_in, name_in, who_in, row_in, path_in, mode_in, print_in};
ghost use Rattle.script.specs.Lines.{is_write_in, amount_in, call_in};
ghost use Rattle.script.specs.Readers.{Gives};

use crate::plan::Print;
use crate::refusals::Cause;
use mnames::{Mode, Name, Path, Row, Who, read_name, read_row, read_who};
use mword::{Word, read_octal};

/// The number that 1 to 10 decimal digits stand for.
#[tactic(auto, using(crate::proofs::NumberLaws::number_read, std::proofs::lemmas::Grind::common_steps))]
fn decimal(text: &[u8]) -> Option<u64>
    ensures { result ≡ decimal_value text.now }
{
    if text.is_empty() || text.len() > 10 {
        return None;
    }
    let mut value: u64 = 0;
    for byte in text {
        match byte {
            b'0'..=b'9' => value = value * 10 + u64::from(*byte - b'0'),
            _ => return None,
        }
    }
    Some(value)
}

/// The number that a text is: 1 to 10 decimal digits, leading zeros allowed, of at most 4294967295 (own). `None`
/// exactly where the text is no such number.
#[tactic(auto, unfolding(crate::specs::Fields::number_of))]
pub fn read_number(text: &[u8]) -> Option<u32>
    ensures { result ≡ number_of text.now }
{
    match decimal(text) {
        Some(value) if value <= 4_294_967_295 => Some(value as u32),
        _ => None,
    }
}

/// The number of a field, from low to high.
#[tactic(auto, unfolding(crate::specs::Lines::number_in))]
pub(crate) fn number_in(text: &[u8], low: u32, high: u32) -> Result<u32, Cause>
    ensures number { Gives (λ n. n) result (number_in low high text.now) }
    ensures at_least { IfOk result (λ n. low ≤ n) }
    ensures at_most { IfOk result (λ n. n ≤ high) }
{
    match decimal(text) {
        Some(value) if u64::from(low) <= value && value <= u64::from(high) => Ok(value as u32),
        _ => Err(Cause::Number),
    }
}

/// The places in the pools, of four fields.
#[tactic(auto, unfolding(crate::specs::Heads::pools_in))]
pub(crate) fn pools_in(
    first: &[u8],
    second: &[u8],
    third: &[u8],
    last: &[u8],
) -> Result<[u32; 4], Cause>
    ensures places { Gives (λ p. p) result (pools_in first.now second.now third.now last.now) }
    ensures range { IfOk result ArePools }
{
    let four = number_in(first, 12, 1024)?;
    let sixteen = number_in(second, 1, 1024)?;
    let sixty_four = number_in(third, 1, 1024)?;
    let most = number_in(last, 1, 1024)?;
    if four + sixteen + sixty_four + most <= 1024 {
        Ok([four, sixteen, sixty_four, most])
    } else {
        Err(Cause::Many)
    }
}

/// The word of a field.
pub(crate) fn word_in(text: &[u8]) -> Result<Word, Cause>
    ensures { Gives (λ w. w) result (word_in text.now) }
{
    read_octal(text).ok_or(Cause::Number)
}

/// The entry name of a field.
pub(crate) fn name_in(text: &[u8]) -> Result<Name, Cause>
    ensures name { Gives (λ n. n) result (name_in text.now) }
    ensures form { IfOk result (λ n. is_name n ≡ true) }
{
    read_name(text).ok_or(Cause::Name)
}

/// The principal of a field.
pub(crate) fn who_in(text: &[u8]) -> Result<Who, Cause>
    ensures { Gives (λ w. w) result (who_in text.now) }
{
    read_who(text).ok_or(Cause::Name)
}

/// The row of a field.
pub(crate) fn row_in(text: &[u8]) -> Result<Row, Cause>
    ensures { Gives (λ r. r) result (row_in text.now) }
{
    read_row(text).ok_or(Cause::Name)
}

/// The path of a field.
#[tactic(auto, using(crate::proofs::PathLaws::path_taken, std::proofs::lemmas::Grind::common_steps))]
pub(crate) fn path_in(text: &[u8]) -> Result<Path, Cause>
    ensures { Gives (λ p. p) result (path_in text.now) }
{
    let mut path = Path::default();
    match path.read(text) {
        Ok(()) => Ok(path),
        Err(_) => Err(Cause::Path),
    }
}

/// The mode of a field.
#[tactic(auto, unfolding(crate::specs::Lines::mode_in))]
pub(crate) fn mode_in(text: &[u8]) -> Result<Mode, Cause>
    ensures { Gives (λ m. m) result (mode_in text.now) }
{
    match text {
        b"n" => Ok(Mode::Null),
        b"r" => Ok(Mode::Read),
        b"w" => Ok(Mode::Write),
        b"rw" => Ok(Mode::Both),
        _ => Err(Cause::Name),
    }
}

/// What a listing has, by a field.
#[tactic(auto, unfolding(crate::specs::Lines::print_in))]
pub(crate) fn print_in(text: &[u8]) -> Result<Print, Cause>
    ensures { Gives (λ p. p) result (print_in text.now) }
{
    if text == b"short".as_slice() {
        Ok(Print::Short)
    } else if text == b"replies".as_slice() {
        Ok(Print::Replies)
    } else if text == b"all".as_slice() {
        Ok(Print::All)
    } else {
        Err(Cause::Name)
    }
}

/// Whether the calls of a field are writes; else they are reads.
#[tactic(auto, unfolding(crate::specs::Lines::is_write_in))]
pub(crate) fn is_write_in(text: &[u8]) -> Result<bool, Cause>
    ensures { Gives (λ w. w) result (is_write_in text.now) }
{
    match text {
        b"read" => Ok(false),
        b"write" => Ok(true),
        _ => Err(Cause::Name),
    }
}

/// The amount of a field.
#[tactic(auto, unfolding(crate::specs::Lines::amount_in))]
pub(crate) fn amount_in(text: &[u8]) -> Result<i32, Cause>
    ensures { Gives (λ a. a) result (amount_in text.now) }
{
    match text.split_first() {
        Some((b'+', digits)) => Ok(number_in(digits, 1, 16384)? as i32),
        Some((b'-', digits)) => Ok(-(number_in(digits, 1, 16384)? as i32)),
        _ => Err(Cause::Number),
    }
}

/// The number of a call that fails, and whether all after it do.
#[tactic(auto, unfolding(crate::specs::Lines::call_in))]
pub(crate) fn call_in(text: &[u8]) -> Result<(u32, bool), Cause>
    ensures call { Gives (λ c. c) result (call_in text.now) }
    ensures range { IfOk result (λ c. is_from 1 1000000 c.0 ≡ true) }
{
    match text.split_last() {
        Some((b'+', digits)) => Ok((number_in(digits, 1, 1_000_000)?, true)),
        _ => Ok((number_in(text, 1, 1_000_000)?, false)),
    }
}
