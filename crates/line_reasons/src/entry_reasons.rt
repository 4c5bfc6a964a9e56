ghost use Rattle.std.specs.Prelude.{◌≡◌, ◌-◌, ◌<◌, ◌^◌, length, Some};
ghost use Rattle.line_reasons.specs.Grammar.{pieces};
ghost use Rattle.line_reasons.specs.Reasons.{fault_at, unfit, missing, is_end, last_fault, reason_from, reason_of};
ghost use Rattle.line_reasons.specs.Reasons.{entry_reason_text, fixed_text};
ghost use Rattle.line_reasons.specs.declared.grammar.Due.TheVariants as due;

use crate::fields::{is_printable, split_piece};
use crate::grammar::{Due, FixedWord, due_after, is_fit};
use std::fmt;

/// Why a line is no entry's text. Fields are counted from 1, with a single space between each two.
#[derive(Clone, Copy, Debug, PartialEq, Eq)]
pub enum EntryReason {
    /// A byte is neither a printable ASCII character nor a space.
    OutsideByte,
    /// The line has no byte.
    NoByte,
    /// A field that is wanted isn't there.
    Missing(u32),
    /// A field has no byte.
    EmptyField(u32),
    /// No entry begins with the first field.
    FirstWord,
    /// A field isn't a number of 32 bits, without leading zeros.
    Number(u32),
    /// Field 2 isn't a process and a command.
    Command,
    /// Field 4 is neither a number nor `-`.
    Frame,
    /// No reply begins with field 5.
    ReplyWord,
    /// Field 6 hasn't twelve octal digits.
    OctalWord,
    /// A field isn't the word that it is to be.
    OtherWord(u32, FixedWord),
    /// Field 2 is neither a number nor `-`.
    Process,
    /// A field is neither `page` nor `seg`.
    PageOrSeg(u32),
    /// Field 3 is none of `all`, `page` and `seg`.
    AllPageOrSeg,
    /// A field comes after the last that is wanted.
    TooMany(u32),
}

impl fmt::Display for FixedWord {
    ghost output = { λ w. Some (fixed_text w) };

    #[tactic(auto, unfolding(crate::specs::Reasons::fixed_text))]
    fn fmt<W: fmt::Write>(&self, f: &mut fmt::Formatter<W>) -> fmt::Result {
        match self {
            FixedWord::Length => write!(f, "length"),
            FixedWord::Stored => write!(f, "stored"),
            FixedWord::Quota => write!(f, "quota"),
            FixedWord::Used => write!(f, "used"),
        }
    }
}

impl fmt::Display for EntryReason {
    ghost output = { λ r. Some (entry_reason_text r) };

    #[tactic(auto, unfolding(crate::specs::Reasons::entry_reason_text, crate::specs::Reasons::fixed_text))]
    fn fmt<W: fmt::Write>(&self, f: &mut fmt::Formatter<W>) -> fmt::Result {
        match self {
            EntryReason::OutsideByte => write!(f, "a byte of the line is outside 0x20 to 0x7E"),
            EntryReason::NoByte => write!(f, "the line is empty"),
            EntryReason::Missing(n) => write!(f, "field {n} is missing"),
            EntryReason::EmptyField(n) => write!(f, "field {n} is empty"),
            EntryReason::FirstWord => write!(f, "field 1 isn't the first word of an entry"),
            EntryReason::Number(n) => {
                write!(
                    f,
                    "field {n} isn't a number from 0 to 4294967295 without leading zeros"
                )
            }
            EntryReason::Command => {
                write!(
                    f,
                    "field 2 isn't a process and a command, two such numbers with a point between"
                )
            }
            EntryReason::Frame => write!(f, "field 4 is neither a frame's number nor -"),
            EntryReason::ReplyWord => write!(f, "field 5 isn't the first word of a reply"),
            EntryReason::OctalWord => write!(f, "field 6 isn't a word of 12 octal digits"),
            EntryReason::OtherWord(n, word) => write!(f, "field {n} should read {word}"),
            EntryReason::Process => write!(f, "field 2 is neither a process's number nor -"),
            EntryReason::PageOrSeg(n) => write!(f, "field {n} is neither page nor seg"),
            EntryReason::AllPageOrSeg => write!(f, "field 3 is none of all, page and seg"),
            EntryReason::TooMany(n) => write!(f, "field {n} is one too many"),
        }
    }
}

/// Why a field isn't what is due, where it isn't.
#[tactic(auto, unfolding(crate::specs::Reasons::unfit))]
fn unfit(n: u32, due: Due) -> EntryReason
    ensures { result ≡ unfit n due }
{
    match due {
        Due::First => EntryReason::FirstWord,
        Due::Command => EntryReason::Command,
        Due::Frame => EntryReason::Frame,
        Due::Reply => EntryReason::ReplyWord,
        Due::Word => EntryReason::OctalWord,
        Due::Two(word, _) => EntryReason::OtherWord(n, word),
        Due::One(word) => EntryReason::OtherWord(n, word),
        Due::Process => EntryReason::Process,
        Due::Taken => EntryReason::PageOrSeg(n),
        Due::Filled => EntryReason::PageOrSeg(n),
        Due::Dropped => EntryReason::AllPageOrSeg,
        _ => EntryReason::Number(n),
    }
}

/// What is wrong with field number n, where this is due there.
#[tactic(auto, unfolding(crate::specs::Reasons::fault_at))]
fn fault_at(n: u32, due: Due, field: &[u8]) -> Option<EntryReason>
    ensures { result ≡ fault_at n due field.now }
{
    if field.is_empty() {
        Some(EntryReason::EmptyField(n))
    } else if is_end(due) {
        Some(EntryReason::TooMany(n))
    } else if is_fit(due, field) {
        None
    } else {
        Some(unfit(n, due))
    }
}

/// Whether no field is due.
#[tactic(auto, unfolding(crate::specs::Reasons::is_end))]
fn is_end(due: Due) -> bool
    ensures { result ≡ is_end due }
{
    match due {
        Due::Numbers(count) => count == 0,
        _ => false,
    }
}

/// What is wrong where the line ends before field number n.
#[tactic(auto, unfolding(crate::specs::Reasons::missing))]
fn missing(n: u32, due: Due) -> Option<EntryReason>
    ensures { result ≡ missing n due }
{
    if is_end(due) {
        None
    } else {
        Some(EntryReason::Missing(n))
    }
}

/// What is wrong with the last field of a line, which has number n, or with the end after it.
#[tactic(auto, unfolding(crate::specs::Reasons::last_fault))]
fn last_fault(n: u32, due: Due, field: &[u8]) -> Option<EntryReason>
    requires { n < 2 ^ 32 - 1 }
    ensures { result ≡ last_fault n due field.now }
{
    match fault_at(n, due, field) {
        Some(reason) => Some(reason),
        None => missing(n + 1, due_after(due, field)),
    }
}

/// The first field at fault.
#[tactic(auto, using(crate::proofs::ReasonLaws::reason_steps, std::proofs::lemmas::Grind::common_steps))]
fn field_fault(line: &[u8]) -> Option<EntryReason>
    requires { length line.now < 2 ^ 31 }
    ensures { result ≡ reason_from 1 due.First (pieces line.now) }
{
    let mut due = Due::First;
    let mut n = 1;
    let mut rest = line;
    while let Some((field, more)) = split_piece(rest) {
        if let Some(reason) = fault_at(n, due, field) {
            return Some(reason);
        }
        due = due_after(due, field);
        n += 1;
        rest = more;
    }
    last_fault(n, due, rest)
}

/// Why a line, without its line feed, is no entry's text: its first field at fault, read from left to right. `None`
/// where no field is. It takes no memory.
#[tactic(auto, unfolding(crate::specs::Reasons::reason_of))]
pub fn why_no_entry(line: &[u8]) -> Option<EntryReason>
    requires { length line.now < 2 ^ 31 }
    ensures { result ≡ reason_of line.now }
{
    if !is_printable(line) {
        return Some(EntryReason::OutsideByte);
    }
    if line.is_empty() {
        return Some(EntryReason::NoByte);
    }
    field_fault(line)
}
