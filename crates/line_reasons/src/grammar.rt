ghost use Rattle.std.specs.Prelude.{◌≡◌, is_some};
ghost use Rattle.line_reasons.specs.Grammar.{numbers_after};
ghost use Rattle.line_reasons.specs.Grammar.{after_first, is_page_or_seg};
ghost use Rattle.line_reasons.specs.Grammar.{after_reply, reads, is_fit, due_after, or_end};
ghost use Rattle.book.specs.Reading.{bare_reply};

use crate::fields::{is_command, is_number, is_number_or_none, is_word};
use book::bare_reply;

/// A word that stands between the numbers of what a segment or a directory is like.
#[derive(Clone, Copy, Debug, PartialEq, Eq)]
pub enum FixedWord {
    /// `length`.
    Length,
    /// `stored`.
    Stored,
    /// `quota`.
    Quota,
    /// `used`.
    Used,
}

/// What the next field of an entry's line is to be, and with it what is to follow.
#[derive(Clone, Copy, Debug, PartialEq, Eq)]
pub(crate) enum Due {
    /// The first word of an entry.
    First,
    /// So many numbers, to the end of the line.
    Numbers(u32),
    /// A process and a command; then a processor, a frame and a reply.
    Command,
    /// The processor of a command.
    Processor,
    /// The frame of a command.
    Frame,
    /// The first word of a reply.
    Reply,
    /// A word of twelve octal digits, at the end.
    Word,
    /// A uid; then these two words, with a number after each.
    Uid(FixedWord, FixedWord),
    /// The first of two words, with a number after each.
    Two(FixedWord, FixedWord),
    /// A number; then this word, with a number after it.
    Count(FixedWord),
    /// This word, with a number after it, at the end.
    One(FixedWord),
    /// A process or none, at the end.
    Process,
    /// `page` and a frame, or `seg` and two numbers.
    Taken,
    /// A processor; then `page` or `seg`, and a number.
    Filler,
    /// `page` or `seg`, and a number.
    Filled,
    /// A processor; then `all`, or `page` or `seg` and a number.
    Dropper,
    /// `all`, or `page` or `seg` and a number.
    Dropped,
}

/// How many numbers an entry has after its first word. `None` where no entry begins so and has only numbers.
#[tactic(auto, unfolding(crate::specs::Grammar::numbers_after))]
fn numbers_after(word: &[u8]) -> Option<u32>
    ensures { result ≡ numbers_after word.now }
{
    if word == b"online".as_slice()
        || word == b"leave".as_slice()
        || word == b"activate".as_slice()
        || word == b"deactivate".as_slice()
        || word == b"lose".as_slice()
        || word == b"take".as_slice()
    {
        Some(1)
    } else if word == b"load".as_slice()
        || word == b"release".as_slice()
        || word == b"cut".as_slice()
    {
        Some(2)
    } else if word == b"in".as_slice()
        || word == b"start".as_slice()
        || word == b"connect".as_slice()
        || word == b"moved".as_slice()
    {
        Some(3)
    } else {
        None
    }
}

/// What follows the first word of an entry. `None` exactly where no entry begins so.
#[tactic(auto, unfolding(crate::specs::Grammar::after_first))]
fn after_first(word: &[u8]) -> Option<Due>
    ensures { result ≡ after_first word.now }
{
    if word == b"do".as_slice() {
        Some(Due::Command)
    } else if word == b"fill".as_slice() {
        Some(Due::Filler)
    } else if word == b"signal".as_slice() || word == b"clear".as_slice() {
        Some(Due::Dropper)
    } else if word == b"gone".as_slice() || word == b"back".as_slice() {
        Some(Due::Taken)
    } else if word == b"fault".as_slice() {
        Some(Due::Process)
    } else {
        match numbers_after(word) {
            Some(count) => Some(Due::Numbers(count)),
            None => None,
        }
    }
}

/// What follows the first word of a reply. `None` exactly where no reply begins so.
#[tactic(auto, unfolding(crate::specs::Grammar::after_reply))]
fn after_reply(word: &[u8]) -> Option<Due>
    ensures { result ≡ after_reply word.now }
{
    if word == b"word".as_slice() {
        Some(Due::Word)
    } else if word == b"made".as_slice()
        || word == b"known".as_slice()
        || word == b"over".as_slice()
    {
        Some(Due::Numbers(1))
    } else if word == b"seg".as_slice() {
        Some(Due::Uid(FixedWord::Length, FixedWord::Stored))
    } else if word == b"dir".as_slice() {
        Some(Due::Uid(FixedWord::Quota, FixedWord::Used))
    } else if bare_reply(word).is_some() {
        Some(Due::Numbers(0))
    } else {
        None
    }
}

/// Whether a field is this word.
#[tactic(auto, unfolding(crate::specs::Grammar::reads))]
fn reads(word: FixedWord, field: &[u8]) -> bool
    ensures { result ≡ reads word field.now }
{
    match word {
        FixedWord::Length => field == b"length".as_slice(),
        FixedWord::Stored => field == b"stored".as_slice(),
        FixedWord::Quota => field == b"quota".as_slice(),
        FixedWord::Used => field == b"used".as_slice(),
    }
}

/// Whether a field is `page` or `seg`.
#[tactic(auto, unfolding(crate::specs::Grammar::is_page_or_seg))]
fn is_page_or_seg(field: &[u8]) -> bool
    ensures { result ≡ is_page_or_seg field.now }
{
    field == b"page".as_slice() || field == b"seg".as_slice()
}

/// Whether a field is what is due.
#[tactic(auto, unfolding(crate::specs::Grammar::is_fit))]
pub(crate) fn is_fit(due: Due, field: &[u8]) -> bool
    ensures { result ≡ is_fit due field.now }
{
    match due {
        Due::First => after_first(field).is_some(),
        Due::Command => is_command(field),
        Due::Frame => is_number_or_none(field),
        Due::Reply => after_reply(field).is_some(),
        Due::Word => is_word(field),
        Due::Two(word, _) => reads(word, field),
        Due::One(word) => reads(word, field),
        Due::Process => is_number_or_none(field),
        Due::Taken => is_page_or_seg(field),
        Due::Filled => is_page_or_seg(field),
        Due::Dropped => field == b"all".as_slice() || is_page_or_seg(field),
        _ => is_number(field),
    }
}

/// What is due after a field that is what was due.
#[tactic(auto, unfolding(crate::specs::Grammar::due_after))]
pub(crate) fn due_after(due: Due, field: &[u8]) -> Due
    ensures { result ≡ due_after due field.now }
{
    match due {
        Due::First => or_end(after_first(field)),
        Due::Numbers(count) => Due::Numbers(count.saturating_sub(1)),
        Due::Command => Due::Processor,
        Due::Processor => Due::Frame,
        Due::Frame => Due::Reply,
        Due::Reply => or_end(after_reply(field)),
        Due::Word => Due::Numbers(0),
        Due::Uid(first, second) => Due::Two(first, second),
        Due::Two(_, second) => Due::Count(second),
        Due::Count(word) => Due::One(word),
        Due::One(_) => Due::Numbers(1),
        Due::Process => Due::Numbers(0),
        Due::Taken if field == b"page".as_slice() => Due::Numbers(1),
        Due::Taken => Due::Numbers(2),
        Due::Filler => Due::Filled,
        Due::Filled => Due::Numbers(1),
        Due::Dropper => Due::Dropped,
        Due::Dropped if field == b"all".as_slice() => Due::Numbers(0),
        Due::Dropped => Due::Numbers(1),
    }
}

/// What is due, or the end of the line where that is nothing.
#[tactic(auto, unfolding(crate::specs::Grammar::or_end))]
fn or_end(due: Option<Due>) -> Due
    ensures { result ≡ or_end due }
{
    match due {
        Some(due) => due,
        None => Due::Numbers(0),
    }
}
