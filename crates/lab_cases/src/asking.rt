use lab_calls::Words;
use std::alloc::{AllocError, Global};

/// How many bytes may be written, and are read in one piece, where nothing else is asked.
const WIDE: u32 = 1_048_576;

/// The text up to the first space, and what comes after it.
fn first_word(text: &str) -> (&str, &str) {
    text.split_once(' ').unwrap_or((text, ""))
}

/// Two numbers with a space between.
fn two_numbers(text: &str) -> (u32, u32) {
    let (first, second) = first_word(text);
    (first.parse().unwrap_or(0), second.parse().unwrap_or(0))
}

/// What a case asks.
#[derive(Clone, Copy)]
pub(crate) struct Asked<'a> {
    /// The program's words, each in brackets, without the last bracket.
    words: &'a str,
    /// Of how many bytes the pieces are in which the input is read; 0 for pieces of either size.
    pub(crate) pieces: u32,
    /// The number of the read that fails, counted from 1; 0 for none.
    pub(crate) failing_read: u32,
    /// How many bytes may be written.
    pub(crate) room: u32,
    /// The number of the write that fails; 0 for none.
    pub(crate) failing_write: u32,
}

impl<'a> Asked<'a> {
    /// What a line asks.
    pub(crate) fn by(line: &'a str) -> Asked<'a> {
        let (words, rest) = line.rsplit_once(']').unwrap_or(("", line));
        let mut asked = Asked {
            words,
            pieces: 0,
            failing_read: 0,
            room: WIDE,
            failing_write: 0,
        };
        for option in rest.split(';') {
            asked.take(option.trim());
        }
        asked
    }

    /// Takes one more of the options of a line.
    fn take(&mut self, option: &str) {
        let (name, rest) = first_word(option);
        match name {
            "reads" => (self.pieces, self.failing_read) = two_numbers(rest),
            "room" => (self.room, self.failing_write) = two_numbers(rest),
            _ => (),
        }
    }

    /// The program's words.
    pub(crate) fn words(&self, alloc: Global) -> Result<Words, AllocError> {
        let mut words = Vec::new(alloc);
        for word in self.words.split('[').skip(1) {
            words.push(word.trim_end_matches("] ").as_bytes().to_vec(alloc)?)?;
        }
        Ok(Words::new(words))
    }
}
