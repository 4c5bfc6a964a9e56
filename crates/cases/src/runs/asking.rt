ghost use Rattle.std.specs.Prelude.{◌≤◌};

use crate::first_word;
use no_memory::NoMemory;
use runner::Words;
use std::alloc::{AllocError, Global};

/// How many bytes are read in one piece, and may be written, where nothing else is asked.
const WIDE: u32 = 65536;

/// Two numbers with a space between.
fn two_numbers(text: &str) -> (u32, u32) {
    let (first, second) = first_word(text);
    (first.parse().unwrap_or(0), second.parse().unwrap_or(0))
}

/// Which processors the gate of a run holds.
#[derive(Clone, Copy)]
pub(crate) enum Holding {
    Nobody,
    /// Two, at certain points.
    Two,
    /// So many, which go in turn.
    Turns(u32),
}

/// What a case asks.
#[derive(Clone, Copy)]
pub(crate) struct Asked<'a> {
    /// The program's words, each in brackets, without the last bracket.
    words: &'a str,
    /// The words of which a line begins with one that is printed; all lines are printed where there are none.
    only: &'a str,
    /// The places of segments whose words are printed, each a uid and an offset with a dot between.
    pub(crate) places: &'a str,
    /// Whether it is told how often the first volume's disk was asked.
    pub(crate) calls: bool,
    /// Of how many bytes the pieces are in which the input is read; 0 for pieces of each size.
    pieces: u32,
    /// The number of the read that fails, counted from 1; 0 for none.
    pub(crate) failing_read: u32,
    /// How many bytes may be written.
    pub(crate) room: u32,
    /// The number of the write that fails; 0 for none.
    pub(crate) failing_write: u32,
    /// The number of the day whose script is the input, if it is one.
    pub(crate) day: Option<u32>,
    /// Which processors are held.
    pub(crate) holding: Holding,
    /// How often the program runs on the input, all of it in one piece; 0 for once in pieces of each size.
    pub(crate) times: u32,
}

impl<'a> Asked<'a> {
    /// What a line asks.
    pub(crate) fn by(line: &'a str) -> Asked<'a> {
        let (words, rest) = line.rsplit_once(']').unwrap_or(("", line));
        let mut asked = Asked {
            words,
            only: "",
            places: "",
            calls: false,
            pieces: 0,
            failing_read: 0,
            room: WIDE,
            failing_write: 0,
            day: None,
            holding: Holding::Nobody,
            times: 0,
        };
        for option in rest.split(';') {
            asked.take(option.trim());
        }
        asked
    }

    /// Takes one more of the options of a line.
    fn take(&mut self, option: &'a str) {
        let (name, rest) = first_word(option);
        match name {
            "only" => self.only = rest,
            "words" => self.places = rest,
            "calls" => self.calls = true,
            "day" => self.day = rest.parse().ok(),
            "hold" => self.holding = Holding::Two,
            "turns" => self.holding = Holding::Turns(rest.parse().unwrap_or(0)),
            "unread" => self.failing_read = 1,
            "reads" => (self.pieces, self.failing_read) = two_numbers(rest),
            "room" => (self.room, self.failing_write) = two_numbers(rest),
            "times" => self.times = rest.parse().unwrap_or(0),
            _ => (),
        }
    }

    /// How often the program runs on the input.
    pub(crate) fn runs(&self) -> u32 {
        if self.times > 0 { self.times } else { 3 }
    }

    /// Of how many bytes the pieces are in which a run reads the input; runs are counted from 0.
    pub(crate) fn piece(&self, run: u32) -> usize
        ensures { 1 ≤ result }
    {
        match run {
            _ if self.pieces > 0 => self.pieces as usize,
            1 if self.times == 0 => 1,
            2 if self.times == 0 => 7,
            _ => WIDE as usize,
        }
    }

    /// The program's words.
    pub(crate) fn words(&self, alloc: Global) -> Result<Words, AllocError> {
        let mut words = Vec::new(alloc);
        for word in self.words.split('[').skip(1) {
            words.push(word.trim_end_matches("] ").as_bytes().to_vec(alloc)?)?;
        }
        Ok(Words::new(words))
    }

    /// The lines of a text that are to be printed.
    pub(crate) fn lines_of(&self, alloc: Global, text: &str) -> Result<String, NoMemory> {
        if self.only.is_empty() {
            return Ok(String::from_str(alloc, text)?);
        }
        let mut lines = String::new(alloc);
        for line in text.lines().filter(|line| self.is_printed(line)) {
            write!(lines, "{line}\n")?;
        }
        Ok(lines)
    }

    /// Whether a line is to be printed.
    fn is_printed(&self, line: &str) -> bool {
        let first = line.split(' ').next().unwrap_or("");
        self.only.split(' ').any(|word| word == first)
    }
}
