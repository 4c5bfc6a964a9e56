//! Touches of pages.
ghost use Rattle.std.specs.Prelude.{◌≡◌, ◌<◌};
ghost use Rattle.live_pages.specs.Touches.{touched, answer, place_of};

use mword::{Page, Word};

/// What a touch does with the word at a place of a page.
#[derive(Clone, Copy, PartialEq, Eq)]
pub enum Touch {
    /// Answers the word.
    Get(u32),
    /// Sets the word, and answers it.
    Put(u32, Word),
    /// Sets the sum modulo 2^36, and answers it.
    Add(u32, Word),
}

impl Touch {
    // Touches a page, and answers the word.
    pub(crate) fn apply(&self, page: &mut Page) -> Word
        requires { place_of self.now < 1024 }
        ensures page { page.new ≡ touched self.now page.old }
        ensures word { result ≡ answer self.now page.old }
    {
        match *self {
            Touch::Get(i) => page.get(i),
            Touch::Put(i, word) => {
                page.set(i, word);
                word
            }
            Touch::Add(i, word) => {
                let sum = page.get(i).plus(word);
                page.set(i, sum);
                sum
            }
        }
    }
}

/// What a touch was answered.
#[derive(Clone, Copy, PartialEq, Eq)]
pub struct Touched {
    /// The number of the touch among all touches.
    pub ticket: u64,
    pub word: Word,
}

/// A touch that was made. No value of it is made: it stands in contracts and proofs alone.
pub struct Made {
    pub ticket: u64,
    pub cpu: u32,
    pub frame: u32,
    pub binding: u64,
    pub touch: Touch,
    pub word: u64,
}

/// A binding that has ended. No value of it is made.
pub struct Bound {
    pub frame: u32,
    pub binding: u64,
    /// The page that was handed out at its end.
    pub left: [u64; 0],
    /// The page that the frame's next binding was given.
    pub next: [u64; 0],
}
