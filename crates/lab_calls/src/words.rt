ghost use Rattle.std.specs.Prelude.{◌≡◌, ◌≤◌, IfSome, map};
ghost use Rattle.script.specs.Fields.{number_of};
ghost use Rattle.runner.specs.Words.{within};
ghost use Rattle.lab_calls.specs.Words.{form_of, limit_of, IsInRange};

use crate::SCHEDULE_BYTES;
use runner::SCRIPT_BYTES;
use script::read_number;
use std::marker::Model;

/// The program's arguments, without its name, which need not be text. A contract sees the list of their bytes.
#[derive(Drop)]
pub struct Words {
    words: Vec<Vec<u8>>,
}

impl Model for Words {
    ghost use Rattle.std.specs.Prelude.{List, ℕ, map};

    ghost Value = { List (List ℕ) };

    ghost view = { λ w. map (λ word. word.items) w.words.items };
}

/// What the words ask the program for.
#[derive(Clone, Copy, PartialEq, Eq)]
pub enum Form {
    /// `steps`: a script is run by its schedule, and its listing printed.
    Steps,
    /// `trace`: the same, and each step is printed, with what it was answered and which entries it appended.
    Trace,
    /// `outcomes N SEED`: a script is run by so many schedules, drawn from this seed and those after it, and its
    /// outcomes are printed.
    Outcomes { runs: u32, seed: u32 },
    /// `why`: a script with anybody's listing of it is judged, and of a line at fault it is said why.
    Why,
}

/// The number that a word is, where it is from low to high.
fn number_within(word: &[u8], low: u32, high: u32) -> Option<u32>
    ensures number { result ≡ within low high (number_of word.now) }
    ensures low { IfSome result (λ n. low ≤ n) }
    ensures high { IfSome result (λ n. n ≤ high) }
{
    read_number(word).filter(|number| low <= *number && *number <= high)
}

impl Form {
    /// The most bytes of the input.
    pub(crate) fn limit(self) -> usize
        ensures limit { result ≡ limit_of self }
        ensures most { result ≤ 134217728 }
    {
        match self {
            Form::Steps | Form::Trace | Form::Why => SCHEDULE_BYTES,
            Form::Outcomes { .. } => SCRIPT_BYTES,
        }
    }
}

impl Words {
    /// The arguments of these bytes.
    pub fn new(words: Vec<Vec<u8>>) -> Words
        ensures { result ≡ map (λ word. word.items) words.items }
    {
        Words { words }
    }

    /// What they ask for. `None` where they are no form of the program.
    #[tactic(auto, unfolding(crate::specs::Words::form_of))]
    pub(crate) fn form(&self) -> Option<Form>
        ensures form { result ≡ form_of self.now }
        ensures ranges { IfSome result IsInRange }
    {
        match self.words.as_slice() {
            [word] if word.as_slice() == b"steps".as_slice() => Some(Form::Steps),
            [word] if word.as_slice() == b"trace".as_slice() => Some(Form::Trace),
            [word] if word.as_slice() == b"why".as_slice() => Some(Form::Why),
            [word, runs, seed] if word.as_slice() == b"outcomes".as_slice() => {
                let runs = number_within(runs, 1, 10_000)?;
                let seed = number_within(seed, 0, u32::MAX - (runs - 1))?;
                Some(Form::Outcomes { runs, seed })
            }
            _ => None,
        }
    }
}
