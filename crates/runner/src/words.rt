ghost use Rattle.std.specs.Prelude.{◌≡◌, ◌≤◌, map, IfSome};
ghost use Rattle.script.specs.Fields.{number_of};
ghost use Rattle.runner.specs.Words.{form_of, within, IsInRange};

use live_doors::MOST_CPUS;
use script::read_number;
use std::marker::Model;

/// The program's arguments, without its name, which need not be text. A contract sees the list of their bytes.
#[derive(Drop)]
pub struct Words {
    words: Vec<Vec<u8>>,
}

impl Model for Words {
    ghost use Rattle.std.specs.Prelude.{List, ℕ, map};

    ghost Value = { List (List ℕ) };

    ghost view = { λ w. map (λ word. word.items) w.words.items };
}

/// What the words ask the program for.
#[derive(Clone, Copy, PartialEq, Eq)]
pub enum Form {
    /// `run`: a script is read and run.
    Run,
    /// `check`: a listing is judged against its script.
    Check,
    /// `make N`: the script of the day of this number is printed.
    Make(u32),
    /// `drill P F N SEED`: so many processors make so many adds each in the pages of so many frames, as numbers are
    /// drawn from the seed.
    Drill {
        processors: u32,
        frames: u32,
        adds: u32,
        seed: u32,
    },
}

/// The number that a word is, where it is from low to high.
fn number_within(word: &[u8], low: u32, high: u32) -> Option<u32>
    ensures number { result ≡ within low high (number_of word.now) }
    ensures low { IfSome result (λ n. low ≤ n) }
    ensures high { IfSome result (λ n. n ≤ high) }
{
    read_number(word).filter(|number| low <= *number && *number <= high)
}

impl Words {
    /// The arguments of these bytes.
    pub fn new(words: Vec<Vec<u8>>) -> Words
        ensures { result ≡ map (λ word. word.items) words.items }
    {
        Words { words }
    }

    /// What they ask for. `None` where they are no form of the program.
    #[tactic(auto, unfolding(crate::specs::Words::form_of))]
    pub(crate) fn form(&self) -> Option<Form>
        ensures form { result ≡ form_of self.now }
        ensures ranges { IfSome result IsInRange }
    {
        match self.words.as_slice() {
            [word] if word.as_slice() == b"run".as_slice() => Some(Form::Run),
            [word] if word.as_slice() == b"check".as_slice() => Some(Form::Check),
            [word, number] if word.as_slice() == b"make".as_slice() => {
                Some(Form::Make(read_number(number)?))
            }
            [word, processors, frames, adds, seed] if word.as_slice() == b"drill".as_slice() => {
                Some(Form::Drill {
                    processors: number_within(processors, 1, MOST_CPUS as u32)?,
                    frames: number_within(frames, 4, 64)?,
                    adds: number_within(adds, 1, 10_000)?,
                    seed: read_number(seed)?,
                })
            }
            _ => None,
        }
    }
}
