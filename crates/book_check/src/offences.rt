ghost use Rattle.std.specs.Prelude.{Some};
ghost use Rattle.book_check.specs.Rules.{rule_text};

use script::{Refusal, ScriptFault};
use std::fmt;

/// What a line of a listing breaks (own). Where several are broken, the first in this order is named.
#[derive(Clone, Copy, Debug, PartialEq, Eq)]
pub enum Rule {
    /// A line before the summary isn't the text of an entry.
    NoEntry,
    /// The flat store doesn't allow the entry at its place.
    NotLegal,
    /// Custody doesn't allow the entry at its place.
    NotClean,
    /// The summary or the end comes before each process has ended.
    Incomplete,
    /// The summary or the end comes while a stored page is all zeros.
    ZeroPage,
    /// A line of the summary is another one than the accounts and the volumes have, is missing, or is one too many.
    WrongSum,
}

impl fmt::Display for Rule {
    ghost output = { λ r. Some (rule_text r) };

    #[tactic(auto, unfolding(crate::specs::Rules::rule_text))]
    fn fmt<W: fmt::Write>(&self, f: &mut fmt::Formatter<W>) -> fmt::Result {
        match self {
            Rule::NoEntry => write!(f, "entry"),
            Rule::NotLegal => write!(f, "legal"),
            Rule::NotClean => write!(f, "clean"),
            Rule::Incomplete => write!(f, "part"),
            Rule::ZeroPage => write!(f, "zeros"),
            Rule::WrongSum => write!(f, "sum"),
        }
    }
}

/// The first line of a listing that is at fault.
#[derive(Clone, Copy, Debug, PartialEq, Eq)]
pub struct Offence {
    /// The line's number, counted from 1 at the first line of the script. The end counts as the line past the last.
    pub line: u32,
    /// What it breaks.
    pub rule: Rule,
}

/// Why a listing wasn't accepted.
#[derive(Clone, Copy, Debug, PartialEq, Eq)]
pub enum CheckFault {
    /// A line of the script is refused.
    Script(Refusal),
    /// A line of the listing is at fault.
    Refused(Offence),
    /// There wasn't enough memory.
    Memory,
}
