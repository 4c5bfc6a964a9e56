ghost use Rattle.std.specs.Prelude.{◌≡◌, Some};
ghost use Rattle.script.specs.Causes.{cause_text};

use std::fmt;

/// Why a line of a script is refused (own). Where several hold, `BadChar`, `Order` and `Fields` come first, in this
/// order, then the cause of the first bad field, then `Many`.
#[derive(Clone, Copy, Debug, PartialEq, Eq)]
pub enum Cause {
    /// A byte of the line is no printable ASCII character.
    BadChar,
    /// Its first field is no word that may stand here.
    Order,
    /// It has another number of fields.
    Fields,
    /// A numeric field isn't a number, or is out of its range.
    Number,
    /// A name, a principal, a row of access, a mode or another such word isn't one.
    Name,
    /// A path isn't one.
    Path,
    /// A volume's name was given before, or its fast store.
    Twice,
    /// A volume wasn't given.
    Unknown,
    /// A limit on how many there may be is passed.
    Many,
    /// The script ends where a line must still come.
    Missing,
}

impl Cause {
    /// The word for it.
    #[tactic(auto, unfolding(crate::specs::Causes::cause_text))]
    fn word(&self) -> &'static str
        ensures { result.now ≡ cause_text self.now }
    {
        match self {
            Cause::BadChar => "badchar",
            Cause::Order => "order",
            Cause::Fields => "fields",
            Cause::Number => "number",
            Cause::Name => "name",
            Cause::Path => "path",
            Cause::Twice => "twice",
            Cause::Unknown => "unknown",
            Cause::Many => "many",
            Cause::Missing => "missing",
        }
    }
}

impl fmt::Display for Cause {
    ghost output = { λ c. Some (cause_text c) };

    fn fmt<W: fmt::Write>(&self, f: &mut fmt::Formatter<W>) -> fmt::Result {
        f.write_str(self.word())
    }
}

/// The first line of a script that is refused.
#[derive(Clone, Copy, Debug, PartialEq, Eq)]
pub struct Refusal {
    /// The line's number, counted from 1.
    pub line: u32,
    /// Why.
    pub cause: Cause,
}
