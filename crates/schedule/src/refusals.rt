ghost use Rattle.std.specs.Prelude.{◌≡◌, Some};
ghost use Rattle.schedule.specs.Causes.{cause_text};

use std::fmt;

/// Why a line of a schedule is refused (own). Where several of the first four hold, the first of them is named.
#[derive(Clone, Copy, Debug, PartialEq, Eq)]
pub enum Cause {
    /// Its first field is no word of a schedule; or the input has no line `schedule`.
    Order,
    /// It has another number of fields.
    Fields,
    /// A field isn't a number, or is out of its range.
    Number,
    /// The script has no processor of this number.
    Processor,
    /// It asks for more than 1,000,000 steps; or, once it is followed, the schedule for more than 10,000,000 in all.
    Many,
    /// Its processor has made 1,000,000 steps, or all processes have ended, and no entry has begun so.
    Unreached,
}

impl Cause {
    /// The word for it.
    #[tactic(auto, unfolding(crate::specs::Causes::cause_text))]
    fn word(&self) -> &'static str
        ensures { result.now ≡ cause_text self.now }
    {
        match self {
            Cause::Order => "order",
            Cause::Fields => "fields",
            Cause::Number => "number",
            Cause::Processor => "processor",
            Cause::Many => "many",
            Cause::Unreached => "unreached",
        }
    }
}

impl fmt::Display for Cause {
    ghost output = { λ c. Some (cause_text c) };

    fn fmt<W: fmt::Write>(&self, f: &mut fmt::Formatter<W>) -> fmt::Result {
        f.write_str(self.word())
    }
}

/// The line of a schedule that is refused.
#[derive(Clone, Copy, Debug, PartialEq, Eq)]
pub struct Refused {
    /// The line's number, counted from 1 at the first line of the script.
    pub line: u32,
    /// Why.
    pub cause: Cause,
}
