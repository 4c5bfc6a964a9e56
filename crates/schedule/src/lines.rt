ghost use Rattle.std.specs.Prelude.{◌≡◌};
ghost use Rattle.text_model.specs.Lines.{fields_of};
ghost use Rattle.schedule.specs.Inputs.{is_schedule};

use crate::fields::is_empty;
use script::split_field;

/// Whether the only field of a line is `schedule`.
#[tactic(auto, unfolding(crate::specs::Inputs::is_schedule))]
pub(crate) fn is_schedule(line: &[u8]) -> bool
    ensures { result ≡ is_schedule (fields_of line.now) }
{
    let (word, rest) = split_field(line);
    word == b"schedule".as_slice() && is_empty(rest)
}
