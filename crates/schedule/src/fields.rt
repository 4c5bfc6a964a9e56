ghost use Rattle.std.specs.Prelude.{◌≡◌};
ghost use Rattle.text_model.specs.Lines.{fields_of};
ghost use Rattle.schedule.specs.Fields.{Gives, has_none, next_field, no_fields};

use crate::refusals::Cause;
use script::split_field;

/// Whether a line has no field.
pub(crate) fn is_empty(line: &[u8]) -> bool
    ensures { result ≡ has_none (fields_of line.now) }
{
    let (field, _) = split_field(line);
    field.is_empty()
}

/// The first field of a line and what follows it.
#[tactic(auto, unfolding(crate::specs::Fields::next_field))]
pub(crate) fn next_field(line: &[u8]) -> Result<(&[u8], &[u8]), Cause>
    ensures { Gives (λ f. (f.0.now, fields_of f.1.now)) result (next_field (fields_of line.now)) }
{
    let (field, rest) = split_field(line);
    if field.is_empty() {
        Err(Cause::Fields)
    } else {
        Ok((field, rest))
    }
}

/// Whether the line has no field; else it has too many.
#[tactic(auto, unfolding(crate::specs::Fields::no_fields))]
pub(crate) fn no_fields(line: &[u8]) -> Result<(), Cause>
    ensures { Gives (λ u. u) result (no_fields (fields_of line.now)) }
{
    if is_empty(line) {
        Ok(())
    } else {
        Err(Cause::Fields)
    }
}
