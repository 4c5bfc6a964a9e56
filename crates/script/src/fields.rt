ghost use Rattle.std.specs.Prelude.{◌≡◌, ◌≢◌, ◌<◌, ◌≤◌, slice_index, [], ◌∷◌, length};
ghost use Rattle.text_model.specs.Lines.{fields_of};
ghost use Rattle.script.specs.Lines.{next_field, no_fields, one_field};
ghost use Rattle.script.specs.Lines.{two_fields, three_fields, four_fields, six_fields};
ghost use Rattle.script.specs.Readers.{Gives};

use crate::refusals::Cause;

/// The line from its first byte on that isn't a space.
#[tactic(auto, using(text_model::proofs::FieldLaws::spaces_skipped, std::proofs::lemmas::Grind::common_steps))]
fn skip_spaces(line: &[u8]) -> &[u8]
    ensures fields { fields_of result.now ≡ fields_of line.now }
    ensures start { slice_index result.now 0 ≢ 32 }
    ensures short { length result.now ≤ length line.now }
{
    for (i, byte) in line.iter().enumerate() {
        if *byte != b' ' {
            return &line[i..];
        }
    }
    &[]
}

/// The first field of a line and what follows it. The field is empty where the line has none.
#[tactic(auto, using(text_model::proofs::FieldLaws::field_taken, std::proofs::lemmas::Grind::common_steps))]
pub fn split_field(line: &[u8]) -> (&[u8], &[u8])
    ensures some { 0 < length result.0.now → fields_of line.now ≡ result.0.now ∷ fields_of result.1.now }
    ensures none { length result.0.now ≡ 0 → fields_of line.now ≡ [] }
    ensures shorter { 0 < length result.0.now → length result.1.now < length line.now }
{
    let line = skip_spaces(line);
    for (i, byte) in line.iter().enumerate() {
        if *byte == b' ' {
            return (&line[..i], &line[i..]);
        }
    }
    (line, &[])
}

/// Whether the line has no field; else it has too many.
#[tactic(auto, unfolding(crate::specs::Lines::no_fields))]
pub(crate) fn no_fields(line: &[u8]) -> Result<(), Cause>
    ensures { Gives (λ u. u) result (no_fields (fields_of line.now)) }
{
    let (more, _) = split_field(line);
    if more.is_empty() {
        Ok(())
    } else {
        Err(Cause::Fields)
    }
}

/// The first field of a line and what follows it.
#[tactic(auto, unfolding(crate::specs::Lines::next_field))]
fn next_field(line: &[u8]) -> Result<(&[u8], &[u8]), Cause>
    ensures { Gives (λ f. (f.0.now, fields_of f.1.now)) result (next_field (fields_of line.now)) }
{
    let (field, rest) = split_field(line);
    if field.is_empty() {
        Err(Cause::Fields)
    } else {
        Ok((field, rest))
    }
}

/// The field of a line that has one.
#[tactic(auto, unfolding(crate::specs::Lines::one_field))]
pub(crate) fn one_field(line: &[u8]) -> Result<&[u8], Cause>
    ensures { Gives (λ f. f.now) result (one_field (fields_of line.now)) }
{
    let (field, rest) = next_field(line)?;
    no_fields(rest)?;
    Ok(field)
}

/// The fields of a line that has two.
#[tactic(auto, unfolding(crate::specs::Lines::two_fields))]
pub(crate) fn two_fields(line: &[u8]) -> Result<(&[u8], &[u8]), Cause>
    ensures { Gives (λ f. (f.0.now, f.1.now)) result (two_fields (fields_of line.now)) }
{
    let (first, rest) = next_field(line)?;
    let second = one_field(rest)?;
    Ok((first, second))
}

/// The fields of a line that has three.
#[tactic(auto, unfolding(crate::specs::Lines::three_fields))]
pub(crate) fn three_fields(line: &[u8]) -> Result<(&[u8], &[u8], &[u8]), Cause>
    ensures { Gives (λ f. (f.0.now, f.1.now, f.2.now)) result (three_fields (fields_of line.now)) }
{
    let (first, rest) = next_field(line)?;
    let (second, third) = two_fields(rest)?;
    Ok((first, second, third))
}

/// The fields of a line that has four.
#[tactic(auto, unfolding(crate::specs::Lines::four_fields))]
pub(crate) fn four_fields(line: &[u8]) -> Result<(&[u8], &[u8], &[u8], &[u8]), Cause>
    ensures { Gives (λ f. (f.0.now, f.1.now, f.2.now, f.3.now)) result (four_fields (fields_of line.now)) }
{
    let (first, rest) = next_field(line)?;
    let (second, third, fourth) = three_fields(rest)?;
    Ok((first, second, third, fourth))
}

/// The fields of a line that has six.
#[tactic(auto, unfolding(crate::specs::Lines::six_fields))]
pub(crate) fn six_fields(line: &[u8]) -> Result<(&[u8], &[u8], &[u8], &[u8], &[u8], &[u8]), Cause>
    ensures { Gives (λ f. (f.0.now, f.1.now, f.2.now, f.3.now, f.4.now, f.5.now)) result
        (six_fields (fields_of line.now)) }
{
    let (first, rest) = next_field(line)?;
    let (second, rest) = next_field(rest)?;
    let (third, fourth, fifth, sixth) = four_fields(rest)?;
    Ok((first, second, third, fourth, fifth, sixth))
}
