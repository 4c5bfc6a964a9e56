ghost use Rattle.std.specs.Prelude.{◌≡◌, ◌+◌, ◌<◌, ◌≤◌, ◌^◌, ◌∷◌, length};
ghost use Rattle.text_model.specs.Lines.{lines_of};
ghost use Rattle.line_reasons.specs.Grammar.{pieces};
ghost use Rattle.line_reasons.specs.Fronts.{same_front, one_more};

use crate::fields::split_piece;
use script::next_line;

/// One more where two fields are the same.
fn one_more(same: u32, field: &[u8], other: &[u8]) -> u32
    requires { same < 2 ^ 31 }
    ensures more { result ≡ one_more same field.now other.now }
    ensures few { result ≤ same + 1 }
{
    if field == other { same + 1 } else { same }
}

/// How many fields at the front of two lines are the same.
#[tactic(auto, using(crate::proofs::FrontLaws::front_steps, std::proofs::lemmas::Grind::common_steps))]
pub(crate) fn same_fields(line: &[u8], other: &[u8]) -> u32
    requires { length line.now < 2 ^ 31 }
    ensures same { result ≡ same_front (pieces line.now) (pieces other.now) }
    ensures few { result ≤ length line.now + 1 }
{
    let mut left = line;
    let mut wanted = other;
    let mut same = 0;
    while let Some((field, more)) = split_piece(left) {
        let (due, due_more) = match split_piece(wanted) {
            Some(cut) => cut,
            None => return one_more(same, field, wanted),
        };
        if field != due {
            return same;
        }
        same += 1;
        left = more;
        wanted = due_more;
    }
    match split_piece(wanted) {
        Some((due, _)) => one_more(same, left, due),
        None => one_more(same, left, wanted),
    }
}

/// Where two texts part: how many lines at the front are the same, and what follows these in both.
#[tactic(auto, using(crate::proofs::FrontLaws::front_steps, std::proofs::lemmas::Grind::common_steps))]
pub(crate) fn parting<'a, 'b>(given: &'a [u8], due: &'b [u8]) -> (u32, &'a [u8], &'b [u8])
    requires { length given.now < 2 ^ 31 }
    ensures same { result.0 ≡ same_front (lines_of given.now) (lines_of due.now) }
    ensures few { length result.1.now < 2 ^ 31 }
{
    let mut left = given;
    let mut wanted = due;
    let mut same = 0;
    while !left.is_empty() {
        if wanted.is_empty() {
            return (same, left, wanted);
        }
        let (line, more) = next_line(left);
        let (due_line, due_more) = next_line(wanted);
        if line != due_line {
            return (same, left, wanted);
        }
        same += 1;
        left = more;
        wanted = due_more;
    }
    (same, left, wanted)
}
