ghost use Rattle.std.specs.Prelude.{◌≡◌, ◌≤◌, ◌<◌, ◌+◌, ◌^◌, length};
ghost use Rattle.text_model.specs.Lines.{lines_of};
ghost use Rattle.schedule.specs.Inputs.{first_number, has_schedule, schedule_lines, script_lines};

use crate::lines::is_schedule;
use script::next_line;

/// The parts of an input, in place.
#[derive(Drop)]
pub(crate) struct Input<'a> {
    /// The lines before the first line `schedule`: the script.
    pub(crate) script: &'a [u8],
    /// Those after it: the schedule. It is empty where there is no such line.
    pub(crate) schedule: &'a [u8],
    /// The number of the schedule's first line, counted from 1 at the first line of the script.
    pub(crate) first: u32,
    /// Whether there is such a line.
    pub(crate) found: bool,
}

/// The parts of an input.
#[tactic(auto, using(text_model::proofs::PartLaws::at_start, std::proofs::lemmas::Grind::common_steps))]
pub(crate) fn split_input(bytes: &[u8]) -> Input<'_>
    requires { length bytes.now < 2 ^ 31 }
    ensures script { lines_of result.script.now ≡ script_lines (lines_of bytes.now) }
    ensures schedule { lines_of result.schedule.now ≡ schedule_lines (lines_of bytes.now) }
    ensures first { result.first ≡ first_number (lines_of bytes.now) }
    ensures found { result.found ≡ has_schedule (lines_of bytes.now) }
    ensures few { result.first + length result.schedule.now ≤ length bytes.now + 1 }
    ensures short { length result.script.now ≤ length bytes.now }
{
    let mut at = 0;
    let mut number: u32 = 1;
    while at < bytes.len() {
        let (line, rest) = next_line(&bytes[at..]);
        number += 1;
        if is_schedule(line) {
            return Input {
                script: &bytes[..at],
                schedule: rest,
                first: number,
                found: true,
            };
        }
        at = bytes.len() - rest.len();
    }
    Input {
        script: bytes,
        schedule: &[],
        first: number,
        found: false,
    }
}
