ghost use Rattle.std.specs.Prelude.{◌<◌, ◌^◌, ◌+◌, ◌≤◌, fold, length, Ok};
ghost use Rattle.text_model.specs.Lines.{lines_of};
ghost use Rattle.script.specs.Grammar.{numbered, Reads, ReadsLines, script_of};

use crate::drafts::{Draft, LineFault};
use crate::lines::next_checked;
use crate::plan::Script;
use crate::refusals::Refusal;
use std::alloc::Global;

/// Why bytes gave no script (own).
#[derive(Clone, Copy, Debug, PartialEq, Eq)]
pub enum ScriptFault {
    /// A line is refused.
    Refused(Refusal),
    /// There wasn't enough memory.
    Memory,
}

/// Reads all lines into a draft; the number of the line after them.
#[tactic(auto, using(crate::proofs::ReaderLaws::lines_read, std::proofs::lemmas::Grind::common_steps))]
fn read_lines(alloc: Global, draft: &mut Draft, bytes: &[u8]) -> Result<u32, ScriptFault>
    requires { length bytes.now < 2 ^ 31 }
    ensures { ReadsLines draft.new result (fold numbered (Ok (1, draft.old)) (lines_of bytes.now)) }
{
    let mut rest = bytes;
    let mut number: u32 = 1;
    while !rest.is_empty() {
        let (line, after, printable) = next_checked(rest);
        match draft.line(alloc, line, printable) {
            Ok(()) => {}
            Err(LineFault::Refused(cause)) => {
                return Err(ScriptFault::Refused(Refusal {
                    line: number,
                    cause,
                }));
            }
            Err(LineFault::Memory) => return Err(ScriptFault::Memory),
        }
        rest = after;
        number += 1;
    }
    Ok(number)
}

/// The script that the bytes are. `Refused` comes exactly where a line is refused, with the first such
/// line and its first cause, unless memory runs out.
#[tactic(auto, using(crate::proofs::ReaderLaws::script_refused, std::proofs::lemmas::Grind::common_steps))]
pub fn read_script(alloc: Global, bytes: &[u8]) -> Result<Script, ScriptFault>
    requires { length bytes.now < 2 ^ 31 }
    ensures { Reads result (script_of bytes.now) }
{
    let mut draft = Draft::blank(alloc);
    let number = read_lines(alloc, &mut draft, bytes)?;
    match draft.into_script(number) {
        Ok(script) => Ok(script),
        Err(refusal) => Err(ScriptFault::Refused(refusal)),
    }
}
