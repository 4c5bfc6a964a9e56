ghost use Rattle.std.specs.Prelude.{◌≡◌, ◌+◌, ◌<◌, ◌≤◌, ◌^◌, [], IfOk, length};
ghost use Rattle.text_model.specs.Lines.{lines_of};
ghost use Rattle.book_check.specs.Judging.{IsAfter};
ghost use Rattle.reasons.specs.Passing.{EndsBefore, IsWatched, Passes};

use crate::NoMemory;
use crate::since::Since;
use book_check::{Judge, LineFault, is_summary};
use script::next_line;

/// Has the entries of a listing accepted, whose first line has this number, up to its summary or the first line that
/// breaks a rule, and has each state looked at. What is left begins with that line.
///
/// # Errors
/// `NoMemory` is want of memory.
pub(crate) fn go_over<'a>(
    judge: &mut Judge,
    first: u32,
    lines: &'a [u8],
    since: &mut Since,
) -> Result<&'a [u8], NoMemory>
    requires start { IsAfter judge.old [] }
    requires none { judge.old.entries ≡ 0 }
    requires few { first + length lines.now < 2 ^ 31 }
    requires since { IsWatched judge.old.script first [] since.old.reason since.old.line }
    ensures passed { IfOk result (λ rest. Passes judge.new first (lines_of lines.now) (lines_of rest.now)
        since.new.reason since.new.line) }
    ensures ends { IfOk result (λ rest. EndsBefore judge.new (lines_of rest.now)) }
    ensures shorter { IfOk result (λ rest. length rest.now ≤ length lines.now) }
    ensures script { judge.new.script ≡ judge.old.script }
    ensures reason { since.new.reason ≡ since.old.reason }
{
    let mut rest = lines;
    let mut number = first;
    while !rest.is_empty() {
        let (line, more) = next_line(rest);
        if is_summary(line) {
            return Ok(rest);
        }
        match judge.accept(line) {
            Ok(()) => since.look(judge, number),
            Err(LineFault::Broken(_)) => return Ok(rest),
            Err(LineFault::Memory) => return Err(NoMemory),
        }
        number += 1;
        rest = more;
    }
    Ok(rest)
}
