ghost use Rattle.std.specs.Prelude.{◌≡◌, ◌+◌, ◌<◌, ◌≤◌, ◌^◌, [], length, Err, IfOk, IfErr};
ghost use Rattle.text_model.specs.Lines.{lines_of};
ghost use Rattle.book_check.specs.Closing.{IsOneVerdict, OrMemory, at_line};
ghost use Rattle.book_check.specs.Going.{IsReached};
ghost use Rattle.book_check.specs.Inputs.{entry_lines};
ghost use Rattle.book_check.specs.Judging.{IsAfter};

use crate::judge::{Judge, LineFault};
use crate::lines::is_summary;
use crate::offences::{CheckFault, Offence};
use script::next_line;

/// What a line's fault comes to, at the line of this number.
fn at_line(number: u32, fault: LineFault) -> CheckFault
    ensures { result ≡ at_line number fault }
{
    match fault {
        LineFault::Broken(rule) => CheckFault::Refused(Offence { line: number, rule }),
        LineFault::Memory => CheckFault::Memory,
    }
}

impl Judge {
    /// Accepts the entries of a listing whose first line has this number. What is left is the summary.
    ///
    /// # Errors
    /// `Refused` names the first line at fault, where it comes before the summary.
    pub(crate) fn accept_entries<'a>(
        &mut self,
        first: u32,
        lines: &'a [u8],
    ) -> Result<&'a [u8], CheckFault>
        requires start { IsAfter self.old [] }
        requires none { self.old.entries ≡ 0 }
        requires few { first + length lines.now < 2 ^ 31 }
        ensures reached { IfOk result (λ rest. IsReached self.new first (lines_of lines.now) (lines_of rest.now)) }
        ensures ended { IfOk result (λ rest. entry_lines (lines_of rest.now) ≡ []) }
        ensures fewer { IfOk result (λ rest. self.new.entries + length rest.now ≤ length lines.now) }
        ensures script { self.new.script ≡ self.old.script }
        ensures refused { IfErr result (λ f.
            OrMemory (IsOneVerdict self.old.script first (lines_of lines.now)) (Err f)) }
    {
        let mut rest = lines;
        while !rest.is_empty() {
            let (line, more) = next_line(rest);
            if is_summary(line) {
                return Ok(rest);
            }
            let number = first + self.entries;
            match self.accept(line) {
                Ok(()) => {}
                Err(fault) => return Err(at_line(number, fault)),
            }
            rest = more;
        }
        Ok(rest)
    }
}
