ghost use Rattle.std.specs.Prelude.{◌≡◌, ◌+◌, ◌++◌, ◌<◌, ◌^◌, ◌≤◌, Err, IfNone, IfOk, IfSome, List, Ok, OnOk, length};
ghost use Rattle.std.specs.Prelude.{string_bytes};
ghost use Rattle.text_model.specs.Lines.{lines_of};
ghost use Rattle.custody.specs.Tables.{AreTablesOf};
ghost use Rattle.script.specs.Grammar.{script_of};
ghost use Rattle.script.specs.Plans.{Plan};
ghost use Rattle.book.specs.declared.entries.Entry.{Entry};
ghost use Rattle.book_check.specs.Closing.{IsTheVerdict};
ghost use Rattle.book_check.specs.Judging.{IsAfter};
ghost use Rattle.book_check.specs.Verdicts.{IsJudged};
ghost use Rattle.book_check.specs.declared.offences.CheckFault.TheVariants as CheckFault;
ghost use Rattle.book_check.specs.declared.offences.Offence.{Offence};
ghost use Rattle.reasons.specs.Passing.{Begins, IsRefused};
ghost use Rattle.reasons.specs.Reasons.{reason_text, why_line};
ghost use Rattle.reasons.specs.Told.{HasLine, HasText, IsTold, TellsOrNot};

use crate::NoMemory;
use crate::asking::{Reason, why};
use crate::passing::go_over;
use crate::since::Since;
use book_check::{Input, Judge, Offence, split_input};
use line_reasons::push_sum_reason;
use script::{Script, ScriptFault, read_script};
use std::alloc::{AllocError, Global};

/// Appends the text of a reason.
#[tactic(auto, unfolding(crate::specs::Reasons::reason_text))]
fn push_reason(out: &mut String, script: &Script, reason: &Reason) -> Result<(), AllocError>
    ensures { OnOk result (string_bytes out.new ≡ string_bytes out.old ++ reason_text script.now reason.now) }
{
    match *reason {
        Reason::NoBook => write!(out, "the input has no line book"),
        Reason::NoEntry(reason) => write!(out, "{reason}"),
        Reason::NotLegal(reason) => write!(out, "{reason}"),
        Reason::NotClean(reason) => write!(out, "{reason}"),
        Reason::WrongSum(reason) => push_sum_reason(out, script, reason),
    }
}

/// The line that tells a reason, and since which line it has been so.
#[tactic(auto, unfolding(crate::specs::Reasons::why_line))]
fn line_of(
    alloc: Global,
    script: &Script,
    reason: &Reason,
    since: Option<u32>,
) -> Result<Vec<u8>, NoMemory>
    ensures { IfOk result (λ text. text.items ≡ why_line script.now reason.now since) }
{
    let mut text = String::new(alloc);
    write!(text, "why: ")?;
    push_reason(&mut text, script, reason)?;
    match since {
        Some(line) => write!(text, ", since line {line}\n")?,
        None => write!(text, "\n")?,
    }
    Ok(text.into_bytes())
}

/// A judge of the listing of a script, before its first entry. `None` where the script is refused.
fn booted(alloc: Global, script: &[u8]) -> Result<Option<Judge>, NoMemory>
    requires { length script.now < 2 ^ 31 }
    ensures some { IfOk result (λ o. IfSome o (Begins script.now)) }
    ensures none { IfOk result (λ o. IfNone o (IsRefused script.now)) }
{
    match read_script(alloc, script) {
        Ok(script) => {
            let judge = Judge::boot(alloc, script)?;
            Ok(Some(judge))
        }
        Err(ScriptFault::Refused(_)) => Ok(None),
        Err(ScriptFault::Memory) => Err(NoMemory),
    }
}

/// Since which line the sentence of a reason has been true, in the listing of an input up to its line at fault.
fn since_line(alloc: Global, input: &Input, reason: &Reason) -> Result<Option<u32>, NoMemory>
    requires few { length input.now.script.now < 2 ^ 31 }
    requires numbers { 0 < input.now.first }
    requires lines { input.now.first + length input.now.listing.now < 2 ^ 31 }
    ensures { (p : Plan) (o : Offence) → script_of input.now.script.now ≡ Ok p
        → IsJudged p input.now.first (lines_of input.now.listing.now) (Err (CheckFault.Refused o))
        → IfOk result (HasLine p input.now.first (lines_of input.now.listing.now) o reason.now) }
{
    let Some(mut judge) = booted(alloc, input.script)? else {
        return Ok(None);
    };
    let mut since = Since::of(*reason);
    since.look(&judge, input.first - 1);
    go_over(&mut judge, input.first, input.listing, &mut since)?;
    Ok(since.line)
}

/// The line that tells a reason, and since which line it has been so where its sentence speaks of a state.
fn tell(alloc: Global, script: &Script, input: &Input, reason: &Reason) -> Result<Vec<u8>, NoMemory>
    requires few { length input.now.script.now < 2 ^ 31 }
    requires numbers { 0 < input.now.first }
    requires lines { input.now.first + length input.now.listing.now < 2 ^ 31 }
    ensures { (o : Offence) → script_of input.now.script.now ≡ Ok script.now
        → IsJudged script.now input.now.first (lines_of input.now.listing.now) (Err (CheckFault.Refused o))
        → IfOk result (λ text. HasText script.now input.now.first (lines_of input.now.listing.now) o reason.now
        text.items) }
{
    let since = if reason.has_since() {
        since_line(alloc, input, reason)?
    } else {
        None
    };
    line_of(alloc, script, reason, since)
}

/// Why the listing of an input is refused that a judge has gone over, as a line of its own; empty where no reason is
/// found.
fn explain(
    alloc: Global,
    judge: &Judge,
    bytes: &[u8],
    input: &Input,
    rest: &[u8],
    offence: Offence,
) -> Result<Vec<u8>, NoMemory>
    requires tables { AreTablesOf judge.now.script judge.now.custody }
    requires few { length bytes.now < 2 ^ 31 }
    requires left { length rest.now < 2 ^ 31 }
    requires script { length input.now.script.now < 2 ^ 31 }
    requires numbers { 0 < input.now.first }
    requires lines { input.now.first + length input.now.listing.now < 2 ^ 31 }
    ensures { (es : List Entry) → IsAfter judge.now es → script_of input.now.script.now ≡ Ok judge.now.script
        → IsJudged judge.now.script input.now.first (lines_of input.now.listing.now) (Err (CheckFault.Refused offence))
        → IfOk result (λ text. TellsOrNot bytes.now judge.now.script input.now.first (lines_of input.now.listing.now)
        offence es (lines_of rest.now) text.items) }
{
    match why(alloc, judge, bytes, rest, offence.rule) {
        Ok(Some(reason)) => tell(alloc, judge.script(), input, &reason),
        Ok(None) => Ok(Vec::new(alloc)),
        Err(NoMemory) => Err(NoMemory),
    }
}

/// Why the listing of an input is refused, whose first line at fault this is, by the rule that it breaks (own): a line
/// of its own, with the first condition of that rule that doesn't hold there. Where that speaks of a state, it tells
/// besides since which line it has been so.
///
/// The listing is gone over up to the line at fault, and once more where a line is looked for.
///
/// # Errors
/// `NoMemory` is want of memory.
pub fn why_text(alloc: Global, bytes: &[u8], offence: Offence) -> Result<Vec<u8>, NoMemory>
    requires few { length bytes.now ≤ 134217728 }
    requires refused { IsTheVerdict bytes.now (Err (CheckFault.Refused offence)) }
    ensures { IfOk result (λ text. IsTold bytes.now offence text.items) }
{
    let input = split_input(bytes);
    let Some(mut judge) = booted(alloc, input.script)? else {
        return Ok(Vec::new(alloc));
    };
    let mut unwatched = Since::nothing();
    let rest = go_over(&mut judge, input.first, input.listing, &mut unwatched)?;
    explain(alloc, &judge, bytes, &input, rest, offence)
}
