ghost use Rattle.std.specs.Prelude.{◌≡◌, ◌≤◌, Err, IfOk, length};
ghost use Rattle.book_check.specs.Closing.{IsTheVerdict};
ghost use Rattle.book_check.specs.declared.offences.CheckFault.TheVariants as CheckFault;
ghost use Rattle.runner.specs.Endings.{change};
ghost use Rattle.runner.specs.Texts.{accepted_text, offence_text};
ghost use Rattle.lab_calls.specs.Endings.{Printed};
ghost use Rattle.lab_calls.specs.Judged.{Explains, JudgesTo, WritesOffence};

use crate::printing::{print, with_text, write_refusal};
use crate::status::Status;
use book_check::{CheckFault, Offence, check_book};
use lab_runs::NoMemory;
use reasons::why_text;
use site_io::Sink;
use std::alloc::Global;

/// The text of a listing that is accepted, with so many entries.
#[tactic(auto, unfolding(runner::specs::Texts::accepted_text))]
fn accepted(alloc: Global, entries: u32) -> Result<Vec<u8>, NoMemory>
    ensures { IfOk result (λ text. text.items ≡ accepted_text entries) }
{
    let text = format!(in alloc; "accepted {entries} entries\n")?;
    Ok(text.into_bytes())
}

/// The text of a line at fault.
#[tactic(auto, unfolding(runner::specs::Texts::offence_text))]
fn refused(alloc: Global, offence: Offence) -> Result<Vec<u8>, NoMemory>
    ensures { IfOk result (λ text. text.items ≡ offence_text offence) }
{
    let line = offence.line;
    let rule = offence.rule;
    let text = format!(in alloc; "refused at line {line}: {rule}\n")?;
    Ok(text.into_bytes())
}

/// The text of a line at fault, and why it is refused.
#[tactic(auto, using(crate::proofs::JudgeLaws::explains_more, std::proofs::lemmas::Grind::common_steps))]
fn explained(alloc: Global, offence: Offence, bytes: &[u8]) -> Result<Vec<u8>, NoMemory>
    requires few { length bytes.now ≤ 134217728 }
    requires refused { IsTheVerdict bytes.now (Err (CheckFault.Refused offence)) }
    ensures { IfOk result (λ text. Explains bytes.now offence text.items) }
{
    let mut text = refused(alloc, offence)?;
    let why = why_text(alloc, bytes, offence)?;
    text.extend_from_slice(&why)?;
    Ok(text)
}

/// Writes that a listing is accepted, with so many entries.
#[tactic(auto, using(runner::proofs::Ends::writes_nothing, std::proofs::lemmas::Grind::common_steps))]
fn write_accepted<K: Sink>(alloc: Global, entries: u32, out: &mut K) -> Status
    ensures { Printed result
        (change (K.held out.old) (K.held out.new) (K.faults out.old) (K.faults out.new)) (accepted_text entries) }
{
    match accepted(alloc, entries) {
        Ok(text) => print(out, &text),
        Err(_) => Status::Memory,
    }
}

/// Writes which line is at fault and why, or nothing where there is no memory for it.
#[tactic(auto, using(runner::proofs::Ends::writes_nothing, std::proofs::lemmas::Grind::common_steps))]
fn write_offence<K: Sink>(alloc: Global, offence: Offence, bytes: &[u8], out: &mut K) -> Status
    requires few { length bytes.now ≤ 134217728 }
    requires refused { IsTheVerdict bytes.now (Err (CheckFault.Refused offence)) }
    ensures { WritesOffence bytes.now result offence
        (change (K.held out.old) (K.held out.new) (K.faults out.old) (K.faults out.new)) }
{
    match explained(alloc, offence, bytes) {
        Ok(text) => with_text(out, &text, Status::Refused(offence)),
        Err(_) => Status::Memory,
    }
}

/// Judges a script with its listing, and writes the verdict, with the reason where a line is at fault.
#[tactic(auto, using(runner::proofs::Ends::writes_nothing, std::proofs::lemmas::Grind::common_steps))]
pub(crate) fn print_verdict<K: Sink>(alloc: Global, bytes: &[u8], out: &mut K) -> Status
    requires { length bytes.now ≤ 134217728 }
    ensures { JudgesTo bytes.now result
        (change (K.held out.old) (K.held out.new) (K.faults out.old) (K.faults out.new)) }
{
    match check_book(alloc, bytes) {
        Ok(entries) => write_accepted(alloc, entries, out),
        Err(CheckFault::Script(refusal)) => write_refusal(alloc, refusal, out),
        Err(CheckFault::Refused(offence)) => write_offence(alloc, offence, bytes, out),
        Err(CheckFault::Memory) => Status::Memory,
    }
}
