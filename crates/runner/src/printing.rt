ghost use Rattle.std.specs.Prelude.{◌≡◌, ◌≤◌, None, IfOk};
ghost use Rattle.drill.specs.Texts.{drill_text};
ghost use Rattle.live_doors.specs.declared.rule.TheConstants.{MOST_CPUS};
ghost use Rattle.make_work.specs.Day.{made};
ghost use Rattle.runner.specs.Endings.{change, HasPrinted, Printed, Refuses, Writes};
ghost use Rattle.runner.specs.Texts.{refusal_text};

use crate::NoMemory;
use crate::finished::{Finished, Status};
use drill::{drill, drilled_text};
use make_work::make_script;
use script::Refusal;
use site_io::{Gate, Sink, write_all};
use std::alloc::Global;
use std::sync::Wait;
use std::thread::Threads;

/// A call that ended without a machine.
pub(crate) fn without_machine(status: Status) -> Finished
    ensures status { result.status ≡ status }
    ensures machine { result.machine ≡ None }
{
    Finished {
        status,
        machine: None,
    }
}

/// Writes the text of a status. A sink that fails doesn't change the status.
#[tactic(auto, using(crate::proofs::Ends::text_written, std::proofs::lemmas::Grind::common_steps))]
pub(crate) fn with_text<K: Sink>(out: &mut K, text: &[u8], status: Status) -> Finished
    ensures status { result.status ≡ status }
    ensures machine { result.machine ≡ None }
    ensures text { Writes (change (K.held out.old) (K.held out.new) (K.faults out.old) (K.faults out.new)) text.now }
{
    match write_all(out, text) {
        Ok(()) => without_machine(status),
        Err(_) => without_machine(status),
    }
}

/// Writes an output, whole unless a write fails.
pub(crate) fn print<K: Sink>(out: &mut K, text: &[u8]) -> Status
    ensures printed { Printed result
        (change (K.held out.old) (K.held out.new) (K.faults out.old) (K.faults out.new)) text.now }
    ensures status { HasPrinted result }
{
    match write_all(out, text) {
        Ok(()) => Status::Done,
        Err(_) => Status::WriteFault,
    }
}

/// Writes the script of the day of a number, in mode `make`.
pub(crate) fn make<K: Sink>(alloc: Global, n: u32, out: &mut K) -> Finished
    ensures printed { Printed result.status
        (change (K.held out.old) (K.held out.new) (K.faults out.old) (K.faults out.new)) (made n) }
    ensures machine { result.machine ≡ None }
{
    match make_script(alloc, n) {
        Ok(text) => without_machine(print(out, &text)),
        Err(_) => without_machine(Status::Memory),
    }
}

/// Runs the drill, and writes its text.
pub(crate) fn run_drill<R: Threads + Wait + Sync, K: Sink, G: Gate + Sync>(
    rt: &R,
    alloc: Global,
    size: (u32, u32, u32, u32),
    out: &mut K,
    gate: &G,
) -> Finished
    requires processors { (1 ≤ size.0) × (size.0 ≤ MOST_CPUS) }
    requires frames { (4 ≤ size.1) × (size.1 ≤ 64) }
    requires adds { (1 ≤ size.2) × (size.2 ≤ 10000) }
    ensures printed { Printed result.status
        (change (K.held out.old) (K.held out.new) (K.faults out.old) (K.faults out.new))
        (drill_text size.0 size.1 size.2 size.3) }
    ensures machine { result.machine ≡ None }
{
    let (processors, frames, adds, seed) = size;
    let Ok(drilled) = drill(rt, alloc, processors, frames, adds, seed, gate) else {
        return without_machine(Status::Memory);
    };
    match drilled_text(alloc, adds, &drilled) {
        Ok(text) => without_machine(print(out, text.as_bytes())),
        Err(_) => without_machine(Status::Memory),
    }
}

/// The text of a refusal.
#[tactic(auto, unfolding(crate::specs::Texts::refusal_text))]
fn text_of(alloc: Global, refusal: Refusal) -> Result<Vec<u8>, NoMemory>
    ensures { IfOk result (λ text. text.items ≡ refusal_text refusal) }
{
    let line = refusal.line;
    let cause = refusal.cause;
    let text = format!(in alloc; "script refused at line {line}: {cause}\n")?;
    Ok(text.into_bytes())
}

/// Writes the text of a refusal, or nothing where there is no memory for it.
#[tactic(auto, using(crate::proofs::Ends::writes_nothing, std::proofs::lemmas::Grind::common_steps))]
pub(crate) fn write_refusal<K: Sink>(alloc: Global, refusal: Refusal, out: &mut K) -> Finished
    ensures refused { Refuses result.status refusal
        (change (K.held out.old) (K.held out.new) (K.faults out.old) (K.faults out.new)) }
    ensures machine { result.machine ≡ None }
{
    match text_of(alloc, refusal) {
        Ok(text) => with_text(out, &text, Status::Script(refusal)),
        Err(_) => without_machine(Status::Memory),
    }
}
