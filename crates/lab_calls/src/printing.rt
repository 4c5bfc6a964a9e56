ghost use Rattle.std.specs.Prelude.{◌≡◌, IfOk};
ghost use Rattle.runner.specs.Endings.{change, Writes};
ghost use Rattle.runner.specs.Texts.{refusal_text};
ghost use Rattle.schedule.specs.Causes.{refused_text};
ghost use Rattle.lab_calls.specs.Endings.{EndsAstray, EndsFault, HasPrinted, Printed, Unreads, WritesRefusal};
ghost use Rattle.lab_calls.specs.Endings.{WritesRefused};

use crate::NoMemory;
use crate::status::Status;
use lab_runs::Astray;
use schedule::{Refused, ScheduleFault};
use script::Refusal;
use site_io::{Sink, Unread, write_all};
use std::alloc::Global;

/// What is written where the source has too many bytes.
const TOO_LONG: &[u8] = b"script too long\n";

/// Writes the text of a status. A sink that fails doesn't change the status.
#[tactic(auto, using(runner::proofs::Ends::text_written, std::proofs::lemmas::Grind::common_steps))]
pub(crate) fn with_text<K: Sink>(out: &mut K, text: &[u8], status: Status) -> Status
    ensures status { result ≡ status }
    ensures text { Writes (change (K.held out.old) (K.held out.new) (K.faults out.old) (K.faults out.new)) text.now }
{
    match write_all(out, text) {
        Ok(()) => status,
        Err(_) => status,
    }
}

/// Writes an output, whole unless a write fails.
pub(crate) fn print<K: Sink>(out: &mut K, text: &[u8]) -> Status
    ensures printed { Printed result
        (change (K.held out.old) (K.held out.new) (K.faults out.old) (K.faults out.new)) text.now }
    ensures status { HasPrinted result }
{
    match write_all(out, text) {
        Ok(()) => Status::Done,
        Err(_) => Status::WriteFault,
    }
}

/// The text of a script's refusal.
#[tactic(auto, unfolding(runner::specs::Texts::refusal_text))]
fn refusal_text(alloc: Global, refusal: Refusal) -> Result<Vec<u8>, NoMemory>
    ensures { IfOk result (λ text. text.items ≡ refusal_text refusal) }
{
    let line = refusal.line;
    let cause = refusal.cause;
    let text = format!(in alloc; "script refused at line {line}: {cause}\n")?;
    Ok(text.into_bytes())
}

/// The text of a schedule's refusal.
#[tactic(auto, unfolding(schedule::specs::Causes::refused_text))]
fn refused_text(alloc: Global, refused: Refused) -> Result<Vec<u8>, NoMemory>
    ensures { IfOk result (λ text. text.items ≡ refused_text refused) }
{
    let line = refused.line;
    let cause = refused.cause;
    let text = format!(in alloc; "schedule refused at line {line}: {cause}\n")?;
    Ok(text.into_bytes())
}

/// Writes the text of a script's refusal, or nothing where there is no memory for it.
#[tactic(auto, using(runner::proofs::Ends::writes_nothing, std::proofs::lemmas::Grind::common_steps))]
pub(crate) fn write_refusal<K: Sink>(alloc: Global, refusal: Refusal, out: &mut K) -> Status
    ensures { WritesRefusal result refusal
        (change (K.held out.old) (K.held out.new) (K.faults out.old) (K.faults out.new)) }
{
    match refusal_text(alloc, refusal) {
        Ok(text) => with_text(out, &text, Status::Script(refusal)),
        Err(_) => Status::Memory,
    }
}

/// Writes the text of a schedule's refusal, or nothing where there is no memory for it.
#[tactic(auto, using(runner::proofs::Ends::writes_nothing, std::proofs::lemmas::Grind::common_steps))]
pub(crate) fn write_refused<K: Sink>(alloc: Global, refused: Refused, out: &mut K) -> Status
    ensures { WritesRefused result refused
        (change (K.held out.old) (K.held out.new) (K.faults out.old) (K.faults out.new)) }
{
    match refused_text(alloc, refused) {
        Ok(text) => with_text(out, &text, Status::Schedule(refused)),
        Err(_) => Status::Memory,
    }
}

/// Ends a call whose source couldn't be read: of one that has too many bytes that is written.
pub(crate) fn end_unread<K: Sink>(unread: Unread, out: &mut K) -> Status
    ensures { Unreads unread result
        (change (K.held out.old) (K.held out.new) (K.faults out.old) (K.faults out.new)) }
{
    match unread {
        Unread::TooLong => with_text(out, TOO_LONG, Status::TooLong),
        Unread::ReadFault => Status::ReadFault,
        Unread::Memory => Status::Memory,
    }
}

/// Ends a call whose input is refused, or for which there was no memory: a refusal is written.
#[tactic(auto, using(runner::proofs::Ends::writes_nothing, std::proofs::lemmas::Grind::common_steps))]
pub(crate) fn end_fault<K: Sink>(alloc: Global, fault: ScheduleFault, out: &mut K) -> Status
    ensures { EndsFault fault result
        (change (K.held out.old) (K.held out.new) (K.faults out.old) (K.faults out.new)) }
{
    match fault {
        ScheduleFault::Script(refusal) => write_refusal(alloc, refusal, out),
        ScheduleFault::Schedule(refused) => write_refused(alloc, refused, out),
        ScheduleFault::Memory => Status::Memory,
    }
}

/// Ends a call whose schedule can't be followed, or for which there was no memory: a refusal is written.
#[tactic(auto, using(runner::proofs::Ends::writes_nothing, std::proofs::lemmas::Grind::common_steps))]
pub(crate) fn end_astray<K: Sink>(alloc: Global, astray: Astray, out: &mut K) -> Status
    ensures { EndsAstray astray result
        (change (K.held out.old) (K.held out.new) (K.faults out.old) (K.faults out.new)) }
{
    match astray {
        Astray::Refused(refused) => write_refused(alloc, refused, out),
        Astray::Memory => Status::Memory,
    }
}
