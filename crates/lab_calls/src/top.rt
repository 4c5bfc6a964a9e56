ghost use Rattle.std.specs.Prelude.{◌≡◌, ◌≤◌, ◌<◌, ◌+◌, ◌^◌, IfOk, None, Some, length};
ghost use Rattle.runner.specs.Endings.{change};
ghost use Rattle.schedule.specs.Orders.{AreWithin};
ghost use Rattle.lab_calls.specs.Endings.{LabEnds, Printed, RunsTo, ServesBy, ServesTo, text_of};
ghost use Rattle.lab_runs.specs.Runs.{IsTraceable};
ghost use Rattle.lab_calls.specs.Words.{form_of, IsInRange};

use crate::NoMemory;
use crate::counting::print_outcomes;
use crate::judging::print_verdict;
use crate::printing::{end_astray, end_fault, end_unread, print, with_text};
use crate::status::{Finished, Status};
use crate::words::{Form, Words};
use lab_runs::{Ran, run, trace};
use runner::listing_of_machine;
use schedule::{Scheduled, read_scheduled};
use site_io::{Sink, Source, read_all};
use std::alloc::Global;

/// The most bytes that a script with its schedule has.
pub const SCHEDULE_BYTES: usize = 134_217_728;

/// What the program writes where its words are no form of it.
const USAGE: &[u8] = b"usage: lab steps | trace | outcomes N SEED | why\n";

/// What is printed of a machine that followed a schedule: its listing, or its trace.
fn text_of(alloc: Global, traced: bool, ran: &Ran) -> Result<Vec<u8>, NoMemory>
    requires { IsTraceable ran.now }
    ensures { IfOk result (λ text. text.items ≡ text_of traced ran.now) }
{
    if traced {
        trace(alloc, ran)
    } else {
        listing_of_machine(alloc, &ran.machine)
    }
}

/// Writes the listing or the trace of a machine that followed a schedule.
fn print_run<K: Sink>(alloc: Global, traced: bool, ran: &Ran, out: &mut K) -> Status
    requires { IsTraceable ran.now }
    ensures printed { Printed result
        (change (K.held out.old) (K.held out.new) (K.faults out.old) (K.faults out.new)) (text_of traced ran.now) }
{
    match text_of(alloc, traced, ran) {
        Ok(text) => print(out, &text),
        Err(_) => Status::Memory,
    }
}

/// A call that ended without a machine.
fn without_run(status: Status) -> Finished
    ensures { result.status ≡ status }
{
    Finished { status, ran: None }
}

/// Runs a script by its schedule, and writes its listing or its trace.
fn run_and_print<K: Sink>(
    alloc: Global,
    traced: bool,
    scheduled: Scheduled,
    out: &mut K,
) -> Finished
    requires { AreWithin scheduled.script.processors scheduled.lines.items }
    ensures { RunsTo traced scheduled.script scheduled.lines.items result.status
        (change (K.held out.old) (K.held out.new) (K.faults out.old) (K.faults out.new)) }
{
    match run(alloc, scheduled) {
        Ok(ran) => {
            let status = print_run(alloc, traced, &ran, out);
            Finished {
                status,
                ran: Some(ran),
            }
        }
        Err(astray) => without_run(end_astray(alloc, astray, out)),
    }
}

/// Runs the input that was read, and writes its listing or its trace.
fn serve_bytes<K: Sink>(alloc: Global, traced: bool, bytes: &[u8], out: &mut K) -> Finished
    requires { length bytes.now < 2 ^ 31 }
    ensures { ServesTo traced bytes.now result.status
        (change (K.held out.old) (K.held out.new) (K.faults out.old) (K.faults out.new)) }
{
    match read_scheduled(alloc, bytes) {
        Ok(scheduled) => run_and_print(alloc, traced, scheduled, out),
        Err(fault) => without_run(end_fault(alloc, fault, out)),
    }
}

/// Serves the input that was read, by what was asked for.
fn serve<K: Sink>(alloc: Global, form: Form, bytes: &[u8], out: &mut K) -> Finished
    requires range { IsInRange form }
    requires few { length bytes.now ≤ 134217728 }
    ensures { ServesBy form bytes.now result.status
        (change (K.held out.old) (K.held out.new) (K.faults out.old) (K.faults out.new)) }
{
    match form {
        Form::Steps => serve_bytes(alloc, false, bytes, out),
        Form::Trace => serve_bytes(alloc, true, bytes, out),
        Form::Outcomes { runs, seed } => without_run(print_outcomes(alloc, runs, seed, bytes, out)),
        Form::Why => without_run(print_verdict(alloc, bytes, out)),
    }
}

/// Reads the input from the source to its end, and serves it.
fn read_and_run<S: Source, K: Sink>(alloc: Global, form: Form, src: &mut S, out: &mut K) -> Finished
    requires { IsInRange form }
    ensures { LabEnds (Some form)
        (change (S.left src.old) (S.left src.new) (S.faults src.old) (S.faults src.new))
        (change (K.held out.old) (K.held out.new) (K.faults out.old) (K.faults out.new)) result.status }
{
    match read_all(alloc, src, form.limit()) {
        Ok(bytes) => serve(alloc, form, &bytes, out),
        Err(unread) => without_run(end_unread(unread, out)),
    }
}

/// Runs the program: `steps` reads a script with a schedule from the source to its end, has the processors of its
/// machine make their steps in that order, and writes its listing; `trace` reads the same, and writes each step, with
/// what it was answered and which entries it appended; `outcomes` reads a script alone, runs it by schedules that are
/// drawn from one seed after the other, and writes each different list of replies once, with how many runs came to it,
/// and where the accounts differ that the runs left; `why` reads a script with anybody's listing of it, and writes what
/// `multics check` does, and of a line at fault the condition of the rule that doesn't hold there.
///
/// The causes are looked at in this order: the words (`Usage`), a read that fails (`ReadFault`), a source that is too
/// long (`TooLong`), a script that is refused (`Script`), a schedule that is refused as it stands, or that can't be
/// followed (`Schedule`), a line of a listing at fault (`Refused`), a write that fails (`WriteFault`). Want of memory
/// (`Memory`) may stand in place of any but the first, and nothing was written then.
///
/// The machine is booted, makes the steps of the schedule and no others, and is then finished and shut down. It takes
/// memory for each step of the schedule besides what the machine takes; for outcomes it takes a machine at a time, and
/// memory for each outcome. It needs no thread. (Source: Bensoussan, Clingen and Daley 1972; the program is own.)
pub fn lab<S: Source, K: Sink>(alloc: Global, words: Words, src: &mut S, out: &mut K) -> Finished
    // How the call ended, and why, and what it wrote.
    ensures ends { LabEnds (form_of words)
        (change (S.left src.old) (S.left src.new) (S.faults src.old) (S.faults src.new))
        (change (K.held out.old) (K.held out.new) (K.faults out.old) (K.faults out.new)) result.status }

    // Where the words are no form of the program the source is as it was.
    ensures source { form_of words ≡ None → src.new ≡ src.old }
{
    match words.form() {
        None => without_run(with_text(out, USAGE, Status::Usage)),
        Some(form) => read_and_run(alloc, form, src, out),
    }
}
