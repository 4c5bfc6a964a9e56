//! The trace of a machine: each step, what it was answered, and the entries that it appended.

ghost use Rattle.std.specs.Prelude.{◌≡◌, ◌++◌, ◌≤◌, IfOk, OnOk, length, string_bytes};
ghost use Rattle.std.specs.List.{flat_map};
ghost use Rattle.lab_runs.specs.Runs.{IsTraceable};
ghost use Rattle.lab_runs.specs.Steps.{entries_in};
ghost use Rattle.lab_runs.specs.Traces.{book_text, entry_line, step_line, steps_text, trace_text};

use crate::NoMemory;
use crate::answers::push_answer;
use crate::running::Ran;
use crate::steps::Step;
use book::Entry;
use listing::summary_text;
use runner::summary_of_machine;
use std::alloc::{AllocError, Global};

/// Appends `step C -> ANSWER`.
#[tactic(auto, unfolding(crate::specs::Traces::step_line))]
fn push_step(out: &mut String, step: Step) -> Result<(), AllocError>
    ensures { OnOk result (string_bytes out.new ≡ string_bytes out.old ++ step_line step) }
{
    let processor = step.processor;
    write!(out, "step {processor} -> ")?;
    push_answer(out, step.answer)?;
    write!(out, "\n")
}

/// Appends a line for each entry, two spaces in.
#[tactic(auto, using(listing::proofs::LineLaws::push_each_steps), unfolding(crate::specs::Traces::entry_line))]
fn push_entries(out: &mut String, entries: &[Entry]) -> Result<(), AllocError>
    ensures { OnOk result (string_bytes out.new ≡ string_bytes out.old ++ flat_map entry_line entries.now) }
{
    for entry in entries {
        write!(out, "  {entry}\n")?;
    }
    Ok(())
}

/// Appends each step, with the entries that it appended, which stand in a row.
#[tactic(auto, using(crate::proofs::TraceLaws::push_steps_steps))]
fn push_steps(out: &mut String, steps: &[Step], entries: &[Entry]) -> Result<(), AllocError>
    requires { entries_in steps.now ≤ length entries.now }
    ensures { OnOk result (string_bytes out.new ≡ string_bytes out.old ++ steps_text steps.now entries.now) }
{
    let mut rest = entries;
    for step in steps {
        let (its, after) = rest.split_at(step.entries);
        push_step(out, *step)?;
        push_entries(out, its)?;
        rest = after;
    }
    Ok(())
}

/// Appends the entries of the steps, then those by which the machine was finished, and then those of its shutdown.
#[tactic(auto, unfolding(crate::specs::Traces::book_text))]
fn push_book(out: &mut String, ran: &Ran) -> Result<(), AllocError>
    requires { IsTraceable ran.now }
    ensures { OnOk result (string_bytes out.new ≡ string_bytes out.old
        ++ book_text ran.now.machine.state.entries ran.now.steps.items ran.now.stepped ran.now.finished) }
{
    let (stepped, rest) = ran.machine.book().entries().split_at(ran.stepped);
    let (finished, shut) = rest.split_at(ran.finished - ran.stepped);
    push_steps(out, &ran.steps, stepped)?;
    write!(out, "finish\n")?;
    push_entries(out, finished)?;
    write!(out, "shutdown\n")?;
    push_entries(out, shut)
}

/// The trace of a machine that followed a schedule, and was finished and shut down.
#[tactic(auto, unfolding(crate::specs::Traces::trace_text))]
pub fn trace(alloc: Global, ran: &Ran) -> Result<Vec<u8>, NoMemory>
    requires { IsTraceable ran.now }
    ensures { IfOk result (λ text. text.items ≡ trace_text ran.now.machine.state.plan ran.now.machine.state.entries
        ran.now.steps.items ran.now.stepped ran.now.finished) }
{
    let summary = summary_of_machine(alloc, &ran.machine)?;
    let mut text = String::new(alloc);
    push_book(&mut text, ran)?;
    let summary = summary_text(alloc, &summary)?;
    text.push_str(&summary)?;
    Ok(text.into_bytes())
}
