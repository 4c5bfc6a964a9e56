//! Steps that are made one after the other, each with what it was answered and how many entries it appended.

ghost use Rattle.std.specs.Prelude.{◌≡◌, ◌<◌, All, IfOk, OnOk};
ghost use Rattle.lab_runs.specs.Steps.{IsMade, MakesAll};

use crate::NoMemory;
use bulk_store::AnyDrive;
use machine::{Machine, Turn};

/// A step that was made (own).
#[derive(Clone, Copy)]
pub struct Step {
    /// The processor that made it.
    pub processor: u32,
    /// What it was answered.
    pub answer: Turn,
    /// How many entries it appended to the book.
    pub entries: usize,
}

/// How many processors the script of a machine has.
pub(crate) fn processors_of(machine: &Machine<AnyDrive>) -> u32
    ensures is { result ≡ machine.now.state.plan.processors }
    ensures some { 0 < result }
{
    let script = machine.book().script();
    script.promise();
    script.processors()
}

/// Processor `c` makes its next step, with room for its entries.
pub(crate) fn make_step(machine: &mut Machine<AnyDrive>, c: u32) -> Result<Step, NoMemory>
    requires { c < machine.old.state.plan.processors }
    ensures made { IfOk result (λ step. IsMade machine.old machine.new step) }
    ensures processor { IfOk result (λ step. step.processor ≡ c) }
    ensures script { machine.new.state.plan ≡ machine.old.state.plan }
{
    machine.reserve()?;
    let before = machine.book().len();
    let answer = machine.step(c);
    let entries = machine.book().len() - before;
    Ok(Step {
        processor: c,
        answer,
        entries,
    })
}

/// The processors of a list make their steps in order, and each step is added to those that were made.
pub(crate) fn make_steps(
    machine: &mut Machine<AnyDrive>,
    steps: &mut Vec<Step>,
    cpus: &[u32],
) -> Result<(), NoMemory>
    requires { All (λ c. c < machine.old.state.plan.processors) cpus.now }
    ensures made { OnOk result (MakesAll machine.old machine.new steps.old.items steps.new.items cpus.now) }
    ensures script { machine.new.state.plan ≡ machine.old.state.plan }
{
    for c in cpus {
        let step = make_step(machine, *c)?;
        steps.push(step)?;
    }
    Ok(())
}
