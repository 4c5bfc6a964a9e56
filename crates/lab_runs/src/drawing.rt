//! A machine makes the steps of a drawn schedule until all processes have ended.

ghost use Rattle.std.specs.Prelude.{◌≡◌, ◌<◌, ◌≤◌, ◌^◌, IfOk, OnOk, length};
ghost use Rattle.lab_runs.specs.Drawn.{DrawsOne, DrawsOut, DrawsUntil, HasDrawn};

use crate::NoMemory;
use crate::following::{Trial, came_of};
use crate::running::{Ran, end};
use crate::steps::{make_step, processors_of};
use bulk_store::AnyDrive;
use draws::Draws;
use machine::Machine;
use runner::boot_machine;
use script::Script;
use std::alloc::Global;

/// After so many steps in a row of which none answered a command no more are drawn.
const IDLE: u32 = 100_000;

/// A processor that is drawn makes its next step.
fn draw_step(machine: &mut Machine<AnyDrive>, draws: &mut Draws) -> Result<Trial, NoMemory>
    ensures drawn { IfOk result (DrawsOne machine.old.state.plan.processors machine.old machine.new
        draws.old.state draws.new.state) }
    ensures script { machine.new.state.plan ≡ machine.old.state.plan }
    ensures few { IfOk result (λ trial. length machine.new.state.entries < 2 ^ 63) }
{
    let before = machine.book().len();
    let c = draws.draw(processors_of(machine));
    let step = make_step(machine, c)?;
    let answered = machine.book().answers_from(before);
    Ok(came_of(answered, step.answer))
}

/// Processors that are drawn make their steps until one answers a command, all processes have ended, or none of so many
/// has answered one.
fn draw_until(machine: &mut Machine<AnyDrive>, draws: &mut Draws) -> Result<Trial, NoMemory>
    ensures drawn { IfOk result (DrawsUntil machine.old.state.plan.processors machine.old machine.new
        draws.old.state draws.new.state) }
    ensures script { machine.new.state.plan ≡ machine.old.state.plan }
    ensures few { IfOk result (λ trial. length machine.new.state.entries < 2 ^ 63) }
{
    machine.book();
    for _step in 0..IDLE {
        let trial = draw_step(machine, draws)?;
        match trial {
            Trial::Seen => return Ok(Trial::Seen),
            Trial::Ended => return Ok(Trial::Ended),
            Trial::Missed => {}
        }
    }
    Ok(Trial::Missed)
}

/// The processors make the steps of the schedule that is drawn from a seed until all processes have ended, or so many
/// in a row have answered no command.
fn draw_out(machine: &mut Machine<AnyDrive>, seed: u32) -> Result<(), NoMemory>
    ensures { OnOk result (DrawsOut machine.old.state.plan.processors seed machine.old machine.new) }
{
    let mut draws = Draws::of(seed);
    loop {
        let trial = draw_until(machine, &mut draws)?;
        match trial {
            Trial::Seen => {}
            Trial::Ended => return Ok(()),
            Trial::Missed => return Ok(()),
        }
    }
}

/// The machine of a script makes the steps of the schedule that is drawn from a seed, and is finished and shut down.
pub(crate) fn run_drawn(alloc: Global, script: Script, seed: u32) -> Result<Ran, NoMemory>
    ensures { IfOk result (λ ran. HasDrawn script seed ran.machine) }
{
    let mut machine = boot_machine(alloc, script)?;
    match draw_out(&mut machine, seed) {
        Ok(()) => end(machine, Vec::new(alloc)),
        Err(NoMemory) => {
            drop(machine);
            Err(NoMemory)
        }
    }
}
