//! The end of a run: what the workers left is finished, and the frames are visited.

ghost use Rattle.std.specs.Prelude.{◌≡◌, true, None, OnOk};
ghost use Rattle.machine_model.specs.Actions.{is_over};
ghost use Rattle.machine.specs.Schedules.{Grows};
ghost use Rattle.machine.specs.Turns.{KeepsParts};
ghost use Rattle.bulk_store.specs.AnyDrive.{any_places};
ghost use Rattle.runner.specs.Drives.{faults_in, plan_of};
ghost use Rattle.runner.specs.Runs.{HasEmptied, IsShutDown};

use crate::NoMemory;
use bulk_store::AnyDrive;
use machine::Machine;

/// Visits each frame, with room for the entries of each visit.
fn visit_frames(machine: &mut Machine<AnyDrive>) -> Result<(), NoMemory>
    requires { is_over machine.old.state ≡ true }
    ensures kept { KeepsParts plan_of any_places faults_in machine.old machine.new }
    ensures over { is_over machine.new.state ≡ true }
    ensures emptied { OnOk result (HasEmptied machine.new) }
    ensures entries { Grows machine.old.state.entries machine.new.state.entries }
{
    machine.reserve()?;
    while machine.shutdown_step() {
        machine.reserve()?;
    }
    Ok(())
}

/// Shuts a machine down whose processes have ended: each frame is visited, and the page in it leaves it. (Source: own.)
///
/// # Errors
/// `NoMemory` is want of memory. The visits that were made stand.
pub fn shut_down_machine(machine: &mut Machine<AnyDrive>) -> Result<(), NoMemory>
    requires { is_over machine.old.state ≡ true }
    ensures kept { KeepsParts plan_of any_places faults_in machine.old machine.new }
    ensures ended { OnOk result (IsShutDown machine.new) }
    ensures still { OnOk result (machine.new.state.store.moving ≡ None) }
    ensures entries { Grows machine.old.state.entries machine.new.state.entries }
{
    visit_frames(machine)?;
    machine.ended();
    machine.volumes_at_rest();
    Ok(())
}

/// Steps the processors until all processes have ended, and then visits each frame. A machine that was stopped lacked
/// memory. (Source: own.)
///
/// # Errors
/// `NoMemory` is want of memory. What was done stands.
pub fn end_machine(machine: &mut Machine<AnyDrive>) -> Result<(), NoMemory>
    ensures kept { KeepsParts plan_of any_places faults_in machine.old machine.new }
    ensures ended { OnOk result (IsShutDown machine.new) }
    ensures still { OnOk result (machine.new.state.store.moving ≡ None) }
{
    if machine.stopped() || machine.finish().is_err() {
        return Err(NoMemory);
    }
    shut_down_machine(machine)
}
