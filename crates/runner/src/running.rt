//! A run of a script: the machine is booted, its workers make its steps, and what they left is ended and printed.

ghost use Rattle.std.specs.Prelude.{◌≡◌, IfOk, IfSome, IsSomeAnd};
ghost use Rattle.machine.specs.Turns.{HaveCounted, KeepsParts};
ghost use Rattle.bulk_store.specs.AnyDrive.{any_places};
ghost use Rattle.runner.specs.Drives.{AreTold, faults_in, plan_of};
ghost use Rattle.runner.specs.Endings.{change, LeavesRun, MayHaveRun, PrintsIfRun, PrintsRun};
ghost use Rattle.runner.specs.Runs.{IsBooted, IsRun};

use crate::NoMemory;
use crate::drives::drives_of;
use crate::ending::end_machine;
use crate::finished::{Finished, Status};
use crate::printing::{print, without_machine};
use crate::summing::listing_of_machine;
use bulk_store::AnyDrive;
use machine::Machine;
use script::Script;
use site_io::{Gate, Sink};
use std::alloc::Global;
use std::sync::Wait;
use std::thread::Threads;
use workers::run_workers;

/// The machine of a script over the drives of its volumes, before its first step. (Source: own.)
///
/// # Errors
/// `NoMemory` is want of memory.
pub fn boot_machine(alloc: Global, script: Script) -> Result<Machine<AnyDrive>, NoMemory>
    ensures booted { IfOk result (IsBooted script) }
    ensures script { IfOk result (λ m. m.state.plan ≡ script) }
    ensures drives { IfOk result (λ m. AreTold script m.drives) }
    ensures counted { IfOk result (λ m. HaveCounted faults_in 0 0 m) }
{
    let drives = drives_of(alloc, &script)?;
    Machine::boot(alloc, script, drives)
}

/// Ends what the workers left, and writes the listing.
fn end_and_print<K: Sink>(alloc: Global, machine: &mut Machine<AnyDrive>, out: &mut K) -> Status
    ensures kept { KeepsParts plan_of any_places faults_in machine.old machine.new }
    ensures printed { PrintsRun result machine.new
        (change (K.held out.old) (K.held out.new) (K.faults out.old) (K.faults out.new)) }
    ensures status { MayHaveRun result }
{
    if end_machine(machine).is_err() {
        return Status::Memory;
    }
    match listing_of_machine(alloc, machine) {
        Ok(text) => print(out, &text),
        Err(_) => Status::Memory,
    }
}

/// What is left of a run that came to a status.
fn left(machine: Machine<AnyDrive>, status: Status) -> Finished
    requires told { AreTold machine.state.plan machine.drives }
    requires counted { HaveCounted faults_in 0 0 machine }
    ensures status { result.status ≡ status }
    ensures machine { result.machine ≡ Some machine }
    ensures run { IsRun machine }
{
    machine.book();
    machine.volumes().promise();
    Finished {
        status,
        machine: Some(machine),
    }
}

/// Has workers step a machine that was booted, ends what they leave, and writes the listing. The machine is left,
/// however that ended.
fn run_machine<R: Threads + Wait + Sync, K: Sink, G: Gate + Sync>(
    rt: &R,
    alloc: Global,
    machine: Machine<AnyDrive>,
    out: &mut K,
    gate: &G,
) -> Finished
    requires told { AreTold machine.state.plan machine.drives }
    requires counted { HaveCounted faults_in 0 0 machine }
    ensures { IsSomeAnd result.machine (λ m. LeavesRun machine.state.plan result.status m
        (change (K.held out.old) (K.held out.new) (K.faults out.old) (K.faults out.new))) }
{
    let mut machine = run_workers(rt, machine, gate);
    let status = end_and_print(alloc, &mut machine, out);
    left(machine, status)
}

/// Runs a script, and writes its listing.
pub(crate) fn run_script<R: Threads + Wait + Sync, K: Sink, G: Gate + Sync>(
    rt: &R,
    alloc: Global,
    script: Script,
    out: &mut K,
    gate: &G,
) -> Finished
    ensures printed { PrintsIfRun result.status result.machine
        (change (K.held out.old) (K.held out.new) (K.faults out.old) (K.faults out.new)) }
    ensures script { IfSome result.machine (λ m. m.state.plan ≡ script) }
    ensures run { IfSome result.machine IsRun }
    ensures booted { IfSome result.machine (λ m. MayHaveRun result.status) }
{
    let Ok(machine) = boot_machine(alloc, script) else {
        return without_machine(Status::Memory);
    };
    run_machine(rt, alloc, machine, out, gate)
}
