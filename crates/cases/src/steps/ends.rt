//! How a machine is brought to its end, and what its drives were asked for then.

use crate::steps::booting::Stuck;
use bulk_store::AnyDrive;
use machine::Machine;
use std::alloc::Global;

/// The most frames of a machine.
const FRAMES: u32 = 1024;

/// The end of a machine that wasn't stopped.
pub(crate) fn finish(machine: &mut Machine<AnyDrive>) -> Result<(), Stuck> {
    if machine.stopped() {
        return Err(Stuck);
    }
    Ok(machine.finish()?)
}

/// So many steps of a processor, and how many of them moved.
pub(crate) fn run_times(
    alloc: Global,
    machine: &mut Machine<AnyDrive>,
    times: u32,
    processor: u32,
) -> Result<u32, Stuck> {
    if processor >= machine.book().script().processors() {
        return Err(Stuck);
    }
    let mut cpus = Vec::new(alloc);
    for _step in 0..times {
        cpus.push(processor).map_err(|_| Stuck)?;
    }
    Ok(machine.run_schedule(cpus.as_slice())?)
}

/// Visits the next frame, and whether there was one.
fn visit(machine: &mut Machine<AnyDrive>) -> Result<bool, Stuck> {
    machine.reserve()?;
    if machine.ended() {
        Ok(machine.shutdown_step())
    } else {
        Err(Stuck)
    }
}

/// Visits all frames of a machine whose processes have ended.
pub(crate) fn shut_down(machine: &mut Machine<AnyDrive>) -> Result<(), Stuck> {
    for _ in 0..=FRAMES {
        if !visit(machine)? {
            return Ok(());
        }
    }
    Err(Stuck)
}

/// How many reads and writes the drive of each volume was asked for.
pub(crate) fn calls(alloc: Global, machine: &Machine<AnyDrive>) -> Result<String, Stuck> {
    let volumes = machine.volumes();
    let mut printed = String::new(alloc);
    for volume in 0..volumes.count() {
        let (reads, writes) = volumes.drive(volume).calls();
        write!(printed, "volume {volume}: {reads} reads, {writes} writes\n")?;
    }
    Ok(printed)
}
