//! Many machines of one script, whose processors make their steps in any order.

use crate::judging::may_stand;
use crate::steps::booting::{Stuck, booted};
use crate::steps::case::step;
use bulk_store::AnyDrive;
use draws::Draws;
use machine::{Machine, Turn};
use site_io::NoGate;
use std::alloc::Global;
use std::sync::Wait;
use std::thread::Threads;
use workers::run_workers;

/// How many steps are drawn by chance.
const DRAWN: u32 = 500;

/// The most rounds of a machine.
const ROUNDS: u32 = 10_000_000;

/// Steps of processors that are drawn from a seed.
fn draw_steps(machine: &mut Machine<AnyDrive>, seed: u32) -> Result<(), Stuck> {
    let processors = machine.book().script().processors();
    if processors == 0 {
        return Err(Stuck);
    }
    let mut draws = Draws::of(seed);
    for _ in 0..DRAWN {
        step(machine, draws.draw(processors))?;
    }
    Ok(())
}

/// Whether the book of a machine may stand after steps of processors that are drawn from a seed.
fn stands_after(alloc: Global, machine: &mut Machine<AnyDrive>, seed: u32) -> Result<bool, Stuck> {
    draw_steps(machine, seed)?;
    Ok(may_stand(alloc, machine.book())?)
}

/// Whether the book of the machine of a script may stand after steps that are drawn from a seed.
fn script_stands_after(alloc: Global, script: &str, seed: u32) -> Result<bool, Stuck> {
    let mut machine = booted(alloc, script)?;
    let stands = stands_after(alloc, &mut machine, seed);
    drop(machine);
    stands
}

/// Machines of a script, each with steps of processors drawn by chance, and how many of their books may stand.
pub(crate) fn lists(alloc: Global, script: &str, count: u32) -> Result<String, Stuck> {
    let mut standing: u32 = 0;
    for seed in 0..count {
        if script_stands_after(alloc, script, seed)? {
            standing = standing.saturating_add(1);
        }
    }
    Ok(format!(in alloc; "= {standing} may stand\n")?)
}

/// A step of each processor in turn, and whether all processes had ended before the last one.
fn round(machine: &mut Machine<AnyDrive>) -> Result<bool, Stuck> {
    let mut ended = false;
    for processor in 0..machine.book().script().processors() {
        ended = step(machine, processor)? == Turn::Ended;
    }
    Ok(ended)
}

/// A step of each processor in turn, until all processes have ended.
pub(crate) fn rounds(machine: &mut Machine<AnyDrive>) -> Result<(), Stuck> {
    for _ in 0..ROUNDS {
        if round(machine)? {
            return Ok(());
        }
    }
    Err(Stuck)
}

/// Whether all processes of a machine have ended and its book may stand.
fn is_over(alloc: Global, machine: &mut Machine<AnyDrive>) -> Result<bool, Stuck> {
    let ended = step(machine, 0)? == Turn::Ended;
    Ok(ended && may_stand(alloc, machine.book())?)
}

/// Whether all processes of a machine have ended, and its book may stand, after its workers have made their steps.
fn is_over_with_workers<R: Threads + Wait + Sync + AllocGlobal>(
    rt: &R,
    script: &str,
) -> Result<bool, Stuck> {
    let mut machine = run_workers(rt, booted(rt.alloc(), script)?, &NoGate);
    let over = is_over(rt.alloc(), &mut machine);
    drop(machine);
    over
}

/// Machines of a script, each with a worker thread for each processor, and of how many the processes have ended with a
/// book that may stand.
pub(crate) fn workers<R: Threads + Wait + Sync + AllocGlobal>(
    rt: &R,
    script: &str,
    count: u32,
) -> Result<String, Stuck> {
    let mut standing: u32 = 0;
    for _ in 0..count {
        if is_over_with_workers(rt, script)? {
            standing = standing.saturating_add(1);
        }
    }
    Ok(format!(in rt.alloc(); "= {standing} have ended and may stand\n")?)
}
