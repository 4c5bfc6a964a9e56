//! The outcomes of a script over schedules that are drawn from one seed after the other.

ghost use Rattle.std.specs.Prelude.{◌+◌, ◌<◌, ◌≤◌, ◌^◌, IfErr, IfOk, OnOk, length};
ghost use Rattle.script.specs.Plans.{Plan};
ghost use Rattle.lab_runs.specs.Drawn.{HasDrawn};
ghost use Rattle.lab_runs.specs.Outcomes.{AddsDrawn, AddsRun, IsReportOf, IsUnscripted};

use crate::NoMemory;
use crate::drawing::run_drawn;
use crate::ends::accounts_text;
use crate::running::Ran;
use bulk_store::AnyDrive;
use listing::replies_text;
use machine::Machine;
use outcomes::{Table, report};
use script::{Script, ScriptFault, read_script};
use std::alloc::Global;

/// Adds to a table how the run of a script ended by the schedule of a seed.
fn add_end(
    alloc: Global,
    table: &mut Table,
    machine: &Machine<AnyDrive>,
    seed: u32,
) -> Result<(), NoMemory>
    ensures { (p : Plan) → HasDrawn p seed machine.now → OnOk result (AddsDrawn p seed table.old table.new) }
{
    let replies = replies_text(alloc, machine.book())?;
    let accounts = accounts_text(alloc, machine.accounts())?;
    table.add(alloc, replies, accounts, seed)
}

/// Runs a script by the schedule of a seed, and adds how that ended to a table.
fn add_drawn(alloc: Global, table: &mut Table, script: Script, seed: u32) -> Result<(), NoMemory>
    ensures { OnOk result (AddsDrawn script seed table.old table.new) }
{
    let Ran { machine, .. } = run_drawn(alloc, script, seed)?;
    let added = add_end(alloc, table, &machine, seed);
    drop(machine);
    added
}

/// Reads a script, runs it by the schedule of a seed, and adds how that ended to a table.
#[tactic(auto, using(crate::proofs::CountLaws::adds_run, std::proofs::lemmas::Grind::common_steps))]
fn add_run(alloc: Global, table: &mut Table, bytes: &[u8], seed: u32) -> Result<(), ScriptFault>
    requires { length bytes.now < 2 ^ 31 }
    ensures added { OnOk result (AddsRun bytes.now seed table.old table.new) }
    ensures refused { IfErr result (IsUnscripted bytes.now) }
{
    match read_script(alloc, bytes) {
        Ok(script) => match add_drawn(alloc, table, script, seed) {
            Ok(()) => Ok(()),
            Err(_) => Err(ScriptFault::Memory),
        },
        Err(fault) => Err(fault),
    }
}

/// What is printed of the outcomes of a script, by so many schedules: one drawn from the seed, one from the next, and
/// so on. It takes a machine at a time, and memory for each outcome.
///
/// # Errors
/// `Refused` is the first line of the script that is refused, and why; `Memory` is want of memory.
#[tactic(auto, using(crate::proofs::CountLaws::gathers_more, std::proofs::lemmas::Grind::common_steps))]
pub fn outcomes_text(
    alloc: Global,
    runs: u32,
    seed: u32,
    bytes: &[u8],
) -> Result<Vec<u8>, ScriptFault>
    requires few { length bytes.now < 2 ^ 31 }
    requires seeds { seed + runs ≤ 2 ^ 32 }
    ensures report { IfOk result (λ text. IsReportOf bytes.now seed runs text.items) }
    ensures refused { IfErr result (IsUnscripted bytes.now) }
{
    let mut table = Table::new(alloc);
    for run in 0..runs {
        match add_run(alloc, &mut table, bytes, seed + run) {
            Ok(()) => {}
            Err(fault) => return Err(fault),
        }
    }
    match report(alloc, &table, runs) {
        Ok(text) => Ok(text),
        Err(_) => Err(ScriptFault::Memory),
    }
}
