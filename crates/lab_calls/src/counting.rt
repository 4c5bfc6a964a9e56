ghost use Rattle.std.specs.Prelude.{◌+◌, ◌<◌, ◌≤◌, ◌^◌, length};
ghost use Rattle.runner.specs.Endings.{change};
ghost use Rattle.lab_calls.specs.Counted.{CountsTo};

use crate::printing::{print, write_refusal};
use crate::status::Status;
use lab_runs::outcomes_text;
use script::ScriptFault;
use site_io::Sink;
use std::alloc::Global;

/// Writes what is printed of the outcomes of a script, by so many schedules.
pub(crate) fn print_outcomes<K: Sink>(
    alloc: Global,
    runs: u32,
    seed: u32,
    bytes: &[u8],
    out: &mut K,
) -> Status
    requires few { length bytes.now < 2 ^ 31 }
    requires seeds { seed + runs ≤ 2 ^ 32 }
    ensures { CountsTo runs seed bytes.now result
        (change (K.held out.old) (K.held out.new) (K.faults out.old) (K.faults out.new)) }
{
    match outcomes_text(alloc, runs, seed, bytes) {
        Ok(text) => print(out, &text),
        Err(ScriptFault::Refused(refusal)) => write_refusal(alloc, refusal, out),
        Err(ScriptFault::Memory) => Status::Memory,
    }
}
