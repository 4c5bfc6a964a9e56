//! A day's use of the machine: a script that is made up from a number.
//!
//! An initializer makes two directories with quota of their own, a segment that all users share, one that all count in,
//! and one for each of four users. Each user then adds to the counter, reads and writes the shared segment, and reads
//! and writes the own one, 1996 times, as numbers are drawn. Nobody but its owner writes an own segment, words that
//! are written to the shared one aren't 0, and quota and records suffice; so the accounts at the end are the same
//! however the processors interleave. The 273 pages don't fit into 64 frames, and the four own segments share three
//! places of the pool for their page tables.
//!
//! The text is made line by line; nothing else takes memory.
#![tactic(auto)]

ghost use Rattle.std.specs.Prelude.{◌≡◌, ◌≤◌, ◌<◌, ◌++◌, ◌+◌, codes, IfOk, Ok, OnOk, string_bytes};
ghost use Rattle.script.specs.Grammar.{script_of};
ghost use Rattle.script.specs.Scripts.{commands_text, ended, process_text, processes_text};
ghost use Rattle.script.specs.Texts.{command_text};
ghost use Rattle.make_work.specs.Day.{day_of, made, user, users};
ghost use Rattle.make_work.specs.References.{reference_at, references, state_after, state_at};

mod lines;

use draws::Draws;
use lines::push_day;
pub use no_memory::NoMemory;
use std::alloc::Global;

/// The script of the day of a number: 9 lines before the processes, an initializer of 17 commands, and four users of
/// 2000 commands each, about 160,000 bytes. (Source: own.)
pub fn make_script(alloc: Global, n: u32) -> Result<Vec<u8>, NoMemory>
    ensures text { IfOk result (λ text. text.items ≡ made n) }
    // it is a script, that of the day
    ensures accepted { IfOk result (λ text. script_of text.items ≡ Ok (day_of n)) }
{
    script::each_text_is_read_again();
    let mut out = String::new(alloc);
    match push_day(&mut out, Draws::of(n)) {
        Ok(()) => Ok(out.into_bytes()),
        Err(_) => Err(NoMemory),
    }
}
