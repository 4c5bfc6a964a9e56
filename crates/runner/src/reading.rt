ghost use Rattle.std.specs.Prelude.{◌≡◌, None};
ghost use Rattle.runner.specs.Endings.{change, Ends, Unreads};
ghost use Rattle.runner.specs.declared.words.Form.TheVariants as form;

use crate::finished::{Finished, Status};
use crate::printing::{with_text, without_machine, write_refusal};
use crate::running::run_script;
use script::{ScriptFault, read_script};
use site_io::{Gate, Sink, Source, Unread, read_all};
use std::alloc::Global;
use std::sync::Wait;
use std::thread::Threads;

/// The most bytes that a script has.
pub const SCRIPT_BYTES: usize = 4_194_304;

/// What is written where the source has too many bytes.
const TOO_LONG: &[u8] = b"script too long\n";

/// Ends a call whose source couldn't be read: of one that has too many bytes that is written.
pub(crate) fn end_unread<K: Sink>(unread: Unread, out: &mut K) -> Finished
    ensures unread { Unreads unread result.status
        (change (K.held out.old) (K.held out.new) (K.faults out.old) (K.faults out.new)) }
    ensures machine { result.machine ≡ None }
{
    match unread {
        Unread::TooLong => with_text(out, TOO_LONG, Status::TooLong),
        Unread::ReadFault => without_machine(Status::ReadFault),
        Unread::Memory => without_machine(Status::Memory),
    }
}

/// Reads a script from the source to its end, runs it, and writes its listing. The text is given back before the run,
/// by shrinking it: after a large block is freed, the C library takes others from its heap, where lists that grow leave
/// holes.
pub(crate) fn read_and_run<R: Threads + Wait + Sync, S: Source, K: Sink, G: Gate + Sync>(
    rt: &R,
    alloc: Global,
    src: &mut S,
    out: &mut K,
    gate: &G,
) -> Finished
    ensures { Ends (Some form.Run)
        (change (S.left src.old) (S.left src.new) (S.faults src.old) (S.faults src.new))
        (change (K.held out.old) (K.held out.new) (K.faults out.old) (K.faults out.new)) result }
{
    let mut bytes = match read_all(alloc, src, SCRIPT_BYTES) {
        Ok(bytes) => bytes,
        Err(unread) => return end_unread(unread, out),
    };
    match read_script(alloc, &bytes) {
        Ok(script) => {
            bytes.clear();
            bytes.shrink_to(1);
            run_script(rt, alloc, script, out, gate)
        }
        Err(ScriptFault::Refused(refusal)) => write_refusal(alloc, refusal, out),
        Err(ScriptFault::Memory) => without_machine(Status::Memory),
    }
}
