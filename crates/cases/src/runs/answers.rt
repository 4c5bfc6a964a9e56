ghost use Rattle.std.specs.Prelude.{◌≤◌};

use crate::runs::asking::Asked;
use crate::runs::books::book_text;
use crate::runs::gates::RunGate;
use no_memory::NoMemory;
use runner::{Finished, Status, Words, multics};
use site_io::{MemorySink, MemorySource};
use std::alloc::{AllocError, Global};
use std::str;
use std::sync::Wait;
use std::thread::Threads;

/// How a call ended.
fn ending(status: Status) -> &'static str {
    match status {
        Status::Done => "done",
        Status::Script(_) => "script refused",
        Status::TooLong => "too long",
        Status::Usage => "usage",
        Status::ReadFault => "read fault",
        Status::WriteFault => "write fault",
        Status::Memory => "memory",
        Status::Refused(_) => "listing refused",
    }
}

/// A list of one number.
fn just(alloc: Global, number: u32) -> Result<Vec<u64>, AllocError> {
    Ok(vec![in alloc; u64::from(number)]?)
}

/// A source of some bytes in pieces of this size, of which the read with a number fails.
fn source_of(
    alloc: Global,
    bytes: &[u8],
    piece: usize,
    failing: u32,
) -> Result<MemorySource, NoMemory>
    requires { 1 ≤ piece }
{
    Ok(MemorySource::new(bytes.to_vec(alloc)?, piece, just(alloc, failing)?))
}

/// A sink with the room that is asked for, of which the write with a number fails.
fn sink_of(alloc: Global, asked: &Asked) -> Result<MemorySink, NoMemory> {
    Ok(MemorySink::new(
        alloc,
        asked.room as usize,
        just(alloc, asked.failing_write)?,
    )?)
}

/// How a call ended, the lines that it wrote, what is told of its book, and what of the gate.
fn told<R: Threads + Wait + Sync + AllocGlobal>(
    rt: &R,
    asked: &Asked,
    finished: &Finished,
    written: &[u8],
    gate: &RunGate,
) -> Result<String, NoMemory> {
    let alloc = rt.alloc();
    let ending = ending(finished.status);
    let lines = asked.lines_of(alloc, str::from_utf8(written).unwrap_or("no text\n"))?;
    let book = book_text(alloc, asked, finished, written)?;
    let passed = gate.text(rt, &finished.machine)?;
    Ok(format!(in alloc; "{ending}\n{lines}{book}{passed}")?)
}

/// Calls the program once, and tells of it.
fn call_text<R: Threads + Wait + Sync + AllocGlobal>(
    rt: &R,
    asked: &Asked,
    words: Words,
    source: &mut MemorySource,
    sink: &mut MemorySink,
) -> Result<String, NoMemory> {
    let gate = RunGate::new(rt.alloc(), asked);
    let finished = multics(rt, rt.alloc(), words, source, sink, &gate);
    let told = told(rt, asked, &finished, sink.bytes(), &gate);
    drop(finished);
    told
}

/// What the program answers an input that comes in pieces of so many bytes: how it ended, what it wrote, and what is
/// told of the book that it left.
pub(crate) fn answer_text<R: Threads + Wait + Sync + AllocGlobal>(
    rt: &R,
    asked: &Asked,
    input: &[u8],
    piece: usize,
) -> Result<String, NoMemory>
    requires { 1 ≤ piece }
{
    let alloc = rt.alloc();
    let words = asked.words(alloc)?;
    let mut source = source_of(alloc, input, piece, asked.failing_read)?;
    let mut sink = sink_of(alloc, asked)?;
    call_text(rt, asked, words, &mut source, &mut sink)
}
