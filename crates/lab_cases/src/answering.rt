//! Calls of the program over sources and sinks in memory.

ghost use Rattle.std.specs.Prelude.{◌≤◌};

use crate::asking::Asked;
use lab_calls::{Finished, Status, Words, lab};
use no_memory::NoMemory;
use site_io::{MemorySink, MemorySource};
use std::alloc::{AllocError, Global};
use std::str;

/// The bytes of an input that is read in one piece.
const WHOLE: usize = 1_048_576;

/// How a call ended.
fn ending(status: Status) -> &'static str {
    match status {
        Status::Done => "done",
        Status::Script(_) => "script refused",
        Status::Schedule(_) => "schedule refused",
        Status::Refused(_) => "listing refused",
        Status::TooLong => "too long",
        Status::Usage => "usage",
        Status::ReadFault => "read fault",
        Status::WriteFault => "write fault",
        Status::Memory => "memory",
    }
}

/// A list of one number.
fn just(alloc: Global, number: u32) -> Result<Vec<u64>, AllocError> {
    Ok(vec![in alloc; u64::from(number)]?)
}

/// Calls the program once, and gives how it ended.
fn called(alloc: Global, words: Words, source: &mut MemorySource, sink: &mut MemorySink) -> Status {
    let Finished { status, .. } = lab(alloc, words, source, sink);
    status
}

/// What the program answers an input that comes in pieces of so many bytes: how it ended, and what it wrote.
fn answer(alloc: Global, asked: &Asked, input: &[u8], piece: usize) -> Result<String, NoMemory>
    requires { 1 ≤ piece }
{
    let words = asked.words(alloc)?;
    let mut source = MemorySource::new(
        input.to_vec(alloc)?,
        piece,
        just(alloc, asked.failing_read)?,
    );
    let mut sink = MemorySink::new(
        alloc,
        asked.room as usize,
        just(alloc, asked.failing_write)?,
    )?;
    let ending = ending(called(alloc, words, &mut source, &mut sink));
    let written = str::from_utf8(sink.bytes()).unwrap_or("no text\n");
    Ok(format!(in alloc; "{ending}\n{written}")?)
}

/// What an input gives, which must be the same however it is read.
pub(crate) fn answers(alloc: Global, asked: &Asked, input: &[u8]) -> Result<String, NoMemory> {
    if asked.pieces > 0 {
        return answer(alloc, asked, input, asked.pieces as usize);
    }
    let first = answer(alloc, asked, input, WHOLE)?;
    let other = answer(alloc, asked, input, 1)?;
    if other != first {
        return Ok(format!(in alloc; "{first}in pieces of a byte: {other}")?);
    }
    Ok(first)
}
