//! `multics run` reads a script from standard input, runs it, and prints its listing; `multics check` judges anybody's
//! listing of a script.
#![tactic(auto)]

use runner::{Status, Words, multics};
use site_io::{NoGate, StdSink, StdSource};
use std::alloc::{AllocError, Global};
use std::env::FillError;
use std::process::ExitCode;
use std::rt::Env;

/// For how many bytes of an argument there is room at first.
const ROOM: usize = 256;

/// What there is at a place among the arguments.
enum Found {
    /// An argument of these bytes.
    Bytes(Vec<u8>),
    /// One with more bytes than there was room for.
    Longer,
    /// None: there are fewer arguments.
    Missing,
}

/// The argument at a place, with room for so many bytes.
fn argument_within(
    rt: &impl Env,
    alloc: Global,
    place: usize,
    room: usize,
) -> Result<Found, AllocError> {
    let mut bytes = vec![in alloc; 0; room]?;
    match rt.arg(place, bytes.as_mut_slice()) {
        Ok(length) => {
            bytes.truncate(length);
            Ok(Found::Bytes(bytes))
        }
        Err(FillError::TooLong) => Ok(Found::Longer),
        Err(FillError::NotPresent) => Ok(Found::Missing),
    }
}

/// The bytes of the argument at a place. None where there are fewer arguments.
fn argument(rt: &impl Env, alloc: Global, place: usize) -> Result<Option<Vec<u8>>, AllocError> {
    let mut room = ROOM;
    for _ in 0..usize::BITS {
        match argument_within(rt, alloc, place, room)? {
            Found::Bytes(bytes) => return Ok(Some(bytes)),
            Found::Longer => room = room.saturating_mul(2),
            Found::Missing => return Ok(None),
        }
    }
    Err(AllocError)
}

/// The program's arguments without its name, whose bytes need not be text.
fn words(rt: &impl Env, alloc: Global) -> Result<Words, AllocError> {
    let mut words = Vec::new(alloc);
    for place in 1..usize::MAX {
        let Some(word) = argument(rt, alloc, place)? else {
            break;
        };
        words.push(word)?;
    }
    Ok(Words::new(words))
}

fn main(rt: HostRuntime) -> ExitCode {
    let Ok(words) = words(&rt, rt.alloc()) else {
        return ExitCode::from(Status::Memory.number());
    };
    let mut source = StdSource::new(rt.stdin());
    let mut sink = StdSink::new(rt.stdout());
    let finished = multics(&rt, rt.alloc(), words, &mut source, &mut sink, &NoGate);
    let status = finished.status;
    drop(finished);
    ExitCode::from(status.number())
}
