use crate::texts::{bracketed, joined, read};
use no_memory::NoMemory;
use script::ScriptFault;
use std::alloc::Global;

/// What reading gives: `script`, or the line and the cause of the refusal.
fn outcome(alloc: Global, text: &str) -> Result<String, NoMemory> {
    match read(alloc, text) {
        Ok(script) => {
            drop(script);
            Ok(String::from_str(alloc, "script")?)
        }
        Err(ScriptFault::Refused(refusal)) => {
            let (line, cause) = (refusal.line, refusal.cause);
            Ok(format!(in alloc; "{line}: {cause}")?)
        }
        Err(ScriptFault::Memory) => Err(NoMemory),
    }
}

/// The lines above the first one in brackets.
fn front_of(text: &str) -> &str {
    match text.find("[") {
        Some(place) => text.get(..place).unwrap_or(""),
        None => text,
    }
}

/// Appends what a case gives after a front.
fn push_case(given: &mut String, alloc: Global, front: &str, case: &str) -> Result<(), NoMemory> {
    let script = joined(alloc, front, case, '/')?;
    let outcome = outcome(alloc, script.as_str())?;
    Ok(write!(given, "[{case}] {outcome}\n")?)
}

/// What each line in brackets gives after the front.
pub(crate) fn lines_text(alloc: Global, text: &str) -> Result<String, NoMemory> {
    let front = front_of(text);
    let mut given = String::new(alloc);
    for line in text.lines() {
        if let Some(case) = bracketed(line) {
            push_case(&mut given, alloc, front, case)?;
        }
    }
    Ok(given)
}

/// The lengths of a front from which on reading it gives another answer, each with that answer.
pub(crate) fn cuts_text(alloc: Global, text: &str) -> Result<String, NoMemory> {
    let mut given = String::new(alloc);
    let mut last = String::new(alloc);
    for length in 0..=text.len() {
        let outcome = outcome(alloc, text.get(..length).unwrap_or("/"))?;
        if outcome != last {
            write!(given, "from {length}: {outcome}\n")?;
            last = outcome;
        }
    }
    Ok(given)
}
