use crate::texts::{bracketed, joined};
use book::{entry_text, read_entry};
use no_memory::NoMemory;
use std::alloc::Global;

/// The text of the entry that a text is, which must be that text again.
fn read_text(alloc: Global, text: &str) -> Result<String, NoMemory> {
    match read_entry(text.as_bytes()) {
        Some(entry) => entry_text(alloc, entry),
        None => Ok(String::from_str(alloc, "none")?),
    }
}

/// Appends a case, and the text of the entry that it is.
fn push_case(given: &mut String, alloc: Global, case: &str) -> Result<(), NoMemory> {
    let line = joined(alloc, "", case, '/')?;
    let entry = read_text(alloc, line.as_str())?;
    Ok(write!(given, "[{case}] {entry}\n")?)
}

/// The text of the entry that each line in brackets is.
pub(crate) fn entries_text(alloc: Global, text: &str) -> Result<String, NoMemory> {
    let mut given = String::new(alloc);
    for line in text.lines() {
        if let Some(case) = bracketed(line) {
            push_case(&mut given, alloc, case)?;
        }
    }
    Ok(given)
}
