//! Reads names, labels, principals, rows and paths, and prints what each is read as.
//!
//! Such a case is a line `names KIND`, and below it lines in brackets, each of which is a text of that kind, or of
//! none; `|` stands for a line feed. Where a text is read, what is written for it must be read as the same again.

mod kinds;
mod paths;

use crate::names::kinds::read_as;
use crate::texts::{bracketed, joined};
use no_memory::NoMemory;
use std::alloc::Global;

/// Appends a text, and what it is read as.
fn push_line(given: &mut String, alloc: Global, kind: &str, text: &str) -> Result<(), NoMemory> {
    let whole = joined(alloc, "", text, '|')?;
    let read = read_as(alloc, kind, whole.as_str())?;
    Ok(write!(given, "[{text}] {read}\n")?)
}

/// What each line of a case is read as.
pub(crate) fn given(alloc: Global, kind: &str, lines: &str) -> Result<String, NoMemory> {
    let mut given = String::new(alloc);
    for line in lines.lines() {
        if let Some(text) = bracketed(line) {
            push_line(&mut given, alloc, kind, text)?;
        }
    }
    Ok(given)
}
