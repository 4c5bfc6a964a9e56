//! Reads scripts and entries, and prints what each is read as, or why it isn't.
//!
//! Such a case begins with one of these lines:
//! - `scripts lines`; below it stand a front, and lines in brackets, each of which is what a script has after the
//!   front; `/` stands for a line feed. Printed is `script`, or the line and the cause of the refusal;
//! - `scripts cuts`, and below it a script, of which each front is read. Printed are the lengths from which on the
//!   answer is another;
//! - `scripts text`, and below it a script, of which the canonical text is printed, where it is read as itself again;
//! - `scripts entries`, and below it lines in brackets, each of which is the text of an entry or of none.

mod canonical;
mod entries;
mod outcomes;

use crate::scripts::canonical::canonical_text;
use crate::scripts::entries::entries_text;
use crate::scripts::outcomes::{cuts_text, lines_text};
use no_memory::NoMemory;
use std::alloc::Global;

/// What a text gives, which is read in one of four ways.
pub(crate) fn given(alloc: Global, way: &str, text: &str) -> Result<String, NoMemory> {
    match way {
        "lines" => lines_text(alloc, text),
        "cuts" => cuts_text(alloc, text),
        "text" => canonical_text(alloc, text),
        "entries" => entries_text(alloc, text),
        _ => Ok(String::from_str(alloc, "no way of reading\n")?),
    }
}
