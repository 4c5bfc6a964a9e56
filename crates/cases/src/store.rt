//! Follows books by the flat store, and prints what it has after them.
//!
//! Such a case is a line `store`, a script, a line `book`, and lines that are done in their order. An entry must be
//! lawful, and no other reply in its place; then it is followed. An entry after `may` isn't followed, but whether it is
//! lawful is printed. `word U.N` prints the word at offset N of the segment with uid U, `used` how many pages each
//! account is charged for, `volume V` how many records and entries of that volume are in use, and `summary` the
//! accounts and the volumes.

mod asking;
mod following;

use crate::store::following::done_text;
use crate::texts::script_of;
use no_memory::NoMemory;
use std::alloc::Global;

/// What the lines below a script print.
pub(crate) fn given(alloc: Global, text: &str) -> Result<String, NoMemory> {
    let (script, lines) = text.split_once("\nbook\n").unwrap_or((text, ""));
    let script = script_of(alloc, script)?;
    let text = done_text(alloc, &script, lines);
    drop(script);
    text
}
