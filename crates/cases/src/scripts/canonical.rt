use crate::texts::script_of;
use no_memory::NoMemory;
use script::script_text;
use std::alloc::Global;

/// The canonical text of the script that a text is.
fn text_of(alloc: Global, text: &str) -> Result<String, NoMemory> {
    let script = script_of(alloc, text)?;
    let written = script_text(alloc, &script);
    drop(script);
    match String::from_utf8(written?) {
        Ok(text) => Ok(text),
        Err(_) => Err(NoMemory),
    }
}

/// The canonical text of a script, which must be its own canonical text.
pub(crate) fn canonical_text(alloc: Global, text: &str) -> Result<String, NoMemory> {
    let first = text_of(alloc, text)?;
    let second = text_of(alloc, first.as_str())?;
    if first != second {
        return Ok(format!(in alloc; "{first}read as\n{second}")?);
    }
    Ok(first)
}
