//! How the lines of a case are read that stand for texts of their own, and what is printed of a flat store.

use flat_store::FlatStore;
use listing::{summary, summary_text};
use no_memory::NoMemory;
use script::{Script, ScriptFault, read_script};
use std::alloc::Global;

/// The most bytes of a script.
const MOST: usize = 4_194_304;

/// What stands between the brackets of a line, if it has some.
pub(crate) fn bracketed(line: &str) -> Option<&str> {
    line.strip_prefix('[')?.strip_suffix(']')
}

/// A front, and a text after it in which a character stands for a line feed.
pub(crate) fn joined(
    alloc: Global,
    front: &str,
    text: &str,
    feed: char,
) -> Result<String, NoMemory> {
    let mut joined = String::from_str(alloc, front)?;
    for c in text.chars() {
        joined.push(if c == feed { '\n' } else { c })?;
    }
    Ok(joined)
}

/// The script that a text is, or why it is none.
pub(crate) fn read(alloc: Global, text: &str) -> Result<Script, ScriptFault> {
    if text.len() > MOST {
        return Err(ScriptFault::Memory);
    }
    read_script(alloc, text.as_bytes())
}

/// The script that a text is, which must be one.
pub(crate) fn script_of(alloc: Global, text: &str) -> Result<Script, NoMemory> {
    match read(alloc, text) {
        Ok(script) => Ok(script),
        Err(_) => Err(NoMemory),
    }
}

/// The accounts and the volumes of a flat store.
pub(crate) fn ends_text(
    alloc: Global,
    script: &Script,
    store: &FlatStore,
) -> Result<String, NoMemory> {
    let summary = summary(alloc, script, store)?;
    summary_text(alloc, &summary)
}

/// The word at a place of a segment, which is a uid and an offset with a dot between.
pub(crate) fn word_line(alloc: Global, store: &FlatStore, place: &str) -> Result<String, NoMemory> {
    let (uid, offset) = place.split_once('.').unwrap_or((place, ""));
    let (Ok(uid), Ok(offset)) = (uid.parse(), offset.parse()) else {
        return Ok(format!(in alloc; "word {place}: no place\n")?);
    };
    let word = store.word(uid, offset);
    Ok(format!(in alloc; "word {place} = {word}\n")?)
}
