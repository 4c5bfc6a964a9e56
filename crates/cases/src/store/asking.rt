use crate::texts::{ends_text, word_line};
use book::read_entry;
use flat_store::FlatStore;
use no_memory::NoMemory;
use script::Script;
use std::alloc::Global;

/// The root, which has the least uid.
const ROOT: u32 = 1;

/// Whether an entry is lawful.
fn may_text(
    alloc: Global,
    script: &Script,
    store: &FlatStore,
    line: &str,
) -> Result<String, NoMemory> {
    let answer = match read_entry(line.as_bytes()) {
        Some(entry) if store.allows(script, entry) => "lawful",
        Some(_) => "not lawful",
        None => "no entry",
    };
    Ok(format!(in alloc; "{line}: {answer}\n")?)
}

/// How many pages each account is charged for that is charged.
fn used_text(alloc: Global, store: &FlatStore) -> Result<String, NoMemory> {
    let mut text = String::new(alloc);
    for uid in ROOT..store.accounts().next_uid() {
        let used = store.used(uid);
        if used != 0 {
            write!(text, "used {uid} {used}\n")?;
        }
    }
    Ok(text)
}

/// How many records and VTOC entries of a volume are in use.
fn volume_text(alloc: Global, store: &FlatStore, number: &str) -> Result<String, NoMemory> {
    let Ok(volume) = number.parse() else {
        return Ok(format!(in alloc; "volume {number}: no number\n")?);
    };
    let taken = store.taken(volume);
    let entries = store.entries(volume);
    Ok(format!(in alloc; "volume {volume} records {taken} entries {entries}\n")?)
}

/// What a line asks of the flat store.
pub(crate) fn asked_text(
    alloc: Global,
    script: &Script,
    store: &FlatStore,
    line: &str,
) -> Result<String, NoMemory> {
    let (ask, rest) = line.split_once(' ').unwrap_or((line, ""));
    match ask {
        "may" => may_text(alloc, script, store, rest),
        "word" => word_line(alloc, store, rest),
        "volume" => volume_text(alloc, store, rest),
        "used" => used_text(alloc, store),
        "summary" => ends_text(alloc, script, store),
        _ => Ok(format!(in alloc; "{line}: neither an entry nor asked for\n")?),
    }
}
