use crate::store::asking::asked_text;
use book::{Entry, Reply, read_entry};
use flat_store::FlatStore;
use mword::Word;
use no_memory::NoMemory;
use script::Script;
use std::alloc::Global;

/// Replies of which an entry has at most one.
const REPLIES: [Reply; 15] = [
    Reply::Unknown,
    Reply::Gone,
    Reply::NoAccess,
    Reply::Length,
    Reply::Quota,
    Reply::NoRecord,
    Reply::Device,
    Reply::Word(Word::ZERO),
    Reply::Done,
    Reply::Made(99),
    Reply::Known(99),
    Reply::NoPath,
    Reply::IsDir,
    Reply::Over(99),
    Reply::NotEmpty,
];

/// Whether another reply is lawful beside an entry's own: a drive's failure is told in place of `done`.
fn is_lawful_too(reply: &Reply, other: &Reply) -> bool {
    *other == *reply || (*reply == Reply::Device && *other == Reply::Done)
}

/// Whether no other reply of the list is lawful in place of an entry's own.
fn refuses_others(store: &FlatStore, script: &Script, entry: &Entry) -> bool {
    let Entry::Do {
        process,
        place,
        cpu,
        frame,
        reply,
    } = entry
    else {
        return true;
    };
    REPLIES.iter().all(|other| {
        let instead = Entry::Do {
            process: *process,
            place: *place,
            cpu: *cpu,
            frame: *frame,
            reply: *other,
        };
        is_lawful_too(reply, other) || !store.allows(script, instead)
    })
}

/// Follows an entry that is lawful, with this reply alone; what is wrong with another is the answer.
fn follow(store: &mut FlatStore, script: &Script, entry: Entry) -> Result<&'static str, NoMemory> {
    if !store.allows(script, entry) {
        return Ok(": not lawful\n");
    }
    if !refuses_others(store, script, &entry) {
        return Ok(": lawful with another reply\n");
    }
    store.follow(script, entry)?;
    Ok("")
}

/// Does a line, and appends what it prints.
fn push_done(
    out: &mut String,
    alloc: Global,
    script: &Script,
    store: &mut FlatStore,
    line: &str,
) -> Result<(), NoMemory> {
    match read_entry(line.as_bytes()) {
        Some(entry) => {
            let wrong = follow(store, script, entry)?;
            if !wrong.is_empty() {
                write!(out, "{line}{wrong}")?;
            }
        }
        None => out.push_str(&asked_text(alloc, script, store, line)?)?,
    }
    Ok(())
}

/// What lines print that are done in their order.
fn lines_text(
    alloc: Global,
    script: &Script,
    store: &mut FlatStore,
    lines: &str,
) -> Result<String, NoMemory> {
    let mut text = String::new(alloc);
    for line in lines.lines() {
        push_done(&mut text, alloc, script, store, line)?;
    }
    Ok(text)
}

/// What the lines below a script print.
pub(crate) fn done_text(alloc: Global, script: &Script, lines: &str) -> Result<String, NoMemory> {
    let mut store = FlatStore::boot(alloc, script)?;
    let text = lines_text(alloc, script, &mut store, lines);
    drop(store);
    text
}
