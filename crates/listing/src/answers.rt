ghost use Rattle.std.specs.Prelude.{◌≡◌, ◌++◌, ◌<◌, OnOk, length, Some, string_bytes};
ghost use Rattle.std.specs.List.{flat_map};
ghost use Rattle.flat_model.specs.Legal.{part};
ghost use Rattle.listing.specs.Listings.{answer_line, entry_line, own_line, process_line, processes_lines, full_line};
ghost use Rattle.listing.specs.Listings.{body_of};

use book::{Book, Entry, Reply};
use mnames::Who;
use script::{Command, Print, Script, push_command};
use std::alloc::AllocError;

/// Appends `COMMAND = REPLY`.
#[tactic(auto, unfolding(crate::specs::Listings::answer_line))]
fn push_answer(
    out: &mut String,
    script: &Script,
    command: &Command,
    reply: Reply,
) -> Result<(), AllocError>
    ensures { OnOk result (string_bytes out.new ≡ string_bytes out.old
        ++ answer_line script.now (Some command.now) reply) }
{
    push_command(out, script.volumes(), command)?;
    write!(out, " = {reply}\n")
}

/// Appends the line of an entry of a process, and nothing for any other entry.
#[tactic(auto, unfolding(crate::specs::Listings::answer_line))]
fn push_own(out: &mut String, script: &Script, k: u32, entry: &Entry) -> Result<(), AllocError>
    requires { k < length script.now.processes }
    ensures { OnOk result (string_bytes out.new ≡ string_bytes out.old ++ own_line script.now k entry.now) }
{
    match entry {
        Entry::Do {
            process,
            place,
            reply,
            ..
        } if *process == k => match script.commands(k).get(*place as usize) {
            Some(command) => push_answer(out, script, command, *reply),
            None => Ok(()),
        },
        _ => Ok(()),
    }
}

/// Appends a line for each command entry of a process, in order.
#[tactic(auto, using(crate::proofs::LineLaws::push_part_steps, std::proofs::lemmas::Grind::common_steps))]
fn push_part(out: &mut String, book: &Book, k: u32) -> Result<(), AllocError>
    requires { k < length book.now.script.processes }
    ensures { OnOk result (string_bytes out.new ≡ string_bytes out.old
        ++ flat_map (entry_line book.now.script) (part k book.now.entries)) }
{
    let script = book.script();
    for entry in book.entries() {
        push_own(out, script, k, entry)?;
    }
    Ok(())
}

/// Appends `process K WHO`.
#[tactic(auto, unfolding(crate::specs::Listings::process_line))]
fn push_process(out: &mut String, k: u32, who: &Who) -> Result<(), AllocError>
    ensures { OnOk result (string_bytes out.new ≡ string_bytes out.old ++ process_line k who.now) }
{
    write!(out, "process {k} {who}\n")
}

/// Appends for each process its line and those of its command entries.
#[tactic(auto, using(crate::proofs::LineLaws::push_processes_steps, std::proofs::lemmas::Grind::common_steps))]
pub(crate) fn push_processes(out: &mut String, book: &Book) -> Result<(), AllocError>
    ensures { OnOk result (string_bytes out.new ≡ string_bytes out.old
        ++ processes_lines book.now.script book.now.entries 0 book.now.script.processes) }
{
    let script = book.script();
    for k in 0..script.processes() {
        push_process(out, k, script.who(k))?;
        push_part(out, book, k)?;
    }
    Ok(())
}

/// Appends a line for each entry, in order.
#[tactic(auto, using(crate::proofs::LineLaws::push_each_steps), unfolding(crate::specs::Listings::full_line))]
fn push_entries(out: &mut String, entries: &[Entry]) -> Result<(), AllocError>
    ensures { OnOk result (string_bytes out.new ≡ string_bytes out.old ++ flat_map full_line entries.now) }
{
    for entry in entries {
        writeln!(out, "{entry}")?;
    }
    Ok(())
}

/// Appends what stands before the summary, by what the script prints.
#[tactic(auto, unfolding(crate::specs::Listings::body_of))]
pub(crate) fn push_body(out: &mut String, book: &Book) -> Result<(), AllocError>
    ensures { OnOk result (string_bytes out.new ≡ string_bytes out.old
        ++ body_of book.now.script.print book.now.script book.now.entries) }
{
    match book.script().print() {
        Print::Short => Ok(()),
        Print::Replies => push_processes(out, book),
        Print::All => push_entries(out, book.entries()),
    }
}
