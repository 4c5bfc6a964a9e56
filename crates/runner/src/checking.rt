ghost use Rattle.std.specs.Prelude.{◌≡◌, None, IfOk, Some};
ghost use Rattle.runner.specs.Endings.{change, Ends, Offends, Printed};
ghost use Rattle.runner.specs.Texts.{accepted_text, offence_text};
ghost use Rattle.runner.specs.declared.words.Form.TheVariants as form;

use crate::NoMemory;
use crate::finished::{Finished, Status};
use crate::printing::{print, with_text, without_machine, write_refusal};
use crate::reading::end_unread;
use book_check::{CheckFault, Offence, check_book};
use site_io::{Sink, Source, read_all};
use std::alloc::Global;

/// The most bytes that a script with its listing has.
pub const LISTING_BYTES: usize = 134_217_728;

/// The text of a listing that is accepted, with so many entries.
#[tactic(auto, unfolding(crate::specs::Texts::accepted_text))]
fn accepted(alloc: Global, entries: u32) -> Result<Vec<u8>, NoMemory>
    ensures { IfOk result (λ text. text.items ≡ accepted_text entries) }
{
    let text = format!(in alloc; "accepted {entries} entries\n")?;
    Ok(text.into_bytes())
}

/// The text of a line at fault.
#[tactic(auto, unfolding(crate::specs::Texts::offence_text))]
fn text_of(alloc: Global, offence: Offence) -> Result<Vec<u8>, NoMemory>
    ensures { IfOk result (λ text. text.items ≡ offence_text offence) }
{
    let line = offence.line;
    let rule = offence.rule;
    let text = format!(in alloc; "refused at line {line}: {rule}\n")?;
    Ok(text.into_bytes())
}

/// Writes that a listing is accepted, with so many entries.
fn write_accepted<K: Sink>(alloc: Global, entries: u32, out: &mut K) -> Finished
    ensures printed { Printed result.status
        (change (K.held out.old) (K.held out.new) (K.faults out.old) (K.faults out.new)) (accepted_text entries) }
    ensures machine { result.machine ≡ None }
{
    match accepted(alloc, entries) {
        Ok(text) => without_machine(print(out, &text)),
        Err(_) => without_machine(Status::Memory),
    }
}

/// Writes which line is at fault, or nothing where there is no memory for it.
fn write_offence<K: Sink>(alloc: Global, offence: Offence, out: &mut K) -> Finished
    ensures refused { Offends result.status offence
        (change (K.held out.old) (K.held out.new) (K.faults out.old) (K.faults out.new)) }
    ensures machine { result.machine ≡ None }
{
    match text_of(alloc, offence) {
        Ok(text) => with_text(out, &text, Status::Refused(offence)),
        Err(_) => without_machine(Status::Memory),
    }
}

/// Reads a script with its listing from the source to its end, and judges the listing.
pub(crate) fn read_and_check<S: Source, K: Sink>(
    alloc: Global,
    src: &mut S,
    out: &mut K,
) -> Finished
    ensures { Ends (Some form.Check)
        (change (S.left src.old) (S.left src.new) (S.faults src.old) (S.faults src.new))
        (change (K.held out.old) (K.held out.new) (K.faults out.old) (K.faults out.new)) result }
{
    let bytes = match read_all(alloc, src, LISTING_BYTES) {
        Ok(bytes) => bytes,
        Err(unread) => return end_unread(unread, out),
    };
    match check_book(alloc, &bytes) {
        Ok(entries) => write_accepted(alloc, entries, out),
        Err(CheckFault::Script(refusal)) => write_refusal(alloc, refusal, out),
        Err(CheckFault::Refused(offence)) => write_offence(alloc, offence, out),
        Err(CheckFault::Memory) => without_machine(Status::Memory),
    }
}
