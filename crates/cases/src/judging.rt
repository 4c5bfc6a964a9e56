//! What both judges say of a book.

ghost use Rattle.flat_model.specs.Legal.{IsLegal};

use crate::texts::ends_text;
use book::{Book, entry_text};
use book_check::{CheckFault, Rule, check_book};
use flat_store::FlatStore;
use listing::listing_text;
use no_memory::NoMemory;
use script::script_text;
use std::alloc::{AllocError, Global};

/// The most bytes of a text that is judged.
const MOST: usize = 134_217_728;

/// What a listing must have beyond its entries: that each process has ended, that no stored page is all zeros, and the
/// summary.
const ENDINGS: [Rule; 3] = [Rule::Incomplete, Rule::ZeroPage, Rule::WrongSum];

/// Appends some text.
fn push(text: &mut Vec<u8>, more: &str) -> Result<(), AllocError> {
    Ok(text.extend_from_slice(more.as_bytes())?)
}

/// A script, a line `book`, and every entry of its book.
fn entries_text(alloc: Global, book: &Book) -> Result<Vec<u8>, NoMemory> {
    let mut text = script_text(alloc, book.script())?;
    push(&mut text, "book\n")?;
    for entry in book.entries() {
        let line = entry_text(alloc, *entry)?;
        push(&mut text, &line)?;
        push(&mut text, "\n")?;
    }
    Ok(text)
}

/// A book with its script and its summary, as the judge of listings reads it.
fn whole_text(alloc: Global, book: &Book, store: &FlatStore) -> Result<Vec<u8>, NoMemory> {
    let mut text = entries_text(alloc, book)?;
    push(&mut text, &ends_text(alloc, book.script(), store)?)?;
    Ok(text)
}

/// Whether both judges accept a text, or refuse it only by one of some rules.
fn is_accepted(alloc: Global, text: &[u8], but: &[Rule]) -> Result<bool, NoMemory> {
    if text.len() > MOST {
        return Ok(false);
    }
    match check_book(alloc, text) {
        Ok(_) => Ok(true),
        Err(CheckFault::Refused(offence)) => Ok(but.iter().any(|rule| *rule == offence.rule)),
        Err(CheckFault::Script(_)) => Ok(false),
        Err(CheckFault::Memory) => Err(NoMemory),
    }
}

/// Whether each entry of a book may stand at its place, whatever a listing must have beyond its entries.
pub(crate) fn may_stand(alloc: Global, book: &Book) -> Result<bool, NoMemory> {
    let text = entries_text(alloc, book)?;
    is_accepted(alloc, &text, &ENDINGS)
}

/// What is said of a book and of a text: whether both judges accept the book whole, whose processes have all ended and
/// which leaves no stored page of zeros, and the text is its listing.
pub(crate) fn verdict(
    alloc: Global,
    book: &Book,
    store: &FlatStore,
    written: &[u8],
) -> Result<&'static str, NoMemory>
    requires { IsLegal book.now.script book.now.entries }
{
    let is_whole = is_accepted(alloc, &whole_text(alloc, book, store)?, &[])?;
    if !is_whole {
        Ok("refused")
    } else if listing_text(alloc, book)?.as_slice() == written {
        Ok("accepted and listed")
    } else {
        Ok("accepted, and not listed")
    }
}
