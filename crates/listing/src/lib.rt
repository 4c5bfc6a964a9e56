//! The listing of a run: by its print mode what each process was answered, every entry of the book or neither of the
//! two, then the accounts and the volumes.
#![tactic(auto)]

ghost use Rattle.std.specs.Prelude.{◌≡◌, ◌++◌, IfOk};
ghost use Rattle.flat_model.specs.Legal.{IsLegal};
ghost use Rattle.listing.specs.Listings.{body_of, listing_of, processes_lines, summary_text};

mod answers;
mod counts;
mod lines;
mod summing;

use answers::{push_body, push_processes};
use book::Book;
pub use counts::{AccountCount, Summary, VolumeCount, VolumeUse};
use flat_store::FlatStore;
use lines::push_summary;
pub use lines::summary_text;
pub use no_memory::NoMemory;
use std::alloc::Global;
pub use summing::{account_counts, summary, summary_of_counts};

/// The listing of the book of a run, which must be legal (own): what its script prints, which is what each process was
/// answered, or each entry, or nothing; then the accounts and the volumes, as they are in the flat store after the
/// book. It takes memory for the text and for that store, and goes through the book once for that store, and at most
/// once more for each process.
///
/// # Errors
/// `NoMemory` is want of memory.
pub fn listing_text(alloc: Global, book: &Book) -> Result<Vec<u8>, NoMemory>
    requires { IsLegal book.now.script book.now.entries }
    ensures { IfOk result (λ text. text.items ≡ listing_of book.now.script book.now.entries) }
{
    let store = FlatStore::after(alloc, book)?;
    let summary = summary(alloc, book.script(), &store)?;
    listing_of_summary(alloc, book, &summary)
}

/// What each process of a book was answered, as a listing of the mode `replies` begins: for each process a line, and
/// one for each of its command entries. It takes memory for the text, and goes once through the book for each process.
///
/// # Errors
/// `NoMemory` is want of memory.
pub fn replies_text(alloc: Global, book: &Book) -> Result<Vec<u8>, NoMemory>
    ensures { IfOk result (λ text. text.items
        ≡ processes_lines book.now.script book.now.entries 0 book.now.script.processes) }
{
    let mut text = String::new(alloc);
    push_processes(&mut text, book)?;
    Ok(text.into_bytes())
}

/// What the script of a book prints, and these accounts and volumes. It takes memory for the text, and goes at most
/// once through the book for each process.
///
/// # Errors
/// `NoMemory` is want of memory.
pub fn listing_of_summary(
    alloc: Global,
    book: &Book,
    summary: &Summary,
) -> Result<Vec<u8>, NoMemory>
    ensures { IfOk result (λ text. text.items
        ≡ body_of book.now.script.print book.now.script book.now.entries ++ summary_text summary.now) }
{
    let mut text = String::new(alloc);
    push_body(&mut text, book)?;
    push_summary(&mut text, summary)?;
    Ok(text.into_bytes())
}
