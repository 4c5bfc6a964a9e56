//! What is told of the book that a run left.

ghost use Rattle.flat_model.specs.Legal.{IsLegal};

use crate::judging::verdict;
use crate::runs::asking::Asked;
use crate::texts::word_line;
use book::Book;
use bulk_store::AnyDrive;
use flat_store::FlatStore;
use no_memory::NoMemory;
use runner::Finished;
use std::alloc::Global;
use volumes::Volumes;

/// How many pages the root is charged for after each entry of a book was allowed by a flat store and followed. None
/// where one wasn't allowed.
fn used_after(store: &mut FlatStore, book: &Book) -> Result<Option<u32>, NoMemory> {
    let script = book.script();
    for entry in book.entries() {
        if !store.allows(script, *entry) {
            return Ok(None);
        }
        store.follow(script, *entry)?;
    }
    Ok(Some(store.used(1)))
}

/// The same for the flat store that the book begins with.
fn followed(alloc: Global, book: &Book) -> Result<Option<u32>, NoMemory> {
    let mut store = FlatStore::boot(alloc, book.script())?;
    let used = used_after(&mut store, book);
    drop(store);
    used
}

/// How many pages the root is charged for, by the flat store that allows and follows each entry of the book, and by the
/// flat store after the book.
fn root_line(alloc: Global, book: &Book, store: &FlatStore) -> Result<String, NoMemory> {
    let after = store.used(1);
    match followed(alloc, book)? {
        Some(used) => Ok(format!(in alloc; "followed: {used}, after: {after}\n")?),
        None => Ok(String::from_str(alloc, "not allowed\n")?),
    }
}

/// Appends the words at the places that are asked for.
fn push_words(
    text: &mut String,
    alloc: Global,
    store: &FlatStore,
    places: &str,
) -> Result<(), NoMemory> {
    for place in places.split(' ').filter(|place| !place.is_empty()) {
        text.push_str(&word_line(alloc, store, place)?)?;
    }
    Ok(())
}

/// What is told of a book, by the flat store after it.
fn told_by(
    alloc: Global,
    asked: &Asked,
    book: &Book,
    store: &FlatStore,
    written: &[u8],
) -> Result<String, NoMemory>
    requires { IsLegal book.now.script book.now.entries }
{
    let mut text = match asked.times {
        0 => root_line(alloc, book, store)?,
        _ => String::new(alloc),
    };
    push_words(&mut text, alloc, store, asked.places)?;
    text.push_str(verdict(alloc, book, store, written)?)?;
    text.push('\n')?;
    Ok(text)
}

/// What is told of a book: where the program runs once, the pages that the root is charged for; the words that are
/// asked for; and what the judges say of it, and of what was written.
fn told_of(alloc: Global, asked: &Asked, book: &Book, written: &[u8]) -> Result<String, NoMemory>
    requires { IsLegal book.now.script book.now.entries }
{
    let store = FlatStore::after(alloc, book)?;
    let told = told_by(alloc, asked, book, &store, written);
    drop(store);
    told
}

/// How often the first volume's disk was read and written, where that is asked for.
fn calls_line(
    alloc: Global,
    asked: &Asked,
    volumes: &Volumes<AnyDrive>,
) -> Result<String, NoMemory> {
    if !asked.calls || volumes.count() == 0 {
        return Ok(String::new(alloc));
    }
    let (reads, writes) = volumes.drive(0).calls();
    Ok(format!(in alloc; "reads {reads}, writes {writes}\n")?)
}

/// What is told of the book and the disk of a run, whose listing is what was written. Empty where no machine booted.
pub(crate) fn book_text(
    alloc: Global,
    asked: &Asked,
    finished: &Finished,
    written: &[u8],
) -> Result<String, NoMemory> {
    match &finished.machine {
        Some(machine) => {
            let mut text = calls_line(alloc, asked, machine.volumes())?;
            text.push_str(&told_of(alloc, asked, machine.book(), written)?)?;
            Ok(text)
        }
        None => Ok(String::new(alloc)),
    }
}
