ghost use Rattle.std.specs.Prelude.{◌≡◌, ◌++◌, Some, IfOk, string_bytes};
ghost use Rattle.book.specs.Entries.{counted_text, entry_text, number_text, numbers_text, what_text};

use crate::entries::Entry;
use crate::runs::NoMemory;
use assoc_mem::What;
use std::alloc::Global;
use std::fmt;

/// A number, or `-` where there is none.
#[derive(Clone, Copy)]
struct NumberText(Option<u32>);

impl fmt::Display for NumberText {
    ghost output = { λ t. Some (number_text t.0) };

    #[tactic(auto, unfolding(crate::specs::Entries::number_text))]
    fn fmt<W: fmt::Write>(&self, f: &mut fmt::Formatter<W>) -> fmt::Result {
        match self.0 {
            Some(number) => write!(f, "{number}"),
            None => write!(f, "-"),
        }
    }
}

/// What is dropped from associative memories.
#[derive(Clone, Copy)]
struct WhatText(What);

impl fmt::Display for WhatText {
    ghost output = { λ t. Some (what_text t.0) };

    #[tactic(auto, unfolding(crate::specs::Entries::what_text))]
    fn fmt<W: fmt::Write>(&self, f: &mut fmt::Formatter<W>) -> fmt::Result {
        match self.0 {
            What::All => write!(f, "all"),
            What::Page(frame) => write!(f, "page {frame}"),
            What::Seg(uid) => write!(f, "seg {uid}"),
        }
    }
}

/// The numbers after the first words of an entry.
#[derive(Clone, Copy)]
enum Numbers {
    Nothing,
    One(u32),
    Two(u32, u32),
    Three(u32, u32, u32),
}

impl fmt::Display for Numbers {
    ghost output = { λ n. Some (numbers_text n) };

    #[tactic(auto, unfolding(crate::specs::Entries::numbers_text))]
    fn fmt<W: fmt::Write>(&self, f: &mut fmt::Formatter<W>) -> fmt::Result {
        match self {
            Numbers::Nothing => Ok(()),
            Numbers::One(first) => write!(f, "{first}"),
            Numbers::Two(first, second) => write!(f, "{first} {second}"),
            Numbers::Three(first, second, third) => write!(f, "{first} {second} {third}"),
        }
    }
}

/// The first words of an entry that has only numbers after them, and these; of any other nothing.
#[tactic(auto, unfolding(crate::specs::Entries::counted_text, crate::specs::Entries::numbers_text))]
fn counted(entry: &Entry) -> (&'static str, Numbers)
    ensures { result.0.now ++ numbers_text result.1 ≡ counted_text entry.now }
{
    match *entry {
        Entry::Release { uid, page } => ("release ", Numbers::Two(uid, page)),
        Entry::Online { cpu } => ("online ", Numbers::One(cpu)),
        Entry::Load { cpu, process } => ("load ", Numbers::Two(cpu, process)),
        Entry::Leave { cpu } => ("leave ", Numbers::One(cpu)),
        Entry::Activate { uid } => ("activate ", Numbers::One(uid)),
        Entry::Deactivate { uid } => ("deactivate ", Numbers::One(uid)),
        Entry::Start { frame, uid, page } => ("start ", Numbers::Three(frame, uid, page)),
        Entry::Lose { frame } => ("lose ", Numbers::One(frame)),
        Entry::Here { frame, uid, page } => ("in ", Numbers::Three(frame, uid, page)),
        Entry::Connect {
            process,
            number,
            uid,
        } => ("connect ", Numbers::Three(process, number, uid)),
        Entry::Moved {
            process,
            uid,
            volume,
        } => ("moved ", Numbers::Three(process, uid, volume)),
        Entry::Take { frame } => ("take ", Numbers::One(frame)),
        Entry::Cut { process, number } => ("cut ", Numbers::Two(process, number)),
        Entry::GonePage { frame } => ("gone page ", Numbers::One(frame)),
        Entry::BackPage { frame } => ("back page ", Numbers::One(frame)),
        Entry::GoneSeg { process, number } => ("gone seg ", Numbers::Two(process, number)),
        Entry::BackSeg { process, number } => ("back seg ", Numbers::Two(process, number)),
        _ => ("", Numbers::Nothing),
    }
}

impl fmt::Display for Entry {
    ghost output = { λ e. Some (entry_text e) };

    #[tactic(auto, unfolding(crate::specs::Entries::entry_text))]
    fn fmt<W: fmt::Write>(&self, f: &mut fmt::Formatter<W>) -> fmt::Result {
        match self {
            Entry::Do {
                process,
                place,
                cpu,
                frame,
                reply,
            } => {
                let frame = NumberText(*frame);
                write!(f, "do {process}.{place} {cpu} {frame} {reply}")
            }
            Entry::Fault { process } => {
                let process = NumberText(*process);
                write!(f, "fault {process}")
            }
            Entry::Signal { cpu, what } => {
                let what = WhatText(*what);
                write!(f, "signal {cpu} {what}")
            }
            Entry::Clear { cpu, what } => {
                let what = WhatText(*what);
                write!(f, "clear {cpu} {what}")
            }
            Entry::FillSeg { cpu, number } => write!(f, "fill {cpu} seg {number}"),
            Entry::FillPage { cpu, frame } => write!(f, "fill {cpu} page {frame}"),
            entry => {
                let (words, numbers) = counted(entry);
                write!(f, "{words}{numbers}")
            }
        }
    }
}

impl fmt::Debug for Entry {
    fn fmt<W: fmt::Write>(&self, f: &mut fmt::Formatter<W>) -> fmt::Result {
        write!(f, "{self}")
    }
}

/// The text of an entry, as a listing of all entries has it (own).
pub fn entry_text(alloc: Global, e: Entry) -> Result<String, NoMemory>
    ensures { IfOk result (λ text. string_bytes text ≡ entry_text e) }
{
    Ok(format!(in alloc; "{e}")?)
}
