ghost use Rattle.std.specs.Prelude.{◌≡◌, ◌+◌, ◌<◌, ◌≤◌, [], ◌∷◌, ◌++◌, drop, length, IfOk, OnOk, ◌==◌, slice_get, Some};
ghost use Rattle.std.specs.List.{list_any};
ghost use Rattle.book.specs.Books.{is_answer};

use crate::entries::Entry;
use crate::replies::Reply;
pub use no_memory::NoMemory;
use script::Script;
use std::alloc::Global;
use std::marker::Model;

/// All that happened in the run of a script, in order. A contract sees the script, the list of
/// entries, and how many more there is room for without more memory.
#[derive(Drop)]
pub struct Book {
    script: Script,
    entries: Vec<Entry>,
    /// How many entries there are up to the last one that answers a command, with it.
    answered: usize,
}

impl Model for Book {
    ghost use Rattle.std.specs.Prelude.{◌-◌, vec_len, vec_capacity};
    ghost use Rattle.book.specs.Books.{AnswersUpTo, Ledger};

    ghost Value = { Ledger };

    ghost view = { λ b. record {
      script = b.script;
      entries = b.entries.items;
      spare = vec_capacity b.entries - vec_len b.entries;
    } };

    ghost invariant = { λ b. AnswersUpTo b.entries.items b.answered };
}

impl Book {
    /// The empty book of a script, with no room for entries yet.
    pub fn new(alloc: Global, script: Script) -> Result<Book, NoMemory>
        ensures script { IfOk result (λ b. b.script ≡ script) }
        ensures empty { IfOk result (λ b. b.entries ≡ []) }
    {
        Ok(Book {
            script,
            entries: Vec::new(alloc),
            answered: 0,
        })
    }

    /// Makes room for `n` more entries. A refusal changes nothing but that there may be more room.
    pub fn reserve(&mut self, n: u32) -> Result<(), NoMemory>
        ensures room { OnOk result (n ≤ self.new.spare) }
        ensures script { self.new.script ≡ self.old.script }
        ensures entries { self.new.entries ≡ self.old.entries }
    {
        Ok(self.entries.reserve(n as usize)?)
    }

    /// Appends an entry, for which there must be room. It takes no memory.
    #[tactic(auto, using(crate::proofs::AnswerLaws::answer_more, crate::proofs::AnswerLaws::other_more))]
    pub fn push(&mut self, e: Entry)
        requires { 0 < self.old.spare }
        ensures entries { self.new.entries ≡ self.old.entries ++ e ∷ [] }
        ensures room { self.new.spare + 1 ≡ self.old.spare }
        ensures script { self.new.script ≡ self.old.script }
    {
        // A check of this call wants the type of an entry's reply named.
        let _named: Option<Reply> = None;
        if matches!(e, Entry::Do { .. }) {
            self.answered = self.entries.len() + 1;
        }
        self.entries.push_reserved(e);
    }

    /// Whether an entry from place `n` on answers a command, or a try of one. Costs one comparison.
    pub fn answers_from(&self, n: usize) -> bool
        ensures { result ≡ list_any is_answer (drop n self.now.entries) }
    {
        n < self.answered
    }

    /// How many entries there are.
    pub fn len(&self) -> usize
        ensures { result ≡ length self.now.entries }
    {
        self.entries.len()
    }

    /// Whether there is none.
    pub fn is_empty(&self) -> bool
        ensures { result ≡ (length self.now.entries == 0) }
    {
        self.entries.is_empty()
    }

    /// The entry at place `i`, counted from 0.
    pub fn at(&self, i: usize) -> Entry
        requires { i < length self.now.entries }
        ensures { slice_get self.now.entries i ≡ Some result }
    {
        self.entries[i]
    }

    /// The entries, in order.
    pub fn entries(&self) -> &[Entry]
        ensures { result.now ≡ self.now.entries }
    {
        &self.entries
    }

    /// The script of the run.
    pub fn script(&self) -> &Script
        ensures { result.now ≡ self.now.script }
    {
        &self.script
    }
}
