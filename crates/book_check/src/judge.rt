ghost use Rattle.std.specs.Prelude.{◌≡◌, ◌+◌, ◌<◌, ◌≤◌, ◌^◌, ◌++◌, ℕ, [], ◌∷◌, List, IfOk, IfErr, IfNone, IfSome, OnOk};
ghost use Rattle.script.specs.Plans.{Plan};
ghost use Rattle.flat_model.specs.Store.{Store};
ghost use Rattle.flat_store.specs.Shown.{Shows};
ghost use Rattle.tree_model.specs.Tree.{quota_in, used_by};
ghost use Rattle.tree_model.specs.Trees.{IsTree};
ghost use Rattle.book.specs.declared.entries.Entry.{Entry};
ghost use Rattle.book.specs.Reading.{IsEntry};
ghost use Rattle.custody.specs.Tables.{AreTablesOf, HaveRoom};
ghost use Rattle.book_check.specs.Judging.{Allows, Forbids, IsAfter, OnlyOne, Stays, Takes};

use crate::offences::Rule;
use book::{Entry, Reply, read_entry};
use custody::Custody;
use flat_store::FlatStore;
pub(crate) use no_memory::NoMemory;
use script::Script;
use std::alloc::Global;
use std::marker::Model;

/// Why a line before the summary wasn't accepted.
#[derive(Clone, Copy)]
pub enum LineFault {
    /// It breaks a rule.
    Broken(Rule),
    /// There wasn't enough memory.
    Memory,
}

/// What a listing is judged by: its script, the flat store and custody after the entries that were accepted so far, and
/// how many these were.
#[derive(Drop)]
pub struct Judge {
    pub(crate) script: Script,
    pub(crate) store: FlatStore,
    custody: Custody,
    pub(crate) entries: u32,
}

impl Model for Judge {
    ghost use Rattle.book_check.specs.Judging.{Judged};

    ghost Value = { Judged };

    ghost view = { λ j. record { script = j.script; store = j.store; custody = j.custody; entries = j.entries } };
}

/// What holds of the accounts of a flat store between calls: its nodes are a tree, and each account is within its
/// quota. It does nothing.
pub(crate) fn accounts_promise(store: &FlatStore)
    ensures tree { (p : Plan) (s : Store) → Shows p store.now s → IsTree s.nodes }
    ensures within { (p : Plan) (s : Store) → Shows p store.now s → (account : ℕ)
        → used_by s.nodes s.stored account ≤ quota_in s.nodes account }
{
    store.accounts().promise();
}

impl Judge {
    /// Before the first entry.
    ///
    /// # Errors
    /// `NoMemory` is want of memory.
    pub fn boot(alloc: Global, script: Script) -> Result<Judge, NoMemory>
        ensures script { IfOk result (λ j. j.script ≡ script) }
        ensures none { IfOk result (λ j. j.entries ≡ 0) }
        ensures after { IfOk result (λ j. IsAfter j []) }
    {
        let store = FlatStore::boot(alloc, &script)?;
        let custody = Custody::boot(alloc, &script)?;
        Ok(Judge {
            script,
            store,
            custody,
            entries: 0,
        })
    }

    /// The first rule that an entry breaks. `None` where it may stand here.
    fn broken_rule(&self, e: &Entry) -> Option<Rule>
        ensures allowed { IfNone result (Allows self.now e.now) }
        ensures broken { IfSome result (λ r. Forbids self.now e.now r) }
    {
        if !self.store.allows(&self.script, *e) {
            return Some(Rule::NotLegal);
        }
        if !self.custody.allows(&self.script, &self.store, *e) {
            return Some(Rule::NotClean);
        }
        None
    }

    /// Goes on to what holds after an entry that may stand here.
    fn follow(&mut self, e: &Entry) -> Result<(), NoMemory>
        requires allowed { Allows self.old e.now }
        requires room { HaveRoom self.old.custody.seats }
        requires tables { AreTablesOf self.old.script self.old.custody }
        requires few { self.old.entries + 1 < 2 ^ 32 }
        ensures after { OnOk result ((es : List Entry) → IsAfter self.old es → IsEntry e.now
            → IsAfter self.new (es ++ e.now ∷ [])) }
        ensures count { OnOk result (self.new.entries ≡ self.old.entries + 1) }
        ensures script { self.new.script ≡ self.old.script }
    {
        // A check of this call wants the type of an entry's reply named.
        let _named: Option<Reply> = None;
        accounts_promise(&self.store);
        self.custody.follow(&self.script, &self.store, *e)?;
        self.store.follow(&self.script, *e)?;
        self.entries += 1;
        Ok(())
    }

    /// The script of the listing.
    pub fn script(&self) -> &Script
        ensures { result.now ≡ self.now.script }
    {
        &self.script
    }

    /// The flat store after the entries that were accepted.
    pub fn store(&self) -> &FlatStore
        ensures { result.now ≡ self.now.store }
    {
        &self.store
    }

    /// Custody after them.
    pub fn custody(&self) -> &Custody
        ensures { result.now ≡ self.now.custody }
    {
        &self.custody
    }

    /// Goes on to what holds after the entry of a line, if it may stand here.
    ///
    /// # Errors
    /// `Broken` is the first rule that the line breaks; then nothing is changed. `Memory` is want of memory.
    pub fn accept(&mut self, line: &[u8]) -> Result<(), LineFault>
        requires room { HaveRoom self.old.custody.seats }
        requires tables { AreTablesOf self.old.script self.old.custody }
        requires few { self.old.entries + 1 < 2 ^ 32 }
        ensures takes { Takes self.old self.new line.now result }
        ensures same { IfErr result (Stays self.old self.new) }
        ensures one { OnlyOne line.now }
        ensures count { OnOk result (self.new.entries ≡ self.old.entries + 1) }
        ensures script { self.new.script ≡ self.old.script }
    {
        let Some(e) = read_entry(line) else {
            return Err(LineFault::Broken(Rule::NoEntry));
        };
        if let Some(rule) = self.broken_rule(&e) {
            return Err(LineFault::Broken(rule));
        }
        match self.follow(&e) {
            Ok(()) => Ok(()),
            Err(NoMemory) => Err(LineFault::Memory),
        }
    }
}
