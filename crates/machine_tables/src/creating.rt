//! Pages are made.

ghost use Rattle.std.specs.Prelude.{◌≡◌, ◌<◌, ◌≤◌, ◌+◌, ◌^◌, ◌/◌, ◌%◌, ℕ, length, Some};
ghost use Rattle.custody_model.specs.Next.{released_by};
ghost use Rattle.flat_model.specs.References.{after_reference, word_reply};
ghost use Rattle.flat_model.specs.Store.{Store as Flat};
ghost use Rattle.script.specs.References.{new_word};
ghost use Rattle.known_segs.specs.Known.{uid_of};
ghost use Rattle.seg_control.specs.Control.{kst_at};
ghost use Rattle.machine_model.specs.Keeps.{IsFaithful};
ghost use Rattle.machine_model.specs.Reads.{cpu_at, next_command, processor_at, run_at};
ghost use Rattle.machine_model.specs.Steps.{page_created, with_created, with_store};
ghost use Rattle.machine_tables.specs.Made.{IsMakeable, page_reference};
ghost use Rattle.machine_tables.specs.Parts.{with_state};

use crate::committing::look;
use crate::tables::Tables;
use book::{Entry, Reply};
use mword::Word;
use script::{RefKind, Reference};
use volumes::Drive;

/// What a reference is answered that finds a page of zeros.
fn zero_reply(kind: &RefKind) -> Reply
    ensures { result ≡ word_reply 0 kind.now }
{
    match kind {
        RefKind::Read => Reply::Word(Word::ZERO),
        RefKind::Write(_) => Reply::Done,
        RefKind::Add(_) => Reply::Word(kind.new_word(Word::ZERO)),
    }
}

impl<D: Drive> Tables<D> {
    /// A page of an active segment is made in a free frame, all zeros but the word that a reference of a process leaves
    /// there; its account is charged for it.
    fn make(&mut self, process: u32, f: u32, reference: &Reference)
        requires still { self.old.state.store.moving ≡ None }
        requires makeable { IsMakeable self.old.state process f reference.now }
        ensures made { (uid : ℕ) → uid_of (kst_at self.old.state.store.links.known process) reference.now.number
            ≡ Some uid → self.new ≡ with_state self.old (with_store self.old.state
            (with_created self.old.state.store f uid (reference.now.offset / 1024) (reference.now.offset % 1024)
            (new_word 0 reference.now.kind))) }
        ensures shown { (t : Flat) → IsFaithful self.old.state.plan t self.old.state.store
            → IsFaithful self.old.state.plan (after_reference t process (page_reference reference.now))
            self.new.state.store }
    {
        let word = reference.kind.new_word(Word::ZERO);
        look(&self.store);
        let made = self
            .store
            .create(process, reference.number, reference.offset, word, f);
        self.accounts();
        match made {
            Ok(()) => {}
            Err(_) => unreachable!(),
        }
    }

    /// Processor `c` makes page `page` of an active segment in the free frame `f`, all zeros but the word that the
    /// reference of its process leaves there, answers the process, and gives the supervisor up. The account of the
    /// segment is charged for the page. (Source: Organick 1972.)
    #[inline(never)]
    pub fn create(
        &mut self,
        c: u32,
        process: u32,
        f: u32,
        uid: u32,
        page: u32,
        reference: Reference,
    )
        requires still { self.old.state.store.moving ≡ None }
        requires processor { c < length self.old.state.processors }
        requires process { (cpu_at self.old.state.processors c).process ≡ Some process }
        requires makeable { IsMakeable self.old.state process f reference }
        requires known { uid_of (kst_at self.old.state.store.links.known process) reference.number ≡ Some uid }
        requires page { reference.offset / 1024 ≡ page }
        requires run { process < length self.old.state.runs }
        requires place { (run_at self.old.state.runs process).place + 1 < 2 ^ 32 }
        requires count { (processor_at self.old.state.processors c).count + 1 < 2 ^ 64 }
        requires ready { length self.old.state.ready
            + length (released_by self.old.state.plan process (next_command self.old.state process))
            ≤ self.old.room }
        requires room { 2 ≤ self.old.state.spare }
        ensures effect { self.new ≡ with_state self.old (page_created self.old.state c f uid page reference) }
        ensures shown { (t : Flat) → IsFaithful self.old.state.plan t self.old.state.store
            → IsFaithful self.old.state.plan (after_reference t process (page_reference reference))
            self.new.state.store }
    {
        self.make(process, f, &reference);
        self.note(Entry::Here {
            frame: f,
            uid,
            page,
        });
        self.tell(c, process, None, zero_reply(&reference.kind));
        self.give_up();
    }
}
