ghost use Rattle.std.specs.Prelude.{◌≡◌, ◌<◌, ◌≤◌, ◌+◌, ◌*◌, ℕ, length, Some, None, true, false, IfSome, IfNone};
ghost use Rattle.std.specs.Prelude.{slice_index_or};
ghost use Rattle.core_map.specs.CoreMap.{frame_at, is_bound};
ghost use Rattle.core_map.specs.declared.Frame.TheVariants.{Free};
ghost use Rattle.active_segs.specs.Active.{IsActive};
ghost use Rattle.script.specs.Plans.{Plan};
ghost use Rattle.script.specs.References.{alters, new_word};
ghost use Rattle.flat_model.specs.References.{written};
ghost use Rattle.flat_model.specs.Store.{Store as Flat};
ghost use Rattle.page_control.specs.Tied.{IsNotStarted, is_out};
ghost use Rattle.seg_control.specs.Control.{table_of, word_of};
ghost use Rattle.machine_model.specs.Jobs.{page_in};
ghost use Rattle.machine_model.specs.Keeps.{IsFaithful};
ghost use Rattle.machine_model.specs.Reads.{cpu_at};
ghost use Rattle.machine_model.specs.Said.{through};
ghost use Rattle.machine_model.specs.Steps.{old_word, pages_after, started};
ghost use Rattle.machine_tables.specs.Parts.{with_pages_of, with_state};
ghost use Rattle.page_control.specs.Effects.{referred, word_put};
ghost use Rattle.page_control.specs.Plain.{words_in};

use crate::tables::Tables;
use book::Entry;
use mword::{Page, Word};
use processor::Transfer;
use script::{RefKind, Reference};
use volumes::Drive;

/// The word that a reference writes in the place of another; `None` where it writes none.
fn written(kind: &RefKind, old: Word) -> Option<Word>
    ensures some { IfSome result (λ w. (alters kind.now ≡ true) × (w ≡ new_word old kind.now)) }
    ensures none { IfNone result (alters kind.now ≡ false) }
{
    match kind {
        RefKind::Read => None,
        RefKind::Write(word) => Some(*word),
        RefKind::Add(word) => Some(old.plus(*word)),
    }
}

impl<D: Drive> Tables<D> {
    /// Reads word `at` through a bound frame, whose used mark is on then.
    fn read(&mut self, f: u32, at: u32) -> Word
        requires bound { is_bound (frame_at self.old.state.store.pages.core f) ≡ true }
        requires at { at < 1024 }
        ensures word { result ≡ slice_index_or (words_in self.old.state.store.pages f) at 0 }
        ensures effect { self.new ≡ with_pages_of self.old (referred self.old.state.store.pages f false) }
        ensures bound { is_bound (frame_at self.new.state.store.pages.core f) ≡ true }
        ensures shown { (p : Plan) (t : Flat) → IsFaithful p t self.old.state.store
            → IsFaithful p t self.new.state.store }
    {
        self.store.word(f, at)
    }

    /// Writes word `at` through a bound frame, both of whose marks are on then.
    fn write(&mut self, f: u32, at: u32, w: Word)
        requires bound { is_bound (frame_at self.old.state.store.pages.core f) ≡ true }
        requires at { at < 1024 }
        ensures effect { self.new ≡ with_pages_of self.old (word_put self.old.state.store.pages f at w) }
        ensures shown { (p : Plan) (t : Flat) → IsFaithful p t self.old.state.store
            → IsFaithful p (written t (page_in self.old.state.store f).0
            (1024 * (page_in self.old.state.store f).1 + at) w) self.new.state.store }
    {
        self.store.put_word(f, at, w);
    }

    /// Reads the word of a reference in a bound frame, or writes it, with the marks that go with it, and gives the word
    /// that stood there. What is shown has the word that is written. (Source: Bensoussan, Clingen and Daley 1972.)
    pub fn reach(&mut self, f: u32, reference: &Reference) -> Word
        requires { is_bound (frame_at self.old.state.store.pages.core f) ≡ true }
        ensures word { result ≡ old_word self.old.state.store.pages f reference.now }
        ensures effect { self.new ≡ with_pages_of self.old
            (pages_after self.old.state.store.pages f reference.now) }
        ensures shown { (p : Plan) (t : Flat) → IsFaithful p t self.old.state.store
            → IsFaithful p (through self.old.state f reference.now t) self.new.state.store }
    {
        let at = reference.offset % Page::WORDS;
        let old = self.read(f, at);
        if let Some(new) = written(&reference.kind, old) {
            self.write(f, at, new);
        }
        old
    }

    /// Processor `c` reads page `p` of an active segment into the free frame `f` from now on, and gives the supervisor
    /// up. (Source: own.)
    #[inline(never)]
    pub fn start(&mut self, c: u32, f: u32, uid: u32, p: u32)
        requires still { self.old.state.store.moving ≡ None }
        requires processor { c < length self.old.state.processors }
        requires active { IsActive self.old.state.store.ast.entries uid }
        requires page { p < length (table_of self.old.state.store.ast uid) }
        requires out { is_out (word_of self.old.state.store.ast uid p) ≡ true }
        requires frame { f < length self.old.state.store.pages.core.frames }
        requires free { frame_at self.old.state.store.pages.core f ≡ Free }
        requires first { IsNotStarted self.old.state.store.pages.core uid p }
        requires room { 0 < self.old.state.spare }
        ensures { self.new ≡ with_state self.old (started self.old.state c f uid p) }
    {
        self.store.start_in(uid, p, f);
        self.processors[c as usize].cpu.transfer = Some(Transfer {
            frame: f,
            uid,
            page: p,
        });
        self.give_up();
        self.note(Entry::Start {
            frame: f,
            uid,
            page: p,
        });
    }
}
