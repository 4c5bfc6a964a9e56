ghost use Rattle.std.specs.Prelude.{◌≡◌, ◌<◌, ◌≤◌, ◌↔◌, List, [], ℕ, false};
ghost use Rattle.std.specs.Prelude.{Some, None, IfSome, IfNone, OnOk, OnErr, IsTrue, replicate, slice_set, is_some, true};
ghost use Rattle.std.specs.Prelude.{◌&&◌, IsSome, IsSomeAnd, nat_le, nat_lt};
ghost use Rattle.mword.specs.Words.{AreZero};
ghost use Rattle.std.specs.Bool.{Decides};
ghost use Rattle.flat_model.specs.Cuts.{cut_at};
ghost use Rattle.script.specs.References.{new_word};
ghost use Rattle.flat_store.specs.Shown.{page_at, word_in, words_in, Puts, Cuts, Sheds};
ghost use Rattle.flat_store.specs.Zeros.{KeepsZeroPage};

use crate::NoMemory;
use mword::{Page, Word};
use script::RefKind;
use std::alloc::Global;
use std::collections::BTreeMap;
use std::marker::Model;

/// The stored pages, with their words: each takes its 8 KiB only while it is stored. A contract sees them by the uid of
/// their segment and their number there.
#[derive(Drop)]
pub(crate) struct Pages {
    alloc: Global,
    pages: BTreeMap<(u32, u32), Page>,
}

impl Model for Pages {
    ghost use Rattle.flat_store.specs.Shown.{Paged};

    ghost Value = { Paged };

    ghost view = { λ p. p.pages.entries };
}

impl Pages {
    /// No page.
    pub(crate) fn new(alloc: Global) -> Pages
        ensures { result ≡ [] }
    {
        Pages {
            alloc,
            pages: BTreeMap::new(alloc),
        }
    }

    /// The words of a page. `None` exactly where it isn't stored.
    pub(crate) fn get(&self, uid: u32, page: u32) -> Option<&Page>
        ensures some { IfSome result (λ words. page_at self.now uid page ≡ Some words.now) }
        ensures none { IfNone result (page_at self.now uid page ≡ None) }
    {
        self.pages.get(&(uid, page))
    }

    /// Whether a page is stored.
    pub(crate) fn has(&self, uid: u32, page: u32) -> bool
        ensures { result ≡ is_some (page_at self.now uid page) }
    {
        self.get(uid, page).is_some()
    }

    /// Whether a page of a segment is stored from one on.
    pub(crate) fn has_from(&self, uid: u32, from: u32) -> bool
        ensures { Decides result ((q : ℕ) × (from ≤ q) × IsSome (page_at self.now uid q)) }
    {
        match self.pages.range((uid, from)..).next() {
            Some((key, _)) => key.0 == uid,
            None => false,
        }
    }

    /// The first page that is all zeros: the least uid, then the least page. It looks at each page up to that one, and
    /// there up to the first word that isn't 0.
    #[tactic(auto, using(crate::proofs::ZeroPages::zero_page_steps, std::proofs::lemmas::Grind::common_steps))]
    pub(crate) fn zero_page(&self) -> Option<(u32, u32)>
        ensures some { IfSome result (λ at. IsSomeAnd (page_at self.now at.0 at.1) AreZero) }
        ensures none { IfNone result (KeepsZeroPage self.now → ⊥) }
    {
        for (key, words) in self.pages.iter() {
            if words.is_zero() {
                return Some(*key);
            }
        }
        None
    }

    /// A page is stored no more.
    pub(crate) fn remove(&mut self, uid: u32, page: u32)
        ensures { Puts self.old self.new uid page None }
    {
        self.pages.remove(&(uid, page));
    }

    /// The pages of a segment from one on and below an end are stored no more. How many they were. It searches for the
    /// first of them, and goes on from there to each.
    pub(crate) fn remove_between(&mut self, uid: u32, from: u32, end: u32) -> u32
        ensures { Sheds self.old self.new uid (λ q. nat_le from q && nat_lt q end) result }
    {
        let before = self.pages.len();
        for _ in self.pages.extract_if((uid, from)..(uid, end), |_, _| true) {}
        (before - self.pages.len()) as u32
    }

    /// Writes a word into a page, which is stored from then on.
    ///
    /// # Errors
    /// `NoMemory` is want of memory for a page that isn't stored; then nothing is changed.
    pub(crate) fn put(&mut self, uid: u32, page: u32, at: u32, word: Word) -> Result<(), NoMemory>
        requires { at < 1024 }
        ensures ok { OnOk result (Puts self.old self.new uid page
            (Some (slice_set (words_in (page_at self.old uid page)) at word))) }
        ensures err { OnErr result (self.new ≡ self.old) }
    {
        match self.pages.get_mut(&(uid, page)) {
            Some(words) => {
                words.set(at, word);
                Ok(())
            }
            None => self.add(uid, page, at, word),
        }
    }

    /// A word of a page becomes what a reference makes of it, where the page is stored. Whether it is; where it isn't,
    /// nothing is changed.
    pub(crate) fn alter(&mut self, uid: u32, page: u32, at: u32, kind: &RefKind) -> bool
        requires { at < 1024 }
        ensures there { result ≡ is_some (page_at self.old uid page) }
        ensures yes { result ≡ true → Puts self.old self.new uid page
            (Some (slice_set (words_in (page_at self.old uid page)) at
            (new_word (word_in (page_at self.old uid page) at) kind.now))) }
        ensures no { result ≡ false → self.new ≡ self.old }
    {
        let Some(words) = self.pages.get_mut(&(uid, page)) else {
            return false;
        };
        let word = kind.new_word(words.get(at));
        words.set(at, word);
        true
    }

    /// A page with this one word comes.
    fn add(&mut self, uid: u32, page: u32, at: u32, word: Word) -> Result<(), NoMemory>
        requires { at < 1024 }
        ensures ok { OnOk result (Puts self.old self.new uid page (Some (slice_set (replicate 1024 0) at word))) }
        ensures err { OnErr result (self.new ≡ self.old) }
    {
        let mut words = Page::zero(self.alloc)?;
        words.set(at, word);
        match self.pages.insert((uid, page), words) {
            Ok(_) => Ok(()),
            Err(_) => Err(NoMemory),
        }
    }

    /// The words of a page from a place on become 0, if it is stored. Whether each of its words is 0 then; false where
    /// it isn't stored.
    pub(crate) fn cut(&mut self, uid: u32, page: u32, at: u32) -> bool
        requires { at ≤ 1024 }
        ensures some { (words : List ℕ) → page_at self.old uid page ≡ Some words
            → Cuts self.old self.new uid page at words × (IsTrue result ↔ AreZero (cut_at at words)) }
        ensures none { page_at self.old uid page ≡ None → (self.new ≡ self.old) × (result ≡ false) }
    {
        match self.pages.get_mut(&(uid, page)) {
            Some(words) => {
                words.clear_from(at);
                words.is_zero()
            }
            None => false,
        }
    }
}
