ghost use Rattle.std.specs.Prelude.{◌≡◌, ◌/◌, ◌<◌, ◌≤◌, ◌↔◌, ◌==◌, ℕ, IfNone, IfSome, IsTrue, slice_index};
ghost use Rattle.script.specs.Plans.{Plan};
ghost use Rattle.flat_model.specs.Legal.{MayRelease};
ghost use Rattle.flat_model.specs.Pages.{is_zero_page, without_stored, without_words};
ghost use Rattle.flat_model.specs.Store.{Store};
ghost use Rattle.std.specs.Bool.{Decides};
ghost use Rattle.flat_store.specs.Shown.{Holds};
ghost use Rattle.flat_store.specs.Zeros.{HasZeroPage};

use crate::holdings::Holdings;
use mword::Page;

impl Holdings {
    /// Whether a page may be given up: it is stored, and all zeros.
    pub(crate) fn may_release(&self, uid: u32, page: u32) -> bool
        ensures { (p : Plan) (s : Store) → Holds p self.now s → (IsTrue result ↔ MayRelease s uid page) }
    {
        match self.pages.get(uid, page) {
            Some(words) => words.is_zero(),
            None => false,
        }
    }

    /// The first stored page that is all zeros.
    pub(crate) fn zero_page(&self) -> Option<(u32, u32)>
        ensures some { (p : Plan) (s : Store) → Holds p self.now s → IfSome result (λ at. MayRelease s at.0 at.1) }
        ensures none { (p : Plan) (s : Store) → Holds p self.now s → IfNone result (HasZeroPage s → ⊥) }
    {
        self.pages.zero_page()
    }

    /// Gives up a page of zeros.
    pub(crate) fn release(&mut self, uid: u32, page: u32)
        ensures { (p : Plan) (s : Store) → Holds p self.old s → MayRelease s uid page
            → Holds p self.new (record s { stored = without_stored s.stored uid (λ q. q == page) }) }
    {
        self.drop_page(uid, page);
    }

    /// Whether the page that an offset cuts is all zeros once the words from it on are 0.
    pub(crate) fn cut_is_zero(&self, uid: u32, words: u32) -> bool
        ensures { (p : Plan) (s : Store) → Holds p self.now s
            → result ≡ is_zero_page (without_words s.words uid words) uid (words / 1024) }
    {
        match self.pages.get(uid, words / Page::WORDS) {
            Some(page) => is_zero_below(page, words % Page::WORDS),
            None => true,
        }
    }
}

/// Whether each word of a page below a place is 0. It stops at the first that isn't.
fn is_zero_below(page: &Page, at: u32) -> bool
    requires { at ≤ 1024 }
    ensures { Decides result ((i : ℕ) → i < at → slice_index page.now i ≡ 0) }
{
    for i in 0..at {
        if page.get(i).value() != 0 {
            return false;
        }
    }
    true
}
