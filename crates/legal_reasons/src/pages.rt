ghost use Rattle.std.specs.Prelude.{◌≡◌, ◌+◌, ◌*◌, ◌<◌, ◌≤◌, ◌^◌, true, IfNone, IfSome, Some};
ghost use Rattle.std.specs.Bool.{Decides};
ghost use Rattle.script.specs.Plans.{Plan};
ghost use Rattle.flat_model.specs.Legal.{MayRelease};
ghost use Rattle.flat_model.specs.Pages.{is_zero_page};
ghost use Rattle.flat_model.specs.Store.{Store};
ghost use Rattle.flat_store.specs.Shown.{Shows};
ghost use Rattle.legal_reasons.specs.Reasons.{HasWordAt, IsSaid, page_in, uid_in};

use crate::reasons::Reason;
use book::Entry;
use flat_store::FlatStore;
use mword::Page;
use script::Script;

/// The offset in words, from the start of the segment, of a place of a page. `None` where no segment is so long.
fn offset_of(page: u32, at: u32) -> Option<u32>
    ensures some { IfSome result (λ o. o ≡ 1024 * page + at) }
    ensures none { IfNone result (2 ^ 32 ≤ 1024 * page + at) }
{
    page.checked_mul(Page::WORDS)?.checked_add(at)
}

/// Whether a page has a word other than 0 at a place.
pub(crate) fn has_word_at(store: &FlatStore, uid: u32, page: u32, at: u32) -> bool
    ensures { (p : Plan) (s : Store) → Shows p store.now s → Decides result (HasWordAt s uid page at) }
{
    match offset_of(page, at) {
        Some(offset) => store.word(uid, offset).value() != 0,
        None => false,
    }
}

/// The least place of a page whose word isn't 0.
fn first_word(store: &FlatStore, uid: u32, page: u32) -> Option<u32>
    ensures some { (p : Plan) (s : Store) → Shows p store.now s → IfSome result (λ at. HasWordAt s uid page at) }
    ensures none { (p : Plan) (s : Store) → Shows p store.now s → page < 4194304
        → IfNone result (is_zero_page s.words uid page ≡ true) }
{
    for at in 0..Page::WORDS {
        if has_word_at(store, uid, page, at) {
            return Some(at);
        }
    }
    None
}

/// Whether a page is stored, and all its words are 0.
#[tactic(auto, unfolding(flat_model::specs::Legal::IsLawful))]
pub(crate) fn is_zero_stored(script: &Script, store: &FlatStore, uid: u32, page: u32) -> bool
    ensures { (s : Store) → Shows script.now store.now s → Decides result (MayRelease s uid page) }
{
    store.allows(script, Entry::Release { uid, page })
}

/// Why a page that may not be given up may not: it isn't stored, or a word of it isn't 0.
#[tactic(auto, unfolding(crate::specs::Reasons::IsSaid))]
pub(crate) fn why_not_release(store: &FlatStore, uid: u32, page: u32) -> Reason
    ensures so { (p : Plan) (s : Store) → Shows p store.now s → (MayRelease s uid page → ⊥) → IsSaid p s result }
    ensures uid { uid_in result ≡ Some uid }
    ensures page { page_in result ≡ Some page }
{
    if !store.is_stored(uid, page) {
        return Reason::Unstored { uid, page };
    }
    match first_word(store, uid, page) {
        Some(offset) => Reason::WordAt { uid, page, offset },
        None => Reason::WordAt {
            uid,
            page,
            offset: 0,
        },
    }
}
