ghost use Rattle.std.specs.Prelude.{◌≡◌, ◌<◌, ℕ, length, true, IfNone, IfSome};
ghost use Rattle.script.specs.Plans.{Plan};
ghost use Rattle.flat_model.specs.Store.{Store, progress_of};
ghost use Rattle.flat_store.specs.Shown.{Shows};
ghost use Rattle.flat_store.specs.Zeros.{HasZeroPage};
ghost use Rattle.legal_reasons.specs.Reasons.{HaveEnded, IsNext, IsSaid, is_part, is_zeros};

use crate::reasons::{CommandAt, Reason};
use flat_store::FlatStore;
use script::Script;

/// The least process that hasn't ended, and the place of its next command.
pub fn first_unended(script: &Script, store: &FlatStore) -> Option<(u32, u32)>
    ensures some { (s : Store) → Shows script.now store.now s → IfSome result (λ at. IsNext s at.0 at.1) }
    ensures none { (s : Store) → Shows script.now store.now s → IfNone result (HaveEnded script.now s) }
{
    for process in 0..script.processes() {
        if !store.has_ended(process) {
            return Some((process, store.place(process)));
        }
    }
    None
}

/// Why a book isn't complete: the least process that hasn't ended has a command next, where the summary begins, or at
/// the end. `None` where each process has ended.
#[tactic(auto, unfolding(crate::specs::Reasons::IsSaid))]
pub fn why_incomplete(script: &Script, store: &FlatStore, at_end: bool) -> Option<Reason>
    ensures so { (s : Store) → Shows script.now store.now s → IfSome result (λ r. IsSaid script.now s r) }
    ensures part { IfSome result (λ r. is_part at_end r ≡ true) }
    ensures none { (s : Store) → Shows script.now store.now s → IfNone result (HaveEnded script.now s) }
{
    let (process, place) = first_unended(script, store)?;
    let at = CommandAt { process, place };
    if at_end {
        Some(Reason::PartEnd(at))
    } else {
        Some(Reason::PartSummary(at))
    }
}

/// The first page that is stored though each of its words is 0: the least uid, then the least page. `None` where there
/// is no such page.
#[tactic(auto, unfolding(crate::specs::Reasons::IsSaid))]
pub fn why_zeros(store: &FlatStore) -> Option<Reason>
    ensures so { (p : Plan) (s : Store) → Shows p store.now s → IfSome result (λ r. IsSaid p s r) }
    ensures zeros { IfSome result (λ r. is_zeros r ≡ true) }
    ensures none { (p : Plan) (s : Store) → Shows p store.now s → IfNone result (HasZeroPage s → ⊥) }
{
    let (uid, page) = store.zero_page()?;
    Some(Reason::Zeros { uid, page })
}
