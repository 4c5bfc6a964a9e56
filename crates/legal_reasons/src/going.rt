ghost use Rattle.std.specs.Prelude.{◌≡◌, ◌<◌, ℕ, false, length, IfNone, IfSome, Some};
ghost use Rattle.std.specs.Bool.{Decides};
ghost use Rattle.script.specs.Plans.{Plan};
ghost use Rattle.flat_model.specs.Store.{Store, progress_of};
ghost use Rattle.flat_store.specs.Shown.{Shows};
ghost use Rattle.legal_reasons.specs.Reasons.{IsNext, IsOfCommand, IsSaid, process_in};

use crate::reasons::Reason;
use flat_store::FlatStore;
use script::Script;

/// Whether a process hasn't ended, and its next command is at this place.
pub(crate) fn is_next(store: &FlatStore, process: u32, place: u32) -> bool
    ensures { (p : Plan) (s : Store) → Shows p store.now s → Decides result (IsNext s process place) }
{
    !store.has_ended(process) && store.place(process) == place
}

/// Why a process isn't one that goes on: the script has none, or it has ended. `None` where it goes on.
#[tactic(auto, unfolding(crate::specs::Reasons::IsSaid))]
pub(crate) fn why_not_going(script: &Script, store: &FlatStore, process: u32) -> Option<Reason>
    ensures there { IfNone result (process < length script.now.processes) }
    ensures going { (s : Store) → Shows script.now store.now s → IfNone result ((progress_of s process).ended ≡ false) }
    ensures so { (s : Store) → Shows script.now store.now s → IfSome result (λ r. IsSaid script.now s r) }
    ensures about { IfSome result (λ r. process_in r ≡ Some process) }
    ensures place { IfSome result (λ r. (i : ℕ) → IsOfCommand i r) }
{
    if process >= script.processes() {
        return Some(Reason::NoProcess { process });
    }
    if store.has_ended(process) {
        return Some(Reason::Ended { process });
    }
    None
}
