ghost use Rattle.std.specs.Prelude.{◌≡◌, IfNone, IfSome, Some};
ghost use Rattle.flat_model.specs.Legal.{IsLawful, MayFault};
ghost use Rattle.flat_model.specs.Store.{Store};
ghost use Rattle.flat_store.specs.Shown.{Shows};
ghost use Rattle.legal_reasons.specs.Reasons.{IsSaid, IsSo, process_in};

use crate::answers::why_not_do;
use crate::ends::first_unended;
use crate::going::why_not_going;
use crate::moves::why_not_moved;
use crate::pages::why_not_release;
use crate::reasons::Reason;
use book::Entry;
use flat_store::FlatStore;
use script::Script;

/// Why no drive's failure is told of a process, or of none. `None` where it may be.
#[tactic(auto, unfolding(crate::specs::Reasons::IsSaid))]
fn why_not_fault(script: &Script, store: &FlatStore, process: Option<u32>) -> Option<Reason>
    ensures so { (s : Store) → Shows script.now store.now s → IfSome result (λ r. IsSaid script.now s r) }
    ensures none { (s : Store) → Shows script.now store.now s → IfNone result (MayFault s process) }
    ensures about { IfSome process (λ k. IfSome result (λ r. process_in r ≡ Some k)) }
{
    match process {
        Some(process) => why_not_going(script, store, process),
        None => {
            let (process, _) = first_unended(script, store)?;
            Some(Reason::Unended { process })
        }
    }
}

/// Why an entry isn't lawful that isn't. `None` where it is one that is always lawful.
fn why_refused(script: &Script, store: &FlatStore, e: &Entry) -> Option<Reason>
    ensures none { (s : Store) → Shows script.now store.now s → IfNone result (IsLawful script.now s e.now) }
    ensures so { (s : Store) → Shows script.now store.now s → (IsLawful script.now s e.now → ⊥)
        → IfSome result (λ r. IsSo script.now s e.now r) }
{
    match e {
        Entry::Do {
            process,
            place,
            reply,
            ..
        } => Some(why_not_do(script, store, *process, *place, reply)),
        Entry::Release { uid, page } => Some(why_not_release(store, *uid, *page)),
        Entry::Fault { process } => why_not_fault(script, store, *process),
        Entry::Moved { process, uid, .. } => Some(why_not_moved(script, store, *process, *uid)),
        _ => None,
    }
}

/// Why an entry isn't lawful in the flat store that is shown: the first of its conditions that doesn't hold. `None`
/// exactly where it is lawful.
pub fn why_not(script: &Script, store: &FlatStore, e: &Entry) -> Option<Reason>
    ensures allowed { (s : Store) → Shows script.now store.now s → IfNone result (IsLawful script.now s e.now) }
    ensures refused { (s : Store) → Shows script.now store.now s
        → IfSome result (λ r. IsLawful script.now s e.now → ⊥) }
    ensures so { (s : Store) → Shows script.now store.now s → IfSome result (λ r. IsSo script.now s e.now r) }
{
    if store.allows(script, *e) {
        return None;
    }
    why_refused(script, store, e)
}
