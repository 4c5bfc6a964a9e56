ghost use Rattle.std.specs.Prelude.{◌≡◌};
ghost use Rattle.script.specs.Plans.{Plan};
ghost use Rattle.flat_model.specs.Store.{Store};
ghost use Rattle.flat_store.specs.Shown.{Shows};
ghost use Rattle.line_reasons.specs.DueLines.{has_since, is_still_so, account_still};

use crate::sum_reasons::SumReason;
use flat_store::FlatStore;

/// Whether a reason is a sentence of the state, which was true from some line on.
#[tactic(auto, unfolding(crate::specs::DueLines::has_since))]
pub fn has_since(reason: SumReason) -> bool
    ensures { result ≡ has_since reason }
{
    match reason {
        SumReason::Quota(_, _) => true,
        SumReason::Used(_, _) => true,
        SumReason::Taken(_, _) => true,
        SumReason::TakenEntries(_, _) => true,
        _ => false,
    }
}

/// Whether a uid is that of a directory with this quota.
fn has_quota(store: &FlatStore, uid: u32, quota: u32) -> bool
    ensures { (p : Plan) (s : Store) → Shows p store.now s → result ≡ account_still s uid quota }
{
    let accounts = store.accounts();
    match accounts.node(uid) {
        Some(node) => node.dir && accounts.quota(uid) == quota,
        None => false,
    }
}

/// Whether what a reason says of the state is so in this one. It is false of a reason that says nothing of the state.
#[tactic(auto, unfolding(crate::specs::DueLines::is_still_so))]
pub fn is_still_so_sum(store: &FlatStore, reason: SumReason) -> bool
    ensures { (p : Plan) (s : Store) → Shows p store.now s → result ≡ is_still_so s reason }
{
    match reason {
        SumReason::Quota(uid, quota) => has_quota(store, uid, quota),
        SumReason::Used(uid, count) => store.used(uid) == count,
        SumReason::Taken(volume, count) => store.taken(volume) == count,
        SumReason::TakenEntries(volume, count) => store.entries(volume) == count,
        _ => false,
    }
}
