ghost use Rattle.std.specs.Prelude.{◌≡◌, ◌<◌, ◌^◌, length, string_bytes, IfOk, IfSome};
ghost use Rattle.text_model.specs.Lines.{lines_of};
ghost use Rattle.flat_model.specs.Store.{Store};
ghost use Rattle.flat_store.specs.Shown.{Shows};
ghost use Rattle.listing.specs.Listings.{summary_of, summary_text};
ghost use Rattle.line_reasons.specs.DueLines.{IsSoSum};
ghost use Rattle.line_reasons.specs.Fronts.{same_front};

use crate::NoMemory;
use crate::due_lines::first_fault;
use crate::sum_reasons::SumReason;
use flat_store::FlatStore;
use listing::{summary, summary_text};
use script::Script;
use std::alloc::Global;

/// The lines of the accounts and the volumes.
fn due_text(alloc: Global, script: &Script, store: &FlatStore) -> Result<String, NoMemory>
    ensures { IfOk result (λ text. (s : Store) → Shows script.now store.now s
        → string_bytes text ≡ summary_text (summary_of script.now s)) }
{
    let summary = summary(alloc, script, store)?;
    summary_text(alloc, &summary)
}

/// Why the lines of a summary, to the end of the input, aren't those that are due: the first at fault is compared with
/// the one that is due there, field by field. Beside the reason stands how many lines agree before it. `None` where all
/// lines are those that are due. It takes memory for the text of the summary.
///
/// # Errors
/// `NoMemory` is want of memory.
#[tactic(auto, using(crate::proofs::DueLaws::sum_steps))]
pub fn why_wrong_sum(
    alloc: Global,
    script: &Script,
    store: &FlatStore,
    rest: &[u8],
) -> Result<Option<(SumReason, u32)>, NoMemory>
    requires { length rest.now < 2 ^ 31 }
    ensures so { IfOk result (λ found. (s : Store) → Shows script.now store.now s
        → IfSome found (λ x. IsSoSum script.now s x.0)) }
    ensures place { IfOk result (λ found. (s : Store) → Shows script.now store.now s
        → IfSome found (λ x. x.1
        ≡ same_front (lines_of rest.now) (lines_of (summary_text (summary_of script.now s))))) }
{
    let due = due_text(alloc, script, store)?;
    Ok(first_fault(script, store, due.as_bytes(), rest))
}
