ghost use Rattle.std.specs.Prelude.{◌≡◌, List, None, Some};
ghost use Rattle.std.specs.Bool.{Decides};
ghost use Rattle.book.specs.declared.entries.Entry.{Entry};
ghost use Rattle.book_check.specs.Judging.{IsAfter};
ghost use Rattle.reasons.specs.Passing.{Looks};
ghost use Rattle.reasons.specs.Reasons.{SaysAt};

use crate::asking::Reason;
use book_check::Judge;

/// Since which line the sentence of a reason has been true.
#[derive(Drop)]
pub(crate) struct Since {
    /// The reason. `None` while it isn't known: then nothing is looked for.
    pub(crate) reason: Option<Reason>,
    /// The line after which the sentence became true, if it is true.
    pub(crate) line: Option<u32>,
}

/// Whether the sentence of a reason is true where a judge stands.
#[tactic(auto, using(crate::proofs::SinceLaws::sentence_steps), unfolding(crate::specs::Reasons::SaysAt))]
fn is_still_so(judge: &Judge, reason: Reason) -> bool
    ensures { (es : List Entry) → IsAfter judge.now es → Decides result (SaysAt judge.now.script es reason) }
{
    match reason {
        Reason::NoBook | Reason::NoEntry(_) => false,
        Reason::NotLegal(legal) => {
            legal_reasons::is_still_so(judge.script(), judge.store(), legal)
        }
        Reason::NotClean(clean) => {
            clean_reasons::is_still_so(judge.store(), judge.custody(), &clean)
        }
        Reason::WrongSum(sum) => line_reasons::is_still_so_sum(judge.store(), sum),
    }
}

impl Since {
    /// For a pass that looks for no sentence.
    pub(crate) fn nothing() -> Since
        ensures reason { result.reason ≡ None }
        ensures line { result.line ≡ None }
    {
        Since {
            reason: None,
            line: None,
        }
    }

    /// For the sentence of a reason, which isn't known to be true yet.
    pub(crate) fn of(reason: Reason) -> Since
        ensures reason { result.reason ≡ Some reason }
        ensures line { result.line ≡ None }
    {
        Since {
            reason: Some(reason),
            line: None,
        }
    }

    /// Looks whether the sentence is true after the line of this number, where a judge stands.
    pub(crate) fn look(&mut self, judge: &Judge, number: u32)
        ensures looks { (es : List Entry) → IsAfter judge.now es
            → Looks judge.now.script es self.old.reason number self.old.line self.new.line }
        ensures same { self.new.reason ≡ self.old.reason }
    {
        let Some(reason) = self.reason else {
            return;
        };
        if !is_still_so(judge, reason) {
            self.line = None;
            return;
        }
        if self.line.is_none() {
            self.line = Some(number);
        }
    }
}
