//! The end of the drill.
ghost use Rattle.std.specs.Prelude.{◌≡◌, ◌+◌, ◌%◌, ◌^◌, ◌<◌, ◌≤◌, All, length};
ghost use Rattle.live_doors.specs.declared.rule.TheConstants.{MOST_CPUS};
ghost use Rattle.live_pages.specs.Models.{IsPassOf};
ghost use Rattle.drill.specs.Roles.{IsKept, AreDone, IsEnd, missing, first_words, made_count};

use crate::kept::Kept;
use crate::run::Drilled;
use crate::work::Size;
use live_pages::{LivePages, Pass};
use mword::{Page, Word};

// A sum, with the first word of each page.
fn with_pages(mut sum: Word, pages: &[Page]) -> Word
    ensures { result ≡ (sum + first_words (length pages.now) pages.now) % 2 ^ 36 }
{
    for page in pages {
        sum = sum.plus(page.get(0));
    }
    sum
}

/// Closes the pages, and answers with these sums what the drill leaves. The total is that of the first words of all
/// pages that were handed out or are left and of the adds that were not made.
pub(crate) fn finish(
    pages: LivePages,
    size: Size,
    kept: Kept,
    row: Vec<Pass>,
    unmade: Word,
    touches: u64,
    sums: Vec<Word>,
) -> Drilled
    requires size { (size.cpus ≡ pages.cpus) × (size.frames ≡ pages.frames) }
    requires few { (size.cpus ≤ MOST_CPUS) × (size.adds ≤ 10000) × (0 < size.frames) }
    requires kept { IsKept pages kept }
    requires passes { All (IsPassOf pages) row.items }
    requires row { AreDone pages size.seed size.adds 0 row.items × (length row.items ≡ size.cpus) }
    requires unmade { unmade ≡ missing size.adds row.items % 2 ^ 36 }
    requires touches { touches ≡ made_count row.items }
    ensures end { IsEnd size.cpus size.frames size.adds size.seed result.total result.bindings result.touches
        result.ended.shown result.ended.pages.items }
    ensures sums { result.sums ≡ sums }
{
    let Kept {
        keeper,
        sum,
        bindings,
        ..
    } = kept;
    let ended = pages.close(keeper, row);
    let total = with_pages(sum.plus(unmade), &ended.pages);
    Drilled {
        sums,
        total,
        bindings,
        touches,
        ended,
    }
}
