//! What is printed of a table of outcomes.

ghost use Rattle.std.specs.Prelude.{◌≡◌, ◌++◌, IfOk, OnOk, slice_get};
ghost use Rattle.outcomes.specs.Reports.{accounts_head, accounts_text, block_of, blocks_of, differing_of};
ghost use Rattle.outcomes.specs.Reports.{outcome_head, outcomes_text, report_text};

use crate::NoMemory;
use crate::lines::{are_alike, push_differing};
use crate::table::{Outcome, Seen, Table};
use crate::texts::Text;
use std::alloc::Global;

/// Appends `outcome K: M of N, first by seed S`.
#[tactic(auto, unfolding(crate::specs::Reports::outcome_head))]
fn push_head(
    alloc: Global,
    out: &mut Vec<u8>,
    number: usize,
    outcome: &Outcome,
    runs: u32,
) -> Result<(), NoMemory>
    ensures { OnOk result (out.new.items ≡ out.old.items ++ outcome_head number outcome.now runs) }
{
    let count = outcome.count();
    let seed = outcome.first_seed();
    let line = format!(in alloc; "outcome {number}: {count} of {runs}, first by seed {seed}\n")?;
    out.extend_from_slice(line.as_bytes())?;
    Ok(())
}

/// Appends each outcome, with its replies.
#[tactic(auto, using(crate::proofs::ReportLaws::push_outcomes_steps, std::proofs::lemmas::Grind::common_steps))]
fn push_outcomes(
    alloc: Global,
    out: &mut Vec<u8>,
    outcomes: &[Outcome],
    runs: u32,
) -> Result<(), NoMemory>
    ensures { OnOk result (out.new.items ≡ out.old.items ++ outcomes_text 1 outcomes.now runs) }
{
    for (place, outcome) in outcomes.iter().enumerate() {
        push_head(alloc, out, place + 1, outcome, runs)?;
        out.extend_from_slice(outcome.replies())?;
    }
    Ok(())
}

/// Appends `accounts of outcome K, first by seed S`.
#[tactic(auto, unfolding(crate::specs::Reports::accounts_head))]
fn push_accounts_head(
    alloc: Global,
    out: &mut Vec<u8>,
    number: usize,
    seed: u32,
) -> Result<(), NoMemory>
    ensures { OnOk result (out.new.items ≡ out.old.items ++ accounts_head number seed) }
{
    let line = format!(in alloc; "accounts of outcome {number}, first by seed {seed}\n")?;
    out.extend_from_slice(line.as_bytes())?;
    Ok(())
}

/// Appends the lines of some accounts that aren't the same in all runs.
fn push_differing_of(out: &mut Vec<u8>, texts: &[Text], accounts: usize) -> Result<(), NoMemory>
    ensures { OnOk result (out.new.items ≡ out.old.items ++ differing_of texts.now (slice_get texts.now accounts)) }
{
    match texts.get(accounts) {
        Some(text) => push_differing(out, texts, text.as_slice()),
        None => Ok(()),
    }
}

/// Appends of accounts that runs of an outcome left the lines that aren't the same in all runs.
#[tactic(auto, unfolding(crate::specs::Reports::block_of))]
fn push_block(
    alloc: Global,
    out: &mut Vec<u8>,
    number: usize,
    run: Seen,
    texts: &[Text],
) -> Result<(), NoMemory>
    ensures { OnOk result (out.new.items ≡ out.old.items ++ block_of number texts.now run) }
{
    push_accounts_head(alloc, out, number, run.seed)?;
    push_differing_of(out, texts, run.accounts)
}

/// Appends for each of the accounts that runs of an outcome left, the lines that aren't the same in all runs.
#[tactic(auto, using(crate::proofs::ReportLaws::push_blocks_steps, std::proofs::lemmas::Grind::common_steps))]
fn push_blocks(
    alloc: Global,
    out: &mut Vec<u8>,
    number: usize,
    seen: &[Seen],
    texts: &[Text],
) -> Result<(), NoMemory>
    ensures { OnOk result (out.new.items ≡ out.old.items ++ blocks_of number texts.now seen.now) }
{
    for run in seen {
        push_block(alloc, out, number, *run, texts)?;
    }
    Ok(())
}

/// Appends the same for each outcome.
#[tactic(auto, using(crate::proofs::ReportLaws::push_accounts_steps, std::proofs::lemmas::Grind::common_steps))]
fn push_accounts(
    alloc: Global,
    out: &mut Vec<u8>,
    outcomes: &[Outcome],
    texts: &[Text],
) -> Result<(), NoMemory>
    ensures { OnOk result (out.new.items ≡ out.old.items ++ accounts_text 1 texts.now outcomes.now) }
{
    for (place, outcome) in outcomes.iter().enumerate() {
        push_blocks(alloc, out, place + 1, outcome.seen(), texts)?;
    }
    Ok(())
}

/// What is printed of the outcomes of so many runs (own): for each its number, in how many runs it came and by which
/// seed first, and what the processes were answered; then `accounts alike`, or for each outcome the lines of the
/// accounts that aren't the same in all runs. It takes memory for the text.
///
/// # Errors
/// `NoMemory` is want of memory.
#[tactic(auto, unfolding(crate::specs::Reports::report_text))]
pub fn report(alloc: Global, table: &Table, runs: u32) -> Result<Vec<u8>, NoMemory>
    ensures { IfOk result (λ text. text.items ≡ report_text table.now runs) }
{
    let mut text = Vec::new(alloc);
    push_outcomes(alloc, &mut text, table.outcomes(), runs)?;
    if are_alike(table.accounts()) {
        text.extend_from_slice(b"accounts alike\n")?;
    } else {
        push_accounts(alloc, &mut text, table.outcomes(), table.accounts())?;
    }
    Ok(text)
}
