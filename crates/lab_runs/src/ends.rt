//! How a run ended: its accounts.

ghost use Rattle.std.specs.Prelude.{◌≡◌, IfOk};
ghost use Rattle.std.specs.List.{flat_map};
ghost use Rattle.accounts.specs.Maps.{Counts};
ghost use Rattle.flat_model.specs.Store.{Store};
ghost use Rattle.listing.specs.Listings.{account_text, accounts_of};

use crate::NoMemory;
use accounts::Accounts;
use listing::{AccountCount, Summary, account_counts, summary_text};
use std::alloc::Global;

/// The lines of some accounts.
#[tactic(auto, using(crate::proofs::EndTexts::accounts_alone, std::proofs::lemmas::Grind::common_steps))]
fn account_lines(alloc: Global, counts: Vec<AccountCount>) -> Result<Vec<u8>, NoMemory>
    ensures { IfOk result (λ text. text.items ≡ flat_map account_text counts.items) }
{
    let summary = Summary::new(counts, Vec::new(alloc));
    let text = summary_text(alloc, &summary)?;
    Ok(text.into_bytes())
}

/// The lines of the accounts of a tree.
pub(crate) fn accounts_text(alloc: Global, accounts: &Accounts) -> Result<Vec<u8>, NoMemory>
    ensures { IfOk result (λ text. (s : Store) → s.nodes ≡ accounts.now.nodes → Counts accounts.now s.stored
        → text.items ≡ flat_map account_text (accounts_of s)) }
{
    let counts = account_counts(alloc, accounts)?;
    let text = account_lines(alloc, counts)?;
    Ok(text)
}
