//! What is read of a node by its uid.

ghost use Rattle.std.specs.Prelude.{◌≡◌, ◌≤◌, ℕ, List};
ghost use Rattle.accounts.specs.Maps.{Counts};
ghost use Rattle.tree_model.specs.Tree.{quota_in, used_by, volume_in};
ghost use Rattle.tree_model.specs.Trees.{IsTree};
ghost use Rattle.tree_commands.specs.Shown.{pages_in};

use accounts::Accounts;

/// The length of a node, in pages; 0 where it isn't there.
#[tactic(auto, using(crate::proofs::NodeLaws::pages_found, crate::proofs::NodeLaws::no_pages))]
pub fn pages_of(accounts: &Accounts, uid: u32) -> u32
    ensures { result ≡ pages_in accounts.now.nodes uid }
{
    accounts.node(uid).map_or(0, |node| node.length)
}

/// The volume of a node; 0 where it isn't there.
#[tactic(auto, using(flat_model::proofs::NodeLaws::volume_found, flat_model::proofs::NodeLaws::no_volume))]
pub fn volume_of(accounts: &Accounts, uid: u32) -> u32
    ensures { result ≡ volume_in accounts.now.nodes uid }
{
    accounts.node(uid).map_or(0, |node| node.volume)
}

/// The nodes are a tree, and each account is within its quota: facts for those that walk or change it.
pub(crate) fn look(accounts: &Accounts)
    ensures tree { IsTree accounts.now.nodes }
    ensures within { (stored : List (ℕ × ℕ)) → Counts accounts.now stored → (account : ℕ)
        → used_by accounts.now.nodes stored account ≤ quota_in accounts.now.nodes account }
{
    accounts.promise();
}
