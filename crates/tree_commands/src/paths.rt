//! What a path leads to.

ghost use Rattle.std.specs.Prelude.{◌≡◌, ◌≢◌, true, not, Some, Ok, Err, IfOk, IfErr};
ghost use Rattle.tree_model.specs.Tree.{has_directory};
ghost use Rattle.tree_model.specs.Trees.{has_segment};
ghost use Rattle.flat_model.specs.Branches.{branch_at, directory_at, node_at, segment_at};
ghost use Rattle.tree_commands.specs.Shown.{IsFound, IsThere};

use crate::nodes::look;
use accounts::Accounts;
use book::Reply;
use dir_tree::{Node, PathFault};
use mnames::{Name, Path};

/// The node that a path leads to.
///
/// # Errors
/// `NoPath` or `NotDir`, by the first name from the left that can't be followed.
pub fn node_at<'a>(accounts: &'a Accounts, path: &Path) -> Result<&'a Node, Reply>
    ensures ok { IfOk result (λ n. IsFound accounts.now.nodes (node_at accounts.now.nodes path.now) n.now) }
    ensures there { IfOk result (λ n. IsThere accounts.now.nodes n.now) }
    ensures directory { IfOk result (λ n. has_directory accounts.now.nodes n.now.uid ≡ n.now.dir) }
    ensures segment { IfOk result (λ n. has_segment accounts.now.nodes n.now.uid ≡ not n.now.dir) }
    ensures err { IfErr result (λ r. node_at accounts.now.nodes path.now ≡ Err r) }
{
    node_below(accounts, path.names())
}

/// The node that a path of these names leads to, from the root down.
///
/// # Errors
/// Those of `node_at`.
#[tactic(auto, using(crate::proofs::PathLaws::walk_laws))]
pub fn node_below<'a>(accounts: &'a Accounts, names: &[Name]) -> Result<&'a Node, Reply>
    ensures ok { IfOk result (λ n. IsFound accounts.now.nodes (node_at accounts.now.nodes names.now) n.now) }
    ensures there { IfOk result (λ n. IsThere accounts.now.nodes n.now) }
    ensures directory { IfOk result (λ n. has_directory accounts.now.nodes n.now.uid ≡ n.now.dir) }
    ensures segment { IfOk result (λ n. has_segment accounts.now.nodes n.now.uid ≡ not n.now.dir) }
    ensures err { IfErr result (λ r. node_at accounts.now.nodes names.now ≡ Err r) }
{
    match accounts.walk_down(names) {
        Ok(uid) => match accounts.node(uid) {
            Some(node) => Ok(node),
            None => Err(Reply::NoPath),
        },
        Err(PathFault::NoPath) => Err(Reply::NoPath),
        Err(PathFault::NotDir) => Err(Reply::NotDir),
    }
}

/// The segment that a path leads to.
///
/// # Errors
/// Those of `node_at`, and `IsDir` where it is a directory.
pub fn segment_at<'a>(accounts: &'a Accounts, path: &Path) -> Result<&'a Node, Reply>
    ensures ok { IfOk result (λ n. IsFound accounts.now.nodes (segment_at accounts.now.nodes path.now) n.now) }
    ensures there { IfOk result (λ n. IsThere accounts.now.nodes n.now) }
    ensures segment { IfOk result (λ n. has_segment accounts.now.nodes n.now.uid ≡ true) }
    ensures err { IfErr result (λ r. segment_at accounts.now.nodes path.now ≡ Err r) }
{
    let node = node_at(accounts, path)?;
    if node.dir {
        Err(Reply::IsDir)
    } else {
        Ok(node)
    }
}

/// The node other than the root that a path leads to.
///
/// # Errors
/// `Root` for the root's path; else those of `node_at`.
pub fn branch_at<'a>(accounts: &'a Accounts, path: &Path) -> Result<&'a Node, Reply>
    ensures ok { IfOk result (λ n. IsFound accounts.now.nodes (branch_at accounts.now.nodes path.now) n.now) }
    ensures there { IfOk result (λ n. IsThere accounts.now.nodes n.now) }
    ensures directory { IfOk result (λ n. has_directory accounts.now.nodes n.now.uid ≡ n.now.dir) }
    ensures segment { IfOk result (λ n. has_segment accounts.now.nodes n.now.uid ≡ not n.now.dir) }
    ensures branch { IfOk result (λ n. n.now.uid ≢ 1) }
    ensures err { IfErr result (λ r. branch_at accounts.now.nodes path.now ≡ Err r) }
{
    look(accounts);
    if path.names().is_empty() {
        return Err(Reply::Root);
    }
    node_at(accounts, path)
}

/// The directory other than the root that a path leads to.
///
/// # Errors
/// Those of `branch_at`, and `IsSeg` where it is a segment.
pub fn directory_at<'a>(accounts: &'a Accounts, path: &Path) -> Result<&'a Node, Reply>
    ensures ok { IfOk result (λ n. IsFound accounts.now.nodes (directory_at accounts.now.nodes path.now) n.now) }
    ensures there { IfOk result (λ n. IsThere accounts.now.nodes n.now) }
    ensures directory { IfOk result (λ n. has_directory accounts.now.nodes n.now.uid ≡ true) }
    ensures branch { IfOk result (λ n. n.now.uid ≢ 1) }
    ensures err { IfErr result (λ r. directory_at accounts.now.nodes path.now ≡ Err r) }
{
    let node = branch_at(accounts, path)?;
    if node.dir {
        Ok(node)
    } else {
        Err(Reply::IsSeg)
    }
}
