//! A node as a link of the chain that becomes active, with its home and its pool.

ghost use Rattle.std.specs.Prelude.{◌≡◌, ℕ, true};
ghost use Rattle.dir_tree.specs.Nodes.{as_term};
ghost use Rattle.tree_model.specs.Tree.{pool_for, pool_of};
ghost use Rattle.storage_ops.specs.Connecting.{link_of};
ghost use Rattle.storage_ops.specs.Shown.{is_there};

use crate::store::Store;
use dir_tree::Node;
use seg_control::Link;
use volumes::Drive;

/// The pool of the active segment table that has the page table of so many pages: of 4, 16, 64 or 256. (Source: own.)
fn pool_for(pages: u32) -> u32
    ensures { result ≡ pool_for pages }
{
    if pages <= 4 {
        0
    } else if pages <= 16 {
        1
    } else if pages <= 64 {
        2
    } else {
        3
    }
}

/// The pool of a node: a directory has the least page table.
fn pool_of(node: &Node) -> u32
    ensures { (quota : ℕ → ℕ) → result ≡ pool_of (as_term quota node.now) }
{
    if node.dir { 0 } else { pool_for(node.length) }
}

impl<D: Drive> Store<D> {
    /// A node as a link of the chain that `activate_next` takes: with its home, and with the pool that its page table
    /// is of. (Source: Bensoussan, Clingen and Daley 1972.)
    pub fn link(&self, uid: u32) -> Link
        requires { is_there self.now.accounts.nodes uid ≡ true }
        ensures { result ≡ link_of self.now.accounts uid }
    {
        let home = self.home(uid);
        let Some(node) = self.accounts.node(uid) else {
            unreachable!();
        };
        Link {
            uid,
            pool: pool_of(node),
            home,
        }
    }
}
