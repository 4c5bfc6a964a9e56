//! What tree commands are answered.

ghost use Rattle.std.specs.Prelude.{◌≡◌, ℕ, true, not, nat_le};
ghost use Rattle.tree_model.specs.Tree.{Node as Term, entries_on, has_directory, quota_in};
ghost use Rattle.tree_model.specs.Trees.{has_segment};
ghost use Rattle.script.specs.Plans.{Plan};
ghost use Rattle.flat_model.specs.Making.{delete_reply, make_in, make_reply};
ghost use Rattle.flat_model.specs.Naming.{status_reply};
ghost use Rattle.flat_model.specs.Rights.{acl_reply, move_reply};
ghost use Rattle.flat_model.specs.Sizes.{truncate_reply};
ghost use Rattle.flat_model.specs.Store.{Store as Flat, entries_of};
ghost use Rattle.tree_commands.specs.Shown.{ShowsTree};

use crate::nodes::look;
use crate::paths::{branch_at, directory_at, node_at, node_below, segment_at};
use accounts::Accounts;
use book::Reply;
use dir_tree::{AddFault, Node};
use mnames::{Name, Path, Row};
use quota_cells::MoveFault;

/// What the making of a directory or a segment in a directory is answered, where this says whether the VTOC entries of
/// the volume are all in use.
fn make_in(accounts: &Accounts, superior: u32, name: &Name, dir: bool, full: bool) -> Reply
    requires { has_directory accounts.now.nodes superior ≡ true }
    ensures { (p : Plan) (s : Flat) (volume : ℕ) (d : Term) → ShowsTree s accounts.now → d.uid ≡ superior
        → full ≡ nat_le (entries_of p volume) (entries_on s.nodes volume)
        → result ≡ make_in p s volume dir name.now d }
{
    match accounts.may_add(superior, name, dir) {
        Ok(()) if full => Reply::NoEntry,
        Ok(()) => Reply::Made(accounts.next_uid()),
        Err(AddFault::Exists) => Reply::Exists,
        Err(AddFault::Deep) => Reply::Deep,
        Err(AddFault::Room) => Reply::Room,
    }
}

/// What the making of a directory or a segment is answered, where this says whether the VTOC entries of the volume are
/// all in use.
pub fn make_reply(accounts: &Accounts, path: &Path, dir: bool, full: bool) -> Reply
    ensures { (p : Plan) (s : Flat) (volume : ℕ) → ShowsTree s accounts.now
        → full ≡ nat_le (entries_of p volume) (entries_on s.nodes volume)
        → result ≡ make_reply p s path.now volume dir }
{
    let Some((above, name)) = path.parts() else {
        return Reply::Exists;
    };
    match node_below(accounts, above) {
        Ok(node) => {
            if node.dir {
                make_in(accounts, node.uid, name, dir, full)
            } else {
                Reply::NotDir
            }
        }
        Err(reply) => reply,
    }
}

/// What the setting of a row of a segment's access control list is answered.
pub fn acl_reply(accounts: &Accounts, path: &Path, row: &Row) -> Reply
    ensures { (s : Flat) → ShowsTree s accounts.now → result ≡ acl_reply s path.now row.now }
{
    match segment_at(accounts, path) {
        Ok(node) => {
            if node.acl.takes(row) {
                Reply::Done
            } else {
                Reply::AclFull
            }
        }
        Err(reply) => reply,
    }
}

/// What the truncation of a segment is answered.
pub fn truncate_reply(accounts: &Accounts, path: &Path) -> Reply
    ensures { (s : Flat) → ShowsTree s accounts.now → result ≡ truncate_reply s path.now }
{
    match segment_at(accounts, path) {
        Ok(_) => Reply::Done,
        Err(reply) => reply,
    }
}

/// What the move of an amount of quota is answered.
pub fn move_reply(accounts: &Accounts, path: &Path, amount: i32) -> Reply
    ensures { (s : Flat) → ShowsTree s accounts.now → result ≡ move_reply s path.now amount }
{
    let node = match directory_at(accounts, path) {
        Ok(node) => node,
        Err(reply) => return reply,
    };
    if amount == 0 {
        look(accounts);
        return Reply::Done;
    }
    match accounts.may_move(node.uid, amount) {
        Ok(()) => Reply::Done,
        Err(MoveFault::TooLittle) => Reply::TooLittle,
        Err(MoveFault::Over { account }) => Reply::Over(account),
    }
}

/// The quota of a node; 0 of a segment.
pub fn quota_of(accounts: &Accounts, node: &Node) -> u32
    requires directory { has_directory accounts.now.nodes node.now.uid ≡ node.now.dir }
    requires segment { has_segment accounts.now.nodes node.now.uid ≡ not node.now.dir }
    ensures { result ≡ quota_in accounts.now.nodes node.now.uid }
{
    accounts.promise();
    if node.dir {
        accounts.quota(node.uid)
    } else {
        0
    }
}

/// What the deletion of a directory or a segment is answered.
pub fn delete_reply(accounts: &Accounts, path: &Path) -> Reply
    ensures { (s : Flat) → ShowsTree s accounts.now → result ≡ delete_reply s path.now }
{
    let node = match branch_at(accounts, path) {
        Ok(node) => node,
        Err(reply) => return reply,
    };
    if accounts.may_remove(node.uid).is_err() {
        Reply::NotEmpty
    } else if quota_of(accounts, node) == 0 {
        Reply::Done
    } else {
        Reply::HasQuota
    }
}

/// What is told of a directory or a segment.
pub fn status_reply(accounts: &Accounts, path: &Path) -> Reply
    ensures { (s : Flat) → ShowsTree s accounts.now → result ≡ status_reply s path.now }
{
    let node = match node_at(accounts, path) {
        Ok(node) => node,
        Err(reply) => return reply,
    };
    let uid = node.uid;
    if node.dir {
        let quota = accounts.quota(uid);
        let used = accounts.used(uid);
        Reply::DirIs { uid, quota, used }
    } else {
        let length = node.length;
        let stored = accounts.stored(uid);
        Reply::SegIs {
            uid,
            length,
            stored,
        }
    }
}
