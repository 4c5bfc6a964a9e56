//! The directory tree with its accounts: directories and segments, the quota of each directory, and the stored pages of
//! each segment, charged to the nearest superior directory with a quota, else to the root (Organick 1972).
//!
//! The tree and its quota cells always fit one another, so each used count is the count from scratch over the stored
//! pages. Contracts speak of the nodes with their quotas, and of no cell.
//!
//! Costs are those of the tree and of its cells: a look-up by uid reads a table, `walk` makes one look-up by name for
//! each name, and what charges or moves quota goes up once from a node, by at most 9 directories. None but `new` takes
//! memory.
#![tactic(auto)]

ghost use Rattle.std.specs.Prelude.{◌≡◌, ◌≢◌, ◌<◌, ◌≤◌, ◌+◌, ◌-◌, ℕ, ◌↔◌, not, is_some, true, false, List};
ghost use Rattle.std.specs.Prelude.{Some, None, IfOk, IfSome, IfNone, OnOk, OnErr, IsErr, IsOk, IsTrue, length};
ghost use Rattle.std.specs.Int.{is_positive};
ghost use Rattle.std.specs.Int.RustNames.{unsigned_abs};
ghost use Rattle.tree_model.specs.Access.{takes_row};
ghost use Rattle.tree_model.specs.Tree.{above, has_directory, node_in, quota_in, used_by, walk_in, with_node};
ghost use Rattle.tree_model.specs.Trees.{AreBelow, has_segment, IsTree};
ghost use Rattle.tree_model.specs.Quotas.{tree_moved};
ghost use Rattle.dir_tree.specs.Nodes.{add_fault_of, as_node, as_term, chain_of, has_inferior, path_answer, unless};
ghost use Rattle.quota_cells.specs.Scratch.{charge_answer, scratch_answer};
ghost use Rattle.accounts.specs.Maps.{Counts, HasColumns, count_of, entry_of, root_alone, branch_of};
ghost use Rattle.accounts.specs.Maps.{Recounts, Changes, Gains, Loses, Rehomes, rehomed, rows_in, with_row_in};

use acl::AclFull;
use arrayvec::ArrayVec;
use dir_tree::{AddFault, NewBranch, NewNode, Node, NotEmpty, PathFault, Tree};
use mnames::{Mode, Name, Path, Row};
pub use no_memory::NoMemory;
use quota_cells::{Cells, Full, MoveFault};
use std::alloc::Global;
use std::marker::Model;

/// The directory tree with its accounts (Bensoussan, Clingen and Daley 1972; Organick 1972).
///
/// Contracts see the list of its nodes with their quotas, the newest first, the VTOC entry of each, the next uid, and
/// how many stored pages each segment has. A clause that speaks of counts from scratch holds of any list of stored
/// pages that has as many of each segment (`Counts`).
#[derive(Drop)]
pub struct Accounts {
    tree: Tree,
    cells: Cells,
}

impl Model for Accounts {
    ghost use Rattle.quota_cells.specs.Cells.{Fits};
    ghost use Rattle.accounts.specs.Maps.{AccountMaps, accounts_of};

    ghost Value = { AccountMaps };

    ghost view = { λ a. accounts_of a.tree a.cells };

    ghost invariant = { λ a. Fits a.tree.nodes a.cells };
}

impl Accounts {
    /// A tree of the root alone, which has this VTOC entry on this volume, and this quota, in pages. It takes all the
    /// memory that the accounts ever have.
    ///
    /// # Errors
    /// `NoMemory` is want of memory.
    pub fn new(alloc: Global, volume: u32, entry: u32, quota: u32) -> Result<Accounts, NoMemory>
        ensures { IfOk result (λ accounts. accounts ≡ root_alone volume entry quota) }
    {
        let tree = Tree::new(alloc, volume, entry)?;
        let cells = Cells::new(alloc, quota)?;
        Ok(Accounts { tree, cells })
    }

    /// The node of `uid`. `None` exactly where it isn't in the tree.
    pub fn node(&self, uid: u32) -> Option<&Node>
        ensures some { IfSome result (λ n. node_in self.now.nodes uid ≡ Some
            (as_term (quota_in self.now.nodes) n.now)) }
        ensures entry { IfSome result (λ n. entry_of self.now uid ≡ n.now.entry) }
        ensures directory { IfSome result (λ n. has_directory self.now.nodes uid ≡ n.now.dir) }
        ensures segment { IfSome result (λ n. has_segment self.now.nodes uid ≡ not n.now.dir) }
        ensures none { IfNone result (node_in self.now.nodes uid ≡ None) }
    {
        self.tree.node(uid)
    }

    /// What holds of the accounts between calls: the nodes are a tree, with uids below the next one; each account is
    /// within its quota, and no segment has one; and the counts are those of the tree's segments, so no directory has
    /// stored pages of its own. It does nothing.
    pub fn promise(&self)
        ensures tree { IsTree self.now.nodes }
        ensures below { AreBelow self.now.next self.now.nodes }
        ensures columns { HasColumns self.now }
        ensures quotas { (seg : ℕ) → has_segment self.now.nodes seg ≡ true → quota_in self.now.nodes seg ≡ 0 }
        ensures counts { (dir : ℕ) → has_directory self.now.nodes dir ≡ true → count_of self.now dir ≡ 0 }
        ensures within { (stored : List (ℕ × ℕ)) → Counts self.now stored → (account : ℕ)
            → used_by self.now.nodes stored account ≤ quota_in self.now.nodes account }
    {
        self.tree.promise();
        self.cells.promise();
    }

    /// The uid that the next new branch gets. No node has or had it.
    pub fn next_uid(&self) -> u32
        ensures uid { result ≡ self.now.next }
        ensures fresh { node_in self.now.nodes self.now.next ≡ None }
        ensures below { AreBelow self.now.next self.now.nodes }
    {
        self.tree.next_uid()
    }

    /// The uid of the node that a path leads to.
    ///
    /// # Errors
    /// By the first name from the left that can't be followed: `NoPath` exactly where it's missing in its directory,
    /// `NotDir` exactly where it would be looked up in a segment.
    pub fn walk(&self, path: &Path) -> Result<u32, PathFault>
        ensures answer { result ≡ path_answer (walk_in self.now.nodes path.now) }
        ensures there { IfOk result (λ uid. is_some (node_in self.now.nodes uid) ≡ true) }
    {
        self.walk_down(path.names())
    }

    /// The uid of the node that a path of these names leads to, from the root down.
    ///
    /// # Errors
    /// Those of `walk`.
    pub fn walk_down(&self, names: &[Name]) -> Result<u32, PathFault>
        ensures answer { result ≡ path_answer (walk_in self.now.nodes names.now) }
        ensures there { IfOk result (λ uid. is_some (node_in self.now.nodes uid) ≡ true) }
    {
        self.tree.walk(names)
    }

    /// The directories from the root down to a node, and the node.
    pub fn chain(&self, uid: u32) -> ArrayVec<u32, 10>
        requires { is_some (node_in self.now.nodes uid) ≡ true }
        ensures chain { result.items ≡ chain_of self.now.nodes uid }
        ensures most { length result.items ≤ 10 }
    {
        self.tree.chain(uid)
    }

    /// The quota of a directory, in pages; 0 where it is no account of its own.
    pub fn quota(&self, dir: u32) -> u32
        requires { has_directory self.now.nodes dir ≡ true }
        ensures quota { result ≡ quota_in self.now.nodes dir }
        ensures pages { count_of self.now dir ≡ 0 }
    {
        self.cells.quota(dir)
    }

    /// The stored pages of a segment.
    pub fn stored(&self, seg: u32) -> u32
        requires { has_segment self.now.nodes seg ≡ true }
        ensures stored { result ≡ count_of self.now seg }
        ensures quota { quota_in self.now.nodes seg ≡ 0 }
    {
        self.cells.stored(seg)
    }

    /// The stored pages that an account is charged for, which are never more than its quota; 0 where it is no account.
    pub fn used(&self, account: u32) -> u32
        ensures scratch { (stored : List (ℕ × ℕ)) → Counts self.now stored
            → result ≡ used_by self.now.nodes stored account }
        ensures within { result ≤ quota_in self.now.nodes account }
    {
        self.tree.promise();
        self.cells.used(account)
    }

    /// What `charge` would refuse.
    ///
    /// # Errors
    /// `Full` exactly where the account of the segment has used all of its quota.
    pub fn may_charge(&self, seg: u32) -> Result<(), Full>
        requires { has_segment self.now.nodes seg ≡ true }
        ensures { (stored : List (ℕ × ℕ)) → Counts self.now stored
            → result ≡ charge_answer self.now.nodes stored seg }
    {
        self.cells.may_charge(&self.tree, seg)
    }

    /// Counts one more stored page of a segment, and charges its account for it.
    ///
    /// # Errors
    /// `Full` exactly where the account of the segment has used all of its quota; then nothing is changed.
    pub fn charge(&mut self, seg: u32) -> Result<(), Full>
        requires { has_segment self.old.nodes seg ≡ true }
        ensures answer { (stored : List (ℕ × ℕ)) → Counts self.old stored
            → result ≡ charge_answer self.old.nodes stored seg }
        ensures ok { OnOk result (Recounts self.old self.new seg (count_of self.old seg + 1)) }
        ensures err { OnErr result (self.new ≡ self.old) }
    {
        self.cells.charge(&self.tree, seg)
    }

    /// Counts so many stored pages of a segment less, to the credit of the account that it has now.
    pub fn credit(&mut self, seg: u32, pages: u32)
        requires segment { has_segment self.old.nodes seg ≡ true }
        requires stored { pages ≤ count_of self.old seg }
        ensures { Recounts self.old self.new seg (count_of self.old seg - pages) }
    {
        self.cells.credit_pages(&self.tree, seg, pages);
    }

    /// What `move_quota` would refuse.
    ///
    /// # Errors
    /// `TooLittle` exactly where the giver's quota is below the amount; else `Over` exactly where an account would
    /// have more stored pages than its quota, with the least uid of such.
    pub fn may_move(&self, dir: u32, amount: i32) -> Result<(), MoveFault>
        requires directory { has_directory self.now.nodes dir ≡ true }
        requires branch { dir ≢ 1 }
        requires amount { 0 < unsigned_abs amount }
        ensures { (stored : List (ℕ × ℕ)) → Counts self.now stored
            → result ≡ scratch_answer self.now.nodes stored dir (is_positive amount) (unsigned_abs amount) }
    {
        self.cells.may_move(&self.tree, dir, amount)
    }

    /// Moves quota between a directory and its immediate superior: a positive amount down to the directory, a
    /// negative one up from it. Used counts are those of the new accounts from then on.
    ///
    /// # Errors
    /// `TooLittle` exactly where the giver's quota is below the amount; else `Over` exactly where an account would
    /// have more stored pages than its quota, with the least uid of such. Then nothing is changed.
    pub fn move_quota(&mut self, dir: u32, amount: i32) -> Result<(), MoveFault>
        requires directory { has_directory self.old.nodes dir ≡ true }
        requires branch { dir ≢ 1 }
        requires amount { 0 < unsigned_abs amount }
        ensures answer { (stored : List (ℕ × ℕ)) → Counts self.old stored
            → result ≡ scratch_answer self.old.nodes stored dir (is_positive amount) (unsigned_abs amount) }
        ensures ok { OnOk result (Changes self.old self.new
            (tree_moved self.old.nodes dir (is_positive amount) (unsigned_abs amount))) }
        ensures err { OnErr result (self.new ≡ self.old) }
    {
        self.cells.move_quota(&self.tree, dir, amount)
    }

    /// What `add` would refuse.
    ///
    /// # Errors
    /// `Exists` exactly where the directory has a branch of this name; else `Deep` exactly where the branch is to be a
    /// directory and `superior` lies below eight directories, the root among them; else `Room` exactly where there
    /// are 4096 branches.
    pub fn may_add(&self, superior: u32, name: &Name, dir: bool) -> Result<(), AddFault>
        requires { has_directory self.now.nodes superior ≡ true }
        ensures { result ≡ unless (add_fault_of self.now.nodes superior name.now dir) tt }
    {
        self.tree.may_add(superior, name, dir)
    }

    /// Adds a branch to a directory, without quota or stored pages, and gives its uid, which is the next one.
    ///
    /// # Errors
    /// The first of `Exists`, `Deep` and `Room` that holds, each exactly there; then nothing is changed.
    pub fn add(&mut self, superior: u32, new: NewNode) -> Result<u32, AddFault>
        requires directory { has_directory self.old.nodes superior ≡ true }
        requires uids { self.old.next < 100003 }
        ensures answer { result ≡ unless (add_fault_of self.old.nodes superior new.name new.dir) self.old.next }
        ensures ok { OnOk result (Gains self.old self.new (branch_of self.old.next superior new) new.entry) }
        ensures err { OnErr result (self.new ≡ self.old) }
    {
        let dir = new.dir;
        let uid = self.tree.add_branch(superior, new)?;
        self.cells.enter(uid, dir);
        Ok(uid)
    }

    /// Adds a branch that `may_add` doesn't refuse, without quota or stored pages, and gives its uid, which is the next
    /// one.
    pub fn attach(&mut self, superior: u32, new: NewBranch) -> u32
        requires directory { has_directory self.old.nodes superior ≡ true }
        requires may { add_fault_of self.old.nodes superior new.name new.dir ≡ None }
        requires uids { self.old.next < 100003 }
        ensures uid { result ≡ self.old.next }
        ensures effect { Gains self.old self.new (branch_of self.old.next superior (as_node new)) new.entry }
    {
        let dir = new.dir;
        let uid = self.tree.attach(superior, new);
        self.cells.enter(uid, dir);
        uid
    }

    /// Why a branch can't be taken out, but for its quota or its stored pages.
    ///
    /// # Errors
    /// `NotEmpty` exactly where the node has an inferior.
    pub fn may_remove(&self, uid: u32) -> Result<(), NotEmpty>
        requires there { is_some (node_in self.now.nodes uid) ≡ true }
        requires branch { uid ≢ 1 }
        ensures { IsErr result ↔ (has_inferior self.now.nodes uid ≡ true) }
    {
        self.tree.may_remove(uid)
    }

    /// Takes out a directory without inferior and quota, or a segment without stored pages.
    pub fn remove(&mut self, uid: u32)
        requires there { is_some (node_in self.old.nodes uid) ≡ true }
        requires branch { uid ≢ 1 }
        requires empty { has_inferior self.old.nodes uid ≡ false }
        requires quota { quota_in self.old.nodes uid ≡ 0 }
        requires stored { count_of self.old uid ≡ 0 }
        ensures { Loses self.old self.new uid }
    {
        match self.tree.remove(uid) {
            Ok(()) => self.cells.leave(uid),
            Err(_) => unreachable!(),
        }
    }

    /// Sets the length of a segment, in pages.
    pub fn set_length(&mut self, seg: u32, pages: u32)
        requires { has_segment self.old.nodes seg ≡ true }
        ensures { Changes self.old self.new (with_node self.old.nodes seg (λ n. record n { pages = pages })) }
    {
        self.tree.set_length(seg, pages);
    }

    /// Sets the home of a segment: its volume, and its entry in the VTOC of that volume.
    pub fn set_home(&mut self, seg: u32, volume: u32, entry: u32)
        requires { has_segment self.old.nodes seg ≡ true }
        ensures home { Rehomes self.old self.new seg volume entry }
        ensures effect { self.new ≡ rehomed self.old seg volume entry }
    {
        self.tree.promise();
        self.tree.set_home(seg, volume, entry);
    }

    /// Sets what a row of a segment's access control list allows: in its place where it is in the list, else at the
    /// end.
    ///
    /// # Errors
    /// `AclFull` exactly where the row isn't in the list and 16 rows are; then nothing is changed.
    pub fn set_row(&mut self, seg: u32, row: Row, mode: Mode) -> Result<(), AclFull>
        requires { has_segment self.old.nodes seg ≡ true }
        ensures full { IsOk result ↔ IsTrue (takes_row row.person row.project (rows_in self.old.nodes seg)) }
        ensures ok { OnOk result (Changes self.old self.new (with_row_in self.old.nodes seg
            (record { person = row.person; project = row.project; mode = mode }))) }
        ensures err { OnErr result (self.new ≡ self.old) }
    {
        prove!(self.tree.node(seg).is_some());
        self.tree.acl_mut(seg).set(row, mode)
    }
}
