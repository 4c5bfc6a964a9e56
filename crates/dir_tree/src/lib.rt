//! The directory tree: directories and segments, each a branch of one directory, down from one root (Bensoussan,
//! Clingen and Daley 1972; Organick 1972). The limits of 4096 branches and eight directories below the root are own.
//!
//! Costs: `new` takes all memory, once: room for 4097 nodes, an entry of 20 bytes and a hash of 4 for each, and 64
//! shelves with room for 4096 places of 2 bytes by superior and name. A table has room for the places of 100,003 uids,
//! of 2 bytes each, and is written as the uids come. A look-up by uid reads the table and the entry. One by superior
//! and name halves one shelf by the hashes of these: a 64th of the branches stands there as a rule, all of them at
//! most, so it takes about 7 looks, and 13 at most, whatever the names are. It compares names only where two hashes are
//! the same: for nearly all names once, at its end. `walk` makes one such look-up for each name. `superiors`, `chain`
//! and the test of depth look one uid up for each directory above, of which there are at most 9. Each entry counts the
//! nodes that lie in its own, so `may_remove` makes one look-up by uid. `attach` writes one node in its place, one
//! hash, one entry and its place, counts it in the entry of its superior, and moves up a part of one shelf;
//! `add_branch` does the same after the look-up of `may_add`. `remove` takes it from that count, and moves down a part
//! of one shelf, at most 8 KiB: the place of the node is free from then on. None but `new` takes memory.
#![tactic(auto)]

ghost use Rattle.std.specs.Prelude.{◌≡◌, ◌≢◌, ◌<◌, ◌≤◌, ◌+◌, ℕ, Bool, ◌&&◌, nat_le, is_some, true, false, ◌↔◌};
ghost use Rattle.std.specs.Prelude.{List, Some, None, IsErr, length, IfOk, IfSome, IfNone, OnOk, OnErr};
ghost use Rattle.tree_model.specs.Access.{Row};
ghost use Rattle.tree_model.specs.Tree.{above, node_in, branch_in, walk_in, step_up};
ghost use Rattle.std.specs.Borrow.{sem};
ghost use Rattle.dir_tree.specs.Nodes.{acl_of, as_term, with_quotas, node_of, is_in, is_directory, is_segment};
ghost use Rattle.dir_tree.specs.Nodes.{root_alone, path_answer, add_fault_of, unless, added, removed, has_inferior};
ghost use Rattle.dir_tree.specs.Nodes.{with_length, with_home, with_acl, as_node, chain_of};
ghost use Rattle.dir_tree.specs.Shape.{shape, shapes};
ghost use Rattle.tree_model.specs.Trees.{AreBelow, IsTree, HasChains};

mod entries;
mod index;
mod node;

use acl::Acl;
use arrayvec::ArrayVec;
use entries::{Entries, Entry};
use index::Index;
use mnames::Name;
pub use node::{AddFault, NewBranch, NewNode, NoMemory, Node, NotEmpty, PathFault};
use std::alloc::Global;
use std::marker::Model;

/// The uid of the root.
pub const ROOT: u32 = 1;

/// The most branches of a tree, and its root (own).
pub const NODES: usize = 4097;

/// The uids that a tree has are below this (own): a script has at most 100,000 commands, of which each makes at most
/// one branch, and the first of these gets 2.
pub const UIDS: u32 = 100_003;

/// The depth of the deepest directories (own).
pub const DEPTH: usize = 8;

/// The directory tree (Bensoussan, Clingen and Daley 1972; Organick 1972).
///
/// Contracts see the list of its nodes, the newest first, and the next uid, and they speak of it by the words of all
/// of storage: `with_quotas quota nodes` are these nodes where each directory has the quota that the function says,
/// which the tree doesn't keep. A clause that says something for each such function holds whatever the quotas are.
#[derive(Drop)]
pub struct Tree {
    nodes: Vec<Node>,
    entries: Entries,
    free: Vec<u16>,
    index: Index,
    next: u32,
}

impl Model for Tree {
    ghost use Rattle.std.specs.Prelude.{◌≤◌, vec_capacity};
    ghost use Rattle.dir_tree.specs.Nodes.{Branches};
    ghost use Rattle.dir_tree.specs.Kept.{newest, IsCounted, IsKept};

    ghost Value = { Branches };

    ghost view = { λ t. record { nodes = newest t.nodes.items t.entries; next = t.next } };

    ghost invariant = { λ t. IsKept t.nodes.items t.entries t.free.items t.index t.next
        × (4097 ≤ vec_capacity t.nodes) × (4097 ≤ vec_capacity t.free) × IsCounted t.entries };
}

impl Tree {
    ghost use Rattle.dir_tree.specs.Lending.{LendsAcl};

    /// A tree of the root alone, which has this VTOC entry on this volume. It takes all the memory that the tree
    /// ever has; `NoMemory` is want of it.
    pub fn new(alloc: Global, volume: u32, entry: u32) -> Result<Tree, NoMemory>
        ensures { IfOk result (λ tree. tree ≡ root_alone volume entry) }
    {
        let mut nodes = Vec::with_capacity(alloc, NODES)?;
        let mut entries = Entries::new(alloc)?;
        let free = Vec::with_capacity(alloc, NODES)?;
        let index = Index::new(alloc)?;
        nodes.push_reserved(Node {
            uid: ROOT,
            superior: None,
            name: Name::default(),
            dir: true,
            volume,
            entry,
            length: 0,
            acl: Acl::none(),
        });
        entries.push(Entry {
            uid: ROOT,
            superior: None,
            place: 0,
            inferiors: 0,
        });
        Ok(Tree {
            nodes,
            entries,
            free,
            index,
            next: ROOT + 1,
        })
    }

    /// The node of `uid`. `None` exactly where it isn't in the tree.
    ///
    /// It reads the table of uids.
    pub fn node(&self, uid: u32) -> Option<&Node>
        ensures some { IfSome result (λ n. node_of self.now.nodes uid ≡ Some n.now) }
        ensures none { IfNone result (node_of self.now.nodes uid ≡ None) }
        ensures up { IfSome result (λ n. above (shapes self.now.nodes) uid ≡ step_up (above (shapes self.now.nodes))
            n.now.superior) }
        ensures term { (quota : ℕ → ℕ) → IfSome result (λ n. node_in (with_quotas quota self.now.nodes) uid ≡ Some
            (as_term quota n.now)) }
        ensures missing { (quota : ℕ → ℕ) → IfNone result (node_in (with_quotas quota self.now.nodes) uid ≡ None) }
        ensures tree { IsTree (shapes self.now.nodes) }
        ensures chains { HasChains (shapes self.now.nodes) }
    {
        let entry = self.entries.entry_of(uid)?;
        Some(&self.nodes[entry.place as usize])
    }

    /// The uid that the next new branch gets.
    pub fn next_uid(&self) -> u32
        ensures uid { result ≡ self.now.next }
        ensures fresh { is_in self.now.nodes self.now.next ≡ false }
        ensures chains { HasChains (shapes self.now.nodes) }
        ensures below { AreBelow self.now.next (shapes self.now.nodes) }
    {
        self.promise();
        self.next
    }

    /// What holds of the tree between calls: its nodes are a tree, each leads up to the root, and each has a uid below
    /// the next one. It does nothing.
    pub fn promise(&self)
        ensures tree { IsTree (shapes self.now.nodes) }
        ensures chains { HasChains (shapes self.now.nodes) }
        ensures below { AreBelow self.now.next (shapes self.now.nodes) }
    {
        let _ = &self.entries;
    }

    /// The branch of this name in a directory. `None` exactly where there is none.
    fn branch(&self, directory: u32, name: &Name) -> Option<&Node>
        ensures some { IfSome result (λ n. branch_in (shapes self.now.nodes) directory name.now ≡ Some (shape n.now)) }
        ensures none { IfNone result (branch_in (shapes self.now.nodes) directory name.now ≡ None) }
        ensures there { IfSome result (λ n. is_in self.now.nodes n.now.uid ≡ true) }
    {
        let place = self.index.find(&self.nodes, directory, name)?;
        Some(&self.nodes[place as usize])
    }

    /// The uid of the root, where each path begins.
    fn root(&self) -> u32
        ensures is { result ≡ 1 }
        ensures there { is_in self.now.nodes 1 ≡ true }
    {
        prove!(self.entries.len() > 0);
        ROOT
    }

    /// The uid of the node that a path of these names leads to, from the root down.
    ///
    /// # Errors
    /// By the first name from the left that can't be followed: `NoPath` exactly where it's missing in its directory,
    /// `NotDir` exactly where it would be looked up in a segment.
    pub fn walk(&self, names: &[Name]) -> Result<u32, PathFault>
        ensures answer { (quota : ℕ → ℕ) → result ≡ path_answer (walk_in (with_quotas quota self.now.nodes) names.now) }
        ensures there { IfOk result (λ uid. is_in self.now.nodes uid ≡ true) }
    {
        let mut at = self.root();
        let mut dir = true;
        for name in names {
            if !dir {
                return Err(PathFault::NotDir);
            }
            match self.branch(at, name) {
                Some(node) => {
                    at = node.uid;
                    dir = node.dir;
                }
                None => return Err(PathFault::NoPath),
            }
        }
        Ok(at)
    }

    /// The superior of a node; none for the root.
    fn superior(&self, uid: u32) -> Option<u32>
        requires { is_in self.now.nodes uid ≡ true }
        ensures above { above (shapes self.now.nodes) uid ≡ step_up (above (shapes self.now.nodes)) result }
        ensures falls { IfSome result (λ s. (s < uid) × (is_in self.now.nodes s ≡ true)) }
        ensures tree { IsTree (shapes self.now.nodes) }
    {
        match self.entries.entry_of(uid) {
            Some(entry) => entry.superior,
            None => unreachable!(),
        }
    }

    /// The directories above a node, the nearest first and the root last: at most 9.
    pub fn superiors(&self, uid: u32) -> ArrayVec<u32, 9>
        requires { is_in self.now.nodes uid ≡ true }
        ensures above { (quota : ℕ → ℕ) → result.items ≡ above (with_quotas quota self.now.nodes) uid }
        ensures plain { result.items ≡ above (shapes self.now.nodes) uid }
        ensures most { length result.items ≤ 9 }
        ensures chains { HasChains (shapes self.now.nodes) }
    {
        let mut up = ArrayVec::new();
        let mut at = uid;
        while let Some(superior) = self.superior(at) {
            up.push(superior);
            at = superior;
        }
        up
    }

    /// The directories from the root down to a node, and the node.
    pub fn chain(&self, uid: u32) -> ArrayVec<u32, 10>
        requires { is_in self.now.nodes uid ≡ true }
        ensures chain { (quota : ℕ → ℕ) → result.items ≡ chain_of (with_quotas quota self.now.nodes) uid }
        ensures most { length result.items ≤ 10 }
        ensures chains { HasChains (shapes self.now.nodes) }
    {
        let mut chain = ArrayVec::new();
        chain.push(uid);
        for directory in self.superiors(uid).as_slice() {
            chain.push(*directory);
        }
        chain.as_mut_slice().reverse();
        chain
    }

    /// What `add_branch` would refuse.
    ///
    /// # Errors
    /// `Exists` exactly where the directory has a branch of this name; else `Deep` exactly where the branch is to be a
    /// directory and `superior` lies below eight directories, the root among them; else `Room` exactly where there
    /// are 4096 branches.
    pub fn may_add(&self, superior: u32, name: &Name, dir: bool) -> Result<(), AddFault>
        requires { is_directory self.now.nodes superior ≡ true }
        ensures { (quota : ℕ → ℕ) → result ≡ unless (add_fault_of (with_quotas quota self.now.nodes) superior name.now
            dir) tt }
    {
        if self.has_branch(superior, name) {
            return Err(AddFault::Exists);
        }
        if self.is_too_deep(superior, dir) {
            return Err(AddFault::Deep);
        }
        if self.is_full() {
            return Err(AddFault::Room);
        }
        Ok(())
    }

    /// Whether a directory has a branch of this name.
    fn has_branch(&self, directory: u32, name: &Name) -> bool
        ensures { result ≡ is_some (branch_in (shapes self.now.nodes) directory name.now) }
    {
        self.branch(directory, name).is_some()
    }

    /// Whether a branch would be a directory below depth 8.
    fn is_too_deep(&self, superior: u32, dir: bool) -> bool
        requires { is_directory self.now.nodes superior ≡ true }
        ensures { result ≡ (dir && nat_le 8 (length (above (shapes self.now.nodes) superior))) }
    {
        dir && self.superiors(superior).len() >= DEPTH
    }

    /// Whether there are 4096 branches.
    fn is_full(&self) -> bool
        ensures { result ≡ nat_le 4097 (length self.now.nodes) }
    {
        self.entries.len() >= NODES
    }

    /// Adds a branch to a directory, and gives its uid, which is the next one: no node has or had it.
    ///
    /// # Errors
    /// The first of `Exists`, `Deep` and `Room` that holds, each exactly there; then nothing is changed.
    pub fn add_branch(&mut self, superior: u32, new: NewNode) -> Result<u32, AddFault>
        requires directory { is_directory self.old.nodes superior ≡ true }
        requires uids { self.old.next < 100003 }
        ensures answer { (quota : ℕ → ℕ) → result ≡ unless
            (add_fault_of (with_quotas quota self.old.nodes) superior new.name new.dir) self.old.next }
        ensures ok { OnOk result (self.new ≡ added self.old superior new) }
        ensures fresh { is_in self.old.nodes self.old.next ≡ false }
        ensures room { OnOk result (length self.old.nodes < 4097) }
        ensures chains { HasChains (shapes self.old.nodes) }
        ensures err { OnErr result (self.new ≡ self.old) }
    {
        self.may_add(superior, &new.name, new.dir)?;
        let uid = self.next;
        let branch = NewBranch {
            name: new.name,
            dir: new.dir,
            volume: new.volume,
            entry: new.entry,
            length: new.length,
            maker: None,
        };
        self.attach(superior, branch);
        self.set_rows(uid, new.acl);
        Ok(uid)
    }

    /// Sets the access control list of a node.
    fn set_rows(&mut self, uid: u32, acl: Acl)
        requires { is_in self.old.nodes uid ≡ true }
        ensures { self.new ≡ with_acl self.old uid acl }
    {
        let place = self.entries.place_of(uid);
        self.nodes[place as usize].acl = acl;
    }

    /// Adds a branch that `may_add` doesn't refuse, and gives its uid, which is the next one: no node has or had it.
    pub fn attach(&mut self, superior: u32, new: NewBranch) -> u32
        requires directory { is_directory self.old.nodes superior ≡ true }
        requires may { add_fault_of (shapes self.old.nodes) superior new.name new.dir ≡ None }
        requires uids { self.old.next < 100003 }
        ensures uid { result ≡ self.old.next }
        ensures tree { self.new ≡ added self.old superior (as_node new) }
        ensures fresh { is_in self.old.nodes self.old.next ≡ false }
        ensures chains { HasChains (shapes self.old.nodes) }
    {
        let uid = self.next;
        let place = entries::store(&mut self.nodes, &mut self.free, uid, superior, new);
        self.index.insert(&self.nodes, place);
        self.entries.push(Entry {
            uid,
            superior: Some(superior),
            place,
            inferiors: 0,
        });
        self.entries.gain(superior);
        self.next = uid + 1;
        uid
    }

    /// What `remove` would refuse.
    ///
    /// # Errors
    /// `NotEmpty` exactly where the node has an inferior.
    pub fn may_remove(&self, uid: u32) -> Result<(), NotEmpty>
        requires there { is_in self.now.nodes uid ≡ true }
        requires branch { uid ≢ 1 }
        ensures { (quota : ℕ → ℕ) → IsErr result ↔ (has_inferior (with_quotas quota self.now.nodes) uid ≡ true) }
    {
        if self.entries.has_inferior(uid) {
            return Err(NotEmpty);
        }
        Ok(())
    }

    /// Takes a branch out of the tree. No other node is moved, and what is above them is as before.
    ///
    /// # Errors
    /// `NotEmpty` exactly where the node has an inferior; then nothing is changed.
    pub fn remove(&mut self, uid: u32) -> Result<(), NotEmpty>
        requires there { is_in self.old.nodes uid ≡ true }
        requires branch { uid ≢ 1 }
        ensures answer { (quota : ℕ → ℕ) → IsErr result ↔ (has_inferior (with_quotas quota self.old.nodes) uid ≡ true) }
        ensures ok { OnOk result (self.new ≡ removed self.old uid) }
        ensures count { OnOk result (length self.new.nodes + 1 ≡ length self.old.nodes) }
        ensures rest { OnOk result ((u : ℕ) → u ≢ uid → above (shapes self.new.nodes) u ≡ above (shapes self.old.nodes)
            u) }
        ensures err { OnErr result (self.new ≡ self.old) }
    {
        self.may_remove(uid)?;
        self.detach(uid);
        Ok(())
    }

    /// Takes out a branch that has no inferior.
    fn detach(&mut self, uid: u32)
        requires there { is_in self.old.nodes uid ≡ true }
        requires branch { uid ≢ 1 }
        requires leaf { has_inferior (shapes self.old.nodes) uid ≡ false }
        ensures tree { self.new ≡ removed self.old uid }
        ensures count { length self.new.nodes + 1 ≡ length self.old.nodes }
    {
        let Entry {
            superior,
            place,
            ..
        } = self.entries.remove(uid);
        let Some(superior) = superior else {
            unreachable!();
        };
        self.index.remove(&self.nodes, place);
        self.entries.lose(superior);
        self.free.push_reserved(place);
    }

    /// Sets the length of a segment, in pages.
    pub fn set_length(&mut self, uid: u32, pages: u32)
        requires { is_segment self.old.nodes uid ≡ true }
        ensures tree { self.new ≡ with_length self.old uid pages }
        ensures shapes { shapes self.new.nodes ≡ shapes self.old.nodes }
    {
        let place = self.entries.place_of(uid);
        self.nodes[place as usize].length = pages;
    }

    /// The access control list of a segment, to be changed. Nothing else changes by it.
    pub fn acl_mut(&mut self, uid: u32) -> &mut Acl
        requires { is_segment self.old.nodes uid ≡ true }
        ensures* writes_back { sem 𝓛 (LendsAcl self.entry uid result) }
        ensures value { result.now ≡ acl_of self.old.nodes uid }
        ensures shapes { (rows : List Row) → shapes (with_acl self.old uid rows).nodes ≡ shapes self.old.nodes }
        ensures others { (rows : List Row) (u : ℕ) → u ≢ uid
            → node_of (with_acl self.old uid rows).nodes u ≡ node_of self.old.nodes u }
    {
        let place = self.entries.place_of(uid);
        let node = &mut self.nodes[place as usize];
        &mut node.acl
    }

    /// Sets the home of a segment: its volume, and its entry in the VTOC of that volume.
    pub fn set_home(&mut self, uid: u32, volume: u32, entry: u32)
        requires { is_segment self.old.nodes uid ≡ true }
        ensures tree { self.new ≡ with_home self.old uid volume entry }
        ensures shapes { shapes self.new.nodes ≡ shapes self.old.nodes }
    {
        let place = self.entries.place_of(uid);
        let node = &mut self.nodes[place as usize];
        node.volume = volume;
        node.entry = entry;
    }
}
