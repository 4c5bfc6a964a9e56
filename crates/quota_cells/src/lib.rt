//! Quota cells: the quota of each directory, and the stored pages of each segment (Organick 1972).
//!
//! A page is charged to the nearest superior directory with a quota, which is an account, else to the root, which
//! always is one. For each directory a load is kept besides, the stored pages below it that no lower account takes:
//! an account's used count is its load, and any other directory uses nothing. So where quota moves, and a directory
//! becomes an account or is one no more, its load is taken from the directories above it up to the nearest account,
//! or added there, and no page is counted again.
//!
//! Costs: `new` takes all memory, once: room for 100,003 uids, 9 bytes for each as a directory and 5 as a segment, in
//! tables by uid. It writes none of it but what is the root's; what stands beside a uid is written once it or that of a
//! later uid is set.
//! A look-up reads a table or two. To go up is to read the directories above a node from the tree, at most 9 with one
//! look-up each, and to look their cells up to the first account. `credit` goes up once from the segment, for one page
//! or for many, and `charge` reads what is above it once, and looks it up twice: to see whether the account is full,
//! and to count. `move_quota` reads what is above the directory, and then what is above its superior to see whether the
//! quota may move, where it looks at no more than three accounts for one that would be above its quota; then it goes up
//! from each of the two directories. `enter` and `leave` write two or three places, and `enter` the numbers of uids
//! before its own that weren't. None but `new` takes memory.
#![tactic(auto)]

ghost use Rattle.std.specs.Prelude.{◌≡◌, ◌≢◌, ◌<◌, ◌≤◌, ◌+◌, ◌-◌, ◌^◌, ◌==◌, ◌&&◌, ◌||◌, not, ℕ, Bool, true, false};
ghost use Rattle.std.specs.Prelude.{Some, None, List, length, IfOk, IfErr, IfSome, IfNone, OnOk, OnErr, IsErr, sum};
ghost use Rattle.std.specs.Prelude.{if◌then◌else◌, ◌∷◌};
ghost use Rattle.tree_model.specs.Tree.{above, account, account_of, used_by};
ghost use Rattle.dir_tree.specs.declared.node.Node.{Node};
ghost use Rattle.dir_tree.specs.Nodes.{with_quotas, root_alone, is_in, is_directory, is_segment, without};
ghost use Rattle.dir_tree.specs.Shape.{shapes};
ghost use Rattle.tree_model.specs.Trees.{HasChains};
ghost use Rattle.quota_cells.specs.Accounts.{has, covers, is_an_account};
ghost use Rattle.quota_cells.specs.Columns.{AreThere, IsFalling, CanGive, directories_of};
ghost use Rattle.quota_cells.specs.Cells.{IsTable, quota_in, load_in, stored_in, used_in, Fits, AreWithin, root_cell};
ghost use Rattle.quota_cells.specs.Cells.{charged, credited, charge_fault, has_cell, entered, left, Enters, Leaves};
ghost use Rattle.quota_cells.specs.Cells.{moved};
ghost use Rattle.quota_cells.specs.Cells.{move_answer, first_over, given, CountsUsed};
ghost use Rattle.tree_model.specs.Quotas.{superior_of, tree_moved};
ghost use Rattle.quota_cells.specs.Moves.{LiesIn, cell_in};
ghost use Rattle.quota_cells.specs.Scratch.{HoldCounts, charge_answer, scratch_answer};
ghost use Rattle.std.specs.Int.RustNames.{unsigned_abs};
ghost use Rattle.std.specs.Int.{is_positive};

mod by_uid;
mod directories;
mod moves;
mod numbers;

use dir_tree::{ROOT, Tree};
use directories::{Directories, Pages, Placed};
pub use no_memory::NoMemory;
use numbers::Numbers;
use std::alloc::Global;
use std::marker::Model;

/// The account has as many stored pages as its quota.
#[derive(Clone, Copy, Debug, PartialEq, Eq)]
pub struct Full {
    /// The directory that would be charged.
    pub account: u32,
}

/// Why quota can't move: the first of these that holds.
#[derive(Clone, Copy, Debug, PartialEq, Eq)]
pub enum MoveFault {
    /// The giver's quota is below the amount.
    TooLittle,
    /// This account, the one with the least uid, would have more stored pages than its quota.
    Over {
        /// The account.
        account: u32,
    },
}

/// Quota cells (Organick 1972).
///
/// Contracts see a finite map from directory to quota, one from segment to stored pages, and one from directory to
/// load. The cells fit a tree (`Fits`) where its directories and segments are exactly the uids with a cell, and each
/// load is the count from scratch in that tree, with the quotas and stored pages that the cells hold. Each account is
/// within its quota at all times, and the sum of quotas is what the root had at first.
#[derive(Drop)]
pub struct Cells {
    directories: Directories,
    segments: Numbers,
}

impl Model for Cells {
    ghost use Rattle.quota_cells.specs.Cells.{CellMaps, IsTable};
    ghost use Rattle.quota_cells.specs.Columns.{both_maps};

    ghost Value = { CellMaps };

    ghost view = { λ c. both_maps c.directories c.segments };

    ghost invariant = { λ c. IsTable (both_maps c.directories c.segments) };
}

/// The superior of a directory that isn't the root.
fn superior_of(t: &Tree, dir: u32) -> u32
    requires directory { is_directory t.now.nodes dir ≡ true }
    requires branch { dir ≢ 1 }
    ensures lies { LiesIn t.now.nodes dir result }
    ensures there { is_in t.now.nodes result ≡ true }
{
    let up = t.superiors(dir);
    up.as_slice()[0]
}

impl Cells {
    /// The root's cell alone, with this quota, in pages. They fit the tree of the root alone.
    ///
    /// # Errors
    /// `NoMemory` is want of memory.
    pub fn new(alloc: Global, root_quota: u32) -> Result<Cells, NoMemory>
        ensures cells { IfOk result (λ cells. cells ≡ root_cell root_quota) }
        ensures fits { IfOk result (λ cells. (volume entry : ℕ) → Fits (root_alone volume entry).nodes cells) }
    {
        let directories = Directories::new(alloc, root_quota)?;
        let segments = Numbers::new(alloc)?;
        Ok(Cells {
            directories,
            segments,
        })
    }

    /// Adds an empty cell for a new directory or segment. Where the cells fitted the tree before it was added, they
    /// fit the tree with it.
    pub fn enter(&mut self, uid: u32, dir: bool)
        requires bound { uid < 100003 }
        requires absent { has_cell self.old uid ≡ false }
        ensures cells { self.new ≡ entered self.old uid dir }
        ensures enters { Enters self.old self.new uid dir }
        ensures fits { (nodes : List Node) (n : Node) → n.uid ≡ uid → n.dir ≡ dir → is_in nodes uid ≡ false
            → HasChains (shapes nodes) → Fits nodes self.old → Fits (n ∷ nodes) self.new }
    {
        self.add_cell(uid, dir);
    }

    /// Adds an empty cell of a directory or of a segment.
    fn add_cell(&mut self, uid: u32, dir: bool)
        requires bound { uid < 100003 }
        requires absent { has_cell self.old uid ≡ false }
        ensures cells { self.new ≡ entered self.old uid dir }
        ensures table { IsTable self.old }
    {
        if dir {
            self.directories.enter(uid);
        } else {
            self.segments.enter(uid);
        }
    }

    /// Drops the cell of a directory without quota, or of a segment without stored pages. Where the cells fitted the
    /// tree before the node was taken out, they fit the tree without it.
    pub fn leave(&mut self, uid: u32)
        requires cell { has_cell self.old uid ≡ true }
        requires quota { quota_in self.old uid ≡ 0 }
        requires stored { stored_in self.old uid ≡ 0 }
        ensures cells { self.new ≡ left self.old uid }
        ensures leaves { Leaves self.old self.new uid }
        ensures fits { (nodes : List Node) → ((u : ℕ) → u ≢ uid
            → above (shapes (without uid nodes)) u ≡ above (shapes nodes) u)
            → length (without uid nodes) + 1 ≡ length nodes → Fits nodes self.old → Fits (without uid nodes) self.new }
    {
        self.drop_cell(uid);
    }

    /// Drops the empty cell of a directory or of a segment.
    fn drop_cell(&mut self, uid: u32)
        requires cell { has_cell self.old uid ≡ true }
        requires quota { quota_in self.old uid ≡ 0 }
        requires stored { stored_in self.old uid ≡ 0 }
        ensures cells { self.new ≡ left self.old uid }
        ensures table { IsTable self.old }
    {
        if self.directories.has(uid) {
            self.directories.leave(uid);
        } else {
            self.segments.leave(uid);
        }
    }

    /// The quota of a directory, in pages; 0 where it is no account of its own.
    pub fn quota(&self, d: u32) -> u32
        requires { has self.now.directories d ≡ true }
        ensures quota { result ≡ quota_in self.now d }
        ensures pages { stored_in self.now d ≡ 0 }
    {
        self.directories.cell(d).quota
    }

    /// The stored pages of a segment.
    pub fn stored(&self, seg: u32) -> u32
        requires { has self.now.segments seg ≡ true }
        ensures stored { result ≡ stored_in self.now seg }
        ensures quota { quota_in self.now seg ≡ 0 }
        ensures table { IsTable self.now }
    {
        self.segments.look(seg)
    }

    /// The stored pages that an account is charged for; 0 where it is no account.
    ///
    /// In each tree that the cells fit it is the count from scratch, over any list of stored pages that has as many of
    /// each segment as its cell says.
    pub fn used(&self, a: u32) -> u32
        ensures used { result ≡ used_in self.now a }
        ensures scratch { (nodes : List Node) (stored : List (ℕ × ℕ)) → HasChains (shapes nodes) → Fits nodes self.now
            → HoldCounts self.now stored → result ≡ used_by (with_quotas (quota_in self.now) nodes) stored a }
        ensures within { AreWithin self.now }
        ensures table { IsTable self.now }
    {
        self.pages_used(a)
    }

    /// What holds of the cells between calls: each account is within its quota. It does nothing.
    pub fn promise(&self)
        ensures within { AreWithin self.now }
        ensures table { IsTable self.now }
    {
        let _ = &self.segments;
    }

    /// What `used` gives, by the cells alone.
    fn pages_used(&self, a: u32) -> u32
        ensures used { result ≡ used_in self.now a }
        ensures table { IsTable self.now }
    {
        let cell = self.directories.cell(a);
        if a == ROOT || cell.quota > 0 {
            return cell.load;
        }
        0
    }

    /// What `charge` would refuse.
    ///
    /// # Errors
    /// `Full` exactly where the account of the segment has used all of its quota.
    pub fn may_charge(&self, t: &Tree, seg: u32) -> Result<(), Full>
        requires segment { is_segment t.now.nodes seg ≡ true }
        requires fits { Fits t.now.nodes self.now }
        ensures { (stored : List (ℕ × ℕ)) → HoldCounts self.now stored
            → result ≡ charge_answer (with_quotas (quota_in self.now) t.now.nodes) stored seg }
    {
        let up = t.superiors(seg);
        self.room_for(up.as_slice())
    }

    /// Whether the account of what lies below these directories has room for a page.
    fn room_for(&self, up: &[u32]) -> Result<(), Full>
        ensures answer { result ≡ charge_fault self.now up.now }
        ensures table { IsTable self.now }
    {
        let account = self.directories.account(up);
        if account.load == account.quota {
            return Err(Full {
                account: account.uid,
            });
        }
        Ok(())
    }

    /// Counts one more stored page of a segment, and charges its account for it.
    ///
    /// # Errors
    /// `Full` exactly where the account of the segment has used all of its quota; then nothing is changed.
    pub fn charge(&mut self, t: &Tree, seg: u32) -> Result<(), Full>
        requires segment { is_segment t.now.nodes seg ≡ true }
        requires fits { Fits t.now.nodes self.old }
        ensures scratch { (stored : List (ℕ × ℕ)) → HoldCounts self.old stored
            → result ≡ charge_answer (with_quotas (quota_in self.old) t.now.nodes) stored seg }
        ensures stored { OnOk result ((s : ℕ) → stored_in self.new s ≡
            (if seg == s then stored_in self.old seg + 1 else stored_in self.old s)) }
        ensures quotas { quota_in self.new ≡ quota_in self.old }
        ensures err { OnErr result (self.new ≡ self.old) }
        ensures fits { Fits t.now.nodes self.new }
    {
        let up = t.superiors(seg);
        match self.room_for(up.as_slice()) {
            Ok(()) => {
                self.add_page(up.as_slice(), seg);
                Ok(())
            }
            Err(full) => Err(full),
        }
    }

    /// Counts one more page of a segment below these directories.
    fn add_page(&mut self, up: &[u32], seg: u32)
        requires segment { has self.old.segments seg ≡ true }
        requires there { AreThere self.old.directories up.now }
        requires falls { IsFalling up.now }
        requires room { (e : ℕ) → covers (quota_in self.old) up.now e ≡ true → load_in self.old e + 1 < 2 ^ 32 }
        requires page { stored_in self.old seg + 1 < 2 ^ 32 }
        requires table { IsTable (charged self.old up.now seg) }
        ensures { self.new ≡ charged self.old up.now seg }
    {
        let pages = self.segments.look(seg) + 1;
        self.segments.set(seg, pages);
        self.directories.count(up, Pages::More(1));
    }

    /// Counts one stored page of a segment less, to the credit of the account that it has now.
    pub fn credit(&mut self, t: &Tree, seg: u32)
        requires segment { is_segment t.now.nodes seg ≡ true }
        requires stored { 0 < stored_in self.old seg }
        requires fits { Fits t.now.nodes self.old }
        ensures stored { (s : ℕ) → stored_in self.new s ≡
            (if seg == s then stored_in self.old seg - 1 else stored_in self.old s) }
        ensures quotas { quota_in self.new ≡ quota_in self.old }
        ensures fits { Fits t.now.nodes self.new }
    {
        self.credit_pages(t, seg, 1);
    }

    /// Counts so many stored pages of a segment less, to the credit of the account that it has now. It goes up once,
    /// however many pages they are.
    pub fn credit_pages(&mut self, t: &Tree, seg: u32, pages: u32)
        requires segment { is_segment t.now.nodes seg ≡ true }
        requires stored { pages ≤ stored_in self.old seg }
        requires fits { Fits t.now.nodes self.old }
        ensures stored { (s : ℕ) → stored_in self.new s ≡
            (if seg == s then stored_in self.old seg - pages else stored_in self.old s) }
        ensures quotas { quota_in self.new ≡ quota_in self.old }
        ensures fits { Fits t.now.nodes self.new }
    {
        let _ = &self.segments;
        let up = t.superiors(seg);
        self.take_pages(up.as_slice(), seg, pages);
    }

    /// Counts so many pages less of a segment below these directories.
    fn take_pages(&mut self, up: &[u32], seg: u32, pages: u32)
        requires segment { has self.old.segments seg ≡ true }
        requires there { AreThere self.old.directories up.now }
        requires falls { IsFalling up.now }
        requires loads { (e : ℕ) → covers (quota_in self.old) up.now e ≡ true → pages ≤ load_in self.old e }
        requires stored { pages ≤ stored_in self.old seg }
        requires table { IsTable (credited self.old up.now seg pages) }
        ensures { self.new ≡ credited self.old up.now seg pages }
    {
        let left = self.segments.look(seg) - pages;
        self.segments.set(seg, left);
        self.directories.count(up, Pages::Less(pages));
    }

    /// What `move_quota` would refuse.
    ///
    /// # Errors
    /// `TooLittle` exactly where the giver's quota is below the amount; else `Over` exactly where an account would
    /// have more stored pages than its quota, with the least uid of such.
    pub fn may_move(&self, t: &Tree, dir: u32, amount: i32) -> Result<(), MoveFault>
        requires directory { is_directory t.now.nodes dir ≡ true }
        requires branch { dir ≢ 1 }
        requires amount { 0 < unsigned_abs amount }
        requires fits { Fits t.now.nodes self.now }
        ensures { (stored : List (ℕ × ℕ)) → HoldCounts self.now stored
            → result ≡ scratch_answer (with_quotas (quota_in self.now) t.now.nodes) stored dir (is_positive amount)
            (unsigned_abs amount) }
    {
        let superior = superior_of(t, dir);
        self.move_refusal(t, dir, superior, amount)
    }

    /// What `may_move` gives, by the cells alone.
    fn move_refusal(&self, t: &Tree, dir: u32, superior: u32, amount: i32) -> Result<(), MoveFault>
        requires lies { LiesIn t.now.nodes dir superior }
        requires amount { 0 < unsigned_abs amount }
        requires fits { Fits t.now.nodes self.now }
        ensures answer { result ≡ move_answer self.now (above (shapes t.now.nodes)) dir (is_positive amount)
            (unsigned_abs amount) }
        ensures table { IsTable self.now }
    {
        let _ = &self.directories;
        self.refusal(
            t,
            dir,
            superior,
            amount.is_positive(),
            amount.unsigned_abs(),
        )
    }

    /// What a move of so many pages of quota between a directory and its superior would be refused for: down to the
    /// directory, or up from it.
    fn refusal(
        &self,
        t: &Tree,
        dir: u32,
        superior: u32,
        down: bool,
        pages: u32,
    ) -> Result<(), MoveFault>
        requires lies { LiesIn t.now.nodes dir superior }
        requires pages { 0 < pages }
        requires table { IsTable self.now }
        requires fits { Fits t.now.nodes self.now }
        ensures { result ≡ move_answer self.now (above (shapes t.now.nodes)) dir down pages }
    {
        let below = self.directories.cell(dir);
        let above = self.directories.cell(superior);
        if !down {
            return moves::refusal_up(below, above, pages);
        }
        let up = t.superiors(superior);
        let account = self.directories.account(up.as_slice());
        moves::refusal_down(below, above, account, pages)
    }

    /// Moves quota between a directory and its immediate superior: a positive amount down to the directory, a
    /// negative one up from it. Used counts are those of the new accounts from then on.
    ///
    /// # Errors
    /// `TooLittle` exactly where the giver's quota is below the amount; else `Over` exactly where an account would
    /// have more stored pages than its quota, with the least uid of such. Then nothing is changed.
    pub fn move_quota(&mut self, t: &Tree, dir: u32, amount: i32) -> Result<(), MoveFault>
        requires directory { is_directory t.now.nodes dir ≡ true }
        requires branch { dir ≢ 1 }
        requires amount { 0 < unsigned_abs amount }
        requires fits { Fits t.now.nodes self.old }
        ensures scratch { (stored : List (ℕ × ℕ)) → HoldCounts self.old stored
            → result ≡ scratch_answer (with_quotas (quota_in self.old) t.now.nodes) stored dir (is_positive amount)
            (unsigned_abs amount) }
        ensures tree { OnOk result (with_quotas (quota_in self.new) t.now.nodes ≡ tree_moved
            (with_quotas (quota_in self.old) t.now.nodes) dir (is_positive amount) (unsigned_abs amount)) }
        ensures stored { (s : ℕ) → stored_in self.new s ≡ stored_in self.old s }
        ensures err { OnErr result (self.new ≡ self.old) }
        ensures fits { Fits t.now.nodes self.new }
        ensures total { sum self.new.quotas ≡ sum self.old.quotas }
    {
        let superior = superior_of(t, dir);
        self.move_between(t, dir, superior, amount)
    }

    /// Moves quota between a directory and this superior of it.
    fn move_between(
        &mut self,
        t: &Tree,
        dir: u32,
        superior: u32,
        amount: i32,
    ) -> Result<(), MoveFault>
        requires lies { LiesIn t.now.nodes dir superior }
        requires amount { 0 < unsigned_abs amount }
        requires fits { Fits t.now.nodes self.old }
        ensures answer { result ≡ move_answer self.old (above (shapes t.now.nodes)) dir (is_positive amount)
            (unsigned_abs amount) }
        ensures ok { OnOk result (self.new ≡ moved self.old (above (shapes t.now.nodes)) dir (is_positive amount)
            (unsigned_abs amount)) }
        ensures err { OnErr result (self.new ≡ self.old) }
        ensures table { IsTable self.old }
    {
        self.move_refusal(t, dir, superior, amount)?;
        if amount.is_positive() {
            self.transfer(t, dir, superior, amount.unsigned_abs());
        } else {
            self.transfer(t, superior, dir, amount.unsigned_abs());
        }
        Ok(())
    }

    /// Moves quota that may move.
    fn transfer(&mut self, t: &Tree, getter: u32, giver: u32, pages: u32)
        requires getter { is_directory t.now.nodes getter ≡ true }
        requires giver { is_directory t.now.nodes giver ≡ true }
        requires other { getter ≢ giver }
        requires pages { 0 < pages }
        requires enough { pages ≤ quota_in self.old giver }
        requires fits { Fits t.now.nodes self.old }
        requires none { first_over (given self.old getter (above (shapes t.now.nodes) getter) giver
            (above (shapes t.now.nodes) giver) pages) ≡ None }
        ensures { self.new ≡ given self.old getter (above (shapes t.now.nodes) getter) giver
            (above (shapes t.now.nodes) giver) pages }
    {
        let _ = &self.directories;
        let above_getter = t.superiors(getter);
        let above_giver = t.superiors(giver);
        self.give(
            Placed {
                directory: getter,
                above: above_getter.as_slice(),
            },
            Placed {
                directory: giver,
                above: above_giver.as_slice(),
            },
            pages,
        );
    }

    /// Gives one directory so many pages of another's quota.
    fn give(&mut self, getter: Placed, giver: Placed, pages: u32)
        requires can { CanGive (directories_of self.old) getter.directory getter.above.now giver.directory
            giver.above.now pages }
        requires table { IsTable (given self.old getter.directory getter.above.now giver.directory
            giver.above.now pages) }
        ensures { self.new ≡ given self.old getter.entry.directory getter.entry.above.now giver.entry.directory
            giver.entry.above.now pages }
    {
        self.directories.give(getter, giver, pages);
    }
}
