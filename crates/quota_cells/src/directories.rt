//! The quota cells of directories, and walks up from a node.

ghost use Rattle.std.specs.Prelude.{◌≡◌, ℕ, ◌<◌, ◌==◌, true, false, IfOk};
ghost use Rattle.tree_model.specs.Tree.{account};
ghost use Rattle.quota_cells.specs.Accounts.{has, covers, with_value};
ghost use Rattle.quota_cells.specs.Cells.{IsRising, quota_in, load_in, root_cell, with_loads, loads_then};
ghost use Rattle.quota_cells.specs.Cells.{with_quota, given, with_directory, without_directory};
ghost use Rattle.quota_cells.specs.Columns.{AreThere, IsFalling, CanChange, CanGive, directories_of};
ghost use Rattle.quota_cells.specs.Columns.{HasRoom, counted_on, counted};
ghost use Rattle.quota_cells.specs.Moves.{cell_in};

use crate::by_uid::ByUid;
use crate::numbers::Numbers;
use dir_tree::ROOT;
use std::alloc::{AllocError, Global};
use std::marker::Model;

/// The quota cell of a directory (Organick 1972), with the stored pages below it that no lower account takes.
#[derive(Clone, Copy)]
pub(crate) struct Cell {
    /// The directory.
    pub uid: u32,
    /// Its quota, in pages; 0 where it is no account of its own.
    pub quota: u32,
    /// Its load, in pages.
    pub load: u32,
}

/// A directory, and the directories above it, the nearest first.
#[derive(Clone, Copy)]
pub(crate) struct Placed<'a> {
    /// The directory.
    pub directory: u32,
    /// The directories above it.
    pub above: &'a [u32],
}

/// Pages that are counted on loads, or are counted there no more.
#[derive(Clone, Copy)]
pub(crate) enum Pages {
    /// So many more.
    More(u32),
    /// So many less.
    Less(u32),
}

impl Pages {
    /// A load once they are counted on it.
    fn on(self, load: u32) -> u32
        requires { HasRoom self load }
        ensures { result ≡ counted_on self load }
    {
        match self {
            Pages::More(pages) => load + pages,
            Pages::Less(pages) => load - pages,
        }
    }
}

/// The quota cells of directories: their quotas, and the load of each in a table by uid.
#[derive(Drop)]
pub(crate) struct Directories {
    quotas: Numbers,
    loads: ByUid,
}

impl Model for Directories {
    ghost use Rattle.quota_cells.specs.Cells.{CellMaps};
    ghost use Rattle.quota_cells.specs.Columns.{beside, directory_maps};

    ghost Value = { CellMaps };

    ghost view = { λ d. directory_maps d.quotas (beside d.loads d.quotas.uids) };
}

impl Directories {
    /// The root's cell alone, with this quota.
    pub(crate) fn new(alloc: Global, root_quota: u32) -> Result<Directories, AllocError>
        ensures { IfOk result (λ d. d ≡ root_cell root_quota) }
    {
        let quotas = Numbers::new(alloc)?;
        let loads = ByUid::new(alloc)?;
        let mut directories = Directories { quotas, loads };
        directories.enter(ROOT);
        directories.set_quota(ROOT, root_quota);
        Ok(directories)
    }

    /// Whether a directory has a cell.
    pub(crate) fn has(&self, uid: u32) -> bool
        ensures { result ≡ has self.now.directories uid }
    {
        self.quotas.has(uid)
    }

    /// The cell of a directory that has one.
    fn cell_there(&self, uid: u32) -> Cell
        requires { has self.now.directories uid ≡ true }
        ensures cell { result ≡ cell_in self.now uid }
        ensures rising { IsRising self.now.directories }
    {
        let place = self.quotas.place(uid);
        Cell {
            uid,
            quota: self.quotas.at(uid),
            load: self.loads.number(place),
        }
    }

    /// The cell of a directory; an empty one where it has none.
    pub(crate) fn cell(&self, uid: u32) -> Cell
        ensures { result ≡ cell_in self.now uid }
    {
        if !self.has(uid) {
            return Cell {
                uid,
                quota: 0,
                load: 0,
            };
        }
        self.cell_there(uid)
    }

    /// The cell of the account of what lies below these directories: of the first that has a quota, else of the root.
    pub(crate) fn account(&self, up: &[u32]) -> Cell
        ensures { result ≡ cell_in self.now (account (quota_in self.now) up.now) }
    {
        for directory in up {
            let cell = self.cell(*directory);
            if cell.quota > 0 {
                return cell;
            }
        }
        self.cell(ROOT)
    }

    /// Sets the load of a directory.
    fn set_load(&mut self, uid: u32, load: u32)
        requires { has self.old.directories uid ≡ true }
        ensures { self.new ≡ record self.old { loads = with_value self.old.directories self.old.loads uid load } }
    {
        let place = self.quotas.place(uid);
        self.loads.put(place, load);
    }

    /// Sets the quota of a directory.
    fn set_quota(&mut self, uid: u32, quota: u32)
        requires { has self.old.directories uid ≡ true }
        ensures { self.new ≡ record self.old { quotas = with_value self.old.directories self.old.quotas uid quota } }
    {
        self.quotas.set(uid, quota);
    }

    /// Counts pages on the loads of the directories that cover a node below these.
    pub(crate) fn count(&mut self, up: &[u32], pages: Pages)
        requires there { AreThere self.old.directories up.now }
        requires falls { IsFalling up.now }
        requires room { (e : ℕ) → covers (quota_in self.old) up.now e ≡ true → HasRoom pages (load_in self.old e) }
        ensures { self.new ≡ counted self.old up.now pages }
    {
        let _ = &self.loads;
        for directory in up {
            let cell = self.cell_there(*directory);
            self.set_load(*directory, pages.on(cell.load));
            if cell.quota > 0 {
                return;
            }
        }
    }

    /// What becomes of the loads where a directory below these is an account from now on, or isn't one any more.
    fn shift(&mut self, up: &[u32], directory: u32, pages: u32)
        requires { CanChange self.old up.now directory pages }
        ensures { self.new ≡ with_loads self.old (loads_then self.old up.now directory
            (quota_in self.old directory == 0) (pages == 0)) }
    {
        let cell = self.cell(directory);
        if cell.quota == 0 && pages > 0 {
            self.count(up, Pages::Less(cell.load));
            return;
        }
        if cell.quota > 0 && pages == 0 {
            self.count(up, Pages::More(cell.load));
        }
    }

    /// Gives a directory below these another quota, with what becomes of the loads.
    fn change(&mut self, up: &[u32], directory: u32, pages: u32)
        requires here { has self.old.directories directory ≡ true }
        requires can { CanChange self.old up.now directory pages }
        ensures { self.new ≡ with_quota self.old up.now directory pages }
    {
        let _ = &self.loads;
        self.shift(up, directory, pages);
        self.set_quota(directory, pages);
    }

    /// Gives one directory so many pages of another's quota, with what becomes of the loads.
    pub(crate) fn give(&mut self, getter: Placed, giver: Placed, pages: u32)
        requires { CanGive (directories_of self.old) getter.directory getter.above.now giver.directory
            giver.above.now pages }
        ensures { self.new ≡ given self.old getter.entry.directory getter.entry.above.now giver.entry.directory
            giver.entry.above.now pages }
    {
        let more = self.cell(getter.directory).quota + pages;
        let less = self.cell(giver.directory).quota - pages;
        self.change(getter.above, getter.directory, more);
        self.change(giver.above, giver.directory, less);
    }

    /// Adds an empty cell of a directory.
    pub(crate) fn enter(&mut self, uid: u32)
        requires bound { uid < 100003 }
        requires absent { has self.old.directories uid ≡ false }
        ensures { self.new ≡ with_directory self.old uid }
    {
        self.quotas.enter(uid);
        self.loads.put(uid as usize, 0);
    }

    /// Drops the cell of a directory.
    pub(crate) fn leave(&mut self, uid: u32)
        requires { has self.old.directories uid ≡ true }
        ensures { self.new ≡ without_directory self.old uid }
    {
        self.quotas.leave(uid);
    }
}
