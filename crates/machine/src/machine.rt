ghost use Rattle.std.specs.Prelude.{◌≡◌, ◌<◌, ◌≤◌, ◌^◌, ◌↔◌, ℕ, count_by, is_some, length, map, sum_by, true, None};
ghost use Rattle.std.specs.Prelude.{OnOk};
ghost use Rattle.tree_model.specs.Tree.{entries_on, taken_on};
ghost use Rattle.accounts.specs.Maps.{Counts};
ghost use Rattle.flat_model.specs.Legal.{IsComplete, IsLegal, store_after};
ghost use Rattle.custody_model.specs.Clean.{IsClean, custody_after};
ghost use Rattle.volumes.specs.Volumes.{used_at, vtoc_at};
ghost use Rattle.machine_model.specs.Actions.{is_over};
ghost use Rattle.machine_model.specs.Keeps.{IsConserved, is_fault};
ghost use Rattle.machine_model.specs.Reads.{flat_of};
ghost use Rattle.seg_control.specs.Moving.{in_move, volumes_of};
ghost use Rattle.machine.specs.OnDisk.{IsOnDisk};
ghost use Rattle.machine.specs.Sizes.{HaveSizes};
ghost use Rattle.machine.specs.Turns.{HaveEnded};

use accounts::Accounts;
use book::Book;
use machine_tables::{NoMemory, Tables};
use std::marker::Model;
use volumes::{Drive, Volumes};

/// How many entries a step adds at the most.
const MOST: u32 = 320;

/// A machine of several processors, over any drive (Bensoussan, Clingen and Daley 1972; Corbató 1968).
///
/// Between any two steps the book is legal and clean, the tables show the flat store and the custody after it, and the
/// running counts are the counts from scratch.
#[derive(Drop)]
pub struct Machine<D: Drive> {
    pub(crate) tables: Tables<D>,
}

impl<D: Drive> Model for Machine<D> {
    ghost use Rattle.machine_tables.specs.Parts.{Parts};
    ghost use Rattle.machine.specs.Promise.{IsSound};

    ghost Value = { Parts D };

    ghost view = { λ m. m.tables };

    ghost invariant = { λ m. IsSound m.tables };
}

impl<D: Drive> Machine<D> {
    /// The book. After it the quotas sum to that of the root at first, and no account is charged for more pages than
    /// its quota. It tells of no more failures than the drives have counted. (Source: own.)
    pub fn book(&self) -> &Book
        ensures script { result.now.script ≡ self.now.state.plan }
        ensures entries { result.now.entries ≡ self.now.state.entries }
        ensures spare { result.now.spare ≡ self.now.state.spare }
        ensures legal { IsLegal result.now.script result.now.entries }
        ensures clean { IsClean result.now.script result.now.entries }
        ensures conserved { IsConserved result.now.script (store_after result.now.script result.now.entries) }
        ensures few { length result.now.entries < 2 ^ 63 }
        ensures faults { count_by is_fault result.now.entries ≤ sum_by D.faults self.now.drives }
    {
        self.tables.promise();
        let book = self.tables.book();
        let _entries = book.entries();
        book
    }

    /// Makes room for 320 entries. A refusal changes nothing but that there may be more room. (Source: own.)
    ///
    /// # Errors
    /// `NoMemory` is want of memory.
    pub fn reserve(&mut self) -> Result<(), NoMemory>
        ensures room { OnOk result (320 ≤ self.new.state.spare) }
        ensures rest { self.new ≡ record self.old {
          state = record self.old.state { spare = self.new.state.spare };
        } }
    {
        self.tables.reserve(MOST)
    }

    /// Every later step is answered `Stopped`. (Source: own.)
    pub fn stop(&mut self)
        ensures { self.new ≡ record self.old { state = record self.old.state { stopped = true } } }
    {
        self.tables.stop();
    }

    /// Whether the machine was stopped. (Source: own.)
    pub fn stopped(&self) -> bool
        ensures { result ≡ self.now.state.stopped }
    {
        self.tables.stopped()
    }
    /// Whether every process has ended: none is ready or running, and no segment moves. It goes round the processors.
    /// (Source: own.)
    pub fn ended(&self) -> bool
        ensures over { result ≡ is_over self.now.state }
        ensures ended { (result ≡ true) ↔ HaveEnded self.now.state }
        ensures complete { result ≡ true → IsComplete self.now.state.plan self.now.state.entries }
        ensures still { result ≡ true → self.now.state.store.moving ≡ None }
    {
        self.tables.is_over()
    }

    /// The directory tree with its accounts: its nodes are those of the flat store after the book, and each account
    /// counts the pages that are stored there. (Source: Organick 1972.)
    pub fn accounts(&self) -> &Accounts
        ensures accounts { result.now ≡ self.now.state.store.accounts }
        ensures nodes { (flat_of self.now.state).nodes ≡ result.now.nodes }
        ensures counts { Counts result.now (flat_of self.now.state).stored }
    {
        self.tables.store().accounts()
    }

    /// The volumes, one for each of the script, with their drives, each of the size that the script gives its volume.
    /// While no segment moves they hold the flat store after the book, but for the words of pages that are in frames:
    /// as many records of a volume are in use as pages are stored on it, and as many entries as it has nodes. A move
    /// under way has taken a home more: its records and its entry are in use, too. (Source: Organick 1972.)
    pub fn volumes(&self) -> &Volumes<D>
        ensures drives { result.now.drives ≡ self.now.drives }
        ensures records { result.now.records
            ≡ (in_move (volumes_of self.now.state.store.pages) self.now.state.store.moving).records }
        ensures vtocs { result.now.vtocs
            ≡ (in_move (volumes_of self.now.state.store.pages) self.now.state.store.moving).vtocs }
        ensures count { length result.now.drives ≡ length self.now.state.plan.volumes }
        ensures sizes { HaveSizes D.pages self.now.drives self.now.state.plan }
        ensures taken { self.now.state.store.moving ≡ None → (v : ℕ) → used_at result.now v
            ≡ taken_on (flat_of self.now.state).nodes (flat_of self.now.state).stored v }
        ensures entries { self.now.state.store.moving ≡ None → (v : ℕ) → count_by is_some (vtoc_at result.now v)
            ≡ entries_on (flat_of self.now.state).nodes v }
        ensures on_disk { self.now.state.store.moving ≡ None
            → IsOnDisk (map D.pages result.now.drives) result.now.records result.now.vtocs
            (store_after self.now.state.plan self.now.state.entries)
            (custody_after self.now.state.plan self.now.state.entries) }
    {
        self.tables.store();
        let volumes = self.tables.volumes();
        volumes.promise();
        volumes
    }

    /// The volumes of a machine in which no segment moves: they hold the flat store after the book, but for the words
    /// of the pages that are in frames, and nothing else is in use. (Source: Organick 1972.)
    pub fn volumes_at_rest(&self) -> &Volumes<D>
        requires { self.now.state.store.moving ≡ None }
        ensures drives { result.now.drives ≡ self.now.drives }
        ensures records { result.now.records ≡ self.now.state.store.pages.records }
        ensures vtocs { result.now.vtocs ≡ self.now.state.store.pages.vtocs }
        ensures count { length result.now.drives ≡ length self.now.state.plan.volumes }
        ensures sizes { HaveSizes D.pages self.now.drives self.now.state.plan }
        ensures taken { (v : ℕ) → used_at result.now v
            ≡ taken_on (flat_of self.now.state).nodes (flat_of self.now.state).stored v }
        ensures entries { (v : ℕ) → count_by is_some (vtoc_at result.now v)
            ≡ entries_on (flat_of self.now.state).nodes v }
        ensures on_disk { IsOnDisk (map D.pages result.now.drives) result.now.records result.now.vtocs
            (store_after self.now.state.plan self.now.state.entries)
            (custody_after self.now.state.plan self.now.state.entries) }
    {
        self.volumes()
    }
}
