ghost use Rattle.std.specs.Prelude.{◌≡◌, ◌≤◌, ◌<◌, [], Some, length, slice_index_or, slice_set, IfOk, IfSome, OnOk};
ghost use Rattle.std.specs.Prelude.{OnErr, IsOk, IsTrue};
ghost use Rattle.site_io.specs.Faults.{Rose};
ghost use Rattle.volumes.specs.FailLine.{HasFewFaults, IsOneMore};
ghost use Rattle.volumes.specs.FullPages.{HaveFullPages};
ghost use Rattle.volumes.specs.CoreDrive.{faults_of};
ghost use Rattle.bulk_store.specs.Held.{place_of, is_fast_write};
ghost use Rattle.bulk_store.specs.CoreBulk.{core_pages, fresh_store, HasReadBulk, HasWrittenBulk};

use crate::NoMemory;
use crate::store::BulkStore;
use mword::Page;
use site_io::Failed;
use std::alloc::Global;
use std::marker::Model;
use volumes::{CoreDrive, Drive};

/// A bulk store whose drives are in core, and whose fast store never fails: the lines that name failing calls are the
/// disk's. It is seen as the bulk store that it is. (Source: own.)
#[derive(Drop)]
pub struct CoreBulk {
    store: BulkStore<CoreDrive, CoreDrive>,
}

impl Model for CoreBulk {
    ghost use Rattle.bulk_store.specs.CoreBulk.{CoreStore, IsSure};

    ghost Value = { CoreStore };

    ghost view = { λ b. b.store };

    ghost invariant = { λ b. IsSure b.store };
}

impl CoreBulk {
    /// A fast store of `places` pages of zeros, at least one, before `disk`.
    ///
    /// `NoMemory` is want of memory. It takes 8 KiB for each place, and what the bulk store takes. (Source: own.)
    pub fn new(alloc: Global, places: u32, disk: CoreDrive) -> Result<CoreBulk, NoMemory>
        requires { 0 < places }
        ensures made { IfOk result (λ b. b ≡ fresh_store places disk) }
        ensures pages { IfOk result (λ b. core_pages b ≡ disk.pages) }
    {
        let fast = CoreDrive::new(alloc, places, Vec::new(alloc))?;
        let store = BulkStore::new(alloc, fast, disk)?;
        Ok(CoreBulk { store })
    }

    /// The bulk store. (Source: own.)
    pub fn store(&self) -> &BulkStore<CoreDrive, CoreDrive>
        ensures { result.now ≡ self.now }
    {
        &self.store
    }
}

impl Drive for CoreBulk {
    ghost use Rattle.std.specs.Prelude.{Some, length};
    ghost use Rattle.volumes.specs.CoreDrive.{faults_of};
    ghost use Rattle.bulk_store.specs.CoreBulk.{core_pages};

    ghost pages = { core_pages };

    ghost faults = { λ s. faults_of s.disk };

    ghost plan = { λ s. Some s.disk.fails };

    ghost places = { λ s. length s.fast.pages };

    fn size(&self) -> u32 {
        self.store.size()
    }

    fn read_page(&mut self, r: u32, to: &mut Page) -> Result<(), Failed>
        requires { r < length (core_pages self.old) }
        ensures ok { OnOk result (to.new ≡ slice_index_or (core_pages self.old) r []) }
        ensures err { OnErr result (to.new ≡ to.old) }
        ensures pages { core_pages self.new ≡ core_pages self.old }
        ensures bulk { HasReadBulk self.old self.new r }
        ensures sure { IfSome (place_of self.old.held r) (λ _. IsOk result) }
        ensures told { OnOk result (faults_of self.new.disk ≡ faults_of self.old.disk) }
        ensures once { OnErr result (IsOneMore (faults_of self.old.disk) (faults_of self.new.disk)) }
        ensures rose { OnErr result (Rose (faults_of self.old.disk) (faults_of self.new.disk)) }
        ensures grows { faults_of self.old.disk ≤ faults_of self.new.disk }
        ensures plan { self.new.disk.fails ≡ self.old.disk.fails }
        ensures places { length self.new.fast.pages ≡ length self.old.fast.pages }
        ensures few { HasFewFaults (Some self.new.disk.fails) (faults_of self.new.disk) }
    {
        self.store.read_page(r, to)
    }

    fn write_page(&mut self, r: u32, from: &Page) -> Result<(), Failed>
        requires { r < length (core_pages self.old) }
        ensures ok { OnOk result (core_pages self.new ≡ slice_set (core_pages self.old) r from.now) }
        ensures err { OnErr result (core_pages self.new ≡ core_pages self.old) }
        ensures full { HaveFullPages (core_pages self.new) }
        ensures bulk { HasWrittenBulk self.old self.new r result }
        ensures sure { IsTrue (is_fast_write (length self.old.fast.pages) self.old.held r) → IsOk result }
        ensures told { OnOk result (faults_of self.new.disk ≡ faults_of self.old.disk) }
        ensures once { OnErr result (IsOneMore (faults_of self.old.disk) (faults_of self.new.disk)) }
        ensures rose { OnErr result (Rose (faults_of self.old.disk) (faults_of self.new.disk)) }
        ensures grows { faults_of self.old.disk ≤ faults_of self.new.disk }
        ensures plan { self.new.disk.fails ≡ self.old.disk.fails }
        ensures places { length self.new.fast.pages ≡ length self.old.fast.pages }
        ensures few { HasFewFaults (Some self.new.disk.fails) (faults_of self.new.disk) }
    {
        self.store.write_page(r, from)
    }
}
