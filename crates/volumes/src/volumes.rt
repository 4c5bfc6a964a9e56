ghost use Rattle.std.specs.Prelude.{◌≡◌, ◌≤◌, ◌<◌, ◌+◌, ℕ, Bool, true, false, List, [], ◌∷◌, ◌++◌, Option, Some};
ghost use Rattle.std.specs.Prelude.{length, map, sum_by, All, slice_get, slice_index_or, IfOk, IfSome, IfNone, OnOk};
ghost use Rattle.std.specs.Prelude.{OnErr};
ghost use Rattle.std.specs.Borrow.{sem};
ghost use Rattle.site_io.specs.Faults.{Rose};
ghost use Rattle.volumes.specs.FailLine.{IsOneMore};
ghost use Rattle.record_map.specs.Bitmap.{in_use, least_free, IsLeastFree};
ghost use Rattle.volumes.specs.Volumes.{records_at, used_at, vtoc_at, pages_at, faults_at, with_record_used, with_page};
ghost use Rattle.volumes.specs.Volumes.{made_of, HasParts, HaveFewFaults, HaveFull, KeepsOthers, KeepsTables};
ghost use Rattle.volumes.specs.Lending.{lends_vtoc};

use crate::drive::Drive;
use crate::{NoMemory, Part};
use mword::Page;
use record_map::RecordMap;
use site_io::Failed;
use std::alloc::Global;
use std::marker::Model;
use vtoc::Vtoc;

/// The volumes of the machine, each seen as its drive, the flags of its records in use and its VTOC.
#[derive(Drop)]
pub struct Volumes<D: Drive> {
    drives: Vec<D>,
    records: Vec<RecordMap>,
    vtocs: Vec<Vtoc>,
}

impl<D: Drive> Model for Volumes<D> {
    ghost use Rattle.std.specs.Prelude.{map};
    ghost use Rattle.volumes.specs.Volumes.{Vols, HasParts, HaveFewFaults, HaveFull};

    ghost Value = { Vols D };

    ghost view = { λ v. record { drives = v.drives.items; records = v.records.items; vtocs = v.vtocs.items } };

    ghost invariant = { λ v. HasParts (map D.pages v.drives.items) v.records.items v.vtocs.items
        × HaveFewFaults D.plan D.faults v.drives.items
        × HaveFull D.pages v.drives.items };
}

impl<D: Drive> Volumes<D> {
    /// The volumes of these parts, in their order: drives as they are handed in, no record in use and no VTOC entry.
    ///
    /// `NoMemory` is want of memory, which 2^32 parts and more always are. It takes memory for each record map and
    /// VTOC. (Source: own.)
    pub fn new(alloc: Global, parts: Vec<Part<D>>) -> Result<Volumes<D>, NoMemory>
        ensures { IfOk result (λ v. v ≡ made_of D.pages parts.items) }
    {
        if parts.len() > u32::MAX as usize {
            return Err(NoMemory);
        }
        let mut drives = Vec::new(alloc);
        let mut records = Vec::new(alloc);
        let mut vtocs = Vec::new(alloc);
        for part in parts {
            let size = part.drive.size();
            let map = RecordMap::new(alloc, size)?;
            add(&mut records, map)?;
            let vtoc = Vtoc::new(alloc, part.entries)?;
            add(&mut vtocs, vtoc)?;
            add(&mut drives, part.drive)?;
        }
        Ok(Volumes {
            drives,
            records,
            vtocs,
        })
    }

    /// How many volumes there are. It reads a number. (Source: own.)
    pub fn count(&self) -> u32
        ensures count { result ≡ length self.now.drives }
        ensures parts { HasParts (map D.pages self.now.drives) self.now.records self.now.vtocs }
        ensures few { HaveFewFaults D.plan D.faults self.now.drives }
        ensures full { HaveFull D.pages self.now.drives }
    {
        self.drives.len() as u32
    }

    /// What holds of the volumes between calls: each has as many records as its drive has pages, and a VTOC; the
    /// failures of a drive whose failing calls are named are few; and each page has 1024 words. It does nothing.
    /// (Source: own.)
    pub fn promise(&self)
        ensures parts { HasParts (map D.pages self.now.drives) self.now.records self.now.vtocs }
        ensures few { HaveFewFaults D.plan D.faults self.now.drives }
        ensures full { HaveFull D.pages self.now.drives }
    {
        let _ = &self.drives;
    }

    /// Takes the least free record of volume `v` into use. None exactly where all of its records are in use; nothing
    /// has changed then. It costs what the record map's does. (Source: Organick 1972.)
    pub fn withdraw(&mut self, v: u32) -> Option<u32>
        requires { v < length self.old.drives }
        ensures least { result ≡ least_free (records_at self.old v) }
        ensures some { IfSome result (λ r. IsLeastFree (records_at self.old v) r) }
        ensures none { IfNone result (All (λ flag. flag ≡ true) (records_at self.old v)) }

        // What becomes of the volumes.
        ensures taken { IfSome result (λ r. self.new ≡ with_record_used self.old v r true) }
        ensures count { IfSome result (λ _. used_at self.new v ≡ used_at self.old v + 1) }
        ensures same { IfNone result (self.new ≡ self.old) }
    {
        self.records[v as usize].withdraw()
    }

    /// Puts back the record `r` of volume `v`, which is in use. It costs what the record map's does. (Source:
    /// Organick 1972.)
    pub fn deposit(&mut self, v: u32, r: u32)
        requires volume { v < length self.old.drives }
        requires used { in_use (records_at self.old v) r ≡ true }
        ensures records { self.new ≡ with_record_used self.old v r false }
        ensures count { used_at self.new v + 1 ≡ used_at self.old v }
    {
        self.records[v as usize].deposit(r);
    }

    /// How many records of volume `v` are in use. It reads a count. (Source: own.)
    pub fn taken(&self, v: u32) -> u32
        requires { v < length self.now.drives }
        ensures { result ≡ used_at self.now v }
    {
        self.records[v as usize].taken()
    }

    /// How many records volume `v` has. It asks the drive. (Source: own.)
    pub fn size(&self, v: u32) -> u32
        requires { v < length self.now.drives }
        ensures pages { result ≡ length (pages_at D.pages self.now v) }
        ensures records { result ≡ length (records_at self.now v) }
    {
        self.drives[v as usize].size()
    }

    /// The drive of volume `v`. It finds it by its index. (Source: own.)
    pub fn drive(&self, v: u32) -> &D
        requires { v < length self.now.drives }
        ensures { slice_get self.now.drives v ≡ Some result.now }
    {
        &self.drives[v as usize]
    }

    /// The VTOC of volume `v`. It finds it by its index. (Source: Organick 1972.)
    pub fn vtoc(&self, v: u32) -> &Vtoc
        requires { v < length self.now.drives }
        ensures { result.now ≡ vtoc_at self.now v }
    {
        &self.vtocs[v as usize]
    }

    /// Lends the VTOC of volume `v`, and nothing else. It finds it by its index. (Source: Organick 1972.)
    pub fn vtoc_mut(&mut self, v: u32) -> &mut Vtoc
        requires { v < length self.old.drives }
        ensures* writes_back { sem 𝓛 (lends_vtoc D.row D.Drive self.entry v result) }
        ensures value { result.now ≡ vtoc_at self.old v }
    {
        &mut self.vtocs[v as usize]
    }

    /// Reads record `r` of volume `v` into `to`. After `Failed`, `to` is as before. The drives count a failure exactly
    /// where there was one, and it is that drive's. It costs one read of the drive. (Source: Organick 1972.)
    #[tactic(auto, using(crate::proofs::Drives::one_drive))]
    pub fn read_page(&mut self, v: u32, r: u32, to: &mut Page) -> Result<(), Failed>
        requires volume { v < length self.old.drives }
        requires record { r < length (pages_at D.pages self.old v) }
        ensures ok { OnOk result (to.new ≡ slice_index_or (pages_at D.pages self.old v) r []) }
        ensures err { OnErr result (to.new ≡ to.old) }
        ensures full { OnOk result (length to.new ≡ 1024) }
        ensures pages { map D.pages self.new.drives ≡ map D.pages self.old.drives }

        // What becomes of the rest.
        ensures told { OnOk result (map D.faults self.new.drives ≡ map D.faults self.old.drives) }
        ensures once { OnErr result
            (IsOneMore (faults_at D.faults self.old.drives v) (faults_at D.faults self.new.drives v)) }
        ensures rose { OnErr result (Rose (sum_by D.faults self.old.drives) (sum_by D.faults self.new.drives)) }
        ensures its { OnErr result
            (Rose (faults_at D.faults self.old.drives v) (faults_at D.faults self.new.drives v)) }
        ensures grows { sum_by D.faults self.old.drives ≤ sum_by D.faults self.new.drives }
        ensures plans { map D.plan self.new.drives ≡ map D.plan self.old.drives }
        ensures places { map D.places self.new.drives ≡ map D.places self.old.drives }
        ensures others { KeepsOthers self.old.drives self.new.drives v }
        ensures tables { KeepsTables self.old self.new }
        ensures count { length self.new.drives ≡ length self.old.drives }
    {
        self.drives[v as usize].read_page(r, to)
    }

    /// Makes record `r` of volume `v` the page `from`. After `Failed` no page has changed. The drives count a failure
    /// exactly where there was one, and it is that drive's. It costs one write of the drive. (Source: Organick 1972.)
    #[tactic(auto, using(crate::proofs::Drives::one_drive))]
    pub fn write_page(&mut self, v: u32, r: u32, from: &Page) -> Result<(), Failed>
        requires volume { v < length self.old.drives }
        requires record { r < length (pages_at D.pages self.old v) }
        ensures ok { OnOk result (map D.pages self.new.drives ≡ with_page (map D.pages self.old.drives) v r from.now) }
        ensures err { OnErr result (map D.pages self.new.drives ≡ map D.pages self.old.drives) }

        // What becomes of the rest.
        ensures told { OnOk result (map D.faults self.new.drives ≡ map D.faults self.old.drives) }
        ensures once { OnErr result
            (IsOneMore (faults_at D.faults self.old.drives v) (faults_at D.faults self.new.drives v)) }
        ensures rose { OnErr result (Rose (sum_by D.faults self.old.drives) (sum_by D.faults self.new.drives)) }
        ensures its { OnErr result
            (Rose (faults_at D.faults self.old.drives v) (faults_at D.faults self.new.drives v)) }
        ensures grows { sum_by D.faults self.old.drives ≤ sum_by D.faults self.new.drives }
        ensures plans { map D.plan self.new.drives ≡ map D.plan self.old.drives }
        ensures places { map D.places self.new.drives ≡ map D.places self.old.drives }
        ensures others { KeepsOthers self.old.drives self.new.drives v }
        ensures tables { KeepsTables self.old self.new }
        ensures count { length self.new.drives ≡ length self.old.drives }
    {
        self.drives[v as usize].write_page(r, from)
    }
}

/// Adds `item` at the end.
fn add<T: Drop>(items: &mut Vec<T>, item: T) -> Result<(), NoMemory>
    ensures { OnOk result (items.new.items ≡ items.old.items ++ item ∷ []) }
{
    Ok(items.push(item)?)
}
