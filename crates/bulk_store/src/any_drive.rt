ghost use Rattle.std.specs.Prelude.{◌≡◌, ◌≤◌, ◌<◌, ◌+◌, false, true, [], Some, length, slice_index_or, slice_set, OnOk};
ghost use Rattle.std.specs.Prelude.{OnErr};
ghost use Rattle.site_io.specs.Faults.{Rose};
ghost use Rattle.volumes.specs.FailLine.{named_calls, HasFewFaults, IsOneMore};
ghost use Rattle.volumes.specs.FullPages.{HaveFullPages};
ghost use Rattle.volumes.specs.CoreDrive.{faults_of};
ghost use Rattle.bulk_store.specs.AnyDrive.{disk_of, any_pages, any_places, HasReadAny, HasWrittenAny};

use crate::core_bulk::CoreBulk;
use mword::Page;
use site_io::Failed;
use volumes::{CoreDrive, Drive};

/// A drive in core, with or without a fast store before it.
///
/// Its plan is the lines that name failing calls of its disk, and its count of faults is the number of its disk's calls
/// so far that these lines name. (Source: own.)
#[derive(Drop)]
pub enum AnyDrive {
    /// The disk alone.
    Plain(CoreDrive),
    /// A fast store, which never fails, before the disk.
    Bulk(CoreBulk),
}

impl AnyDrive {
    /// The reads and the writes of its disk so far, each counted to 2^64 - 1, the failing ones too.
    /// (Source: own.)
    pub fn calls(&self) -> (u64, u64)
        ensures calls { result ≡ ((disk_of self.now).reads, (disk_of self.now).writes) }
        ensures faults { faults_of (disk_of self.now) ≡ named_calls (disk_of self.now).fails false result.0
            + named_calls (disk_of self.now).fails true result.1 }
    {
        match self {
            AnyDrive::Plain(drive) => drive.calls(),
            AnyDrive::Bulk(bulk) => bulk.store().disk().calls(),
        }
    }
}

impl Drive for AnyDrive {
    ghost use Rattle.std.specs.Prelude.{Some};
    ghost use Rattle.volumes.specs.CoreDrive.{faults_of};
    ghost use Rattle.bulk_store.specs.AnyDrive.{disk_of, any_pages, any_places};

    ghost pages = { any_pages };

    ghost faults = { λ a. faults_of (disk_of a) };

    ghost plan = { λ a. Some (disk_of a).fails };

    ghost places = { any_places };

    fn size(&self) -> u32
        ensures size { result ≡ length (any_pages self.now) }
        ensures few { HasFewFaults (Some (disk_of self.now).fails) (faults_of (disk_of self.now)) }
        ensures full { HaveFullPages (any_pages self.now) }
    {
        match self {
            AnyDrive::Plain(drive) => drive.size(),
            AnyDrive::Bulk(bulk) => bulk.size(),
        }
    }

    fn read_page(&mut self, r: u32, to: &mut Page) -> Result<(), Failed>
        requires { r < length (any_pages self.old) }
        ensures ok { OnOk result (to.new ≡ slice_index_or (any_pages self.old) r []) }
        ensures err { OnErr result (to.new ≡ to.old) }
        ensures pages { any_pages self.new ≡ any_pages self.old }
        ensures does { HasReadAny self.old self.new r result }
        ensures told { OnOk result (faults_of (disk_of self.new) ≡ faults_of (disk_of self.old)) }
        ensures once { OnErr result (IsOneMore (faults_of (disk_of self.old)) (faults_of (disk_of self.new))) }
        ensures rose { OnErr result (Rose (faults_of (disk_of self.old)) (faults_of (disk_of self.new))) }
        ensures grows { faults_of (disk_of self.old) ≤ faults_of (disk_of self.new) }
        ensures plan { (disk_of self.new).fails ≡ (disk_of self.old).fails }
        ensures places { any_places self.new ≡ any_places self.old }
        ensures few { HasFewFaults (Some (disk_of self.new).fails) (faults_of (disk_of self.new)) }
    {
        match self {
            AnyDrive::Plain(drive) => drive.read_page(r, to),
            AnyDrive::Bulk(bulk) => bulk.read_page(r, to),
        }
    }

    fn write_page(&mut self, r: u32, from: &Page) -> Result<(), Failed>
        requires { r < length (any_pages self.old) }
        ensures ok { OnOk result (any_pages self.new ≡ slice_set (any_pages self.old) r from.now) }
        ensures err { OnErr result (any_pages self.new ≡ any_pages self.old) }
        ensures full { HaveFullPages (any_pages self.new) }
        ensures does { HasWrittenAny self.old self.new r from.now result }
        ensures told { OnOk result (faults_of (disk_of self.new) ≡ faults_of (disk_of self.old)) }
        ensures once { OnErr result (IsOneMore (faults_of (disk_of self.old)) (faults_of (disk_of self.new))) }
        ensures rose { OnErr result (Rose (faults_of (disk_of self.old)) (faults_of (disk_of self.new))) }
        ensures grows { faults_of (disk_of self.old) ≤ faults_of (disk_of self.new) }
        ensures plan { (disk_of self.new).fails ≡ (disk_of self.old).fails }
        ensures places { any_places self.new ≡ any_places self.old }
        ensures few { HasFewFaults (Some (disk_of self.new).fails) (faults_of (disk_of self.new)) }
    {
        match self {
            AnyDrive::Plain(drive) => drive.write_page(r, from),
            AnyDrive::Bulk(bulk) => bulk.write_page(r, from),
        }
    }
}
