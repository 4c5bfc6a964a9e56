ghost use Rattle.std.specs.Prelude.{◌≡◌, ◌<◌, ◌⊎◌, [], IfOk, IfSome, IfNone, length, slice_index_or, slice_set, OnOk};
ghost use Rattle.std.specs.Prelude.{OnErr, IsTrue};
ghost use Rattle.site_io.specs.Faults.{Rose};
ghost use Rattle.volumes.specs.FailLine.{HasFewFaults};
ghost use Rattle.volumes.specs.FullPages.{HaveFullPages};
ghost use Rattle.bulk_store.specs.Held.{place_of, is_fast_write, BulkAfter};
ghost use Rattle.bulk_store.specs.Contents.{CountsBoth, GoesOn};
ghost use Rattle.bulk_store.specs.Store.{store_pages, store_faults, store_plan, disk_after, FailedWrite};

use crate::NoMemory;
use crate::index::Index;
use crate::parts::Parts;
use mword::Page;
use site_io::Failed;
use std::alloc::Global;
use std::marker::Model;
use volumes::Drive;

/// A fast store that stands before a disk. Pages written go to the fast store; when it is full, its oldest page goes to
/// the disk. It is seen as the two drives and the records that the fast store holds, the oldest first. (Source: own.)
#[derive(Drop)]
pub struct BulkStore<F: Drive, D: Drive> {
    parts: Parts<F, D>,
}

impl<F: Drive, D: Drive> Model for BulkStore<F, D> {
    ghost use Rattle.volumes.specs.FailLine.{HasFewFaults};
    ghost use Rattle.volumes.specs.FullPages.{HaveFullPages};
    ghost use Rattle.bulk_store.specs.Store.{Store};
    ghost use Rattle.bulk_store.specs.Contents.{contents, IsStore};

    ghost Value = { Store F D };

    ghost view = { λ s. record { fast = s.parts.fast; disk = s.parts.disk; held = s.parts.table.held } };

    ghost invariant = { λ s. IsStore (contents F.pages D.pages s.parts)
        × HasFewFaults (F.plan s.parts.fast) (F.faults s.parts.fast)
        × HasFewFaults (D.plan s.parts.disk) (D.faults s.parts.disk)
        × HaveFullPages (F.pages s.parts.fast) × HaveFullPages (D.pages s.parts.disk) };
}

impl<F: Drive, D: Drive> BulkStore<F, D> {
    /// A store that holds nothing, over a fast store of at least one page and a disk.
    ///
    /// `NoMemory` is want of memory. It takes 8 KiB for a page, and 8 bytes for each place and disk page.
    /// (Source: own.)
    pub fn new(alloc: Global, fast: F, disk: D) -> Result<BulkStore<F, D>, NoMemory>
        requires { 0 < length (F.pages fast) }
        ensures made { IfOk result (λ s. s ≡ record { fast = fast; disk = disk; held = [] }) }
        ensures pages { IfOk result (λ s. store_pages F.pages D.pages s ≡ D.pages disk) }
    {
        let table = Index::new(alloc, fast.size(), disk.size())?;
        let buffer = Page::zero(alloc)?;
        Ok(BulkStore {
            parts: Parts {
                fast,
                disk,
                table,
                buffer,
            },
        })
    }

    /// The fast store's page that has record `r`. None exactly where the fast store doesn't hold it. It reads an index.
    /// (Source: own.)
    pub fn held(&self, r: u32) -> Option<u32>
        ensures { result ≡ place_of self.now.held r }
    {
        self.parts.table.place(r)
    }

    /// The fast store, as a drive of its own. (Source: own.)
    pub fn fast(&self) -> &F
        ensures { result.now ≡ self.now.fast }
    {
        &self.parts.fast
    }

    /// The disk after the fast store. (Source: own.)
    pub fn disk(&self) -> &D
        ensures { result.now ≡ self.now.disk }
    {
        &self.parts.disk
    }
}

impl<F: Drive, D: Drive> Drive for BulkStore<F, D> {
    ghost use Rattle.std.specs.Prelude.{length};
    ghost use Rattle.bulk_store.specs.Store.{store_pages, store_faults, store_plan};

    ghost pages = { λ s. store_pages F.pages D.pages s };

    ghost faults = { λ s. store_faults F.faults D.faults s };

    ghost plan = { λ s. store_plan F.plan D.plan s };

    ghost places = { λ s. length (F.pages s.fast) };

    fn size(&self) -> u32
        ensures size { result ≡ length (store_pages F.pages D.pages self.now) }
        ensures disk { result ≡ length (D.pages self.now.disk) }
        ensures few { HasFewFaults (store_plan F.plan D.plan self.now) (store_faults F.faults D.faults self.now) }
        ensures full { HaveFullPages (store_pages F.pages D.pages self.now) }
    {
        self.parts.disk.size()
    }

    fn read_page(&mut self, r: u32, to: &mut Page) -> Result<(), Failed>
        requires { r < length (store_pages F.pages D.pages self.old) }
        ensures ok { OnOk result (to.new ≡ slice_index_or (store_pages F.pages D.pages self.old) r []) }
        ensures err { OnErr result (to.new ≡ to.old) }
        ensures pages { store_pages F.pages D.pages self.new ≡ store_pages F.pages D.pages self.old }

        // Why it may fail: by the drive that has the page. The other isn't called.
        ensures held { IfSome (place_of self.old.held r) (λ _. self.new.disk ≡ self.old.disk) }
        ensures held_rose { OnErr result (IfSome (place_of self.old.held r)
            (λ _. Rose (F.faults self.old.fast) (F.faults self.new.fast))) }
        ensures other { IfNone (place_of self.old.held r) (self.new.fast ≡ self.old.fast) }
        ensures other_rose { OnErr result (IfNone (place_of self.old.held r)
            (Rose (D.faults self.old.disk) (D.faults self.new.disk))) }
        ensures counts { CountsBoth (F.faults self.old.fast) (F.faults self.new.fast) (D.faults self.old.disk)
            (D.faults self.new.disk) result }

        // What becomes of the rest.
        ensures list { self.new.held ≡ self.old.held }
        ensures fast_pages { F.pages self.new.fast ≡ F.pages self.old.fast }
        ensures disk_pages { D.pages self.new.disk ≡ D.pages self.old.disk }
        ensures fast { GoesOn F.pages F.plan F.faults self.old.fast self.new.fast }
        ensures disk { GoesOn D.pages D.plan D.faults self.old.disk self.new.disk }
        ensures few { HasFewFaults (store_plan F.plan D.plan self.new) (store_faults F.faults D.faults self.new) }
    {
        self.parts.read(r, to)
    }

    fn write_page(&mut self, r: u32, from: &Page) -> Result<(), Failed>
        requires { r < length (store_pages F.pages D.pages self.old) }
        ensures ok { OnOk result (store_pages F.pages D.pages self.new
            ≡ slice_set (store_pages F.pages D.pages self.old) r from.now) }
        ensures err { OnErr result (store_pages F.pages D.pages self.new ≡ store_pages F.pages D.pages self.old) }
        ensures full { HaveFullPages (store_pages F.pages D.pages self.new) }

        // What is held, and what the disk has.
        ensures list { OnOk result (BulkAfter (length (F.pages self.old.fast)) self.old.held r self.new.held) }
        ensures disk_pages { OnOk result (D.pages self.new.disk
            ≡ disk_after (F.pages self.old.fast) (D.pages self.old.disk) self.old.held r) }
        ensures failed { OnErr result (FailedWrite (F.pages self.old.fast) (D.pages self.old.disk) self.old.held r
            (D.pages self.new.disk) self.new.held) }

        // Why it may fail: by the fast store alone where the record is held or a place is free.
        ensures alone { IsTrue (is_fast_write (length (F.pages self.old.fast)) self.old.held r)
            → self.new.disk ≡ self.old.disk }
        ensures cause { IsTrue (is_fast_write (length (F.pages self.old.fast)) self.old.held r)
            → OnErr result (Rose (F.faults self.old.fast) (F.faults self.new.fast)) }
        ensures either { OnErr result (Rose (F.faults self.old.fast) (F.faults self.new.fast)
            ⊎ Rose (D.faults self.old.disk) (D.faults self.new.disk)) }
        ensures counts { CountsBoth (F.faults self.old.fast) (F.faults self.new.fast) (D.faults self.old.disk)
            (D.faults self.new.disk) result }

        // What becomes of the rest.
        ensures places { length (F.pages self.new.fast) ≡ length (F.pages self.old.fast) }
        ensures fast { GoesOn F.pages F.plan F.faults self.old.fast self.new.fast }
        ensures disk { GoesOn D.pages D.plan D.faults self.old.disk self.new.disk }
        ensures few { HasFewFaults (store_plan F.plan D.plan self.new) (store_faults F.faults D.faults self.new) }
    {
        self.parts.write(r, from)
    }
}
