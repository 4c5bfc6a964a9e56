ghost use Rattle.std.specs.Prelude.{◌≡◌, ◌<◌, None, IfSome, IfNone, length, OnOk, OnErr};
ghost use Rattle.site_io.specs.Faults.{Rose};
ghost use Rattle.volumes.specs.FailLine.{IsOneMore};
ghost use Rattle.bulk_store.specs.Held.{place_of};
ghost use Rattle.bulk_store.specs.Pages.{page_of};
ghost use Rattle.bulk_store.specs.Contents.{contents, IsStore, GoesOn};
ghost use Rattle.bulk_store.specs.Contents.{gave_up_oldest, took_in, wrote, wrote_new, CountsBoth, HasWritten};

use crate::index::Index;
use mword::Page;
use site_io::Failed;
use volumes::Drive;

/// What a bulk store consists of: its two drives, the list of what is held, and a page that carries the oldest from the
/// fast store to the disk. (Source: own.)
#[derive(Drop)]
pub(crate) struct Parts<F: Drive, D: Drive> {
    pub(crate) fast: F,
    pub(crate) disk: D,
    pub(crate) table: Index,
    pub(crate) buffer: Page,
}

impl<F: Drive, D: Drive> Parts<F, D> {
    /// Takes the oldest page out, once the disk has it. After `Failed` the list and all pages are as before.
    fn give_up_oldest(&mut self) -> Result<(), Failed>
        requires store { IsStore (contents F.pages D.pages self.old) }
        requires full { length self.old.table.held ≡ self.old.table.room }
        ensures ok { OnOk result (contents F.pages D.pages self.new
            ≡ gave_up_oldest (contents F.pages D.pages self.old)) }
        ensures err { OnErr result (contents F.pages D.pages self.new ≡ contents F.pages D.pages self.old) }
        ensures counts { CountsBoth (F.faults self.old.fast) (F.faults self.new.fast) (D.faults self.old.disk)
            (D.faults self.new.disk) result }
        ensures fast { GoesOn F.pages F.plan F.faults self.old.fast self.new.fast }
        ensures disk { GoesOn D.pages D.plan D.faults self.old.disk self.new.disk }
    {
        let oldest = self.table.oldest();
        self.fast.read_page(oldest.place, &mut self.buffer)?;
        self.disk.write_page(oldest.number, &self.buffer)?;
        self.table.give_up_oldest();
        Ok(())
    }

    /// Puts the page of record `r`, which isn't held, into the least free place. After `Failed` nothing has changed.
    fn take_in(&mut self, r: u32, from: &Page) -> Result<(), Failed>
        requires store { IsStore (contents F.pages D.pages self.old) }
        requires room { length self.old.table.held < self.old.table.room }
        requires within { r < length (D.pages self.old.disk) }
        ensures ok { OnOk result (contents F.pages D.pages self.new
            ≡ took_in (contents F.pages D.pages self.old) r from.now) }
        ensures err { OnErr result (contents F.pages D.pages self.new ≡ contents F.pages D.pages self.old) }
        ensures rose { OnErr result (Rose (F.faults self.old.fast) (F.faults self.new.fast)) }
        ensures told { OnOk result (F.faults self.new.fast ≡ F.faults self.old.fast) }
        ensures once { OnErr result (IsOneMore (F.faults self.old.fast) (F.faults self.new.fast)) }
        ensures fast { GoesOn F.pages F.plan F.faults self.old.fast self.new.fast }
        ensures disk { self.new.disk ≡ self.old.disk }
    {
        self.fast.write_page(self.table.free_place(), from)?;
        self.table.add(r);
        Ok(())
    }

    /// Makes the page of record `r`, which isn't held, the page `from`; where no place is free, the oldest gives way.
    fn write_new(&mut self, r: u32, from: &Page) -> Result<(), Failed>
        requires store { IsStore (contents F.pages D.pages self.old) }
        requires out { place_of self.old.table.held r ≡ None }
        requires within { r < length (D.pages self.old.disk) }
        ensures ok { OnOk result (contents F.pages D.pages self.new
            ≡ wrote_new (contents F.pages D.pages self.old) r from.now) }
        ensures written { HasWritten F.pages F.plan F.faults D.pages D.plan D.faults self.old self.new r result }
    {
        if self.table.has_free_place() {
            return self.take_in(r, from);
        }
        self.give_up_oldest()?;
        self.take_in(r, from)
    }

    /// Makes the page of record `r` the page `from`.
    pub(crate) fn write(&mut self, r: u32, from: &Page) -> Result<(), Failed>
        requires store { IsStore (contents F.pages D.pages self.old) }
        requires within { r < length (D.pages self.old.disk) }
        ensures ok { OnOk result (contents F.pages D.pages self.new
            ≡ wrote (contents F.pages D.pages self.old) r from.now) }
        ensures written { HasWritten F.pages F.plan F.faults D.pages D.plan D.faults self.old self.new r result }
    {
        match self.table.place(r) {
            Some(place) => self.fast.write_page(place, from),
            None => self.write_new(r, from),
        }
    }

    /// Reads the page of record `r` into `to`, from where it is.
    pub(crate) fn read(&mut self, r: u32, to: &mut Page) -> Result<(), Failed>
        requires store { IsStore (contents F.pages D.pages self.old) }
        requires within { r < length (D.pages self.old.disk) }
        ensures ok { OnOk result (to.new
            ≡ page_of (F.pages self.old.fast) (D.pages self.old.disk) self.old.table.held r) }
        ensures err { OnErr result (to.new ≡ to.old) }
        ensures same { contents F.pages D.pages self.new ≡ contents F.pages D.pages self.old }
        ensures fast { GoesOn F.pages F.plan F.faults self.old.fast self.new.fast }
        ensures disk { GoesOn D.pages D.plan D.faults self.old.disk self.new.disk }
        ensures counts { CountsBoth (F.faults self.old.fast) (F.faults self.new.fast) (D.faults self.old.disk)
            (D.faults self.new.disk) result }
        ensures held { IfSome (place_of self.old.table.held r) (λ _. self.new.disk ≡ self.old.disk) }
        ensures held_rose { OnErr result (IfSome (place_of self.old.table.held r)
            (λ _. Rose (F.faults self.old.fast) (F.faults self.new.fast))) }
        ensures other { IfNone (place_of self.old.table.held r) (self.new.fast ≡ self.old.fast) }
        ensures other_rose { OnErr result (IfNone (place_of self.old.table.held r)
            (Rose (D.faults self.old.disk) (D.faults self.new.disk))) }
    {
        match self.table.place(r) {
            Some(place) => self.fast.read_page(place, to),
            None => self.disk.read_page(r, to),
        }
    }
}
