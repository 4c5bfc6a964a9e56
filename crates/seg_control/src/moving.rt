//! A segment moves to another volume, a step at a time.

ghost use Rattle.std.specs.Prelude.{◌≡◌, ◌≢◌, ◌+◌, ◌≤◌, ℕ, false, None, Some, IfOk, Result, count_by, is_some, length};
ghost use Rattle.std.specs.Prelude.{map, slice_index_or};
ghost use Rattle.core_map.specs.CoreMap.{reads_of};
ghost use Rattle.page_table.specs.PageTable.{ptw_at};
ghost use Rattle.volumes.specs.Volumes.{KeepsTables};
ghost use Rattle.active_segs.specs.Active.{IsActive};
ghost use Rattle.page_control.specs.Counts.{named_on, taken, used};
ghost use Rattle.page_control.specs.declared.Home.{Home};
ghost use Rattle.page_control.specs.Picture.{is_stored, words_at};
ghost use Rattle.page_control.specs.Plain.{bindings, plain};
ghost use Rattle.page_control.specs.Tied.{map_at, uid_at as uid_homed};
ghost use Rattle.seg_mover.specs.Copies.{CallsDrives, after_copy, moved_on};
ghost use Rattle.seg_mover.specs.Moves.{CanBegin, begun, mover_for};
ghost use Rattle.seg_control.specs.Control.{table_of};
ghost use Rattle.seg_control.specs.Kept.{IsHomeOf};
ghost use Rattle.seg_control.specs.Moving.{IsUnread, home_at, is_framed, move_committed, next_out};

use crate::segs::{Segs, place_in};
use page_control::Home;
use page_table::{PageTable, Ptw};
use seg_mover::Mover;
use site_io::Failed;
use volumes::Drive;

impl<D: Drive> Segs<D> {
    /// Begins to move an active segment from its home to volume `to`, which has a free VTOC entry and as many free
    /// records as the segment has stored pages. It takes them there, the least ones, and calls no drive. No page of the
    /// segment is being read into a frame. (Source: own.)
    pub fn move_begin(&mut self, uid: u32, from: (u32, u32), to: u32) -> Mover
        requires still { self.old.moving ≡ None }
        requires active { IsActive self.old.ast.entries uid }
        requires home { IsHomeOf self.old.pages.volumes.vtocs uid (home_at from) }
        requires can { CanBegin self.old.pages.volumes uid from to }
        requires unread { IsUnread self.old.pages.core uid }
        ensures mover { result ≡ mover_for self.old.pages.volumes uid from to }
        ensures effect { self.new ≡ record self.old { moving = Some result } }
    {
        let mover = Mover::begin(self.pages.volumes_mut(), uid, from, to);
        self.moving = Some(mover);
        mover
    }

    /// Copies the next page of the segment that moves: the least one from `next` on that is on its record alone, for a
    /// page in a frame needs no copy. True is answered, and `next` is past it. False exactly where there is no such
    /// page; nothing has changed then, and no drive was called. It looks at the words of the segment's page table, and
    /// costs a read of the one drive and a write of the other. (Source: own.)
    ///
    /// # Errors
    /// `Failed` is the failure of one of the two drives, which that drive alone has counted; no page of a drive and not
    /// `next` has changed then.
    pub fn move_next(&mut self, m: &mut Mover) -> Result<bool, Failed>
        requires moving { self.old.moving ≡ Some m.old }
        ensures answer { IfOk result (λ some. some ≡ is_some (next_out (table_of self.old.ast m.old.uid) m.old.next)) }
        ensures mover { m.new ≡ moved_on m.old (next_out (table_of self.old.ast m.old.uid) m.old.next) result }
        ensures disks { map D.pages self.new.pages.volumes.drives ≡ after_copy
            (map D.pages self.old.pages.volumes.drives)
            (begun self.old.pages.volumes m.old.uid m.old.from m.old.to.0) m.old
            (next_out (table_of self.old.ast m.old.uid) m.old.next) result }
        ensures rest { self.new ≡ record self.old { pages = self.new.pages; moving = Some m.new } }
        ensures core { self.new.pages.core ≡ self.old.pages.core }
        ensures frames { self.new.pages.frames ≡ self.old.pages.frames }
        ensures tables { KeepsTables self.old.pages.volumes self.new.pages.volumes }
        ensures words { words_at (plain D.pages self.new.pages) ≡ words_at (plain D.pages self.old.pages) }
        ensures drives { CallsDrives D.plan D.places D.faults self.old.pages.volumes.drives
            self.new.pages.volumes.drives m.old.from.0 m.old.to.0 result }
    {
        let place = place_in(&self.ast, m.uid);
        let framed = framed_pages(self.ast.table(place));
        let result = m.copy_next(self.pages.volumes_mut(), &framed, &mut self.spare);
        self.moving = Some(*m);
        result
    }

    /// Ends the move of a segment of which no page is left to copy: its old home is given up, its new one is answered,
    /// and its pages that are in frames are to be written there. It reads the 256 places of a file map, and calls no
    /// drive. (Source: own.)
    pub fn move_commit(&mut self, m: Mover) -> (u32, u32)
        requires moving { self.old.moving ≡ Some m }
        requires done { next_out (table_of self.old.ast m.uid) m.next ≡ None }
        ensures home { result ≡ m.to }
        ensures effect { self.new ≡ move_committed self.old m }

        // What becomes of homes, file maps and counts.
        ensures from { uid_homed self.new.pages.volumes.vtocs (home_at m.from) ≡ None }
        ensures to { uid_homed self.new.pages.volumes.vtocs (home_at m.to) ≡ Some m.uid }
        ensures free { uid_homed self.old.pages.volumes.vtocs (home_at m.to) ≡ None }
        ensures uids { (other : Home) → other ≢ home_at m.from → other ≢ home_at m.to
            → uid_homed self.new.pages.volumes.vtocs other ≡ uid_homed self.old.pages.volumes.vtocs other }
        ensures maps { (other : Home) → other ≢ home_at m.from → other ≢ home_at m.to
            → map_at self.new.pages.volumes.vtocs other ≡ map_at self.old.pages.volumes.vtocs other }
        ensures stored { (p : ℕ) → is_stored (plain D.pages self.new.pages) (home_at m.to) p
            ≡ is_stored (plain D.pages self.old.pages) (home_at m.from) p }
        ensures named { count_by is_some (map_at self.new.pages.volumes.vtocs (home_at m.to))
            ≡ count_by is_some (map_at self.old.pages.volumes.vtocs (home_at m.from)) }
        ensures taken { (v : ℕ) → taken self.new.pages.volumes.records v
            + named_on self.old.pages.volumes.vtocs (home_at m.from) v
            ≡ taken self.old.pages.volumes.records v + named_on self.new.pages.volumes.vtocs (home_at m.to) v }
        ensures left { used self.new.pages.volumes.vtocs m.from.0 + 1 ≡ used self.old.pages.volumes.vtocs m.from.0 }
        ensures gained { used self.new.pages.volumes.vtocs m.to.0 ≡ used self.old.pages.volumes.vtocs m.to.0 + 1 }
        ensures entries { (v : ℕ) → v ≢ m.from.0 → v ≢ m.to.0
            → used self.new.pages.volumes.vtocs v ≡ used self.old.pages.volumes.vtocs v }

        // What becomes of the picture.
        ensures moved { (p : ℕ) → words_at (plain D.pages self.new.pages) m.uid (home_at m.to) p
            ≡ words_at (plain D.pages self.old.pages) m.uid (home_at m.from) p }
        ensures words { (u : ℕ) (other : Home) (p : ℕ) → other ≢ home_at m.from → other ≢ home_at m.to
            → words_at (plain D.pages self.new.pages) u other p ≡ words_at (plain D.pages self.old.pages) u other p }
        ensures bindings { bindings self.new.pages.core ≡ bindings self.old.pages.core }
        ensures reads { reads_of self.new.pages.core ≡ reads_of self.old.pages.core }
        ensures drives { self.new.pages.volumes.drives ≡ self.old.pages.volumes.drives }
    {
        let place = place_in(&self.ast, m.uid);
        let (volume, entry) = m.to;
        self.pages
            .rehome(self.ast.table_mut(place), m.uid, Home { volume, entry });
        self.moving = None;
        m.commit(self.pages.volumes_mut())
    }

    /// Gives the move of a segment up: what it has taken is given back. It reads the 256 places of a file map, and
    /// calls no drive. (Source: own.)
    pub fn move_undo(&mut self, m: Mover)
        requires { self.old.moving ≡ Some m }
        ensures { self.new ≡ record self.old { moving = None } }
    {
        m.undo(self.pages.volumes_mut());
        self.moving = None;
    }
}

/// Which of the 256 pages that a segment may have are in frames, by its page table.
fn framed_pages(table: &PageTable) -> [bool; 256]
    requires { length table.now ≤ 256 }
    ensures size { length result ≡ 256 }
    ensures framed { (p : ℕ) → slice_index_or result p false ≡ is_framed (ptw_at table.now p) }
{
    let mut framed = [false; 256];
    for p in 0..table.size() {
        framed[p as usize] = is_framed(table.get(p));
    }
    framed
}

/// Whether a word names a frame.
fn is_framed(word: Ptw) -> bool
    ensures { result ≡ is_framed word }
{
    match word {
        Ptw::Here(_) | Ptw::Leaving(_) => true,
        Ptw::Null | Ptw::Out(_) => false,
    }
}
