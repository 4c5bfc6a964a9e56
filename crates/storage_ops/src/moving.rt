//! Where a segment may move to whose volume has no free record, and the steps of its move.

ghost use Rattle.std.specs.Prelude.{◌≡◌, ◌<◌, ◌-◌, ◌&&◌, IfOk, IfSome, count_by, is_some, length, map};
ghost use Rattle.std.specs.Prelude.{nat_lt, if◌then◌else◌, true, None, Some};
ghost use Rattle.accounts.specs.Maps.{count_of, rehomed};
ghost use Rattle.active_segs.specs.Active.{IsActive};
ghost use Rattle.page_control.specs.Picture.{words_at};
ghost use Rattle.page_control.specs.Plain.{plain};
ghost use Rattle.seg_mover.specs.Copies.{CallsDrives, after_copy, moved_on};
ghost use Rattle.seg_mover.specs.Moves.{begun, mover_for};
ghost use Rattle.seg_control.specs.Control.{table_of};
ghost use Rattle.seg_control.specs.Moving.{IsUnderWay, IsUnread, move_committed, next_out, pair_of};
ghost use Rattle.tree_model.specs.Tree.{volume_in};
ghost use Rattle.tree_model.specs.Trees.{has_segment};
ghost use Rattle.script.specs.Plans.{Plan};
ghost use Rattle.flat_model.specs.Moves.{moved};
ghost use Rattle.flat_model.specs.References.{is_volume_full};
ghost use Rattle.flat_model.specs.Rooms.{room_for};
ghost use Rattle.flat_model.specs.Store.{Store as Flat};
ghost use Rattle.volumes.specs.Volumes.{KeepsTables, records_at, used_at, vtoc_at};
ghost use Rattle.storage_ops.specs.Rooms.{first_roomy, is_roomy, move_target, room_of};
ghost use Rattle.storage_ops.specs.Shown.{Shows, home_of};

use crate::store::{Store, look, volumes_at_rest};
use seg_control::Segs;
use seg_mover::Mover;
use site_io::Failed;
use tree_commands::volume_of;
use volumes::{Drive, Volumes};

/// Whether a volume has more free records than so many pages, and a free VTOC entry.
#[tactic(auto, using(crate::proofs::RoomsFound::few_used))]
fn has_space<D: Drive>(volumes: &Volumes<D>, volume: u32, pages: u32) -> bool
    requires { volume < length volumes.now.drives }
    ensures { result ≡ (nat_lt pages (length (records_at volumes.now volume) - used_at volumes.now volume)
        && nat_lt (count_by is_some (vtoc_at volumes.now volume)) (length (vtoc_at volumes.now volume))) }
{
    let free = volumes.size(volume) - volumes.taken(volume);
    let vtoc = volumes.vtoc(volume);
    pages < free && vtoc.used() < vtoc.size()
}

/// The first volume but one with space for so many pages and one more.
fn first_roomy<D: Drive>(volumes: &Volumes<D>, own: u32, pages: u32) -> Option<u32>
    ensures { result ≡ first_roomy volumes.now own pages }
{
    for volume in 0..volumes.count() {
        if volume != own && has_space(volumes, volume, pages) {
            return Some(volume);
        }
    }
    None
}

/// What is true of a move under way is told here.
fn look_at_move<D: Drive>(segs: &Segs<D>)
    ensures { IfSome segs.now.moving (IsUnderWay segs.now) }
{
    let _pages = segs.pages();
}

impl<D: Drive> Store<D> {
    /// The first volume, in their order, that has room for a segment of another volume: more free records than the
    /// segment has stored pages, and a free VTOC entry. `None` exactly where none has. It looks at each volume once.
    /// (Source: own.)
    pub fn room_for(&self, uid: u32) -> Option<u32>
        requires still { self.now.segs.moving ≡ None }
        requires segment { has_segment self.now.accounts.nodes uid ≡ true }
        ensures tables { result ≡ room_of self.now uid }
        ensures shown { (p : Plan) (s : Flat) → Shows D.pages p s self.now → result ≡ room_for p s uid }
    {
        look(&self.segs);
        let accounts = self.accounts();
        let own = volume_of(accounts, uid);
        let pages = accounts.stored(uid);
        first_roomy(volumes_at_rest(&self.segs), own, pages)
    }

    /// The volume that a segment must move to before a page more of it can be stored: where all records of its own
    /// volume are in use, the first one that has room for it. `None` exactly where a record of its own is free, or no
    /// other has room. (Source: own.)
    pub fn move_target(&self, uid: u32) -> Option<u32>
        requires still { self.now.segs.moving ≡ None }
        requires segment { has_segment self.now.accounts.nodes uid ≡ true }
        ensures tables { result ≡ move_target self.now uid }
        ensures shown { (p : Plan) (s : Flat) → Shows D.pages p s self.now
            → result ≡ (if is_volume_full p s (volume_in s.nodes uid) then room_for p s uid else None) }
    {
        let _accounts = self.accounts();
        let home = self.home(uid);
        if self.is_full(home.volume) {
            self.room_for(uid)
        } else {
            None
        }
    }
}

impl<D: Drive> Store<D> {
    /// Begins to move an active segment from its home to volume `to`, which has room for it: more free records than the
    /// segment has stored pages, and a free VTOC entry. It takes them there, the least ones, and calls no drive. No
    /// page of the segment is being read into a frame. What is shown stays. (Source: own.)
    pub fn move_begin(&mut self, uid: u32, from: (u32, u32), to: u32) -> Mover
        requires still { self.old.segs.moving ≡ None }
        requires active { IsActive self.old.segs.ast.entries uid }
        requires home { from ≡ pair_of (home_of self.old.accounts uid) }
        requires volume { to < length self.old.segs.pages.volumes.drives }
        requires room { is_roomy self.old.segs.pages.volumes from.0 (count_of self.old.accounts uid) to ≡ true }
        requires unread { IsUnread self.old.segs.pages.core uid }
        ensures mover { result ≡ mover_for self.old.segs.pages.volumes uid from to }
        ensures effect { self.new ≡ record self.old { segs = record self.old.segs { moving = Some result } } }
        ensures shown { (p : Plan) (s : Flat) → Shows D.pages p s self.old → Shows D.pages p s self.new }
    {
        look(&self.segs);
        self.segs.move_begin(uid, from, to)
    }

    /// Copies the next page of the segment that moves: the least one from `next` on that is on its record alone, for a
    /// page in a frame needs no copy. True is answered, and `next` is past it. False exactly where there is no such
    /// page; nothing has changed then, and no drive was called. What is shown stays. It costs a read of the one drive
    /// and a write of the other. (Source: own.)
    ///
    /// # Errors
    /// `Failed` is the failure of one of the two drives, which that drive alone has counted; no page of a drive and not
    /// `next` has changed then.
    pub fn move_next(&mut self, m: &mut Mover) -> Result<bool, Failed>
        requires moving { self.old.segs.moving ≡ Some m.old }
        ensures answer { IfOk result
            (λ some. some ≡ is_some (next_out (table_of self.old.segs.ast m.old.uid) m.old.next)) }
        ensures mover { m.new ≡ moved_on m.old (next_out (table_of self.old.segs.ast m.old.uid) m.old.next) result }
        ensures disks { map D.pages self.new.segs.pages.volumes.drives ≡ after_copy
            (map D.pages self.old.segs.pages.volumes.drives)
            (begun self.old.segs.pages.volumes m.old.uid m.old.from m.old.to.0) m.old
            (next_out (table_of self.old.segs.ast m.old.uid) m.old.next) result }
        ensures rest { self.new ≡ record self.old {
          segs = record self.old.segs { pages = self.new.segs.pages; moving = Some m.new };
        } }
        ensures core { self.new.segs.pages.core ≡ self.old.segs.pages.core }
        ensures frames { self.new.segs.pages.frames ≡ self.old.segs.pages.frames }
        ensures tables { KeepsTables self.old.segs.pages.volumes self.new.segs.pages.volumes }
        ensures words { words_at (plain D.pages self.new.segs.pages) ≡ words_at (plain D.pages self.old.segs.pages) }
        ensures drives { CallsDrives D.plan D.places D.faults self.old.segs.pages.volumes.drives
            self.new.segs.pages.volumes.drives m.old.from.0 m.old.to.0 result }
        ensures shown { (p : Plan) (s : Flat) → Shows D.pages p s self.old → Shows D.pages p s self.new }
    {
        self.segs.move_next(m)
    }

    /// Ends the move of a segment of which no page is left to copy: its old home is given up, and its new one, which is
    /// answered, is its home in the tree. What is shown has moved with it. It reads the 256 places of a file map, and
    /// calls no drive. (Source: own.)
    pub fn move_commit(&mut self, m: Mover) -> (u32, u32)
        requires moving { self.old.segs.moving ≡ Some m }
        requires done { next_out (table_of self.old.segs.ast m.uid) m.next ≡ None }
        requires segment { has_segment self.old.accounts.nodes m.uid ≡ true }
        ensures home { result ≡ m.to }
        ensures effect { self.new ≡ record self.old {
          accounts = rehomed self.old.accounts m.uid m.to.0 m.to.1;
          segs = move_committed self.old.segs m;
        } }
        ensures shown { (p : Plan) (s : Flat) → Shows D.pages p s self.old
            → Shows D.pages p (moved s m.uid m.to.0) self.new }
    {
        self.accounts.promise();
        look_at_move(&self.segs);
        let home = self.segs.move_commit(m);
        self.accounts.set_home(m.uid, m.to.0, m.to.1);
        home
    }

    /// Gives the move of a segment up: what it has taken is given back. What is shown stays. It reads the 256 places of
    /// a file map, and calls no drive. (Source: own.)
    pub fn move_undo(&mut self, m: Mover)
        requires { self.old.segs.moving ≡ Some m }
        ensures effect { self.new ≡ record self.old { segs = record self.old.segs { moving = None } } }
        ensures shown { (p : Plan) (s : Flat) → Shows D.pages p s self.old → Shows D.pages p s self.new }
    {
        self.segs.move_undo(m);
    }
}
