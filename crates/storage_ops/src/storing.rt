//! A page is stored, or is stored no more, and its account is charged or credited.

ghost use Rattle.std.specs.Prelude.{◌≡◌, ◌≢◌, ◌<◌, ◌≤◌, ◌/◌, ◌%◌, ◌↔◌, ℕ, if◌then◌else◌, IsOk, Ok, IfOk};
ghost use Rattle.std.specs.Prelude.{OnOk, OnErr};
ghost use Rattle.std.specs.Prelude.{None, Some, true, length, slice_set};
ghost use Rattle.known_segs.specs.Known.{uid_of};
ghost use Rattle.core_map.specs.declared.Frame.TheVariants.{Free};
ghost use Rattle.tree_model.specs.Tree.{Node, node_in};
ghost use Rattle.flat_model.specs.References.{after_reference, is_used_up, room_reply};
ghost use Rattle.core_map.specs.CoreMap.{frame_at, is_bound, reads_of};
ghost use Rattle.page_table.specs.declared.Ptw.TheVariants.{Leaving, Null};
ghost use Rattle.active_segs.specs.Active.{IsActive};
ghost use Rattle.mword.specs.Words.{AreZero};
ghost use Rattle.accounts.specs.Maps.{count_of};
ghost use Rattle.tree_model.specs.Trees.{has_segment};
ghost use Rattle.page_control.specs.Counts.{KeepsCounts, is_full, taken, taken_after};
ghost use Rattle.page_control.specs.Plain.{bindings, number_in, plain, record_of, words_in};
ghost use Rattle.page_control.specs.Effects.{NeedsNoWrite, after_evict};
ghost use Rattle.page_control.specs.Picture.{ChangesStored, KeepsWords, is_kept};
ghost use Rattle.page_control.specs.Drives.{CallsDrive};
ghost use Rattle.page_control.specs.Tied.{uid_in};
ghost use Rattle.seg_control.specs.Control.{kst_at, table_of, word_of};
ghost use Rattle.seg_control.specs.Effects.{table_left};
ghost use Rattle.seg_control.specs.Kept.{IsHomeFor};
ghost use Rattle.script.specs.Plans.{Plan};
ghost use Rattle.flat_model.specs.Legal.{MayRelease};
ghost use Rattle.flat_model.specs.Store.{Store as Flat};
ghost use Rattle.storage_ops.specs.Paged.{IsKnownAs, IsPageMade, IsSettled, MayCreate, done_or, page_left, page_made};
ghost use Rattle.storage_ops.specs.Rooms.{move_target};
ghost use Rattle.storage_ops.specs.Shown.{Shows, ShowsTree, pages_in};

use crate::store::{Store, look, volumes_at_rest};
use accounts::Accounts;
use book::Reply;
use mword::Word;
use page_control::{Home, Left};
use script::RefKind;
use site_io::Failed;
use volumes::Drive;

/// Credits the account of a segment for a page of it that has left its frame and is stored no more.
fn settle(accounts: &mut Accounts, uid: u32, left: &Result<Left, Failed>)
    requires segment { has_segment accounts.old.nodes uid ≡ true }
    requires stored { 1 ≤ count_of accounts.old uid }
    ensures { IsSettled accounts.old accounts.new uid left.now }
{
    if let Ok(Left::Released) = left {
        accounts.credit(uid, 1);
    }
}

impl<D: Drive> Store<D> {
    /// Empties frame `f`, whose page is on its way out. A page that is all zeros gives its record back, with no call of
    /// a drive, and is credited to the account of its segment, once: it is stored no more. One whose modified mark is
    /// on is written to its record. The words of what is shown stay. (Source: Organick 1972.)
    ///
    /// # Errors
    /// `Failed` only where the faults of its drive rose; the page is still leaving then, and what is shown stays.
    pub fn evict(&mut self, uid: u32, home: Home, f: u32) -> Result<Left, Failed>
        requires still { self.old.segs.moving ≡ None }
        requires active { IsActive self.old.segs.ast.entries uid }
        requires bound { is_bound (frame_at self.old.segs.pages.core f) ≡ true }
        requires own { uid_in (frame_at self.old.segs.pages.core f) ≡ uid }
        requires leaving { word_of self.old.segs.ast uid (number_in (frame_at self.old.segs.pages.core f))
            ≡ Leaving f }
        requires home { IsHomeFor (plain D.pages self.old.segs.pages) uid home (table_of self.old.segs.ast uid) }
        ensures zeros { result ≡ Ok Left.Released ↔ AreZero (words_in (plain D.pages self.old.segs.pages) f) }
        ensures effect { plain D.pages self.new.segs.pages ≡ after_evict (plain D.pages self.old.segs.pages) home
            (number_in (frame_at self.old.segs.pages.core f)) f result }
        ensures word { self.new.segs.ast ≡ table_left self.old.segs.ast uid
            (number_in (frame_at self.old.segs.pages.core f)) (record_of (plain D.pages self.old.segs.pages) home
            (number_in (frame_at self.old.segs.pages.core f))) result }
        ensures words { KeepsWords (plain D.pages self.old.segs.pages) (plain D.pages self.new.segs.pages) uid home }
        ensures stored { IfOk result (λ left. ChangesStored (plain D.pages self.old.segs.pages)
            (plain D.pages self.new.segs.pages) home (number_in (frame_at self.old.segs.pages.core f))
            (is_kept left)) }
        ensures taken { IfOk result (λ left. taken self.new.segs.pages.volumes.records
            ≡ taken_after (taken self.old.segs.pages.volumes.records) home.volume left) }
        ensures freed { OnOk result (bindings self.new.segs.pages.core
            ≡ slice_set (bindings self.old.segs.pages.core) f None) }
        ensures reads { reads_of self.new.segs.pages.core ≡ reads_of self.old.segs.pages.core }
        ensures counts { KeepsCounts (plain D.pages self.old.segs.pages) (plain D.pages self.new.segs.pages) }
        ensures no_call { NeedsNoWrite (plain D.pages self.old.segs.pages) f → IsOk result
            × (self.new.segs.pages.volumes.drives ≡ self.old.segs.pages.volumes.drives) }
        ensures drives { CallsDrive D.plan D.places D.faults self.old.segs.pages.volumes.drives
            self.new.segs.pages.volumes.drives home.volume result }
        ensures settled { IsSettled self.old.accounts self.new.accounts uid result }
        ensures rest { self.new ≡ record self.old {
          accounts = self.new.accounts;
          segs = record self.old.segs {
            pages = self.new.segs.pages;
            ast = self.new.segs.ast;
          };
        } }
        ensures may { (p : Plan) (s : Flat) → Shows D.pages p s self.old → result ≡ Ok Left.Released
            → MayRelease s uid (number_in (frame_at self.old.segs.pages.core f)) }
        ensures shown { (p : Plan) (s : Flat) → Shows D.pages p s self.old
            → Shows D.pages p (page_left s uid (number_in (frame_at self.old.segs.pages.core f)) result) self.new }
    {
        look(&self.segs);
        let left = self.segs.evict(uid, home, f);
        settle(&mut self.accounts, uid, &left);
        left
    }

    /// Makes a page for the word at an offset of a segment that a process knows by a number: the page gets the least
    /// free record of its volume and the free frame `f`, all zeros but that word, which becomes `w`, and the account of
    /// the segment is charged for it. `w` isn't 0, and the page isn't stored. (Source: Organick 1972.)
    ///
    /// # Errors
    /// `Quota` exactly where the account has used all of its quota, else `NoRecord` exactly where all records of the
    /// volume are in use; no other volume has room for the segment then. Nothing has changed then.
    pub fn create(
        &mut self,
        process: u32,
        number: u32,
        offset: u32,
        w: Word,
        f: u32,
    ) -> Result<(), Reply>
        requires still { self.old.segs.moving ≡ None }
        requires process { process < length self.old.segs.links.known }
        requires may { MayCreate self.old process number offset f }
        requires room { (uid : ℕ) → uid_of (kst_at self.old.segs.links.known process) number ≡ Some uid
            → move_target self.old uid ≡ None }
        requires word { w ≢ 0 }
        ensures answer { (p : Plan) (s : Flat) (n : Node) → Shows D.pages p s self.old
            → IsKnownAs s process number n → result ≡ done_or (room_reply p s n Reply.Done) }
        ensures made { OnOk result ((uid : ℕ)
            → uid_of (kst_at self.old.segs.links.known process) number ≡ Some uid
            → IsPageMade D.pages self.old self.new uid (offset / 1024) f (offset % 1024) w) }
        ensures shown { OnOk result ((p : Plan) (s : Flat) → Shows D.pages p s self.old
            → Shows D.pages p (after_reference s process
            (record { number = number; offset = offset; kind = RefKind.Write w })) self.new) }
        ensures err { OnErr result (self.new ≡ self.old) }
    {
        match self.segs.kst(process).uid_of(number) {
            Some(uid) => self.store_page(uid, offset / 1024, offset % 1024, w, f),
            None => unreachable!(),
        }
    }

    /// Makes a page of an active segment with one word in it.
    fn store_page(&mut self, uid: u32, page: u32, at: u32, w: Word, f: u32) -> Result<(), Reply>
        requires still { self.old.segs.moving ≡ None }
        requires active { IsActive self.old.segs.ast.entries uid }
        requires page { page < pages_in self.old.accounts.nodes uid }
        requires null { word_of self.old.segs.ast uid page ≡ Null }
        requires frame { f < length self.old.segs.pages.core.frames }
        requires free { frame_at self.old.segs.pages.core f ≡ Free }
        requires at { at < 1024 }
        requires room { move_target self.old uid ≡ None }
        ensures answer { (p : Plan) (s : Flat) (n : Node) → Shows D.pages p s self.old
            → node_in s.nodes uid ≡ Some n → result ≡ done_or (room_reply p s n Reply.Done) }
        ensures made { OnOk result (IsPageMade D.pages self.old self.new uid page f at w) }
        ensures shown { OnOk result ((p : Plan) (s : Flat) → Shows D.pages p s self.old
            → Shows D.pages p (page_made s uid page at w) self.new) }
        ensures err { OnErr result (self.new ≡ self.old) }
    {
        look(&self.segs);
        let home = self.home(uid);
        if self.is_full(home.volume) {
            return Err(full_reply(&self.accounts, uid));
        }
        if self.accounts.charge(uid).is_err() {
            return Err(Reply::Quota);
        }
        match self.segs.create_page(uid, page, home, f, at, w) {
            Ok(()) => Ok(()),
            Err(_) => unreachable!(),
        }
    }

    /// Whether all records of a volume are in use.
    pub(crate) fn is_full(&self, volume: u32) -> bool
        requires still { self.now.segs.moving ≡ None }
        requires volume { volume < length self.now.segs.pages.volumes.drives }
        ensures { result ≡ is_full self.now.segs.pages.volumes.records volume }
    {
        let volumes = volumes_at_rest(&self.segs);
        volumes.taken(volume) == volumes.size(volume)
    }
}

/// Why a page more of a segment can't be stored where its volume has no record left: want of quota comes first.
fn full_reply(accounts: &Accounts, uid: u32) -> Reply
    requires { has_segment accounts.now.nodes uid ≡ true }
    ensures { (s : Flat) → ShowsTree s accounts.now
        → result ≡ (if is_used_up s uid then Reply.Quota else Reply.NoRecord) }
{
    if accounts.may_charge(uid).is_err() {
        Reply::Quota
    } else {
        Reply::NoRecord
    }
}
