ghost use Rattle.std.specs.Prelude.{◌≡◌, ◌≢◌, ◌<◌, ◌≤◌, ◌↔◌, ◌+◌, ◌-◌, ◌++◌, ℕ, List, Option, Some, None, true};
ghost use Rattle.std.specs.Prelude.{false, length};
ghost use Rattle.std.specs.Prelude.{All, IsTrue, IsSome, IsOk, IsErr, IfSome, IfNone, IfOk, OnOk, OnErr, Ok, map};
ghost use Rattle.std.specs.Prelude.{take, replicate, slice_index, slice_set};
ghost use Rattle.std.specs.List.{list_any};
ghost use Rattle.core_map.specs.declared.Frame.TheVariants.{Free, Started};
ghost use Rattle.core_map.specs.CoreMap.{frame_at, is_bound, reads_of};
ghost use Rattle.core_map.specs.Clock.{IsClockChoice, clock_choice, after_choice};
ghost use Rattle.mword.specs.Words.{AreZero};
ghost use Rattle.page_table.specs.declared.Ptw.TheVariants.{Null, Out, Here, Leaving};
ghost use Rattle.vtoc.specs.Vtoc.{least_free_entry};
ghost use Rattle.volumes.specs.Volumes.{HasParts, KeepsTables};
ghost use Rattle.active_segs.specs.Active.{uid_at, table_at, entry_at, IsActive, IsTree, HasShape};
ghost use Rattle.page_control.specs.declared.Home.{Home};
ghost use Rattle.page_control.specs.Plain.{Plain, plain, bindings, words_in, number_in, flags_of, vtoc_of, record_of};
ghost use Rattle.page_control.specs.Plain.{uid_of_home};
ghost use Rattle.page_control.specs.Effects.{framed, referred, word_put, cut, erased, dropped};
ghost use Rattle.page_control.specs.Effects.{after_evict, after_read, after_create, after_asked, NeedsNoWrite};
ghost use Rattle.page_control.specs.Picture.{words_at, is_stored, is_kept, changed_page};
ghost use Rattle.page_control.specs.Picture.{KeepsWords, ChangesWords, ChangesStored};
ghost use Rattle.page_control.specs.Counts.{taken, used, named_on, one_more, one_less, taken_after, KeepsCounts};
ghost use Rattle.page_control.specs.Drives.{CallsDrive};
ghost use Rattle.page_control.specs.Tied.{uid_in, is_out, is_away, map_at, IsNotStarted, HasNoFrame};
ghost use Rattle.page_control.specs.Tied.{uid_at as uid_homed};
ghost use Rattle.seg_control.specs.Control.{place_of, table_of, word_of};
ghost use Rattle.seg_control.specs.Kept.{IsKept, IsHomeFor, IsHomeOf, IsInactive};
ghost use Rattle.seg_control.specs.Effects.{worded, table_here, table_left, taken_from, all_taken};
ghost use Rattle.seg_control.specs.Moving.{in_move, IsUnderWay};

use crate::links::Links;
use active_segs::Ast;
use mword::{Page, Word};
use page_control::{Home, Left, NoRecord, Pages};
use page_table::{PageTable, Ptw};
use seg_mover::Mover;
use site_io::Failed;
use std::marker::Model;
use volumes::Drive;

/// Segment control over drives of one kind. A contract sees page control, the active segments, the trailers and, for
/// each process, its known segment table and its descriptor segment; and the segment that moves to another volume, if
/// one does. It sees the volumes at rest: without the home that the move has taken. Calls that change homes, file maps
/// or the words of page tables ask that no segment moves; only a page that was being read still comes into its frame.
///
/// Between calls the page table of each active segment agrees with the frames, and with the file map of its home; a
/// page of a segment that isn't active is in no frame; the superiors of active segments are active; and the trailers of
/// a place are exactly the descriptors that lead there (`IsKept`).
#[derive(Drop)]
pub struct Segs<D: Drive> {
    pub(crate) pages: Pages<D>,
    pub(crate) ast: Ast,
    pub(crate) links: Links,
    /// The move under way, if there is one.
    pub(crate) moving: Option<Mover>,
    /// Takes the page that a move copies.
    pub(crate) spare: Page,
}

impl<D: Drive> Model for Segs<D> {
    ghost use Rattle.seg_control.specs.Control.{Control};
    ghost use Rattle.seg_control.specs.Moving.{IsKeptAtRest, at_rest};

    ghost Value = { Control D };

    ghost view = { λ s. record { pages = at_rest s.pages s.moving; ast = s.ast; links = s.links; moving = s.moving } };

    ghost invariant = { λ s. IsKeptAtRest D.pages s.pages s.ast s.links s.moving };
}

impl<D: Drive> Segs<D> {
    /// Page control, with the volumes as they are. What is true of segment control between calls is told here. (Source:
    /// own.)
    pub fn pages(&self) -> &Pages<D>
        ensures pages { result.now
            ≡ record self.now.pages { volumes = in_move self.now.pages.volumes self.now.moving } }
        ensures kept { IsKept (plain D.pages self.now.pages) self.now.ast self.now.links }
        ensures parts { HasParts (map D.pages self.now.pages.volumes.drives) self.now.pages.volumes.records
            self.now.pages.volumes.vtocs }
        ensures moving { IfSome self.now.moving (IsUnderWay self.now) }
    {
        self.pages.volumes().promise();
        &self.pages
    }

    /// The active segments. (Source: Bensoussan, Clingen and Daley 1972.)
    pub fn ast(&self) -> &Ast
        ensures ast { result.now ≡ self.now.ast }
        ensures kept { IsKept (plain D.pages self.now.pages) self.now.ast self.now.links }
    {
        &self.ast
    }

    /// The frame that the clock chooses among the bound ones, of which there is one. (Source: Corbató 1968.)
    pub fn choose(&mut self) -> u32
        requires { list_any is_bound self.old.pages.core.frames ≡ true }
        ensures choice { IsClockChoice self.old.pages.core self.new.pages.core result }
        ensures chosen { clock_choice self.old.pages.core ≡ Some result }
        ensures effect { self.new ≡ record self.old {
          pages = record self.old.pages { core = after_choice self.old.pages.core result };
        } }
        ensures bound { is_bound (frame_at self.new.pages.core result) ≡ true }
        ensures words { words_at (plain D.pages self.new.pages) ≡ words_at (plain D.pages self.old.pages) }
        ensures bindings { bindings self.new.pages.core ≡ bindings self.old.pages.core }
        ensures reads { reads_of self.new.pages.core ≡ reads_of self.old.pages.core }
    {
        self.pages.choose()
    }

    /// Reads word `at` through the bound frame `f`, whose used mark is on then. (Source: Bensoussan, Clingen and Daley
    /// 1972.)
    pub fn word(&mut self, f: u32, at: u32) -> Word
        requires bound { is_bound (frame_at self.old.pages.core f) ≡ true }
        requires at { at < 1024 }
        ensures word { result ≡ slice_index (words_in (plain D.pages self.old.pages) f) at }
        ensures marks { plain D.pages self.new.pages ≡ referred (plain D.pages self.old.pages) f false }
        ensures words { words_at (plain D.pages self.new.pages) ≡ words_at (plain D.pages self.old.pages) }
        ensures bindings { bindings self.new.pages.core ≡ bindings self.old.pages.core }
        ensures reads { reads_of self.new.pages.core ≡ reads_of self.old.pages.core }
        ensures volumes { self.new.pages.volumes ≡ self.old.pages.volumes }
        ensures ast { self.new.ast ≡ self.old.ast }
        ensures links { self.new.links ≡ self.old.links }
        ensures moving { self.new.moving ≡ self.old.moving }
    {
        self.pages.word(f, at)
    }

    /// Writes `w` at word `at` through the bound frame `f`, whose marks are both on then. (Source: Bensoussan, Clingen
    /// and Daley 1972.)
    pub fn put_word(&mut self, f: u32, at: u32, w: Word)
        requires bound { is_bound (frame_at self.old.pages.core f) ≡ true }
        requires at { at < 1024 }
        ensures word { plain D.pages self.new.pages ≡ word_put (plain D.pages self.old.pages) f at w }
        ensures size { length (words_in (plain D.pages self.old.pages) f) ≡ 1024 }
        ensures words { words_at (plain D.pages self.new.pages) ≡ changed_page
            (words_at (plain D.pages self.old.pages)) (uid_in (frame_at self.old.pages.core f))
            (number_in (frame_at self.old.pages.core f))
            (slice_set (words_in (plain D.pages self.old.pages) f) at w) }
        ensures bindings { bindings self.new.pages.core ≡ bindings self.old.pages.core }
        ensures reads { reads_of self.new.pages.core ≡ reads_of self.old.pages.core }
        ensures volumes { self.new.pages.volumes ≡ self.old.pages.volumes }
        ensures ast { self.new.ast ≡ self.old.ast }
        ensures links { self.new.links ≡ self.old.links }
        ensures moving { self.new.moving ≡ self.old.moving }
    {
        self.pages.put_word(f, at, w);
    }

    /// Makes the words of the bound frame `f` from `at` on 0, turns both its marks on, and tells whether the whole page
    /// is zeros then. (Source: own.)
    pub fn cut_from(&mut self, f: u32, at: u32) -> bool
        requires bound { is_bound (frame_at self.old.pages.core f) ≡ true }
        requires at { at ≤ 1024 }
        ensures zero { IsTrue result ↔ AreZero (words_in (plain D.pages self.new.pages) f) }
        ensures cut { plain D.pages self.new.pages ≡ cut (plain D.pages self.old.pages) f at }
        ensures words { words_at (plain D.pages self.new.pages) ≡ changed_page
            (words_at (plain D.pages self.old.pages)) (uid_in (frame_at self.old.pages.core f))
            (number_in (frame_at self.old.pages.core f))
            (take at (words_in (plain D.pages self.old.pages) f) ++ replicate (1024 - at) 0) }
        ensures bindings { bindings self.new.pages.core ≡ bindings self.old.pages.core }
        ensures reads { reads_of self.new.pages.core ≡ reads_of self.old.pages.core }
        ensures volumes { self.new.pages.volumes ≡ self.old.pages.volumes }
        ensures ast { self.new.ast ≡ self.old.ast }
        ensures links { self.new.links ≡ self.old.links }
        ensures moving { self.new.moving ≡ self.old.moving }
    {
        self.pages.cut_from(f, at)
    }

    /// Notes that page `p` of an active segment, which is on its record alone, is being read into the free frame `f`.
    /// (Source: own.)
    pub fn start_in(&mut self, uid: u32, p: u32, f: u32)
        requires still { self.old.moving ≡ None }
        requires active { IsActive self.old.ast.entries uid }
        requires page { p < length (table_of self.old.ast uid) }
        requires out { is_out (word_of self.old.ast uid p) ≡ true }
        requires frame { f < length self.old.pages.core.frames }
        requires free { frame_at self.old.pages.core f ≡ Free }
        requires first { IsNotStarted self.old.pages.core uid p }
        ensures started { plain D.pages self.new.pages ≡ framed (plain D.pages self.old.pages) f (Started uid p) }
        ensures words { words_at (plain D.pages self.new.pages) ≡ words_at (plain D.pages self.old.pages) }
        ensures bindings { bindings self.new.pages.core ≡ bindings self.old.pages.core }
        ensures reads { reads_of self.new.pages.core
            ≡ slice_set (reads_of self.old.pages.core) f (Some (uid, p)) }
        ensures volumes { self.new.pages.volumes ≡ self.old.pages.volumes }
        ensures ast { self.new.ast ≡ self.old.ast }
        ensures links { self.new.links ≡ self.old.links }
        ensures moving { self.new.moving ≡ self.old.moving }
    {
        let place = place_in(&self.ast, uid);
        self.pages.start_in(self.ast.table(place), uid, p, f);
    }

    /// Reads page `p` of an active segment into the frame `f` that was started for it, and binds the frame to it.
    /// `Failed` comes only where the faults of its drive rose; `f` is free then, and the rest as before. It costs one
    /// read of the drive. (Source: Bensoussan, Clingen and Daley 1972.)
    pub fn end_in(&mut self, uid: u32, p: u32, home: Home, f: u32) -> Result<(), Failed>
        requires active { IsActive self.old.ast.entries uid }
        requires page { p < length (table_of self.old.ast uid) }
        requires started { frame_at self.old.pages.core f ≡ Started uid p }
        requires home { IsHomeFor (plain D.pages self.old.pages) uid home (table_of self.old.ast uid) }
        ensures effect { plain D.pages self.new.pages
            ≡ after_read (plain D.pages self.old.pages) uid p home f result }
        ensures word { self.new.ast ≡ table_here self.old.ast uid p f result }
        ensures words { KeepsWords (plain D.pages self.old.pages) (plain D.pages self.new.pages) uid home }
        ensures bound { OnOk result (bindings self.new.pages.core
            ≡ slice_set (bindings self.old.pages.core) f (Some (uid, p))) }
        ensures lost { OnErr result (bindings self.new.pages.core ≡ bindings self.old.pages.core) }
        ensures reads { reads_of self.new.pages.core ≡ slice_set (reads_of self.old.pages.core) f None }
        ensures tables { KeepsTables self.old.pages.volumes self.new.pages.volumes }
        ensures counts { KeepsCounts (plain D.pages self.old.pages) (plain D.pages self.new.pages) }
        ensures drives { CallsDrive D.plan D.places D.faults self.old.pages.volumes.drives
            self.new.pages.volumes.drives home.volume result }
        ensures links { self.new.links ≡ self.old.links }
        ensures moving { self.new.moving ≡ self.old.moving }
    {
        let place = place_in(&self.ast, uid);
        self.pages
            .end_in(self.ast.table_mut(place), uid, p, home, f)
    }

    /// Empties frame `f`, whose page is on its way out. A page that is all zeros gives its record back, with no call of
    /// a drive; one whose modified mark is on is written to its record. `Failed` comes only where the faults of its
    /// drive rose; the page is still leaving then. (Source: Organick 1972.)
    pub fn evict(&mut self, uid: u32, home: Home, f: u32) -> Result<Left, Failed>
        requires still { self.old.moving ≡ None }
        requires active { IsActive self.old.ast.entries uid }
        requires bound { is_bound (frame_at self.old.pages.core f) ≡ true }
        requires own { uid_in (frame_at self.old.pages.core f) ≡ uid }
        requires leaving { word_of self.old.ast uid (number_in (frame_at self.old.pages.core f)) ≡ Leaving f }
        requires home { IsHomeFor (plain D.pages self.old.pages) uid home (table_of self.old.ast uid) }
        ensures zeros { result ≡ Ok Left.Released ↔ AreZero (words_in (plain D.pages self.old.pages) f) }
        ensures effect { plain D.pages self.new.pages ≡ after_evict (plain D.pages self.old.pages) home
            (number_in (frame_at self.old.pages.core f)) f result }
        ensures word { self.new.ast ≡ table_left self.old.ast uid (number_in (frame_at self.old.pages.core f))
            (record_of (plain D.pages self.old.pages) home (number_in (frame_at self.old.pages.core f))) result }
        ensures words { KeepsWords (plain D.pages self.old.pages) (plain D.pages self.new.pages) uid home }
        ensures stored { IfOk result (λ left. ChangesStored (plain D.pages self.old.pages)
            (plain D.pages self.new.pages) home (number_in (frame_at self.old.pages.core f)) (is_kept left)) }
        ensures freed { OnOk result (bindings self.new.pages.core
            ≡ slice_set (bindings self.old.pages.core) f None) }
        ensures reads { reads_of self.new.pages.core ≡ reads_of self.old.pages.core }
        ensures taken { IfOk result (λ left. taken self.new.pages.volumes.records
            ≡ taken_after (taken self.old.pages.volumes.records) home.volume left) }
        ensures counts { KeepsCounts (plain D.pages self.old.pages) (plain D.pages self.new.pages) }
        ensures no_call { NeedsNoWrite (plain D.pages self.old.pages) f
            → IsOk result × (self.new.pages.volumes.drives ≡ self.old.pages.volumes.drives) }
        ensures drives { CallsDrive D.plan D.places D.faults self.old.pages.volumes.drives
            self.new.pages.volumes.drives home.volume result }
        ensures links { self.new.links ≡ self.old.links }
        ensures moving { self.new.moving ≡ self.old.moving }
    {
        let place = place_in(&self.ast, uid);
        self.pages.evict(self.ast.table_mut(place), home, f)
    }

    /// Gives page `p` of an active segment, which had no record, the least free record of its volume and the free frame
    /// `f`, all zeros but word `at`, which becomes `w`; both marks are on then. `NoRecord` exactly where all records of
    /// the volume are in use; nothing has changed then. A file map names records below 65,535. (Source: Organick 1972.)
    pub fn create_page(
        &mut self,
        uid: u32,
        p: u32,
        home: Home,
        f: u32,
        at: u32,
        w: Word,
    ) -> Result<(), NoRecord>
        requires still { self.old.moving ≡ None }
        requires active { IsActive self.old.ast.entries uid }
        requires page { p < length (table_of self.old.ast uid) }
        requires null { word_of self.old.ast uid p ≡ Null }
        requires frame { f < length self.old.pages.core.frames }
        requires free { frame_at self.old.pages.core f ≡ Free }
        requires at { at < 1024 }
        requires short { length (flags_of (plain D.pages self.old.pages) home.volume) < 65536 }
        requires home { IsHomeFor (plain D.pages self.old.pages) uid home (table_of self.old.ast uid) }
        ensures effect { plain D.pages self.new.pages
            ≡ after_create (plain D.pages self.old.pages) uid p home f at w result }
        ensures word { self.new.ast ≡ table_here self.old.ast uid p f result }
        ensures full { IsErr result
            ↔ All (λ flag. flag ≡ true) (flags_of (plain D.pages self.old.pages) home.volume) }
        ensures words { OnOk result (ChangesWords (plain D.pages self.old.pages) (plain D.pages self.new.pages) uid
            home p (slice_set (replicate 1024 0) at w)) }
        ensures stored { OnOk result
            (ChangesStored (plain D.pages self.old.pages) (plain D.pages self.new.pages) home p true) }
        ensures bound { OnOk result (bindings self.new.pages.core
            ≡ slice_set (bindings self.old.pages.core) f (Some (uid, p))) }
        ensures reads { reads_of self.new.pages.core ≡ reads_of self.old.pages.core }
        ensures taken { OnOk result (taken self.new.pages.volumes.records
            ≡ one_more (taken self.old.pages.volumes.records) home.volume) }
        ensures counts { KeepsCounts (plain D.pages self.old.pages) (plain D.pages self.new.pages) }
        ensures drives { self.new.pages.volumes.drives ≡ self.old.pages.volumes.drives }
        ensures links { self.new.links ≡ self.old.links }
        ensures moving { self.new.moving ≡ self.old.moving }
    {
        let place = place_in(&self.ast, uid);
        self.pages
            .create_page(self.ast.table_mut(place), uid, p, home, f, at, w)
    }

    /// Takes page `p` of an active segment out of storage: its record is given back, its word is `Null`, and its frame,
    /// if it has one, is free. (Source: Organick 1972.)
    pub fn drop_page(&mut self, uid: u32, p: u32, home: Home)
        requires still { self.old.moving ≡ None }
        requires active { IsActive self.old.ast.entries uid }
        requires page { p < length (table_of self.old.ast uid) }
        requires away { is_away (word_of self.old.ast uid p) ≡ true }
        requires idle { IsNotStarted self.old.pages.core uid p }
        requires home { IsHomeFor (plain D.pages self.old.pages) uid home (table_of self.old.ast uid) }
        ensures effect { plain D.pages self.new.pages
            ≡ dropped (plain D.pages self.old.pages) home p (word_of self.old.ast uid p) }
        ensures word { self.new.ast ≡ worded self.old.ast uid p Null }
        ensures words { ChangesWords (plain D.pages self.old.pages) (plain D.pages self.new.pages) uid home p
            (replicate 1024 0) }
        ensures stored { ChangesStored (plain D.pages self.old.pages) (plain D.pages self.new.pages) home p false }
        ensures reads { reads_of self.new.pages.core ≡ reads_of self.old.pages.core }
        ensures taken { taken self.new.pages.volumes.records
            ≡ one_less (taken self.old.pages.volumes.records) home.volume }
        ensures counts { KeepsCounts (plain D.pages self.old.pages) (plain D.pages self.new.pages) }
        ensures drives { self.new.pages.volumes.drives ≡ self.old.pages.volumes.drives }
        ensures links { self.new.links ≡ self.old.links }
        ensures moving { self.new.moving ≡ self.old.moving }
    {
        let place = place_in(&self.ast, uid);
        self.pages.drop_page(self.ast.table_mut(place), p, home);
    }

    /// Lets no more references go through the word of the page in frame `f`, which is on its way out from now on.
    /// (Source: own.)
    pub fn take(&mut self, uid: u32, f: u32)
        requires still { self.old.moving ≡ None }
        requires active { IsActive self.old.ast.entries uid }
        requires bound { is_bound (frame_at self.old.pages.core f) ≡ true }
        requires own { uid_in (frame_at self.old.pages.core f) ≡ uid }
        requires here { word_of self.old.ast uid (number_in (frame_at self.old.pages.core f)) ≡ Here f }
        ensures effect { self.new ≡ record self.old {
          ast = worded self.old.ast uid (number_in (frame_at self.old.pages.core f)) (Leaving f);
        } }
    {
        let place = place_in(&self.ast, uid);
        self.pages.take(self.ast.table_mut(place), f);
    }

    /// Lets references go through the word of the page in frame `f` again, which was on its way out. (Source: own.)
    pub fn back(&mut self, uid: u32, f: u32)
        requires still { self.old.moving ≡ None }
        requires active { IsActive self.old.ast.entries uid }
        requires bound { is_bound (frame_at self.old.pages.core f) ≡ true }
        requires own { uid_in (frame_at self.old.pages.core f) ≡ uid }
        requires leaving { word_of self.old.ast uid (number_in (frame_at self.old.pages.core f)) ≡ Leaving f }
        ensures effect { self.new ≡ record self.old {
          ast = worded self.old.ast uid (number_in (frame_at self.old.pages.core f)) (Here f);
        } }
    {
        let place = place_in(&self.ast, uid);
        self.pages.back(self.ast.table_mut(place), f);
    }

    /// Lets no more references go through the words of those pages of a place that are in a frame and have number
    /// `from` or above: all of them are on their way out from now on. It looks at each word from there on. (Source:
    /// own.)
    pub fn take_all(&mut self, aste: u32, from: u32)
        requires still { self.old.moving ≡ None }
        requires place { aste < length self.old.ast.entries }
        ensures effect { self.new ≡ record self.old { ast = all_taken self.old.ast aste from } }
    {
        take_from(self.ast.table_mut(aste), from);
    }

    /// Takes the least free VTOC entry of a volume for a segment that isn't active, with an empty file map. None
    /// exactly where all of its entries are used; nothing has changed then. (Source: Organick 1972.)
    pub fn new_home(&mut self, volume: u32, uid: u32) -> Option<u32>
        requires still { self.old.moving ≡ None }
        requires volume { volume < length self.old.pages.volumes.drives }
        requires inactive { IsInactive self.old.ast.entries uid }
        ensures least { result ≡ least_free_entry (vtoc_of (plain D.pages self.old.pages) volume) }
        ensures none { IfNone result (All (λ entry. IsSome entry) (vtoc_of (plain D.pages self.old.pages) volume)) }
        ensures effect { plain D.pages self.new.pages
            ≡ after_asked (plain D.pages self.old.pages) volume uid result }
        ensures drives { self.new.pages.volumes.drives ≡ self.old.pages.volumes.drives }
        ensures home { IfSome result (λ e. uid_homed self.new.pages.volumes.vtocs
            (record { volume = volume; entry = e }) ≡ Some uid) }
        ensures uids { (other : Home) → IfSome result (λ e. other ≢ record { volume = volume; entry = e })
            → uid_homed self.new.pages.volumes.vtocs other ≡ uid_homed self.old.pages.volumes.vtocs other }
        ensures maps { (other : Home) → map_at self.new.pages.volumes.vtocs other
            ≡ map_at self.old.pages.volumes.vtocs other }
        ensures words { words_at (plain D.pages self.new.pages) ≡ words_at (plain D.pages self.old.pages) }
        ensures stored { is_stored (plain D.pages self.new.pages) ≡ is_stored (plain D.pages self.old.pages) }
        ensures used { IfSome result (λ e. used self.new.pages.volumes.vtocs
            ≡ one_more (used self.old.pages.volumes.vtocs) volume) }
        ensures ast { self.new.ast ≡ self.old.ast }
        ensures links { self.new.links ≡ self.old.links }
        ensures moving { self.new.moving ≡ self.old.moving }
    {
        self.pages.new_home(volume, uid)
    }

    /// Gives back each record that the file map at the one home of a segment names, and frees the entry. It reads each
    /// of the 256 places of the file map. (Source: Organick 1972.)
    pub fn erase(&mut self, home: Home)
        requires still { self.old.moving ≡ None }
        requires volume { home.volume < length self.old.pages.volumes.drives }
        requires home { IsHomeOf self.old.pages.volumes.vtocs (uid_of_home (plain D.pages self.old.pages) home) home }
        ensures effect { plain D.pages self.new.pages ≡ erased (plain D.pages self.old.pages) home }
        ensures drives { self.new.pages.volumes.drives ≡ self.old.pages.volumes.drives }
        ensures home { uid_homed self.new.pages.volumes.vtocs home ≡ None }
        ensures uids { (other : Home) → other ≢ home
            → uid_homed self.new.pages.volumes.vtocs other ≡ uid_homed self.old.pages.volumes.vtocs other }
        ensures maps { (other : Home) → other ≢ home
            → map_at self.new.pages.volumes.vtocs other ≡ map_at self.old.pages.volumes.vtocs other }
        ensures stored { (p : ℕ) → is_stored (plain D.pages self.new.pages) home p ≡ false }
        ensures zeros { (uid p : ℕ) → HasNoFrame (bindings self.old.pages.core) uid
            → words_at (plain D.pages self.new.pages) uid home p ≡ replicate 1024 0 }
        ensures words { (uid : ℕ) (other : Home) (p : ℕ) → other ≢ home
            → words_at (plain D.pages self.new.pages) uid other p
            ≡ words_at (plain D.pages self.old.pages) uid other p }
        ensures used { used self.new.pages.volumes.vtocs
            ≡ one_less (used self.old.pages.volumes.vtocs) home.volume }
        ensures taken { (v : ℕ) → taken self.new.pages.volumes.records v
            + named_on self.old.pages.volumes.vtocs home v ≡ taken self.old.pages.volumes.records v }
        ensures ast { self.new.ast ≡ self.old.ast }
        ensures links { self.new.links ≡ self.old.links }
        ensures moving { self.new.moving ≡ self.old.moving }
    {
        self.pages.erase(home);
    }
}

/// Takes each page in a frame from number `from` on.
fn take_from(table: &mut PageTable, from: u32)
    ensures { table.new ≡ taken_from from table.old }
{
    for p in from..table.size() {
        if let Ptw::Here(f) = table.get(p) {
            table.set(p, Ptw::Leaving(f));
        }
    }
}

/// The place in which a segment is active.
pub(crate) fn place_in(ast: &Ast, uid: u32) -> u32
    requires { IsActive ast.now.entries uid }
    ensures is { result ≡ place_of ast.now.entries uid }
    ensures at { uid_at ast.now.entries result ≡ Some uid }
    ensures within { result < length ast.now.entries }
    ensures tree { IsTree ast.now.entries }
{
    match ast.search(uid) {
        Some(place) => place,
        None => unreachable!(),
    }
}
