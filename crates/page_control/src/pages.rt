ghost use Rattle.std.specs.Prelude.{◌≡◌, ◌≢◌, ◌+◌, ◌≤◌, ◌-◌, ◌++◌, ◌<◌, ◌↔◌, ℕ, true, false, List, Option, Some, None};
ghost use Rattle.std.specs.Prelude.{Ok, length, take, replicate, slice_index, slice_index_or, slice_set, All, IsTrue};
ghost use Rattle.std.specs.Prelude.{IsSome, IsOk, IsErr, IfOk, IfSome, IfNone, OnOk, OnErr};
ghost use Rattle.std.specs.List.{list_any};
ghost use Rattle.std.specs.Borrow.{sem};
ghost use Rattle.core_map.specs.declared.Frame.TheVariants.{Free, Started, Bound};
ghost use Rattle.core_map.specs.CoreMap.{reads_of, frame_at, with_frame, is_bound, is_modified};
ghost use Rattle.core_map.specs.Clock.{IsClockChoice, clock_choice, after_choice};
ghost use Rattle.mword.specs.Words.{AreZero};
ghost use Rattle.page_table.specs.declared.Ptw.{Ptw};
ghost use Rattle.page_table.specs.declared.Ptw.TheVariants.{Null, Out, Here, Leaving};
ghost use Rattle.page_table.specs.PageTable.{ptw_at};
ghost use Rattle.vtoc.specs.Vtoc.{least_free_entry, entry_at, records_in};
ghost use Rattle.volumes.specs.FullPages.{HaveFullPages};
ghost use Rattle.volumes.specs.Volumes.{Vols, KeepsTables};
ghost use Rattle.page_control.specs.Plain.{Paging, Plain, plain, words_in, number_in, flags_of, vtoc_of, bindings};
ghost use Rattle.page_control.specs.Plain.{disk_of, entry_of, filed, record_of, uid_of_home, with_volumes};
ghost use Rattle.page_control.specs.Effects.{framed, erased, word_put, referred, cut, unstored, dropped, saved, filled};
ghost use Rattle.page_control.specs.Effects.{after_evict, after_read, after_create, after_asked, words_left};
ghost use Rattle.page_control.specs.Effects.{words_here, NeedsNoWrite};
ghost use Rattle.page_control.specs.Steps.{HasLeft, HasRead, HasCreated, HasAsked};
ghost use Rattle.page_control.specs.Erasing.{IsPartErased};
ghost use Rattle.page_control.specs.Picture.{words_at, words_out, is_stored, is_kept, changed_page};
ghost use Rattle.page_control.specs.Picture.{KeepsWords, ChangesWords, ChangesStored};
ghost use Rattle.page_control.specs.Counts.{taken, used, named_on, one_more, one_less, taken_after, KeepsCounts};
ghost use Rattle.page_control.specs.Drives.{CallsDrive};
ghost use Rattle.page_control.specs.Tied.{IsTableOf, HasNoFrame, IsMapOf, AreFiled, IsNotStarted, IsBoundOnce};
ghost use Rattle.page_control.specs.Tied.{IsBoundTo, IsInFrame, IsBlank};
ghost use Rattle.page_control.specs.Tied.{uid_at, map_at, frame_of, uid_in, is_away, is_out};
ghost use Rattle.page_control.specs.Ties.{IsTied, IsSeen, KeepsOthers, KeepsTies};
ghost use Rattle.page_control.specs.Lending.{lends_volumes};
ghost use Rattle.page_control.specs.Moves.{IsHomeFor, IsCopied, KeepsHome, rehomed_word, rehomed, all_modified};
ghost use Rattle.page_control.specs.declared.Home.{Home};

use crate::{Home, Left, NoMemory, NoRecord};
use core_map::CoreMap;
use mword::{Page, Word};
use page_table::{PageTable, Ptw};
use site_io::Failed;
use std::alloc::Global;
use std::marker::Model;
use volumes::{Drive, Volumes, zero_pages};
use vtoc::Vtoc;

/// The frames of core with their pages, and the volumes, seen as the core map, the words of each frame and the volumes.
#[derive(Drop)]
pub struct Pages<D: Drive> {
    core: CoreMap,
    frames: Vec<Page>,
    volumes: Volumes<D>,
}

impl<D: Drive> Model for Pages<D> {
    ghost use Rattle.std.specs.Prelude.{◌≡◌, length};
    ghost use Rattle.volumes.specs.FullPages.{HaveFullPages};
    ghost use Rattle.page_control.specs.Plain.{Paging};

    ghost Value = { Paging D };

    ghost view = { λ s. record { core = s.core; frames = s.frames.items; volumes = s.volumes } };

    ghost invariant = { λ s. (length s.frames.items ≡ length s.core.frames) × HaveFullPages s.frames.items };
}

impl<D: Drive> Pages<D> {
    /// As many free frames, over these volumes. `NoMemory` is want of memory. It takes 8 KiB for each frame. (Source:
    /// Bensoussan, Clingen and Daley 1972.)
    #[tactic(auto, using(std::proofs::lemmas::Grind::common_steps))]
    pub fn new(alloc: Global, frames: u32, volumes: Volumes<D>) -> Result<Pages<D>, NoMemory>
        ensures { IfOk result (λ s. s ≡ record {
          core = record { frames = replicate frames Free; hand = 0 };
          frames = replicate frames (replicate 1024 0);
          volumes = volumes;
        }) }
    {
        let core = CoreMap::new(alloc, frames)?;
        let frames = zero_pages(alloc, frames)?;
        Ok(Pages {
            core,
            frames,
            volumes,
        })
    }

    /// The core map. A frame that a word of a page table names is bound to that page, and has the words that the page
    /// has, which are 1024 in each frame. (Source: own.)
    pub fn frames(&self) -> &CoreMap
        ensures core { result.now ≡ self.now.core }
        ensures named { (uid p f : ℕ) (words : List Ptw) → IsTableOf (bindings self.now.core) uid words
            → frame_of (ptw_at words p) ≡ Some f → IsBoundTo (frame_at self.now.core f) uid p }
        ensures words { (uid p f : ℕ) (home : Home) (words : List Ptw) → IsTableOf (bindings self.now.core) uid words
            → frame_of (ptw_at words p) ≡ Some f
            → words_at (plain D.pages self.now) uid home p ≡ words_in (plain D.pages self.now) f }
        ensures full { HaveFullPages self.now.frames }
    {
        &self.core
    }

    /// The volumes. A page that is in no frame has the words of its record. (Source: own.)
    pub fn volumes(&self) -> &Volumes<D>
        ensures volumes { result.now ≡ self.now.volumes }
        ensures away { (uid p : ℕ) (home : Home) → (IsInFrame (bindings self.now.core) uid p → ⊥)
            → words_at (plain D.pages self.now) uid home p ≡ words_out (plain D.pages self.now) home p }
    {
        &self.volumes
    }

    /// Lends the volumes, and nothing else. What is true of a segment at its home stays true, where the volumes that
    /// come back have of this home what they had. It finds them at once. (Source: own.)
    pub fn volumes_mut(&mut self) -> &mut Volumes<D>
        ensures* writes_back { sem 𝓛 (lends_volumes D.row D.Drive self.entry result) }
        ensures value { result.now ≡ self.old.volumes }
        ensures words { (volumes : Vols D) (uid : ℕ) (home : Home) (p : ℕ)
            → KeepsHome (plain D.pages self.old) (plain D.pages (with_volumes self.old volumes)) home
            → words_at (plain D.pages (with_volumes self.old volumes)) uid home p
            ≡ words_at (plain D.pages self.old) uid home p }
        ensures ties { (volumes : Vols D) (uid : ℕ) (home : Home) (words : List Ptw)
            → KeepsHome (plain D.pages self.old) (plain D.pages (with_volumes self.old volumes)) home
            → IsTied (plain D.pages self.old) uid home words
            → IsTied (plain D.pages (with_volumes self.old volumes)) uid home words }
    {
        &mut self.volumes
    }

    /// The word of page `p`, which tells where the page of a segment is. It reads one word. (Source: Bensoussan,
    /// Clingen and Daley 1972.)
    pub fn look(&self, t: &PageTable, p: u32) -> Ptw
        requires { p < length t.now }
        ensures word { result ≡ ptw_at t.now p }
        ensures seen { (uid : ℕ) (home : Home) → IsTied (plain D.pages self.now) uid home t.now
            → IsSeen (plain D.pages self.now) uid home p result }
    {
        t.get(p)
    }

    /// The volumes, once the frames are given up. A page that is in no frame has the words of its record. (Source:
    /// own.)
    pub fn into_volumes(self) -> Volumes<D>
        ensures volumes { result ≡ self.volumes }
        ensures away { (uid p : ℕ) (home : Home) → (IsInFrame (bindings self.core) uid p → ⊥)
            → words_at (plain D.pages self) uid home p ≡ words_out (plain D.pages self) home p }
    {
        self.volumes
    }

    /// Whether all words of frame `f` are 0. It reads words up to the first that isn't. (Source: own.)
    pub fn is_zero(&self, f: u32) -> bool
        requires { f < length self.now.core.frames }
        ensures zero { IsTrue result ↔ AreZero (words_in (plain D.pages self.now) f) }
        ensures size { length (words_in (plain D.pages self.now) f) ≡ 1024 }
    {
        self.frames[f as usize].is_zero()
    }

    /// The frame that the clock chooses among the bound ones, of which there is one. It costs what the core map's
    /// does. (Source: Corbató 1968.)
    pub fn choose(&mut self) -> u32
        requires { list_any is_bound self.old.core.frames ≡ true }
        ensures choice { IsClockChoice self.old.core self.new.core result }
        ensures chosen { clock_choice self.old.core ≡ Some result }
        ensures effect { self.new ≡ record self.old { core = after_choice self.old.core result } }
        ensures bound { is_bound (frame_at self.new.core result) ≡ true }
        ensures words { words_at (plain D.pages self.new) ≡ words_at (plain D.pages self.old) }
        ensures ties { KeepsTies (plain D.pages self.old) (plain D.pages self.new) }
        ensures bindings { bindings self.new.core ≡ bindings self.old.core }
        ensures reads { reads_of self.new.core ≡ reads_of self.old.core }
    {
        self.core.choose()
    }

    /// Reads word `at` through the bound frame `f`, whose used mark is on then. It reads one word. (Source:
    /// Bensoussan, Clingen and Daley 1972.)
    #[tactic(auto, using(crate::proofs::Facts::bindings_referred, std::proofs::lemmas::Grind::common_steps))]
    pub fn word(&mut self, f: u32, at: u32) -> Word
        requires bound { is_bound (frame_at self.old.core f) ≡ true }
        requires at { at < 1024 }
        ensures word { result ≡ slice_index (words_in (plain D.pages self.old) f) at }
        ensures marks { plain D.pages self.new ≡ referred (plain D.pages self.old) f false }
        ensures words { words_at (plain D.pages self.new) ≡ words_at (plain D.pages self.old) }
        ensures ties { KeepsTies (plain D.pages self.old) (plain D.pages self.new) }
        ensures bindings { bindings self.new.core ≡ bindings self.old.core }
        ensures reads { reads_of self.new.core ≡ reads_of self.old.core }
        ensures volumes { self.new.volumes ≡ self.old.volumes }
    {
        self.core.mark(f, false);
        self.frames[f as usize].get(at)
    }

    /// Writes `w` at word `at` through the bound frame `f`, whose marks are both on then. It writes one word. (Source:
    /// Bensoussan, Clingen and Daley 1972.)
    pub fn put_word(&mut self, f: u32, at: u32, w: Word)
        requires bound { is_bound (frame_at self.old.core f) ≡ true }
        requires at { at < 1024 }
        ensures word { plain D.pages self.new ≡ word_put (plain D.pages self.old) f at w }
        ensures size { length (words_in (plain D.pages self.old) f) ≡ 1024 }
        ensures words { IsBoundOnce (bindings self.old.core) f → words_at (plain D.pages self.new)
            ≡ changed_page (words_at (plain D.pages self.old)) (uid_in (frame_at self.old.core f))
            (number_in (frame_at self.old.core f)) (slice_set (words_in (plain D.pages self.old) f) at w) }
        ensures ties { KeepsTies (plain D.pages self.old) (plain D.pages self.new) }
        ensures bindings { bindings self.new.core ≡ bindings self.old.core }
        ensures reads { reads_of self.new.core ≡ reads_of self.old.core }
        ensures volumes { self.new.volumes ≡ self.old.volumes }
    {
        self.put_at(f, at, w);
    }

    /// Makes the words of the bound frame `f` from `at` on 0, turns both its marks on, and tells whether the whole page
    /// is zeros then. (Source: own.)
    pub fn cut_from(&mut self, f: u32, at: u32) -> bool
        requires bound { is_bound (frame_at self.old.core f) ≡ true }
        requires at { at ≤ 1024 }
        ensures zero { IsTrue result ↔ AreZero (words_in (plain D.pages self.new) f) }
        ensures cut { plain D.pages self.new ≡ cut (plain D.pages self.old) f at }
        ensures words { IsBoundOnce (bindings self.old.core) f → words_at (plain D.pages self.new)
            ≡ changed_page (words_at (plain D.pages self.old)) (uid_in (frame_at self.old.core f))
            (number_in (frame_at self.old.core f))
            (take at (words_in (plain D.pages self.old) f) ++ replicate (1024 - at) 0) }
        ensures ties { KeepsTies (plain D.pages self.old) (plain D.pages self.new) }
        ensures bindings { bindings self.new.core ≡ bindings self.old.core }
        ensures reads { reads_of self.new.core ≡ reads_of self.old.core }
        ensures volumes { self.new.volumes ≡ self.old.volumes }
    {
        self.cut_at(f, at)
    }

    /// Takes page `p` of a segment out of storage: its record is given back, its word is `Null`, and its frame, if it
    /// has one, is free. (Source: Organick 1972.)
    pub fn drop_page(&mut self, t: &mut PageTable, p: u32, home: Home)
        requires page { p < length t.old }
        requires away { is_away (ptw_at t.old p) ≡ true }
        requires tie { IsTied (plain D.pages self.old) (uid_of_home (plain D.pages self.old) home) home t.old }
        ensures effect { plain D.pages self.new ≡ dropped (plain D.pages self.old) home p (ptw_at t.old p) }
        ensures word { t.new ≡ slice_set t.old p Null }
        ensures tie { IsTied (plain D.pages self.new) (uid_of_home (plain D.pages self.old) home) home t.new }
        ensures others { KeepsOthers (plain D.pages self.old) (plain D.pages self.new)
            (uid_of_home (plain D.pages self.old) home) home }
        ensures words { ChangesWords (plain D.pages self.old) (plain D.pages self.new)
            (uid_of_home (plain D.pages self.old) home) home p (replicate 1024 0) }
        ensures stored { ChangesStored (plain D.pages self.old) (plain D.pages self.new) home p false }
        ensures reads { reads_of self.new.core ≡ reads_of self.old.core }
        ensures taken { taken self.new.volumes.records ≡ one_less (taken self.old.volumes.records) home.volume }
        ensures counts { KeepsCounts (plain D.pages self.old) (plain D.pages self.new) }
        ensures drives { self.new.volumes.drives ≡ self.old.volumes.drives }
    {
        self.drop_at(t, p, home);
    }

    /// Takes the least free VTOC entry of a volume for segment `uid`, with an empty file map. None exactly where all of
    /// its entries are used; nothing has changed then. (Source: Organick 1972.)
    pub fn new_home(&mut self, volume: u32, uid: u32) -> Option<u32>
        requires { volume < length self.old.volumes.drives }
        ensures least { result ≡ least_free_entry (vtoc_of (plain D.pages self.old) volume) }
        ensures none { IfNone result (All (λ entry. IsSome entry) (vtoc_of (plain D.pages self.old) volume)) }
        ensures effect { plain D.pages self.new ≡ after_asked (plain D.pages self.old) volume uid result }
        ensures drives { self.new.volumes.drives ≡ self.old.volumes.drives }

        // What becomes of homes. A table of no page is that of the segment, where no frame has a page of it.
        ensures home { IfSome result
            (λ e. uid_at self.new.volumes.vtocs (record { volume = volume; entry = e }) ≡ Some uid) }
        ensures homes { (u : ℕ) (h : Home) → uid_at self.old.volumes.vtocs h ≡ Some u
            → uid_at self.new.volumes.vtocs h ≡ Some u }
        ensures uids { (other : Home) → IfSome result (λ e. other ≢ record { volume = volume; entry = e })
            → uid_at self.new.volumes.vtocs other ≡ uid_at self.old.volumes.vtocs other }
        ensures tie { IfSome result (λ e. (words : List Ptw) → IsBlank words → HasNoFrame (bindings self.old.core) uid
            → AreFiled self.old.volumes.records self.old.volumes.vtocs
            → IsTied (plain D.pages self.new) uid (record { volume = volume; entry = e }) words) }
        ensures ties { KeepsTies (plain D.pages self.old) (plain D.pages self.new) }

        // What becomes of the rest.
        ensures maps { (other : Home) → map_at self.new.volumes.vtocs other ≡ map_at self.old.volumes.vtocs other }
        ensures records { AreFiled self.old.volumes.records self.old.volumes.vtocs
            → AreFiled self.new.volumes.records self.new.volumes.vtocs }
        ensures words { words_at (plain D.pages self.new) ≡ words_at (plain D.pages self.old) }
        ensures stored { is_stored (plain D.pages self.new) ≡ is_stored (plain D.pages self.old) }
        ensures zeros { IfSome result (λ e. (p : ℕ) → HasNoFrame (bindings self.old.core) uid
            → words_at (plain D.pages self.new) uid (record { volume = volume; entry = e }) p ≡ replicate 1024 0) }
        ensures used { IfSome result
            (λ e. used self.new.volumes.vtocs ≡ one_more (used self.old.volumes.vtocs) volume) }
    {
        self.ask(volume, uid)
    }

    /// Gives back each record that the file map at a home names, and frees the entry. It reads the file map: several
    /// places at once, and where they name a record each of the 256. (Source: Organick 1972.)
    pub fn erase(&mut self, home: Home)
        requires volume { home.volume < length self.old.volumes.drives }
        requires home { uid_at self.old.volumes.vtocs home ≡ Some (uid_of_home (plain D.pages self.old) home) }
        requires records { AreFiled self.old.volumes.records self.old.volumes.vtocs }
        ensures effect { plain D.pages self.new ≡ erased (plain D.pages self.old) home }
        ensures drives { self.new.volumes.drives ≡ self.old.volumes.drives }

        // What becomes of homes, file maps and records.
        ensures home { uid_at self.new.volumes.vtocs home ≡ None }
        ensures uids { (other : Home) → other ≢ home
            → uid_at self.new.volumes.vtocs other ≡ uid_at self.old.volumes.vtocs other }
        ensures maps { (other : Home) → other ≢ home
            → map_at self.new.volumes.vtocs other ≡ map_at self.old.volumes.vtocs other }
        ensures records { AreFiled self.new.volumes.records self.new.volumes.vtocs }
        ensures ties { (uid : ℕ) (other : Home) (words : List Ptw) → other ≢ home
            → IsTied (plain D.pages self.old) uid other words → IsTied (plain D.pages self.new) uid other words }

        // What becomes of the picture: no page is stored at this home, and a segment without a frame is all zeros.
        ensures stored { (p : ℕ) → is_stored (plain D.pages self.new) home p ≡ false }
        ensures zeros { (uid p : ℕ) → HasNoFrame (bindings self.old.core) uid
            → words_at (plain D.pages self.new) uid home p ≡ replicate 1024 0 }
        ensures words { (uid : ℕ) (other : Home) (p : ℕ) → other ≢ home
            → words_at (plain D.pages self.new) uid other p ≡ words_at (plain D.pages self.old) uid other p }
        ensures used { used self.new.volumes.vtocs ≡ one_less (used self.old.volumes.vtocs) home.volume }
        ensures taken { (v : ℕ) → taken self.new.volumes.records v + named_on self.old.volumes.vtocs home v
            ≡ taken self.old.volumes.records v }
    {
        self.erase_all(home);
    }

    /// Notes that page `p` of segment `uid`, which is on a record, is being read into the free frame `f`. (Source:
    /// own.)
    #[tactic(auto, using(crate::proofs::Facts::bindings_started, std::proofs::lemmas::Grind::common_steps))]
    pub fn start_in(&mut self, t: &PageTable, uid: u32, p: u32, f: u32)
        requires page { p < length t.now }
        requires out { is_out (ptw_at t.now p) ≡ true }
        requires table { IsTableOf (bindings self.old.core) uid t.now }
        requires frame { f < length self.old.core.frames }
        requires free { frame_at self.old.core f ≡ Free }
        requires first { IsNotStarted self.old.core uid p }
        ensures started { plain D.pages self.new ≡ framed (plain D.pages self.old) f (Started uid p) }
        ensures words { words_at (plain D.pages self.new) ≡ words_at (plain D.pages self.old) }
        ensures ties { KeepsTies (plain D.pages self.old) (plain D.pages self.new) }
        ensures bindings { bindings self.new.core ≡ bindings self.old.core }
        ensures reads { reads_of self.new.core ≡ slice_set (reads_of self.old.core) f (Some (uid, p)) }
        ensures volumes { self.new.volumes ≡ self.old.volumes }
    {
        self.core.start(f, uid, p);
    }

    /// Reads page `p` of segment `uid` into the frame `f` that was started for it, and binds the frame to it. After
    /// `Failed`, which its drive has counted, `f` is free, and the rest as before. It costs one read of the drive.
    /// (Source: Bensoussan, Clingen and Daley 1972.)
    pub fn end_in(
        &mut self,
        t: &mut PageTable,
        uid: u32,
        p: u32,
        home: Home,
        f: u32,
    ) -> Result<(), Failed>
        requires page { p < length t.old }
        requires out { is_out (ptw_at t.old p) ≡ true }
        requires started { frame_at self.old.core f ≡ Started uid p }
        requires tie { IsTied (plain D.pages self.old) uid home t.old }
        ensures effect { plain D.pages self.new ≡ after_read (plain D.pages self.old) uid p home f result }
        ensures word { t.new ≡ words_here t.old p f result }
        ensures tie { IsTied (plain D.pages self.new) uid home t.new }
        ensures others { KeepsOthers (plain D.pages self.old) (plain D.pages self.new) uid home }
        ensures words { KeepsWords (plain D.pages self.old) (plain D.pages self.new) uid home }
        ensures bound { OnOk result (bindings self.new.core ≡ slice_set (bindings self.old.core) f (Some (uid, p))) }
        ensures lost { OnErr result (bindings self.new.core ≡ bindings self.old.core) }
        ensures reads { reads_of self.new.core ≡ slice_set (reads_of self.old.core) f None }
        ensures tables { KeepsTables self.old.volumes self.new.volumes }
        ensures counts { KeepsCounts (plain D.pages self.old) (plain D.pages self.new) }
        ensures drives { CallsDrive D.plan D.places D.faults self.old.volumes.drives self.new.volumes.drives
            home.volume result }
    {
        self.read_at(t, uid, p, home, f)
    }

    /// Gives page `p` of segment `uid`, which had no record, the least free record of its volume and the free frame
    /// `f`, all zeros but word `at`, which becomes `w`; both marks are on then. `NoRecord` exactly where all records of
    /// the volume are in use; nothing has changed then. A file map names records below 65,535. (Source: Organick 1972.)
    pub fn create_page(
        &mut self,
        t: &mut PageTable,
        uid: u32,
        p: u32,
        home: Home,
        f: u32,
        at: u32,
        w: Word,
    ) -> Result<(), NoRecord>
        requires page { p < length t.old }
        requires null { ptw_at t.old p ≡ Null }
        requires frame { f < length self.old.core.frames }
        requires free { frame_at self.old.core f ≡ Free }
        requires at { at < 1024 }
        requires short { length (flags_of (plain D.pages self.old) home.volume) < 65536 }
        requires tie { IsTied (plain D.pages self.old) uid home t.old }
        ensures effect { plain D.pages self.new ≡ after_create (plain D.pages self.old) uid p home f at w result }
        ensures word { t.new ≡ words_here t.old p f result }
        ensures full { IsErr result ↔ All (λ flag. flag ≡ true) (flags_of (plain D.pages self.old) home.volume) }
        ensures tie { IsTied (plain D.pages self.new) uid home t.new }
        ensures others { KeepsOthers (plain D.pages self.old) (plain D.pages self.new) uid home }
        ensures words { OnOk result (ChangesWords (plain D.pages self.old) (plain D.pages self.new) uid home p
            (slice_set (replicate 1024 0) at w)) }
        ensures stored { OnOk result (ChangesStored (plain D.pages self.old) (plain D.pages self.new) home p true) }
        ensures bound { OnOk result (bindings self.new.core ≡ slice_set (bindings self.old.core) f (Some (uid, p))) }
        ensures reads { reads_of self.new.core ≡ reads_of self.old.core }
        ensures taken { OnOk result
            (taken self.new.volumes.records ≡ one_more (taken self.old.volumes.records) home.volume) }
        ensures counts { KeepsCounts (plain D.pages self.old) (plain D.pages self.new) }
        ensures drives { self.new.volumes.drives ≡ self.old.volumes.drives }
    {
        self.create_at(t, uid, p, home, f, at, w)
    }

    /// Lets no more references go through the word of the page in frame `f`, which is on its way out from now on.
    /// (Source: own.)
    #[tactic(auto, using(crate::proofs::Marks::word_taken, std::proofs::lemmas::Grind::common_steps))]
    pub fn take(&mut self, t: &mut PageTable, f: u32)
        requires bound { is_bound (frame_at self.old.core f) ≡ true }
        requires here { ptw_at t.old (number_in (frame_at self.old.core f)) ≡ Here f }
        requires table { IsTableOf (bindings self.old.core) (uid_in (frame_at self.old.core f)) t.old }
        ensures same { self.new ≡ self.old }
        ensures word { t.new ≡ slice_set t.old (number_in (frame_at self.old.core f)) (Leaving f) }
        ensures table { IsTableOf (bindings self.new.core) (uid_in (frame_at self.old.core f)) t.new }
        ensures maps { (places : List (Option ℕ)) → IsMapOf places t.old → IsMapOf places t.new }
        ensures tie { (uid : ℕ) (home : Home) → IsTied (plain D.pages self.old) uid home t.old
            → IsTied (plain D.pages self.new) uid home t.new }
    {
        let p = self.page_in(f);
        t.set(p, Ptw::Leaving(f));
    }

    /// Empties frame `f`, whose page is on its way out. A page that is all zeros gives its record back, with no call of
    /// a drive; one whose modified mark is on is written to its record. After `Failed`, which its drive has counted,
    /// the page is still leaving. (Source: Organick 1972.)
    pub fn evict(&mut self, t: &mut PageTable, home: Home, f: u32) -> Result<Left, Failed>
        requires bound { is_bound (frame_at self.old.core f) ≡ true }
        requires leaving { ptw_at t.old (number_in (frame_at self.old.core f)) ≡ Leaving f }
        requires tie { IsTied (plain D.pages self.old) (uid_in (frame_at self.old.core f)) home t.old }
        ensures zeros { result ≡ Ok Left.Released ↔ AreZero (words_in (plain D.pages self.old) f) }
        ensures effect { plain D.pages self.new
            ≡ after_evict (plain D.pages self.old) home (number_in (frame_at self.old.core f)) f result }
        ensures word { t.new ≡ words_left t.old (number_in (frame_at self.old.core f))
            (record_of (plain D.pages self.old) home (number_in (frame_at self.old.core f))) result }
        ensures tie { IsTied (plain D.pages self.new) (uid_in (frame_at self.old.core f)) home t.new }
        ensures others { KeepsOthers (plain D.pages self.old) (plain D.pages self.new)
            (uid_in (frame_at self.old.core f)) home }
        ensures words { KeepsWords (plain D.pages self.old) (plain D.pages self.new)
            (uid_in (frame_at self.old.core f)) home }
        ensures stored { IfOk result (λ left. ChangesStored (plain D.pages self.old) (plain D.pages self.new) home
            (number_in (frame_at self.old.core f)) (is_kept left)) }
        ensures freed { OnOk result (bindings self.new.core ≡ slice_set (bindings self.old.core) f None) }
        ensures reads { reads_of self.new.core ≡ reads_of self.old.core }
        ensures taken { IfOk result (λ left. taken self.new.volumes.records
            ≡ taken_after (taken self.old.volumes.records) home.volume left) }
        ensures counts { KeepsCounts (plain D.pages self.old) (plain D.pages self.new) }
        ensures no_call { NeedsNoWrite (plain D.pages self.old) f
            → IsOk result × (self.new.volumes.drives ≡ self.old.volumes.drives) }
        ensures drives { CallsDrive D.plan D.places D.faults self.old.volumes.drives self.new.volumes.drives
            home.volume result }
    {
        self.leave(t, home, f)
    }

    /// Gives segment `uid` another home, whose file map names a record for exactly the pages that have one. Each word
    /// of its page table that is `Out` names the page's record there, and the modified marks of the segment's frames
    /// are on, so that their pages are written there as they leave.
    ///
    /// The segment is as it was, where each page that is on its record alone was copied to its new one. It reads each
    /// word of the table twice, and a place of the file map for each. (Source: own.)
    pub fn rehome(&mut self, t: &mut PageTable, uid: u32, home: Home)
        requires pages { length t.old ≤ 256 }
        requires table { IsTableOf (bindings self.old.core) uid t.old }
        requires home { IsHomeFor (plain D.pages self.old) uid home t.old }
        ensures effect { self.new ≡ record self.old { core = all_modified self.old.core uid } }
        ensures rehomed { t.new ≡ rehomed t.old (map_at self.old.volumes.vtocs home) }
        ensures size { length t.new ≡ length t.old }
        ensures word { (p : ℕ) → ptw_at t.new p
            ≡ rehomed_word (ptw_at t.old p) (slice_index_or (map_at self.old.volumes.vtocs home) p None) }
        ensures table { IsTableOf (bindings self.new.core) uid t.new }
        ensures map { IsMapOf (map_at self.new.volumes.vtocs home) t.new }

        // What becomes of the segment that was tied to the home that it had.
        ensures tie { (from : Home) → IsTied (plain D.pages self.old) uid from t.old
            → IsCopied (plain D.pages self.old) t.old from home (length t.old)
            → IsTied (plain D.pages self.new) uid home t.new }
        ensures moved { (from : Home) (p : ℕ) → IsTied (plain D.pages self.old) uid from t.old
            → IsCopied (plain D.pages self.old) t.old from home (length t.old)
            → words_at (plain D.pages self.new) uid home p ≡ words_at (plain D.pages self.old) uid from p }

        // What becomes of the rest.
        ensures words { words_at (plain D.pages self.new) ≡ words_at (plain D.pages self.old) }
        ensures ties { KeepsTies (plain D.pages self.old) (plain D.pages self.new) }
        ensures bindings { bindings self.new.core ≡ bindings self.old.core }
        ensures reads { reads_of self.new.core ≡ reads_of self.old.core }
    {
        self.rehome_all(t, uid, home);
    }

    /// Lets references go through the word of the page in frame `f` again, which was on its way out. (Source: own.)
    #[tactic(auto, using(crate::proofs::Marks::word_back, std::proofs::lemmas::Grind::common_steps))]
    pub fn back(&mut self, t: &mut PageTable, f: u32)
        requires bound { is_bound (frame_at self.old.core f) ≡ true }
        requires leaving { ptw_at t.old (number_in (frame_at self.old.core f)) ≡ Leaving f }
        requires table { IsTableOf (bindings self.old.core) (uid_in (frame_at self.old.core f)) t.old }
        ensures same { self.new ≡ self.old }
        ensures word { t.new ≡ slice_set t.old (number_in (frame_at self.old.core f)) (Here f) }
        ensures table { IsTableOf (bindings self.new.core) (uid_in (frame_at self.old.core f)) t.new }
        ensures maps { (places : List (Option ℕ)) → IsMapOf places t.old → IsMapOf places t.new }
        ensures tie { (uid : ℕ) (home : Home) → IsTied (plain D.pages self.old) uid home t.old
            → IsTied (plain D.pages self.new) uid home t.new }
    {
        let p = self.page_in(f);
        t.set(p, Ptw::Here(f));
    }

    /// The steps of `put_word`.
    #[tactic(auto, using(crate::proofs::Facts::bindings_referred, std::proofs::lemmas::Grind::common_steps))]
    fn put_at(&mut self, f: u32, at: u32, w: Word)
        requires bound { is_bound (frame_at self.old.core f) ≡ true }
        requires at { at < 1024 }
        ensures put { plain D.pages self.new ≡ word_put (plain D.pages self.old) f at w }
        ensures size { length (words_in (plain D.pages self.old) f) ≡ 1024 }
        ensures reads { reads_of self.new.core ≡ reads_of self.old.core }
        ensures volumes { self.new.volumes ≡ self.old.volumes }
    {
        self.core.mark(f, true);
        self.frames[f as usize].set(at, w);
    }

    /// The steps of `cut_from`.
    #[tactic(auto, using(crate::proofs::Facts::bindings_referred, std::proofs::lemmas::Grind::common_steps))]
    fn cut_at(&mut self, f: u32, at: u32) -> bool
        requires bound { is_bound (frame_at self.old.core f) ≡ true }
        requires at { at ≤ 1024 }
        ensures cut { plain D.pages self.new ≡ cut (plain D.pages self.old) f at }
        ensures size { length (words_in (plain D.pages self.old) f) ≡ 1024 }
        ensures zero { IsTrue result ↔ AreZero (words_in (plain D.pages self.new) f) }
        ensures reads { reads_of self.new.core ≡ reads_of self.old.core }
        ensures volumes { self.new.volumes ≡ self.old.volumes }
    {
        self.core.mark(f, true);
        self.frames[f as usize].clear_from(at);
        self.is_zero(f)
    }

    /// The steps of `drop_page`.
    #[tactic(auto, using(crate::proofs::Facts::page_dropped, std::proofs::lemmas::Grind::common_steps))]
    fn drop_at(&mut self, t: &mut PageTable, p: u32, home: Home)
        requires page { p < length t.old }
        requires away { is_away (ptw_at t.old p) ≡ true }
        requires tie { IsTied (plain D.pages self.old) (uid_of_home (plain D.pages self.old) home) home t.old }
        ensures dropped { plain D.pages self.new ≡ dropped (plain D.pages self.old) home p (ptw_at t.old p) }
        ensures word { t.new ≡ slice_set t.old p Null }
        ensures drives { self.new.volumes.drives ≡ self.old.volumes.drives }
    {
        let r = self.record_in(home, p);
        self.unstore(home, p, r);
        let word = t.get(p);
        t.set(p, Ptw::Null);
        match word {
            Ptw::Leaving(f) => self.core.release(f),
            Ptw::Null | Ptw::Out(_) | Ptw::Here(_) => {}
        }
    }

    /// The steps of `new_home`.
    fn ask(&mut self, volume: u32, uid: u32) -> Option<u32>
        requires { volume < length self.old.volumes.drives }
        ensures asked { HasAsked (plain D.pages self.old) (plain D.pages self.new) volume uid result }
        ensures least { result ≡ least_free_entry (vtoc_of (plain D.pages self.old) volume) }
        ensures none { IfNone result (All (λ entry. IsSome entry) (vtoc_of (plain D.pages self.old) volume)) }
        ensures drives { self.new.volumes.drives ≡ self.old.volumes.drives }
    {
        self.volumes.vtoc_mut(volume).allocate(uid)
    }

    /// The steps of `erase`.
    #[tactic(auto, using(crate::proofs::Facts::home_used, std::proofs::lemmas::Grind::common_steps))]
    fn erase_all(&mut self, home: Home)
        requires volume { home.volume < length self.old.volumes.drives }
        requires home { uid_at self.old.volumes.vtocs home ≡ Some (uid_of_home (plain D.pages self.old) home) }
        requires records { AreFiled self.old.volumes.records self.old.volumes.vtocs }
        ensures erased { plain D.pages self.new ≡ erased (plain D.pages self.old) home }
        ensures records { AreFiled self.new.volumes.records self.new.volumes.vtocs }
        ensures taken { taken self.new.volumes.records home.volume + named_on self.old.volumes.vtocs home home.volume
            ≡ taken self.old.volumes.records home.volume }
        ensures core { self.new.core ≡ self.old.core }
        ensures drives { self.new.volumes.drives ≡ self.old.volumes.drives }
    {
        self.give_back_all(home);
        prove!(home.entry < self.volumes.vtoc(home.volume).size());
        self.volumes.vtoc_mut(home.volume).free(home.entry);
    }

    /// The steps of `end_in`.
    #[tactic(auto, using(crate::proofs::Facts::tied_volume, std::proofs::lemmas::Grind::common_steps))]
    fn read_at(
        &mut self,
        t: &mut PageTable,
        uid: u32,
        p: u32,
        home: Home,
        f: u32,
    ) -> Result<(), Failed>
        requires page { p < length t.old }
        requires out { is_out (ptw_at t.old p) ≡ true }
        requires started { frame_at self.old.core f ≡ Started uid p }
        requires tie { IsTied (plain D.pages self.old) uid home t.old }
        ensures read { HasRead (plain D.pages self.old) (plain D.pages self.new) t.old t.new uid home p f result }
        ensures tables { KeepsTables self.old.volumes self.new.volumes }
        ensures drives { CallsDrive D.plan D.places D.faults self.old.volumes.drives self.new.volumes.drives
            home.volume result }
    {
        let r = record_out(t, p);
        prove!(r < self.volumes.size(home.volume));
        match self
            .volumes
            .read_page(home.volume, r, &mut self.frames[f as usize])
        {
            Ok(()) => {
                self.core.bind(f, uid, p);
                t.set(p, Ptw::Here(f));
                Ok(())
            }
            Err(failed) => {
                self.core.lose(f);
                Err(failed)
            }
        }
    }

    /// The steps of `create_page`.
    #[tactic(auto, using(crate::proofs::Facts::page_made, std::proofs::lemmas::Grind::common_steps))]
    fn create_at(
        &mut self,
        t: &mut PageTable,
        uid: u32,
        p: u32,
        home: Home,
        f: u32,
        at: u32,
        w: Word,
    ) -> Result<(), NoRecord>
        requires page { p < length t.old }
        requires pages { length t.old ≤ 256 }
        requires frame { f < length self.old.core.frames }
        requires free { frame_at self.old.core f ≡ Free }
        requires at { at < 1024 }
        requires volume { home.volume < length self.old.volumes.drives }
        requires short { length (flags_of (plain D.pages self.old) home.volume) < 65536 }
        requires home { uid_at self.old.volumes.vtocs home ≡ Some uid }
        ensures created { HasCreated (plain D.pages self.old) (plain D.pages self.new) t.old t.new uid home p f at w
            result }
        ensures drives { self.new.volumes.drives ≡ self.old.volumes.drives }
    {
        match self.volumes.withdraw(home.volume) {
            Some(r) => {
                self.volumes
                    .vtoc_mut(home.volume)
                    .put_file_map(home.entry, p, Some(r));
                self.fill(uid, p, f, at, w);
                t.set(p, Ptw::Here(f));
                Ok(())
            }
            None => Err(NoRecord),
        }
    }

    /// The steps of `rehome`.
    fn rehome_all(&mut self, t: &mut PageTable, uid: u32, home: Home)
        requires pages { length t.old ≤ 256 }
        requires table { IsTableOf (bindings self.old.core) uid t.old }
        requires home { IsHomeFor (plain D.pages self.old) uid home t.old }
        ensures effect { self.new ≡ record self.old { core = all_modified self.old.core uid } }
        ensures rehomed { t.new ≡ rehomed t.old (map_at self.old.volumes.vtocs home) }
    {
        mark_all(&mut self.core, t, uid);
        rename(t, self.volumes.vtoc(home.volume), home.entry);
    }

    /// The steps of `evict`.
    #[tactic(auto, using(crate::proofs::Facts::page_leaves, std::proofs::lemmas::Grind::common_steps))]
    fn leave(&mut self, t: &mut PageTable, home: Home, f: u32) -> Result<Left, Failed>
        requires bound { is_bound (frame_at self.old.core f) ≡ true }
        requires leaving { ptw_at t.old (number_in (frame_at self.old.core f)) ≡ Leaving f }
        requires tie { IsTied (plain D.pages self.old) (uid_in (frame_at self.old.core f)) home t.old }
        ensures left { HasLeft (plain D.pages self.old) (plain D.pages self.new) t.old t.new home
            (number_in (frame_at self.old.core f)) f result }
        ensures no_call { NeedsNoWrite (plain D.pages self.old) f
            → IsOk result × (self.new.volumes.drives ≡ self.old.volumes.drives) }
        ensures drives { CallsDrive D.plan D.places D.faults self.old.volumes.drives self.new.volumes.drives
            home.volume result }
    {
        let p = self.page_in(f);
        let r = self.record_in(home, p);
        if self.is_zero(f) {
            self.unstore(home, p, r);
            self.core.release(f);
            t.set(p, Ptw::Null);
            return Ok(Left::Released);
        }
        if let Err(failed) = self.save(f, home.volume, r) {
            return Err(failed);
        }
        self.core.release(f);
        t.set(p, Ptw::Out(r));
        Ok(Left::Kept)
    }

    /// Binds the free frame `f` to page `p` of segment `uid`, all zeros but word `at`, which becomes `w`. Both marks
    /// are on then.
    #[tactic(auto, using(crate::proofs::Facts::frame_filled, std::proofs::lemmas::Grind::common_steps))]
    fn fill(&mut self, uid: u32, p: u32, f: u32, at: u32, w: Word)
        requires frame { f < length self.old.core.frames }
        requires free { frame_at self.old.core f ≡ Free }
        requires at { at < 1024 }
        ensures filled { plain D.pages self.new ≡ filled (plain D.pages self.old) uid p f at w }
        ensures core { self.new.core ≡ with_frame self.old.core f (Bound uid p true true) }
        ensures volumes { self.new.volumes ≡ self.old.volumes }
    {
        self.core.bind(f, uid, p);
        self.core.mark(f, true);
        let page = &mut self.frames[f as usize];
        page.clear_from(0);
        page.set(at, w);
    }

    /// The number of the page that the bound frame `f` has.
    fn page_in(&self, f: u32) -> u32
        requires { is_bound (frame_at self.now.core f) ≡ true }
        ensures { result ≡ number_in (frame_at self.now.core f) }
    {
        match self.core.page_of(f) {
            Some((_, p)) => p,
            None => unreachable!(),
        }
    }

    /// The record of page `p` at a home.
    #[tactic(auto, using(crate::proofs::Facts::record_within, std::proofs::lemmas::Grind::common_steps))]
    fn record_in(&self, home: Home, p: u32) -> u32
        requires page { p < 256 }
        requires volume { home.volume < length self.now.volumes.drives }
        requires used { IsSome (entry_of (plain D.pages self.now) home) }
        requires filed { filed (plain D.pages self.now) home p ≡ Some (record_of (plain D.pages self.now) home p) }
        requires records { AreFiled self.now.volumes.records self.now.volumes.vtocs }
        ensures record { result ≡ record_of (plain D.pages self.now) home p }
        ensures within { result < length (disk_of (plain D.pages self.now) home.volume) }
    {
        match self.volumes.vtoc(home.volume).file_map(home.entry, p) {
            Some(r) => {
                prove!(r < self.volumes.size(home.volume));
                r
            }
            None => unreachable!(),
        }
    }

    /// Gives back the record of each page at a home that has one.
    #[tactic(auto, using(crate::proofs::Facts::home_used, std::proofs::lemmas::Grind::common_steps))]
    fn give_back_all(&mut self, home: Home)
        requires volume { home.volume < length self.old.volumes.drives }
        requires home { uid_at self.old.volumes.vtocs home ≡ Some (uid_of_home (plain D.pages self.old) home) }
        requires records { AreFiled self.old.volumes.records self.old.volumes.vtocs }
        ensures part { IsPartErased (plain D.pages self.old) (plain D.pages self.new)
            (uid_of_home (plain D.pages self.old) home) home 256 }
        ensures core { self.new.core ≡ self.old.core }
        ensures drives { self.new.volumes.drives ≡ self.old.volumes.drives }
    {
        if self.volumes.vtoc(home.volume).names_none(home.entry) {
            return;
        }
        for p in 0..256 {
            self.give_back(home, p);
        }
    }

    /// Gives back the record of page `p` at a home, if it has one.
    #[tactic(auto, using(laws::proofs::Options::some_unwrapped, std::proofs::lemmas::Grind::common_steps))]
    fn give_back(&mut self, home: Home, p: u32)
        requires page { p < 256 }
        requires volume { home.volume < length self.old.volumes.drives }
        requires used { IsSome (entry_of (plain D.pages self.old) home) }
        requires records { AreFiled self.old.volumes.records self.old.volumes.vtocs }
        ensures part { (old : Plain) (uid : ℕ) → IsPartErased old (plain D.pages self.old) uid home p
            → IsPartErased old (plain D.pages self.new) uid home (p + 1) }
        ensures core { self.new.core ≡ self.old.core }
        ensures drives { self.new.volumes.drives ≡ self.old.volumes.drives }
    {
        if let Some(r) = self.volumes.vtoc(home.volume).file_map(home.entry, p) {
            self.unstore(home, p, r);
        }
    }

    /// Gives back record `r`, which page `p` at a home has.
    #[tactic(auto, using(crate::proofs::Facts::record_filed, std::proofs::lemmas::Grind::common_steps))]
    fn unstore(&mut self, home: Home, p: u32, r: u32)
        requires page { p < 256 }
        requires volume { home.volume < length self.old.volumes.drives }
        requires used { IsSome (entry_of (plain D.pages self.old) home) }
        requires filed { filed (plain D.pages self.old) home p ≡ Some r }
        requires records { AreFiled self.old.volumes.records self.old.volumes.vtocs }
        ensures unstored { plain D.pages self.new ≡ unstored (plain D.pages self.old) home p }
        ensures core { self.new.core ≡ self.old.core }
        ensures frames { self.new.frames ≡ self.old.frames }
        ensures drives { self.new.volumes.drives ≡ self.old.volumes.drives }
    {
        self.volumes.deposit(home.volume, r);
        self.volumes
            .vtoc_mut(home.volume)
            .put_file_map(home.entry, p, None);
    }

    /// Writes the page in the bound frame `f` to record `r` of a volume where its modified mark is on.
    #[tactic(auto, using(std::proofs::lemmas::Grind::common_steps))]
    fn save(&mut self, f: u32, volume: u32, r: u32) -> Result<(), Failed>
        requires bound { is_bound (frame_at self.old.core f) ≡ true }
        requires volume { volume < length self.old.volumes.drives }
        requires record { r < length (disk_of (plain D.pages self.old) volume) }
        ensures ok { OnOk result (plain D.pages self.new ≡ saved (plain D.pages self.old) f volume r) }
        ensures err { OnErr result (plain D.pages self.new ≡ plain D.pages self.old) }
        ensures sure { is_modified (frame_at self.old.core f) ≡ false → IsOk result }
        ensures no_call { is_modified (frame_at self.old.core f) ≡ false
            → self.new.volumes.drives ≡ self.old.volumes.drives }
        ensures drives { CallsDrive D.plan D.places D.faults self.old.volumes.drives self.new.volumes.drives
            volume result }
    {
        if self.core.modified(f) {
            self.volumes
                .write_page(volume, r, &self.frames[f as usize])?;
        }
        Ok(())
    }
}

/// The record that the word of page `p` names.
fn record_out(t: &PageTable, p: u32) -> u32
    requires page { p < length t.now }
    requires out { is_out (ptw_at t.now p) ≡ true }
    ensures { ptw_at t.now p ≡ Out result }
{
    match t.get(p) {
        Ptw::Out(r) => r,
        Ptw::Null | Ptw::Here(_) | Ptw::Leaving(_) => unreachable!(),
    }
}

/// Turns the modified marks of the frames of segment `uid` on, which are those that its page table names. The uid is
/// for the contract alone.
fn mark_all(core: &mut CoreMap, t: &PageTable, uid: u32)
    requires { IsTableOf (bindings core.old) uid t.now }
    ensures { core.new ≡ all_modified core.old uid }
{
    for p in 0..t.size() {
        match t.get(p) {
            Ptw::Here(f) | Ptw::Leaving(f) => core.changed(f),
            Ptw::Null | Ptw::Out(_) => {}
        }
    }
}

/// Makes each word that is `Out` name the record that the file map of a used entry names for its page, if it names one.
fn rename(t: &mut PageTable, vtoc: &Vtoc, entry: u32)
    requires pages { length t.old ≤ 256 }
    requires used { IsSome (entry_at vtoc.now entry) }
    ensures { t.new ≡ rehomed t.old (records_in (entry_at vtoc.now entry)) }
{
    for p in 0..t.size() {
        if let (Ptw::Out(_), Some(r)) = (t.get(p), vtoc.file_map(entry, p)) {
            t.set(p, Ptw::Out(r));
        }
    }
}
