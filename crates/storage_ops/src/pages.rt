//! The calls of segment control that leave what is stored as it is.

ghost use Rattle.std.specs.Prelude.{◌≡◌, ◌<◌, ◌+◌, ◌*◌, ℕ, All, IsSome, OnOk, OnErr, None, Some, [], true, false};
ghost use Rattle.std.specs.Prelude.{length, slice_index, slice_set};
ghost use Rattle.std.specs.List.{list_any};
ghost use Rattle.core_map.specs.declared.Frame.TheVariants.{Free, Started};
ghost use Rattle.core_map.specs.CoreMap.{frame_at, is_bound, reads_of};
ghost use Rattle.core_map.specs.Clock.{IsClockChoice, after_choice, clock_choice};
ghost use Rattle.page_table.specs.declared.Ptw.TheVariants.{Here, Leaving, Null};
ghost use Rattle.active_segs.specs.Active.{HasNoInferior, IsActive, IsAway, deactivated, table_at};
ghost use Rattle.trailers.specs.Trailer.{trailers_of};
ghost use Rattle.seg_control.specs.Kept.{IsHomeFor, IsNotRead};
ghost use Rattle.page_control.specs.Counts.{KeepsCounts};
ghost use Rattle.page_control.specs.Plain.{bindings, number_in, plain, words_in};
ghost use Rattle.page_control.specs.Effects.{after_read, framed, referred, word_put};
ghost use Rattle.page_control.specs.Picture.{KeepsWords, changed_page, words_at};
ghost use Rattle.page_control.specs.Drives.{CallsDrive};
ghost use Rattle.volumes.specs.Volumes.{KeepsTables};
ghost use Rattle.page_control.specs.Tied.{IsNotStarted, has_record, is_out, uid_in};
ghost use Rattle.seg_control.specs.Control.{leads_at, table_of, word_of};
ghost use Rattle.seg_control.specs.Effects.{all_cut, all_taken, cut_one, table_here, worded};
ghost use Rattle.script.specs.Plans.{Plan};
ghost use Rattle.flat_model.specs.Pages.{is_stored};
ghost use Rattle.flat_model.specs.References.{written};
ghost use Rattle.flat_model.specs.Store.{Store as Flat};
ghost use Rattle.storage_ops.specs.Shown.{Shows, pages_in};

use crate::store::{Store, look};
use mword::Word;
use page_control::Home;
use page_table::Ptw;
use site_io::Failed;
use volumes::Drive;

impl<D: Drive> Store<D> {
    /// The frame that the clock chooses among the bound ones, of which there is one. What is shown stays. (Source:
    /// Corbató 1968.)
    pub fn choose(&mut self) -> u32
        requires { list_any is_bound self.old.segs.pages.core.frames ≡ true }
        ensures choice { IsClockChoice self.old.segs.pages.core self.new.segs.pages.core result }
        ensures chosen { clock_choice self.old.segs.pages.core ≡ Some result }
        ensures effect { self.new ≡ record self.old {
          segs = record self.old.segs {
            pages = record self.old.segs.pages { core = after_choice self.old.segs.pages.core result };
          };
        } }
        ensures bound { is_bound (frame_at self.new.segs.pages.core result) ≡ true }
        ensures words { words_at (plain D.pages self.new.segs.pages) ≡ words_at (plain D.pages self.old.segs.pages) }
        ensures bindings { bindings self.new.segs.pages.core ≡ bindings self.old.segs.pages.core }
        ensures reads { reads_of self.new.segs.pages.core ≡ reads_of self.old.segs.pages.core }
        ensures shown { (p : Plan) (s : Flat) → Shows D.pages p s self.old → Shows D.pages p s self.new }
    {
        self.segs.choose()
    }

    /// Reads word `at` through the bound frame `f`, whose used mark is on then: the word of what is shown, which stays.
    /// (Source: Bensoussan, Clingen and Daley 1972.)
    pub fn word(&mut self, f: u32, at: u32) -> Word
        requires bound { is_bound (frame_at self.old.segs.pages.core f) ≡ true }
        requires at { at < 1024 }
        ensures word { result ≡ slice_index (words_in (plain D.pages self.old.segs.pages) f) at }
        ensures marks { plain D.pages self.new.segs.pages ≡ referred (plain D.pages self.old.segs.pages) f false }
        ensures words { words_at (plain D.pages self.new.segs.pages) ≡ words_at (plain D.pages self.old.segs.pages) }
        ensures rest { self.new ≡ record self.old { segs = record self.old.segs { pages = self.new.segs.pages } } }
        ensures bindings { bindings self.new.segs.pages.core ≡ bindings self.old.segs.pages.core }
        ensures reads { reads_of self.new.segs.pages.core ≡ reads_of self.old.segs.pages.core }
        ensures volumes { self.new.segs.pages.volumes ≡ self.old.segs.pages.volumes }
        ensures told { (p : Plan) (s : Flat) → Shows D.pages p s self.old
            → result ≡ s.words (uid_in (frame_at self.old.segs.pages.core f))
            (1024 * number_in (frame_at self.old.segs.pages.core f) + at) }
        ensures shown { (p : Plan) (s : Flat) → Shows D.pages p s self.old → Shows D.pages p s self.new }
    {
        look(&self.segs);
        self.segs.word(f, at)
    }

    /// The word of page `p` of an active segment, which tells where the page is. A page whose word is `Null` isn't
    /// stored in what is shown, and is all zeros there; every other is stored. (Source: Bensoussan, Clingen and Daley
    /// 1972.)
    pub fn look(&self, uid: u32, p: u32) -> Ptw
        requires active { IsActive self.now.segs.ast.entries uid }
        requires page { p < pages_in self.now.accounts.nodes uid }
        ensures word { result ≡ word_of self.now.segs.ast uid p }
        ensures stored { (plan : Plan) (s : Flat) → Shows D.pages plan s self.now
            → is_stored s.stored uid p ≡ has_record result }
        ensures zeros { (plan : Plan) (s : Flat) → Shows D.pages plan s self.now → result ≡ Null → (at : ℕ) → at < 1024
            → s.words uid (1024 * p + at) ≡ 0 }
    {
        look(&self.segs);
        let ast = self.segs.ast();
        match ast.search(uid) {
            Some(place) => ast.table(place).get(p),
            None => unreachable!(),
        }
    }

    /// Writes `w` at word `at` through the bound frame `f`, whose marks are both on then. That word of what is shown is
    /// written, and all else stays: its page is stored already. (Source: Bensoussan, Clingen and Daley 1972.)
    pub fn put_word(&mut self, f: u32, at: u32, w: Word)
        requires bound { is_bound (frame_at self.old.segs.pages.core f) ≡ true }
        requires at { at < 1024 }
        ensures word { plain D.pages self.new.segs.pages ≡ word_put (plain D.pages self.old.segs.pages) f at w }
        ensures words { words_at (plain D.pages self.new.segs.pages) ≡ changed_page
            (words_at (plain D.pages self.old.segs.pages)) (uid_in (frame_at self.old.segs.pages.core f))
            (number_in (frame_at self.old.segs.pages.core f))
            (slice_set (words_in (plain D.pages self.old.segs.pages) f) at w) }
        ensures rest { self.new ≡ record self.old { segs = record self.old.segs { pages = self.new.segs.pages } } }
        ensures bindings { bindings self.new.segs.pages.core ≡ bindings self.old.segs.pages.core }
        ensures reads { reads_of self.new.segs.pages.core ≡ reads_of self.old.segs.pages.core }
        ensures volumes { self.new.segs.pages.volumes ≡ self.old.segs.pages.volumes }
        ensures shown { (p : Plan) (s : Flat) → Shows D.pages p s self.old
            → Shows D.pages p (written s (uid_in (frame_at self.old.segs.pages.core f))
            (1024 * number_in (frame_at self.old.segs.pages.core f) + at) w) self.new }
    {
        look(&self.segs);
        self.segs.put_word(f, at, w);
    }

    /// Notes that page `p` of an active segment, which is on its record alone, is being read into the free frame `f`.
    /// What is shown stays. (Source: own.)
    pub fn start_in(&mut self, uid: u32, p: u32, f: u32)
        requires still { self.old.segs.moving ≡ None }
        requires active { IsActive self.old.segs.ast.entries uid }
        requires page { p < length (table_of self.old.segs.ast uid) }
        requires out { is_out (word_of self.old.segs.ast uid p) ≡ true }
        requires frame { f < length self.old.segs.pages.core.frames }
        requires free { frame_at self.old.segs.pages.core f ≡ Free }
        requires first { IsNotStarted self.old.segs.pages.core uid p }
        ensures started { plain D.pages self.new.segs.pages
            ≡ framed (plain D.pages self.old.segs.pages) f (Started uid p) }
        ensures words { words_at (plain D.pages self.new.segs.pages) ≡ words_at (plain D.pages self.old.segs.pages) }
        ensures rest { self.new ≡ record self.old { segs = record self.old.segs { pages = self.new.segs.pages } } }
        ensures bindings { bindings self.new.segs.pages.core ≡ bindings self.old.segs.pages.core }
        ensures reads { reads_of self.new.segs.pages.core
            ≡ slice_set (reads_of self.old.segs.pages.core) f (Some (uid, p)) }
        ensures volumes { self.new.segs.pages.volumes ≡ self.old.segs.pages.volumes }
        ensures shown { (plan : Plan) (s : Flat) → Shows D.pages plan s self.old → Shows D.pages plan s self.new }
    {
        self.segs.start_in(uid, p, f);
    }

    /// Lets no more references go through the word of the page in frame `f`, which is on its way out from now on. What
    /// is shown stays. (Source: own.)
    pub fn take(&mut self, uid: u32, f: u32)
        requires still { self.old.segs.moving ≡ None }
        requires active { IsActive self.old.segs.ast.entries uid }
        requires bound { is_bound (frame_at self.old.segs.pages.core f) ≡ true }
        requires own { uid_in (frame_at self.old.segs.pages.core f) ≡ uid }
        requires here { word_of self.old.segs.ast uid (number_in (frame_at self.old.segs.pages.core f)) ≡ Here f }
        ensures effect { self.new ≡ record self.old {
          segs = record self.old.segs {
            ast = worded self.old.segs.ast uid (number_in (frame_at self.old.segs.pages.core f)) (Leaving f);
          };
        } }
        ensures shown { (p : Plan) (s : Flat) → Shows D.pages p s self.old → Shows D.pages p s self.new }
    {
        self.segs.take(uid, f);
    }

    /// Lets references go through the word of the page in frame `f` again, which was on its way out. What is shown
    /// stays. (Source: own.)
    pub fn back(&mut self, uid: u32, f: u32)
        requires still { self.old.segs.moving ≡ None }
        requires active { IsActive self.old.segs.ast.entries uid }
        requires bound { is_bound (frame_at self.old.segs.pages.core f) ≡ true }
        requires own { uid_in (frame_at self.old.segs.pages.core f) ≡ uid }
        requires leaving { word_of self.old.segs.ast uid (number_in (frame_at self.old.segs.pages.core f))
            ≡ Leaving f }
        ensures effect { self.new ≡ record self.old {
          segs = record self.old.segs {
            ast = worded self.old.segs.ast uid (number_in (frame_at self.old.segs.pages.core f)) (Here f);
          };
        } }
        ensures shown { (p : Plan) (s : Flat) → Shows D.pages p s self.old → Shows D.pages p s self.new }
    {
        self.segs.back(uid, f);
    }

    /// Lets no more references go through the words of those pages of a place that are in a frame and have number
    /// `from` or above. What is shown stays. It looks at each word from there on. (Source: own.)
    pub fn take_all(&mut self, aste: u32, from: u32)
        requires still { self.old.segs.moving ≡ None }
        requires place { aste < length self.old.segs.ast.entries }
        ensures effect { self.new ≡ record self.old {
          segs = record self.old.segs {
            ast = all_taken self.old.segs.ast aste from;
          };
        } }
        ensures shown { (p : Plan) (s : Flat) → Shows D.pages p s self.old → Shows D.pages p s self.new }
    {
        self.segs.take_all(aste, from);
    }

    /// Cuts one connected descriptor, and takes its trailer out. What is shown stays. (Source: Bensoussan, Clingen and
    /// Daley 1972.)
    pub fn cut_one(&mut self, process: u32, number: u32)
        requires process { process < length self.old.segs.links.known }
        requires connected { IsSome (leads_at self.old.segs.links.descriptors process number) }
        ensures effect { self.new ≡ record self.old {
          segs = record self.old.segs {
            links = cut_one self.old.segs.links process number;
          };
        } }
        ensures shown { (p : Plan) (s : Flat) → Shows D.pages p s self.old → Shows D.pages p s self.new }
    {
        self.segs.cut_one(process, number);
    }

    /// Cuts every descriptor that leads to a place. What is shown stays. It goes through the trailers of that place
    /// alone. (Source: Bensoussan, Clingen and Daley 1972; Organick 1972.)
    pub fn cut_all(&mut self, aste: u32)
        requires { aste < length self.old.segs.ast.entries }
        ensures effect { self.new ≡ record self.old {
          segs = record self.old.segs {
            links = all_cut self.old.segs.links aste;
          };
        } }
        ensures shown { (p : Plan) (s : Flat) → Shows D.pages p s self.old → Shows D.pages p s self.new }
    {
        self.segs.cut_all(aste);
    }

    /// Makes the segment of a place inactive. No active segment is below it, no page of it is in a frame, on its way
    /// out or being read, and no descriptor leads there. What is shown stays. (Source: Bensoussan, Clingen and Daley
    /// 1972; Organick 1972.)
    pub fn deactivate(&mut self, place: u32)
        requires still { self.old.segs.moving ≡ None }
        requires place { place < length self.old.segs.ast.entries }
        requires leaf { HasNoInferior self.old.segs.ast.entries place }
        requires away { All IsAway (table_at self.old.segs.ast.tables place) }
        requires idle { IsNotRead self.old.segs.pages.core self.old.segs.ast.entries place }
        requires cut { trailers_of self.old.segs.links.trailers place ≡ [] }
        ensures effect { self.new ≡ record self.old {
          segs = record self.old.segs {
            ast = deactivated self.old.segs.ast place;
          };
        } }
        ensures shown { (p : Plan) (s : Flat) → Shows D.pages p s self.old → Shows D.pages p s self.new }
    {
        self.segs.deactivate(place);
    }

    /// Reads page `p` of an active segment into the frame `f` that was started for it, and binds the frame to it. What
    /// is shown stays. It costs one read of the drive. (Source: Bensoussan, Clingen and Daley 1972.)
    ///
    /// # Errors
    /// `Failed` only where the faults of its drive rose; `f` is free then, and the rest as before.
    pub fn end_in(&mut self, uid: u32, p: u32, home: Home, f: u32) -> Result<(), Failed>
        requires active { IsActive self.old.segs.ast.entries uid }
        requires page { p < length (table_of self.old.segs.ast uid) }
        requires started { frame_at self.old.segs.pages.core f ≡ Started uid p }
        requires home { IsHomeFor (plain D.pages self.old.segs.pages) uid home (table_of self.old.segs.ast uid) }
        ensures effect { plain D.pages self.new.segs.pages
            ≡ after_read (plain D.pages self.old.segs.pages) uid p home f result }
        ensures word { self.new.segs.ast ≡ table_here self.old.segs.ast uid p f result }
        ensures words { KeepsWords (plain D.pages self.old.segs.pages) (plain D.pages self.new.segs.pages) uid home }
        ensures rest { self.new ≡ record self.old {
          segs = record self.old.segs {
            pages = self.new.segs.pages;
            ast = self.new.segs.ast;
          };
        } }
        ensures bound { OnOk result (bindings self.new.segs.pages.core
            ≡ slice_set (bindings self.old.segs.pages.core) f (Some (uid, p))) }
        ensures lost { OnErr result (bindings self.new.segs.pages.core ≡ bindings self.old.segs.pages.core) }
        ensures reads { reads_of self.new.segs.pages.core ≡ slice_set (reads_of self.old.segs.pages.core) f None }
        ensures counts { KeepsCounts (plain D.pages self.old.segs.pages) (plain D.pages self.new.segs.pages) }
        ensures tables { KeepsTables self.old.segs.pages.volumes self.new.segs.pages.volumes }
        ensures drives { CallsDrive D.plan D.places D.faults self.old.segs.pages.volumes.drives
            self.new.segs.pages.volumes.drives home.volume result }
        ensures shown { (plan : Plan) (s : Flat) → Shows D.pages plan s self.old → Shows D.pages plan s self.new }
    {
        self.segs.end_in(uid, p, home, f)
    }
}
