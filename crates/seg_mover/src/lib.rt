//! The segment mover: a segment moves from one volume to another where its own has no free record.
//!
//! A move begins with a second home on the new volume, whose file map names a record for exactly the pages that the old
//! one names (`Mover::begin`). Page after page is copied then (`copy_next`). Last the old home is given up (`commit`),
//! or, where the move can't be done, the new one (`undo`). Volumes, records and file maps are of Multics (Organick
//! 1972); the steps of a move are own.
//!
//! A home is a volume and an entry of its VTOC, as a pair. Pages have 1024 words, and a segment has at most 256 of
//! them; a record is the place of one page.
//!
//! Costs: `begin` reads the 256 places of one file map, and takes a record for each page that it names. `copy_next`
//! reads places up to the page that it copies, and costs one read and one write of a drive. `commit` and `undo` read
//! 256 places and give a record back for each page. No call takes memory.
#![tactic(auto)]

ghost use Rattle.std.specs.Prelude.{◌≡◌, ◌≢◌, ◌<◌, ◌+◌, ◌^◌, ℕ, true, false, List, [], Option, None, Some, Ok, length};
ghost use Rattle.std.specs.Prelude.{map, is_some, count_by, slice_index_or, IsSome, IfOk, IfSome, OnOk, OnErr};
ghost use Rattle.bitmap.specs.Bitmap.{least_free};
ghost use Rattle.vtoc.specs.Vtoc.{IsLeastFreeEntry};
ghost use Rattle.volumes.specs.Volumes.{Vols, records_at, used_at, vtoc_at, pages_at, with_page, KeepsTables};
ghost use Rattle.seg_mover.specs.Homes.{entry_of, uid_at, map_at, place_at, words_of};
ghost use Rattle.seg_mover.specs.Records.{AreKept, AddsRecords};
ghost use Rattle.seg_mover.specs.Moves.{begun, mover_for, entry_for, given_back, committed, undone};
ghost use Rattle.seg_mover.specs.Moves.{CanBegin, IsMoving, KeepsOthersThan};
ghost use Rattle.seg_mover.specs.Copies.{page_to_copy, is_to_copy, IsLeastToCopy, copied, after_copy, moved_on};
ghost use Rattle.seg_mover.specs.Copies.{HasCopied, AreCopied, CallsDrives};
ghost use Rattle.seg_mover.specs.Steps.{page_stored, page_given, entry_taken};

use mword::Page;
use site_io::Failed;
use volumes::{Drive, Volumes};

/// How many pages a segment has at most.
const PAGES: u32 = 256;

/// A segment that is on its way to another volume, with a home on each of the two. A home is the number of a volume and
/// that of an entry of its VTOC. (Source: own.)
#[derive(Clone, Copy, PartialEq, Eq)]
pub struct Mover {
    /// The segment.
    pub uid: u32,
    /// Its old home.
    pub from: (u32, u32),
    /// Its new home.
    pub to: (u32, u32),
    /// The first page that `copy_next` looks at: those before it are copied, or were skipped.
    pub next: u32,
}

impl Mover {
    /// Begins to move segment `uid` from its home to volume `to`: takes the least free entry there, and for each page
    /// that the old file map names, in order of page, the least free record.
    ///
    /// It asks that the volume is another, with a free entry and as many free records as the old file map names, and
    /// with fewer than 65,536 in all. It reads the 256 places of one file map, and calls no drive. (Source: own.)
    pub fn begin<D: Drive>(v: &mut Volumes<D>, uid: u32, from: (u32, u32), to: u32) -> Mover
        requires { CanBegin v.old uid from to }
        ensures begun { v.new ≡ begun v.old uid from to }
        ensures mover { result ≡ mover_for v.old uid from to }
        ensures least { IsLeastFreeEntry (vtoc_at v.old to) result.to.1 }
        ensures uid { uid_at v.new result.to ≡ Some uid }
        ensures same { (p : ℕ) → is_some (place_at v.new result.to p) ≡ is_some (place_at v.new from p) }

        // What becomes of the volumes.
        ensures adds { AddsRecords (records_at v.old to) (records_at v.new to) (map_at v.new result.to) }
        ensures taken { used_at v.new to ≡ used_at v.old to + count_by is_some (map_at v.old from) }
        ensures entries { count_by is_some (vtoc_at v.new to) ≡ count_by is_some (vtoc_at v.old to) + 1 }
        ensures others { KeepsOthersThan v.old v.new result.to }
        ensures moving { AreKept (records_at v.old from.0) (map_at v.old from) → IsMoving v.new result }
        ensures back { (then : Vols D) → KeepsTables v.new then → KeepsTables v.old (undone then result) }
    {
        v.promise();
        let entry = take_home(v, uid, from, to);
        Mover {
            uid,
            from,
            to: (to, entry),
            next: 0,
        }
    }

    /// Copies the next page: the least one from `next` on that the file maps name and that `skip`, of 256 places,
    /// doesn't say to leave out. It is read from its old record into `spare` and written to its new one; true is
    /// answered, and `next` is past it. False exactly where there is no such page: nothing has changed then, and no
    /// drive was called.
    ///
    /// `Failed` is the failure of one of the two drives, which that drive alone has counted. No page of a drive and not
    /// `next` has changed then, and `spare` may hold the page that was read. It costs a read of the one drive and a
    /// write of the other. (Source: own.)
    pub fn copy_next<D: Drive>(
        &mut self,
        v: &mut Volumes<D>,
        skip: &[bool],
        spare: &mut Page,
    ) -> Result<bool, Failed>
        requires moving { IsMoving v.old self.old }
        requires skip { length skip.now ≡ 256 }
        ensures answer { IfOk result (λ some. some ≡ is_some (page_to_copy v.old self.old skip.now)) }
        ensures mover { self.new ≡ moved_on self.old (page_to_copy v.old self.old skip.now) result }
        ensures pages { map D.pages v.new.drives ≡ after_copy (map D.pages v.old.drives) v.old self.old
            (page_to_copy v.old self.old skip.now) result }
        ensures least { IfSome (page_to_copy v.old self.old skip.now)
            (λ p. IsLeastToCopy (map_at v.old self.old.from) skip.now self.old.next p) }
        ensures idle { page_to_copy v.old self.old skip.now ≡ None
            → (result ≡ Ok false) × (v.new ≡ v.old) × (spare.new ≡ spare.old) }

        // What becomes of the words.
        ensures words { (p : ℕ) → page_to_copy v.old self.old skip.now ≡ Some p
            → OnOk result (words_of D.pages v.new self.old.to p ≡ words_of D.pages v.old self.old.from p) }
        ensures others { (p : ℕ) → page_to_copy v.old self.old skip.now ≢ Some p
            → words_of D.pages v.new self.old.to p ≡ words_of D.pages v.old self.old.to p }
        ensures source { pages_at D.pages v.new self.old.from.0 ≡ pages_at D.pages v.old self.old.from.0 }
        ensures copied { AreCopied D.pages v.old self.old skip.now → AreCopied D.pages v.new self.new skip.now }
        ensures all { result ≡ Ok false → AreCopied D.pages v.old self.old skip.now
            → (p : ℕ) → p < 256 → is_to_copy (map_at v.new self.new.from) skip.now p ≡ true
            → words_of D.pages v.new self.new.to p ≡ words_of D.pages v.new self.new.from p }

        // What becomes of the rest.
        ensures tables { KeepsTables v.old v.new }
        ensures drives { CallsDrives D.plan D.places D.faults v.old.drives v.new.drives self.old.from.0 self.old.to.0
            result }
        ensures moving { IsMoving v.new self.new }
    {
        v.promise();
        self.copy_step(v, skip, spare)
    }

    /// Ends the move: gives the records of the old home and its entry back, and answers the new home. It reads the 256
    /// places of one file map, and calls no drive. (Source: own.)
    pub fn commit<D: Drive>(self, v: &mut Volumes<D>) -> (u32, u32)
        requires { IsMoving v.old self }
        ensures committed { v.new ≡ committed v.old self }
        ensures home { result ≡ self.to }
        ensures free { entry_of v.new self.from ≡ None }

        // What becomes of the volumes.
        ensures gives { AddsRecords (records_at v.new self.from.0) (records_at v.old self.from.0)
            (map_at v.old self.from) }
        ensures taken { used_at v.new self.from.0 + count_by is_some (map_at v.old self.from)
            ≡ used_at v.old self.from.0 }
        ensures entries { count_by is_some (vtoc_at v.new self.from.0) + 1
            ≡ count_by is_some (vtoc_at v.old self.from.0) }
        ensures others { KeepsOthersThan v.old v.new self.from }
    {
        v.promise();
        give_back(v, self.from);
        self.to
    }

    /// Gives the move up: gives the records of the new home and its entry back. After `begin` and copies, records and
    /// VTOCs are those of before `begin` (its clause `back`). It reads the 256 places of one file map, and calls no
    /// drive. (Source: own.)
    pub fn undo<D: Drive>(self, v: &mut Volumes<D>)
        requires { IsMoving v.old self }
        ensures undone { v.new ≡ undone v.old self }
        ensures free { entry_of v.new self.to ≡ None }

        // What becomes of the volumes.
        ensures gives { AddsRecords (records_at v.new self.to.0) (records_at v.old self.to.0) (map_at v.old self.to) }
        ensures taken { used_at v.new self.to.0 + count_by is_some (map_at v.old self.to) ≡ used_at v.old self.to.0 }
        ensures entries { count_by is_some (vtoc_at v.new self.to.0) + 1 ≡ count_by is_some (vtoc_at v.old self.to.0) }
        ensures others { KeepsOthersThan v.old v.new self.to }
    {
        v.promise();
        give_back(v, self.to);
    }

    /// The steps of `copy_next`.
    fn copy_step<D: Drive>(
        &mut self,
        v: &mut Volumes<D>,
        skip: &[bool],
        spare: &mut Page,
    ) -> Result<bool, Failed>
        requires moving { IsMoving v.old self.old }
        requires skip { length skip.now ≡ 256 }
        ensures copied { HasCopied (map D.pages v.old.drives) (map D.pages v.new.drives) v.old self.old self.new
            (page_to_copy v.old self.old skip.now) result }
        ensures idle { page_to_copy v.old self.old skip.now ≡ None
            → (result ≡ Ok false) × (v.new ≡ v.old) × (spare.new ≡ spare.old) }
        ensures tables { KeepsTables v.old v.new }
        ensures drives { CallsDrives D.plan D.places D.faults v.old.drives v.new.drives self.old.from.0 self.old.to.0
            result }
    {
        let Some(p) = self.page_to_copy(v, skip) else {
            return Ok(false);
        };
        self.copy_page(v, p, spare)?;
        self.next = p + 1;
        Ok(true)
    }

    /// The page that is copied next.
    fn page_to_copy<D: Drive>(&self, v: &Volumes<D>, skip: &[bool]) -> Option<u32>
        requires volume { self.now.from.0 < length v.now.drives }
        requires used { IsSome (entry_of v.now self.now.from) }
        requires skip { length skip.now ≡ 256 }
        ensures { result ≡ page_to_copy v.now self.now skip.now }
    {
        for p in self.next..PAGES {
            if self.is_to_copy(v, skip, p) {
                return Some(p);
            }
        }
        None
    }

    /// Whether page `p` has a record, and isn't to be skipped.
    fn is_to_copy<D: Drive>(&self, v: &Volumes<D>, skip: &[bool], p: u32) -> bool
        requires volume { self.now.from.0 < length v.now.drives }
        requires used { IsSome (entry_of v.now self.now.from) }
        requires skip { length skip.now ≡ 256 }
        requires page { p < 256 }
        ensures { result ≡ is_to_copy (map_at v.now self.now.from) skip.now p }
    {
        v.vtoc(self.from.0).file_map(self.from.1, p).is_some() && !skip[p as usize]
    }

    /// Copies page `p`, which the file maps name.
    fn copy_page<D: Drive>(
        &self,
        v: &mut Volumes<D>,
        p: u32,
        spare: &mut Page,
    ) -> Result<(), Failed>
        requires moving { IsMoving v.old self.now }
        requires page { p < 256 }
        requires named { IsSome (place_at v.old self.now.from p) }
        ensures ok { OnOk result
            (map D.pages v.new.drives ≡ copied (map D.pages v.old.drives) v.old self.now p) }
        ensures err { OnErr result (map D.pages v.new.drives ≡ map D.pages v.old.drives) }
        ensures tables { KeepsTables v.old v.new }
        ensures drives { CallsDrives D.plan D.places D.faults v.old.drives v.new.drives self.now.from.0 self.now.to.0
            result }
    {
        let from = record_of(v, self.from, p);
        let to = record_of(v, self.to, p);
        copy_record(v, (self.from.0, from), (self.to.0, to), spare)
    }
}

/// Takes an entry of volume `to` for segment `uid`, and a record for each page that the file map at `from` names.
fn take_home<D: Drive>(v: &mut Volumes<D>, uid: u32, from: (u32, u32), to: u32) -> u32
    requires { CanBegin v.old uid from to }
    ensures begun { v.new ≡ begun v.old uid from to }
    ensures least { IsLeastFreeEntry (vtoc_at v.old to) result }
    ensures number { result ≡ entry_for v.old to }
{
    prove!(from.1 < v.vtoc(from.0).size());
    let home = (to, take_entry(v, to, uid));
    for p in 0..PAGES {
        take_record(v, from, home, p);
    }
    home.1
}

/// The record of page `p`, which the file map at a home names.
fn record_of<D: Drive>(v: &Volumes<D>, home: (u32, u32), p: u32) -> u32
    requires volume { home.0 < length v.now.drives }
    requires used { IsSome (entry_of v.now home) }
    requires page { p < 256 }
    requires named { IsSome (place_at v.now home p) }
    requires kept { AreKept (records_at v.now home.0) (map_at v.now home) }
    ensures place { place_at v.now home p ≡ Some result }
    ensures within { result < length (pages_at D.pages v.now home.0) }
{
    match v.vtoc(home.0).file_map(home.1, p) {
        Some(r) => {
            prove!(r < v.size(home.0));
            r
        }
        None => unreachable!(),
    }
}

/// Copies a record to another, each given as a pair of its volume and its number.
fn copy_record<D: Drive>(
    v: &mut Volumes<D>,
    from: (u32, u32),
    to: (u32, u32),
    spare: &mut Page,
) -> Result<(), Failed>
    requires source { from.0 < length v.old.drives }
    requires old { from.1 < length (pages_at D.pages v.old from.0) }
    requires target { to.0 < length v.old.drives }
    requires new { to.1 < length (pages_at D.pages v.old to.0) }
    ensures ok { OnOk result (map D.pages v.new.drives ≡ with_page (map D.pages v.old.drives) to.0 to.1
        (slice_index_or (pages_at D.pages v.old from.0) from.1 [])) }
    ensures err { OnErr result (map D.pages v.new.drives ≡ map D.pages v.old.drives) }
    ensures tables { KeepsTables v.old v.new }
    ensures drives { CallsDrives D.plan D.places D.faults v.old.drives v.new.drives from.0 to.0 result }
{
    v.read_page(from.0, from.1, spare)?;
    v.write_page(to.0, to.1, spare)
}

/// Takes the least free entry of volume `to` for segment `uid`.
fn take_entry<D: Drive>(v: &mut Volumes<D>, to: u32, uid: u32) -> u32
    requires volume { to < length v.old.drives }
    requires entry { count_by is_some (vtoc_at v.old to) < length (vtoc_at v.old to) }
    ensures taken { v.new ≡ entry_taken v.old (to, result) uid }
    ensures least { IsLeastFreeEntry (vtoc_at v.old to) result }
    ensures number { result ≡ entry_for v.old to }
{
    match v.vtoc_mut(to).allocate(uid) {
        Some(entry) => entry,
        None => unreachable!(),
    }
}

/// Takes the least free record of the volume of `to` for page `p`, if the file map at `from` names a record for it.
fn take_record<D: Drive>(v: &mut Volumes<D>, from: (u32, u32), to: (u32, u32), p: u32)
    requires page { p < 256 }
    requires source { from.0 < length v.old.drives }
    requires target { to.0 < length v.old.drives }
    requires old_used { IsSome (entry_of v.old from) }
    requires new_used { IsSome (entry_of v.old to) }
    requires room { IsSome (place_at v.old from p) → used_at v.old to.0 < length (records_at v.old to.0) }
    requires short { length (records_at v.old to.0) < 2 ^ 16 }
    ensures none { place_at v.old from p ≡ None → v.new ≡ v.old }
    ensures some { IsSome (place_at v.old from p)
        → v.new ≡ page_stored v.old to p (least_free (records_at v.old to.0)) }
{
    if v.vtoc(from.0).file_map(from.1, p).is_some() {
        match v.withdraw(to.0) {
            Some(r) => v.vtoc_mut(to.0).put_file_map(to.1, p, Some(r)),
            None => unreachable!(),
        }
    }
}

/// Gives the records and the entry of a home back.
fn give_back<D: Drive>(v: &mut Volumes<D>, home: (u32, u32))
    requires volume { home.0 < length v.old.drives }
    requires used { IsSome (entry_of v.old home) }
    requires kept { AreKept (records_at v.old home.0) (map_at v.old home) }
    ensures { v.new ≡ given_back v.old home }
{
    for p in 0..PAGES {
        give_record(v, home, p);
    }
    prove!(home.1 < v.vtoc(home.0).size());
    v.vtoc_mut(home.0).free(home.1);
}

/// Gives the record of page `p` at a home back, if it has one.
fn give_record<D: Drive>(v: &mut Volumes<D>, home: (u32, u32), p: u32)
    requires page { p < 256 }
    requires volume { home.0 < length v.old.drives }
    requires used { IsSome (entry_of v.old home) }
    requires kept { AreKept (records_at v.old home.0) (map_at v.old home) }
    ensures { v.new ≡ page_given v.old home p (place_at v.old home p) }
{
    if let Some(r) = v.vtoc(home.0).file_map(home.1, p) {
        v.deposit(home.0, r);
        v.vtoc_mut(home.0).put_file_map(home.1, p, None);
    }
}
