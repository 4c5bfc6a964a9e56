ghost use Rattle.std.specs.Prelude.{◌≡◌, ◌<◌, length, count_by, is_some};
ghost use Rattle.seg_mover.specs.Homes.{map_at};
ghost use Rattle.seg_mover.specs.Moves.{IsMoving};
ghost use Rattle.layer_tests.specs.Homes.{IsHome};

use mword::{Page, Word};
use seg_mover::Mover;
use std::alloc::Global;
use std::process::Abort;
use volumes::{CoreDrive, FailLine, NoMemory, Part, Volumes};

/// Volumes whose drives are in core.
type Disks = Volumes<CoreDrive>;

/// The segment that moves.
const UID: u32 = 7;

/// Its pages. The first word of each is 10 more than the number of the page.
const PAGES: [u32; 4] = [0, 3, 4, 255];

/// A volume of so many records and two entries, whose read or write of this number fails.
fn part(
    alloc: Global,
    records: u32,
    write: bool,
    number: u32,
) -> Result<Part<CoreDrive>, NoMemory> {
    let line = FailLine {
        write,
        number,
        onward: false,
    };
    let fails = vec![in alloc; line]?;
    let drive = CoreDrive::new(alloc, records, fails)?;
    Ok(Part { drive, entries: 2 })
}

/// Two volumes. A read of the first fails, and a write of the second; 0 is none. The second has a record for each page.
fn two_volumes(alloc: Global, read: u32, write: u32) -> Result<Disks, NoMemory> {
    let mut parts = Vec::new(alloc);
    let first = part(alloc, 6, false, read)?;
    parts.push(first)?;
    let second = part(alloc, 4, true, write)?;
    parts.push(second)?;
    Volumes::new(alloc, parts)
}

/// A home on the first volume, of no page.
fn new_home(rt: &impl Abort, v: &mut Disks) -> (u32, u32)
    ensures { IsHome v.new result }
{
    assert!(rt; v.count() > 0);
    match v.vtoc_mut(0).allocate(UID) {
        Some(entry) => (0, entry),
        None => panic!(rt; "no entry is free"),
    }
}

/// Takes a record for page `p` at a home.
fn file(rt: &impl Abort, v: &mut Disks, home: (u32, u32), p: u32) -> u32
    requires home { IsHome v.old home }
    requires page { p < 256 }
    ensures { IsHome v.new home }
{
    assert!(rt; v.size(home.0) < 1000);
    match v.withdraw(home.0) {
        Some(r) => {
            v.vtoc_mut(home.0).put_file_map(home.1, p, Some(r));
            r
        }
        None => panic!(rt; "no record is free"),
    }
}

/// Stores page `p` at a home.
fn store(rt: &impl Abort, v: &mut Disks, home: (u32, u32), p: u32, page: &mut Page)
    requires { IsHome v.old home }
    ensures { IsHome v.new home }
{
    assert!(rt; p < 256);
    let r = file(rt, v, home, p);
    page.set(0, Word::new(10 + u64::from(p)).unwrap_or(Word::ZERO));
    let is_written = r < v.size(home.0) && v.write_page(home.0, r, page).is_ok();
    assert!(rt; is_written);
}

/// A segment of these pages on the first volume.
fn segment(rt: &impl Abort, v: &mut Disks, page: &mut Page) -> (u32, u32)
    ensures { IsHome v.new result }
{
    let home = new_home(rt, v);
    for p in PAGES {
        store(rt, v, home, p, page);
    }
    home
}

/// How many pages a file map names.
fn pages_of(v: &Disks, home: (u32, u32)) -> u32
    requires { IsHome v.now home }
    ensures { result ≡ count_by is_some (map_at v.now home) }
{
    prove!(home.1 < v.vtoc(home.0).size());
    let mut pages = 0;
    for p in 0..256 {
        if v.vtoc(home.0).file_map(home.1, p).is_some() {
            pages += 1;
        }
    }
    pages
}

/// Begins to move the segment from its home on the first volume to the second.
fn begin(rt: &impl Abort, v: &mut Disks, from: (u32, u32)) -> Mover
    requires { IsHome v.old from }
    ensures { IsMoving v.new result }
{
    let pages = pages_of(v, from);
    assert!(rt;
        from.0 == 0
            && v.count() == 2
            && v.vtoc(0).uid_at(from.1) == Some(UID)
            && v.vtoc(1).used() < v.vtoc(1).size()
            && v.size(1) < 1000
            && pages <= v.size(1)
            && v.taken(1) <= v.size(1) - pages
    );
    Mover::begin(v, UID, from, 1)
}

/// Copies pages until none is left or a copy fails: how many were copied, and whether one failed.
fn copy_pages(m: &mut Mover, v: &mut Disks, skip: &[bool], page: &mut Page) -> (u32, bool)
    requires moving { IsMoving v.old m.old }
    requires skip { length skip.now ≡ 256 }
    ensures { IsMoving v.new m.new }
{
    for copies in 0..300 {
        match m.copy_next(v, skip, page) {
            Ok(true) => {}
            Ok(false) => return (copies, false),
            Err(_) => return (copies, true),
        }
    }
    (300, false)
}

/// Ends the move, and answers the new home.
fn commit(m: Mover, v: &mut Disks) -> (u32, u32)
    requires { IsMoving v.old m }
    ensures { IsHome v.new result }
{
    m.commit(v)
}

/// Gives the move up, and answers the old home.
fn undo(m: Mover, v: &mut Disks) -> (u32, u32)
    requires { IsMoving v.old m }
    ensures { IsHome v.new result }
{
    m.undo(v);
    m.from
}

/// Whether each page but one has its words at a home.
fn has_words(v: &mut Disks, home: (u32, u32), skipped: u32, page: &mut Page) -> bool
    requires { IsHome v.old home }
    ensures { IsHome v.new home }
{
    for p in PAGES {
        if p != skipped && !has_word(v, home, p, page) {
            return false;
        }
    }
    true
}

/// Whether page `p` has its words at a home.
fn has_word(v: &mut Disks, home: (u32, u32), p: u32, page: &mut Page) -> bool
    requires { IsHome v.old home }
    ensures { IsHome v.new home }
{
    if p >= 256 {
        return false;
    }
    match v.vtoc(home.0).file_map(home.1, p) {
        Some(r) => {
            r < v.size(home.0)
                && v.read_page(home.0, r, page).is_ok()
                && page.get(0).value() == 10 + u64::from(p)
        }
        None => false,
    }
}

/// The records and the entries in use of the first volume, and those of the second.
fn in_use(rt: &impl Abort, v: &Disks) -> ((u32, u32), (u32, u32)) {
    assert!(rt; v.count() == 2);
    (
        (v.taken(0), v.vtoc(0).used()),
        (v.taken(1), v.vtoc(1).used()),
    )
}

/// Whether so many pages are copied before one fails, and an undo gives back what was taken.
fn gives_all_back(rt: &impl Abort, v: &mut Disks, copies: u32, page: &mut Page) -> bool {
    let from = segment(rt, v, page);
    let before = in_use(rt, v);
    let mut m = begin(rt, v, from);
    let copied = copy_pages(&mut m, v, &[false; 256], page);
    let home = undo(m, v);
    copied == (copies, true) && in_use(rt, v) == before && has_words(v, home, 256, page)
}

/// The read of the first volume that fails, or the write of the second, and how many pages are copied before.
const FAULTS: [(u32, u32, u32); 8] = [
    (1, 0, 0),
    (2, 0, 1),
    (3, 0, 2),
    (4, 0, 3),
    (0, 1, 0),
    (0, 2, 1),
    (0, 3, 2),
    (0, 4, 3),
];

#[test]
fn an_undo_after_a_copy_that_failed_gives_all_back(rt: HostRuntime) -> Result<(), NoMemory> {
    let mut page = Page::zero(rt.alloc())?;
    for (read, write, copies) in &FAULTS {
        let mut v = two_volumes(rt.alloc(), *read, *write)?;
        let is_back = gives_all_back(&rt, &mut v, *copies, &mut page);
        drop(v);
        assert!(rt; is_back);
    }
    Ok(())
}

/// Whether the copy of the second page fails at first, and then all pages are copied.
fn copies_again(rt: &impl Abort, v: &mut Disks, page: &mut Page) -> bool {
    let from = segment(rt, v, page);
    let mut m = begin(rt, v, from);
    let has_failed = copy_pages(&mut m, v, &[false; 256], page) == (1, true) && m.next == 1;
    let is_copied = copy_pages(&mut m, v, &[false; 256], page) == (3, false);
    let home = commit(m, v);
    let is_moved = home == (1, 0) && in_use(rt, v) == ((0, 0), (4, 1));
    has_failed && is_copied && is_moved && has_words(v, home, 256, page)
}

#[test]
fn a_copy_that_failed_is_made_again(rt: HostRuntime) -> Result<(), NoMemory> {
    let mut page = Page::zero(rt.alloc())?;
    let mut v = two_volumes(rt.alloc(), 2, 0)?;
    let is_copied = copies_again(&rt, &mut v, &mut page);
    drop(v);
    drop(page);
    assert!(rt; is_copied);
    Ok(())
}

/// Whether all pages are copied but page 3, which is skipped.
fn copies_but_one(rt: &impl Abort, v: &mut Disks, page: &mut Page) -> bool {
    let mut skip = [false; 256];
    skip[3] = true;
    let from = segment(rt, v, page);
    let mut m = begin(rt, v, from);
    let is_copied = copy_pages(&mut m, v, &skip, page) == (3, false);
    let home = commit(m, v);
    let is_moved = in_use(rt, v) == ((0, 0), (4, 1));
    is_copied && is_moved && has_words(v, home, 3, page) && !has_word(v, home, 3, page)
}

#[test]
fn a_page_that_is_skipped_is_not_copied(rt: HostRuntime) -> Result<(), NoMemory> {
    let mut page = Page::zero(rt.alloc())?;
    let mut v = two_volumes(rt.alloc(), 4, 4)?;
    let is_copied = copies_but_one(&rt, &mut v, &mut page);
    drop(v);
    drop(page);
    assert!(rt; is_copied);
    Ok(())
}
