ghost use Rattle.std.specs.Prelude.{◌≡◌, ℕ, true, None, Some, List, length, is_some, replicate, IfOk};
ghost use Rattle.core_map.specs.CoreMap.{reads_of, IsLeastFreeFrame};
ghost use Rattle.page_table.specs.PageTable.{ptw_at};
ghost use Rattle.vtoc.specs.Vtoc.{entry_at, record_at, uid_of};
ghost use Rattle.page_control.specs.Plain.{plain, bindings};
ghost use Rattle.page_control.specs.Tied.{IsTableOf, AreFiled, HasNoFrame, IsBlank, has_record};
ghost use Rattle.page_control.specs.Ties.{IsTied};
ghost use Rattle.page_control.specs.Moves.{IsHomeFor};

use mword::Word;
use page_control::{Home, NoMemory, Pages};
use page_table::{PageTable, Ptw};
use std::alloc::Global;
use std::process::Abort;
use volumes::{CoreDrive, Drive, Part, Volumes};
use vtoc::Vtoc;

/// Two volumes, each of four records and two VTOC entries.
fn two_volumes(alloc: Global) -> Result<Volumes<CoreDrive>, NoMemory>
    ensures filed { IfOk result (λ v. AreFiled v.records v.vtocs) }
{
    let mut parts = Vec::new(alloc);
    for _ in 0..2 {
        let drive = CoreDrive::new(alloc, 4, Vec::new(alloc))?;
        parts.push(Part { drive, entries: 2 })?;
    }
    Volumes::new(alloc, parts)
}

/// The least free frame.
fn free_frame<D: Drive>(rt: &impl Abort, pages: &Pages<D>) -> u32
    ensures { IsLeastFreeFrame pages.now.core result }
{
    pages.frames().take_free().expect(rt, "a free frame")
}

/// Makes page `p` of a segment.
fn make<D: Drive>(
    rt: &impl Abort,
    pages: &mut Pages<D>,
    t: &mut PageTable,
    uid: u32,
    p: u32,
    home: Home,
)
    requires tie { IsTied (plain D.pages pages.old) uid home t.old }
    ensures tie { IsTied (plain D.pages pages.new) uid home t.new }
    ensures reads { reads_of pages.new.core ≡ reads_of pages.old.core }
{
    let f = free_frame(rt, pages);
    assert!(rt; p < t.size() && t.get(p) == Ptw::Null);
    assert!(rt; home.volume < pages.volumes().count() && pages.volumes().size(home.volume) < 65536);
    let word = Word::new(1).unwrap_or(Word::ZERO);
    assert!(rt; pages.create_page(t, uid, p, home, f, 0, word).is_ok());
}

/// Takes page `p` of a segment, which is in a frame, out of it.
fn leave<D: Drive>(
    rt: &impl Abort,
    pages: &mut Pages<D>,
    t: &mut PageTable,
    uid: u32,
    p: u32,
    home: Home,
)
    requires tie { IsTied (plain D.pages pages.old) uid home t.old }
    ensures tie { IsTied (plain D.pages pages.new) uid home t.new }
    ensures reads { reads_of pages.new.core ≡ reads_of pages.old.core }
{
    assert!(rt; p < t.size());
    match pages.look(t, p) {
        Ptw::Here(f) => {
            pages.take(t, f);
            assert!(rt; pages.evict(t, home, f).is_ok());
        }
        Ptw::Null | Ptw::Out(_) | Ptw::Leaving(_) => panic!(rt; "the page is in no frame"),
    }
}

/// Reads page `p` of a segment, which is on its record, into a frame. No page was being read in.
fn bring<D: Drive>(
    rt: &impl Abort,
    pages: &mut Pages<D>,
    t: &mut PageTable,
    uid: u32,
    p: u32,
    home: Home,
)
    requires tie { IsTied (plain D.pages pages.old) uid home t.old }
    requires idle { reads_of pages.old.core ≡ replicate 4 None }
    ensures tie { IsTied (plain D.pages pages.new) uid home t.new }
{
    let f = free_frame(rt, pages);
    assert!(rt; p < t.size() && matches!(t.get(p), Ptw::Out(_)));
    pages.start_in(t, uid, p, f);
    assert!(rt; pages.end_in(t, uid, p, home, f).is_ok());
}

/// Whether the modified mark of the frame of page `p`, which is in one, is on.
fn is_modified<D: Drive>(rt: &impl Abort, pages: &Pages<D>, t: &PageTable, uid: u32, p: u32) -> bool
    requires { IsTableOf (bindings pages.now.core) uid t.now }
{
    assert!(rt; p < t.size());
    match t.get(p) {
        Ptw::Here(f) => pages.frames().modified(f),
        Ptw::Null | Ptw::Out(_) | Ptw::Leaving(_) => panic!(rt; "the page is in no frame"),
    }
}

/// Whether an entry is used for segment `uid`, and names a record for exactly the pages that have one.
fn is_for(vtoc: &Vtoc, entry: u32, t: &PageTable, uid: u32) -> bool
    ensures uid { result ≡ true → uid_of (entry_at vtoc.now entry) ≡ Some uid }
    ensures pages { result ≡ true → (p : ℕ) → is_some (record_at vtoc.now entry p) ≡ has_record (ptw_at t.now p) }
{
    if entry >= vtoc.size() || vtoc.uid_at(entry) != Some(uid) || t.size() != 256 {
        return false;
    }
    for p in 0..256 {
        if vtoc.file_map(entry, p).is_some() != (t.get(p) != Ptw::Null) {
            return false;
        }
    }
    true
}

/// Names a free record for page `p` in the file map at a home.
fn name<D: Drive>(rt: &impl Abort, volumes: &mut Volumes<D>, home: Home, p: u32) {
    assert!(rt; home.volume < volumes.count() && p < 256);
    let r = volumes.withdraw(home.volume).expect(rt, "a free record");
    let vtoc = volumes.vtoc_mut(home.volume);
    assert!(rt; r < 65535 && home.entry < vtoc.size() && vtoc.uid_at(home.entry).is_some());
    vtoc.put_file_map(home.entry, p, Some(r));
}

/// Gives the segment a second home, where the last page has the first record.
fn second_home<D: Drive>(
    rt: &impl Abort,
    pages: &mut Pages<D>,
    t: &PageTable,
    uid: u32,
    volume: u32,
) -> Home
    requires table { IsTableOf (bindings pages.old.core) uid t.now }
    ensures table { IsTableOf (bindings pages.new.core) uid t.now }
    ensures home { IsHomeFor (plain D.pages pages.new) uid result t.now }
{
    assert!(rt; volume < pages.volumes().count());
    let entry = pages.new_home(volume, uid).expect(rt, "a free entry");
    let home = Home { volume, entry };
    for p in (0..t.size()).rev() {
        if t.get(p) != Ptw::Null {
            name(rt, pages.volumes_mut(), home, p);
        }
    }
    assert!(rt; volume < pages.volumes().count());
    assert!(rt; is_for(pages.volumes().vtoc(volume), entry, t, uid));
    home
}

/// A segment's first page is in a frame as its record has it, and the second is on its record alone.
fn two_pages<D: Drive>(
    rt: &impl Abort,
    pages: &mut Pages<D>,
    t: &mut PageTable,
    uid: u32,
    home: Home,
)
    requires tie { IsTied (plain D.pages pages.old) uid home t.old }
    requires idle { reads_of pages.old.core ≡ replicate 4 None }
    ensures tie { IsTied (plain D.pages pages.new) uid home t.new }
{
    make(rt, pages, t, uid, 0, home);
    make(rt, pages, t, uid, 1, home);
    leave(rt, pages, t, uid, 0, home);
    leave(rt, pages, t, uid, 1, home);
    bring(rt, pages, t, uid, 0, home);
}

/// The first home of a segment that has no page.
fn first_home<D: Drive>(rt: &impl Abort, pages: &mut Pages<D>, t: &PageTable, uid: u32) -> Home
    requires filed { AreFiled pages.old.volumes.records pages.old.volumes.vtocs }
    requires frames { HasNoFrame (bindings pages.old.core) uid }
    requires blank { IsBlank t.now }
    ensures tie { IsTied (plain D.pages pages.new) uid result t.now }
    ensures reads { reads_of pages.new.core ≡ reads_of pages.old.core }
{
    assert!(rt; 0 < pages.volumes().count());
    let entry = pages.new_home(0, uid).expect(rt, "a free entry");
    Home { volume: 0, entry }
}

/// The word of page `p`.
fn word(rt: &impl Abort, t: &PageTable, p: u32) -> Ptw {
    assert!(rt; p < t.size());
    t.get(p)
}

/// Whether a segment that moves to a second home names its new records there, and its frame is marked.
fn moves<D: Drive>(rt: &impl Abort, pages: &mut Pages<D>, t: &mut PageTable) -> bool
    requires filed { AreFiled pages.old.volumes.records pages.old.volumes.vtocs }
    requires frames { HasNoFrame (bindings pages.old.core) 7 }
    requires idle { reads_of pages.old.core ≡ replicate 4 None }
    requires blank { IsBlank t.old }
{
    let first = first_home(rt, pages, t, 7);
    two_pages(rt, pages, t, 7, first);
    let was_modified = is_modified(rt, pages, t, 7, 0);
    let frame = word(rt, t, 0);
    let home = second_home(rt, pages, t, 7, 1);
    pages.rehome(t, 7, home);
    let is_marked = !was_modified && is_modified(rt, pages, t, 7, 0);
    let is_same = word(rt, t, 0) == frame;
    is_marked && is_same && (word(rt, t, 1), word(rt, t, 2)) == (Ptw::Out(0), Ptw::Null)
}

#[test]
fn a_segment_that_moves_names_new_records_and_marks_its_frames(
    rt: HostRuntime,
) -> Result<(), NoMemory> {
    let mut pages = Pages::new(rt.alloc(), 4, two_volumes(rt.alloc())?)?;
    let mut t = PageTable::new(rt.alloc(), 256)?;
    let is_moved = moves(&rt, &mut pages, &mut t);
    drop(pages);
    drop(t);
    assert!(rt; is_moved);
    Ok(())
}
