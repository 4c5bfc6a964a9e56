ghost use Rattle.std.specs.Prelude.{◌≡◌, ◌≢◌, ◌<◌, ◌≤◌, ◌^◌, ◌+◌, ℕ, All, List, Some, None, [], sum, length, IsSome};
ghost use Rattle.std.specs.Prelude.{IfOk, IfSome};
ghost use Rattle.std.specs.Prelude.{IfNone};
ghost use Rattle.std.specs.Option.{ForSome};
ghost use Rattle.page_table.specs.declared.Ptw.{Ptw};
ghost use Rattle.vtoc.specs.Vtoc.{entry_at as vtoc_entry_at, records_in};
ghost use Rattle.trailers.specs.Trailer.{trailers_of};
ghost use Rattle.active_segs.specs.Active.{entry_at, uid_at, table_at, no_segments, deactivated, IsActive, IsAway};
ghost use Rattle.active_segs.specs.Active.{HasNoInferior, IsLeastFree, IsFull, IsTree};
ghost use Rattle.active_segs.specs.Victim.{IsVictim, hand_moved};
ghost use Rattle.page_control.specs.Plain.{plain};
ghost use Rattle.page_control.specs.Tied.{map_at, AreFiled, uid_at as uid_homed};
ghost use Rattle.seg_control.specs.Effects.{no_links};
ghost use Rattle.seg_control.specs.Kept.{IsKept, IsInactive, IsNotRead, AreFree, AreAtRest};
ghost use Rattle.seg_control.specs.Next.{uids_of, link_at, superior_of, words_in, table_for, made_active};
ghost use Rattle.seg_control.specs.Next.{IsFirstInactive, AreActive, FitsIn, MayActivate, IsNext, IsStuck, IsGoing};

use crate::links::Links;
use crate::segs::Segs;
use crate::{Link, Next, NoMemory};
use active_segs::Ast;
use arrayvec::ArrayVec;
use mword::Page;
use page_control::Pages;
use page_table::{PageTable, Ptw};
use std::alloc::Global;
use volumes::Drive;
use vtoc::Vtoc;

impl<D: Drive> Segs<D> {
    /// Segment control over these pages, with pools of these numbers of places, whose page tables have 4, 16, 64 and
    /// 256 words. Nothing is active, known or connected, and no segment moves. `NoMemory` is want of memory. (Source:
    /// Bensoussan, Clingen and Daley 1972.)
    pub fn new(
        alloc: Global,
        pages: Pages<D>,
        pools: [u32; 4],
        processes: u32,
    ) -> Result<Segs<D>, NoMemory>
        requires pools { sum pools ≤ 1024 }
        requires processes { processes ≤ 32 }
        requires free { AreFree pages.core }
        requires records { AreFiled pages.volumes.records pages.volumes.vtocs }
        requires rest { AreAtRest (plain D.pages pages) }
        ensures { IfOk result
            (λ s. s ≡ record {
              pages = pages;
              ast = no_segments pools;
              links = no_links (sum pools) processes;
              moving = None;
            }) }
    {
        let places = places_of(&pools);
        let ast = Ast::new(alloc, pools)?;
        let links = Links::new(alloc, places, processes)?;
        let spare = Page::zero(alloc)?;
        Ok(Segs {
            pages,
            ast,
            links,
            moving: None,
            spare,
        })
    }

    /// Makes the first segment of a chain active that isn't, in the least free place of its pool, with the page table
    /// that its file map tells; or, where its pool is full, tells what has to become inactive first, and the pool's
    /// hand moves on. The chain is looked at up to that segment. To fill the page table costs a write for each of its
    /// words. (Source: Bensoussan, Clingen and Daley 1972; Organick 1972.)
    pub fn activate_next(&mut self, chain: &[Link]) -> Next
        requires still { self.old.moving ≡ None }
        requires chain { MayActivate self.old.ast self.old.pages.volumes.vtocs (length self.old.pages.volumes.drives)
            chain.now }
        ensures next { IsNext self.old self.new chain.now result }
        ensures victim { (place : ℕ) → IsGoing self.old.ast chain.now place → result ≡ Next.Victim place }
    {
        let Some(i) = first_inactive(&self.ast, chain) else {
            return Next::Whole;
        };
        let link = chain[i];
        match self.ast.free_in(link.pool) {
            Some(place) => {
                self.make_active(place, link, superior_in(chain, i));
                Next::Activated(place)
            }
            None => Next::Victim(self.ast.victim(link.pool, &uids_in(chain))),
        }
    }

    /// What has to become inactive before the next segment of a chain can become active, as `activate_next` would tell
    /// it; None exactly where it would tell no such place. (Source: own.)
    pub fn next_victim(&self, chain: &[Link]) -> Option<u32>
        requires { MayActivate self.now.ast self.now.pages.volumes.vtocs (length self.now.pages.volumes.drives)
            chain.now }
        ensures some { IfSome result (λ place. IsGoing self.now.ast chain.now place) }
        ensures none { IfNone result ((i : ℕ) → IsStuck self.now.ast chain.now i → ⊥) }
    {
        let i = first_inactive(&self.ast, chain)?;
        let link = chain[i];
        match self.ast.free_in(link.pool) {
            Some(_) => None,
            None => Some(self.ast.next_victim(link.pool, &uids_in(chain))),
        }
    }

    /// Makes the segment of a place inactive, and each word of the place's page table `Null`. No active segment is
    /// below it, no page of it is in a frame, on its way out or being read, and no descriptor leads there. (Source:
    /// Bensoussan, Clingen and Daley 1972; Organick 1972.)
    pub fn deactivate(&mut self, place: u32)
        requires still { self.old.moving ≡ None }
        requires place { place < length self.old.ast.entries }
        requires leaf { HasNoInferior self.old.ast.entries place }
        requires away { All IsAway (table_at self.old.ast.tables place) }
        requires idle { IsNotRead self.old.pages.core self.old.ast.entries place }
        requires cut { trailers_of self.old.links.trailers place ≡ [] }
        ensures effect { self.new ≡ record self.old { ast = deactivated self.old.ast place } }
    {
        self.ast.deactivate(place);
    }

    /// Makes the segment of a link active in a free place, below this superior.
    fn make_active(&mut self, place: u32, link: Link, superior: Option<u32>)
        requires still { self.old.moving ≡ None }
        requires pool { link.pool < 4 }
        requires least { IsLeastFree self.old.ast link.pool place }
        requires place { place < length self.old.ast.entries }
        requires inactive { IsInactive self.old.ast.entries link.uid }
        requires superior { ForSome superior (IsActive self.old.ast.entries) }
        requires volume { link.home.volume < length self.old.pages.volumes.drives }
        requires home { uid_homed self.old.pages.volumes.vtocs link.home ≡ Some link.uid }
        requires fits { FitsIn (map_at self.old.pages.volumes.vtocs link.home) (words_in link.pool) }
        ensures { self.new ≡ record self.old {
          ast = made_active self.old.ast place link.uid superior
              (table_for (map_at self.old.pages.volumes.vtocs link.home) (words_in link.pool));
        } }
    {
        self.ast.activate(place, link.uid, superior);
        load(
            self.ast.table_mut(place),
            self.pages.volumes().vtoc(link.home.volume),
            link.home.entry,
        );
    }
}

/// How many places these pools have.
fn places_of(pools: &[u32]) -> u32
    requires { sum pools.now ≤ 1024 }
    ensures { result ≡ sum pools.now }
{
    pools.iter().sum()
}

/// The first link of a chain whose segment isn't active.
fn first_inactive(ast: &Ast, chain: &[Link]) -> Option<usize>
    ensures some { IfSome result (λ i. IsFirstInactive ast.now.entries chain.now i) }
    ensures none { IfNone result (AreActive ast.now.entries chain.now) }
    ensures within { IfSome result (λ i. i < length chain.now) }
{
    for i in 0..chain.len() {
        if ast.search(chain[i].uid).is_none() {
            return Some(i);
        }
    }
    None
}

/// The uid of the link before one of a chain.
fn superior_in(chain: &[Link], i: usize) -> Option<u32>
    requires { i < length chain.now }
    ensures { result ≡ superior_of chain.now i }
{
    if i == 0 {
        return None;
    }
    Some(chain[i - 1].uid)
}

/// The uids of a chain.
fn uids_in(chain: &[Link]) -> ArrayVec<u32, 10>
    requires { length chain.now ≤ 10 }
    ensures { result.items ≡ uids_of chain.now }
{
    let mut uids = ArrayVec::new();
    for link in chain {
        uids.push(link.uid);
    }
    uids
}

/// Fills a page table by the file map of a used entry.
fn load(table: &mut PageTable, vtoc: &Vtoc, entry: u32)
    requires used { IsSome (vtoc_entry_at vtoc.now entry) }
    requires few { length table.old ≤ 256 }
    ensures { table.new ≡ table_for (records_in (vtoc_entry_at vtoc.now entry)) (length table.old) }
{
    for p in 0..table.size() {
        let word = match vtoc.file_map(entry, p) {
            Some(r) => Ptw::Out(r),
            None => Ptw::Null,
        };
        table.set(p, word);
    }
}
