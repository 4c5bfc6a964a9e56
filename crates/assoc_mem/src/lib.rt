//! The associative memories of a processor: the segment descriptor words and page table words that it used lately, so
//! that most references need no look at a table.
//!
//! Costs: nothing takes memory. `find_sdw` and `find_ptw`, which every reference pays, look at the at most 16 entries
//! of one kind until one fits. A fill into a full kind moves its entries down by one. `clear` looks at
//! them once, and once more where it drops one.
#![tactic(auto)]

ghost use Rattle.std.specs.Prelude.{◌≡◌, ◌≢◌, ◌≤◌, ◌↔◌, None, length, All, IsNone, filter, not, ◌==◌};
ghost use Rattle.std.specs.List.{find, list_any};
ghost use Rattle.std.specs.Option.{option_map};
ghost use Rattle.assoc_mem.specs.Held.{nothing_held, is_number, is_page, seg_of, page_of, frame_of, with_seg};
ghost use Rattle.assoc_mem.specs.Held.{with_page, cleared};

use arrayvec::ArrayVec;
use mnames::Mode;
use std::marker::Model;

/// A segment descriptor word that a processor holds.
#[derive(Clone, Copy, PartialEq, Eq)]
pub struct HeldSeg {
    /// The segment number of the processor's process.
    pub number: u32,
    /// The segment.
    pub uid: u32,
    /// What the process may do to it.
    pub mode: Mode,
    /// Its length in pages.
    pub pages: u32,
}

impl Default for HeldSeg {
    fn default() -> Self {
        HeldSeg {
            number: 0,
            uid: 0,
            mode: Mode::Null,
            pages: 0,
        }
    }
}

/// A page table word that a processor holds.
#[derive(Clone, Copy, Default, PartialEq, Eq)]
pub struct HeldPage {
    /// The segment.
    pub uid: u32,
    /// Its page.
    pub page: u32,
    /// The frame of the page.
    pub frame: u32,
}

/// What is to be dropped from associative memories.
#[derive(Clone, Copy, PartialEq, Eq)]
pub enum What {
    /// Everything.
    All,
    /// The page table word of this frame.
    Page(u32),
    /// All descriptors and page table words of this segment.
    Seg(u32),
}

/// The associative memories of one processor, of 16 places for each kind of word.
///
/// Contracts see what each kind holds as a list, the oldest fill first.
#[derive(Drop)]
pub struct Assoc {
    segs: ArrayVec<HeldSeg, 16>,
    pages: ArrayVec<HeldPage, 16>,
}

impl Model for Assoc {
    ghost use Rattle.assoc_mem.specs.Held.{Held};

    ghost Value = { Held };

    ghost view = { λ a. record { segs = a.segs.items; pages = a.pages.items } };
}

impl Assoc {
    /// Memories that hold nothing.
    pub fn new() -> Assoc
        ensures { result ≡ nothing_held }
    {
        Assoc {
            segs: ArrayVec::new(),
            pages: ArrayVec::new(),
        }
    }

    /// What is held for segment number `number`. `None` exactly where nothing is.
    pub fn find_sdw(&self, number: u32) -> Option<HeldSeg>
        ensures entry { result ≡ seg_of self.now number }
        ensures none { IsNone result ↔ All (λ entry. entry.number ≢ number) self.now.segs }
        ensures most { length self.now.segs ≤ 16 }
    {
        find_seg(&self.segs, number)
    }

    /// The frame that is held for a page. `None` exactly where nothing is held for it.
    pub fn find_ptw(&self, uid: u32, page: u32) -> Option<u32>
        ensures frame { result ≡ frame_of self.now uid page }
        ensures none { IsNone result ↔ All (λ entry. (entry.uid ≡ uid → entry.page ≢ page)) self.now.pages }
        ensures most { length self.now.pages ≤ 16 }
    {
        find_page(&self.pages, uid, page)
    }

    /// Fills in a descriptor. Where 16 are held, the one that was filled in longest ago is dropped.
    pub fn fill_sdw(&mut self, e: HeldSeg)
        requires { seg_of self.old e.number ≡ None }
        ensures { self.new ≡ with_seg self.old e }
    {
        if self.segs.is_full() {
            self.segs.remove(0);
        }
        self.segs.push(e);
    }

    /// Fills in a page table word. Where 16 are held, the one that was filled in longest ago is dropped.
    pub fn fill_ptw(&mut self, e: HeldPage)
        requires { page_of self.old e.uid e.page ≡ None }
        ensures { self.new ≡ with_page self.old e }
    {
        if self.pages.is_full() {
            self.pages.remove(0);
        }
        self.pages.push(e);
    }

    /// Drops exactly what `w` names. The rest keeps its order.
    pub fn clear(&mut self, w: What)
        ensures { self.new ≡ cleared self.old w }
    {
        match w {
            What::All => {
                self.segs.clear();
                self.pages.clear();
            }
            What::Page(frame) => drop_frame(&mut self.pages, frame),
            What::Seg(uid) => {
                drop_segs(&mut self.segs, uid);
                drop_pages(&mut self.pages, uid);
            }
        }
    }
}

/// What is held for a segment number.
fn find_seg(held: &[HeldSeg], number: u32) -> Option<HeldSeg>
    ensures { result ≡ find (is_number number) held.now }
{
    for entry in held {
        if entry.number == number {
            return Some(*entry);
        }
    }
    None
}

/// The frame of a page by what is held.
fn find_page(held: &[HeldPage], uid: u32, page: u32) -> Option<u32>
    ensures { result ≡ option_map (λ entry. entry.frame) (find (is_page uid page) held.now) }
{
    for entry in held {
        if entry.uid == uid && entry.page == page {
            return Some(entry.frame);
        }
    }
    None
}

/// Whether a descriptor of a segment is held.
fn holds_seg(segs: &[HeldSeg], uid: u32) -> bool
    ensures { result ≡ list_any (λ entry. entry.uid == uid) segs.now }
{
    segs.iter().any(|entry| entry.uid == uid)
}

/// Whether a page table word of a segment is held.
fn holds_page_of(pages: &[HeldPage], uid: u32) -> bool
    ensures { result ≡ list_any (λ entry. entry.uid == uid) pages.now }
{
    pages.iter().any(|entry| entry.uid == uid)
}

/// Whether the page table word of a frame is held.
fn holds_frame(pages: &[HeldPage], frame: u32) -> bool
    ensures { result ≡ list_any (λ entry. entry.frame == frame) pages.now }
{
    pages.iter().any(|entry| entry.frame == frame)
}

/// Drops the descriptors of a segment. Where none is held, nothing moves.
fn drop_segs(segs: &mut ArrayVec<HeldSeg, 16>, uid: u32)
    ensures { segs.new.items ≡ filter (λ entry. not (entry.uid == uid)) segs.old.items }
{
    if holds_seg(segs, uid) {
        segs.retain(|entry| entry.uid != uid);
    }
}

/// Drops the page table words of a segment. Where none is held, nothing moves.
fn drop_pages(pages: &mut ArrayVec<HeldPage, 16>, uid: u32)
    ensures { pages.new.items ≡ filter (λ entry. not (entry.uid == uid)) pages.old.items }
{
    if holds_page_of(pages, uid) {
        pages.retain(|entry| entry.uid != uid);
    }
}

/// Drops the page table words of a frame. Where none is held, nothing moves.
fn drop_frame(pages: &mut ArrayVec<HeldPage, 16>, frame: u32)
    ensures { pages.new.items ≡ filter (λ entry. not (entry.frame == frame)) pages.old.items }
{
    if holds_frame(pages, frame) {
        pages.retain(|entry| entry.frame != frame);
    }
}
