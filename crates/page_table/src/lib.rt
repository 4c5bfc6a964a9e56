//! The page table of an active segment, one page table word for each page.
//!
//! The descriptor of a segment leads a processor to this table, and the word of a page leads it to the frame
//! that the page is in, or makes it fault (Bensoussan, Clingen and Daley 1972; Organick 1972).
//!
//! Costs: `new` takes memory once, for all words. `get` reads one word and `set` writes one; neither takes
//! memory or looks at another word.
#![tactic(auto)]

ghost use Rattle.std.specs.Prelude.{◌≡◌, ◌<◌, List, length, replicate, slice_set, IfOk};
ghost use Rattle.page_table.specs.declared.Ptw.{Ptw};
ghost use Rattle.page_table.specs.declared.Ptw.TheVariants.{Null};
ghost use Rattle.page_table.specs.PageTable.{ptw_at};

pub use no_memory::NoMemory;
use std::alloc::Global;
use std::marker::Model;

/// A page table word, which says where a page is (Bensoussan, Clingen and Daley 1972).
#[derive(Clone, Copy, PartialEq, Eq)]
pub enum Ptw {
    /// The page has no record: all its words are 0.
    Null,
    /// The page is on this record of the segment's volume, and in no frame.
    Out(u32),
    /// The page is in this frame.
    Here(u32),
    /// The page is in this frame and on its way out, so no reference goes through it.
    Leaving(u32),
}

/// The page table of one segment, seen as the list of its words in order of page number.
#[derive(Drop)]
pub struct PageTable {
    words: Vec<Ptw>,
}

impl Model for PageTable {
    ghost use Rattle.std.specs.Prelude.{◌<◌, ◌^◌, List, length};
    ghost use Rattle.page_table.specs.declared.Ptw.{Ptw};

    ghost Value = { List Ptw };

    ghost view = { λ table. table.words.items };

    ghost invariant = { λ table. length table.words.items < 2 ^ 32 };
}

impl PageTable {
    /// A table of `size` words, each `Null`.
    ///
    /// `NoMemory` is want of memory. It costs one allocation and `size` writes. (Source: Bensoussan, Clingen and
    /// Daley 1972.)
    pub fn new(alloc: Global, size: u32) -> Result<PageTable, NoMemory>
        ensures { IfOk result (λ table. table ≡ replicate size Null) }
    {
        let words = vec![in alloc; Ptw::Null; size as usize]?;
        Ok(PageTable { words })
    }

    /// How many words there are, one for each page. It reads a number. (Source: Bensoussan, Clingen and Daley 1972.)
    pub fn size(&self) -> u32
        ensures { result ≡ length self.now }
    {
        self.words.len() as u32
    }

    /// The word of page `p`. It costs one read. (Source: Bensoussan, Clingen and Daley 1972.)
    pub fn get(&self, p: u32) -> Ptw
        requires { p < length self.now }
        ensures { result ≡ ptw_at self.now p }
    {
        self.words[p as usize]
    }

    /// Puts the word `w` at page `p`, and leaves every other word. It costs one write. (Source: Bensoussan,
    /// Clingen and Daley 1972.)
    pub fn set(&mut self, p: u32, w: Ptw)
        requires { p < length self.old }
        ensures { self.new ≡ slice_set self.old p w }
    {
        self.words[p as usize] = w;
    }

    /// Makes each word `Null`. It costs a write for each word. (Source: own.)
    pub fn clear(&mut self)
        ensures { self.new ≡ replicate (length self.old) Null }
    {
        for word in self.words.iter_mut() {
            *word = Ptw::Null;
        }
    }
}
