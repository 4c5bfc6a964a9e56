ghost use Rattle.std.specs.Prelude.{◌≡◌, ◌-◌, ◌≤◌, ◌<◌, ◌++◌, [], length, replicate, slice_index_or, slice_set, vec_len};
ghost use Rattle.std.specs.Prelude.{vec_capacity, IfOk};
ghost use Rattle.volumes.specs.FullPages.{HaveFullPages};

use crate::NoMemory;
use mword::{Block, Page};
use std::alloc::Global;
use std::marker::Model;

/// A list of pages in core, with room for all of them, of which those up to the highest written are held. The pages
/// after these are zeros. (Source: own.)
#[derive(Drop)]
pub(crate) struct CorePages {
    written: Vec<Block>,
    size: u32,
}

impl Model for CorePages {
    ghost use Rattle.std.specs.Prelude.{ℕ, List, vec_capacity};
    ghost use Rattle.volumes.specs.CorePages.{pages_of, AreHeld};

    ghost Value = { List (List ℕ) };

    ghost view = { λ p. pages_of p.written.items p.size };

    ghost invariant = { λ p. AreHeld p.written.items p.size (vec_capacity p.written) };
}

impl CorePages {
    /// As many pages of zeros. `NoMemory` is want of memory. It takes room of 8 KiB for each page, and writes none.
    pub(crate) fn new(alloc: Global, size: u32) -> Result<CorePages, NoMemory>
        ensures zeros { IfOk result (λ pages. pages ≡ replicate size (replicate 1024 0)) }
        ensures full { IfOk result (λ pages. HaveFullPages pages) }
    {
        let written = Vec::with_capacity(alloc, size as usize)?;
        Ok(CorePages { written, size })
    }

    /// How many pages there are.
    pub(crate) fn size(&self) -> u32
        ensures size { result ≡ length self.now }
        ensures full { HaveFullPages self.now }
    {
        self.size
    }

    /// Copies page `r` to `to`.
    pub(crate) fn read(&self, r: u32, to: &mut Page)
        requires { r < length self.now }
        ensures { to.new ≡ slice_index_or self.now r [] }
    {
        match self.written.get(r as usize) {
            Some(block) => to.copy_from_block(block),
            None => to.clear_from(0),
        }
    }

    /// Makes page `r` the page `from`, and leaves the others. It takes no memory.
    pub(crate) fn write(&mut self, r: u32, from: &Page)
        requires { r < length self.old }
        ensures page { self.new ≡ slice_set self.old r from.now }
        ensures full { HaveFullPages self.new }
    {
        let r = r as usize;
        if r < self.written.len() {
            self.written[r].copy_from(from);
        } else {
            reach(&mut self.written, r);
            self.written.push_reserved(Block::of(from));
        }
    }
}

/// Holds pages of zeros up to page `r`.
fn reach(written: &mut Vec<Block>, r: usize)
    requires held { length written.old.items ≤ r }
    requires room { r < vec_capacity written.old }
    ensures pages { written.new.items
        ≡ written.old.items ++ replicate (r - length written.old.items) (replicate 1024 0) }
    ensures size { vec_len written.new ≡ r }
    ensures capacity { vec_capacity written.new ≡ vec_capacity written.old }
{
    for _ in written.len()..r {
        written.push_reserved(Block::zero());
    }
}
