ghost use Rattle.std.specs.Prelude.{◌≡◌, ◌≤◌, ◌<◌, ◌↔◌, ℕ, Bool, true, false, List, [], Option, Some, length};
ghost use Rattle.std.specs.Prelude.{replicate, slice_index_or, slice_set, vec_len, IfOk, OnOk, OnErr, IsTrue, IsErr};
ghost use Rattle.std.specs.List.{list_any};
ghost use Rattle.site_io.specs.Faults.{Rose};
ghost use Rattle.volumes.specs.FailLine.{names, names_next, HasFewFaults, IsOneMore};
ghost use Rattle.volumes.specs.FullPages.{HaveFullPages};
ghost use Rattle.volumes.specs.CoreDrive.{fresh_drive};

use crate::NoMemory;
use crate::core_pages::CorePages;
use crate::drive::{Drive, FailLine};
use mword::Page;
use site_io::Failed;
use std::alloc::Global;
use std::marker::Model;

/// A drive whose pages are in core, and which fails exactly at the calls that its lines name. It is seen besides as
/// its numbers of reads and writes so far. (Source: own.)
#[derive(Drop)]
pub struct CoreDrive {
    pages: CorePages,
    fails: Vec<FailLine>,
    reads: u64,
    writes: u64,
}

impl Model for CoreDrive {
    ghost use Rattle.std.specs.Prelude.{◌<◌, ◌^◌};
    ghost use Rattle.volumes.specs.CoreDrive.{DriveState};
    ghost use Rattle.volumes.specs.FullPages.{HaveFullPages};

    ghost Value = { DriveState };

    ghost view = { λ d. record { pages = d.pages; fails = d.fails.items; reads = d.reads; writes = d.writes } };

    ghost invariant = { λ d. (d.reads < 2 ^ 64) × (d.writes < 2 ^ 64) × HaveFullPages d.pages };
}

impl CoreDrive {
    /// A drive of `records` pages of zeros, of which the calls that `fails` names fail. `NoMemory` is want of memory.
    /// It takes room of 8 KiB for each page, and writes none.
    pub fn new(alloc: Global, records: u32, fails: Vec<FailLine>) -> Result<CoreDrive, NoMemory>
        ensures { IfOk result (λ d. d ≡ fresh_drive records fails.items) }
    {
        let pages = CorePages::new(alloc, records)?;
        Ok(CoreDrive {
            pages,
            fails,
            reads: 0,
            writes: 0,
        })
    }

    /// The reads and the writes so far, each counted to 2^64 - 1, the failing ones too.
    pub fn calls(&self) -> (u64, u64)
        ensures { result ≡ (self.now.reads, self.now.writes) }
    {
        (self.reads, self.writes)
    }
}

/// As many pages of zeros. `NoMemory` is want of memory. It takes 8 KiB for each page. (Source: own.)
pub fn zero_pages(alloc: Global, count: u32) -> Result<Vec<Page>, NoMemory>
    ensures { IfOk result (λ pages. pages.items ≡ replicate count (replicate 1024 0)) }
{
    let mut pages = Vec::with_capacity(alloc, count as usize)?;
    for _ in 0..count {
        pages.push_reserved(Page::zero(alloc)?);
    }
    Ok(pages)
}

/// Whether a line names the call that comes after so many of its kind.
fn names_the_next(lines: &[FailLine], write: bool, before: u64) -> bool
    ensures { result ≡ names_next lines.now write before }
{
    before < u64::MAX && some_names(lines, write, before + 1)
}

/// Whether a line names the call of this kind and number.
fn some_names(lines: &[FailLine], write: bool, number: u64) -> bool
    ensures { result ≡ list_any (names write number) lines.now }
{
    lines.iter().any(|line| line_names(*line, write, number))
}

/// Whether the line names the call of this kind and number.
fn line_names(line: FailLine, write: bool, number: u64) -> bool
    ensures { result ≡ names write number line }
{
    let first = u64::from(line.number);
    line.write == write
        && if line.onward {
            first <= number
        } else {
            first == number
        }
}

impl Drive for CoreDrive {
    ghost use Rattle.std.specs.Prelude.{Some};
    ghost use Rattle.volumes.specs.CoreDrive.{faults_of, after_read, after_write, after_done_write};

    ghost pages = { λ d. d.pages };

    ghost faults = { faults_of };

    ghost plan = { λ d. Some d.fails };

    ghost places = { λ _. 0 };

    fn size(&self) -> u32
        ensures size { result ≡ length self.now.pages }
        ensures few { HasFewFaults (Some self.now.fails) (faults_of self.now) }
        ensures full { HaveFullPages self.now.pages }
    {
        self.pages.size()
    }

    #[tactic(auto, using(crate::proofs::Faults::read_faults))]
    fn read_page(&mut self, r: u32, to: &mut Page) -> Result<(), Failed>
        requires { r < length self.old.pages }
        ensures fails { IsErr result ↔ IsTrue (names_next self.old.fails false self.old.reads) }
        ensures ok { OnOk result (to.new ≡ slice_index_or self.old.pages r []) }
        ensures err { OnErr result (to.new ≡ to.old) }
        ensures calls { self.new ≡ after_read self.old }
        ensures told { OnOk result (faults_of self.new ≡ faults_of self.old) }
        ensures once { OnErr result (IsOneMore (faults_of self.old) (faults_of self.new)) }
        ensures rose { OnErr result (Rose (faults_of self.old) (faults_of self.new)) }
        ensures grows { faults_of self.old ≤ faults_of self.new }
        ensures few { HasFewFaults (Some self.new.fails) (faults_of self.new) }
    {
        let fails = names_the_next(&self.fails, false, self.reads);
        self.reads = self.reads.saturating_add(1);
        if fails {
            return Err(Failed);
        }
        self.pages.read(r, to);
        Ok(())
    }

    #[tactic(auto, using(crate::proofs::Faults::write_faults))]
    fn write_page(&mut self, r: u32, from: &Page) -> Result<(), Failed>
        requires { r < length self.old.pages }
        ensures fails { IsErr result ↔ IsTrue (names_next self.old.fails true self.old.writes) }
        ensures ok { OnOk result (self.new ≡ after_done_write self.old r from.now) }
        ensures err { OnErr result (self.new ≡ after_write self.old) }
        ensures full { HaveFullPages self.new.pages }
        ensures told { OnOk result (faults_of self.new ≡ faults_of self.old) }
        ensures once { OnErr result (IsOneMore (faults_of self.old) (faults_of self.new)) }
        ensures rose { OnErr result (Rose (faults_of self.old) (faults_of self.new)) }
        ensures grows { faults_of self.old ≤ faults_of self.new }
        ensures few { HasFewFaults (Some self.new.fails) (faults_of self.new) }
    {
        let fails = names_the_next(&self.fails, true, self.writes);
        self.writes = self.writes.saturating_add(1);
        if fails {
            return Err(Failed);
        }
        self.pages.write(r, from);
        Ok(())
    }
}
