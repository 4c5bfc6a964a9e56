//! Trailers, known segment tables and descriptor segments, with the exact effect of each write.

ghost use Rattle.std.specs.Prelude.{◌≡◌, ◌<◌, ◌↔◌, ℕ, IsNone, length, IfOk, IfSome, IsSome, Contains, Some, None};
ghost use Rattle.std.specs.Prelude.{replicate};
ghost use Rattle.known_segs.specs.Known.{uid_of, number_for, known_count, with_number, without_number};
ghost use Rattle.known_segs.specs.Known.{IsUnknown, HasOneNumberEach};
ghost use Rattle.descriptor_seg.specs.Descriptors.{sdw_at, all_faults};
ghost use Rattle.trailers.specs.Trailer.{trailers_of};
ghost use Rattle.seg_control.specs.Control.{kst_at, sdws_at};
ghost use Rattle.seg_control.specs.Effects.{no_links, linked, unlinked, made_known, forgotten};

use crate::NoMemory;
use descriptor_seg::{DescSeg, Sdw};
use known_segs::Kst;
use mnames::Mode;
use std::alloc::Global;
use std::marker::Model;
use trailers::Trailers;

/// The trailers of each place, and the known segment table and the descriptor segment of each process.
#[derive(Drop)]
pub(crate) struct Links {
    trailers: Trailers,
    known: Vec<Kst>,
    descriptors: Vec<DescSeg>,
}

impl Model for Links {
    ghost use Rattle.seg_control.specs.Control.{Links};

    ghost Value = { Links };

    ghost view = { λ l. record { trailers = l.trailers; known = l.known.items; descriptors = l.descriptors.items } };
}

impl Links {
    /// Nothing is known or connected. `NoMemory` is want of memory.
    pub(crate) fn new(alloc: Global, places: u32, processes: u32) -> Result<Links, NoMemory>
        ensures { IfOk result (λ l. l ≡ no_links places processes) }
    {
        let trailers = Trailers::new(alloc, places)?;
        let known = unknown(alloc, processes)?;
        let descriptors = faulting(alloc, processes)?;
        Ok(Links {
            trailers,
            known,
            descriptors,
        })
    }

    /// The trailers.
    pub(crate) fn trailers(&self) -> &Trailers
        ensures { result.now ≡ self.now.trailers }
    {
        &self.trailers
    }

    /// The known segment table of a process.
    pub(crate) fn kst(&self, process: u32) -> &Kst
        requires { process < length self.now.known }
        ensures { result.now ≡ kst_at self.now.known process }
    {
        &self.known[process as usize]
    }

    /// The descriptor segment of a process.
    pub(crate) fn descriptors(&self, process: u32) -> &DescSeg
        requires { process < length self.now.descriptors }
        ensures { result.now ≡ sdws_at self.now.descriptors process }
    {
        &self.descriptors[process as usize]
    }

    /// A number of a process leads to place `aste`.
    pub(crate) fn connect(&mut self, aste: u32, process: u32, number: u32, mode: Mode, pages: u32)
        requires place { aste < length self.old.trailers }
        requires room { length (trailers_of self.old.trailers aste) < 32 }
        requires process { process < length self.old.descriptors }
        requires number { number < 256 }
        ensures { self.new ≡ linked self.old process number aste mode pages }
    {
        self.trailers.add(aste, process, number);
        self.descriptors[process as usize].connect(number, aste, mode, pages);
    }

    /// A number of a process, which leads to place `aste`, faults.
    pub(crate) fn cut(&mut self, aste: u32, process: u32, number: u32)
        requires place { aste < length self.old.trailers }
        requires there { Contains (trailers_of self.old.trailers aste) (process, number) }
        requires process { process < length self.old.descriptors }
        requires number { number < 256 }
        ensures { self.new ≡ unlinked self.old process number (Some aste) }
    {
        self.trailers.remove(aste, process, number);
        self.descriptors[process as usize].cut(number);
    }

    /// A segment is known to a process.
    pub(crate) fn make_known(&mut self, process: u32, uid: u32) -> Option<u32>
        requires { process < length self.old.known }
        ensures number { result ≡ number_for (kst_at self.old.known process) uid }
        ensures effect { self.new ≡ made_known self.old process uid result }
        ensures within { IfSome result (λ n. n < 256) }
        ensures full { IsNone result ↔ ((known_count (kst_at self.old.known process) ≡ 256)
            × IsUnknown (kst_at self.old.known process) uid) }
        ensures once { HasOneNumberEach (with_number (kst_at self.old.known process) uid result) }
        ensures size { length (with_number (kst_at self.old.known process) uid result)
            ≡ length (kst_at self.old.known process) }
        ensures kept { (n v : ℕ) → uid_of (kst_at self.old.known process) n ≡ Some v
            → uid_of (with_number (kst_at self.old.known process) uid result) n ≡ Some v }
    {
        self.known[process as usize].make_known(uid)
    }

    /// A number of a process stands for nothing.
    pub(crate) fn forget(&mut self, process: u32, number: u32)
        requires process { process < length self.old.known }
        requires known { IsSome (uid_of (kst_at self.old.known process) number) }
        ensures effect { self.new ≡ forgotten self.old process number }
        ensures once { HasOneNumberEach (without_number (kst_at self.old.known process) number) }
    {
        self.known[process as usize].forget(number);
    }
}

/// As many tables in which nothing is known.
fn unknown(alloc: Global, processes: u32) -> Result<Vec<Kst>, NoMemory>
    ensures { IfOk result (λ known. known.items ≡ replicate processes (replicate 256 None)) }
{
    let mut known = Vec::with_capacity(alloc, processes as usize)?;
    for _process in 0..processes {
        known.push_reserved(Kst::new(alloc)?);
    }
    Ok(known)
}

/// As many descriptor segments of faults.
fn faulting(alloc: Global, processes: u32) -> Result<Vec<DescSeg>, NoMemory>
    ensures { IfOk result (λ descriptors. descriptors.items ≡ replicate processes all_faults) }
{
    let mut descriptors = Vec::with_capacity(alloc, processes as usize)?;
    for _process in 0..processes {
        descriptors.push_reserved(DescSeg::new(alloc)?);
    }
    Ok(descriptors)
}
