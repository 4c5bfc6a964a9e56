//! Which frames processors are reading pages into.

ghost use Rattle.std.specs.Prelude.{◌≡◌, ◌<◌, length};
ghost use Rattle.machine_model.specs.Reads.{frame_reading, processor_at};
ghost use Rattle.machine_tables.specs.Reading.{AreRead, least_from, lesser, read_by, test_of};

use crate::tables::Tables;
use machine_model::Processor;
use processor::Transfer;
use volumes::Drive;

/// Which pages of a segment are looked for (own).
#[derive(Clone, Copy)]
pub(crate) enum Pages {
    /// Each of them.
    Any,
    /// This one.
    Only(u32),
    /// Those from this one on.
    From(u32),
}

impl Pages {
    /// Whether a page is one of them.
    fn has(self, page: u32) -> bool
        ensures { result ≡ test_of self page }
    {
        match self {
            Pages::Any => true,
            Pages::Only(only) => page == only,
            Pages::From(low) => low <= page,
        }
    }
}

/// The frame into which a transfer reads such a page of a segment.
fn read_by(uid: u32, pages: Pages, transfer: Option<Transfer>) -> Option<u32>
    ensures { result ≡ read_by uid (test_of pages) transfer }
{
    match transfer {
        Some(transfer) if transfer.uid == uid && pages.has(transfer.page) => Some(transfer.frame),
        _ => None,
    }
}

/// The lesser of two numbers, where there are two.
fn lesser(one: Option<u32>, other: Option<u32>) -> Option<u32>
    ensures { result ≡ lesser one other }
{
    match (one, other) {
        (Some(one), Some(other)) => Some(if one <= other { one } else { other }),
        (Some(one), None) => Some(one),
        (None, other) => other,
    }
}

/// A processor.
fn processor_at(processors: &[Processor], place: usize) -> &Processor
    requires { place < length processors.now }
    ensures { result.now ≡ processor_at processors.now place }
{
    &processors[place]
}

/// The least frame into which processors read such a page of a segment.
#[tactic(auto, using(crate::proofs::ReadingLaws::least_first, crate::proofs::ReadingLaws::least_step))]
fn least_read(processors: &[Processor], uid: u32, pages: Pages) -> Option<u32>
    ensures { result ≡ least_from uid (test_of pages) processors.now (length processors.now) }
{
    let mut least = None;
    for place in 0..processors.len() {
        let transfer = processor_at(processors, place).cpu.transfer;
        least = lesser(least, read_by(uid, pages, transfer));
    }
    least
}

impl<D: Drive> Tables<D> {
    /// The least frame into which such a page of a segment is being read. It goes round the processors.
    #[tactic(auto, using(crate::proofs::ReadingLaws::reading_is))]
    pub(crate) fn frame_reading(&self, uid: u32, pages: Pages) -> Option<u32>
        requires { AreRead self.now.state.store.pages.core self.now.state.processors }
        ensures { result ≡ frame_reading self.now.state.store.pages.core uid (test_of pages) }
    {
        least_read(&self.processors, uid, pages)
    }
}
