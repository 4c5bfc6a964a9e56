ghost use Rattle.std.specs.Prelude.{◌≡◌, not};
ghost use Rattle.std.specs.List.{filter};
ghost use Rattle.custody.specs.Changes.{names_held, names_lead, names_use};
ghost use Rattle.custody.specs.Uses.{descriptor_at, frame_at};
ghost use Rattle.custody.specs.Tables.{row_at};

use crate::commands::bound_page;
use crate::descriptors::Descriptors;
use crate::frames::Frames;
use arrayvec::ArrayVec;
use assoc_mem::What;
use custody_model::{DescriptorUse, FrameUse};

/// Whether the page table word of a frame with this use is named.
fn names_frame(what: What, frame: u32, of: FrameUse) -> bool
    ensures { result ≡ names_use what frame of }
{
    match what {
        What::All => true,
        What::Page(named) => frame == named,
        What::Seg(uid) => match bound_page(of) {
            Some((of, _)) => of == uid,
            None => false,
        },
    }
}

/// Whether a descriptor with this use is named.
fn names_descriptor(what: What, of: DescriptorUse) -> bool
    ensures { result ≡ names_lead what of }
{
    match what {
        What::All => true,
        What::Page(_) => false,
        What::Seg(uid) => match of {
            DescriptorUse::Free => false,
            DescriptorUse::Current { uid: to } | DescriptorUse::Going { uid: to } => to == uid,
        },
    }
}

/// What a descriptor of a process leads to; nothing, where there is no such process or number.
pub(crate) fn descriptor_of(rows: &Vec<Descriptors>, process: u32, number: u32) -> DescriptorUse
    ensures { result ≡ descriptor_at (row_at rows.now.items process) number }
{
    match rows.get(process as usize) {
        Some(row) => row.at(number),
        None => DescriptorUse::Free,
    }
}

/// Drops the page table words that are named.
pub(crate) fn drop_pages(pages: &mut ArrayVec<u32, 16>, frames: &Frames, what: What)
    ensures { pages.new.items ≡ filter (λ f. not (names_use what f (frame_at frames.now f))) pages.old.items }
{
    pages.retain(|frame| !names_frame(what, *frame, frames.at(*frame)));
}

/// Drops the descriptors of a process that are named.
pub(crate) fn drop_segs(
    segs: &mut ArrayVec<u32, 16>,
    rows: &Vec<Descriptors>,
    process: u32,
    what: What,
)
    ensures { segs.new.items ≡ filter (λ n. not (names_lead what (descriptor_at (row_at rows.now.items process) n)))
        segs.old.items }
{
    segs.retain(|number| !names_descriptor(what, descriptor_of(rows, process, *number)));
}
