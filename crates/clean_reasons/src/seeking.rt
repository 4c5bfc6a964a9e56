ghost use Rattle.std.specs.Prelude.{◌≡◌, ◌⊎◌, ℕ, Some, true, false, IfNone, IfSome};
ghost use Rattle.custody_model.specs.Custody.{bound_page, is_uid, uid_of_page};
ghost use Rattle.custody.specs.Tables.{AreTablesOf, custody_of};
ghost use Rattle.clean_reasons.specs.Seeking.{IsLostPage, LosesPage, frame_passes, is_page, lead_passes, names_lead};
ghost use Rattle.clean_reasons.specs.Seeking.{names_use, read_page, seat_passes};

use crate::reasons::DescriptorAt;
use assoc_mem::What;
use custody::Custody;
use custody_model::{DescriptorUse, FrameUse};
use script::Script;

/// What a frame is looked for by.
#[derive(Clone, Copy)]
pub(crate) enum FrameSeek {
    /// A page of this segment is in it.
    Bound { uid: u32 },
    /// A page of this segment is being read into it.
    Read { uid: u32 },
    /// This page is in it.
    BoundTo { uid: u32, page: u32 },
    /// This page is being read into it.
    ReadFor { uid: u32, page: u32 },
    /// Its page is on its way out, and isn't named.
    Unnamed { what: What },
}

/// What a descriptor is looked for by.
#[derive(Clone, Copy)]
pub(crate) enum LeadSeek {
    /// It leads to this segment.
    To { uid: u32 },
    /// It leads to a segment.
    Connected,
    /// It is on its way out, and isn't named.
    Unnamed { what: What },
}

/// What a processor is looked for by.
#[derive(Clone, Copy)]
pub(crate) enum SeatSeek {
    /// It holds the page table word of this frame.
    Page { frame: u32 },
    /// It runs this process, and holds its descriptor of this number.
    Seg { process: u32, number: u32 },
    /// It is to drop something.
    Due,
}

/// A frame, and the page that is in it, or is being read into it.
#[derive(Clone, Copy)]
pub(crate) struct PageAt {
    pub(crate) page: u32,
    pub(crate) frame: u32,
}

/// The page that is in a frame.
pub(crate) fn bound_page(of: FrameUse) -> Option<(u32, u32)>
    ensures { result ≡ bound_page of }
{
    match of {
        FrameUse::Free | FrameUse::Started { .. } => None,
        FrameUse::Current { uid, page } | FrameUse::Going { uid, page } => Some((uid, page)),
    }
}

/// The page that is being read into a frame.
pub(crate) fn read_page(of: FrameUse) -> Option<(u32, u32)>
    ensures { result ≡ read_page of }
{
    match of {
        FrameUse::Started { uid, page } => Some((uid, page)),
        _ => None,
    }
}

/// Whether a page is one of this segment.
fn is_of(page: Option<(u32, u32)>, uid: u32) -> bool
    ensures { result ≡ is_uid uid (uid_of_page page) }
{
    match page {
        Some((of, _)) => of == uid,
        None => false,
    }
}

/// Whether a page is this one.
fn is_page(page: Option<(u32, u32)>, uid: u32, number: u32) -> bool
    ensures { result ≡ is_page uid number page }
{
    match page {
        Some((of, at)) => of == uid && at == number,
        None => false,
    }
}

/// Whether the page table word of a frame with this use is named.
pub(crate) fn names_frame(what: What, frame: u32, of: FrameUse) -> bool
    ensures { result ≡ names_use what frame of }
{
    match what {
        What::All => true,
        What::Page(named) => frame == named,
        What::Seg(uid) => match bound_page(of) {
            Some((of, _)) => of == uid,
            None => false,
        },
    }
}

/// Whether a descriptor with this use is named.
pub(crate) fn names_descriptor(what: What, of: DescriptorUse) -> bool
    ensures { result ≡ names_lead what of }
{
    match what {
        What::All => true,
        What::Page(_) => false,
        What::Seg(uid) => match of {
            DescriptorUse::Free => false,
            DescriptorUse::Current { uid: to } | DescriptorUse::Going { uid: to } => to == uid,
        },
    }
}

/// Whether a frame with this use is looked for.
fn frame_passes(seek: FrameSeek, frame: u32, of: FrameUse) -> bool
    ensures { result ≡ frame_passes seek frame of }
{
    match seek {
        FrameSeek::Bound { uid } => is_of(bound_page(of), uid),
        FrameSeek::Read { uid } => is_of(read_page(of), uid),
        FrameSeek::BoundTo { uid, page } => is_page(bound_page(of), uid, page),
        FrameSeek::ReadFor { uid, page } => is_page(read_page(of), uid, page),
        FrameSeek::Unnamed { what } => {
            matches!(of, FrameUse::Going { .. }) && !names_frame(what, frame, of)
        }
    }
}

/// Whether a descriptor with this use is looked for.
fn lead_passes(seek: LeadSeek, of: DescriptorUse) -> bool
    ensures { result ≡ lead_passes seek of }
{
    match (seek, of) {
        (_, DescriptorUse::Free) => false,
        (LeadSeek::To { uid }, DescriptorUse::Current { uid: to }) => to == uid,
        (LeadSeek::To { uid }, DescriptorUse::Going { uid: to }) => to == uid,
        (LeadSeek::Connected, _) => true,
        (LeadSeek::Unnamed { .. }, DescriptorUse::Current { .. }) => false,
        (LeadSeek::Unnamed { what }, DescriptorUse::Going { .. }) => !names_descriptor(what, of),
    }
}

/// Whether a processor is looked for.
fn seat_passes(custody: &Custody, seek: SeatSeek, cpu: u32) -> bool
    ensures { result ≡ seat_passes seek ((custody_of custody.now).seat cpu) }
{
    match seek {
        SeatSeek::Page { frame } => custody.holds_page(cpu, frame),
        SeatSeek::Seg { process, number } => match custody.process_of(cpu) {
            Some(runs) => runs == process && custody.holds_seg(cpu, number),
            None => false,
        },
        SeatSeek::Due => custody.due_of(cpu).is_some(),
    }
}

/// The least frame that is looked for.
pub(crate) fn least_frame(script: &Script, custody: &Custody, seek: FrameSeek) -> Option<u32>
    requires { AreTablesOf script.now custody.now }
    ensures some { IfSome result (λ f. frame_passes seek f ((custody_of custody.now).frame f) ≡ true) }
    ensures none { IfNone result ((f : ℕ) → frame_passes seek f ((custody_of custody.now).frame f) ≡ false) }
{
    for frame in 0..script.frames() {
        if frame_passes(seek, frame, custody.frame(frame)) {
            return Some(frame);
        }
    }
    None
}

/// The least descriptor of a process that is looked for, by its number.
pub(crate) fn least_number(
    script: &Script,
    custody: &Custody,
    process: u32,
    seek: LeadSeek,
) -> Option<u32>
    requires { AreTablesOf script.now custody.now }
    ensures some { IfSome result (λ n. lead_passes seek ((custody_of custody.now).descriptor process n) ≡ true) }
    ensures none { IfNone result
        ((n : ℕ) → lead_passes seek ((custody_of custody.now).descriptor process n) ≡ false) }
{
    for number in 0..256 {
        if lead_passes(seek, custody.descriptor(process, number)) {
            return Some(number);
        }
    }
    None
}

/// The descriptor of the least process, and its least, that is looked for.
pub(crate) fn least_descriptor(
    script: &Script,
    custody: &Custody,
    seek: LeadSeek,
) -> Option<DescriptorAt>
    requires { AreTablesOf script.now custody.now }
    ensures some { IfSome result
        (λ x. lead_passes seek ((custody_of custody.now).descriptor x.process x.number) ≡ true) }
    ensures none { IfNone result
        ((k n : ℕ) → lead_passes seek ((custody_of custody.now).descriptor k n) ≡ false) }
{
    for process in 0..script.processes() {
        if let Some(number) = least_number(script, custody, process, seek) {
            return Some(DescriptorAt { process, number });
        }
    }
    None
}

/// The least processor that is looked for.
pub(crate) fn least_cpu(script: &Script, custody: &Custody, seek: SeatSeek) -> Option<u32>
    requires { AreTablesOf script.now custody.now }
    ensures some { IfSome result (λ d. seat_passes seek ((custody_of custody.now).seat d) ≡ true) }
    ensures none { IfNone result ((d : ℕ) → seat_passes seek ((custody_of custody.now).seat d) ≡ false) }
{
    for cpu in 0..script.processors() {
        if seat_passes(custody, seek, cpu) {
            return Some(cpu);
        }
    }
    None
}

/// The page that is in a frame or is being read into it, if it is one of this segment from this page on.
fn page_from(custody: &Custody, frame: u32, uid: u32, from: u32) -> Option<u32>
    ensures some { IfSome result (λ q. IsLostPage uid from q ((custody_of custody.now).frame frame)) }
    ensures none { IfNone result ((q : ℕ) → IsLostPage uid from q ((custody_of custody.now).frame frame) → ⊥) }
{
    match custody.frame(frame) {
        FrameUse::Free => None,
        FrameUse::Started { uid: of, page }
        | FrameUse::Current { uid: of, page }
        | FrameUse::Going { uid: of, page } => {
            if of == uid && page >= from {
                Some(page)
            } else {
                None
            }
        }
    }
}

/// The lesser of two pages, with their frames; of two that are the same the first.
fn lesser(best: Option<PageAt>, next: PageAt) -> PageAt
    ensures { (best ≡ Some result) ⊎ (result ≡ next) }
{
    match best {
        Some(best) if best.page <= next.page => best,
        _ => next,
    }
}

/// The least page of a segment from this one on that is in a frame or is being read into one, and its least frame.
pub(crate) fn least_page(script: &Script, custody: &Custody, uid: u32, from: u32) -> Option<PageAt>
    requires { AreTablesOf script.now custody.now }
    ensures some { IfSome result (λ x. IsLostPage uid from x.page ((custody_of custody.now).frame x.frame)) }
    ensures none { IfNone result (LosesPage (custody_of custody.now) uid from → ⊥) }
{
    let mut best = None;
    for frame in 0..script.frames() {
        if let Some(page) = page_from(custody, frame, uid, from) {
            best = Some(lesser(best, PageAt { page, frame }));
        }
    }
    best
}
