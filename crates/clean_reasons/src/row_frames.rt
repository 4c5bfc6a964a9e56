ghost use Rattle.std.specs.Bool.{Decides};
ghost use Rattle.std.specs.Prelude.{◌≡◌, ◌≢◌, true, false, MatchOption};
ghost use Rattle.flat_model.specs.Store.{Store};
ghost use Rattle.book.specs.declared.entries.Entry.TheVariants as entry;
ghost use Rattle.custody_model.specs.Allowed.{MayStart};
ghost use Rattle.custody_model.specs.declared.FrameUse.TheVariants as slot;
ghost use Rattle.custody_model.specs.Custody.{is_current_frame};
ghost use Rattle.custody_model.specs.Effects.{IsInNoFrame};
ghost use Rattle.custody.specs.Tables.{AreTablesOf, custody_of};
ghost use Rattle.clean_reasons.specs.Reasons.{FrameSays, IsSo, Tells};
ghost use Rattle.clean_reasons.specs.Rows.{IsOfAbsence, IsOfComing, IsOfCurrent, IsOfFreedom};

use crate::reasons::{Absent, ActiveReason, FrameReason, Held, PageOf, Reason, SeatReason};
use crate::seeking::{FrameSeek, SeatSeek, least_cpu, least_frame};
use custody::Custody;
use custody_model::FrameUse;
use script::Script;

/// Why a page isn't out of all frames.
pub(crate) fn against_absence(
    script: &Script,
    custody: &Custody,
    uid: u32,
    page: u32,
) -> Option<FrameReason>
    requires { AreTablesOf script.now custody.now }
    ensures { MatchOption result (IsInNoFrame (custody_of custody.now) uid page)
        (λ r. IsOfAbsence uid page r × FrameSays (custody_of custody.now) r) }
{
    if let Some(frame) = least_frame(script, custody, FrameSeek::BoundTo { uid, page }) {
        let page = PageOf { uid, page };
        return Some(FrameReason::PageIn { page, frame });
    }
    if let Some(frame) = least_frame(script, custody, FrameSeek::ReadFor { uid, page }) {
        let page = PageOf { uid, page };
        return Some(FrameReason::PageRead { page, frame });
    }
    None
}

/// Why a page may not be released.
pub(crate) fn against_release(
    script: &Script,
    custody: &Custody,
    uid: u32,
    page: u32,
) -> Option<Reason>
    requires { AreTablesOf script.now custody.now }
    ensures { (s : Store) → Tells script.now s (custody_of custody.now) (entry.Release uid page) result }
{
    match against_absence(script, custody, uid, page) {
        Some(reason) => Some(Reason::Frame(reason)),
        None => None,
    }
}

/// Why a frame isn't free.
fn against_freedom(custody: &Custody, frame: u32) -> Option<FrameReason>
    ensures { MatchOption result ((custody_of custody.now).frame frame ≡ slot.Free)
        (λ r. IsOfFreedom frame r × FrameSays (custody_of custody.now) r) }
{
    match custody.frame(frame) {
        FrameUse::Free => None,
        FrameUse::Started { uid, page } => {
            let page = PageOf { uid, page };
            Some(FrameReason::Read { frame, page })
        }
        FrameUse::Current { uid, page } | FrameUse::Going { uid, page } => {
            let page = PageOf { uid, page };
            Some(FrameReason::Bound { frame, page })
        }
    }
}

/// Why a page may not come into a frame.
fn against_coming(
    script: &Script,
    custody: &Custody,
    frame: u32,
    uid: u32,
    page: u32,
) -> Option<FrameReason>
    requires { AreTablesOf script.now custody.now }
    ensures { MatchOption result
        (((custody_of custody.now).frame frame ≡ slot.Free) × IsInNoFrame (custody_of custody.now) uid page)
        (λ r. IsOfComing frame uid page r × FrameSays (custody_of custody.now) r) }
{
    match against_freedom(custody, frame) {
        Some(reason) => Some(reason),
        None => against_absence(script, custody, uid, page),
    }
}

/// Why a read of a page into a frame may not start.
pub(crate) fn against_start(
    script: &Script,
    custody: &Custody,
    frame: u32,
    uid: u32,
    page: u32,
) -> Option<Reason>
    requires { AreTablesOf script.now custody.now }
    ensures start { (s : Store) → Tells script.now s (custody_of custody.now) (entry.Start frame uid page) result }
    ensures here { (s : Store) → (custody_of custody.now).frame frame ≢ slot.Started uid page
        → MatchOption result (MayStart script.now (custody_of custody.now) frame uid page)
        (IsSo script.now s (custody_of custody.now) (entry.Here frame uid page)) }
{
    if frame >= script.frames() {
        return Some(Reason::Absent(Absent::Frame { frame }));
    }
    if let Some(reason) = against_coming(script, custody, frame, uid, page) {
        return Some(Reason::Frame(reason));
    }
    if !custody.is_active(uid) {
        return Some(Reason::Active(ActiveReason::Inactive { uid }));
    }
    None
}

/// Whether a page is being read into a frame.
fn is_read_for(custody: &Custody, frame: u32, uid: u32, page: u32) -> bool
    ensures { Decides result ((custody_of custody.now).frame frame ≡ slot.Started uid page) }
{
    match custody.frame(frame) {
        FrameUse::Started { uid: of, page: at } => of == uid && at == page,
        _ => false,
    }
}

/// Why a page may not be in a frame from now on.
pub(crate) fn against_here(
    script: &Script,
    custody: &Custody,
    frame: u32,
    uid: u32,
    page: u32,
) -> Option<Reason>
    requires { AreTablesOf script.now custody.now }
    ensures { (s : Store) → Tells script.now s (custody_of custody.now) (entry.Here frame uid page) result }
{
    if !is_read_for(custody, frame, uid, page) {
        return against_start(script, custody, frame, uid, page);
    }
    if !custody.is_active(uid) {
        return Some(Reason::Active(ActiveReason::Inactive { uid }));
    }
    None
}

/// Why a read into a frame may not have failed.
pub(crate) fn against_lose(script: &Script, custody: &Custody, frame: u32) -> Option<Reason>
    ensures { (s : Store) → Tells script.now s (custody_of custody.now) (entry.Lose frame) result }
{
    if frame >= script.frames() {
        return Some(Reason::Absent(Absent::Frame { frame }));
    }
    match custody.frame(frame) {
        FrameUse::Started { .. } => None,
        _ => Some(Reason::Frame(FrameReason::NotRead { frame })),
    }
}

/// Why the page in a frame isn't current.
pub(crate) fn against_current(custody: &Custody, frame: u32) -> Option<FrameReason>
    ensures { MatchOption result (is_current_frame ((custody_of custody.now).frame frame) ≡ true)
        (λ r. IsOfCurrent frame r × FrameSays (custody_of custody.now) r) }
{
    match custody.frame(frame) {
        FrameUse::Free | FrameUse::Started { .. } => Some(FrameReason::NoPage { frame }),
        FrameUse::Going { .. } => Some(FrameReason::Going { frame }),
        FrameUse::Current { .. } => None,
    }
}

/// Why the page in a frame may not be on its way out from now on.
pub(crate) fn against_take(script: &Script, custody: &Custody, frame: u32) -> Option<Reason>
    ensures { (s : Store) → Tells script.now s (custody_of custody.now) (entry.Take frame) result }
{
    if frame >= script.frames() {
        return Some(Reason::Absent(Absent::Frame { frame }));
    }
    match against_current(custody, frame) {
        Some(reason) => Some(Reason::Frame(reason)),
        None => None,
    }
}

/// Why the page in a frame, on its way out, may neither be gone nor back.
pub(crate) fn against_end_of_page(script: &Script, custody: &Custody, frame: u32) -> Option<Reason>
    requires { AreTablesOf script.now custody.now }
    ensures gone { (s : Store) → Tells script.now s (custody_of custody.now) (entry.GonePage frame) result }
    ensures back { (s : Store) → Tells script.now s (custody_of custody.now) (entry.BackPage frame) result }
{
    if frame >= script.frames() {
        return Some(Reason::Absent(Absent::Frame { frame }));
    }
    if !matches!(custody.frame(frame), FrameUse::Going { .. }) {
        return Some(Reason::Frame(FrameReason::Stays { frame }));
    }
    match least_cpu(script, custody, SeatSeek::Page { frame }) {
        Some(cpu) => Some(Reason::Seat(SeatReason::Holds {
            cpu,
            held: Held::Frame(frame),
        })),
        None => None,
    }
}
