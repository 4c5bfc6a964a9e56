ghost use Rattle.std.specs.Prelude.{◌≡◌, Some, MatchOption};
ghost use Rattle.std.specs.Bool.{Decides};
ghost use Rattle.script.specs.Plans.{Plan};
ghost use Rattle.custody_model.specs.Allowed.{IsFront, MayGo};
ghost use Rattle.flat_model.specs.Store.{Store};
ghost use Rattle.flat_store.specs.Shown.{Shows};
ghost use Rattle.book.specs.declared.entries.Entry.TheVariants as entry;
ghost use Rattle.custody.specs.Tables.{custody_of, seat_at};
ghost use Rattle.clean_reasons.specs.Reasons.{IsSo, ReadySays, Tells};
ghost use Rattle.clean_reasons.specs.Rows.{IsOfFront};

use crate::reasons::{Absent, DescriptorAt, Held, ReadyReason, Reason, SeatReason};
use crate::{row_descriptors, row_frames};
use assoc_mem::What;
use custody::Custody;
use flat_store::FlatStore;
use script::Script;

/// Why a processor may not take part from now on.
pub(crate) fn against_online(script: &Script, custody: &Custody, cpu: u32) -> Option<Reason>
    ensures { (s : Store) → Tells script.now s (custody_of custody.now) (entry.Online cpu) result }
{
    if cpu >= script.processors() {
        return Some(Reason::Absent(Absent::Processor { cpu }));
    }
    if custody.is_online(cpu) {
        return Some(Reason::Seat(SeatReason::Online { cpu }));
    }
    None
}

/// Why a process isn't the first of those that are ready.
fn against_front(custody: &Custody, process: u32) -> Option<ReadyReason>
    ensures { (s : Store) → MatchOption result (IsFront (custody_of custody.now).ready process)
        (λ r. IsOfFront process r × ReadySays s (custody_of custody.now) r) }
{
    match custody.front() {
        None => Some(ReadyReason::Empty),
        Some(front) if front != process => Some(ReadyReason::Front { front, process }),
        Some(_) => None,
    }
}

/// Why a processor may not load a process.
pub(crate) fn against_load(
    script: &Script,
    custody: &Custody,
    cpu: u32,
    process: u32,
) -> Option<Reason>
    ensures { (s : Store) → Tells script.now s (custody_of custody.now) (entry.Load cpu process) result }
{
    if cpu >= script.processors() {
        return Some(Reason::Absent(Absent::Processor { cpu }));
    }
    if process >= script.processes() {
        return Some(Reason::Absent(Absent::Process { process }));
    }
    if !custody.is_online(cpu) {
        return Some(Reason::Seat(SeatReason::Offline { cpu }));
    }
    if let Some(runs) = custody.process_of(cpu) {
        return Some(Reason::Seat(SeatReason::Busy { cpu, process: runs }));
    }
    match against_front(custody, process) {
        Some(reason) => Some(Reason::Ready(reason)),
        None => None,
    }
}

/// Why a processor must run its process on.
fn against_going(store: &FlatStore, custody: &Custody, cpu: u32, process: u32) -> Option<Reason>
    ensures { (p : Plan) (s : Store) → Shows p store.now s → (seat_at custody.now.seats cpu).process ≡ Some process
        → MatchOption result (MayGo s (custody_of custody.now) (seat_at custody.now.seats cpu) process)
        (IsSo p s (custody_of custody.now) (entry.Leave cpu)) }
{
    if store.has_ended(process) {
        return None;
    }
    if custody.front().is_none() {
        return Some(Reason::Ready(ReadyReason::Last { process }));
    }
    if custody.has_had_its_turn(cpu) {
        return None;
    }
    let count = custody.turn(cpu);
    Some(Reason::Seat(SeatReason::Early {
        process,
        count,
        cpu,
    }))
}

/// Why a processor must run its process on, or has none.
pub(crate) fn against_leave(
    script: &Script,
    store: &FlatStore,
    custody: &Custody,
    cpu: u32,
) -> Option<Reason>
    ensures { (s : Store) → Shows script.now store.now s
        → Tells script.now s (custody_of custody.now) (entry.Leave cpu) result }
{
    if cpu >= script.processors() {
        return Some(Reason::Absent(Absent::Processor { cpu }));
    }
    match custody.process_of(cpu) {
        Some(process) => against_going(store, custody, cpu, process),
        None => Some(Reason::Seat(SeatReason::Idle { cpu })),
    }
}

/// Why a processor may not have dropped what it was told to.
pub(crate) fn against_clear(
    script: &Script,
    custody: &Custody,
    cpu: u32,
    what: What,
) -> Option<Reason>
    ensures { (s : Store) → Tells script.now s (custody_of custody.now) (entry.Clear cpu what) result }
{
    if cpu >= script.processors() {
        return Some(Reason::Absent(Absent::Processor { cpu }));
    }
    match custody.due_of(cpu) {
        None => Some(Reason::Seat(SeatReason::NoneDue { cpu })),
        Some(due) => {
            if is_same(due, what) {
                None
            } else {
                Some(Reason::Seat(SeatReason::OtherDue { cpu, due, what }))
            }
        }
    }
}

/// Whether two things to drop are one.
pub(crate) fn is_same(one: What, other: What) -> bool
    ensures { Decides result (one ≡ other) }
{
    match (one, other) {
        (What::All, What::All) => true,
        (What::Page(f), What::Page(g)) => f == g,
        (What::Seg(u), What::Seg(v)) => u == v,
        _ => false,
    }
}

/// Why a processor may not hold a descriptor of its process.
pub(crate) fn against_fill_seg(
    script: &Script,
    custody: &Custody,
    cpu: u32,
    number: u32,
) -> Option<Reason>
    ensures { (s : Store) → Tells script.now s (custody_of custody.now) (entry.FillSeg cpu number) result }
{
    if cpu >= script.processors() {
        return Some(Reason::Absent(Absent::Processor { cpu }));
    }
    let Some(process) = custody.process_of(cpu) else {
        return Some(Reason::Seat(SeatReason::Idle { cpu }));
    };
    if let Some(reason) = row_descriptors::against_current(custody, process, number) {
        return Some(Reason::Descriptor(reason));
    }
    if custody.holds_seg(cpu, number) {
        let held = Held::Descriptor(DescriptorAt { process, number });
        return Some(Reason::Seat(SeatReason::HoldsAlready { cpu, held }));
    }
    None
}

/// Why a processor may not hold the page table word of a frame.
pub(crate) fn against_fill_page(
    script: &Script,
    custody: &Custody,
    cpu: u32,
    frame: u32,
) -> Option<Reason>
    ensures { (s : Store) → Tells script.now s (custody_of custody.now) (entry.FillPage cpu frame) result }
{
    if cpu >= script.processors() {
        return Some(Reason::Absent(Absent::Processor { cpu }));
    }
    if frame >= script.frames() {
        return Some(Reason::Absent(Absent::Frame { frame }));
    }
    if let Some(reason) = row_frames::against_current(custody, frame) {
        return Some(Reason::Frame(reason));
    }
    if custody.holds_page(cpu, frame) {
        let held = Held::Frame(frame);
        return Some(Reason::Seat(SeatReason::HoldsAlready { cpu, held }));
    }
    None
}
