ghost use Rattle.std.specs.Prelude.{◌≡◌, Some};
ghost use Rattle.std.specs.Bool.{Decides};
ghost use Rattle.script.specs.Plans.{Plan};
ghost use Rattle.flat_model.specs.Store.{Store, known_uid};
ghost use Rattle.flat_store.specs.Shown.{Shows};
ghost use Rattle.custody_model.specs.Custody.{is_going_descriptor, is_going_frame, leads_to};
ghost use Rattle.custody_model.specs.Allowed.{IsFront};
ghost use Rattle.custody.specs.Tables.{AreNodes, custody_of, seat_at};
ghost use Rattle.clean_reasons.specs.Reasons.{ActiveSays, DescriptorIsUnnamed, DescriptorSays, EffectSays};
ghost use Rattle.clean_reasons.specs.Reasons.{FrameIsUnnamed, FrameSays, IsConnected, IsEarly, IsIn, IsReadInto};
ghost use Rattle.clean_reasons.specs.Reasons.{ReadySays, Says, SeatSays, holds};

use crate::reasons::{
    ActiveReason, CommandReason, DescriptorAt, DescriptorReason, EffectReason, FrameReason, Held,
    PageOf, ReadyReason, Reason, SeatReason,
};
use crate::row_seats::is_same;
use crate::seeking::{bound_page, names_descriptor, names_frame};
use assoc_mem::What;
use custody::Custody;
use custody_model::{DescriptorUse, FrameUse};
use flat_store::FlatStore;

/// Whether a page is in a frame.
fn is_in(custody: &Custody, page: PageOf, frame: u32) -> bool
    ensures { Decides result (IsIn (custody_of custody.now) page.uid page.page frame) }
{
    match bound_page(custody.frame(frame)) {
        Some((of, at)) => of == page.uid && at == page.page,
        None => false,
    }
}

/// Whether a page is being read into a frame.
fn is_read_into(custody: &Custody, page: PageOf, frame: u32) -> bool
    ensures { Decides result (IsReadInto (custody_of custody.now) page.uid page.page frame) }
{
    match custody.frame(frame) {
        FrameUse::Started { uid: of, page: at } => of == page.uid && at == page.page,
        _ => false,
    }
}

/// Whether a descriptor is connected.
fn is_connected(custody: &Custody, at: DescriptorAt) -> bool
    ensures { Decides result (IsConnected (custody_of custody.now) at.process at.number) }
{
    !matches!(
        custody.descriptor(at.process, at.number),
        DescriptorUse::Free
    )
}

/// Whether a descriptor leads to a segment.
fn leads_to(custody: &Custody, at: DescriptorAt, uid: u32) -> bool
    ensures { Decides result (leads_to ((custody_of custody.now).descriptor at.process at.number) ≡ Some uid) }
{
    match custody.descriptor(at.process, at.number) {
        DescriptorUse::Free => false,
        DescriptorUse::Current { uid: to } | DescriptorUse::Going { uid: to } => to == uid,
    }
}

/// Whether the page in a frame is on its way out.
fn frame_goes(custody: &Custody, frame: u32) -> bool
    ensures { result ≡ is_going_frame ((custody_of custody.now).frame frame) }
{
    matches!(custody.frame(frame), FrameUse::Going { .. })
}

/// Whether a descriptor is on its way out.
fn descriptor_goes(custody: &Custody, at: DescriptorAt) -> bool
    ensures { result ≡ is_going_descriptor ((custody_of custody.now).descriptor at.process at.number) }
{
    matches!(
        custody.descriptor(at.process, at.number),
        DescriptorUse::Going { .. }
    )
}

/// Whether a processor runs a process.
fn runs(custody: &Custody, cpu: u32, process: u32) -> bool
    ensures { Decides result ((seat_at custody.now.seats cpu).process ≡ Some process) }
{
    match custody.process_of(cpu) {
        Some(runs) => runs == process,
        None => false,
    }
}

/// Whether a processor is to drop this.
fn is_due(custody: &Custody, cpu: u32, what: What) -> bool
    ensures { Decides result ((seat_at custody.now.seats cpu).due ≡ Some what) }
{
    match custody.due_of(cpu) {
        Some(due) => is_same(due, what),
        None => false,
    }
}

/// Whether a processor holds this: of a descriptor, whether it runs its process, and holds the number.
fn holds(custody: &Custody, cpu: u32, held: Held) -> bool
    ensures { result ≡ holds (custody_of custody.now) cpu held }
{
    match held {
        Held::Descriptor(at) => runs(custody, cpu, at.process) && custody.holds_seg(cpu, at.number),
        Held::Frame(frame) => custody.holds_page(cpu, frame),
    }
}

/// Whether a processor's process has had so many command entries since its load, and no try that goes on as the last.
fn is_early(custody: &Custody, process: u32, count: u64, cpu: u32) -> bool
    ensures { Decides result (IsEarly (custody_of custody.now) process count cpu) }
{
    runs(custody, cpu, process) && custody.turn(cpu) == count && !custody.tried(cpu)
}

/// Whether what is said of a processor is so.
fn seat_says(custody: &Custody, reason: SeatReason) -> bool
    ensures { Decides result (SeatSays (custody_of custody.now) reason) }
{
    match reason {
        SeatReason::Online { cpu } => custody.is_online(cpu),
        SeatReason::Offline { cpu } => !custody.is_online(cpu),
        SeatReason::Busy { cpu, process } => runs(custody, cpu, process),
        SeatReason::Idle { cpu } => custody.process_of(cpu).is_none(),
        SeatReason::OtherProcess {
            cpu,
            runs: other,
            ..
        } => runs(custody, cpu, other),
        SeatReason::Due { what, cpu } => is_due(custody, cpu, what),
        SeatReason::NoneDue { cpu } => custody.due_of(cpu).is_none(),
        SeatReason::OtherDue { cpu, due, .. } => is_due(custody, cpu, due),
        SeatReason::HoldsAlready { cpu, held } | SeatReason::Holds { cpu, held } => {
            holds(custody, cpu, held)
        }
        SeatReason::Lacks { cpu, held } => !holds(custody, cpu, held),
        SeatReason::Early {
            process,
            count,
            cpu,
        } => is_early(custody, process, count, cpu),
    }
}

/// Whether a process is the first that is ready.
fn is_front(custody: &Custody, process: u32) -> bool
    ensures { Decides result (IsFront custody.now.ready process) }
{
    match custody.front() {
        Some(front) => front == process,
        None => false,
    }
}

/// Whether what is said of the ready list is so.
fn ready_says(store: &FlatStore, custody: &Custody, reason: ReadyReason) -> bool
    ensures { (p : Plan) (s : Store) → Shows p store.now s
        → Decides result (ReadySays s (custody_of custody.now) reason) }
{
    match reason {
        ReadyReason::Empty => custody.front().is_none(),
        ReadyReason::Front { front, .. } => is_front(custody, front),
        ReadyReason::Last { process } => !store.has_ended(process) && custody.front().is_none(),
    }
}

/// Whether what is said of a segment or directory is so.
fn active_says(store: &FlatStore, custody: &Custody, reason: ActiveReason) -> bool
    ensures { (p : Plan) (s : Store) → Shows p store.now s → AreNodes s.nodes custody.now.active
        → Decides result (ActiveSays s (custody_of custody.now) reason) }
{
    match reason {
        ActiveReason::NoNode { uid } => !store.has_node(uid),
        ActiveReason::Active { uid } => custody.is_active(uid),
        ActiveReason::Superior { superior, uid } => {
            store.has_node(uid) && !custody.is_active(superior)
        }
        ActiveReason::Pool { pool, places } => places as u64 <= custody.in_pool(pool),
        ActiveReason::Inactive { uid } => !custody.is_active(uid),
        ActiveReason::Inferior { inferior, .. } => custody.is_active(inferior),
    }
}

/// Whether the page in a frame is on its way out, and isn't named.
fn frame_is_unnamed(custody: &Custody, what: What, frame: u32) -> bool
    ensures { Decides result (FrameIsUnnamed (custody_of custody.now) what frame) }
{
    frame_goes(custody, frame) && !names_frame(what, frame, custody.frame(frame))
}

/// Whether what is said of a frame is so.
fn frame_says(custody: &Custody, reason: FrameReason) -> bool
    ensures { Decides result (FrameSays (custody_of custody.now) reason) }
{
    match reason {
        FrameReason::HasPage { page, frame }
        | FrameReason::Bound { frame, page }
        | FrameReason::PageIn { page, frame } => is_in(custody, page, frame),
        FrameReason::HasRead { page, frame }
        | FrameReason::Read { frame, page }
        | FrameReason::PageRead { page, frame } => is_read_into(custody, page, frame),
        FrameReason::NotRead { frame } => {
            !matches!(custody.frame(frame), FrameUse::Started { .. })
        }
        FrameReason::NoPage { frame } => bound_page(custody.frame(frame)).is_none(),
        FrameReason::Going { frame } => frame_goes(custody, frame),
        FrameReason::Stays { frame } => !frame_goes(custody, frame),
        FrameReason::OtherPage { frame, other, .. } => is_in(custody, other, frame),
        FrameReason::Unnamed { what, frame } => frame_is_unnamed(custody, what, frame),
    }
}

/// Whether a number of a process stands for a segment.
fn stands_for(store: &FlatStore, process: u32, number: u32, uid: u32) -> bool
    ensures { (p : Plan) (s : Store) → Shows p store.now s → Decides result (known_uid s process number ≡ Some uid) }
{
    match store.known(process, number) {
        Some(known) => known == uid,
        None => false,
    }
}

/// Whether a descriptor is on its way out, and isn't named.
fn descriptor_is_unnamed(custody: &Custody, what: What, at: DescriptorAt) -> bool
    ensures { Decides result (DescriptorIsUnnamed (custody_of custody.now) what at.process at.number) }
{
    descriptor_goes(custody, at)
        && !names_descriptor(what, custody.descriptor(at.process, at.number))
}

/// Whether what is said of a descriptor is so.
fn descriptor_says(store: &FlatStore, custody: &Custody, reason: DescriptorReason) -> bool
    ensures { (p : Plan) (s : Store) → Shows p store.now s
        → Decides result (DescriptorSays s (custody_of custody.now) reason) }
{
    match reason {
        DescriptorReason::Leads { descriptor, uid } => leads_to(custody, descriptor, uid),
        DescriptorReason::Unknown { number, process } => store.known(process, number).is_none(),
        DescriptorReason::StandsFor {
            number,
            process,
            known,
            ..
        } => stands_for(store, process, number, known),
        DescriptorReason::Connected(descriptor) => is_connected(custody, descriptor),
        DescriptorReason::Unconnected(descriptor) => !is_connected(custody, descriptor),
        DescriptorReason::Going(descriptor) => descriptor_goes(custody, descriptor),
        DescriptorReason::Stays(descriptor) => !descriptor_goes(custody, descriptor),
        DescriptorReason::Unnamed { what, descriptor } => {
            descriptor_is_unnamed(custody, what, descriptor)
        }
        DescriptorReason::NothingGoes => !custody.something_goes(),
    }
}

/// Whether what is said of what a command takes away is so.
fn effect_says(custody: &Custody, reason: EffectReason) -> bool
    ensures { Decides result (EffectSays (custody_of custody.now) reason) }
{
    match reason {
        EffectReason::Connected { descriptor, .. } => is_connected(custody, descriptor),
        EffectReason::DeleteActive { uid } | EffectReason::LengthActive { uid } => {
            custody.is_active(uid)
        }
        EffectReason::InFrame { page, frame, .. } => is_in(custody, page, frame),
        EffectReason::BeingRead { page, frame, .. } => is_read_into(custody, page, frame),
    }
}

/// Whether the sentence of a reason is true in a state of the flat store and of custody, with the numbers that it has.
/// It isn't of a reason that speaks of the entry, of the script, or of what the command is answered.
///
/// That costs a look or two at the place that the sentence names, and of its words no look at all others.
pub fn is_still_so(store: &FlatStore, custody: &Custody, reason: &Reason) -> bool
    ensures { (p : Plan) (s : Store) → Shows p store.now s → AreNodes s.nodes custody.now.active
        → Decides result (Says s (custody_of custody.now) reason.now) }
{
    match *reason {
        Reason::Absent(_) => false,
        Reason::Seat(reason) => seat_says(custody, reason),
        Reason::Ready(reason) => ready_says(store, custody, reason),
        Reason::Active(reason) => active_says(store, custody, reason),
        Reason::Frame(reason) => frame_says(custody, reason),
        Reason::Descriptor(reason) => descriptor_says(store, custody, reason),
        Reason::Command(CommandReason::Stored { page, .. }) => store.is_stored(page.uid, page.page),
        Reason::Command(_) => false,
        Reason::Effect(reason) => effect_says(custody, reason),
    }
}
