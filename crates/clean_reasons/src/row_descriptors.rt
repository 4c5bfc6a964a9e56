ghost use Rattle.std.specs.Prelude.{◌≡◌, true, MatchOption, Some};
ghost use Rattle.flat_model.specs.Store.{Store, known_uid};
ghost use Rattle.script.specs.Plans.{Plan};
ghost use Rattle.flat_store.specs.Shown.{Shows};
ghost use Rattle.book.specs.declared.entries.Entry.TheVariants as entry;
ghost use Rattle.custody_model.specs.Custody.{Custody as Holding, is_current_descriptor};
ghost use Rattle.custody.specs.Tables.{AreTablesOf, custody_of};
ghost use Rattle.clean_reasons.specs.Reasons.{DescriptorSays, Tells};
ghost use Rattle.clean_reasons.specs.Rows.{IsOfConnect, IsOfCut};

use crate::reasons::{
    Absent, ActiveReason, DescriptorAt, DescriptorReason, Held, Reason, SeatReason,
};
use crate::seeking::{SeatSeek, least_cpu};
use custody::Custody;
use custody_model::DescriptorUse;
use flat_store::FlatStore;
use script::Script;

/// Why a number of a process doesn't stand for a segment.
fn against_known(store: &FlatStore, process: u32, number: u32, uid: u32) -> Option<DescriptorReason>
    ensures { (p : Plan) (s : Store) (c : Holding) → Shows p store.now s
        → MatchOption result (known_uid s process number ≡ Some uid)
        (λ r. IsOfConnect process number uid r × DescriptorSays s c r) }
{
    match store.known(process, number) {
        None => Some(DescriptorReason::Unknown { number, process }),
        Some(known) if known != uid => Some(DescriptorReason::StandsFor {
            number,
            process,
            known,
            uid,
        }),
        Some(_) => None,
    }
}

/// Why a descriptor may not lead to the page table of a segment from now on.
pub(crate) fn against_connect(
    script: &Script,
    store: &FlatStore,
    custody: &Custody,
    process: u32,
    number: u32,
    uid: u32,
) -> Option<Reason>
    ensures { (s : Store) → Shows script.now store.now s
        → Tells script.now s (custody_of custody.now) (entry.Connect process number uid) result }
{
    if process >= script.processes() {
        return Some(Reason::Absent(Absent::Process { process }));
    }
    if let Some(reason) = against_known(store, process, number, uid) {
        return Some(Reason::Descriptor(reason));
    }
    if !custody.is_active(uid) {
        return Some(Reason::Active(ActiveReason::Inactive { uid }));
    }
    match custody.descriptor(process, number) {
        DescriptorUse::Free => None,
        _ => {
            let descriptor = DescriptorAt { process, number };
            Some(Reason::Descriptor(DescriptorReason::Connected(descriptor)))
        }
    }
}

/// Why a descriptor isn't current.
pub(crate) fn against_current(
    custody: &Custody,
    process: u32,
    number: u32,
) -> Option<DescriptorReason>
    ensures { (s : Store) → MatchOption result
        (is_current_descriptor ((custody_of custody.now).descriptor process number) ≡ true)
        (λ r. IsOfCut process number r × DescriptorSays s (custody_of custody.now) r) }
{
    let descriptor = DescriptorAt { process, number };
    match custody.descriptor(process, number) {
        DescriptorUse::Free => Some(DescriptorReason::Unconnected(descriptor)),
        DescriptorUse::Going { .. } => Some(DescriptorReason::Going(descriptor)),
        DescriptorUse::Current { .. } => None,
    }
}

/// Why a descriptor may not be on its way out from now on.
pub(crate) fn against_cut(
    script: &Script,
    custody: &Custody,
    process: u32,
    number: u32,
) -> Option<Reason>
    ensures { (s : Store) → Tells script.now s (custody_of custody.now) (entry.Cut process number) result }
{
    if process >= script.processes() {
        return Some(Reason::Absent(Absent::Process { process }));
    }
    match against_current(custody, process, number) {
        Some(reason) => Some(Reason::Descriptor(reason)),
        None => None,
    }
}

/// Why a descriptor, on its way out, may neither be gone nor back.
pub(crate) fn against_end_of_seg(
    script: &Script,
    custody: &Custody,
    process: u32,
    number: u32,
) -> Option<Reason>
    requires { AreTablesOf script.now custody.now }
    ensures gone { (s : Store)
        → Tells script.now s (custody_of custody.now) (entry.GoneSeg process number) result }
    ensures back { (s : Store)
        → Tells script.now s (custody_of custody.now) (entry.BackSeg process number) result }
{
    if process >= script.processes() {
        return Some(Reason::Absent(Absent::Process { process }));
    }
    let descriptor = DescriptorAt { process, number };
    if !matches!(
        custody.descriptor(process, number),
        DescriptorUse::Going { .. }
    ) {
        return Some(Reason::Descriptor(DescriptorReason::Stays(descriptor)));
    }
    match least_cpu(script, custody, SeatSeek::Seg { process, number }) {
        Some(cpu) => {
            let held = Held::Descriptor(descriptor);
            Some(Reason::Seat(SeatReason::Holds { cpu, held }))
        }
        None => None,
    }
}
