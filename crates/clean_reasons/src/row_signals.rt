ghost use Rattle.std.specs.Prelude.{◌≡◌, ℕ, None, MatchOption};
ghost use Rattle.custody_model.specs.Allowed.{NamesAllGoing};
ghost use Rattle.flat_model.specs.Store.{Store};
ghost use Rattle.book.specs.declared.entries.Entry.TheVariants as entry;
ghost use Rattle.custody.specs.Tables.{AreTablesOf, DescriptorsAreNamed, FramesAreNamed, custody_of, seat_at};
ghost use Rattle.clean_reasons.specs.Reasons.{DescriptorSays, FrameSays, IsSo, SeatSays, Tells};
ghost use Rattle.clean_reasons.specs.Rows.{IsOfDue, IsOfNames, IsOfNaming};

use crate::reasons::{Absent, DescriptorReason, FrameReason, Reason, SeatReason};
use crate::seeking::{FrameSeek, LeadSeek, SeatSeek, least_cpu, least_descriptor, least_frame};
use assoc_mem::What;
use custody::Custody;
use script::Script;

/// Why a clear is due somewhere.
fn against_none_due(script: &Script, custody: &Custody) -> Option<SeatReason>
    requires { AreTablesOf script.now custody.now }
    ensures { MatchOption result ((d : ℕ) → (seat_at custody.now.seats d).due ≡ None)
        (λ r. IsOfDue r × SeatSays (custody_of custody.now) r) }
{
    let cpu = least_cpu(script, custody, SeatSeek::Due)?;
    match custody.due_of(cpu) {
        Some(what) => Some(SeatReason::Due { what, cpu }),
        None => None,
    }
}

/// Why a signal doesn't name each frame whose page is on its way out.
fn against_frames(script: &Script, custody: &Custody, what: What) -> Option<FrameReason>
    requires { AreTablesOf script.now custody.now }
    ensures { MatchOption result (FramesAreNamed (custody_of custody.now) what)
        (λ r. IsOfNaming what r × FrameSays (custody_of custody.now) r) }
{
    match least_frame(script, custody, FrameSeek::Unnamed { what }) {
        Some(frame) => Some(FrameReason::Unnamed { what, frame }),
        None => None,
    }
}

/// Why a signal doesn't name each descriptor that is on its way out.
fn against_descriptors(script: &Script, custody: &Custody, what: What) -> Option<DescriptorReason>
    requires { AreTablesOf script.now custody.now }
    ensures { (s : Store) → MatchOption result (DescriptorsAreNamed (custody_of custody.now) what)
        (λ r. IsOfNames what r × DescriptorSays s (custody_of custody.now) r) }
{
    match least_descriptor(script, custody, LeadSeek::Unnamed { what }) {
        Some(descriptor) => Some(DescriptorReason::Unnamed { what, descriptor }),
        None => None,
    }
}

/// Why a signal doesn't name all that is on its way out.
fn against_names(script: &Script, custody: &Custody, what: What) -> Option<Reason>
    requires { AreTablesOf script.now custody.now }
    ensures { (s : Store) (d : ℕ) → MatchOption result (NamesAllGoing (custody_of custody.now) what)
        (IsSo script.now s (custody_of custody.now) (entry.Signal d what)) }
{
    if let Some(reason) = against_frames(script, custody, what) {
        return Some(Reason::Frame(reason));
    }
    match against_descriptors(script, custody, what) {
        Some(reason) => Some(Reason::Descriptor(reason)),
        None => None,
    }
}

/// Why a processor may not tell all others to drop what is named.
pub(crate) fn against_signal(
    script: &Script,
    custody: &Custody,
    cpu: u32,
    what: What,
) -> Option<Reason>
    requires { AreTablesOf script.now custody.now }
    ensures { (s : Store) → Tells script.now s (custody_of custody.now) (entry.Signal cpu what) result }
{
    if cpu >= script.processors() {
        return Some(Reason::Absent(Absent::Processor { cpu }));
    }
    if !custody.is_online(cpu) {
        return Some(Reason::Seat(SeatReason::Offline { cpu }));
    }
    if let Some(reason) = against_none_due(script, custody) {
        return Some(Reason::Seat(reason));
    }
    if !custody.something_goes() {
        return Some(Reason::Descriptor(DescriptorReason::NothingGoes));
    }
    against_names(script, custody, what)
}
