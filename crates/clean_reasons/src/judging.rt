ghost use Rattle.std.specs.Prelude.{◌≡◌, true, IfNone, IfSome};
ghost use Rattle.flat_model.specs.Store.{Store};
ghost use Rattle.flat_store.specs.Shown.{Shows};
ghost use Rattle.custody_model.specs.Allowed.{IsAllowed};
ghost use Rattle.custody.specs.Tables.{AreNodes, AreTablesOf, custody_of};
ghost use Rattle.book.specs.Books.{is_answer};
ghost use Rattle.clean_reasons.specs.Entries.{is_of_frames, is_of_seats, is_of_segments};
ghost use Rattle.clean_reasons.specs.Reasons.{AreRefusals, IsSo, Tells};

use crate::reasons::Reason;
use crate::row_commands::{Answer, against_do};
use crate::row_descriptors::{against_connect, against_cut, against_end_of_seg};
use crate::row_frames::{
    against_end_of_page, against_here, against_lose, against_release, against_start, against_take,
};
use crate::row_seats::{
    against_clear, against_fill_page, against_fill_seg, against_leave, against_load, against_online,
};
use crate::row_segments::{against_activate, against_deactivate, against_moved};
use crate::row_signals::against_signal;
use book::Entry;
use custody::Custody;
use flat_store::FlatStore;
use script::Script;

/// Why an answer to a command isn't allowed.
fn against_answer(script: &Script, store: &FlatStore, custody: &Custody, e: Entry) -> Option<Reason>
    requires { AreTablesOf script.now custody.now }
    ensures { (s : Store) → Shows script.now store.now s → is_answer e ≡ true
        → Tells script.now s (custody_of custody.now) e result }
{
    match e {
        Entry::Do {
            process,
            place,
            cpu,
            frame,
            reply,
        } => {
            let answer = Answer {
                process,
                place,
                cpu,
                reply,
            };
            against_do(script, store, custody, answer, frame)
        }
        _ => None,
    }
}

/// Why an entry of the processors isn't allowed.
fn against_seats(script: &Script, store: &FlatStore, custody: &Custody, e: Entry) -> Option<Reason>
    requires { AreTablesOf script.now custody.now }
    ensures { (s : Store) → Shows script.now store.now s → is_of_seats e ≡ true
        → Tells script.now s (custody_of custody.now) e result }
{
    match e {
        Entry::Online { cpu } => against_online(script, custody, cpu),
        Entry::Load { cpu, process } => against_load(script, custody, cpu, process),
        Entry::Leave { cpu } => against_leave(script, store, custody, cpu),
        Entry::Signal { cpu, what } => against_signal(script, custody, cpu, what),
        Entry::Clear { cpu, what } => against_clear(script, custody, cpu, what),
        Entry::FillSeg { cpu, number } => against_fill_seg(script, custody, cpu, number),
        Entry::FillPage { cpu, frame } => against_fill_page(script, custody, cpu, frame),
        _ => None,
    }
}

/// Why an entry of the frames isn't allowed.
fn against_frames(script: &Script, custody: &Custody, e: Entry) -> Option<Reason>
    requires { AreTablesOf script.now custody.now }
    ensures { (s : Store) → is_of_frames e ≡ true → Tells script.now s (custody_of custody.now) e result }
{
    match e {
        Entry::Release { uid, page } => against_release(script, custody, uid, page),
        Entry::Start { frame, uid, page } => against_start(script, custody, frame, uid, page),
        Entry::Lose { frame } => against_lose(script, custody, frame),
        Entry::Here { frame, uid, page } => against_here(script, custody, frame, uid, page),
        Entry::Take { frame } => against_take(script, custody, frame),
        Entry::GonePage { frame } => against_end_of_page(script, custody, frame),
        Entry::BackPage { frame } => against_end_of_page(script, custody, frame),
        _ => None,
    }
}

/// Why an entry of the segments and their descriptors isn't allowed.
fn against_segments(
    script: &Script,
    store: &FlatStore,
    custody: &Custody,
    e: Entry,
) -> Option<Reason>
    requires { AreTablesOf script.now custody.now }
    ensures { (s : Store) → Shows script.now store.now s → AreNodes s.nodes custody.now.active
        → is_of_segments e ≡ true → Tells script.now s (custody_of custody.now) e result }
{
    match e {
        Entry::Activate { uid } => against_activate(script, store, custody, uid),
        Entry::Deactivate { uid } => against_deactivate(script, store, custody, uid),
        Entry::Moved {
            process,
            uid,
            volume,
        } => against_moved(script, custody, process, uid, volume),
        Entry::Connect {
            process,
            number,
            uid,
        } => against_connect(script, store, custody, process, number, uid),
        Entry::Cut { process, number } => against_cut(script, custody, process, number),
        Entry::GoneSeg { process, number } => against_end_of_seg(script, custody, process, number),
        Entry::BackSeg { process, number } => against_end_of_seg(script, custody, process, number),
        _ => None,
    }
}

/// The first condition of an entry that doesn't hold.
fn against(script: &Script, store: &FlatStore, custody: &Custody, e: Entry) -> Option<Reason>
    requires { AreTablesOf script.now custody.now }
    ensures { (s : Store) → Shows script.now store.now s → AreNodes s.nodes custody.now.active
        → Tells script.now s (custody_of custody.now) e result }
{
    match e {
        Entry::Do { .. } => against_answer(script, store, custody, e),
        Entry::Fault { .. } => None,
        Entry::Online { .. }
        | Entry::Load { .. }
        | Entry::Leave { .. }
        | Entry::Signal { .. }
        | Entry::Clear { .. }
        | Entry::FillSeg { .. }
        | Entry::FillPage { .. } => against_seats(script, store, custody, e),
        Entry::Release { .. }
        | Entry::Start { .. }
        | Entry::Lose { .. }
        | Entry::Here { .. }
        | Entry::Take { .. }
        | Entry::GonePage { .. }
        | Entry::BackPage { .. } => against_frames(script, custody, e),
        Entry::Activate { .. }
        | Entry::Deactivate { .. }
        | Entry::Moved { .. }
        | Entry::Connect { .. }
        | Entry::Cut { .. }
        | Entry::GoneSeg { .. }
        | Entry::BackSeg { .. } => against_segments(script, store, custody, e),
    }
}

/// Why custody doesn't allow an entry of a book, by a look at the flat store before it: the first condition that
/// doesn't hold. `None` exactly where the entry is allowed.
///
/// Where a condition speaks of all of several, the least for which it fails is named. A refusal costs at most a look at
/// all frames, all descriptors or all active segments.
#[tactic(auto, using(crate::proofs::RefusalLaws::refutes))]
pub fn why_not(script: &Script, store: &FlatStore, custody: &Custody, e: &Entry) -> Option<Reason>
    requires tables { AreTablesOf script.now custody.now }
    ensures allowed { (s : Store) → Shows script.now store.now s → AreNodes s.nodes custody.now.active
        → IfNone result (IsAllowed script.now s (custody_of custody.now) e.now) }
    ensures refused { (s : Store) → Shows script.now store.now s → AreNodes s.nodes custody.now.active
        → IfSome result (λ r. IsAllowed script.now s (custody_of custody.now) e.now → ⊥) }
    ensures so { (s : Store) → Shows script.now store.now s → AreNodes s.nodes custody.now.active
        → IfSome result (IsSo script.now s (custody_of custody.now) e.now) }
    ensures each { (s : Store) → AreRefusals script.now s (custody_of custody.now) e.now }
{
    if custody.allows(script, store, *e) {
        return None;
    }
    against(script, store, custody, *e)
}
