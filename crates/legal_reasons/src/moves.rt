ghost use Rattle.std.specs.Prelude.{◌≡◌, Some, IfNone, IfSome};
ghost use Rattle.std.specs.Bool.{Decides};
ghost use Rattle.script.specs.Plans.{Plan, command_at};
ghost use Rattle.script.specs.References.{reference_of};
ghost use Rattle.flat_model.specs.Store.{Store, known_uid, records_of};
ghost use Rattle.flat_store.specs.Shown.{Shows};
ghost use Rattle.legal_reasons.specs.Reasons.{HasFreeRecord, IsOf, IsSaid, is_refusal, process_in};
ghost use Rattle.legal_reasons.specs.Reasons.{reference_at, uid_in};

use crate::going::why_not_going;
use crate::reasons::{CommandAt, Reason};
use book::Reply;
use flat_store::{FlatStore, command_at};
use mword::Page;
use script::{Command, Reference, Script};
use tree_commands::volume_of;

/// How many records a volume has; none where it isn't there.
fn records_of(script: &Script, volume: u32) -> u32
    ensures { result ≡ records_of script.now volume }
{
    match script.volumes().get(volume as usize) {
        Some(line) => line.records,
        None => 0,
    }
}

/// Whether a volume is the home of a segment or a directory, and has a free record.
pub(crate) fn has_free_record(script: &Script, store: &FlatStore, uid: u32, volume: u32) -> bool
    ensures { (s : Store) → Shows script.now store.now s → Decides result (HasFreeRecord script.now s uid volume) }
{
    store.has_node(uid)
        && volume_of(store.accounts(), uid) == volume
        && store.taken(volume) < records_of(script, volume)
}

/// Why a segment that is written to doesn't move to another volume than this: its home has a free record, no volume has
/// room for it, or another one is the first that has. `None` where the segment isn't there.
#[tactic(auto, unfolding(crate::specs::Reasons::IsSaid))]
fn why_not_to(script: &Script, store: &FlatStore, uid: u32) -> Option<Reason>
    ensures so { (s : Store) → Shows script.now store.now s → IfSome result (λ r. IsSaid script.now s r) }
    ensures about { IfSome result (λ r. uid_in r ≡ Some uid) }
{
    let home = store.accounts().node(uid)?.volume;
    if has_free_record(script, store, uid, home) {
        return Some(Reason::MoveRecord { uid, volume: home });
    }
    let Some(first) = store.room_for(uid) else {
        return Some(Reason::MoveNone { uid });
    };
    match u32::try_from(first) {
        Ok(volume) => Some(Reason::MoveOther { uid, volume }),
        Err(_) => None,
    }
}

/// Whether a reply refuses a reference before a record is looked for.
fn is_refusal(reply: &Reply) -> bool
    ensures { result ≡ is_refusal reply.now }
{
    matches!(
        reply,
        Reply::Gone | Reply::NoAccess | Reply::Length | Reply::Quota
    )
}

/// Why a number of a process doesn't stand for a segment. `None` where it does.
#[tactic(auto, unfolding(crate::specs::Reasons::IsSaid))]
fn why_not_number(store: &FlatStore, process: u32, number: u32, uid: u32) -> Option<Reason>
    ensures so { (p : Plan) (s : Store) → Shows p store.now s → IfSome result (λ r. IsSaid p s r) }
    ensures none { (p : Plan) (s : Store) → Shows p store.now s
        → IfNone result (known_uid s process number ≡ Some uid) }
    ensures about { IfSome result (λ r. process_in r ≡ Some process) }
{
    match store.known(process, number) {
        None => Some(Reason::Unknown { process, number }),
        Some(known) if known != uid => Some(Reason::StandsFor {
            process,
            number,
            uid: known,
            given: uid,
        }),
        Some(_) => None,
    }
}

/// Why a command of a process that writes to a word needs no new record: the word would be 0, or its page is stored.
#[tactic(auto, unfolding(crate::specs::Reasons::IsSaid))]
fn why_no_record(
    store: &FlatStore,
    process: u32,
    place: u32,
    uid: u32,
    reference: &Reference,
) -> Option<Reason>
    ensures so { (p : Plan) (s : Store) → Shows p store.now s → reference_at p process place ≡ Some reference.now
        → known_uid s process reference.now.number ≡ Some uid → IfSome result (λ r. IsSaid p s r) }
    ensures about { IfSome result (λ r. IsOf process uid r) }
{
    let old = store.word(uid, reference.offset);
    if reference.kind.new_word(old).value() == 0 {
        return Some(Reason::MoveZero(CommandAt { process, place }));
    }
    let page = reference.offset / Page::WORDS;
    if store.is_stored(uid, page) {
        return Some(Reason::MoveStored { uid, page });
    }
    None
}

/// Why a segment doesn't move for a command of a process that writes to a word.
#[tactic(auto, unfolding(crate::specs::Reasons::IsSaid))]
fn why_not_for(
    script: &Script,
    store: &FlatStore,
    process: u32,
    place: u32,
    uid: u32,
    command: &Command,
    reference: &Reference,
) -> Reason
    requires command { command_at script.now process place ≡ Some command.now }
    requires reference { reference_of command.now ≡ Some reference.now }
    ensures so { (s : Store) → Shows script.now store.now s → IsSaid script.now s result }
    ensures about { IsOf process uid result }
{
    if let Some(reason) = why_not_number(store, process, reference.number, uid) {
        return reason;
    }
    let reply = store.reply_to(script, process, command);
    if !is_refusal(&reply) {
        if let Some(reason) = why_no_record(store, process, place, uid, reference) {
            return reason;
        }
        if let Some(reason) = why_not_to(script, store, uid) {
            return reason;
        }
    }
    let at = CommandAt { process, place };
    Reason::MoveReply { at, reply }
}

/// The reference of a command that writes to a word.
fn write_of(command: &Command) -> Option<Reference>
    ensures { IfSome result (λ x. reference_of command.now ≡ Some x) }
{
    match command.reference() {
        Some(reference) if reference.kind.alters() => Some(reference),
        _ => None,
    }
}

/// Why a segment doesn't move to another volume than this for a process: the process doesn't go on, it isn't its turn,
/// or its next command doesn't lack a record of the segment's home alone.
#[tactic(auto, unfolding(crate::specs::Reasons::IsSaid))]
pub(crate) fn why_not_moved(script: &Script, store: &FlatStore, process: u32, uid: u32) -> Reason
    ensures so { (s : Store) → Shows script.now store.now s → IsSaid script.now s result }
    ensures about { IsOf process uid result }
{
    if let Some(reason) = why_not_going(script, store, process) {
        return reason;
    }
    if !store.is_turn(script, process) {
        return Reason::Kept { process };
    }
    let place = store.place(process);
    if let Some(command) = command_at(script, process, place) {
        if let Some(reference) = write_of(command) {
            return why_not_for(script, store, process, place, uid, command, &reference);
        }
    }
    Reason::MoveCommand(CommandAt { process, place })
}
