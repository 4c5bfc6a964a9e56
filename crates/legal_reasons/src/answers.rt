ghost use Rattle.std.specs.Prelude.{◌≡◌, ◌<◌, Some, IfSome, length};
ghost use Rattle.script.specs.Plans.{Plan, command_at};
ghost use Rattle.flat_model.specs.Legal.{moves_pages};
ghost use Rattle.flat_model.specs.Rooms.{room_for};
ghost use Rattle.flat_model.specs.Store.{Store};
ghost use Rattle.flat_store.specs.Shown.{Shows};
ghost use Rattle.legal_reasons.specs.Reasons.{IsOfCommand, IsSaid, MustMove, process_in};

use crate::going::why_not_going;
use crate::reasons::{CommandAt, Reason};
use book::Reply;
use flat_store::{FlatStore, command_at, may_fail};
use script::{Command, Script};

/// Whether a tree command may need a page of its segment moved.
fn moves_pages(command: &Command) -> bool
    ensures { result ≡ moves_pages command.now }
{
    matches!(command, Command::Length { .. } | Command::Truncate { .. })
}

/// Why a command of a process isn't answered with a drive's failure.
#[tactic(auto, unfolding(crate::specs::Reasons::IsSaid))]
fn why_no_device(
    script: &Script,
    store: &FlatStore,
    process: u32,
    place: u32,
    command: &Command,
) -> Reason
    requires { command_at script.now process place ≡ Some command.now }
    ensures so { (s : Store) → Shows script.now store.now s → IsSaid script.now s result }
    ensures about { process_in result ≡ Some process }
    ensures place { IsOfCommand place result }
{
    if !store.is_faulted(process) {
        return Reason::DeviceFault { process };
    }
    let at = CommandAt { process, place };
    let reply = store.reply_to(script, process, command);
    if command.reference().is_some() {
        return Reason::DeviceReference { at, reply };
    }
    if moves_pages(command) {
        return Reason::DeviceRefused { at, reply };
    }
    Reason::DeviceOther { at, reply }
}

/// The segment that a number of a process stands for, and the first volume with room for it. `None` where it stands for
/// none, and where no volume has room.
fn first_home(store: &FlatStore, process: u32, number: u32) -> Option<(u32, u32)>
    ensures { (p : Plan) (s : Store) → Shows p store.now s → IfSome result (λ m. room_for p s m.0 ≡ Some m.1) }
{
    let uid = store.known(process, number)?;
    match u32::try_from(store.room_for(uid)?) {
        Ok(volume) => Some((uid, volume)),
        Err(_) => None,
    }
}

/// The segment that must move before a command of a process is answered, and the volume that it must move to. `None`
/// where the flat store has a reply.
fn move_before(
    script: &Script,
    store: &FlatStore,
    process: u32,
    command: &Command,
) -> Option<(u32, u32)>
    requires { process < length script.now.processes }
    ensures { (s : Store) → Shows script.now store.now s
        → IfSome result (λ m. MustMove script.now s process command.now m.0 m.1) }
{
    if !store.is_held_back(script, process, command) {
        return None;
    }
    match command.reference() {
        Some(reference) => first_home(store, process, reference.number),
        None => None,
    }
}

/// What a command of a process is answered, which isn't held back.
#[tactic(auto, unfolding(crate::specs::Reasons::IsSaid))]
fn why_other_reply(
    script: &Script,
    store: &FlatStore,
    process: u32,
    place: u32,
    command: &Command,
) -> Reason
    requires { command_at script.now process place ≡ Some command.now }
    ensures so { (s : Store) → Shows script.now store.now s → IsSaid script.now s result }
    ensures about { process_in result ≡ Some process }
    ensures place { IsOfCommand place result }
{
    let at = CommandAt { process, place };
    let reply = store.reply_to(script, process, command);
    if store.is_faulted(process) && may_fail(command, &reply) {
        return Reason::DueOrDevice { at, reply };
    }
    Reason::Due { at, reply }
}

/// Why a command of a process isn't answered with a reply other than a drive's failure.
#[tactic(auto, unfolding(crate::specs::Reasons::IsSaid))]
fn why_not_reply(
    script: &Script,
    store: &FlatStore,
    process: u32,
    place: u32,
    command: &Command,
) -> Reason
    requires there { process < length script.now.processes }
    requires command { command_at script.now process place ≡ Some command.now }
    ensures so { (s : Store) → Shows script.now store.now s → IsSaid script.now s result }
    ensures about { process_in result ≡ Some process }
    ensures place { IsOfCommand place result }
{
    let Some((uid, volume)) = move_before(script, store, process, command) else {
        return why_other_reply(script, store, process, place, command);
    };
    let at = CommandAt { process, place };
    if store.is_faulted(process) {
        return Reason::MoveDevice { uid, volume, at };
    }
    Reason::MoveFirst { uid, volume, at }
}

/// Why the next command of a process that goes on isn't answered so.
#[tactic(auto, unfolding(crate::specs::Reasons::IsSaid))]
fn why_not_answer(
    script: &Script,
    store: &FlatStore,
    process: u32,
    place: u32,
    command: &Command,
    reply: &Reply,
) -> Reason
    requires there { process < length script.now.processes }
    requires command { command_at script.now process place ≡ Some command.now }
    ensures so { (s : Store) → Shows script.now store.now s → IsSaid script.now s result }
    ensures about { process_in result ≡ Some process }
    ensures place { IsOfCommand place result }
{
    if !store.is_turn(script, process) {
        return Reason::Kept { process };
    }
    if matches!(reply, Reply::Device) {
        why_no_device(script, store, process, place, command)
    } else {
        why_not_reply(script, store, process, place, command)
    }
}

/// Why a command at a place of a process isn't answered so.
#[tactic(auto, unfolding(crate::specs::Reasons::IsSaid))]
pub(crate) fn why_not_do(
    script: &Script,
    store: &FlatStore,
    process: u32,
    place: u32,
    reply: &Reply,
) -> Reason
    ensures so { (s : Store) → Shows script.now store.now s → IsSaid script.now s result }
    ensures about { process_in result ≡ Some process }
    ensures place { IsOfCommand place result }
{
    if let Some(reason) = why_not_going(script, store, process) {
        return reason;
    }
    let next = store.place(process);
    match command_at(script, process, place) {
        Some(command) if next == place => {
            why_not_answer(script, store, process, place, command, reply)
        }
        _ => Reason::Next {
            process,
            next,
            given: place,
        },
    }
}
