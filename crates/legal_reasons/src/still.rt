ghost use Rattle.std.specs.Prelude.{◌≡◌, false, true, is_some, None, Some};
ghost use Rattle.std.specs.Bool.{Decides};
ghost use Rattle.script.specs.Plans.{Plan};
ghost use Rattle.flat_model.specs.Store.{Store, known_uid};
ghost use Rattle.flat_model.specs.Rooms.{room_for};
ghost use Rattle.flat_store.specs.Shown.{Shows};
ghost use Rattle.legal_reasons.specs.Reasons.{IsFirstRoom, IsRoomless, Says};

use crate::going::is_next;
use crate::moves::has_free_record;
use crate::pages::{has_word_at, is_zero_stored};
use crate::reasons::Reason;
use flat_store::FlatStore;
use script::Script;

/// Whether a number of a process stands for this segment.
fn stands_for(store: &FlatStore, process: u32, number: u32, uid: u32) -> bool
    ensures { (p : Plan) (s : Store) → Shows p store.now s → Decides result (known_uid s process number ≡ Some uid) }
{
    match store.known(process, number) {
        Some(known) => known == uid,
        None => false,
    }
}

/// Whether a segment or a directory is there for which no volume has room.
fn is_roomless(store: &FlatStore, uid: u32) -> bool
    ensures { (p : Plan) (s : Store) → Shows p store.now s → Decides result (IsRoomless p s uid) }
{
    store.has_node(uid) && store.room_for(uid).is_none()
}

/// Whether a segment or a directory is there for which this volume is the first with room.
fn is_first_room(store: &FlatStore, uid: u32, volume: u32) -> bool
    ensures { (p : Plan) (s : Store) → Shows p store.now s → Decides result (IsFirstRoom p s uid volume) }
{
    store.has_node(uid) && store.room_for(uid) == Some(volume as usize)
}

/// Whether the sentence of a reason is true in a state. False where it speaks of no state.
#[tactic(auto, unfolding(crate::specs::Reasons::Says))]
pub fn is_still_so(script: &Script, store: &FlatStore, reason: Reason) -> bool
    ensures { (s : Store) → Shows script.now store.now s → Decides result (Says script.now s reason) }
{
    match reason {
        Reason::Ended { process } => store.has_ended(process),
        Reason::Next { process, next, .. } => is_next(store, process, next),
        Reason::Kept { .. } => !store.has_ended(0),
        Reason::DeviceFault { process } => !store.is_faulted(process),
        Reason::Unstored { uid, page } => !store.is_stored(uid, page),
        Reason::WordAt { uid, page, offset } => has_word_at(store, uid, page, offset),
        Reason::Unended { process } => !store.has_ended(process),
        Reason::MoveCommand(at) => is_next(store, at.process, at.place),
        Reason::Unknown { process, number } => store.known(process, number).is_none(),
        Reason::StandsFor {
            process,
            number,
            uid,
            ..
        } => stands_for(store, process, number, uid),
        Reason::MoveStored { uid, page } => store.is_stored(uid, page),
        Reason::MoveRecord { uid, volume } => has_free_record(script, store, uid, volume),
        Reason::MoveNone { uid } => is_roomless(store, uid),
        Reason::MoveOther { uid, volume } => is_first_room(store, uid, volume),
        Reason::PartSummary(at) => is_next(store, at.process, at.place),
        Reason::PartEnd(at) => is_next(store, at.process, at.place),
        Reason::Zeros { uid, page } => is_zero_stored(script, store, uid, page),
        _ => false,
    }
}
