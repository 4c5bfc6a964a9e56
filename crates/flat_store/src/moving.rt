//! Whether a segment whose volume has no free record may move to another volume, and the move (Organick 1972).

ghost use Rattle.std.specs.Prelude.{◌≡◌, ◌↔◌, ◌<◌, ◌&&◌, ℕ, IfNone, IfSome, IsTrue, Some, false, length, not, true};
ghost use Rattle.script.specs.Plans.{Plan, who_of};
ghost use Rattle.tree_model.specs.Tree.{node_in, volume_in};
ghost use Rattle.tree_model.specs.Trees.{has_segment};
ghost use Rattle.accounts.specs.Maps.{count_of};
ghost use Rattle.flat_model.specs.Moves.{MayMove, awaits_by, awaits_move, is_held_at, is_held_back, is_held_by};
ghost use Rattle.flat_model.specs.Moves.{lacks_at, moved};
ghost use Rattle.flat_model.specs.References.{is_used_up, is_volume_full, stores_page};
ghost use Rattle.flat_model.specs.Rooms.{has_room, room_for};
ghost use Rattle.flat_model.specs.Store.{Store};
ghost use Rattle.flat_store.specs.Roomy.{IsLeast, is_roomy};
ghost use Rattle.flat_store.specs.Shown.{Holds, IsShown, Shows};

use crate::gauges::{Gauge, free_at, is_full_at, shift};
use crate::holdings::Holdings;
use crate::judging::{has_ended, place_of};
use crate::numbers::uid_of;
use crate::store::{FlatStore, command_at};
use accounts::Accounts;
use mnames::Who;
use mword::Page;
use script::{Command, RefKind, Reference, Script};
use tree_commands::volume_of;

/// Whether a uid is that of a segment.
#[tactic(auto, using(crate::proofs::MakeLaws::no_segment))]
fn has_segment(accounts: &Accounts, uid: u32) -> bool
    ensures { result ≡ has_segment accounts.now.nodes uid }
{
    match accounts.node(uid) {
        Some(node) => !node.dir,
        None => false,
    }
}

/// How many pages of a segment are stored; 0 where there is no segment.
#[tactic(auto, using(crate::proofs::RoomyLaws::none_counted))]
fn stored_of(accounts: &Accounts, uid: u32) -> u32
    ensures { result ≡ count_of accounts.now uid }
{
    accounts.promise();
    if has_segment(accounts, uid) {
        accounts.stored(uid)
    } else {
        0
    }
}

/// Whether a volume other than a segment's own has more free records than so many pages, and a free VTOC entry.
#[tactic(auto, using(crate::proofs::RoomyLaws::some_free))]
fn is_roomy(records: &[Gauge], entries: &[Gauge], own: u32, pages: u32, volume: usize) -> bool
    ensures { result ≡ is_roomy records.now entries.now own pages volume }
{
    volume != own as usize && pages < free_at(records, volume) && 0 < free_at(entries, volume)
}

/// The first volume that is roomy.
fn first_roomy(records: &[Gauge], entries: &[Gauge], own: u32, pages: u32) -> Option<usize>
    ensures some { IfSome result (λ w. is_roomy records.now entries.now own pages w ≡ true) }
    ensures first { IfSome result (λ w. (v : ℕ) → v < w → is_roomy records.now entries.now own pages v ≡ false) }
    ensures none { IfNone result ((v : ℕ) → v < length records.now
        → is_roomy records.now entries.now own pages v ≡ false) }
{
    for volume in 0..records.len() {
        if is_roomy(records, entries, own, pages, volume) {
            return Some(volume);
        }
    }
    None
}

impl Holdings {
    /// The first volume, in the order of the script, that has room for a segment. It looks at each volume once.
    pub(crate) fn room_for(&self, uid: u32) -> Option<usize>
        ensures { (p : Plan) (s : Store) → Holds p self.now s → result ≡ room_for p s uid }
    {
        let own = volume_of(&self.accounts, uid);
        let pages = stored_of(&self.accounts, uid);
        first_roomy(&self.records, &self.entries, own, pages)
    }

    /// Whether a reference within a segment lacks nothing but a free record of its volume.
    fn lacks_record(&self, uid: u32, volume: u32, offset: u32, kind: &RefKind) -> bool
        requires { has_segment self.now.accounts.nodes uid ≡ true }
        ensures { (p : Plan) (s : Store) → Holds p self.now s
            → result ≡ (stores_page s uid offset kind.now && (not (is_used_up s uid) && is_volume_full p s volume)) }
    {
        self.stores_page(uid, offset, kind)
            && (self.accounts.may_charge(uid).is_ok() && is_full_at(&self.records, volume))
    }

    /// Whether all records of a volume are taken.
    fn is_volume_full(&self, volume: u32) -> bool
        ensures { (p : Plan) (s : Store) → Holds p self.now s → result ≡ is_volume_full p s volume }
    {
        is_full_at(&self.records, volume)
    }

    /// Whether a principal's reference to a segment lacks nothing but a free record of its volume.
    fn lacks_at(&self, who: &Who, uid: u32, offset: u32, kind: &RefKind) -> bool
        ensures { (p : Plan) (s : Store) (k : ℕ) → Holds p self.now s → who.now ≡ who_of p k
            → result ≡ lacks_at p s k offset kind.now (node_in s.nodes uid) }
    {
        if !kind.alters() {
            return false;
        }
        let Some(node) = self.accounts.node(uid) else {
            return false;
        };
        if !self.is_volume_full(node.volume) {
            return false;
        }
        if !kind.permitted_by(node.acl.access_of(who)) {
            return false;
        }
        if offset / Page::WORDS >= node.length {
            return false;
        }
        self.lacks_record(uid, node.volume, offset, kind)
    }

    /// Whether the reply to a principal's reference is held back until its segment has moved: it lacks a record alone,
    /// and a volume has room for the segment.
    fn is_held_at(&self, who: &Who, uid: u32, offset: u32, kind: &RefKind) -> bool
        ensures { (p : Plan) (s : Store) (k : ℕ) → Holds p self.now s → who.now ≡ who_of p k
            → result ≡ is_held_at p s k offset kind.now (node_in s.nodes uid) }
    {
        self.lacks_at(who, uid, offset, kind) && self.room_for(uid).is_some()
    }

    /// A segment has its home on another volume from now on, which is roomy. VTOC entries are only counted.
    fn take_home(&mut self, uid: u32, own: u32, pages: u32, volume: u32)
        requires segment { has_segment self.old.accounts.nodes uid ≡ true }
        requires own { own ≡ volume_in self.old.accounts.nodes uid }
        requires pages { pages ≡ count_of self.old.accounts uid }
        requires roomy { is_roomy self.old.records self.old.entries own pages volume ≡ true }
        ensures { (p : Plan) (s : Store) → Holds p self.old s → Holds p self.new (moved s uid volume) }
    {
        self.accounts.promise();
        self.accounts.set_home(uid, volume, 0);
        shift(&mut self.records, own, volume, pages);
        shift(&mut self.entries, own, volume, 1);
    }

    /// A segment moves to another volume, unless that has no room for it.
    fn rehome(&mut self, uid: u32, volume: u32)
        ensures { (p : Plan) (s : Store) → Holds p self.old s → has_segment s.nodes uid ≡ true
            → has_room p s uid volume ≡ true → Holds p self.new (moved s uid volume) }
    {
        let own = volume_of(&self.accounts, uid);
        let pages = stored_of(&self.accounts, uid);
        if has_segment(&self.accounts, uid)
            && is_roomy(&self.records, &self.entries, own, pages, volume as usize)
        {
            self.take_home(uid, own, pages, volume);
        }
    }
}

impl FlatStore {
    /// Whether the reply to a process's reference is held back until its segment has moved.
    fn is_held_by(&self, script: &Script, process: u32, reference: &Reference) -> bool
        requires { process < length script.now.processes }
        ensures { (s : Store) → IsShown script.now self.now s
            → result ≡ is_held_by script.now s process (Some reference.now) }
    {
        let who = script.who(process);
        match uid_of(&self.known, process, reference.number) {
            Some(uid) => self
                .holdings
                .is_held_at(who, uid, reference.offset, &reference.kind),
            None => false,
        }
    }

    /// Whether the reply to a command of a process is held back until a segment has moved.
    pub fn is_held_back(&self, script: &Script, process: u32, command: &Command) -> bool
        requires { process < length script.now.processes }
        ensures { (s : Store) → IsShown script.now self.now s
            → result ≡ is_held_back script.now s process command.now }
    {
        match command.reference() {
            Some(reference) => self.is_held_by(script, process, &reference),
            None => false,
        }
    }

    /// The first volume, in the order of the script, that has room for a segment whose own has no free record.
    pub fn room_for(&self, uid: u32) -> Option<usize>
        ensures { (p : Plan) (s : Store) → Shows p self.now s → result ≡ room_for p s uid }
    {
        self.holdings.room_for(uid)
    }

    /// Whether a process's reference is to this segment, and lacks nothing but a free record of its volume.
    fn awaits_by(&self, script: &Script, process: u32, uid: u32, reference: &Reference) -> bool
        requires { process < length script.now.processes }
        ensures { (s : Store) → IsShown script.now self.now s
            → result ≡ awaits_by script.now s process uid (Some reference.now) }
    {
        let who = script.who(process);
        match uid_of(&self.known, process, reference.number) {
            Some(known) => {
                known == uid
                    && self
                        .holdings
                        .lacks_at(who, uid, reference.offset, &reference.kind)
            }
            None => false,
        }
    }

    /// Whether the next command of a process writes to a segment, and lacks a record of its volume alone.
    fn awaits_move(&self, script: &Script, process: u32, uid: u32) -> bool
        ensures { (s : Store) → IsShown script.now self.now s → result ≡ awaits_move script.now s process uid }
    {
        let place = place_of(&self.processes, process);
        let Some(command) = command_at(script, process, place) else {
            return false;
        };
        match command.reference() {
            Some(reference) => self.awaits_by(script, process, uid, &reference),
            None => false,
        }
    }

    /// Whether a segment may move to a volume for a process.
    pub(crate) fn allows_moved(&self, script: &Script, process: u32, uid: u32, volume: u32) -> bool
        ensures { (s : Store) → Shows script.now self.now s
            → (IsTrue result ↔ MayMove script.now s process uid volume) }
    {
        if !self.is_turn(script, process) || has_ended(&self.processes, process) {
            return false;
        }
        self.awaits_move(script, process, uid)
            && self.holdings.room_for(uid) == Some(volume as usize)
    }

    /// A segment moved to a volume for a process.
    pub(crate) fn follow_moved(&mut self, uid: u32, volume: u32)
        ensures { (p : Plan) (s : Store) (k : ℕ) → Shows p self.old s → MayMove p s k uid volume
            → Shows p self.new (moved s uid volume) }
    {
        self.holdings.rehome(uid, volume);
    }
}
