//! The doors, which passes and the keeper step on.
ghost use Rattle.std.specs.Prelude.{◌≡◌, ℕ, ◌+◌, ◌*◌, ◌%◌, ◌^◌, ◌<◌, ◌≤◌, All, max, length, slice_index, OnOk, OnErr};
ghost use Rattle.std.specs.Prelude.{IfOk, IfErr};
ghost use Rattle.std.specs.Mem.Slots.{slots_items, slots_len, IsFull};
ghost use mathlib.Core.Option.{some};
ghost use lib.ListN.{get_elem?};
ghost use Rattle.live_doors.specs.Kept.{IsClearOf};
ghost use Rattle.live_doors.specs.Doors.{IsPassOf, IsKeeperOf, IsAdmitted, OnlyNoted, HasNoted, having_read, holding};
ghost use Rattle.live_doors.specs.Doors.{forgotten, acknowledged, shut, raised, having_noted, AreNew};
ghost use Rattle.live_doors.specs.Steps.{door_at, ack_at};
ghost use Rattle.live_doors.specs.declared.rule.TheConstants.{MOST_CPUS};

use crate::errors::{Behind, Closed, NoMemory};
use crate::keeper::Keeper;
use crate::opening::begin;
use crate::pass::Pass;
use crate::rows::Rows;
use crate::rule::{Acknowledge, Board, CloseDoor, Fill, Forget, Look, Raise, TakeIn};
use crate::words::{REQUEST, acknowledgement_word, door_word};
use atomic_table::Closed as Words;
use std::alloc::Global;
use std::marker::Model;

/// A door for each frame, the stamp that was raised last, and an acknowledgement for each processor, all in words that
/// change in single steps. Threads share it by reference.
#[derive(Drop)]
pub struct LiveDoors {
    pub(crate) table: Board,
    pub(crate) frames: u32,
    pub(crate) cpus: u32,
}

impl Model for LiveDoors {
    ghost use Rattle.live_doors.specs.Doors.{DoorsModel};
    ghost use Rattle.live_doors.specs.Steps.{DoorsFit};

    ghost Value = { DoorsModel };

    ghost view = { λ d. record { table = d.table.shared.table_id; frames = d.frames; cpus = d.cpus } };

    ghost invariant = { λ d. DoorsFit d.table.shared.key d.table.shared.table_id d.frames d.cpus };
}

/// The words as they were last.
#[derive(Drop)]
pub struct Ended {
    /// The door word of each frame.
    pub doors: Vec<u64>,
    /// The stamp that was raised last.
    pub request: u64,
}

impl LiveDoors {
    /// Doors for `frames` frames, their keeper, and a pass for each of `cpus` processors, in order. No frame is bound:
    /// every door has the word 1. No stamp is raised.
    ///
    /// Takes memory for a word a frame and processor, for two a frame in the keeper, and for one entry a frame in each
    /// pass. `NoMemory` comes only from the allocator. Source: own.
    pub fn new(
        alloc: Global,
        frames: u32,
        cpus: u32,
    ) -> Result<(LiveDoors, Keeper, Vec<Pass>), NoMemory>
        requires frames { (1 ≤ frames) × (frames ≤ 1024) }
        requires cpus { (1 ≤ cpus) × (cpus ≤ MOST_CPUS) }
        ensures { IfOk result (λ made. AreNew frames cpus 1 made.0 made.1 made.2.items) }
    {
        begin(alloc, frames, cpus, 1)
    }

    /// As `new`, with binding 1 of every frame admitted: every door has the word 2. Source: own.
    pub fn admitted(
        alloc: Global,
        frames: u32,
        cpus: u32,
    ) -> Result<(LiveDoors, Keeper, Vec<Pass>), NoMemory>
        requires frames { (1 ≤ frames) × (frames ≤ 1024) }
        requires cpus { (1 ≤ cpus) × (cpus ≤ MOST_CPUS) }
        ensures { IfOk result (λ made. AreNew frames cpus 2 made.0 made.1 made.2.items) }
    {
        begin(alloc, frames, cpus, 2)
    }

    /// Enters frame `f` into the pass, which holds the entry from then on, and answers the binding.
    ///
    /// `Closed` comes exactly where the door's word, which this call read, was odd; the pass's entries stay as they
    /// were. One load; takes no memory and never waits. Source: own.
    pub fn fill(&self, pass: &mut Pass, f: u32) -> Result<u64, Closed>
        requires pass { IsPassOf self.now pass.old }
        requires frame { f < self.now.frames }
        ensures pass { IsPassOf self.now pass.new }
        ensures bound { IfOk result (λ b. 1 ≤ b) }
        ensures admitted { IfOk result (λ b. pass.new.walk
            ≡ holding f b (having_read (door_at f) (2 * b) pass.old.walk)) }
        ensures closed { IfErr result (λ e. (e.word % 2 ≡ 1)
            × (pass.new.walk ≡ having_read (door_at f) e.word pass.old.walk)) }
    {
        let words = &self.table.shared;
        let word = words.load::<Fill>(&mut pass.seat, door_word(f));
        pass.entries.enter(f, word)
    }

    /// Reads the stamp that was raised last, drops every entry of the pass, and answers the stamp.
    ///
    /// One load, and a walk over the pass's entries; takes no memory and never waits. Source: own.
    pub fn forget(&self, pass: &mut Pass) -> u64
        requires { IsPassOf self.now pass.old }
        ensures pass { IsPassOf self.now pass.new }
        ensures forgotten { pass.new.walk ≡ forgotten result pass.old.walk }
    {
        let words = &self.table.shared;
        let stamp = words.load::<Forget>(&mut pass.seat, REQUEST);
        pass.entries.forget(stamp)
    }

    /// Stores the stamp of the pass's last `forget` in the processor's own word, where the keeper reads it. That
    /// nothing was filled since isn't asked: an entry that was, was filled at a door that no raised stamp has closed.
    ///
    /// One store; takes no memory and never waits. Source: own.
    pub fn acknowledge(&self, pass: &mut Pass)
        requires { IsPassOf self.now pass.old }
        ensures pass { IsPassOf self.now pass.new }
        ensures acknowledged { pass.new.walk ≡ acknowledged pass.old.walk }
    {
        let words = &self.table.shared;
        let (word, stamp) = pass.entries.acknowledgement(self.frames);
        words.store::<Acknowledge>(&mut pass.seat, word, stamp);
    }

    /// Closes the door of frame `f`: from then on nobody can enter the frame, and those who hold an entry keep it until
    /// they forget. One store; takes no memory and never waits. Source: own.
    pub fn close_door(&self, keeper: &mut Keeper, f: u32)
        requires keeper { IsKeeperOf self.now keeper.old }
        requires frame { f < self.now.frames }
        requires admitted { IsAdmitted keeper.old.watch f }
        ensures keeper { IsKeeperOf self.now keeper.new }
        ensures shut { keeper.new.watch ≡ shut f keeper.old.watch }
        ensures cleared { keeper.new.cleared ≡ keeper.old.cleared }
    {
        let words = &self.table.shared;
        let door = keeper.rows.shut(f);
        words.store::<CloseDoor>(&mut keeper.seat, door_word(f), door);
    }

    /// Raises the next stamp, and answers it. One store; takes no memory and never waits. Source: own.
    pub fn raise(&self, keeper: &mut Keeper) -> u64
        requires keeper { IsKeeperOf self.now keeper.old }
        requires room { keeper.old.watch.request < 2 ^ 63 }
        ensures stamp { result ≡ keeper.old.watch.request + 1 }
        ensures keeper { IsKeeperOf self.now keeper.new }
        ensures raised { keeper.new.watch ≡ raised keeper.old.watch }
        ensures cleared { keeper.new.cleared ≡ keeper.old.cleared }
    {
        let words = &self.table.shared;
        let stamp = keeper.rows.raise();
        words.store::<Raise>(&mut keeper.seat, REQUEST, stamp);
        stamp
    }

    // Reads the acknowledgement of one processor.
    fn look(&self, keeper: &mut Keeper, cpu: u32) -> u64
        requires keeper { IsKeeperOf self.now keeper.old }
        requires cpu { cpu < self.now.cpus }
        ensures keeper { IsKeeperOf self.now keeper.new }
        ensures noted { keeper.new.watch ≡ having_noted (ack_at self.now.frames cpu) cpu result keeper.old.watch }
        ensures cleared { keeper.new.cleared ≡ keeper.old.cleared }
    {
        let word = acknowledgement_word(self.frames, cpu);
        self.table.shared.load::<Look>(&mut keeper.seat, word)
    }

    /// Whether every processor has acknowledged the stamp. At Ok no pass holds an entry of a frame that was closed
    /// before the stamp was raised and not bound since (`clear`, by the law [`noted_is_clear`](crate::noted_is_clear)).
    ///
    /// `Behind` comes exactly where a processor's word, which this call read, was below the stamp; it names the first
    /// such one. At most one load a processor; takes no memory and never waits. Source: own.
    pub fn all_clear(&self, keeper: &mut Keeper, stamp: u64) -> Result<(), Behind>
        requires { IsKeeperOf self.now keeper.old }
        ensures keeper { IsKeeperOf self.now keeper.new }
        ensures only_noted { OnlyNoted keeper.old.watch keeper.new.watch }
        ensures noted { OnOk result (HasNoted keeper.new.watch stamp) }
        ensures clear { OnOk result (IsClearOf keeper.new.watch stamp) }
        ensures looked { OnOk result (keeper.new.watch.looks ≡ keeper.old.watch.looks + self.now.cpus) }
        ensures cleared { OnOk result (keeper.new.cleared ≡ max keeper.old.cleared stamp) }
        ensures behind { IfErr result (λ b. (b.cpu < self.now.cpus) × (b.seen < stamp)) }
        ensures seen { IfErr result (λ b. (keeper.new.watch.last ≡ b.seen)
            × (slice_index keeper.new.watch.noted b.cpu ≡ b.seen)) }
        ensures looked_at { IfErr result (λ b. keeper.new.watch.looked_at ≡ ack_at self.now.frames b.cpu) }
        ensures looked_so_far { IfErr result (λ b. keeper.new.watch.looks ≡ keeper.old.watch.looks + b.cpu + 1) }
        ensures first { IfErr result (λ b. (cpu : ℕ) → cpu < b.cpu → stamp ≤ slice_index keeper.new.watch.noted cpu) }
        ensures not_cleared { OnErr result (keeper.new.cleared ≡ keeper.old.cleared) }
    {
        for cpu in 0..self.cpus {
            let seen = self.look(keeper, cpu);
            if seen < stamp {
                return Err(Behind { cpu, seen });
            }
        }
        keeper.clear(stamp);
        Ok(())
    }

    // Takes one pass in.
    #[tactic(auto, using(crate::proofs::Keeps::takes_in, crate::proofs::Calls::without_slots))]
    fn take_in(&self, keeper: &mut Keeper, pass: Pass)
        requires keeper { IsKeeperOf self.now keeper.old }
        requires pass { IsPassOf self.now pass }
        ensures { keeper.new ≡ keeper.old }
    {
        let words = &self.table.shared;
        words.join_seat::<TakeIn>(&mut keeper.seat, pass.seat);
    }

    // Takes all passes in.
    fn take_all_in(&self, keeper: &mut Keeper, mut passes: Vec<Pass>)
        requires keeper { IsKeeperOf self.now keeper.old }
        requires passes { All (IsPassOf self.now) passes.items }
        ensures { keeper.new ≡ keeper.old }
    {
        while let Some(pass) = passes.pop() {
            self.take_in(keeper, pass);
        }
    }

    /// Takes keeper and passes in, ends the doors, and answers the words as they were last.
    ///
    /// Walks over the passes and the doors; takes no memory. Source: own.
    pub fn close(self, mut keeper: Keeper, passes: Vec<Pass>) -> Ended
        requires keeper { IsKeeperOf self keeper }
        requires passes { All (IsPassOf self) passes.items }
        ensures doors { result.doors.items ≡ keeper.watch.doors }
        ensures request { result.request ≡ keeper.watch.request }
    {
        self.take_all_in(&mut keeper, passes);
        let LiveDoors { table, .. } = self;
        let Keeper { seat, rows, .. } = keeper;
        let Rows { mut doors, .. } = rows;
        let closed = table.close_with(seat);
        let request = closed.word(REQUEST);
        read_doors(&closed, doors.as_mut_slice());
        closed.free();
        Ended { doors, request }
    }
}

// Reads the word of each door.
fn read_doors(closed: &Words<(), Global>, doors: &mut [u64])
    requires room { length doors.old + 1 ≤ slots_len closed.now.words }
    requires full { IsFull closed.now.words }
    ensures count { length doors.new ≡ length doors.old }
    ensures words { (f : ℕ) → f < length doors.old
        → get_elem? (slots_items closed.now.words) (f + 1) ≡ some (slice_index doors.new f) }
{
    for f in 0..doors.len() {
        doors[f] = closed.word(f + 1);
    }
}
