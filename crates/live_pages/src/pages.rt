//! The pages behind doors, which passes and the keeper step on.
ghost use Rattle.std.specs.Prelude.{◌≡◌, ◌≢◌, [], ◌∷◌, ℕ, ◌+◌, ◌*◌, ◌%◌, ◌^◌, ◌<◌, ◌≤◌, All, max, length, slice_index};
ghost use Rattle.std.specs.Prelude.{Some, OnOk, OnErr, IfOk, IfErr};
ghost use Rattle.live_pages.specs.declared.rule.Held.{Held};
ghost use Rattle.live_doors.specs.Doors.{HoldsEntry, IsAdmitted, OnlyNoted, HasNoted, MayBind, having_read, holding};
ghost use Rattle.live_doors.specs.Doors.{forgotten, acknowledged, shut, raised, having_noted};
ghost use Rattle.live_doors.specs.Steps.{door_at, ack_at};
ghost use Rattle.live_doors.specs.declared.rule.TheConstants.{MOST_CPUS};
ghost use Rattle.live_pages.specs.Kept.{IsClearOf, IsCurrent, HasNoHolder};
ghost use Rattle.live_pages.specs.Touches.{place_of, AreBelow};
ghost use Rattle.live_pages.specs.Turns.{walking, watching, walker_of, current, binding_at, turn_at, ticket_at};
ghost use Rattle.live_pages.specs.declared.views.View.TheVariants.{Passing};
ghost use Rattle.live_pages.specs.Models.{HasInHand, touched_in_hand, IsPassOf, IsKeeperOf, SameButWatch};
ghost use Rattle.live_pages.specs.Models.{having_touched, rebound, AreNew};

use crate::errors::{Busy, NoMemory};
use crate::keeper::Keeper;
use crate::opening::begin;
use crate::pass::Pass;
use crate::rule::{
    Acknowledge, Bind, Board, CloseDoor, Draw, Fill, Forget, Give, KeeperGive, KeeperTake, Look,
    Place, Raise, Take,
};
use crate::touch::{Touch, Touched};
use live_doors::{Behind, Closed, REQUEST, acknowledgement_word, door_word};
use mword::Page;
use std::alloc::Global;
use std::marker::Model;

/// A door, a turn and a page for each frame, the stamp that was raised last, an acknowledgement for each processor, and
/// the number of tickets that were drawn. Threads share it by reference.
#[derive(Drop)]
pub struct LivePages {
    pub(crate) table: Board,
    pub(crate) frames: u32,
    pub(crate) cpus: u32,
    // Empty, with room for the pages that are left at the end.
    pub(crate) room: Vec<Page>,
}

impl Model for LivePages {
    ghost use Rattle.std.specs.Prelude.{vec_capacity};
    ghost use Rattle.live_pages.specs.Models.{PagesModel, PagesFit};

    ghost Value = { PagesModel };

    ghost view = { λ d. record { table = d.table.shared.table_id; frames = d.frames; cpus = d.cpus } };

    ghost invariant = { λ d.
        PagesFit d.table.shared.key d.table.shared.table_id d.frames d.cpus d.room.items (vec_capacity d.room) };
}

impl LivePages {
    /// Pages of zeros for `frames` frames, their keeper, and a pass for each of `cpus` processors, in order. No frame
    /// is bound: every door has the word 1. No stamp is raised and no ticket drawn.
    ///
    /// Takes memory for the pages, for two words a frame and one a processor, and for the rows of keeper and passes.
    /// `NoMemory` comes only from the allocator. Source: own.
    pub fn new(
        alloc: Global,
        frames: u32,
        cpus: u32,
    ) -> Result<(LivePages, Keeper, Vec<Pass>), NoMemory>
        requires frames { (1 ≤ frames) × (frames ≤ 1024) }
        requires cpus { (1 ≤ cpus) × (cpus ≤ MOST_CPUS) }
        ensures { IfOk result (λ made. AreNew frames cpus made.0 made.1 made.2.items) }
    {
        begin(alloc, frames, cpus)
    }

    /// Enters frame `f` into the pass, which holds the entry from then on, and answers the binding.
    ///
    /// `Closed` comes exactly where the door's word, which this call read, was odd; the pass's entries stay as they
    /// were. One load; takes no memory and never waits. Source: own.
    pub fn fill(&self, pass: &mut Pass, f: u32) -> Result<u64, Closed>
        requires pass { IsPassOf self.now pass.old }
        requires frame { f < self.now.frames }
        ensures pass { IsPassOf self.now pass.new }
        ensures bound { IfOk result (λ b. 1 ≤ b) }
        ensures admitted { IfOk result (λ b. pass.new.walker
            ≡ walking (λ p. holding f b (having_read (door_at f) (2 * b) p)) pass.old.walker) }
        ensures closed { IfErr result (λ e. (e.word % 2 ≡ 1)
            × (pass.new.walker ≡ walking (having_read (door_at f) e.word) pass.old.walker)) }
    {
        let words = &self.table.shared;
        let word = words.load::<Fill>(&mut pass.seat, door_word(f));
        pass.entries.enter(f, word)
    }

    /// Reads the stamp that was raised last, drops every entry of the pass, and answers the stamp.
    ///
    /// One load, and a walk over the pass's entries; takes no memory and never waits. Source: own.
    pub fn forget(&self, pass: &mut Pass) -> u64
        requires { IsPassOf self.now pass.old }
        ensures pass { IsPassOf self.now pass.new }
        ensures forgotten { pass.new.walker ≡ walking (forgotten result) pass.old.walker }
    {
        let words = &self.table.shared;
        let stamp = words.load::<Forget>(&mut pass.seat, REQUEST);
        pass.entries.forget(stamp)
    }

    /// Stores the stamp of the pass's last `forget` in the processor's own word, where the keeper reads it. That
    /// nothing was filled since isn't asked: an entry that was, was filled at a door that no raised stamp has closed.
    ///
    /// One store; takes no memory and never waits. Source: own.
    pub fn acknowledge(&self, pass: &mut Pass)
        requires { IsPassOf self.now pass.old }
        ensures pass { IsPassOf self.now pass.new }
        ensures acknowledged { pass.new.walker ≡ walking acknowledged pass.old.walker }
    {
        let words = &self.table.shared;
        let (word, stamp) = pass.entries.acknowledgement(self.frames);
        words.store::<Acknowledge>(&mut pass.seat, word, stamp);
    }

    /// Drops every entry of the pass, as `forget` does, and lets the keeper know by `acknowledge`. Answers the stamp.
    ///
    /// One load, a walk over the pass's entries, and one store; takes no memory and never waits. Source: own.
    pub fn rest(&self, pass: &mut Pass) -> u64
        requires { IsPassOf self.now pass.old }
        ensures pass { IsPassOf self.now pass.new }
        ensures rested { pass.new.walker ≡ walking (λ p. acknowledged (forgotten result p)) pass.old.walker }
    {
        let stamp = self.forget(pass);
        self.acknowledge(pass);
        stamp
    }

    /// Closes the door of frame `f`: from then on nobody can enter the frame, and those who hold an entry keep it until
    /// they forget. One store; takes no memory and never waits. Source: own.
    pub fn close_door(&self, keeper: &mut Keeper, f: u32)
        requires keeper { IsKeeperOf self.now keeper.old }
        requires frame { f < self.now.frames }
        requires admitted { IsAdmitted keeper.old.holder.watch f }
        ensures keeper { IsKeeperOf self.now keeper.new }
        ensures shut { keeper.new.holder ≡ watching (shut f) keeper.old.holder }
        ensures cleared { keeper.new.cleared ≡ keeper.old.cleared }
    {
        let words = &self.table.shared;
        let door = keeper.rows.shut(f);
        words.store::<CloseDoor>(&mut keeper.seat, door_word(f), door);
    }

    /// Raises the next stamp, and answers it. One store; takes no memory and never waits. Source: own.
    pub fn raise(&self, keeper: &mut Keeper) -> u64
        requires keeper { IsKeeperOf self.now keeper.old }
        requires room { keeper.old.holder.watch.request < 2 ^ 63 }
        ensures stamp { result ≡ keeper.old.holder.watch.request + 1 }
        ensures keeper { IsKeeperOf self.now keeper.new }
        ensures raised { keeper.new.holder ≡ watching raised keeper.old.holder }
        ensures cleared { keeper.new.cleared ≡ keeper.old.cleared }
    {
        let words = &self.table.shared;
        let stamp = keeper.rows.raise();
        words.store::<Raise>(&mut keeper.seat, REQUEST, stamp);
        stamp
    }

    // Reads the acknowledgement of one processor.
    fn look(&self, keeper: &mut Keeper, cpu: u32) -> u64
        requires keeper { IsKeeperOf self.now keeper.old }
        requires cpu { cpu < self.now.cpus }
        ensures keeper { IsKeeperOf self.now keeper.new }
        ensures noted { keeper.new.holder
            ≡ watching (having_noted (ack_at self.now.frames cpu) cpu result) keeper.old.holder }
        ensures cleared { keeper.new.cleared ≡ keeper.old.cleared }
    {
        let word = acknowledgement_word(self.frames, cpu);
        self.table.shared.load::<Look>(&mut keeper.seat, word)
    }

    /// Whether every processor has acknowledged the stamp. At Ok no pass holds an entry of a frame that was closed
    /// before the stamp was raised and not bound since.
    ///
    /// `Behind` comes exactly where a processor's word, which this call read, was below the stamp; it names the first
    /// such one. At most one load a processor; takes no memory and never waits. Source: own.
    pub fn all_clear(&self, keeper: &mut Keeper, stamp: u64) -> Result<(), Behind>
        requires { IsKeeperOf self.now keeper.old }
        ensures keeper { IsKeeperOf self.now keeper.new }
        ensures only_noted { OnlyNoted keeper.old.holder.watch keeper.new.holder.watch }
        ensures same { SameButWatch keeper.old.holder keeper.new.holder }
        ensures clear { OnOk result (IsClearOf keeper.new.holder stamp) }
        ensures noted { OnOk result (HasNoted keeper.new.holder.watch stamp) }
        ensures looked { OnOk result (keeper.new.holder.watch.looks ≡ keeper.old.holder.watch.looks + self.now.cpus) }
        ensures cleared { OnOk result (keeper.new.cleared ≡ max keeper.old.cleared stamp) }
        ensures behind { IfErr result (λ b. (b.cpu < self.now.cpus) × (b.seen < stamp)) }
        ensures seen { IfErr result (λ b. (keeper.new.holder.watch.last ≡ b.seen)
            × (slice_index keeper.new.holder.watch.noted b.cpu ≡ b.seen)) }
        ensures looked_at { IfErr result (λ b. keeper.new.holder.watch.looked_at ≡ ack_at self.now.frames b.cpu) }
        ensures looked_so_far { IfErr result (λ b. keeper.new.holder.watch.looks
            ≡ keeper.old.holder.watch.looks + b.cpu + 1) }
        ensures first { IfErr result (λ b. (cpu : ℕ) → cpu < b.cpu
            → stamp ≤ slice_index keeper.new.holder.watch.noted cpu) }
        ensures not_cleared { OnErr result (keeper.new.cleared ≡ keeper.old.cleared) }
    {
        for cpu in 0..self.cpus {
            let seen = self.look(keeper, cpu);
            if seen < stamp {
                return Err(Behind { cpu, seen });
            }
        }
        keeper.clear(stamp);
        Ok(())
    }

    // The word of a frame's turn.
    fn turn_word(&self, f: u32) -> usize
        requires { f < self.now.frames }
        ensures { result ≡ turn_at self.now.frames self.now.cpus f }
    {
        1 + self.frames as usize + self.cpus as usize + f as usize
    }

    // The word of the number of tickets that were drawn.
    fn ticket_word(&self) -> usize
        ensures { result ≡ ticket_at self.now.frames self.now.cpus }
    {
        1 + self.frames as usize + self.cpus as usize + self.frames as usize
    }

    // Touches the page that the pass has the turn of, draws the ticket, and gives the turn back.
    fn touch_in_hand(&self, seat: &mut Place, f: u32, t: Touch) -> Touched
        requires seat { seat.old.table_id ≡ self.now.table }
        requires frame { f < self.now.frames }
        requires place { place_of t < 1024 }
        requires hand { HasInHand seat.old.me f }
        requires few { length (walker_of seat.old.me.0).made < 2 ^ 32 }
        ensures seat { (seat.new.table_id ≡ seat.old.table_id) × (seat.new.id ≡ seat.old.id) }
        ensures above { AreBelow result.ticket (walker_of seat.old.me.0).made }
        ensures touched { seat.new.me
            ≡ (Passing (touched_in_hand result.ticket f t result.word (walker_of seat.old.me.0)), []) }
    {
        let words = &self.table.shared;
        let Some(mut held) = words.exchange(seat, f as usize, None) else {
            unreachable!()
        };
        let word = held.touch(t);
        words.exchange(seat, f as usize, Some(held));
        let ticket = words.fetch_add::<Draw>(seat, self.ticket_word(), 1);
        words.store::<Give>(seat, self.turn_word(f), 0);
        Touched { ticket, word }
    }

    /// Touches a word of frame `f`'s page, by a ticket above all that this pass drew before, and answers it. The touch
    /// is of the binding that the pass's entry names, which is the frame's at that moment.
    ///
    /// `Busy` comes exactly where the turn's word, which this call read, was not 0; no touch is then made. A few steps
    /// on words; takes no memory and never waits. Source: own.
    pub fn touch(&self, pass: &mut Pass, f: u32, t: Touch) -> Result<Touched, Busy>
        requires pass { IsPassOf self.now pass.old }
        requires frame { f < self.now.frames }
        requires holds { HoldsEntry pass.old.walker.walk f }
        requires place { place_of t < 1024 }
        requires few { length pass.old.walker.made < 2 ^ 32 }
        ensures pass { IsPassOf self.now pass.new }
        ensures current { IfOk result (λ done. IsCurrent pass.old.walker.walk f (binding_at pass.old.walker.walk f)) }
        ensures above { IfOk result (λ done. AreBelow done.ticket pass.old.walker.made) }
        ensures touched { IfOk result (λ done. pass.new.walker
            ≡ having_touched done.ticket f t done.word pass.old.walker) }
        ensures busy { IfErr result (λ e. (e.word ≢ 0) × (pass.new.walker
            ≡ walking (having_read (turn_at self.now.frames self.now.cpus f) e.word) pass.old.walker)) }
    {
        let words = &self.table.shared;
        let turn = self.turn_word(f);
        let word = words.compare_exchange::<Take>(&mut pass.seat, turn, 0, 1);
        if word != 0 {
            return Err(Busy { word });
        }
        let done = self.touch_in_hand(&mut pass.seat, f, t);
        pass.touches += 1;
        Ok(done)
    }

    // Puts the page into the slot in hand, and takes out the one that lay there.
    fn swap_page(&self, seat: &mut Place, f: u32, page: Page) -> Page
        requires seat { seat.old.table_id ≡ self.now.table }
        requires frame { f < self.now.frames }
        requires hand { (h : Held) × (seat.old.me.1 ≡ (f, Some h) ∷ []) }
        ensures seat { (seat.new.table_id ≡ seat.old.table_id) × (seat.new.id ≡ seat.old.id) }
        ensures old { (h : Held) → seat.old.me.1 ≡ (f, Some h) ∷ [] → result ≡ h.page }
        ensures new { (h : Held) × (seat.new.me ≡ (seat.old.me.0, (f, Some h) ∷ [])) × (h.page ≡ page) }
    {
        let words = &self.table.shared;
        let Some(mut held) = words.exchange(seat, f as usize, None) else {
            unreachable!()
        };
        let old = held.swap(page);
        words.exchange(seat, f as usize, Some(held));
        old
    }

    /// Gives frame `f` a new page, and hands out the old one, which no touch can reach any more. The door admits the
    /// next binding. No pass holds an entry of the frame, so nobody has its turn.
    ///
    /// A few steps on words; takes no memory and never waits. Source: own.
    pub fn bind(&self, keeper: &mut Keeper, f: u32, page: Page) -> Page
        requires keeper { IsKeeperOf self.now keeper.old }
        requires frame { f < self.now.frames }
        requires may_bind { MayBind keeper.old.holder.watch keeper.old.cleared f }
        requires room { current keeper.old.holder.watch f < 2 ^ 62 }
        ensures keeper { IsKeeperOf self.now keeper.new }
        ensures no_holder { HasNoHolder keeper.old.holder f }
        ensures bound { keeper.new.holder ≡ rebound f page result keeper.old.holder }
        ensures cleared { keeper.new.cleared ≡ keeper.old.cleared }
    {
        let words = &self.table.shared;
        let door = keeper.rows.admit(f);
        words.compare_exchange::<KeeperTake>(&mut keeper.seat, self.turn_word(f), 0, 1);
        let old = self.swap_page(&mut keeper.seat, f, page);
        words.store::<Bind>(&mut keeper.seat, door_word(f), door);
        words.store::<KeeperGive>(&mut keeper.seat, self.turn_word(f), 0);
        old
    }
}
