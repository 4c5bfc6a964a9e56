//! The end of the pages.
ghost use Rattle.std.specs.Prelude.{◌≡◌, [], ℕ, ◌<◌, ◌≤◌, All, length, slice_index_or, vec_capacity, false, Some};
ghost use Rattle.std.specs.Mem.Slots.{slots_items, slots_filled, slots_len, IsFull};
ghost use mathlib.Core.Option.{some};
ghost use lib.ListN.{get_elem?};
ghost use Rattle.live_pages.specs.declared.rule.Held.{Held};
ghost use Rattle.live_pages.specs.Models.{IsPassOf, IsKeeperOf, AreAll, HavePages, taking_in, taking_all_in};
ghost use Rattle.live_pages.specs.Ending.{IsOfOneThread, IsLeftAfterAll, all_bindings};

use crate::keeper::Keeper;
use crate::pages::LivePages;
use crate::pass::Pass;
use crate::rule::{Held, Place, Show, TakeIn};
use atomic_table::Closed as Words;
use mword::Page;
use std::alloc::Global;
use std::marker::Model;

/// What is left at the end.
#[derive(Drop)]
pub struct Ended {
    /// The page of each frame, in order.
    pub pages: Vec<Page>,
    /// The touches and the bindings.
    pub shown: Shown,
}

/// The last seat of the table, into which all passes were taken. It is seen as what its keeper knew. From that
/// `in_order` has all touches in order of ticket, and `all_bindings` each binding with the page that it was given and
/// the page that was handed out at its end or is left.
#[derive(Drop)]
pub struct Shown {
    seat: Place,
}

impl Model for Shown {
    ghost use Rattle.live_pages.specs.Turns.{holder_of};
    ghost use Rattle.live_pages.specs.declared.views.Holder.{Holder};

    ghost Value = { Holder };

    ghost view = { λ s. holder_of s.seat.me.0 };
}

impl LivePages {
    // Takes one pass in, with its touches.
    fn take_in(&self, keeper: &mut Keeper, pass: Pass)
        requires keeper { IsKeeperOf self.now keeper.old }
        requires pass { IsPassOf self.now pass }
        ensures keeper { IsKeeperOf self.now keeper.new }
        ensures taken { keeper.new ≡ record keeper.old { holder = taking_in pass keeper.old.holder } }
    {
        let words = &self.table.shared;
        words.join_seat::<TakeIn>(&mut keeper.seat, pass.seat);
    }

    // Takes all passes in.
    fn take_all_in(&self, keeper: &mut Keeper, mut passes: Vec<Pass>)
        requires keeper { IsKeeperOf self.now keeper.old }
        requires passes { All (IsPassOf self.now) passes.items }
        ensures keeper { IsKeeperOf self.now keeper.new }
        ensures taken { keeper.new ≡ record keeper.old { holder = taking_all_in passes.items keeper.old.holder } }
    {
        while let Some(pass) = passes.pop() {
            self.take_in(keeper, pass);
        }
    }

    // A seat that shows what the keeper knows.
    fn show(&self, keeper: &mut Keeper) -> Shown
        requires { IsKeeperOf self.now keeper.old }
        ensures keeper { keeper.new ≡ keeper.old }
        ensures shown { result ≡ keeper.old.holder }
    {
        let seat = self.table.shared.split_seat::<Show>(&mut keeper.seat);
        Shown { seat }
    }

    /// Takes keeper and passes in, and ends the pages: each frame's page is handed out, and all is as one thread would
    /// have it that made all touches in order of ticket. The tickets are the numbers from 0 on, each once. Each touch's
    /// word is that of its binding's page at that moment. Each pass's touches are exactly its own, in order. Each page
    /// that a bind handed out, and each page left, is the one that its binding was given after that binding's touches.
    ///
    /// Walks over the passes and the frames; takes no memory. Source: own.
    pub fn close(self, mut keeper: Keeper, passes: Vec<Pass>) -> Ended
        requires keeper { IsKeeperOf self keeper }
        requires passes { All (IsPassOf self) passes.items }
        requires all { AreAll self passes.items }
        ensures shown { result.shown ≡ taking_all_in passes.items keeper.holder }
        ensures count { length result.pages.items ≡ self.frames }
        ensures one_thread { IsOfOneThread self.cpus result.shown }
        ensures left { All (IsLeftAfterAll result.shown) (all_bindings result.pages.items result.shown) }
    {
        self.take_all_in(&mut keeper, passes);
        let shown = self.show(&mut keeper);
        let LivePages {
            table,
            frames,
            mut room,
            ..
        } = self;
        let Keeper { seat, .. } = keeper;
        let mut closed = table.close_with(seat);
        take_pages(&mut closed, frames, &mut room);
        closed.free();
        Ended { pages: room, shown }
    }
}

// Takes the page out of each slot.
fn take_pages(closed: &mut Words<Option<Held>, Global>, frames: u32, pages: &mut Vec<Page>)
    requires room { (pages.old.items ≡ []) × (frames ≤ vec_capacity pages.old) }
    requires slots { (slots_len closed.old.slots ≡ frames) × IsFull closed.old.slots }
    requires held { (f : ℕ) → f < frames → (h : Held) × (get_elem? (slots_items closed.old.slots) f ≡ some (Some h)) }
    ensures count { length pages.new.items ≡ frames }
    ensures pages { HavePages (slots_items closed.old.slots) pages.new.items }
    ensures slots { slots_len closed.new.slots ≡ slots_len closed.old.slots }
    ensures taken { (k : ℕ) → k < frames → slice_index_or (slots_filled closed.new.slots) k false ≡ false }
{
    for f in 0..frames {
        let Some(held) = closed.take(f as usize) else {
            unreachable!()
        };
        let Held { page, .. } = held;
        pages.push_reserved(page);
    }
}
