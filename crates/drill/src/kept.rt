//! The keeper of the drill.
ghost use Rattle.std.specs.Prelude.{◌≡◌, ◌+◌, ◌<◌, ◌≤◌};
ghost use Rattle.live_doors.specs.Doors.{MayBind, OnlyNoted};
ghost use Rattle.live_pages.specs.Models.{IsKeeperOf, SameButWatch};
ghost use Rattle.live_pages.specs.Turns.{current, admitted};
ghost use Rattle.drill.specs.Roles.{IsKept, IsUnbound};

use crate::waits::{Pause, Rounds, give_way};
use crate::work::Size;
use live_pages::{Keeper, LivePages};
use mword::{Page, Word};
use site_io::{Gate, Point};
use std::sync::Wait;
use std::thread::Threads;

/// How often the keeper asks in a round.
const QUESTIONS: u32 = 1024;

/// How many turns the keeper gives way at most between two questions.
const PAUSE: u32 = 1024;

/// How many rounds the keeper makes for each frame.
const ROUNDS: u32 = 4;

/// The keeper, the page of zeros that it binds next, the sum of the first words of the pages that it took out, and how
/// many bindings it has made.
#[derive(Drop)]
pub(crate) struct Kept {
    pub(crate) keeper: Keeper,
    pub(crate) spare: Option<Page>,
    pub(crate) sum: Word,
    pub(crate) bindings: u64,
}

// Binds frame f to the page of zeros, adds the first word of the page that it had to the sum, and clears that page.
fn renew(pages: &LivePages, kept: &mut Kept, f: u32)
    requires kept { IsKept pages.now kept.old }
    requires frame { f < pages.now.frames }
    requires may_bind { MayBind kept.old.keeper.holder.watch kept.old.keeper.cleared f }
    requires low { current kept.old.keeper.holder.watch f ≤ kept.old.keeper.holder.watch.request }
    requires few { kept.old.keeper.holder.watch.request ≤ 256 }
    requires bindings { kept.old.bindings < 64 + kept.old.keeper.holder.watch.request }
    ensures kept { IsKept pages.now kept.new }
    ensures request { kept.new.keeper.holder.watch.request ≡ kept.old.keeper.holder.watch.request }
    ensures doors { kept.new.keeper.holder.watch.doors ≡ (admitted f kept.old.keeper.holder.watch).doors }
    ensures bindings { kept.new.bindings ≡ kept.old.bindings + 1 }
{
    let Some(page) = kept.spare.take() else {
        unreachable!()
    };
    let mut old = pages.bind(&mut kept.keeper, f, page);
    kept.sum = kept.sum.plus(old.get(0));
    old.clear_from(0);
    kept.spare = Some(old);
    kept.bindings += 1;
}

/// Binds every frame to a page of zeros, where none was ever bound.
pub(crate) fn bind_all(pages: &LivePages, kept: &mut Kept, frames: u32)
    requires kept { IsKept pages.now kept.old }
    requires frames { (frames ≡ pages.now.frames) × (frames ≤ 64) }
    requires bindings { kept.old.bindings ≡ 0 }
    requires fresh { IsUnbound frames kept.old.keeper.holder.watch }
    ensures kept { IsKept pages.now kept.new }
    ensures request { kept.new.keeper.holder.watch.request ≡ kept.old.keeper.holder.watch.request }
{
    for f in 0..frames {
        renew(pages, kept, f);
    }
}

// Asks whether all is clear, for as often as is allowed or until the rounds are over, and gives way after each answer
// that it is not.
fn ask(pages: &LivePages, rounds: &Rounds, keeper: &mut Keeper, stamp: u64)
    requires { IsKeeperOf pages.now keeper.old }
    ensures keeper { IsKeeperOf pages.now keeper.new }
    ensures noted { OnlyNoted keeper.old.holder.watch keeper.new.holder.watch }
    ensures same { SameButWatch keeper.old.holder keeper.new.holder }
{
    let mut pause = Pause::up_to(PAUSE);
    for _ in 0..QUESTIONS {
        if pages.all_clear(keeper, stamp).is_ok() || rounds.are_over() {
            break;
        }
        give_way(pause.turns());
    }
}

// Closes the door of frame f if it is admitted, raises a stamp and asks, and binds the frame anew where it may.
fn round(pages: &LivePages, rounds: &Rounds, kept: &mut Kept, f: u32)
    requires kept { IsKept pages.now kept.old }
    requires frame { f < pages.now.frames }
    requires few { kept.old.keeper.holder.watch.request < 256 }
    ensures kept { IsKept pages.now kept.new }
    ensures request { kept.new.keeper.holder.watch.request ≡ kept.old.keeper.holder.watch.request + 1 }
{
    if kept.keeper.is_admitted(f) {
        pages.close_door(&mut kept.keeper, f);
    }
    let stamp = pages.raise(&mut kept.keeper);
    ask(pages, rounds, &mut kept.keeper, stamp);
    if kept.keeper.may_bind(f) {
        renew(pages, kept, f);
    }
}

/// Calls the gate once, makes the keeper's rounds, in which the frames come in turn, and says that they are over.
pub(crate) fn keep<R: Threads + Wait + Sync, G: Gate>(
    rt: &R,
    pages: &LivePages,
    size: Size,
    gate: &G,
    rounds: &Rounds,
    kept: &mut Kept,
)
    requires kept { IsKept pages.now kept.old }
    requires fresh { kept.old.keeper.holder.watch.request ≡ 0 }
    requires frames { (size.frames ≡ pages.now.frames) × (0 < size.frames) × (size.frames ≤ 64) }
    ensures { IsKept pages.now kept.new }
{
    gate.hold(rt, size.cpus, Point::Other);
    for r in 0..ROUNDS * size.frames {
        round(pages, rounds, kept, r % size.frames);
    }
    rounds.end();
}
