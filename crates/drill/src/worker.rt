//! A processor of the drill.
ghost use Rattle.std.specs.Prelude.{◌≡◌, ◌+◌, ◌^◌, ◌<◌, ◌≤◌, length};
ghost use Rattle.live_pages.specs.Models.{IsPassOf};
ghost use Rattle.drill.specs.Roles.{IsFresh, IsDone, HasTried};

use crate::waits::{Pause, Rounds, give_way};
use crate::work::{Size, word_at};
use draws::Draws;
use live_pages::{LivePages, Pass, Touch};
use mword::Word;
use site_io::{Gate, Point};
use std::sync::Wait;
use std::thread;
use std::thread::Threads;

/// How often an add is tried.
const TRIES: u32 = 64;

/// How many turns a worker gives way at most between two tries.
const PAUSE: u32 = 65536;

/// How often a worker that is done rests at most while the keeper makes its rounds.
const RESTS: u32 = 4_000_000;

/// A processor that adds, and how many of its adds were made.
#[derive(Drop)]
pub(crate) struct Worker {
    pub(crate) pass: Pass,
    pub(crate) cpu: u32,
    pub(crate) done: u32,
}

// Adds the word to the first one of the frame's page, if door and turn let it.
fn try_once(pages: &LivePages, pass: &mut Pass, f: u32, word: Word) -> bool
    requires pass { IsPassOf pages.now pass.old }
    requires frame { f < pages.now.frames }
    requires few { length pass.old.walker.made < 2 ^ 32 }
    ensures { HasTried pages.now pass.old pass.new f word result }
{
    if !pass.holds(f) && pages.fill(pass, f).is_err() {
        return false;
    }
    pass.holds(f) && pages.touch(pass, f, Touch::Add(0, word)).is_ok()
}

// Rests, so many times at most, while the keeper makes its rounds, and gives way each time. The keeper is answered so
// by a processor that stands at a closed door, and by one that has no more to do.
fn rest_for(pages: &LivePages, rounds: &Rounds, pass: &mut Pass, turns: u32)
    requires { IsPassOf pages.now pass.old }
    ensures pass { IsPassOf pages.now pass.new }
    ensures cpu { pass.new.walker.walk.cpu ≡ pass.old.walker.walk.cpu }
    ensures made { pass.new.walker.made ≡ pass.old.walker.made }
{
    for _ in 0..turns {
        pages.rest(pass);
        if rounds.are_over() {
            break;
        }
        thread::yield_now();
    }
}

// Tries an add for as often as is allowed. After each try that failed it gives way, so that the turn is given back, or
// rests, so that the frame can be admitted anew.
fn try_add(pages: &LivePages, rounds: &Rounds, pass: &mut Pass, f: u32, word: Word) -> bool
    requires pass { IsPassOf pages.now pass.old }
    requires frame { f < pages.now.frames }
    requires few { length pass.old.walker.made < 2 ^ 32 }
    ensures { HasTried pages.now pass.old pass.new f word result }
{
    let mut pause = Pause::up_to(PAUSE);
    for _ in 0..TRIES {
        if try_once(pages, pass, f, word) {
            return true;
        }
        let turns = pause.turns();
        if pass.holds(f) {
            give_way(turns);
        } else {
            rest_for(pages, rounds, pass, turns);
        }
    }
    false
}

/// Makes the adds of the processor, in order, up to the first that can't be made. Calls the gate after each one, and
/// rests after every eighth, and at the end until the keeper's rounds are over.
pub(crate) fn work<R: Threads + Wait + Sync, G: Gate>(
    rt: &R,
    pages: &LivePages,
    size: Size,
    gate: &G,
    rounds: &Rounds,
    worker: &mut Worker,
)
    requires fresh { IsFresh pages.now worker.old }
    requires frames { (size.frames ≡ pages.now.frames) × (0 < size.frames) }
    requires adds { size.adds ≤ 10000 }
    ensures done { IsDone pages.now size.seed size.adds worker.new }
    ensures cpu { worker.new.cpu ≡ worker.old.cpu }
{
    let Size {
        frames,
        adds,
        seed,
        ..
    } = size;
    let mut draws = Draws {
        state: u64::from(seed) + u64::from(worker.cpu),
    };
    for i in 0..adds {
        let f = draws.draw(frames);
        if !try_add(pages, rounds, &mut worker.pass, f, word_at(i)) {
            break;
        }
        worker.done = i + 1;
        gate.hold(rt, worker.cpu, Point::Answered(worker.cpu));
        if i % 8 == 7 {
            pages.rest(&mut worker.pass);
        }
    }
    rest_for(pages, rounds, &mut worker.pass, RESTS);
    rounds.end();
}
