//! Tests of the drill; what it prints stands in `cases`.

use drill::{NoMemory, drill};
use site_io::{Gate, Point};
use std::alloc::Global;
use std::process::Abort;
use std::sync::Wait;
use std::sync::atomic::{AtomicBool, AtomicU64, Ordering};
use std::thread;
use std::thread::Threads;

/// How many turns a hold takes at most, each with a look at what has come.
const TURNS: u32 = 1_000_000;

/// How often a thread lets others go first in a turn.
const YIELDS: u32 = 8;

/// How many drills are tried.
const RUNS: u32 = 10;

// Holds the keeper, and each of two processors at its first touch, until all three have come, and counts the touches.
#[derive(Drop)]
struct Meeting {
    zero: AtomicBool,
    one: AtomicBool,
    keeper: AtomicBool,
    gave_up: AtomicBool,
    touches: AtomicU64,
}

impl Meeting {
    fn new() -> Meeting {
        Meeting {
            zero: AtomicBool::new(false),
            one: AtomicBool::new(false),
            keeper: AtomicBool::new(false),
            gave_up: AtomicBool::new(false),
            touches: AtomicU64::new(0),
        }
    }

    fn has_come(&self) -> bool {
        self.zero.load(Ordering::SeqCst)
            && self.one.load(Ordering::SeqCst)
            && self.keeper.load(Ordering::SeqCst)
    }

    fn wait(&self) {
        for _ in 0..TURNS {
            if self.has_come() {
                return;
            }
            for _ in 0..YIELDS {
                thread::yield_now();
            }
        }
        self.gave_up.store(true, Ordering::SeqCst);
    }

    // All three came, none gave up, and there was a call for each touch.
    fn was_held(&self, touches: u64) -> bool {
        self.has_come()
            && !self.gave_up.load(Ordering::SeqCst)
            && self.touches.load(Ordering::SeqCst) == touches
    }
}

impl Gate for Meeting {
    fn hold<R: Threads + Wait + Sync>(&self, _rt: &R, cpu: u32, point: Point) {
        if matches!(point, Point::Answered(_)) {
            self.touches.fetch_add(1, Ordering::SeqCst);
        }
        let is_first = match (cpu, point) {
            (0, Point::Answered(0)) => !self.zero.swap(true, Ordering::SeqCst),
            (1, Point::Answered(1)) => !self.one.swap(true, Ordering::SeqCst),
            (2, Point::Other) => !self.keeper.swap(true, Ordering::SeqCst),
            _ => false,
        };
        if is_first {
            self.wait();
        } else {
            thread::yield_now();
        }
    }
}

// A drill of two processors, four frames and 100 adds each. Answers how often a frame was bound again, and how many
// adds were made by touches.
fn run<R: Abort + Threads + Wait + Sync>(
    rt: &R,
    alloc: Global,
    seed: u32,
) -> Result<(u64, u64), NoMemory> {
    let gate = Meeting::new();
    let drilled = drill(rt, alloc, 2, 4, 100, seed, &gate)?;
    let (bindings, touches) = (drilled.bindings, drilled.touches);
    let is_whole = gate.was_held(touches) && drilled.total.value() == 790;
    drop(drilled);
    assert!(rt; is_whole);
    Ok((bindings.saturating_sub(4), touches))
}

#[test]
fn two_processors_touch_while_the_keeper_waits(rt: HostRuntime) -> Result<(), NoMemory> {
    let (_, touches) = run(&rt, rt.alloc(), 1)?;
    assert!(&rt; touches >= 2);
    Ok(())
}

// In each run more than half of the 16 rounds bind a frame again: a keeper that asks for an earlier stamp than the one
// that it raised can bind in every other round at most. And at least half of the 200 adds are made by touches: few are
// where a processor that stands at a closed door doesn't answer the keeper.
#[test]
fn frames_are_bound_again_while_two_processors_touch(rt: HostRuntime) -> Result<(), NoMemory> {
    for seed in 0..RUNS {
        let (bound, touches) = run(&rt, rt.alloc(), seed)?;
        assert!(&rt; bound > 8 && touches >= 100);
    }
    Ok(())
}

// Holds the keeper until two processors have made their 200 adds, and counts the touches.
#[derive(Drop)]
struct Late {
    touches: AtomicU64,
}

impl Gate for Late {
    fn hold<R: Threads + Wait + Sync>(&self, _rt: &R, _cpu: u32, point: Point) {
        if matches!(point, Point::Answered(_)) {
            self.touches.fetch_add(1, Ordering::SeqCst);
            return;
        }
        for _ in 0..TURNS {
            if self.touches.load(Ordering::SeqCst) == 200 {
                return;
            }
            for _ in 0..YIELDS {
                thread::yield_now();
            }
        }
    }
}

// All adds are made before the first door closes, and then more than half of the 16 rounds bind a frame again: a
// processor that is done answers the keeper until its rounds are over.
#[test]
fn who_is_done_answers_the_keeper(rt: HostRuntime) -> Result<(), NoMemory> {
    let late = Late {
        touches: AtomicU64::new(0),
    };
    let drilled = drill(&rt, rt.alloc(), 2, 4, 100, 1, &late)?;
    let is_done = drilled.touches == 200 && drilled.bindings > 12;
    drop(drilled);
    assert!(&rt; is_done);
    Ok(())
}
