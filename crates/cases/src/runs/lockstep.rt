//! A gate that its processors pass in turn.

use crate::runs::passes::{PROCESSORS, Pass};
use site_io::{Gate, Point};
use std::sync::{Mutex, Wait};
use std::thread::{self, Threads};

/// How many looks a wait takes at most.
const LOOKS: u32 = 250_000;

/// How often a processor lets others go first between two looks.
const YIELDS: u32 = 8;

/// To how many points each processor comes in turn: where it came online, where it loaded a process, and where its
/// first references were answered.
const POINTS: u64 = 8;

/// How many of these points are answers.
const ANSWERS: u32 = 6;

/// A gate at which processors come online, load a process, and have references answered in turn: from each such point
/// on, a processor waits until each one before it has come to one more, and each one after it to as many. So their
/// first answers are those of processors 0, 1 and so on, again and again, one of each.
///
/// The first wait that ends by its looks lets all processors pass from then on.
#[derive(Drop)]
pub(crate) struct Lockstep {
    processors: u32,
    came: Mutex<Came>,
}

/// To how many points each processor has come, and whether a wait ended by its looks.
#[derive(Clone, Copy)]
struct Came {
    points: [u64; PROCESSORS],
    gave_up: bool,
}

/// Whether processors wait for each other at a point.
fn is_common(point: Point) -> bool {
    matches!(point, Point::Online | Point::Loaded(_) | Point::Answered(_))
}

impl Came {
    /// Notes that a processor has come to one more point, and gives to how many it has come.
    fn note(&mut self, cpu: u32) -> u64 {
        match self.points.get_mut(cpu as usize) {
            Some(points) => {
                *points = points.saturating_add(1);
                *points
            }
            None => 0,
        }
    }

    /// Whether one of so many processors, which has come to so many points, may pass.
    fn lets_pass(&self, processors: u32, cpu: u32, points: u64) -> bool {
        for other in 0..processors {
            let wanted = points.saturating_add(u64::from(other < cpu)).min(POINTS);
            let came = self.points.get(other as usize).copied().unwrap_or(0);
            if other != cpu && came < wanted {
                return false;
            }
        }
        true
    }
}

impl Lockstep {
    /// A gate for so many processors, to which nobody has come.
    pub(crate) fn new(processors: u32) -> Lockstep {
        Lockstep {
            processors,
            came: Mutex::new(Came {
                points: [0; PROCESSORS],
                gave_up: false,
            }),
        }
    }

    /// Whether a processor that has come to so many points may pass.
    fn lets_pass<R: Wait>(&self, rt: &R, cpu: u32, points: u64) -> bool {
        let came = *self.came.lock(rt);
        came.gave_up || came.lets_pass(self.processors, cpu, points)
    }

    /// Waits until the processor may pass; false where the looks are used up before.
    fn wait<R: Wait>(&self, rt: &R, cpu: u32, points: u64) -> bool {
        for _ in 0..LOOKS {
            if self.lets_pass(rt, cpu, points) {
                return true;
            }
            for _ in 0..YIELDS {
                thread::yield_now();
            }
        }
        false
    }

    /// What is told after a run whose book tells of these passes: whether the processors had their references answered
    /// in turn, by the gate and by the book.
    pub(crate) fn text<R: Wait>(&self, rt: &R, told: &[Pass]) -> &'static str {
        if !self.came.lock(rt).gave_up && are_in_turn(told, self.processors) {
            "in turn\n"
        } else {
            "not in turn\n"
        }
    }
}

impl Gate for Lockstep {
    fn hold<R: Threads + Wait + Sync>(&self, rt: &R, cpu: u32, point: Point) {
        if !is_common(point) {
            return;
        }
        let points = self.came.lock(rt).note(cpu);
        if !self.wait(rt, cpu, points) {
            self.came.lock(rt).gave_up = true;
        }
    }
}

/// The processor after one.
fn next(cpu: u32, processors: u32) -> u32 {
    let next = cpu.saturating_add(1);
    if next < processors { next } else { 0 }
}

/// Whether the first answers among these passes are those of so many processors in turn.
fn are_in_turn(told: &[Pass], processors: u32) -> bool {
    let (mut turn, mut answers) = (0, 0);
    let most = processors.saturating_mul(ANSWERS);
    for pass in told {
        if matches!(pass.point, Point::Answered(_)) && answers < most {
            if pass.cpu != turn {
                return false;
            }
            turn = next(turn, processors);
            answers += 1;
        }
    }
    answers == most
}
