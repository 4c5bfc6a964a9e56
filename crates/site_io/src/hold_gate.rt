use crate::gate::{Gate, Point};
use std::sync::{Mutex, Wait};
use std::thread;
use std::thread::Threads;

/// How many turns a hold takes at most.
const TURNS: u32 = 1_000_000;

/// How often a processor lets others go first in a turn.
const YIELDS: u32 = 8;

/// A gate that brings two processors together at certain points, each of which runs one process.
///
/// It holds each processor at its first `Online`, and then at its first `Loaded`, until both have come there; the
/// first `Answered` of each of the processes 0 and 1 until both have one; the second `Answered(1)` until a
/// `Signalled` has come; and the first `Signalled` until a third `Answered(1)` has come. So a run that goes through
/// it has a reference answered between a signal and what follows it, on another thread. A hold ends after 1,000,000
/// turns at most, a turn being one taking of the gate's lock with a look at what has come. (Source: own.)
#[derive(Drop)]
pub struct HoldGate {
    came: Mutex<Came>,
}

/// What has come to the gate so far.
#[derive(Clone, Copy)]
struct Came {
    /// Whether processor 0, and processor 1, came online.
    online: [bool; 2],
    /// Whether each loaded a process.
    loaded: [bool; 2],
    /// How many references of process 0, and of process 1, were answered.
    answered: [u32; 2],
    /// Whether a signal has come.
    signalled: bool,
    /// Whether a hold ended by its turns.
    gave_up: bool,
}

/// What a hold waits for.
#[derive(Clone, Copy)]
enum Until {
    BothOnline,
    BothLoaded,
    BothAnswered,
    Signal,
    ThirdAnswer,
}

impl Came {
    /// Notes that this processor came to this point, and says for what it is held there, if it is.
    fn note(&mut self, cpu: u32, point: Point) -> Option<Until> {
        match point {
            Point::Online => first(&mut self.online, cpu).then_some(Until::BothOnline),
            Point::Loaded(_) => first(&mut self.loaded, cpu).then_some(Until::BothLoaded),
            Point::Answered(process) => self.note_answer(process),
            Point::Signalled if !self.signalled => {
                self.signalled = true;
                Some(Until::ThirdAnswer)
            }
            Point::Signalled | Point::Other => None,
        }
    }

    /// Notes one more answer of a process.
    fn note_answer(&mut self, process: u32) -> Option<Until> {
        let answers = self.answered.get_mut(process as usize)?;
        *answers = answers.saturating_add(1);
        match (process, *answers) {
            (_, 1) => Some(Until::BothAnswered),
            (1, 2) => Some(Until::Signal),
            _ => None,
        }
    }

    /// Whether what a hold waits for has come.
    fn has(&self, until: Until) -> bool {
        match until {
            Until::BothOnline => self.online == [true; 2],
            Until::BothLoaded => self.loaded == [true; 2],
            Until::BothAnswered => self.answered[0] > 0 && self.answered[1] > 0,
            Until::Signal => self.signalled,
            Until::ThirdAnswer => self.answered[1] > 2,
        }
    }

    /// Whether each hold took place and none ended by its turns.
    fn is_whole(&self) -> bool {
        self.online == [true; 2]
            && self.loaded == [true; 2]
            && self.answered[0] > 0
            && self.answered[1] > 1
            && self.signalled
            && !self.gave_up
    }
}

/// Marks the processor's flag; whether it was off.
fn first(flags: &mut [bool; 2], cpu: u32) -> bool {
    match flags.get_mut(cpu as usize) {
        Some(flag) => {
            let was_off = !*flag;
            *flag = true;
            was_off
        }
        None => false,
    }
}

impl HoldGate {
    /// A gate to which nobody has come.
    pub fn new() -> HoldGate {
        HoldGate {
            came: Mutex::new(Came {
                online: [false; 2],
                loaded: [false; 2],
                answered: [0; 2],
                signalled: false,
                gave_up: false,
            }),
        }
    }

    /// Whether each hold took place, and none of them ended by its turns.
    pub fn passed<R: Threads + Wait + Sync>(&self, rt: &R) -> bool {
        self.came.lock(rt).is_whole()
    }

    /// Waits until this has come; false where the turns are used up before.
    fn wait_for<R: Wait>(&self, rt: &R, until: Until) -> bool {
        for _ in 0..TURNS {
            if self.came.lock(rt).has(until) {
                return true;
            }
            for _ in 0..YIELDS {
                thread::yield_now();
            }
        }
        false
    }
}

impl Gate for HoldGate {
    fn hold<R: Threads + Wait + Sync>(&self, rt: &R, cpu: u32, point: Point) {
        let until = self.came.lock(rt).note(cpu, point);
        let Some(until) = until else {
            return;
        };
        if !self.wait_for(rt, until) {
            self.came.lock(rt).gave_up = true;
        }
    }
}
