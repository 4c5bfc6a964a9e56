//! What each worker does.

ghost use Rattle.std.specs.Prelude.{◌<◌};

use crate::locked::{Locked, Run};
use crate::pausing::{Bells, Pause};
use machine::Turn;
use site_io::{Gate, Point};
use std::sync::{Mutex, MutexGuard, Wait};
use std::thread::Threads;
use volumes::Drive;

/// How often a worker looks whether the lock is free, before it waits for it.
const LOOKS: u32 = 64;

/// The most turns that a worker gives way before it looks again whether the lock is free.
const TURNS_FOR_LOCK: u32 = 256;

/// The most turns that a worker gives way before it makes a step again that waited.
const TURNS_FOR_STEP: u32 = 64;

/// The most steps of a worker. No run comes to so many: at most 100,000 commands are answered in it, and before each,
/// and after the last, at most 1,000,000 steps in a row answer none.
const MOST_STEPS: u64 = 100_001_000_000;

/// Waits for a lock that isn't free: other threads go first, for longer each time, until a signal asks each processor
/// to drop something; and after some looks the worker waits for it.
#[inline(never)]
fn wait_for<'a, T, R: Wait>(rt: &R, lock: &'a Mutex<T>, bells: &Bells) -> MutexGuard<'a, T> {
    let mut pause = Pause::new();
    for _ in 0..LOOKS {
        let heard = bells.signals.rings();
        pause.rest_until_signal(bells, heard, TURNS_FOR_LOCK);
        if let Some(guard) = lock.try_lock() {
            return guard;
        }
    }
    lock.lock(rt)
}

/// Takes the lock, at once where it is free.
fn hold<'a, T, R: Wait>(rt: &R, lock: &'a Mutex<T>, bells: &Bells) -> MutexGuard<'a, T> {
    match lock.try_lock() {
        Some(guard) => guard,
        None => wait_for(rt, lock, bells),
    }
}

/// Makes steps of processor `cpu`, one a hold of the lock, until its processes have ended, the machine is stopped, or
/// too many steps in a row of the machine answered no command. Between two holds it passes the gate. After a step that
/// waits other threads go first, for longer each time, until a signal asks each processor to drop something; and where
/// this one signalled, until another goes on after it.
pub(crate) fn work<N: Run, D: Drive, G: Gate, R: Threads + Wait + Sync>(
    rt: &R,
    locked: &Mutex<Locked<N, D>>,
    gate: &G,
    bells: &Bells,
    cpu: u32,
)
    requires { cpu < N.cpus }
{
    let mut pause = Pause::new();
    let mut heard = bells.signals.rings();
    let mut signalled = false;
    for _ in 0..MOST_STEPS {
        let Some(turn) = hold(rt, locked, bells).turn(cpu) else {
            break;
        };
        match turn {
            Turn::Moved(point) => {
                signalled = matches!(point, Point::Signalled);
                if signalled {
                    bells.signals.ring();
                }
                gate.hold(rt, cpu, point);
                pause = Pause::new();
            }
            Turn::Waits(_) => {
                gate.hold(rt, cpu, Point::Other);
                if signalled {
                    pause.rest_until_drop(bells, TURNS_FOR_STEP);
                } else {
                    pause.rest_until_signal(bells, heard, TURNS_FOR_STEP);
                    heard = bells.signals.rings();
                }
            }
            Turn::Ended | Turn::Stopped => break,
        }
    }
}
