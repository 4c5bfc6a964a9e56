//! A machine with a worker for each of its processors.

ghost use Rattle.std.specs.Prelude.{◌≡◌, ◌<◌, ◌≤◌, ℕ, All, length, map};
ghost use Rattle.machine.specs.Turns.{CountsAlike, HaveCounted};

use crate::locked::{Locked, Run};
use crate::pausing::Bells;
use crate::working::work;
use arrayvec::ArrayVec;
use machine::Machine;
use script::MOST_PROCESSORS;
use site_io::Gate;
use std::marker::Brand;
use std::sync::{Mutex, Wait};
use std::thread::{self, Threads};
use volumes::Drive;

impl Run for Brand {
    ghost use Rattle.std.specs.Prelude.{[]};
    ghost use Rattle.workers.specs.Runs.{no_plan};

    ghost script = { no_plan };

    ghost cpus = { 0 };

    ghost plans = { [] };

    ghost places = { [] };

    ghost counted = { 0 };

    ghost told = { 0 };
}

/// The numbers of so many processors.
fn numbers(count: u32) -> ArrayVec<u32, MOST_PROCESSORS>
    requires { count ≤ MOST_PROCESSORS }
    ensures { All (λ (c : ℕ). c < count) result.items }
{
    let mut numbers = ArrayVec::new();
    for cpu in 0..count {
        numbers.push(cpu);
    }
    numbers
}

/// Has a worker for each processor make its steps, under one lock that holds the machine of a run.
fn run_under_lock<N: Run + Send + Sync, D: Drive + Send, G: Gate + Sync, R: Threads + Wait + Sync>(
    rt: &R,
    machine: Machine<D>,
    gate: &G,
    cpus: &mut [u32],
) -> Machine<D>
    requires script { machine.state.plan ≡ N.script }
    requires of { machine.state.plan.processors ≡ N.cpus }
    requires plans { map D.plan machine.drives ≡ N.plans }
    requires places { map D.places machine.drives ≡ N.places }
    requires alike { HaveCounted D.faults N.counted N.told machine }
    requires cpus { All (λ (c : ℕ). c < N.cpus) cpus.old }
    ensures script { result.state.plan ≡ N.script }
    ensures plans { map D.plan result.drives ≡ N.plans }
    ensures places { map D.places result.drives ≡ N.places }
    ensures alike { HaveCounted D.faults N.counted N.told result }
{
    let locked: Mutex<Locked<N, D>> = Mutex::new(Locked::of(machine));
    let bells = Bells::new();
    let workers = cpus.len();
    if workers > 0 {
        thread::for_each_mut(
            rt,
            cpus,
            workers,
            &|_, cpu: &mut u32|
                requires { cpu.old < N.cpus }
            { work(rt, &locked, gate, &bells, *cpu) },
        );
    }
    locked.into_inner().into_machine()
}

/// Has a worker for each processor make its steps, until all processes of the machine have ended; or it is stopped, as
/// it is where a worker was refused memory; or 1,000,000 steps in a row answered no command. One hold of the lock round
/// the machine is one step; the gate is passed between two, with no lock held. A worker that waits, for the lock or for
/// another processor, gives way to other threads, for longer each time up to a bound. (Source: own.)
pub fn run_workers<D: Drive + Send, G: Gate + Sync, R: Threads + Wait + Sync>(
    rt: &R,
    machine: Machine<D>,
    gate: &G,
) -> Machine<D>
    ensures script { result.state.plan ≡ machine.state.plan }
    ensures plans { map D.plan result.drives ≡ map D.plan machine.drives }
    ensures places { map D.places result.drives ≡ map D.places machine.drives }
    ensures alike { CountsAlike D.faults machine result }
{
    let script = machine.book().script();
    script.promise();
    let mut cpus = numbers(script.processors());
    run_under_lock::<Brand, D, G, R>(rt, machine, gate, cpus.as_mut_slice())
}
