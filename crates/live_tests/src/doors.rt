//! Tests of the doors.
ghost use Rattle.std.specs.Prelude.{◌≡◌, ◌+◌, ◌<◌, ◌≤◌, All, IfSome, length};
ghost use Rattle.live_doors.specs.Doors.{IsPassOf, IsKeeperOf, OnlyNoted, opening_watch};
ghost use Rattle.live_tests.specs.Race.{IsReady};

use live_doors::{Behind, Closed, Ended, Keeper, LiveDoors, NoMemory, Pass};
use std::alloc::Global;
use std::sync::atomic::{AtomicBool, AtomicU64, Ordering};
use std::thread;
use std::thread::{Threads, join};

// One pass enters frame 0, whose door is closed then to the other. The next stamp is raised.
fn closes_frame_0(doors: &LiveDoors, keeper: &mut Keeper, zero: &mut Pass, one: &mut Pass) -> bool
    requires keeper { IsKeeperOf doors.now keeper.old × (keeper.old.watch ≡ opening_watch 2 2 2) }
    requires frames { doors.now.frames ≡ 2 }
    requires passes { IsPassOf doors.now zero.old × IsPassOf doors.now one.old }
    ensures keeper { IsKeeperOf doors.now keeper.new }
    ensures passes { IsPassOf doors.now zero.new × IsPassOf doors.now one.new }
{
    let entered = doors.fill(zero, 0) == Ok(1) && zero.holds(0) && !zero.holds(1);
    doors.close_door(keeper, 0);
    let closed = doors.fill(one, 0) == Err(Closed { word: 3 });
    let admits = !keeper.is_admitted(0) && keeper.is_admitted(1);
    let raised = doors.raise(keeper) == 1 && keeper.last_stamp() == 1;
    entered && closed && admits && raised && !keeper.may_bind(0)
}

// A pass forgets its entries at stamp 1, and lets the keeper know.
fn rests(doors: &LiveDoors, pass: &mut Pass) -> bool
    requires { IsPassOf doors.now pass.old }
    ensures { IsPassOf doors.now pass.new }
{
    let stamp = doors.forget(pass);
    doors.acknowledge(pass);
    stamp == 1
}

// All is clear once both passes have acknowledged, and then frame 0 may be bound.
fn clears_frame_0(doors: &LiveDoors, keeper: &mut Keeper, zero: &mut Pass, one: &mut Pass) -> bool
    requires keeper { IsKeeperOf doors.now keeper.old }
    requires frames { doors.now.frames ≡ 2 }
    requires passes { IsPassOf doors.now zero.old × IsPassOf doors.now one.old }
    ensures keeper { IsKeeperOf doors.now keeper.new }
    ensures passes { IsPassOf doors.now zero.new × IsPassOf doors.now one.new }
{
    doors.all_clear(keeper, 1) == Err(Behind { cpu: 0, seen: 0 })
        && rests(doors, zero)
        && doors.all_clear(keeper, 1) == Err(Behind { cpu: 1, seen: 0 })
        && rests(doors, one)
        && doors.all_clear(keeper, 1) == Ok(())
        && keeper.may_bind(0)
        && !keeper.may_bind(1)
        && !zero.holds(0)
}

// The two passes, in order.
fn both(doors: &LiveDoors, mut passes: Vec<Pass>) -> Option<(Pass, Pass)>
    requires { All (IsPassOf doors.now) passes.items }
    ensures { IfSome result (λ two. IsPassOf doors.now two.0 × IsPassOf doors.now two.1) }
{
    let one = passes.pop()?;
    let zero = passes.pop()?;
    Some((zero, one))
}

// Takes both passes in, in a row, and answers the words of the doors and the last stamp.
fn close(
    alloc: Global,
    doors: LiveDoors,
    keeper: Keeper,
    zero: Pass,
    one: Pass,
) -> Result<Ended, NoMemory>
    requires keeper { IsKeeperOf doors keeper }
    requires passes { IsPassOf doors zero × IsPassOf doors one }
{
    let passes = vec![in alloc; zero, one]?;
    Ok(doors.close(keeper, passes))
}

#[test]
fn revokes_in_order_on_one_thread(rt: HostRuntime) -> Result<(), NoMemory> {
    let (doors, mut keeper, passes) = LiveDoors::admitted(rt.alloc(), 2, 2)?;
    let (mut zero, mut one) = both(&doors, passes).expect(&rt, "two passes");
    let revoked = closes_frame_0(&doors, &mut keeper, &mut zero, &mut one)
        && clears_frame_0(&doors, &mut keeper, &mut zero, &mut one);
    let ended = close(rt.alloc(), doors, keeper, zero, one)?;
    assert!(&rt; revoked && ended.doors.as_slice() == [3, 2].as_slice() && ended.request == 1);
    Ok(())
}

// No frame can be entered, and each may be bound.
fn all_are_unbound(doors: &LiveDoors, keeper: &Keeper, pass: &mut Pass) -> bool
    requires keeper { IsKeeperOf doors.now keeper.now }
    requires pass { IsPassOf doors.now pass.old }
    requires frames { doors.now.frames ≡ 3 }
{
    for f in 0..3 {
        let closed = doors.fill(pass, f) == Err(Closed { word: 1 });
        if !closed || !keeper.may_bind(f) || pass.holds(f) {
            return false;
        }
    }
    true
}

#[test]
fn frames_that_were_never_bound_are_closed(rt: HostRuntime) -> Result<(), NoMemory> {
    let (doors, keeper, passes) = LiveDoors::new(rt.alloc(), 3, 2)?;
    let (zero, mut one) = both(&doors, passes).expect(&rt, "two passes");
    let unbound = all_are_unbound(&doors, &keeper, &mut one);
    drop(doors);
    drop(keeper);
    drop(zero);
    drop(one);
    assert!(&rt; unbound);
    Ok(())
}

const ROUNDS: u32 = 1000;

// What the threads of the race tell one another.
#[derive(Drop)]
struct Signals {
    cleared: AtomicU64,
    ended: AtomicBool,
    violations: AtomicU64,
}

impl Signals {
    fn new() -> Signals {
        Signals {
            cleared: AtomicU64::new(0),
            ended: AtomicBool::new(false),
            violations: AtomicU64::new(0),
        }
    }

    // The keeper was told that no pass holds the frame.
    fn is_cleared(&self, f: u32) -> bool {
        u64::from(f) < self.cleared.load(Ordering::SeqCst)
    }

    // A frame near the one that the keeper closes now.
    fn near(&self, turn: u32) -> u32
        ensures { result < 1000 }
    {
        let frame = self.cleared.load(Ordering::SeqCst) % 1000 + u64::from(turn % 4);
        (frame % 1000) as u32
    }
}

// Fills, forgets and acknowledges until the keeper has ended, and counts the entries that it holds of cleared frames.
fn race(doors: &LiveDoors, mut pass: Pass, signals: &Signals) -> Pass
    requires pass { IsPassOf doors.now pass }
    requires frames { doors.now.frames ≡ 1000 }
    ensures { IsPassOf doors.now result }
{
    for turn in 0..u32::MAX {
        if signals.ended.load(Ordering::SeqCst) {
            break;
        }
        let f = signals.near(turn);
        let _ = doors.fill(&mut pass, f);
        if pass.holds(f) && signals.is_cleared(f) {
            signals.violations.fetch_add(1, Ordering::SeqCst);
        }
        if turn % 8 == 7 {
            doors.forget(&mut pass);
            doors.acknowledge(&mut pass);
        }
    }
    doors.forget(&mut pass);
    doors.acknowledge(&mut pass);
    pass
}

// Asks until all is clear, for at most so many times.
fn ask(doors: &LiveDoors, keeper: &mut Keeper, stamp: u64) -> bool
    requires { IsKeeperOf doors.now keeper.old }
    ensures keeper { IsKeeperOf doors.now keeper.new }
    ensures same { OnlyNoted keeper.old.watch keeper.new.watch }
{
    for _ in 0..10_000_000 {
        if doors.all_clear(keeper, stamp).is_ok() {
            return true;
        }
        thread::yield_now();
    }
    false
}

// Closes each door in turn, raises a stamp, and waits until all is clear.
fn keep(doors: &LiveDoors, mut keeper: Keeper, signals: &Signals) -> Keeper
    requires keeper { IsReady doors.now keeper }
    ensures { IsKeeperOf doors.now result }
{
    for f in 0..ROUNDS {
        doors.close_door(&mut keeper, f);
        let stamp = doors.raise(&mut keeper);
        if !ask(doors, &mut keeper, stamp) {
            break;
        }
        signals.cleared.store(u64::from(f) + 1, Ordering::SeqCst);
    }
    signals.ended.store(true, Ordering::SeqCst);
    keeper
}

// Two passes race the keeper, each on a thread of its own.
fn run<R: Threads + Sync>(
    rt: &R,
    doors: &LiveDoors,
    zero: Pass,
    one: Pass,
    keeper: Keeper,
    signals: &Signals,
) -> (Pass, Pass, Keeper)
    requires zero { IsPassOf doors.now zero }
    requires one { IsPassOf doors.now one }
    requires keeper { IsReady doors.now keeper }
    ensures zero { IsPassOf doors.now result.0 }
    ensures one { IsPassOf doors.now result.1 }
    ensures keeper { IsKeeperOf doors.now result.2 }
{
    let (zero, (one, keeper)) = join(
        rt,
        || -> Pass
            requires { IsPassOf doors.now zero × (doors.now.frames ≡ 1000) }
            ensures { IsPassOf doors.entry.now result }
        { race(doors, zero, signals) },
        || -> (Pass, Keeper)
            requires { IsPassOf doors.now one × IsReady doors.now keeper }
            ensures { IsPassOf doors.entry.now result.0 × IsKeeperOf doors.entry.now result.1 }
        { race_and_keep(rt, doors, one, keeper, signals) },
    );
    (zero, one, keeper)
}

fn race_and_keep<R: Threads + Sync>(
    rt: &R,
    doors: &LiveDoors,
    pass: Pass,
    keeper: Keeper,
    signals: &Signals,
) -> (Pass, Keeper)
    requires pass { IsPassOf doors.now pass }
    requires keeper { IsReady doors.now keeper }
    ensures pass { IsPassOf doors.now result.0 }
    ensures keeper { IsKeeperOf doors.now result.1 }
{
    join(
        rt,
        || -> Pass
            requires { IsPassOf doors.now pass × (doors.now.frames ≡ 1000) }
            ensures { IsPassOf doors.entry.now result }
        { race(doors, pass, signals) },
        || -> Keeper
            requires { IsReady doors.now keeper }
            ensures { IsKeeperOf doors.entry.now result }
        { keep(doors, keeper, signals) },
    )
}

// All is clear, every frame may be bound, and no pass holds one.
fn all_are_free(doors: &LiveDoors, keeper: &mut Keeper, zero: &Pass, one: &Pass) -> bool
    requires frames { doors.now.frames ≡ 1000 }
    requires keeper { IsKeeperOf doors.now keeper.old }
    requires passes { IsPassOf doors.now zero.now × IsPassOf doors.now one.now }
    ensures keeper { IsKeeperOf doors.now keeper.new }
{
    doors.all_clear(keeper, 1000) == Ok(()) && all_may_be_bound(keeper, zero, one)
}

// Every frame may be bound, and no pass holds one.
fn all_may_be_bound(keeper: &Keeper, zero: &Pass, one: &Pass) -> bool
    requires keeper { length keeper.now.watch.doors ≡ 1000 }
    requires zero { length zero.now.walk.held ≡ 1000 }
    requires one { length one.now.walk.held ≡ 1000 }
{
    for f in 0..ROUNDS {
        if !keeper.may_bind(f) || zero.holds(f) || one.holds(f) {
            return false;
        }
    }
    true
}

// Every frame was cleared, and no pass was seen to hold a cleared one.
fn all_were_cleared(signals: &Signals) -> bool {
    signals.violations.load(Ordering::SeqCst) == 0 && signals.cleared.load(Ordering::SeqCst) == 1000
}

#[test]
fn no_pass_holds_what_was_cleared(rt: HostRuntime) -> Result<(), NoMemory> {
    let (doors, keeper, passes) = LiveDoors::admitted(rt.alloc(), ROUNDS, 2)?;
    let (zero, one) = both(&doors, passes).expect(&rt, "two passes");
    let signals = Signals::new();
    let (zero, one, mut keeper) = run(&rt, &doors, zero, one, keeper, &signals);
    let free = all_were_cleared(&signals) && all_are_free(&doors, &mut keeper, &zero, &one);
    let ended = close(rt.alloc(), doors, keeper, zero, one)?;
    assert!(&rt; free && ended.doors.iter().all(|&door| door == 3) && ended.request == 1000);
    Ok(())
}
