ghost use Rattle.std.specs.Prelude.{◌≡◌, true, length, IfOk};
ghost use Rattle.core_map.specs.CoreMap.{frame_at, is_bound};

use core_map::{CoreMap, NoMemory};
use std::alloc::Global;
use std::process::Abort;

/// Two frames and the hand. Each frame is free, or bound with its used mark off or on.
type State = (Option<bool>, Option<bool>, u32);

const FREE: Option<bool> = None;

const OFF: Option<bool> = Some(false);

const ON: Option<bool> = Some(true);

/// The two frames and the hand; then the choice, and the two frames and the hand after it.
const CASES: [(State, u32, State); 16] = [
    ((FREE, OFF, 0), 1, (FREE, OFF, 0)),
    ((FREE, ON, 0), 1, (FREE, OFF, 0)),
    ((OFF, FREE, 0), 0, (OFF, FREE, 1)),
    ((ON, FREE, 0), 0, (OFF, FREE, 1)),
    ((OFF, OFF, 0), 0, (OFF, OFF, 1)),
    ((OFF, ON, 0), 0, (OFF, ON, 1)),
    ((ON, OFF, 0), 1, (OFF, OFF, 0)),
    ((ON, ON, 0), 0, (OFF, OFF, 1)),
    ((FREE, OFF, 1), 1, (FREE, OFF, 0)),
    ((FREE, ON, 1), 1, (FREE, OFF, 0)),
    ((OFF, FREE, 1), 0, (OFF, FREE, 1)),
    ((ON, FREE, 1), 0, (OFF, FREE, 1)),
    ((OFF, OFF, 1), 1, (OFF, OFF, 0)),
    ((OFF, ON, 1), 0, (OFF, OFF, 1)),
    ((ON, OFF, 1), 1, (ON, OFF, 0)),
    ((ON, ON, 1), 1, (OFF, OFF, 0)),
];

/// Whether a page is bound to frame `f`, one of two.
fn has_page(core: &CoreMap, f: u32) -> bool
    requires two { length core.now.frames ≡ 2 }
    ensures bound { result ≡ true → is_bound (frame_at core.now f) ≡ true }
{
    f < 2 && core.page_of(f).is_some()
}

/// Binds frame `f`, which is free, with this used mark.
fn bind(rt: &impl Abort, core: &mut CoreMap, f: u32, used: bool)
    requires two { length core.old.frames ≡ 2 }
    ensures two { length core.new.frames ≡ 2 }
{
    assert!(rt; f < 2 && core.page_of(f).is_none() && core.started(f).is_none());
    core.bind(f, 1, 0);
    if used {
        core.mark(f, false);
    }
}

/// Frees frame `f`, which is bound.
fn release(rt: &impl Abort, core: &mut CoreMap, f: u32)
    requires two { length core.old.frames ≡ 2 }
    ensures two { length core.new.frames ≡ 2 }
{
    assert!(rt; has_page(core, f));
    core.release(f);
}

/// The clock's choice, where a frame is bound.
fn choose(rt: &impl Abort, core: &mut CoreMap) -> u32
    requires two { length core.old.frames ≡ 2 }
    ensures two { length core.new.frames ≡ 2 }
{
    assert!(rt; has_page(core, 0) || has_page(core, 1));
    core.choose()
}

/// A core in this state. The hand comes to frame 1 as the clock chooses frame 0.
fn core_in(rt: &impl Abort, alloc: Global, state: State) -> Result<CoreMap, NoMemory>
    ensures two { IfOk result (λ core. length core.frames ≡ 2) }
{
    let mut core = CoreMap::new(alloc, 2)?;
    let (first, second, hand) = state;
    if hand == 1 {
        bind(rt, &mut core, 0, false);
        assert!(rt; choose(rt, &mut core) == 0);
        release(rt, &mut core, 0);
    }
    if let Some(used) = first {
        bind(rt, &mut core, 0, used);
    }
    if let Some(used) = second {
        bind(rt, &mut core, 1, used);
    }
    Ok(core)
}

/// Whether two cores show the same: their frames with their marks, and their hands.
fn look_alike(alloc: Global, one: &CoreMap, other: &CoreMap) -> Result<bool, NoMemory> {
    let found = format!(in alloc; "{one:?}")?;
    let wanted = format!(in alloc; "{other:?}")?;
    Ok(found.as_str() == wanted.as_str())
}

/// Whether the clock makes this choice in the one state, and comes to the other.
fn chooses(
    rt: &impl Abort,
    alloc: Global,
    before: State,
    choice: u32,
    after: State,
) -> Result<bool, NoMemory> {
    let mut core = core_in(rt, alloc, before)?;
    let is_chosen = choose(rt, &mut core) == choice;
    let wanted = core_in(rt, alloc, after)?;
    let are_alike = look_alike(alloc, &core, &wanted);
    drop(core);
    drop(wanted);
    Ok(is_chosen && are_alike?)
}

#[test]
fn chooses_by_the_marks_of_two_frames_and_the_hand(rt: HostRuntime) -> Result<(), NoMemory> {
    for (before, choice, after) in &CASES {
        assert!(rt;
            chooses(&rt, rt.alloc(), *before, *choice, *after)?,
            "at {before:?}"
        );
    }
    Ok(())
}
