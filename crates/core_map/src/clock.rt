ghost use Rattle.std.specs.Prelude.{◌≡◌, ℕ, ◌+◌, ◌<◌, ◌≤◌, ◌==◌, if◌then◌else◌, Bool, true, false, List};
ghost use Rattle.std.specs.Prelude.{length, vec_len, IfSome, IfNone};
ghost use Rattle.std.specs.List.{list_any};
ghost use Rattle.core_map.specs.declared.Frame.{Frame};
ghost use Rattle.core_map.specs.CoreMap.{is_bound};
ghost use Rattle.core_map.specs.Clock.{unmarked};
ghost use Rattle.core_map.specs.Turns.{IsFirst, HasNone, HasPassed, IsFirstBound, IsTurned};

use crate::Frame;

/// The frame that the clock chooses. The marks of the frames that it passed over are off then.
///
/// It goes round the frames once, and on to the first bound one where every bound frame had its mark on.
pub fn turn(frames: &mut Vec<Frame>, hand: usize) -> usize
    requires within { hand ≤ vec_len frames.old }
    requires bound { list_any is_bound frames.old.items ≡ true }
    ensures { IsTurned frames.old.items frames.new.items hand result }
{
    let end = frames.len();
    if let Some(f) = pass(frames, hand, end) {
        return f;
    }
    if let Some(f) = pass(frames, 0, hand) {
        return f;
    }
    first_from(frames, hand)
}

/// The number of the frame after `f`, round `count` frames.
pub fn next(f: usize, count: usize) -> usize
    requires { f < count }
    ensures next { result ≡ (if f + 1 == count then 0 else f + 1) }
    ensures within { result < count }
{
    if f + 1 == count { 0 } else { f + 1 }
}

/// Goes over the frames from `from` on and below `to`, and turns their used marks off, up to the first bound one whose
/// mark is off already. None exactly where there is no such one.
fn pass(frames: &mut Vec<Frame>, from: usize, to: usize) -> Option<usize>
    requires order { from ≤ to }
    requires within { to ≤ vec_len frames.old }
    ensures { HasPassed frames.old.items frames.new.items from to result }
{
    for i in from..to {
        if let Frame::Bound { used: false, .. } = frames[i] {
            return Some(i);
        }
        frames[i] = without_mark(frames[i]);
    }
    None
}

/// The first bound frame from the hand, round the frames.
fn first_from(frames: &[Frame], hand: usize) -> usize
    requires within { hand ≤ length frames.now }
    requires bound { list_any is_bound frames.now ≡ true }
    ensures { IsFirstBound frames.now hand result }
{
    let end = frames.len();
    if let Some(f) = first_bound(frames, hand, end) {
        return f;
    }
    match first_bound(frames, 0, hand) {
        Some(f) => f,
        None => unreachable!(),
    }
}

/// The first bound frame from `from` on and below `to`.
fn first_bound(frames: &[Frame], from: usize, to: usize) -> Option<usize>
    requires order { from ≤ to }
    requires within { to ≤ length frames.now }
    ensures some { IfSome result (λ f. IsFirst is_bound frames.now from to f) }
    ensures none { IfNone result (HasNone is_bound frames.now from to) }
{
    for i in from..to {
        if let Frame::Bound { .. } = frames[i] {
            return Some(i);
        }
    }
    None
}

/// The frame with its used mark off.
fn without_mark(mut frame: Frame) -> Frame
    ensures { result ≡ unmarked frame }
{
    if let Frame::Bound { used, .. } = &mut frame {
        *used = false;
    }
    frame
}
