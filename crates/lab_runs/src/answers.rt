//! What a step was answered, in words.

ghost use Rattle.std.specs.Prelude.{◌≡◌, ◌++◌, OnOk, string_bytes};
ghost use Rattle.lab_runs.specs.Traces.{answer_text, point_text, why_text};

use machine::{Turn, Why};
use site_io::Point;
use std::alloc::AllocError;

/// Appends where a step that moved leads.
#[tactic(auto, unfolding(crate::specs::Traces::point_text))]
fn push_point(out: &mut String, point: Point) -> Result<(), AllocError>
    ensures { OnOk result (string_bytes out.new ≡ string_bytes out.old ++ point_text point) }
{
    match point {
        Point::Online => write!(out, "moved online"),
        Point::Loaded(process) => write!(out, "moved loaded {process}"),
        Point::Answered(process) => write!(out, "moved answered {process}"),
        Point::Signalled => write!(out, "moved signalled"),
        Point::Other => write!(out, "moved"),
    }
}

/// Appends what a step waits for.
#[tactic(auto, unfolding(crate::specs::Traces::why_text))]
fn push_why(out: &mut String, why: Why) -> Result<(), AllocError>
    ensures { OnOk result (string_bytes out.new ≡ string_bytes out.old ++ why_text why) }
{
    match why {
        Why::ForOwner(processor) => write!(out, "waits owner {processor}"),
        Why::ForClear(processor) => write!(out, "waits clear {processor}"),
        Why::ForTransfer(frame) => write!(out, "waits transfer {frame}"),
        Why::WhileIdle(busy) => write!(out, "waits idle {busy}"),
    }
}

/// Appends what a step was answered.
#[tactic(auto, unfolding(crate::specs::Traces::answer_text))]
pub(crate) fn push_answer(out: &mut String, answer: Turn) -> Result<(), AllocError>
    ensures { OnOk result (string_bytes out.new ≡ string_bytes out.old ++ answer_text answer) }
{
    match answer {
        Turn::Moved(point) => push_point(out, point),
        Turn::Waits(why) => push_why(out, why),
        Turn::Ended => write!(out, "ended"),
        Turn::Stopped => write!(out, "stopped"),
    }
}
