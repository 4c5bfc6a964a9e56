//! What a step was answered, as it is printed.

use machine::{Turn, Why};
use site_io::Point;
use std::alloc::{AllocError, Global};

/// Where a step that moved leads.
fn point_text(alloc: Global, point: Point) -> Result<String, AllocError> {
    match point {
        Point::Online => String::from_str(alloc, "moved online"),
        Point::Loaded(process) => format!(in alloc; "moved loaded {process}"),
        Point::Answered(process) => format!(in alloc; "moved answered {process}"),
        Point::Signalled => String::from_str(alloc, "moved signalled"),
        Point::Other => String::from_str(alloc, "moved"),
    }
}

/// What a step that didn't move waits for.
fn why_text(alloc: Global, why: Why) -> Result<String, AllocError> {
    match why {
        Why::ForOwner(processor) => format!(in alloc; "waits owner {processor}"),
        Why::ForClear(processor) => format!(in alloc; "waits clear {processor}"),
        Why::ForTransfer(frame) => format!(in alloc; "waits transfer {frame}"),
        Why::WhileIdle(running) => format!(in alloc; "waits idle {running}"),
    }
}

/// What a step was answered.
pub(crate) fn turn_text(alloc: Global, turn: Turn) -> Result<String, AllocError> {
    match turn {
        Turn::Moved(point) => point_text(alloc, point),
        Turn::Waits(why) => why_text(alloc, why),
        Turn::Ended => String::from_str(alloc, "ended"),
        Turn::Stopped => String::from_str(alloc, "stopped"),
    }
}
