//! What a step of a processor is answered.

use machine_tables::Why;
use site_io::Point;

/// What a step of a processor is answered (own).
#[derive(Clone, Copy, PartialEq, Eq)]
pub enum Turn {
    /// It did its one action, and stands here.
    Moved(Point),
    /// Nothing changed: something must come first.
    Waits(Why),
    /// Nothing changed: no process is ready or running.
    Ended,
    /// Nothing changed: the machine was stopped.
    Stopped,
}
