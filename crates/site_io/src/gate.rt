use std::sync::Wait;
use std::thread::Threads;

/// Where a processor stands when a gate is called: what its last step did, as far as a test asks. (Source: own.)
#[derive(Clone, Copy, PartialEq, Eq)]
pub enum Point {
    /// It came online.
    Online,
    /// It loaded this process.
    Loaded(u32),
    /// A reference of this process was answered through a frame.
    Answered(u32),
    /// It signalled the other processors to clear what they hold.
    Signalled,
    /// Anything else, a wait among it.
    Other,
}

/// A place that each processor passes between two steps, with no lock held.
///
/// A test holds processors there to bring about a certain order. It promises nothing, not even to
/// return.
pub trait Gate {
    /// Called by processor `cpu` at this point.
    fn hold<R: Threads + Wait + Sync>(&self, rt: &R, cpu: u32, point: Point);
}

/// A gate that lets each processor pass at once.
#[derive(Clone, Copy, PartialEq, Eq)]
pub struct NoGate;

impl Gate for NoGate {
    fn hold<R: Threads + Wait + Sync>(&self, _rt: &R, _cpu: u32, _point: Point) {}
}
