//! How the processors of a run passed the gate, and what their book tells of it.

use book::{Book, Entry};
use no_memory::NoMemory;
use site_io::Point;
use std::alloc::Global;

/// The most processors of a machine.
pub(crate) const PROCESSORS: usize = 8;

/// That a processor passed the gate at a point, right after its step.
#[derive(Clone, Copy)]
pub(crate) struct Pass {
    pub(crate) cpu: u32,
    pub(crate) point: Point,
}

/// How often the gate was passed, and the passes at a point other than `Other`, in order.
#[derive(Drop)]
pub(crate) struct Passes {
    times: u64,
    named: Vec<Pass>,
}

/// The pass that belongs to the step of an entry, where it is one at a point other than `Other`.
fn pass_of(entry: &Entry) -> Option<Pass> {
    let (cpu, point) = match *entry {
        Entry::Online { cpu } => (cpu, Point::Online),
        Entry::Load { cpu, process } => (cpu, Point::Loaded(process)),
        Entry::Do {
            process,
            cpu,
            frame: Some(_),
            ..
        } => (cpu, Point::Answered(process)),
        Entry::Signal { cpu, .. } => (cpu, Point::Signalled),
        _ => return None,
    };
    Some(Pass { cpu, point })
}

/// Whether no other entry of this kind is appended by the same step.
fn takes_a_step(entry: &Entry) -> bool {
    match entry {
        Entry::Online { .. }
        | Entry::Load { .. }
        | Entry::Leave { .. }
        | Entry::Do { .. }
        | Entry::Activate { .. }
        | Entry::Connect { .. }
        | Entry::Start { .. }
        | Entry::Lose { .. }
        | Entry::Here { .. }
        | Entry::Signal { .. }
        | Entry::Clear { .. }
        | Entry::FillSeg { .. }
        | Entry::FillPage { .. } => true,
        Entry::Release { .. }
        | Entry::Fault { .. }
        | Entry::Moved { .. }
        | Entry::Deactivate { .. }
        | Entry::Take { .. }
        | Entry::Cut { .. }
        | Entry::GonePage { .. }
        | Entry::BackPage { .. }
        | Entry::GoneSeg { .. }
        | Entry::BackSeg { .. } => false,
    }
}

/// The passes at a point other than `Other` that belong to the steps of a book, in its order.
pub(crate) fn told_in(alloc: Global, book: &Book) -> Result<Vec<Pass>, NoMemory> {
    let mut told = Vec::new(alloc);
    for pass in book.entries().iter().filter_map(pass_of) {
        told.push(pass)?;
    }
    Ok(told)
}

/// How many steps the entries of a book need at the least.
fn steps_in(book: &Book) -> u64 {
    let mut count: u64 = 0;
    for entry in book.entries() {
        if takes_a_step(entry) {
            count = count.saturating_add(1);
        }
    }
    count
}

/// The points of one processor, in order.
fn points_of(alloc: Global, passes: &[Pass], cpu: u32) -> Result<Vec<Point>, NoMemory> {
    let mut points = Vec::new(alloc);
    for pass in passes {
        if pass.cpu == cpu {
            points.push(pass.point)?;
        }
    }
    Ok(points)
}

impl Passes {
    /// No pass yet.
    pub(crate) fn new(alloc: Global) -> Passes {
        Passes {
            times: 0,
            named: Vec::new(alloc),
        }
    }

    /// Notes a pass. One for which there is no memory is missing later.
    pub(crate) fn note(&mut self, pass: Pass) {
        if pass.point == Point::Other || self.named.push(pass).is_ok() {
            self.times = self.times.saturating_add(1);
        }
    }

    /// Whether each processor passed at the points that belong to its steps, in their order.
    fn are_told(&self, alloc: Global, told: &[Pass]) -> Result<bool, NoMemory> {
        for cpu in 0..PROCESSORS as u32 {
            let passed = points_of(alloc, self.named.as_slice(), cpu)?;
            if passed != points_of(alloc, told, cpu)? {
                return Ok(false);
            }
        }
        Ok(self.named.len() == told.len())
    }

    /// What is wrong with the passes of a run that left this book: nothing where each processor passed once after each
    /// of its steps that come to a point other than `Other`, at that point and in their order, and all passes are as
    /// many as the steps that the book needs at the least.
    pub(crate) fn text(&self, alloc: Global, book: &Book) -> Result<String, NoMemory> {
        let told = told_in(alloc, book)?;
        let mut text = String::new(alloc);
        if !self.are_told(alloc, told.as_slice())? {
            text.push_str("the gate was passed at other points than the book tells\n")?;
        }
        if self.times < steps_in(book) {
            text.push_str("the gate was passed less often than there were steps\n")?;
        }
        Ok(text)
    }
}
