//! A machine follows a schedule.

ghost use Rattle.std.specs.Prelude.{◌≡◌, ◌<◌, ◌≤◌, ◌+◌, ◌++◌, true, All, IfErr, IfOk, OnOk, drop, length, replicate};
ghost use Rattle.std.specs.List.{list_any};
ghost use Rattle.schedule.specs.Orders.{AreWithin, IsWithin};
ghost use Rattle.schedule.specs.declared.refusals.Cause.TheVariants as cause;
ghost use Rattle.lab_runs.specs.Orders.{AreFollowed, FollowsOrder, IsAstray, IsUnreached, Strays, StraysIn, Tries};
ghost use Rattle.lab_runs.specs.Orders.{CameTo, TriesOne, drawn_cpus, entry_begins, numbers, rounds};
ghost use Rattle.lab_runs.specs.Steps.{MakesAll};
ghost use Rattle.lab_runs.specs.declared.following.Astray.TheVariants as astray;

use crate::NoMemory;
use crate::steps::{Step, make_step, make_steps, processors_of};
use book::{Book, Entry, entry_text};
use bulk_store::AnyDrive;
use draws::Draws;
use machine::{Machine, Turn};
use schedule::{Cause, Line, Opening, Order, Refused};
use std::alloc::Global;

/// The most steps of a line `until`.
const UNTIL: u32 = 1_000_000;

/// The most steps of a schedule.
const ALL: usize = 10_000_000;

/// Why a machine doesn't follow a schedule.
#[derive(Clone, Copy)]
pub enum Astray {
    /// A line is refused.
    Refused(Refused),
    /// There wasn't enough memory.
    Memory,
}

/// What comes of a step after which an entry is looked for: of a line `until` one that begins so, and of a drawn
/// schedule one that answers a command.
#[derive(Clone, Copy)]
pub(crate) enum Trial {
    /// It appended such an entry.
    Seen,
    /// It appended none, and all processes have ended.
    Ended,
    /// It appended none.
    Missed,
}

impl From<NoMemory> for Astray {
    ghost use Rattle.lab_runs.specs.declared.following.Astray.TheVariants.{Memory};

    ghost from_gives = { λ _ e. e ≡ Memory };

    fn from(_: NoMemory) -> Self {
        Astray::Memory
    }
}

/// The line of this number is refused.
fn refused_at(line: u32, cause: Cause) -> Astray
    ensures { result ≡ astray.Refused (record { line = line; cause = cause }) }
{
    Astray::Refused(Refused { line, cause })
}

/// Each processor's number, in order, so many times.
fn rounds(alloc: Global, processors: u32, times: u32) -> Result<Vec<u32>, NoMemory>
    ensures items { IfOk result (λ cpus. cpus.items ≡ rounds processors times) }
    ensures below { IfOk result (λ cpus. All (λ c. c < processors) cpus.items) }
{
    let mut cpus = Vec::new(alloc);
    for _round in 0..times {
        push_numbers(&mut cpus, processors)?;
    }
    Ok(cpus)
}

/// Adds each processor's number, in order.
fn push_numbers(cpus: &mut Vec<u32>, processors: u32) -> Result<(), NoMemory>
    ensures { OnOk result (cpus.new.items ≡ cpus.old.items ++ numbers processors) }
{
    for c in 0..processors {
        cpus.push(c)?;
    }
    Ok(())
}

/// The numbers of so many processors, drawn from a seed.
fn drawn(alloc: Global, processors: u32, seed: u32, times: u32) -> Result<Vec<u32>, NoMemory>
    requires { 0 < processors }
    ensures items { IfOk result (λ cpus. cpus.items ≡ drawn_cpus processors seed times) }
    ensures below { IfOk result (λ cpus. All (λ c. c < processors) cpus.items) }
{
    let mut draws = Draws::of(seed);
    let mut cpus = Vec::new(alloc);
    for _draw in 0..times {
        cpus.push(draws.draw(processors))?;
    }
    Ok(cpus)
}

/// Whether the text of an entry begins so, field by field.
fn begins(alloc: Global, entry: Entry, text: &Opening) -> Result<bool, NoMemory>
    ensures { IfOk result (λ so. so ≡ entry_begins text.now entry) }
{
    let line = entry_text(alloc, entry)?;
    Ok(text.begin(line.as_bytes()))
}

/// Whether one of some entries begins so.
fn has_begun(alloc: Global, entries: &[Entry], text: &Opening) -> Result<bool, NoMemory>
    ensures { IfOk result (λ so. so ≡ list_any (entry_begins text.now) entries.now) }
{
    for entry in entries {
        if begins(alloc, *entry, text)? {
            return Ok(true);
        }
    }
    Ok(false)
}

/// Whether one of the entries of a book from a place on begins so.
fn has_begun_since(
    alloc: Global,
    book: &Book,
    place: usize,
    text: &Opening,
) -> Result<bool, NoMemory>
    requires { place ≤ length book.now.entries }
    ensures { IfOk result (λ so. so ≡ list_any (entry_begins text.now) (drop place book.now.entries)) }
{
    let (_, entries) = book.entries().split_at(place);
    has_begun(alloc, entries, text)
}

/// What came of a step, by whether an entry that it appended begins so, and what it was answered.
pub(crate) fn came_of(seen: bool, answer: Turn) -> Trial
    ensures { CameTo result seen answer }
{
    if seen {
        return Trial::Seen;
    }
    match answer {
        Turn::Ended => Trial::Ended,
        Turn::Moved(_) | Turn::Waits(_) | Turn::Stopped => Trial::Missed,
    }
}

/// Processor `c` makes its next step, which is added to those that were made.
fn try_step(
    alloc: Global,
    machine: &mut Machine<AnyDrive>,
    steps: &mut Vec<Step>,
    c: u32,
    text: &Opening,
) -> Result<Trial, NoMemory>
    requires { c < machine.old.state.plan.processors }
    ensures tried { IfOk result
        (TriesOne c text.now machine.old machine.new steps.old.items steps.new.items) }
    ensures script { machine.new.state.plan ≡ machine.old.state.plan }
{
    let before = machine.book().len();
    let step = make_step(machine, c)?;
    steps.push(step)?;
    let seen = has_begun_since(alloc, machine.book(), before, text)?;
    Ok(came_of(seen, step.answer))
}

/// Processor `c` makes its steps until one of them appends an entry that begins so. False where all processes have
/// ended before, or so many steps were made.
fn make_until(
    alloc: Global,
    machine: &mut Machine<AnyDrive>,
    steps: &mut Vec<Step>,
    c: u32,
    text: &Opening,
) -> Result<bool, NoMemory>
    requires { c < machine.old.state.plan.processors }
    ensures tried { IfOk result
        (λ seen. Tries seen c text.now machine.old machine.new steps.old.items steps.new.items) }
    ensures script { machine.new.state.plan ≡ machine.old.state.plan }
{
    for _tries in 0..UNTIL {
        let trial = try_step(alloc, machine, steps, c, text)?;
        match trial {
            Trial::Seen => return Ok(true),
            Trial::Ended => return Ok(false),
            Trial::Missed => {}
        }
    }
    Ok(false)
}

/// A processor's number, so many times.
fn repeated(alloc: Global, processor: u32, times: u32) -> Result<Vec<u32>, NoMemory>
    ensures { IfOk result (λ cpus. cpus.items ≡ replicate times processor) }
{
    let cpus = vec![in alloc; processor; times as usize]?;
    Ok(cpus)
}

/// A line of this number may be followed where the steps with its own are so many in all.
fn within(number: u32, all: usize) -> Result<(), Astray>
    ensures { IfErr result (Strays number (λ why. (why ≡ cause.Many) × (10000000 < all))) }
{
    if all <= ALL {
        Ok(())
    } else {
        Err(refused_at(number, Cause::Many))
    }
}

/// A machine makes the steps of a line of this number, whose processors are known.
fn follow_list(
    machine: &mut Machine<AnyDrive>,
    steps: &mut Vec<Step>,
    number: u32,
    cpus: &[u32],
) -> Result<(), Astray>
    requires { All (λ c. c < machine.old.state.plan.processors) cpus.now }
    ensures made { OnOk result (MakesAll machine.old machine.new steps.old.items steps.new.items cpus.now) }
    ensures astray { IfErr result (Strays number
        (λ why. (why ≡ cause.Many) × (10000000 < length steps.old.items + length cpus.now))) }
    ensures script { machine.new.state.plan ≡ machine.old.state.plan }
{
    if let Err(astray) = within(number, steps.len() + cpus.len()) {
        return Err(astray);
    }
    make_steps(machine, steps, cpus)?;
    Ok(())
}

/// A machine makes the steps of a line `until` of this number.
fn follow_until(
    alloc: Global,
    machine: &mut Machine<AnyDrive>,
    steps: &mut Vec<Step>,
    number: u32,
    c: u32,
    text: &Opening,
) -> Result<(), Astray>
    requires { c < machine.old.state.plan.processors }
    ensures made { OnOk result (Tries true c text.now machine.old machine.new steps.old.items steps.new.items) }
    ensures astray { IfErr result
        (Strays number (IsUnreached c text.now machine.old (length steps.old.items))) }
    ensures script { machine.new.state.plan ≡ machine.old.state.plan }
{
    if make_until(alloc, machine, steps, c, text)? {
        within(number, steps.len())
    } else {
        Err(refused_at(number, Cause::Unreached))
    }
}

/// A machine follows a line of its schedule.
fn follow_line(
    alloc: Global,
    machine: &mut Machine<AnyDrive>,
    steps: &mut Vec<Step>,
    line: &Line,
) -> Result<(), Astray>
    requires { IsWithin machine.old.state.plan.processors line.now.order }
    ensures followed { OnOk result (FollowsOrder machine.old.state.plan.processors line.now.order machine.old
        machine.new steps.old.items steps.new.items) }
    ensures astray { IfErr result (Strays line.now.number
        (IsAstray machine.old.state.plan.processors line.now.order machine.old (length steps.old.items))) }
    ensures script { machine.new.state.plan ≡ machine.old.state.plan }
{
    let processors = processors_of(machine);
    let number = line.number;
    match &line.order {
        Order::Step { processor, times } => {
            let cpus = repeated(alloc, *processor, *times)?;
            follow_list(machine, steps, number, &cpus)
        }
        Order::Until { processor, text } => {
            follow_until(alloc, machine, steps, number, *processor, text)
        }
        Order::Round { times } => {
            let cpus = rounds(alloc, processors, *times)?;
            follow_list(machine, steps, number, &cpus)
        }
        Order::Draw { seed, times } => {
            let cpus = drawn(alloc, processors, *seed, *times)?;
            follow_list(machine, steps, number, &cpus)
        }
    }
}

/// A machine follows the lines of its schedule, one after the other, and gives the steps that it makes.
pub(crate) fn follow(
    alloc: Global,
    machine: &mut Machine<AnyDrive>,
    lines: &[Line],
) -> Result<Vec<Step>, Astray>
    requires { AreWithin machine.old.state.plan.processors lines.now }
    ensures followed { IfOk result (λ steps. AreFollowed machine.old.state.plan.processors lines.now machine.old
        machine.new steps.items) }
    ensures astray { IfErr result (StraysIn machine.old.state.plan.processors lines.now machine.old) }
{
    let mut steps = Vec::new(alloc);
    for line in lines {
        match follow_line(alloc, machine, &mut steps, line) {
            Ok(()) => {}
            Err(astray) => return Err(astray),
        }
    }
    Ok(steps)
}
