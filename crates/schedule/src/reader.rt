ghost use Rattle.std.specs.Prelude.{◌≡◌, ◌<◌, ◌+◌, ◌++◌, ◌^◌, IfOk, OnOk, length};
ghost use Rattle.text_model.specs.Lines.{lines_of};
ghost use Rattle.schedule.specs.Orders.{AreWithin, as_lines, of_line, orders_from, orders_in};
ghost use Rattle.schedule.specs.Scheduled.{ReadsLines, ReadsScheduled, of_script, scheduled_of, with_plan};

use crate::inputs::{Input, split_input};
use crate::orders::{Line, Order};
use crate::reading::{OrderFault, line_order};
use crate::refusals::{Cause, Refused};
use script::{Refusal, Script, ScriptFault, next_line, read_script};
use std::alloc::{AllocFailed, Global};

/// A script, and the schedule below it.
#[derive(Drop)]
pub struct Scheduled {
    /// The script.
    pub script: Script,
    /// The lines of the schedule that ask for something, in order.
    pub lines: Vec<Line>,
}

/// Why bytes gave no script with a schedule (own).
#[derive(Clone, Copy, PartialEq, Eq)]
pub enum ScheduleFault {
    /// A line of the script is refused.
    Script(Refusal),
    /// A line of the schedule is.
    Schedule(Refused),
    /// There wasn't enough memory.
    Memory,
}

impl<T: Drop> From<AllocFailed<T>> for ScheduleFault {
    ghost use Rattle.schedule.specs.declared.reader.ScheduleFault.TheVariants.{Memory};

    ghost from_gives = { λ _ e. e ≡ Memory };

    fn from(_: AllocFailed<T>) -> Self {
        ScheduleFault::Memory
    }
}

/// What the fault of a script comes to.
fn of_script(fault: ScriptFault) -> ScheduleFault
    ensures { result ≡ of_script fault }
{
    match fault {
        ScriptFault::Refused(refusal) => ScheduleFault::Script(refusal),
        ScriptFault::Memory => ScheduleFault::Memory,
    }
}

/// What the fault of a line of this number comes to.
fn of_line(number: u32, fault: OrderFault) -> ScheduleFault
    ensures { result ≡ of_line number fault }
{
    match fault {
        OrderFault::Refused(cause) => ScheduleFault::Schedule(Refused {
            line: number,
            cause,
        }),
        OrderFault::Memory => ScheduleFault::Memory,
    }
}

/// Adds what the line of this number asks for, if it does.
fn push_order(
    lines: &mut Vec<Line>,
    number: u32,
    order: Option<Order>,
) -> Result<(), AllocFailed<Line>>
    ensures { OnOk result (lines.new.items ≡ lines.old.items ++ as_lines number order) }
{
    match order {
        Some(order) => lines.push(Line { number, order }),
        None => Ok(()),
    }
}

/// The lines of a schedule that ask for something, where its first has this number.
#[tactic(auto, using(crate::proofs::OrderLaws::lines_read, std::proofs::lemmas::Grind::common_steps))]
fn read_lines(
    alloc: Global,
    processors: u32,
    first: u32,
    bytes: &[u8],
) -> Result<Vec<Line>, ScheduleFault>
    requires { first + length bytes.now < 2 ^ 32 }
    ensures given { ReadsLines (λ lines. lines.items) result (orders_from processors first (lines_of bytes.now)) }
    ensures within { IfOk result (λ lines. AreWithin processors lines.items) }
{
    let mut lines = Vec::new(alloc);
    let mut rest = bytes;
    let mut number = first;
    while !rest.is_empty() {
        let (line, after) = next_line(rest);
        match line_order(alloc, processors, line) {
            Ok(order) => push_order(&mut lines, number, order)?,
            Err(fault) => return Err(of_line(number, fault)),
        }
        rest = after;
        number += 1;
    }
    Ok(lines)
}

/// The lines of the schedule of an input that ask for something.
fn read_orders(
    alloc: Global,
    processors: u32,
    input: &Input<'_>,
) -> Result<Vec<Line>, ScheduleFault>
    requires { input.now.first + length input.now.schedule.now < 2 ^ 32 }
    ensures given { ReadsLines (λ lines. lines.items) result
        (orders_in processors input.now.found input.now.first (lines_of input.now.schedule.now)) }
    ensures within { IfOk result (λ lines. AreWithin processors lines.items) }
{
    if input.found {
        read_lines(alloc, processors, input.first, input.schedule)
    } else {
        Err(ScheduleFault::Schedule(Refused {
            line: input.first,
            cause: Cause::Order,
        }))
    }
}

/// The script of an input with the lines of its schedule.
#[tactic(auto, using(crate::proofs::ScheduledLaws::plan_read, std::proofs::lemmas::Grind::common_steps))]
fn read_with(alloc: Global, script: Script, input: &Input<'_>) -> Result<Scheduled, ScheduleFault>
    requires { input.now.first + length input.now.schedule.now < 2 ^ 32 }
    ensures given { ReadsScheduled result (with_plan script
        (orders_in script.processors input.now.found input.now.first (lines_of input.now.schedule.now))) }
    ensures within { IfOk result (λ s. AreWithin s.script.processors s.lines.items) }
{
    match read_orders(alloc, script.processors(), input) {
        Ok(lines) => Ok(Scheduled { script, lines }),
        Err(fault) => Err(fault),
    }
}

/// Reads a script, a line whose only field is `schedule`, and the lines of a schedule (own): `step C [N]`,
/// `until C TEXT`, `round [N]` and `draw SEED N`. A line of the schedule without fields, or whose first field begins
/// with `#`, asks for nothing. The bytes are read in place, those of the script twice.
///
/// # Errors
/// `Script` is the first line of the script that is refused, `Schedule` the first of the schedule, or the line past the
/// last where there is no line `schedule`. The causes of a line are looked at from left to right. `Memory` is want of
/// memory, and may stand in place of any answer.
pub fn read_scheduled(alloc: Global, bytes: &[u8]) -> Result<Scheduled, ScheduleFault>
    requires { length bytes.now < 2 ^ 31 }
    ensures given { ReadsScheduled result (scheduled_of (lines_of bytes.now)) }
    ensures within { IfOk result (λ s. AreWithin s.script.processors s.lines.items) }
{
    let input = split_input(bytes);
    match read_script(alloc, input.script) {
        Ok(script) => read_with(alloc, script, &input),
        Err(fault) => Err(of_script(fault)),
    }
}
