//! What a line of a schedule asks for, by its fields.

ghost use Rattle.std.specs.Prelude.{◌≡◌, ◌<◌, ◌≤◌, IfOk, IfSome};
ghost use Rattle.text_model.specs.Lines.{fields_of};
ghost use Rattle.schedule.specs.Fields.{Gives};
ghost use Rattle.schedule.specs.Orders.{draw_of, IsWithin, line_order, order_of, processor_in, Reads, round_of, seed_in};
ghost use Rattle.schedule.specs.Orders.{step_of, times_in, times_last, until_of};

use crate::fields::{is_empty, next_field, no_fields};
use crate::orders::{Opening, Order};
use crate::refusals::Cause;
use no_memory::NoMemory;
use script::{read_number, split_field};
use std::alloc::Global;

/// The most steps that a line asks for.
const STEPS: u32 = 1_000_000;

/// Why a line gave no order.
#[derive(Clone, Copy, PartialEq, Eq)]
pub(crate) enum OrderFault {
    /// It is refused.
    Refused(Cause),
    /// There wasn't enough memory.
    Memory,
}

impl From<Cause> for OrderFault {
    ghost use Rattle.schedule.specs.declared.reading.OrderFault.TheVariants.{Refused};

    ghost from_gives = { λ cause e. e ≡ Refused cause };

    fn from(cause: Cause) -> Self {
        OrderFault::Refused(cause)
    }
}

impl From<NoMemory> for OrderFault {
    ghost use Rattle.schedule.specs.declared.reading.OrderFault.TheVariants.{Memory};

    ghost from_gives = { λ _ e. e ≡ Memory };

    fn from(_: NoMemory) -> Self {
        OrderFault::Memory
    }
}

/// The processor that a field names, of so many.
#[tactic(auto, unfolding(crate::specs::Orders::processor_in))]
fn processor_in(processors: u32, field: &[u8]) -> Result<u32, Cause>
    ensures given { Gives (λ c. c) result (processor_in processors field.now) }
    ensures there { IfOk result (λ c. c < processors) }
{
    match read_number(field) {
        None => Err(Cause::Number),
        Some(processor) if processor < processors => Ok(processor),
        Some(_) => Err(Cause::Processor),
    }
}

/// The number of times that a field is: from 1 to 1,000,000, without zeros before it.
#[tactic(auto, unfolding(crate::specs::Orders::times_in))]
fn times_in(field: &[u8]) -> Result<u32, Cause>
    ensures given { Gives (λ n. n) result (times_in field.now) }
    ensures most { IfOk result (λ n. n ≤ 1000000) }
{
    if field.first() == Some(&b'0') {
        return Err(Cause::Number);
    }
    match read_number(field) {
        Some(times) if times <= STEPS => Ok(times),
        _ => Err(Cause::Number),
    }
}

/// The number of times that is the last field of a line, or 1 where it has none.
#[tactic(auto, unfolding(crate::specs::Orders::times_last))]
fn times_last(line: &[u8]) -> Result<u32, Cause>
    ensures given { Gives (λ n. n) result (times_last (fields_of line.now)) }
    ensures most { IfOk result (λ n. n ≤ 1000000) }
{
    let (field, rest) = split_field(line);
    if field.is_empty() {
        return Ok(1);
    }
    no_fields(rest)?;
    times_in(field)
}

/// A 32-bit number.
fn seed_in(field: &[u8]) -> Result<u32, Cause>
    ensures { Gives (λ n. n) result (seed_in field.now) }
{
    read_number(field).ok_or(Cause::Number)
}

/// `step C [N]`
#[tactic(auto, unfolding(crate::specs::Orders::step_of))]
fn step_of(processors: u32, line: &[u8]) -> Result<Order, Cause>
    ensures given { Gives (λ o. o) result (step_of processors (fields_of line.now)) }
    ensures within { IfOk result (IsWithin processors) }
{
    let (field, rest) = next_field(line)?;
    let processor = processor_in(processors, field)?;
    let times = times_last(rest)?;
    Ok(Order::Step { processor, times })
}

/// `round [N]`
#[tactic(auto, unfolding(crate::specs::Orders::round_of))]
fn round_of(processors: u32, line: &[u8]) -> Result<Order, Cause>
    ensures given { Gives (λ o. o) result (round_of processors (fields_of line.now)) }
    ensures within { IfOk result (IsWithin processors) }
{
    let times = times_last(line)?;
    if u64::from(times) * u64::from(processors) <= u64::from(STEPS) {
        Ok(Order::Round { times })
    } else {
        Err(Cause::Many)
    }
}

/// `draw SEED N`
#[tactic(auto, unfolding(crate::specs::Orders::draw_of))]
fn draw_of(processors: u32, line: &[u8]) -> Result<Order, Cause>
    ensures given { Gives (λ o. o) result (draw_of (fields_of line.now)) }
    ensures within { IfOk result (IsWithin processors) }
{
    let (field, rest) = next_field(line)?;
    let seed = seed_in(field)?;
    let (field, rest) = next_field(rest)?;
    let times = times_in(field)?;
    no_fields(rest)?;
    Ok(Order::Draw { seed, times })
}

/// The fields of a line.
fn opening_of(alloc: Global, line: &[u8]) -> Result<Opening, NoMemory>
    ensures { IfOk result (λ opening. opening ≡ fields_of line.now) }
{
    let mut opening = Opening::new(alloc);
    let mut rest = line;
    while !is_empty(rest) {
        let (field, after) = split_field(rest);
        opening.push(alloc, field)?;
        rest = after;
    }
    Ok(opening)
}

/// `until C TEXT`
#[tactic(auto, unfolding(crate::specs::Orders::until_of))]
fn until_of(alloc: Global, processors: u32, line: &[u8]) -> Result<Order, OrderFault>
    ensures given { Reads result (until_of processors (fields_of line.now)) }
    ensures within { IfOk result (IsWithin processors) }
{
    let (field, rest) = next_field(line)?;
    let processor = processor_in(processors, field)?;
    if is_empty(rest) {
        return Err(OrderFault::Refused(Cause::Fields));
    }
    let text = opening_of(alloc, rest)?;
    Ok(Order::Until { processor, text })
}

/// What the line asks for that has this word, and these fields after it.
#[tactic(auto, unfolding(crate::specs::Orders::order_of))]
fn order_of(alloc: Global, processors: u32, word: &[u8], line: &[u8]) -> Result<Order, OrderFault>
    ensures given { Reads result (order_of processors word.now (fields_of line.now)) }
    ensures within { IfOk result (IsWithin processors) }
{
    if word == b"step".as_slice() {
        Ok(step_of(processors, line)?)
    } else if word == b"until".as_slice() {
        until_of(alloc, processors, line)
    } else if word == b"round".as_slice() {
        Ok(round_of(processors, line)?)
    } else if word == b"draw".as_slice() {
        Ok(draw_of(processors, line)?)
    } else {
        Err(OrderFault::Refused(Cause::Order))
    }
}

/// What a line asks for. One without fields, and one whose first field begins with `#`, asks for nothing.
#[tactic(auto, unfolding(crate::specs::Orders::line_order))]
pub(crate) fn line_order(
    alloc: Global,
    processors: u32,
    line: &[u8],
) -> Result<Option<Order>, OrderFault>
    ensures given { Reads result (line_order processors (fields_of line.now)) }
    ensures within { IfOk result (λ o. IfSome o (IsWithin processors)) }
{
    let (word, rest) = split_field(line);
    match word.first() {
        None | Some(b'#') => Ok(None),
        Some(_) => Ok(Some(order_of(alloc, processors, word, rest)?)),
    }
}
