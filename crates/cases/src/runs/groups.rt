use crate::first_line;
use crate::runs::answers::answer_text;
use crate::runs::asking::Asked;
use crate::runs::changes::changed;
use make_work::make_script;
use no_memory::NoMemory;
use std::alloc::Global;
use std::sync::Wait;
use std::thread::Threads;

/// What an input gives, which must be the same in each run of the program on it.
fn answers<R: Threads + Wait + Sync + AllocGlobal>(
    rt: &R,
    asked: &Asked,
    input: &[u8],
) -> Result<String, NoMemory> {
    let first = answer_text(rt, asked, input, asked.piece(0))?;
    for run in 1..asked.runs() {
        let other = answer_text(rt, asked, input, asked.piece(run))?;
        if other != first {
            return Ok(format!(in rt.alloc(); "{first}after {run} runs: {other}")?);
        }
    }
    Ok(first)
}

/// The lines that all cases of a group begin with, and those of one.
fn joined(alloc: Global, front: &str, lines: &str) -> Result<String, NoMemory> {
    Ok(format!(in alloc; "{front}\n{lines}")?)
}

/// The name of each case of a group, and what it gives.
fn group_text<R: Threads + Wait + Sync + AllocGlobal>(
    rt: &R,
    asked: &Asked,
    front: &str,
    parts: &str,
) -> Result<String, NoMemory> {
    let mut text = String::new(rt.alloc());
    for part in parts.split("\n-- ") {
        let (name, lines) = first_line(part);
        let input = joined(rt.alloc(), front, lines)?;
        let given = answers(rt, asked, input.as_bytes())?;
        write!(text, "-- {name}\n{given}")?;
    }
    Ok(text)
}

/// Each change of an input, and what the input gives with it.
fn changes_text<R: Threads + Wait + Sync + AllocGlobal>(
    rt: &R,
    asked: &Asked,
    input: &str,
    changes: &str,
) -> Result<String, NoMemory> {
    let mut text = String::new(rt.alloc());
    for change in changes.lines() {
        let input = changed(rt.alloc(), input, change)?;
        let given = answers(rt, asked, input.as_bytes())?;
        write!(text, "-- {change}\n{given}")?;
    }
    Ok(text)
}

/// What the script of a day gives.
fn day_text<R: Threads + Wait + Sync + AllocGlobal>(
    rt: &R,
    asked: &Asked,
    number: u32,
) -> Result<String, NoMemory> {
    let script = make_script(rt.alloc(), number)?;
    answers(rt, asked, &script)
}

/// What a case gives, whose first line asks.
pub(crate) fn given<R: Threads + Wait + Sync + AllocGlobal>(
    rt: &R,
    case: &str,
) -> Result<String, NoMemory> {
    let (line, input) = first_line(case);
    let asked = Asked::by(line);
    if let Some(number) = asked.day {
        return day_text(rt, &asked, number);
    }
    if let Some((input, changes)) = input.split_once("\nchanges\n") {
        return changes_text(rt, &asked, input, changes);
    }
    match input.split_once("\n-- ") {
        Some((front, parts)) => group_text(rt, &asked, front, parts),
        None => answers(rt, &asked, input.as_bytes()),
    }
}
