//! A machine of several processors, driven by steps: what each step is answered, and which entries it appends to the
//! book.
//!
//! Such a case is a script, a line `steps`, and a line for each thing that is done, which `instructions` names. Each of
//! these lines is printed after `>`, and below it the entries that were appended: those of books that were worked out
//! by hand from the rules. After `judge` the book is judged by the flat store and by custody, entry by entry.

mod booting;
mod case;
mod ends;
mod instructions;
mod orders;
mod turns;

use booting::Stuck;
use case::Case;
use instructions::Instruction;
use no_memory::NoMemory;
use std::sync::Wait;
use std::thread::Threads;

/// What a line of a case gives.
fn line_text<'a, R: Threads + Wait + Sync + AllocGlobal>(
    rt: &R,
    case: &mut Case<'a>,
    line: &'a str,
) -> Result<String, Stuck> {
    let printed = case.follow(rt, Instruction::by(line)?)?;
    Ok(format!(in rt.alloc(); "> {line}\n{printed}")?)
}

/// What the lines of a case give.
fn lines_text<'a, R: Threads + Wait + Sync + AllocGlobal>(
    rt: &R,
    case: &mut Case<'a>,
    lines: &'a str,
) -> Result<String, Stuck> {
    let mut text = String::new(rt.alloc());
    for line in lines.lines().filter(|line| !line.is_empty()) {
        let given = line_text(rt, case, line)?;
        text.push_str(&given)?;
    }
    Ok(text)
}

/// Runs the case of a script, and gives what each of its lines does.
fn case_text<R: Threads + Wait + Sync + AllocGlobal>(
    rt: &R,
    script: &str,
    lines: &str,
) -> Result<String, Stuck> {
    let mut case = Case::begin(rt.alloc(), script)?;
    let text = lines_text(rt, &mut case, lines);
    drop(case);
    text
}

/// What the lines of a case give on the machine of a script.
pub(crate) fn given<R: Threads + Wait + Sync + AllocGlobal>(
    rt: &R,
    script: &str,
    lines: &str,
) -> Result<String, NoMemory> {
    match case_text(rt, script, lines) {
        Ok(printed) => Ok(printed),
        Err(Stuck) => Ok(String::from_str(rt.alloc(), "the case can't go on\n")?),
    }
}
