//! Prints what the program `lab` gives on many inputs, in cases that each have a name. `stdin` has the cases, and
//! `stdout` what each must give.
//!
//! What stands before the first case is for the reader. A case is a line `== NAME`, a line with the program's words,
//! each in brackets, and the input, which ends before the line feed of the next case: a blank line there leaves the
//! input its last line feed. Where lines `-- NAME` stand in the input, each of them begins a case of the lines before
//! the first and those below it. After the words may stand, with `;` between: `reads N M`, which reads in pieces of N
//! bytes and has the Mth read fail; and `room N M`, which has room for N bytes that are written, and has the Mth write
//! fail.
//!
//! The program runs twice on an input, in one piece and in pieces of a byte, and must give the same.
#![tactic(auto)]

mod answering;
mod asking;

use crate::answering::answers;
use crate::asking::Asked;
use no_memory::NoMemory;
use std::alloc::{AllocError, Global};
use std::io;

/// The text up to the first line feed, and what comes after it.
fn first_line(text: &str) -> (&str, &str) {
    text.split_once('\n').unwrap_or((text, ""))
}

/// What each input of a group gives, whose front they share.
fn group_text(alloc: Global, asked: &Asked, front: &str, parts: &str) -> Result<String, NoMemory> {
    let mut text = String::new(alloc);
    for part in parts.split("\n-- ") {
        let (name, lines) = first_line(part);
        let input = format!(in alloc; "{front}\n{lines}")?;
        let given = answers(alloc, asked, input.as_bytes())?;
        write!(text, "-- {name}\n{given}")?;
    }
    Ok(text)
}

/// What a case gives, whose first line asks.
fn given(alloc: Global, case: &str) -> Result<String, NoMemory> {
    let (line, input) = first_line(case);
    let asked = Asked::by(line);
    match input.split_once("\n-- ") {
        Some((front, parts)) => group_text(alloc, &asked, front, parts),
        None => answers(alloc, &asked, input.as_bytes()),
    }
}

/// The name of a case, and what it gives.
fn case_text(alloc: Global, case: &str) -> Result<String, NoMemory> {
    let (name, rest) = first_line(case);
    let given = given(alloc, rest)?;
    Ok(format!(in alloc; "== {name}\n{given}")?)
}

fn main(rt: HostRuntime) -> io::Result<()> {
    let text = io::read_to_string(rt.alloc(), rt.stdin())?;
    for case in text.split("\n== ").skip(1) {
        let printed = case_text(rt.alloc(), case).map_err(|_| AllocError)?;
        print!(rt; "{printed}")?;
    }
    Ok(())
}
