//! Prints what the program gives on many inputs, what the machine does step by step, and what calls of the lower crates
//! give, in cases that each have a name. `stdin` has the cases, and `stdout` what each must give.
//!
//! What stands before the first case is for the reader. A case is a line `== NAME` and the lines below it, up to the
//! line feed before the next such line. Where the first of them begins with `names`, `scripts` or `store`, the case is
//! what the module of that name says; else, with a line `steps` in it, it drives a machine, as `steps` says; else it
//! runs the program, as `runs` says.
#![tactic(auto)]

mod judging;
mod names;
mod runs;
mod scripts;
mod steps;
mod store;
mod texts;

use no_memory::NoMemory;
use std::alloc::AllocError;
use std::io;
use std::sync::Wait;
use std::thread::Threads;

/// The text up to the first line feed, and what comes after it.
pub(crate) fn first_line(text: &str) -> (&str, &str) {
    text.split_once('\n').unwrap_or((text, ""))
}

/// The text up to the first space, and what comes after it.
pub(crate) fn first_word(text: &str) -> (&str, &str) {
    text.split_once(' ').unwrap_or((text, ""))
}

/// What a case gives that drives a machine or runs the program.
fn run_text<R: Threads + Wait + Sync + AllocGlobal>(
    rt: &R,
    case: &str,
) -> Result<String, NoMemory> {
    match case.split_once("\nsteps\n") {
        Some((script, lines)) => steps::given(rt, script, lines),
        None => runs::given(rt, case),
    }
}

/// What a case gives.
fn given<R: Threads + Wait + Sync + AllocGlobal>(rt: &R, case: &str) -> Result<String, NoMemory> {
    let (line, lines) = first_line(case);
    let (word, settings) = first_word(line);
    match word {
        "names" => names::given(rt.alloc(), settings, lines),
        "scripts" => scripts::given(rt.alloc(), settings, lines),
        "store" => store::given(rt.alloc(), lines),
        _ => run_text(rt, case),
    }
}

/// The name of a case, and what it gives.
fn case_text<R: Threads + Wait + Sync + AllocGlobal>(
    rt: &R,
    case: &str,
) -> Result<String, NoMemory> {
    let (name, rest) = first_line(case);
    let given = given(rt, rest)?;
    Ok(format!(in rt.alloc(); "== {name}\n{given}")?)
}

fn main(rt: HostRuntime) -> io::Result<()> {
    let text = io::read_to_string(rt.alloc(), rt.stdin())?;
    for case in text.split("\n== ").skip(1) {
        let printed = case_text(&rt, case).map_err(|_| AllocError)?;
        print!(rt; "{printed}")?;
    }
    Ok(())
}
