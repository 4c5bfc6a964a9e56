//! A machine as the lines of a case drive it.

use crate::judging::may_stand;
use crate::steps::booting::{Stuck, booted};
use crate::steps::ends::{calls, finish, run_times, shut_down};
use crate::steps::instructions::{Instruction, Until};
use crate::steps::orders::{lists, rounds, workers};
use crate::steps::turns::turn_text;
use book::{Entry, entry_text};
use bulk_store::AnyDrive;
use machine::{Machine, Turn, Why};
use std::alloc::Global;
use std::sync::Wait;
use std::thread::Threads;

/// The most steps for a line.
const LIMIT: u32 = 100_000;

/// The machine of a case.
#[derive(Drop)]
pub(crate) struct Case<'a> {
    /// The script.
    script: &'a str,
    /// The machine.
    machine: Machine<AnyDrive>,
    /// The words with which entries begin that are printed; all are printed where there are none.
    only: &'a str,
}

/// A step of a processor, if there is one of this number.
pub(crate) fn step(machine: &mut Machine<AnyDrive>, processor: u32) -> Result<Turn, Stuck> {
    machine.reserve()?;
    if processor < machine.book().script().processors() {
        Ok(machine.step(processor))
    } else {
        Err(Stuck)
    }
}

impl<'a> Case<'a> {
    /// The machine of a script before its first step.
    pub(crate) fn begin(alloc: Global, script: &'a str) -> Result<Case<'a>, Stuck> {
        let machine = booted(alloc, script)?;
        Ok(Case {
            script,
            machine,
            only: "",
        })
    }

    /// Does what a line asks, and gives what is printed below it.
    pub(crate) fn follow<R: Threads + Wait + Sync + AllocGlobal>(
        &mut self,
        rt: &R,
        asked: Instruction<'a>,
    ) -> Result<String, Stuck> {
        let alloc = rt.alloc();
        match asked {
            Instruction::Step {
                processor,
                other,
                until: Until::Seen(text),
            } => self.step_until(alloc, processor, other, text),
            Instruction::Step { processor, .. } => self.step_once(alloc, processor),
            Instruction::Only(words) => self.print_only(alloc, words),
            Instruction::Count(text) => self.count(alloc, text),
            Instruction::Replies => self.replies(alloc),
            Instruction::Rounds => self.rounds(alloc),
            Instruction::Finish => self.finish(alloc),
            Instruction::Shutdown => self.shut_down(alloc),
            Instruction::Calls => calls(alloc, &self.machine),
            Instruction::Schedule(times, processor) => self.schedule(alloc, times, processor),
            Instruction::Judge => self.judged(alloc),
            Instruction::Stop => self.stop(alloc),
            Instruction::Lists(count) => lists(alloc, self.script, count),
            Instruction::Workers(count) => workers(rt, self.script, count),
        }
    }

    /// Prints from now on only the entries that begin with one of these words.
    fn print_only(&mut self, alloc: Global, words: &'a str) -> Result<String, Stuck> {
        self.only = words;
        Ok(String::new(alloc))
    }

    /// Rounds of steps until each process has ended, and the entries that they append.
    fn rounds(&mut self, alloc: Global) -> Result<String, Stuck> {
        let before = self.machine.book().len();
        rounds(&mut self.machine)?;
        self.entries_from(alloc, before)
    }

    /// The end of the machine, and the entries that it appends.
    fn finish(&mut self, alloc: Global) -> Result<String, Stuck> {
        let before = self.machine.book().len();
        finish(&mut self.machine)?;
        self.entries_from(alloc, before)
    }

    /// The shutdown of the machine, and the entries that it appends.
    fn shut_down(&mut self, alloc: Global) -> Result<String, Stuck> {
        let before = self.machine.book().len();
        shut_down(&mut self.machine)?;
        self.entries_from(alloc, before)
    }

    /// Stops the machine, which appends nothing.
    fn stop(&mut self, alloc: Global) -> Result<String, Stuck> {
        self.machine.stop();
        Ok(String::new(alloc))
    }

    /// One step, the entries that it appends, and its answer.
    fn step_once(&mut self, alloc: Global, processor: u32) -> Result<String, Stuck> {
        let before = self.machine.book().len();
        let turn = step(&mut self.machine, processor)?;
        let mut printed = self.entries_from(alloc, before)?;
        let answer = turn_text(alloc, turn)?;
        write!(printed, "= {answer}\n")?;
        Ok(printed)
    }

    /// Steps until the last entry begins with a text or the last answer is it, and the entries that they append.
    fn step_until(
        &mut self,
        alloc: Global,
        processor: u32,
        other: Option<u32>,
        text: &str,
    ) -> Result<String, Stuck> {
        let before = self.machine.book().len();
        for _ in 0..LIMIT {
            let turn = step(&mut self.machine, processor)?;
            if self.is_seen(alloc, turn, text)? {
                return self.entries_from(alloc, before);
            }
            self.help(turn, other)?;
        }
        Ok(String::from_str(alloc, "never seen\n")?)
    }

    /// Whether the last entry of a step that moved begins with a text, or the answer is this text.
    fn is_seen(&self, alloc: Global, turn: Turn, text: &str) -> Result<bool, Stuck> {
        let answer = turn_text(alloc, turn)?;
        if answer.as_str() == text {
            return Ok(true);
        }
        match self.machine.book().entries().last() {
            Some(entry) => {
                let line = entry_text(alloc, *entry)?;
                Ok(line.starts_with(text))
            }
            None => Ok(false),
        }
    }

    /// A step of the processor that helps, where the first waits for what it is to drop.
    fn help(&mut self, turn: Turn, other: Option<u32>) -> Result<(), Stuck> {
        match (turn, other) {
            (Turn::Waits(Why::ForClear(cleared)), Some(other)) if cleared == other => {
                step(&mut self.machine, other)?;
                Ok(())
            }
            _ => Ok(()),
        }
    }

    /// The entries from a place of the book on which are to be printed.
    fn entries_from(&self, alloc: Global, place: usize) -> Result<String, Stuck> {
        let mut printed = String::new(alloc);
        if self.only == "nothing" {
            return Ok(printed);
        }
        for entry in self.machine.book().entries().iter().skip(place) {
            let line = entry_text(alloc, *entry)?;
            if self.is_printed(&line) {
                write!(printed, "{line}\n")?;
            }
        }
        Ok(printed)
    }

    /// Whether an entry is to be printed.
    fn is_printed(&self, line: &str) -> bool {
        let first = line.split(' ').next().unwrap_or("");
        self.only.is_empty() || self.only.split(' ').any(|word| word == first)
    }

    /// So many steps of a processor, the entries that they append, and whether any of them moved.
    fn schedule(&mut self, alloc: Global, times: u32, processor: u32) -> Result<String, Stuck> {
        let before = self.machine.book().len();
        let moved = run_times(alloc, &mut self.machine, times, processor)?;
        let mut printed = self.entries_from(alloc, before)?;
        let answer = if moved > 0 {
            "some moved"
        } else {
            "none moved"
        };
        write!(printed, "= {answer}\n")?;
        Ok(printed)
    }

    /// How many entries of the book are a text.
    fn count(&self, alloc: Global, text: &str) -> Result<String, Stuck> {
        let mut count: usize = 0;
        for entry in self.machine.book().entries() {
            let line = entry_text(alloc, *entry)?;
            if line.as_str() == text {
                count = count.saturating_add(1);
            }
        }
        Ok(format!(in alloc; "= {count}\n")?)
    }

    /// What each process was answered, a line for each.
    fn replies(&self, alloc: Global) -> Result<String, Stuck> {
        let mut printed = String::new(alloc);
        for process in 0..self.machine.book().script().processes() {
            write!(printed, "process {process}")?;
            for entry in self.machine.book().entries() {
                match entry {
                    Entry::Do {
                        process: its,
                        reply,
                        ..
                    } if *its == process => {
                        write!(printed, ", {reply}")?;
                    }
                    _ => (),
                }
            }
            printed.push('\n')?;
        }
        Ok(printed)
    }

    /// What the judges say of the book.
    fn judged(&self, alloc: Global) -> Result<String, Stuck> {
        let text = if may_stand(alloc, self.machine.book())? {
            String::from_str(alloc, "= each entry may stand\n")
        } else {
            String::from_str(alloc, "= an entry may not stand\n")
        };
        Ok(text?)
    }
}
