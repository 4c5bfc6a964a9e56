ghost use Rattle.std.specs.Prelude.{◌≡◌, ◌<◌, ◌≤◌, ◌+◌, ◌^◌, ◌∷◌, ◌++◌, [], length, Some, None, IfSome, IfNone};
ghost use Rattle.std.specs.Prelude.{true, false, if◌then◌else◌};
ghost use Rattle.script.specs.Plans.{command_at};
ghost use Rattle.custody_model.specs.Custody.{range};
ghost use Rattle.custody_model.specs.Next.{released_by};
ghost use Rattle.flat_model.specs.Commands.{is_end, tries_on};
ghost use Rattle.machine_model.specs.Reads.{next_command, processor_at, run_at};
ghost use Rattle.machine_model.specs.Steps.{goes_on, is_its_end, progress_of_run, run_after, told_by};
ghost use Rattle.machine_tables.specs.Parts.{with_state};

use crate::tables::Tables;
use book::{Entry, Reply};
use machine_model::Run;
use script::{Command, Script};
use traffic::Ready;
use volumes::Drive;

/// What an answer to the command that a process comes to means for it and for others.
#[derive(Clone, Copy)]
struct Answered {
    /// It was a try that doesn't end its `await`.
    goes_on: bool,
    /// It was the end of the process.
    ends: bool,
    /// So many processes are ready from now on, from the second of the script on.
    released: u32,
}

/// The command at a place of a process, if there is one.
pub(crate) fn command_at(script: &Script, process: u32, place: u32) -> Option<&Command>
    ensures some { IfSome result (λ c. command_at script.now process place ≡ Some c.now) }
    ensures none { IfNone result (command_at script.now process place ≡ None) }
{
    if process >= script.processes() {
        return None;
    }
    script.commands(process).get(place as usize)
}

/// Whether a try of an `await` that was answered so doesn't end it: its word isn't the awaited one, and it isn't the
/// last try.
fn tries_on(run: Run, command: &Command, reply: &Reply) -> bool
    ensures answer { result ≡ tries_on (progress_of_run run) command.now reply.now }
    ensures few { result ≡ true → run.tries + 1 < 2 ^ 32 }
{
    match (command, reply) {
        (Command::Await { word, tries, .. }, Reply::Word(read)) => {
            read.value() != word.value() && run.tries.saturating_add(1) < *tries
        }
        _ => false,
    }
}

/// How many processes a command makes ready: all others, where it is the initializer's `end`.
fn released(script: &Script, process: u32, command: &Command) -> u32
    ensures ready { range 1 result ≡ released_by script.now process (Some command.now) }
{
    match command {
        Command::End if script.initializer() && process == 0 => {
            script.processes().saturating_sub(1)
        }
        _ => 0,
    }
}

/// What an answer to the command that a process comes to means.
fn meaning_of(script: &Script, process: u32, run: Run, reply: &Reply) -> Answered
    ensures goes_on { result.goes_on ≡ goes_on run (command_at script.now process run.place) reply.now }
    ensures ends { result.ends ≡ is_its_end (command_at script.now process run.place) }
    ensures released { range 1 result.released ≡ released_by script.now process
        (command_at script.now process run.place) }
    ensures few { result.goes_on ≡ true → run.tries + 1 < 2 ^ 32 }
{
    match command_at(script, process, run.place) {
        Some(command) => Answered {
            goes_on: tries_on(run, command, reply),
            ends: matches!(command, Command::End),
            released: released(script, process, command),
        },
        None => Answered {
            goes_on: false,
            ends: false,
            released: 0,
        },
    }
}

/// How far a process has come once its command was answered.
fn run_after(run: Run, answered: Answered) -> Run
    requires place { run.place + 1 < 2 ^ 32 }
    requires tries { answered.goes_on ≡ true → run.tries + 1 < 2 ^ 32 }
    ensures { result ≡ (if answered.goes_on then record run { tries = run.tries + 1 }
        else record { place = run.place + 1; tries = 0; ended = answered.ends }) }
{
    if answered.goes_on {
        Run {
            tries: run.tries + 1,
            ..run
        }
    } else {
        Run {
            place: run.place + 1,
            tries: 0,
            ended: answered.ends,
        }
    }
}

/// Puts so many processes after those that are ready, in order from the second of the script on.
#[tactic(auto, using(crate::proofs::ReadyLaws::one_released))]
fn release(ready: &mut Ready, count: u32)
    requires { length ready.old.waiting + count ≤ ready.old.room }
    ensures { ready.new ≡ record ready.old { waiting = ready.old.waiting ++ range 1 count } }
{
    for process in 0..count {
        ready.enter(process + 1);
    }
}

impl<D: Drive> Tables<D> {
    /// How far a process has come, and what an answer to its next command means.
    fn answer(&self, process: u32, reply: &Reply) -> (Run, Answered)
        requires { process < length self.now.state.runs }
        ensures run { result.0 ≡ run_at self.now.state.runs process }
        ensures goes_on { result.1.goes_on ≡ goes_on result.0 (next_command self.now.state process) reply.now }
        ensures ends { result.1.ends ≡ is_its_end (next_command self.now.state process) }
        ensures released { range 1 result.1.released ≡ released_by self.now.state.plan process
            (next_command self.now.state process) }
        ensures few { result.1.goes_on ≡ true → result.0.tries + 1 < 2 ^ 32 }
    {
        let run = self.runs[process as usize];
        (run, meaning_of(self.book.script(), process, run, reply))
    }

    /// Processor `c` answers the command that a process comes to, through a frame or without one. At the end of the
    /// initializer the other processes are ready. (Source: own.)
    pub fn tell(&mut self, c: u32, process: u32, frame: Option<u32>, reply: Reply)
        requires processor { c < length self.old.state.processors }
        requires run { process < length self.old.state.runs }
        requires place { (run_at self.old.state.runs process).place + 1 < 2 ^ 32 }
        requires count { (processor_at self.old.state.processors c).count + 1 < 2 ^ 64 }
        requires ready { length self.old.state.ready
            + length (released_by self.old.state.plan process (next_command self.old.state process))
            ≤ self.old.room }
        requires room { 0 < self.old.state.spare }
        ensures { self.new ≡ with_state self.old (told_by self.old.state c process frame reply) }
    {
        let (run, answered) = self.answer(process, &reply);
        self.runs[process as usize] = run_after(run, answered);
        release(&mut self.ready, answered.released);
        let processor = &mut self.processors[c as usize];
        processor.count += 1;
        processor.tried = answered.goes_on;
        self.note(Entry::Do {
            process,
            place: run.place,
            cpu: c,
            frame,
            reply,
        });
    }
}
