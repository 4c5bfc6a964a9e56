ghost use Rattle.std.specs.Prelude.{◌≡◌, ◌+◌, ◌<◌, ◌^◌, true, false, slice_set};
ghost use Rattle.flat_model.specs.Commands.{gone_on, is_end, tries_on};
ghost use Rattle.flat_model.specs.Store.{at_first};
ghost use Rattle.flat_store.specs.Shown.{progress_at};

use book::Reply;
use script::Command;
use std::marker::Model;

/// How far a process has come: the place of its next command; how often it has tried it, where it is an `await`;
/// whether the process has ended; whether a drive's failure was told of it since its last answer.
#[derive(Drop)]
pub(crate) struct Progress {
    pub(crate) place: u32,
    tries: u32,
    pub(crate) ended: bool,
    pub(crate) faulted: bool,
}

impl Model for Progress {
    ghost use Rattle.flat_model.specs.Store.{Progress as Term};

    ghost Value = { Term };

    ghost view = { λ q. record { place = q.place; tries = q.tries; ended = q.ended; faulted = q.faulted } };
}

/// Whether a command is the end of its process.
fn is_end(command: &Command) -> bool
    ensures { result ≡ is_end command.now }
{
    matches!(command, Command::End)
}

impl Progress {
    /// A process before its first command.
    pub(crate) fn at_first() -> Progress
        ensures { result ≡ at_first }
    {
        Progress {
            place: 0,
            tries: 0,
            ended: false,
            faulted: false,
        }
    }

    /// A process that isn't there: it has ended.
    pub(crate) fn absent() -> Progress
        ensures { result ≡ record { place = 0; tries = 0; ended = true; faulted = false } }
    {
        Progress {
            place: 0,
            tries: 0,
            ended: true,
            faulted: false,
        }
    }

    /// Whether a try of an `await` that was answered so doesn't end it: its word isn't the awaited one, and it isn't
    /// the last try.
    pub(crate) fn tries_on(&self, command: &Command, reply: &Reply) -> bool
        ensures answer { result ≡ tries_on self.now command.now reply.now }
        ensures few { result ≡ true → self.now.tries + 1 < 2 ^ 32 }
    {
        match (command, reply) {
            (Command::Await { word, tries, .. }, Reply::Word(read)) => {
                read.value() != word.value() && self.tries.saturating_add(1) < *tries
            }
            _ => false,
        }
    }

    /// How far it has come once a command was answered so.
    fn gone_on(&self, command: &Command, reply: &Reply) -> Progress
        ensures { self.now.place + 1 < 2 ^ 32 → result ≡ gone_on self.now command.now reply.now }
    {
        if self.tries_on(command, reply) {
            Progress {
                place: self.place,
                tries: self.tries.saturating_add(1),
                ended: self.ended,
                faulted: false,
            }
        } else {
            Progress {
                place: self.place.saturating_add(1),
                tries: 0,
                ended: is_end(command),
                faulted: false,
            }
        }
    }

    /// A drive's failure is told of the process.
    fn fault(&mut self)
        ensures { self.new ≡ record self.old { faulted = true } }
    {
        self.faulted = true;
    }
}

/// A process goes on once a command was answered so.
pub(crate) fn go_on(processes: &mut Vec<Progress>, process: u32, command: &Command, reply: &Reply)
    ensures { (progress_at processes.old.items process).place + 1 < 2 ^ 32
        → processes.new.items ≡ slice_set processes.old.items process
        (gone_on (progress_at processes.old.items process) command.now reply.now) }
{
    if let Some(progress) = processes.get_mut(process as usize) {
        *progress = progress.gone_on(command, reply);
    }
}

/// A drive's failure is told of a process.
pub(crate) fn fault(processes: &mut Vec<Progress>, process: u32)
    ensures { processes.new.items ≡ slice_set processes.old.items process
        (record (progress_at processes.old.items process) { faulted = true }) }
{
    if let Some(progress) = processes.get_mut(process as usize) {
        progress.fault();
    }
}
