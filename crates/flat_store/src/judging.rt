ghost use Rattle.std.specs.Prelude.{◌≡◌, ◌↔◌, ◌<◌, ◌==◌, IsTrue, Some, None, length};
ghost use Rattle.script.specs.Plans.{Plan, command_at};
ghost use Rattle.flat_model.specs.Legal.{IsAnswer, IsLawful, IsLawfulDo, MayFault, have_ended};
ghost use Rattle.flat_model.specs.Store.{Store, is_turn};
ghost use Rattle.flat_store.specs.Shown.{Shows, progress_at};

use crate::progress::Progress;
use crate::replies::is_answer;
use crate::store::{FlatStore, command_at};
use book::{Entry, Reply};
use script::{Command, Script};

/// Whether a process has ended; one that isn't there has.
pub(crate) fn has_ended(processes: &[Progress], process: u32) -> bool
    ensures { result ≡ (progress_at processes.now process).ended }
{
    match processes.get(process as usize) {
        Some(progress) => progress.ended,
        None => true,
    }
}

/// Whether each process has ended.
fn have_ended(processes: &[Progress]) -> bool
    ensures { result ≡ have_ended processes.now }
{
    processes.iter().all(|progress| progress.ended)
}

/// The place of the next command of a process; 0 where it isn't there.
pub(crate) fn place_of(processes: &[Progress], process: u32) -> u32
    ensures { result ≡ (progress_at processes.now process).place }
{
    match processes.get(process as usize) {
        Some(progress) => progress.place,
        None => 0,
    }
}

/// Whether a drive's failure was told of a process since its last answer.
pub(crate) fn is_faulted(processes: &[Progress], process: u32) -> bool
    ensures { result ≡ (progress_at processes.now process).faulted }
{
    match processes.get(process as usize) {
        Some(progress) => progress.faulted,
        None => false,
    }
}

impl FlatStore {
    /// Whether it is a process's turn: where the first process is the initializer, no other runs before it has ended.
    pub fn is_turn(&self, script: &Script, process: u32) -> bool
        ensures { (s : Store) → Shows script.now self.now s → result ≡ is_turn script.now s process }
    {
        !script.initializer() || process == 0 || has_ended(&self.processes, 0)
    }

    /// Whether a process may be answered so to a command.
    fn may_answer(&self, script: &Script, process: u32, command: &Command, reply: &Reply) -> bool
        requires { process < length script.now.processes }
        ensures { (s : Store) → Shows script.now self.now s
            → (IsTrue result ↔ IsAnswer script.now s process (Some command.now) reply.now) }
    {
        let held = self.is_held_back(script, process, command);
        let faulted = is_faulted(&self.processes, process);
        let due = self.reply_to(script, process, command);
        is_answer(held, faulted, command, &due, reply)
    }

    /// Whether the command at a place of a process may be answered so.
    fn allows_do(&self, script: &Script, process: u32, place: u32, reply: &Reply) -> bool
        ensures { (s : Store) → Shows script.now self.now s
            → (IsTrue result ↔ IsLawfulDo script.now s process place reply.now) }
    {
        let Some(command) = command_at(script, process, place) else {
            return false;
        };
        if !self.is_turn(script, process) || has_ended(&self.processes, process) {
            return false;
        }
        if place_of(&self.processes, process) != place {
            return false;
        }
        self.may_answer(script, process, command, reply)
    }

    /// Whether a drive's failure may be told of a process, or of none.
    fn allows_fault(&self, process: Option<u32>) -> bool
        ensures { (p : Plan) (s : Store) → Shows p self.now s → (IsTrue result ↔ MayFault s process) }
    {
        match process {
            Some(process) => !has_ended(&self.processes, process),
            None => have_ended(&self.processes),
        }
    }

    /// Whether an entry is lawful in the flat store that is shown: a command that is answered as the flat store answers
    /// it, by a process that has come to it and whose turn it is, and not before a segment that it needs has moved; a
    /// page that is given up when it is all zeros; a drive's failure of a process that hasn't ended, or of none where
    /// all have; a segment that moves to the first volume with room, for a process whose next command lacks a record
    /// alone; each entry that tells who holds what.
    pub fn allows(&self, script: &Script, e: Entry) -> bool
        ensures { (store : Store) → Shows script.now self.now store → (IsTrue result ↔ IsLawful script.now store e) }
    {
        match e {
            Entry::Do {
                process,
                place,
                reply,
                ..
            } => self.allows_do(script, process, place, &reply),
            Entry::Release { uid, page } => self.holdings.may_release(uid, page),
            Entry::Fault { process } => self.allows_fault(process),
            Entry::Moved {
                process,
                uid,
                volume,
            } => self.allows_moved(script, process, uid, volume),
            _ => true,
        }
    }
}
