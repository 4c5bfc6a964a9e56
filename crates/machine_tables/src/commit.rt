//! A tree command of a process takes effect, what its job took is gone, and the process is answered.

ghost use Rattle.std.specs.Prelude.{◌≡◌, ◌<◌, ◌≤◌, ◌+◌, ℕ, List, length, map, true, false, Some, None};
ghost use Rattle.std.specs.Prelude.{IfSome, IfNone};
ghost use Rattle.script.specs.Forms.{is_command};
ghost use Rattle.script.specs.Plans.{command_at};
ghost use Rattle.script.specs.References.{reference_of};
ghost use Rattle.script.specs.declared.commands.Command.{Command as Named};
ghost use Rattle.flat_model.specs.Store.{Store as Flat};
ghost use Rattle.storage_ops.specs.Cut.{IsReady};
ghost use Rattle.machine_model.specs.Commits.{committed_at};
ghost use Rattle.machine_model.specs.Keeps.{IsFaithful};
ghost use Rattle.machine_model.specs.Reads.{cut_of_owner, frames_of_owner, next_command, run_at};
ghost use Rattle.machine_model.specs.Said.{with_command};
ghost use Rattle.machine_model.specs.Steps.{booked, with_owner, with_store};
ghost use Rattle.machine_model.specs.Ready.{OwnsFor};
ghost use Rattle.machine_tables.specs.Committed.{effect_for, reply_for};
ghost use Rattle.machine_tables.specs.Gone.{ends_in, goes_inactive, inactive_entry, left_entries, left_entry};
ghost use Rattle.machine_tables.specs.Gone.{next_frame_entry};
ghost use Rattle.machine_tables.specs.Owned.{HasOwner};
ghost use Rattle.machine_tables.specs.Parts.{shown, with_state};
ghost use Rattle.machine_tables.specs.Ready.{IsApplicable, MayCommit};
ghost use Rattle.machine_tables.specs.Truncated.{IsCommittedBut};

use crate::answering::command_at;
use crate::committing::{
    delete, initiate, look, make_dir, make_seg, move_quota, set_length, set_row, status, terminate,
    truncate,
};
use crate::tables::Tables;
use book::{Book, Entry, Reply};
use machine_model::Run;
use script::Command;
use storage_ops::Store;
use volumes::Drive;

/// The command that a process comes to next.
fn next_of<'a>(book: &'a Book, runs: &[Run], process: u32) -> Option<&'a Command>
    requires { process < length runs.now }
    ensures some { IfSome result (λ c. command_at book.now.script process (run_at runs.now process).place
        ≡ Some c.now) }
    ensures none { IfNone result (command_at book.now.script process (run_at runs.now process).place ≡ None) }
{
    command_at(book.script(), process, runs[process as usize].place)
}

/// A tree command of a process takes effect in the store, unless that is refused. Of the pages that its job took, the
/// one that stays comes back: the frame that it is in.
fn take_effect<D: Drive>(
    store: &mut Store<D>,
    process: u32,
    command: &Command,
) -> (Reply, Option<u32>)
    requires still { store.old.segs.moving ≡ None }
    requires knows { process < length store.old.segs.links.known }
    requires ranges { is_command (length store.old.segs.pages.volumes.drives) command.now ≡ true }
    requires tree { reference_of command.now ≡ None }
    requires uids { store.old.accounts.next < 100003 }
    requires ready { IsReady store.old process command.now }
    ensures { (frames : List ℕ) → OwnsFor (shown D.pages store.old) frames command.now
        → IsCommittedBut D.pages store.old store.new process frames command.now result.0 result.1 }
{
    look(store);
    match command {
        Command::MkDir { path, volume } => (make_dir(store, path, *volume), None),
        Command::MkSeg {
            path,
            pages,
            volume,
        } => (make_seg(store, process, path, *pages, *volume), None),
        Command::Initiate { path } => (initiate(store, process, path), None),
        Command::Terminate { number } => (terminate(store, process, *number), None),
        Command::Acl { path, row, mode } => (set_row(store, path, row, *mode), None),
        Command::Length { path, pages } => (set_length(store, path, *pages), None),
        Command::Truncate { path, words } => truncate(store, path, *words),
        Command::Delete { path } => (delete(store, path), None),
        Command::Move { path, amount } => (move_quota(store, path, amount), None),
        Command::Status { path } => (status(store, path), None),
        Command::End => (Reply::Done, None),
        Command::Read { .. }
        | Command::Write { .. }
        | Command::Add { .. }
        | Command::Await { .. } => unreachable!(),
    }
}

/// What is booked of a frame that was taken: its page is back where it is the one that stays, and gone where it isn't.
fn left_entry(kept: Option<u32>, frame: u32) -> Entry
    ensures { result ≡ left_entry kept frame }
{
    match kept {
        Some(stays) if stays == frame => Entry::BackPage { frame },
        _ => Entry::GonePage { frame },
    }
}

impl<D: Drive> Tables<D> {
    /// The next command of a process takes effect in the store. Of the pages that its job took, the one that stays
    /// comes back: the frame that it is in.
    fn apply(&mut self, process: u32) -> (Reply, Option<u32>)
        requires { (x : Named) × IsApplicable self.old process x }
        ensures reply { result.0 ≡ reply_for self.old.state process (next_command self.old.state process) }
        ensures left { map (left_entry result.1) (frames_of_owner self.old.state.owner)
            ≡ map (next_frame_entry self.old.state.store (next_command self.old.state process))
            (frames_of_owner self.old.state.owner) }
        ensures effect { self.new ≡ with_state self.old (with_store self.old.state (effect_for self.old.state.store
            process (frames_of_owner self.old.state.owner) (next_command self.old.state process))) }
        ensures shown { (t : Flat) → IsFaithful self.old.state.plan t self.old.state.store
            → IsFaithful self.old.state.plan (with_command self.old.state process
            (next_command self.old.state process) t) self.new.state.store }
    {
        let Some(command) = next_of(&self.book, &self.runs, process) else {
            unreachable!();
        };
        take_effect(&mut self.store, process, command)
    }
}

impl<D: Drive> Tables<D> {
    /// The pages that the owner took are gone, in the order in which it took them; but one that stays is back.
    fn let_pages_go(&mut self, kept: Option<u32>)
        requires owner { HasOwner self.old.state.owner }
        requires room { length (frames_of_owner self.old.state.owner) ≤ self.old.state.spare }
        ensures effect { self.new ≡ with_state self.old (with_owner (booked self.old.state
            (map (left_entry kept) (frames_of_owner self.old.state.owner))) self.new.state.owner) }
        ensures owner { HasOwner self.new.state.owner }
        ensures cut { cut_of_owner self.new.state.owner ≡ cut_of_owner self.old.state.owner }
        ensures spent { self.new.state.spare + length (frames_of_owner self.old.state.owner)
            ≡ self.old.state.spare }
    {
        while let Some(frame) = self.next_frame() {
            self.note(left_entry(kept, frame));
        }
    }

    /// Books that a node isn't active any more, if one isn't.
    fn note_inactive(&mut self, inactive: Option<u32>)
        requires { 0 < self.old.state.spare }
        ensures { self.new ≡ with_state self.old (booked self.old.state (inactive_entry inactive)) }
    {
        if let Some(uid) = inactive {
            self.note(Entry::Deactivate { uid });
        }
    }

    /// What the owner took is gone, in the order in which it took it, but a page that stays is back; and then the node
    /// isn't active any more.
    fn let_all_go(&mut self, kept: Option<u32>, inactive: Option<u32>)
        requires owner { HasOwner self.old.state.owner }
        requires room { length (frames_of_owner self.old.state.owner)
            + (length (cut_of_owner self.old.state.owner) + 1) ≤ self.old.state.spare }
        ensures effect { self.new ≡ with_state self.old (with_owner (booked self.old.state
            (left_entries self.old.state kept inactive)) self.new.state.owner) }
        ensures spent { self.old.state.spare ≤ self.new.state.spare
            + (length (frames_of_owner self.old.state.owner)
            + (length (cut_of_owner self.old.state.owner) + 1)) }
    {
        self.let_pages_go(kept);
        self.let_descriptors_go();
        self.note_inactive(inactive);
    }

    /// The node that is active no more once the next command of a process takes effect, if one isn't.
    fn goes_inactive(&self, process: u32) -> Option<u32>
        requires { process < length self.now.state.runs }
        ensures { result ≡ goes_inactive self.now.state.store process (next_command self.now.state process) }
    {
        match self.next_command(process)? {
            Command::Delete { path } => self.active_at(path),
            _ => None,
        }
    }

    /// Whether the next command of a process is its end.
    fn ends(&self, process: u32) -> bool
        requires { process < length self.now.state.runs }
        ensures { result ≡ ends_in (next_command self.now.state process) }
    {
        matches!(self.next_command(process), Some(Command::End))
    }

    /// The next command of the process of processor `c`, a tree command that isn't refused, takes effect: what its job
    /// took is gone, the process is answered, and the supervisor is given up. At its end the process leaves the
    /// processor. (Source: Bensoussan, Clingen and Daley 1972; Organick 1972.)
    #[inline(never)]
    pub fn commit(&mut self, c: u32, process: u32)
        requires { (x : Named) × MayCommit self.old c process x }
        ensures effect { self.new ≡ with_state self.old
            (committed_at self.old.state c (next_command self.old.state process)) }
        ensures shown { (t : Flat) → IsFaithful self.old.state.plan t self.old.state.store
            → IsFaithful self.old.state.plan (with_command self.old.state process
            (next_command self.old.state process) t) self.new.state.store }
    {
        let inactive = self.goes_inactive(process);
        let ends = self.ends(process);
        let (reply, kept) = self.apply(process);
        self.let_all_go(kept, inactive);
        self.tell(c, process, None, reply);
        if ends {
            self.leave(c, process);
        }
        self.job.end();
    }
}
