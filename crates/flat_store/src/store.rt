ghost use Rattle.std.specs.Prelude.{◌≡◌, ◌<◌, ◌==◌, ℕ, true, false, length, IfSome, IfNone, OnOk, OnErr, Some, None};
ghost use Rattle.known_segs.specs.Known.{uid_of};
ghost use Rattle.script.specs.Plans.{command_at};
ghost use Rattle.flat_model.specs.Commands.{after_command, effect_of, effect_of_tree_command};
ghost use Rattle.flat_model.specs.Commands.{reply_to_command, reply_to_tree_command, takes_effect};
ghost use Rattle.flat_model.specs.Legal.{IsLawful, IsLawfulDo, MayFault, MayRelease, after_entry, after_fault};
ghost use Rattle.flat_model.specs.Moves.{is_held_back, is_held_by};
ghost use Rattle.flat_model.specs.Pages.{without_stored};
ghost use Rattle.flat_model.specs.Naming.{initiate_reply, after_initiate, terminate_reply, after_terminate};
ghost use Rattle.flat_model.specs.Rights.{move_reply, after_move};
ghost use Rattle.flat_model.specs.References.{reply_to_reference, after_reference};
ghost use Rattle.flat_model.specs.Store.{Store};
ghost use Rattle.script.specs.Plans.{Plan};
ghost use Rattle.script.specs.Forms.{IsPlan};
ghost use Rattle.flat_store.specs.Shown.{IsShown, Shows, answered};

use crate::NoMemory;
use crate::holdings::Holdings;
use crate::numbers::{forget, make_known, number_for, uid_of};
use crate::progress::{Progress, fault, go_on};
use crate::replies::{is_answer, takes_effect};
use acl::Acl;
use book::{Book, Entry, Reply};
use known_segs::Kst;
use mnames::Path;
use script::{Command, Reference, Script};
use std::alloc::Global;
use std::marker::Model;
use tree_commands::{
    acl_reply, delete_reply, move_reply, segment_at, status_reply, truncate_reply,
};

/// The flat store (Bensoussan, Clingen and Daley 1972; Organick 1972): the tree with its accounts, the stored pages
/// with their words, what each process knows by a number, and how far it has come.
///
/// Contracts speak of the flat store that it shows for a script (`Shows`). A page takes its 8 KiB only while it is
/// stored. A look costs a few searches in ordered lists, but for these: the reply to `initiate` looks at each number of
/// its process, that to `move` may look at each node, that to a write whose volume is full looks at each volume, and
/// `has_zero_page` looks at each stored page. To follow a `truncate` or a `delete` costs a few searches too, and a step
/// for each stored page past the cut.
#[derive(Drop)]
pub struct FlatStore {
    pub(crate) holdings: Holdings,
    pub(crate) known: Vec<Kst>,
    pub(crate) processes: Vec<Progress>,
}

impl Model for FlatStore {
    ghost use Rattle.flat_store.specs.Shown.{Kept};

    ghost Value = { Kept };

    ghost view = { λ f. record { held = f.holdings; known = f.known.items; processes = f.processes.items } };
}

/// The command at a place of a process, if there is one.
pub fn command_at(script: &Script, process: u32, place: u32) -> Option<&Command>
    ensures some { IfSome result (λ c. command_at script.now process place ≡ Some c.now) }
    ensures within { IfSome result (λ c. process < length script.now.processes) }
    ensures plan { IsPlan script.now }
    ensures none { IfNone result (command_at script.now process place ≡ None) }
{
    if process >= script.processes() {
        return None;
    }
    script.commands(process).get(place as usize)
}

impl FlatStore {
    /// What a process is answered that initiates the segment that a path leads to.
    fn initiate_reply(&self, process: u32, path: &Path) -> Reply
        ensures { (p : Plan) (s : Store) → IsShown p self.now s → result ≡ initiate_reply s process path.now }
    {
        match segment_at(self.holdings.tree(), path) {
            Ok(node) => match number_for(&self.known, process, node.uid) {
                Some(number) => Reply::Known(number),
                None => Reply::Full,
            },
            Err(reply) => reply,
        }
    }

    /// What a process is answered that gives up a number.
    fn terminate_reply(&self, process: u32, number: u32) -> Reply
        ensures { (p : Plan) (s : Store) → IsShown p self.now s → result ≡ terminate_reply s process number }
    {
        match uid_of(&self.known, process, number) {
            Some(_) => Reply::Done,
            None => Reply::Unknown,
        }
    }

    /// What a process is answered to a reference.
    fn reply_to_reference(&self, script: &Script, process: u32, reference: &Reference) -> Reply
        ensures { (s : Store) → IsShown script.now self.now s
            → result ≡ reply_to_reference script.now s process reference.now }
    {
        if process >= script.processes() {
            return Reply::Unknown;
        }
        let who = script.who(process);
        match uid_of(&self.known, process, reference.number) {
            Some(uid) => self
                .holdings
                .reply_at(who, uid, reference.offset, &reference.kind),
            None => Reply::Unknown,
        }
    }

    /// What a move of quota is answered.
    fn move_reply(&self, path: &Path, amount: &i32) -> Reply
        ensures { (p : Plan) (s : Store) → IsShown p self.now s → result ≡ move_reply s path.now amount.now }
    {
        let amount = *amount;
        move_reply(self.holdings.tree(), path, amount)
    }

    /// What a process is answered to a tree command; `Done` to any other.
    fn reply_to_tree_command(&self, process: u32, command: &Command) -> Reply
        ensures { (p : Plan) (s : Store) → IsShown p self.now s
            → result ≡ reply_to_tree_command p s process command.now }
    {
        let tree = self.holdings.tree();
        match command {
            Command::MkDir { path, volume } => self.holdings.make_reply(path, *volume, true),
            Command::MkSeg { path, volume, .. } => self.holdings.make_reply(path, *volume, false),
            Command::Initiate { path } => self.initiate_reply(process, path),
            Command::Terminate { number } => self.terminate_reply(process, *number),
            Command::Acl { path, row, .. } => acl_reply(tree, path, row),
            Command::Length { path, pages } => self.holdings.length_reply(path, *pages),
            Command::Truncate { path, .. } => truncate_reply(tree, path),
            Command::Delete { path } => delete_reply(tree, path),
            Command::Move { path, amount } => self.move_reply(path, amount),
            Command::Status { path } => status_reply(tree, path),
            _ => Reply::Done,
        }
    }

    /// What a process is answered to a command.
    pub fn reply_to(&self, script: &Script, process: u32, command: &Command) -> Reply
        ensures { (s : Store) → Shows script.now self.now s
            → result ≡ reply_to_command script.now s process command.now }
    {
        match command.reference() {
            Some(reference) => self.reply_to_reference(script, process, &reference),
            None => self.reply_to_tree_command(process, command),
        }
    }

    /// A process knows the segment that a path leads to by a number from now on, unless that is refused.
    fn initiate(&mut self, process: u32, path: &Path)
        ensures { (p : Plan) (s : Store) → IsShown p self.old s
            → IsShown p self.new (after_initiate s process path.now) }
    {
        if let Ok(node) = segment_at(self.holdings.tree(), path) {
            make_known(&mut self.known, process, node.uid);
        }
    }

    /// A number of a process stands for nothing from now on, unless that is refused.
    fn terminate(&mut self, process: u32, number: u32)
        ensures { (p : Plan) (s : Store) → IsShown p self.old s
            → takes_effect (terminate_reply s process number) ≡ true
            → IsShown p self.new (after_terminate s process number) }
    {
        forget(&mut self.known, process, number);
    }

    /// Does what a reference does that is neither refused nor held back.
    fn refer(&mut self, process: u32, reference: &Reference) -> Result<(), NoMemory>
        ensures ok { OnOk result ((p : Plan) (s : Store) → IsShown p self.old s
            → takes_effect (reply_to_reference p s process reference.now) ≡ true
            → is_held_by p s process (Some reference.now) ≡ false
            → IsShown p self.new (after_reference s process reference.now)) }
        ensures err { OnErr result (self.new ≡ self.old) }
    {
        if let Some(uid) = uid_of(&self.known, process, reference.number) {
            self.holdings.refer(uid, reference.offset, &reference.kind)?;
        }
        Ok(())
    }

    /// Moves quota, unless that is refused.
    fn move_quota(&mut self, path: &Path, amount: &i32)
        ensures { (p : Plan) (s : Store) → IsShown p self.old s → takes_effect (move_reply s path.now amount.now) ≡ true
            → IsShown p self.new (after_move s path.now amount.now) }
    {
        let amount = *amount;
        self.holdings.move_quota(path, amount);
    }

    /// Does what a tree command does that isn't refused.
    fn tree_effect(&mut self, script: &Script, process: u32, command: &Command)
        requires { process < length script.now.processes }
        ensures { (s : Store) → IsShown script.now self.old s → s.next < 100003
            → takes_effect (reply_to_tree_command script.now s process command.now) ≡ true
            → IsShown script.now self.new (effect_of_tree_command script.now s process command.now) }
    {
        match command {
            Command::MkDir { path, volume } => {
                self.holdings.make(path, *volume, true, 0, Acl::none());
            }
            Command::MkSeg {
                path,
                pages,
                volume,
            } => {
                let acl = Acl::of(script.who(process).copied());
                self.holdings.make(path, *volume, false, *pages, acl);
            }
            Command::Initiate { path } => self.initiate(process, path),
            Command::Terminate { number } => self.terminate(process, *number),
            Command::Acl { path, row, mode } => self.holdings.set_row(path, row, *mode),
            Command::Length { path, pages } => self.holdings.set_length(path, *pages),
            Command::Truncate { path, words } => self.holdings.truncate(path, *words),
            Command::Delete { path } => self.holdings.delete(path),
            Command::Move { path, amount } => self.move_quota(path, amount),
            Command::Read { .. }
            | Command::Write { .. }
            | Command::Add { .. }
            | Command::Await { .. }
            | Command::Status { .. }
            | Command::End => {}
        }
    }

    /// Does what a command does that is neither refused nor held back.
    fn take_effect(
        &mut self,
        script: &Script,
        process: u32,
        command: &Command,
    ) -> Result<(), NoMemory>
        requires { process < length script.now.processes }
        ensures ok { OnOk result ((s : Store) → IsShown script.now self.old s → s.next < 100003
            → takes_effect (reply_to_command script.now s process command.now) ≡ true
            → is_held_back script.now s process command.now ≡ false
            → IsShown script.now self.new (effect_of script.now s process command.now)) }
        ensures err { OnErr result (self.new ≡ self.old) }
    {
        match command.reference() {
            Some(reference) => self.refer(process, &reference),
            None => {
                self.tree_effect(script, process, command);
                Ok(())
            }
        }
    }

    /// A command of a process was answered so.
    fn follow_do(
        &mut self,
        script: &Script,
        process: u32,
        command: &Command,
        reply: &Reply,
    ) -> Result<(), NoMemory>
        requires { process < length script.now.processes }
        ensures ok { OnOk result ((s : Store) (place : ℕ) → Shows script.now self.old s
            → command_at script.now process place ≡ Some command.now
            → IsLawfulDo script.now s process place reply.now
            → Shows script.now self.new (after_command script.now s process command.now reply.now)) }
        ensures err { OnErr result (self.new ≡ self.old) }
    {
        if takes_effect(reply) {
            self.take_effect(script, process, command)?;
        }
        go_on(&mut self.processes, process, command, reply);
        Ok(())
    }

    /// A drive's failure was told of a process, or of none.
    fn follow_fault(&mut self, process: Option<u32>)
        ensures { (p : Plan) (s : Store) → Shows p self.old s → MayFault s process
            → Shows p self.new (after_fault s process) }
    {
        if let Some(process) = process {
            fault(&mut self.processes, process);
        }
    }

    /// A page of zeros was given up.
    fn follow_release(&mut self, uid: u32, page: u32)
        ensures { (p : Plan) (s : Store) → Shows p self.old s → MayRelease s uid page
            → Shows p self.new (record s { stored = without_stored s.stored uid (λ q. q == page) }) }
    {
        self.holdings.release(uid, page);
    }

    /// Goes on to the flat store after an entry that is lawful in it.
    ///
    /// # Errors
    /// `NoMemory` is want of memory for a page; then nothing is changed.
    pub fn follow(&mut self, script: &Script, e: Entry) -> Result<(), NoMemory>
        ensures ok { OnOk result ((store : Store) → Shows script.now self.old store → IsLawful script.now store e
            → Shows script.now self.new (after_entry script.now store e)) }
        ensures err { OnErr result (self.new ≡ self.old) }
    {
        match e {
            Entry::Do {
                process,
                place,
                reply,
                ..
            } => match command_at(script, process, place) {
                Some(command) => self.follow_do(script, process, command, &reply),
                None => Ok(()),
            },
            Entry::Release { uid, page } => {
                self.follow_release(uid, page);
                Ok(())
            }
            Entry::Fault { process } => {
                self.follow_fault(process);
                Ok(())
            }
            Entry::Moved { uid, volume, .. } => {
                self.follow_moved(uid, volume);
                Ok(())
            }
            _ => Ok(()),
        }
    }
}
