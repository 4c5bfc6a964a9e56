//! Tree commands take effect.

ghost use Rattle.std.specs.Prelude.{◌≡◌, ◌<◌, length, true, None};
ghost use Rattle.script.specs.Forms.{is_command};
ghost use Rattle.script.specs.Plans.{Plan};
ghost use Rattle.script.specs.References.{reference_of};
ghost use Rattle.flat_model.specs.Commands.{effect_of, reply_to_command};
ghost use Rattle.flat_model.specs.Rights.{after_move, move_reply};
ghost use Rattle.flat_model.specs.Store.{Store as Flat};
ghost use Rattle.storage_ops.specs.Cut.{Commits, IsReady, KeepsRest};
ghost use Rattle.storage_ops.specs.Shown.{Shows, answered};

use crate::store::Store;
use book::Reply;
use mnames::Path;
use script::Command;
use volumes::Drive;

impl<D: Drive> Store<D> {
    /// Moves quota, and gives `Done`, or what refuses it.
    fn commit_move(&mut self, path: &Path, amount: &i32) -> Reply
        ensures answer { (p : Plan) (s : Flat) → Shows D.pages p s self.old
            → result ≡ move_reply s path.now amount.now }
        ensures rest { self.new ≡ record self.old { accounts = self.new.accounts } }
        ensures effect { (p : Plan) (s : Flat) → Shows D.pages p s self.old
            → Shows D.pages p (answered result s (after_move s path.now amount.now)) self.new }
    {
        let amount = *amount;
        self.move_quota(path, amount)
    }

    /// Does a command that makes no reference, and says so.
    fn commit_tree(&mut self, process: u32, command: &Command) -> Reply
        requires still { self.old.segs.moving ≡ None }
        requires process { process < length self.old.segs.links.known }
        requires ranges { is_command (length self.old.segs.pages.volumes.drives) command.now ≡ true }
        requires uids { self.old.accounts.next < 100003 }
        requires ready { IsReady self.old process command.now }
        ensures does { Commits D.pages self.old self.new process command.now result }
        ensures rest { KeepsRest self.old self.new }
    {
        let _accounts = self.accounts();
        match command {
            Command::MkDir { path, volume } => self.make_dir(path, *volume),
            Command::MkSeg {
                path,
                pages,
                volume,
            } => self.make_seg(process, path, *pages, *volume),
            Command::Initiate { path } => self.initiate(process, path),
            Command::Terminate { number } => self.terminate(process, *number),
            Command::Acl { path, row, mode } => self.set_acl(path, row, *mode),
            Command::Length { path, pages } => self.set_length(path, *pages),
            Command::Truncate { path, words } => self.truncate(path, *words),
            Command::Delete { path } => self.delete(path),
            Command::Move { path, amount } => self.commit_move(path, amount),
            Command::Status { path } => self.status(path),
            Command::Read { .. }
            | Command::Write { .. }
            | Command::Add { .. }
            | Command::Await { .. }
            | Command::End => Reply::Done,
        }
    }

    /// Does a tree command of a process, and says how it is answered: it takes effect unless something refuses it, and
    /// `test` would say so. What must be taken, cut or made inactive before must have been. (Source: Bensoussan,
    /// Clingen and Daley 1972; Organick 1972.)
    pub fn commit(&mut self, process: u32, command: &Command) -> Reply
        requires still { self.old.segs.moving ≡ None }
        requires process { process < length self.old.segs.links.known }
        requires ranges { is_command (length self.old.segs.pages.volumes.drives) command.now ≡ true }
        requires tree { reference_of command.now ≡ None }
        requires uids { self.old.accounts.next < 100003 }
        requires ready { IsReady self.old process command.now }
        ensures answer { (p : Plan) (s : Flat) → Shows D.pages p s self.old
            → result ≡ reply_to_command p s process command.now }
        ensures effect { (p : Plan) (s : Flat) → Shows D.pages p s self.old
            → Shows D.pages p (answered result s (effect_of p s process command.now)) self.new }
        ensures rest { KeepsRest self.old self.new }
    {
        self.commit_tree(process, command)
    }
}
