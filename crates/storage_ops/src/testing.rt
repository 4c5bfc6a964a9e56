//! What refuses a command.

ghost use Rattle.std.specs.Prelude.{◌≡◌, ◌<◌, length, true, None};
ghost use Rattle.script.specs.Plans.{Plan};
ghost use Rattle.script.specs.Forms.{is_command};
ghost use Rattle.flat_model.specs.Commands.{reply_to_command, reply_to_tree_command};
ghost use Rattle.flat_model.specs.Rights.{move_reply};
ghost use Rattle.flat_model.specs.Store.{Store as Flat};
ghost use Rattle.storage_ops.specs.Shown.{Shows, refusal};

use crate::store::Store;
use book::Reply;
use mnames::Path;
use script::Command;
use volumes::Drive;

impl<D: Drive> Store<D> {
    /// What refuses a move of quota.
    fn refusal_of_move(&self, path: &Path, amount: &i32) -> Option<Reply>
        ensures { (p : Plan) (s : Flat) → Shows D.pages p s self.now
            → result ≡ refusal (move_reply s path.now amount.now) }
    {
        let amount = *amount;
        self.move_refusal(path, amount)
    }

    /// What refuses a command that makes no reference; None for a reference, as for the end.
    #[tactic(auto, using(crate::proofs::Fresh::volume_there))]
    pub(crate) fn tree_refusal(&self, process: u32, command: &Command) -> Option<Reply>
        requires still { self.now.segs.moving ≡ None }
        requires process { process < length self.now.segs.links.known }
        requires ranges { is_command (length self.now.segs.pages.volumes.drives) command.now ≡ true }
        ensures { (p : Plan) (s : Flat) → Shows D.pages p s self.now
            → result ≡ refusal (reply_to_tree_command p s process command.now) }
    {
        match command {
            Command::MkDir { path, volume } => self.make_dir_refusal(path, *volume),
            Command::MkSeg { path, volume, .. } => self.make_seg_refusal(path, *volume),
            Command::Initiate { path } => self.initiate_refusal(process, path),
            Command::Terminate { number } => self.terminate_refusal(process, *number),
            Command::Acl { path, row, .. } => self.acl_refusal(path, row),
            Command::Length { path, pages } => self.length_refusal(path, *pages),
            Command::Truncate { path, .. } => self.truncate_refusal(path),
            Command::Delete { path } => self.delete_refusal(path),
            Command::Move { path, amount } => self.refusal_of_move(path, amount),
            Command::Status { path } => self.status_refusal(path),
            _ => None,
        }
    }

    /// What refuses a command of a process now, the first of its refusals that holds; None exactly where none does, as
    /// always for the end. A reference is refused by what its number stands for, by access, by the length of the
    /// segment, and then by want of room for a page more; each try of an `await` is a read. (Source: Bensoussan,
    /// Clingen and Daley 1972; Organick 1972.)
    pub fn test(&self, process: u32, command: &Command) -> Option<Reply>
        requires still { self.now.segs.moving ≡ None }
        requires process { process < length self.now.segs.links.known }
        requires ranges { is_command (length self.now.segs.pages.volumes.drives) command.now ≡ true }
        ensures { (p : Plan) (s : Flat) → Shows D.pages p s self.now
            → result ≡ refusal (reply_to_command p s process command.now) }
    {
        match command.reference() {
            Some(reference) => self.reference_refusal(process, &reference),
            None => self.tree_refusal(process, command),
        }
    }
}
