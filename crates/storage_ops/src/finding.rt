//! What a tree command is about, by one walk along its path, or what refuses it.

ghost use Rattle.std.specs.Prelude.{◌≡◌, ◌<◌, length, true, None, IfOk};
ghost use Rattle.script.specs.Plans.{Plan};
ghost use Rattle.script.specs.Forms.{is_command};
ghost use Rattle.flat_model.specs.Commands.{reply_to_tree_command};
ghost use Rattle.flat_model.specs.Making.{delete_reply};
ghost use Rattle.flat_model.specs.Rights.{acl_reply};
ghost use Rattle.flat_model.specs.Sizes.{length_reply, truncate_reply};
ghost use Rattle.flat_model.specs.Store.{Store as Flat};
ghost use Rattle.storage_ops.specs.Found.{IsAbout, Leads, refused_with};
ghost use Rattle.storage_ops.specs.Shown.{Shows, ShowsTree, refusal};

use crate::store::Store;
use accounts::Accounts;
use book::Reply;
use mnames::{Path, Row};
use script::Command;
use tree_commands::{branch_at, quota_of, segment_at};
use volumes::Drive;

/// The segment that an `acl` is about.
///
/// # Errors
/// What refuses it.
fn for_acl(accounts: &Accounts, path: &Path, row: &Row) -> Result<u32, Reply>
    ensures leads { IfOk result (Leads accounts.now.nodes path.now) }
    ensures refusal { (s : Flat) → ShowsTree s accounts.now
        → refused_with result ≡ refusal (acl_reply s path.now row.now) }
{
    match segment_at(accounts, path) {
        Ok(node) => {
            if node.acl.takes(row) {
                Ok(node.uid)
            } else {
                Err(Reply::AclFull)
            }
        }
        Err(reply) => Err(reply),
    }
}

/// The segment that a `truncate` is about.
///
/// # Errors
/// What refuses it.
fn for_truncate(accounts: &Accounts, path: &Path) -> Result<u32, Reply>
    ensures leads { IfOk result (Leads accounts.now.nodes path.now) }
    ensures refusal { (s : Flat) → ShowsTree s accounts.now
        → refused_with result ≡ refusal (truncate_reply s path.now) }
{
    match segment_at(accounts, path) {
        Ok(node) => Ok(node.uid),
        Err(reply) => Err(reply),
    }
}

/// The directory or segment that a `delete` is about.
///
/// # Errors
/// What refuses it.
fn for_delete(accounts: &Accounts, path: &Path) -> Result<u32, Reply>
    ensures leads { IfOk result (Leads accounts.now.nodes path.now) }
    ensures refusal { (s : Flat) → ShowsTree s accounts.now
        → refused_with result ≡ refusal (delete_reply s path.now) }
{
    let node = match branch_at(accounts, path) {
        Ok(node) => node,
        Err(reply) => return Err(reply),
    };
    if accounts.may_remove(node.uid).is_err() {
        Err(Reply::NotEmpty)
    } else if quota_of(accounts, node) == 0 {
        Ok(node.uid)
    } else {
        Err(Reply::HasQuota)
    }
}

/// A command that is about no node, unless this refuses it.
fn unless_refused(refused: Option<Reply>) -> Result<u32, Reply>
    ensures { refused_with result ≡ refused }
{
    match refused {
        Some(reply) => Err(reply),
        None => Ok(0),
    }
}

impl<D: Drive> Store<D> {
    /// The segment that a `length` is about.
    ///
    /// # Errors
    /// What refuses it.
    fn for_length(&self, path: &Path, pages: u32) -> Result<u32, Reply>
        requires still { self.now.segs.moving ≡ None }
        ensures leads { IfOk result (Leads self.now.accounts.nodes path.now) }
        ensures refusal { (p : Plan) (s : Flat) → Shows D.pages p s self.now
            → refused_with result ≡ refusal (length_reply s path.now pages) }
    {
        match segment_at(self.accounts(), path) {
            Ok(node) => {
                if self.stores_from(node.uid, pages) {
                    Err(Reply::Beyond)
                } else {
                    Ok(node.uid)
                }
            }
            Err(reply) => Err(reply),
        }
    }

    /// The node that a tree command of a process is about, if it is one that must have something out of use, or
    /// something brought, before it takes effect: an `acl`, a `delete`, a `length` or a `truncate`. Of any other it is
    /// 0. Its path is followed once. (Source: Bensoussan, Clingen and Daley 1972; Organick 1972.)
    ///
    /// # Errors
    /// What refuses the command, as `test` says it.
    pub fn find(&self, process: u32, command: &Command) -> Result<u32, Reply>
        requires still { self.now.segs.moving ≡ None }
        requires process { process < length self.now.segs.links.known }
        requires ranges { is_command (length self.now.segs.pages.volumes.drives) command.now ≡ true }
        ensures about { IfOk result (IsAbout self.now.accounts.nodes command.now) }
        ensures refusal { (p : Plan) (s : Flat) → Shows D.pages p s self.now
            → refused_with result ≡ refusal (reply_to_tree_command p s process command.now) }
    {
        let accounts = self.accounts();
        match command {
            Command::Acl { path, row, .. } => for_acl(accounts, path, row),
            Command::Delete { path } => for_delete(accounts, path),
            Command::Length { path, pages } => self.for_length(path, *pages),
            Command::Truncate { path, .. } => for_truncate(accounts, path),
            _ => unless_refused(self.tree_refusal(process, command)),
        }
    }
}
