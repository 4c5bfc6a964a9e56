//! Directories and segments are deleted, and told of.

ghost use Rattle.std.specs.Prelude.{◌≡◌, ◌≢◌, true, false, Some, Ok, None};
ghost use Rattle.tree_model.specs.Tree.{Node as Term, quota_in};
ghost use Rattle.flat_model.specs.Branches.{branch_at};
ghost use Rattle.flat_model.specs.Commands.{takes_effect};
ghost use Rattle.script.specs.Plans.{Plan};
ghost use Rattle.dir_tree.specs.Nodes.{has_inferior};
ghost use Rattle.accounts.specs.Maps.{Recounts};
ghost use Rattle.seg_control.specs.Kept.{IsInactive};
ghost use Rattle.flat_model.specs.Cuts.{without_branch};
ghost use Rattle.flat_model.specs.Making.{after_delete, delete_reply};
ghost use Rattle.flat_model.specs.Naming.{status_reply};
ghost use Rattle.flat_model.specs.Store.{Store as Flat};
ghost use Rattle.active_segs.specs.Active.{IsActive};
ghost use Rattle.page_control.specs.Effects.{erased};
ghost use Rattle.page_control.specs.Plain.{plain};
ghost use Rattle.storage_ops.specs.Shown.{Shows, answered, home_of, is_there, pages_in, refusal};
ghost use Rattle.storage_ops.specs.Cut.{IsRemovable, IsRemovableAt, KeepsRest, TakesOut};
ghost use Rattle.storage_ops.specs.CutOff.{Erases, paged, put_out};

use crate::replies::refusal;
use crate::store::{Store, look};
use accounts::Accounts;
use book::Reply;
use mnames::Path;
use tree_commands::{branch_at, delete_reply, quota_of, status_reply};
use volumes::Drive;

/// Counts no stored page of a node any more, to the credit of its account.
fn uncount(accounts: &mut Accounts, uid: u32)
    requires { is_there accounts.old.nodes uid ≡ true }
    ensures { Recounts accounts.old accounts.new uid 0 }
{
    let dir = match accounts.node(uid) {
        Some(node) => node.dir,
        None => unreachable!(),
    };
    accounts.promise();
    if !dir {
        let pages = accounts.stored(uid);
        accounts.credit(uid, pages);
    }
}

impl<D: Drive> Store<D> {
    /// What refuses the deletion of a directory or a segment: `Root` for the root; what the path leads to; `NotEmpty`
    /// exactly where it has an inferior; else `HasQuota` exactly where it has quota. (Source: Organick 1972.)
    pub fn delete_refusal(&self, path: &Path) -> Option<Reply>
        ensures { (p : Plan) (s : Flat) → Shows D.pages p s self.now → result ≡ refusal (delete_reply s path.now) }
    {
        refusal(delete_reply(&self.accounts, path))
    }

    /// What is told of a directory or a segment, or why its path can't be followed: of a directory its quota, and the
    /// stored pages that it is charged for; of a segment its length, and its stored pages. (Source: Organick 1972.)
    pub fn status(&self, path: &Path) -> Reply
        ensures { (p : Plan) (s : Flat) → Shows D.pages p s self.now → result ≡ status_reply s path.now }
    {
        status_reply(&self.accounts, path)
    }

    /// What refuses a look at a directory or a segment: what the path leads to. (Source: own.)
    pub fn status_refusal(&self, path: &Path) -> Option<Reply>
        ensures { (p : Plan) (s : Flat) → Shows D.pages p s self.now → result ≡ refusal (status_reply s path.now) }
    {
        refusal(status_reply(&self.accounts, path))
    }

    /// Makes a node without inferior inactive, if it was active; its pages are stored no more then.
    fn make_inactive(&mut self, uid: u32)
        requires still { self.old.segs.moving ≡ None }
        requires empty { has_inferior self.old.accounts.nodes uid ≡ false }
        requires ready { IsRemovable self.old.segs uid }
        ensures nodes { self.new.accounts.nodes ≡ self.old.accounts.nodes }
        ensures inactive { IsInactive self.new.segs.ast.entries uid }
        ensures shown { (p : Plan) (s : Flat) → Shows D.pages p s self.old → (t : Flat) × (Shows D.pages p t self.new)
            × (without_branch t (Some uid) ≡ without_branch s (Some uid)) }
        ensures rest { KeepsRest self.old self.new }
        ensures out { TakesOut self.old self.new uid }
        ensures active { IsActive self.old.segs.ast.entries uid
            → paged D.pages self.new uid ≡ put_out (paged D.pages self.old uid) (home_of self.old.accounts uid) uid
            (pages_in self.old.accounts.nodes uid) }
        ensures still { IsInactive self.old.segs.ast.entries uid
            → paged D.pages self.new uid ≡ paged D.pages self.old uid }
        ensures home { home_of self.new.accounts uid ≡ home_of self.old.accounts uid }
    {
        look(&self.segs);
        let Some(place) = self.segs.ast().search(uid) else {
            return;
        };
        self.drop_from(uid, 0);
        self.deactivate(place);
    }

    /// Takes a node out that isn't active and has neither inferior nor quota, with its home and its stored pages.
    fn remove(&mut self, uid: u32)
        requires still { self.old.segs.moving ≡ None }
        requires there { is_there self.old.accounts.nodes uid ≡ true }
        requires branch { uid ≢ 1 }
        requires empty { has_inferior self.old.accounts.nodes uid ≡ false }
        requires quota { quota_in self.old.accounts.nodes uid ≡ 0 }
        requires inactive { IsInactive self.old.segs.ast.entries uid }
        ensures shown { (p : Plan) (s : Flat) → Shows D.pages p s self.old
            → Shows D.pages p (without_branch s (Some uid)) self.new }
        ensures rest { KeepsRest self.old self.new }
        ensures ast { self.new.segs.ast ≡ self.old.segs.ast }
        ensures erased { plain D.pages self.new.segs.pages
            ≡ erased (plain D.pages self.old.segs.pages) (home_of self.old.accounts uid) }
        ensures core { self.new.segs.pages.core ≡ self.old.segs.pages.core }
    {
        self.accounts.promise();
        look(&self.segs);
        let home = self.home(uid);
        uncount(&mut self.accounts, uid);
        self.segs.erase(home);
        self.accounts.remove(uid);
    }

    /// Deletes a directory or a segment, and gives `Done`, or what refuses it. Its stored pages are credited, and its
    /// records and its VTOC entry are free. No descriptor must lead to it, and no reference go through the words of its
    /// pages. (Source: Bensoussan, Clingen and Daley 1972; Organick 1972.)
    pub fn delete(&mut self, path: &Path) -> Reply
        requires still { self.old.segs.moving ≡ None }
        requires ready { IsRemovableAt self.old.accounts self.old.segs path.now }
        ensures answer { (p : Plan) (s : Flat) → Shows D.pages p s self.old → result ≡ delete_reply s path.now }
        ensures effect { (p : Plan) (s : Flat) → Shows D.pages p s self.old
            → Shows D.pages p (answered result s (after_delete s path.now)) self.new }
        ensures rest { KeepsRest self.old self.new }
        ensures out { takes_effect result ≡ true → (n : Term) → branch_at self.old.accounts.nodes path.now ≡ Ok n
            → TakesOut self.old self.new n.uid }
        ensures exact { takes_effect result ≡ true → (n : Term) → branch_at self.old.accounts.nodes path.now ≡ Ok n
            → Erases D.pages self.old self.new n.uid }
    {
        let node = match branch_at(&self.accounts, path) {
            Ok(node) => node,
            Err(reply) => return reply,
        };
        let uid = node.uid;
        if self.accounts.may_remove(uid).is_err() {
            return Reply::NotEmpty;
        }
        if quota_of(&self.accounts, node) > 0 {
            return Reply::HasQuota;
        }
        self.make_inactive(uid);
        self.remove(uid);
        Reply::Done
    }
}
