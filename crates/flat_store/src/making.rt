ghost use Rattle.std.specs.Prelude.{◌≡◌, ◌≢◌, ◌<◌, ℕ, is_some, IfSome, not, true, false};
ghost use Rattle.tree_model.specs.Tree.{Node as Term, has_directory, node_in, quota_in, without_node};
ghost use Rattle.tree_model.specs.Trees.{has_segment};
ghost use Rattle.script.specs.Plans.{Plan};
ghost use Rattle.flat_model.specs.Commands.{takes_effect};
ghost use Rattle.flat_model.specs.Making.{made_in, make_in, make_reply, after_make, delete_reply, after_delete};
ghost use Rattle.flat_model.specs.Naming.{status_reply};
ghost use Rattle.flat_model.specs.Store.{Store};
ghost use Rattle.flat_model.specs.Cuts.{without_branch};
ghost use Rattle.flat_store.specs.Shown.{Holds, IsDeletable, page_at};
ghost use Rattle.dir_tree.specs.Nodes.{has_inferior};

use crate::gauges::{drain_at, fill_at, is_full_at};
use crate::holdings::Holdings;
use acl::Acl;
use book::Reply;
use dir_tree::{NewNode, UIDS};
use mnames::Path;
use tree_commands::{branch_at, make_reply, node_below, quota_of, volume_of};

impl Holdings {
    /// What the making of a directory or a segment is answered.
    pub(crate) fn make_reply(&self, path: &Path, volume: u32, dir: bool) -> Reply
        ensures { (p : Plan) (s : Store) → Holds p self.now s → result ≡ make_reply p s path.now volume dir }
    {
        let full = is_full_at(&self.entries, volume);
        make_reply(&self.accounts, path, dir, full)
    }

    /// Adds a branch to a directory, unless that is refused.
    fn add(&mut self, superior: u32, new: NewNode)
        requires directory { has_directory self.old.accounts.nodes superior ≡ true }
        requires flat { new.dir ≡ true → new.length ≡ 0 }
        ensures { (p : Plan) (s : Store) (d : Term) → Holds p self.old s → d.uid ≡ superior → s.next < 100003
            → takes_effect (make_in p s new.volume new.dir new.name d) ≡ true
            → Holds p self.new (made_in s new.volume new.dir new.length new.acl new.name d) }
    {
        let volume = new.volume;
        if is_full_at(&self.entries, volume) || self.accounts.next_uid() >= UIDS {
            return;
        }
        if self.accounts.add(superior, new).is_ok() {
            fill_at(&mut self.entries, volume);
        }
    }

    /// Makes a directory or a segment, unless that is refused.
    pub(crate) fn make(&mut self, path: &Path, volume: u32, dir: bool, pages: u32, acl: Acl)
        requires { dir ≡ true → pages ≡ 0 }
        ensures { (p : Plan) (s : Store) → Holds p self.old s → s.next < 100003
            → takes_effect (make_reply p s path.now volume dir) ≡ true
            → Holds p self.new (after_make s path.now volume dir pages acl) }
    {
        let Some((above, name)) = path.parts() else {
            return;
        };
        let (superior, is_directory) = match node_below(&self.accounts, above) {
            Ok(node) => (node.uid, node.dir),
            Err(_) => return,
        };
        if is_directory {
            let new = NewNode {
                name: name.copied(),
                dir,
                volume,
                entry: 0,
                length: pages,
                acl,
            };
            self.add(superior, new);
        }
    }

    /// Takes out a node without inferior, quota and stored pages.
    fn take_out(&mut self, uid: u32)
        requires there { is_some (node_in self.old.accounts.nodes uid) ≡ true }
        requires branch { uid ≢ 1 }
        requires empty { has_inferior self.old.accounts.nodes uid ≡ false }
        requires quota { quota_in self.old.accounts.nodes uid ≡ 0 }
        requires pages { (page : ℕ) → is_some (page_at self.old.pages uid page) ≡ false }
        ensures { (p : Plan) (s : Store) → Holds p self.old s
            → Holds p self.new (record s { nodes = without_node s.nodes uid }) }
    {
        self.accounts.promise();
        let volume = volume_of(&self.accounts, uid);
        self.accounts.remove(uid);
        drain_at(&mut self.entries, volume, 1);
    }

    /// The uid of the directory or the segment that a path leads to, where it may be deleted.
    fn deletable(&self, path: &Path) -> Option<u32>
        ensures some { IfSome result (λ uid. IsDeletable self.now.accounts.nodes uid) }
        ensures effect { (s : Store) → s.nodes ≡ self.now.accounts.nodes
            → takes_effect (delete_reply s path.now) ≡ true → after_delete s path.now ≡ without_branch s result }
    {
        let node = match branch_at(&self.accounts, path) {
            Ok(node) => node,
            Err(_) => return None,
        };
        if self.accounts.may_remove(node.uid).is_err() {
            return None;
        }
        if quota_of(&self.accounts, node) != 0 {
            return None;
        }
        Some(node.uid)
    }

    /// Deletes a directory or a segment, with its pages, unless that is refused.
    pub(crate) fn delete(&mut self, path: &Path)
        ensures { (p : Plan) (s : Store) → Holds p self.old s → takes_effect (delete_reply s path.now) ≡ true
            → Holds p self.new (after_delete s path.now) }
    {
        let _ = &self.accounts;
        if let Some(uid) = self.deletable(path) {
            self.drop_from(uid, 0);
            self.take_out(uid);
        }
    }
}
