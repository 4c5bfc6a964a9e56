//! Directories and segments are made.

ghost use Rattle.std.specs.Prelude.{◌≡◌, ◌<◌, ◌≤◌, ℕ, true, false, nat_le, length, ◌∷◌, [], None};
ghost use Rattle.tree_model.specs.Tree.{Node as Term, has_directory, entries_on};
ghost use Rattle.dir_tree.specs.Nodes.{maker_rows};
ghost use Rattle.script.specs.Plans.{Plan, who_of};
ghost use Rattle.flat_model.specs.Making.{after_make, made_in, make_in, make_reply, owner_row};
ghost use Rattle.flat_model.specs.Store.{Store as Flat, entries_of};
ghost use Rattle.flat_model.specs.Commands.{takes_effect};
ghost use Rattle.storage_ops.specs.CutOff.{TakesHome};
ghost use Rattle.storage_ops.specs.Shown.{Shows, answered, refusal, with_vtocs};

use crate::replies::refusal;
use crate::store::{Store, look, volumes_at_rest};
use book::Reply;
use dir_tree::{AddFault, NewBranch};
use mnames::{Path, Who};
use tree_commands::{make_reply, node_below};
use volumes::Drive;

impl<D: Drive> Store<D> {
    /// Whether the VTOC entries of a volume are all in use.
    fn has_no_entry(&self, volume: u32) -> bool
        requires still { self.now.segs.moving ≡ None }
        requires volume { volume < length self.now.segs.pages.volumes.drives }
        ensures { (p : Plan) (s : Flat) → Shows D.pages p s self.now
            → result ≡ nat_le (entries_of p volume) (entries_on s.nodes volume) }
    {
        let vtoc = volumes_at_rest(&self.segs).vtoc(volume);
        vtoc.size() <= vtoc.used()
    }

    /// What refuses the making of a directory: `Exists` for the root, which is there; what the path above leads to,
    /// which must be a directory; `Exists` where it has a branch of this name; `Deep` where a directory would lie below
    /// eight others and the root; `Room` where there are 4096 branches; else `NoEntry` exactly where the VTOC entries
    /// of the volume are all in use. (Source: Bensoussan, Clingen and Daley 1972; Organick 1972.)
    pub fn make_dir_refusal(&self, path: &Path, volume: u32) -> Option<Reply>
        requires still { self.now.segs.moving ≡ None }
        requires volume { volume < length self.now.segs.pages.volumes.drives }
        ensures { (p : Plan) (s : Flat) → Shows D.pages p s self.now
            → result ≡ refusal (make_reply p s path.now volume true) }
    {
        let full = self.has_no_entry(volume);
        refusal(make_reply(&self.accounts, path, true, full))
    }

    /// What refuses the making of a segment: the same as of a directory, but for `Deep`. (Source: Bensoussan, Clingen
    /// and Daley 1972; Organick 1972.)
    pub fn make_seg_refusal(&self, path: &Path, volume: u32) -> Option<Reply>
        requires still { self.now.segs.moving ≡ None }
        requires volume { volume < length self.now.segs.pages.volumes.drives }
        ensures { (p : Plan) (s : Flat) → Shows D.pages p s self.now
            → result ≡ refusal (make_reply p s path.now volume false) }
    {
        let full = self.has_no_entry(volume);
        refusal(make_reply(&self.accounts, path, false, full))
    }

    /// Makes a directory or a segment in a directory, unless that is refused.
    fn make_branch(&mut self, superior: u32, new: NewBranch) -> Reply
        requires still { self.old.segs.moving ≡ None }
        requires directory { has_directory self.old.accounts.nodes superior ≡ true }
        requires volume { new.volume < length self.old.segs.pages.volumes.drives }
        requires uids { self.old.accounts.next < 100003 }
        requires most { new.length ≤ 256 }
        requires flat { new.dir ≡ true → new.length ≡ 0 }
        ensures answer { (p : Plan) (s : Flat) (d : Term) → Shows D.pages p s self.old → d.uid ≡ superior
            → result ≡ make_in p s new.volume new.dir new.name d }
        ensures effect { (p : Plan) (s : Flat) (d : Term) → Shows D.pages p s self.old → d.uid ≡ superior
            → Shows D.pages p
            (answered result s (made_in s new.volume new.dir new.length (maker_rows new.maker) new.name d)) self.new }
        ensures home { takes_effect result ≡ true → TakesHome D.pages self.old self.new new.volume }
        ensures rest { self.new ≡ record self.old {
          accounts = self.new.accounts;
          segs = with_vtocs self.old.segs self.new.segs.pages.volumes.vtocs;
        } }
    {
        look(&self.segs);
        match self.accounts.may_add(superior, &new.name, new.dir) {
            Ok(()) => {}
            Err(AddFault::Exists) => return Reply::Exists,
            Err(AddFault::Deep) => return Reply::Deep,
            Err(AddFault::Room) => return Reply::Room,
        }
        let uid = self.accounts.next_uid();
        let Some(entry) = self.segs.new_home(new.volume, uid) else {
            return Reply::NoEntry;
        };
        Reply::Made(self.accounts.attach(superior, NewBranch { entry, ..new }))
    }

    /// Makes a directory, which has no maker, or a segment, and gives `Made` with its uid, or what refuses it.
    fn make(&mut self, path: &Path, volume: u32, dir: bool, pages: u32, maker: Option<Who>) -> Reply
        requires still { self.old.segs.moving ≡ None }
        requires volume { volume < length self.old.segs.pages.volumes.drives }
        requires uids { self.old.accounts.next < 100003 }
        requires most { pages ≤ 256 }
        requires flat { dir ≡ true → pages ≡ 0 }
        ensures answer { (p : Plan) (s : Flat) → Shows D.pages p s self.old
            → result ≡ make_reply p s path.now volume dir }
        ensures effect { (p : Plan) (s : Flat) → Shows D.pages p s self.old
            → Shows D.pages p (answered result s (after_make s path.now volume dir pages (maker_rows maker)))
            self.new }
        ensures home { takes_effect result ≡ true → TakesHome D.pages self.old self.new volume }
        ensures rest { self.new ≡ record self.old {
          accounts = self.new.accounts;
          segs = with_vtocs self.old.segs self.new.segs.pages.volumes.vtocs;
        } }
    {
        let Some((above, name)) = path.parts() else {
            return Reply::Exists;
        };
        let superior = match node_below(&self.accounts, above) {
            Ok(node) => {
                if !node.dir {
                    return Reply::NotDir;
                }
                node.uid
            }
            Err(reply) => return reply,
        };
        let new = NewBranch {
            name: name.copied(),
            dir,
            volume,
            entry: 0,
            length: pages,
            maker,
        };
        self.make_branch(superior, new)
    }

    /// Makes a directory with quota 0 on a volume, and gives `Made` with its uid, or what refuses it. (Source:
    /// Bensoussan, Clingen and Daley 1972; Organick 1972.)
    pub fn make_dir(&mut self, path: &Path, volume: u32) -> Reply
        requires still { self.old.segs.moving ≡ None }
        requires volume { volume < length self.old.segs.pages.volumes.drives }
        requires uids { self.old.accounts.next < 100003 }
        ensures answer { (p : Plan) (s : Flat) → Shows D.pages p s self.old
            → result ≡ make_reply p s path.now volume true }
        ensures effect { (p : Plan) (s : Flat) → Shows D.pages p s self.old
            → Shows D.pages p (answered result s (after_make s path.now volume true 0 [])) self.new }
        ensures home { takes_effect result ≡ true → TakesHome D.pages self.old self.new volume }
        ensures rest { self.new ≡ record self.old {
          accounts = self.new.accounts;
          segs = with_vtocs self.old.segs self.new.segs.pages.volumes.vtocs;
        } }
    {
        self.make(path, volume, true, 0, None)
    }

    /// Makes a segment of so many pages on a volume, of which none is stored, and which the process's principal may
    /// read and write. It gives `Made` with its uid, or what refuses it. (Source: Bensoussan, Clingen and Daley 1972;
    /// Organick 1972.)
    pub fn make_seg(&mut self, process: u32, path: &Path, pages: u32, volume: u32) -> Reply
        requires still { self.old.segs.moving ≡ None }
        requires process { process < length self.old.whos }
        requires volume { volume < length self.old.segs.pages.volumes.drives }
        requires uids { self.old.accounts.next < 100003 }
        requires most { pages ≤ 256 }
        ensures answer { (p : Plan) (s : Flat) → Shows D.pages p s self.old
            → result ≡ make_reply p s path.now volume false }
        ensures effect { (p : Plan) (s : Flat) → Shows D.pages p s self.old
            → Shows D.pages p (answered result s
            (after_make s path.now volume false pages (owner_row (who_of p process) ∷ []))) self.new }
        ensures home { takes_effect result ≡ true → TakesHome D.pages self.old self.new volume }
        ensures rest { self.new ≡ record self.old {
          accounts = self.new.accounts;
          segs = with_vtocs self.old.segs self.new.segs.pages.volumes.vtocs;
        } }
    {
        let maker = self.whos[process as usize].copied();
        self.make(path, volume, false, pages, Some(maker))
    }
}
