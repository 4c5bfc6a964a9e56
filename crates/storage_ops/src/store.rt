ghost use Rattle.std.specs.Prelude.{◌≡◌, ◌<◌, length, map, None, true};
ghost use Rattle.page_control.specs.Plain.{plain};
ghost use Rattle.seg_control.specs.Kept.{IsHomeOf, IsKept};
ghost use Rattle.storage_ops.specs.Shown.{IsStore, home_of, is_there};
ghost use Rattle.volumes.specs.Volumes.{HasParts};

use accounts::Accounts;
use mnames::Who;
use page_control::Home;
use seg_control::Segs;
use std::marker::Model;
use volumes::{Drive, Volumes};

/// The directory tree with its accounts, over segment control on drives of one kind, and for whom each process runs
/// (Bensoussan, Clingen and Daley 1972; Organick 1972).
///
/// Between calls each node has a VTOC entry of its own, the file maps name as many pages as the accounts count, the
/// records and entries in use are those of the nodes, what is active is in the tree, and a connected descriptor has the
/// mode of its process's access (`IsStore`).
#[derive(Drop)]
pub struct Store<D: Drive> {
    pub(crate) accounts: Accounts,
    pub(crate) segs: Segs<D>,
    pub(crate) whos: Vec<Who>,
}

impl<D: Drive> Model for Store<D> {
    ghost use Rattle.page_control.specs.Plain.{plain};
    ghost use Rattle.storage_ops.specs.Shown.{Storage, IsStore};

    ghost Value = { Storage D };

    ghost view = { λ s. record { accounts = s.accounts; segs = s.segs; whos = s.whos.items } };

    ghost invariant = { λ s. IsStore (plain D.pages s.segs.pages) s.segs.ast s.segs.links s.accounts s.whos.items };
}

impl<D: Drive> Store<D> {
    /// The directory tree with its accounts. What is true of the store between calls is told here. (Source: own.)
    pub fn accounts(&self) -> &Accounts
        ensures accounts { result.now ≡ self.now.accounts }
        ensures store { IsStore (plain D.pages self.now.segs.pages) self.now.segs.ast self.now.segs.links
            self.now.accounts self.now.whos }
    {
        &self.accounts
    }

    /// Segment control. (Source: own.)
    pub fn segs(&self) -> &Segs<D>
        ensures segs { result.now ≡ self.now.segs }
        ensures store { IsStore (plain D.pages self.now.segs.pages) self.now.segs.ast self.now.segs.links
            self.now.accounts self.now.whos }
    {
        &self.segs
    }

    /// For whom each process runs, in their order. (Source: own.)
    pub fn whos(&self) -> &[Who]
        ensures whos { result.now ≡ self.now.whos }
    {
        &self.whos
    }

    /// The home of a node: its one home, as the calls that read and empty frames ask. (Source: own.)
    #[tactic(auto, using(flat_model::proofs::NodeLaws::volume_found))]
    pub fn home(&self, uid: u32) -> Home
        requires { is_there self.now.accounts.nodes uid ≡ true }
        ensures home { result ≡ home_of self.now.accounts uid }
        ensures volume { result.volume < length self.now.segs.pages.volumes.drives }
        ensures own { IsHomeOf self.now.segs.pages.volumes.vtocs uid result }
    {
        look(&self.segs);
        match self.accounts.node(uid) {
            Some(node) => Home {
                volume: node.volume,
                entry: node.entry,
            },
            None => unreachable!(),
        }
    }
}

/// What is true between calls of segment control, and of the volumes below it, is told here.
pub(crate) fn look<D: Drive>(segs: &Segs<D>)
    ensures kept { IsKept (plain D.pages segs.now.pages) segs.now.ast segs.now.links }
    ensures parts { HasParts (map D.pages segs.now.pages.volumes.drives) segs.now.pages.volumes.records
        segs.now.pages.volumes.vtocs }
{
    let _pages = segs.pages();
}

/// The volumes, while no segment moves.
pub(crate) fn volumes_at_rest<D: Drive>(segs: &Segs<D>) -> &Volumes<D>
    requires { segs.now.moving ≡ None }
    ensures { result.now ≡ segs.now.pages.volumes }
{
    segs.pages().volumes()
}
