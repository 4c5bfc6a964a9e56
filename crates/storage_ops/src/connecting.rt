//! Segments become active, and descriptors are connected to them.

ghost use Rattle.std.specs.Prelude.{◌≡◌, ◌<◌, ℕ, IsSome, None, Some, true, length};
ghost use Rattle.known_segs.specs.Known.{uid_of};
ghost use Rattle.active_segs.specs.Active.{IsActive, uid_at};
ghost use Rattle.seg_control.specs.Control.{kst_at, leads_at, place_of};
ghost use Rattle.seg_control.specs.Effects.{linked, reconnected};
ghost use Rattle.seg_control.specs.Kept.{MayReconnect};
ghost use Rattle.seg_control.specs.Next.{IsGoing, IsNext};
ghost use Rattle.script.specs.Plans.{Plan};
ghost use Rattle.flat_model.specs.Store.{Store as Flat};
ghost use Rattle.storage_ops.specs.Connecting.{AreRights, HasOneToGo, IsChainDown, IsRight};
ghost use Rattle.storage_ops.specs.Shown.{Shows, is_there};

use crate::store::{Store, look};
use mnames::Mode;
use seg_control::{Link, Next};
use volumes::Drive;

impl<D: Drive> Store<D> {
    /// The mode of a process's access to a node, and the length of the node, in pages: what its descriptor of that node
    /// gets. (Source: Bensoussan, Clingen and Daley 1972.)
    pub fn right(&self, process: u32, uid: u32) -> (Mode, u32)
        requires process { process < length self.now.segs.links.known }
        requires there { is_there self.now.accounts.nodes uid ≡ true }
        ensures { IsRight self.now.accounts.nodes self.now.whos process uid result.0 result.1 }
    {
        let Some(node) = self.accounts.node(uid) else {
            unreachable!();
        };
        let who = &self.whos[process as usize];
        (node.acl.access_of(who), node.length)
    }

    /// A number of a process leads to the page table of the active segment that it stands for, with the mode of the
    /// process's access and the length of the segment, and a trailer leads back. What is shown stays. (Source:
    /// Bensoussan, Clingen and Daley 1972; Organick 1972.)
    pub fn connect(&mut self, process: u32, number: u32, uid: u32, mode: Mode, pages: u32)
        requires process { process < length self.old.segs.links.known }
        requires active { IsActive self.old.segs.ast.entries uid }
        requires known { uid_of (kst_at self.old.segs.links.known process) number ≡ Some uid }
        requires cut { leads_at self.old.segs.links.descriptors process number ≡ None }
        requires right { IsRight self.old.accounts.nodes self.old.whos process uid mode pages }
        ensures effect { self.new ≡ record self.old {
          segs = record self.old.segs {
            links = linked self.old.segs.links process number (place_of self.old.segs.ast.entries uid) mode pages;
          };
        } }
        ensures shown { (p : Plan) (s : Flat) → Shows D.pages p s self.old → Shows D.pages p s self.new }
    {
        look(&self.segs);
        self.segs.connect(process, number, uid, mode, pages);
    }

    /// Connects numbers of processes to the place of the segment that they stand for, in this order, each with the mode
    /// of its process's access and all with the length of the segment. The list is what `cut_all` took. What is shown
    /// stays. (Source: Bensoussan, Clingen and Daley 1972; Organick 1972.)
    pub fn reconnect_all(&mut self, aste: u32, list: &[(u32, u32)], modes: &[Mode], pages: u32)
        requires active { IsSome (uid_at self.old.segs.ast.entries aste) }
        requires modes { length modes.now ≡ length list.now }
        requires list { MayReconnect self.old.segs.links (uid_at self.old.segs.ast.entries aste) list.now }
        requires rights { AreRights self.old.accounts.nodes self.old.whos self.old.segs.ast.entries aste list.now
            modes.now pages }
        ensures effect { self.new ≡ record self.old {
          segs = record self.old.segs {
            links = reconnected self.old.segs.links aste list.now modes.now pages;
          };
        } }
        ensures shown { (p : Plan) (s : Flat) → Shows D.pages p s self.old → Shows D.pages p s self.new }
    {
        self.segs.reconnect_all(aste, list, modes, pages);
    }

    /// Makes the first segment of a chain active that isn't, in the least free place of its pool, with the page table
    /// that its file map tells; or, where its pool is full, tells what has to become inactive first, and the pool's
    /// hand moves on. The chain is that of a node of the tree. What is shown stays. (Source: Bensoussan, Clingen and
    /// Daley 1972; Organick 1972.)
    pub fn activate_next(&mut self, chain: &[Link]) -> Next
        requires still { self.old.segs.moving ≡ None }
        requires chain { IsChainDown self.old.accounts chain.now }
        requires off { HasOneToGo self.old.segs.ast chain.now }
        ensures next { IsNext self.old.segs self.new.segs chain.now result }
        ensures victim { (place : ℕ) → IsGoing self.old.segs.ast chain.now place → result ≡ Next.Victim place }
        ensures rest { self.new ≡ record self.old { segs = self.new.segs } }
        ensures shown { (p : Plan) (s : Flat) → Shows D.pages p s self.old → Shows D.pages p s self.new }
    {
        self.accounts.promise();
        look(&self.segs);
        self.segs.activate_next(chain)
    }
}
