ghost use Rattle.std.specs.Prelude.{◌≡◌, ◌<◌, length, Some, None};
ghost use Rattle.active_segs.specs.Active.{IsActive};
ghost use Rattle.known_segs.specs.Known.{uid_of};
ghost use Rattle.seg_control.specs.Control.{kst_at, leads_at};
ghost use Rattle.storage_ops.specs.Connecting.{IsRight};
ghost use Rattle.machine_model.specs.Reads.{cpu_at, length_in, mode_in};
ghost use Rattle.machine_model.specs.Steps.{connected_to};
ghost use Rattle.machine_tables.specs.Parts.{with_state};

use crate::committing::look;
use crate::tables::Tables;
use book::Entry;
use mnames::Mode;
use volumes::Drive;

impl<D: Drive> Tables<D> {
    /// The mode of a process's access to an active segment, and the length of the segment.
    fn right(&self, process: u32, uid: u32) -> (Mode, u32)
        requires process { process < length self.now.state.store.links.known }
        requires active { IsActive self.now.state.store.ast.entries uid }
        ensures mode { result.0 ≡ mode_in self.now.state.store process uid }
        ensures pages { result.1 ≡ length_in self.now.state.store uid }
        ensures right { IsRight self.now.state.store.accounts.nodes self.now.state.store.whos process uid
            result.0 result.1 }
    {
        look(&self.store);
        self.store.right(process, uid)
    }

    /// A number of the process of processor `c` leads to an active segment, with the mode of the process's access and
    /// the length of the segment. (Source: Bensoussan, Clingen and Daley 1972; Organick 1972.)
    #[inline(never)]
    pub fn connect(&mut self, c: u32, process: u32, number: u32, uid: u32)
        requires process { (cpu_at self.old.state.processors c).process ≡ Some process }
        requires knows { process < length self.old.state.store.links.known }
        requires active { IsActive self.old.state.store.ast.entries uid }
        requires known { uid_of (kst_at self.old.state.store.links.known process) number ≡ Some uid }
        requires cut { leads_at self.old.state.store.links.descriptors process number ≡ None }
        requires room { 0 < self.old.state.spare }
        ensures { self.new ≡ with_state self.old (connected_to self.old.state c number uid) }
    {
        let (mode, pages) = self.right(process, uid);
        self.store.connect(process, number, uid, mode, pages);
        self.note(Entry::Connect {
            process,
            number,
            uid,
        });
    }
}
