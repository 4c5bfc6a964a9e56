ghost use Rattle.std.specs.Prelude.{◌≡◌, ◌<◌, ◌≤◌, ◌+◌, ◌^◌, length, Some, None, OnOk, OnErr};
ghost use Rattle.core_map.specs.CoreMap.{frame_at};
ghost use Rattle.core_map.specs.declared.Frame.TheVariants.{Free, Started};
ghost use Rattle.active_segs.specs.Active.{IsActive};
ghost use Rattle.custody_model.specs.Next.{released_by};
ghost use Rattle.page_control.specs.Drives.{CallsDrive};
ghost use Rattle.page_control.specs.Effects.{framed};
ghost use Rattle.seg_control.specs.Control.{table_of};
ghost use Rattle.seg_control.specs.Kept.{IsHomeOf};
ghost use Rattle.machine_model.specs.After.{by_outcome};
ghost use Rattle.machine_model.specs.Reads.{cpu_at, home_in, next_command, processor_at, run_at};
ghost use Rattle.machine_model.specs.Steps.{brought, transfer_failed, transferred, with_faults, with_pages, with_store};
ghost use Rattle.machine_tables.specs.Parts.{outcome_of, with_drives, with_state};

use crate::committing::look;
use crate::tables::Tables;
use book::{Entry, Reply};
use page_control::Home;
use processor::Transfer;
use site_io::Failed;
use volumes::Drive;

impl<D: Drive> Tables<D> {
    /// The home of an active segment.
    pub(crate) fn home(&self, uid: u32) -> Home
        requires { IsActive self.now.state.store.ast.entries uid }
        ensures home { result ≡ home_in self.now.state.store uid }
        ensures own { IsHomeOf self.now.state.store.pages.vtocs uid result }
    {
        look(&self.store);
        self.store.home(uid)
    }

    /// Reads the page of a transfer into its frame; the frame is free where the drive failed.
    fn read_in(&mut self, transfer: Transfer) -> Result<(), Failed>
        requires active { IsActive self.old.state.store.ast.entries transfer.uid }
        requires page { transfer.page < length (table_of self.old.state.store.ast transfer.uid) }
        requires started { frame_at self.old.state.store.pages.core transfer.frame
            ≡ Started transfer.uid transfer.page }
        ensures ok { OnOk result (self.new ≡ with_drives (with_state self.old
            (with_store self.old.state (brought self.old.state.store transfer))) self.new.drives
            self.new.state.faults) }
        ensures err { OnErr result (self.new ≡ with_drives (with_state self.old
            (with_store self.old.state (with_pages self.old.state.store
            (framed self.old.state.store.pages transfer.frame Free)))) self.new.drives self.new.state.faults) }
        ensures drives { CallsDrive D.plan D.places D.faults self.old.drives self.new.drives
            (home_in self.old.state.store transfer.uid).volume result }
    {
        let home = self.home(transfer.uid);
        self.store
            .end_in(transfer.uid, transfer.page, home, transfer.frame)
    }

    /// The transfer of processor `c` ends: the page is in its frame; or, where the drive failed, the frame is free, and
    /// the process is told of the failure and answered. It costs one read of the drive. (Source: own.)
    ///
    /// # Errors
    /// `Failed` exactly where the drive failed.
    #[inline(never)]
    pub fn end_transfer(&mut self, c: u32, process: u32, transfer: Transfer) -> Result<(), Failed>
        requires processor { c < length self.old.state.processors }
        requires process { (cpu_at self.old.state.processors c).process ≡ Some process }
        requires active { IsActive self.old.state.store.ast.entries transfer.uid }
        requires page { transfer.page < length (table_of self.old.state.store.ast transfer.uid) }
        requires started { frame_at self.old.state.store.pages.core transfer.frame
            ≡ Started transfer.uid transfer.page }
        requires run { process < length self.old.state.runs }
        requires place { (run_at self.old.state.runs process).place + 1 < 2 ^ 32 }
        requires count { (processor_at self.old.state.processors c).count + 1 < 2 ^ 64 }
        requires ready { length self.old.state.ready
            + length (released_by self.old.state.plan process (next_command self.old.state process))
            ≤ self.old.room }
        requires room { 3 ≤ self.old.state.spare }
        ensures state { self.new.state ≡ by_outcome (outcome_of result self.new.state.faults)
            (transferred (with_faults self.old.state self.new.state.faults) c transfer)
            (transfer_failed self.old.state c transfer self.new.state.faults) }
        ensures room { self.new.room ≡ self.old.room }
        ensures drives { CallsDrive D.plan D.places D.faults self.old.drives self.new.drives
            (home_in self.old.state.store transfer.uid).volume result }
    {
        let read = self.read_in(transfer);
        self.processors[c as usize].cpu.transfer = None;
        match read {
            Ok(()) => {
                self.note(Entry::Here {
                    frame: transfer.frame,
                    uid: transfer.uid,
                    page: transfer.page,
                });
            }
            Err(_) => {
                self.note(Entry::Lose {
                    frame: transfer.frame,
                });
                self.tell_fault(Some(process));
                self.tell(c, process, None, Reply::Device);
            }
        }
        read
    }
}
