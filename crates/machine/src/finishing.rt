//! What ends with a call of a drive, which may fail.

ghost use Rattle.machine_model.specs.Actions.{EndTransfer, FinishEviction, FinishPage};
ghost use Rattle.machine.specs.Turns.{IsTurn, MayDo};

use crate::machine::Machine;
use crate::turn::Turn;
use processor::Transfer;
use site_io::Point;
use volumes::Drive;

impl<D: Drive> Machine<D> {
    /// The transfer of processor `c` ends: the page is in its frame; or, where the drive failed, the frame is free, and
    /// the process is told of the failure and answered. It costs one read of the drive. (Source: own.)
    pub(crate) fn end_transfer(&mut self, c: u32, transfer: Transfer) -> Turn
        requires { MayDo self.old.state c (EndTransfer transfer) }
        ensures { IsTurn D.plan D.places D.faults self.old self.new c result }
    {
        let process = self.to_answer(c);
        self.tables.promise();
        let _read = self.tables.end_transfer(c, process, transfer);
        self.tables.promise();
        Turn::Moved(Point::Other)
    }

    /// The page in a frame, which processor `c` took to evict it, leaves it, and the owner looks again; or, where the
    /// drive failed, the page is here again, and the process is told of the failure and answered. It costs one write of
    /// the drive at the most. (Source: Bensoussan, Clingen and Daley 1972.)
    pub(crate) fn finish_eviction(&mut self, c: u32, frame: u32) -> Turn
        requires { MayDo self.old.state c (FinishEviction frame) }
        ensures { IsTurn D.plan D.places D.faults self.old self.new c result }
    {
        let process = self.to_answer(c);
        self.tables.promise();
        let _gone = self.tables.finish_eviction(c, process, frame);
        self.tables.promise();
        Turn::Moved(Point::Other)
    }

    /// The page in a frame leaves it that processor `c` took first of a segment's; or, where the drive failed, all that
    /// was taken is here again, and the process is told of the failure and answered. It costs one write of the drive at
    /// the most. (Source: Bensoussan, Clingen and Daley 1972.)
    pub(crate) fn finish_page(&mut self, c: u32, frame: u32) -> Turn
        requires { MayDo self.old.state c (FinishPage frame) }
        ensures { IsTurn D.plan D.places D.faults self.old self.new c result }
    {
        let process = self.to_answer(c);
        self.tables.promise();
        let _gone = self.tables.finish_page(c, process, frame);
        self.tables.promise();
        Turn::Moved(Point::Other)
    }
}
