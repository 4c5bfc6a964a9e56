//! A segment whose volume has no free record moves to another volume, a step at a time.

ghost use Rattle.machine_model.specs.Actions.{BeginMove, CommitMove, CopyPage};
ghost use Rattle.machine.specs.Turns.{IsTurn, MayDo};

use crate::machine::Machine;
use crate::turn::Turn;
use seg_mover::Mover;
use site_io::Point;
use volumes::Drive;

impl<D: Drive> Machine<D> {
    /// Processor `c`, which owns the supervisor, begins to move an active segment to a volume that has room for it.
    /// (Source: own.)
    pub(crate) fn begin_move(&mut self, c: u32, uid: u32, volume: u32) -> Turn
        requires { MayDo self.old.state c (BeginMove uid volume) }
        ensures { IsTurn D.plan D.places D.faults self.old self.new c result }
    {
        self.tables.begin_move(c, uid, volume);
        self.tables.promise();
        Turn::Moved(Point::Other)
    }

    /// Processor `c` copies the next page of the segment that it moves. Where one of the two drives failed, what the
    /// move has taken is given back, and the process is told of the failure and answered. It costs a read of the one
    /// drive and a write of the other. (Source: own.)
    pub(crate) fn copy_page(&mut self, c: u32, mover: Mover, page: u32) -> Turn
        requires { MayDo self.old.state c (CopyPage mover page) }
        ensures { IsTurn D.plan D.places D.faults self.old self.new c result }
    {
        let process = self.to_answer(c);
        self.tables.promise();
        let _copied = self.tables.copy_page(c, process, mover, page);
        self.tables.promise();
        Turn::Moved(Point::Other)
    }

    /// The segment that processor `c` moves has its home on the other volume, which is booked, and the owner looks
    /// again. (Source: own.)
    pub(crate) fn commit_move(&mut self, c: u32, mover: Mover) -> Turn
        requires { MayDo self.old.state c (CommitMove mover) }
        ensures { IsTurn D.plan D.places D.faults self.old self.new c result }
    {
        let process = self.busy(c);
        self.tables.commit_move(c, process, mover);
        self.tables.promise();
        Turn::Moved(Point::Other)
    }
}
