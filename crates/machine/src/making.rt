//! What the owner of the supervisor does for the next command of its process: a page is made; what a tree command must
//! have out of use is taken; or it takes effect.

ghost use Rattle.machine_model.specs.Actions.{Commit, Create};
ghost use Rattle.machine_model.specs.Reads.{next_command, process_at};
ghost use Rattle.machine_tables.specs.Meant.{taken_for};
ghost use Rattle.machine.specs.Turns.{IsTurn, MayDo};

use crate::machine::Machine;
use crate::turn::Turn;
use script::Reference;
use site_io::Point;
use volumes::Drive;

impl<D: Drive> Machine<D> {
    /// Processor `c`, which owns the supervisor, makes page `page` of an active segment in the free frame `frame`, all
    /// zeros but the word that the reference of its process leaves there, answers it, and gives the supervisor up. The
    /// account of the segment is charged for the page. (Source: Organick 1972.)
    pub(crate) fn create(
        &mut self,
        c: u32,
        frame: u32,
        uid: u32,
        page: u32,
        reference: Reference,
    ) -> Turn
        requires { MayDo self.old.state c (Create frame uid page reference) }
        ensures { IsTurn D.plan D.places D.faults self.old self.new c result }
    {
        let process = self.to_answer(c);
        self.tables.create(c, process, frame, uid, page, reference);
        self.tables.promise();
        Turn::Moved(Point::Other)
    }

    /// Processor `c`, which owns the supervisor, takes what the next command of its process must have out of use: the
    /// pages that a `truncate` or a `delete` cuts are on their way out then, and the descriptors are cut that an `acl`,
    /// a `delete`, a `terminate` or an `end` changes. (Source: Bensoussan, Clingen and Daley 1972; Organick 1972.)
    pub(crate) fn take_away(&mut self, c: u32) -> Turn
        requires { MayDo self.old.state c (taken_for self.old.state.store (process_at self.old.state c)
            (next_command self.old.state (process_at self.old.state c))) }
        ensures { IsTurn D.plan D.places D.faults self.old self.new c result }
    {
        let process = self.busy(c);
        self.tables.take_away(c, process);
        self.tables.promise();
        Turn::Moved(Point::Other)
    }
    /// The next command of the process of processor `c`, a tree command that isn't refused, takes effect: what its job
    /// took is gone, the process is answered, and the supervisor is given up. At its end the process leaves the
    /// processor. (Source: Bensoussan, Clingen and Daley 1972; Organick 1972.)
    pub(crate) fn commit(&mut self, c: u32) -> Turn
        requires { MayDo self.old.state c Commit }
        ensures { IsTurn D.plan D.places D.faults self.old self.new c result }
    {
        let process = self.to_answer(c);
        self.tables.volumes();
        self.tables.commit(c, process);
        self.tables.promise();
        Turn::Moved(Point::Other)
    }
}
