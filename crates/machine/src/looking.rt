//! What a look for the next command does that ends at once.

ghost use Rattle.machine_model.specs.Actions.{Answer, GiveUp};
ghost use Rattle.machine.specs.Turns.{IsTurn, MayDo};

use crate::machine::Machine;
use crate::turn::Turn;
use book::Reply;
use site_io::Point;
use volumes::Drive;

impl<D: Drive> Machine<D> {
    /// The owner's look finds what refuses the next command of its process: processor `c` answers it and gives the
    /// supervisor up. (Source: own.)
    pub(crate) fn refuse(&mut self, c: u32, reply: Reply) -> Turn
        requires { MayDo self.old.state c (Answer reply) }
        ensures { IsTurn D.plan D.places D.faults self.old self.new c result }
    {
        let process = self.to_answer(c);
        self.tables.tell(c, process, None, reply);
        self.tables.give_up();
        Turn::Moved(Point::Other)
    }

    /// Processor `_c`, which owns the supervisor and found nothing to do, gives it up. (Source: own.)
    pub(crate) fn give_up(&mut self, _c: u32) -> Turn
        requires { MayDo self.old.state _c GiveUp }
        ensures { IsTurn D.plan D.places D.faults self.old self.new _c result }
    {
        self.tables.give_up();
        Turn::Moved(Point::Other)
    }
}
