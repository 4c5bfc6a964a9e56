//! Segments become active, along the chain of superiors of what the next command is about.

ghost use Rattle.dir_tree.specs.Nodes.{chain_of};
ghost use Rattle.machine_model.specs.Actions.{Activate, EmptyVictim};
ghost use Rattle.machine.specs.Turns.{IsTurn, MayDo};

use crate::machine::Machine;
use crate::turn::Turn;
use site_io::Point;
use volumes::Drive;

impl<D: Drive> Machine<D> {
    /// A segment becomes active in the least free place of its pool, for the next command of the process of processor
    /// `c`, which owns the supervisor. It costs a write for each word of the page table. (Source: Bensoussan, Clingen
    /// and Daley 1972; Organick 1972.)
    pub(crate) fn activate(&mut self, c: u32, uid: u32, place: u32) -> Turn
        requires { MayDo self.old.state c (Activate uid place) }
        ensures { IsTurn D.plan D.places D.faults self.old self.new c result }
    {
        let _place = self.tables.activate(uid, uid);
        self.tables.promise();
        Turn::Moved(Point::Other)
    }

    /// Processor `c`, which owns the supervisor, takes what the victim of a full pool has in use, so that it becomes
    /// inactive: the pool has no place for the next segment of the chain of node `of`. The pool's hand moves on.
    /// (Source: Bensoussan, Clingen and Daley 1972; Organick 1972.)
    pub(crate) fn empty_victim(&mut self, c: u32, pool: u32, of: u32, uid: u32) -> Turn
        requires { MayDo self.old.state c (EmptyVictim pool (chain_of self.old.state.store.accounts.nodes of) uid) }
        ensures { IsTurn D.plan D.places D.faults self.old self.new c result }
    {
        self.tables.take_victim(c, of, uid);
        self.tables.promise();
        Turn::Moved(Point::Other)
    }
}
