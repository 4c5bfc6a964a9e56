//! What the owner of the supervisor does: it takes pages and descriptors, has the other processors drop them, and lets
//! them go.

ghost use Rattle.core_map.specs.Clock.{clock_choice};
ghost use Rattle.machine_model.specs.Actions.{Connect, Deactivate, Empty, Evict, Signal, Start, TakeSupervisor};
ghost use Rattle.machine_model.specs.Reads.{or_zero};
ghost use Rattle.machine.specs.Turns.{IsTurn, MayDo};

use crate::machine::Machine;
use crate::turn::Turn;
use assoc_mem::What;
use site_io::Point;
use volumes::Drive;

impl<D: Drive> Machine<D> {
    /// Processor `c` owns the supervisor from now on, and looks. (Source: own.)
    pub(crate) fn take_supervisor(&mut self, c: u32) -> Turn
        requires { MayDo self.old.state c TakeSupervisor }
        ensures { IsTurn D.plan D.places D.faults self.old self.new c result }
    {
        self.tables.take_supervisor(c);
        Turn::Moved(Point::Other)
    }

    /// Processor `c` drops what is named and has the others that take part drop it. The owner's job waits for them.
    /// (Source: Bensoussan, Clingen and Daley 1972.)
    pub(crate) fn signal(&mut self, c: u32, what: What) -> Turn
        requires { MayDo self.old.state c (Signal what) }
        ensures { IsTurn D.plan D.places D.faults self.old self.new c result }
    {
        self.tables.signal(c, what);
        Turn::Moved(Point::Signalled)
    }
}

impl<D: Drive> Machine<D> {
    /// Processor `c` reads page `p` of an active segment into the free frame `f` from now on, and gives the supervisor
    /// up. (Source: own.)
    pub(crate) fn start(&mut self, c: u32, f: u32, uid: u32, p: u32) -> Turn
        requires { MayDo self.old.state c (Start f uid p) }
        ensures { IsTurn D.plan D.places D.faults self.old self.new c result }
    {
        self.tables.start(c, f, uid, p);
        self.tables.promise();
        Turn::Moved(Point::Other)
    }

    /// A number of the process of processor `c`, which owns the supervisor, leads to an active segment, with the mode
    /// of the process's access and the length of the segment. (Source: Bensoussan, Clingen and Daley 1972; Organick
    /// 1972.)
    pub(crate) fn connect(&mut self, c: u32, number: u32, uid: u32) -> Turn
        requires { MayDo self.old.state c (Connect number uid) }
        ensures { IsTurn D.plan D.places D.faults self.old self.new c result }
    {
        let process = self.busy(c);
        self.tables.connect(c, process, number, uid);
        self.tables.promise();
        Turn::Moved(Point::Other)
    }
}

impl<D: Drive> Machine<D> {
    /// Processor `c`, which owns the supervisor, makes a segment inactive of which everything was taken, and looks
    /// again: the descriptors that it cut are gone. (Source: Bensoussan, Clingen and Daley 1972; Organick 1972.)
    pub(crate) fn deactivate(&mut self, c: u32, uid: u32) -> Turn
        requires { MayDo self.old.state c (Deactivate uid) }
        ensures { IsTurn D.plan D.places D.faults self.old self.new c result }
    {
        self.tables.deactivate(c, uid);
        self.tables.promise();
        Turn::Moved(Point::Other)
    }

    /// Processor `c`, which owns the supervisor, takes the page in the frame that the clock chooses. (Source: Corbató
    /// 1968.)
    pub(crate) fn evict(&mut self, c: u32) -> Turn
        requires { MayDo self.old.state c (Evict (or_zero (clock_choice self.old.state.store.pages.core))) }
        ensures { IsTurn D.plan D.places D.faults self.old self.new c result }
    {
        let _f = self.tables.evict(c);
        self.tables.promise();
        Turn::Moved(Point::Other)
    }

    /// Processor `c`, which owns the supervisor, takes the pages of an active segment that are here, 256 at the most,
    /// and cuts the descriptors that lead to it, one of each of 32 processes at the most, so that it becomes inactive;
    /// where there are none it is inactive at once. (Source: Bensoussan, Clingen and Daley 1972; Organick 1972.)
    pub(crate) fn empty(&mut self, c: u32, uid: u32) -> Turn
        requires { MayDo self.old.state c (Empty uid) }
        ensures { IsTurn D.plan D.places D.faults self.old self.new c result }
    {
        self.tables.empty(c, uid);
        self.tables.promise();
        Turn::Moved(Point::Other)
    }
}
