//! The shutdown: once no process is ready or running the frames are visited, one after the other.

ghost use Rattle.std.specs.Prelude.{◌≡◌, ◌<◌, ◌≤◌, true, false, nat_lt};
ghost use Rattle.machine_model.specs.Actions.{is_over};
ghost use Rattle.machine.specs.Shut.{AllVisited, AreToldBack, HasNoZeros, HasVisited, TellsLoss};
ghost use Rattle.machine.specs.Turns.{Appends, KeepsParts};

use crate::machine::Machine;
use volumes::Drive;

impl<D: Drive> Machine<D> {
    /// The page in the next frame, if there is one, leaves it; it stays where the drive fails, which is told.
    fn visit(&mut self)
        requires over { is_over self.old.state ≡ true }
        requires more { self.old.state.visited < self.old.state.plan.frames }
        requires room { 320 ≤ self.old.state.spare }
        ensures done { HasVisited D.plan D.places D.faults self.old self.new }
        ensures faults { TellsLoss D.faults self.old self.new }
        ensures entries { Appends self.old.state.entries self.new.state.entries 320 }
    {
        self.tables.promise();
        let _visited = self.tables.visit();
        self.tables.promise();
    }

    /// Whether there is a frame that the shutdown hasn't visited.
    fn has_frames(&self) -> bool
        ensures more { result ≡ nat_lt self.now.state.visited self.now.state.plan.frames }
        ensures each { result ≡ false → AllVisited self.now.state }
        ensures told { result ≡ false → AreToldBack self.now.state.plan self.now.state.entries }
        ensures zeros { result ≡ false → HasNoZeros self.now.state }
    {
        let pages = self.tables.store().segs().pages();
        let _frames = pages.frames();
        pages.volumes().promise();
        self.tables.visited() < self.tables.book().script().frames()
    }

    /// The shutdown visits the next frame, from 0 on: the page that is in it leaves it, and stays where the drive
    /// fails, which is told: once at the most, of no process, and only where the drives counted one failure more. False
    /// exactly where every frame was visited; then each has no page, or one of which the book tells why it stayed, and
    /// no stored page is all zeros, so the flat store after the book is settled. (Source: own.)
    pub fn shutdown_step(&mut self) -> bool
        requires ended { is_over self.old.state ≡ true }
        requires room { 320 ≤ self.old.state.spare }
        ensures more { result ≡ nat_lt self.old.state.visited self.old.state.plan.frames }
        ensures visit { result ≡ true → HasVisited D.plan D.places D.faults self.old self.new }
        ensures still { result ≡ false → self.new ≡ self.old }
        ensures each { result ≡ false → AllVisited self.new.state }
        ensures told { result ≡ false → AreToldBack self.new.state.plan self.new.state.entries }
        ensures zeros { result ≡ false → HasNoZeros self.new.state }
        ensures faults { TellsLoss D.faults self.old self.new }
        ensures entries { Appends self.old.state.entries self.new.state.entries 320 }
        ensures kept { KeepsParts D.plan D.places D.faults self.old self.new }
        ensures ended { is_over self.new.state ≡ true }
    {
        if self.has_frames() {
            self.visit();
            true
        } else {
            false
        }
    }
}
