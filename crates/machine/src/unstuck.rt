//! Which processor goes on.

ghost use Rattle.std.specs.Prelude.{◌≡◌, ◌<◌, IfNone, IfSome, None, length};
ghost use Rattle.machine.specs.Unstuck.{IsDone, IsFirstMover};
ghost use Rattle.machine.specs.Schedules.{would_move};

use crate::machine::Machine;
use machine_tables::Action;
use volumes::Drive;

impl<D: Drive> Machine<D> {
    /// Whether processor `c` does something in its next step.
    fn would_move(&self, c: u32) -> bool
        requires { c < length self.now.state.processors }
        ensures { result ≡ would_move self.now.state c }
    {
        match self.action(c) {
            Action::IsStopped | Action::HasEnded | Action::Waits(_) => false,
            _ => true,
        }
    }

    /// The least processor whose next step does something in the machine as it is. There is none just where the machine
    /// was stopped or every process has ended: the machine is never stuck, whatever steps were made before, in any
    /// order. It finds what processors do in their next steps, one after the other, and takes no memory. (Source: own.)
    pub fn next_to_move(&self) -> Option<u32>
        ensures some { IfSome result (IsFirstMover self.now.state) }
        ensures none { IfNone result (IsDone self.now.state) }
        ensures over { IsDone self.now.state → result ≡ None }
    {
        self.promise();
        let processors = self.tables.book().script().processors();
        for c in 0..processors {
            if self.would_move(c) {
                return Some(c);
            }
        }
        None
    }
}
