//! The command that a process comes to.

ghost use Rattle.std.specs.Prelude.{◌≡◌, ◌<◌, length, true, Some, None, IfSome, IfNone};
ghost use Rattle.script.specs.Forms.{IsPlan, is_command};
ghost use Rattle.machine_model.specs.Reads.{next_command};
ghost use Rattle.machine_tables.specs.Meant.{refers};

use crate::answering::command_at;
use crate::tables::Tables;
use script::{Command, Reference};
use volumes::Drive;

impl<D: Drive> Tables<D> {
    /// The command that a process comes to next.
    #[tactic(auto, using(crate::proofs::CommandLaws::if_some_then, crate::proofs::CommandLaws::ranges_of))]
    pub(crate) fn next_command(&self, process: u32) -> Option<&Command>
        requires { process < length self.now.state.runs }
        ensures some { IfSome result (λ c. next_command self.now.state process ≡ Some c.now) }
        ensures none { IfNone result (next_command self.now.state process ≡ None) }
        ensures plan { IsPlan self.now.state.plan }
        ensures ranges { IfSome result (λ c. is_command (length self.now.state.plan.volumes) c.now ≡ true) }
    {
        let _count = self.book.script().processes();
        let run = self.runs[process as usize];
        command_at(self.book.script(), process, run.place)
    }

    /// The reference that a process comes to next, if its next command makes one.
    pub(crate) fn next_reference(&self, process: u32) -> Option<Reference>
        requires { process < length self.now.state.runs }
        ensures reference { result ≡ refers (next_command self.now.state process) }
        ensures number { IfSome result (λ r. r.number < 256) }
    {
        self.next_command(process)?.reference()
    }
}
