//! What the owner of the supervisor does that looks for what the next command of its process wants.

ghost use Rattle.std.specs.Prelude.{◌≡◌, ◌<◌, length};
ghost use Rattle.machine_model.specs.Actions.{look_of};
ghost use Rattle.machine_model.specs.Reads.{next_command};
ghost use Rattle.machine_tables.specs.Held.{MayLook};
ghost use Rattle.machine_tables.specs.Meant.{meant};

use crate::action::Action;
use crate::tables::Tables;
use volumes::Drive;

impl<D: Drive> Tables<D> {
    /// What the owner does that looks for what the next command of its process wants.
    #[inline(never)]
    #[tactic(auto, using(crate::proofs::CommandLaws::number_small))]
    pub(crate) fn look_for_next(&self, process: u32) -> Action
        requires looks { MayLook self.now.state }
        requires run { process < length self.now.state.runs }
        requires known { process < length self.now.state.store.links.known }
        ensures { meant self.now.state process result
            ≡ look_of self.now.state process (next_command self.now.state process) }
    {
        let Some(command) = self.next_command(process) else {
            return Action::GiveUp;
        };
        match command.reference() {
            Some(reference) => self.look_for_reference(process, reference),
            None => self.look_for_command(process, command),
        }
    }
}
