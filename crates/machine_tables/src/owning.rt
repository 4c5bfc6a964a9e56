//! What the owner of the supervisor does next, by the phase of its job.

ghost use Rattle.std.specs.Prelude.{◌≡◌, ◌≤◌, ℕ, IfNone, length, position};
ghost use Rattle.active_segs.specs.Active.{IsActive};
ghost use Rattle.seg_mover.specs.declared.Mover.{Mover};
ghost use Rattle.seg_control.specs.Control.{table_of};
ghost use Rattle.machine_model.specs.Actions.{finish_of, go_on_with, once_cleared};
ghost use Rattle.machine_model.specs.Reads.{cut_of_owner, frames_of_owner, is_due};
ghost use Rattle.machine_model.specs.declared.Phase.TheVariants.{Looking, Moving};
ghost use Rattle.machine_tables.specs.Meant.{meant, or_look};
ghost use Rattle.machine_tables.specs.Owned.{HasOwner, owner_by};

use crate::action::{Action, Why};
use crate::owner::Holder;
use crate::tables::Tables;
use machine_model::{Aim, Phase, Processor};
use volumes::Drive;

/// Whether a processor is to drop something.
fn is_due(processor: &Processor) -> bool
    ensures { result ≡ is_due processor.now }
{
    processor.cpu.online && processor.cpu.due.is_some()
}

/// The first processor that is to drop something.
fn first_due(processors: &[Processor]) -> Option<usize>
    ensures { result ≡ position is_due processors.now }
{
    processors.iter().position(|processor| is_due(processor))
}

impl<D: Drive> Tables<D> {
    /// The first processor that is to drop something.
    fn first_due(&self) -> Option<u32>
        requires { length self.now.state.processors ≡ self.now.state.plan.processors }
        ensures { result ≡ position is_due self.now.state.processors }
    {
        let _most = self.book.script().processors();
        Some(first_due(&self.processors)? as u32)
    }

    /// What the owner does once every processor has cleared: the next page that it took leaves its frame, or what it is
    /// after is done.
    fn finish(&self, aim: Aim) -> Action
        requires { HasOwner self.now.state.owner }
        ensures { (k : ℕ) → meant self.now.state k result
            ≡ finish_of aim (frames_of_owner self.now.state.owner) }
    {
        match (aim, self.job.first_frame()) {
            (Aim::Evicting, None) => Action::GiveUp,
            (Aim::Evicting, Some(frame)) => Action::FinishEviction(frame),
            (Aim::Deactivating { uid }, None) => Action::Deactivate(uid),
            (Aim::Deactivating { .. }, Some(frame)) => Action::FinishPage(frame),
            (Aim::Committing, _) => Action::Commit,
        }
    }

    /// What the owner does that has signalled: it waits until every processor has cleared.
    fn await_clears(&self, aim: Aim) -> Action
        requires count { length self.now.state.processors ≡ self.now.state.plan.processors }
        requires owner { HasOwner self.now.state.owner }
        ensures { (k : ℕ) → meant self.now.state k result ≡ once_cleared (position is_due self.now.state.processors)
            (finish_of aim (frames_of_owner self.now.state.owner)) }
    {
        match self.first_due() {
            Some(cpu) => Action::Waits(Why::ForClear(cpu)),
            None => self.finish(aim),
        }
    }

    /// What the owner does next by the phase of its job; `None` exactly where it is to look.
    pub(crate) fn go_on(&self, holder: Holder) -> Option<Action>
        requires count { length self.now.state.processors ≡ self.now.state.plan.processors }
        requires owner { HasOwner self.now.state.owner }
        requires moves { (m : Mover) → holder.phase ≡ Moving m → IsActive self.now.state.store.ast.entries m.uid }
        requires short { (m : Mover) → holder.phase ≡ Moving m
            → length (table_of self.now.state.store.ast m.uid) ≤ 256 }
        ensures looking { IfNone result (holder.phase ≡ Looking) }
        ensures rule { (k : ℕ) → or_look self.now.state k result ≡ go_on_with self.now.state k
            (owner_by holder (frames_of_owner self.now.state.owner) (cut_of_owner self.now.state.owner)) holder.phase }
    {
        match holder.phase {
            Phase::Looking => None,
            Phase::Taken { what, .. } => Some(Action::Signal(what)),
            Phase::Waiting { aim, .. } => Some(self.await_clears(aim)),
            Phase::Moving { mover } => Some(self.move_on(mover)),
        }
    }
}
