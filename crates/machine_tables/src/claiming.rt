//! What a tree command must have out of use is taken.

ghost use Rattle.std.specs.Prelude.{◌≡◌, ◌<◌, ◌≤◌, ◌+◌, ℕ, length, true, None};
ghost use Rattle.script.specs.Forms.{is_command};
ghost use Rattle.active_segs.specs.Active.{IsActive};
ghost use Rattle.machine_model.specs.Actions.{descriptors_taken, first_taken, frames_taken};
ghost use Rattle.machine_model.specs.Jobs.{cut_all, take_all, took};
ghost use Rattle.machine_model.specs.Reads.{connected_of, cut_of_owner, frames_of_owner, next_command};
ghost use Rattle.machine_model.specs.State.{Storage};
ghost use Rattle.machine_model.specs.declared.Aim.TheVariants.{Committing};
ghost use Rattle.machine_tables.specs.Claimed.{HasItsSegment, IsNumber, cuts_in, frames_for, needs_segment};
ghost use Rattle.machine_tables.specs.Claimed.{of_segment, pairs_for, took_for, what_for};
ghost use Rattle.machine_tables.specs.Owned.{CanTake, HasOwner};
ghost use Rattle.machine_tables.specs.Parts.{with_state};

use crate::emptying::{first_taken, what_taken};
use crate::tables::Tables;
use assoc_mem::What;
use machine_model::Aim;
use script::Command;
use volumes::Drive;

/// Which descriptors a tree command must have cut (own).
#[derive(Clone, Copy)]
pub(crate) enum Cuts {
    /// None.
    Nothing,
    /// Those that lead to its segment.
    Trailers,
    /// That of this number of its process.
    Number(u32),
    /// Each of its process.
    All,
}

/// What a tree command must have out of use (own).
#[derive(Clone, Copy)]
pub(crate) struct Claim {
    /// Its segment.
    pub uid: u32,
    /// The first of the pages of that which are taken, if any are.
    pub low: Option<u32>,
    /// The descriptors that are cut.
    pub cuts: Cuts,
    /// What is signalled.
    pub what: What,
}

/// A command that isn't there has nothing out of use.
const NOTHING: Claim = Claim {
    uid: 0,
    low: None,
    cuts: Cuts::Nothing,
    what: What::All,
};

/// Which descriptors a tree command must have cut.
#[tactic(auto, using(crate::proofs::ClaimLaws::terminate_small))]
fn cuts_of(command: &Command) -> Cuts
    ensures taken { (st : Storage) (k uid : ℕ) → cuts_in st k uid result ≡ descriptors_taken st k uid command.now }
    ensures segment { (x : Claim) → x.low ≡ first_taken command.now → x.cuts ≡ result
        → needs_segment x ≡ true → of_segment command.now ≡ true }
    ensures number { (volumes : ℕ) → is_command volumes command.now ≡ true → IsNumber result }
{
    match command {
        Command::Acl { .. } => Cuts::Trailers,
        Command::Delete { .. } => Cuts::Trailers,
        Command::Terminate { number } => Cuts::Number(*number),
        Command::End => Cuts::All,
        _ => Cuts::Nothing,
    }
}

impl<D: Drive> Tables<D> {
    /// What the next command of a process must have out of use.
    #[tactic(auto, using(flat_model::proofs::ScriptLaws::command_planned))]
    fn claim(&self, process: u32) -> Claim
        requires run { process < length self.now.state.runs }
        requires knows { process < length self.now.state.store.links.known }
        requires segment { HasItsSegment self.now.state.store process (next_command self.now.state process) }
        ensures frames { frames_taken self.now.state.store result.uid result.low
            ≡ frames_for self.now.state.store process (next_command self.now.state process) }
        ensures pairs { cuts_in self.now.state.store process result.uid result.cuts
            ≡ pairs_for self.now.state.store process (next_command self.now.state process) }
        ensures what { result.what ≡ what_for self.now.state.store process (next_command self.now.state process) }
        ensures active { needs_segment result ≡ true → IsActive self.now.state.store.ast.entries result.uid }
        ensures number { IsNumber result.cuts }
    {
        let Some(command) = self.next_command(process) else {
            return NOTHING;
        };
        let uid = self.uid_of_command(process, command);
        Claim {
            uid,
            low: first_taken(command),
            cuts: cuts_of(command),
            what: what_taken(uid, command),
        }
    }

    /// The owner takes the pages that a claim names.
    fn take_claimed(&mut self, c: u32, claim: Claim)
        requires still { self.old.state.store.moving ≡ None }
        requires active { needs_segment claim ≡ true → IsActive self.old.state.store.ast.entries claim.uid }
        requires owner { HasOwner self.old.state.owner }
        requires few { length (frames_of_owner self.old.state.owner)
            + length (frames_taken self.old.state.store claim.uid claim.low) ≤ 256 }
        requires room { length (frames_taken self.old.state.store claim.uid claim.low) ≤ self.old.state.spare }
        ensures { self.new ≡ with_state self.old (take_all self.old.state c Committing claim.what
            (frames_taken self.old.state.store claim.uid claim.low)) }
    {
        if let Some(low) = claim.low {
            self.take_pages(c, Aim::Committing, claim.what, claim.uid, low);
        }
    }

    /// The owner cuts the descriptors of a process that lead to a segment, in order of number.
    fn cut_connected(&mut self, c: u32, aim: Aim, what: What, process: u32)
        requires process { process < length self.old.state.store.links.known }
        requires owner { HasOwner self.old.state.owner }
        requires few { length (cut_of_owner self.old.state.owner)
            + length (connected_of self.old.state.store.links process) ≤ 256 }
        requires room { length (connected_of self.old.state.store.links process) ≤ self.old.state.spare }
        ensures { self.new ≡ with_state self.old
            (cut_all self.old.state c aim what (connected_of self.old.state.store.links process)) }
    {
        for number in 0..256 {
            self.cut_number(c, aim, what, process, number);
        }
    }

    /// The owner cuts the descriptors that a claim names.
    fn cut_claimed(&mut self, c: u32, process: u32, claim: Claim)
        requires process { process < length self.old.state.store.links.known }
        requires active { needs_segment claim ≡ true → IsActive self.old.state.store.ast.entries claim.uid }
        requires number { IsNumber claim.cuts }
        requires owner { HasOwner self.old.state.owner }
        requires few { length (cut_of_owner self.old.state.owner)
            + length (cuts_in self.old.state.store process claim.uid claim.cuts) ≤ 256 }
        requires room { length (cuts_in self.old.state.store process claim.uid claim.cuts) ≤ self.old.state.spare }
        ensures { self.new ≡ with_state self.old (cut_all self.old.state c Committing claim.what
            (cuts_in self.old.state.store process claim.uid claim.cuts)) }
    {
        match claim.cuts {
            Cuts::Nothing => {}
            Cuts::Trailers => self.cut_trailers(c, Aim::Committing, claim.what, claim.uid),
            Cuts::Number(number) => {
                self.cut_number(c, Aim::Committing, claim.what, process, number);
            }
            Cuts::All => self.cut_connected(c, Aim::Committing, claim.what, process),
        }
    }

    /// The owner takes what a claim names.
    fn take_claim(&mut self, c: u32, process: u32, claim: Claim)
        requires still { self.old.state.store.moving ≡ None }
        requires process { process < length self.old.state.store.links.known }
        requires active { needs_segment claim ≡ true → IsActive self.old.state.store.ast.entries claim.uid }
        requires number { IsNumber claim.cuts }
        requires takes { CanTake self.old.state (frames_taken self.old.state.store claim.uid claim.low)
            (cuts_in self.old.state.store process claim.uid claim.cuts) }
        ensures { self.new ≡ with_state self.old (took self.old.state c Committing claim.what
            (frames_taken self.old.state.store claim.uid claim.low)
            (cuts_in self.old.state.store process claim.uid claim.cuts)) }
    {
        self.take_claimed(c, claim);
        self.cut_claimed(c, process, claim);
    }

    /// Processor `c` takes what the next command of its process must have out of use: of a `truncate` the pages that it
    /// cuts, of a `delete` those of its node, which are on their way out then; of an `acl` and a `delete` the
    /// descriptors that lead to the segment, of a `terminate` that of its number, of an `end` those of the process,
    /// which are cut. (Source: Bensoussan, Clingen and Daley 1972; Organick 1972.)
    #[inline(never)]
    pub fn take_away(&mut self, c: u32, process: u32)
        requires still { self.old.state.store.moving ≡ None }
        requires run { process < length self.old.state.runs }
        requires knows { process < length self.old.state.store.links.known }
        requires segment { HasItsSegment self.old.state.store process (next_command self.old.state process) }
        requires owner { HasOwner self.old.state.owner }
        requires pages { length (frames_of_owner self.old.state.owner)
            + length (frames_for self.old.state.store process (next_command self.old.state process)) ≤ 256 }
        requires descriptors { length (cut_of_owner self.old.state.owner)
            + length (pairs_for self.old.state.store process (next_command self.old.state process)) ≤ 256 }
        requires room { length (frames_for self.old.state.store process (next_command self.old.state process))
            + length (pairs_for self.old.state.store process (next_command self.old.state process))
            ≤ self.old.state.spare }
        ensures { self.new ≡ with_state self.old
            (took_for self.old.state c process (next_command self.old.state process)) }
    {
        let claim = self.claim(process);
        self.take_claim(c, process, claim);
    }
}
