//! What the owner of the supervisor does for a tree command.

ghost use Rattle.std.specs.Prelude.{◌≡◌, ◌<◌, ◌/◌, ℕ, length, not, [], Some, None, true};
ghost use Rattle.script.specs.Forms.{IsPlan, is_command};
ghost use Rattle.script.specs.References.{reference_of};
ghost use Rattle.active_segs.specs.Active.{IsActive};
ghost use Rattle.page_control.specs.Tied.{is_out};
ghost use Rattle.seg_control.specs.Control.{word_of};
ghost use Rattle.storage_ops.specs.Shown.{is_there};
ghost use Rattle.machine_model.specs.Actions.{Action as Rule, Commit, descriptors_taken, first_taken, frame_read_from};
ghost use Rattle.machine_model.specs.Actions.{frames_taken, is_empty, look_for_command, look_to_change};
ghost use Rattle.machine_model.specs.Actions.{look_to_take, take_or_commit, unless_read, what_taken, with_chain};
ghost use Rattle.machine_model.specs.Actions.{with_cut_page};
ghost use Rattle.machine_model.specs.Keeps.{IsFaithful};
ghost use Rattle.machine_model.specs.Reads.{connected_of, flat_of, frames_from, next_command, trailers_in};
ghost use Rattle.machine_model.specs.Refusal.{refusal_of, uid_of_command};
ghost use Rattle.machine_model.specs.State.{Storage};
ghost use Rattle.machine_tables.specs.Held.{MayLook};
ghost use Rattle.machine_tables.specs.Meant.{meant, unless_first};
ghost use Rattle.machine_tables.specs.Reading.{AreRead};
ghost use Rattle.machine_tables.specs.Taken.{is_bare};

use crate::action::Action;
use crate::committing::look;
use crate::emptying::first_taken;
use crate::reading::Pages;
use crate::tables::Tables;
use book::Reply;
use page_table::Ptw;
use script::Command;
use volumes::Drive;

/// Whether a tree command takes effect at once where nothing refuses it, whatever it is about: it wants nothing brought
/// and nothing out of use.
fn is_done_at_once(command: &Command) -> bool
    ensures { result ≡ true → (st : Storage) (k uid : ℕ) → Commit ≡ look_to_change st k uid command.now }
{
    match command {
        Command::MkDir { .. } => true,
        Command::MkSeg { .. } => true,
        Command::Initiate { .. } => true,
        Command::Move { .. } => true,
        Command::Status { .. } => true,
        _ => false,
    }
}

impl<D: Drive> Tables<D> {
    /// What refuses a tree command of a process, by the flat store after the book.
    pub(crate) fn command_refusal(&self, process: u32, command: &Command) -> Option<Reply>
        requires still { self.now.state.store.moving ≡ None }
        requires known { process < length self.now.state.store.links.known }
        requires script { IsPlan self.now.state.plan }
        requires ranges { is_command (length self.now.state.plan.volumes) command.now ≡ true }
        requires tree { reference_of command.now ≡ None }
        requires faithful { IsFaithful self.now.state.plan (flat_of self.now.state) self.now.state.store }
        ensures { result ≡ refusal_of self.now.state process command.now }
    {
        look(&self.store);
        self.store.test(process, command)
    }

    /// That a page is waited for which a tree command must have out of use, where one of them is being read into a
    /// frame.
    pub(crate) fn first_taken_read(&self, uid: u32, command: &Command) -> Option<Action>
        requires { AreRead self.now.state.store.pages.core self.now.state.processors }
        ensures { (k : ℕ) (otherwise : Rule) → unless_first self.now.state k result otherwise ≡ unless_read
            (frame_read_from self.now.state.store.pages.core uid (first_taken command.now)) otherwise }
    {
        match first_taken(command) {
            Some(low) => self.first_read(uid, Pages::From(low)),
            None => None,
        }
    }
}

impl<D: Drive> Tables<D> {
    /// Whether a page of a segment is here, of those from a number on.
    #[tactic(auto, using(crate::proofs::AwayLaws::no_frames))]
    fn has_pages_from(&self, uid: u32, low: u32) -> bool
        ensures { result ≡ not (is_empty (frames_from self.now.state.store.ast uid low)) }
    {
        self.promise();
        self.is_active(uid) && self.has_pages(uid, low)
    }

    /// Whether a page is here that a tree command must have out of use.
    fn has_taken_pages(&self, uid: u32, command: &Command) -> bool
        ensures { result ≡ not (is_empty (frames_taken self.now.state.store uid (first_taken command.now))) }
    {
        match first_taken(command) {
            Some(low) => self.has_pages_from(uid, low),
            None => false,
        }
    }

    /// Whether a descriptor leads to a segment.
    fn has_trailers(&self, uid: u32) -> bool
        ensures { result ≡ not (is_bare [] (trailers_in self.now.state.store uid)) }
    {
        self.is_active(uid) && self.first_trailer(uid).is_some()
    }

    /// Whether a number of a process leads to a segment. It looks at its 256 numbers, up to the first that does.
    #[tactic(auto, using(crate::proofs::AwayLaws::none_next))]
    fn has_connected(&self, process: u32) -> bool
        requires { process < length self.now.state.store.links.known }
        ensures { result ≡ not (is_bare [] (connected_of self.now.state.store.links process)) }
    {
        for number in 0..256 {
            if self.is_connected(process, number) {
                return true;
            }
        }
        false
    }

    /// Whether a descriptor leads to a segment that a tree command must have cut.
    #[tactic(auto, using(crate::proofs::CommandLaws::number_ended))]
    fn has_taken_descriptors(&self, process: u32, uid: u32, command: &Command) -> bool
        requires known { process < length self.now.state.store.links.known }
        requires ranges { is_command (length self.now.state.plan.volumes) command.now ≡ true }
        ensures { result ≡ not (is_bare [] (descriptors_taken self.now.state.store process uid command.now)) }
    {
        match command {
            Command::Acl { .. } | Command::Delete { .. } => self.has_trailers(uid),
            Command::Terminate { number } => self.is_connected(process, *number),
            Command::End => self.has_connected(process),
            _ => false,
        }
    }

    /// What the next command of a process, a tree command, must have out of use is taken; where that is nothing, the
    /// command takes effect.
    fn take_or_commit(&self, process: u32, uid: u32, command: &Command) -> Action
        requires known { process < length self.now.state.store.links.known }
        requires ranges { is_command (length self.now.state.plan.volumes) command.now ≡ true }
        requires next { next_command self.now.state process ≡ Some command.now }
        requires uid { uid ≡ uid_of_command self.now.state.store process command.now }
        ensures { meant self.now.state process result ≡ take_or_commit
            (frames_taken self.now.state.store uid (first_taken command.now))
            (descriptors_taken self.now.state.store process uid command.now) (what_taken uid command.now) }
    {
        if self.has_taken_pages(uid, command) || self.has_taken_descriptors(process, uid, command) {
            Action::TakeAway
        } else {
            Action::Commit
        }
    }

    /// What is done for the next command of a process, a tree command, once all that it wants is there: a page that it
    /// must have out of use is waited for, what it must have out of use is taken, or it takes effect.
    fn look_to_take(&self, process: u32, uid: u32, command: &Command) -> Action
        requires known { process < length self.now.state.store.links.known }
        requires ranges { is_command (length self.now.state.plan.volumes) command.now ≡ true }
        requires next { next_command self.now.state process ≡ Some command.now }
        requires uid { uid ≡ uid_of_command self.now.state.store process command.now }
        requires reads { AreRead self.now.state.store.pages.core self.now.state.processors }
        ensures { meant self.now.state process result
            ≡ look_to_take self.now.state.store process uid command.now }
    {
        match self.first_taken_read(uid, command) {
            Some(first) => first,
            None => self.take_or_commit(process, uid, command),
        }
    }
}

impl<D: Drive> Tables<D> {
    /// Whether a page of an active segment is on its record alone.
    fn is_out(&self, uid: u32, page: u32) -> bool
        requires { IsActive self.now.state.store.ast.entries uid }
        ensures { result ≡ is_out (word_of self.now.state.store.ast uid page) }
    {
        page < self.table_size(uid) && matches!(self.word_of(uid, page), Ptw::Out(_))
    }

    /// What is done for the page of an active segment that so many words cut: where it is on its record it is read in.
    fn first_cut(&self, uid: u32, words: u32) -> Option<Action>
        requires active { IsActive self.now.state.store.ast.entries uid }
        requires frames { length self.now.state.store.pages.core.frames ≡ self.now.state.plan.frames }
        requires reads { AreRead self.now.state.store.pages.core self.now.state.processors }
        ensures { (k : ℕ) (otherwise : Rule) → unless_first self.now.state k result otherwise
            ≡ with_cut_page self.now.state.store uid words otherwise }
    {
        if words % 1024 != 0 && self.is_out(uid, words / 1024) {
            Some(self.begin_reading(uid, words / 1024))
        } else {
            None
        }
    }

    /// What the owner does for a `truncate` of a segment that is there: the segment becomes active, the page that is
    /// cut is read in, and then what must be out of use is taken.
    fn look_to_truncate(&self, process: u32, uid: u32, words: u32, command: &Command) -> Action
        requires looks { MayLook self.now.state }
        requires known { process < length self.now.state.store.links.known }
        requires ranges { is_command (length self.now.state.plan.volumes) command.now ≡ true }
        requires next { next_command self.now.state process ≡ Some command.now }
        requires uid { uid ≡ uid_of_command self.now.state.store process command.now }
        requires there { is_there self.now.state.store.accounts.nodes uid ≡ true }
        ensures { meant self.now.state process result ≡ with_chain self.now.state.store uid
            (with_cut_page self.now.state.store uid words
            (look_to_take self.now.state.store process uid command.now)) }
    {
        if let Some(first) = self.first_link(uid) {
            return first;
        }
        if let Some(first) = self.first_cut(uid, words) {
            return first;
        }
        self.look_to_take(process, uid, command)
    }

    /// What the owner does for a tree command that nothing refuses and that may want something brought, or out of use.
    #[tactic(auto, using(crate::proofs::ChangeLooks::changes_told))]
    fn look_to_clear(&self, process: u32, command: &Command) -> Action
        requires looks { MayLook self.now.state }
        requires known { process < length self.now.state.store.links.known }
        requires ranges { is_command (length self.now.state.plan.volumes) command.now ≡ true }
        requires next { next_command self.now.state process ≡ Some command.now }
        requires stands { refusal_of self.now.state process command.now ≡ None }
        ensures { meant self.now.state process result ≡ look_to_change self.now.state.store process
            (uid_of_command self.now.state.store process command.now) command.now }
    {
        let uid = self.uid_of_command(process, command);
        match command {
            Command::Truncate { words, .. } => self.look_to_truncate(process, uid, *words, command),
            Command::Length { .. } => self.look_at_length(uid),
            _ => self.look_to_take(process, uid, command),
        }
    }

    /// What the owner does for a tree command that nothing refuses. Of one that takes effect at once no path is
    /// followed.
    fn look_to_change(&self, process: u32, command: &Command) -> Action
        requires looks { MayLook self.now.state }
        requires known { process < length self.now.state.store.links.known }
        requires ranges { is_command (length self.now.state.plan.volumes) command.now ≡ true }
        requires next { next_command self.now.state process ≡ Some command.now }
        requires stands { refusal_of self.now.state process command.now ≡ None }
        ensures { meant self.now.state process result ≡ look_to_change self.now.state.store process
            (uid_of_command self.now.state.store process command.now) command.now }
    {
        if is_done_at_once(command) {
            Action::Commit
        } else {
            self.look_to_clear(process, command)
        }
    }

    /// What the owner does for the next command of a process, a tree command: it is refused, what it wants is brought,
    /// what it must have out of use is taken, or it takes effect. The look goes round the processors, up the chain of a
    /// segment's superiors and over its pages, and at an `end` over the numbers of the process.
    pub(crate) fn look_for_command(&self, process: u32, command: &Command) -> Action
        requires looks { MayLook self.now.state }
        requires known { process < length self.now.state.store.links.known }
        requires ranges { is_command (length self.now.state.plan.volumes) command.now ≡ true }
        requires next { next_command self.now.state process ≡ Some command.now }
        requires tree { reference_of command.now ≡ None }
        ensures { meant self.now.state process result ≡ look_for_command self.now.state process command.now }
    {
        match self.command_refusal(process, command) {
            Some(refused) => Action::Answer(refused),
            None => self.look_to_change(process, command),
        }
    }
}
