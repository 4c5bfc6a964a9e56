//! What the owner of the supervisor does for a reference.

ghost use Rattle.std.specs.Prelude.{◌≡◌, ◌<◌, ◌==◌, ℕ, length, true, None};
ghost use Rattle.script.specs.References.{new_word};
ghost use Rattle.page_table.specs.declared.Ptw.TheVariants.{Null};
ghost use Rattle.descriptor_seg.specs.declared.Sdw.TheVariants.{Fault};
ghost use Rattle.active_segs.specs.Active.{IsActive};
ghost use Rattle.tree_model.specs.Trees.{has_segment};
ghost use Rattle.seg_control.specs.Control.{table_of};
ghost use Rattle.machine_model.specs.Actions.{BeginMove, Create, any_page, look_at_descriptor};
ghost use Rattle.machine_model.specs.Actions.{look_at_page, look_at_word, look_for_reference, look_to_create, move_or};
ghost use Rattle.machine_model.specs.Actions.{room_for, unless_read};
ghost use Rattle.machine_model.specs.Keeps.{IsFaithful};
ghost use Rattle.machine_model.specs.Reads.{descriptor_of, flat_of, frame_reading};
ghost use Rattle.machine_model.specs.Refusal.{move_to, outside_refusal, room_refusal, uid_of_number};
ghost use Rattle.machine_tables.specs.Held.{MayLook};
ghost use Rattle.machine_tables.specs.Meant.{meant};
ghost use Rattle.machine_tables.specs.Reading.{AreRead};

use crate::action::Action;
use crate::reading::Pages;
use crate::tables::Tables;
use book::Reply;
use mword::Word;
use page_table::Ptw;
use script::{RefKind, Reference};
use volumes::Drive;

/// Whether a reference leaves a page of zeros one.
fn leaves_zeros(kind: &RefKind) -> bool
    ensures { result ≡ (new_word 0 kind.now == 0) }
{
    kind.new_word(Word::ZERO).value() == 0
}

impl<D: Drive> Tables<D> {
    /// What refuses a reference of a process before its page is looked at, by the flat store after the book.
    pub(crate) fn outside_refusal(&self, process: u32, reference: &Reference) -> Option<Reply>
        requires known { process < length self.now.state.store.links.known }
        requires faithful { IsFaithful self.now.state.plan (flat_of self.now.state) self.now.state.store }
        ensures { result ≡ outside_refusal self.now.state process reference.now }
    {
        self.store.outside_refusal(process, reference)
    }

    /// What refuses that a reference of a process stores a page more, by the flat store after the book.
    fn room_refusal(&self, process: u32, reference: &Reference) -> Option<Reply>
        requires still { self.now.state.store.moving ≡ None }
        requires known { process < length self.now.state.store.links.known }
        requires faithful { IsFaithful self.now.state.plan (flat_of self.now.state) self.now.state.store }
        ensures { result ≡ room_refusal self.now.state process reference.now }
    {
        self.store.room_refusal(process, reference)
    }

    /// The volume that a segment moves to before a page more of it is made: the first that has room for it, where all
    /// records of its own are taken.
    fn move_to(&self, uid: u32) -> Option<u32>
        requires segment { has_segment self.now.state.store.accounts.nodes uid ≡ true }
        requires looks { MayLook self.now.state }
        ensures { result ≡ move_to self.now.state uid }
    {
        self.store.move_target(uid)
    }

    /// A segment moves to a volume, unless a page of it is being read into a frame.
    fn begin_moving(&self, uid: u32, volume: u32) -> Action
        requires frames { length self.now.state.store.pages.core.frames ≡ self.now.state.plan.frames }
        requires reads { AreRead self.now.state.store.pages.core self.now.state.processors }
        ensures { (k : ℕ) → meant self.now.state k result
            ≡ unless_read (frame_reading self.now.state.store.pages.core uid any_page) (BeginMove uid volume) }
    {
        match self.first_read(uid, Pages::Any) {
            Some(first) => first,
            None => Action::BeginMove { uid, volume },
        }
    }

    /// A page is made in a frame for a reference, once its segment has moved where it must.
    fn move_or_make(&self, reference: Reference, uid: u32, page: u32) -> Action
        requires segment { has_segment self.now.state.store.accounts.nodes uid ≡ true }
        requires looks { MayLook self.now.state }
        ensures { (k : ℕ) → meant self.now.state k result
            ≡ move_or self.now.state.store.pages.core uid (move_to self.now.state uid)
            (room_for self.now.state.store.pages.core uid page (λ f. Create f uid page reference)) }
    {
        match self.move_to(uid) {
            Some(volume) => self.begin_moving(uid, volume),
            None => self.make_page(reference, uid, page),
        }
    }

    /// A page is made for a reference, unless there is no room for it.
    fn create_or_refuse(&self, process: u32, reference: Reference, uid: u32, page: u32) -> Action
        requires segment { has_segment self.now.state.store.accounts.nodes uid ≡ true }
        requires looks { MayLook self.now.state }
        requires known { process < length self.now.state.store.links.known }
        ensures { (k : ℕ) → meant self.now.state k result
            ≡ look_to_create self.now.state process reference uid page }
    {
        match self.room_refusal(process, &reference) {
            Some(refused) => Action::Answer(refused),
            None => self.move_or_make(reference, uid, page),
        }
    }

    /// What is done for a page of zeros that has no record: it is made, where the reference writes another word.
    fn look_at_null(&self, process: u32, reference: Reference, uid: u32, page: u32) -> Action
        requires segment { has_segment self.now.state.store.accounts.nodes uid ≡ true }
        requires looks { MayLook self.now.state }
        requires known { process < length self.now.state.store.links.known }
        ensures { (k : ℕ) → meant self.now.state k result
            ≡ look_at_word self.now.state process reference uid page Null }
    {
        let zeros = leaves_zeros(&reference.kind);
        if zeros {
            Action::GiveUp
        } else {
            self.create_or_refuse(process, reference, uid, page)
        }
    }

    /// What the owner does for a page of an active segment that a reference of its process goes to.
    pub(crate) fn look_at_page(
        &self,
        process: u32,
        reference: Reference,
        uid: u32,
        page: u32,
    ) -> Action
        requires active { IsActive self.now.state.store.ast.entries uid }
        requires page { page < length (table_of self.now.state.store.ast uid) }
        requires segment { has_segment self.now.state.store.accounts.nodes uid ≡ true }
        requires looks { MayLook self.now.state }
        requires known { process < length self.now.state.store.links.known }
        ensures { (k : ℕ) → meant self.now.state k result
            ≡ look_at_page self.now.state process reference uid page }
    {
        match self.word_of(uid, page) {
            Ptw::Null => self.look_at_null(process, reference, uid, page),
            Ptw::Out(_) => self.begin_reading(uid, page),
            Ptw::Here(_) | Ptw::Leaving(_) => Action::GiveUp,
        }
    }
}

impl<D: Drive> Tables<D> {
    /// What the owner does for a reference whose number leads nowhere: the chain of its segment becomes active, and
    /// then the number is connected.
    #[tactic(auto, using(crate::proofs::ReachLaws::segment_there))]
    fn look_at_fault(&self, process: u32, reference: &Reference, uid: u32) -> Action
        requires looks { MayLook self.now.state }
        requires inside { outside_refusal self.now.state process reference.now ≡ None }
        requires uid { uid ≡ uid_of_number self.now.state.store process reference.now.number }
        ensures { (k : ℕ) → meant self.now.state k result
            ≡ look_at_descriptor self.now.state process reference.now uid Fault }
    {
        match self.first_link(uid) {
            Some(first) => first,
            None => Action::Connect {
                number: reference.number,
                uid,
            },
        }
    }

    /// What the owner does for a reference that nothing refuses before its page is looked at.
    #[tactic(auto, using(crate::proofs::ReachLaws::reaches))]
    fn look_inside(&self, process: u32, reference: Reference) -> Action
        requires looks { MayLook self.now.state }
        requires known { process < length self.now.state.store.links.known }
        requires number { reference.number < 256 }
        requires inside { outside_refusal self.now.state process reference ≡ None }
        ensures { (k : ℕ) → meant self.now.state k result ≡ look_at_descriptor self.now.state process reference
            (uid_of_number self.now.state.store process reference.number)
            (descriptor_of self.now.state.store.links process reference.number) }
    {
        let uid = self.uid_of_number(process, reference.number);
        if self.is_connected(process, reference.number) {
            self.look_at_page(process, reference, uid, reference.offset / 1024)
        } else {
            self.look_at_fault(process, &reference, uid)
        }
    }

    /// What the owner does for a reference of a process: it is refused, its segment becomes active and is connected, or
    /// its page is brought. The look goes up the chain of the segment's superiors, and round the processors.
    pub(crate) fn look_for_reference(&self, process: u32, reference: Reference) -> Action
        requires looks { MayLook self.now.state }
        requires known { process < length self.now.state.store.links.known }
        requires number { reference.number < 256 }
        ensures { (k : ℕ) → meant self.now.state k result
            ≡ look_for_reference self.now.state process reference }
    {
        match self.outside_refusal(process, &reference) {
            Some(refused) => Action::Answer(refused),
            None => self.look_inside(process, reference),
        }
    }
}
