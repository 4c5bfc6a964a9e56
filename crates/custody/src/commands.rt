ghost use Rattle.std.specs.Prelude.{◌≡◌, ℕ, false, IfSome, IfNone, [], Some, None};
ghost use Rattle.std.specs.Bool.{Decides};
ghost use Rattle.script.specs.Plans.{Plan};
ghost use Rattle.script.specs.References.{reference_of};
ghost use Rattle.flat_model.specs.Branches.{branch_at, segment_at};
ghost use Rattle.flat_model.specs.Commands.{takes_effect};
ghost use Rattle.flat_model.specs.Pages.{without_words};
ghost use Rattle.flat_model.specs.Store.{Store};
ghost use Rattle.custody_model.specs.Custody.{bound_page};
ghost use Rattle.custody_model.specs.Effects.{HasNoDescriptor, IsOutOfUse, LosesNoPage, MayTakeEffect, OfNode};
ghost use Rattle.custody_model.specs.Allowed.{IsPageAt, MayDo, MayGoThrough, MayGoWithout};
ghost use Rattle.custody_model.specs.Allowed.{MayRefer};
ghost use Rattle.custody_model.specs.Allowed.{is_device, is_effective, is_word_or_done, stores};
ghost use Rattle.custody_model.specs.declared.DescriptorUse.TheVariants as descriptor;
ghost use Rattle.custody.specs.Tables.{AreKept, custody_of, row_at, seat_at};
ghost use Rattle.flat_store.specs.Shown.{Shows};

use crate::descriptors::Descriptors;
use crate::store_rows::leads_nowhere;
use crate::tables::Custody;
use book::Reply;
use custody_model::FrameUse;
use flat_store::{FlatStore, command_at};
use mnames::Path;
use mword::Page;
use script::{Command, Reference, Script};

/// Whether a command took effect that is answered so.
fn takes_effect(reply: &Reply) -> bool
    ensures { result ≡ takes_effect reply.now }
{
    matches!(
        reply,
        Reply::Word(_) | Reply::Done | Reply::Made(_) | Reply::Known(_)
    )
}

/// Whether a word was reached, or the command is done.
fn is_word_or_done(reply: &Reply) -> bool
    ensures { result ≡ is_word_or_done reply.now }
{
    matches!(reply, Reply::Word(_) | Reply::Done)
}

/// Whether a drive failed.
fn is_device(reply: &Reply) -> bool
    ensures { result ≡ is_device reply.now }
{
    matches!(reply, Reply::Device)
}

/// The page that is in a frame.
pub(crate) fn bound_page(of: FrameUse) -> Option<(u32, u32)>
    ensures { result ≡ bound_page of }
{
    match of {
        FrameUse::Free | FrameUse::Started { .. } => None,
        FrameUse::Current { uid, page } | FrameUse::Going { uid, page } => Some((uid, page)),
    }
}

/// Whether the page of an offset in this segment is this one.
fn is_page_at(known: Option<u32>, offset: u32, page: Option<(u32, u32)>) -> bool
    ensures { Decides result (IsPageAt known offset page) }
{
    match (known, page) {
        (Some(known), Some((uid, page))) => known == uid && page == offset / Page::WORDS,
        _ => false,
    }
}

/// Whether the page that an offset of this segment lies in is stored.
fn stores(store: &FlatStore, known: Option<u32>, offset: u32) -> bool
    ensures { (p : Plan) (s : Store) → Shows p store.now s → result ≡ stores s known offset }
{
    match known {
        Some(uid) => store.is_stored(uid, offset / Page::WORDS),
        None => false,
    }
}

impl Custody {
    /// Whether a processor runs a process.
    fn runs(&self, cpu: u32, process: u32) -> bool
        ensures { Decides result ((seat_at self.now.seats cpu).process ≡ Some process) }
    {
        match self.process_of(cpu) {
            Some(runs) => runs == process,
            None => false,
        }
    }

    /// Whether a reference may go through a frame.
    fn may_go_through(
        &self,
        store: &FlatStore,
        cpu: u32,
        process: u32,
        frame: u32,
        reference: &Reference,
        reply: &Reply,
    ) -> bool
        ensures { (p : Plan) (s : Store) → Shows p store.now s
            → Decides result (MayGoThrough s (custody_of self.now) cpu process frame reference.now reply.now) }
    {
        let known = store.known(process, reference.number);
        self.holds_seg(cpu, reference.number)
            && self.holds_page(cpu, frame)
            && is_page_at(known, reference.offset, bound_page(self.frames.at(frame)))
            && is_word_or_done(reply)
    }

    /// Whether a reference may be answered without a frame.
    fn may_go_without(
        &self,
        store: &FlatStore,
        process: u32,
        reference: &Reference,
        reply: &Reply,
    ) -> bool
        ensures { (p : Plan) (s : Store) → Shows p store.now s
            → Decides result (MayGoWithout s process reference.now reply.now) }
    {
        let known = store.known(process, reference.number);
        !is_word_or_done(reply) || !stores(store, known, reference.offset)
    }

    /// Whether a reference may be answered so, through this frame or without one.
    fn may_refer(
        &self,
        store: &FlatStore,
        cpu: u32,
        process: u32,
        frame: Option<u32>,
        reference: &Reference,
        reply: &Reply,
    ) -> bool
        ensures { (p : Plan) (s : Store) → Shows p store.now s
            → Decides result (MayRefer s (custody_of self.now) cpu process frame reference.now reply.now) }
    {
        match frame {
            Some(frame) => self.may_go_through(store, cpu, process, frame, reference, reply),
            None => self.may_go_without(store, process, reference, reply),
        }
    }

    /// The descriptors of a process.
    fn row(&self, process: u32) -> Option<&Descriptors>
        ensures some { IfSome result (λ row. row_at self.now.descriptors process ≡ row.now) }
        ensures none { IfNone result (row_at self.now.descriptors process ≡ []) }
    {
        self.descriptors.get(process as usize)
    }

    /// Whether a segment or directory isn't active.
    fn is_inactive(&self, uid: u32) -> bool
        ensures { Decides result ((custody_of self.now).active uid ≡ false) }
    {
        !self.active.has(uid)
    }

    /// Whether all descriptors of a process lead to nothing.
    fn are_all_free(&self, process: u32) -> bool
        ensures { Decides result ((n : ℕ) → (custody_of self.now).descriptor process n ≡ descriptor.Free) }
    {
        match self.row(process) {
            Some(row) => row.are_free(),
            None => true,
        }
    }

    /// Whether a segment or directory is in no table.
    fn is_out_of_use(&self, uid: u32) -> bool
        ensures { Decides result (IsOutOfUse (custody_of self.now) uid) }
    {
        self.has_no_page(uid) && self.has_no_descriptor(uid) && self.is_inactive(uid)
    }

    /// Whether no descriptor leads to the segment at a path, if there is one.
    fn may_change_rows(&self, store: &FlatStore, path: &Path) -> bool
        ensures { (p : Plan) (s : Store) → Shows p store.now s
            → Decides result (OfNode (λ n. HasNoDescriptor (custody_of self.now) n.uid) (segment_at s.nodes path.now)) }
    {
        let found = store.segment_at(path);
        found.is_none_or(|uid| self.has_no_descriptor(uid))
    }

    /// Whether what is at a path is in no table, if there is anything.
    fn may_delete(&self, store: &FlatStore, path: &Path) -> bool
        ensures { (p : Plan) (s : Store) → Shows p store.now s
            → Decides result (OfNode (λ n. IsOutOfUse (custody_of self.now) n.uid) (branch_at s.nodes path.now)) }
    {
        let found = store.branch_at(path);
        found.is_none_or(|uid| self.is_out_of_use(uid))
    }

    /// Whether the segment at a path isn't active, if there is one.
    fn may_change_length(&self, store: &FlatStore, path: &Path) -> bool
        ensures { (p : Plan) (s : Store) → Shows p store.now s
            → Decides result (OfNode (λ n. (custody_of self.now).active n.uid ≡ false) (segment_at s.nodes path.now)) }
    {
        let found = store.segment_at(path);
        found.is_none_or(|uid| self.is_inactive(uid))
    }

    /// Whether what a command takes away from its users is out of use.
    fn may_take_effect(&self, store: &FlatStore, process: u32, command: &Command) -> bool
        ensures { (p : Plan) (s : Store) → Shows p store.now s
            → Decides result (MayTakeEffect s (custody_of self.now) process command.now) }
    {
        match command {
            Command::Acl { path, .. } => self.may_change_rows(store, path),
            Command::Terminate { number } => leads_nowhere(self.descriptor(process, *number)),
            Command::End => self.are_all_free(process),
            Command::Delete { path } => self.may_delete(store, path),
            Command::Length { path, .. } => self.may_change_length(store, path),
            Command::Truncate { path, words } => self.may_truncate(store, path, *words),
            _ => true,
        }
    }

    /// Whether a processor may answer the next command of its process so, through this frame or without one.
    pub(crate) fn may_do(
        &self,
        script: &Script,
        store: &FlatStore,
        process: u32,
        cpu: u32,
        frame: Option<u32>,
        reply: &Reply,
    ) -> bool
        ensures { (s : Store) → Shows script.now store.now s
            → Decides result (MayDo script.now s (custody_of self.now) process cpu frame reply.now) }
    {
        if !self.runs(cpu, process) {
            return false;
        }
        let Some(command) = command_at(script, process, store.place(process)) else {
            return false;
        };
        match command.reference() {
            Some(reference) => self.may_refer(store, cpu, process, frame, &reference, reply),
            None if frame.is_some() => false,
            None if self.may_take_effect(store, process, command) => true,
            None => !is_effective(script, store, process, command, reply),
        }
    }

    /// Whether no page that a truncation takes from the segment at a path is in a frame, if there is one.
    fn may_truncate(&self, store: &FlatStore, path: &Path, words: u32) -> bool
        ensures { (p : Plan) (s : Store) → Shows p store.now s → Decides result
            (OfNode (λ n. LosesNoPage s (custody_of self.now) n.uid words) (segment_at s.nodes path.now)) }
    {
        match store.segment_at(path) {
            Some(uid) => self.loses_no_page(store, uid, words),
            None => true,
        }
    }

    /// Whether no page that a truncation takes from a segment is in a frame.
    fn loses_no_page(&self, store: &FlatStore, uid: u32, words: u32) -> bool
        ensures { (p : Plan) (s : Store) → Shows p store.now s
            → Decides result (LosesNoPage s (custody_of self.now) uid words) }
    {
        let kept = kept_pages(store, uid, words);
        self.frames.all_are_below(uid, kept)
    }
}

/// Whether a tree command takes effect: the flat store doesn't refuse it, and no drive's failure stands in its place.
pub fn is_effective(
    script: &Script,
    store: &FlatStore,
    process: u32,
    command: &Command,
    reply: &Reply,
) -> bool
    ensures { (s : Store) → Shows script.now store.now s
        → result ≡ is_effective script.now s process command.now reply.now }
{
    let due = store.reply_to(script, process, command);
    takes_effect(&due) && !is_device(reply)
}

/// How many pages of a segment a truncation at this word keeps: those below it, and the one that it cuts unless that is
/// all zeros then.
pub fn kept_pages(store: &FlatStore, uid: u32, words: u32) -> u32
    ensures { (p : Plan) (s : Store) → Shows p store.now s
        → AreKept (without_words s.words uid words) uid words result }
{
    let page = words / Page::WORDS;
    if words % Page::WORDS == 0 {
        return page;
    }
    if store.cut_is_zero(uid, words) {
        return page;
    }
    page + 1
}
