ghost use Rattle.std.specs.Prelude.{◌≡◌, ◌<◌, ◌≤◌, ◌+◌, ◌*◌, ℕ, false, MatchOption, Some};
ghost use Rattle.flat_model.specs.Branches.{branch_at, segment_at};
ghost use Rattle.custody_model.specs.Custody.{is_started, page_of};
ghost use Rattle.script.specs.Plans.{Plan};
ghost use Rattle.flat_model.specs.Store.{Store};
ghost use Rattle.flat_store.specs.Shown.{Shows};
ghost use Rattle.custody_model.specs.declared.DescriptorUse.TheVariants as descriptor;
ghost use Rattle.custody_model.specs.Effects.{HasNoDescriptor, IsOutOfUse, LosesNoPage, MayTakeEffect, OfNode};
ghost use Rattle.custody.specs.Tables.{AreTablesOf, custody_of};
ghost use Rattle.clean_reasons.specs.Reasons.{EffectSays};
ghost use Rattle.clean_reasons.specs.Rows.{IsOfAcl, IsOfDelete, IsOfEffect, IsOfEnd, IsOfLength, IsOfLoss, IsOfNode};
ghost use Rattle.clean_reasons.specs.Rows.{IsOfTerminate, IsOfTruncate};

use crate::reasons::{DescriptorAt, EffectReason, Loss, PageOf, Taker};
use crate::row_segments::least_leading;
use crate::seeking::{LeadSeek, PageAt, least_number, least_page};
use custody::{Custody, kept_pages};
use custody_model::{DescriptorUse, FrameUse};
use flat_store::FlatStore;
use mnames::Path;
use mword::Page;
use script::{Command, Script};

/// Whether the page of a frame is still being read into it.
fn is_read(custody: &Custody, frame: u32) -> bool
    ensures { result ≡ is_started ((custody_of custody.now).frame frame) }
{
    matches!(custody.frame(frame), FrameUse::Started { .. })
}

/// Why the access control list of the segment at a path may not change: a descriptor leads to it.
fn against_acl(
    script: &Script,
    store: &FlatStore,
    custody: &Custody,
    path: &Path,
) -> Option<EffectReason>
    requires { AreTablesOf script.now custody.now }
    ensures { (s : Store) → Shows script.now store.now s → MatchOption result
        (OfNode (λ n. HasNoDescriptor (custody_of custody.now) n.uid) (segment_at s.nodes path.now))
        (λ r. IsOfNode (λ n. IsOfAcl (custody_of custody.now) n.uid r) (segment_at s.nodes path.now)
        × EffectSays (custody_of custody.now) r) }
{
    let uid = store.segment_at(path)?;
    match least_leading(script, custody, uid) {
        Some(descriptor) => {
            let taker = Taker::Acl;
            Some(EffectReason::Connected { taker, descriptor })
        }
        None => None,
    }
}

/// Why a number may not come to stand for nothing: its descriptor is connected.
fn against_terminate(custody: &Custody, process: u32, number: u32) -> Option<EffectReason>
    ensures { MatchOption result ((custody_of custody.now).descriptor process number ≡ descriptor.Free)
        (λ r. IsOfTerminate process number r × EffectSays (custody_of custody.now) r) }
{
    match custody.descriptor(process, number) {
        DescriptorUse::Free => None,
        _ => Some(EffectReason::Connected {
            taker: Taker::Terminate,
            descriptor: DescriptorAt { process, number },
        }),
    }
}

/// Why a process may not end: a descriptor of it is connected.
fn against_end(script: &Script, custody: &Custody, process: u32) -> Option<EffectReason>
    requires { AreTablesOf script.now custody.now }
    ensures { MatchOption result ((n : ℕ) → (custody_of custody.now).descriptor process n ≡ descriptor.Free)
        (λ r. IsOfEnd process r × EffectSays (custody_of custody.now) r) }
{
    match least_number(script, custody, process, LeadSeek::Connected) {
        Some(number) => Some(EffectReason::Connected {
            taker: Taker::End,
            descriptor: DescriptorAt { process, number },
        }),
        None => None,
    }
}

/// That a page that is taken away is in a frame, or is being read into it.
fn lost(custody: &Custody, loss: Loss, uid: u32, at: PageAt) -> EffectReason
    requires { page_of ((custody_of custody.now).frame at.frame) ≡ Some (uid, at.page) }
    ensures about { IsOfLoss loss uid at.page result }
    ensures says { EffectSays (custody_of custody.now) result }
{
    let PageAt { page, frame } = at;
    let page = PageOf { uid, page };
    if is_read(custody, frame) {
        EffectReason::BeingRead { loss, page, frame }
    } else {
        EffectReason::InFrame { loss, page, frame }
    }
}

/// Why a segment or directory is still in use.
fn against_disuse(script: &Script, custody: &Custody, uid: u32) -> Option<EffectReason>
    requires { AreTablesOf script.now custody.now }
    ensures { MatchOption result (IsOutOfUse (custody_of custody.now) uid)
        (λ r. IsOfDelete (custody_of custody.now) uid r × EffectSays (custody_of custody.now) r) }
{
    if let Some(at) = least_page(script, custody, uid, 0) {
        return Some(lost(custody, Loss::Deleted, uid, at));
    }
    if let Some(descriptor) = least_leading(script, custody, uid) {
        let taker = Taker::Delete;
        return Some(EffectReason::Connected { taker, descriptor });
    }
    if custody.is_active(uid) {
        return Some(EffectReason::DeleteActive { uid });
    }
    None
}

/// Why what is at a path may not be deleted.
fn against_delete(
    script: &Script,
    store: &FlatStore,
    custody: &Custody,
    path: &Path,
) -> Option<EffectReason>
    requires { AreTablesOf script.now custody.now }
    ensures { (s : Store) → Shows script.now store.now s → MatchOption result
        (OfNode (λ n. IsOutOfUse (custody_of custody.now) n.uid) (branch_at s.nodes path.now))
        (λ r. IsOfNode (λ n. IsOfDelete (custody_of custody.now) n.uid r) (branch_at s.nodes path.now)
        × EffectSays (custody_of custody.now) r) }
{
    match store.branch_at(path) {
        Some(uid) => against_disuse(script, custody, uid),
        None => None,
    }
}

/// Why the length of the segment at a path may not change: it is active.
fn against_length(store: &FlatStore, custody: &Custody, path: &Path) -> Option<EffectReason>
    ensures { (p : Plan) (s : Store) → Shows p store.now s → MatchOption result
        (OfNode (λ n. (custody_of custody.now).active n.uid ≡ false) (segment_at s.nodes path.now))
        (λ r. IsOfNode (λ n. IsOfLength n.uid r) (segment_at s.nodes path.now)
        × EffectSays (custody_of custody.now) r) }
{
    let uid = store.segment_at(path)?;
    if custody.is_active(uid) {
        Some(EffectReason::LengthActive { uid })
    } else {
        None
    }
}

/// How many pages of a segment have one of so many words at its front.
fn pages_of(words: u32) -> u32
    ensures all { words ≤ 1024 * result }
    ensures least { 1024 * result < words + 1024 }
{
    let page = words / Page::WORDS;
    if words % Page::WORDS == 0 {
        page
    } else {
        page + 1
    }
}

/// Why a segment may not be truncated at this word.
fn against_loss(
    script: &Script,
    store: &FlatStore,
    custody: &Custody,
    uid: u32,
    words: u32,
) -> Option<EffectReason>
    requires { AreTablesOf script.now custody.now }
    ensures { (s : Store) → Shows script.now store.now s → MatchOption result
        (LosesNoPage s (custody_of custody.now) uid words)
        (λ r. IsOfTruncate s uid words r × EffectSays (custody_of custody.now) r) }
{
    if let Some(at) = least_page(script, custody, uid, pages_of(words)) {
        return Some(lost(custody, Loss::Past, uid, at));
    }
    let kept = kept_pages(store, uid, words);
    match least_page(script, custody, uid, kept) {
        Some(at) => Some(lost(custody, Loss::Cut, uid, at)),
        None => None,
    }
}

/// Why the segment at a path may not be truncated at this word.
fn against_truncate(
    script: &Script,
    store: &FlatStore,
    custody: &Custody,
    path: &Path,
    words: u32,
) -> Option<EffectReason>
    requires { AreTablesOf script.now custody.now }
    ensures { (s : Store) → Shows script.now store.now s → MatchOption result
        (OfNode (λ n. LosesNoPage s (custody_of custody.now) n.uid words) (segment_at s.nodes path.now))
        (λ r. IsOfNode (λ n. IsOfTruncate s n.uid words r) (segment_at s.nodes path.now)
        × EffectSays (custody_of custody.now) r) }
{
    match store.segment_at(path) {
        Some(uid) => against_loss(script, store, custody, uid, words),
        None => None,
    }
}

/// Why a tree command may not take effect: what it takes away is still in use.
pub(crate) fn against_effect(
    script: &Script,
    store: &FlatStore,
    custody: &Custody,
    process: u32,
    command: &Command,
) -> Option<EffectReason>
    requires { AreTablesOf script.now custody.now }
    ensures { (s : Store) → Shows script.now store.now s → MatchOption result
        (MayTakeEffect s (custody_of custody.now) process command.now)
        (λ r. IsOfEffect s (custody_of custody.now) process command.now r × EffectSays (custody_of custody.now) r) }
{
    match command {
        Command::Acl { path, .. } => against_acl(script, store, custody, path),
        Command::Terminate { number } => against_terminate(custody, process, *number),
        Command::End => against_end(script, custody, process),
        Command::Delete { path } => against_delete(script, store, custody, path),
        Command::Length { path, .. } => against_length(store, custody, path),
        Command::Truncate { path, words } => against_truncate(script, store, custody, path, *words),
        _ => None,
    }
}
