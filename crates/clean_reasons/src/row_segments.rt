ghost use Rattle.std.specs.Prelude.{◌≡◌, ◌≢◌, ℕ, true, IfNone, IfSome, MatchOption, Some};
ghost use Rattle.script.specs.Plans.{Plan};
ghost use Rattle.tree_model.specs.Tree.{node_in};
ghost use Rattle.flat_model.specs.Store.{Store};
ghost use Rattle.flat_store.specs.Shown.{Shows};
ghost use Rattle.book.specs.declared.entries.Entry.TheVariants as entry;
ghost use Rattle.custody_model.specs.Custody.{leads_to};
ghost use Rattle.custody_model.specs.Effects.{HasNoDescriptor, HasNoPage};
ghost use Rattle.custody_model.specs.Allowed.{pool_size, superior_in};
ghost use Rattle.custody.specs.Tables.{AreNodes, AreTablesOf, custody_of};
ghost use Rattle.clean_reasons.specs.Reasons.{FrameSays, IsIn, IsReadInto, IsSo, Tells};
ghost use Rattle.clean_reasons.specs.Rows.{IsOfDisuse};

use crate::reasons::{
    Absent, ActiveReason, DescriptorAt, DescriptorReason, FrameReason, PageOf, Reason,
};
use crate::seeking::{
    FrameSeek, LeadSeek, PageAt, bound_page, least_descriptor, least_frame, read_page,
};
use custody::Custody;
use flat_store::FlatStore;
use script::Script;

/// How many places a pool has; none, where there is no such pool.
fn pool_size(script: &Script, pool: u32) -> u32
    ensures { result ≡ pool_size script.now pool }
{
    let pools = script.pools();
    match pools.get(pool as usize) {
        Some(size) => *size,
        None => 0,
    }
}

/// Why a segment or directory may not become active.
pub(crate) fn against_activate(
    script: &Script,
    store: &FlatStore,
    custody: &Custody,
    uid: u32,
) -> Option<Reason>
    ensures { (s : Store) → Shows script.now store.now s → AreNodes s.nodes custody.now.active
        → Tells script.now s (custody_of custody.now) (entry.Activate uid) result }
{
    let Some(pool) = store.pool(uid) else {
        return Some(Reason::Active(ActiveReason::NoNode { uid }));
    };
    if custody.is_active(uid) {
        return Some(Reason::Active(ActiveReason::Active { uid }));
    }
    if let Some(superior) = store.superior(uid) {
        if !custody.is_active(superior) {
            return Some(Reason::Active(ActiveReason::Superior { superior, uid }));
        }
    }
    let places = pool_size(script, pool);
    if custody.in_pool(pool) >= places as u64 {
        return Some(Reason::Active(ActiveReason::Pool { pool, places }));
    }
    None
}

/// The least inferior of a directory that is active.
fn least_inferior(store: &FlatStore, custody: &Custody, uid: u32) -> Option<u32>
    ensures some { IfSome result (λ v. (custody_of custody.now).active v ≡ true) }
    ensures none { (p : Plan) (s : Store) → Shows p store.now s → IfNone result ((v : ℕ)
        → (custody_of custody.now).active v ≡ true → superior_in (node_in s.nodes v) ≢ Some uid) }
    ensures below { (p : Plan) (s : Store) → Shows p store.now s → IfSome result
        (λ v. superior_in (node_in s.nodes v) ≡ Some uid) }
{
    for place in 0..custody.active_end() {
        let inferior = place as u32;
        if custody.is_active(inferior) && store.superior(inferior) == Some(uid) {
            return Some(inferior);
        }
    }
    None
}

/// A page of a segment that is in a frame, the least such.
fn page_in(script: &Script, custody: &Custody, uid: u32) -> Option<PageAt>
    requires { AreTablesOf script.now custody.now }
    ensures some { IfSome result (λ x. IsIn (custody_of custody.now) uid x.page x.frame) }
    ensures none { IfNone result ((f q : ℕ) → IsIn (custody_of custody.now) uid q f → ⊥) }
{
    let frame = least_frame(script, custody, FrameSeek::Bound { uid })?;
    match bound_page(custody.frame(frame)) {
        Some((_, page)) => Some(PageAt { page, frame }),
        None => None,
    }
}

/// A page of a segment that is being read into a frame, the least such.
fn page_read(script: &Script, custody: &Custody, uid: u32) -> Option<PageAt>
    requires { AreTablesOf script.now custody.now }
    ensures some { IfSome result (λ x. IsReadInto (custody_of custody.now) uid x.page x.frame) }
    ensures none { IfNone result ((f q : ℕ) → IsReadInto (custody_of custody.now) uid q f → ⊥) }
{
    let frame = least_frame(script, custody, FrameSeek::Read { uid })?;
    match read_page(custody.frame(frame)) {
        Some((_, page)) => Some(PageAt { page, frame }),
        None => None,
    }
}

/// Why a page of a segment is in a frame, or being read into one.
fn against_no_page(script: &Script, custody: &Custody, uid: u32) -> Option<FrameReason>
    requires { AreTablesOf script.now custody.now }
    ensures { MatchOption result (HasNoPage (custody_of custody.now) uid)
        (λ r. IsOfDisuse uid r × FrameSays (custody_of custody.now) r) }
{
    if let Some(at) = page_in(script, custody, uid) {
        let page = PageOf { uid, page: at.page };
        return Some(FrameReason::HasPage {
            page,
            frame: at.frame,
        });
    }
    match page_read(script, custody, uid) {
        Some(at) => {
            let page = PageOf { uid, page: at.page };
            Some(FrameReason::HasRead {
                page,
                frame: at.frame,
            })
        }
        None => None,
    }
}

/// The least descriptor that leads to a segment, of the least process.
pub(crate) fn least_leading(script: &Script, custody: &Custody, uid: u32) -> Option<DescriptorAt>
    requires { AreTablesOf script.now custody.now }
    ensures some { IfSome result
        (λ x. leads_to ((custody_of custody.now).descriptor x.process x.number) ≡ Some uid) }
    ensures none { IfNone result (HasNoDescriptor (custody_of custody.now) uid) }
{
    least_descriptor(script, custody, LeadSeek::To { uid })
}

/// Why a segment is still in use: by a page of it, or by a descriptor.
fn against_disuse(script: &Script, custody: &Custody, uid: u32) -> Option<Reason>
    requires { AreTablesOf script.now custody.now }
    ensures none { IfNone result (HasNoPage (custody_of custody.now) uid) }
    ensures free { IfNone result (HasNoDescriptor (custody_of custody.now) uid) }
    ensures so { (s : Store) → IfSome result
        (IsSo script.now s (custody_of custody.now) (entry.Deactivate uid)) }
{
    if let Some(reason) = against_no_page(script, custody, uid) {
        return Some(Reason::Frame(reason));
    }
    match least_leading(script, custody, uid) {
        Some(descriptor) => Some(Reason::Descriptor(DescriptorReason::Leads { descriptor, uid })),
        None => None,
    }
}

/// Why a segment or directory may not be active no more.
pub(crate) fn against_deactivate(
    script: &Script,
    store: &FlatStore,
    custody: &Custody,
    uid: u32,
) -> Option<Reason>
    requires { AreTablesOf script.now custody.now }
    ensures { (s : Store) → Shows script.now store.now s
        → Tells script.now s (custody_of custody.now) (entry.Deactivate uid) result }
{
    if !custody.is_active(uid) {
        return Some(Reason::Active(ActiveReason::Inactive { uid }));
    }
    if let Some(inferior) = least_inferior(store, custody, uid) {
        return Some(Reason::Active(ActiveReason::Inferior { inferior, uid }));
    }
    against_disuse(script, custody, uid)
}

/// Why a segment may not move to another volume.
pub(crate) fn against_moved(
    script: &Script,
    custody: &Custody,
    process: u32,
    uid: u32,
    volume: u32,
) -> Option<Reason>
    requires { AreTablesOf script.now custody.now }
    ensures { (s : Store) → Tells script.now s (custody_of custody.now) (entry.Moved process uid volume) result }
{
    if process >= script.processes() {
        return Some(Reason::Absent(Absent::Process { process }));
    }
    if !custody.is_active(uid) {
        return Some(Reason::Active(ActiveReason::Inactive { uid }));
    }
    match page_read(script, custody, uid) {
        Some(at) => {
            let page = PageOf { uid, page: at.page };
            Some(Reason::Frame(FrameReason::HasRead {
                page,
                frame: at.frame,
            }))
        }
        None => None,
    }
}
