ghost use Rattle.std.specs.Prelude.{◌≡◌, ◌≢◌, ◌&&◌, ℕ, not, true, is_some, None, Some};
ghost use Rattle.std.specs.List.{list_any};
ghost use Rattle.std.specs.Bool.{Decides};
ghost use Rattle.custody_model.specs.Custody.{has, is_current_descriptor, is_current_frame, is_going_descriptor};
ghost use Rattle.custody_model.specs.Custody.{is_going_frame, is_started, is_uid, leads_to};
ghost use Rattle.custody_model.specs.Effects.{HasNoDescriptor, HasNoPage, IsInNoFrame};
ghost use Rattle.custody_model.specs.Allowed.{GoesDescriptor, GoesPage, IsFront, MayBeHere, MayComeOnline};
ghost use Rattle.custody_model.specs.Allowed.{MayDeactivate, MayEndPage, MayEndSeg};
ghost use Rattle.custody_model.specs.Allowed.{MayFillPage, MayFillSeg, MayLoad, MayRehome, MaySignal, MayStart};
ghost use Rattle.custody_model.specs.Allowed.{NamesAllGoing, NobodyHoldsPage};
ghost use Rattle.custody_model.specs.Allowed.{NobodyHoldsSeg, SomethingGoes, WasStarted, superior_in};
ghost use Rattle.flat_model.specs.Store.{Store};
ghost use Rattle.script.specs.Plans.{Plan};
ghost use Rattle.tree_model.specs.Tree.{node_in};
ghost use Rattle.custody_model.specs.declared.FrameUse.TheVariants as frame;
ghost use Rattle.custody.specs.Uses.{frame_at};
ghost use Rattle.custody.specs.Tables.{AreNodes, DescriptorsAreNamed, FramesAreNamed, IsUnused, custody_of, seat_at};

use crate::active::Active;
use crate::descriptors::Descriptors;
use crate::frames::Frames;
use crate::seats::SeatRow;
use assoc_mem::What;
use custody_model::{DescriptorUse, FrameUse};
use script::Script;
use std::marker::Model;

/// Custody: which segments are active, what frames and descriptors are used for, which processes are ready, and what
/// each processor holds in its associative memory (Bensoussan, Clingen and Daley 1972).
///
/// Contracts see its tables as lists, and by `custody_of` as the custody that they are. No call walks over all active
/// segments or all descriptors: those are counted. All frames are looked at for a `truncate` of a segment with a page
/// in one, and for a page that shares its number with one that is in a frame.
#[derive(Drop)]
pub struct Custody {
    pub(crate) active: Active,
    pub(crate) frames: Frames,
    pub(crate) descriptors: Vec<Descriptors>,
    pub(crate) ready: Vec<u32>,
    pub(crate) seats: Vec<SeatRow>,
}

impl Model for Custody {
    ghost use Rattle.custody.specs.Tables.{Tables};

    ghost Value = { Tables };

    ghost view = { λ c. record {
      active = c.active;
      frames = c.frames;
      descriptors = c.descriptors.items;
      ready = c.ready.items;
      seats = c.seats.items;
    } };
}

/// Whether a process is the first of those that are ready.
fn is_front(ready: &[u32], process: u32) -> bool
    ensures { Decides result (IsFront ready.now process) }
{
    match ready.first() {
        Some(first) => *first == process,
        None => false,
    }
}

/// Whether a frame isn't used.
fn is_free(of: FrameUse) -> bool
    ensures { Decides result (of ≡ frame.Free) }
{
    matches!(of, FrameUse::Free)
}

/// Whether two things to drop are one.
fn is_same(one: What, other: What) -> bool
    ensures { Decides result (one ≡ other) }
{
    match (one, other) {
        (What::All, What::All) => true,
        (What::Page(f), What::Page(g)) => f == g,
        (What::Seg(u), What::Seg(v)) => u == v,
        _ => false,
    }
}

impl Custody {
    /// Whether a processor takes part; one that isn't there doesn't.
    pub fn is_online(&self, cpu: u32) -> bool
        ensures { result ≡ (seat_at self.now.seats cpu).online }
    {
        match self.seats.get(cpu as usize) {
            Some(seat) => seat.online(),
            None => false,
        }
    }

    /// The process of a processor; none where there is no such processor.
    pub fn process_of(&self, cpu: u32) -> Option<u32>
        ensures { result ≡ (seat_at self.now.seats cpu).process }
    {
        match self.seats.get(cpu as usize) {
            Some(seat) => seat.process(),
            None => None,
        }
    }

    /// What a processor is to drop: the clear that is due there.
    pub fn due_of(&self, cpu: u32) -> Option<What>
        ensures { result ≡ (seat_at self.now.seats cpu).due }
    {
        match self.seats.get(cpu as usize) {
            Some(seat) => seat.due(),
            None => None,
        }
    }

    /// Whether a processor holds the page table word of a frame.
    pub fn holds_page(&self, cpu: u32, frame: u32) -> bool
        ensures { result ≡ has (seat_at self.now.seats cpu).pages frame }
    {
        match self.seats.get(cpu as usize) {
            Some(seat) => seat.holds_page(frame),
            None => false,
        }
    }

    /// Whether a processor holds the descriptor of a number of its process.
    pub fn holds_seg(&self, cpu: u32, number: u32) -> bool
        ensures { result ≡ has (seat_at self.now.seats cpu).segs number }
    {
        match self.seats.get(cpu as usize) {
            Some(seat) => seat.holds_seg(number),
            None => false,
        }
    }

    /// What a descriptor leads to; nothing, where there is no such process or number.
    pub fn descriptor(&self, process: u32, number: u32) -> DescriptorUse
        ensures { result ≡ (custody_of self.now).descriptor process number }
    {
        match self.descriptors.get(process as usize) {
            Some(row) => row.at(number),
            None => DescriptorUse::Free,
        }
    }

    /// Whether a page is being read into a frame.
    pub(crate) fn is_started(&self, frame: u32) -> bool
        ensures { result ≡ is_started (frame_at self.now.frames frame) }
    {
        matches!(self.frames.at(frame), FrameUse::Started { .. })
    }

    /// Whether the page in a frame is current.
    pub(crate) fn is_current(&self, frame: u32) -> bool
        ensures { result ≡ is_current_frame (frame_at self.now.frames frame) }
    {
        matches!(self.frames.at(frame), FrameUse::Current { .. })
    }

    /// Whether the page in a frame is on its way out.
    fn is_going(&self, frame: u32) -> bool
        ensures { result ≡ is_going_frame (frame_at self.now.frames frame) }
    {
        matches!(self.frames.at(frame), FrameUse::Going { .. })
    }

    /// Whether a descriptor is current.
    pub(crate) fn is_connected(&self, process: u32, number: u32) -> bool
        ensures { result ≡ is_current_descriptor ((custody_of self.now).descriptor process number) }
    {
        matches!(
            self.descriptor(process, number),
            DescriptorUse::Current { .. }
        )
    }

    /// Whether a descriptor is on its way out.
    fn is_cut(&self, process: u32, number: u32) -> bool
        ensures { result ≡ is_going_descriptor ((custody_of self.now).descriptor process number) }
    {
        matches!(
            self.descriptor(process, number),
            DescriptorUse::Going { .. }
        )
    }

    /// Whether a processor may take part from now on.
    pub(crate) fn may_come_online(&self, script: &Script, cpu: u32) -> bool
        ensures { Decides result (MayComeOnline script.now (custody_of self.now) cpu) }
    {
        cpu < script.processors() && !self.is_online(cpu)
    }

    /// Whether a processor may load a process.
    pub(crate) fn may_load(&self, cpu: u32, process: u32) -> bool
        ensures { Decides result (MayLoad (custody_of self.now) cpu process) }
    {
        self.is_online(cpu) && self.process_of(cpu).is_none() && is_front(&self.ready, process)
    }

    /// Whether a page is in no frame, and being read into none.
    pub(crate) fn is_in_no_frame(&self, uid: u32, page: u32) -> bool
        ensures { Decides result (IsInNoFrame (custody_of self.now) uid page) }
    {
        self.frames.is_in_none(uid, page)
    }

    /// Whether no page of a segment is in a frame, or being read into one.
    pub(crate) fn has_no_page(&self, uid: u32) -> bool
        ensures { Decides result (HasNoPage (custody_of self.now) uid) }
    {
        self.frames.has_none_of(uid)
    }

    /// Whether no page of a segment is being read into a frame.
    fn has_no_started(&self, uid: u32) -> bool
        ensures { Decides result ((f q : ℕ) → (custody_of self.now).frame f ≢ frame.Started uid q) }
    {
        self.frames.has_none_started(uid)
    }

    /// Whether a segment may move to another volume.
    pub(crate) fn may_move(&self, uid: u32) -> bool
        ensures { Decides result (MayRehome (custody_of self.now) uid) }
    {
        self.active.has(uid) && self.has_no_started(uid)
    }

    /// Whether a page may come into a free frame.
    pub(crate) fn may_start(&self, script: &Script, frame: u32, uid: u32, page: u32) -> bool
        ensures { Decides result (MayStart script.now (custody_of self.now) frame uid page) }
    {
        frame < script.frames()
            && is_free(self.frames.at(frame))
            && self.is_in_no_frame(uid, page)
            && self.active.has(uid)
    }

    /// Whether a page of an active segment was being read into a frame.
    fn was_started(&self, frame: u32, uid: u32, page: u32) -> bool
        ensures { Decides result (WasStarted (custody_of self.now) frame uid page) }
    {
        match self.frames.at(frame) {
            FrameUse::Started { uid: of, page: at } => {
                of == uid && at == page && self.active.has(uid)
            }
            _ => false,
        }
    }

    /// Whether a page may be in a frame from now on.
    pub(crate) fn may_be_here(&self, script: &Script, frame: u32, uid: u32, page: u32) -> bool
        ensures { Decides result (MayBeHere script.now (custody_of self.now) frame uid page) }
    {
        self.was_started(frame, uid, page) || self.may_start(script, frame, uid, page)
    }

    /// Whether a processor was told to drop this.
    pub(crate) fn may_clear(&self, cpu: u32, what: What) -> bool
        ensures { Decides result ((seat_at self.now.seats cpu).due ≡ Some what) }
    {
        match self.due_of(cpu) {
            Some(due) => is_same(due, what),
            None => false,
        }
    }

    /// Whether a processor may hold the page table word of a frame.
    pub(crate) fn may_fill_page(&self, script: &Script, cpu: u32, frame: u32) -> bool
        ensures { Decides result (MayFillPage script.now (custody_of self.now) cpu frame) }
    {
        cpu < script.processors() && self.is_current(frame) && !self.holds_page(cpu, frame)
    }

    /// Whether a processor may hold the descriptor of a number of its process.
    pub(crate) fn may_fill_seg(&self, cpu: u32, number: u32) -> bool
        ensures { Decides result (MayFillSeg (custody_of self.now) cpu number) }
    {
        match self.process_of(cpu) {
            Some(process) => self.is_connected(process, number) && !self.holds_seg(cpu, number),
            None => false,
        }
    }

    /// Whether a processor holds the page table word of a frame.
    fn somebody_holds_page(&self, frame: u32) -> bool
        ensures { result ≡ list_any (λ s. has s.pages frame) self.now.seats }
    {
        self.seats.iter().any(|seat| seat.holds_page(frame))
    }

    /// Whether a processor of a process holds its descriptor of a number.
    fn somebody_holds_seg(&self, process: u32, number: u32) -> bool
        ensures { result ≡ list_any (λ s. is_uid process s.process && has s.segs number) self.now.seats }
    {
        self.seats.iter().any(|seat| seat.holds_of(process, number))
    }

    /// Whether no processor holds the page table word of a frame.
    fn nobody_holds_page(&self, frame: u32) -> bool
        ensures { Decides result (NobodyHoldsPage (custody_of self.now) frame) }
    {
        !self.somebody_holds_page(frame)
    }

    /// Whether no processor of a process holds its descriptor of a number.
    fn nobody_holds_seg(&self, process: u32, number: u32) -> bool
        ensures { Decides result (NobodyHoldsSeg (custody_of self.now) process number) }
    {
        !self.somebody_holds_seg(process, number)
    }

    /// Whether the page in a frame may be gone, or back.
    pub(crate) fn may_end_page(&self, frame: u32) -> bool
        ensures { Decides result (MayEndPage (custody_of self.now) frame) }
    {
        self.is_going(frame) && self.nobody_holds_page(frame)
    }

    /// Whether a descriptor may be gone, or back.
    pub(crate) fn may_end_seg(&self, process: u32, number: u32) -> bool
        ensures { Decides result (MayEndSeg (custody_of self.now) process number) }
    {
        self.is_cut(process, number) && self.nobody_holds_seg(process, number)
    }

    /// Whether a descriptor leads to a segment.
    fn somebody_leads_to(&self, uid: u32) -> bool
        ensures { result ≡ list_any (λ row. list_any (λ x. is_uid uid (leads_to x)) row) self.now.descriptors }
    {
        self.descriptors.iter().any(|row| row.lead_to(uid))
    }

    /// Whether no descriptor leads to a segment.
    pub(crate) fn has_no_descriptor(&self, uid: u32) -> bool
        ensures { Decides result (HasNoDescriptor (custody_of self.now) uid) }
    {
        !self.somebody_leads_to(uid)
    }

    /// Whether a processor is to drop something.
    fn somebody_is_due(&self) -> bool
        ensures { result ≡ list_any (λ s. is_some s.due) self.now.seats }
    {
        self.seats.iter().any(|seat| seat.is_due())
    }

    /// Whether no processor is to drop anything.
    fn nobody_is_due(&self) -> bool
        ensures { Decides result ((d : ℕ) → (seat_at self.now.seats d).due ≡ None) }
    {
        !self.somebody_is_due()
    }

    /// Whether a descriptor is on its way out.
    fn some_descriptor_goes(&self) -> bool
        ensures { result ≡ list_any (λ row. list_any is_going_descriptor row) self.now.descriptors }
    {
        self.descriptors.iter().any(|row| row.some_goes())
    }

    /// Whether a descriptor is on its way out that leads to another segment.
    fn some_descriptor_goes_but_of(&self, uid: u32) -> bool
        ensures { result ≡ list_any (λ row. list_any (λ x. is_going_descriptor x && not (is_uid uid (leads_to x))) row)
            self.now.descriptors }
    {
        self.descriptors.iter().any(|row| row.some_goes_but_of(uid))
    }

    /// Whether the page in a frame is on its way out.
    fn a_page_goes(&self) -> bool
        ensures { Decides result (GoesPage (custody_of self.now)) }
    {
        self.frames.some_goes()
    }

    /// Whether a descriptor is on its way out.
    fn a_descriptor_goes(&self) -> bool
        ensures { Decides result (GoesDescriptor (custody_of self.now)) }
    {
        self.some_descriptor_goes()
    }

    /// Whether a page or a descriptor is on its way out.
    pub fn something_goes(&self) -> bool
        ensures { Decides result (SomethingGoes (custody_of self.now)) }
    {
        self.a_page_goes() || self.a_descriptor_goes()
    }

    /// Whether all pages that are on their way out are named.
    fn frames_are_named(&self, what: What) -> bool
        ensures { Decides result (FramesAreNamed (custody_of self.now) what) }
    {
        match what {
            What::All => true,
            What::Page(frame) => self.frames.all_go_in(frame),
            What::Seg(uid) => self.frames.all_go_of(uid),
        }
    }

    /// Whether all descriptors that are on their way out are named.
    fn descriptors_are_named(&self, what: What) -> bool
        ensures { Decides result (DescriptorsAreNamed (custody_of self.now) what) }
    {
        match what {
            What::All => true,
            What::Page(_) => !self.some_descriptor_goes(),
            What::Seg(uid) => !self.some_descriptor_goes_but_of(uid),
        }
    }

    /// Whether all that is on its way out is named.
    fn names_all_going(&self, what: What) -> bool
        ensures { Decides result (NamesAllGoing (custody_of self.now) what) }
    {
        self.frames_are_named(what) && self.descriptors_are_named(what)
    }

    /// Whether a processor may tell all others to drop what is named.
    pub(crate) fn may_signal(&self, cpu: u32, what: What) -> bool
        ensures { (p : Plan) → Decides result (MaySignal p (custody_of self.now) cpu what) }
    {
        self.is_online(cpu)
            && self.nobody_is_due()
            && self.something_goes()
            && self.names_all_going(what)
    }

    /// Whether nothing that is active lies in a directory.
    fn has_no_inferior(&self, uid: u32) -> bool
        ensures { (s : Store) → AreNodes s.nodes self.now.active → Decides result ((v : ℕ)
            → (custody_of self.now).active v ≡ true → superior_in (node_in s.nodes v) ≢ Some uid) }
    {
        self.active.has_none_below(uid)
    }

    /// Whether a segment or directory is active, and no page and no descriptor of it is in use.
    fn is_unused(&self, uid: u32) -> bool
        ensures { Decides result (IsUnused (custody_of self.now) uid) }
    {
        self.active.has(uid) && self.has_no_page(uid) && self.has_no_descriptor(uid)
    }

    /// Whether a segment or directory may be active no more.
    pub(crate) fn may_deactivate(&self, uid: u32) -> bool
        ensures { (s : Store) → AreNodes s.nodes self.now.active
            → Decides result (MayDeactivate s (custody_of self.now) uid) }
    {
        if self.is_unused(uid) {
            self.has_no_inferior(uid)
        } else {
            false
        }
    }
}
