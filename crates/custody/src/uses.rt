ghost use Rattle.std.specs.Prelude.{◌≡◌, OnOk, []};
ghost use Rattle.custody_model.specs.Custody.{page_of};
ghost use Rattle.custody.specs.Counts.{count_at};
ghost use Rattle.custody.specs.Uses.{AreFewUses, AreReady, KeepUses, ShiftUses, descriptor_mark, frame_mark};
ghost use Rattle.custody.specs.Uses.{going_key, kind_key, page_key, page_number, started_key, uid_key};

use crate::NoMemory;
use crate::counts::Counts;
use custody_model::{DescriptorUse, FrameUse};
use std::alloc::Global;
use std::marker::Model;

/// What is counted of the use of a frame or a descriptor: its segment, and whether it is on its way out.
#[derive(Clone, Copy)]
pub(crate) struct Mark {
    pub(crate) uid: u32,
    pub(crate) going: bool,
}

/// What is counted of a frame's use.
pub(crate) fn frame_mark(of: FrameUse) -> Option<Mark>
    ensures { result ≡ frame_mark of }
{
    match of {
        FrameUse::Free => None,
        FrameUse::Started { uid, .. } | FrameUse::Current { uid, .. } => Some(Mark {
            uid,
            going: false,
        }),
        FrameUse::Going { uid, .. } => Some(Mark { uid, going: true }),
    }
}

/// The page that is in a frame, or is being read into it.
pub(crate) fn page_of(of: FrameUse) -> Option<(u32, u32)>
    ensures { result ≡ page_of of }
{
    match of {
        FrameUse::Free => None,
        FrameUse::Started { uid, page }
        | FrameUse::Current { uid, page }
        | FrameUse::Going { uid, page } => Some((uid, page)),
    }
}

/// The key of its segment, where a page of it is being read into the frame.
pub(crate) fn started_key(of: FrameUse) -> Option<u32>
    ensures { result ≡ started_key of }
{
    match of {
        FrameUse::Started { uid, .. } => Some(uid),
        _ => None,
    }
}

/// The number under which a page is counted, below 65,536. Pages of the 255 uids in a row have numbers of their own, if
/// they are below 257.
pub(crate) fn page_number(uid: u32, page: u32) -> u32
    ensures { result ≡ page_number uid page }
{
    ((257 * u64::from(uid) + u64::from(page)) % 65_536) as u32
}

/// The key of the page that is in a frame, or is being read into it.
pub(crate) fn page_key(of: FrameUse) -> Option<u32>
    ensures { result ≡ page_key of }
{
    match of {
        FrameUse::Free => None,
        FrameUse::Started { uid, page }
        | FrameUse::Current { uid, page }
        | FrameUse::Going { uid, page } => Some(page_number(uid, page)),
    }
}

/// What is counted of a descriptor's use.
pub(crate) fn descriptor_mark(of: DescriptorUse) -> Option<Mark>
    ensures { result ≡ descriptor_mark of }
{
    match of {
        DescriptorUse::Free => None,
        DescriptorUse::Current { uid } => Some(Mark { uid, going: false }),
        DescriptorUse::Going { uid } => Some(Mark { uid, going: true }),
    }
}

/// The key of its segment.
fn uid_key(mark: Option<Mark>) -> Option<u32>
    ensures { result ≡ uid_key mark }
{
    mark.map(|mark| mark.uid)
}

/// The key of its segment, where it is on its way out.
fn going_key(mark: Option<Mark>) -> Option<u32>
    ensures { result ≡ going_key mark }
{
    match mark {
        Some(mark) if mark.going => Some(mark.uid),
        _ => None,
    }
}

/// The key of whether it is on its way out.
fn kind_key(mark: Option<Mark>) -> Option<u32>
    ensures { result ≡ kind_key mark }
{
    match mark {
        Some(mark) if mark.going => Some(1),
        Some(_) => Some(0),
        None => None,
    }
}

/// How many uses there are of each segment; how many of them are on their way out; and how many are at all, and aren't.
#[derive(Drop)]
pub(crate) struct UseCounts {
    uids: Counts,
    going: Counts,
    kinds: Counts,
}

impl Model for UseCounts {
    ghost use Rattle.custody.specs.Uses.{UseCounted};

    ghost Value = { UseCounted };

    ghost view = { λ c. record { uids = c.uids; going = c.going; kinds = c.kinds } };
}

impl UseCounts {
    /// Nothing is used.
    pub(crate) fn new(alloc: Global) -> UseCounts
        ensures { result ≡ record { uids = []; going = []; kinds = [] } }
    {
        UseCounts {
            uids: Counts::new(alloc),
            going: Counts::new(alloc),
            kinds: Counts::new(alloc),
        }
    }

    /// How many uses there are of a segment.
    pub(crate) fn of(&self, uid: u32) -> u64
        ensures { result ≡ count_at self.now.uids uid }
    {
        self.uids.at(uid)
    }

    /// How many uses of a segment are on their way out.
    pub(crate) fn going_of(&self, uid: u32) -> u64
        ensures { result ≡ count_at self.now.going uid }
    {
        self.going.at(uid)
    }

    /// How many uses are on their way out.
    pub(crate) fn going(&self) -> u64
        ensures { result ≡ count_at self.now.kinds 1 }
    {
        self.kinds.at(1)
    }

    /// How many uses aren't.
    pub(crate) fn staying(&self) -> u64
        ensures { result ≡ count_at self.now.kinds 0 }
    {
        self.kinds.at(0)
    }

    /// Takes memory to count a use.
    ///
    /// # Errors
    /// `NoMemory` is want of memory.
    #[tactic(auto, using(crate::proofs::CountLaws::keeps_all))]
    pub(crate) fn reserve(&mut self, to: Option<Mark>) -> Result<(), NoMemory>
        ensures keeps { KeepUses self.old self.new }
        ensures ok { OnOk result (AreReady self.new to) }
    {
        self.uids.reserve(uid_key(to))?;
        self.going.reserve(going_key(to))?;
        self.kinds.reserve(kind_key(to))
    }

    /// What was one use is another from now on.
    pub(crate) fn shift(&mut self, from: Option<Mark>, to: Option<Mark>)
        requires ready { AreReady self.old to }
        requires few { AreFewUses self.old }
        ensures { ShiftUses self.old self.new from to }
    {
        self.uids.shift(uid_key(from), uid_key(to));
        self.going.shift(going_key(from), going_key(to));
        self.kinds.shift(kind_key(from), kind_key(to));
    }
}
