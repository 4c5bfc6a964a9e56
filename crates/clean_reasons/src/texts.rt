ghost use Rattle.std.specs.Fmt.{WritesOnOk};
ghost use Rattle.std.specs.Prelude.{◌≡◌, Some};
ghost use Rattle.clean_reasons.specs.Texts.{absent_text, active_text, command_at_text, command_text};
ghost use Rattle.clean_reasons.specs.Texts.{descriptor_at_text, descriptor_text, effect_text, frame_text, held_text};
ghost use Rattle.clean_reasons.specs.Texts.{loss_text, own_page_text, page_of_text, pool_pages, ready_text};
ghost use Rattle.clean_reasons.specs.Texts.{reason_text, seat_text, spot_text, taker_text, what_text, word_text};

use crate::reasons::{
    Absent, ActiveReason, CommandAt, CommandReason, CommandWord, DescriptorAt, DescriptorReason,
    EffectReason, FrameReason, Held, Loss, PageOf, ReadyReason, Reason, SeatReason, Taker,
};
use assoc_mem::What;
use std::fmt;

/// What a signal names.
#[derive(Clone, Copy)]
struct WhatText(What);

impl fmt::Display for WhatText {
    ghost output = { λ t. Some (what_text t.0) };

    #[tactic(auto, unfolding(crate::specs::Texts::what_text))]
    fn fmt<W: fmt::Write>(&self, f: &mut fmt::Formatter<W>) -> fmt::Result {
        match self.0 {
            What::All => write!(f, "all"),
            What::Page(frame) => write!(f, "page {frame}"),
            What::Seg(uid) => write!(f, "seg {uid}"),
        }
    }
}

impl fmt::Display for DescriptorAt {
    ghost output = { λ d. Some (descriptor_at_text d) };

    fn fmt<W: fmt::Write>(&self, f: &mut fmt::Formatter<W>) -> fmt::Result {
        let DescriptorAt { process, number } = *self;
        write!(f, "descriptor {number} of process {process}")
    }
}

impl fmt::Display for PageOf {
    ghost output = { λ p. Some (page_of_text p) };

    fn fmt<W: fmt::Write>(&self, f: &mut fmt::Formatter<W>) -> fmt::Result {
        let PageOf { uid, page } = *self;
        write!(f, "page {page} of uid {uid}")
    }
}

impl fmt::Display for CommandAt {
    ghost output = { λ c. Some (command_at_text c) };

    fn fmt<W: fmt::Write>(&self, f: &mut fmt::Formatter<W>) -> fmt::Result {
        let CommandAt { process, place } = *self;
        write!(f, "command {place} of process {process}")
    }
}

/// Where a page is: in a frame, or being read into one.
#[derive(Clone, Copy)]
enum Spot {
    In(u32),
    ReadInto(u32),
}

impl fmt::Display for Spot {
    ghost output = { λ s. Some (spot_text s) };

    #[tactic(auto, unfolding(crate::specs::Texts::spot_text))]
    fn fmt<W: fmt::Write>(&self, f: &mut fmt::Formatter<W>) -> fmt::Result {
        match self {
            Spot::In(frame) => write!(f, "in frame {frame}"),
            Spot::ReadInto(frame) => write!(f, "being read into frame {frame}"),
        }
    }
}

impl fmt::Display for Held {
    ghost output = { λ h. Some (held_text h) };

    #[tactic(auto, unfolding(crate::specs::Texts::held_text))]
    fn fmt<W: fmt::Write>(&self, f: &mut fmt::Formatter<W>) -> fmt::Result {
        match self {
            Held::Descriptor(descriptor) => write!(f, "{descriptor}"),
            Held::Frame(frame) => write!(f, "frame {frame}"),
        }
    }
}

/// How many pages the page tables of a pool have room for.
fn pool_pages(pool: u32) -> u32
    ensures { result ≡ pool_pages pool }
{
    if pool == 0 {
        4
    } else if pool == 1 {
        16
    } else if pool == 2 {
        64
    } else {
        256
    }
}

impl CommandWord {
    /// The word itself.
    #[tactic(auto, unfolding(crate::specs::Texts::word_text))]
    fn as_str(self) -> &'static str
        ensures { result.now ≡ word_text self }
    {
        match self {
            CommandWord::MkDir => "mkdir",
            CommandWord::MkSeg => "mkseg",
            CommandWord::Initiate => "initiate",
            CommandWord::Terminate => "terminate",
            CommandWord::Read => "read",
            CommandWord::Write => "write",
            CommandWord::Add => "add",
            CommandWord::Await => "await",
            CommandWord::Acl => "acl",
            CommandWord::Length => "length",
            CommandWord::Truncate => "truncate",
            CommandWord::Delete => "delete",
            CommandWord::Move => "move",
            CommandWord::Status => "status",
            CommandWord::End => "end",
        }
    }
}

impl fmt::Display for CommandWord {
    ghost output = { λ w. Some (word_text w) };

    fn fmt<W: fmt::Write>(&self, f: &mut fmt::Formatter<W>) -> fmt::Result {
        f.write_str(self.as_str())
    }
}

impl fmt::Display for Absent {
    ghost output = { λ r. Some (absent_text r) };

    #[tactic(auto, unfolding(crate::specs::Texts::absent_text))]
    fn fmt<W: fmt::Write>(&self, f: &mut fmt::Formatter<W>) -> fmt::Result {
        match self {
            Absent::Processor { cpu } => write!(f, "the script has no processor {cpu}"),
            Absent::Frame { frame } => write!(f, "the script has no frame {frame}"),
            Absent::Process { process } => write!(f, "the script has no process {process}"),
        }
    }
}

impl fmt::Display for SeatReason {
    ghost output = { λ r. Some (seat_text r) };

    #[tactic(auto, unfolding(crate::specs::Texts::seat_text))]
    fn fmt<W: fmt::Write>(&self, f: &mut fmt::Formatter<W>) -> fmt::Result {
        match self {
            SeatReason::Online { cpu } => write!(f, "processor {cpu} is online"),
            SeatReason::Offline { cpu } => write!(f, "processor {cpu} isn't online"),
            SeatReason::Busy { cpu, process } => write!(f, "processor {cpu} has process {process}"),
            SeatReason::Idle { cpu } => write!(f, "processor {cpu} has no process"),
            SeatReason::OtherProcess { cpu, runs, process } => write!(
                f,
                "processor {cpu} has process {runs}, not process {process}"
            ),
            SeatReason::Due { what, cpu } => write!(
                f,
                "a clear of {what} is due at processor {cpu}",
                what = WhatText(*what)
            ),
            SeatReason::NoneDue { cpu } => write!(f, "no clear is due at processor {cpu}"),
            SeatReason::OtherDue { cpu, due, what } => write!(
                f,
                "the clear that is due at processor {cpu} is of {due}, not of {what}",
                due = WhatText(*due),
                what = WhatText(*what)
            ),
            SeatReason::HoldsAlready { cpu, held } => write!(
                f,
                "processor {cpu} holds {held} already"
            ),
            SeatReason::Holds { cpu, held } => write!(f, "processor {cpu} holds {held}"),
            SeatReason::Lacks { cpu, held } => write!(f, "processor {cpu} doesn't hold {held}"),
            SeatReason::Early {
                process,
                count,
                cpu,
            } => write!(
                f,
                "process {process} has had {count} of 16 command entries on processor {cpu}, and no await goes on"
            ),
        }
    }
}

impl fmt::Display for ReadyReason {
    ghost output = { λ r. Some (ready_text r) };

    #[tactic(auto, unfolding(crate::specs::Texts::ready_text))]
    fn fmt<W: fmt::Write>(&self, f: &mut fmt::Formatter<W>) -> fmt::Result {
        match self {
            ReadyReason::Empty => write!(f, "the ready list is empty"),
            ReadyReason::Front { front, process } => write!(
                f,
                "process {front} is the front of the ready list, not process {process}"
            ),
            ReadyReason::Last { process } => write!(
                f,
                "process {process} hasn't ended, and the ready list is empty"
            ),
        }
    }
}

impl fmt::Display for ActiveReason {
    ghost output = { λ r. Some (active_text r) };

    #[tactic(auto, unfolding(crate::specs::Texts::active_text))]
    fn fmt<W: fmt::Write>(&self, f: &mut fmt::Formatter<W>) -> fmt::Result {
        match self {
            ActiveReason::NoNode { uid } => write!(f, "uid {uid} isn't in the tree"),
            ActiveReason::Active { uid } => write!(f, "uid {uid} is active"),
            ActiveReason::Superior { superior, uid } => write!(
                f,
                "uid {superior}, the superior of uid {uid}, isn't active"
            ),
            ActiveReason::Pool { pool, places } => write!(
                f,
                "the pool of {pool} has {places} of {places} places taken",
                pool = pool_pages(*pool)
            ),
            ActiveReason::Inactive { uid } => write!(f, "uid {uid} isn't active"),
            ActiveReason::Inferior { inferior, uid } => write!(
                f,
                "uid {inferior}, an inferior of uid {uid}, is active"
            ),
        }
    }
}

/// Writes that a segment has a page there.
fn write_own_page<W: fmt::Write>(f: &mut fmt::Formatter<W>, page: PageOf, spot: Spot) -> fmt::Result
    ensures { WritesOnOk W.write_str_gives f.old result (own_page_text page spot) f.new }
{
    let PageOf { uid, page } = page;
    write!(f, "uid {uid} has its page {page} {spot}")
}

impl fmt::Display for FrameReason {
    ghost output = { λ r. Some (frame_text r) };

    #[tactic(auto, unfolding(crate::specs::Texts::frame_text))]
    fn fmt<W: fmt::Write>(&self, f: &mut fmt::Formatter<W>) -> fmt::Result {
        match *self {
            FrameReason::HasPage { page, frame } => write_own_page(f, page, Spot::In(frame)),
            FrameReason::HasRead { page, frame } => write_own_page(f, page, Spot::ReadInto(frame)),
            FrameReason::Bound { frame, page } => write!(f, "frame {frame} has {page}"),
            FrameReason::Read { frame, page } => write!(
                f,
                "frame {frame} is being read into, for {page}"
            ),
            FrameReason::PageIn { page, frame } => write!(f, "{page} is in frame {frame}"),
            FrameReason::PageRead { page, frame } => write!(
                f,
                "{page} is being read into frame {frame}"
            ),
            FrameReason::NotRead { frame } => write!(f, "frame {frame} isn't being read into"),
            FrameReason::NoPage { frame } => write!(f, "frame {frame} has no page"),
            FrameReason::Going { frame } => write!(f, "frame {frame} is going"),
            FrameReason::Stays { frame } => write!(f, "frame {frame} isn't going"),
            FrameReason::OtherPage { frame, other, page } => write!(
                f,
                "frame {frame} has {other}, not {page}"
            ),
            FrameReason::Unnamed { what, frame } => write!(
                f,
                "{what} doesn't name frame {frame}, which is going",
                what = WhatText(what)
            ),
        }
    }
}

impl fmt::Display for DescriptorReason {
    ghost output = { λ r. Some (descriptor_text r) };

    #[tactic(auto, unfolding(crate::specs::Texts::descriptor_text))]
    fn fmt<W: fmt::Write>(&self, f: &mut fmt::Formatter<W>) -> fmt::Result {
        match self {
            DescriptorReason::Leads { descriptor, uid } => write!(
                f,
                "{descriptor} leads to uid {uid}"
            ),
            DescriptorReason::Unknown { number, process } => write!(
                f,
                "number {number} of process {process} isn't known"
            ),
            DescriptorReason::StandsFor {
                number,
                process,
                known,
                uid,
            } => write!(
                f,
                "number {number} of process {process} stands for uid {known}, not for uid {uid}"
            ),
            DescriptorReason::Connected(descriptor) => write!(f, "{descriptor} is connected"),
            DescriptorReason::Unconnected(descriptor) => write!(f, "{descriptor} isn't connected"),
            DescriptorReason::Going(descriptor) => write!(f, "{descriptor} is going"),
            DescriptorReason::Stays(descriptor) => write!(f, "{descriptor} isn't going"),
            DescriptorReason::Unnamed { what, descriptor } => write!(
                f,
                "{what} doesn't name {descriptor}, which is going",
                what = WhatText(*what)
            ),
            DescriptorReason::NothingGoes => f.write_str("nothing is going"),
        }
    }
}

impl fmt::Display for CommandReason {
    ghost output = { λ r. Some (command_text r) };

    #[tactic(auto, unfolding(crate::specs::Texts::command_text))]
    fn fmt<W: fmt::Write>(&self, f: &mut fmt::Formatter<W>) -> fmt::Result {
        match self {
            CommandReason::NoneLeft { process } => write!(
                f,
                "process {process} has no command left"
            ),
            CommandReason::Refused { at, reply } => write!(
                f,
                "{at} is answered {reply}, and so has no frame"
            ),
            CommandReason::Stored { at, page } => write!(
                f,
                "{at} needs a frame, for {page} is stored"
            ),
            CommandReason::Tree { at, word } => write!(f, "{at} is {word}, and so has no frame"),
        }
    }
}

impl Taker {
    /// The first word of the command.
    #[tactic(auto, unfolding(crate::specs::Texts::taker_text))]
    fn as_str(self) -> &'static str
        ensures { result.now ≡ taker_text self }
    {
        match self {
            Taker::Acl => "acl",
            Taker::Terminate => "terminate",
            Taker::End => "end",
            Taker::Delete => "delete",
        }
    }
}

impl fmt::Display for Taker {
    ghost output = { λ t. Some (taker_text t) };

    fn fmt<W: fmt::Write>(&self, f: &mut fmt::Formatter<W>) -> fmt::Result {
        f.write_str(self.as_str())
    }
}

/// Writes that a page is taken away while it is there.
#[tactic(auto, unfolding(crate::specs::Texts::loss_text))]
fn write_loss<W: fmt::Write>(
    f: &mut fmt::Formatter<W>,
    loss: Loss,
    page: PageOf,
    spot: Spot,
) -> fmt::Result
    ensures { WritesOnOk W.write_str_gives f.old result (loss_text loss page spot) f.new }
{
    match loss {
        Loss::Deleted => write!(f, "delete takes effect while {page} is {spot}"),
        Loss::Past => write!(f, "truncate drops {page} while it is {spot}"),
        Loss::Cut => write!(f, "truncate leaves {page} all zeros while it is {spot}"),
    }
}

impl fmt::Display for EffectReason {
    ghost output = { λ r. Some (effect_text r) };

    #[tactic(auto, unfolding(crate::specs::Texts::effect_text))]
    fn fmt<W: fmt::Write>(&self, f: &mut fmt::Formatter<W>) -> fmt::Result {
        match *self {
            EffectReason::Connected { taker, descriptor } => {
                write!(f, "{taker} takes effect while {descriptor} is connected")
            }
            EffectReason::DeleteActive { uid } => write!(
                f,
                "delete takes effect while uid {uid} is active"
            ),
            EffectReason::LengthActive { uid } => write!(
                f,
                "length takes effect while uid {uid} is active"
            ),
            EffectReason::InFrame { loss, page, frame } => {
                write_loss(f, loss, page, Spot::In(frame))
            }
            EffectReason::BeingRead { loss, page, frame } => {
                write_loss(f, loss, page, Spot::ReadInto(frame))
            }
        }
    }
}

impl fmt::Display for Reason {
    ghost output = { λ r. Some (reason_text r) };

    #[tactic(auto, unfolding(crate::specs::Texts::reason_text))]
    fn fmt<W: fmt::Write>(&self, f: &mut fmt::Formatter<W>) -> fmt::Result {
        match self {
            Reason::Absent(reason) => write!(f, "{reason}"),
            Reason::Seat(reason) => write!(f, "{reason}"),
            Reason::Ready(reason) => write!(f, "{reason}"),
            Reason::Active(reason) => write!(f, "{reason}"),
            Reason::Frame(reason) => write!(f, "{reason}"),
            Reason::Descriptor(reason) => write!(f, "{reason}"),
            Reason::Command(reason) => write!(f, "{reason}"),
            Reason::Effect(reason) => write!(f, "{reason}"),
        }
    }
}
