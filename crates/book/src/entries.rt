use crate::replies::Reply;
use assoc_mem::What;

/// An event of a run (own). Processes, places, processors, frames, segment numbers and pages are counted from 0; a uid
/// is a segment's or a directory's unique identifier.
///
/// Most entries tell who holds what: which segments are active, which page is in which frame, which descriptors are
/// connected, and what the associative memories of processors hold (Bensoussan, Clingen and Daley 1972).
#[derive(Clone, Copy)]
pub enum Entry {
    /// A command of a process was answered: the process, the command's place among its commands, the processor, the
    /// frame through which a word was reached (none where it was reached without one), and the reply. A try of an
    /// `await` has an entry of its own.
    Do {
        process: u32,
        place: u32,
        cpu: u32,
        frame: Option<u32>,
        reply: Reply,
    },
    /// A page that was all zeros is stored no more: its record was given back.
    Release {
        uid: u32,
        page: u32,
    },
    /// A call of a drive failed, for this process; for none where it was one of the shutdown.
    Fault {
        process: Option<u32>,
    },
    /// For the write of this process the segment moved to the volume: that is its home from now on.
    Moved {
        process: u32,
        uid: u32,
        volume: u32,
    },
    /// The processor takes part from now on.
    Online {
        cpu: u32,
    },
    /// The processor runs the process, which was the first of those that are ready.
    Load {
        cpu: u32,
        process: u32,
    },
    /// The processor runs no process any more.
    Leave {
        cpu: u32,
    },
    /// The segment or directory has an entry of the active segment table, with a page table, from now on.
    Activate {
        uid: u32,
    },
    /// It has none any more.
    Deactivate {
        uid: u32,
    },
    /// The page is being read into the frame.
    Start {
        frame: u32,
        uid: u32,
        page: u32,
    },
    /// The read into the frame failed.
    Lose {
        frame: u32,
    },
    /// The page is in the frame from now on.
    Here {
        frame: u32,
        uid: u32,
        page: u32,
    },
    /// The process's descriptor of that segment number leads to the segment's page table from now on.
    Connect {
        process: u32,
        number: u32,
        uid: u32,
    },
    /// The page in this frame is on its way out: its page table word leads to it no more.
    Take {
        frame: u32,
    },
    /// The descriptor is on its way out: it leads to no page table any more.
    Cut {
        process: u32,
        number: u32,
    },
    /// The processor dropped what is named from its associative memory, and told every other one to do so.
    Signal {
        cpu: u32,
        what: What,
    },
    /// The processor was told so, and dropped it.
    Clear {
        cpu: u32,
        what: What,
    },
    /// The processor holds the descriptor of that number of its process, as the newest.
    FillSeg {
        cpu: u32,
        number: u32,
    },
    /// The processor holds the page table word of the frame, as the newest.
    FillPage {
        cpu: u32,
        frame: u32,
    },
    /// The page in this frame has left it.
    GonePage {
        frame: u32,
    },
    /// The page in this frame was on its way out, and stays.
    BackPage {
        frame: u32,
    },
    /// The descriptor is gone.
    GoneSeg {
        process: u32,
        number: u32,
    },
    /// The descriptor was on its way out, and stays.
    BackSeg {
        process: u32,
        number: u32,
    },
}
