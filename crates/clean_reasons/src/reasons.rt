ghost use Rattle.std.specs.Prelude.{◌≡◌};
ghost use Rattle.clean_reasons.specs.Reasons.{has_since};

use assoc_mem::What;
use book::Reply;

/// A descriptor: its process and its number.
#[derive(Clone, Copy)]
pub struct DescriptorAt {
    /// The process.
    pub process: u32,
    /// Its number.
    pub number: u32,
}

/// A page of a segment.
#[derive(Clone, Copy)]
pub struct PageOf {
    /// The segment.
    pub uid: u32,
    /// Its number in the segment.
    pub page: u32,
}

/// A command of a process.
#[derive(Clone, Copy)]
pub struct CommandAt {
    /// The process.
    pub process: u32,
    /// Its place among the commands of the process.
    pub place: u32,
}

/// What a processor holds for references.
#[derive(Clone, Copy)]
pub enum Held {
    /// A descriptor of its process.
    Descriptor(DescriptorAt),
    /// The page table word of this frame.
    Frame(u32),
}

/// What an entry names that the script doesn't have.
#[derive(Clone, Copy)]
pub enum Absent {
    /// The script has no such processor.
    Processor { cpu: u32 },
    /// The script has no such frame.
    Frame { frame: u32 },
    /// The script has no such process.
    Process { process: u32 },
}

/// What a processor is like, or holds.
#[derive(Clone, Copy)]
pub enum SeatReason {
    /// It takes part already.
    Online { cpu: u32 },
    /// It doesn't take part.
    Offline { cpu: u32 },
    /// It runs a process, and was to load one.
    Busy { cpu: u32, process: u32 },
    /// It runs no process.
    Idle { cpu: u32 },
    /// It runs another process than the one that is named.
    OtherProcess { cpu: u32, runs: u32, process: u32 },
    /// It is still to drop what was named before.
    Due { what: What, cpu: u32 },
    /// It isn't to drop anything.
    NoneDue { cpu: u32 },
    /// It is to drop another thing than the one that is named.
    OtherDue { cpu: u32, due: What, what: What },
    /// It holds what it was to fill in.
    HoldsAlready { cpu: u32, held: Held },
    /// It holds a descriptor that was to be gone or back, or a frame whose page was to be.
    Holds { cpu: u32, held: Held },
    /// It doesn't hold what a reference goes through.
    Lacks { cpu: u32, held: Held },
    /// Its process hasn't had its turn: so many command entries, and no try of an `await` that goes on.
    Early { process: u32, count: u64, cpu: u32 },
}

/// What the list of ready processes is like.
#[derive(Clone, Copy)]
pub enum ReadyReason {
    /// No process is ready.
    Empty,
    /// Another process is its front than the one that is named.
    Front { front: u32, process: u32 },
    /// The process hasn't ended, and no other one is ready.
    Last { process: u32 },
}

/// What a segment or directory is like among those that are active.
#[derive(Clone, Copy)]
pub enum ActiveReason {
    /// It isn't in the tree.
    NoNode { uid: u32 },
    /// It is active already.
    Active { uid: u32 },
    /// Its superior isn't active.
    Superior { superior: u32, uid: u32 },
    /// All places of its pool are taken; pools are numbered from the one of the shortest page tables on.
    Pool { pool: u32, places: u32 },
    /// It isn't active.
    Inactive { uid: u32 },
    /// An inferior of it is active.
    Inferior { inferior: u32, uid: u32 },
}

/// What a frame is used for.
#[derive(Clone, Copy)]
pub enum FrameReason {
    /// A page of a segment is in it, which was to be active no more.
    HasPage {
        page: PageOf,
        frame: u32,
    },
    /// A page of a segment is being read into it, which was to be active no more, or to move.
    HasRead {
        page: PageOf,
        frame: u32,
    },
    /// A page is in the frame into which another was to come.
    Bound {
        frame: u32,
        page: PageOf,
    },
    /// It is being read into already.
    Read {
        frame: u32,
        page: PageOf,
    },
    /// The page that is named is in a frame.
    PageIn {
        page: PageOf,
        frame: u32,
    },
    /// The page that is named is being read into a frame.
    PageRead {
        page: PageOf,
        frame: u32,
    },
    /// It isn't being read into.
    NotRead {
        frame: u32,
    },
    /// It has no page.
    NoPage {
        frame: u32,
    },
    /// Its page is on its way out already.
    Going {
        frame: u32,
    },
    /// Its page isn't on its way out.
    Stays {
        frame: u32,
    },
    /// It has another page than the one of the reference.
    OtherPage {
        frame: u32,
        other: PageOf,
        page: PageOf,
    },
    /// Its page is on its way out, and a signal doesn't name it.
    Unnamed {
        what: What,
        frame: u32,
    },
}

/// What a descriptor leads to, and what its number stands for.
#[derive(Clone, Copy)]
pub enum DescriptorReason {
    /// It leads to a segment that was to be active no more.
    Leads {
        descriptor: DescriptorAt,
        uid: u32,
    },
    /// Its number stands for nothing.
    Unknown {
        number: u32,
        process: u32,
    },
    /// Its number stands for another segment than the one that is named.
    StandsFor {
        number: u32,
        process: u32,
        known: u32,
        uid: u32,
    },
    /// It is connected already.
    Connected(DescriptorAt),
    /// It isn't connected.
    Unconnected(DescriptorAt),
    /// It is on its way out already.
    Going(DescriptorAt),
    /// It isn't on its way out.
    Stays(DescriptorAt),
    /// It is on its way out, and a signal doesn't name it.
    Unnamed {
        what: What,
        descriptor: DescriptorAt,
    },
    /// No page and no descriptor is on its way out.
    NothingGoes,
}

/// The first word of a command.
#[derive(Clone, Copy)]
pub enum CommandWord {
    /// Makes a directory.
    MkDir,
    /// Makes a segment.
    MkSeg,
    /// Makes a segment known by a number.
    Initiate,
    /// The number stands for nothing from then on.
    Terminate,
    /// Reads a word.
    Read,
    /// Writes a word.
    Write,
    /// Adds to a word.
    Add,
    /// Reads a word until it is the one that is awaited.
    Await,
    /// Sets a row of an access control list.
    Acl,
    /// Changes a segment's length.
    Length,
    /// Words of a segment become 0.
    Truncate,
    /// Deletes a segment or a directory.
    Delete,
    /// Moves quota between a directory and the one above it.
    Move,
    /// Asks what a segment or a directory is like.
    Status,
    /// The process ends.
    End,
}

/// What a command is, or is answered, and how it goes with a frame or without one.
#[derive(Clone, Copy)]
pub enum CommandReason {
    /// The process has no command left.
    NoneLeft { process: u32 },
    /// A reference is refused, and has a frame.
    Refused { at: CommandAt, reply: Reply },
    /// A reference reaches a word without a frame, and its page is stored.
    Stored { at: CommandAt, page: PageOf },
    /// A tree command has a frame.
    Tree { at: CommandAt, word: CommandWord },
}

/// The tree command that takes a descriptor away.
#[derive(Clone, Copy)]
pub enum Taker {
    /// One that changes an access control list.
    Acl,
    /// One whose number is to stand for nothing.
    Terminate,
    /// The end of a process.
    End,
    /// One that deletes a segment or a directory.
    Delete,
}

/// How a tree command takes a page away.
#[derive(Clone, Copy)]
pub enum Loss {
    /// What it is a page of is deleted.
    Deleted,
    /// It is past the words that are kept.
    Past,
    /// It is the page that is cut, and keeps no word other than 0.
    Cut,
}

/// What a tree command takes away that is still in use.
#[derive(Clone, Copy)]
pub enum EffectReason {
    /// A descriptor is connected: one that leads to what is deleted, or to the segment whose access control list
    /// changes, the one whose number is to stand for nothing, or one of the process that ends.
    Connected {
        taker: Taker,
        descriptor: DescriptorAt,
    },
    /// What is deleted is active.
    DeleteActive {
        uid: u32,
    },
    /// The segment is active whose length changes.
    LengthActive {
        uid: u32,
    },
    /// A page that is taken away is in a frame.
    InFrame {
        loss: Loss,
        page: PageOf,
        frame: u32,
    },
    /// A page that is taken away is being read into a frame.
    BeingRead {
        loss: Loss,
        page: PageOf,
        frame: u32,
    },
}

/// Why custody doesn't allow an entry (own). Each is a sentence of the state before the entry, but for a few that speak
/// of the entry, of the script, or of what the command is answered.
#[derive(Clone, Copy)]
pub enum Reason {
    /// The script hasn't what the entry names.
    Absent(Absent),
    /// What a processor is like.
    Seat(SeatReason),
    /// What the ready list is like.
    Ready(ReadyReason),
    /// What a segment or directory is like.
    Active(ActiveReason),
    /// What a frame is like.
    Frame(FrameReason),
    /// What a descriptor is like.
    Descriptor(DescriptorReason),
    /// What a command is like.
    Command(CommandReason),
    /// What a command takes away.
    Effect(EffectReason),
}

impl Reason {
    /// Whether the reason is a sentence that some line of the listing made true.
    pub fn has_since(self) -> bool
        ensures { result ≡ has_since self }
    {
        match self {
            Reason::Absent(_) => false,
            Reason::Command(CommandReason::Stored { .. }) => true,
            Reason::Command(_) => false,
            _ => true,
        }
    }
}
