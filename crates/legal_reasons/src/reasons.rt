ghost use Rattle.std.specs.Prelude.{◌≡◌, Some};
ghost use Rattle.std.specs.Fmt.{WritesOnOk};
ghost use Rattle.legal_reasons.specs.Texts.{command_at_text, command_text, reason_text, segment_text};
ghost use Rattle.legal_reasons.specs.Reasons.{has_since};

use book::Reply;
use std::fmt;

/// A command of a process.
#[derive(Clone, Copy)]
pub struct CommandAt {
    /// The process.
    pub process: u32,
    /// Its place among the commands of the process.
    pub place: u32,
}

/// Why the flat store doesn't allow an entry, why a book isn't complete, or which page of zeros is stored (own).
///
/// Processes, commands of a process, numbers of segments, pages and volumes are counted from 0; a uid is a segment's or
/// a directory's unique identifier.
#[derive(Clone, Copy)]
pub enum Reason {
    /// The script has no such process.
    NoProcess {
        process: u32,
    },
    /// The process has ended.
    Ended {
        process: u32,
    },
    /// Another command of the process is next than the given one.
    Next {
        process: u32,
        next: u32,
        given: u32,
    },
    /// The process is kept back by the initializer, which hasn't ended.
    Kept {
        process: u32,
    },
    /// No failure of a drive was told of the process since its last answer.
    DeviceFault {
        process: u32,
    },
    /// A reference is answered before any page is looked for.
    DeviceReference {
        at: CommandAt,
        reply: Reply,
    },
    /// A change of a segment's size is refused, and so moves no page.
    DeviceRefused {
        at: CommandAt,
        reply: Reply,
    },
    /// The command looks for no page.
    DeviceOther {
        at: CommandAt,
        reply: Reply,
    },
    /// The command is answered with this reply alone.
    Due {
        at: CommandAt,
        reply: Reply,
    },
    /// The command is answered with this reply, or with a drive's failure.
    DueOrDevice {
        at: CommandAt,
        reply: Reply,
    },
    /// A segment must move to a volume before the command is answered.
    MoveFirst {
        uid: u32,
        volume: u32,
        at: CommandAt,
    },
    /// A segment must move to a volume before the command is answered, unless it is with a drive's failure.
    MoveDevice {
        uid: u32,
        volume: u32,
        at: CommandAt,
    },
    /// The page isn't stored.
    Unstored {
        uid: u32,
        page: u32,
    },
    /// The page has a word other than 0; the offset is counted from the start of the page.
    WordAt {
        uid: u32,
        page: u32,
        offset: u32,
    },
    /// The process hasn't ended.
    Unended {
        process: u32,
    },
    /// The next command of the process is neither a write nor an addition.
    MoveCommand(CommandAt),
    /// The number stands for nothing in the process.
    Unknown {
        process: u32,
        number: u32,
    },
    /// The number of the process stands for another segment than the given one.
    StandsFor {
        process: u32,
        number: u32,
        uid: u32,
        given: u32,
    },
    /// The command is refused before a record is looked for.
    MoveReply {
        at: CommandAt,
        reply: Reply,
    },
    /// The word that the command would leave is 0.
    MoveZero(CommandAt),
    /// The page is stored already.
    MoveStored {
        uid: u32,
        page: u32,
    },
    /// The home of the segment has a free record.
    MoveRecord {
        uid: u32,
        volume: u32,
    },
    /// No volume has room for the segment.
    MoveNone {
        uid: u32,
    },
    /// Another volume is the first with room for the segment than the given one: this one.
    MoveOther {
        uid: u32,
        volume: u32,
    },
    /// The summary begins though the process has this command before it.
    PartSummary(CommandAt),
    /// The listing ends though the process has this command before it.
    PartEnd(CommandAt),
    /// The page is stored, and all its words are 0.
    Zeros {
        uid: u32,
        page: u32,
    },
}

impl Reason {
    /// Whether its sentence speaks of a state, and not of the line itself, of the script or of the reply that is due.
    pub fn has_since(self) -> bool
        ensures { result ≡ has_since self }
    {
        matches!(
            self,
            Reason::Ended { .. }
                | Reason::Next { .. }
                | Reason::Kept { .. }
                | Reason::DeviceFault { .. }
                | Reason::Unstored { .. }
                | Reason::WordAt { .. }
                | Reason::Unended { .. }
                | Reason::MoveCommand(_)
                | Reason::Unknown { .. }
                | Reason::StandsFor { .. }
                | Reason::MoveStored { .. }
                | Reason::MoveRecord { .. }
                | Reason::MoveNone { .. }
                | Reason::MoveOther { .. }
                | Reason::PartSummary(_)
                | Reason::PartEnd(_)
                | Reason::Zeros { .. }
        )
    }
}

impl fmt::Display for CommandAt {
    ghost output = { λ c. Some (command_at_text c) };

    fn fmt<W: fmt::Write>(&self, f: &mut fmt::Formatter<W>) -> fmt::Result {
        let CommandAt { process, place } = *self;
        write!(f, "command {place} of process {process}")
    }
}

/// Writes the text of a reason that speaks of a command's reply or of what it needs; of any other nothing.
#[tactic(auto, unfolding(crate::specs::Texts::command_text))]
fn write_of_command<W: fmt::Write>(f: &mut fmt::Formatter<W>, reason: Reason) -> fmt::Result
    ensures { WritesOnOk W.write_str_gives f.old result (command_text reason) f.new }
{
    match reason {
        Reason::DeviceReference { at, reply } => write!(
            f,
            "{at} is answered {reply}, in whose place device can't stand"
        ),
        Reason::DeviceRefused { at, reply } => write!(
            f,
            "{at} is refused with {reply}, and device stands only for its done"
        ),
        Reason::DeviceOther { at, reply } => write!(f, "{at} is answered {reply}, never device"),
        Reason::Due { at, reply } => write!(f, "{at} is answered {reply}"),
        Reason::DueOrDevice { at, reply } => write!(f, "{at} is answered {reply}, or device"),
        Reason::MoveFirst { uid, volume, at } => write!(
            f,
            "uid {uid} must move to volume {volume} before {at} is answered"
        ),
        Reason::MoveDevice { uid, volume, at } => write!(
            f,
            "uid {uid} must move to volume {volume}, or {at} is answered device"
        ),
        Reason::MoveReply { at, reply } => write!(
            f,
            "{at} is answered {reply}, and so moves nothing"
        ),
        Reason::MoveZero(at) => write!(f, "the new word of {at} is 0"),
        _ => Ok(()),
    }
}

/// Writes the text of a reason that speaks of a segment, and of one that `write_of_command` has.
#[tactic(auto, unfolding(crate::specs::Texts::segment_text))]
fn write_of_segment<W: fmt::Write>(f: &mut fmt::Formatter<W>, reason: Reason) -> fmt::Result
    ensures { WritesOnOk W.write_str_gives f.old result (segment_text reason) f.new }
{
    match reason {
        Reason::Unstored { uid, page } => write!(f, "page {page} of uid {uid} isn't stored"),
        Reason::WordAt { uid, page, offset } => write!(
            f,
            "page {page} of uid {uid} has a word other than 0 at {offset}"
        ),
        Reason::Unknown { process, number } => {
            write!(f, "number {number} of process {process} isn't known")
        }
        Reason::StandsFor {
            process,
            number,
            uid,
            given,
        } => write!(
            f,
            "number {number} of process {process} stands for uid {uid}, not for uid {given}"
        ),
        Reason::MoveStored { uid, page } => write!(f, "page {page} of uid {uid} is stored"),
        Reason::MoveRecord { uid, volume } => write!(
            f,
            "volume {volume}, the home of uid {uid}, has a free record"
        ),
        Reason::MoveNone { uid } => write!(f, "no volume has room for uid {uid}"),
        Reason::MoveOther { uid, volume } => {
            write!(f, "volume {volume} is the first with room for uid {uid}")
        }
        Reason::Zeros { uid, page } => write!(
            f,
            "page {page} of uid {uid} is stored, and all its words are 0"
        ),
        other => write_of_command(f, other),
    }
}

impl fmt::Display for Reason {
    ghost output = { λ r. Some (reason_text r) };

    #[tactic(auto, unfolding(crate::specs::Texts::reason_text))]
    fn fmt<W: fmt::Write>(&self, f: &mut fmt::Formatter<W>) -> fmt::Result {
        match *self {
            Reason::NoProcess { process } => write!(f, "the script has no process {process}"),
            Reason::Ended { process } => write!(f, "process {process} has ended"),
            Reason::Next {
                process,
                next,
                given,
            } => write!(
                f,
                "command {next} of process {process} is next, not command {given}"
            ),
            Reason::Kept { process } => write!(
                f,
                "process {process} is kept back by the initializer, which hasn't ended"
            ),
            Reason::DeviceFault { process } => write!(
                f,
                "device needs a fault, and none of process {process} stands"
            ),
            Reason::Unended { process } => write!(f, "process {process} hasn't ended"),
            Reason::MoveCommand(at) => write!(f, "{at}, which is next, is neither write nor add"),
            Reason::PartSummary(at) => write!(f, "the summary begins while {at} is next"),
            Reason::PartEnd(at) => write!(f, "the input ends while {at} is next"),
            other => write_of_segment(f, other),
        }
    }
}
