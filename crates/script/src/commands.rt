ghost use Rattle.std.specs.Prelude.{◌≡◌};
ghost use Rattle.script.specs.References.{alters, new_word, permits, reference_of};

use mnames::{Mode, Path, Row, Who};
use mword::Word;
use std::marker::Model;

/// What a process asks of the supervisor or of its virtual memory, one line of a script (own).
///
/// Segments and directories are named by paths, and segments, once initiated, by the numbers that their
/// process knows them by, 0 to 255. An offset counts words from the start of the segment; volumes count
/// from 0 in the order of the script.
#[derive(Drop)]
pub enum Command {
    /// Makes a directory, with its entry on a volume.
    MkDir {
        path: Path,
        volume: u32,
    },
    /// Makes a segment of so many pages, of 1024 words each, on a volume.
    MkSeg {
        path: Path,
        pages: u32,
        volume: u32,
    },
    /// Makes the segment known to the process by a number.
    Initiate {
        path: Path,
    },
    /// The number stands for nothing from then on.
    Terminate {
        number: u32,
    },
    /// Reads a word.
    Read {
        number: u32,
        offset: u32,
    },
    /// Writes a word.
    Write {
        number: u32,
        offset: u32,
        word: Word,
    },
    /// Adds to a word, modulo 2^36.
    Add {
        number: u32,
        offset: u32,
        word: Word,
    },
    /// Reads a word until it is this one, at most so many times.
    Await {
        number: u32,
        offset: u32,
        word: Word,
        tries: u32,
    },
    /// Sets a row of the segment's access control list.
    Acl {
        path: Path,
        row: Row,
        mode: Mode,
    },
    /// Changes a segment's length, in pages.
    Length {
        path: Path,
        pages: u32,
    },
    /// The words of a segment from this one on become 0.
    Truncate {
        path: Path,
        words: u32,
    },
    /// Deletes a segment or a directory.
    Delete {
        path: Path,
    },
    /// Moves quota, in pages, between a directory and the one above it: down to it where the amount is
    /// positive, back where it is negative.
    Move {
        path: Path,
        amount: i32,
    },
    /// Asks what a segment or a directory is like.
    Status {
        path: Path,
    },
    /// The process ends.
    End,
}

/// What a reference does to the word that it names (Bensoussan, Clingen and Daley 1972; `Add` is own).
#[derive(Clone, Copy, PartialEq, Eq)]
pub enum RefKind {
    /// Reads the word.
    Read,
    /// Writes this word.
    Write(Word),
    /// Reads the word, and writes its sum with this one, modulo 2^36.
    Add(Word),
}

/// A reference of a process to a word of a segment, by the number that it knows the segment by and an offset in words
/// (Bensoussan, Clingen and Daley 1972).
#[derive(Clone, Copy, PartialEq, Eq)]
pub struct Reference {
    pub number: u32,
    pub offset: u32,
    pub kind: RefKind,
}

impl RefKind {
    /// Whether a mode of access permits a reference: a read asks for the right to read, a write for that to write, an
    /// addition for both. (Source: Bensoussan, Clingen and Daley 1972.)
    pub fn permitted_by(&self, mode: Mode) -> bool
        ensures { result ≡ permits mode self.now }
    {
        match self {
            RefKind::Read => matches!(mode, Mode::Read | Mode::Both),
            RefKind::Write(_) => matches!(mode, Mode::Write | Mode::Both),
            RefKind::Add(_) => mode == Mode::Both,
        }
    }

    /// Whether a reference writes the word. (Source: Bensoussan, Clingen and Daley 1972.)
    pub fn alters(&self) -> bool
        ensures { result ≡ alters self.now }
    {
        match self {
            RefKind::Read => false,
            RefKind::Write(_) | RefKind::Add(_) => true,
        }
    }

    /// The word that stands in the place of another after a reference. (Source: Bensoussan, Clingen and Daley 1972.)
    pub fn new_word(&self, old: Word) -> Word
        ensures { result ≡ new_word old self.now }
    {
        match self {
            RefKind::Read => old,
            RefKind::Write(word) => *word,
            RefKind::Add(word) => old.plus(*word),
        }
    }
}

impl Command {
    /// The reference that the command makes, where it is one; a try of `Await` is a read. `None` exactly for the
    /// others, which are tree commands.
    pub fn reference(&self) -> Option<Reference>
        ensures { result ≡ reference_of self.now }
    {
        let (number, offset, kind) = match *self {
            Command::Read { number, offset } => (number, offset, RefKind::Read),
            Command::Write {
                number,
                offset,
                word,
            } => (number, offset, RefKind::Write(word)),
            Command::Add {
                number,
                offset,
                word,
            } => (number, offset, RefKind::Add(word)),
            Command::Await { number, offset, .. } => (number, offset, RefKind::Read),
            _ => return None,
        };
        Some(Reference {
            number,
            offset,
            kind,
        })
    }
}

/// A process of the script: for whom it runs, and what it does. A contract sees the principal and
/// the list of commands.
#[derive(Drop)]
pub struct Process {
    who: Who,
    commands: Vec<Command>,
}

impl Model for Process {
    ghost use Rattle.script.specs.Plans.{ProcessPlan};

    ghost Value = { ProcessPlan };

    ghost view = { λ p. record { who = p.who; commands = p.commands.items } };
}

impl Process {
    /// The process of a principal, with these commands.
    pub(crate) fn new(who: Who, commands: Vec<Command>) -> Process
        ensures { result ≡ record { who = who; commands = commands.items } }
    {
        Process { who, commands }
    }

    /// For whom the process runs.
    pub fn who(&self) -> &Who
        ensures { result.now ≡ self.now.who }
    {
        &self.who
    }

    /// Its commands, in order; the last is `End`.
    pub fn commands(&self) -> &[Command]
        ensures { result.now ≡ self.now.commands }
    {
        &self.commands
    }
}
