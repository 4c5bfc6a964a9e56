ghost use Rattle.std.specs.Prelude.{◌≡◌};

use crate::commands::{Command, Process};
use mnames::{Name, Who};
use std::marker::Model;

/// The most processors of a machine (own).
pub const MOST_PROCESSORS: usize = 8;

/// A volume of the machine, which keeps segments on a disk (Bensoussan, Clingen and Daley 1972; the
/// names are those of the later Multics storage system).
#[derive(Drop)]
pub struct VolumeLine {
    /// Its name.
    pub name: Name,
    /// Its size, in records of a page each.
    pub records: u32,
    /// How many entries its VTOC (volume table of contents) has, one for each segment or directory.
    pub entries: u32,
}

/// What a listing has beside its summary (own).
#[derive(Clone, Copy, PartialEq, Eq)]
pub enum Print {
    /// Nothing.
    Short,
    /// What each process was answered.
    Replies,
    /// Each entry of the book.
    All,
}

/// A fast store of so many pages before the drive of a volume (own).
#[derive(Clone, Copy, PartialEq, Eq)]
pub struct Bulk {
    pub volume: u32,
    pub places: u32,
}

/// A call of a volume's drive that fails (own): its read or write of this number, counted from 1, and
/// where `onward` all after it.
#[derive(Clone, Copy, PartialEq, Eq)]
pub struct Fail {
    pub volume: u32,
    pub write: bool,
    pub number: u32,
    pub onward: bool,
}

/// The parts of a script, whether or not its lines are all there.
#[derive(Drop)]
pub struct Parts {
    pub(crate) processors: u32,
    pub(crate) frames: u32,
    pub(crate) pools: [u32; 4],
    pub(crate) quota: u32,
    pub(crate) volumes: Vec<VolumeLine>,
    pub(crate) print: Print,
    pub(crate) bulks: Vec<Bulk>,
    pub(crate) fails: Vec<Fail>,
    pub(crate) initializer: bool,
    pub(crate) processes: Vec<Process>,
}

/// A script that was read. A contract sees its plan.
#[derive(Drop)]
pub struct Script {
    pub(crate) parts: Parts,
}

impl Model for Script {
    ghost use Rattle.script.specs.Forms.{IsPlan};
    ghost use Rattle.script.specs.Parts.{plan_of};
    ghost use Rattle.script.specs.Plans.{Plan};

    ghost Value = { Plan };

    ghost view = { λ s. plan_of s.parts };

    ghost invariant = { λ s. IsPlan (plan_of s.parts) };
}

impl Script {
    ghost use Rattle.std.specs.Prelude.{◌<◌, length};
    ghost use Rattle.script.specs.Plans.{commands_of, who_of};
    ghost use Rattle.script.specs.Forms.{IsPlan};

    /// How many processors the machine has.
    pub fn processors(&self) -> u32
        ensures { result ≡ self.now.processors }
    {
        self.parts.processors
    }

    /// How many frames of core the machine has, of a page each.
    pub fn frames(&self) -> u32
        ensures { result ≡ self.now.frames }
    {
        self.parts.frames
    }

    /// How many places the four pools of the active segment table have: those of page tables of 4, 16,
    /// 64 and 256 pages, in this order.
    pub fn pools(&self) -> [u32; 4]
        ensures { result ≡ self.now.pools }
    {
        self.parts.pools
    }

    /// The quota of the root, in pages.
    pub fn quota(&self) -> u32
        ensures { result ≡ self.now.quota }
    {
        self.parts.quota
    }

    /// The volumes, in the order of the script.
    pub fn volumes(&self) -> &[VolumeLine]
        ensures { result.now ≡ self.now.volumes }
    {
        &self.parts.volumes
    }

    /// What the listing has.
    pub fn print(&self) -> Print
        ensures { result ≡ self.now.print }
    {
        self.parts.print
    }

    /// The fast stores, in the order of the script.
    pub fn bulks(&self) -> &[Bulk]
        ensures { result.now ≡ self.now.bulks }
    {
        &self.parts.bulks
    }

    /// The calls of drives that fail, in the order of the script.
    pub fn fails(&self) -> &[Fail]
        ensures { result.now ≡ self.now.fails }
    {
        &self.parts.fails
    }

    /// Whether process 0 is the initializer, before whose end no other process is ready.
    pub fn initializer(&self) -> bool
        ensures { result ≡ self.now.initializer }
    {
        self.parts.initializer
    }

    /// How many processes the script has.
    pub fn processes(&self) -> u32
        ensures count { result ≡ length self.now.processes }
        ensures plan { IsPlan self.now }
    {
        self.parts.processes.len() as u32
    }

    /// What holds of each script: it is one that a text can be read as. It does nothing.
    pub fn promise(&self)
        ensures { IsPlan self.now }
    {
        let _ = &self.parts;
    }

    /// For whom process `k` runs, counted from 0.
    pub fn who(&self, k: u32) -> &Who
        requires { k < length self.now.processes }
        ensures { result.now ≡ who_of self.now k }
    {
        self.parts.processes[k as usize].who()
    }

    /// The commands of process `k`, counted from 0, in order; the last is `End`.
    pub fn commands(&self, k: u32) -> &[Command]
        requires { k < length self.now.processes }
        ensures { result.now ≡ commands_of self.now k }
    {
        self.parts.processes[k as usize].commands()
    }
}
