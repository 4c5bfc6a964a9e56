ghost use Rattle.std.specs.Prelude.{◌≡◌, ◌+◌, ◌<◌, ◌≤◌, false, true, codes, Ok, length, sum_by};
ghost use Rattle.std.specs.List.{list_any};
ghost use Rattle.std.specs.Str.{bytes_eq};
ghost use Rattle.script.specs.Drafts.{IsOpen, blank, initializer_who, has_volume, is_early, is_inside};
ghost use Rattle.text_model.specs.Lines.{fields_of};
ghost use Rattle.script.specs.Fields.{is_printable};
ghost use Rattle.script.specs.Forms.{is_before, is_who, records_of};
ghost use Rattle.script.specs.Grammar.{text_after, whole_or_missing};
ghost use Rattle.script.specs.Heads.{machine_line, quota_line, volume_line, print_line, bulk_line, fail_line};
ghost use Rattle.script.specs.Heads.{initializer_line, process_line, added, command_line, later_at, line_at};
ghost use Rattle.script.specs.Readers.{Steps};
ghost use Rattle.script.specs.declared.commands.Command.TheVariants.{End};

use crate::command_list::CommandList;
use crate::commands::{Command, Process};
use crate::fields::{no_fields, one_field, six_fields, split_field, two_fields};
use crate::plan::{Bulk, MOST_PROCESSORS, Parts, Print, Script, VolumeLine};
use crate::refusals::{Cause, Refusal};
use crate::values::{number_in, pools_in, print_in, who_in};
use crate::volumes::{fail_in, new_volume_in, volume_in};
use mnames::{Label, Who, read_label};
use std::alloc::{AllocError, AllocFailed, Global};
use std::marker::Model;

/// What may stand next in a script (own).
#[derive(Clone, Copy)]
pub enum Stage {
    /// The line of the machine.
    Machine,
    /// The line of the root's quota.
    Quota,
    /// The first volume.
    FirstVolume,
    /// A further volume, or what may stand after the volumes.
    Volumes,
    /// A fast store, or what may stand after these; how to print was said, or need not be.
    Bulks,
    /// A call that fails, or what may stand after these.
    Fails,
    /// A command of a process.
    Commands,
    /// A further process.
    Processes,
}

/// Why a line of a script changed nothing more.
#[derive(Clone, Copy)]
pub enum LineFault {
    /// It is refused.
    Refused(Cause),
    /// There wasn't enough memory.
    Memory,
}

impl From<Cause> for LineFault {
    ghost use Rattle.script.specs.declared.drafts.LineFault.TheVariants.{Refused};

    ghost from_gives = { λ c e. e ≡ Refused c };

    fn from(cause: Cause) -> Self {
        LineFault::Refused(cause)
    }
}

impl<T: Drop> From<AllocFailed<T>> for LineFault {
    ghost use Rattle.script.specs.declared.drafts.LineFault.TheVariants.{Memory};

    ghost from_gives = { λ _ e. e ≡ Memory };

    fn from(_: AllocFailed<T>) -> Self {
        LineFault::Memory
    }
}

impl From<AllocError> for LineFault {
    ghost use Rattle.script.specs.declared.drafts.LineFault.TheVariants.{Memory};

    ghost from_gives = { λ _ e. e ≡ Memory };

    fn from(_: AllocError) -> Self {
        LineFault::Memory
    }
}

/// What the lines of a script so far say. A contract sees it as a record.
#[derive(Drop)]
pub struct Draft {
    stage: Stage,
    parts: Parts,
    who: Who,
    commands: CommandList,
}

impl Model for Draft {
    ghost use Rattle.script.specs.Drafts.{DraftPlan, IsDraft, drafted};

    ghost Value = { DraftPlan };

    ghost view = { λ d. drafted d.stage d.parts d.who d.commands };

    ghost invariant = { λ d. IsDraft (drafted d.stage d.parts d.who d.commands) };
}

/// For whom the initializer runs.
#[tactic(auto, unfolding(mnames::specs::Names::is_label))]
fn initializer_who() -> Who
    ensures who { result ≡ initializer_who }
    ensures form { is_who result ≡ true }
{
    match read_label(b"Initializer") {
        Some(person) => Who {
            person,
            project: Label::default_project(),
        },
        None => unreachable!(),
    }
}

/// How many records the volumes have together.
fn records_in(volumes: &[VolumeLine]) -> u32
    requires { sum_by records_of volumes.now ≤ 16384 }
    ensures { result ≡ sum_by records_of volumes.now }
{
    volumes.iter().map(|volume| volume.records).sum()
}

/// Whether the volume has a fast store.
fn has_bulk(bulks: &[Bulk], volume: u32) -> bool
    ensures { result ≡ list_any (is_before volume) bulks.now }
{
    bulks.iter().any(|bulk| bulk.volume == volume)
}

impl Draft {
    /// What no line says.
    pub(crate) fn blank(alloc: Global) -> Draft
        ensures { result ≡ blank }
    {
        Draft {
            stage: Stage::Machine,
            parts: Parts {
                processors: 1,
                frames: 4,
                pools: [12, 1, 1, 1],
                quota: 0,
                volumes: Vec::new(alloc),
                print: Print::Replies,
                bulks: Vec::new(alloc),
                fails: Vec::new(alloc),
                initializer: false,
                processes: Vec::new(alloc),
            },
            who: initializer_who(),
            commands: CommandList::new(alloc),
        }
    }

    /// `machine P F N4 N16 N64 N256`
    fn machine(&mut self, line: &[u8]) -> Result<(), LineFault>
        requires { is_early self.old.stage ≡ true }
        ensures { Steps self.new result (machine_line self.old (fields_of line.now)) }
    {
        let (processors, frames, four, sixteen, sixty_four, most) = six_fields(line)?;
        let processors = number_in(processors, 1, MOST_PROCESSORS as u32)?;
        let frames = number_in(frames, 4, 1024)?;
        let pools = pools_in(four, sixteen, sixty_four, most)?;
        self.parts.processors = processors;
        self.parts.frames = frames;
        self.parts.pools = pools;
        self.stage = Stage::Quota;
        Ok(())
    }

    /// `quota Q`
    fn quota(&mut self, line: &[u8]) -> Result<(), LineFault>
        requires { is_early self.old.stage ≡ true }
        ensures { Steps self.new result (quota_line self.old (fields_of line.now)) }
    {
        self.parts.quota = number_in(one_field(line)?, 0, 16384)?;
        self.stage = Stage::FirstVolume;
        Ok(())
    }

    /// `print MODE`
    fn print(&mut self, line: &[u8]) -> Result<(), LineFault>
        requires { IsOpen self.old.stage }
        ensures { Steps self.new result (print_line self.old (fields_of line.now)) }
    {
        self.parts.print = print_in(one_field(line)?)?;
        self.stage = Stage::Bulks;
        Ok(())
    }

    /// `initializer`
    fn initializer(&mut self, line: &[u8]) -> Result<(), LineFault>
        requires { IsOpen self.old.stage }
        ensures { Steps self.new result (initializer_line self.old (fields_of line.now)) }
    {
        no_fields(line)?;
        self.stage = Stage::Commands;
        self.parts.initializer = true;
        self.who = initializer_who();
        Ok(())
    }

    /// `process WHO`
    fn process(&mut self, line: &[u8]) -> Result<(), LineFault>
        requires between { is_inside self.old.stage ≡ false }
        requires volume { has_volume self.old.stage ≡ true }
        ensures { Steps self.new result (process_line self.old (fields_of line.now)) }
    {
        let who = who_in(one_field(line)?)?;
        if self.parts.processes.len() >= 32 {
            return Err(LineFault::Refused(Cause::Many));
        }
        self.stage = Stage::Commands;
        self.who = who;
        Ok(())
    }

    /// `volume NAME RECORDS ENTRIES`
    fn volume(&mut self, line: &[u8]) -> Result<(), LineFault>
        requires { is_early self.old.stage ≡ true }
        ensures { Steps self.new result (volume_line self.old (fields_of line.now)) }
    {
        let volume = new_volume_in(&self.parts.volumes, line)?;
        if self.parts.volumes.len() >= 4
            || records_in(&self.parts.volumes) + volume.records > 16384
        {
            return Err(LineFault::Refused(Cause::Many));
        }
        self.parts.volumes.push(volume)?;
        self.stage = Stage::Volumes;
        Ok(())
    }

    /// `bulk NAME PLACES`
    fn bulk(&mut self, line: &[u8]) -> Result<(), LineFault>
        requires { IsOpen self.old.stage }
        ensures { Steps self.new result (bulk_line self.old (fields_of line.now)) }
    {
        let (volume, places) = two_fields(line)?;
        let volume = volume_in(&self.parts.volumes, volume)?;
        if has_bulk(&self.parts.bulks, volume) {
            return Err(LineFault::Refused(Cause::Twice));
        }
        let places = number_in(places, 1, 1024)?;
        self.parts.bulks.push(Bulk { volume, places })?;
        self.stage = Stage::Bulks;
        Ok(())
    }

    /// `fail NAME read N`, `fail NAME write N`, or the same with `+` after it
    fn fail(&mut self, line: &[u8]) -> Result<(), LineFault>
        requires { IsOpen self.old.stage }
        ensures { Steps self.new result (fail_line self.old (fields_of line.now)) }
    {
        let fail = fail_in(&self.parts.volumes, line)?;
        if self.parts.fails.len() >= 100 {
            return Err(LineFault::Refused(Cause::Many));
        }
        self.parts.fails.push(fail)?;
        self.stage = Stage::Fails;
        Ok(())
    }

    /// Adds the end of the process, which is a command too.
    fn end_process(&mut self, alloc: Global) -> Result<(), LineFault>
        requires { is_inside self.old.stage ≡ true }
        ensures { Steps self.new result (added self.old (Ok End)) }
    {
        self.parts.processes.reserve(1)?;
        self.commands.push(Command::End)?;
        let commands = self.commands.take(alloc);
        self.parts
            .processes
            .push_reserved(Process::new(self.who.copied(), commands));
        self.stage = Stage::Processes;
        Ok(())
    }

    /// A command of a process that isn't its end, by its word and what follows the word.
    fn going_command(&mut self, word: &[u8], line: &[u8]) -> Result<(), LineFault>
        requires inside { is_inside self.old.stage ≡ true }
        requires going { bytes_eq word.now (codes "end") ≡ false }
        ensures { Steps self.new result (command_line self.old word.now (fields_of line.now)) }
    {
        self.commands.line(&self.parts.volumes, word, line)
    }

    /// A command of a process, by its word and what follows the word.
    #[tactic(auto, using(crate::proofs::DraftLaws::end_read))]
    fn command(&mut self, alloc: Global, word: &[u8], line: &[u8]) -> Result<(), LineFault>
        requires { is_inside self.old.stage ≡ true }
        ensures { Steps self.new result (command_line self.old word.now (fields_of line.now)) }
    {
        if word == b"end".as_slice() {
            no_fields(line)?;
            self.end_process(alloc)
        } else {
            self.going_command(word, line)
        }
    }

    /// A call that fails, or the first line of a process, by its word and what follows the word.
    #[tactic(auto, unfolding(crate::specs::Heads::later_at))]
    fn later_line(&mut self, word: &[u8], line: &[u8]) -> Result<(), LineFault>
        requires { is_inside self.old.stage ≡ false }
        ensures { Steps self.new result (later_at self.old.stage self.old word.now (fields_of line.now)) }
    {
        match self.stage {
            Stage::Volumes | Stage::Bulks | Stage::Fails if word == b"fail".as_slice() => {
                self.fail(line)
            }
            Stage::Volumes | Stage::Bulks | Stage::Fails if word == b"initializer".as_slice() => {
                self.initializer(line)
            }
            Stage::Volumes | Stage::Bulks | Stage::Fails | Stage::Processes
                if word == b"process".as_slice() => { self.process(line) }
            _ => Err(LineFault::Refused(Cause::Order)),
        }
    }

    /// A line that isn't skipped, by its word and what follows the word.
    #[tactic(auto, unfolding(crate::specs::Heads::line_at))]
    fn worded_line(&mut self, alloc: Global, word: &[u8], line: &[u8]) -> Result<(), LineFault>
        ensures { Steps self.new result (line_at self.old.stage self.old word.now (fields_of line.now)) }
    {
        match self.stage {
            Stage::Commands => self.command(alloc, word, line),
            Stage::Machine if word == b"machine".as_slice() => self.machine(line),
            Stage::Quota if word == b"quota".as_slice() => self.quota(line),
            Stage::FirstVolume | Stage::Volumes if word == b"volume".as_slice() => {
                self.volume(line)
            }
            Stage::Volumes if word == b"print".as_slice() => self.print(line),
            Stage::Volumes | Stage::Bulks if word == b"bulk".as_slice() => self.bulk(line),
            _ => self.later_line(word, line),
        }
    }

    /// One more line, and whether it is printable.
    #[tactic(auto, unfolding(crate::specs::Grammar::text_after, crate::specs::Grammar::line_after))]
    pub(crate) fn line(
        &mut self,
        alloc: Global,
        line: &[u8],
        printable: bool,
    ) -> Result<(), LineFault>
        requires { printable ≡ is_printable line.now }
        ensures { Steps self.new result (text_after self.old line.now) }
    {
        if !printable {
            return Err(LineFault::Refused(Cause::BadChar));
        }
        let (word, rest) = split_field(line);
        if word.is_empty() || word[0] == b'#' {
            return Ok(());
        }
        self.worded_line(alloc, word, rest)
    }

    /// The script of the lines up to the one of that number, which isn't there.
    #[tactic(auto, using(crate::proofs::DraftLaws::plan_is, std::proofs::lemmas::Grind::common_steps))]
    pub(crate) fn into_script(self, line: u32) -> Result<Script, Refusal>
        ensures { result ≡ whole_or_missing line self }
    {
        match self.stage {
            Stage::Machine | Stage::Quota | Stage::FirstVolume | Stage::Commands => Err(Refusal {
                line,
                cause: Cause::Missing,
            }),
            _ => Ok(Script { parts: self.parts }),
        }
    }
}
