ghost use Rattle.std.specs.Prelude.{◌≡◌, ◌<◌, [], Ok, OnOk, vec_capacity, vec_len};
ghost use Rattle.script.specs.CommandLists.{Lists};
ghost use Rattle.script.specs.Forms.{weight};

use crate::commands::Command;
use crate::drafts::LineFault;
use crate::refusals::Cause;
use std::alloc::{AllocError, Global};
use std::marker::Model;
use std::mem;

/// The commands of the process that is being read, and how many came in all. A contract sees it as a record.
#[derive(Drop)]
pub struct CommandList {
    commands: Vec<Command>,
    used: u32,
}

impl Model for CommandList {
    ghost use Rattle.std.specs.Prelude.{◌≤◌};
    ghost use Rattle.script.specs.CommandLists.{ListPlan};

    ghost Value = { ListPlan };

    ghost view = { λ l. record { commands = l.commands.items; used = l.used } };

    ghost invariant = { λ l. l.used ≤ 100000 };
}

/// As how many commands a command counts: an await as its tries.
#[inline(always)]
fn weight_of(command: &Command) -> u32
    ensures { result ≡ weight command.now }
{
    match command {
        Command::Await { tries, .. } => *tries,
        _ => 1,
    }
}

/// Makes room for a command more. It grows by a part in 64 at a time, so that at most 400 bytes a
/// command are taken.
fn make_room(commands: &mut Vec<Command>) -> Result<(), AllocError>
    ensures items { commands.new.items ≡ commands.old.items }
    ensures room { OnOk result (vec_len commands.new < vec_capacity commands.new) }
{
    if commands.len() < commands.capacity() {
        return Ok(());
    }
    commands.reserve_exact(commands.len() / 64 + 8)
}

impl CommandList {
    /// No commands, of any process.
    pub(crate) fn new(alloc: Global) -> CommandList
        ensures { result ≡ record { commands = []; used = 0 } }
    {
        CommandList {
            commands: Vec::new(alloc),
            used: 0,
        }
    }

    /// Adds a command. At most 100,000 come in all, where an await counts as its tries.
    ///
    /// It is part of each of its callers, so that a command of some 400 bytes is made in its place in the
    /// list, and not copied there.
    #[inline(always)]
    pub(crate) fn push(&mut self, command: Command) -> Result<(), LineFault>
        ensures { Lists self.old self.new result (Ok command) }
    {
        let weight = weight_of(&command);
        if weight > 100_000 - self.used {
            return Err(LineFault::Refused(Cause::Many));
        }
        make_room(&mut self.commands)?;
        self.commands.push_reserved(command);
        self.used += weight;
        Ok(())
    }

    /// Takes the commands of a process that ended.
    pub(crate) fn take(&mut self, alloc: Global) -> Vec<Command>
        ensures taken { result.items ≡ self.old.commands }
        ensures left { self.new ≡ record { commands = []; used = self.old.used } }
    {
        mem::replace(&mut self.commands, Vec::new(alloc))
    }
}
