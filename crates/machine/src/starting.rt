//! A machine at first.

ghost use Rattle.std.specs.Prelude.{◌≡◌, ◌<◌, ◌++◌, [], ◌∷◌, length, map, slice_get, sum_by, IfOk, IfSome, OnOk};
ghost use Rattle.volumes.specs.Volumes.{made_of};
ghost use Rattle.machine_model.specs.Boot.{first_state, first_store};
ghost use Rattle.machine_tables.specs.Parts.{first_words};
ghost use Rattle.machine.specs.Starts.{parts_of};

use crate::machine::Machine;
use machine_tables::{NoMemory, Tables};
use script::{Script, VolumeLine};
use std::alloc::Global;
use volumes::{Drive, Part, Volumes};

/// A drive, and how many entries the VTOC of its volume has.
fn part<D: Drive>(lines: &[VolumeLine], place: usize, drive: D) -> Part<D>
    requires { place < length lines.now }
    ensures { IfSome (slice_get lines.now place)
        (λ line. result ≡ record { drive = drive; entries = line.entries }) }
{
    Part {
        drive,
        entries: lines[place].entries,
    }
}

/// Adds a part at the end.
fn add<D: Drive>(parts: &mut Vec<Part<D>>, part: Part<D>) -> Result<(), NoMemory>
    ensures { OnOk result (parts.new.items ≡ parts.old.items ++ part ∷ []) }
{
    Ok(parts.push(part)?)
}

/// The parts of the volumes, in order.
fn parts<D: Drive>(
    alloc: Global,
    lines: &[VolumeLine],
    drives: Vec<D>,
) -> Result<Vec<Part<D>>, NoMemory>
    requires { length drives.items ≡ length lines.now }
    ensures { IfOk result (λ parts. parts.items ≡ parts_of lines.now drives.items) }
{
    let mut parts = Vec::new(alloc);
    for drive in drives {
        let part = part(lines, parts.len(), drive);
        add(&mut parts, part)?;
    }
    Ok(parts)
}

/// The volumes of a script over these drives, with no record in use and no VTOC entry.
fn volumes<D: Drive>(
    alloc: Global,
    lines: &[VolumeLine],
    drives: Vec<D>,
) -> Result<Volumes<D>, NoMemory>
    requires { length drives.items ≡ length lines.now }
    ensures { IfOk result (λ v. v ≡ made_of D.pages (parts_of lines.now drives.items)) }
{
    let parts = parts(alloc, lines, drives)?;
    Volumes::new(alloc, parts)
}

impl<D: Drive> Machine<D> {
    /// The machine of a script before its first step: the root alone, every frame free, nothing active, known or
    /// connected, and no processor takes part. The drive of each volume is the one at its place in `drives`, as it is
    /// handed in. It takes all the memory that the machine ever has, but for the entries of the book. (Source: own.)
    ///
    /// # Errors
    /// `NoMemory` is want of memory.
    pub fn boot(alloc: Global, script: Script, drives: Vec<D>) -> Result<Machine<D>, NoMemory>
        requires { map (λ d. length (D.pages d)) drives.items ≡ map (λ v. v.records) script.volumes }
        ensures script { IfOk result (λ m. m.state.plan ≡ script) }
        ensures entries { IfOk result (λ m. m.state.entries ≡ []) }
        ensures drives { IfOk result (λ m. m.drives ≡ drives.items) }
        ensures room { IfOk result (λ m. m.room ≡ length script.processes) }
        ensures state { IfOk result (λ m. m.state ≡ first_state script (first_store script (first_words script.frames)
            (map D.pages drives.items)) m.state.spare (sum_by D.faults drives.items)) }
    {
        script.promise();
        let volumes = volumes(alloc, script.volumes(), drives)?;
        let tables = Tables::boot(alloc, script, volumes)?;
        Ok(Machine { tables })
    }
}
