//! The making of doors, keeper and passes.
ghost use Rattle.std.specs.Prelude.{◌≡◌, ◌+◌, ◌<◌, ◌≤◌, IfOk, OnOk};
ghost use Rattle.live_doors.specs.Steps.{first_words};
ghost use Rattle.live_doors.specs.Doors.{IsKeeperOf, first_watch, blank, first_passes, AreNew};

use crate::doors::LiveDoors;
use crate::entries::Entries;
use crate::errors::NoMemory;
use crate::keeper::Keeper;
use crate::pass::Pass;
use crate::rows::Rows;
use crate::rule::{Admit, Board, Size};
use std::alloc::{AllocError, Global};

// The words at the start: no stamp, a door for each frame, no acknowledgement.
fn first_words(alloc: Global, frames: u32, cpus: u32, door: u64) -> Result<Vec<u64>, AllocError>
    ensures { IfOk result (λ words. words.items ≡ first_words frames cpus door) }
{
    let frames = frames as usize;
    let cpus = cpus as usize;
    let mut words = Vec::with_capacity(alloc, 1 + frames + cpus)?;
    words.push(0)?;
    words.resize(1 + frames, door)?;
    words.resize(1 + frames + cpus, 0)?;
    Ok(words)
}

// The doors and the keeper, before any pass.
fn first_keeper(
    alloc: Global,
    frames: u32,
    cpus: u32,
    door: u64,
) -> Result<(LiveDoors, Keeper), AllocError>
    requires { 1 ≤ door }
    ensures size { IfOk result (λ made. (made.0.frames ≡ frames) × (made.0.cpus ≡ cpus)) }
    ensures keeper { IfOk result (λ made. made.1
        ≡ record { table = made.0.table; watch = first_watch frames cpus door; cleared = 0 }) }
{
    let words = first_words(alloc, frames, cpus, door)?;
    let rows = Rows::new(alloc, frames, door)?;
    let size = Size { frames, cpus, door };
    let (table, seat) = Board::of_words(alloc, words.as_slice(), &size)?;
    let keeper = Keeper::new(seat, rows);
    Ok((
        LiveDoors {
            table,
            frames,
            cpus,
        },
        keeper,
    ))
}

// The pass of the next processor.
fn admit(
    alloc: Global,
    doors: &LiveDoors,
    keeper: &mut Keeper,
    cpu: u32,
) -> Result<Pass, AllocError>
    requires keeper { IsKeeperOf doors.now keeper.old }
    requires next { (cpu ≡ keeper.old.watch.made) × (cpu < doors.now.cpus) }
    ensures pass { IfOk result (λ pass. pass ≡ record { table = doors.now.table; walk = blank doors.now.frames cpu }) }
    ensures keeper { OnOk result (keeper.new
        ≡ record keeper.old { watch = record keeper.old.watch { made = cpu + 1 } }) }
{
    let entries = Entries::none(alloc, doors.frames, cpu)?;
    let seat = doors.table.shared.split_seat::<Admit>(&mut keeper.seat);
    Ok(Pass { seat, entries })
}

// The passes of all processors.
fn admit_all(alloc: Global, doors: &LiveDoors, keeper: &mut Keeper) -> Result<Vec<Pass>, AllocError>
    requires keeper { IsKeeperOf doors.now keeper.old }
    requires first { keeper.old.watch.made ≡ 0 }
    ensures passes { IfOk result (λ passes. passes.items ≡ first_passes doors.now doors.now.cpus) }
    ensures keeper { OnOk result (keeper.new
        ≡ record keeper.old { watch = record keeper.old.watch { made = doors.now.cpus } }) }
{
    let mut passes = Vec::with_capacity(alloc, doors.cpus as usize)?;
    for cpu in 0..doors.cpus {
        passes.push(admit(alloc, doors, keeper, cpu)?)?;
    }
    Ok(passes)
}

/// Doors that all have one word, their keeper, and a pass for each processor.
pub(crate) fn begin(
    alloc: Global,
    frames: u32,
    cpus: u32,
    door: u64,
) -> Result<(LiveDoors, Keeper, Vec<Pass>), NoMemory>
    requires { 1 ≤ door }
    ensures { IfOk result (λ made. AreNew frames cpus door made.0 made.1 made.2.items) }
{
    let (doors, mut keeper) = first_keeper(alloc, frames, cpus, door)?;
    let passes = admit_all(alloc, &doors, &mut keeper)?;
    Ok((doors, keeper, passes))
}
