//! The making of pages, keeper and passes.
ghost use Rattle.std.specs.Prelude.{◌≡◌, ◌+◌, ◌<◌, ◌≤◌, length, replicate, IfOk, OnOk};
ghost use Rattle.live_doors.specs.declared.rule.TheConstants.{MOST_CPUS};
ghost use Rattle.live_pages.specs.Turns.{opening_words, first_holder, first_walker, watching};
ghost use Rattle.live_pages.specs.Models.{HaveZeroPages, IsKeeperOf, first_passes, AreNew};

use crate::errors::NoMemory;
use crate::keeper::Keeper;
use crate::pages::LivePages;
use crate::pass::Pass;
use crate::rule::{Admit, Board, Held, Size};
use crate::touch::Touch;
use live_doors::{Entries, Rows};
use mword::Page;
use std::alloc::{AllocError, Global};

// The words at the start.
fn first_words(alloc: Global, frames: u32, cpus: u32) -> Result<Vec<u64>, AllocError>
    ensures { IfOk result (λ words. words.items ≡ opening_words frames cpus) }
{
    let frames = frames as usize;
    let cpus = cpus as usize;
    let mut words = Vec::with_capacity(alloc, 2 + frames + cpus + frames)?;
    words.push(0)?;
    words.resize(1 + frames, 1)?;
    words.resize(1 + frames + cpus, 0)?;
    words.resize(2 + frames + cpus + frames, 0)?;
    Ok(words)
}

// A slot with a page of zeros.
fn zero_slot(alloc: Global) -> Result<Held, AllocError>
    ensures { IfOk result (λ held. held.page ≡ replicate 1024 0) }
{
    let Ok(page) = Page::zero(alloc) else {
        return Err(AllocError);
    };
    let word = page.get(0);
    Ok(Held {
        page,
        touch: Touch::Get(0),
        word,
    })
}

// A page of zeros for each frame.
fn first_slots(alloc: Global, frames: u32) -> Result<Vec<Option<Held>>, AllocError>
    ensures count { IfOk result (λ slots. length slots.items ≡ frames) }
    ensures zeros { IfOk result (λ slots. HaveZeroPages slots.items) }
{
    let mut slots = Vec::with_capacity(alloc, frames as usize)?;
    for _ in 0..frames {
        slots.push(Some(zero_slot(alloc)?))?;
    }
    Ok(slots)
}

// The pages and the keeper, before any pass.
fn first_keeper(alloc: Global, frames: u32, cpus: u32) -> Result<(LivePages, Keeper), AllocError>
    requires { cpus ≤ MOST_CPUS }
    ensures size { IfOk result (λ made. (made.0.frames ≡ frames) × (made.0.cpus ≡ cpus)) }
    ensures keeper { IfOk result (λ made. made.1
        ≡ record { table = made.0.table; holder = first_holder frames cpus; cleared = 0 }) }
{
    let words = first_words(alloc, frames, cpus)?;
    let slots = first_slots(alloc, frames)?;
    let rows = Rows::new(alloc, frames, 1)?;
    let room = Vec::with_capacity(alloc, frames as usize)?;
    let size = Size { frames, cpus };
    let Ok((table, seat)) = Board::new(alloc, words.as_slice(), slots, &size) else {
        return Err(AllocError);
    };
    let keeper = Keeper::new(seat, rows);
    Ok((
        LivePages {
            table,
            frames,
            cpus,
            room,
        },
        keeper,
    ))
}

// The pass of the next processor.
fn admit(
    alloc: Global,
    pages: &LivePages,
    keeper: &mut Keeper,
    cpu: u32,
) -> Result<Pass, AllocError>
    requires keeper { IsKeeperOf pages.now keeper.old }
    requires next { (cpu ≡ keeper.old.holder.watch.made) × (cpu < pages.now.cpus) }
    ensures pass { IfOk result (λ pass. pass
        ≡ record { table = pages.now.table; walker = first_walker pages.now.frames pages.now.cpus cpu }) }
    ensures keeper { OnOk result (keeper.new
        ≡ record keeper.old { holder = watching (λ w. record w { made = cpu + 1 }) keeper.old.holder }) }
{
    let entries = Entries::none(alloc, pages.frames, cpu)?;
    let seat = pages.table.shared.split_seat::<Admit>(&mut keeper.seat);
    Ok(Pass {
        seat,
        entries,
        touches: 0,
    })
}

// The passes of all processors.
fn admit_all(alloc: Global, pages: &LivePages, keeper: &mut Keeper) -> Result<Vec<Pass>, AllocError>
    requires keeper { IsKeeperOf pages.now keeper.old }
    requires first { keeper.old.holder.watch.made ≡ 0 }
    ensures passes { IfOk result (λ passes. passes.items ≡ first_passes pages.now pages.now.cpus) }
    ensures keeper { OnOk result (keeper.new
        ≡ record keeper.old { holder = watching (λ w. record w { made = pages.now.cpus }) keeper.old.holder }) }
{
    let mut passes = Vec::with_capacity(alloc, pages.cpus as usize)?;
    for cpu in 0..pages.cpus {
        passes.push(admit(alloc, pages, keeper, cpu)?)?;
    }
    Ok(passes)
}

/// Pages of zeros behind doors that were never bound, their keeper, and a pass for each processor.
pub(crate) fn begin(
    alloc: Global,
    frames: u32,
    cpus: u32,
) -> Result<(LivePages, Keeper, Vec<Pass>), NoMemory>
    requires { cpus ≤ MOST_CPUS }
    ensures { IfOk result (λ made. AreNew frames cpus made.0 made.1 made.2.items) }
{
    let (pages, mut keeper) = first_keeper(alloc, frames, cpus)?;
    let passes = admit_all(alloc, &pages, &mut keeper)?;
    Ok((pages, keeper, passes))
}
