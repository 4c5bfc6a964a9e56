ghost use Rattle.std.specs.Prelude.{◌≡◌, replicate, IfOk, []};
ghost use Rattle.custody_model.specs.Custody.{nothing_held, offline, range, ready_at_first};
ghost use Rattle.custody_model.specs.declared.DescriptorUse.TheVariants as descriptor;
ghost use Rattle.custody.specs.Tables.{AreTablesOf, custody_of};

use crate::NoMemory;
use crate::active::Active;
use crate::descriptors::Descriptors;
use crate::frames::Frames;
use crate::seats::SeatRow;
use crate::tables::Custody;
use script::Script;
use std::alloc::Global;

/// The descriptors of so many processes, which lead to nothing.
fn descriptors(alloc: Global, processes: u32) -> Result<Vec<Descriptors>, NoMemory>
    ensures { IfOk result (λ rows. rows.items ≡ replicate processes (replicate 256 descriptor.Free)) }
{
    let mut rows = Vec::new(alloc);
    for _process in 0..processes {
        let row = Descriptors::new(alloc)?;
        rows.push(row)?;
    }
    Ok(rows)
}

/// So many processors that don't take part yet.
fn seats(alloc: Global, processors: u32) -> Result<Vec<SeatRow>, NoMemory>
    ensures { IfOk result (λ seats. seats.items ≡ replicate processors offline) }
{
    let mut seats = Vec::new(alloc);
    for _cpu in 0..processors {
        seats.push(SeatRow::offline())?;
    }
    Ok(seats)
}

/// So many processes that are ready, in order.
fn in_order(alloc: Global, processes: u32) -> Result<Vec<u32>, NoMemory>
    ensures { IfOk result (λ ready. ready.items ≡ range 0 processes) }
{
    let mut ready = Vec::new(alloc);
    for process in 0..processes {
        ready.push(process)?;
    }
    Ok(ready)
}

/// The processes that are ready at first: the initializer alone, where there is one, else all in order.
fn ready(alloc: Global, script: &Script) -> Result<Vec<u32>, NoMemory>
    ensures { IfOk result (λ ready. ready.items ≡ ready_at_first script.now) }
{
    let processes = if script.initializer() {
        1
    } else {
        script.processes()
    };
    in_order(alloc, processes)
}

impl Custody {
    /// Custody before the first entry of a book: nothing is active, in core, connected or held, and no processor takes
    /// part.
    ///
    /// # Errors
    /// `NoMemory` is want of memory.
    pub fn boot(alloc: Global, script: &Script) -> Result<Custody, NoMemory>
        ensures active { IfOk result (λ c. c.active ≡ []) }
        ensures custody { IfOk result (λ c. custody_of c ≡ nothing_held script.now) }
        ensures tables { IfOk result (λ c. AreTablesOf script.now c) }
    {
        let processes = script.processes();
        let frames = Frames::new(alloc, script.frames())?;
        let descriptors = descriptors(alloc, processes)?;
        let ready = ready(alloc, script)?;
        let seats = seats(alloc, script.processors())?;
        Ok(Custody {
            active: Active::new(alloc),
            frames,
            descriptors,
            ready,
            seats,
        })
    }
}
