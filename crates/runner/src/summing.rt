//! The listing of a machine, by its own counts.

ghost use Rattle.std.specs.Prelude.{◌≡◌, None, IfOk, length};
ghost use Rattle.flat_model.specs.Legal.{store_after};
ghost use Rattle.listing.specs.Listings.{listing_of, summary_of, uses_of};

use crate::NoMemory;
use bulk_store::AnyDrive;
use listing::{Summary, VolumeUse, listing_of_summary, summary_of_counts};
use machine::Machine;
use std::alloc::Global;

/// How many records and VTOC entries of each volume are in use, where no segment moves.
fn uses(alloc: Global, machine: &Machine<AnyDrive>) -> Result<Vec<VolumeUse>, NoMemory>
    requires { machine.now.state.store.moving ≡ None }
    ensures { IfOk result (λ uses. uses.items ≡ uses_of (store_after machine.now.state.plan machine.now.state.entries)
        (length machine.now.state.plan.volumes)) }
{
    let volumes = machine.volumes_at_rest();
    let count = volumes.count();
    let mut uses = Vec::new(alloc);
    for v in 0..count {
        let records = volumes.taken(v);
        let entries = volumes.vtoc(v).used();
        uses.push(VolumeUse { records, entries })?;
    }
    Ok(uses)
}

/// The accounts and the volumes, as the machine counts them, where no segment moves. (Source: own.)
///
/// # Errors
/// `NoMemory` is want of memory.
pub fn summary_of_machine(alloc: Global, machine: &Machine<AnyDrive>) -> Result<Summary, NoMemory>
    requires { machine.now.state.store.moving ≡ None }
    ensures { IfOk result (λ summary. summary
        ≡ summary_of machine.now.state.plan (store_after machine.now.state.plan machine.now.state.entries)) }
{
    let uses = uses(alloc, machine)?;
    summary_of_counts(alloc, machine.book().script(), machine.accounts(), &uses)
}

/// The listing of a machine's book, where no segment moves. (Source: own.)
///
/// # Errors
/// `NoMemory` is want of memory.
pub fn listing_of_machine(alloc: Global, machine: &Machine<AnyDrive>) -> Result<Vec<u8>, NoMemory>
    requires { machine.now.state.store.moving ≡ None }
    ensures { IfOk result (λ text. text.items ≡ listing_of machine.now.state.plan machine.now.state.entries) }
{
    let summary = summary_of_machine(alloc, machine)?;
    match listing_of_summary(alloc, machine.book(), &summary) {
        Ok(text) => Ok(text),
        Err(_) => Err(NoMemory),
    }
}
