//! The drives of a script's volumes.

ghost use Rattle.std.specs.Prelude.{◌≡◌, ◌<◌, IfOk, length, map, replicate, sum_by};
ghost use Rattle.volumes.specs.CoreDrive.{faults_of, fresh_drive};
ghost use Rattle.flat_model.specs.Store.{records_of};
ghost use Rattle.bulk_store.specs.AnyDrive.{any_pages, any_places, disk_of as disk_in};
ghost use Rattle.runner.specs.Drives.{faults_in, lines_in, places_in, AreTold};

use crate::NoMemory;
use bulk_store::{AnyDrive, CoreBulk};
use script::{Bulk, Fail, Script};
use std::alloc::Global;
use volumes::{CoreDrive, FailLine};

/// The lines that name failing calls of a volume's drive, in the order of the script.
fn lines_of(alloc: Global, fails: &[Fail], volume: u32) -> Result<Vec<FailLine>, NoMemory>
    ensures { IfOk result (λ lines. lines.items ≡ lines_in fails.now volume) }
{
    let mut lines = Vec::new(alloc);
    for fail in fails {
        if fail.volume == volume {
            let line = FailLine {
                write: fail.write,
                number: fail.number,
                onward: fail.onward,
            };
            lines.push(line)?;
        }
    }
    Ok(lines)
}

/// How many pages the fast store before a volume's drive holds, 0 where there is none.
fn places_of(bulks: &[Bulk], volume: u32) -> u32
    ensures { result ≡ places_in bulks.now volume }
{
    for bulk in bulks {
        if bulk.volume == volume {
            return bulk.places;
        }
    }
    0
}

/// The disk of volume `v`: as many pages of zeros as the volume has records, of which the calls fail that the script's
/// lines name.
fn disk_of(alloc: Global, script: &Script, v: u32) -> Result<CoreDrive, NoMemory>
    requires { v < length script.now.volumes }
    ensures { IfOk result (λ d. d ≡ fresh_drive (records_of script.now v) (lines_in script.now.fails v)) }
{
    let records = script.volumes()[v as usize].records;
    let lines = lines_of(alloc, script.fails(), v)?;
    CoreDrive::new(alloc, records, lines)
}

/// The drive of volume `v` of a script, counted from 0: as many pages of zeros as the volume has records, of which the
/// calls fail that the script's `fail` lines name, after a fast store where the script has a `bulk` line for it.
///
/// `NoMemory` is want of memory. It takes 8 KiB for each record, and for each page of the fast store. (Source: own.)
pub fn drive_of(alloc: Global, script: &Script, v: u32) -> Result<AnyDrive, NoMemory>
    requires { v < length script.now.volumes }
    ensures pages { IfOk result (λ d. any_pages d ≡ replicate (records_of script.now v) (replicate 1024 0)) }
    ensures plan { IfOk result (λ d. (disk_in d).fails ≡ lines_in script.now.fails v) }
    ensures places { IfOk result (λ d. any_places d ≡ places_in script.now.bulks v) }
    ensures faults { IfOk result (λ d. faults_of (disk_in d) ≡ 0) }
{
    let disk = disk_of(alloc, script, v)?;
    let places = places_of(script.bulks(), v);
    if places == 0 {
        return Ok(AnyDrive::Plain(disk));
    }
    let bulk = CoreBulk::new(alloc, places, disk)?;
    Ok(AnyDrive::Bulk(bulk))
}

/// The drives of a script's volumes, in their order, each as `drive_of` makes it.
///
/// `NoMemory` is want of memory. (Source: own.)
pub fn drives_of(alloc: Global, script: &Script) -> Result<Vec<AnyDrive>, NoMemory>
    ensures drives { IfOk result (λ drives. AreTold script.now drives.items) }
    ensures sizes { IfOk result (λ drives. map (λ d. length (any_pages d)) drives.items
        ≡ map (λ v. v.records) script.now.volumes) }
    ensures faults { IfOk result (λ drives. sum_by faults_in drives.items ≡ 0) }
{
    script.promise();
    let count = script.volumes().len() as u32;
    let mut drives = Vec::new(alloc);
    for v in 0..count {
        drives.push(drive_of(alloc, script, v)?)?;
    }
    Ok(drives)
}
