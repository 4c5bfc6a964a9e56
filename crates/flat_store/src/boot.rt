ghost use Rattle.std.specs.Prelude.{◌≡◌, IfOk, None, OnOk, map, replicate};
ghost use Rattle.flat_model.specs.Legal.{IsLegal, store_after};
ghost use Rattle.flat_model.specs.Store.{at_first, boot};
ghost use Rattle.flat_store.specs.Shown.{Holds, Shows, entries_gauge, records_gauge};

use crate::NoMemory;
use crate::gauges::{Gauge, fill_at};
use crate::holdings::Holdings;
use crate::pages::Pages;
use crate::progress::Progress;
use crate::store::FlatStore;
use accounts::Accounts;
use book::Book;
use known_segs::Kst;
use script::{Script, VolumeLine};
use std::alloc::Global;

/// A gauge for the records of each volume, and one for its VTOC entries.
fn gauges(alloc: Global, volumes: &[VolumeLine]) -> Result<(Vec<Gauge>, Vec<Gauge>), NoMemory>
    ensures records { IfOk result (λ gauges. gauges.0.items ≡ map records_gauge volumes.now) }
    ensures entries { IfOk result (λ gauges. gauges.1.items ≡ map entries_gauge volumes.now) }
{
    let mut records = Vec::new(alloc);
    let mut entries = Vec::new(alloc);
    for volume in volumes {
        records.push(Gauge::new(volume.records))?;
        entries.push(Gauge::new(volume.entries))?;
    }
    Ok((records, entries))
}

/// What as many processes know before their first command, which is nothing, and how far they have come.
fn at_first(alloc: Global, processes: u32) -> Result<(Vec<Kst>, Vec<Progress>), NoMemory>
    ensures known { IfOk result (λ r. r.0.items ≡ replicate processes (replicate 256 None)) }
    ensures places { IfOk result (λ r. r.1.items ≡ replicate processes at_first) }
{
    let mut known = Vec::new(alloc);
    let mut places = Vec::new(alloc);
    for _process in 0..processes {
        known.push(Kst::new(alloc)?)?;
        places.push(Progress::at_first())?;
    }
    Ok((known, places))
}

impl Holdings {
    /// The root alone, on the first volume.
    fn boot(alloc: Global, script: &Script) -> Result<Holdings, NoMemory>
        ensures { IfOk result (λ holdings. Holds script.now holdings (boot script.now)) }
    {
        script.promise();
        let (records, mut entries) = gauges(alloc, script.volumes())?;
        fill_at(&mut entries, 0);
        let accounts = Accounts::new(alloc, 0, 0, script.quota())?;
        let pages = Pages::new(alloc);
        Ok(Holdings {
            accounts,
            pages,
            records,
            entries,
        })
    }
}

impl FlatStore {
    /// The flat store at the boot of a script: there is the root alone, and each process is before its first command.
    ///
    /// # Errors
    /// `NoMemory` is want of memory.
    pub fn boot(alloc: Global, script: &Script) -> Result<FlatStore, NoMemory>
        ensures { IfOk result (λ f. Shows script.now f (boot script.now)) }
    {
        let processes = script.processes();
        let (known, processes) = at_first(alloc, processes)?;
        let holdings = Holdings::boot(alloc, script)?;
        Ok(FlatStore {
            holdings,
            known,
            processes,
        })
    }

    /// Goes on from the boot to the flat store after a book, which must be legal.
    fn follow_all(&mut self, b: &Book) -> Result<(), NoMemory>
        requires legal { IsLegal b.now.script b.now.entries }
        requires boot { Shows b.now.script self.old (boot b.now.script) }
        ensures { OnOk result (Shows b.now.script self.new (store_after b.now.script b.now.entries)) }
    {
        let script = b.script();
        for e in b.entries() {
            self.follow(script, *e)?;
        }
        Ok(())
    }

    /// The flat store after a book, which must be legal. It takes time for each entry, and memory for the stored pages.
    ///
    /// # Errors
    /// `NoMemory` is want of memory.
    pub fn after(alloc: Global, b: &Book) -> Result<FlatStore, NoMemory>
        requires { IsLegal b.now.script b.now.entries }
        ensures { IfOk result (λ f. Shows b.now.script f (store_after b.now.script b.now.entries)) }
    {
        let mut store = FlatStore::boot(alloc, b.script())?;
        store.follow_all(b)?;
        Ok(store)
    }
}
