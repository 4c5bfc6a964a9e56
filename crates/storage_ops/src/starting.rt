//! The root alone.

ghost use Rattle.std.specs.Prelude.{◌≡◌, IfOk, Some, length, map, sum, None};
ghost use Rattle.accounts.specs.Maps.{root_alone};
ghost use Rattle.page_control.specs.Effects.{after_asked};
ghost use Rattle.page_control.specs.Plain.{plain};
ghost use Rattle.seg_control.specs.Effects.{no_links};
ghost use Rattle.active_segs.specs.Active.{no_segments};
ghost use Rattle.seg_control.specs.Kept.{AreFree};
ghost use Rattle.flat_model.specs.Store.{boot};
ghost use Rattle.storage_ops.specs.Shown.{AreFresh, Shows, empty_frames};

use crate::NoMemory;
use crate::store::{Store, look};
use accounts::Accounts;
use mnames::Who;
use page_control::Pages;
use script::Script;
use seg_control::Segs;
use std::alloc::Global;
use volumes::{Drive, Volumes};

/// For whom each process of a script runs, in their order.
fn whos_of(alloc: Global, script: &Script) -> Result<Vec<Who>, NoMemory>
    ensures { IfOk result (λ whos. whos.items ≡ map (λ x. x.who) script.now.processes) }
{
    let mut whos = Vec::new(alloc);
    for process in 0..script.processes() {
        whos.push(script.who(process).copied())?;
    }
    Ok(whos)
}

/// Segment control over the volumes of a script, with nothing in core, active or known.
fn fresh_segs<D: Drive>(
    alloc: Global,
    script: &Script,
    volumes: Volumes<D>,
) -> Result<Segs<D>, NoMemory>
    requires fresh { AreFresh script.now volumes.records volumes.vtocs }
    ensures { IfOk result (λ segs. segs ≡ record {
      pages = empty_frames script.now.frames volumes;
      ast = no_segments script.now.pools;
      links = no_links (sum script.now.pools) (length script.now.processes);
      moving = None;
    }) }
{
    let processes = script.processes();
    let pages = Pages::new(alloc, script.frames(), volumes)?;
    let segs = Segs::new(alloc, pages, script.pools(), processes)?;
    Ok(segs)
}

impl<D: Drive> Store<D> {
    /// A store of the root alone, on the first volume: nothing is active, known, connected or stored. The volumes must
    /// have the script's sizes, with nothing of them in use. It takes all the memory that the store ever has.
    ///
    /// # Errors
    /// `NoMemory` is want of memory.
    pub fn new(alloc: Global, script: &Script, volumes: Volumes<D>) -> Result<Store<D>, NoMemory>
        requires count { length volumes.drives ≡ length script.now.volumes }
        requires fresh { AreFresh script.now volumes.records volumes.vtocs }
        ensures shown { IfOk result (λ t. Shows D.pages script.now (boot script.now) t) }
        ensures accounts { IfOk result (λ t. t.accounts ≡ root_alone 0 0 script.now.quota) }
        ensures pages { IfOk result (λ t. plain D.pages t.segs.pages
            ≡ after_asked (plain D.pages (empty_frames script.now.frames volumes)) 0 1 (Some 0)) }
        ensures links { IfOk result (λ t. t.segs.links
            ≡ no_links (sum script.now.pools) (length script.now.processes)) }
        ensures whos { IfOk result (λ t. t.whos ≡ map (λ x. x.who) script.now.processes) }
        ensures free { IfOk result (λ t. AreFree t.segs.pages.core) }
        ensures inactive { IfOk result (λ t. t.segs.ast ≡ no_segments script.now.pools) }
        ensures drives { IfOk result (λ t. t.segs.pages.volumes.drives ≡ volumes.drives) }
        ensures still { IfOk result (λ t. t.segs.moving ≡ None) }
    {
        // This call tells the ranges of the script's numbers.
        let _processes = script.processes();
        let whos = whos_of(alloc, script)?;
        let accounts = Accounts::new(alloc, 0, 0, script.quota())?;
        let mut segs = fresh_segs(alloc, script, volumes)?;
        look(&segs);
        let Some(entry) = segs.new_home(0, 1) else {
            unreachable!();
        };
        prove!(entry == 0);
        Ok(Store {
            accounts,
            segs,
            whos,
        })
    }
}
