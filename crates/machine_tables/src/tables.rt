ghost use Rattle.std.specs.Prelude.{◌≡◌, ◌<◌, ◌≤◌, ◌∷◌, [], length, map, OnOk, Some, None, true, IfSome, IfNone};
ghost use Rattle.machine_model.specs.Reads.{next_command, processor_at, run_at};
ghost use Rattle.machine_model.specs.Steps.{booked, with_owner};
ghost use Rattle.machine_tables.specs.Parts.{Parts, shown};
ghost use Rattle.seg_control.specs.Moving.{in_move, volumes_of};
ghost use Rattle.volumes.specs.Volumes.{HasParts};

use crate::owner::Job;
use book::{Book, Entry, Reply};
use machine_model::{Processor, Run};
pub use no_memory::NoMemory;
use std::marker::Model;
use storage_ops::Store;
use traffic::Ready;
use volumes::{Drive, Volumes};

/// What a machine has between two steps, side by side (Bensoussan, Clingen and Daley 1972; Corbató 1968).
#[derive(Drop)]
pub struct Tables<D: Drive> {
    pub(crate) book: Book,
    pub(crate) store: Store<D>,
    pub(crate) runs: Vec<Run>,
    pub(crate) ready: Ready,
    pub(crate) processors: Vec<Processor>,
    pub(crate) job: Job,
    pub(crate) stopped: bool,
    pub(crate) visited: u32,
}

impl<D: Drive> Model for Tables<D> {
    ghost use Rattle.std.specs.List.{sum_by};
    ghost use Rattle.machine_tables.specs.Parts.{Parts, shown};

    ghost Value = { Parts D };

    ghost view = { λ t. record {
      state = record {
        plan = t.book.script;
        entries = t.book.entries;
        spare = t.book.spare;
        store = shown D.pages t.store;
        runs = t.runs.items;
        ready = t.ready.waiting;
        processors = t.processors.items;
        owner = t.job;
        stopped = t.stopped;
        visited = t.visited;
        faults = sum_by D.faults t.store.segs.pages.volumes.drives;
      };
      room = t.ready.room;
      drives = t.store.segs.pages.volumes.drives;
    } };
}

impl<D: Drive> Tables<D> {
    /// Books an entry.
    pub(crate) fn note(&mut self, e: Entry)
        requires { 0 < self.old.state.spare }
        ensures { self.new ≡ record self.old { state = booked self.old.state (e ∷ []) } }
    {
        // A check of this call wants the type of an entry's reply named.
        let _named: Option<Reply> = None;
        self.book.push(e);
    }

    /// Makes room for `n` more entries. A refusal changes nothing but that there may be more room. (Source: own.)
    pub fn reserve(&mut self, n: u32) -> Result<(), NoMemory>
        ensures room { OnOk result (n ≤ self.new.state.spare) }
        ensures rest { self.new ≡ record self.old {
          state = record self.old.state { spare = self.new.state.spare };
        } }
    {
        self.book.reserve(n)
    }

    /// Nothing is done from now on. (Source: own.)
    pub fn stop(&mut self)
        ensures { self.new ≡ record self.old { state = record self.old.state { stopped = true } } }
    {
        self.stopped = true;
    }

    /// The book. (Source: own.)
    pub fn book(&self) -> &Book
        ensures script { result.now.script ≡ self.now.state.plan }
        ensures entries { result.now.entries ≡ self.now.state.entries }
        ensures spare { result.now.spare ≡ self.now.state.spare }
    {
        &self.book
    }

    /// The store. (Source: own.)
    pub fn store(&self) -> &Store<D>
        ensures store { shown D.pages result.now ≡ self.now.state.store }
        ensures drives { result.now.segs.pages.volumes.drives ≡ self.now.drives }
    {
        &self.store
    }

    /// The volumes: their drives, which records of them are in use, and their VTOCs, with what a move has taken that is
    /// under way. (Source: own.)
    pub fn volumes(&self) -> &Volumes<D>
        ensures drives { result.now.drives ≡ self.now.drives }
        ensures records { result.now.records
            ≡ (in_move (volumes_of self.now.state.store.pages) self.now.state.store.moving).records }
        ensures vtocs { result.now.vtocs
            ≡ (in_move (volumes_of self.now.state.store.pages) self.now.state.store.moving).vtocs }
        ensures parts { HasParts (map D.pages self.now.drives) self.now.state.store.pages.records
            self.now.state.store.pages.vtocs }
    {
        self.store.segs().pages().volumes()
    }

    /// The processors. (Source: own.)
    pub fn processors(&self) -> &[Processor]
        ensures { result.now ≡ self.now.state.processors }
    {
        &self.processors
    }

    /// How far each process has come. (Source: own.)
    pub fn runs(&self) -> &[Run]
        ensures { result.now ≡ self.now.state.runs }
    {
        &self.runs
    }

    /// Whether it was stopped. (Source: own.)
    pub fn stopped(&self) -> bool
        ensures { result ≡ self.now.state.stopped }
    {
        self.stopped
    }
}
