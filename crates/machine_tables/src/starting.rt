ghost use Rattle.std.specs.Prelude.{◌≡◌, ◌<◌, ◌≤◌, ◌∷◌, [], length, map, replicate, IfOk, None};
ghost use Rattle.std.specs.List.{sum_by};
ghost use Rattle.custody_model.specs.Custody.{range, ready_at_first};
ghost use Rattle.storage_ops.specs.Shown.{AreFresh};
ghost use Rattle.machine_model.specs.Boot.{first_run, first_state, first_store};
ghost use Rattle.machine_model.specs.Keeps.{StoreSays};
ghost use Rattle.machine_model.specs.Reads.{no_processor};
ghost use Rattle.traffic.specs.Queue.{Queue};
ghost use Rattle.machine_tables.specs.Parts.{first_words, shown};

use crate::owner::Job;
use crate::tables::{NoMemory, Tables};
use book::Book;
use machine_model::{Processor, Run};
use processor::Cpu;
use script::Script;
use std::alloc::Global;
use storage_ops::Store;
use traffic::Ready;
use volumes::{Drive, Volumes};

/// A processor that takes no part yet.
fn idle() -> Processor
    ensures { result ≡ no_processor }
{
    Processor {
        cpu: Cpu::offline(),
        count: 0,
        tried: false,
    }
}

/// So many processors, none of which takes part yet.
fn first_processors(alloc: Global, count: u32) -> Result<Vec<Processor>, NoMemory>
    ensures { IfOk result (λ v. v.items ≡ replicate count no_processor) }
{
    let mut processors = Vec::new(alloc);
    for _place in 0..count {
        processors.push(idle())?;
    }
    Ok(processors)
}

/// So many processes, each before its first command.
fn first_runs(alloc: Global, count: u32) -> Result<Vec<Run>, NoMemory>
    ensures { IfOk result (λ v. v.items ≡ replicate count first_run) }
{
    let mut runs = Vec::new(alloc);
    for _place in 0..count {
        runs.push(Run {
            place: 0,
            tries: 0,
            ended: false,
        })?;
    }
    Ok(runs)
}

/// All processes are ready, in order.
fn all_ready(alloc: Global, count: u32) -> Result<Ready, NoMemory>
    ensures { IfOk result (λ r. r ≡ record { waiting = range 0 count; room = count }) }
{
    let mut ready = Ready::new(alloc, count)?;
    for process in 0..count {
        ready.enter(process);
    }
    Ok(ready)
}

/// The initializer alone is ready, of so many processes.
fn initializer_ready(alloc: Global, count: u32) -> Result<Ready, NoMemory>
    requires { 1 ≤ count }
    ensures { IfOk result (λ r. r ≡ record { waiting = 0 ∷ []; room = count }) }
{
    let mut ready = Ready::new(alloc, count)?;
    ready.enter(0);
    Ok(ready)
}

/// The processes of a script that are ready at first, in order: the initializer alone, where there is one.
fn first_ready(alloc: Global, script: &Script) -> Result<Ready, NoMemory>
    ensures { IfOk result (λ r. r
        ≡ record { waiting = ready_at_first script.now; room = length script.now.processes }) }
{
    let count = script.processes();
    if script.initializer() {
        initializer_ready(alloc, count)
    } else {
        all_ready(alloc, count)
    }
}

/// What the tables have beside the book and the store before the first entry.
#[derive(Drop)]
struct FirstRows {
    runs: Vec<Run>,
    ready: Ready,
    processors: Vec<Processor>,
    job: Job,
}

/// The rows of a script's processes and processors before its first entry.
fn first_rows(alloc: Global, script: &Script) -> Result<FirstRows, NoMemory>
    ensures runs { IfOk result (λ rows. rows.runs.items ≡ replicate (length script.now.processes) first_run) }
    ensures ready { IfOk result (λ rows. rows.ready
        ≡ record { waiting = ready_at_first script.now; room = length script.now.processes }) }
    ensures processors { IfOk result (λ rows. rows.processors.items ≡ replicate script.now.processors no_processor) }
    ensures job { IfOk result (λ rows. rows.job ≡ None) }
{
    Ok(FirstRows {
        runs: first_runs(alloc, script.processes())?,
        ready: first_ready(alloc, script)?,
        processors: first_processors(alloc, script.processors())?,
        job: Job::none(alloc)?,
    })
}

/// The empty book of a script, and its rows.
fn first_book(alloc: Global, script: Script) -> Result<(Book, FirstRows), NoMemory>
    ensures script { IfOk result (λ first. first.0.script ≡ script) }
    ensures empty { IfOk result (λ first. first.0.entries ≡ []) }
    ensures runs { IfOk result (λ first. first.1.runs.items ≡ replicate (length script.processes) first_run) }
    ensures ready { IfOk result (λ first. first.1.ready
        ≡ record { waiting = ready_at_first script; room = length script.processes }) }
    ensures processors { IfOk result (λ first. first.1.processors.items ≡ replicate script.processors no_processor) }
    ensures job { IfOk result (λ first. first.1.job ≡ None) }
{
    let rows = first_rows(alloc, &script)?;
    let book = Book::new(alloc, script)?;
    Ok((book, rows))
}

impl<D: Drive> Tables<D> {
    /// The tables of a script before its first entry, over a store. It takes all the memory that they ever have, but
    /// for the entries of the book.
    ///
    /// # Errors
    /// `NoMemory` is want of memory. (Source: own.)
    pub fn new(alloc: Global, script: Script, store: Store<D>) -> Result<Tables<D>, NoMemory>
        ensures state { IfOk result (λ t. t.state ≡ first_state script (shown D.pages store) t.state.spare
            (sum_by D.faults store.segs.pages.volumes.drives)) }
        ensures room { IfOk result (λ t. t.room ≡ length script.processes) }
        ensures drives { IfOk result (λ t. t.drives ≡ store.segs.pages.volumes.drives) }
    {
        let (book, rows) = first_book(alloc, script)?;
        Ok(Tables {
            book,
            store,
            runs: rows.runs,
            ready: rows.ready,
            processors: rows.processors,
            job: rows.job,
            stopped: false,
            visited: 0,
        })
    }

    /// The tables of a script before its first entry, over volumes of the script's sizes with nothing of them in use:
    /// the root alone, every frame free and of zeros, nothing active, known or connected, and no processor takes part.
    /// It takes all the memory that they ever have, but for the entries of the book.
    ///
    /// # Errors
    /// `NoMemory` is want of memory. (Source: own.)
    pub fn boot(alloc: Global, script: Script, volumes: Volumes<D>) -> Result<Tables<D>, NoMemory>
        requires count { length volumes.drives ≡ length script.volumes }
        requires fresh { AreFresh script volumes.records volumes.vtocs }
        ensures state { IfOk result (λ t. t.state ≡ first_state script (first_store script (first_words script.frames)
            (map D.pages volumes.drives)) t.state.spare (sum_by D.faults volumes.drives)) }
        ensures says { IfOk result (λ t. StoreSays t.state) }
        ensures room { IfOk result (λ t. t.room ≡ length script.processes) }
        ensures drives { IfOk result (λ t. t.drives ≡ volumes.drives) }
    {
        volumes.promise();
        let store = Store::new(alloc, &script, volumes)?;
        let tables = Tables::new(alloc, script, store)?;
        tables.promise();
        Ok(tables)
    }
}
