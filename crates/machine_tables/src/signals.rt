ghost use Rattle.std.specs.Prelude.{◌≡◌, ◌<◌, length, Some, None};
ghost use Rattle.machine_model.specs.Jobs.{signalled, told_at, told_from};
ghost use Rattle.machine_model.specs.Reads.{processor_at};
ghost use Rattle.machine_model.specs.Steps.{fault_told, looking, with_owner};
ghost use Rattle.machine_tables.specs.Parts.{with_state};

use crate::tables::Tables;
use assoc_mem::What;
use book::Entry;
use machine_model::Processor;
use volumes::Drive;

/// A processor that signals drops what is named, and another one that takes part is to drop it.
fn tell_one(processor: &mut Processor, at: usize, signaller: u32, what: What)
    ensures { processor.new ≡ told_at signaller what at processor.old }
{
    if at == signaller as usize {
        processor.cpu.assoc.clear(what);
    } else if processor.cpu.online {
        processor.cpu.due = Some(what);
    }
}

/// The same for all processors, in order.
fn tell_all(processors: &mut [Processor], signaller: u32, what: What)
    ensures { processors.new ≡ told_from signaller what 0 processors.old }
{
    for at in 0..processors.len() {
        tell_one(&mut processors[at], at, signaller, what);
    }
}

impl<D: Drive> Tables<D> {
    /// Processor `c` owns the supervisor from now on, and looks. (Source: own.)
    pub fn take_supervisor(&mut self, c: u32)
        ensures { self.new ≡ with_state self.old (with_owner self.old.state (Some (looking c))) }
    {
        self.job.begin(c);
    }

    /// Nobody owns the supervisor from now on. (Source: own.)
    pub fn give_up(&mut self)
        ensures { self.new ≡ with_state self.old (with_owner self.old.state None) }
    {
        self.job.end();
    }

    /// Processor `c` drops what is named and has the others that take part drop it. The owner's job waits for them.
    /// (Source: Bensoussan, Clingen and Daley 1972.)
    #[inline(never)]
    pub fn signal(&mut self, c: u32, what: What)
        requires { 0 < self.old.state.spare }
        ensures { self.new ≡ with_state self.old (signalled self.old.state c what) }
    {
        tell_all(&mut self.processors, c, what);
        self.job.signal();
        self.note(Entry::Signal { cpu: c, what });
    }

    /// A drive's failure is told, of a process or, at shutdown, of none. The drives have counted it. (Source: own.)
    pub fn tell_fault(&mut self, process: Option<u32>)
        requires { 0 < self.old.state.spare }
        ensures { self.new ≡ with_state self.old (fault_told self.old.state process self.old.state.faults) }
    {
        self.note(Entry::Fault { process });
    }
}
