//! The gate that the processors of a run pass.

use crate::runs::asking::{Asked, Holding};
use crate::runs::lockstep::Lockstep;
use crate::runs::passes::{Pass, Passes, told_in};
use book::Book;
use bulk_store::AnyDrive;
use machine::Machine;
use no_memory::NoMemory;
use site_io::{Gate, HoldGate, Point};
use std::alloc::Global;
use std::sync::{Mutex, Wait};
use std::thread::Threads;

/// Whom a gate holds.
#[derive(Drop)]
enum Holds {
    /// It lets each processor pass at once.
    Nobody,
    /// Two processors at certain points.
    Two(HoldGate),
    /// All processors, which go in turn.
    Turns(Lockstep),
}

/// A gate that notes who passes, and holds processors where that is asked.
#[derive(Drop)]
pub(crate) struct RunGate {
    passes: Mutex<Passes>,
    holds: Holds,
}

impl Gate for RunGate {
    fn hold<R: Threads + Wait + Sync>(&self, rt: &R, cpu: u32, point: Point) {
        self.passes.lock(rt).note(Pass { cpu, point });
        match &self.holds {
            Holds::Nobody => (),
            Holds::Two(gate) => gate.hold(rt, cpu, point),
            Holds::Turns(gate) => gate.hold(rt, cpu, point),
        }
    }
}

impl RunGate {
    /// A gate to which nobody has come, and which holds the processors that are asked for.
    pub(crate) fn new(alloc: Global, asked: &Asked) -> RunGate {
        RunGate {
            passes: Mutex::new(Passes::new(alloc)),
            holds: match asked.holding {
                Holding::Nobody => Holds::Nobody,
                Holding::Two => Holds::Two(HoldGate::new()),
                Holding::Turns(processors) => Holds::Turns(Lockstep::new(processors)),
            },
        }
    }

    /// Whether each hold took place, or the processors went in turn, where that is asked.
    fn held_text<R: Threads + Wait + Sync>(&self, rt: &R, told: &[Pass]) -> &'static str {
        match &self.holds {
            Holds::Nobody => "",
            Holds::Two(gate) if gate.passed(rt) => "held\n",
            Holds::Two(_) => "not held\n",
            Holds::Turns(gate) => gate.text(rt, told),
        }
    }

    /// What is told of the gate after a run that left this book: whether each hold took place, and what is wrong with
    /// the passes.
    fn text_of<R: Threads + Wait + Sync + AllocGlobal>(
        &self,
        rt: &R,
        book: &Book,
    ) -> Result<String, NoMemory> {
        let told = told_in(rt.alloc(), book)?;
        let held = self.held_text(rt, told.as_slice());
        let wrong = self.passes.lock(rt).text(rt.alloc(), book)?;
        Ok(format!(in rt.alloc(); "{held}{wrong}")?)
    }

    /// The same of a run that left this machine, and nothing where it left none.
    pub(crate) fn text<R: Threads + Wait + Sync + AllocGlobal>(
        &self,
        rt: &R,
        machine: &Option<Machine<AnyDrive>>,
    ) -> Result<String, NoMemory> {
        match machine {
            Some(machine) => self.text_of(rt, machine.book()),
            None => Ok(String::new(rt.alloc())),
        }
    }
}
