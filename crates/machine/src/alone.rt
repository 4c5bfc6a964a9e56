//! What a processor does without the supervisor.

ghost use Rattle.std.specs.Prelude.{◌≡◌, Some};
ghost use Rattle.flat_model.specs.References.{word_reply};
ghost use Rattle.machine_model.specs.Actions.{Clear, FillPage, FillSeg, Leave, Load, Online, Plain, Through};
ghost use Rattle.machine_model.specs.Reads.{cpu_at};
ghost use Rattle.machine.specs.Turns.{IsAtWork, IsTurn, MayAnswer, MayDo};

use crate::machine::Machine;
use crate::turn::Turn;
use assoc_mem::What;
use book::Reply;
use mword::Word;
use script::{RefKind, Reference};
use site_io::Point;
use volumes::Drive;

/// What a reference is answered that finds this word in its frame.
fn word_reply(old: Word, kind: &RefKind) -> Reply
    ensures { result ≡ word_reply old kind.now }
{
    match kind {
        RefKind::Write(_) => Reply::Done,
        RefKind::Read | RefKind::Add(_) => Reply::Word(kind.new_word(old)),
    }
}

impl<D: Drive> Machine<D> {
    /// The process of processor `c`, which has one.
    pub(crate) fn busy(&self, c: u32) -> u32
        requires { IsAtWork self.now.state c }
        ensures { (cpu_at self.now.state.processors c).process ≡ Some result }
    {
        match self.tables.processors()[c as usize].cpu.process {
            Some(process) => process,
            None => unreachable!(),
        }
    }

    /// The process of processor `c`, which has one that may be answered.
    pub(crate) fn to_answer(&self, c: u32) -> u32
        requires { IsAtWork self.now.state c }
        ensures { MayAnswer self.now c result }
    {
        let process = self.busy(c);
        let _entries = self.tables.book().len();
        process
    }
}

impl<D: Drive> Machine<D> {
    /// Processor `c` takes part from now on. (Source: own.)
    pub(crate) fn come_online(&mut self, c: u32) -> Turn
        requires { MayDo self.old.state c Online }
        ensures { IsTurn D.plan D.places D.faults self.old self.new c result }
    {
        self.tables.come_online(c);
        Turn::Moved(Point::Online)
    }

    /// Processor `c` drops what it is to drop. (Source: Bensoussan, Clingen and Daley 1972.)
    pub(crate) fn clear(&mut self, c: u32, what: What) -> Turn
        requires { MayDo self.old.state c (Clear what) }
        ensures { IsTurn D.plan D.places D.faults self.old self.new c result }
    {
        self.tables.clear(c, what);
        Turn::Moved(Point::Other)
    }

    /// Processor `c` loads the process at the front of the ready list. (Source: Corbató 1968.)
    pub(crate) fn load(&mut self, c: u32, process: u32) -> Turn
        requires { MayDo self.old.state c (Load process) }
        ensures { IsTurn D.plan D.places D.faults self.old self.new c result }
    {
        self.tables.load(c, process);
        Turn::Moved(Point::Loaded(process))
    }

    /// Processor `c` gives its process up, which has had its turn or has ended. (Source: Corbató 1968.)
    pub(crate) fn leave(&mut self, c: u32) -> Turn
        requires { MayDo self.old.state c Leave }
        ensures { IsTurn D.plan D.places D.faults self.old self.new c result }
    {
        let process = self.busy(c);
        self.tables.leave(c, process);
        Turn::Moved(Point::Other)
    }
}

impl<D: Drive> Machine<D> {
    /// Processor `c` takes in the descriptor of a number of its process. (Source: Bensoussan, Clingen and Daley 1972.)
    pub(crate) fn fill_seg(&mut self, c: u32, number: u32) -> Turn
        requires { MayDo self.old.state c (FillSeg number) }
        ensures { IsTurn D.plan D.places D.faults self.old self.new c result }
    {
        let process = self.busy(c);
        self.tables.fill_seg(c, process, number);
        Turn::Moved(Point::Other)
    }

    /// Processor `c` takes in the page table word of a reference's page, which is in this frame. (Source: Bensoussan,
    /// Clingen and Daley 1972.)
    pub(crate) fn fill_page(&mut self, c: u32, frame: u32, reference: Reference) -> Turn
        requires { MayDo self.old.state c (FillPage frame reference) }
        ensures { IsTurn D.plan D.places D.faults self.old self.new c result }
    {
        self.tables.fill_page(c, frame, reference);
        Turn::Moved(Point::Other)
    }

    /// Processor `c` answers the next command of its process by itself, through no frame: a reference that what it
    /// holds refuses, or one to a page that stays all zeros. (Source: Bensoussan, Clingen and Daley 1972.)
    pub(crate) fn answer(&mut self, c: u32, reply: Reply) -> Turn
        requires { MayDo self.old.state c (Plain reply) }
        ensures { IsTurn D.plan D.places D.faults self.old self.new c result }
    {
        let process = self.to_answer(c);
        self.tables.tell(c, process, None, reply);
        Turn::Moved(Point::Other)
    }

    /// Processor `c` reads or writes the word of a reference in this frame, with the marks that go with it, and answers
    /// it. (Source: Bensoussan, Clingen and Daley 1972.)
    pub(crate) fn through(&mut self, c: u32, frame: u32, reference: Reference) -> Turn
        requires { MayDo self.old.state c (Through frame reference) }
        ensures { IsTurn D.plan D.places D.faults self.old self.new c result }
    {
        let process = self.to_answer(c);
        let word = self.tables.reach(frame, &reference);
        let reply = word_reply(word, &reference.kind);
        self.tables.tell(c, process, Some(frame), reply);
        self.tables.promise();
        Turn::Moved(Point::Answered(process))
    }
}
