ghost use Rattle.std.specs.Prelude.{◌≡◌, ◌<◌, ◌∷◌, [], ℕ, length, Some, None, true, false, ◌/◌};
ghost use Rattle.assoc_mem.specs.Held.{page_of, seg_of};
ghost use Rattle.descriptor_seg.specs.declared.Sdw.TheVariants.{Present};
ghost use Rattle.mnames.specs.declared.modes.Mode.{Mode as Rights};
ghost use Rattle.machine_model.specs.Reads.{cpu_at, descriptor_of, is_connected, processor_at, process_at, run_at};
ghost use Rattle.machine_model.specs.Steps.{came_online, cleared_at, held_page, held_seg, left_at, loaded, page_filled};
ghost use Rattle.machine_model.specs.Steps.{seg_filled, uid_of_held};
ghost use Rattle.machine_tables.specs.Parts.{with_state};
ghost use Rattle.machine_tables.specs.Held.{held_by};

use crate::tables::Tables;
use active_segs::Ast;
use assoc_mem::{Assoc, HeldPage, HeldSeg, What};
use book::Entry;
use descriptor_seg::Sdw;
use mnames::Mode;
use mword::Page;
use processor::Cpu;
use script::Reference;
use volumes::Drive;

/// What is taken in of the descriptor of a number.
fn held_seg(ast: &Ast, number: u32, word: Sdw) -> HeldSeg
    requires { (aste pages : ℕ) (mode : Rights) → word ≡ Present aste mode pages → aste < length ast.now.entries }
    ensures { result ≡ held_by ast.now.entries number word }
{
    match word {
        Sdw::Present { aste, mode, pages } => HeldSeg {
            number,
            uid: ast.uid_at(aste).unwrap_or(0),
            mode,
            pages,
        },
        Sdw::Fault => HeldSeg {
            number,
            uid: 0,
            mode: Mode::Null,
            pages: 0,
        },
    }
}

/// What is taken in of the page table word of a reference's page, which is in this frame.
fn held_page(cpu: &Cpu, frame: u32, reference: &Reference) -> HeldPage
    ensures { result ≡ held_page cpu.now frame reference.now }
{
    HeldPage {
        uid: match cpu.assoc.find_sdw(reference.number) {
            Some(held) => held.uid,
            None => 0,
        },
        page: reference.offset / Page::WORDS,
        frame,
    }
}

impl<D: Drive> Tables<D> {
    /// Processor `c` takes part from now on. (Source: own.)
    #[inline(never)]
    pub fn come_online(&mut self, c: u32)
        requires processor { c < length self.old.state.processors }
        requires room { 0 < self.old.state.spare }
        ensures { self.new ≡ with_state self.old (came_online self.old.state c) }
    {
        self.processors[c as usize].cpu.online = true;
        self.note(Entry::Online { cpu: c });
    }

    /// Processor `c` drops what it is to drop. (Source: Bensoussan, Clingen and Daley 1972.)
    #[inline(never)]
    pub fn clear(&mut self, c: u32, what: What)
        requires processor { c < length self.old.state.processors }
        requires room { 0 < self.old.state.spare }
        ensures { self.new ≡ with_state self.old (cleared_at self.old.state c what) }
    {
        let cpu = &mut self.processors[c as usize].cpu;
        cpu.due = None;
        cpu.assoc.clear(what);
        self.note(Entry::Clear { cpu: c, what });
    }

    /// Processor `c` loads the process at the front of the ready list, and holds nothing. (Source: Corbató 1968.)
    #[inline(never)]
    pub fn load(&mut self, c: u32, process: u32)
        requires processor { c < length self.old.state.processors }
        requires room { 0 < self.old.state.spare }
        ensures { self.new ≡ with_state self.old (loaded self.old.state c process) }
    {
        let _front = self.ready.next();
        let processor = &mut self.processors[c as usize];
        processor.cpu.process = Some(process);
        processor.cpu.assoc = Assoc::new();
        processor.count = 0;
        processor.tried = false;
        self.note(Entry::Load { cpu: c, process });
    }

    /// Processor `c` gives its process up, and holds nothing. The process goes to the back of the ready list, unless it
    /// has ended. (Source: Corbató 1968.)
    #[inline(never)]
    pub fn leave(&mut self, c: u32, process: u32)
        requires processor { c < length self.old.state.processors }
        requires process { (cpu_at self.old.state.processors c).process ≡ Some process }
        requires run { process < length self.old.state.runs }
        requires ready { length self.old.state.ready < self.old.room }
        requires room { 0 < self.old.state.spare }
        ensures { self.new ≡ with_state self.old (left_at self.old.state c) }
    {
        let cpu = &mut self.processors[c as usize].cpu;
        cpu.process = None;
        cpu.assoc = Assoc::new();
        if !self.runs[process as usize].ended {
            self.ready.enter(process);
        }
        self.note(Entry::Leave { cpu: c });
    }

    /// Processor `c` takes in the descriptor of a number of its process. (Source: Bensoussan, Clingen and Daley 1972.)
    pub fn fill_seg(&mut self, c: u32, process: u32, number: u32)
        requires processor { c < length self.old.state.processors }
        requires process { (cpu_at self.old.state.processors c).process ≡ Some process }
        requires known { process < length self.old.state.store.links.known }
        requires number { number < 256 }
        requires new { seg_of (cpu_at self.old.state.processors c).assoc number ≡ None }
        requires room { 0 < self.old.state.spare }
        ensures { self.new ≡ with_state self.old (seg_filled self.old.state c number) }
    {
        let segs = self.store.segs();
        let held = held_seg(segs.ast(), number, segs.descriptors(process).get(number));
        self.processors[c as usize].cpu.assoc.fill_sdw(held);
        self.note(Entry::FillSeg { cpu: c, number });
    }

    /// Processor `c` takes in the page table word of a reference's page, which is in this frame. (Source: Bensoussan,
    /// Clingen and Daley 1972.)
    pub fn fill_page(&mut self, c: u32, frame: u32, reference: Reference)
        requires processor { c < length self.old.state.processors }
        requires new { page_of (cpu_at self.old.state.processors c).assoc
            (held_page (cpu_at self.old.state.processors c) frame reference).uid (reference.offset / 1024) ≡ None }
        requires room { 0 < self.old.state.spare }
        ensures { self.new ≡ with_state self.old (page_filled self.old.state c frame reference) }
    {
        let cpu = &mut self.processors[c as usize].cpu;
        let held = held_page(cpu, frame, &reference);
        cpu.assoc.fill_ptw(held);
        self.note(Entry::FillPage { cpu: c, frame });
    }
}
