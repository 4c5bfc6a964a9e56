ghost use Rattle.std.specs.Prelude.{◌≡◌, true, OnOk, OnErr};
ghost use Rattle.script.specs.Plans.{Plan};
ghost use Rattle.flat_model.specs.Legal.{IsLawful, after_entry};
ghost use Rattle.flat_model.specs.Store.{Store};
ghost use Rattle.custody_model.specs.Allowed.{IsAllowed};
ghost use Rattle.custody_model.specs.Next.{custody_next};
ghost use Rattle.custody.specs.Changes.{Advances, is_of_descriptor, is_of_frame, is_of_seat};
ghost use Rattle.custody.specs.Tables.{AreNodes, AreTablesOf, HaveRoom, custody_of};
ghost use Rattle.flat_store.specs.Shown.{Shows};

use crate::NoMemory;
use crate::rows::{cut, reconnected};
use crate::tables::Custody;
use book::Entry;
use custody_model::{DescriptorUse, FrameUse};
use flat_store::FlatStore;
use script::Script;

impl Custody {
    /// Writes what an entry of a frame changes.
    fn advance_frame(&mut self, e: Entry) -> Result<(), NoMemory>
        ensures ok { OnOk result ((p : Plan) (s : Store) → is_of_frame e ≡ true → Advances p s self.old self.new e) }
        ensures err { OnErr result (self.new ≡ self.old) }
    {
        match e {
            Entry::Start { frame, uid, page } => {
                self.put_frame(frame, FrameUse::Started { uid, page })
            }
            Entry::Here { frame, uid, page } => {
                self.put_frame(frame, FrameUse::Current { uid, page })
            }
            Entry::Lose { frame } | Entry::GonePage { frame } => {
                self.put_frame(frame, FrameUse::Free)
            }
            Entry::Take { frame } => self.take(frame),
            Entry::BackPage { frame } => self.give_back(frame),
            _ => Ok(()),
        }
    }

    /// Writes what an entry of a descriptor changes.
    fn advance_descriptor(&mut self, store: &FlatStore, e: Entry) -> Result<(), NoMemory>
        ensures ok { OnOk result ((p : Plan) (s : Store) → Shows p store.now s → is_of_descriptor e ≡ true
            → Advances p s self.old self.new e) }
        ensures err { OnErr result (self.new ≡ self.old) }
    {
        match e {
            Entry::Connect {
                process,
                number,
                uid,
            } => self.connect(store, process, number, uid),
            Entry::Cut { process, number } => {
                let of = self.descriptor(process, number);
                self.put_descriptor(process, number, cut(of))
            }
            Entry::GoneSeg { process, number } => {
                self.put_descriptor(process, number, DescriptorUse::Free)
            }
            Entry::BackSeg { process, number } => {
                let of = self.descriptor(process, number);
                self.put_descriptor(process, number, reconnected(of))
            }
            _ => Ok(()),
        }
    }

    /// Writes what an entry of a processor changes that takes no memory.
    fn advance_seat(&mut self, e: Entry)
        ensures { (p : Plan) (s : Store) → is_of_seat e ≡ true → Advances p s self.old self.new e }
    {
        match e {
            Entry::Online { cpu } => self.come_online(cpu),
            Entry::Load { cpu, process } => self.load(cpu, process),
            Entry::Signal { cpu, what } => self.signal(cpu, what),
            Entry::Clear { cpu, what } => self.clear(cpu, what),
            Entry::FillSeg { cpu, number } => self.fill_seg(cpu, number),
            Entry::FillPage { cpu, frame } => self.fill_page(cpu, frame),
            _ => {}
        }
    }

    /// Writes what an entry changes, each in one table.
    fn advance(&mut self, script: &Script, store: &FlatStore, e: Entry) -> Result<(), NoMemory>
        requires { HaveRoom self.old.seats }
        ensures ok { OnOk result ((s : Store) → Shows script.now store.now s
            → Advances script.now s self.old self.new e) }
        ensures err { OnErr result (self.new ≡ self.old) }
    {
        match e {
            Entry::Do {
                process,
                cpu,
                reply,
                ..
            } => self.answer(script, store, process, cpu, &reply),
            Entry::Release { .. } | Entry::Fault { .. } | Entry::Moved { .. } => Ok(()),
            Entry::Leave { cpu } => self.leave(store, cpu),
            Entry::Activate { uid } => self.activate(store, uid),
            Entry::Deactivate { uid } => self.deactivate(uid),
            Entry::Start { .. }
            | Entry::Here { .. }
            | Entry::Lose { .. }
            | Entry::Take { .. }
            | Entry::GonePage { .. }
            | Entry::BackPage { .. } => self.advance_frame(e),
            Entry::Connect { .. }
            | Entry::Cut { .. }
            | Entry::GoneSeg { .. }
            | Entry::BackSeg { .. } => self.advance_descriptor(store, e),
            Entry::Online { .. }
            | Entry::Load { .. }
            | Entry::Signal { .. }
            | Entry::Clear { .. }
            | Entry::FillSeg { .. }
            | Entry::FillPage { .. } => {
                self.advance_seat(e);
                Ok(())
            }
        }
    }

    /// Goes on to the custody after an entry that is allowed in the flat store before it.
    ///
    /// The tables must be those of the script, and each processor's count of command entries must have room for one
    /// more. An entry costs a few looks in tables, and at most a look at what each processor holds, or at the processes
    /// that are ready. The list of what is active and the counts grow to the greatest uid that they are of.
    ///
    /// # Errors
    /// `NoMemory` is want of memory; then nothing is changed.
    pub fn follow(&mut self, script: &Script, store: &FlatStore, e: Entry) -> Result<(), NoMemory>
        requires allowed { (s : Store) → Shows script.now store.now s → AreNodes s.nodes self.old.active
            → IsAllowed script.now s (custody_of self.old) e }
        requires count { HaveRoom self.old.seats }
        requires tables { AreTablesOf script.now self.old }
        ensures custody { OnOk result ((s : Store) → Shows script.now store.now s → AreNodes s.nodes self.old.active
            → custody_of self.new ≡ custody_next script.now s (custody_of self.old) e) }
        ensures nodes { OnOk result ((s : Store) → Shows script.now store.now s → AreNodes s.nodes self.old.active
            → IsLawful script.now s e → AreNodes (after_entry script.now s e).nodes self.new.active) }
        ensures tables { OnOk result ((s : Store) → Shows script.now store.now s → AreTablesOf script.now self.new) }
        ensures err { OnErr result (self.new ≡ self.old) }
    {
        let _next = store.next_uid();
        self.advance(script, store, e)
    }
}
