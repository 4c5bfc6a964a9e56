ghost use Rattle.std.specs.Bool.{Decides};
ghost use Rattle.flat_model.specs.Store.{Store};
ghost use Rattle.custody_model.specs.Allowed.{IsAllowed};
ghost use Rattle.custody.specs.Tables.{AreNodes, custody_of};
ghost use Rattle.flat_store.specs.Shown.{Shows};

use crate::tables::Custody;
use book::Entry;
use flat_store::FlatStore;
use script::Script;

impl Custody {
    /// Whether custody allows an entry of a book, by a look at the flat store before it.
    ///
    /// What is active must lie in the tree of that store as it did when it became active. An entry costs a few looks in
    /// tables, and at most a look at what each processor holds, or at each process; one that brings a page in looks at
    /// each frame where another page of the same number is in one. A command that is no reference costs besides what
    /// the flat store's reply to it does, and a `truncate` a look at the words of one page and at each frame.
    pub fn allows(&self, script: &Script, store: &FlatStore, e: Entry) -> bool
        ensures { (s : Store) → Shows script.now store.now s → AreNodes s.nodes self.now.active
            → Decides result (IsAllowed script.now s (custody_of self.now) e) }
    {
        match e {
            Entry::Do {
                process,
                cpu,
                frame,
                reply,
                ..
            } => self.may_do(script, store, process, cpu, frame, &reply),
            Entry::Release { uid, page } => self.is_in_no_frame(uid, page),
            Entry::Fault { .. } => true,
            Entry::Moved { uid, .. } => self.may_move(uid),
            Entry::Online { cpu } => self.may_come_online(script, cpu),
            Entry::Load { cpu, process } => self.may_load(cpu, process),
            Entry::Leave { cpu } => self.may_leave(store, cpu),
            Entry::Activate { uid } => self.may_activate(script, store, uid),
            Entry::Deactivate { uid } => self.may_deactivate(uid),
            Entry::Start { frame, uid, page } => self.may_start(script, frame, uid, page),
            Entry::Lose { frame } => self.is_started(frame),
            Entry::Here { frame, uid, page } => self.may_be_here(script, frame, uid, page),
            Entry::Connect {
                process,
                number,
                uid,
            } => self.may_connect(store, process, number, uid),
            Entry::Take { frame } => self.is_current(frame),
            Entry::Cut { process, number } => self.is_connected(process, number),
            Entry::Signal { cpu, what } => self.may_signal(cpu, what),
            Entry::Clear { cpu, what } => self.may_clear(cpu, what),
            Entry::FillSeg { cpu, number } => self.may_fill_seg(cpu, number),
            Entry::FillPage { cpu, frame } => self.may_fill_page(script, cpu, frame),
            Entry::GonePage { frame } | Entry::BackPage { frame } => self.may_end_page(frame),
            Entry::GoneSeg { process, number } | Entry::BackSeg { process, number } => {
                self.may_end_seg(process, number)
            }
        }
    }
}
