ghost use Rattle.std.specs.Prelude.{◌≡◌, ◌++◌, ◌+◌, ◌<◌, ◌^◌, drop, true, OnOk, OnErr, None, Some};
ghost use Rattle.script.specs.Plans.{Plan};
ghost use Rattle.flat_model.specs.Store.{Store};
ghost use Rattle.tree_model.specs.Tree.{node_in};
ghost use Rattle.custody_model.specs.Allowed.{next_command};
ghost use Rattle.custody_model.specs.Custody.{cut, filled, given_back, range, reconnected, taken};
ghost use Rattle.custody_model.specs.Next.{is_try, queued, released_by};
ghost use Rattle.custody_model.specs.declared.DescriptorUse.TheVariants as descriptor;
ghost use Rattle.custody.specs.Changes.{IsNumber, answer_at, clear_at, drop_at, leave_at, load_at};
ghost use Rattle.custody.specs.Changes.{put_descriptor, put_frame, put_seat, put_use, warn_from, warn_others};
ghost use Rattle.custody.specs.Tables.{HaveRoom, row_at, seat_at, use_in};
ghost use Rattle.custody.specs.Uses.{descriptor_at, frame_at};
ghost use Rattle.flat_store.specs.Shown.{Shows};

use crate::NoMemory;
use crate::seats::SeatRow;
use crate::store_rows::node;
use crate::tables::Custody;
use assoc_mem::What;
use book::Reply;
use custody_model::{DescriptorUse, FrameUse};
use flat_store::{FlatStore, command_at};
use script::{Command, Script};

/// A page that is in a frame is on its way out.
fn taken(of: FrameUse) -> FrameUse
    ensures { result ≡ taken of }
{
    match of {
        FrameUse::Current { uid, page } => FrameUse::Going { uid, page },
        other => other,
    }
}

/// A page that was on its way out is back.
fn given_back(of: FrameUse) -> FrameUse
    ensures { result ≡ given_back of }
{
    match of {
        FrameUse::Going { uid, page } => FrameUse::Current { uid, page },
        other => other,
    }
}

/// A descriptor is on its way out.
pub(crate) fn cut(of: DescriptorUse) -> DescriptorUse
    ensures { result ≡ cut of }
{
    match of {
        DescriptorUse::Current { uid } => DescriptorUse::Going { uid },
        other => other,
    }
}

/// A descriptor that was on its way out is back.
pub(crate) fn reconnected(of: DescriptorUse) -> DescriptorUse
    ensures { result ≡ reconnected of }
{
    match of {
        DescriptorUse::Going { uid } => DescriptorUse::Current { uid },
        other => other,
    }
}

/// Takes the first of those that are ready.
fn take_front(ready: &mut Vec<u32>)
    ensures { ready.new.items ≡ drop 1 ready.old.items }
{
    if !ready.is_empty() {
        let _front = ready.remove(0);
    }
}

/// Puts so many processes after those that are ready, in order from the second of the script on.
fn release_others(ready: &mut Vec<u32>, count: u32) -> Result<(), NoMemory>
    ensures ok { OnOk result (ready.new.items ≡ ready.old.items ++ range 1 count) }
    ensures err { OnErr result (ready.new.items ≡ ready.old.items) }
{
    let ready_before = ready.len();
    for process in 0..count {
        if ready.push(process + 1).is_err() {
            ready.truncate(ready_before);
            return Err(NoMemory);
        }
    }
    Ok(())
}

/// Puts a process after those that are ready, unless it has ended.
fn queue(ready: &mut Vec<u32>, store: &FlatStore, process: Option<u32>) -> Result<(), NoMemory>
    ensures ok { OnOk result ((p : Plan) (s : Store) → Shows p store.now s
        → ready.new.items ≡ queued s ready.old.items process) }
    ensures err { OnErr result (ready.new.items ≡ ready.old.items) }
{
    match process {
        Some(process) if !store.has_ended(process) => Ok(ready.push(process)?),
        _ => Ok(()),
    }
}

/// Tells each processor that takes part, but one, what it is to drop.
fn warn_others(seats: &mut Vec<SeatRow>, but: u32, what: What)
    ensures { seats.new.items ≡ warn_from but what 0 seats.old.items }
{
    for (cpu, seat) in seats.iter_mut().enumerate() {
        if cpu != but as usize {
            seat.warn(what);
        }
    }
}

/// How many processes a command of a process makes ready: all others, where it is the initializer's `end`.
fn released(script: &Script, process: u32, command: &Command) -> u32
    ensures { range 1 result ≡ released_by script.now process (Some command.now) }
{
    match command {
        Command::End if script.initializer() && process == 0 => {
            script.processes().saturating_sub(1)
        }
        _ => 0,
    }
}

/// Whether an answer to the command that a process comes to next is a try that doesn't end its `await`, and how many
/// processes that command makes ready.
fn outcome(script: &Script, store: &FlatStore, process: u32, reply: &Reply) -> (bool, u32)
    ensures tried { (s : Store) → Shows script.now store.now s
        → result.0 ≡ is_try s process (next_command script.now s process) reply.now }
    ensures released { (s : Store) → Shows script.now store.now s
        → range 1 result.1 ≡ released_by script.now process (next_command script.now s process) }
{
    match command_at(script, process, store.place(process)) {
        Some(command) => (
            store.goes_on(process, command, reply),
            released(script, process, command),
        ),
        None => (false, 0),
    }
}

impl Custody {
    /// A frame is used so from now on.
    pub(crate) fn put_frame(&mut self, frame: u32, to: FrameUse) -> Result<(), NoMemory>
        ensures ok { OnOk result (self.new ≡ put_frame self.old frame to) }
        ensures err { OnErr result (self.new ≡ self.old) }
    {
        self.frames.put(frame, to)
    }

    /// A descriptor leads to this from now on.
    pub(crate) fn put_descriptor(
        &mut self,
        process: u32,
        number: u32,
        to: DescriptorUse,
    ) -> Result<(), NoMemory>
        ensures ok { OnOk result (self.new ≡ put_descriptor self.old process number to) }
        ensures err { OnErr result (self.new ≡ self.old) }
    {
        match self.descriptors.get_mut(process as usize) {
            Some(row) => row.put(number, to),
            None => Ok(()),
        }
    }

    /// The descriptor of a number that a process knows leads to a segment from now on.
    pub(crate) fn connect(
        &mut self,
        store: &FlatStore,
        process: u32,
        number: u32,
        uid: u32,
    ) -> Result<(), NoMemory>
        ensures ok { OnOk result (self.new ≡ put_descriptor self.old process number (descriptor.Current uid)) }
        ensures number { (p : Plan) (s : Store) → Shows p store.now s → IsNumber s process number uid }
        ensures err { OnErr result (self.new ≡ self.old) }
    {
        let _known = store.known(process, number);
        self.put_descriptor(process, number, DescriptorUse::Current { uid })
    }

    /// The page in a frame is on its way out.
    pub(crate) fn take(&mut self, frame: u32) -> Result<(), NoMemory>
        ensures ok { OnOk result (self.new ≡ put_frame self.old frame (taken (frame_at self.old.frames frame))) }
        ensures err { OnErr result (self.new ≡ self.old) }
    {
        let to = taken(self.frames.at(frame));
        self.put_frame(frame, to)
    }

    /// The page in a frame isn't on its way out any more.
    pub(crate) fn give_back(&mut self, frame: u32) -> Result<(), NoMemory>
        ensures ok { OnOk result (self.new ≡ put_frame self.old frame (given_back (frame_at self.old.frames frame))) }
        ensures err { OnErr result (self.new ≡ self.old) }
    {
        let to = given_back(self.frames.at(frame));
        self.put_frame(frame, to)
    }

    /// A segment or directory is active from now on, as its node is.
    pub(crate) fn activate(&mut self, store: &FlatStore, uid: u32) -> Result<(), NoMemory>
        ensures ok { OnOk result ((p : Plan) (s : Store) → Shows p store.now s
            → self.new ≡ put_use self.old uid (use_in (node_in s.nodes uid))) }
        ensures err { OnErr result (self.new ≡ self.old) }
    {
        let of = node(store, uid);
        self.active.put(uid, of)
    }

    /// A segment or directory is active no more.
    pub(crate) fn deactivate(&mut self, uid: u32) -> Result<(), NoMemory>
        ensures ok { OnOk result (self.new ≡ put_use self.old uid None) }
        ensures err { OnErr result (self.new ≡ self.old) }
    {
        self.active.put(uid, None)
    }

    /// A processor takes part from now on.
    pub(crate) fn come_online(&mut self, cpu: u32)
        ensures { self.new ≡ put_seat self.old cpu (record (seat_at self.old.seats cpu) { online = true }) }
    {
        if let Some(seat) = self.seats.get_mut(cpu as usize) {
            seat.come_online();
        }
    }

    /// A processor loads the first process that is ready.
    pub(crate) fn load(&mut self, cpu: u32, process: u32)
        ensures { self.new ≡ load_at self.old cpu process }
    {
        take_front(&mut self.ready);
        if let Some(seat) = self.seats.get_mut(cpu as usize) {
            seat.load(process);
        }
    }

    /// A processor leaves its process, which is ready again unless it has ended.
    pub(crate) fn leave(&mut self, store: &FlatStore, cpu: u32) -> Result<(), NoMemory>
        ensures ok { OnOk result ((p : Plan) (s : Store) → Shows p store.now s → self.new ≡ leave_at s self.old cpu) }
        ensures err { OnErr result (self.new ≡ self.old) }
    {
        let process = self.process_of(cpu);
        queue(&mut self.ready, store, process)?;
        if let Some(seat) = self.seats.get_mut(cpu as usize) {
            seat.leave();
        }
        Ok(())
    }

    /// The next command of a processor's process was answered.
    pub(crate) fn answer(
        &mut self,
        script: &Script,
        store: &FlatStore,
        process: u32,
        cpu: u32,
        reply: &Reply,
    ) -> Result<(), NoMemory>
        requires { HaveRoom self.old.seats }
        ensures ok { OnOk result ((s : Store) → Shows script.now store.now s
            → self.new ≡ answer_at script.now s self.old cpu process (next_command script.now s process) reply.now) }
        ensures err { OnErr result (self.new ≡ self.old) }
    {
        let (tried, count) = outcome(script, store, process, reply);
        release_others(&mut self.ready, count)?;
        if let Some(seat) = self.seats.get_mut(cpu as usize) {
            seat.answer(tried);
        }
        Ok(())
    }

    /// A processor holds the descriptor of a number, as the newest.
    pub(crate) fn fill_seg(&mut self, cpu: u32, number: u32)
        ensures { self.new ≡ put_seat self.old cpu
            (record (seat_at self.old.seats cpu) { segs = filled (seat_at self.old.seats cpu).segs number }) }
    {
        if let Some(seat) = self.seats.get_mut(cpu as usize) {
            seat.fill_seg(number);
        }
    }

    /// A processor holds the page table word of a frame, as the newest.
    pub(crate) fn fill_page(&mut self, cpu: u32, frame: u32)
        ensures { self.new ≡ put_seat self.old cpu
            (record (seat_at self.old.seats cpu) { pages = filled (seat_at self.old.seats cpu).pages frame }) }
    {
        if let Some(seat) = self.seats.get_mut(cpu as usize) {
            seat.fill_page(frame);
        }
    }

    /// A processor drops what is named.
    fn drop_named(&mut self, cpu: u32, what: What)
        ensures { self.new ≡ drop_at self.old cpu what }
    {
        if let Some(seat) = self.seats.get_mut(cpu as usize) {
            seat.drop_named(&self.frames, &self.descriptors, what);
        }
    }

    /// A processor drops what it was told to drop.
    pub(crate) fn clear(&mut self, cpu: u32, what: What)
        ensures { self.new ≡ clear_at self.old cpu what }
    {
        if let Some(seat) = self.seats.get_mut(cpu as usize) {
            seat.drop_named(&self.frames, &self.descriptors, what);
            seat.settle();
        }
    }

    /// A processor drops what is named, and tells every other one that takes part to drop it.
    pub(crate) fn signal(&mut self, cpu: u32, what: What)
        ensures { self.new ≡ drop_at (warn_others self.old cpu what) cpu what }
    {
        warn_others(&mut self.seats, cpu, what);
        self.drop_named(cpu, what);
    }
}
