//! Segments are made known by numbers.

ghost use Rattle.std.specs.Prelude.{◌≡◌, ◌<◌, length, is_some, None};
ghost use Rattle.seg_control.specs.Control.{leads_at};
ghost use Rattle.known_segs.specs.Known.{number_for};
ghost use Rattle.script.specs.Plans.{Plan};
ghost use Rattle.flat_model.specs.Naming.{after_initiate, after_terminate};
ghost use Rattle.flat_model.specs.Naming.{initiate_reply, known_or_full, terminate_reply};
ghost use Rattle.flat_model.specs.Store.{Store as Flat};
ghost use Rattle.storage_ops.specs.Shown.{Shows, answered, refusal, with_known};

use crate::replies::refusal;
use crate::store::Store;
use book::Reply;
use known_segs::Kst;
use mnames::Path;
use tree_commands::segment_at;
use volumes::Drive;

/// Whether a segment has a number, or could get one.
fn has_number_for(kst: &Kst, uid: u32) -> bool
    requires { length kst.now ≡ 256 }
    ensures { result ≡ is_some (number_for kst.now uid) }
{
    if kst.number_of(uid).is_some() {
        return true;
    }
    kst.has_room()
}

/// `Known` with the number, or `Full` where there is none.
fn known_or_full(number: Option<u32>) -> Reply
    ensures { result ≡ known_or_full number }
{
    match number {
        Some(number) => Reply::Known(number),
        None => Reply::Full,
    }
}

impl<D: Drive> Store<D> {
    /// What refuses that a process knows the segment that a path leads to by a number: what the path leads to; else
    /// `Full` exactly where the process doesn't know it and knows 256 others. It looks through the process's numbers.
    /// (Source: Bensoussan, Clingen and Daley 1972.)
    pub fn initiate_refusal(&self, process: u32, path: &Path) -> Option<Reply>
        requires { process < length self.now.segs.links.known }
        ensures { (p : Plan) (s : Flat) → Shows D.pages p s self.now
            → result ≡ refusal (initiate_reply s process path.now) }
    {
        match segment_at(&self.accounts, path) {
            Ok(node) => {
                if has_number_for(self.segs.kst(process), node.uid) {
                    None
                } else {
                    Some(Reply::Full)
                }
            }
            Err(reply) => refusal(reply),
        }
    }

    /// What refuses that a process gives up a number: `Unknown` exactly where it stands for nothing. (Source:
    /// Bensoussan, Clingen and Daley 1972.)
    pub fn terminate_refusal(&self, process: u32, number: u32) -> Option<Reply>
        requires { process < length self.now.segs.links.known }
        ensures { (p : Plan) (s : Flat) → Shows D.pages p s self.now
            → result ≡ refusal (terminate_reply s process number) }
    {
        match self.segs.kst(process).uid_of(number) {
            Some(_) => None,
            None => Some(Reply::Unknown),
        }
    }

    /// A process knows the segment that a path leads to by a number from now on: by the one that it has, else by the
    /// least that is free. It gives `Known` with the number, or what refuses it. It costs two passes over the process's
    /// numbers. (Source: Bensoussan, Clingen and Daley 1972.)
    pub fn initiate(&mut self, process: u32, path: &Path) -> Reply
        requires { process < length self.old.segs.links.known }
        ensures answer { (p : Plan) (s : Flat) → Shows D.pages p s self.old
            → result ≡ initiate_reply s process path.now }
        ensures effect { (p : Plan) (s : Flat) → Shows D.pages p s self.old
            → Shows D.pages p (answered result s (after_initiate s process path.now)) self.new }
        ensures rest { self.new ≡ with_known self.old self.new.segs.links.known }
    {
        let _next = self.accounts.next_uid();
        let uid = match segment_at(&self.accounts, path) {
            Ok(node) => node.uid,
            Err(reply) => return reply,
        };
        known_or_full(self.segs.make_known(process, uid))
    }

    /// A number of a process stands for nothing from now on. It gives `Done`, or `Unknown` exactly where it stood for
    /// nothing. The number must have been cut. (Source: Bensoussan, Clingen and Daley 1972.)
    pub fn terminate(&mut self, process: u32, number: u32) -> Reply
        requires process { process < length self.old.segs.links.known }
        requires cut { leads_at self.old.segs.links.descriptors process number ≡ None }
        ensures answer { (p : Plan) (s : Flat) → Shows D.pages p s self.old
            → result ≡ terminate_reply s process number }
        ensures effect { (p : Plan) (s : Flat) → Shows D.pages p s self.old
            → Shows D.pages p (answered result s (after_terminate s process number)) self.new }
        ensures rest { self.new ≡ with_known self.old self.new.segs.links.known }
    {
        if self.segs.kst(process).uid_of(number).is_none() {
            return Reply::Unknown;
        }
        self.segs.forget(process, number);
        Reply::Done
    }
}
