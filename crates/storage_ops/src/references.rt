//! What refuses a reference to a word of a segment.

ghost use Rattle.std.specs.Prelude.{◌≡◌, ◌<◌, ◌*◌, ℕ, List, IfOk, IfErr, IfSome, length, true, Some, None};
ghost use Rattle.tree_model.specs.Tree.{quota_in};
ghost use Rattle.tree_model.specs.Trees.{has_segment};
ghost use Rattle.dir_tree.specs.Nodes.{as_term};
ghost use Rattle.accounts.specs.Maps.{Counts};
ghost use Rattle.script.specs.Plans.{Plan};
ghost use Rattle.flat_model.specs.References.{reply_to_reference};
ghost use Rattle.flat_model.specs.Store.{Store as Flat};
ghost use Rattle.storage_ops.specs.References.{brings_word, is_out_of_room, outside_by, outside_refusal, refusal_by};
ghost use Rattle.storage_ops.specs.References.{refusal_in, room_by, room_in, room_refusal, target, want_of_room};
ghost use Rattle.storage_ops.specs.Shown.{IsFound, IsThere, Shows, is_filed, is_there, refusal};

use crate::store::{Store, look, volumes_at_rest};
use book::Reply;
use descriptor_seg::Sdw;
use dir_tree::Node;
use mnames::{Mode, Who};
use mword::{Page, Word};
use script::{RefKind, Reference};
use volumes::Drive;

/// Whether a reference brings a word other than 0 into a page of zeros.
fn brings_word(kind: &RefKind) -> bool
    ensures { result ≡ brings_word kind.now }
{
    kind.alters() && kind.new_word(Word::ZERO) != Word::ZERO
}

/// How many segment numbers a process has.
const NUMBERS: u32 = 256;

/// Why a mode of access to a segment of so many pages refuses a reference.
fn refusal_by(mode: Mode, pages: u32, reference: &Reference) -> Option<Reply>
    ensures { result ≡ refusal_by mode pages reference.now }
{
    if !reference.kind.permitted_by(mode) {
        Some(Reply::NoAccess)
    } else if reference.offset / Page::WORDS >= pages {
        Some(Reply::Length)
    } else {
        None
    }
}

/// Why the access control list of a segment, or its length, refuses a reference.
fn refusal_in(node: &Node, who: &Who, reference: &Reference) -> Option<Reply>
    ensures { (quota : ℕ → ℕ) → result ≡ refusal_in who.now reference.now (as_term quota node.now) }
{
    refusal_by(node.acl.access_of(who), node.length, reference)
}

impl<D: Drive> Store<D> {
    /// The segment that a reference of a process goes to.
    ///
    /// # Errors
    /// What refuses the reference before its page is looked at.
    fn target(&self, process: u32, reference: &Reference) -> Result<&Node, Reply>
        requires { process < length self.now.segs.links.known }
        ensures ok { IfOk result (λ n. IsFound self.now.accounts.nodes (target self.now process reference.now) n.now) }
        ensures there { IfOk result (λ n. IsThere self.now.accounts.nodes n.now) }
        ensures within { IfOk result (λ n. reference.now.offset < 1024 * n.now.length) }
        ensures err { IfErr result (λ e. target self.now process reference.now ≡ Err e) }
    {
        let Some(uid) = self.segs.kst(process).uid_of(reference.number) else {
            return Err(Reply::Unknown);
        };
        let Some(node) = self.accounts.node(uid) else {
            return Err(Reply::Gone);
        };
        match refusal_in(node, &self.whos[process as usize], reference) {
            Some(reply) => Err(reply),
            None => Ok(node),
        }
    }

    /// Whether a page of a node is stored. It looks at one place of the file map.
    fn is_stored(&self, uid: u32, page: u32) -> bool
        requires still { self.now.segs.moving ≡ None }
        requires there { is_there self.now.accounts.nodes uid ≡ true }
        requires page { page < 256 }
        ensures { result ≡ is_filed self.now.accounts self.now.segs.pages.volumes.vtocs uid page }
    {
        let home = self.home(uid);
        let vtoc = volumes_at_rest(&self.segs).vtoc(home.volume);
        vtoc.file_map(home.entry, page).is_some()
    }

    /// Whether all records of a segment's volume are in use, and no other volume has room for the segment.
    fn is_out_of_room(&self, node: &Node) -> bool
        requires still { self.now.segs.moving ≡ None }
        requires there { IsThere self.now.accounts.nodes node.now }
        requires segment { has_segment self.now.accounts.nodes node.now.uid ≡ true }
        ensures { result ≡ is_out_of_room self.now (as_term (quota_in self.now.accounts.nodes) node.now) }
    {
        let home = self.home(node.uid);
        self.is_full(home.volume) && self.room_for(node.uid).is_none()
    }

    /// Why a page more of a segment can't be stored: want of quota comes before want of a record, which is only told
    /// where no other volume has room for the segment.
    fn want_of_room(&self, node: &Node) -> Option<Reply>
        requires still { self.now.segs.moving ≡ None }
        requires there { IsThere self.now.accounts.nodes node.now }
        requires segment { has_segment self.now.accounts.nodes node.now.uid ≡ true }
        ensures { (stored : List (ℕ × ℕ)) → Counts self.now.accounts stored
            → result ≡ want_of_room self.now stored (as_term (quota_in self.now.accounts.nodes) node.now) }
    {
        if self.accounts.may_charge(node.uid).is_err() {
            Some(Reply::Quota)
        } else if self.is_out_of_room(node) {
            Some(Reply::NoRecord)
        } else {
            None
        }
    }

    /// Why a reference can't store a page more of its segment, where neither access nor the length refuses it.
    fn room_in(&self, node: &Node, reference: &Reference) -> Option<Reply>
        requires still { self.now.segs.moving ≡ None }
        requires there { IsThere self.now.accounts.nodes node.now }
        requires within { reference.now.offset < 1024 * node.now.length }
        ensures { (stored : List (ℕ × ℕ)) → Counts self.now.accounts stored
            → result ≡ room_in self.now stored reference.now (as_term (quota_in self.now.accounts.nodes) node.now) }
    {
        let _accounts = self.accounts();
        let page = reference.offset / Page::WORDS;
        if brings_word(&reference.kind) && !self.is_stored(node.uid, page) {
            self.want_of_room(node)
        } else {
            None
        }
    }

    /// What refuses a reference before its page is looked at, by the access control list of its segment.
    fn refusal_by_list(&self, process: u32, reference: &Reference) -> Option<Reply>
        requires { process < length self.now.segs.links.known }
        ensures { result ≡ outside_by (target self.now process reference.now) }
    {
        match self.target(process, reference) {
            Ok(_) => None,
            Err(reply) => Some(reply),
        }
    }

    /// The mode and the length in the descriptor of a reference's number, if that leads to a segment: they refuse what
    /// the segment's access control list and its length refuse.
    fn right_held(&self, process: u32, reference: &Reference) -> Option<(Mode, u32)>
        requires { process < length self.now.segs.links.known }
        ensures { IfSome result (λ right. refusal_by right.0 right.1 reference.now
            ≡ outside_by (target self.now process reference.now)) }
    {
        if reference.number >= NUMBERS {
            return None;
        }
        match self.segs().descriptors(process).get(reference.number) {
            Sdw::Present { mode, pages, .. } => Some((mode, pages)),
            Sdw::Fault => None,
        }
    }

    /// What refuses a reference before its page is looked at.
    fn refusal_outside(&self, process: u32, reference: &Reference) -> Option<Reply>
        requires { process < length self.now.segs.links.known }
        ensures { result ≡ outside_by (target self.now process reference.now) }
    {
        match self.right_held(process, reference) {
            Some((mode, pages)) => refusal_by(mode, pages, reference),
            None => self.refusal_by_list(process, reference),
        }
    }

    /// What refuses a reference of a process before its page is looked at: `Unknown` where the number stands for
    /// nothing; `Gone` where its segment isn't in the tree any more; `NoAccess` where the segment's access control list
    /// doesn't permit it; `Length` where the offset is at or past 1024 times the length in pages. It reads the
    /// descriptor of the number, and goes through that list alone where it leads nowhere. (Source: Bensoussan, Clingen
    /// and Daley 1972.)
    pub fn outside_refusal(&self, process: u32, reference: &Reference) -> Option<Reply>
        requires { process < length self.now.segs.links.known }
        ensures tables { result ≡ outside_by (target self.now process reference.now) }
        ensures shown { (p : Plan) (s : Flat) → Shows D.pages p s self.now
            → result ≡ outside_refusal p s process reference.now }
    {
        self.refusal_outside(process, reference)
    }

    /// What refuses that a reference of a process stores a page more, where nothing else refuses it: of one that brings
    /// a word other than 0 into a page that isn't stored, `Quota` where the account of the segment has used all of its
    /// quota, else `NoRecord` where all records of its volume are in use and no other volume has room for it. It looks
    /// at one place of the file map, climbs to the account, and may look at each volume once. (Source: Organick 1972.)
    pub fn room_refusal(&self, process: u32, reference: &Reference) -> Option<Reply>
        requires still { self.now.segs.moving ≡ None }
        requires process { process < length self.now.segs.links.known }
        ensures tables { (stored : List (ℕ × ℕ)) → Counts self.now.accounts stored
            → result ≡ room_by self.now stored reference.now (target self.now process reference.now) }
        ensures shown { (p : Plan) (s : Flat) → Shows D.pages p s self.now
            → result ≡ room_refusal p s process reference.now }
    {
        look(&self.segs);
        match self.target(process, reference) {
            Ok(node) => self.room_in(node, reference),
            Err(_) => None,
        }
    }

    /// What refuses a reference of a process.
    pub(crate) fn reference_refusal(&self, process: u32, reference: &Reference) -> Option<Reply>
        requires still { self.now.segs.moving ≡ None }
        requires process { process < length self.now.segs.links.known }
        ensures { (p : Plan) (s : Flat) → Shows D.pages p s self.now
            → result ≡ refusal (reply_to_reference p s process reference.now) }
    {
        look(&self.segs);
        match self.target(process, reference) {
            Ok(node) => self.room_in(node, reference),
            Err(reply) => Some(reply),
        }
    }
}
