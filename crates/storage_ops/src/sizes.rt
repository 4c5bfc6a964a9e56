//! The length of a segment is changed, and its words are cut off.

ghost use Rattle.std.specs.Prelude.{◌≡◌, ◌≤◌, ◌<◌, ℕ, IsSome, is_some, true, false, None};
ghost use Rattle.vtoc.specs.Vtoc.{entry_at, record_at};
ghost use Rattle.script.specs.Plans.{Plan};
ghost use Rattle.flat_model.specs.Pages.{is_stored_from};
ghost use Rattle.flat_model.specs.Sizes.{after_length, length_reply, truncate_reply};
ghost use Rattle.flat_model.specs.Store.{Store as Flat};
ghost use Rattle.flat_model.specs.Commands.{takes_effect};
ghost use Rattle.storage_ops.specs.Cut.{HasLengthSet};
ghost use Rattle.storage_ops.specs.Shown.{IsInactiveAt, Shows, answered, is_filed, is_there, refusal};

use crate::replies::refusal;
use crate::store::{Store, volumes_at_rest};
use book::Reply;
use mnames::Path;
use tree_commands::{pages_of, segment_at, truncate_reply};
use volumes::Drive;
use vtoc::Vtoc;

/// Whether a file map names a record for a page from one number on, below another.
fn names_from(vtoc: &Vtoc, entry: u32, from: u32, to: u32) -> bool
    requires used { IsSome (entry_at vtoc.now entry) }
    requires most { to ≤ 256 }
    ensures some { result ≡ true → (q : ℕ) × (from ≤ q) × (is_some (record_at vtoc.now entry q) ≡ true) }
    ensures none { result ≡ false → (q : ℕ) → from ≤ q → q < to → is_some (record_at vtoc.now entry q) ≡ false }
{
    for page in from..to {
        if vtoc.file_map(entry, page).is_some() {
            return true;
        }
    }
    false
}

impl<D: Drive> Store<D> {
    /// Whether a page of a node is stored whose number is this one or above. It looks at the pages of that node alone.
    pub(crate) fn stores_from(&self, uid: u32, from: u32) -> bool
        requires still { self.now.segs.moving ≡ None }
        requires there { is_there self.now.accounts.nodes uid ≡ true }
        ensures answer { (p : Plan) (s : Flat) → Shows D.pages p s self.now
            → result ≡ is_stored_from s.stored uid from }
        ensures none { result ≡ false → (q : ℕ) → is_filed self.now.accounts self.now.segs.pages.volumes.vtocs uid q
            ≡ true → q < from }
    {
        let home = self.home(uid);
        let length = pages_of(&self.accounts, uid);
        names_from(
            volumes_at_rest(&self.segs).vtoc(home.volume),
            home.entry,
            from,
            length,
        )
    }

    /// What refuses the truncation of a segment: what the path leads to. (Source: Bensoussan, Clingen and Daley 1972.)
    pub fn truncate_refusal(&self, path: &Path) -> Option<Reply>
        ensures { (p : Plan) (s : Flat) → Shows D.pages p s self.now → result ≡ refusal (truncate_reply s path.now) }
    {
        refusal(truncate_reply(&self.accounts, path))
    }

    /// What refuses the change of a segment's length: what the path leads to; else `Beyond` exactly where a page is
    /// stored whose number is the new length or above. (Source: Bensoussan, Clingen and Daley 1972.)
    pub fn length_refusal(&self, path: &Path, pages: u32) -> Option<Reply>
        requires still { self.now.segs.moving ≡ None }
        ensures { (p : Plan) (s : Flat) → Shows D.pages p s self.now
            → result ≡ refusal (length_reply s path.now pages) }
    {
        match segment_at(&self.accounts, path) {
            Ok(node) => {
                if self.stores_from(node.uid, pages) {
                    Some(Reply::Beyond)
                } else {
                    None
                }
            }
            Err(reply) => refusal(reply),
        }
    }

    /// Sets the length of a segment, in pages, and gives `Done`, or what refuses it. The segment must not be active.
    /// (Source: Bensoussan, Clingen and Daley 1972.)
    pub fn set_length(&mut self, path: &Path, pages: u32) -> Reply
        requires still { self.old.segs.moving ≡ None }
        requires inactive { IsInactiveAt self.old.accounts self.old.segs path.now }
        requires most { pages ≤ 256 }
        ensures answer { (p : Plan) (s : Flat) → Shows D.pages p s self.old
            → result ≡ length_reply s path.now pages }
        ensures effect { (p : Plan) (s : Flat) → Shows D.pages p s self.old
            → Shows D.pages p (answered result s (after_length s path.now pages)) self.new }
        ensures done { takes_effect result ≡ true
            → HasLengthSet self.old.accounts self.new.accounts path.now pages }
        ensures refused { takes_effect result ≡ false → self.new ≡ self.old }
        ensures rest { self.new ≡ record self.old { accounts = self.new.accounts } }
    {
        let uid = match segment_at(&self.accounts, path) {
            Ok(node) => node.uid,
            Err(reply) => return reply,
        };
        if self.stores_from(uid, pages) {
            return Reply::Beyond;
        }
        self.accounts.set_length(uid, pages);
        Reply::Done
    }
}
