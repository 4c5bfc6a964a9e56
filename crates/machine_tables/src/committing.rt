//! Tree commands take effect in the store, exactly as in the machine's model.

ghost use Rattle.std.specs.Prelude.{◌≡◌, ◌<◌, ◌≤◌, ℕ, List, None, length, map};
ghost use Rattle.accounts.specs.Maps.{HasColumns};
ghost use Rattle.tree_model.specs.Trees.{AreBelow, IsTree};
ghost use Rattle.script.specs.declared.commands.Command.TheVariants.{Acl, Delete, Initiate, Length, MkDir, MkSeg};
ghost use Rattle.script.specs.declared.commands.Command.TheVariants.{Move, Status, Terminate, Truncate};
ghost use Rattle.script.specs.Plans.{Plan};
ghost use Rattle.flat_model.specs.Branches.{segment_at};
ghost use Rattle.flat_model.specs.Store.{Store as Flat};
ghost use Rattle.active_segs.specs.Active.{IsActive};
ghost use Rattle.volumes.specs.Volumes.{HasParts};
ghost use Rattle.page_control.specs.Plain.{plain};
ghost use Rattle.seg_control.specs.Control.{leads_at, word_of};
ghost use Rattle.seg_control.specs.Kept.{IsKept};
ghost use Rattle.storage_ops.specs.Cut.{IsRemovableAt, IsTakenPastAt, leaves};
ghost use Rattle.storage_ops.specs.Shown.{IsCutAt, IsInactiveAt, IsStore, Shows};
ghost use Rattle.machine_model.specs.Ready.{OwnsFor};
ghost use Rattle.machine_tables.specs.Committed.{IsCommitted, TakesEffect};
ghost use Rattle.machine_tables.specs.Parts.{shown};
ghost use Rattle.machine_tables.specs.Truncated.{IsCommittedBut, here_again, uid_found};

use accounts::Accounts;
use active_segs::Ast;
use book::Reply;
use mnames::{Mode, Path, Row};
use page_table::Ptw;
use storage_ops::Store;
use volumes::Drive;

/// The words of a page.
const PAGE: u32 = 1024;

/// The accounts of a store, with what is true of them between calls.
pub(crate) fn accounts_of<D: Drive>(store: &Store<D>) -> &Accounts
    ensures accounts { result.now ≡ store.now.accounts }
    ensures columns { HasColumns store.now.accounts }
    ensures tree { IsTree store.now.accounts.nodes }
    ensures below { AreBelow store.now.accounts.next store.now.accounts.nodes }
{
    let accounts = store.accounts();
    accounts.promise();
    accounts
}

/// What is true of a store between calls is told here.
pub(crate) fn look<D: Drive>(store: &Store<D>)
    ensures columns { HasColumns store.now.accounts }
    ensures tree { IsTree store.now.accounts.nodes }
    ensures below { AreBelow store.now.accounts.next store.now.accounts.nodes }
    ensures store { IsStore (plain D.pages store.now.segs.pages) store.now.segs.ast store.now.segs.links
        store.now.accounts store.now.whos }
    ensures kept { IsKept (plain D.pages store.now.segs.pages) store.now.segs.ast store.now.segs.links }
    ensures parts { HasParts (map D.pages store.now.segs.pages.volumes.drives) store.now.segs.pages.volumes.records
        store.now.segs.pages.volumes.vtocs }
{
    let _accounts = accounts_of(store);
    store.segs().pages();
}

/// Makes a directory, unless that is refused.
pub(crate) fn make_dir<D: Drive>(store: &mut Store<D>, path: &Path, volume: u32) -> Reply
    requires still { store.old.segs.moving ≡ None }
    requires volume { volume < length store.old.segs.pages.volumes.drives }
    requires uids { store.old.accounts.next < 100003 }
    ensures { (k : ℕ) → TakesEffect D.pages store.old store.new k (MkDir path.now volume) result }
{
    look(store);
    let reply = store.make_dir(path, volume);
    look(store);
    reply
}

/// Makes a segment, unless that is refused.
pub(crate) fn make_seg<D: Drive>(
    store: &mut Store<D>,
    process: u32,
    path: &Path,
    pages: u32,
    volume: u32,
) -> Reply
    requires still { store.old.segs.moving ≡ None }
    requires process { process < length store.old.whos }
    requires volume { volume < length store.old.segs.pages.volumes.drives }
    requires uids { store.old.accounts.next < 100003 }
    requires most { pages ≤ 256 }
    ensures { TakesEffect D.pages store.old store.new process (MkSeg path.now pages volume) result }
{
    look(store);
    let reply = store.make_seg(process, path, pages, volume);
    look(store);
    reply
}

/// Sets a row of a segment's access control list, unless that is refused.
pub(crate) fn set_row<D: Drive>(store: &mut Store<D>, path: &Path, row: &Row, mode: Mode) -> Reply
    requires { IsCutAt store.old.accounts store.old.segs path.now }
    ensures { (k : ℕ) → TakesEffect D.pages store.old store.new k (Acl path.now row.now mode) result }
{
    look(store);
    let reply = store.set_acl(path, row, mode);
    look(store);
    reply
}

/// Moves an amount of quota, unless that is refused.
pub(crate) fn move_quota<D: Drive>(store: &mut Store<D>, path: &Path, amount: &i32) -> Reply
    ensures { (k : ℕ) → TakesEffect D.pages store.old store.new k (Move path.now amount.now) result }
{
    let amount = *amount;
    look(store);
    let reply = store.move_quota(path, amount);
    look(store);
    reply
}

/// Sets the length of a segment, unless that is refused.
pub(crate) fn set_length<D: Drive>(store: &mut Store<D>, path: &Path, pages: u32) -> Reply
    requires still { store.old.segs.moving ≡ None }
    requires inactive { IsInactiveAt store.old.accounts store.old.segs path.now }
    requires most { pages ≤ 256 }
    ensures { (k : ℕ) → TakesEffect D.pages store.old store.new k (Length path.now pages) result }
{
    look(store);
    let reply = store.set_length(path, pages);
    look(store);
    reply
}

/// A process knows a segment by a number, unless that is refused.
pub(crate) fn initiate<D: Drive>(store: &mut Store<D>, process: u32, path: &Path) -> Reply
    requires { process < length store.old.segs.links.known }
    ensures { TakesEffect D.pages store.old store.new process (Initiate path.now) result }
{
    look(store);
    store.initiate(process, path)
}

/// A number of a process stands for nothing, unless that is refused.
pub(crate) fn terminate<D: Drive>(store: &mut Store<D>, process: u32, number: u32) -> Reply
    requires process { process < length store.old.segs.links.known }
    requires cut { leads_at store.old.segs.links.descriptors process number ≡ None }
    ensures { TakesEffect D.pages store.old store.new process (Terminate number) result }
{
    look(store);
    store.terminate(process, number)
}

/// Tells of a directory or a segment.
pub(crate) fn status<D: Drive>(store: &mut Store<D>, path: &Path) -> Reply
    ensures { (k : ℕ) → TakesEffect D.pages store.old store.new k (Status path.now) result }
{
    store.status(path)
}

/// Deletes a directory or a segment, unless that is refused.
pub(crate) fn delete<D: Drive>(store: &mut Store<D>, path: &Path) -> Reply
    requires still { store.old.segs.moving ≡ None }
    requires removable { IsRemovableAt store.old.accounts store.old.segs path.now }
    ensures { (k : ℕ) (frames : List ℕ) → OwnsFor (shown D.pages store.old) frames (Delete path.now)
        → IsCommitted D.pages store.old store.new k frames (Delete path.now) result }
{
    look(store);
    let reply = store.delete(path);
    look(store);
    reply
}

/// The segment that a path leads to, if it leads to one.
fn segment_of(accounts: &Accounts, path: &Path) -> Option<u32>
    ensures { result ≡ uid_found (segment_at accounts.now.nodes path.now) }
{
    let uid = match accounts.walk(path) {
        Ok(uid) => uid,
        Err(_) => return None,
    };
    match accounts.node(uid) {
        Some(node) if !node.dir => Some(uid),
        _ => None,
    }
}

/// The frame that a page of an active segment is on its way out of, if it is.
fn leaves(ast: &Ast, uid: u32, page: u32) -> Option<u32>
    requires { IsActive ast.now.entries uid }
    ensures { result ≡ leaves (word_of ast.now uid page) }
{
    let Some(place) = ast.search(uid) else {
        unreachable!();
    };
    let table = ast.table(place);
    if page >= table.size() {
        return None;
    }
    match table.get(page) {
        Ptw::Leaving(frame) => Some(frame),
        _ => None,
    }
}

/// References go again through the word of a page of an active segment, if it is on its way out: the frame that it is
/// in.
fn bring_back<D: Drive>(store: &mut Store<D>, uid: u32, page: u32) -> Option<u32>
    requires still { store.old.segs.moving ≡ None }
    requires active { IsActive store.old.segs.ast.entries uid }
    ensures frame { result ≡ leaves (word_of store.old.segs.ast uid page) }
    ensures effect { store.new ≡ record store.old {
      segs = record store.old.segs {
        ast = here_again store.old.segs.ast uid page (word_of store.old.segs.ast uid page);
      };
    } }
    ensures shown { (p : Plan) (s : Flat) → Shows D.pages p s store.old → Shows D.pages p s store.new }
{
    look(store);
    let frame = leaves(store.segs().ast(), uid, page)?;
    store.back(uid, frame);
    Some(frame)
}

/// Makes the words of a segment from an offset on 0, unless that is refused. The page that is cut comes back, unless it
/// is all zeros then: the frame that it is in.
pub(crate) fn truncate<D: Drive>(
    store: &mut Store<D>,
    path: &Path,
    words: u32,
) -> (Reply, Option<u32>)
    requires still { store.old.segs.moving ≡ None }
    requires taken { IsTakenPastAt store.old.accounts store.old.segs path.now words }
    ensures { (k : ℕ) (frames : List ℕ) → OwnsFor (shown D.pages store.old) frames (Truncate path.now words)
        → IsCommittedBut D.pages store.old store.new k frames (Truncate path.now words) result.0 result.1 }
{
    look(store);
    let Some(uid) = segment_of(store.accounts(), path) else {
        return (store.truncate(path, words), None);
    };
    let reply = store.truncate(path, words);
    look(store);
    let kept = bring_back(store, uid, words / PAGE);
    (reply, kept)
}
