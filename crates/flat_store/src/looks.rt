ghost use Rattle.std.specs.Prelude.{◌≡◌, ◌/◌, ◌<◌, is_some, IsSome, None, Some, IfOk, IfErr, IfNone, IfSome};
ghost use Rattle.script.specs.Plans.{Plan};
ghost use Rattle.tree_model.specs.Tree.{entries_on, node_in, taken_on, used_by};
ghost use Rattle.accounts.specs.Maps.{Counts};
ghost use Rattle.flat_model.specs.Branches.{branch_at, node_at, segment_at};
ghost use Rattle.flat_model.specs.Commands.{tries_on};
ghost use Rattle.flat_model.specs.Legal.{MayRelease};
ghost use Rattle.flat_model.specs.Pages.{is_stored, is_zero_page, without_words};
ghost use Rattle.flat_model.specs.Store.{Store, known_uid, progress_of};
ghost use Rattle.std.specs.Bool.{Decides};
ghost use Rattle.flat_store.specs.Zeros.{HasZeroPage};
ghost use Rattle.flat_store.specs.Shown.{Shows, pool_at, superior_at, uid_at};

use crate::gauges::used_at;
use crate::judging::{has_ended, is_faulted, place_of};
use crate::numbers::uid_of;
use crate::progress::Progress;
use crate::store::FlatStore;
use accounts::Accounts;
use book::Reply;
use dir_tree::Node;
use mnames::Path;
use mword::Word;
use script::Command;
use tree_commands::{branch_at, node_at, segment_at};

/// The uid of a node, where it was found.
fn found_uid(found: Result<&Node, Reply>) -> Option<u32>
    ensures some { IfOk found.entry (λ n. result ≡ Some n.now.uid) }
    ensures none { IfErr found.entry (λ _. result ≡ None) }
{
    match found {
        Ok(node) => Some(node.uid),
        Err(_) => None,
    }
}

impl FlatStore {
    /// The word at an offset, in words, of the segment of a uid; 0 where none was written.
    pub fn word(&self, uid: u32, offset: u32) -> Word
        ensures { (p : Plan) (store : Store) → Shows p self.now store → result ≡ store.words uid offset }
    {
        self.holdings.word(uid, offset)
    }

    /// Whether a page of the segment of a uid is stored.
    pub fn is_stored(&self, uid: u32, page: u32) -> bool
        ensures { (p : Plan) (store : Store) → Shows p self.now store → result ≡ is_stored store.stored uid page }
    {
        self.holdings.is_stored(uid, page)
    }

    /// Whether a stored page is all zeros. It looks at each stored page up to the first such one.
    pub fn has_zero_page(&self) -> bool
        ensures { (p : Plan) (store : Store) → Shows p self.now store → Decides result (HasZeroPage store) }
    {
        self.zero_page().is_some()
    }

    /// The first page that is stored though each of its words is 0: the least uid, then the least page. It looks at
    /// each stored page up to that one.
    pub fn zero_page(&self) -> Option<(u32, u32)>
        ensures some { (p : Plan) (store : Store) → Shows p self.now store
            → IfSome result (λ at. MayRelease store at.0 at.1) }
        ensures none { (p : Plan) (store : Store) → Shows p self.now store → IfNone result (HasZeroPage store → ⊥) }
    {
        self.holdings.zero_page()
    }

    /// Whether the page that an offset of the segment of a uid cuts is all zeros once the words from it on are 0.
    pub fn cut_is_zero(&self, uid: u32, words: u32) -> bool
        ensures { (p : Plan) (store : Store) → Shows p self.now store
            → result ≡ is_zero_page (without_words store.words uid words) uid (words / 1024) }
    {
        self.holdings.cut_is_zero(uid, words)
    }

    /// The tree with its accounts.
    pub fn accounts(&self) -> &Accounts
        ensures nodes { (p : Plan) (store : Store) → Shows p self.now store → store.nodes ≡ result.now.nodes }
        ensures counts { (p : Plan) (store : Store) → Shows p self.now store → Counts result.now store.stored }
    {
        &self.holdings.accounts
    }

    /// The uid that the next new directory or segment gets. No node has it.
    pub fn next_uid(&self) -> u32
        ensures uid { (p : Plan) (store : Store) → Shows p self.now store → result ≡ store.next }
        ensures fresh { (p : Plan) (store : Store) → Shows p self.now store
            → node_in store.nodes store.next ≡ None }
    {
        self.holdings.accounts.next_uid()
    }

    /// How many stored pages the account of this uid is charged for; 0 where it is no account.
    pub fn used(&self, account: u32) -> u32
        ensures { (p : Plan) (store : Store) → Shows p self.now store
            → result ≡ used_by store.nodes store.stored account }
    {
        self.holdings.accounts.used(account)
    }

    /// How many records of a volume are taken, one for each stored page.
    pub fn taken(&self, volume: u32) -> u32
        ensures { (p : Plan) (store : Store) → Shows p self.now store
            → result ≡ taken_on store.nodes store.stored volume }
    {
        used_at(&self.holdings.records, volume)
    }

    /// How many VTOC entries of a volume are taken, one for each node on it.
    pub fn entries(&self, volume: u32) -> u32
        ensures { (p : Plan) (store : Store) → Shows p self.now store → result ≡ entries_on store.nodes volume }
    {
        used_at(&self.holdings.entries, volume)
    }

    /// Whether a uid is that of a directory or a segment of the tree.
    pub fn has_node(&self, uid: u32) -> bool
        ensures { (p : Plan) (store : Store) → Shows p self.now store → result ≡ is_some (node_in store.nodes uid) }
    {
        self.holdings.accounts.node(uid).is_some()
    }

    /// The uid of the directory that a node lies in. `None` for the root, and where there is no node.
    pub fn superior(&self, uid: u32) -> Option<u32>
        ensures { (p : Plan) (store : Store) → Shows p self.now store
            → result ≡ superior_at (node_in store.nodes uid) }
    {
        match self.holdings.accounts.node(uid) {
            Some(node) => node.superior,
            None => None,
        }
    }

    /// The pool, 0 to 3, that the page table of a node belongs to: of 4, 16, 64 or 256 pages. `None` where there is no
    /// node.
    pub fn pool(&self, uid: u32) -> Option<u32>
        ensures { (p : Plan) (store : Store) → Shows p self.now store → result ≡ pool_at (node_in store.nodes uid) }
    {
        match self.holdings.accounts.node(uid) {
            Some(node) if node.dir || node.length <= 4 => Some(0),
            Some(node) if node.length <= 16 => Some(1),
            Some(node) if node.length <= 64 => Some(2),
            Some(_) => Some(3),
            None => None,
        }
    }

    /// The uid of the segment that a path leads to. `None` where it leads to none.
    pub fn segment_at(&self, path: &Path) -> Option<u32>
        ensures { (p : Plan) (store : Store) → Shows p self.now store
            → result ≡ uid_at (segment_at store.nodes path.now) }
    {
        found_uid(segment_at(self.holdings.tree(), path))
    }

    /// The uid of the directory or the segment that a path leads to, but the root. `None` where it leads to none.
    pub fn branch_at(&self, path: &Path) -> Option<u32>
        ensures { (p : Plan) (store : Store) → Shows p self.now store
            → result ≡ uid_at (branch_at store.nodes path.now) }
    {
        found_uid(branch_at(self.holdings.tree(), path))
    }

    /// The uid of the directory or the segment that a path leads to. `None` where it leads to none.
    pub fn node_at(&self, path: &Path) -> Option<u32>
        ensures { (p : Plan) (store : Store) → Shows p self.now store → result ≡ uid_at (node_at store.nodes path.now) }
    {
        found_uid(node_at(self.holdings.tree(), path))
    }

    /// The uid of the segment that a number of a process stands for. `None` where it stands for none, as from 256 on.
    pub fn known(&self, process: u32, number: u32) -> Option<u32>
        ensures known { (p : Plan) (store : Store) → Shows p self.now store → result ≡ known_uid store process number }
        ensures within { IsSome result → number < 256 }
    {
        uid_of(&self.known, process, number)
    }

    /// Whether a process has ended; one that isn't there has.
    pub fn has_ended(&self, process: u32) -> bool
        ensures { (p : Plan) (store : Store) → Shows p self.now store → result ≡ (progress_of store process).ended }
    {
        has_ended(&self.processes, process)
    }

    /// Whether a drive's failure was told of a process since its last answer.
    pub fn is_faulted(&self, process: u32) -> bool
        ensures { (p : Plan) (store : Store) → Shows p self.now store
            → result ≡ (progress_of store process).faulted }
    {
        is_faulted(&self.processes, process)
    }

    /// The place of the next command of a process, counted from 0; 0 where the process isn't there.
    pub fn place(&self, process: u32) -> u32
        ensures { (p : Plan) (store : Store) → Shows p self.now store → result ≡ (progress_of store process).place }
    {
        place_of(&self.processes, process)
    }

    /// Whether an answer to the next command of a process is a try of an `await` that doesn't end it.
    pub fn goes_on(&self, process: u32, command: &Command, reply: &Reply) -> bool
        ensures { (p : Plan) (store : Store) → Shows p self.now store
            → result ≡ tries_on (progress_of store process) command.now reply.now }
    {
        match self.processes.get(process as usize) {
            Some(progress) => progress.tries_on(command, reply),
            None => Progress::absent().tries_on(command, reply),
        }
    }
}
