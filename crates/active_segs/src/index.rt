//! The index of the active segments: their uids, each with its place, in lists by the remainder of the uid. Each list
//! is in ascending order.

ghost use Rattle.std.specs.Prelude.{◌≡◌, ◌+◌, ◌<◌, [], None, Some, IsSome, IfOk, IfErr, length, replicate};
ghost use Rattle.active_segs.specs.Pairs.{place_of, IsAscending, IsFoundAt, BelongsAt, SetsPlace, empty_list};

use crate::NoMemory;
use std::alloc::Global;
use std::marker::Model;

/// How many lists the index has.
const LISTS: u32 = 256;

/// The places of the active segments whose uids leave one remainder. It has room for a fixed number of them.
#[derive(Drop)]
struct Sorted {
    pairs: Vec<(u32, u32)>,
    room: usize,
}

impl Model for Sorted {
    ghost use Rattle.std.specs.Prelude.{◌≤◌, vec_len, vec_capacity};
    ghost use Rattle.active_segs.specs.Pairs.{Pairs, IsAscending};

    ghost Value = { Pairs };

    ghost view = { λ i. record { pairs = i.pairs.items; room = i.room } };

    ghost invariant = { λ i. IsAscending i.pairs.items × (vec_len i.pairs ≤ i.room) × (i.room ≤ vec_capacity i.pairs) };
}

impl Sorted {
    /// An empty list with room for `room` segments.
    fn new(alloc: Global, room: usize) -> Result<Sorted, NoMemory>
        ensures empty { IfOk result (λ list. list.pairs ≡ []) }
        ensures room { IfOk result (λ list. list.room ≡ room) }
    {
        let pairs = Vec::with_capacity(alloc, room)?;
        Ok(Sorted { pairs, room })
    }

    /// The place of `uid`, found by halving the list.
    fn find(&self, uid: u32) -> Option<u32>
        ensures { result ≡ place_of self.now.pairs uid }
    {
        match search(&self.pairs, uid) {
            Ok(at) => Some(self.pairs[at].1),
            Err(_) => None,
        }
    }

    /// Notes the place of `uid`. The pairs after it move up.
    fn insert(&mut self, uid: u32, place: u32)
        requires room { length self.old.pairs < self.old.room }
        requires absent { place_of self.old.pairs uid ≡ None }
        ensures sets { SetsPlace self.old.pairs self.new.pairs uid (Some place) }
        ensures count { length self.new.pairs ≡ length self.old.pairs + 1 }
        ensures room { self.new.room ≡ self.old.room }
    {
        match search(&self.pairs, uid) {
            Ok(_) => unreachable!(),
            Err(at) => match self.pairs.insert(at, (uid, place)) {
                Ok(()) => {}
                Err(_) => unreachable!(),
            },
        }
    }

    /// Forgets the place of `uid`. The pairs after it move down.
    fn remove(&mut self, uid: u32)
        requires there { IsSome (place_of self.old.pairs uid) }
        ensures sets { SetsPlace self.old.pairs self.new.pairs uid None }
        ensures count { length self.new.pairs + 1 ≡ length self.old.pairs }
        ensures room { self.new.room ≡ self.old.room }
    {
        match search(&self.pairs, uid) {
            Ok(at) => {
                self.pairs.remove(at);
            }
            Err(_) => unreachable!(),
        }
    }
}

/// The places of the active segments by uid. It has room for a fixed number of them, whatever their uids are.
#[derive(Drop)]
pub(crate) struct Index {
    lists: Vec<Sorted>,
    room: usize,
}

impl Model for Index {
    ghost use Rattle.active_segs.specs.Pairs.{Pairs, IsSplit, pairs_in};

    ghost Value = { Pairs };

    ghost view = { λ i. record { pairs = pairs_in i.lists.items; room = i.room } };

    ghost invariant = { λ i. IsSplit i.lists.items i.room };
}

/// As many lists as the index has, each empty and with room for `room` segments.
fn empty_lists(alloc: Global, room: usize) -> Result<Vec<Sorted>, NoMemory>
    ensures { IfOk result (λ lists. lists.items ≡ replicate 256 (empty_list room)) }
{
    let mut lists = Vec::with_capacity(alloc, LISTS as usize)?;
    for _list in 0..LISTS {
        lists.push_reserved(Sorted::new(alloc, room)?);
    }
    Ok(lists)
}

impl Index {
    /// An empty index with room for `room` segments.
    pub(crate) fn new(alloc: Global, room: usize) -> Result<Index, NoMemory>
        ensures empty { IfOk result (λ index. index.pairs ≡ []) }
        ensures room { IfOk result (λ index. index.room ≡ room) }
    {
        let lists = empty_lists(alloc, room)?;
        Ok(Index { lists, room })
    }

    /// The place of `uid`, found by halving its list.
    pub(crate) fn find(&self, uid: u32) -> Option<u32>
        ensures { result ≡ place_of self.now.pairs uid }
    {
        self.lists[(uid % LISTS) as usize].find(uid)
    }

    /// Notes the place of `uid`. The pairs after it in its list move up.
    pub(crate) fn insert(&mut self, uid: u32, place: u32)
        requires room { length self.old.pairs < self.old.room }
        requires absent { place_of self.old.pairs uid ≡ None }
        ensures sets { SetsPlace self.old.pairs self.new.pairs uid (Some place) }
        ensures count { length self.new.pairs ≡ length self.old.pairs + 1 }
        ensures room { self.new.room ≡ self.old.room }
    {
        self.lists[(uid % LISTS) as usize].insert(uid, place);
    }

    /// Forgets the place of `uid`. The pairs after it in its list move down.
    pub(crate) fn remove(&mut self, uid: u32)
        requires there { IsSome (place_of self.old.pairs uid) }
        ensures sets { SetsPlace self.old.pairs self.new.pairs uid None }
        ensures count { length self.new.pairs + 1 ≡ length self.old.pairs }
        ensures room { self.new.room ≡ self.old.room }
    {
        self.lists[(uid % LISTS) as usize].remove(uid);
    }
}

/// Where `uid` stands, or where it would.
fn search(pairs: &[(u32, u32)], uid: u32) -> Result<usize, usize>
    requires { IsAscending pairs.now }
    ensures found { IfOk result (IsFoundAt pairs.now uid) }
    ensures absent { IfErr result (BelongsAt pairs.now uid) }
{
    pairs.binary_search_by_key(&uid, |&(key, _)| key)
}
