//! The index of the branches by superior and name: a list of the branches' places, in the order of a hash of these, and
//! then of these. It stands on 64 shelves, by the first bits of the hash.

ghost use Rattle.std.specs.Prelude.{◌≡◌, ◌≢◌, ℕ, ◌<◌, ◌≤◌, ◌+◌, ◌↔◌, ◌⊎◌, Some, true, false, [], length, IfOk, IfSome};
ghost use Rattle.std.specs.Prelude.{IfNone, slice_index};
ghost use Rattle.std.specs.Cmp.Lexicographic.{slice_cmp};
ghost use Rattle.std.specs.List.{insert, remove};
ghost use Rattle.std.specs.Option.{option_cmp};
ghost use Rattle.std.specs.Ordering.{nat_cmp, ordering_then};
ghost use Rattle.std.specs.declared.cmp.Ordering.TheVariants.{Less};
ghost use Rattle.tree_model.specs.Tree.{is_branch};
ghost use Rattle.dir_tree.specs.Shape.{shape};
ghost use Rattle.dir_tree.specs.Index.{node_at, key_of, key_cmp, key_hash, key_at, HasPlace, IsOrdered, AreWithin};
ghost use Rattle.dir_tree.specs.Index.{hash_at, shelf_at, shelf_of, AreRising, mixed, words_mixed, last_word};

use crate::node::Node;
use crate::{NODES, NoMemory};
use mnames::Name;
use std::alloc::Global;
use std::cmp::Ordering;
use std::marker::Model;

/// How many shelves there are: one for each number of the first six bits of a hash.
const SHELVES: usize = 64;

/// The shelf of the branches of a hash.
fn shelf_of(hash: u32) -> usize
    ensures shelf { result ≡ shelf_of hash }
    ensures within { result < 64 }
{
    (hash >> 26) as usize
}

/// The places of the branches whose hashes begin alike, with room for all branches.
#[derive(Drop)]
struct Shelf {
    places: Vec<u16>,
}

impl Model for Shelf {
    ghost use Rattle.std.specs.Prelude.{◌≤◌, List, ℕ, vec_capacity};

    ghost Value = { List ℕ };

    ghost view = { λ s. s.places.items };

    ghost invariant = { λ s. 4096 ≤ vec_capacity s.places };
}

impl Shelf {
    /// An empty shelf.
    fn new(alloc: Global) -> Result<Shelf, NoMemory>
        ensures { IfOk result (λ shelf. shelf ≡ []) }
    {
        let places = Vec::with_capacity(alloc, NODES - 1)?;
        Ok(Shelf { places })
    }

    /// What stands on it.
    fn places(&self) -> &[u16]
        ensures { result.now ≡ self.now }
    {
        &self.places
    }

    /// Puts a place between others.
    fn insert(&mut self, at: usize, place: u16)
        requires at { at ≤ length self.old }
        requires room { length self.old < 4096 }
        ensures { self.new ≡ insert self.old at place }
    {
        match self.places.insert(at, place) {
            Ok(()) => {}
            Err(_) => unreachable!(),
        }
    }

    /// Takes one away.
    fn remove(&mut self, at: usize)
        requires { at < length self.old }
        ensures { self.new ≡ remove self.old at }
    {
        self.places.remove(at);
    }
}

/// Empty shelves, one for each number of the first six bits of a hash.
fn empty_shelves(alloc: Global) -> Result<Vec<Shelf>, NoMemory>
    ensures count { IfOk result (λ shelves. length shelves.items ≡ 64) }
    ensures empty { IfOk result (λ shelves. (m : ℕ) → shelf_at shelves.items m ≡ []) }
{
    let mut shelves = Vec::with_capacity(alloc, SHELVES)?;
    for _ in 0..SHELVES {
        shelves.push_reserved(Shelf::new(alloc)?);
    }
    Ok(shelves)
}

/// The places of the branches, in the order of their hashes, and those of one hash in that of superior and name: on a
/// shelf for each number of the first six bits of a hash. It has room for 4096 of them.
#[derive(Drop)]
pub(crate) struct Index {
    shelves: Vec<Shelf>,
    /// The hash of each branch, in the slot of its place: no search but the last step of one looks at a node.
    hashes: Vec<u32>,
}

impl Model for Index {
    ghost use Rattle.std.specs.Prelude.{◌≡◌, ◌≤◌, length, vec_len};
    ghost use Rattle.std.specs.List.{concat};
    ghost use Rattle.dir_tree.specs.Index.{Places, AreShelved};

    ghost Value = { Places };

    ghost view = { λ i. record { places = concat i.shelves.items; hashes = i.hashes.items; room = 4096 } };

    ghost invariant = { λ i. AreShelved i.shelves.items i.hashes.items × (vec_len i.hashes ≡ 4097) };
}

impl Index {
    /// An empty index with room for 4096 branches.
    pub(crate) fn new(alloc: Global) -> Result<Index, NoMemory>
        ensures empty { IfOk result (λ index. index.places ≡ []) }
        ensures room { IfOk result (λ index. index.room ≡ 4096) }
    {
        let shelves = empty_shelves(alloc)?;
        let hashes = vec![in alloc; 0; NODES]?;
        Ok(Index { shelves, hashes })
    }

    /// The place of the branch with this superior and name. It halves the shelf of their hash.
    pub(crate) fn find(&self, nodes: &[Node], superior: u32, name: &Name) -> Option<u16>
        requires order { IsOrdered nodes.now self.now.places self.now.hashes }
        requires within { AreWithin nodes.now self.now.places }
        ensures some { IfSome result (λ place. HasPlace self.now.places place
            × (is_branch superior name.now (shape (node_at nodes.now place)) ≡ true)) }
        ensures none { IfNone result ((place : ℕ) → HasPlace self.now.places place
            → is_branch superior name.now (shape (node_at nodes.now place)) ≡ false) }
    {
        let hash = hash_of(Some(superior), name);
        let shelf = &self.shelves[shelf_of(hash)];
        find(shelf.places(), &self.hashes, nodes, hash, superior, name)
    }

    /// Notes the place of a new branch. The places after it on its shelf move up.
    pub(crate) fn insert(&mut self, nodes: &[Node], place: u16)
        requires room { length self.old.places < self.old.room }
        requires order { IsOrdered nodes.now self.old.places self.old.hashes }
        requires within { AreWithin nodes.now self.old.places }
        requires node { place < length nodes.now }
        requires slot { place < 4097 }
        requires new { (k : ℕ) → k < length self.old.places
            → key_at nodes.now self.old.places k ≢ key_of (node_at nodes.now place) }
        ensures order { IsOrdered nodes.now self.new.places self.new.hashes }
        ensures places { (p : ℕ) → HasPlace self.new.places p ↔ (HasPlace self.old.places p ⊎ (p ≡ place)) }
        ensures count { length self.new.places ≡ length self.old.places + 1 }
        ensures room { self.new.room ≡ self.old.room }
    {
        let node = &nodes[place as usize];
        let hash = hash_of(node.superior, &node.name);
        let shelf = &mut self.shelves[shelf_of(hash)];
        let at = first_at(
            shelf.places(),
            &self.hashes,
            nodes,
            hash,
            node.superior,
            &node.name,
        );
        shelf.insert(at, place);
        self.hashes[place as usize] = hash;
    }

    /// Forgets the place of a branch. The places after it on its shelf move down.
    pub(crate) fn remove(&mut self, nodes: &[Node], place: u16)
        requires there { HasPlace self.old.places place }
        requires order { IsOrdered nodes.now self.old.places self.old.hashes }
        requires within { AreWithin nodes.now self.old.places }
        ensures order { IsOrdered nodes.now self.new.places self.new.hashes }
        ensures places { (p : ℕ) → HasPlace self.new.places p ↔ (HasPlace self.old.places p × (p ≢ place)) }
        ensures count { length self.new.places + 1 ≡ length self.old.places }
        ensures room { self.new.room ≡ self.old.room }
    {
        let shelf = &mut self.shelves[shelf_of(self.hashes[place as usize])];
        let at = place_at(shelf.places(), &self.hashes, place);
        shelf.remove(at);
    }
}

/// An odd number near 2 ^ 64 by the golden ratio, as hashes are multiplied by (Knuth).
const MULTIPLIER: u64 = 11_400_714_819_323_198_485;

/// A hash with eight bytes more.
fn mixed(hash: u64, word: u64) -> u64
    ensures { result ≡ mixed hash word }
{
    hash.wrapping_add(word).wrapping_mul(MULTIPLIER)
}

/// A hash with these words of a name more.
#[tactic(auto, using(std::proofs::lemmas::List::Sums::fold_more))]
fn words_mixed(hash: u64, words: &[[u8; 8]]) -> u64
    ensures { result ≡ words_mixed hash words.now }
{
    let mut hash = hash;
    for word in words {
        hash = mixed(hash, u64::from_be_bytes(*word));
    }
    hash
}

/// The bytes of a name after its last whole word, as a number.
#[tactic(auto, using(std::proofs::lemmas::List::Sums::fold_more))]
fn last_word(bytes: &[u8]) -> u64
    ensures { result ≡ last_word bytes.now }
{
    let mut word = 0_u64;
    for &byte in bytes {
        word = word.wrapping_mul(256).wrapping_add(u64::from(byte));
    }
    word
}

/// The hash of a superior and a name, which takes eight bytes of the name at a time.
#[tactic(auto, unfolding(crate::specs::Index::key_hash))]
fn hash_of(superior: Option<u32>, name: &Name) -> u32
    ensures { result ≡ key_hash (superior, name.now) }
{
    let (words, rest) = name.as_str().as_bytes().as_chunks::<8>();
    let hash = words_mixed(u64::from(superior.unwrap_or(0)), words);
    (mixed(hash, last_word(rest)) >> 32) as u32
}

/// How two names stand to each other, by their letters.
#[inline(never)]
fn compare_letters(own: &Name, other: &Name) -> Ordering
    ensures { result ≡ slice_cmp nat_cmp own.now other.now }
{
    own.as_str().cmp(other.as_str())
}

/// How two names stand to each other. Most are the same, which is seen of many bytes at a time.
fn compare_names(own: &Name, other: &Name) -> Ordering
    ensures { result ≡ slice_cmp nat_cmp own.now other.now }
{
    if own == other {
        Ordering::Equal
    } else {
        compare_letters(own, other)
    }
}

/// How a branch stands to a superior and a name, where their hashes are the same.
fn compare_alike(node: &Node, superior: Option<u32>, name: &Name) -> Ordering
    ensures { result ≡ ordering_then (option_cmp nat_cmp node.now.superior superior)
        (slice_cmp nat_cmp node.now.name name.now) }
{
    node.superior
        .cmp(&superior)
        .then_with(|| compare_names(&node.name, name))
}

/// How a branch stands to a superior and a name, by the hashes of both: it looks at the node only where these are the
/// same.
#[inline(always)]
fn compare(own: u32, node: &Node, hash: u32, superior: Option<u32>, name: &Name) -> Ordering
    requires own { own ≡ key_hash (key_of node.now) }
    requires hash { hash ≡ key_hash (superior, name.now) }
    ensures { result ≡ key_cmp (key_of node.now) (superior, name.now) }
{
    if own < hash {
        Ordering::Less
    } else if own > hash {
        Ordering::Greater
    } else {
        compare_alike(node, superior, name)
    }
}

/// Where the branches of a hash begin, or would. It halves the list by the hashes alone.
fn from_hash(places: &[u16], hashes: &[u32], hash: u32) -> usize
    requires rising { AreRising places.now hashes.now }
    ensures within { result ≤ length places.now }
    ensures below { (k : ℕ) → k < result → hash_at places.now hashes.now k < hash }
    ensures from { (k : ℕ) → result ≤ k → k < length places.now → hash ≤ hash_at places.now hashes.now k }
{
    let mut from = 0;
    let mut left = places.len();
    while left > 1 {
        let half = left / 2;
        if hashes[places[from + half - 1] as usize] < hash {
            from += half;
        }
        left -= half;
    }
    if left == 1 && hashes[places[from] as usize] < hash {
        return from + 1;
    }
    from
}

/// Where the branch with this superior and name stands, or would: where those from it on begin, by the hash of both.
fn first_at(
    places: &[u16],
    hashes: &[u32],
    nodes: &[Node],
    hash: u32,
    superior: Option<u32>,
    name: &Name,
) -> usize
    requires order { IsOrdered nodes.now places.now hashes.now }
    requires within { AreWithin nodes.now places.now }
    requires hash { hash ≡ key_hash (superior, name.now) }
    ensures within { result ≤ length places.now }
    ensures below { (k : ℕ) → k < result → key_cmp (key_at nodes.now places.now k) (superior, name.now) ≡ Less }
    ensures from { (k : ℕ) → result ≤ k → k < length places.now
        → key_cmp (key_at nodes.now places.now k) (superior, name.now) ≢ Less }
{
    let mut at = from_hash(places, hashes, hash);
    while at < places.len() {
        let place = places[at] as usize;
        match compare(hashes[place], &nodes[place], hash, superior, name) {
            Ordering::Less => at += 1,
            Ordering::Equal | Ordering::Greater => return at,
        }
    }
    at
}

/// The place of the branch with this superior and name. It compares names only where two hashes are the same.
fn find(
    places: &[u16],
    hashes: &[u32],
    nodes: &[Node],
    hash: u32,
    superior: u32,
    name: &Name,
) -> Option<u16>
    requires order { IsOrdered nodes.now places.now hashes.now }
    requires within { AreWithin nodes.now places.now }
    requires hash { hash ≡ key_hash (Some superior, name.now) }
    ensures some { IfSome result (λ place. HasPlace places.now place
        × (is_branch superior name.now (shape (node_at nodes.now place)) ≡ true)) }
    ensures none { IfNone result ((place : ℕ) → HasPlace places.now place
        → is_branch superior name.now (shape (node_at nodes.now place)) ≡ false) }
{
    let mut at = from_hash(places, hashes, hash);
    while at < places.len() {
        let place = places[at];
        let own = hashes[place as usize];
        match compare(own, &nodes[place as usize], hash, Some(superior), name) {
            Ordering::Less => at += 1,
            Ordering::Equal => return Some(place),
            Ordering::Greater => return None,
        }
    }
    None
}

/// Where the place of a branch stands. It looks at no node.
fn place_at(places: &[u16], hashes: &[u32], place: u16) -> usize
    requires there { HasPlace places.now place }
    requires rising { AreRising places.now hashes.now }
    ensures within { result < length places.now }
    ensures place { slice_index places.now result ≡ place }
{
    let mut at = from_hash(places, hashes, hashes[place as usize]);
    while places[at] != place {
        at += 1;
    }
    at
}
