ghost use Rattle.std.specs.Prelude.{◌≡◌, ◌+◌, ◌-◌, ◌*◌, ◌<◌, ◌≤◌, ◌↔◌, ◌++◌, length, take, replicate, slice_index};
ghost use Rattle.std.specs.Prelude.{slice_set, slice_range, vec_len, IsTrue, IfOk};
ghost use Rattle.mword.specs.Words.{AreWords, AreZero};

use crate::NoMemory;
use crate::word::Word;
use std::alloc::Global;
use std::marker::Model;
use std::simd::prelude::*;

/// The words of a page that are all 0.
static ZEROS: [u64; 1024] = [0; 1024];

/// A page of 1024 words in one block on the heap, seen as the list of its words.
///
/// A `Page` itself is a pointer, so to move one copies no words.
#[derive(Debug, Drop)]
pub struct Page {
    words: Vec<u64>,
}

impl Model for Page {
    ghost use Rattle.std.specs.Prelude.{◌≡◌, ℕ, List, vec_len};

    ghost Value = { List ℕ };

    ghost use Rattle.mword.specs.Words.{AreWords};

    ghost view = { λ p. p.words.items };

    ghost invariant = { λ p. (vec_len p.words ≡ 1024) × AreWords p.words.items };
}

impl Page {
    /// How many words a page has.
    pub const WORDS: u32 = 1024;

    /// A page of zeros. It takes 8 KiB, and fails where they are not there.
    pub fn zero(alloc: Global) -> Result<Page, NoMemory>
        ensures zeros { IfOk result (λ page. page ≡ replicate 1024 0) }
        ensures size { IfOk result (λ page. length page ≡ 1024) }
    {
        let words = vec![in alloc; 0; 1024]?;
        Ok(Page { words })
    }

    /// The word at place `i`.
    pub fn get(&self, i: u32) -> Word
        requires { i < 1024 }
        ensures word { result ≡ slice_index self.now i }
        ensures size { length self.now ≡ 1024 }
        ensures words { AreWords self.now }
    {
        Word::of_bits(self.words[i as usize])
    }

    /// Writes a word at place `i`, and leaves the others as they are.
    pub fn set(&mut self, i: u32, w: Word)
        requires { i < 1024 }
        ensures word { self.new ≡ slice_set self.old i w }
        ensures size { length self.new ≡ 1024 }
        ensures old_size { length self.old ≡ 1024 }
    {
        self.words[i as usize] = w.value();
    }

    /// Copies the words of another page. Takes no memory.
    pub fn copy_from(&mut self, other: &Page)
        ensures words { self.new ≡ other.now }
        ensures size { length self.new ≡ 1024 }
    {
        self.words.copy_from_slice(&other.words);
    }

    /// Copies the words of a block. Takes no memory.
    pub fn copy_from_block(&mut self, block: &Block)
        ensures words { self.new ≡ block.now }
        ensures size { length self.new ≡ 1024 }
    {
        self.words.copy_from_slice(&block.words);
    }

    /// Writes 0 at each place from `i` on, and leaves those before it as they are.
    pub fn clear_from(&mut self, i: u32)
        requires { i ≤ 1024 }
        ensures words { self.new ≡ take i self.old ++ replicate (1024 - i) 0 }
        ensures size { length self.new ≡ 1024 }
        ensures old_size { length self.old ≡ 1024 }
    {
        clear(&mut self.words[i as usize..]);
    }

    /// Whether each word is 0. It looks at 32 words at a time, and stops at the first of these
    /// blocks that has another word.
    pub fn is_zero(&self) -> bool
        ensures zero { IsTrue result ↔ AreZero self.now }
        ensures size { length self.now ≡ 1024 }
        ensures words { AreWords self.now }
    {
        blocks_are_zero(&self.words)
    }
}

/// The words of a page in place, 8 KiB, seen as the list of its 1024 words.
///
/// Many in one `Vec` take memory once for all, but to move one copies its words.
#[derive(Drop)]
pub struct Block {
    words: [u64; 1024],
}

impl Model for Block {
    ghost use Rattle.std.specs.Prelude.{ℕ, List};

    ghost Value = { List ℕ };

    ghost use Rattle.mword.specs.Words.{AreWords};

    ghost view = { λ b. b.words };

    ghost invariant = { λ b. AreWords b.words };
}

impl Block {
    /// A block of zeros.
    pub fn zero() -> Block
        ensures { result ≡ replicate 1024 0 }
    {
        Block { words: [0; 1024] }
    }

    /// A block of the words of a page.
    pub fn of(page: &Page) -> Block
        ensures words { result ≡ page.now }
        ensures size { length result ≡ 1024 }
    {
        match page.words.as_array::<1024>() {
            Some(words) => Block { words: *words },
            None => unreachable!(),
        }
    }

    /// Copies the words of a page.
    pub fn copy_from(&mut self, page: &Page)
        ensures words { self.new ≡ page.now }
        ensures size { length self.new ≡ 1024 }
    {
        self.words.copy_from_slice(&page.words);
    }
}

/// Writes 0 over the words of a part of a page. It copies them from a page of zeros.
fn clear(words: &mut [u64])
    requires { length words.old ≤ 1024 }
    ensures clear { words.new ≡ replicate (length words.old) 0 }
    ensures size { length words.new ≡ length words.old }
{
    words.copy_from_slice(&ZEROS[..words.len()]);
}

/// Whether each word of the blocks is 0.
#[tactic(auto, using(crate::proofs::ZeroLanes::blocks_are_zero_steps, std::proofs::lemmas::Grind::common_steps))]
fn blocks_are_zero(words: &[u64]) -> bool
    requires { length words.now ≡ 1024 }
    ensures { IsTrue result ↔ AreZero words.now }
{
    for block in 0..32 {
        if !block_is_zero(words, 32 * block) {
            return false;
        }
    }
    true
}

/// Whether the 32 words from `at` on are 0.
#[tactic(auto, using(crate::proofs::ZeroLanes::zero_block))]
fn block_is_zero(words: &[u64], at: usize) -> bool
    requires { at + 32 ≤ length words.now }
    ensures { IsTrue result ↔ AreZero (slice_range words.now at (at + 32)) }
{
    let first = u64x8::from_slice(&words[at..]);
    let second = u64x8::from_slice(&words[at + 8..]);
    let third = u64x8::from_slice(&words[at + 16..]);
    let fourth = u64x8::from_slice(&words[at + 24..]);
    ((first | second) | (third | fourth)).reduce_or() == 0
}
