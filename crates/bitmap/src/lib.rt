//! A map of which of the numbers below a size are in use, in two levels of bits.
//!
//! The lower level has a bit for each number. The upper level has a bit for each word of 64 bits of the lower
//! level, which is on where that word has no number free. So the least free number is found by a look at the
//! upper words (4 of them for 16,384 numbers, 1 for 4096) and at one lower word. (Source: own.)
//!
//! Costs: `new` and `all_used` take memory twice, once for each level, and write each word. `first_free` reads the
//! upper words up to the first that is not full, and one lower word. `take` and `give_back` write one lower word and at
//! most one upper word. `is_used` reads one word, and `used` and `size` one number. None of these takes memory.
#![tactic(auto)]

ghost use Rattle.std.specs.Prelude.{◌≡◌, ◌<◌, ◌≤◌, ◌+◌, ◌*◌, ◌/◌, ◌^◌, ◌-◌, ◌==◌, ℕ, Bool, true, false, List, length};
ghost use Rattle.std.specs.Prelude.{replicate, slice_index, slice_set, count_by, vec_len, All, IfOk, IfSome, IfNone};
ghost use Rattle.bitmap.specs.Bitmap.{in_use, least_free, IsLeastFree};
ghost use Rattle.bitmap.specs.Bits.{bit_on, with_bit, without_bit, full_after, IsFirstOff, IsClear};

pub use no_memory::NoMemory;
use std::alloc::Global;
use std::marker::Model;

/// Which of the numbers below a size are in use, seen as one flag for each number, true where it is in use.
#[derive(Debug, Drop)]
pub struct Bitmap {
    words: Vec<u64>,
    full: Vec<u64>,
    size: u32,
    used: u32,
}

impl Model for Bitmap {
    ghost use Rattle.std.specs.Prelude.{Bool, List};
    ghost use Rattle.bitmap.specs.Bits.{flags_of, HasTwoLevels};

    ghost Value = { List Bool };

    ghost view = { λ map. flags_of map.words.items map.size };

    ghost invariant = { λ map. HasTwoLevels map.words.items map.full.items map.size map.used };
}

impl Bitmap {
    /// A map of `size` numbers, all free. `NoMemory` is want of memory.
    pub fn new(alloc: Global, size: u32) -> Result<Bitmap, NoMemory>
        ensures { IfOk result (λ map. map ≡ replicate size false) }
    {
        let words = clear_words(alloc, size)?;
        let full = clear_words(alloc, size.div_ceil(64))?;
        Ok(Bitmap {
            words,
            full,
            size,
            used: 0,
        })
    }

    /// A map of `size` numbers, all in use. `NoMemory` is want of memory.
    pub fn all_used(alloc: Global, size: u32) -> Result<Bitmap, NoMemory>
        ensures { IfOk result (λ map. map ≡ replicate size true) }
    {
        let words = full_words(alloc, size)?;
        let full = full_words(alloc, size.div_ceil(64))?;
        Ok(Bitmap {
            words,
            full,
            size,
            used: size,
        })
    }

    /// The least number that is free, None exactly where all are in use.
    pub fn first_free(&self) -> Option<u32>
        ensures least { result ≡ least_free self.now }
        ensures some { IfSome result (λ r. IsLeastFree self.now r) }
        ensures none { IfNone result (All (λ flag. flag ≡ true) self.now) }
    {
        let word = first_off(&self.full)?;
        let bit = self.words[word].trailing_ones() as usize;
        Some((64 * word + bit) as u32)
    }

    /// Whether number `r` is in use.
    pub fn is_used(&self, r: u32) -> bool
        requires { r < length self.now }
        ensures { result ≡ in_use self.now r }
    {
        let r = r as usize;
        (self.words[r / 64] >> (r % 64)) & 1 == 1
    }

    /// How many numbers are in use.
    pub fn used(&self) -> u32
        ensures { result ≡ count_by (λ flag. flag) self.now }
    {
        self.used
    }

    /// How many numbers there are.
    pub fn size(&self) -> u32
        ensures { result ≡ length self.now }
    {
        self.size
    }

    /// Takes the free number `r` into use.
    pub fn take(&mut self, r: u32)
        requires within { r < length self.old }
        requires free { in_use self.old r ≡ false }
        ensures flags { self.new ≡ slice_set self.old r true }
        ensures count { count_by (λ flag. flag) self.new ≡ count_by (λ flag. flag) self.old + 1 }
    {
        turn_on(&mut self.words, &mut self.full, r as usize);
        self.used += 1;
    }

    /// Gives back the number `r`, which is in use.
    pub fn give_back(&mut self, r: u32)
        requires { in_use self.old r ≡ true }
        ensures flags { self.new ≡ slice_set self.old r false }
        ensures count { count_by (λ flag. flag) self.new + 1 ≡ count_by (λ flag. flag) self.old }
    {
        let r = r as usize;
        clear_bit(&mut self.words, r);
        clear_bit(&mut self.full, r / 64);
        self.used -= 1;
    }
}

/// Words for `count` bits, which are off. The bits past them are on.
fn clear_words(alloc: Global, count: u32) -> Result<Vec<u64>, NoMemory>
    ensures { IfOk result (λ words. IsClear words.items count) }
{
    let mut words = vec![in alloc; 0u64; count.div_ceil(64) as usize]?;
    if count % 64 != 0 {
        words[count as usize / 64] = u64::MAX << (count % 64);
    }
    Ok(words)
}

/// Words for `count` bits, with every bit on.
fn full_words(alloc: Global, count: u32) -> Result<Vec<u64>, NoMemory>
    ensures { IfOk result (λ words. words.items ≡ replicate ((count + 63) / 64) (2 ^ 64 - 1)) }
{
    Ok(vec![in alloc; u64::MAX; count.div_ceil(64) as usize]?)
}

/// The place of the first bit that is off, None exactly where all are on.
fn first_off(words: &[u64]) -> Option<usize>
    requires { length words.now < 2 ^ 32 }
    ensures some { IfSome result (λ r. IsFirstOff words.now r) }
    ensures none { IfNone result ((r : ℕ) → r < 64 * length words.now → bit_on words.now r ≡ true) }
{
    for (i, word) in words.iter().enumerate() {
        if *word != u64::MAX {
            return Some(64 * i + word.trailing_ones() as usize);
        }
    }
    None
}

/// Turns bit `r` of the lower level on, and with it the bit of its word where that word is full then.
fn turn_on(words: &mut Vec<u64>, full: &mut Vec<u64>, r: usize)
    requires lower { r / 64 < vec_len words.old }
    requires upper { r / 64 / 64 < vec_len full.old }
    ensures lower { words.new.items ≡ with_bit words.old.items r }
    ensures upper { full.new.items ≡ full_after (with_bit words.old.items r) full.old.items (r / 64) }
{
    set_bit(words, r);
    if words[r / 64] == u64::MAX {
        set_bit(full, r / 64);
    }
}

/// Turns bit `r` on.
#[tactic(auto, unfolding(crate::specs::Bits::with_bit))]
fn set_bit(words: &mut Vec<u64>, r: usize)
    requires { r / 64 < vec_len words.old }
    ensures items { words.new.items ≡ with_bit words.old.items r }
    ensures len { vec_len words.new ≡ vec_len words.old }
{
    words[r / 64] |= 1 << (r % 64);
}

/// Turns bit `r` off.
#[tactic(auto, unfolding(crate::specs::Bits::without_bit))]
fn clear_bit(words: &mut Vec<u64>, r: usize)
    requires { r / 64 < vec_len words.old }
    ensures items { words.new.items ≡ without_bit words.old.items r }
    ensures len { vec_len words.new ≡ vec_len words.old }
{
    words[r / 64] &= !(1 << (r % 64));
}
