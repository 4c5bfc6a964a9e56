//! The work of each processor.
ghost use Rattle.std.specs.Prelude.{◌≡◌, ◌+◌, ◌*◌, ◌<◌, ◌≤◌, IfOk};
ghost use Rattle.drill.specs.Work.{word_at, sums_of};
ghost use Rattle.drill.specs.Roles.{words_to};

use mword::Word;
use std::alloc::{AllocError, Global};

/// How large a drill is.
#[derive(Clone, Copy)]
pub(crate) struct Size {
    pub(crate) cpus: u32,
    pub(crate) frames: u32,
    pub(crate) adds: u32,
    pub(crate) seed: u32,
}

/// The word that add `i` adds.
pub(crate) fn word_at(i: u32) -> Word
    ensures { result ≡ word_at i }
{
    Word::new(u64::from(1 + i % 7)).unwrap_or(Word::ZERO)
}

/// The sum of the words of the first `n` adds.
pub(crate) fn words_to(n: u32) -> u64
    ensures sum { result ≡ words_to n }
    ensures few { result ≤ 7 * n }
{
    let mut sum = 0;
    for i in 0..n {
        sum += u64::from(1 + i % 7);
    }
    sum
}

// The sum of the words of all adds of a processor.
fn work_sum(adds: u32) -> Word
    requires { adds ≤ 10000 }
    ensures { result ≡ words_to adds }
{
    Word::new(words_to(adds)).unwrap_or(Word::ZERO)
}

/// The sum of each processor's work, in order. They are all the same, whatever frames are drawn.
#[tactic(auto, using(crate::proofs::Words::sums_more, std::proofs::lemmas::Grind::common_steps))]
pub(crate) fn sums_of(alloc: Global, size: Size) -> Result<Vec<Word>, AllocError>
    requires { size.adds ≤ 10000 }
    ensures { IfOk result (λ sums. sums.items ≡ sums_of size.frames size.adds size.seed size.cpus) }
{
    let sum = work_sum(size.adds);
    let mut sums = Vec::with_capacity(alloc, size.cpus as usize)?;
    for _ in 0..size.cpus {
        sums.push(sum)?;
    }
    Ok(sums)
}
