ghost use Rattle.std.specs.Prelude.{◌≡◌, ◌+◌, ◌%◌, ◌^◌, ◌<◌, ◌↔◌, IsSome, IfSome};

use std::marker::Model;

/// A word of 36 bits, seen as a number below 2^36.
#[derive(Clone, Copy, Debug, PartialEq, Eq, PartialOrd, Ord, Hash)]
pub struct Word {
    bits: u64,
}

impl Model for Word {
    ghost use Rattle.std.specs.Prelude.{ℕ, ◌^◌, ◌<◌};

    ghost Value = { ℕ };

    ghost view = { λ w. w.bits };

    ghost invariant = { λ w. w.bits < 2 ^ 36 };

    ghost inverse = { λ n. record { bits = n } };
}

/// One more than the greatest word.
const LIMIT: u64 = 1 << 36;

impl Word {
    /// The word 0.
    pub const ZERO: Word = Word { bits: 0 };

    /// The word with this value. `None` exactly where the value is 2^36 or more.
    pub fn new(v: u64) -> Option<Word>
        ensures fits { IsSome result ↔ (v < 2 ^ 36) }
        ensures value { IfSome result (λ w. w ≡ v) }
    {
        if v < LIMIT {
            Some(Word { bits: v })
        } else {
            None
        }
    }

    /// The word as a number.
    pub fn value(self) -> u64
        ensures value { result ≡ self }
        ensures range { result < 2 ^ 36 }
    {
        self.bits
    }

    /// The word with these bits, which are known to be below 2^36.
    pub(crate) fn of_bits(bits: u64) -> Word
        requires { bits < 2 ^ 36 }
        ensures { result ≡ bits }
    {
        Word { bits }
    }

    /// The sum modulo 2^36, as the machine's own add gives it.
    pub fn plus(self, other: Word) -> Word
        ensures { result ≡ (self + other) % 2 ^ 36 }
    {
        Word {
            bits: (self.bits + other.bits) % LIMIT,
        }
    }
}
