//! Numbers drawn one after the other from a seed, the same on every machine.
//!
//! The generator is linear congruential with 64 bits (its multiplier and increment are Knuth's for MMIX), and of each
//! state the upper bits are taken. It's meant for work that is made up, and for nothing secret.
#![tactic(auto)]

ghost use Rattle.std.specs.Prelude.{◌≡◌, ◌<◌};
ghost use Rattle.draws.specs.Draws.{drawn, next_state};

/// The state of the generator. (Source: Knuth, The Art of Computer Programming; that the upper 31 bits are taken is
/// own.)
#[derive(Clone, Copy, PartialEq, Eq)]
pub struct Draws {
    /// The state from which the next number is drawn.
    pub state: u64,
}

impl Draws {
    /// The generator of a seed.
    pub fn of(seed: u32) -> Draws
        ensures { result.state ≡ seed }
    {
        Draws {
            state: u64::from(seed),
        }
    }

    /// A number below a bound, of the next state.
    #[tactic(auto, unfolding(crate::specs::Draws::next_state, crate::specs::Draws::drawn))]
    pub fn draw(&mut self, bound: u32) -> u32
        requires { 0 < bound }
        ensures state { self.new.state ≡ next_state self.old.state }
        ensures value { result ≡ drawn bound self.new.state }
        ensures below { result < bound }
    {
        self.state = self
            .state
            .wrapping_mul(6_364_136_223_846_793_005)
            .wrapping_add(1_442_695_040_888_963_407);
        (self.state / 8_589_934_592 % u64::from(bound)) as u32
    }
}
