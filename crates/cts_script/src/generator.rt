//! A linear congruential generator.

ghost use Rattle.std.specs.Prelude.{◌<◌, ◌^◌};

/// A generator of numbers, by its state.
#[derive(Drop)]
pub struct Generator {
    pub state: u64,
    ghost within: { state < 2 ^ 31 },
}

impl Generator {
    ghost use Rattle.std.specs.Prelude.{◌≡◌, ◌≤◌};
    ghost use Rattle.cts_script.specs.Generator.{drawn, next_state};

    /// The generator that starts from a seed.
    pub fn from_seed(seed: u32) -> Generator
        requires { seed < 2 ^ 31 }
        ensures { result.state ≡ seed }
    {
        Generator {
            state: u64::from(seed),
        }
    }

    /// Goes on by one step, and draws a number below `limit`.
    #[tactic(auto, using(crate::proofs::Draws::drawn_below), unfolding(crate::specs::Generator::next_state))]
    pub fn draw(&mut self, limit: u64) -> u64
        requires some { 0 < limit }
        requires limit { limit ≤ 2 ^ 32 }
        ensures state { self.new.state ≡ next_state self.old.state }
        ensures drawn { result ≡ drawn limit self.new.state }
        ensures below { result < limit }
    {
        self.state = (self.state * 1_103_515_245 + 12_345) % (1 << 31);
        self.state * limit / (1 << 31)
    }
}
