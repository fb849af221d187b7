// The numbers that are drawn, by Knuth's linear congruential sequence modulo 2^64 (MMIX), of which the upper bits serve.
ghost use Rattle.std.specs.Prelude.{◌≡◌};
ghost use Rattle.ctr_load.specs.Draws.{stepped, number_of_draw};

const MULTIPLIER: u64 = 6364136223846793005;

const INCREMENT: u64 = 1442695040888963407;

/// A sequence of draws.
#[derive(Clone, Copy)]
pub struct Draws {
    pub state: u64,
}

impl Draws {
    /// The next number, below 2^31.
    pub fn draw(&mut self) -> u64
        ensures state { self.new.state ≡ stepped self.old.state }
        ensures number { result ≡ number_of_draw (stepped self.old.state) }
    {
        self.state = self.state.wrapping_mul(MULTIPLIER).wrapping_add(INCREMENT);
        self.state >> 33
    }
}
