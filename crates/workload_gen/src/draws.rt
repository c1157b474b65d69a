//! Numbers drawn from a state.
ghost use Rattle.std.specs.Prelude.{◌≡◌, ◌<◌};
ghost use Rattle.workload_gen.specs.Draws.{next_state, draw as number_drawn};

const FACTOR: u64 = 6364136223846793005;

const STEP: u64 = 1442695040888963407;

/// The state of a linear congruential generator of 64 bits, which is the seed at first (Knuth's MMIX).
#[derive(Clone, Copy, Debug)]
pub(crate) struct Draws {
    pub(crate) state: u64,
}

impl Draws {
    /// The next number below `k`, of the upper bits of the next state.
    #[tactic(auto, unfolding(crate::specs::Draws::next_state, crate::specs::Draws::draw))]
    pub(crate) fn draw(&mut self, k: u64) -> u64
        requires { 0 < k }
        ensures state { self.new.state ≡ next_state self.old.state }
        ensures drawn { result ≡ number_drawn k self.old.state }
        ensures below { result < k }
    {
        self.state = self.state.wrapping_mul(FACTOR).wrapping_add(STEP);
        (self.state >> 33) % k
    }
}
