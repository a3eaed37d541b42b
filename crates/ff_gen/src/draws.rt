// Numbers drawn one after the other: a linear congruential generator with 64 bits of state.
ghost use Rattle.std.specs.Prelude.{◌≡◌};
ghost use Rattle.ff_gen.specs.Draws.{next_state, drawn_number};

const MULTIPLIER: u64 = 6_364_136_223_846_793_005;

const INCREMENT: u64 = 1_442_695_040_888_963_407;

/// The state of the generator, from which the next number is drawn.
#[derive(Drop)]
pub(crate) struct Draws {
    pub state: u64,
}

impl Draws {
    /// Draws a number below 2^31.
    pub(crate) fn draw(&mut self) -> u64
        ensures state { self.new.state ≡ next_state self.old.state }
        ensures number { result ≡ drawn_number (next_state self.old.state) }
    {
        self.state = next_state(self.state);
        self.state / (1 << 33)
    }
}

fn next_state(state: u64) -> u64
    ensures { result ≡ next_state state }
{
    MULTIPLIER.wrapping_mul(state).wrapping_add(INCREMENT)
}
