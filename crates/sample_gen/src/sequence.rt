//! Numbers that look random, and are the same each time.

ghost use Rattle.std.specs.Prelude.{◌≡◌, ◌<◌, ◌^◌};
ghost use Rattle.sample_gen.specs.Sequence.{next, upper};

/// A linear congruential sequence. Its states are below 2 to the power of 31, and the upper bits of each are drawn.
#[derive(Drop)]
pub(crate) struct Sequence {
    state: u64,
}

impl Sequence {
    /// The sequence whose first state, which isn't drawn, is this number.
    pub(crate) fn new(first: u32) -> Sequence
        ensures { result.state ≡ first }
    {
        Sequence {
            state: u64::from(first),
        }
    }

    /// Goes on to the next state, and draws its upper bits.
    pub(crate) fn draw(&mut self) -> u64
        requires { self.old.state < 2 ^ 32 }
        ensures state { self.new.state ≡ next self.old.state }
        ensures drawn { result ≡ upper (next self.old.state) }
    {
        self.state = (self.state * 1_103_515_245 + 12_345) % (1 << 31);
        self.state / 65_536
    }
}
