//! Blocks: designs that run.

ghost use Rattle.std.specs.Prelude.{◌≡◌, ℕ, ◌<◌, List, Option, slice_index};
ghost use Rattle.std.specs.Borrow.{GName};
ghost use Rattle.net_design.specs.declared.design.Design.{Design};
ghost use Rattle.net_design.specs.declared.values.Values.{Values};
ghost use Rattle.net_design.specs.Settled.{IsSettled, initial, next};
ghost use Rattle.net_design.specs.Lawful.{IsState};
ghost use Rattle.net_design.specs.Pins.{FitPins, HasOneMap, no_pins, output_count, outputs};

/// A running design: a state, and the inputs that it settled with last.
///
/// Between `clock` or `load` and the next `settle` no clause says which map `pin` reads.
pub trait Block {
    /// The design, which stays the same.
    ghost design: { Self → Design };

    /// The state, with 0 in each bit that it doesn't hold.
    ghost state: { Self → Values };

    /// The inputs of the last `settle`, one number for each input port in port order; 0 after `load`.
    ghost inputs: { Self → List ℕ };

    /// The map whose outputs are shown.
    ghost shown: { Self → Values };

    /// The borrow that the block runs through, where there is one.
    ghost place: { Self → Option GName };

    /// Settles the design with these inputs, one number for each input port in port order, of which the clock's is 0
    /// (IEEE 1364-2005, 6.1 and 9.7.5).
    fn settle(&mut self, pins: &[u128])
        requires { FitPins (design self.old) pins.now }
        ensures settled { IsSettled (design self.new) (state self.new) pins.now (shown self.new) }
        ensures only { (v : Values) → IsSettled (design self.new) (state self.new) pins.now v → v ≡ shown self.new }
        ensures inputs { inputs self.new ≡ pins.now }
        ensures state { state self.new ≡ state self.old }
        ensures design { design self.new ≡ design self.old }
        ensures place { place self.new ≡ place self.old };

    /// The settled number of an output port; the output ports are counted from 0 in port order.
    fn pin(&self, port: usize) -> u128
        requires { port < output_count (design self.now) }
        ensures { result ≡ slice_index (outputs (design self.now) (shown self.now)) port };

    /// Makes the state the next one, at what the state settles to with the inputs of the last `settle`, whether or not
    /// there was one since the last `clock` (IEEE 1364-2005, 9.2.2).
    fn clock(&mut self)
        ensures state { (v : Values) → IsSettled (design self.old) (state self.old) (inputs self.old) v
            → state self.new ≡ next (design self.old) v (state self.old) }
        ensures inputs { inputs self.new ≡ inputs self.old }
        ensures design { design self.new ≡ design self.old }
        ensures place { place self.new ≡ place self.old };

    /// Makes the state the initial one and the last inputs 0 (IEEE 1364-2005, 6.2.1).
    fn load(&mut self)
        ensures state { state self.new ≡ initial (design self.old) }
        ensures inputs { inputs self.new ≡ no_pins (design self.old) }
        ensures design { design self.new ≡ design self.old }
        ensures place { place self.new ≡ place self.old };

    /// Each state settles in one way with all fitting inputs.
    ghost one_map: { (block : Self) → HasOneMap (design block) };

    /// The state is one of the design's.
    ghost is_state: { (block : Self) → IsState (design block) (state block) };

    /// The last inputs fit.
    ghost are_inputs: { (block : Self) → FitPins (design block) (inputs block) };
}
