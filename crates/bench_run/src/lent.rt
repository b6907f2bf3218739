//! Blocks that are borrowed.

ghost use Rattle.std.specs.Prelude.{◌≡◌, Some};

use net_design::Block;

/// A block that is borrowed, as a block.
#[derive(Drop)]
pub struct Lent<'a, B: Block> {
    pub(crate) block: &'a mut B,
}

impl<'a, B: Block> Lent<'a, B> {
    /// The block itself, for as long as it is borrowed.
    pub fn new(block: &'a mut B) -> Lent<'a, B>
        ensures same { result.block.ghost_name ≡ block.entry.ghost_name }
        ensures block { result.block.now ≡ block.old }
    {
        Lent { block }
    }

    /// The block, to look at.
    pub fn get(&self) -> &B
        ensures { result.now ≡ self.now.block.now }
    {
        self.block
    }
}

impl<'a, B: Block> Block for Lent<'a, B> {
    ghost design = { λ s. B.design s.block.now };

    ghost state = { λ s. B.state s.block.now };

    ghost inputs = { λ s. B.inputs s.block.now };

    ghost shown = { λ s. B.shown s.block.now };

    ghost place = { λ s. Some s.block.ghost_name };

    fn settle(&mut self, pins: &[u128]) {
        self.block.settle(pins);
    }

    fn pin(&self, port: usize) -> u128 {
        self.block.pin(port)
    }

    fn clock(&mut self) {
        self.block.clock();
    }

    fn load(&mut self) {
        self.block.load();
    }

    ghost one_map = { λ s. B.one_map s.block.now };

    ghost is_state = { λ s. B.is_state s.block.now };

    ghost are_inputs = { λ s. B.are_inputs s.block.now };
}
