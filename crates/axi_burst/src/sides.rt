//! What has completed on the channels of an AXI4 port.

ghost use Rattle.std.specs.Prelude.{◌<◌, ◌^◌, All, length};
ghost use Rattle.axi_burst.specs.Passes.{IsAddress};

use crate::transfers::{Address, Beat};

/// What has completed on the channels of writes, nothing where there are none.
#[derive(Drop)]
pub(crate) struct Written {
    pub(crate) aw: usize,
    pub(crate) w: usize,
    pub(crate) b: usize,
    pub(crate) asks: Vec<Address>,
    pub(crate) sent: Vec<Beat>,
    pub(crate) answers: Vec<Beat>,
    ghost each: { All IsAddress asks.items },
    ghost few_asks: { length asks.items < 2 ^ 32 },
    ghost few_sent: { length sent.items < 2 ^ 32 },
    ghost few_answers: { length answers.items < 2 ^ 32 },
}

/// What has completed on the channels of reads, nothing where there are none.
#[derive(Drop)]
pub(crate) struct ReadOut {
    pub(crate) ar: usize,
    pub(crate) r: usize,
    pub(crate) asks: Vec<Address>,
    pub(crate) got: Vec<Beat>,
    ghost each: { All IsAddress asks.items },
    ghost few_asks: { length asks.items < 2 ^ 32 },
    ghost few_got: { length got.items < 2 ^ 32 },
}
