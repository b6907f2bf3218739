//! The beats of bursts, and their addresses (AMBA AXI4 IHI 0022, A3.4.1).

ghost use Rattle.std.specs.Prelude.{◌≡◌, ◌*◌};
ghost use Rattle.axi_burst.specs.Passes.{IsAddress};
ghost use Rattle.axi_memory.specs.Memory.{address_of, stepped, wrapped};

use axi_burst::Address;

/// The code of a burst at one address.
const FIXED: u128 = 0;

/// The code of a burst that begins anew at the end of its bytes.
const WRAP: u128 = 2;

/// A burst that was asked for, and the number of one of its beats, from 0.
#[derive(Clone, Copy)]
pub struct Turn {
    pub ask: Address,
    pub beat: u32,
}

impl Turn {
    /// How far the beat is from the first one, in bytes.
    fn offset(&self) -> u128
        ensures { result ≡ self.now.beat * self.now.ask.size }
    {
        u128::from(self.beat) * u128::from(self.ask.size)
    }

    /// The address in an incrementing burst: behind the first beat each is aligned to its size.
    fn stepped(&self) -> u128
        requires { IsAddress self.now.ask }
        ensures { result ≡ stepped self.now.ask self.now.beat }
    {
        if self.beat == 0 {
            return self.ask.addr;
        }
        self.ask.addr - self.ask.addr % u128::from(self.ask.size) + self.offset()
    }

    /// The address in a wrapping burst.
    fn wrapped(&self) -> u128
        requires { IsAddress self.now.ask }
        ensures { result ≡ wrapped self.now.ask self.now.beat }
    {
        let bytes = u128::from(self.ask.beats) * u128::from(self.ask.size);
        let boundary = self.ask.addr - self.ask.addr % bytes;
        boundary + (self.ask.addr - boundary + self.offset()) % bytes
    }

    /// The address of the beat.
    pub(crate) fn address(&self) -> u128
        requires { IsAddress self.now.ask }
        ensures { result ≡ address_of self.now }
    {
        match self.ask.burst {
            FIXED => self.ask.addr,
            WRAP => self.wrapped(),
            _ => self.stepped(),
        }
    }
}
