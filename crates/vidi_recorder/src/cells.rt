//! The memory of a recording.

ghost use Rattle.std.specs.Prelude.{◌≡◌, [], false, length, IfOk};
ghost use Rattle.circular_buffer.specs.Buffer.{buffer};
ghost use Rattle.trace_code.specs.trace_model.Channel.{IsTable};
ghost use Rattle.trace_code.specs.trace_model.Row.{all_widths};
ghost use Rattle.trace_code.specs.Encoding.{header_bytes};

use env_script::offers_over;
use room_ledger::Room;
use run_stage::Gated;
use std::alloc::Global;
use trace_code::header_bytes;
use trace_code::trace_model::{Channels, LONGEST_PACKET};
use trace_store::Store;
use vidi_io::vidi_bits::{Bytes, Memory};

/// What a recording holds from its opening on.
#[derive(Drop)]
pub(crate) struct Cells {
    pub header: Bytes,
    /// What the environment offers in the next cycle, and the gates that are up.
    pub given: Gated,
    /// Which gates are up, and how much room there is.
    pub room: Room,
    /// The bytes that wait.
    pub store: Store,
    /// Where a packet is before it is put into the store.
    pub packet: [u8; LONGEST_PACKET],
    /// Where bytes are that go out together: a place for each byte of the store.
    pub out: Vec<u8>,
    /// How many packets were put into the store.
    pub packets: u32,
    /// The cycle at which the last of them ends, 0 before the first.
    pub end: u32,
    /// How many of them are resets.
    pub resets: usize,
    /// Whether the next row is fresh: the packet of the reset before it was put.
    pub fresh: bool,
}

/// The buffer in which drained bytes go out.
fn out_of(alloc: Global, capacity: u32) -> Result<Vec<u8>, Memory>
    ensures { IfOk result (λ out. length out.items ≡ capacity) }
{
    let out = vec![in alloc; 0u8; capacity as usize]?;
    Ok(out)
}

/// All memory of a recording of these channels with a store of this capacity, but for its rows.
pub(crate) fn open(
    alloc: Global,
    channels: &Channels,
    capacity: u32,
    room: Room,
) -> Result<Cells, Memory>
    requires { IsTable channels.now }
    ensures header { IfOk result (λ cells. cells.header ≡ header_bytes channels.now) }
    ensures room { IfOk result (λ cells. cells.room ≡ room) }
    ensures store { IfOk result (λ cells. cells.store ≡ buffer [] capacity) }
    ensures out { IfOk result (λ cells. length cells.out.items ≡ capacity) }
    ensures offers { IfOk result (λ cells. length cells.given.offers.contents ≡ length (all_widths channels.now)) }
    ensures packets { IfOk result (λ cells. cells.packets ≡ 0) }
    ensures end { IfOk result (λ cells. cells.end ≡ 0) }
    ensures resets { IfOk result (λ cells. cells.resets ≡ 0) }
    ensures fresh { IfOk result (λ cells. cells.fresh ≡ false) }
{
    let header = header_bytes(alloc, channels)?;
    let store = Store::new(alloc, capacity as usize)?;
    let out = out_of(alloc, capacity)?;
    let offers = offers_over(alloc, channels)?;
    Ok(Cells {
        header,
        given: Gated { offers, gates: 0 },
        room,
        store,
        packet: [0; LONGEST_PACKET],
        out,
        packets: 0,
        end: 0,
        resets: 0,
        fresh: false,
    })
}
