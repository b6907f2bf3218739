//! The epochs of packets.

ghost use Rattle.std.specs.Prelude.{◌≡◌, ℕ, suc, ◌≤◌, length};
ghost use Rattle.std.specs.List.{position_or_len};
ghost use Rattle.vec_clock.specs.trace_model.declared.packet.Packet.{Packet as OnePacket};
ghost use Rattle.vec_clock.specs.trace_model.Epoch.{epoch, resets};

use vec_clock::trace_model::Packet;

/// How many of the packets are resets.
pub(crate) fn resets(packets: &[Packet]) -> usize
    ensures { result ≡ resets packets.now }
{
    packets.iter().filter(|packet| packet.reset).count()
}

/// How many packets stand before the first reset, or are there where there is none.
fn first_len(packets: &[Packet]) -> usize
    ensures value { result ≡ position_or_len (λ (p : OnePacket). p.reset) packets.now }
    ensures fits { result ≤ length packets.now }
{
    packets.iter().take_while(|packet| !packet.reset).count()
}

/// The packets before the first reset, and those behind it, of which there are none where no packet is a reset.
pub(crate) fn cut(packets: &[Packet]) -> (&[Packet], &[Packet])
    ensures first { result.0.now ≡ epoch 0 packets.now }
    ensures later { (e : ℕ) → epoch e result.1.now ≡ epoch (suc e) packets.now }
    ensures first_fits { length result.0.now ≤ length packets.now }
    ensures later_fits { length result.1.now ≤ length packets.now }
{
    let (first, rest) = packets.split_at(first_len(packets));
    match rest.split_first() {
        Some((_reset, later)) => (first, later),
        None => (first, rest),
    }
}
