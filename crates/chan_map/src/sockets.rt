//! The ports of a top by name.

ghost use Rattle.std.specs.Prelude.{◌≡◌, ◌≢◌, ◌<◌, ℕ, Some, None, List, IfOk, OnOk, nat_eq, if◌then◌else◌};
ghost use Rattle.std.specs.Cmp.Lexicographic.{pointwise};
ghost use Rattle.std.specs.Str.{bytes_eq};
ghost use Rattle.vidi_lines.specs.vidi_bits.Findings.{or_first};
ghost use Rattle.indexmap.specs.IndexMap.{get_by};
ghost use Rattle.net_design.specs.declared.design.Direction.TheVariants.{Input, Output};
ghost use Rattle.net_design.specs.Settled.{same_direction};
ghost use Rattle.chan_map.specs.Ports.{socket_named};
ghost use Rattle.chan_map.specs.Sockets.{IsTop};

use indexmap::IndexMap;
use net_design::{Design, Direction, Port};
use std::alloc::Global;
use vidi_lines::vidi_bits::Memory;

/// A port of the top.
#[derive(Clone, Copy, PartialEq, Eq)]
pub struct Socket {
    /// Its number among the ports, from 0.
    pub port: usize,
    pub direction: Direction,
    /// Its place among the ports of its direction, from 0.
    pub place: usize,
    /// Its width in bits.
    pub width: u32,
}

/// The ports of a top by name.
pub type Sockets = IndexMap<Vec<u8>, Socket>;

/// The socket under this name.
fn socket_under(sockets: &Sockets, name: &[u8]) -> Option<Socket>
    ensures { result ≡ get_by (λ v. pointwise nat_eq name.now v.items) sockets.now }
{
    sockets.get(name).copied()
}

/// A design, and the ports of its top by name.
#[derive(Drop)]
pub struct Top<'a> {
    pub design: &'a Design,
    pub sockets: Sockets,
}

/// The port with this name.
pub fn socket_named(top: &Top, name: &[u8]) -> Option<Socket>
    requires { IsTop top.now }
    ensures { result ≡ socket_named top.now.design.now.ports name.now }
{
    socket_under(&top.sockets, name)
}

/// Adds a port, unless there is one of its name.
fn add_socket(
    alloc: Global,
    sockets: &mut Sockets,
    name: &[u8],
    socket: Socket,
) -> Result<(), Memory>
    ensures { OnOk result ((q : List ℕ) → get_by (λ v. pointwise nat_eq q v.items) sockets.new
        ≡ or_first (get_by (λ v. pointwise nat_eq q v.items) sockets.old) (if bytes_eq q name.now then Some socket else None)) }
{
    if socket_under(sockets, name).is_some() {
        return Ok(());
    }
    let key = Vec::from_slice(alloc, name)?;
    sockets.insert(key, socket)?;
    Ok(())
}

/// The one count or the other.
fn count_of(direction: Direction, inputs: usize, outputs: usize) -> usize
    ensures { result ≡ (if same_direction Input direction then inputs else outputs) }
{
    match direction {
        Direction::Input => inputs,
        Direction::Output => outputs,
    }
}

/// Whether the directions are the same.
pub fn same_direction(wanted: Direction, direction: Direction) -> bool
    ensures { result ≡ same_direction wanted direction }
{
    match wanted {
        Direction::Input => matches!(direction, Direction::Input),
        Direction::Output => matches!(direction, Direction::Output),
    }
}

/// 1 where the directions are the same, else 0.
fn one_if_same(wanted: Direction, direction: Direction) -> usize
    ensures { result ≡ (if same_direction wanted direction then 1 else 0) }
{
    usize::from(same_direction(wanted, direction))
}

/// The ports by name; of ports of one name the first.
fn sockets_of(alloc: Global, ports: &[Port]) -> Result<Sockets, Memory>
    ensures { IfOk result (λ s. (q : List ℕ) → get_by (λ v. pointwise nat_eq q v.items) s ≡ socket_named ports.now q) }
{
    let mut sockets = Sockets::new(alloc);
    let mut inputs = 0;
    let mut outputs = 0;
    for (port, p) in ports.iter().enumerate() {
        let (direction, width) = (p.direction, p.width);
        let place = count_of(direction, inputs, outputs);
        add_socket(
            alloc,
            &mut sockets,
            p.name.as_slice(),
            Socket {
                port,
                direction,
                place,
                width,
            },
        )?;
        inputs += one_if_same(Direction::Input, direction);
        outputs += one_if_same(Direction::Output, direction);
    }
    Ok(sockets)
}

/// A design with the ports of its top by name.
pub fn top_of(alloc: Global, design: &Design) -> Result<Top<'_>, Memory>
    ensures is { IfOk result IsTop }
    ensures design { IfOk result (λ top. top.design.now ≡ design.now) }
{
    let sockets = sockets_of(alloc, design.ports.as_slice())?;
    Ok(Top { design, sockets })
}
