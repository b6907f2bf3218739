//! What kind each net of the flat design is.

ghost use Rattle.std.specs.Prelude.{◌≡◌, ◌++◌, ◌||◌, true, map, IfOk, OnOk};
ghost use Rattle.std.specs.List.{list_any};
ghost use Rattle.std.specs.Str.{bytes_eq};
ghost use Rattle.flat_parts.specs.vidi_bits.Findings.{told_if};
ghost use Rattle.vlog_tree.specs.Plain.{plain_port, plain_module};
ghost use Rattle.flat_parts.specs.vlog_elab.Plain.{plain_instances};
ghost use Rattle.flat_parts.specs.vlog_driver.Names.{Name};
ghost use Rattle.flat_parts.specs.Seats.{seats_of};
ghost use Rattle.flat_parts.specs.Marks.{reg_marks};
ghost use Rattle.flat_drive.specs.Kinds.{kind_if, flat_kinds};
ghost use Rattle.flat_drive.specs.Marked.{IsInputTable, inputs_after, is_listed, is_pin, kinds_from};

use flat_parts::net_drive::NetKind;
use flat_parts::vidi_bits::{Items, Memory, copied};
use flat_parts::vlog_elab::ModuleInstance;
use flat_parts::vlog_names::input_after;
use flat_parts::vlog_size::{ScopeNets, Table};
use std::alloc::Global;
use vlog_tree::{Module, Port};

/// Adds the name of a port that is an input.
fn add_input(
    alloc: Global,
    is_input: bool,
    port: &Port,
    inputs: &mut Table<bool>,
) -> Result<(), Memory>
    ensures { OnOk result ((name : Name) → is_listed inputs.new name
        ≡ (is_listed inputs.old name || list_any (bytes_eq name) (told_if is_input (plain_port port.now).id.name))) }
{
    if is_input {
        let name = copied(alloc, port.id.name.as_slice())?;
        inputs.push(name, true)?;
    }
    Ok(())
}

/// The names of the inputs among ports.
fn inputs_among(alloc: Global, ports: &[Port]) -> Result<Table<bool>, Memory>
    ensures { IfOk result (λ inputs. (name : Name) → is_listed inputs name
        ≡ list_any (bytes_eq name) (inputs_after true (map plain_port ports.now))) }
{
    let mut inputs = Table::new(alloc);
    let mut before = true;
    for port in ports {
        before = input_after(before, &port.head);
        add_input(alloc, before, port, &mut inputs)?;
    }
    Ok(inputs)
}

/// The names of a module's inputs.
fn inputs_of(alloc: Global, tree: &Module) -> Result<Table<bool>, Memory>
    ensures { IfOk result (λ inputs. IsInputTable (plain_module tree.now) inputs) }
{
    inputs_among(alloc, tree.ports.as_slice())
}

/// Whether the pins drive the net at this place of the top.
fn is_pin(inputs: &Table<bool>, nets: &ScopeNets, place: usize) -> bool
    ensures { result ≡ is_pin inputs.now nets.now place }
{
    match nets.name_at(place) {
        Some(name) => inputs.get(name).is_some(),
        None => false,
    }
}

fn kind_if(pin: bool, reg: bool) -> NetKind
    ensures { result ≡ kind_if pin reg }
{
    if pin {
        return NetKind::Pin;
    }
    if reg { NetKind::Reg } else { NetKind::Wire }
}

/// The kinds of nets that are regs or aren't.
fn kinds_with(
    alloc: Global,
    inputs: &Table<bool>,
    nets: &ScopeNets,
    marks: &[bool],
) -> Result<Items<NetKind>, Memory>
    ensures { IfOk result (λ kinds. kinds ≡ kinds_from (is_pin inputs.now nets.now) 0 marks.now) }
{
    let mut kinds = Items::new(alloc);
    for (place, mark) in marks.iter().enumerate() {
        let pin = is_pin(inputs, nets, place);
        kinds.push(kind_if(pin, *mark))?;
    }
    Ok(kinds)
}

/// The kinds of the nets of all instances, which are regs where they are marked.
pub fn kinds(
    alloc: Global,
    list: &[ModuleInstance<'_>],
    marks: &[bool],
) -> Result<Items<NetKind>, Memory>
    requires { marks.now ≡ reg_marks (seats_of (plain_instances list.now)) }
    ensures { IfOk result (λ kinds. kinds ≡ flat_kinds (seats_of (plain_instances list.now))) }
{
    match list.first() {
        Some(top) => {
            let inputs = inputs_of(alloc, top.tree)?;
            kinds_with(alloc, &inputs, &top.scope.nets, marks)
        }
        None => Ok(Items::new(alloc)),
    }
}
