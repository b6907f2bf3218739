//! What modules declare, and the names that stand twice.

ghost use Rattle.std.specs.Prelude.{◌≡◌, ◌++◌, ◌∷◌, [], OnOk, IfOk, map, option_map};
ghost use Rattle.std.specs.List.{flat_map};
ghost use Rattle.vlog_tree.specs.Plain.{plain, plain_module, plain_item, plain_instance, plain_conn, plain_ident, plain_named};
ghost use Rattle.vlog_tree.specs.Tree.{InstanceItem};
ghost use Rattle.vlog_tree.specs.Plain.{plain_parameter, plain_port, plain_head, plain_reg, plain_tail, plain_range};
ghost use Rattle.vlog_names.specs.Entries.{shape_of, port_as, no_port, reg_as, parameter_entry, port_entries, ident_entry};
ghost use Rattle.vlog_names.specs.Entries.{value_entry, reg_entry, item_entries, declared, modules_of, header_entries, module_entry};
ghost use Rattle.vlog_names.specs.Twice.{twice_name, twice_among, twice_connected, twice_item, twice_items, twice_in, twice_names};
ghost use Rattle.vlog_size.specs.vidi_bits.Findings.{Judged};
ghost use Rattle.vlog_names.specs.Told.{name_told};

use crate::declaration::{Declaration, Declarations, ModuleTable, Shape};
use crate::error::NameError;
use crate::table::{check_new, declare};
use std::alloc::Global;
use vlog_size::Table;
use vlog_size::vidi_bits::copied;
use vlog_tree::{
    Conn, Direction, File, Ident, Instance, Item, Module, NamedValue, Parameter, Port, PortHead,
    Range, Reg1, RegTail,
};

fn shape_of(range: &Option<Range>) -> Shape
    ensures { result ≡ shape_of (option_map plain_range range.now) }
{
    match range {
        None => Shape::Scalar,
        Some(_) => Shape::Vector,
    }
}

/// What a port is declared as, behind one that is declared as `before`.
fn port_as(before: Declaration, head: &Option<PortHead>) -> Declaration
    ensures { result ≡ port_as before (option_map plain_head head.now) }
{
    match head {
        None => before,
        Some(head) => Declaration::Port {
            direction: head.direction,
            shape: shape_of(&head.range),
        },
    }
}

fn reg_as(shape: Shape, tail: &Option<RegTail>) -> Declaration
    ensures { result ≡ reg_as shape (option_map plain_tail tail.now) }
{
    match tail {
        None => Declaration::Reg { shape },
        Some(RegTail::Init(_)) => Declaration::Reg { shape },
        Some(RegTail::Memory(_)) => Declaration::Memory { shape },
    }
}

fn declare_parameters(
    alloc: Global,
    names: &mut Declarations,
    parameters: &[Parameter],
) -> Result<(), NameError>
    ensures told { Judged name_told result (twice_among names.old (map parameter_entry (map plain_parameter parameters.now))) }
    ensures kept { OnOk result (names.new ≡ names.old ++ map parameter_entry (map plain_parameter parameters.now)) }
{
    for parameter in parameters {
        declare(alloc, names, &parameter.id.name, Declaration::Parameter)?;
    }
    Ok(())
}

fn declare_ports(alloc: Global, names: &mut Declarations, ports: &[Port]) -> Result<(), NameError>
    ensures told { Judged name_told result (twice_among names.old (port_entries no_port (map plain_port ports.now))) }
    ensures kept { OnOk result (names.new ≡ names.old ++ port_entries no_port (map plain_port ports.now)) }
{
    let mut before = Declaration::Port {
        direction: Direction::Input { wire: false },
        shape: Shape::Scalar,
    };
    for port in ports {
        before = port_as(before, &port.head);
        declare(alloc, names, &port.id.name, before)?;
    }
    Ok(())
}

fn declare_names(
    alloc: Global,
    names: &mut Declarations,
    idents: &[Ident],
    what: Declaration,
) -> Result<(), NameError>
    ensures told { Judged name_told result (twice_among names.old (map (ident_entry what) (map plain_ident idents.now))) }
    ensures kept { OnOk result (names.new ≡ names.old ++ map (ident_entry what) (map plain_ident idents.now)) }
{
    for ident in idents {
        declare(alloc, names, &ident.name, what)?;
    }
    Ok(())
}

fn declare_named(
    alloc: Global,
    names: &mut Declarations,
    values: &[NamedValue],
    what: Declaration,
) -> Result<(), NameError>
    ensures told { Judged name_told result (twice_among names.old (map (value_entry what) (map plain_named values.now))) }
    ensures kept { OnOk result (names.new ≡ names.old ++ map (value_entry what) (map plain_named values.now)) }
{
    for value in values {
        declare(alloc, names, &value.id.name, what)?;
    }
    Ok(())
}

fn declare_regs(
    alloc: Global,
    names: &mut Declarations,
    regs: &[Reg1],
    shape: Shape,
) -> Result<(), NameError>
    ensures told { Judged name_told result (twice_among names.old (map (reg_entry shape) (map plain_reg regs.now))) }
    ensures kept { OnOk result (names.new ≡ names.old ++ map (reg_entry shape) (map plain_reg regs.now)) }
{
    for reg in regs {
        let what = reg_as(shape, &reg.tail);
        declare(alloc, names, &reg.id.name, what)?;
    }
    Ok(())
}

/// Refuses a name that stands twice in one list of connections.
fn check_connected(alloc: Global, conns: &[Conn]) -> Result<(), NameError>
    ensures { Judged name_told result (twice_connected (map plain_conn conns.now)) }
{
    let mut seen: Table<()> = Table::new(alloc);
    for conn in conns {
        declare(alloc, &mut seen, &conn.id.name, ())?;
    }
    Ok(())
}

fn declare_instance(
    alloc: Global,
    names: &mut Declarations,
    instance: &Instance,
) -> Result<(), NameError>
    ensures told { Judged name_told result (twice_item names.old (InstanceItem (plain_instance instance.now))) }
    ensures kept { OnOk result (names.new ≡ names.old ++ item_entries (InstanceItem (plain_instance instance.now))) }
{
    check_connected(alloc, instance.parameters.as_slice())?;
    declare(alloc, names, &instance.id.name, Declaration::Instance)?;
    check_connected(alloc, instance.ports.as_slice())
}

fn declare_item(alloc: Global, names: &mut Declarations, item: &Item) -> Result<(), NameError>
    ensures told { Judged name_told result (twice_item names.old (plain_item item.now)) }
    ensures kept { OnOk result (names.new ≡ names.old ++ item_entries (plain_item item.now)) }
{
    match item {
        Item::Wires {
            range,
            names: idents,
        } => {
            let what = Declaration::Wire {
                shape: shape_of(range),
            };
            declare_names(alloc, names, idents.as_slice(), what)
        }
        Item::DrivenWires { range, wires } => {
            let what = Declaration::Wire {
                shape: shape_of(range),
            };
            declare_named(alloc, names, wires.as_slice(), what)
        }
        Item::Regs { range, regs } => {
            declare_regs(alloc, names, regs.as_slice(), shape_of(range))
        }
        Item::Localparams {
            range: _,
            parameters,
        } => { declare_named(alloc, names, parameters.as_slice(), Declaration::Localparam) }
        Item::Assign { assigns: _ } | Item::Always(_) => Ok(()),
        Item::Instance(instance) => declare_instance(alloc, names, instance),
    }
}

fn declare_items(alloc: Global, names: &mut Declarations, items: &[Item]) -> Result<(), NameError>
    ensures told { Judged name_told result (twice_items names.old (map plain_item items.now)) }
    ensures kept { OnOk result (names.new ≡ names.old ++ flat_map item_entries (map plain_item items.now)) }
{
    for item in items {
        declare_item(alloc, names, item)?;
    }
    Ok(())
}

/// What the header of a module declares.
#[tactic(auto, using(crate::proofs::Twice::twice_append))]
fn header_of(alloc: Global, module: &Module) -> Result<Declarations, NameError>
    ensures told { Judged name_told result (twice_among [] (header_entries (plain_module «module».now))) }
    ensures kept { IfOk result (λ names. names ≡ header_entries (plain_module «module».now)) }
{
    let mut names = Table::new(alloc);
    declare_parameters(alloc, &mut names, module.parameters.as_slice())?;
    declare_ports(alloc, &mut names, module.ports.as_slice())?;
    Ok(names)
}

/// What a module declares.
#[tactic(auto, unfolding(crate::specs::Twice::twice_in, crate::specs::Entries::declared))]
fn declarations_of(alloc: Global, module: &Module) -> Result<Declarations, NameError>
    ensures told { Judged name_told result (twice_in (plain_module «module».now)) }
    ensures kept { IfOk result (λ names. names ≡ declared (plain_module «module».now)) }
{
    let mut names = header_of(alloc, module)?;
    declare_items(alloc, &mut names, module.items.as_slice())?;
    Ok(names)
}

/// Adds what a module declares.
fn declare_module(
    alloc: Global,
    modules: &mut ModuleTable,
    module: &Module,
) -> Result<(), NameError>
    ensures told { Judged name_told result (twice_name modules.old (plain_module «module».now).name ++ twice_in (plain_module «module».now)) }
    ensures kept { OnOk result (modules.new ≡ modules.old ++ module_entry (plain_module «module».now) ∷ []) }
{
    check_new(alloc, modules, &module.name)?;
    let names = declarations_of(alloc, module)?;
    let name = copied(alloc, module.name.as_slice())?;
    modules.push(name, names)?;
    Ok(())
}

/// The modules of a file, with what each declares.
#[tactic(auto, unfolding(crate::specs::Twice::twice_names, crate::specs::Entries::modules_of))]
pub fn modules_of(alloc: Global, file: &File) -> Result<ModuleTable, NameError>
    ensures told { Judged name_told result (twice_names (plain file.now)) }
    ensures kept { IfOk result (λ modules. modules ≡ modules_of (plain file.now)) }
{
    let mut modules = Table::new(alloc);
    for module in file.modules.as_slice() {
        declare_module(alloc, &mut modules, module)?;
    }
    Ok(modules)
}
