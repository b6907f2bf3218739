//! The initialisers of an instance's registers (IEEE 1364-2005, 4.2.2).

ghost use Rattle.std.specs.Prelude.{◌≡◌, ℕ, ◌∷◌, [], OnOk, IfOk, map};
ghost use Rattle.std.specs.List.{flat_map};
ghost use Rattle.vlog_tree.specs.Tree.{PortOf, Reg1Of};
ghost use Rattle.vlog_tree.specs.Plain.{plain_module, plain_item, plain_ident, plain_expr, plain_port, plain_reg};
ghost use Rattle.flat_parts.specs.vlog_size.Table.{added, value_of};
ghost use Rattle.flat_parts.specs.vlog_driver.Placed.{Placed, placed, names_at};
ghost use Rattle.flat_parts.specs.vlog_driver.Next.{net_width, initial_at, port_initials, reg_initials, item_initials, initials};
ghost use Rattle.flat_registers.specs.Tables.{with_entries};

use flat_parts::vidi_bits::{Memory, Name, copied};
use flat_parts::vlog_scope::{declared_after, view_at};
use flat_parts::vlog_size::{Scope, Table, assigned_number, checked, fixed};
use std::alloc::Global;
use vlog_tree::{Expr, Ident, Item, Module, Port, Reg1, RegTail};

/// The width of the net of this name, 0 where there is none.
fn net_width(scope: &Scope, name: &[u8]) -> u32
    ensures { result ≡ net_width (value_of scope.now.nets name.now) }
{
    match scope.nets.get(name) {
        Some(net) => net.width,
        None => 0,
    }
}

/// The number that an initialiser gives to its register, where the names of the first `declared` parameters stand before it. `Memory`
/// also where the register hasn't 1 to 128 bits.
fn initial_of(scope: &Scope, declared: usize, id: &Ident, e: &Expr) -> Result<u128, Memory>
    ensures { IfOk result (λ x. x ≡ (initial_at (names_at scope.now declared) scope.now (plain_ident id.now) (plain_expr e.now)).value) }
{
    let width = net_width(scope, id.name.as_slice());
    if width == 0 || 128 < width {
        return Err(Memory);
    }
    let view = checked(&view_at(scope, declared));
    let number = assigned_number(&fixed(&view), e, width);
    Ok(number.unwrap_or(0))
}

/// Adds a name and its number; a name that is there keeps its number.
fn declare(alloc: Global, table: &mut Table<u128>, name: &Name, number: u128) -> Result<(), Memory>
    ensures { OnOk result (table.new ≡ added table.old name.now number) }
{
    let copy = copied(alloc, name.as_slice())?;
    table.push(copy, number)
}

/// Adds an initialiser.
fn add_initial(
    alloc: Global,
    scope: &Scope,
    declared: usize,
    id: &Ident,
    e: &Expr,
    numbers: &mut Table<u128>,
) -> Result<(), Memory>
    ensures { OnOk result (numbers.new
        ≡ with_entries numbers.old (initial_at (names_at scope.now declared) scope.now (plain_ident id.now) (plain_expr e.now) ∷ [])) }
{
    let number = initial_of(scope, declared, id, e)?;
    declare(alloc, numbers, &id.name, number)
}

/// Adds that of a port, where it has one.
fn add_port(
    alloc: Global,
    scope: &Scope,
    declared: usize,
    port: &Port,
    numbers: &mut Table<u128>,
) -> Result<(), Memory>
    ensures { OnOk result (numbers.new ≡ with_entries numbers.old
        (port_initials (names_at scope.now declared) scope.now (plain_port port.now).id (plain_port port.now).init)) }
{
    match &port.init {
        Some(e) => add_initial(alloc, scope, declared, &port.id, e, numbers),
        None => Ok(()),
    }
}

/// Adds those of ports.
fn add_ports(
    alloc: Global,
    scope: &Scope,
    declared: usize,
    ports: &[Port],
    numbers: &mut Table<u128>,
) -> Result<(), Memory>
    ensures { OnOk result (numbers.new ≡ with_entries numbers.old
        (flat_map (λ (p : PortOf ℕ). port_initials (names_at scope.now declared) scope.now p.id p.init) (map plain_port ports.now))) }
{
    for port in ports {
        add_port(alloc, scope, declared, port, numbers)?;
    }
    Ok(())
}

/// Adds that of a register, where it has one.
fn add_reg(
    alloc: Global,
    scope: &Scope,
    declared: usize,
    reg: &Reg1,
    numbers: &mut Table<u128>,
) -> Result<(), Memory>
    ensures { OnOk result (numbers.new ≡ with_entries numbers.old
        (reg_initials (names_at scope.now declared) scope.now (plain_reg reg.now).id (plain_reg reg.now).tail)) }
{
    match &reg.tail {
        Some(RegTail::Init(e)) => add_initial(alloc, scope, declared, &reg.id, e, numbers),
        Some(RegTail::Memory(_)) => Ok(()),
        None => Ok(()),
    }
}

/// Adds those of registers.
fn add_regs(
    alloc: Global,
    scope: &Scope,
    declared: usize,
    regs: &[Reg1],
    numbers: &mut Table<u128>,
) -> Result<(), Memory>
    ensures { OnOk result (numbers.new ≡ with_entries numbers.old
        (flat_map (λ (g : Reg1Of ℕ). reg_initials (names_at scope.now declared) scope.now g.id g.tail) (map plain_reg regs.now))) }
{
    for reg in regs {
        add_reg(alloc, scope, declared, reg, numbers)?;
    }
    Ok(())
}

/// Adds those of an item.
fn add_item(
    alloc: Global,
    scope: &Scope,
    declared: usize,
    item: &Item,
    numbers: &mut Table<u128>,
) -> Result<(), Memory>
    ensures { OnOk result (numbers.new ≡ with_entries numbers.old
        (item_initials (names_at scope.now declared) scope.now (plain_item item.now))) }
{
    match item {
        Item::Regs { range: _, regs } => {
            add_regs(alloc, scope, declared, regs.as_slice(), numbers)
        }
        _ => Ok(()),
    }
}

/// Adds those of items, where the names of the first `declared` parameters stand before the first.
fn add_items(
    alloc: Global,
    scope: &Scope,
    declared: usize,
    items: &[Item],
    numbers: &mut Table<u128>,
) -> Result<(), Memory>
    ensures { OnOk result (numbers.new ≡ with_entries numbers.old
        (flat_map (λ (p : Placed). item_initials (names_at scope.now p.declared) scope.now p.item)
        (placed scope.now.params declared (map plain_item items.now)))) }
{
    let mut count = declared;
    for item in items {
        add_item(alloc, scope, count, item, numbers)?;
        count = declared_after(scope, count, item);
    }
    Ok(())
}

/// The initialisers of an instance of a module, by name; of a name that stands twice the first.
#[tactic(auto, using(crate::proofs::Tables::entries_append))]
pub fn initials_of(alloc: Global, module: &Module, scope: &Scope) -> Result<Table<u128>, Memory>
    ensures { IfOk result (λ t. t ≡ with_entries [] (initials (plain_module «module».now) scope.now)) }
{
    let mut numbers = Table::new(alloc);
    add_ports(
        alloc,
        scope,
        scope.declared,
        module.ports.as_slice(),
        &mut numbers,
    )?;
    add_items(
        alloc,
        scope,
        scope.declared,
        module.items.as_slice(),
        &mut numbers,
    )?;
    Ok(numbers)
}
