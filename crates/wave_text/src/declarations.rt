//! The lines of nets, printed.

ghost use Rattle.std.specs.Prelude.{◌++◌, ◌∷◌, [], length, map};
ghost use Rattle.wave_text.specs.Names.{path_of};
ghost use Rattle.wave_text.specs.Text as said;

use crate::names::{apart, base_of, enter};
use crate::value_lines::print_id;
use crate::wave::WaveNet;
use text_page::{Page, print_number};

/// Prints the line that enters an instance.
fn print_scope<P: Page>(page: &mut P, name: &[u8])
    ensures { P.went page.old page.new (said.scope_line name.now ++ 10 ∷ []) }
{
    page.print(b"$scope module ");
    page.print(name);
    page.print(b" $end\n");
}

/// Prints the line that leaves an instance.
fn print_up<P: Page>(page: &mut P)
    ensures { P.went page.old page.new (said.up_line ++ 10 ∷ []) }
{
    page.print(b"$upscope $end\n");
}

/// Prints the lines that enter the instances on a name's path.
fn print_scopes<P: Page>(page: &mut P, name: &[u8])
    ensures { P.went page.old page.new (said.text_of (map said.scope_line (path_of name.now))) }
{
    let mut rest = name;
    while let Some((part, inside)) = enter(rest) {
        print_scope(page, part);
        rest = inside;
    }
}

/// Prints the lines that leave them.
fn print_ups<P: Page>(page: &mut P, name: &[u8])
    ensures { P.went page.old page.new (said.text_of (said.ups (length (path_of name.now)))) }
{
    let mut rest = name;
    while let Some((_, inside)) = enter(rest) {
        print_up(page);
        rest = inside;
    }
}

/// Prints the lines that lead from the instance of one net to that of another.
fn print_moves<P: Page>(page: &mut P, from: &[u8], to: &[u8])
    ensures { P.went page.old page.new (said.text_of (said.moves (path_of from.now) (path_of to.now))) }
{
    let (left, entered) = apart(from, to);
    print_ups(page, left);
    print_scopes(page, entered);
}

/// Prints the line that declares net `n`.
fn print_var<P: Page>(page: &mut P, n: usize, net: &WaveNet)
    ensures { P.went page.old page.new (said.var_line n net.now ++ 10 ∷ []) }
{
    page.print(b"$var wire ");
    print_number(page, net.width);
    page.print(b" ");
    print_id(page, n, b' ');
    page.print(base_of(net.name.as_slice()));
    page.print(b" $end\n");
}

/// Prints the lines of all nets, and the ends of their scopes.
fn print_nets<P: Page>(page: &mut P, nets: &[WaveNet])
    ensures { P.went page.old page.new (said.text_of (said.net_lines [] 0 nets.now)) }
{
    let mut at: &[u8] = b"";
    for (n, net) in nets.iter().enumerate() {
        print_moves(page, at, net.name.as_slice());
        print_var(page, n, net);
        at = net.name.as_slice();
    }
    print_up(page);
    print_ups(page, at);
}

/// Prints what stands before the rows: the lines of the time, of the top module and of the nets.
pub fn print_declarations<P: Page>(page: &mut P, top: &[u8], nets: &[WaveNet])
    ensures { P.went page.old page.new (said.text_of (said.declarations top.now nets.now)) }
{
    page.print(b"$timescale 1 ns $end\n");
    print_scope(page, top);
    print_nets(page, nets);
    page.print(b"$enddefinitions $end\n");
}
