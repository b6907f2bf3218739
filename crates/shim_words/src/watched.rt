//! Wrapped designs whose nets are read.

ghost use Rattle.shim_runs.specs.trace_model.declared.row.Row.{Row as OneRow};

use shim_runs::chan_monitor::Shell;
use shim_runs::net_sim::Sim;
use shim_runs::shim_cosim::{RecordShell, Wrapped};
use shim_runs::trace_model::{Offers, Row};
use shim_runs::vidi_bits::Items;
use shim_runs::vidi_io::Text;

/// A wrapped design whose nets are read in each cycle.
#[derive(Drop)]
pub(crate) struct Watched<'a> {
    pub shell: Wrapped<'a>,
    /// The full names of the nets.
    pub names: &'a [Text],
    /// Their numbers in the last `drive`, None where no net has the name.
    pub numbers: Items<Option<u128>>,
    /// How many drives there were.
    pub drives: u32,
}

/// Reads these nets.
fn read_nets(shell: &Wrapped, names: &[Text], numbers: &mut [Option<u128>])
    requires { (row : OneRow) × ⟦<RecordShell<'static, Sim> as Shell>⟧.driven shell.now row }
{
    for (k, name) in names.iter().enumerate() {
        if k < numbers.len() {
            numbers[k] = shell.net(name.as_str().as_bytes());
        }
    }
}

impl<'a> Shell for Watched<'a> {
    ghost map = { λ w. ⟦<RecordShell<'static, Sim> as Shell>⟧.map w.shell };

    ghost runs = { λ w. ⟦<RecordShell<'static, Sim> as Shell>⟧.runs w.shell };

    ghost place = { λ w. ⟦<RecordShell<'static, Sim> as Shell>⟧.place w.shell };

    ghost driven = { λ w. ⟦<RecordShell<'static, Sim> as Shell>⟧.driven w.shell };

    fn reset(&mut self) {
        self.shell.reset();
    }

    fn drive(&mut self, offers: &Offers, gates: u128, row: &mut Row) {
        self.shell.drive(offers, gates, row);
        read_nets(&self.shell, self.names, self.numbers.as_mut_slice());
        self.drives = self.drives.wrapping_add(1);
    }

    fn clock(&mut self) {
        self.shell.clock();
    }

    ghost running = { λ w. w.shell.running };

    ghost ready = { λ w d state before runs. runs.round.mapped };
}
