//! Shells whose rows are watched.

ghost use Rattle.std.specs.Prelude.{◌≡◌};

use replay_run::chan_replayer::{Feed, ReplayShell};
use run_reference::trace_model::Row;

/// Whether both rows are the same.
pub(crate) fn are_same(a: &Row, b: &Row) -> bool {
    let masks = a.gates == b.gates && a.valids == b.valids && a.readies == b.readies;
    let events = a.starts == b.starts && a.ends == b.ends;
    a.fresh == b.fresh && masks && events && a.contents.as_slice() == b.contents.as_slice()
}

/// Whether a row is the one at this place.
fn is_at(rows: &[Row], at: usize, row: &Row) -> bool {
    match rows.get(at) {
        Some(due) => are_same(row, due),
        None => false,
    }
}

/// Whether the row at this place is the first one behind a reset in mid-run.
fn is_fresh_at(rows: &[Row], at: usize) -> bool {
    match rows.get(at) {
        Some(row) => row.fresh,
        None => false,
    }
}

/// A shell whose rows from a reset on are compared with given ones, over the resets in mid-run that these show.
#[derive(Drop)]
pub(crate) struct Watched<'a, S: ReplayShell> {
    shell: &'a mut S,
    rows: &'a [Row],
    at: usize,
    /// Each row was the given one so far.
    pub(crate) same: bool,
}

impl<'a, S: ReplayShell> Watched<'a, S> {
    /// A shell that will be reset, for as long as it is borrowed.
    pub(crate) fn new(shell: &'a mut S, rows: &'a [Row]) -> Watched<'a, S>
        ensures same { result.shell.ghost_name ≡ shell.entry.ghost_name }
        ensures shell { result.shell.now ≡ shell.old }
    {
        Watched {
            shell,
            rows,
            at: 0,
            same: true,
        }
    }
}

impl<'a, S: ReplayShell> ReplayShell for Watched<'a, S> {
    ghost map = { λ w. S.map w.shell.now };

    ghost runs = { λ w. S.runs w.shell.now };

    ghost cycles = { λ w. S.cycles w.shell.now };

    ghost driven = { λ w. S.driven w.shell.now };

    fn reset(&mut self) {
        self.shell.reset();
        if !is_fresh_at(self.rows, self.at) {
            self.at = 0;
        }
    }

    fn drive(&mut self, feed: &Feed, row: &mut Row) {
        self.shell.drive(feed, row);
        self.same &= is_at(self.rows, self.at, row);
    }

    fn clock(&mut self) {
        self.shell.clock();
        self.at = self.at.wrapping_add(1);
    }

    ghost running = { λ w. S.running w.shell.now };

    ghost ready = { λ w. S.ready w.shell.now };
}
