//! Shells as stages.

use crate::given::Gated;
use crate::stage::Stage;
use chan_replayer::chan_monitor::Shell;
use chan_replayer::run_model::trace_model::Row;

impl<S: Shell> Stage<Gated> for S {
    ghost use Rattle.std.specs.Prelude.{length};
    ghost use Rattle.chan_replayer.specs.trace_model.Row.{row_before};

    ghost map = { S.map };

    ghost runs = { λ first s d state past here. S.runs s d state (row_before here (length here)) };

    ghost driven = { S.driven };

    ghost cycles = { λ _. 0 };

    ghost place = { S.place };

    type Own = ();

    ghost own = { λ _. tt };

    fn reset(&mut self) {
        Shell::reset(self);
    }

    fn drive(&mut self, given: &Gated, row: &mut Row) {
        Shell::drive(self, &given.offers, given.gates, row);
    }

    fn clock(&mut self) {
        Shell::clock(self);
    }
}
