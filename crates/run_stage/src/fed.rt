//! Replay shells as stages.

use crate::stage::Stage;
use chan_replayer::run_model::trace_model::Row;
use chan_replayer::{Feed, ReplayShell};

impl<S: ReplayShell> Stage<Feed> for S {
    ghost use Rattle.std.specs.Prelude.{None};

    ghost map = { S.map };

    ghost runs = { λ first s d state past here. S.runs s d state here };

    ghost driven = { S.driven };

    ghost cycles = { S.cycles };

    ghost place = { λ _. None };

    type Own = ();

    ghost own = { λ _. tt };

    fn reset(&mut self) {
        ReplayShell::reset(self);
    }

    fn drive(&mut self, given: &Feed, row: &mut Row) {
        ReplayShell::drive(self, given, row);
    }

    fn clock(&mut self) {
        ReplayShell::clock(self);
    }
}
