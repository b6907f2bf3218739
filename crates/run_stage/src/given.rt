//! What stages are given.

ghost use Rattle.std.specs.Prelude.{List};
ghost use Rattle.chan_replayer.specs.trace_model.declared.channel.Channel.{Channel};
ghost use Rattle.chan_replayer.specs.trace_model.declared.row.Row.{Row};

use chan_replayer::Feed;
use chan_replayer::run_model::trace_model::Offers;

/// What a stage is given in a cycle.
pub trait Given {
    /// It may be given on these channels.
    ghost fits: { List Channel → Self → Type 0 };

    /// On these channels, after these rows, this row may be shown for it.
    ghost allows: { List Channel → Self → List Row → Row → Type 0 };
}

/// What is offered in a cycle, and the gates that are up.
#[derive(Drop)]
pub struct Gated {
    pub offers: Offers,
    /// Bit c is the gate of channel c.
    pub gates: u128,
}

impl Given for Gated {
    ghost use Rattle.run_stage.specs.Given.{FitsGates, IsGatedRow};

    ghost fits = { FitsGates };

    ghost allows = { λ channels given _ row. IsGatedRow channels given row };
}

impl Given for Feed {
    ghost use Rattle.chan_replayer.specs.Feed.{IsFeedOver};
    ghost use Rattle.run_stage.specs.Given.{IsFedRow};

    ghost fits = { IsFeedOver };

    ghost allows = { IsFedRow };
}
