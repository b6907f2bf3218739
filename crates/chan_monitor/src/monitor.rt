//! Monitors of single channels.

ghost use Rattle.std.specs.Prelude.{◌≡◌, ℕ, ◌&&◌, false, Option};
ghost use Rattle.run_model.specs.trace_model.declared.row.Row.{Row};
ghost use Rattle.run_model.specs.trace_model.Row.{flies_after, is_in_flight, IsMarked};
ghost use Rattle.chan_monitor.specs.Passing.{passed, stays, HasOn, IsPassed};

use std::marker::Model;

/// What a monitor makes of the gate, the source's valid and the sink's ready in a cycle (AMBA AXI4, A3.2.1).
#[derive(Clone, Copy, PartialEq, Eq)]
pub struct Passed {
    /// The valid that the sink sees.
    pub sink_valid: bool,
    /// The ready that the source sees.
    pub source_ready: bool,
    /// Whether a transaction starts.
    pub starts: bool,
    /// Whether a transaction completes.
    pub ends: bool,
}

/// The monitor of one channel. A contract sees it as whether a transaction is in flight: it has started and not completed.
#[derive(Drop)]
pub struct Monitor {
    in_flight: bool,
}

impl Model for Monitor {
    ghost use Rattle.std.specs.Prelude.{Bool};

    ghost Value = { Bool };

    ghost view = { λ m. m.in_flight };
}

/// Whether both hold.
fn both(a: bool, b: bool) -> bool
    ensures { result ≡ (a && b) }
{
    a && b
}

impl Monitor {
    /// A monitor of an idle channel.
    pub fn new() -> Monitor
        ensures { result ≡ false }
    {
        Monitor { in_flight: false }
    }

    /// What passes in a cycle. The sink sees the source's valid, and the source sees the sink's ready, only while the gate is
    /// up. A transaction starts where the sink sees a valid and none is in flight, and completes where the sink is ready for it.
    pub fn pass(&self, gate: bool, valid: bool, ready: bool) -> Passed
        ensures value { result ≡ passed self.now gate valid ready }
        ensures row { (before : Option Row) (row : Row) (c : ℕ) → IsMarked before row → HasOn row c gate valid ready
            → self.now ≡ flies_after before c → IsPassed row c result }
    {
        let sink_valid = both(valid, gate);
        Passed {
            sink_valid,
            source_ready: both(ready, gate),
            starts: both(sink_valid, !self.in_flight),
            ends: both(sink_valid, ready),
        }
    }

    /// Ends a cycle: a transaction is in flight afterwards where the sink saw a valid and didn't take it.
    pub fn commit(&mut self, gate: bool, valid: bool, ready: bool)
        ensures value { self.new ≡ stays gate valid ready }
        ensures row { (row : Row) (c : ℕ) → HasOn row c gate valid ready → self.new ≡ is_in_flight row c }
    {
        let passed = self.pass(gate, valid, ready);
        self.in_flight = both(passed.sink_valid, !passed.ends);
    }
}
