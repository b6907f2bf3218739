//! Rows, runs and replays of a design as definitions.
//!
//! The definitions stand in `specs/`: `MapOf` (a map of a design), `Pins` (what a cycle enters at the input pins), `Step` (the
//! row that a state shows, and the state after it), `Offers` (what the environment's part of a row is), `Played` (rows that a
//! design shows under a rule), `Run`, `Replay`, `Held` (what a replay that hasn't ended waits for), `Alike` (designs that no map
//! and no run can tell apart) and `Stretches` (runs and replays with resets in mid-run). `Laws` says what follows for runs and
//! replays, `AlikeLaws` for designs that are alike; what follows in stretches is in `run_laws`.
#![tactic(auto)]

mod alike;
mod held;
mod laws;
mod pins;

pub use alike::{driven_alike, maps_alike, one_end, runs_alike};
pub use chan_map;
pub use chan_map::{trace_model, vidi_bits, vidi_lines};
pub use held::{Await, Awaits, Held, Helds};
pub use laws::{
    bound_is_map_of, no_circle, one_replay, one_run, order_in_the_output, replay_keeps_contents,
    run_keeps_contents,
};
pub use pins::{PinNumber, PinNumbers};
