//! The environment of a design: what it offers on each channel, cycle by cycle (AMBA AXI4 IHI 0022, A3.2.1); and the script and the plan
//! of stalls, read from their texts (this project's profile).
//!
//! The definitions of the texts stand in `specs/`: `Forms` (what a line of a script says), `Reasons` (S1, S2 and S3 over a whole
//! script), `Reads` (the script of a text), `Fits` (a script fits channels), `Resets` (the times of resets), `Plan` (the
//! bytes that may drain in a cycle), `Stalls` (P1 and the plan of a text) and `ScriptOffer` (what a script offers after
//! rows). `ScriptLaws` says the offer sentence by sentence, and `OneReading` that of a text there is one script, or one
//! plan.
//!
//! The trait `Env` says what any environment means; `ScriptEnv` plays a script. `Offered` says what the offers of all channels are, as
//! masks and numbers, and `Laws` that they last.
#![tactic(auto)]

mod env;
mod error;
mod forms;
mod gathered;
mod lawful;
mod laws;
mod offers;
mod place;
mod reading;
mod readings;
mod resets;
mod said;
mod script;
mod script_env;
mod script_laws;
mod stall_lines;
mod stall_text;
mod stalls;
mod used;

pub use env::Env;
pub use error::{ScriptError, StallError};
pub use laws::{lasting_offers, script_lasts};
pub use offers::{gather, offers_over};
pub use reading::read_script;
pub use readings::{one_plan, one_script};
pub use resets::{first_reset_line, is_due};
pub use run_model;
pub use run_model::{chan_map, trace_model};
pub use script::{LATEST_RESET, Script, Step, StepLists, Steps};
pub use script_env::ScriptEnv;
pub use script_laws::{reach_is_as_said, the_greatest_decides};
pub use stall_text::read_stalls;
pub use stalls::{Drain, Drains, Stalls};
