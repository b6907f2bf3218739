//! The commands `check`, `run` and `record` of `vidi`. `specs/Checks`, `Runs` and `Records` have what each owes.
#![tactic(auto)]

mod checking;
mod recording;
mod running;

pub use bench_run;
pub use checking::check;
pub use net_sim;
pub use net_sim::net_order;
pub use recording::{Planned, plan_texts, record, record_file, record_sim, store_of, told};
pub use running::run;
pub use vidi_bench;
pub use vidi_recorder;
