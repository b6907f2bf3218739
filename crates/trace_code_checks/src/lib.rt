//! Tests of `trace_model`, `trace_store`, `vec_clock`, `trace_code`, `trace_v2`, `room_ledger` and `report_text`, which stand apart so that these crates
//! are proved without them.
#![tactic(auto)]

#[cfg(test)]
mod bytes_tests;
#[cfg(test)]
mod changed_tests;
#[cfg(test)]
mod changes;
#[cfg(test)]
mod clock_tests;
#[cfg(test)]
mod model_tests;
#[cfg(test)]
mod old_tests;
#[cfg(test)]
mod room_tests;
#[cfg(test)]
mod salvage_tests;
#[cfg(test)]
mod store_tests;
#[cfg(test)]
mod table_tests;
#[cfg(test)]
mod text_tests;
#[cfg(test)]
mod walk_tests;
