//! The scope of a module instance, and what is at fault in its constants and widths (IEEE 1364-2005,
//! 3.3, 4.10, 12.2 and clause 5; this project's profile).
//!
//! `specs/Extents` says what ranges make of names, `specs/Params` what the parameters of an instance
//! are, `specs/Scope` its parameters, nets and memories, and `specs/Faults` what is found of E5 and of
//! E6 in it, in text order.
#![tactic(auto)]

mod expressions;
mod extent;
mod fault;
mod faults;
mod items;
mod laws;
mod parameters;
mod scope;
mod statements;

pub use faults::{const_fault, is_faultless, width_fault};
pub use laws::faultless_scopes_are_lawful;
pub use scope::{declared_after, scope_of, top_scope, view_at, words_of};
