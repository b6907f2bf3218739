//! The constant and the width of an expression, or the one reason why it has none (IEEE 1364-2005,
//! clauses 3.5 and 5; this project's profile).
#![tactic(auto)]

mod answers;
mod error;
mod evaluated;
mod facts;
mod laws;
mod length;
mod literal;
mod names;
mod operators;
mod scope;
mod size;
mod table;
mod value;

pub use answers::{constant, target_width, width};
pub use error::SizeError;
pub use facts::{Facts, Numbered, too_large};
pub use laws::{constants_are_lawful, lawful_scopes_pass_checks, widths_are_lawful};
pub use literal::literal_number;
pub use names::{View, checked, fixed, params_view, whole_view};
pub use operators::{Kind, is_wide, kind_of, operator_of, unary_operator_of};
pub use scope::{Const, Param, Params, Scope, ScopeMemories, ScopeMemory, ScopeNet, ScopeNets};
pub use size::{assigned_number, facts_of, numbered, prim_facts, target_facts};
pub use table::Table;
pub use value::const_number;
pub use vlog_tree::vidi_bits;
