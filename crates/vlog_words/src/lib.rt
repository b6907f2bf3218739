//! What the words of a case ask for of a Verilog text, and no command of `vidi` prints: expressions, targets, blocks, trees and tokens.
//! docs/CASES.md has the words.
#![tactic(auto)]

mod answers;
mod blocks;
mod ended;
mod expr_notes;
mod expressions;
mod file_notes;
mod files;
mod names;
mod notes;
mod stmt_notes;
mod tables;
mod texts;

pub use answers::answer;
pub use ended::Ended;
pub use net_reference;
pub use report_text;
pub use report_text::{vidi_io, vidi_lines};
pub use tables::entry_of;
pub use texts::{lines_in, number_in, tree_in};
