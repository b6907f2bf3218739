//! How rows are compared.

use run_model::trace_model::Row;

/// Whether a row has these gates, valids, readies, starts and ends, and these contents, and isn't fresh.
pub fn is_row(row: &Row, masks: [u128; 5], contents: &[u128]) -> bool {
    !row.fresh
        && [row.gates, row.valids, row.readies, row.starts, row.ends] == masks
        && row.contents.as_slice() == contents
}
