//! Rows that tests of several crates want.

use run_reference::trace_model::Row;
use sample_designs::is_row;

/// The rows of the register stage with all gates up: `a` completes in rows 0 and 2, and `b` in rows 1 and 3. In row 1 the stage is
/// full, so the second content is offered again.
pub fn is_two_sends(rows: &[Row]) -> bool {
    rows.len() == 6
        && is_row(&rows[0], [3, 1, 3, 1, 1], &[5, 0])
        && is_row(&rows[1], [3, 3, 2, 3, 2], &[6, 5])
        && is_row(&rows[2], [3, 1, 3, 0, 1], &[6, 5])
        && is_row(&rows[3], [3, 2, 2, 2, 2], &[0, 6])
        && is_row(&rows[4], [3, 0, 3, 0, 0], &[0, 6])
        && is_row(&rows[5], [3, 0, 3, 0, 0], &[0, 6])
}
