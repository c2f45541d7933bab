//! A register over 0 and 1, which several tests are over.

use qc_table::{Row, Table, TableFault};
use std::alloc::Global;

fn row(state: u8, inv: u8, resp: u8, next: u8) -> Row {
    Row {
        state,
        inv,
        resp,
        next,
    }
}

/// The register's table: the invocations R, W0 and W1, the responses 0, 1 and
/// ok. Its events are R:0, R:1, W0:ok and W1:ok.
pub(crate) fn register(alloc: Global) -> Result<Table, TableFault> {
    let rows = [
        row(0, 0, 0, 0),
        row(1, 0, 1, 1),
        row(0, 1, 2, 0),
        row(1, 1, 2, 0),
        row(0, 2, 2, 1),
        row(1, 2, 2, 1),
    ];
    Table::new(alloc, 2, 3, 3, 0, &rows)
}
