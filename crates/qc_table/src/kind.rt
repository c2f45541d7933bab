//! Types of objects.

use crate::relation::Relation;
use crate::table::Table;

/// A type: what it may answer, and on what its invocations depend.
#[derive(Drop)]
pub struct Kind {
    /// The rows.
    pub table: Table,
    /// The dependency relation.
    pub relation: Relation,
}
