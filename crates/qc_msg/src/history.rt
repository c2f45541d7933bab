//! The history of a run.

use crate::Entry;
use qc_list::List;

/// All that happened, oldest first.
pub type History = List<Entry>;
