//! Scripts over three sites and three clients, each with the steps that the rules
//! call for where one input is served at a time, as a model gives them that was
//! written apart from this repository.

use crate::steps::Short;

pub(crate) mod changes;
mod conflicts;
mod copies;
mod falls;
mod links;
mod losses;

/// A script and its steps.
#[derive(Clone, Copy)]
pub(crate) struct Row {
    /// What it shows.
    pub(crate) name: &'static str,
    /// The script.
    pub(crate) script: &'static [u8],
    /// Each step: the actor, the kind's letter, and the number of the phase or
    /// message, or 0.
    pub(crate) steps: &'static [Short],
}

/// The rows over `@three`, by what they are about.
pub(crate) const ROWS: [&[Row]; 4] = [&conflicts::ROWS, &losses::ROWS, &links::ROWS, &falls::ROWS];
