//! Tests of the two files that a run is read from.
//!
//! Of declarations: which texts are accepted, the first fault of each other one,
//! and the built-in declarations. Of scripts: what each form of a line is read
//! as, the first fault of each other text, and what is told of it.
//!
//! They call what `qc_accept`, `qc_decl`, `qc_script` and `qc_report` offer to
//! all, and stand in a crate of their own, so that those crates aren't proved
//! once more with them. The values of scripts were written down by hand from the
//! grammar of lines, and a model that was written apart agrees with them.
#![tactic(auto)]

#[cfg(test)]
mod built_in;
#[cfg(test)]
mod causes;
#[cfg(test)]
mod documents;
#[cfg(test)]
mod fields;
#[cfg(test)]
mod forms;
#[cfg(test)]
mod limits;
#[cfg(test)]
mod names;
#[cfg(test)]
mod places;
#[cfg(test)]
mod reading;
#[cfg(test)]
mod spellings;
#[cfg(test)]
mod texts;
#[cfg(test)]
mod told;
#[cfg(test)]
mod words;
