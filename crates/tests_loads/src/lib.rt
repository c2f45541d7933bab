//! Tests of loads: the texts of some, and the summaries of histories. What they
//! want comes from a model that was written apart.
#![tactic(auto)]

#[cfg(test)]
mod summaries;
#[cfg(test)]
mod texts;
