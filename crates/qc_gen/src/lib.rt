//! Scripts of loads: so many transactions, one in each phase, in which the three
//! clients of `@three` take turns. Each writes a bit, reads it and commits.
//!
//! 1. A load's text is a function of its count and its seed: the bits come from a
//!    generator of numbers below 65,537 that begins with the seed. It has 46 bytes
//!    for each transaction (`load_script`).
//! 2. It is read over `@three` without a refusal, as one phase for each
//!    transaction (`loads_are_read`). So the top call can run a load as it runs
//!    any script.
//! 3. The work is linear in the count.
#![tactic(auto)]

mod laws;
mod load;

pub use laws::loads_are_read;
pub use load::load_script;
