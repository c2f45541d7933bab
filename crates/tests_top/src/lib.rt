//! Tests of the top call by its public calls alone, over a shelf, a sink and a rack
//! in memory: whole runs, each a story with its text, by one worker and by four, and
//! calls that end otherwise.
//! What they want comes from outside.
#![tactic(auto)]

#[cfg(test)]
mod appends;
#[cfg(test)]
mod calls;
#[cfg(test)]
mod declarations;
#[cfg(test)]
mod disks;
#[cfg(test)]
mod edges;
#[cfg(test)]
mod ends;
#[cfg(test)]
mod epochs;
#[cfg(test)]
mod falls;
#[cfg(test)]
mod histories;
#[cfg(test)]
mod kept;
#[cfg(test)]
mod loads;
#[cfg(test)]
mod losses;
#[cfg(test)]
mod overtaking;
#[cfg(test)]
mod racks;
#[cfg(test)]
mod room;
#[cfg(test)]
mod rot;
#[cfg(test)]
mod stories;
#[cfg(test)]
mod torn;
