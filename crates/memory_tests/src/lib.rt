//! Tests of the crates of memory over their public calls: frames, tables, and the whole memory. They stand here and not in those
//! crates, so that these are proved once.
#![tactic(auto)]

#[cfg(test)]
mod entries_and_owners;
#[cfg(test)]
mod expecting;
#[cfg(test)]
mod frames;
#[cfg(test)]
mod memory;
#[cfg(test)]
mod spaces;
