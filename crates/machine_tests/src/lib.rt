//! Tests of the machine's crates over their public calls: words of instructions, the hart and its atomics, the timer's page,
//! refusals, and accesses to pages of a ledger. They stand here and not in those crates, so that these are proved once.
#![tactic(auto)]

#[cfg(test)]
mod atomics;
#[cfg(test)]
mod expecting;
#[cfg(test)]
mod hart;
#[cfg(test)]
mod ledger;
#[cfg(test)]
mod memory;
#[cfg(test)]
mod refusals;
#[cfg(test)]
mod timer;
#[cfg(test)]
mod words;
