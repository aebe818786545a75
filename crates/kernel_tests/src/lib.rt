//! Tests of a kernel, of its tables, and of searches, over their public calls. They stand here and not in those crates, so that these are
//! proved once.
#![tactic(auto)]

#[cfg(test)]
mod claims;
#[cfg(test)]
mod expecting;
#[cfg(test)]
mod first_run;
#[cfg(test)]
mod loan_runs;
#[cfg(test)]
mod loans;
#[cfg(test)]
mod orders;
#[cfg(test)]
mod processes;
#[cfg(test)]
mod queues;
#[cfg(test)]
mod ring;
#[cfg(test)]
mod servers;
#[cfg(test)]
mod slots;
#[cfg(test)]
mod small_space;
#[cfg(test)]
mod state;
#[cfg(test)]
mod threads;
