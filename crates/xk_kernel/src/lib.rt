//! The kernel: it boots a plan, takes events and does the steps of the abstract machine, over pages in a modelled RAM. The
//! definitions stand in `specs/`.
#![tactic(auto)]

mod kernel;

pub use kernel::{Kernel, Stepped, SwapFault};
