//! The program's commands: words in, a status and what the command writes out. `run_program` is the whole program except the
//! headline, which `xous_main` of `xousim` has in its contract.
#![tactic(auto)]

mod commands;
mod notes;
mod status;
mod top;

pub use commands::states::STATE_LIMIT;
pub use notes::write_note;
pub use status::{Ended, Status};
pub use top::run_program;
