//! What the tags behind the first spell.

ghost use Rattle.std.specs.Prelude.{◌≡◌, []};
ghost use Rattle.kernel_args.specs.Reading.{parts_in};

use crate::args::{ProcArgs, ProcName};
use std::alloc::Global;
use xk_base::Row;

/// The parts of an image that were found so far.
#[derive(Debug, Drop)]
pub struct Found {
    /// The processes, in the order of their pids from 2 on.
    pub procs: Row<ProcArgs>,
    pub names: Row<ProcName>,
    /// The slots of the one `SwpS` that was read.
    pub slots: Option<u32>,
}

impl Found {
    /// Nothing.
    pub fn new(alloc: Global) -> Found
        ensures { parts_in result ≡ record { procs = []; names = []; slots = [] } }
    {
        Found {
            procs: Row::new(alloc),
            names: Row::new(alloc),
            slots: None,
        }
    }
}
