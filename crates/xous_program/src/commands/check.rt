//! `check`: an image is planned.

ghost use Rattle.std.specs.Prelude.{◌≤◌};
ghost use Rattle.xous_program.specs.Outcome.Check.{EndsCheck};
ghost use Rattle.xous_program.specs.Outcome.Sides.{StoreSide, call_of, host_side};
ghost use Rattle.program_status.specs.Notes.{sink_side};
ghost use Rattle.xous_program.specs.Words.{check_in};

use crate::commands::booting::plan_image;
use crate::commands::command::CheckWords;
use crate::commands::summary::write_summary;
use crate::status::Status;
use std::alloc::Global;
use xk_ports::{Host, Sink};

/// Plans an image, and writes the summary of the plan.
pub fn check_image<H: Host, K: Sink>(
    alloc: Global,
    check: CheckWords,
    host: &mut H,
    out: &mut K,
) -> Status
    ensures ends { (store : StoreSide) → let call = call_of (host_side H.Host host.old host.new)
        (sink_side K.Sink out.old out.new) store result in EndsCheck (check_in check.entry) call }
    ensures host { H.faults host.old ≤ H.faults host.new }
    ensures out { K.faults out.old ≤ K.faults out.new }
{
    let planned = match plan_image(alloc, host, check.image, check.slots) {
        Ok(planned) => planned,
        Err(status) => return status,
    };
    match write_summary(&planned.plan, planned.bytes.len() as u32, out) {
        Ok(()) => Status::Done,
        Err(_) => Status::WriteFault,
    }
}
