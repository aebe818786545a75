//! The plan of an image.

ghost use Rattle.std.specs.Prelude.{◌≡◌, ◌≤◌, All, IfErr, IfOk, IfSome, length};
ghost use Rattle.boot_plan.specs.FirstPages.{plan_of};
ghost use Rattle.boot_plan.specs.Lawful.{CanStart, IsLawfulPlan};
ghost use Rattle.program_status.specs.Plans.{IsSoundImage, RefusesBytes};
ghost use Rattle.xk_base.specs.declared.limits.TheConstants.{IMAGE_LIMIT, SLOT_LIMIT};

use crate::status::Status;
use boot_plan::{BootPlan, PlanError, plan};
use kernel_args::{Args, ArgsError, read_args};
use std::alloc::Global;

/// The arguments of an image, and its plan.
#[derive(Debug, Drop)]
pub struct Planned {
    pub args: Args,
    pub plan: BootPlan,
}

/// Plans the first pages of the image of these bytes, for a run that asks for these slots, or says why
/// not: `ImageFault` or `NoMemory`.
pub fn plan_bytes(alloc: Global, bytes: &[u8], asked: Option<u32>) -> Result<Planned, Status>
    requires size { length bytes.now ≤ IMAGE_LIMIT }
    requires few { IfSome asked (λ n. n ≤ SLOT_LIMIT) }
    ensures image { IfOk result (λ planned. IsSoundImage bytes.now asked planned.args) }
    ensures planned { IfOk result (λ planned. planned.plan ≡ plan_of planned.args asked) }
    ensures lawful { IfOk result (λ planned. IsLawfulPlan (length bytes.now) planned.plan) }
    ensures can_start { IfOk result (λ planned. All CanStart planned.plan.procs) }
    ensures refused { IfErr result (RefusesBytes bytes.now asked) }
{
    let args = match read_args(alloc, bytes) {
        Ok(args) => args,
        Err(ArgsError::Fault(fault)) => return Err(Status::ImageFault(fault)),
        Err(ArgsError::NoMemory) => return Err(Status::NoMemory),
    };
    match plan(alloc, &args, bytes, asked) {
        Ok(plan) => Ok(Planned { args, plan }),
        Err(PlanError::Fault(fault)) => Err(Status::ImageFault(fault)),
        Err(PlanError::NoMemory) => Err(Status::NoMemory),
    }
}
