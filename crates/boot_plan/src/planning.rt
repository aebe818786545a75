//! An image is planned.

ghost use Rattle.std.specs.Prelude.{◌≡◌, ◌≤◌, ◌<◌, ◌+◌, ◌^◌, None, length, map, IfOk, OnOk, IfErr, IfSome, All};
ghost use Rattle.kernel_args.specs.Image.{IsSoundArgs};
ghost use Rattle.kernel_args.specs.Loads.{file_sizes};
ghost use Rattle.boot_plan.specs.Faults.{plan_fault, IsPlanFault};
ghost use Rattle.boot_plan.specs.FirstPages.{process_plan, plan_of};
ghost use Rattle.boot_plan.specs.Lawful.{IsLawfulPlan, CanStart, EntersExecutable};
ghost use Rattle.xk_base.specs.declared.limits.TheConstants.{SLOT_LIMIT};

use crate::checks::find_fault;
use crate::faults::PlanError;
use crate::pages::process_pages;
use crate::plans::{BootPlan, ProcPlan};
use crate::slots::slots_used;
use kernel_args::{Args, ProcArgs};
use std::alloc::Global;
use xk_base::limits::PAGE_SIZE;
use xk_base::{NoMemory, Row};

/// Plans the processes of an image.
fn plan_processes(alloc: Global, processes: &[ProcArgs]) -> Result<Row<ProcPlan>, NoMemory>
    requires sections { All (λ p. length p.sections ≤ 32) processes.now }
    requires loads { All (λ p. p.load + file_sizes p.sections < 2 ^ 32) processes.now }
    ensures { IfOk result (λ rows. rows ≡ map process_plan processes.now) }
{
    let mut rows = Row::new(alloc);
    for process in processes {
        let plan = ProcPlan {
            entry: process.entry,
            sections: process.sections.as_slice().len() as u32,
            pages: process_pages(alloc, process)?,
        };
        rows.push(plan)?;
    }
    Ok(rows)
}

/// Plans the first pages of an image, for a run that asks for these slots of the swap store: without
/// them the image's own are used, else none. The file has at most 64 MiB. A fault is the first of the
/// plan. Want of memory can be answered for any arguments.
pub fn plan(
    alloc: Global,
    args: &Args,
    file: &[u8],
    asked: Option<u32>,
) -> Result<BootPlan, PlanError>
    requires sound { IsSoundArgs args.now }
    requires size { length file.now ≤ 67108864 }
    requires few_slots { IfSome asked (λ n. n ≤ SLOT_LIMIT) }
    ensures planned { IfOk result (λ p. p ≡ plan_of args.now asked) }
    ensures no_fault { OnOk result (plan_fault args.now file.now asked ≡ None) }
    ensures fault { IfErr result (IsPlanFault args.now file.now asked) }

    // What memory and a kernel ask of a plan.
    ensures lawful { IfOk result (IsLawfulPlan (length file.now)) }
    ensures can_start { IfOk result (λ p. All CanStart p.procs) }
    ensures executable { IfOk result (λ p. All EntersExecutable p.procs) }
{
    if let Some(fault) = find_fault(args, file, asked) {
        return Err(PlanError::Fault(fault));
    }
    match plan_processes(alloc, args.procs.as_slice()) {
        Ok(procs) => Ok(BootPlan {
            ram_start: args.ram_start,
            frames: args.ram_size / PAGE_SIZE,
            slots: slots_used(args, asked),
            procs,
        }),
        Err(NoMemory) => Err(PlanError::NoMemory),
    }
}
