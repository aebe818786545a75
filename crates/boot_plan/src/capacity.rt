//! How many pages a plan has room for.

ghost use Rattle.std.specs.Prelude.{◌≡◌, ◌≤◌, ◌+◌, length};
ghost use Rattle.xk_base.specs.Numbers.Limits.{table_frames};
ghost use Rattle.boot_plan.specs.Capacity.{capacity};
ghost use Rattle.xk_base.specs.declared.limits.TheConstants.{FRAME_LIMIT, SLOT_LIMIT};

use crate::plans::BootPlan;
use xk_base::limits::TABLE_FRAMES;

/// The capacity with this many frames, processes and slots.
pub(crate) fn capacity_of(frames: u32, processes: u32, slots: u32) -> u32
    requires tables { table_frames processes + 2 ≤ frames }
    requires few_frames { frames ≤ FRAME_LIMIT }
    requires few_slots { slots ≤ SLOT_LIMIT }
    ensures { result ≡ capacity frames processes slots }
{
    frames - TABLE_FRAMES * processes - 1 + slots
}

/// How many pages can be at one time: those that frames outside the tables hold, where one frame is
/// always free, and those that slots hold.
pub fn cap(plan: &BootPlan) -> u32
    requires tables { table_frames (length plan.now.procs) + 2 ≤ plan.now.frames }
    requires frames { plan.now.frames ≤ FRAME_LIMIT }
    requires slots { plan.now.slots ≤ SLOT_LIMIT }
    ensures { result ≡ capacity plan.now.frames (length plan.now.procs) plan.now.slots }
{
    let processes = plan.procs.as_slice().len() as u32;
    capacity_of(plan.frames, processes, plan.slots)
}
