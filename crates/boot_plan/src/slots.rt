//! The slots of a run.

ghost use Rattle.std.specs.Prelude.{◌≡◌, ◌≤◌, IfSome};
ghost use Rattle.kernel_args.specs.Image.{IsSoundArgs};
ghost use Rattle.boot_plan.specs.Slots.{slots_used};
ghost use Rattle.xk_base.specs.declared.limits.TheConstants.{SLOT_LIMIT};

use kernel_args::Args;

/// The slots that are asked for, else those that the image gives, else none.
pub(crate) fn slots_used(args: &Args, asked: Option<u32>) -> u32
    requires sound { IsSoundArgs args.now }
    requires few_slots { IfSome asked (λ n. n ≤ SLOT_LIMIT) }
    ensures slots { result ≡ slots_used args.now asked }
    ensures few { result ≤ SLOT_LIMIT }
{
    asked.or(args.slots).unwrap_or(0)
}
