//! Services that may be exchanged, by an unwinding: a relation of states that every step and event keeps, and where the group acts
//! alike. So who checks it needs no transcript. The functions have no code; their contracts are the laws.

ghost use Rattle.std.specs.Prelude.{ℕ, List};
ghost use Rattle.boot_plan.specs.declared.plans.BootPlan.{BootPlan};
ghost use Rattle.noninterference_laws.specs.Inside.{Group};
ghost use Rattle.noninterference_laws.specs.Unwinding.{IsUnwinding, Passes, Relation};
ghost use Rattle.program_laws.specs.Exchanged.{WriteAlike};
ghost use Rattle.program_laws.specs.Unwinding.{StartRelated, StartWithSums};
ghost use Rattle.xk_base.specs.declared.ids.Pid.{Pid};

/// **An unwinding is enough.** Two images of one plan whose starts are related by an unwinding write the same of every event file.
pub fn unwound_services_tell_alike()
    ensures { (group : Group) (related : Relation) (plan : BootPlan) (one other events : List ℕ) (limit : ℕ)
        → IsUnwinding group (Passes related) → StartRelated group (Passes related) plan one other → WriteAlike plan one other events limit }
{}

/// **Secrets are exchanged.** Two images with a service that keeps a sum, which differ in the page of the sum alone, write the same of
/// every event file, whatever else they have.
pub fn secret_sums_write_alike()
    ensures { (pid : Pid) (plan : BootPlan) (one other events : List ℕ) (limit : ℕ)
        → StartWithSums pid plan one other → WriteAlike plan one other events limit }
{}
