//! Laws of the states in which runs start.

ghost use Rattle.std.specs.Prelude.{ℕ, ◌≡◌, All, List, length};
ghost use Rattle.boot_plan.specs.FirstPages.{planned_pages};
ghost use Rattle.boot_plan.specs.Lawful.{CanStart, IsLawfulPlan};
ghost use Rattle.boot_plan.specs.declared.plans.BootPlan.{BootPlan};
ghost use Rattle.ledger_model.specs.Ledger.{pages};
ghost use Rattle.machine_laws.specs.Reserved.{IsReservedByThread};
ghost use Rattle.machine_model.specs.Runs.Matched.{Matched};
ghost use Rattle.xk_kernel.specs.Start.{start};

/// The start of a lawful plan, whose processes can start, is matched.
pub fn start_of_a_plan_is_matched()
    ensures { (plan : BootPlan) (file : List ℕ) → IsLawfulPlan (length file) plan → All CanStart plan.procs → Matched (start plan file) }
{}

/// The start of a lawful plan has as many pages as the plan.
pub fn start_has_the_planned_pages()
    ensures { (plan : BootPlan) (file : List ℕ) → IsLawfulPlan (length file) plan
        → pages (start plan file).processes (start plan file).ledger ≡ planned_pages plan }
{}

/// The start of a plan has no reservation, and so none of an id that no thread can have.
#[tactic(auto, using(xk_kernel::proofs::Starting::UnreservedLemmas::start_unreserved))]
pub fn start_is_not_reserved()
    ensures { (plan : BootPlan) (file : List ℕ) → IsReservedByThread (start plan file) }
{}
