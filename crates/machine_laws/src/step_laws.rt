//! Steps keep the invariant, and so does whatever leads from a state to the next.

ghost use Rattle.std.specs.Prelude.{ℕ, ◌≡◌, List, Some};
ghost use Rattle.xk_base.specs.declared.ids.ThreadId.{ThreadId};
ghost use Rattle.machine_model.specs.Stepping.Acts.{call_by};
ghost use Rattle.machine_model.specs.Runs.Kept.{AllKeepCursor, AllKeepMatched, StepKeepsMatched};
ghost use Rattle.machine_model.specs.State.Machine.{Machine};
ghost use Rattle.machine_model.specs.Runs.Matched.{Matched};
ghost use Rattle.machine_model.specs.State.Order.{actor};
ghost use Rattle.machine_model.specs.Stepping.Step.{step};

/// The step of any call keeps the machine matched, whatever its number, and whether it is served, refused or retried.
pub fn calls_keep_matched()
    ensures { (m : Machine) (who : ThreadId) (words : List ℕ) → Matched m → actor m ≡ Some who → call_by m who ≡ Some words
        → Matched (step m).machine }
{}

/// Every step keeps the machine matched.
pub fn step_keeps_matched()
    ensures { StepKeepsMatched }
{}

/// Whatever leads from a state to the next keeps the machine matched: a step, a pick, an interrupt, a kill, the end of a turn.
pub fn all_keep_matched()
    ensures { AllKeepMatched }
{}

/// Whatever leads from a state to the next keeps the cursor the id of a thread of the processes.
pub fn all_keep_cursor()
    ensures { AllKeepCursor }
{}
