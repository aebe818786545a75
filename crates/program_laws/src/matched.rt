//! Every state of every run is matched. The functions do nothing; their contracts are the laws.

ghost use Rattle.std.specs.Prelude.{ℕ, ◌≤◌, List, Option, IfSome};
ghost use Rattle.machine_model.specs.Runs.Matched.{Matched};
ghost use Rattle.machine_model.specs.Runs.Moments.{state_at};
ghost use Rattle.machine_model.specs.State.Machine.{Machine};
ghost use Rattle.xk_base.specs.declared.limits.TheConstants.{SLOT_LIMIT};
ghost use Rattle.xous_program.specs.Outcome.Images.{Boots};
ghost use Rattle.xous_program.specs.Outcome.Said.{IsInLimits, Run, Starts, history_in, moments_in};
ghost use Rattle.xous_program.specs.Outcome.Sides.{Told};
ghost use Rattle.xous_program.specs.Words.{Command};

/// Whatever image boots a machine, that machine is matched.
pub fn booted_machine_is_matched()
    ensures { (image : List ℕ) (asked : Option ℕ) (machine : Machine)
        → IfSome asked (λ n. n ≤ SLOT_LIMIT) → Boots image asked machine → Matched machine }
{}

/// So is every state of every run of a command, whether it begins with an image, with a state file or with the load of `demo`: each that
/// the machine goes through, over any events and up to any step limit, and the one in which the history ends. In each a page has one owner
/// and at most one loan.
pub fn every_state_is_matched()
    ensures moments { (file : Told) (command : Command) (run : Run) → IsInLimits command → Starts file command run
        → (i : ℕ) → Matched (state_at run.booted.machine (moments_in run) i) }
    ensures last { (file : Told) (command : Command) (run : Run) → IsInLimits command → Starts file command run
        → Matched (history_in run).machine }
{}
