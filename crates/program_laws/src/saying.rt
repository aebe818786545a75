//! The files say one thing at most of a command, and what a run wrote that the store stopped is a front of
//! what it writes. The functions do nothing; their contracts are the laws.

ghost use Rattle.std.specs.Prelude.{◌≡◌, ◌≤◌, ◌++◌, ℕ, List, Option, Some};
ghost use Rattle.machine_model.specs.State.Machine.{Machine};
ghost use Rattle.event_player.specs.declared.telling.Telling.{Telling};
ghost use Rattle.event_player.specs.declared.ending.Ending.TheVariants.{LimitMet};
ghost use Rattle.kernel_args.specs.declared.faults.ArgFault.{ArgFault};
ghost use Rattle.event_player.specs.History.{run_of};
ghost use Rattle.program_laws.specs.Uninterrupted.{UninterruptedAreComplete};
ghost use Rattle.xous_program.specs.Outcome.Said.{Gives, HasFault, Task};
ghost use Rattle.event_player.specs.Telling.{output, told};
ghost use Rattle.xous_program.specs.Words.{Command};

/// Where a host tells its files, they give a command one task at most, and so `said` gives one status and one text. They have one first
/// fault at most, and not both.
pub fn files_say_one_thing()
    ensures task { (file : List ℕ → Option (List ℕ)) (command : Command) (one other : Task)
        → Gives (Some file) command one → Gives (Some file) command other → one ≡ other }
    ensures fault { (file : List ℕ → Option (List ℕ)) (command : Command) (one other : ArgFault)
        → HasFault (Some file) command one → HasFault (Some file) command other → one ≡ other }
    ensures either { (file : List ℕ → Option (List ℕ)) (command : Command) (fault : ArgFault) (task : Task)
        → HasFault (Some file) command fault → Gives (Some file) command task → ⊥ }
{}

/// A call that has its headline, whose pages are known, that neither a fault outside nor want of memory ends, and whose first file has no
/// fault is complete.
#[tactic(auto, using(crate::proofs::CompleteLemmas::uninterrupted_complete))]
pub fn uninterrupted_calls_are_complete()
    ensures { UninterruptedAreComplete }
{}

/// What is told as the records of so many steps come, up to a limit that the history meets, is a front of all that is written of
/// the history up to a higher limit: so it is with what stands on the output after a swap fault.
#[tactic(auto, using(event_player::proofs::Playing::SomeStepsLemmas::some_steps_first))]
pub fn some_steps_are_a_front()
    ensures { (tells : Telling) (events : List ℕ) (machine : Machine) (done limit : ℕ)
        → done ≤ limit → (run_of done machine events).ending ≡ LimitMet
        → (rest : List ℕ) × (output tells (run_of limit machine events) ≡ told tells (run_of done machine events).records ++ rest) }
{}
