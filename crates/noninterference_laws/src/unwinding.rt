//! Unwindings: relations of two states that every step and event keeps, and in which a group of processes acts alike. So who checks one
//! needs no run. The functions have no code; their contracts are the laws, and the lemmas stand in `proofs/`.

ghost use Rattle.std.specs.Prelude.{ℕ, List};
ghost use Rattle.xk_base.specs.declared.events.Event.{Event};
ghost use Rattle.xk_base.specs.declared.ids.Pid.{Pid};
ghost use Rattle.machine_laws.specs.History.{history};
ghost use Rattle.machine_model.specs.Runs.Matched.{Matched};
ghost use Rattle.machine_model.specs.State.Machine.{Machine};
ghost use Rattle.machine_model.specs.Worked.Rows.{pid_of};
ghost use Rattle.noninterference_laws.specs.Inside.{Group, SameButInside};
ghost use Rattle.noninterference_laws.specs.SecretSum.{BeginsProgram, DifferInSumAlone, RunsProgram, only_process, summing_machine, with_sum};
ghost use Rattle.noninterference_laws.specs.TwoInsides.{ActAlong, TellTheSameOutside};
ghost use Rattle.noninterference_laws.specs.Unwinding.{IsUnwinding, Passes, Relation};

/// **An unwinding is enough.** From two related states that are the same but for the inside of the group, the group acts alike along the
/// histories of every list of events; so these have the same records, meet the limit alike, and end in states that are the same but for
/// the inside.
pub fn unwound_groups_tell_alike()
    ensures acts { (group : Group) (related : Relation) (events : List Event) (limit : ℕ) (m n : Machine)
        → IsUnwinding group (Passes related) → Matched m → SameButInside group m n → Passes related m n → ActAlong group events limit m n }
    ensures histories { (group : Group) (related : Relation) (events : List Event) (limit : ℕ) (m n : Machine)
        → IsUnwinding group (Passes related) → Matched m → SameButInside group m n → Passes related m n
        → TellTheSameOutside group (history events limit m) (history events limit n) }
{}

/// **A secret sum stays secret.** A service of eleven instructions adds a word of each message to a sum in its own page, and answers.
/// "They differ in the sum alone" is an unwinding. So the histories of two states that differ in the sum alone, over one list of events,
/// have the same records, whatever other processes do. A process that begins with the program runs it, and there is such a machine.
pub fn secret_sums_are_exchanged()
    ensures unwinding { (pid : Pid) → IsUnwinding (only_process pid) (DifferInSumAlone pid) }
    ensures begins { (pid : Pid) (m : Machine) → BeginsProgram pid m → RunsProgram pid m }
    ensures witness { (sum : ℕ) → BeginsProgram (pid_of 2) (summing_machine sum) }
    ensures related { (pid : Pid) (m : Machine) (sum : ℕ) → RunsProgram pid m → DifferInSumAlone pid m (with_sum pid sum m) }
    ensures histories { (pid : Pid) (events : List Event) (limit : ℕ) (m : Machine) (sum : ℕ) → Matched m → RunsProgram pid m
        → TellTheSameOutside (only_process pid) (history events limit m) (history events limit (with_sum pid sum m)) }
{}
