//! How a capacity is split into frames of RAM and slots of the swap store isn't seen. The functions do
//! nothing; their contracts are the laws.

ghost use Rattle.std.specs.Prelude.{◌≡◌, ◌↔◌, ℕ, List};
ghost use Rattle.kernel_args.specs.declared.args.Args.{Args};
ghost use Rattle.kernel_args.specs.Image.{Spells};
ghost use Rattle.machine_model.specs.State.Machine.{Machine};
ghost use Rattle.event_player.specs.declared.telling.Telling.{Telling};
ghost use Rattle.xous_program.specs.Outcome.Images.{Boots};
ghost use Rattle.event_player.specs.History.{run_of};
ghost use Rattle.program_laws.specs.Ram.{DifferInRam};
ghost use Rattle.xous_program.specs.Headline.{SwappingIsInvisible};
ghost use Rattle.xous_program.specs.Outcome.Splits.{LoadAlike, Setup, SplitOneCapacity};
ghost use Rattle.event_player.specs.Telling.{output};

/// Two images that differ in nothing but RAM start, RAM size and the check number over them load the same.
pub fn ram_is_not_loaded()
    ensures { (image other : List ℕ) (args others : Args) → DifferInRam image other → Spells image args → Spells other others
        → LoadAlike image other args others }
{}

/// Two images that load the same processes, each without a fault in a run whose slots give the two one capacity, boot the same machine:
/// however they split it by their RAM, by the slots that they give and by those asked for. So they have the same history, whatever the
/// events and the step limit are, and `trace`, `run` and `ledger` tell the same bytes of it.
pub fn swapping_is_invisible()
    ensures boots { (one other : Setup) (machine : Machine) → SplitOneCapacity one other
        → (Boots one.image one.asked machine ↔ Boots other.image other.asked machine) }
    ensures history { (one other : Setup) (machine twin : Machine) (events : List ℕ) (limit : ℕ) → SplitOneCapacity one other
        → Boots one.image one.asked machine → Boots other.image other.asked twin → run_of limit machine events ≡ run_of limit twin events }
    ensures output { (one other : Setup) (machine twin : Machine) (tells : Telling) (events : List ℕ) (limit : ℕ)
        → SplitOneCapacity one other → Boots one.image one.asked machine → Boots other.image other.asked twin
        → output tells (run_of limit machine events) ≡ output tells (run_of limit twin events) }
{}

/// So two complete calls of one command, `trace`, `run` or `ledger`, that play the same events on two such images end with one status and
/// write the same.
pub fn split_calls_end_alike()
    ensures { SwappingIsInvisible }
{}
