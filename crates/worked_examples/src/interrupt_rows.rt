//! The worked row of pending interrupts, played by steps.

ghost use Rattle.std.specs.Prelude.{Some, ◌≡◌};
ghost use Rattle.machine_model.specs.Worked.Rows.{id_of};
ghost use Rattle.worked_examples.specs.Interrupts.{begun_thread, handling, pending_row};
ghost use Rattle.worked_examples.specs.Playing.{IsToldAs, coded_machine};

/// Pending is a set: an interrupt that comes twice while its handler runs starts it once more. The cursor goes to the handler, which
/// starts with the number and the argument in a0 and a1.
#[tactic(auto, using(crate::proofs::InterruptRowLemmas::interrupt_rules))]
pub fn pending_is_a_set()
    ensures told { IsToldAs pending_row (coded_machine 1) }
    ensures starts { handling.threads (id_of 2 1) ≡ Some begun_thread }
    ensures next { handling.cursor ≡ id_of 2 1 }
{}
