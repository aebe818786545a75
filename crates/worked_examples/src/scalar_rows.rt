//! Worked rows of scalars, played by steps.

ghost use Rattle.worked_examples.specs.Playing.{IsToldAs, coded_machine};
ghost use Rattle.worked_examples.specs.Scalars.{full_server_row, two_receivers_row, two_values_row};

/// A blocking scalar is answered by two values.
#[tactic(auto, using(crate::proofs::ScalarRowLemmas::two_values))]
pub fn scalar_is_answered_by_two_values()
    ensures { IsToldAs two_values_row (coded_machine 2) }
{}

/// Of two threads that wait at a server the one with the least tid gets the message.
#[tactic(auto, using(crate::proofs::ScalarRowLemmas::two_receivers))]
pub fn least_tid_gets_the_message()
    ensures { IsToldAs two_receivers_row (coded_machine 2) }
{}

/// Full server: a held message keeps its slot until it is returned.
#[tactic(auto, using(crate::proofs::ScalarRowLemmas::server_full))]
pub fn held_message_keeps_its_slot()
    ensures { IsToldAs full_server_row (coded_machine 2) }
{}
