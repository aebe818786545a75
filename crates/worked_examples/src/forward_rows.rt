//! Worked rows of ForwardMessage, played by steps.

ghost use Rattle.worked_examples.specs.Forwards.{forward_back_row, forward_refused_row, forward_row, forwarder_killed_row};
ghost use Rattle.worked_examples.specs.Playing.{IsToldAs, coded_machine};

/// A mutable lend is passed on to the server of another process, which returns it. The server that passed it on can't.
#[tactic(auto, using(crate::proofs::ForwardRowLemmas::forwarded))]
pub fn lend_is_passed_on()
    ensures { IsToldAs forward_row (coded_machine 3) }
{}

/// The death of the process that passed a lend on leaves the loan and answers nobody.
#[tactic(auto, using(crate::proofs::ForwardRowLemmas::forwarder_killed))]
pub fn passed_lend_outlives_who_passed_it()
    ensures { IsToldAs forwarder_killed_row (coded_machine 3) }
{}

/// A lend is passed on and back. Where nobody waits it is queued, and who returns it gives the lender back its page.
#[tactic(auto, using(crate::proofs::ForwardRowLemmas::forwarded_back))]
pub fn lend_is_passed_on_and_back()
    ensures { IsToldAs forward_back_row (coded_machine 3) }
{}

/// A message that isn't held, a connection that isn't there, and the server that holds the message itself are refused.
#[tactic(auto, using(crate::proofs::ForwardRowLemmas::forward_refused))]
pub fn forwards_are_refused_in_order()
    ensures { IsToldAs forward_refused_row (coded_machine 3) }
{}
