//! Worked rows of deaths with loans, played by steps.

ghost use Rattle.std.specs.Prelude.{None, ◌≡◌};
ghost use Rattle.xk_base.specs.Numbers.Windows.{page_of};
ghost use Rattle.machine_model.specs.Worked.Rows.{pid_of};
ghost use Rattle.worked_examples.specs.Deaths.{destroy_row, orphan_row, queued_sender_row, server_killed, server_killed_row};
ghost use Rattle.worked_examples.specs.Playing.{IsToldAs, coded_machine};

/// A server stores to a page that it holds of a dead lender, and returns it once.
#[tactic(auto, using(crate::proofs::Loans::OrphanRowLemmas::orphan_stored))]
pub fn orphan_is_written_by_its_holder()
    ensures { IsToldAs orphan_row (coded_machine 2) }
{}

/// The queued message of a sender that is killed is taken out.
#[tactic(auto, using(crate::proofs::Deaths::QueuedSenderLemmas::queued_sender_killed))]
pub fn queued_message_goes_with_its_sender()
    ensures { IsToldAs queued_sender_row (coded_machine 2) }
{}

/// The lenders to a destroyed server are answered in ascending order, and have their former rights.
#[tactic(auto, using(crate::proofs::Deaths::DestroyRowLemmas::server_destroyed))]
pub fn destroyed_server_gives_back_its_loans()
    ensures { IsToldAs destroy_row (coded_machine 3) }
{}

/// The lenders to a killed server are answered in ascending order before its death is told, and have their former rights. A page that
/// was moved to it is gone.
#[tactic(auto, using(crate::proofs::Deaths::ServerKilledLemmas::server_killed_rules))]
pub fn killed_server_gives_back_its_loans()
    ensures told { IsToldAs server_killed_row (coded_machine 4) }
    ensures gone { server_killed.ledger.home (page_of (pid_of 2) 0x4000_3000) ≡ None }
    ensures left { server_killed.ledger.home (page_of (pid_of 5) 0x2000_0000) ≡ None }
{}
