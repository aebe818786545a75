//! Why a search ends untold.

ghost use Rattle.graph_search.specs.Edges.{HasCause};
ghost use Rattle.order_search.specs.Faults.{IsFault};
ghost use Rattle.order_search.specs.declared.subject.Subject.{Subject};
ghost use Rattle.xousorders.specs.Halts.{IsHalt};

use graph_search::Unanswered;
use order_search::OrderFault;
use program_status::Status;
use xk_base::limits::STEP_LIMIT;

/// Why a search ends untold.
#[derive(Clone, Copy, Debug, PartialEq, Eq)]
pub enum Halt {
    /// An order comes to a claim of the timer's interrupt, and has no bound of steps.
    Timer,
    /// Orders aren't searched on.
    Stopped(Status),
    /// The sink failed.
    Unwritten,
}

/// Orders aren't searched on for this fault.
pub fn halt_of(fault: OrderFault) -> Halt
    ensures { (s : Subject) → IsFault s fault → IsHalt s ⊥ result }
{
    match fault {
        OrderFault::Timer => Halt::Timer,
        OrderFault::Steps => Halt::Stopped(Status::StepLimit(STEP_LIMIT)),
        OrderFault::Line(line) => Halt::Stopped(Status::EventFault(line)),
    }
}

/// Orders aren't searched at all, for this fault or for want of memory.
pub fn halt_for(answer: Unanswered<OrderFault>) -> Halt
    ensures { (s : Subject) → HasCause (IsFault s) answer → IsHalt s ⊥ result }
{
    match answer {
        Unanswered::Memory(_) => Halt::Stopped(Status::NoMemory),
        Unanswered::Fault(fault) => halt_of(fault),
    }
}
