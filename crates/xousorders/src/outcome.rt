//! How the program ends.

ghost use Rattle.std.specs.Prelude.{◌≡◌};
ghost use Rattle.order_search.specs.Faults.{IsRunFault};
ghost use Rattle.graph_search.specs.Edges.{HasCause};
ghost use Rattle.order_search.specs.declared.subject.Subject.{Subject};
ghost use Rattle.xousorders.specs.Failures.{asks_failure, tells_failure};
ghost use Rattle.xousorders.specs.Outcomes.{is_whole as is_whole_extent, number_of, outcome_of, passed as passed_of};
ghost use Rattle.xousorders.specs.Searched.{IsStopped};

use crate::view::View;
use graph_search::{Extent, Unanswered};
use order_model::Failing;
use order_search::OrderFault;
use order_text::{Ending, has_failed, is_several};
use program_status::Status;
use xk_base::limits::STEP_LIMIT;

/// How a call ends.
#[derive(Clone, Copy, Debug, PartialEq, Eq)]
pub enum Outcome {
    /// With this status, and `Done` where there is no failure.
    Ended(Status),
    /// A failure was told.
    Failed,
    /// None was told, but the search isn't whole.
    Cut,
}

impl Outcome {
    /// The number with which the program ends.
    pub fn number(&self) -> u8
        ensures { result ≡ number_of self.now }
    {
        match self {
            Outcome::Ended(status) => status.number(),
            Outcome::Failed => 1,
            Outcome::Cut => 10,
        }
    }
}

/// How the program ends where an order isn't played for this fault.
fn stopped(fault: OrderFault) -> Status
    ensures { (s : Subject) → IsRunFault s fault → IsStopped s result }
{
    match fault {
        OrderFault::Steps => Status::StepLimit(STEP_LIMIT),
        // No order isn't played for this.
        OrderFault::Timer => Status::NoMemory,
        OrderFault::Line(line) => Status::EventFault(line),
    }
}

/// How the program ends where an order isn't played.
pub fn unplayed(answer: Unanswered<OrderFault>) -> Status
    ensures { (s : Subject) → HasCause (IsRunFault s) answer → IsStopped s result }
{
    match answer {
        Unanswered::Memory(_) => Status::NoMemory,
        Unanswered::Fault(fault) => stopped(fault),
    }
}

/// Whether the search is whole.
pub fn is_whole(extent: Extent) -> bool
    ensures { result ≡ is_whole_extent extent }
{
    match extent {
        Extent::Whole => true,
        Extent::Cut(_) => false,
    }
}

/// Whether a failure is told; `differ` makes it one if there is more than one ending.
pub fn tells(fails: &[Failing<'_>], differ: bool, list: &[Ending]) -> bool
    ensures { result ≡ tells_failure fails.now differ list.now }
{
    has_failed(fails, list) || is_several(differ, list.len())
}

/// Whether something makes an ending a failure.
fn asks(fails: &[Failing<'_>], differ: bool) -> bool
    ensures { result ≡ asks_failure fails.now differ }
{
    !fails.is_empty() || differ
}

/// How the program ends where no failure is told.
fn passed(asks: bool, whole: bool) -> Outcome
    ensures { result ≡ passed_of asks whole }
{
    if asks && !whole {
        return Outcome::Cut;
    }
    Outcome::Ended(Status::Done)
}

/// How the program ends where a search so far told these endings.
pub fn ended(view: &View<'_>, extent: Extent, list: &[Ending]) -> Outcome
    ensures { let fails = view.now.fails.items in
        result ≡ outcome_of (tells_failure fails view.now.differ list.now) (asks_failure fails view.now.differ) (is_whole_extent extent) }
{
    if tells(&view.fails, view.differ, list) {
        return Outcome::Failed;
    }
    passed(asks(&view.fails, view.differ), is_whole(extent))
}
