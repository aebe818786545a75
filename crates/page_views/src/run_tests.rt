//! What is asked of the places of a run.

ghost use Rattle.std.specs.Prelude.{◌≡◌, true, false};
ghost use Rattle.ledger_model.specs.Conditions.{is_within};
ghost use Rattle.ledger_model.specs.RunTests.{fits_window};
ghost use Rattle.page_views.specs.RunTests.{is_loan_here, is_nothing, lacks_here, passes};

use crate::places::Here;
use xk_base::{Right, Vpn, Window};

/// What is asked of each place of a run.
#[derive(Clone, Copy, Debug, PartialEq, Eq)]
pub enum RunTest {
    /// It is a home, a holder place or an orphan's place.
    Used,
    /// It is none of these.
    Free,
    /// The page there is on loan, on either side.
    OnLoan,
    /// The page there lacks what the right asks for.
    Lacks(Right),
}

fn is_nothing(here: Here) -> bool
    ensures { result ≡ is_nothing here }
{
    match here {
        Here::Nothing => true,
        Here::Own {
            right: _,
            console: _,
            loan: _,
        } => false,
        Here::Lent {
            kind: _,
            lender: _,
            number: _,
        } => false,
    }
}

fn is_on_loan(here: Here) -> bool
    ensures { result ≡ is_loan_here here }
{
    match here {
        Here::Nothing => false,
        Here::Own {
            right: _,
            console: _,
            loan,
        } => loan.is_some(),
        Here::Lent {
            kind: _,
            lender: _,
            number: _,
        } => true,
    }
}

/// Whether a right asks for nothing that the other hasn't.
fn is_within(asked: Right, had: Right) -> bool
    ensures { result ≡ is_within asked had }
{
    (!asked.w || had.w) && (!asked.x || had.x)
}

fn lacks(asked: Right, here: Here) -> bool
    ensures { result ≡ lacks_here asked here }
{
    match here {
        Here::Nothing => false,
        Here::Own {
            right,
            console: _,
            loan: _,
        } => !is_within(asked, right),
        Here::Lent {
            kind: _,
            lender: _,
            number: _,
        } => false,
    }
}

impl RunTest {
    /// Whether it holds of what stands at a place.
    pub fn passes(self, here: Here) -> bool
        ensures { result ≡ passes self here }
    {
        match self {
            RunTest::Used => !is_nothing(here),
            RunTest::Free => is_nothing(here),
            RunTest::OnLoan => is_on_loan(here),
            RunTest::Lacks(right) => lacks(right, here),
        }
    }
}

/// Whether the n pages from a page number on lie in the window.
pub fn fits(window: Window, first: Vpn, n: u32) -> bool
    ensures { result ≡ fits_window window first.0 n }
{
    window.first().0 <= first.0 && first.0 as u64 + n as u64 <= window.last().0 as u64 + 1
}
