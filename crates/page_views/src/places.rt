//! What stands at a place.

use phys_pages::LoanInfo;
use xk_base::{LoanKind, Number, Place, Right};

/// What the ledger has at a place.
#[derive(Clone, Copy, Debug, PartialEq, Eq)]
pub enum Here {
    /// It is no home, holder place or orphan's place.
    Nothing,
    /// The home of a page, with its right, whether it is the console, and its loan.
    Own {
        right: Right,
        console: bool,
        loan: Option<LoanInfo>,
    },
    /// The place of a page on loan to the process; without a lender it is an orphan.
    Lent {
        kind: LoanKind,
        lender: Option<Place>,
        number: Number,
    },
}
