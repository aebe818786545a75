//! What stands at a place, by the side of its entry.

ghost use Rattle.std.specs.Option.{option_copied};
ghost use Rattle.std.specs.Prelude.{◌≡◌};
ghost use Rattle.page_views.specs.EntryAccess.{side_here};

use crate::places::Here;
use phys_pages::PageInfo;
use sv32_space::Side;
use xk_base::{LoanKind, Number, Right};

/// What a memory tells of a side of a page.
pub fn here_by_side(side: Side, info: Option<&PageInfo>) -> Here
    ensures { result ≡ side_here side (option_copied info.entry) }
{
    let home = info.and_then(|info| info.home);
    let loan = info.and_then(|info| info.loan);
    let number = match loan {
        Some(loan) => loan.number,
        None => Number(0),
    };
    match side {
        Side::Own(right) => Here::Own {
            right,
            console: false,
            loan: None,
        },
        Side::LentOut(right) => Here::Own {
            right,
            console: false,
            loan,
        },
        Side::LentIn => Here::Lent {
            kind: LoanKind::Shared,
            lender: home,
            number,
        },
        Side::MutOut { x } => Here::Own {
            right: Right { w: true, x },
            console: false,
            loan,
        },
        Side::MutIn => Here::Lent {
            kind: LoanKind::Exclusive,
            lender: home,
            number,
        },
    }
}
