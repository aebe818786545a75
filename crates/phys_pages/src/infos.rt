//! Where pages are and whose they are.

use xk_base::{Frame, LoanKind, Number, Place, Slot};

/// Where a page is: in a frame of RAM or in a slot of the swap store.
#[derive(Clone, Copy, Debug, PartialEq, Eq)]
pub enum Seat {
    Frame(Frame),
    Slot(Slot),
}

/// A page's loan.
#[derive(Clone, Copy, Debug, PartialEq, Eq)]
pub struct LoanInfo {
    /// Where its holder has it.
    pub holder: Place,
    pub kind: LoanKind,
    /// The number of the message that lent it.
    pub number: Number,
}

/// Whose page it is.
#[derive(Clone, Copy, Debug, PartialEq, Eq)]
pub struct PageInfo {
    /// Where its owner has it; `None` where the owner is the kernel.
    pub home: Option<Place>,
    /// Its loan, if it is on loan.
    pub loan: Option<LoanInfo>,
}
