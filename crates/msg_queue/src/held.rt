//! A message that waits or is held.

use loan_flags::Loan;
use xk_base::Message;

/// A message with its loan. It is moved whole and never dropped, since its loan must be spent.
pub struct Held {
    pub msg: Message,
    pub loan: Option<Loan>,
}
