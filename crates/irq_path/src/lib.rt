//! Interrupts over the parts of a kernel: a handler starts where one may, and the record of one that the timer starts goes to its
//! place among those of the step.
#![tactic(auto)]

mod delivering;
mod handlers;
mod placing;

pub use delivering::deliver;
pub use handlers::{HANDLER_RETURN, fresh_registers, handler_id};
pub use placing::place_irq;
