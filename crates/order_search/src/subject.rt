//! What is searched.

use boot_plan::BootPlan;
use order_model::Orders;

/// An image, the events that are played before, and the orders that are asked for then.
#[derive(Drop)]
pub struct Subject {
    /// The plan of the image, and its bytes.
    pub plan: BootPlan,
    pub file: Vec<u8>,
    /// The bytes of an event file.
    pub before: Vec<u8>,
    pub orders: Orders,
}
