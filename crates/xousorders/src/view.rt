//! What is told of endings.

use order_model::{Failing, Sights};

/// What is told of endings: as much as is seen of them, and of which of these things each fails.
#[derive(Drop)]
pub struct View<'a> {
    pub sights: Sights,
    /// Whether the bytes of the console are told as digits.
    pub hex: bool,
    /// What makes an ending a failure; the first that it fails of is told.
    pub fails: Vec<Failing<'a>>,
    /// Whether more than one ending is a failure.
    pub differ: bool,
}
