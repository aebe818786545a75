//! Numbers with their nouns, and how long an order is.

ghost use Rattle.order_model.specs.Orders.{preemptions_in};
ghost use Rattle.std.specs.Prelude.{◌≡◌, ◌++◌, OnOk};
ghost use Rattle.order_text.specs.Lines.{counted, preempted_text, size_text, slices_in};

use crate::text::{put, put_number};
use order_model::Move;
use std::alloc::AllocError;

/// A number with its noun.
pub fn put_counted(text: &mut Vec<u8>, count: u64, noun: &[u8]) -> Result<(), AllocError>
    ensures { OnOk result (text.new.items ≡ text.old.items ++ counted count noun.now) }
{
    put_number(text, count)?;
    text.push(b' ')?;
    put(text, noun)?;
    if count != 1 {
        text.push(b's')?;
    }
    Ok(())
}

/// How many slices an order has.
fn slices_of(order: &[Move]) -> u64
    ensures { result ≡ slices_in order.now }
{
    order
        .iter()
        .filter(|next| matches!(next, Move::Slice(_, _) | Move::Preempted(_, _)))
        .count() as u64
}

/// How many of them are preempted.
fn preemptions_of(order: &[Move]) -> u64
    ensures { result ≡ preemptions_in order.now }
{
    order
        .iter()
        .filter(|next| matches!(next, Move::Preempted(_, _)))
        .count() as u64
}

/// So many slices are preempted, if some are.
fn put_preempted(text: &mut Vec<u8>, count: u64) -> Result<(), AllocError>
    ensures { OnOk result (text.new.items ≡ text.old.items ++ preempted_text count) }
{
    if count == 0 {
        return Ok(());
    }
    put(text, b", ")?;
    put_counted(text, count, b"preemption")
}

/// How long an order is.
pub fn put_size(text: &mut Vec<u8>, order: &[Move]) -> Result<(), AllocError>
    ensures { OnOk result (text.new.items ≡ text.old.items ++ size_text order.now) }
{
    put_counted(text, slices_of(order), b"slice")?;
    put_preempted(text, preemptions_of(order))
}
