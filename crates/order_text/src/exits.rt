//! What processes ended with, as text.

ghost use Rattle.std.specs.Prelude.{◌≡◌, ◌++◌, OnOk};
ghost use Rattle.order_text.specs.Texts.{exit_text, exited_text, fault_text};

use crate::text::{put, put_digits, put_number};
use order_model::Exit;
use std::alloc::AllocError;

/// Appends that a process ended with this word.
fn put_exited(text: &mut Vec<u8>, word: u32) -> Result<(), AllocError>
    ensures { OnOk result (text.new.items ≡ text.old.items ++ exited_text word) }
{
    put(text, b" exited ")?;
    put_number(text, u64::from(word))
}

/// Appends that a process ended by a fault.
fn put_fault(text: &mut Vec<u8>, cause: u8, value: u32) -> Result<(), AllocError>
    ensures { OnOk result (text.new.items ≡ text.old.items ++ fault_text cause value) }
{
    put(text, b" fault ")?;
    put_number(text, u64::from(cause))?;
    put(text, b" at ")?;
    put_digits(text, &value.to_be_bytes())
}

/// Appends what a process ended with, or that it is gone, where nothing else is kept of it.
pub fn put_exit(text: &mut Vec<u8>, exit: Option<Exit>) -> Result<(), AllocError>
    ensures { OnOk result (text.new.items ≡ text.old.items ++ exit_text exit) }
{
    match exit {
        None => put(text, b" gone"),
        Some(Exit::Exited(word)) => put_exited(text, word),
        Some(Exit::Faulted(cause, value)) => put_fault(text, cause, value),
        Some(Exit::Killed) => put(text, b" killed"),
    }
}
