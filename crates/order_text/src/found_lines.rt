//! The lines of endings as they are found.

ghost use Rattle.std.specs.Prelude.{◌≡◌, ◌++◌, OnOk};
ghost use Rattle.order_text.specs.Lines.{fails_text, found_head, found_line};

use crate::endings::Ending;
use crate::failings::put_failing;
use crate::failures::failing_of;
use crate::sizes::put_size;
use crate::text::{put, put_number};
use order_model::Failing;
use std::alloc::AllocError;

/// The number of an ending, and what is seen of it.
fn put_found_head(text: &mut Vec<u8>, number: u64, seen: &[u8]) -> Result<(), AllocError>
    ensures { OnOk result (text.new.items ≡ text.old.items ++ found_head number seen.now) }
{
    put(text, b"found ")?;
    put_number(text, number)?;
    put(text, b": ")?;
    put(text, seen)
}

/// Of what it fails, if it does.
fn put_fails(text: &mut Vec<u8>, failing: Option<Failing<'_>>) -> Result<(), AllocError>
    ensures { OnOk result (text.new.items ≡ text.old.items ++ fails_text failing.entry) }
{
    match failing {
        None => Ok(()),
        Some(failing) => {
            put(text, b"; fails: ")?;
            put_failing(text, &failing)
        }
    }
}

/// The line of an ending when it is found.
pub fn put_found(
    text: &mut Vec<u8>,
    fails: &[Failing<'_>],
    number: u64,
    ending: &Ending,
) -> Result<(), AllocError>
    ensures { OnOk result (text.new.items ≡ text.old.items ++ found_line fails.now number ending.now) }
{
    put_found_head(text, number, &ending.seen)?;
    put_size(text, &ending.order)?;
    put_fails(text, failing_of(fails, ending))?;
    put(text, b"\n")
}
