//! What records tell is put behind what others told.

ghost use Rattle.std.specs.Prelude.{◌≡◌, ◌++◌, OnOk};
ghost use Rattle.order_model.specs.Moves.{bytes_of};
ghost use Rattle.order_player.specs.Steps.{KeepsMoves, told_in, told_on};

use order_model::{Trail, push_ends};
use std::alloc::AllocError;
use xk_base::{Rec, What};

/// The bytes that went to the console are put behind those before them.
fn push_bytes(records: &[Rec], console: &mut Vec<u8>) -> Result<(), AllocError>
    ensures { OnOk result (console.new.items ≡ console.old.items ++ bytes_of records.now) }
{
    for rec in records {
        if let What::Byte(_, byte) = rec.what {
            console.push(byte)?;
        }
    }
    Ok(())
}

/// What went to the console, and where it is kept which processes ended, is put behind what was told before.
pub(crate) fn push_told(keeps: bool, records: &[Rec], trail: &mut Trail) -> Result<(), AllocError>
    ensures told { OnOk result (told_in trail.new ≡ told_on keeps (told_in trail.old) records.now) }
    ensures moves { KeepsMoves trail.old trail.new }
{
    push_bytes(records, &mut trail.console)?;
    push_ends(keeps, records, &mut trail.ends)
}
