//! The claimed interrupts of a state.

ghost use Rattle.std.specs.Prelude.{◌≡◌, None};
ghost use Rattle.suspend_image.specs.Reading.{Gives, rows_at};
ghost use Rattle.suspend_image.specs.Rows.{claim_at};
ghost use Rattle.snapshot_rows.specs.Order.{claim_key};

use crate::reading::broken::Broken;
use crate::reading::words::{GREATEST, after, word, word_in};
use snapshot_rows::ClaimRow;
use std::alloc::Global;
use xk_base::Row;

#[tactic(auto, unfolding(crate::specs::Rows::claim_at))]
fn front_claim(n: u32, before: Option<u32>, bytes: &[u8]) -> Result<(ClaimRow, &[u8]), Broken>
    ensures { Gives (λ x. (x.0, x.1.now)) result (claim_at n before bytes.now) }
{
    let (number, rest) = word_in(after(before), GREATEST, bytes)?;
    let (pid, rest) = word_in(2, n as u64 + 1, rest)?;
    let (handler, rest) = word(rest)?;
    let (arg, rest) = word(rest)?;
    let (pending, rest) = word_in(0, 1, rest)?;
    let row = ClaimRow {
        number,
        pid,
        handler,
        arg,
        pending,
    };
    Ok((row, rest))
}

/// So many claims, in order of their numbers.
pub fn front_claims(
    alloc: Global,
    n: u32,
    count: u32,
    bytes: &[u8],
) -> Result<(Row<ClaimRow>, &[u8]), Broken>
    ensures { Gives (λ x. (x.0, x.1.now)) result (rows_at (claim_at n) claim_key count None bytes.now) }
{
    let mut rows = Row::new(alloc);
    let mut before = None;
    let mut rest = bytes;
    for _ in 0..count {
        let (row, behind) = front_claim(n, before, rest)?;
        before = Some(row.number);
        rows.push(row)?;
        rest = behind;
    }
    Ok((rows, rest))
}
