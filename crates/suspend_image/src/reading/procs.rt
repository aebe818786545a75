//! The processes of a state.

ghost use Rattle.std.specs.Prelude.{◌≡◌};
ghost use Rattle.suspend_image.specs.Reading.{Gives, word_at, items_at};
ghost use Rattle.suspend_image.specs.Rows.{proc_at};

use crate::reading::broken::Broken;
use crate::reading::words::{word, word_in};
use snapshot_rows::ProcRow;
use std::alloc::Global;
use xk_base::Row;

/// So many words.
fn front_words(alloc: Global, count: u32, bytes: &[u8]) -> Result<(Row<u32>, &[u8]), Broken>
    ensures { Gives (λ x. (x.0, x.1.now)) result (items_at word_at count bytes.now) }
{
    let mut words = Row::new(alloc);
    let mut rest = bytes;
    for _ in 0..count {
        let (number, behind) = word(rest)?;
        words.push(number)?;
        rest = behind;
    }
    Ok((words, rest))
}

#[tactic(auto, unfolding(crate::specs::Rows::proc_at))]
fn front_proc(alloc: Global, bytes: &[u8]) -> Result<(ProcRow, &[u8]), Broken>
    ensures { Gives (λ x. (x.0, x.1.now)) result (proc_at bytes.now) }
{
    let (alive, rest) = word_in(0, 1, bytes)?;
    let (heap, rest) = word(rest)?;
    let (count, rest) = word(rest)?;
    let (serials, rest) = front_words(alloc, count, rest)?;
    let row = ProcRow {
        alive,
        heap,
        serials,
    };
    Ok((row, rest))
}

/// The processes, as many as there are.
pub fn front_procs(alloc: Global, n: u32, bytes: &[u8]) -> Result<(Row<ProcRow>, &[u8]), Broken>
    ensures { Gives (λ x. (x.0, x.1.now)) result (items_at proc_at n bytes.now) }
{
    let mut rows = Row::new(alloc);
    let mut rest = bytes;
    for _ in 0..n {
        let (row, behind) = front_proc(alloc, rest)?;
        rows.push(row)?;
        rest = behind;
    }
    Ok((rows, rest))
}
