//! Cases that are called once, and those where each call of the output or of the store fails in turn.

ghost use Rattle.std.specs.Prelude.{IfOk, IsNone};
ghost use Rattle.run_cases.specs.Judging.{IsAsWanted};

use crate::case::{Case, Outside, Sweep};
use crate::judging::{Difference, Left, fault_difference, lines_told};
use crate::playing::play_once;
use crate::wrong::Wrong;
use std::alloc::Global;

/// More calls of the output or of the store than a run makes.
const CALLS: u64 = 2000;

/// What the last call of a case left, and what of it isn't as wanted.
#[derive(Debug, Drop)]
pub struct Played {
    pub left: Left,
    pub difference: Option<Difference>,
}

/// Each write fails, as long as there is one that can: there stands a part from the front. How the text is cut into writes is
/// no rule.
fn play_writes(alloc: Global, case: &Case) -> Result<Played, Wrong>
    ensures { IfOk result (λ played. IsNone played.difference → IsAsWanted case.now.wanted played.left) }
{
    for call in 1..CALLS {
        let outside = Outside {
            out: call,
            ..case.outside
        };
        let left = play_once(alloc, case, outside)?;
        if left.number == 0 {
            let difference = case.wanted.difference(&left);
            return Ok(Played { left, difference });
        }
        let fault = (4, b"write fault\n".as_slice());
        let whole = case.wanted.whole();
        let difference = fault_difference(fault, whole, &left, (call, false));
        if let Some(difference) = difference {
            let difference = Some(difference);
            return Ok(Played { left, difference });
        }
    }
    without_end(alloc, case)
}

/// More calls fail than expected.
fn without_end(alloc: Global, case: &Case) -> Result<Played, Wrong>
    ensures { IfOk result (λ played. IsNone played.difference → IsAsWanted case.now.wanted played.left) }
{
    Ok(Played {
        left: play_once(alloc, case, case.outside)?,
        difference: Some(Difference::Calls),
    })
}

/// Nothing failed, and the last call that left the lines has this number.
fn last_played(case: &Case, left: Left, last: u64, above: u64) -> Played
    ensures { IsNone result.difference → IsAsWanted case.now.wanted result.left }
{
    let difference = match case.wanted.difference(&left) {
        None if last <= above => Some(Difference::LastCall),
        difference => difference,
    };
    Played { left, difference }
}

/// Each call of the store fails, as long as there is one that can: there stand the lines of whole steps.
fn play_store_calls(alloc: Global, case: &Case, lines: usize, above: u64) -> Result<Played, Wrong>
    ensures { IfOk result (λ played. IsNone played.difference → IsAsWanted case.now.wanted played.left) }
{
    let mut last = 0;
    for call in 1..CALLS {
        let outside = Outside {
            store: call,
            ..case.outside
        };
        let left = play_once(alloc, case, outside)?;
        if left.number == 0 {
            return Ok(last_played(case, left, last, above));
        }
        let fault = (8, b"swap fault\n".as_slice());
        let whole = case.wanted.whole();
        let difference = fault_difference(fault, whole, &left, (call, true));
        if let Some(difference) = difference {
            let difference = Some(difference);
            return Ok(Played { left, difference });
        }
        if lines_told(left.out.as_slice()) == lines {
            last = call;
        }
    }
    without_end(alloc, case)
}

/// Calls the program as often as a case says.
pub fn play_case(alloc: Global, case: &Case) -> Result<Played, Wrong>
    ensures { IfOk result (λ played. IsNone played.difference → IsAsWanted case.now.wanted played.left) }
{
    match case.sweep {
        Sweep::Once => {
            let left = play_once(alloc, case, case.outside)?;
            let difference = case.wanted.difference(&left);
            Ok(Played { left, difference })
        }
        Sweep::EachWrite => play_writes(alloc, case),
        Sweep::EachStoreCall { lines, above } => play_store_calls(alloc, case, lines, above),
    }
}
