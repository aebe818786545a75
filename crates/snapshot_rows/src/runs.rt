//! Runs of pages on loan: what stands side by side at its homes and at its holder's, told from the
//! rows.

ghost use Rattle.std.specs.Prelude.{◌≡◌, ◌↔◌, ◌++◌, [], ◌∷◌, ℕ, List, map, reverse, IsTrue, OnOk, IfOk};
ghost use Rattle.std.specs.List.{flat_map};
ghost use Rattle.snapshot_rows.specs.Order.{page_key, orphan_key, AscendInTwo};
ghost use Rattle.snapshot_rows.specs.Machines.{ledger_of};
ghost use Rattle.snapshot_rows.specs.RunParts.{run_of, orphan_run as orphan_run_of, is_followed_by as is_followed_by_of, join};
ghost use Rattle.snapshot_rows.specs.RunParts.{joined as joined_of, loan_runs as loan_runs_of, orphan_runs as orphan_runs_of, run_keys};
ghost use Rattle.snapshot_rows.specs.RunParts.{AreNumbersApart, AreOneRuns};

use crate::order::are_different;
use crate::state::{OrphanRow, PageRow};
use std::alloc::Global;
use xk_base::NoMemory;

/// The number of the kind Shared.
const SHARED: u32 = 1;

/// Pages on loan by one message that stand side by side, at their homes and at their holder's.
#[derive(Clone, Copy, Debug, PartialEq, Eq)]
pub struct Run {
    /// The first of their homes; of orphans the first of their places.
    pub pid: u32,
    pub page: u32,
    /// The first of their places at their holder, and the page behind the last.
    pub holder_pid: u32,
    pub holder_page: u32,
    pub end: u64,
    /// Whether the loan is Shared, and not Exclusive.
    pub shared: bool,
    pub number: u32,
}

fn push(runs: &mut Vec<Run>, run: Run) -> Result<(), NoMemory>
    ensures { OnOk result (runs.new.items ≡ runs.old.items ++ run ∷ []) }
{
    match runs.push(run) {
        Ok(()) => Ok(()),
        Err(_) => Err(NoMemory),
    }
}

/// Adds a page, where it is on loan.
fn add_page(runs: &mut Vec<Run>, page: &PageRow) -> Result<(), NoMemory>
    ensures { OnOk result (runs.new.items ≡ runs.old.items ++ run_of page.now) }
{
    if page.kind == 0 {
        return Ok(());
    }
    push(
        runs,
        Run {
            pid: page.pid,
            page: page.page,
            holder_pid: page.holder_pid,
            holder_page: page.holder_page,
            end: page.holder_page as u64 + 1,
            shared: page.kind == SHARED,
            number: page.number,
        },
    )
}

/// An orphan, which has its holder's place alone.
fn orphan_run(orphan: &OrphanRow) -> Run
    ensures { result ≡ orphan_run_of orphan.now }
{
    Run {
        pid: orphan.pid,
        page: orphan.page,
        holder_pid: orphan.pid,
        holder_page: orphan.page,
        end: orphan.page as u64 + 1,
        shared: orphan.kind == SHARED,
        number: orphan.number,
    }
}

/// Whether a page stands right before a run of its loan, at its home and at its holder's.
fn is_followed_by(page: &Run, next: &Run) -> bool
    ensures { result ≡ is_followed_by_of page.now next.now }
{
    page.pid == next.pid
        && page.page as u64 + 1 == next.page as u64
        && page.holder_pid == next.holder_pid
        && page.end == next.holder_page as u64
        && page.shared == next.shared
        && page.number == next.number
}

/// Puts a page in front of runs, which are listed from the last to the first: it joins the first where
/// that follows it.
fn put_in_front(runs: &mut Vec<Run>, page: Run) -> Result<(), NoMemory>
    ensures { OnOk result (reverse runs.new.items ≡ join page (reverse runs.old.items)) }
{
    match runs.pop() {
        Some(next) if is_followed_by(&page, &next) => push(
            runs,
            Run {
                end: next.end,
                ..page
            },
        ),
        Some(next) => {
            push(runs, next)?;
            push(runs, page)
        }
        None => push(runs, page),
    }
}

/// Pages on loan as runs, from the last to the first.
fn joined(alloc: Global, pages: Vec<Run>) -> Result<Vec<Run>, NoMemory>
    ensures { IfOk result (λ runs. reverse runs.items ≡ joined_of pages.items) }
{
    let mut left = pages;
    let mut runs = Vec::new(alloc);
    while let Some(page) = left.pop() {
        put_in_front(&mut runs, page)?;
    }
    Ok(runs)
}

fn pages_on_loan(alloc: Global, pages: &[PageRow]) -> Result<Vec<Run>, NoMemory>
    ensures { IfOk result (λ runs. runs.items ≡ flat_map run_of pages.now) }
{
    let mut runs = Vec::new(alloc);
    for page in pages {
        add_page(&mut runs, page)?;
    }
    Ok(runs)
}

fn orphans_alone(alloc: Global, orphans: &[OrphanRow]) -> Result<Vec<Run>, NoMemory>
    ensures { IfOk result (λ runs. runs.items ≡ map orphan_run_of orphans.now) }
{
    let mut runs = Vec::new(alloc);
    for orphan in orphans {
        push(&mut runs, orphan_run(orphan))?;
    }
    Ok(runs)
}

/// The runs of the pages on loan, from the last to the first.
pub fn loan_runs(alloc: Global, pages: &[PageRow]) -> Result<Vec<Run>, NoMemory>
    ensures { IfOk result (λ runs. reverse runs.items ≡ loan_runs_of pages.now) }
{
    let alone = pages_on_loan(alloc, pages)?;
    joined(alloc, alone)
}

/// The runs of the orphans, from the last to the first.
pub fn orphan_runs(alloc: Global, orphans: &[OrphanRow]) -> Result<Vec<Run>, NoMemory>
    ensures { IfOk result (λ runs. reverse runs.items ≡ orphan_runs_of orphans.now) }
{
    let alone = orphans_alone(alloc, orphans)?;
    joined(alloc, alone)
}

/// Adds the numbers of runs to keys.
fn add_numbers(keys: &mut Vec<(u32, u32)>, runs: &[Run]) -> Result<(), NoMemory>
    ensures { OnOk result (keys.new.items ≡ keys.old.items ++ run_keys runs.now) }
{
    for run in runs {
        if keys.push((run.number, 0)).is_err() {
            return Err(NoMemory);
        }
    }
    Ok(())
}

/// Whether no two runs, of pages on loan or of orphans, have one number.
pub fn are_numbers_apart(alloc: Global, loans: &[Run], orphans: &[Run]) -> Result<bool, NoMemory>
    ensures { IfOk result (λ told. IsTrue told ↔ AreNumbersApart loans.now orphans.now) }
{
    let mut keys = Vec::new(alloc);
    add_numbers(&mut keys, loans)?;
    add_numbers(&mut keys, orphans)?;
    Ok(are_different(keys))
}

/// Part 1, of the pages on loan and the orphans of one number: they are one run.
pub fn are_one_run(
    alloc: Global,
    pages: &[PageRow],
    orphans: &[OrphanRow],
) -> Result<bool, NoMemory>
    requires pages { AscendInTwo page_key pages.now }
    requires orphans { AscendInTwo orphan_key orphans.now }
    ensures { (file : List ℕ) → IfOk result (λ told. IsTrue told ↔ AreOneRuns (ledger_of file pages.now orphans.now)) }
{
    let loans = loan_runs(alloc, pages)?;
    let left = orphan_runs(alloc, orphans)?;
    are_numbers_apart(alloc, loans.as_slice(), left.as_slice())
}
