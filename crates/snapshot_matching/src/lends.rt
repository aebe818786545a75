//! Whether each lend has its pages, and each page on loan its lend, told from the rows: lends are
//! listed as their messages say them and as the runs of pages do, and the two lists are compared.

ghost use Rattle.std.specs.Prelude.{◌≡◌, ◌≤◌, ◌↔◌, ◌++◌, [], ◌∷◌, ℕ, List, map, IsTrue, OnOk, IfOk};
ghost use Rattle.std.specs.List.{flat_map, count_by};
ghost use Rattle.ledger_model.specs.Loans.{loans};
ghost use Rattle.machine_model.specs.Runs.Matched.{AreLoansMatched};
ghost use Rattle.snapshot_rows.specs.Order.{page_key, orphan_key, server_key, Ascend, AscendInTwo};
ghost use Rattle.snapshot_rows.specs.Machines.{ledger_of, servers_of};
ghost use Rattle.snapshot_matching.specs.LendParts.{message_lend, lends_of, loan_lend as loan_lend_of, orphan_lend as orphan_lend_of};
ghost use Rattle.snapshot_matching.specs.LendParts.{is_lend_numbered, HaveSame, AreAlike};

use snapshot_rows::{
    MessageRow, OrphanRow, PageRow, Run, ServerRow, are_numbers_apart, loan_runs, orphan_runs,
};
use std::alloc::Global;
use xk_base::NoMemory;

/// The numbers of the kinds of messages that lend pages.
pub const LEND_MUT: u32 = 1;

pub const LEND: u32 = 2;

/// A lend, as its message says it or as its pages do.
#[derive(Clone, Copy, Debug, PartialEq, Eq)]
pub struct Lend {
    pub number: u32,
    /// Whether its pages are Shared, and not Exclusive.
    pub shared: bool,
    /// Whether a process lends them, and which; 0 where its lender died.
    pub is_lent: bool,
    pub lender: u32,
    /// The process that has them, the first of their places there, and the page behind the last.
    pub holder: u32,
    pub first: u32,
    pub end: u64,
}

fn push(lends: &mut Vec<Lend>, lend: Lend) -> Result<(), NoMemory>
    ensures { OnOk result (lends.new.items ≡ lends.old.items ++ lend ∷ []) }
{
    match lends.push(lend) {
        Ok(()) => Ok(()),
        Err(_) => Err(NoMemory),
    }
}

/// Adds a message at a server of a process, where it lends pages.
fn add_message(lends: &mut Vec<Lend>, pid: u32, message: &MessageRow) -> Result<(), NoMemory>
    ensures { OnOk result (lends.new.items ≡ lends.old.items ++ message_lend pid message.now) }
{
    if message.kind != LEND_MUT && message.kind != LEND {
        return Ok(());
    }
    push(
        lends,
        Lend {
            number: message.number,
            shared: message.kind == LEND,
            is_lent: message.sender_pid != 0,
            lender: message.sender_pid,
            holder: pid,
            first: message.first,
            end: message.first as u64 + message.count as u64,
        },
    )
}

fn add_messages(lends: &mut Vec<Lend>, pid: u32, messages: &[MessageRow]) -> Result<(), NoMemory>
    ensures { OnOk result (lends.new.items ≡ lends.old.items ++ flat_map (message_lend pid) messages.now) }
{
    for message in messages {
        add_message(lends, pid, message)?;
    }
    Ok(())
}

fn add_server(lends: &mut Vec<Lend>, server: &ServerRow) -> Result<(), NoMemory>
    ensures { OnOk result (lends.new.items ≡ lends.old.items ++ lends_of server.now) }
{
    add_messages(lends, server.pid, server.queued.as_slice())?;
    add_messages(lends, server.pid, server.held.as_slice())
}

/// The lends that messages say.
fn said_lends(alloc: Global, servers: &[ServerRow]) -> Result<Vec<Lend>, NoMemory>
    ensures { IfOk result (λ lends. lends.items ≡ flat_map lends_of servers.now) }
{
    let mut lends = Vec::new(alloc);
    for server in servers {
        add_server(&mut lends, server)?;
    }
    Ok(lends)
}

/// The lend of a run of pages that a process lends.
fn loan_lend(run: &Run) -> Lend
    ensures { result ≡ loan_lend_of run.now }
{
    Lend {
        number: run.number,
        shared: run.shared,
        is_lent: true,
        lender: run.pid,
        holder: run.holder_pid,
        first: run.holder_page,
        end: run.end,
    }
}

/// The lend of a run of orphans.
fn orphan_lend(run: &Run) -> Lend
    ensures { result ≡ orphan_lend_of run.now }
{
    Lend {
        number: run.number,
        shared: run.shared,
        is_lent: false,
        lender: 0,
        holder: run.holder_pid,
        first: run.holder_page,
        end: run.end,
    }
}

fn add_loans(lends: &mut Vec<Lend>, runs: &[Run]) -> Result<(), NoMemory>
    ensures { OnOk result (lends.new.items ≡ lends.old.items ++ map loan_lend_of runs.now) }
{
    for run in runs {
        push(lends, loan_lend(run))?;
    }
    Ok(())
}

fn add_orphans(lends: &mut Vec<Lend>, runs: &[Run]) -> Result<(), NoMemory>
    ensures { OnOk result (lends.new.items ≡ lends.old.items ++ map orphan_lend_of runs.now) }
{
    for run in runs {
        push(lends, orphan_lend(run))?;
    }
    Ok(())
}

/// The lends that pages on loan and orphans say.
fn made_lends(alloc: Global, loans: &[Run], orphans: &[Run]) -> Result<Vec<Lend>, NoMemory>
    ensures { IfOk result (λ lends. lends.items ≡ map loan_lend_of loans.now ++ map orphan_lend_of orphans.now) }
{
    let mut lends = Vec::new(alloc);
    add_loans(&mut lends, loans)?;
    add_orphans(&mut lends, orphans)?;
    Ok(lends)
}

/// Whether both lists have the same lends: they are put in order of their numbers, and compared.
fn are_same(said: Vec<Lend>, made: Vec<Lend>) -> bool
    requires { (number : ℕ) → count_by (is_lend_numbered number) made.items ≤ 1 }
    ensures alike { IsTrue result → AreAlike said.items made.items }
    ensures told { HaveSame said.items made.items → IsTrue result }
{
    let mut said_in_order = said;
    said_in_order.sort_unstable_by_key(|lend| lend.number);
    let mut made_in_order = made;
    made_in_order.sort_unstable_by_key(|lend| lend.number);
    said_in_order == made_in_order
}

/// Part 2: each lend or mutable lend has its pages on loan, or such orphans where it has no sender, and
/// each number of a loan or an orphan is that of exactly one lend.
pub fn are_loans_matched(
    alloc: Global,
    servers: &[ServerRow],
    pages: &[PageRow],
    orphans: &[OrphanRow],
) -> Result<bool, NoMemory>
    requires servers { Ascend server_key servers.now }
    requires pages { AscendInTwo page_key pages.now }
    requires orphans { AscendInTwo orphan_key orphans.now }
    ensures { (file : List ℕ) → let ledger = ledger_of file pages.now orphans.now in
        IfOk result (λ told. IsTrue told ↔ AreLoansMatched (loans ledger) (servers_of servers.now)) }
{
    let runs = loan_runs(alloc, pages)?;
    let left = orphan_runs(alloc, orphans)?;
    if !are_numbers_apart(alloc, runs.as_slice(), left.as_slice())? {
        return Ok(false);
    }
    let said = said_lends(alloc, servers)?;
    let made = made_lends(alloc, runs.as_slice(), left.as_slice())?;
    Ok(are_same(said, made))
}
