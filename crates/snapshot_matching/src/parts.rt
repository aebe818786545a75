//! The parts of the machine's invariant in their order, and the first that a state doesn't have.

ghost use Rattle.std.specs.Prelude.{◌≡◌, ◌≤◌, ◌↔◌, ℕ, List, IsTrue, IfOk, MatchOption};
ghost use Rattle.machine_model.specs.Runs.Matched.{AreThreadsMatched, AreHandlersMatched, AreNextStepped, Matched};
ghost use Rattle.snapshot_rows.specs.Machines.{threads_of, claims_of, processes_of, machine_of};
ghost use Rattle.snapshot_rows.specs.Order.{AreRowsInOrder};
ghost use Rattle.snapshot_matching.specs.UnmatchedParts.{number_of, are_keys_told as are_keys_told_of, AreKeysMatched, Holds};
ghost use Rattle.snapshot_matching.specs.UnmatchedParts.{IsFirstUnmatched};

use crate::claims::{all_claims_living, are_handlers_matched, is_timer_matched};
use crate::heaps::are_heaps_matched;
use crate::lends::are_loans_matched;
use crate::messages::are_messages_apart;
use crate::processes::are_processes_told;
use crate::senders::are_senders_matched;
use crate::servers::{all_are_below, are_few_apart};
use crate::threads::{
    all_threads_living, are_joiners_matched, are_receivers_matched, are_threads_matched,
};
use snapshot_rows::{State, all_homes_living, is_ledger_matched};
use std::alloc::Global;
use xk_base::NoMemory;

/// A part of the machine's invariant.
#[derive(Clone, Copy, Debug, PartialEq, Eq)]
pub enum Part {
    /// 1: where pages stand, and that the pages on loan of each number are one run.
    Ledger,
    /// 2: each lend has its pages, and each page on loan its lend.
    Loans,
    /// 3: messages and the threads that wait for their answers.
    Senders,
    /// 4: threads that are Receiving.
    Receivers,
    /// 5: threads that are Joining.
    Joiners,
    /// 6: the threads of living processes, each pc and each handler.
    Threads,
    /// 7: heaps.
    Heaps,
    /// 8: keys, limits and the dead.
    Keys,
    /// 9: the timer.
    Timer,
}

impl Part {
    /// Its number, from 1.
    pub fn number(self) -> u32
        ensures { result ≡ number_of self }
    {
        match self {
            Part::Ledger => 1,
            Part::Loans => 2,
            Part::Senders => 3,
            Part::Receivers => 4,
            Part::Joiners => 5,
            Part::Threads => 6,
            Part::Heaps => 7,
            Part::Keys => 8,
            Part::Timer => 9,
        }
    }
}

/// How many parts there are.
const PART_COUNT: u32 = 9;

/// The part of a number.
fn part_at(number: u32) -> Part
    requires from { 1 ≤ number }
    requires to { number ≤ 9 }
    ensures { number_of result ≡ number }
{
    match number {
        1 => Part::Ledger,
        2 => Part::Loans,
        3 => Part::Senders,
        4 => Part::Receivers,
        5 => Part::Joiners,
        6 => Part::Threads,
        7 => Part::Heaps,
        8 => Part::Keys,
        _ => Part::Timer,
    }
}

/// Part 6: the threads of living processes, and where threads and handlers are.
fn is_code_matched(state: &State) -> bool
    requires { AreRowsInOrder state.now }
    ensures { IsTrue result ↔ (AreThreadsMatched (processes_of state.now.procs) (threads_of state.now.threads)
        × AreHandlersMatched (claims_of state.now.claims)) }
{
    are_threads_matched(state.procs.as_slice(), state.threads.as_slice())
        && are_handlers_matched(state.claims.as_slice())
}

/// Part 8, of the next message and the next server: each number that was given took a step.
fn are_numbers_stepped(state: &State) -> bool
    ensures { IsTrue result ↔ AreNextStepped state.now.next_number state.now.next_serial state.now.steps }
{
    let limit = state.steps as u64 + 1;
    state.next_number as u64 <= limit && state.next_serial as u64 <= limit
}

/// What of part 8 takes no memory to tell, without the steps.
fn are_keys_told(state: &State) -> bool
    ensures { result ≡ are_keys_told_of state.now }
{
    let procs = state.procs.as_slice();
    let servers = state.servers.as_slice();
    all_threads_living(state.n, procs, state.threads.as_slice())
        && all_homes_living(procs, state.pages.as_slice())
        && are_processes_told(state.n, procs)
        && are_few_apart(procs, servers)
        && all_claims_living(procs, state.claims.as_slice())
        && all_are_below(state.next_number, state.next_serial, procs, servers)
}

/// Part 8: keys, limits and the dead.
fn are_keys_matched(alloc: Global, state: &State) -> Result<bool, NoMemory>
    requires { AreRowsInOrder state.now }
    ensures { (file : List ℕ) → IfOk result (λ told. IsTrue told ↔ AreKeysMatched (machine_of file state.now)) }
{
    if !are_numbers_stepped(state) {
        return Ok(false);
    }
    if !are_keys_told(state) {
        return Ok(false);
    }
    are_messages_apart(alloc, state.servers.as_slice())
}

/// Whether a part of the invariant holds of a state.
fn is_part_matched(alloc: Global, part: Part, state: &State) -> Result<bool, NoMemory>
    requires { AreRowsInOrder state.now }
    ensures { (file : List ℕ) → IfOk result (λ told. IsTrue told ↔ Holds part (machine_of file state.now)) }
{
    let procs = state.procs.as_slice();
    let threads = state.threads.as_slice();
    let servers = state.servers.as_slice();
    let pages = state.pages.as_slice();
    match part {
        Part::Ledger => is_ledger_matched(alloc, state),
        Part::Loans => are_loans_matched(alloc, servers, pages, state.orphans.as_slice()),
        Part::Senders => are_senders_matched(alloc, threads, servers),
        Part::Receivers => Ok(are_receivers_matched(servers, threads)),
        Part::Joiners => Ok(are_joiners_matched(threads)),
        Part::Threads => Ok(is_code_matched(state)),
        Part::Heaps => Ok(are_heaps_matched(procs, pages)),
        Part::Keys => are_keys_matched(alloc, state),
        Part::Timer => Ok(is_timer_matched(state)),
    }
}

/// The first part of the invariant that doesn't hold of a state; none where the machine can be in it.
pub fn first_unmatched(alloc: Global, state: &State) -> Result<Option<Part>, NoMemory>
    requires { AreRowsInOrder state.now }
    ensures { (file : List ℕ) → let m = machine_of file state.now in
        IfOk result (λ first. MatchOption first (Matched m) (IsFirstUnmatched m)) }
{
    for number in 1..PART_COUNT + 1 {
        let part = part_at(number);
        if !is_part_matched(alloc, part, state)? {
            return Ok(Some(part));
        }
    }
    Ok(None)
}
