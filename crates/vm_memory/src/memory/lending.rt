//! Pages are lent and moved. No call moves a byte: each is its step of the ledger, whatever the store
//! tells.

ghost use Rattle.xk_base.specs.Tables.Circle.{is_pid};
ghost use Rattle.std.specs.Prelude.{◌≡◌, ◌≤◌, true, is_some, IsTrue};
ghost use Rattle.ledger_model.specs.LeastRun.{least_run};
ghost use Rattle.ledger_model.specs.Loans.{IsFresh, Stands, loans, with_holder, without_lender};
ghost use Rattle.ledger_model.specs.Steps.{end_loan, give, lend, orphan_loan, pass};
ghost use Rattle.loan_flags.specs.Sending.{mem_kind};
ghost use Rattle.vm_memory.specs.Loaning.Loans.{KeepsSeats, orphans_of};
ghost use Rattle.vm_memory.specs.Memory.{IsUsable, ledger, processes};
ghost use Rattle.vm_memory.specs.Loaning.Sending.{IsFreeArrival, send_answer};
ghost use Rattle.vm_memory.specs.Sound.{IsSound};
ghost use Rattle.xk_base.specs.declared.messages.MemKind.TheVariants.{Move};

use crate::memory::Memory;
use crate::memory::changes::hand_left;
use loan_flags::{Loan, end_run, free_run, give_run, lend_run, may_send, orphan_run, pass_run};
use xk_base::{LoanKind, MemKind, Number, Pid, Place, Vpn, Window, XousError};
use xk_ports::SwapStore;

// How many orphans end with a loan.
fn orphans(loan: &Loan) -> u32
    ensures { result ≡ orphans_of loan.now }
{
    match loan.lender() {
        Some(_) => 0,
        None => loan.count(),
    }
}

impl<W: SwapStore> Memory<W> {
    /// Whether the n pages from a place on may be sent in a message of that kind: `BadAddress` where
    /// a place has no page, then `ShareViolation` where a page is on loan on either side, is the
    /// console, or is to be lent mutably and has no w.
    pub fn may_send(&self, from: Place, n: u32, kind: MemKind) -> Result<(), XousError>
        requires sound { IsSound W.slot_count self.now }
        requires usable { IsUsable self.now }
        requires process { is_pid (processes self.now) from.pid.0 ≡ true }
        ensures { result ≡ send_answer (processes self.now) (ledger W.held self.now) from n kind }
    {
        may_send(&self.ram, from, n, kind)
    }

    /// The least first page of a run of n free places in a window of the process, or `None` where no
    /// run is free. It takes time by the pages of the window.
    pub fn free_run(&self, pid: Pid, window: Window, n: u32) -> Option<Vpn>
        requires sound { IsSound W.slot_count self.now }
        requires usable { IsUsable self.now }
        requires process { is_pid (processes self.now) pid.0 ≡ true }
        requires some { 1 ≤ n }
        ensures { result ≡ least_run (processes self.now) (ledger W.held self.now) pid window n }
    {
        free_run(&self.ram, pid, window, n)
    }

    /// Lends the n pages from a place on, which may be sent so, to the n free places from `to` on.
    /// The number is that of no loan or orphan.
    pub fn lend(&mut self, from: Place, n: u32, to: Place, kind: LoanKind, number: Number) -> Loan
        requires sound { IsSound W.slot_count self.old }
        requires usable { IsUsable self.old }
        requires some { 1 ≤ n }
        requires may { send_answer (processes self.old) (ledger W.held self.old) from n (mem_kind kind) ≡ Ok tt }
        requires arrival { IsFreeArrival (processes self.old) (ledger W.held self.old) to n }
        requires fresh { IsFresh (loans (ledger W.held self.old)) number }
        ensures loan { result ≡ record { lender = Some from; holder = to; count = n; kind = kind; number = number } }
        ensures ledger { ledger W.held self.new ≡ lend from n to kind number (ledger W.held self.old) }
        ensures stands { Stands (loans (ledger W.held self.new)) result }
        ensures keeps { KeepsSeats W.SwapStore self.old self.new }
    {
        lend_run(&mut self.ram, &mut self.owners, from, n, to, kind, number)
    }

    /// Moves the n pages from a place on, which may be sent in a move, with their rights to the n
    /// free places from `to` on.
    pub fn give(&mut self, from: Place, n: u32, to: Place)
        requires sound { IsSound W.slot_count self.old }
        requires usable { IsUsable self.old }
        requires some { 1 ≤ n }
        requires may { send_answer (processes self.old) (ledger W.held self.old) from n Move ≡ Ok tt }
        requires arrival { IsFreeArrival (processes self.old) (ledger W.held self.old) to n }
        ensures ledger { ledger W.held self.new ≡ give from n to (ledger W.held self.old) }
        ensures keeps { KeepsSeats W.SwapStore self.old self.new }
    {
        give_run(&mut self.ram, &mut self.owners, from, n, to);
    }

    /// Ends a loan: the lender's pages have their former rights again, or the orphans are forgotten.
    /// The holder's places are free. It may be called after `Failed` too.
    pub fn end_loan(&mut self, loan: Loan)
        requires sound { IsSound W.slot_count self.old }
        requires stands { Stands (loans (ledger W.held self.old)) loan }
        ensures ledger { ledger W.held self.new ≡ end_loan loan.number (ledger W.held self.old) }
        ensures fresh { IsFresh (loans (ledger W.held self.new)) loan.number }
        ensures keeps { KeepsSeats W.SwapStore self.old self.new }
    {
        let frames = self.page_frames();
        let gone = orphans(&loan);
        end_run(&mut self.ram, &mut self.owners, loan);
        self.pages -= gone;
        self.hand = hand_left(gone, frames, self.pages, self.hand);
    }

    /// Takes the lender from a loan: the lender's places are free, and the pages are orphans at the
    /// holder's places.
    pub fn orphan(&mut self, loan: Loan) -> Loan
        requires sound { IsSound W.slot_count self.old }
        requires usable { IsUsable self.old }
        requires stands { Stands (loans (ledger W.held self.old)) loan }
        requires lent { IsTrue (is_some loan.lender) }
        ensures loan { result ≡ without_lender loan }
        ensures ledger { ledger W.held self.new ≡ orphan_loan (processes self.old) loan.number (ledger W.held self.old) }
        ensures stands { Stands (loans (ledger W.held self.new)) result }
        ensures keeps { KeepsSeats W.SwapStore self.old self.new }
    {
        orphan_run(&mut self.ram, &mut self.owners, loan)
    }

    /// Passes a loan with a lender on to the free places from `to` on. The lender's pages stay.
    pub fn pass(&mut self, loan: Loan, to: Place) -> Loan
        requires sound { IsSound W.slot_count self.old }
        requires usable { IsUsable self.old }
        requires stands { Stands (loans (ledger W.held self.old)) loan }
        requires lent { IsTrue (is_some loan.lender) }
        requires arrival { IsFreeArrival (processes self.old) (ledger W.held self.old) to loan.count }
        ensures loan { result ≡ with_holder to loan }
        ensures ledger { ledger W.held self.new ≡ pass loan.number loan.holder to (ledger W.held self.old) }
        ensures stands { Stands (loans (ledger W.held self.new)) result }
        ensures keeps { KeepsSeats W.SwapStore self.old self.new }
    {
        pass_run(&mut self.ram, &mut self.owners, loan, to)
    }
}
