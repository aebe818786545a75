//! Pages are removed and reduced.

ghost use Rattle.xk_base.specs.Tables.Circle.{is_pid};
ghost use Rattle.std.specs.Prelude.{None, OnErr, ◌≡◌, ℕ, ◌+◌, ◌-◌, ◌%◌, ◌<◌, ◌≤◌, true, false};
ghost use Rattle.ledger_model.specs.LeastRun.{window_pages, window_place};
ghost use Rattle.ledger_model.specs.Places.{in_run, is_user_place, place_after};
ghost use Rattle.ledger_model.specs.Reach.{role_at};
ghost use Rattle.ledger_model.specs.RunTests.{any_lacks, any_on_loan, asks_more, is_on_loan};
ghost use Rattle.ledger_model.specs.Steps.{forget, reduce, remove};
ghost use Rattle.vm_memory.specs.Bytes.{MeansBytes, none_out};
ghost use Rattle.vm_memory.specs.Pages.Changing.{ChangesPagesAlone, TakesNoSeat};
ghost use Rattle.vm_memory.specs.Memory.{IsUsable, ledger, processes, size, store_of};
ghost use Rattle.vm_memory.specs.Pages.Removing.{HasNoLoan, after_reduce, after_remove, clear_answer, reduce_answer, remove_answer};
ghost use Rattle.vm_memory.specs.Sound.{IsSound};
ghost use Rattle.vm_memory.specs.Tie.{IsTied};

use crate::memory::Memory;
use page_views::RunTest;
use sv32_space::{table_of, used_entry};
use xk_base::{Pid, Place, Right, Vpn, Window, XousError};
use xk_ports::SwapStore;

impl<W: SwapStore> Memory<W> {
    // Removes the page `i` pages above a place, if there is one.
    fn drop_above(&mut self, first: Place, i: u32)
        requires sound { IsSound W.slot_count self.old }
        requires not_lent { is_on_loan (role_at (processes self.old) (ledger W.held self.old) (place_after first i)) ≡ false }
        ensures sound { IsSound W.slot_count self.new }
        ensures ledger { ledger W.held self.new ≡ remove (in_run (place_after first i) 1) (ledger W.held self.old) }
        ensures rest { ChangesPagesAlone self.old self.new }
        ensures seats { TakesNoSeat self.old self.new }
    {
        match first.vpn.0.checked_add(i) {
            Some(vpn) => self.drop_page(Place {
                pid: first.pid,
                vpn: Vpn(vpn),
            }),
            None => {}
        }
    }

    // Gives the page `i` pages above a place another right, if there is one.
    fn set_right_above(&mut self, first: Place, i: u32, right: Right)
        requires sound { IsSound W.slot_count self.old }
        requires not_lent { is_on_loan (role_at (processes self.old) (ledger W.held self.old) (place_after first i)) ≡ false }
        requires within { asks_more right ((ledger W.held self.old).home (place_after first i)) ≡ false }
        ensures sound { IsSound W.slot_count self.new }
        ensures ledger { ledger W.held self.new ≡ reduce (in_run (place_after first i) 1) right (ledger W.held self.old) }
        ensures rest { ChangesPagesAlone self.old self.new }
        ensures seats { TakesNoSeat self.old self.new }
    {
        match first.vpn.0.checked_add(i) {
            Some(vpn) => {
                let at = Place {
                    pid: first.pid,
                    vpn: Vpn(vpn),
                };
                self.set_right(at, right);
            }
            None => {}
        }
    }

    // Removes the pages of a run of which none is on loan; places without a page are passed over.
    fn drop_pages(&mut self, first: Place, n: u32)
        requires sound { IsSound W.slot_count self.old }
        requires not_lent { any_on_loan (processes self.old) (ledger W.held self.old) first n ≡ false }
        ensures sound { IsSound W.slot_count self.new }
        ensures ledger { ledger W.held self.new ≡ remove (in_run first n) (ledger W.held self.old) }
        ensures rest { ChangesPagesAlone self.old self.new }
        ensures seats { TakesNoSeat self.old self.new }
    {
        for i in 0..n {
            self.drop_above(first, i);
        }
    }

    // Gives the pages of a run, of which none is on loan or lacks it, another right.
    fn set_rights(&mut self, first: Place, n: u32, right: Right)
        requires sound { IsSound W.slot_count self.old }
        requires not_lent { any_on_loan (processes self.old) (ledger W.held self.old) first n ≡ false }
        requires within { any_lacks right (ledger W.held self.old) first n ≡ false }
        ensures sound { IsSound W.slot_count self.new }
        ensures ledger { ledger W.held self.new ≡ reduce (in_run first n) right (ledger W.held self.old) }
        ensures rest { ChangesPagesAlone self.old self.new }
        ensures seats { TakesNoSeat self.old self.new }
    {
        for i in 0..n {
            self.set_right_above(first, i, right);
        }
    }

    /// Removes the n pages from a place on, the console too. It refuses with `BadAddress` where a
    /// place has no page, then with `ShareViolation` where one is on loan, on either side; nothing
    /// changes then.
    pub fn remove_run(&mut self, first: Place, n: u32) -> Result<(), XousError>
        requires sound { IsSound W.slot_count self.old }
        requires usable { IsUsable self.old }
        requires process { is_pid (processes self.old) first.pid.0 ≡ true }
        ensures sound { IsSound W.slot_count self.new }
        ensures answer { result ≡ remove_answer (processes self.old) (ledger W.held self.old) first n }
        ensures ledger { ledger W.held self.new ≡ after_remove result first n (ledger W.held self.old) }
        ensures refused { OnErr result (self.new ≡ self.old) }
        ensures usable { IsUsable self.new }
        ensures tie { IsTied W.held self.new }
        ensures size { size self.new ≡ size self.old }
        ensures store { store_of self.new ≡ store_of self.old }
        // No page goes out, and none comes in.
        ensures seats { TakesNoSeat self.old self.new }
        ensures none { none_out self.old ≡ true → none_out self.new ≡ true }
        ensures means { MeansBytes W.SwapStore self.old → MeansBytes W.SwapStore self.new }
    {
        if self.any(first, n, RunTest::Free) {
            return Err(XousError::BadAddress);
        }
        if self.any(first, n, RunTest::OnLoan) {
            return Err(XousError::ShareViolation);
        }
        self.drop_pages(first, n);
        Ok(())
    }

    /// Removes the pages of n places from one on; places without a page are passed over. It refuses
    /// with `ShareViolation` where one is on loan, on either side; nothing changes then.
    pub fn clear_run(&mut self, first: Place, n: u32) -> Result<(), XousError>
        requires sound { IsSound W.slot_count self.old }
        requires usable { IsUsable self.old }
        requires process { is_pid (processes self.old) first.pid.0 ≡ true }
        ensures sound { IsSound W.slot_count self.new }
        ensures answer { result ≡ clear_answer (processes self.old) (ledger W.held self.old) first n }
        ensures ledger { ledger W.held self.new ≡ after_remove result first n (ledger W.held self.old) }
        ensures refused { OnErr result (self.new ≡ self.old) }
        ensures usable { IsUsable self.new }
        ensures tie { IsTied W.held self.new }
        ensures size { size self.new ≡ size self.old }
        ensures store { store_of self.new ≡ store_of self.old }
        // No page goes out, and none comes in.
        ensures seats { TakesNoSeat self.old self.new }
        ensures none { none_out self.old ≡ true → none_out self.new ≡ true }
        ensures means { MeansBytes W.SwapStore self.old → MeansBytes W.SwapStore self.new }
    {
        if self.any(first, n, RunTest::OnLoan) {
            return Err(XousError::ShareViolation);
        }
        self.drop_pages(first, n);
        Ok(())
    }

    /// Gives the n pages from a place on a right that has nothing more than theirs. It refuses with
    /// `BadAddress` where a place has no page, then with `ShareViolation` where one is on loan, on
    /// either side, then with `AccessDenied` where one lacks what the right asks for; nothing
    /// changes then.
    pub fn reduce_run(&mut self, first: Place, n: u32, right: Right) -> Result<(), XousError>
        requires sound { IsSound W.slot_count self.old }
        requires usable { IsUsable self.old }
        requires process { is_pid (processes self.old) first.pid.0 ≡ true }
        ensures sound { IsSound W.slot_count self.new }
        ensures answer { result ≡ reduce_answer (processes self.old) (ledger W.held self.old) first n right }
        ensures ledger { ledger W.held self.new ≡ after_reduce result first n right (ledger W.held self.old) }
        ensures refused { OnErr result (self.new ≡ self.old) }
        ensures usable { IsUsable self.new }
        ensures tie { IsTied W.held self.new }
        ensures size { size self.new ≡ size self.old }
        ensures store { store_of self.new ≡ store_of self.old }
        // No page goes out, and none comes in.
        ensures seats { TakesNoSeat self.old self.new }
        ensures none { none_out self.old ≡ true → none_out self.new ≡ true }
        ensures means { MeansBytes W.SwapStore self.old → MeansBytes W.SwapStore self.new }
    {
        if self.any(first, n, RunTest::Free) {
            return Err(XousError::BadAddress);
        }
        if self.any(first, n, RunTest::OnLoan) {
            return Err(XousError::ShareViolation);
        }
        if self.any(first, n, RunTest::Lacks(right)) {
            return Err(XousError::AccessDenied);
        }
        self.set_rights(first, n, right);
        Ok(())
    }

    // How many places from this one on have no page, of those in its table: their words are 0.
    fn free_places(&self, at: Place) -> u32
        requires sound { IsSound W.slot_count self.now }
        requires lie { (i : ℕ) → at.vpn.0 % 1024 + i < 1024 → is_user_place (processes self.now) (place_after at i) ≡ true }
        ensures table { at.vpn.0 % 1024 + result ≤ 1024 }
        ensures free { (i : ℕ) → i < result → (ledger W.held self.now).home (place_after at i) ≡ None }
    {
        let entry = at.vpn.0 % 1024;
        used_entry(table_of(&self.ram, at), entry) - entry
    }

    // Removes the next page of a run that ends with a table, in which so many places are done, and answers
    // how many are done then: those without a page, up to the end of their table, and the place behind them.
    fn drop_next(&mut self, first: Place, n: u32, done: u32) -> u32
        requires sound { IsSound W.slot_count self.old }
        requires lie { (i : ℕ) → i < n → is_user_place (processes self.old) (place_after first i) ≡ true }
        requires whole { (first.vpn.0 + n) % 1024 ≡ 0 }
        requires left { done < n }
        requires no_loan { HasNoLoan (ledger W.held self.old) first.pid }
        ensures further { done < result }
        ensures within { result ≤ n }
        ensures sound { IsSound W.slot_count self.new }
        ensures ledger { ledger W.held self.new
            ≡ remove (in_run (place_after first done) (result - done)) (ledger W.held self.old) }
        ensures rest { ChangesPagesAlone self.old self.new }
        ensures seats { TakesNoSeat self.old self.new }
    {
        let next = Place {
            pid: first.pid,
            vpn: Vpn(first.vpn.0 + done),
        };
        let free = self.free_places(next);
        if done + free == n {
            return n;
        }
        self.drop_page(Place {
            pid: first.pid,
            vpn: Vpn(next.vpn.0 + free),
        });
        done + free + 1
    }

    // Removes the pages of a run that ends with a table. It goes by the words of the tables.
    fn drop_used(&mut self, first: Place, n: u32)
        requires sound { IsSound W.slot_count self.old }
        requires lie { (i : ℕ) → i < n → is_user_place (processes self.old) (place_after first i) ≡ true }
        requires whole { (first.vpn.0 + n) % 1024 ≡ 0 }
        requires no_loan { HasNoLoan (ledger W.held self.old) first.pid }
        ensures sound { IsSound W.slot_count self.new }
        ensures ledger { ledger W.held self.new ≡ remove (in_run first n) (ledger W.held self.old) }
        ensures rest { ChangesPagesAlone self.old self.new }
        ensures seats { TakesNoSeat self.old self.new }
    {
        let mut done = 0;
        'places: while done < n {
            done = self.drop_next(first, n, done);
        }
    }

    // Removes the pages of a process in one window.
    fn drop_window(&mut self, pid: Pid, window: Window)
        requires sound { IsSound W.slot_count self.old }
        requires process { is_pid (processes self.old) pid.0 ≡ true }
        requires no_loan { HasNoLoan (ledger W.held self.old) pid }
        ensures sound { IsSound W.slot_count self.new }
        ensures ledger { ledger W.held self.new ≡ remove (in_run (window_place pid window 0) (window_pages window))
            (ledger W.held self.old) }
        ensures no_loan { HasNoLoan (ledger W.held self.new) pid }
        ensures rest { ChangesPagesAlone self.old self.new }
        ensures seats { TakesNoSeat self.old self.new }
    {
        let first = Place {
            pid,
            vpn: window.first(),
        };
        self.drop_used(first, window.last().0 + 1 - window.first().0);
    }

    /// Removes all pages with a home of a process, the console too. No loan or orphan may have a
    /// lender or holder of that process.
    pub fn forget_process(&mut self, pid: Pid)
        requires sound { IsSound W.slot_count self.old }
        requires usable { IsUsable self.old }
        requires process { is_pid (processes self.old) pid.0 ≡ true }
        requires no_loan { HasNoLoan (ledger W.held self.old) pid }
        ensures sound { IsSound W.slot_count self.new }
        ensures ledger { ledger W.held self.new ≡ forget pid (ledger W.held self.old) }
        ensures usable { IsUsable self.new }
        ensures tie { IsTied W.held self.new }
        ensures size { size self.new ≡ size self.old }
        ensures store { store_of self.new ≡ store_of self.old }
        // No page goes out, and none comes in.
        ensures seats { TakesNoSeat self.old self.new }
        ensures none { none_out self.old ≡ true → none_out self.new ≡ true }
        ensures means { MeansBytes W.SwapStore self.old → MeansBytes W.SwapStore self.new }
    {
        self.drop_window(pid, Window::Image);
        self.drop_window(pid, Window::Heap);
        self.drop_window(pid, Window::Message);
        self.drop_window(pid, Window::Map);
        self.drop_window(pid, Window::Stack);
    }
}
