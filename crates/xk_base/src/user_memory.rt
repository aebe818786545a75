//! Memory as the instructions of a process see it.

ghost use Rattle.std.specs.Prelude.{◌≡◌, ◌%◌, ◌≤◌, ℕ, Bool, true, Option, IfOk, OnErr};
ghost use Rattle.xk_base.specs.declared.pages.Access.{Access};
ghost use Rattle.xk_base.specs.declared.pages.Access.TheVariants.{Fetch, Load, Store};
ghost use Rattle.xk_base.specs.Outside.{Rose};
ghost use Rattle.xk_base.specs.UserMemory.{Content, KeepsContent, FetchesNumber, LoadsNumber, Seen, StoresAsTold, Timer, size_of};

use crate::errors::Failed;
use crate::pages::{Stored, Width};

/// The memory of a process by virtual addresses, as its instructions see it.
///
/// It may have to bring a page from outside; where that fails, it counts a fault and answers
/// `Failed`, and it isn't fit for use from then on. It never does so for a page that isn't out. Addresses are aligned to the width of the
/// access: the hart traps before it asks for any other.
pub trait UserMemory {
    /// Which access the process has at an address.
    ghost may: { Self → Access → ℕ → Bool };

    /// Whether an address is in the console's page.
    ghost console: { Self → ℕ → Bool };

    /// Where it is told: the byte at each address; 0 in the console's page and in the timer's.
    ghost content: { Self → Content };

    /// Whether the page of an address is out, so that an access has to bring it.
    ghost out: { Self → ℕ → Bool };

    /// The timer, where its page is there: for the process that has claimed its interrupt.
    ghost timer: { Self → Option Timer };

    /// Whether it is fit for use.
    ghost fit: { Self → Type 0 };

    /// The count of faults.
    ghost faults: { Self → ℕ };

    /// What is kept besides is the same. No call changes it.
    ghost same_rest: { Self → Self → Type 0 };

    /// The word at an address, lowest byte first, where the process may fetch it.
    fn fetch(&mut self, va: u32) -> Result<Option<u32>, Failed>
        requires fit { fit self.old }
        requires aligned { va % 4 ≡ 0 }
        ensures gives { IfOk result (λ word. FetchesNumber (may self.old Fetch va) (content self.old) va word) }
        ensures kept { KeepsContent (content self.old) (content self.new) }
        ensures timer { timer self.new ≡ timer self.old }
        ensures may { may self.new ≡ may self.old }
        ensures console { console self.new ≡ console self.old }
        ensures rest { same_rest self.old self.new }
        ensures fit { IfOk result (λ _. fit self.new) }
        ensures unfit { OnErr result (¬ fit self.new) }
        ensures cause { OnErr result (Rose (faults self.old) (faults self.new)) }
        ensures out { OnErr result (out self.old va ≡ true) }
        ensures never_falls { faults self.old ≤ faults self.new };

    /// The number of that width at an address, lowest byte first and not sign-extended, where the
    /// process may load it. A load from the console's page gives 0, and one from the timer's what the
    /// timer shows.
    fn load(&mut self, va: u32, width: Width) -> Result<Option<u32>, Failed>
        requires fit { fit self.old }
        requires aligned { va % size_of width ≡ 0 }
        ensures gives { IfOk result (λ value. LoadsNumber (may self.old Load va) (timer self.old) (content self.old) va width value) }
        ensures kept { KeepsContent (content self.old) (content self.new) }
        ensures timer { timer self.new ≡ timer self.old }
        ensures may { may self.new ≡ may self.old }
        ensures console { console self.new ≡ console self.old }
        ensures rest { same_rest self.old self.new }
        ensures fit { IfOk result (λ _. fit self.new) }
        ensures unfit { OnErr result (¬ fit self.new) }
        ensures cause { OnErr result (Rose (faults self.old) (faults self.new)) }
        ensures out { OnErr result (out self.old va ≡ true) }
        ensures never_falls { faults self.old ≤ faults self.new };

    /// Stores the low bytes of a value at an address, lowest byte first, where the process may store
    /// there and it isn't the console's page; in the timer's page the timer takes them.
    fn store(&mut self, va: u32, width: Width, value: u32) -> Result<Stored, Failed>
        requires fit { fit self.old }
        requires aligned { va % size_of width ≡ 0 }
        ensures stores { let old : Seen = record { content = content self.old; timer = timer self.old } in
            let new : Seen = record { content = content self.new; timer = timer self.new } in
            IfOk result (λ stored. StoresAsTold (may self.old Store va) (console self.old va) old new va width value stored) }
        ensures kept { OnErr result (KeepsContent (content self.old) (content self.new)) }
        ensures timer { OnErr result (timer self.new ≡ timer self.old) }
        ensures may { may self.new ≡ may self.old }
        ensures console { console self.new ≡ console self.old }
        ensures rest { same_rest self.old self.new }
        ensures fit { IfOk result (λ _. fit self.new) }
        ensures unfit { OnErr result (¬ fit self.new) }
        ensures cause { OnErr result (Rose (faults self.old) (faults self.new)) }
        ensures out { OnErr result (out self.old va ≡ true) }
        ensures never_falls { faults self.old ≤ faults self.new };

    /// Whether the process may store at an address.
    fn can_store(&self, va: u32, width: Width) -> bool
        requires fit { fit self.now }
        requires aligned { va % size_of width ≡ 0 }
        ensures { result ≡ may self.now Store va };

    /// The count has a greatest value, at which it stays.
    ghost bounded: { (memory : Self) → faults memory ≤ 18446744073709551615 };

    /// What is the same over two calls is so over both.
    ghost rest_over: { (a b c : Self) → same_rest a b → same_rest b c → same_rest a c };
}
