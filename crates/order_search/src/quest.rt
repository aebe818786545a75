//! A search of orders, and what it needs.

ghost use Rattle.std.specs.Prelude.{◌≡◌, ◌≤◌, ◌<◌, ◌^◌, All, IfOk, None, Some, length};
ghost use Rattle.boot_plan.specs.Capacity.{capacity};
ghost use Rattle.boot_plan.specs.Lawful.{CanStart, IsLawfulPlan};
ghost use Rattle.suspend_image.specs.Sheets.{room_for};
ghost use Rattle.order_search.specs.Faults.{IsMemory, IsUnplayed};

use crate::subject::Subject;
use boot_plan::cap;
use graph_search::Unanswered;
use order_player::MoveFault;
use std::alloc::{AllocError, Global};
use suspend_image::Sheet;
use xk_base::{Event, NoMemory};

/// Why orders aren't searched on.
#[derive(Clone, Copy, Debug, PartialEq, Eq)]
pub enum OrderFault {
    /// A run may not have as many steps as an order has, or as the events before.
    Steps,
    /// An order has no bound, and a process has claimed the timer's interrupt.
    Timer,
    /// The line of this number is the first bad line of the events before.
    Line(u32),
}

/// Orders that are asked for, with room for their states.
#[derive(Drop)]
pub struct Quest {
    pub(crate) alloc: Global,
    pub(crate) subject: Subject,
    // Where states are written.
    pub(crate) sheet: Sheet,
    ghost lawful: { IsLawfulPlan (length subject.file.items) subject.plan },
    ghost can_start: { All CanStart subject.plan.procs },
    ghost few: { length subject.orders.once.items < 2 ^ 32 },
    ghost room: { let plan = subject.plan in
        room_for (length plan.procs) (capacity plan.frames (length plan.procs) plan.slots) ≤ sheet.room },
}

impl Quest {
    /// A search of these orders.
    pub fn new(alloc: Global, subject: Subject) -> Result<Quest, NoMemory>
        requires lawful { IsLawfulPlan (length subject.file.items) subject.plan }
        requires can_start { All CanStart subject.plan.procs }
        requires few { length subject.orders.once.items < 2 ^ 32 }
        ensures { IfOk result (λ quest. quest.subject ≡ subject) }
    {
        let processes = subject.plan.procs.as_slice().len() as u32;
        let sheet = Sheet::new(alloc, processes, cap(&subject.plan))?;
        Ok(Quest {
            alloc,
            subject,
            sheet,
        })
    }

    /// Orders have at most so many steps from now on.
    pub fn count_steps(&mut self, bound: u32)
        ensures { self.new.subject
            ≡ record self.old.subject { orders = record self.old.subject.orders { bound = Some bound } } }
    {
        self.subject.orders.bound = Some(bound);
    }

    /// At most so many moves of an order are preempted from now on, and orders have no bound of steps.
    pub fn allow_preemptions(&mut self, most: u32)
        ensures { self.new.subject ≡ record self.old.subject {
          orders = record self.old.subject.orders { preemptions = most; bound = None };
        } }
    {
        self.subject.orders.preemptions = most;
        self.subject.orders.bound = None;
    }

    /// How many moves of an order are preempted at most.
    pub fn preemptions(&self) -> u32
        ensures { result ≡ self.now.subject.orders.preemptions }
    {
        self.subject.orders.preemptions
    }

    /// How many steps an order has at most, where steps count.
    pub fn bound(&self) -> Option<u32>
        ensures { result ≡ self.now.subject.orders.bound }
    {
        self.subject.orders.bound
    }

    /// The bytes of the event file that is played before.
    pub fn before(&self) -> &[u8]
        ensures { result.now ≡ self.now.subject.before.items }
    {
        self.subject.before.as_slice()
    }

    /// The events that may come, each once.
    pub fn once(&self) -> &[Event]
        ensures { result.now ≡ self.now.subject.orders.once.items }
    {
        self.subject.orders.once.as_slice()
    }
}

/// Want of memory.
pub(crate) fn no_memory() -> Unanswered<OrderFault>
    ensures { IsMemory result }
{
    Unanswered::Memory(AllocError)
}

/// Why a move wasn't played. The store doesn't fail.
pub(crate) fn unplayed(fault: MoveFault) -> Unanswered<OrderFault>
    ensures { IsUnplayed fault result }
{
    match fault {
        MoveFault::Steps => Unanswered::Fault(OrderFault::Steps),
        MoveFault::Memory | MoveFault::Swap => no_memory(),
    }
}
