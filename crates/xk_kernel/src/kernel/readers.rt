//! What a kernel tells without a step, the end of a turn, and its own end.

ghost use Rattle.std.specs.Prelude.{◌≡◌, is_some};
ghost use Rattle.machine_model.specs.State.Order.{actor, ready_at, turn};
ghost use Rattle.page_views.specs.Here.{here_at};
ghost use Rattle.vm_memory.specs.Memory.{ram_of, store_of};
ghost use Rattle.vm_memory.specs.Tie.{IsTied};
ghost use Rattle.xk_kernel.specs.Knowing.{PutsNoneOut};
ghost use Rattle.xk_kernel.specs.Sound.{IsSound, IsUsable, IsWhole, Keeps};
ghost use Rattle.xk_kernel.specs.State.{machine_of};
ghost use Rattle.xk_kernel.specs.Stepping.{last_of};

use crate::kernel::Kernel;
use kill_path::close_all;
use phys_pages::Ram;
use thread_table::ThreadState;
use vm_memory::Here;
use xk_base::{Place, Rec, ThreadId};
use xk_ports::SwapStore;

impl<W: SwapStore> Kernel<W> {
    // Whether there is a thread of that id, and it is Ready.
    pub(super) fn is_ready_at(&self, id: ThreadId) -> bool
        ensures { result ≡ ready_at (machine_of W.held self.now) id }
    {
        match self.threads.get(id) {
            Some(thread) => matches!(thread.state, ThreadState::Ready),
            None => false,
        }
    }

    // Who does the next step: the thread whose turn it is where it is Ready, else the next ready
    // one. The first test alone is made where a thread goes on.
    pub(super) fn actor(&self) -> Option<ThreadId>
        requires whole { IsWhole W.SwapStore self.now }
        ensures { result ≡ actor (machine_of W.held self.now) }
    {
        if self.is_ready_at(self.cursor) {
            return Some(self.cursor);
        }
        self.threads.next_ready_after(self.cursor)
    }

    /// Whether a thread is Ready, so that there is a next step.
    pub fn ready(&self) -> bool
        requires sound { IsSound W.SwapStore self.now }
        requires usable { IsUsable self.now }
        ensures { result ≡ is_some (actor (machine_of W.held self.now)) }
    {
        self.actor().is_some()
    }

    /// How many steps were done.
    pub fn steps(&self) -> u32
        ensures { result ≡ (machine_of W.held self.now).steps }
    {
        self.steps
    }

    /// The records of the last step or event.
    pub fn last(&self) -> &[Rec]
        ensures { result.now ≡ last_of self.now }
    {
        self.log.as_slice()
    }

    /// What the ledger has at a place.
    pub fn at(&self, place: Place) -> Here
        requires sound { IsSound W.SwapStore self.now }
        ensures { result ≡ here_at (machine_of W.held self.now).processes (machine_of W.held self.now).ledger place }
    {
        self.mem.at(place)
    }

    /// The RAM. Its bytes, with what the store's slots hold, stand for the ledger.
    pub fn ram(&self) -> &Ram
        requires sound { IsSound W.SwapStore self.now }
        ensures bytes { result.now ≡ ram_of self.now.mem }
        ensures tie { IsTied W.held self.now.mem }
    {
        self.mem.ram()
    }

    // The cursor goes to the next ready thread, where there is one.
    pub(super) fn turn(&mut self)
        requires whole { IsWhole W.SwapStore self.old }
        ensures whole { IsWhole W.SwapStore self.new }
        ensures machine { machine_of W.held self.new ≡ turn (machine_of W.held self.old) }
        ensures mem { self.new.mem ≡ self.old.mem }
        ensures log { self.new.log ≡ self.old.log }
    {
        if let Some(next) = self.threads.next_ready_after(self.cursor) {
            self.cursor = next;
        }
    }

    /// Ends the turn: it becomes that of the next ready thread, where there is one.
    pub fn end_turn(&mut self)
        requires sound { IsSound W.SwapStore self.old }
        requires usable { IsUsable self.old }
        ensures sound { IsSound W.SwapStore self.new }
        ensures usable { IsUsable self.new }
        ensures machine { machine_of W.held self.new ≡ turn (machine_of W.held self.old) }
        ensures last { last_of self.new ≡ last_of self.old }
        ensures none { PutsNoneOut self.old self.new }
        // The store stays as it is.
        ensures store { store_of self.new.mem ≡ store_of self.old.mem }
        ensures tie { IsTied W.held self.new.mem }
        ensures keeps { Keeps W.SwapStore self.old self.new }
    {
        self.turn();
    }

    /// Ends the kernel and hands the store back. Every loan that stands is spent.
    pub fn close(self) -> W
        requires sound { IsSound W.SwapStore self }
        ensures { result ≡ store_of self.mem }
    {
        let Kernel {
            mut mem,
            threads: _,
            procs: _,
            mut servers,
            mut queues,
            claims: _,
            log: _,
            cursor: _,
            next: _,
            steps: _,
            timer: _,
            reserved: _,
        } = self;
        close_all(&mut mem, &mut servers, &mut queues);
        queues.close();
        mem.close()
    }
}
