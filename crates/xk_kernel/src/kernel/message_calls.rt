//! The calls on messages: they are sent, received, given back and forwarded. The caller is the thread
//! whose turn it is. A call that is done answers who is to be answered, and the caller is past it then.

ghost use Rattle.std.specs.Prelude.{◌≡◌, ◌+◌, ◌≤◌, ◌==◌, ◌&&◌, ◌||◌, length, true, false, if◌then◌else◌};
ghost use Rattle.machine_model.specs.State.Changes.{call_settled};
ghost use Rattle.send_path.specs.Rows.{receive_row, table_row};
ghost use Rattle.syscall_codec.specs.CallNumbers.{forward_message as forward_number, return_memory, return_scalar1, return_scalar2};
ghost use Rattle.syscall_codec.specs.CallNumbers.{send_message as send_number, try_send_message as try_number};
ghost use Rattle.syscall_codec.specs.CallWords.{call_number};
ghost use Rattle.xk_kernel.specs.Calling.{IsCaller, is_refused_caller};
ghost use Rattle.xk_kernel.specs.State.{machine_of};
ghost use Rattle.xk_kernel.specs.Telling.{StaysUsable, Tells};

use crate::kernel::Kernel;
use send_path::{Sent, forward, give_back, receive, send};
use xk_base::{Number, Sid, XousError};
use xk_ports::SwapStore;

impl<W: SwapStore> Kernel<W> {
    // SendMessage, and TrySendMessage where the caller only tries: an accepted message takes the next
    // number. At a full server the one will be made again, and the other is refused.
    pub(super) fn send_message(&mut self, words: [u32; 8], tries: bool)
        requires calls { IsCaller W.SwapStore self.old }
        requires number { call_number words ≡ (if tries then try_number else send_number) }
        requires free { is_refused_caller (machine_of W.held self.old) words ≡ false }
        requires room { length self.old.log.records + 2 ≤ self.old.log.room }
        ensures tells { let m = machine_of W.held self.old in
            Tells W.held self.old self.new (call_settled m (table_row words m)) }
        ensures stays { StaysUsable W.SwapStore self.old self.new }
    {
        let sent = send(
            &mut self.mem,
            &mut self.threads,
            &self.procs,
            &self.servers,
            &mut self.queues,
            &mut self.log,
            self.cursor,
            Number(self.next),
            words,
        );
        match sent {
            Sent::Accepted => self.next += 1,
            Sent::Full if tries => self.refuse(XousError::ServerQueueFull),
            Sent::Full => self.retry(),
            Sent::Refused(error) => self.refuse(error),
        }
    }

    // ReceiveMessage, and TryReceiveMessage where the caller doesn't wait for a message.
    pub(super) fn receive_message(&mut self, sid: Sid, waits: bool)
        requires calls { IsCaller W.SwapStore self.old }
        requires free { (waits && (self.old.cursor.tid.0 == 1)) ≡ false }
        requires room { length self.old.log.records + 2 ≤ self.old.log.room }
        ensures tells { let m = machine_of W.held self.old in
            Tells W.held self.old self.new (call_settled m (receive_row sid waits m)) }
        ensures stays { StaysUsable W.SwapStore self.old self.new }
    {
        let received = receive(
            &mut self.threads,
            &self.servers,
            &mut self.queues,
            &mut self.log,
            self.cursor,
            sid,
            waits,
        );
        match received {
            Ok(()) => {}
            Err(error) => self.refuse(error),
        }
    }

    // ReturnMemory, ReturnScalar1 and ReturnScalar2.
    pub(super) fn give_back_message(&mut self, words: [u32; 8])
        requires calls { IsCaller W.SwapStore self.old }
        requires number { (call_number words == return_memory || call_number words == return_scalar1
            || call_number words == return_scalar2) ≡ true }
        requires room { length self.old.log.records + 2 ≤ self.old.log.room }
        ensures tells { let m = machine_of W.held self.old in
            Tells W.held self.old self.new (call_settled m (table_row words m)) }
        ensures stays { StaysUsable W.SwapStore self.old self.new }
    {
        let returned = give_back(
            &mut self.mem,
            &mut self.threads,
            &self.servers,
            &mut self.queues,
            &mut self.log,
            self.cursor,
            words,
        );
        match returned {
            Ok(()) => {}
            Err(error) => self.refuse(error),
        }
    }

    // ForwardMessage.
    pub(super) fn forward_message(&mut self, words: [u32; 8])
        requires calls { IsCaller W.SwapStore self.old }
        requires number { call_number words ≡ forward_number }
        requires room { length self.old.log.records + 2 ≤ self.old.log.room }
        ensures tells { let m = machine_of W.held self.old in
            Tells W.held self.old self.new (call_settled m (table_row words m)) }
        ensures stays { StaysUsable W.SwapStore self.old self.new }
    {
        let forwarded = forward(
            &mut self.mem,
            &mut self.threads,
            &self.procs,
            &self.servers,
            &mut self.queues,
            &mut self.log,
            self.cursor,
            words,
        );
        match forwarded {
            Ok(()) => {}
            Err(error) => self.refuse(error),
        }
    }
}
