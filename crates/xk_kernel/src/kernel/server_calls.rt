//! The calls that make a server, connect to one and end one. The caller is the thread whose turn it is.

ghost use Rattle.std.specs.Prelude.{◌≡◌, ◌+◌, ◌<◌, ◌≤◌, ◌∷◌, length, true};
ghost use Rattle.machine_model.specs.Calling.ServerCalls.{connect_refusals, connect_served, create_server_refusals, create_server_served};
ghost use Rattle.machine_model.specs.Calling.ServerCalls.{destroy_served, is_missing, own_server_refusals};
ghost use Rattle.machine_model.specs.Runs.Matched.{Matched};
ghost use Rattle.machine_model.specs.State.Changes.{Served, call_settled, unless_refused, unless_retried};
ghost use Rattle.machine_model.specs.State.Connections.{connect_caller, own_connections};
ghost use Rattle.machine_model.specs.State.Order.{ready_at};
ghost use Rattle.server_table.specs.ServersOf.{servers_of};
ghost use Rattle.xk_base.specs.Tables.Circle.{thread_ids};
ghost use Rattle.xk_base.specs.Tables.Connections.{cid_for, has_room};
ghost use Rattle.xk_base.specs.declared.errors.XousError.TheVariants.{ServerNotFound as NotFound};
ghost use Rattle.xk_base.specs.declared.limits.TheConstants.{PROCESS_LIMIT};
ghost use Rattle.xk_kernel.specs.Calling.{IfUndone, IsCaller, connected_outcome, outcome_of};
ghost use Rattle.xk_kernel.specs.Sound.{IsWhole};
ghost use Rattle.xk_kernel.specs.State.{machine_of};
ghost use Rattle.xk_kernel.specs.Telling.{StaysUsable, Tells};

use crate::kernel::Kernel;
use crate::kernel::calls::CallerFate;
use kill_path::destroy;
use syscall_codec::Reply;
use xk_base::{Cid, Serial, Sid, XousError};
use xk_parts::{Seated, own_server};
use xk_ports::SwapStore;

impl<W: SwapStore> Kernel<W> {
    // Whether the caller's process is connected to the server, or may be.
    fn has_room(&self, serial: Serial) -> bool
        requires whole { IsWhole W.SwapStore self.now }
        ensures { result ≡ has_room serial (own_connections (machine_of W.held self.now)) }
    {
        self.procs.room(self.cursor.pid, serial)
    }

    // The caller's process is connected to the server, for which it has room.
    fn connect_caller(&mut self, serial: Serial) -> Cid
        requires whole { IsWhole W.SwapStore self.old }
        requires room { has_room serial (own_connections (machine_of W.held self.old)) ≡ true }
        ensures whole { IsWhole W.SwapStore self.new }
        ensures answer { result.0 ≡ cid_for serial (own_connections (machine_of W.held self.old)) }
        ensures machine { machine_of W.held self.new ≡ connect_caller serial (machine_of W.held self.old) }
        ensures mem { self.new.mem ≡ self.old.mem }
        ensures log { self.new.log ≡ self.old.log }
    {
        match self.procs.connect(self.cursor.pid, serial) {
            Ok(cid) => cid,
            Err(_) => unreachable!(),
        }
    }

    // CreateServerWithAddress: a server of the caller's process, to which the caller is connected.
    pub(super) fn create_server(&mut self, sid: Sid) -> Result<CallerFate, XousError>
        requires whole { IsWhole W.SwapStore self.old }
        requires matched { Matched (machine_of W.held self.old) }
        requires ready { ready_at (machine_of W.held self.old) self.old.cursor ≡ true }
        requires serials { (servers_of self.old.servers).next < 4294967295 }
        ensures whole { IsWhole W.SwapStore self.new }
        ensures outcome { let old = machine_of W.held self.old in
            let new = machine_of W.held self.new in
            outcome_of self.old.cursor new result
            ≡ unless_refused (create_server_refusals old sid) (Served (create_server_served old sid)) }
        ensures undone { IfUndone result (self.new ≡ self.old) }
        ensures mem { self.new.mem ≡ self.old.mem }
        ensures log { self.new.log ≡ self.old.log }
    {
        if self.servers.find(sid).is_some() {
            return Err(XousError::ServerExists);
        }
        if !self.has_room(self.servers.next_serial()) {
            return Err(XousError::InvalidLimit);
        }
        match self.servers.make(sid, self.cursor.pid) {
            Ok(serial) => {
                let cid = self.connect_caller(serial);
                Ok(CallerFate::Answered(Reply::NewServer(sid, cid)))
            }
            Err(error) => Err(error),
        }
    }

    // The caller is connected to a server that is alive, and answered the connection.
    fn connect_to(&mut self, serial: Serial) -> Result<CallerFate, XousError>
        requires whole { IsWhole W.SwapStore self.old }
        ensures whole { IsWhole W.SwapStore self.new }
        ensures outcome { let old = machine_of W.held self.old in
            outcome_of self.old.cursor (machine_of W.held self.new) result ≡ connected_outcome old serial }
        ensures undone { IfUndone result (self.new ≡ self.old) }
        ensures mem { self.new.mem ≡ self.old.mem }
        ensures log { self.new.log ≡ self.old.log }
    {
        if !self.has_room(serial) {
            return Err(XousError::InvalidLimit);
        }
        Ok(CallerFate::Answered(Reply::Connection(self.connect_caller(serial))))
    }

    // Connect: while no live server has the identifier, the call will be made again.
    pub(super) fn connect(&mut self, sid: Sid) -> Result<CallerFate, XousError>
        requires whole { IsWhole W.SwapStore self.old }
        ensures whole { IsWhole W.SwapStore self.new }
        ensures outcome { let old = machine_of W.held self.old in
            let new = machine_of W.held self.new in
            let served = unless_refused (connect_refusals old sid) (Served (connect_served old sid)) in
            outcome_of self.old.cursor new result ≡ unless_retried (is_missing old sid) served }
        ensures undone { IfUndone result (self.new ≡ self.old) }
        ensures mem { self.new.mem ≡ self.old.mem }
        ensures log { self.new.log ≡ self.old.log }
    {
        match self.servers.find(sid) {
            Some(serial) => self.connect_to(serial),
            None => Ok(CallerFate::Retries),
        }
    }

    // TryConnect: .. and here it is refused.
    pub(super) fn try_connect(&mut self, sid: Sid) -> Result<CallerFate, XousError>
        requires whole { IsWhole W.SwapStore self.old }
        ensures whole { IsWhole W.SwapStore self.new }
        ensures outcome { let old = machine_of W.held self.old in
            let new = machine_of W.held self.new in
            let refusals = (is_missing old sid, NotFound) ∷ connect_refusals old sid in
            outcome_of self.old.cursor new result ≡ unless_refused refusals (Served (connect_served old sid)) }
        ensures undone { IfUndone result (self.new ≡ self.old) }
        ensures mem { self.new.mem ≡ self.old.mem }
        ensures log { self.new.log ≡ self.old.log }
    {
        match self.servers.find(sid) {
            Some(serial) => self.connect_to(serial),
            None => Err(XousError::ServerNotFound),
        }
    }

    // DestroyServer: a server of the caller's process ends. The loans of its messages end, and whoever
    // waits for one of them or is Receiving there is answered, in ascending order of thread.
    pub(super) fn destroy_server(&mut self, sid: Sid)
        requires calls { IsCaller W.SwapStore self.old }
        requires room { length self.old.log.records + thread_ids PROCESS_LIMIT + 1 ≤ self.old.log.room }
        ensures tells { let m = machine_of W.held self.old in
            Tells W.held self.old self.new (call_settled m (unless_refused (own_server_refusals m sid) (Served (destroy_served m sid)))) }
        ensures stays { StaysUsable W.SwapStore self.old self.new }
    {
        match own_server(&self.servers, self.cursor.pid, sid) {
            Some(Seated { serial, .. }) => destroy(
                &mut self.mem,
                &mut self.threads,
                &mut self.servers,
                &mut self.queues,
                &mut self.log,
                self.cursor,
                serial,
            ),
            None => self.refuse(XousError::ServerNotFound),
        }
    }
}
