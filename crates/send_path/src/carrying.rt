//! A message arrives at its server, and the caller goes past its call.

ghost use Rattle.std.specs.Prelude.{◌≡◌, ◌+◌, ◌<◌, ◌≤◌, true, false, length, is_some, IfSome};
ghost use Rattle.machine_model.specs.Messaging.ReturnCalls.{sender_gets as thread_gets};
ghost use Rattle.machine_model.specs.Messaging.SendCalls.{sender_answered};
ghost use Rattle.machine_model.specs.State.Changes.{replies};
ghost use Rattle.machine_model.specs.State.Threads.{both_answers, passed};
ghost use Rattle.msg_queue.specs.Seats.{changed_at, seat_of, used_of};
ghost use Rattle.thread_table.specs.ThreadMap.{is_ready, is_receiving, receiver};
ghost use Rattle.thread_table.specs.Shown.{process_count, threads_of};
ghost use Rattle.xk_base.specs.Tables.Circle.{IsPid, is_thread_id, same_thread};
ghost use Rattle.xk_base.specs.declared.ids.ThreadId.{ThreadId as Id};
ghost use Rattle.xk_base.specs.declared.limits.TheConstants.{SERVER_LIMIT, MESSAGE_LIMIT};
ghost use Rattle.send_path.specs.Arrivals.{arrival_answers, waiting_if, with_arrived};
ghost use Rattle.xk_parts.specs.Shown.{threads_shown};
ghost use Rattle.send_path.specs.Rows.{log_with};
ghost use Rattle.xk_parts.specs.Seats.{HasLoanIfLend};
ghost use Rattle.xk_parts.specs.Threads.{answered, changed_thread};

use crate::seats::{Reached, arrive};
use crate::threads::{answer_and_tell, answer_both};
use msg_queue::{Held, Queues};
use syscall_codec::{Reply, reply_words};
use thread_table::{ThreadState, Threads};
use xk_base::{Log, Number, ThreadId};
use xk_parts::{pass, wait};

// A message arrives at a live server: of the threads that are Receiving there the one of least tid gets
// it, and where there is none it is queued. The caller goes past its call. It waits for the answer to
// the message of the number, if one is given, and else is answered that the call was served.
pub(crate) fn arrive_and_answer(
    threads: &mut Threads,
    queues: &mut Queues,
    log: &mut Log,
    who: ThreadId,
    waits: Option<Number>,
    to: Reached,
    message: Held,
)
    requires ready { is_ready (threads_of threads.old who) ≡ true }
    requires log_room { length log.old.records + 2 ≤ log.old.room }
    requires pid { IsPid (process_count threads.old) to.pid.0 }
    requires its { (id : Id) → is_receiving to.serial (threads_of threads.old id) ≡ true → id.pid.0 ≡ to.pid.0 }
    requires seat { to.seat < SERVER_LIMIT }
    requires room { used_of (seat_of queues.old to.seat) < MESSAGE_LIMIT }
    requires loan { HasLoanIfLend message }
    ensures threads { let got = receiver (process_count threads.old) to.serial (threads_of threads.old) in
        let past = changed_thread who passed (waiting_if waits who (threads_shown threads.old)) in
        threads_shown threads.new ≡ answered (arrival_answers got message.msg waits who) past }
    ensures log { let got = receiver (process_count threads.old) to.serial (threads_of threads.old) in
        log.new ≡ log_with (replies (process_count threads.old) (arrival_answers got message.msg waits who)) log.old }
    ensures queues { let got = receiver (process_count threads.old) to.serial (threads_of threads.old) in
        queues.new ≡ changed_at to.seat (with_arrived got message) queues.old }
    ensures count { process_count threads.new ≡ process_count threads.old }
{
    let receiver = threads.receiver_in(to.pid, to.serial);
    let words = reply_words(&Reply::Got(message.msg));
    arrive(queues, to.seat, message, receiver);
    leave(threads, who, waits);
    answer_arrival(threads, log, receiver, words, who, waits.is_some());
}

// The caller goes past its call, and waits for the answer to the message of the number, if one is given.
fn leave(threads: &mut Threads, who: ThreadId, waits: Option<Number>)
    ensures after { threads_shown threads.new ≡ changed_thread who passed (waiting_if waits who (threads_shown threads.old)) }
    ensures count { process_count threads.new ≡ process_count threads.old }
{
    match waits {
        Some(number) => wait(threads, who, ThreadState::Waiting(number)),
        None => {}
    }
    pass(threads, who);
}

// The receiver, if there is one, gets these words, and the caller is answered that the call was served,
// unless it waits. Records tell of it in ascending order of thread.
fn answer_arrival(
    threads: &mut Threads,
    log: &mut Log,
    receiver: Option<ThreadId>,
    words: [u32; 8],
    who: ThreadId,
    waits: bool,
)
    requires room { length log.old.records + 2 ≤ log.old.room }
    requires who { is_thread_id (process_count threads.old) who ≡ true }
    requires receiver { IfSome receiver (λ id. (is_thread_id (process_count threads.old) id ≡ true) × (same_thread id who ≡ false)) }
    ensures after { let given = both_answers (thread_gets words receiver) (sender_answered waits who) in
        threads_shown threads.new ≡ answered given (threads_shown threads.old) }
    ensures log { let given = both_answers (thread_gets words receiver) (sender_answered waits who) in
        log.new ≡ log_with (replies (process_count threads.old) given) log.old }
    ensures count { process_count threads.new ≡ process_count threads.old }
{
    let plain = reply_words(&Reply::Plain);
    match receiver {
        Some(id) if waits => answer_and_tell(threads, log, id, words),
        Some(id) => answer_both(threads, log, id, words, who, plain),
        None if waits => {}
        None => answer_and_tell(threads, log, who, plain),
    }
}
