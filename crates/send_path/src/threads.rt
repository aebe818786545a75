//! Threads are answered, of which records tell.

ghost use Rattle.std.specs.Prelude.{◌≡◌, ◌+◌, ◌<◌, ◌≤◌, [], ◌∷◌, length, true, false, IfSome};
ghost use Rattle.machine_model.specs.Messaging.ReturnCalls.{sender_gets};
ghost use Rattle.machine_model.specs.State.Changes.{replies};
ghost use Rattle.machine_model.specs.State.Threads.{answer_to, both_answers, passed, with_state};
ghost use Rattle.thread_table.specs.Shown.{process_count};
ghost use Rattle.xk_base.specs.Tables.Circle.{is_thread_id, same_thread};
ghost use Rattle.syscall_codec.specs.ReplyWords.{plain_words};
ghost use Rattle.xk_base.specs.declared.records.What.TheVariants.{Reply as Replied};
ghost use Rattle.xk_parts.specs.Shown.{state_of, threads_shown};
ghost use Rattle.send_path.specs.Rows.{log_with};
ghost use Rattle.xk_parts.specs.Threads.{answered, changed_thread};
ghost use Rattle.send_path.specs.Threads.{is_before};

use syscall_codec::{Reply, reply_words};
use thread_table::Threads;
use xk_base::{Log, ThreadId, What};
use xk_parts::{answer, pass};

// The thread, where it is there, is answered, of which a record tells.
pub(crate) fn answer_and_tell(threads: &mut Threads, log: &mut Log, id: ThreadId, words: [u32; 8])
    requires { length log.old.records < log.old.room }
    ensures after { threads_shown threads.new ≡ answered (answer_to id words) (threads_shown threads.old) }
    ensures log { log.new ≡ log_with (Replied id words ∷ []) log.old }
    ensures count { process_count threads.new ≡ process_count threads.old }
{
    answer(threads, id, words);
    log.push(What::Reply(id, words));
}

// The caller goes past its call and is answered, of which a record tells.
pub(crate) fn answer_caller(threads: &mut Threads, log: &mut Log, who: ThreadId, words: [u32; 8])
    requires { length log.old.records < log.old.room }
    ensures after { threads_shown threads.new ≡ answered (answer_to who words) (changed_thread who passed (threads_shown threads.old)) }
    ensures log { log.new ≡ log_with (Replied who words ∷ []) log.old }
    ensures count { process_count threads.new ≡ process_count threads.old }
{
    pass(threads, who);
    answer_and_tell(threads, log, who, words);
}

// The caller and another thread are answered, of which two records tell, in ascending order of thread.
pub(crate) fn answer_both(
    threads: &mut Threads,
    log: &mut Log,
    one: ThreadId,
    one_words: [u32; 8],
    other: ThreadId,
    other_words: [u32; 8],
)
    requires room { length log.old.records + 2 ≤ log.old.room }
    requires one { is_thread_id (process_count threads.old) one ≡ true }
    requires other { is_thread_id (process_count threads.old) other ≡ true }
    requires apart { same_thread one other ≡ false }
    ensures after { let given = both_answers (answer_to one one_words) (answer_to other other_words) in
        threads_shown threads.new ≡ answered given (threads_shown threads.old) }
    ensures log { let given = both_answers (answer_to one one_words) (answer_to other other_words) in
        log.new ≡ log_with (replies (process_count threads.old) given) log.old }
    ensures count { process_count threads.new ≡ process_count threads.old }
{
    answer(threads, one, one_words);
    answer(threads, other, other_words);
    if is_before(one, other) {
        log.push(What::Reply(one, one_words));
        log.push(What::Reply(other, other_words));
    } else {
        log.push(What::Reply(other, other_words));
        log.push(What::Reply(one, one_words));
    }
}

// Whether the one thread stands before the other in the ascending order of (pid, tid).
fn is_before(one: ThreadId, other: ThreadId) -> bool
    ensures { result ≡ is_before one other }
{
    one.pid.0 < other.pid.0 || (one.pid.0 == other.pid.0 && one.tid.0 < other.tid.0)
}

// The caller goes past its call and is answered that it was served, and the sender of a message, if it
// has one, is answered these words.
pub(crate) fn answer_with_sender(
    threads: &mut Threads,
    log: &mut Log,
    who: ThreadId,
    sender: Option<ThreadId>,
    words: [u32; 8],
)
    requires room { length log.old.records + 2 ≤ log.old.room }
    requires who { is_thread_id (process_count threads.old) who ≡ true }
    requires sender { IfSome sender (λ id. (is_thread_id (process_count threads.old) id ≡ true) × (same_thread who id ≡ false)) }
    ensures after { let past = changed_thread who passed (threads_shown threads.old) in
        threads_shown threads.new ≡ answered (both_answers (answer_to who plain_words) (sender_gets words sender)) past }
    ensures log { let given = both_answers (answer_to who plain_words) (sender_gets words sender) in
        log.new ≡ log_with (replies (process_count threads.old) given) log.old }
    ensures count { process_count threads.new ≡ process_count threads.old }
{
    let plain = reply_words(&Reply::Plain);
    match sender {
        Some(sender) => {
            pass(threads, who);
            answer_both(threads, log, who, plain, sender, words);
        }
        None => answer_caller(threads, log, who, plain),
    }
}
