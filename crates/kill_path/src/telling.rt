//! Threads are told that a server is gone.

ghost use Rattle.std.specs.Prelude.{◌≡◌, ◌+◌, ◌<◌, ◌≤◌, ◌||◌, [], ◌∷◌, length, true, if◌then◌else◌};
ghost use Rattle.machine_model.specs.State.Changes.{replies};
ghost use Rattle.machine_model.specs.State.Threads.{answer_to};
ghost use Rattle.xk_parts.specs.Shown.{threads_shown};
ghost use Rattle.send_path.specs.Rows.{log_with};
ghost use Rattle.xk_parts.specs.Threads.{answered};
ghost use Rattle.thread_table.specs.ThreadMap.{is_receiving as is_receiving_at};
ghost use Rattle.thread_table.specs.Shown.{process_count, threads_of};
ghost use Rattle.xk_base.specs.Tables.Circle.{is_pid, is_thread_id, same_thread, thread_ids};
ghost use Rattle.xk_base.specs.Tables.Counting.{put_at};
ghost use Rattle.xk_base.specs.declared.ids.ThreadId.{ThreadId as Id};
ghost use Rattle.xk_base.specs.declared.limits.TheConstants.{PROCESS_LIMIT, TID_LIMIT};
ghost use Rattle.xk_base.specs.declared.records.What.TheVariants.{Reply as Replied};
ghost use Rattle.kill_path.specs.Noted.{noted};
ghost use Rattle.kill_path.specs.Telling.{is_receiver_of, is_served, told_to, words_for};
ghost use Rattle.kill_path.specs.ThreadSets.{of_process};

use crate::answered::Answered;
use syscall_codec::{Reply, reply_words};
use thread_table::Threads;
use xk_base::limits::{PROCESS_LIMIT, TID_LIMIT};
use xk_base::{Log, Pid, Serial, ThreadId, Tid, What, XousError};
use xk_parts::answer;

/// The thread is to be answered, if it is Receiving at the server.
fn note_if_receiving(threads: &Threads, id: ThreadId, serial: Serial, noted_ids: &mut Answered)
    requires { is_thread_id PROCESS_LIMIT id ≡ true }
    ensures { let old = noted noted_ids.old in
        noted noted_ids.new ≡ (if is_receiving_at serial (threads_of threads.now id) then put_at same_thread old id true else old) }
{
    if let Some(thread) = threads.get(id)
        && thread.state.is_receiving(serial)
    {
        noted_ids.note(id);
    }
}

/// Each thread of the process that is Receiving at the server is to be answered.
pub(crate) fn note_receiving(threads: &Threads, pid: Pid, serial: Serial, noted_ids: &mut Answered)
    requires { is_pid PROCESS_LIMIT pid.0 ≡ true }
    ensures { noted noted_ids.new ≡ (λ id. noted noted_ids.old id || is_receiver_of pid serial (threads_of threads.now) id) }
{
    for k in 0..TID_LIMIT {
        let id = ThreadId {
            pid,
            tid: Tid(k + 1),
        };
        note_if_receiving(threads, id, serial, noted_ids);
    }
}

/// Whether the thread is the one that was served.
fn is_served(served: Option<ThreadId>, id: ThreadId) -> bool
    ensures { result ≡ is_served served id }
{
    match served {
        Some(caller) => id.pid == caller.pid && id.tid == caller.tid,
        None => false,
    }
}

/// What the thread is answered: that there is no server, unless it was served.
fn words_for(served: Option<ThreadId>, id: ThreadId) -> [u32; 8]
    ensures { result ≡ words_for served id }
{
    if is_served(served, id) {
        reply_words(&Reply::Plain)
    } else {
        reply_words(&Reply::Refused(XousError::ServerNotFound))
    }
}

/// The thread is answered, of which a record tells.
fn tell_thread(threads: &mut Threads, log: &mut Log, served: Option<ThreadId>, id: ThreadId)
    requires { length log.old.records < log.old.room }
    ensures after { threads_shown threads.new ≡ answered (answer_to id (words_for served id)) (threads_shown threads.old) }
    ensures log { log.new ≡ log_with (Replied id (words_for served id) ∷ []) log.old }
    ensures count { process_count threads.new ≡ process_count threads.old }
{
    let words = words_for(served, id);
    answer(threads, id, words);
    log.push(What::Reply(id, words));
}

/// Each thread of the process that is to be answered is, of which records tell in ascending order of tid.
fn tell_process(
    threads: &mut Threads,
    log: &mut Log,
    noted_ids: &Answered,
    served: Option<ThreadId>,
    pid: Pid,
)
    requires pid { is_pid PROCESS_LIMIT pid.0 ≡ true }
    requires room { (id : Id) → of_process pid (noted noted_ids.now) id ≡ true → length log.old.records + TID_LIMIT ≤ log.old.room }
    ensures after { let told = told_to served (of_process pid (noted noted_ids.now)) in
        threads_shown threads.new ≡ answered told (threads_shown threads.old) }
    ensures log { let told = told_to served (of_process pid (noted noted_ids.now)) in
        log.new ≡ log_with (replies PROCESS_LIMIT told) log.old }
    ensures count { process_count threads.new ≡ process_count threads.old }
{
    let mut from = 1;
    while let Some(tid) = noted_ids.least_from(pid, from) {
        let id = ThreadId { pid, tid: Tid(tid) };
        tell_thread(threads, log, served, id);
        from = tid + 1;
    }
}

/// Each thread that is to be answered is, of which records tell in ascending order of thread.
pub(crate) fn tell(
    threads: &mut Threads,
    log: &mut Log,
    noted_ids: &Answered,
    served: Option<ThreadId>,
)
    requires known { (id : Id) → noted noted_ids.now id ≡ true → is_thread_id (process_count threads.old) id ≡ true }
    requires few { process_count threads.old ≤ PROCESS_LIMIT }
    requires room { length log.old.records + thread_ids (process_count threads.old) ≤ log.old.room }
    ensures after { threads_shown threads.new ≡ answered (told_to served (noted noted_ids.now)) (threads_shown threads.old) }
    ensures log { log.new ≡ log_with (replies (process_count threads.old) (told_to served (noted noted_ids.now))) log.old }
    ensures count { process_count threads.new ≡ process_count threads.old }
{
    for row in 0..PROCESS_LIMIT {
        tell_process(threads, log, noted_ids, served, Pid(row as u8 + 2));
    }
}
