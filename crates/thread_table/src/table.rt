//! The table of threads.

ghost use Rattle.std.specs.Prelude.{◌≡◌, ◌<◌, ◌≤◌, ◌+◌, ◌-◌, ◌%◌, ℕ, true, false, IfOk, IfSome, IfNone, IsSome, IsTrue, Some, None, is_none};
ghost use Rattle.std.specs.Prelude.{replicate, vec_len};
ghost use Rattle.std.specs.Option.{option_copied};
ghost use Rattle.xk_base.specs.Tables.Circle.{IsPid, IsTid, is_thread_id, same_thread, thread_ids, place_of, id_at, id_by_tid};
ghost use Rattle.xk_base.specs.Tables.Counting.{put_at};
ghost use Rattle.xk_base.specs.declared.ids.ThreadId.{ThreadId as Id};
ghost use Rattle.xk_base.specs.declared.limits.TheConstants.{PROCESS_LIMIT};
ghost use Rattle.thread_table.specs.ThreadMap.{no_threads, thread_map, without_process, free_tid, thread_above, tids_above, live_threads};
ghost use Rattle.thread_table.specs.ThreadMap.{receiver, next_ready, id_in_row, is_ready_in, is_receiving};
ghost use Rattle.thread_table.specs.TidSets.{no_tids, are_marked, lent_sets, settled_sets, sets_by_state};

use crate::thread::{Thread, thread_in};
use crate::tids::Tids;
use std::alloc::Global;
use xk_base::limits::{PROCESS_LIMIT, TID_LIMIT};
use xk_base::{NoMemory, Pid, Serial, ThreadId, Tid};

/// How many threads a process has at most.
const TIDS: usize = TID_LIMIT as usize;

/// The threads of a fixed number of processes, with a place for each (pid, tid) that they may have, in
/// ascending order. For each process a set has the tids of its Ready threads. A thread that is lent may become
/// Ready, so its tid is in the set too, until another thread is lent: then the set has it where it is Ready.
#[derive(Debug, Drop)]
pub struct Threads {
    procs: u32,
    by_place: Vec<Option<Thread>>,
    ready: Vec<Tids>,
    lent: Option<ThreadId>,
    ghost few: { procs ≤ PROCESS_LIMIT },
    ghost whole: { vec_len by_place ≡ thread_ids procs },
    ghost sets: { vec_len ready ≡ procs },
    ghost marked: { IsTrue (are_marked ready.items by_place.items) },
}

/// The place of the id: how many ids of a pid of 2 or more stand before it in ascending order of (pid, tid).
pub fn place_of(id: ThreadId) -> usize
    requires pid { 2 ≤ id.pid.0 }
    requires tid { 1 ≤ id.tid.0 }
    ensures { result ≡ place_of id }
{
    (id.pid.0 as usize - 2) * TIDS + (id.tid.0 as usize - 1)
}

/// The id at the place, in ascending order of (pid, tid) from pid 2 on.
pub fn id_at(place: usize) -> ThreadId
    requires { place < thread_ids PROCESS_LIMIT }
    ensures { result ≡ id_at place }
{
    ThreadId {
        pid: Pid((place / TIDS + 2) as u8),
        tid: Tid((place % TIDS + 1) as u8),
    }
}

/// In which row, counted from 0, the process stands.
fn row_of(pid: Pid) -> usize
    requires { 2 ≤ pid.0 }
    ensures { result ≡ pid.0 - 2 }
{
    pid.0 as usize - 2
}

/// The id with that tid of the process in the row.
fn id_in_row(row: usize, tid: u8) -> ThreadId
    requires { row < PROCESS_LIMIT }
    ensures { result ≡ id_in_row row tid }
{
    ThreadId {
        pid: Pid(row as u8 + 2),
        tid: Tid(tid),
    }
}

/// As many empty sets.
fn empty_sets(alloc: Global, procs: usize) -> Result<Vec<Tids>, NoMemory>
    ensures { IfOk result (λ sets. sets.items ≡ replicate procs no_tids) }
{
    let Ok(mut sets) = Vec::with_capacity(alloc, procs) else {
        return Err(NoMemory);
    };
    for _set in 0..procs {
        sets.push_reserved(Tids::none());
    }
    Ok(sets)
}

/// As many empty places.
fn empty_places(alloc: Global, places: usize) -> Result<Vec<Option<Thread>>, NoMemory>
    ensures { IfOk result (λ threads. threads.items ≡ replicate places None) }
{
    let Ok(mut threads) = Vec::with_capacity(alloc, places) else {
        return Err(NoMemory);
    };
    for _place in 0..places {
        threads.push_reserved(None);
    }
    Ok(threads)
}

#[tactic(auto, using(crate::proofs::PlaceLemmas::laws), unfolding(crate::specs::Shown::process_count, crate::specs::Shown::threads_of))]
impl Threads {
    ghost use Rattle.std.specs.Borrow.{sem};
    ghost use Rattle.std.specs.Option.{option_copied_mut};
    ghost use Rattle.thread_table.specs.declared.thread.Thread.{Thread};
    ghost use Rattle.thread_table.specs.Lending.{LendsThread, LendsThreadIf, with_thread};
    ghost use Rattle.thread_table.specs.Shown.{process_count, threads_of};

    /// A table without threads for `procs` processes. It takes all memory that their threads will ever
    /// need.
    pub fn new(alloc: Global, procs: u32) -> Result<Threads, NoMemory>
        requires { procs ≤ PROCESS_LIMIT }
        ensures count { IfOk result (λ t. process_count t ≡ procs) }
        ensures empty { IfOk result (λ t. threads_of t ≡ no_threads) }
    {
        let by_place = empty_places(alloc, procs as usize * TIDS)?;
        let ready = empty_sets(alloc, procs as usize)?;
        Ok(Threads {
            procs,
            by_place,
            ready,
            lent: None,
        })
    }

    /// Whether the table has a place for the id.
    fn has_place(&self, id: ThreadId) -> bool
        ensures { result ≡ is_thread_id (process_count self.now) id }
    {
        (2..self.procs + 2).contains(&u32::from(id.pid.0)) && (1..=TID_LIMIT).contains(&id.tid.0)
    }

    /// The thread; `None` exactly where there is no such one. Any id may be asked for.
    pub fn get(&self, id: ThreadId) -> Option<&Thread>
        ensures { option_copied result ≡ threads_of self.now id }
    {
        if self.has_place(id) {
            self.by_place[place_of(id)].as_ref()
        } else {
            None
        }
    }

    /// The thread, to be changed; `None` exactly where there is no such one. What is written into it is
    /// what the table then holds, and all other threads stay.
    #[tactic(auto, unfolding(crate::specs::Shown::process_count, crate::specs::Shown::threads_of, crate::specs::Lending::with_thread))]
    pub fn get_mut(&mut self, id: ThreadId) -> Option<&mut Thread>
        ensures* lends { sem 𝓛 (LendsThreadIf self.entry id result) }
        ensures value { option_copied_mut result ≡ threads_of self.old id }
        ensures writes { (thread : Thread) → IsSome (threads_of self.old id) → threads_of (with_thread self.old id thread)
            ≡ put_at same_thread (threads_of self.old) id (Some thread) }
        ensures count { (thread : Thread) → process_count (with_thread self.old id thread) ≡ process_count self.old }
    {
        if self.get(id).is_some() {
            Some(self.thread_mut(id))
        } else {
            None
        }
    }

    /// The thread, which there is, to be changed. What is written into it is what the table then holds,
    /// and all other threads stay.
    #[tactic(auto, unfolding(crate::specs::Shown::process_count, crate::specs::Shown::threads_of, crate::specs::Lending::with_thread))]
    pub fn thread_mut(&mut self, id: ThreadId) -> &mut Thread
        requires { IsSome (threads_of self.old id) }
        ensures* lends { sem 𝓛 (LendsThread self.entry id result) }
        ensures value { threads_of self.old id ≡ Some result.now }
        ensures writes { (thread : Thread) → threads_of (with_thread self.old id thread) ≡ put_at same_thread (threads_of self.old) id
            (Some thread) }
        ensures count { (thread : Thread) → process_count (with_thread self.old id thread) ≡ process_count self.old }
    {
        self.mark_lent(id);
        thread_in(&mut self.by_place[place_of(id)])
    }

    /// A thread is about to be lent: its tid comes into the set of its process, since it may become Ready.
    fn mark_lent(&mut self, id: ThreadId)
        requires { IsSome (threads_of self.old id) }
        ensures sets { self.new.ready ≡ lent_sets self.old.ready (threads_of self.old) self.old.lent id }
        ensures lent { self.new.lent ≡ Some id }
        ensures places { self.new.by_place ≡ self.old.by_place }
        ensures count { self.new.procs ≡ self.old.procs }
    {
        self.settle_last(id);
        let row = row_of(id.pid);
        self.ready[row] = self.ready[row].with(id.tid);
        self.lent = Some(id);
    }

    /// The thread that was lent last is settled, where another is lent next.
    fn settle_last(&mut self, next: ThreadId)
        ensures sets { self.new.ready ≡ settled_sets self.old.ready (threads_of self.old) self.old.lent next }
        ensures places { self.new.by_place ≡ self.old.by_place }
        ensures count { self.new.procs ≡ self.old.procs }
    {
        if let Some(last) = self.lent
            && last != next
        {
            self.settle(last);
        }
    }

    /// The set of the thread's process has its tid only where it is Ready. Any id may be given.
    fn settle(&mut self, id: ThreadId)
        ensures sets { self.new.ready ≡ sets_by_state self.old.ready id (threads_of self.old id) }
        ensures places { self.new.by_place ≡ self.old.by_place }
        ensures count { self.new.procs ≡ self.old.procs }
    {
        if let Some(thread) = self.get(id) {
            let ready = thread.state.is_ready();
            let row = row_of(id.pid);
            self.ready[row] = self.ready[row].with_if(id.tid, ready);
        }
    }

    /// Puts a new thread there.
    pub fn start(&mut self, id: ThreadId, thread: Thread)
        requires pid { IsPid (process_count self.old) id.pid.0 }
        requires tid { IsTid id.tid.0 }
        requires free { threads_of self.old id ≡ None }
        ensures after { threads_of self.new ≡ put_at same_thread (threads_of self.old) id (Some thread) }
        ensures count { process_count self.new ≡ process_count self.old }
    {
        let row = row_of(id.pid);
        self.ready[row] = self.ready[row].with_if(id.tid, thread.state.is_ready());
        self.by_place[place_of(id)] = Some(thread);
    }

    /// Puts this in place of the thread.
    pub fn set(&mut self, id: ThreadId, changed: Thread)
        requires { IsSome (threads_of self.old id) }
        ensures after { threads_of self.new ≡ put_at same_thread (threads_of self.old) id (Some changed) }
        ensures count { process_count self.new ≡ process_count self.old }
    {
        let row = row_of(id.pid);
        self.ready[row] = self.ready[row].with_if(id.tid, changed.state.is_ready());
        self.by_place[place_of(id)] = Some(changed);
    }

    /// Ends the thread.
    pub fn end(&mut self, id: ThreadId)
        requires { IsSome (threads_of self.old id) }
        ensures after { threads_of self.new ≡ put_at same_thread (threads_of self.old) id None }
        ensures count { process_count self.new ≡ process_count self.old }
    {
        let row = row_of(id.pid);
        self.by_place[place_of(id)] = None;
        self.ready[row] = self.ready[row].without(id.tid);
    }

    /// Ends all threads of the process.
    pub fn end_process(&mut self, pid: Pid)
        requires { IsPid (process_count self.old) pid.0 }
        ensures after { threads_of self.new ≡ without_process pid (threads_of self.old) }
        ensures count { process_count self.new ≡ process_count self.old }
    {
        let first = (pid.0 as usize - 2) * TIDS;
        self.by_place[first..first + TIDS].fill_with(|| None);
        self.ready[row_of(pid)] = Tids::none();
    }

    /// Whether no thread of the process has the tid `k + 2`.
    fn is_free(&self, pid: Pid, k: u8) -> bool
        requires { k < tids_above }
        ensures { result ≡ is_none (threads_of self.now (thread_above pid k)) }
    {
        self.get(ThreadId {
            pid,
            tid: Tid(k + 2),
        })
        .is_none()
    }

    /// The least of 2 to 31 that is the tid of no thread of the process; `None` exactly where all are.
    pub fn free_tid(&self, pid: Pid) -> Option<Tid>
        requires { IsPid (process_count self.now) pid.0 }
        ensures { result ≡ free_tid pid (threads_of self.now) }
    {
        let free = (0..TID_LIMIT - 1).find(|k| self.is_free(pid, *k));
        Some(Tid(free? + 2))
    }

    /// How many threads above tid 1 the process has.
    pub fn live(&self, pid: Pid) -> u32
        requires { IsPid (process_count self.now) pid.0 }
        ensures { result ≡ live_threads pid (threads_of self.now) }
    {
        let live = (0..TID_LIMIT - 1)
            .filter(|k| !self.is_free(pid, *k))
            .count();
        live as u32
    }

    /// The id at the place in the order of (tid, pid).
    fn id_by_tid(&self, k: usize) -> ThreadId
        requires { k < thread_ids (process_count self.now) }
        ensures { result ≡ id_by_tid (process_count self.now) k }
    {
        let procs = self.procs as usize;
        ThreadId {
            pid: Pid((k % procs + 2) as u8),
            tid: Tid((k / procs + 1) as u8),
        }
    }

    /// Whether the thread at the place in the order of (tid, pid) waits for a message at the server.
    fn is_receiving_at(&self, serial: Serial, k: usize) -> bool
        requires { k < thread_ids (process_count self.now) }
        ensures { result ≡ is_receiving serial (threads_of self.now (id_by_tid (process_count self.now) k)) }
    {
        match self.get(self.id_by_tid(k)) {
            Some(thread) => thread.state.is_receiving(serial),
            None => false,
        }
    }

    /// Of the threads that are Receiving at the server the one with the least tid; `None` exactly where
    /// there is none. Of two processes with such a thread the one with the lower pid comes first.
    pub fn receiver(&self, serial: Serial) -> Option<ThreadId>
        ensures { result ≡ receiver (process_count self.now) serial (threads_of self.now) }
    {
        let places = self.procs as usize * TIDS;
        let least = (0..places).find(|k| self.is_receiving_at(serial, *k));
        Some(self.id_by_tid(least?))
    }

    /// The same where all threads that are Receiving at the server are of this process. It looks at the
    /// threads of the process alone, and not at those of all.
    pub fn receiver_in(&self, pid: Pid, serial: Serial) -> Option<ThreadId>
        requires pid { IsPid (process_count self.now) pid.0 }
        requires its { (id : Id) → is_receiving serial (threads_of self.now id) ≡ true → id.pid.0 ≡ pid.0 }
        ensures { result ≡ receiver (process_count self.now) serial (threads_of self.now) }
    {
        for k in 0..TID_LIMIT {
            let own = ThreadId {
                pid,
                tid: Tid(k + 1),
            };
            if let Some(receiver) = self.get(own)
                && receiver.state.is_receiving(serial)
            {
                return Some(own);
            }
        }
        None
    }

    /// The row that many after the row of a process; the first follows the last.
    fn row_behind(&self, own: usize, turn: usize) -> usize
        requires own { own < process_count self.now }
        requires turn { turn ≤ process_count self.now }
        ensures { result ≡ (own + turn) % process_count self.now }
    {
        let procs = self.procs as usize;
        if own + turn < procs {
            own + turn
        } else {
            own + turn - procs
        }
    }

    /// Whether the process in the row has a Ready thread with the tid.
    fn is_ready_in(&self, row: usize, tid: u8) -> bool
        requires row { row < process_count self.now }
        requires tid { IsTid tid }
        ensures { result ≡ is_ready_in (threads_of self.now) row tid }
    {
        self.by_place[row * TIDS + (tid as usize - 1)].is_some_and(|thread| thread.state.is_ready())
    }

    /// Of the Ready threads with that tid or a greater one, of the process in the row, the least tid.
    fn ready_from(&self, row: usize, from: u8) -> Option<u8>
        requires row { row < process_count self.now }
        requires low { 1 ≤ from }
        requires high { from ≤ TID_LIMIT + 1 }
        ensures none { IfNone result ((tid : ℕ) → from ≤ tid → is_ready_in (threads_of self.now) row tid ≡ false) }
        ensures found { IfSome result (λ tid. (from ≤ tid) × (tid ≤ TID_LIMIT) × (is_ready_in (threads_of self.now) row tid ≡ true)) }
        ensures first { IfSome result (λ least. (tid : ℕ) → from ≤ tid → tid < least → is_ready_in (threads_of self.now) row tid ≡ false) }
    {
        let tids = self.ready[row];
        let first = tids.least_from(from)?;
        for tid in first..TID_LIMIT + 1 {
            if tids.has(Tid(tid)) && self.is_ready_in(row, tid) {
                return Some(tid);
            }
        }
        None
    }

    /// The first Ready thread strictly after the id in the cyclic order of (pid, tid), the id itself
    /// last; `None` exactly where no thread is Ready.
    pub fn next_ready_after(&self, id: ThreadId) -> Option<ThreadId>
        requires { IsPid (process_count self.now) id.pid.0 }
        ensures { result ≡ next_ready (process_count self.now) (threads_of self.now) id }
    {
        let own = row_of(id.pid);
        if let Some(tid) = self.ready_from(own, id.tid.0.min(TID_LIMIT) + 1) {
            return Some(id_in_row(own, tid));
        }
        for turn in 1..self.procs as usize + 1 {
            let row = self.row_behind(own, turn);
            if let Some(tid) = self.ready_from(row, 1) {
                return Some(id_in_row(row, tid));
            }
        }
        None
    }
}
