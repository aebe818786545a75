//! One thread goes past its call, waits, or is answered.

ghost use Rattle.std.specs.Prelude.{◌≡◌};
ghost use Rattle.machine_model.specs.State.Threads.{answer_to, passed, with_state};
ghost use Rattle.thread_table.specs.Shown.{process_count};
ghost use Rattle.xk_parts.specs.Shown.{state_of, threads_shown};
ghost use Rattle.xk_parts.specs.Threads.{answered, changed_thread};

use thread_table::{ThreadState, Threads};
use xk_base::ThreadId;

/// How far the pc goes at each instruction.
const INSTRUCTION_SIZE: u32 = 4;

/// The thread goes past the call at its pc, where it is there, and stays so else. All other threads stay.
pub fn pass(threads: &mut Threads, id: ThreadId)
    ensures after { threads_shown threads.new ≡ changed_thread id passed (threads_shown threads.old) }
    ensures count { process_count threads.new ≡ process_count threads.old }
{
    if let Some(thread) = threads.get_mut(id) {
        thread.pc = thread.pc.wrapping_add(INSTRUCTION_SIZE);
    }
}

/// The thread waits so, where it is there. All other threads stay.
pub fn wait(threads: &mut Threads, id: ThreadId, state: ThreadState)
    ensures after { threads_shown threads.new ≡ changed_thread id (with_state (state_of state)) (threads_shown threads.old) }
    ensures count { process_count threads.new ≡ process_count threads.old }
{
    if let Some(thread) = threads.get_mut(id) {
        thread.state = state;
    }
}

/// The thread, where it is there, has the words in a0 to a7 and is Ready, whatever it waited for. Its pc stays,
/// and so do all other threads.
pub fn answer(threads: &mut Threads, id: ThreadId, words: [u32; 8])
    ensures after { threads_shown threads.new ≡ answered (answer_to id words) (threads_shown threads.old) }
    ensures count { process_count threads.new ≡ process_count threads.old }
{
    if let Some(thread) = threads.get_mut(id) {
        thread.regs.set_arguments(words);
        thread.state = ThreadState::Ready;
    }
}
