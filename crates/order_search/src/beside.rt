//! What a key has beside a state: which events came, how many moves were preempted, and what processes ended with.

ghost use Rattle.std.specs.Int.{to_le_bytes, w32};
ghost use Rattle.std.specs.Prelude.{◌≡◌, ◌<◌, ◌^◌, ◌++◌, ℕ, All, IfOk, OnOk, map};
ghost use Rattle.order_model.specs.Exits.{exit_in as exit_told};
ghost use Rattle.order_search.specs.Keys.{came_byte, exit_bytes, exits_bytes};
ghost use Rattle.order_search.specs.Spelled.{IsEndOfWords, IsExitOfWords, IsExitTold};

use order_model::{Ended, Exit, Trail, exit_in};
use std::alloc::{AllocError, Global};
use xk_base::Pid;

/// A byte for each event, which tells whether it came.
fn came_bytes(alloc: Global, came: &[bool]) -> Result<Vec<u8>, AllocError>
    ensures { IfOk result (λ bytes. bytes.items ≡ map came_byte came.now) }
{
    let mut bytes = Vec::new(alloc);
    for it_came in came {
        bytes.push(u8::from(*it_came))?;
    }
    Ok(bytes)
}

/// Appends how a process ended, and a word of that.
fn push_words(bytes: &mut Vec<u8>, how: &[u8], word: &[u8]) -> Result<(), AllocError>
    ensures { OnOk result (bytes.new.items ≡ bytes.old.items ++ (how.now ++ word.now)) }
{
    bytes.extend_from_slice(how)?;
    bytes.extend_from_slice(word)
}

/// Appends what a process ended with.
fn push_exit(bytes: &mut Vec<u8>, exit: Option<Exit>) -> Result<(), AllocError>
    ensures { OnOk result (bytes.new.items ≡ bytes.old.items ++ exit_bytes exit) }
{
    match exit {
        None => push_words(bytes, &[0], &[]),
        Some(Exit::Exited(word)) => push_words(bytes, &[1], &word.to_le_bytes()),
        Some(Exit::Faulted(cause, value)) => {
            push_words(bytes, &[2, cause], &value.to_le_bytes())
        }
        Some(Exit::Killed) => push_words(bytes, &[3], &[]),
    }
}

/// Appends what each process ended with whose pid is a byte.
fn push_exits(bytes: &mut Vec<u8>, ends: &[Ended]) -> Result<(), AllocError>
    ensures { OnOk result (bytes.new.items ≡ bytes.old.items ++ exits_bytes (exit_told ends.now)) }
{
    for number in 0..256usize {
        push_exit(bytes, exit_in(ends, Pid(number as u8)))?;
    }
    Ok(())
}

/// Its words are those of its type.
fn is_of_words(exit: Exit)
    ensures { IsExitOfWords exit }
{
    match exit {
        Exit::Exited(_) | Exit::Faulted(_, _) | Exit::Killed => {}
    }
}

/// .. and its pid.
fn is_told(end: Ended)
    ensures { IsEndOfWords end }
{
    is_of_words(end.exit);
}

/// Pids and words are told whole, since their types hold no more.
fn are_told(ends: &[Ended])
    ensures { (pid : ℕ) → IsExitTold pid (exit_told ends.now pid) }
{
    for end in ends {
        is_told(*end);
    }
}

/// The bytes of what an order left beside its state, but for the console.
pub(crate) fn beside_bytes(alloc: Global, trail: &Trail) -> Result<Vec<u8>, AllocError>
    ensures bytes { IfOk result (λ bytes. bytes.items ≡ map came_byte trail.now.came.items
        ++ (to_le_bytes w32 trail.now.preempted ++ exits_bytes (exit_told trail.now.ends.items))) }
    ensures told { (pid : ℕ) → IsExitTold pid (exit_told trail.now.ends.items pid) }
    ensures word { trail.now.preempted < 2 ^ 32 }
{
    let preempted = trail.preempted;
    are_told(&trail.ends);
    let mut bytes = came_bytes(alloc, &trail.came)?;
    bytes.extend_from_slice(&preempted.to_le_bytes())?;
    push_exits(&mut bytes, &trail.ends)?;
    Ok(bytes)
}
