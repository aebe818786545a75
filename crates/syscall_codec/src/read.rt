//! From eight words to a call.

ghost use Rattle.std.specs.Prelude.{◌≡◌, ◌==◌, ◌↔◌, IfOk, OnErr, IfSome, IsNone, false};
ghost use Rattle.std.specs.List.{list_any};
ghost use Rattle.syscall_codec.specs.CallNumbers.{is_call_number};
ghost use Rattle.syscall_codec.specs.CallWords.{call_number, sid_words};
ghost use Rattle.syscall_codec.specs.declared.calls.Call.{Call};
ghost use Rattle.syscall_codec.specs.Calls.{Asks};
ghost use Rattle.syscall_codec.specs.Families.{memory_numbers, server_numbers, message_numbers, thread_numbers};

use crate::calls::Call;
use crate::numbers;
use xk_base::{Sid, XousError};

/// The call that the words ask for. `UnhandledSyscall` comes exactly where the first word is the
/// number of no call. Words that the call doesn't name are ignored.
pub fn read_call(words: [u32; 8]) -> Result<Call, XousError>
    ensures found { IfOk result (Asks words) }
    ensures only { (c : Call) → Asks words c → result ≡ Ok c }
    ensures unhandled { (result ≡ Err XousError.UnhandledSyscall) ↔ (is_call_number (call_number words) ≡ false) }
    ensures no_other { OnErr result (result ≡ Err XousError.UnhandledSyscall) }
{
    if let Some(call) = memory_call(&words) {
        return Ok(call);
    }
    if let Some(call) = server_call(&words) {
        return Ok(call);
    }
    if let Some(call) = message_call(&words) {
        return Ok(call);
    }
    thread_call(&words).ok_or(XousError::UnhandledSyscall)
}

/// A call on the caller's memory.
fn memory_call(words: &[u32; 8]) -> Option<Call>
    ensures found { IfSome result (Asks words.now) }
    ensures none { IsNone result → list_any (λ k. call_number words.now == k) memory_numbers ≡ false }
{
    match words[0] {
        numbers::MAP_MEMORY => Some(Call::MapMemory {
            phys: words[1],
            virt: words[2],
            size: words[3],
            flags: words[4],
        }),
        numbers::INCREASE_HEAP => Some(Call::IncreaseHeap { bytes: words[1] }),
        numbers::DECREASE_HEAP => Some(Call::DecreaseHeap { bytes: words[1] }),
        numbers::UPDATE_MEMORY_FLAGS => Some(Call::UpdateMemoryFlags {
            address: words[1],
            size: words[2],
            flags: words[3],
        }),
        numbers::UNMAP_MEMORY => Some(Call::UnmapMemory {
            address: words[1],
            size: words[2],
        }),
        _ => None,
    }
}

/// A call that names a server.
fn server_call(words: &[u32; 8]) -> Option<Call>
    ensures found { IfSome result (Asks words.now) }
    ensures none { IsNone result → list_any (λ k. call_number words.now == k) server_numbers ≡ false }
{
    let sid = sid_at(words);
    match words[0] {
        numbers::CREATE_SERVER_WITH_ADDRESS => Some(Call::CreateServerWithAddress { sid }),
        numbers::RECEIVE_MESSAGE => Some(Call::ReceiveMessage { sid }),
        numbers::CONNECT => Some(Call::Connect { sid }),
        numbers::TRY_CONNECT => Some(Call::TryConnect { sid }),
        numbers::TRY_RECEIVE_MESSAGE => Some(Call::TryReceiveMessage { sid }),
        numbers::DESTROY_SERVER => Some(Call::DestroyServer { sid }),
        _ => None,
    }
}

/// The identifier of a server.
fn sid_at(words: &[u32; 8]) -> Sid
    ensures { result.0 ≡ sid_words words.now }
{
    Sid([words[1], words[2], words[3], words[4]])
}

/// A call that sends a message, answers one or passes one on.
fn message_call(words: &[u32; 8]) -> Option<Call>
    ensures found { IfSome result (Asks words.now) }
    ensures none { IsNone result → list_any (λ k. call_number words.now == k) message_numbers ≡ false }
{
    match words[0] {
        numbers::SEND_MESSAGE => Some(Call::SendMessage {
            cid: words[1],
            kind: words[2],
            id: words[3],
            words: [words[4], words[5], words[6], words[7]],
        }),
        numbers::RETURN_MEMORY => Some(Call::ReturnMemory {
            token: words[1],
            address: words[2],
            size: words[3],
            offset: words[4],
            valid: words[5],
        }),
        numbers::TRY_SEND_MESSAGE => Some(Call::TrySendMessage {
            cid: words[1],
            kind: words[2],
            id: words[3],
            words: [words[4], words[5], words[6], words[7]],
        }),
        numbers::RETURN_SCALAR1 => Some(Call::ReturnScalar1 {
            token: words[1],
            value: words[2],
        }),
        numbers::RETURN_SCALAR2 => Some(Call::ReturnScalar2 {
            token: words[1],
            value1: words[2],
            value2: words[3],
        }),
        numbers::FORWARD_MESSAGE => Some(Call::ForwardMessage {
            token: words[1],
            cid: words[2],
        }),
        _ => None,
    }
}

/// A call on threads, processes and interrupts.
fn thread_call(words: &[u32; 8]) -> Option<Call>
    ensures found { IfSome result (Asks words.now) }
    ensures none { IsNone result → list_any (λ k. call_number words.now == k) thread_numbers ≡ false }
{
    match words[0] {
        numbers::YIELD => Some(Call::Yield),
        numbers::CLAIM_INTERRUPT => Some(Call::ClaimInterrupt {
            number: words[1],
            handler: words[2],
            arg: words[3],
        }),
        numbers::FREE_INTERRUPT => Some(Call::FreeInterrupt { number: words[1] }),
        numbers::CREATE_THREAD => Some(Call::CreateThread {
            entry: words[1],
            sp: words[2],
            args: [words[3], words[4], words[5], words[6]],
        }),
        numbers::TERMINATE_PROCESS => Some(Call::TerminateProcess { exit: words[1] }),
        numbers::JOIN_THREAD => Some(Call::JoinThread { tid: words[1] }),
        numbers::GET_THREAD_ID => Some(Call::GetThreadId),
        numbers::GET_PROCESS_ID => Some(Call::GetProcessId),
        _ => None,
    }
}
