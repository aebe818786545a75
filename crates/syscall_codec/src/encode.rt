//! From a call to its eight words.

ghost use Rattle.std.specs.Prelude.{◌≡◌, ◌-◌, [], ◌∷◌, drop, replicate};
ghost use Rattle.syscall_codec.specs.CallNumbers.{create_thread};
ghost use Rattle.syscall_codec.specs.CallWords.{call_number, sid_words, send_cid, send_kind, send_id, send_words as sent_words};
ghost use Rattle.syscall_codec.specs.CallWords.{thread_entry, thread_sp, thread_arguments};
ghost use Rattle.syscall_codec.specs.Calls.{Asks, named_words};

use crate::calls::Call;
use crate::numbers;
use xk_base::Sid;

/// The words that ask for the call, with 0 where it names no word.
pub fn call_words(c: &Call) -> [u32; 8]
    ensures asks { Asks result c.now }
    ensures rest { drop (named_words c.now) result ≡ replicate (8 - named_words c.now) 0 }
{
    match *c {
        Call::MapMemory {
            phys,
            virt,
            size,
            flags,
        } => [numbers::MAP_MEMORY, phys, virt, size, flags, 0, 0, 0],
        Call::Yield => [numbers::YIELD, 0, 0, 0, 0, 0, 0, 0],
        Call::ClaimInterrupt {
            number,
            handler,
            arg,
        } => [numbers::CLAIM_INTERRUPT, number, handler, arg, 0, 0, 0, 0],
        Call::FreeInterrupt { number } => [numbers::FREE_INTERRUPT, number, 0, 0, 0, 0, 0, 0],
        Call::IncreaseHeap { bytes } => [numbers::INCREASE_HEAP, bytes, 0, 0, 0, 0, 0, 0],
        Call::DecreaseHeap { bytes } => [numbers::DECREASE_HEAP, bytes, 0, 0, 0, 0, 0, 0],
        Call::UpdateMemoryFlags {
            address,
            size,
            flags,
        } => [
            numbers::UPDATE_MEMORY_FLAGS,
            address,
            size,
            flags,
            0,
            0,
            0,
            0,
        ],
        Call::CreateServerWithAddress { sid } => {
            server_words(numbers::CREATE_SERVER_WITH_ADDRESS, sid)
        }
        Call::ReceiveMessage { sid } => server_words(numbers::RECEIVE_MESSAGE, sid),
        Call::SendMessage {
            cid,
            kind,
            id,
            words,
        } => send_words(numbers::SEND_MESSAGE, cid, kind, id, words),
        Call::Connect { sid } => server_words(numbers::CONNECT, sid),
        Call::CreateThread { entry, sp, args } => start_words(entry, sp, args),
        Call::UnmapMemory { address, size } => {
            [numbers::UNMAP_MEMORY, address, size, 0, 0, 0, 0, 0]
        }
        Call::ReturnMemory {
            token,
            address,
            size,
            offset,
            valid,
        } => [
            numbers::RETURN_MEMORY,
            token,
            address,
            size,
            offset,
            valid,
            0,
            0,
        ],
        Call::TerminateProcess { exit } => [numbers::TERMINATE_PROCESS, exit, 0, 0, 0, 0, 0, 0],
        Call::TrySendMessage {
            cid,
            kind,
            id,
            words,
        } => send_words(numbers::TRY_SEND_MESSAGE, cid, kind, id, words),
        Call::TryConnect { sid } => server_words(numbers::TRY_CONNECT, sid),
        Call::ReturnScalar1 { token, value } => {
            [numbers::RETURN_SCALAR1, token, value, 0, 0, 0, 0, 0]
        }
        Call::ReturnScalar2 {
            token,
            value1,
            value2,
        } => [numbers::RETURN_SCALAR2, token, value1, value2, 0, 0, 0, 0],
        Call::TryReceiveMessage { sid } => server_words(numbers::TRY_RECEIVE_MESSAGE, sid),
        Call::JoinThread { tid } => [numbers::JOIN_THREAD, tid, 0, 0, 0, 0, 0, 0],
        Call::DestroyServer { sid } => server_words(numbers::DESTROY_SERVER, sid),
        Call::GetThreadId => [numbers::GET_THREAD_ID, 0, 0, 0, 0, 0, 0, 0],
        Call::GetProcessId => [numbers::GET_PROCESS_ID, 0, 0, 0, 0, 0, 0, 0],
        Call::ForwardMessage { token, cid } => [
            numbers::FORWARD_MESSAGE,
            token,
            cid,
            0,
            0,
            0,
            0,
            0,
        ],
    }
}

/// The words of a call that names a server alone.
fn server_words(number: u32, sid: Sid) -> [u32; 8]
    ensures number { call_number result ≡ number }
    ensures sid { sid_words result ≡ sid.0 }
    ensures rest { drop 5 result ≡ replicate 3 0 }
{
    let Sid([s0, s1, s2, s3]) = sid;
    [number, s0, s1, s2, s3, 0, 0, 0]
}

/// The words of a send, which names all eight.
fn send_words(number: u32, cid: u32, kind: u32, id: u32, words: [u32; 4]) -> [u32; 8]
    ensures number { call_number result ≡ number }
    ensures cid { send_cid result ≡ cid }
    ensures kind { send_kind result ≡ kind }
    ensures id { send_id result ≡ id }
    ensures words { sent_words result ≡ words }
{
    let [w0, w1, w2, w3] = words;
    [number, cid, kind, id, w0, w1, w2, w3]
}

/// The words of CreateThread.
fn start_words(entry: u32, sp: u32, args: [u32; 4]) -> [u32; 8]
    ensures number { call_number result ≡ create_thread }
    ensures entry { thread_entry result ≡ entry }
    ensures sp { thread_sp result ≡ sp }
    ensures args { thread_arguments result ≡ args }
    ensures rest { drop 7 result ≡ 0 ∷ [] }
{
    let [a0, a1, a2, a3] = args;
    [numbers::CREATE_THREAD, entry, sp, a0, a1, a2, a3, 0]
}
