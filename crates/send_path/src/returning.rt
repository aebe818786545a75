//! ReturnMemory, ReturnScalar1 and ReturnScalar2.

ghost use Rattle.std.specs.Prelude.{◌≡◌, ◌+◌, ◌≤◌, ◌==◌, ◌||◌, length, true};
ghost use Rattle.syscall_codec.specs.Replies.{words_of};
ghost use Rattle.thread_table.specs.ThreadMap.{is_ready};
ghost use Rattle.thread_table.specs.Shown.{threads_of};
ghost use Rattle.syscall_codec.specs.CallNumbers.{return_memory as memory_number};
ghost use Rattle.syscall_codec.specs.CallNumbers.{return_scalar1 as scalar1_number, return_scalar2 as scalar2_number};
ghost use Rattle.syscall_codec.specs.CallWords.{call_number};
ghost use Rattle.machine_model.specs.State.Machine.{Machine};
ghost use Rattle.xk_parts.specs.Parts.{parts_of};
ghost use Rattle.xk_parts.specs.Sound.{AreSound};
ghost use Rattle.send_path.specs.Returning.{given_row};
ghost use Rattle.send_path.specs.Rows.{IsRow, memory_row, scalar_row, table_row};
ghost use Rattle.send_path.specs.Keeping.{KeepsMemory};

use crate::holding::{HeldAt, held_by, is_blocking, is_its_range, is_lend, take};
use crate::threads::answer_with_sender;
use msg_queue::Queues;
use server_table::Servers;
use syscall_codec::{Call, Reply, read_call, reply_words};
use thread_table::Threads;
use vm_memory::Memory;
use xk_base::{Log, Number, ThreadId, XousError};
use xk_ports::SwapStore;

/// The pages that a server gives back, and what it leaves in the words offset and valid.
#[derive(Clone, Copy, Debug)]
struct Returned {
    number: Number,
    address: u32,
    size: u32,
    offset: u32,
    valid: u32,
}

/// What a server gives back: the pages of a lend, or the answer to a blocking scalar.
#[derive(Clone, Copy, Debug)]
enum GivenBack {
    Pages(Returned),
    Values(Number, Reply),
}

/// A thread gives back a message that a server of its process holds: the loan ends, the sender is
/// answered, and so is the caller. It is refused as `DoubleFree` where no such server holds a message
/// of that number and of the call's kind, and as `BadAddress` where the pages aren't those of the
/// loan; then nothing changes.
pub fn give_back<W: SwapStore>(
    mem: &mut Memory<W>,
    threads: &mut Threads,
    servers: &Servers,
    queues: &mut Queues,
    log: &mut Log,
    who: ThreadId,
    words: [u32; 8],
) -> Result<(), XousError>
    requires ready { is_ready (threads_of threads.old who) ≡ true }
    requires room { length log.old.records + 2 ≤ log.old.room }
    requires served { let call = call_number words in
        (call == memory_number || call == scalar1_number || call == scalar2_number) ≡ true }
    requires sound { AreSound W.SwapStore who (parts_of mem.old threads.old servers.now queues.old log.old) }
    ensures row { let old = parts_of mem.old threads.old servers.now queues.old log.old in
        let new = record old { mem = Some mem.new; threads = threads.new; queues = queues.new; log = log.new } in
        IsRow W.held (table_row words) who old new result }
    ensures sound { AreSound W.SwapStore who (parts_of mem.new threads.new servers.now queues.new log.new) }
    ensures mem { KeepsMemory W.SwapStore mem.old mem.new }
{
    match given_back(words) {
        GivenBack::Pages(returned) => {
            return_memory(mem, threads, servers, queues, log, who, returned)
        }
        GivenBack::Values(number, reply) => {
            return_scalar(mem, threads, servers, queues, log, who, number, reply)
        }
    }
}

// What the words of a return give back.
fn given_back(words: [u32; 8]) -> GivenBack
    requires { let call = call_number words in
        (call == memory_number || call == scalar1_number || call == scalar2_number) ≡ true }
    ensures { (m : Machine) → table_row words m ≡ given_row result m }
{
    match read_call(words) {
        Ok(
            Call::ReturnMemory {
                token,
                address,
                size,
                offset,
                valid,
            },
        ) => GivenBack::Pages(Returned {
            number: Number(token),
            address,
            size,
            offset,
            valid,
        }),
        Ok(Call::ReturnScalar1 { token, value }) => {
            GivenBack::Values(Number(token), Reply::Scalar1(value))
        }
        Ok(
            Call::ReturnScalar2 {
                token,
                value1,
                value2,
            },
        ) => GivenBack::Values(Number(token), Reply::Scalar2(value1, value2)),
        _ => unreachable!(),
    }
}

// A held lend or mutable lend is given back.
fn return_memory<W: SwapStore>(
    mem: &mut Memory<W>,
    threads: &mut Threads,
    servers: &Servers,
    queues: &mut Queues,
    log: &mut Log,
    who: ThreadId,
    returned: Returned,
) -> Result<(), XousError>
    requires ready { is_ready (threads_of threads.old who) ≡ true }
    requires room { length log.old.records + 2 ≤ log.old.room }
    requires sound { AreSound W.SwapStore who (parts_of mem.old threads.old servers.now queues.old log.old) }
    ensures row { let old = parts_of mem.old threads.old servers.now queues.old log.old in
        let new = record old { mem = Some mem.new; threads = threads.new; queues = queues.new; log = log.new } in
        IsRow W.held (memory_row returned.number returned.address returned.size returned.offset returned.valid) who old new result }
    ensures sound { AreSound W.SwapStore who (parts_of mem.new threads.new servers.now queues.new log.new) }
    ensures mem { KeepsMemory W.SwapStore mem.old mem.new }
{
    let Some(HeldAt { seat, message, .. }) = held_by(servers, queues, who.pid, returned.number)
    else {
        return Err(XousError::DoubleFree);
    };
    if !is_lend(message.kind) {
        return Err(XousError::DoubleFree);
    }
    if !is_its_range(returned.address, returned.size, &message) {
        return Err(XousError::BadAddress);
    }
    match take(queues, seat, returned.number) {
        Some(loan) => mem.end_loan(loan),
        None => unreachable!(),
    }
    let words = reply_words(&Reply::Returned(returned.offset, returned.valid));
    answer_with_sender(threads, log, who, message.sender, words);
    Ok(())
}

// A held blocking scalar is given back with this reply.
fn return_scalar<W: SwapStore>(
    mem: &Memory<W>,
    threads: &mut Threads,
    servers: &Servers,
    queues: &mut Queues,
    log: &mut Log,
    who: ThreadId,
    number: Number,
    reply: Reply,
) -> Result<(), XousError>
    requires ready { is_ready (threads_of threads.old who) ≡ true }
    requires room { length log.old.records + 2 ≤ log.old.room }
    requires sound { AreSound W.SwapStore who (parts_of mem.now threads.old servers.now queues.old log.old) }
    ensures row { let old = parts_of mem.now threads.old servers.now queues.old log.old in
        let new = record old { threads = threads.new; queues = queues.new; log = log.new } in
        IsRow W.held (scalar_row number (words_of reply)) who old new result }
    ensures sound { AreSound W.SwapStore who (parts_of mem.now threads.new servers.now queues.new log.new) }
{
    let Some(HeldAt { seat, message, .. }) = held_by(servers, queues, who.pid, number) else {
        return Err(XousError::DoubleFree);
    };
    if !is_blocking(message.kind) {
        return Err(XousError::DoubleFree);
    }
    match take(queues, seat, number) {
        Some(_) => unreachable!(),
        None => {}
    }
    answer_with_sender(threads, log, who, message.sender, reply_words(&reply));
    Ok(())
}
