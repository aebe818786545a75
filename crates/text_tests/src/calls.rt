//! The words of each call and reply, both ways.

use crate::expecting::expect_eq;
use bitflags::Flags;
use syscall_codec::{Call, MapFlags, Reply, call_words, can_wait, read_call, reply_words};
use xk_base::{Cid, Message, MsgKind, Number, Pid, Sid, ThreadId, Tid, Vpn, XousError};

const SID: Sid = Sid([1, 2, 3, 4]);

/// Rows of a table: the words of a call, the call, and whether it can wait.
macro_rules! rows {
    ($($words:expr => $call:expr, $waits:literal;)*) => {
        [$(($words, $call, $waits)),*]
    };
}

const CALLS: [([u32; 8], Call, bool); 26] = rows! {
    [2, 0xF000_0000, 0, 0x1000, 6, 0, 0, 0] => Call::MapMemory { phys: 0xF000_0000, virt: 0, size: 0x1000, flags: 6 }, false;
    [3, 0, 0, 0, 0, 0, 0, 0] => Call::Yield, false;
    [5, 4, 0x0001_0100, 9, 0, 0, 0, 0] => Call::ClaimInterrupt { number: 4, handler: 0x0001_0100, arg: 9 }, false;
    [6, 4, 0, 0, 0, 0, 0, 0] => Call::FreeInterrupt { number: 4 }, false;
    [10, 4096, 0, 0, 0, 0, 0, 0] => Call::IncreaseHeap { bytes: 4096 }, false;
    [11, 4096, 0, 0, 0, 0, 0, 0] => Call::DecreaseHeap { bytes: 4096 }, false;
    [12, 0x2000_0000, 4096, 2, 0, 0, 0, 0] => Call::UpdateMemoryFlags { address: 0x2000_0000, size: 4096, flags: 2 }, false;
    [14, 1, 2, 3, 4, 0, 0, 0] => Call::CreateServerWithAddress { sid: SID }, false;
    [15, 1, 2, 3, 4, 0, 0, 0] => Call::ReceiveMessage { sid: SID }, true;
    [16, 2, 2, 7, 0x2000_0000, 4096, 0, 0] => Call::SendMessage { cid: 2, kind: 2, id: 7, words: [0x2000_0000, 4096, 0, 0] }, true;
    [17, 1, 2, 3, 4, 0, 0, 0] => Call::Connect { sid: SID }, true;
    [18, 0x0001_0000, 0x7FFF_F000, 1, 2, 3, 4, 0] => Call::CreateThread { entry: 0x0001_0000, sp: 0x7FFF_F000, args: [1, 2, 3, 4] }, false;
    [19, 0x2000_0000, 4096, 0, 0, 0, 0, 0] => Call::UnmapMemory { address: 0x2000_0000, size: 4096 }, false;
    [20, 1, 0x4000_0000, 8192, 7, 9, 0, 0] => Call::ReturnMemory { token: 1, address: 0x4000_0000, size: 8192, offset: 7, valid: 9 }, false;
    [22, 14, 0, 0, 0, 0, 0, 0] => Call::TerminateProcess { exit: 14 }, false;
    // a scalar and a blocking scalar
    [24, 2, 4, 7, 1, 2, 3, 4] => Call::TrySendMessage { cid: 2, kind: 4, id: 7, words: [1, 2, 3, 4] }, false;
    [24, 2, 5, 7, 1, 2, 3, 4] => Call::TrySendMessage { cid: 2, kind: 5, id: 7, words: [1, 2, 3, 4] }, true;
    [25, 1, 2, 3, 4, 0, 0, 0] => Call::TryConnect { sid: SID }, false;
    [26, 1, 8, 0, 0, 0, 0, 0] => Call::ReturnScalar1 { token: 1, value: 8 }, false;
    [27, 1, 8, 9, 0, 0, 0, 0] => Call::ReturnScalar2 { token: 1, value1: 8, value2: 9 }, false;
    [28, 1, 2, 3, 4, 0, 0, 0] => Call::TryReceiveMessage { sid: SID }, false;
    [36, 3, 0, 0, 0, 0, 0, 0] => Call::JoinThread { tid: 3 }, true;
    [41, 1, 2, 3, 4, 0, 0, 0] => Call::DestroyServer { sid: SID }, false;
    [42, 0, 0, 0, 0, 0, 0, 0] => Call::GetThreadId, false;
    [43, 0, 0, 0, 0, 0, 0, 0] => Call::GetProcessId, false;
    [44, 1, 3, 0, 0, 0, 0, 0] => Call::ForwardMessage { token: 1, cid: 3 }, false;
};

/// The words ask for the call and are its words, and the call is one that can wait or not.
#[test]
fn each_call_both_ways(rt: HostRuntime) {
    for (words, call, waits) in &CALLS {
        let told = (read_call(*words), call_words(call), can_wait(call));
        expect_eq(&rt, told, (Ok(*call), *words, *waits));
    }
}

/// Words, and what they ask for.
const OTHER_WORDS: [([u32; 8], Result<Call, XousError>); 4] = [
    ([0; 8], Err(XousError::UnhandledSyscall)),
    ([1, 0, 0, 0, 0, 0, 0, 0], Err(XousError::UnhandledSyscall)),
    ([45, 0, 0, 0, 0, 0, 0, 0], Err(XousError::UnhandledSyscall)),
    ([3, 9, 9, 9, 9, 9, 9, 9], Ok(Call::Yield)),
];

#[test]
fn other_words(rt: HostRuntime) {
    for (words, wanted) in &OTHER_WORDS {
        expect_eq(&rt, read_call(*words), *wanted);
    }
}

const MESSAGE: Message = Message {
    number: Number(1),
    sender: Some(ThreadId {
        pid: Pid(3),
        tid: Tid(2),
    }),
    kind: MsgKind::Lend,
    id: 7,
    words: [0x4000_0000, 4096, 0, 0],
    first: Vpn(0x4_0000),
    count: 1,
};

const REPLIES: [(Reply, [u32; 8]); 10] = [
    (Reply::Plain, [0; 8]),
    (
        Reply::Refused(XousError::ShareViolation),
        [1, 19, 0, 0, 0, 0, 0, 0],
    ),
    (
        Reply::Range(0x6000_0000, 4096),
        [3, 0x6000_0000, 4096, 0, 0, 0, 0, 0],
    ),
    (Reply::Connection(Cid(2)), [7, 2, 0, 0, 0, 0, 0, 0]),
    (Reply::NewServer(SID, Cid(2)), [19, 1, 2, 3, 4, 2, 0, 0]),
    (Reply::Got(MESSAGE), [9, 1, 2, 7, 0x4000_0000, 4096, 0, 0]),
    (Reply::Thread(Tid(3)), [10, 3, 0, 0, 0, 0, 0, 0]),
    (Reply::Scalar1(8), [14, 8, 0, 0, 0, 0, 0, 0]),
    (Reply::Scalar2(8, 9), [15, 8, 9, 0, 0, 0, 0, 0]),
    (Reply::Returned(7, 9), [18, 7, 9, 0, 0, 0, 0, 0]),
];

#[test]
fn each_reply(rt: HostRuntime) {
    for (reply, words) in &REPLIES {
        expect_eq(&rt, reply_words(reply), *words);
    }
}

#[test]
fn flags(rt: HostRuntime) {
    for (bits, flags) in [
        (6, Some(MapFlags::R | MapFlags::W)),
        (31, Some(MapFlags::all())),
        (32, None),
    ] {
        expect_eq(&rt, MapFlags::from_bits(bits), flags);
    }
}
