//! The system calls, and which of them an interrupt handler may not make.

ghost use Rattle.std.specs.Prelude.{◌≡◌, ℕ, List};
ghost use Rattle.syscall_codec.specs.CallWords.{is_refused_to_handler};
ghost use Rattle.syscall_codec.specs.Calls.{Asks};

use xk_base::Sid;

/// A system call with the words that it names. Sizes, lengths and addresses are in bytes.
#[derive(Clone, Copy, Debug, PartialEq, Eq)]
pub enum Call {
    /// Maps new pages, or the console's page.
    MapMemory {
        phys: u32,
        virt: u32,
        size: u32,
        flags: u32,
    },
    /// Ends the turn.
    Yield,
    /// Takes an interrupt for the caller's process.
    ClaimInterrupt {
        number: u32,
        handler: u32,
        arg: u32,
    },
    /// Gives an interrupt up.
    FreeInterrupt {
        number: u32,
    },
    /// Grows the heap.
    IncreaseHeap {
        bytes: u32,
    },
    /// Shrinks the heap.
    DecreaseHeap {
        bytes: u32,
    },
    /// Takes rights away from pages.
    UpdateMemoryFlags {
        address: u32,
        size: u32,
        flags: u32,
    },
    /// Makes a server.
    CreateServerWithAddress {
        sid: Sid,
    },
    /// Takes a message, or waits for one.
    ReceiveMessage {
        sid: Sid,
    },
    /// Sends a message, again and again while the server is full.
    SendMessage {
        cid: u32,
        kind: u32,
        id: u32,
        words: [u32; 4],
    },
    /// Connects to a server, again and again until there is one.
    Connect {
        sid: Sid,
    },
    /// Starts a thread.
    CreateThread {
        entry: u32,
        sp: u32,
        args: [u32; 4],
    },
    /// Removes pages.
    UnmapMemory {
        address: u32,
        size: u32,
    },
    /// Gives lent pages back.
    ReturnMemory {
        token: u32,
        address: u32,
        size: u32,
        offset: u32,
        valid: u32,
    },
    /// Ends the caller's process.
    TerminateProcess {
        exit: u32,
    },
    /// Sends a message unless the server is full.
    TrySendMessage {
        cid: u32,
        kind: u32,
        id: u32,
        words: [u32; 4],
    },
    /// Connects to a server if there is one.
    TryConnect {
        sid: Sid,
    },
    /// Answers a blocking scalar with one value.
    ReturnScalar1 {
        token: u32,
        value: u32,
    },
    /// Answers a blocking scalar with two values.
    ReturnScalar2 {
        token: u32,
        value1: u32,
        value2: u32,
    },
    /// Takes a message if there is one.
    TryReceiveMessage {
        sid: Sid,
    },
    /// Waits for the end of a thread.
    JoinThread {
        tid: u32,
    },
    /// Ends a server.
    DestroyServer {
        sid: Sid,
    },
    /// Asks for the caller's thread.
    GetThreadId,
    /// Asks for the caller's process.
    GetProcessId,
    /// Hands a held lend or mutable lend to another server.
    ForwardMessage {
        token: u32,
        cid: u32,
    },
}

/// Whether the call can make its thread wait, so that an interrupt handler, tid 1, may not make it.
pub fn can_wait(c: &Call) -> bool
    ensures { (words : List ℕ) → Asks words c.now → result ≡ is_refused_to_handler words }
{
    match *c {
        Call::ReceiveMessage { .. }
        | Call::SendMessage { .. }
        | Call::Connect { .. }
        | Call::JoinThread { .. } => true,
        // A mutable lend, a lend and a blocking scalar wait for their answers.
        Call::TrySendMessage { kind, .. } => matches!(kind, 1 | 2 | 5),
        _ => false,
    }
}
