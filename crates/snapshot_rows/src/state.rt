//! What a state file says: the numbers of the whole machine, and a row for each thing that it has.

use xk_base::Row;

/// A state of the machine, but for the bytes of its pages, which stay in the file.
#[derive(Debug, Drop)]
pub struct State {
    /// How many pages there may be at once.
    pub cap: u32,
    /// How many processes there are, dead ones too; their pids are 2 to n + 1.
    pub n: u32,
    /// The steps done.
    pub steps: u32,
    /// The thread whose turn it is.
    pub cursor_pid: u32,
    pub cursor_tid: u32,
    /// The numbers that the next message and the next server get.
    pub next_number: u32,
    pub next_serial: u32,
    /// 1 where the timer is armed, and the number of steps at which it raises its interrupt; else 0.
    pub armed: u32,
    pub compare: u32,
    /// 1 where a thread has reserved an address, and which; else 0.
    pub reserved: u32,
    pub reserved_pid: u32,
    pub reserved_tid: u32,
    pub reserved_address: u32,
    /// The processes in order of their pids.
    pub procs: Row<ProcRow>,
    /// The threads in order of pid and tid.
    pub threads: Row<ThreadRow>,
    /// The live servers in order of their serials.
    pub servers: Row<ServerRow>,
    /// The claimed interrupts in order of their numbers.
    pub claims: Row<ClaimRow>,
    /// The pages in order of their homes.
    pub pages: Row<PageRow>,
    /// The orphans in order of their holders' places.
    pub orphans: Row<OrphanRow>,
}

/// A process.
#[derive(Debug, Drop)]
pub struct ProcRow {
    /// 1 where it is alive, else 0.
    pub alive: u32,
    /// The length of its heap in bytes.
    pub heap: u32,
    /// The serials of the servers that it is connected to: the first has the connection number 2.
    pub serials: Row<u32>,
}

/// A thread.
#[derive(Clone, Copy, Debug, PartialEq, Eq)]
pub struct ThreadRow {
    pub pid: u32,
    pub tid: u32,
    pub pc: u32,
    /// 0 Ready, 1 Receiving, 2 Waiting, 3 Joining, 4 Idle.
    pub state: u32,
    /// The serial, number or tid that it waits for; 0 where it is Ready or Idle.
    pub waits: u32,
    /// The registers x1 to x31.
    pub regs: [u32; 31],
}

/// A live server.
#[derive(Debug, Drop)]
pub struct ServerRow {
    pub sid: [u32; 4],
    pub serial: u32,
    pub pid: u32,
    /// The messages that wait to be received, the oldest first.
    pub queued: Row<MessageRow>,
    /// The messages that were received and wait for their return, the oldest first.
    pub held: Row<MessageRow>,
}

/// A message.
#[derive(Clone, Copy, Debug, PartialEq, Eq)]
pub struct MessageRow {
    pub number: u32,
    /// The thread that waits for its answer; 0 and 0 where none does.
    pub sender_pid: u32,
    pub sender_tid: u32,
    /// 1 to 5, as in a call that sends it.
    pub kind: u32,
    pub id: u32,
    pub words: [u32; 4],
    /// The first page at the receiver, and how many; 0 and 0 for a message without pages.
    pub first: u32,
    pub count: u32,
}

/// A claimed interrupt.
#[derive(Clone, Copy, Debug, PartialEq, Eq)]
pub struct ClaimRow {
    pub number: u32,
    pub pid: u32,
    /// The address at which its handler begins.
    pub handler: u32,
    /// The word that the handler is given.
    pub arg: u32,
    /// 1 where it was raised and not yet delivered, else 0.
    pub pending: u32,
}

/// A page at its home.
#[derive(Clone, Copy, Debug, PartialEq, Eq)]
pub struct PageRow {
    pub pid: u32,
    pub page: u32,
    /// The sum of 1 for writable, 2 for executable and 4 for the console.
    pub right: u32,
    /// The place at which its holder has it; 0 and 0 where it isn't on loan.
    pub holder_pid: u32,
    pub holder_page: u32,
    /// 0 where it isn't on loan, 1 Shared, 2 Exclusive.
    pub kind: u32,
    /// The number of the message by which it is on loan, else 0.
    pub number: u32,
    /// The offset of its 4,096 bytes in the file; 0 for the console.
    pub from: u32,
}

/// A page whose lender died while it was on loan, at its holder's place.
#[derive(Clone, Copy, Debug, PartialEq, Eq)]
pub struct OrphanRow {
    pub pid: u32,
    pub page: u32,
    /// 1 Shared, 2 Exclusive.
    pub kind: u32,
    /// The number of the message by which it is on loan.
    pub number: u32,
    /// The offset of its 4,096 bytes in the file.
    pub from: u32,
}
