//! The pages of a send: whether they may go, where they arrive, and how they go there.

ghost use Rattle.std.specs.Prelude.{◌≡◌, ◌≤◌, true, IfSome};
ghost use Rattle.std.specs.Option.{option_map};
ghost use Rattle.ledger_model.specs.Loans.{Stands, loans};
ghost use Rattle.machine_model.specs.Calling.MemoryCalls.{is_bad_range};
ghost use Rattle.machine_model.specs.Messaging.Messages.{carries_pages as has_pages, loan_kind};
ghost use Rattle.machine_model.specs.Messaging.SendCalls.{sent_ledger};
ghost use Rattle.vm_memory.specs.Memory.{IsUsable, ledger, processes};
ghost use Rattle.vm_memory.specs.Sound.{IsSound as IsMemorySound};
ghost use Rattle.xk_base.specs.Tables.Circle.{is_pid};
ghost use Rattle.xk_base.specs.Numbers.Windows.{page_of};
ghost use Rattle.send_path.specs.Sending.{MayGo, Parcel, arrival_of, mem_kind_of, pages_answer};
ghost use Rattle.send_path.specs.Keeping.{KeepsMemory};

use loan_flags::Loan;
use vm_memory::Memory;
use xk_base::limits::PAGE_SIZE;
use xk_base::{LoanKind, MemKind, MsgKind, Number, Pid, Place, Vpn, Window, XousError};
use xk_ports::SwapStore;

// The kind as that of a message with pages.
fn mem_kind(kind: MsgKind) -> Option<MemKind>
    ensures { result ≡ mem_kind_of kind }
{
    match kind {
        MsgKind::LendMut => Some(MemKind::LendMut),
        MsgKind::Lend => Some(MemKind::Lend),
        MsgKind::Move => Some(MemKind::Move),
        MsgKind::Scalar | MsgKind::BlockingScalar => None,
    }
}

// Whether a message of the kind has pages.
pub(crate) fn carries_pages(kind: MsgKind) -> bool
    ensures { result ≡ has_pages kind }
{
    match kind {
        MsgKind::LendMut | MsgKind::Lend | MsgKind::Move => true,
        MsgKind::Scalar | MsgKind::BlockingScalar => false,
    }
}

// Whether these are not the address and the length of a run of pages.
fn is_bad_range(address: u32, length: u32) -> bool
    ensures { result ≡ is_bad_range address length }
{
    length == 0 || length % PAGE_SIZE != 0 || address % PAGE_SIZE != 0
}

// The page of the process with that address.
pub(crate) fn page_of(pid: Pid, address: u32) -> Place
    ensures { result ≡ page_of pid address }
{
    Place {
        pid,
        vpn: Vpn(address / PAGE_SIZE),
    }
}

// What the tests of a message's pages answer.
pub(crate) fn test_pages<W: SwapStore>(
    mem: &Memory<W>,
    pid: Pid,
    kind: MsgKind,
    address: u32,
    length: u32,
) -> Result<(), XousError>
    requires sound { IsMemorySound W.slot_count mem.now }
    requires usable { IsUsable mem.now }
    requires process { is_pid (processes mem.now) pid.0 ≡ true }
    ensures { result ≡ pages_answer (processes mem.now) (ledger W.held mem.now) pid kind address length }
{
    let Some(kind) = mem_kind(kind) else {
        return Ok(());
    };
    if is_bad_range(address, length) {
        return Err(XousError::BadAlignment);
    }
    mem.may_send(page_of(pid, address), length / PAGE_SIZE, kind)
}

// Where the first of n pages arrives at the process: at the least free run of its Message window.
pub(crate) fn arrival<W: SwapStore>(mem: &Memory<W>, pid: Pid, kind: MsgKind, n: u32) -> Option<Vpn>
    requires sound { IsMemorySound W.slot_count mem.now }
    requires usable { IsUsable mem.now }
    requires process { is_pid (processes mem.now) pid.0 ≡ true }
    requires some { has_pages kind ≡ true → 1 ≤ n }
    ensures { result ≡ arrival_of (processes mem.now) (ledger W.held mem.now) pid kind n }
{
    if carries_pages(kind) {
        mem.free_run(pid, Window::Message, n)
    } else {
        Some(Vpn(0))
    }
}

// The pages of a message go to their places at the receiver, lent or moved; its loan, where it is a lend.
pub(crate) fn carry<W: SwapStore>(
    mem: &mut Memory<W>,
    kind: MsgKind,
    from: Place,
    n: u32,
    to: Place,
    number: Number,
) -> Option<Loan>
    requires sound { IsMemorySound W.slot_count mem.old }
    requires usable { IsUsable mem.old }
    requires may { let sent : Parcel = record { kind = kind; from = from; count = n; to = to; number = number } in
        has_pages kind ≡ true → MayGo (processes mem.old) (ledger W.held mem.old) sent }
    ensures loan { result ≡ option_map (λ loaned. record { lender = Some from; holder = to; count = n; kind = loaned; number = number })
        (loan_kind kind) }
    ensures ledger { ledger W.held mem.new ≡ sent_ledger kind from n to number (ledger W.held mem.old) }
    ensures stands { IfSome result (λ loan. Stands (loans (ledger W.held mem.new)) loan) }
    ensures sound { IsMemorySound W.slot_count mem.new }
    ensures keeps { KeepsMemory W.SwapStore mem.old mem.new }
{
    match kind {
        MsgKind::LendMut => Some(mem.lend(from, n, to, LoanKind::Exclusive, number)),
        MsgKind::Lend => Some(mem.lend(from, n, to, LoanKind::Shared, number)),
        MsgKind::Move => {
            mem.give(from, n, to);
            None
        }
        MsgKind::Scalar | MsgKind::BlockingScalar => None,
    }
}
