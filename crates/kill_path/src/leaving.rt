//! The messages of a process that dies leave the servers of others.

ghost use Rattle.std.specs.Prelude.{◌≡◌, ◌≢◌, ◌<◌, ℕ, length, IsSome, if◌then◌else◌};
ghost use Rattle.ledger_model.specs.Loans.{loans};
ghost use Rattle.ledger_model.specs.Steps.{end_loan, orphan_loan};
ghost use Rattle.msg_queue.specs.Seats.{changed_at, of_number, seat_of};
ghost use Rattle.msg_queue.specs.declared.held.Held.{Held as HeldMessage};
ghost use Rattle.vm_memory.specs.Memory.{IsUsable, ledger, processes};
ghost use Rattle.vm_memory.specs.Sound.{IsSound as IsMemorySound};
ghost use Rattle.xk_base.specs.declared.limits.TheConstants.{SERVER_LIMIT};
ghost use Rattle.kill_path.specs.Keeping.{Stays};
ghost use Rattle.kill_path.specs.Leaving.{AreOfOthers, HasLeft, LeavesAlike, standing};
ghost use Rattle.kill_path.specs.Leaving.{IsLeavable, IsOrphanable, alone, is_queued, with_alone, without_message};
ghost use Rattle.xk_parts.specs.Sound.{AreOpen};

use crate::closing::spend;
use msg_queue::{Held, Queues};
use server_table::Servers;
use vm_memory::Memory;
use xk_base::limits::SERVER_LIMIT;
use xk_base::{Message, Number, Pid};
use xk_ports::SwapStore;

/// The message has no sender any more.
fn without_sender(message: Message) -> Message
    ensures { result ≡ record message { sender = None } }
{
    let mut alone = message;
    alone.sender = None;
    alone
}

/// A held message loses its sender, and its pages become orphans.
fn leave_alone<W: SwapStore>(mem: &mut Memory<W>, held: Held) -> Held
    requires sound { IsMemorySound W.slot_count mem.old }
    requires usable { IsUsable mem.old }
    requires loan { IsOrphanable (loans (ledger W.held mem.old)) held }
    ensures left { result ≡ alone held }
    ensures ledger { ledger W.held mem.new ≡ orphan_loan (processes mem.old) held.msg.number (ledger W.held mem.old) }
    ensures stays { Stays W.SwapStore mem.old mem.new }
{
    let Held { msg, loan } = held;
    match loan {
        Some(loan) => Held {
            msg: without_sender(msg),
            loan: Some(mem.orphan(loan)),
        },
        None => Held {
            msg: without_sender(msg),
            loan: None,
        },
    }
}

/// The first held message of that number loses its sender, keeps its place, and its pages become orphans.
fn leave_held<W: SwapStore>(mem: &mut Memory<W>, queues: &mut Queues, seat: u8, number: Number)
    requires sound { IsMemorySound W.slot_count mem.old }
    requires usable { IsUsable mem.old }
    requires seat { seat < SERVER_LIMIT }
    requires seats { length queues.old ≡ SERVER_LIMIT }
    requires there { IsSome (of_number number (seat_of queues.old seat).held) }
    requires loan { let all = loans (ledger W.held mem.old) in
        (h : HeldMessage) → of_number number (seat_of queues.old seat).held ≡ Some h → IsOrphanable all h }
    ensures queues { queues.new ≡ changed_at seat (with_alone number) queues.old }
    ensures ledger { ledger W.held mem.new ≡ orphan_loan (processes mem.old) number (ledger W.held mem.old) }
    ensures stays { Stays W.SwapStore mem.old mem.new }
{
    let Some(place) = queues.held_place(seat, number) else {
        unreachable!()
    };
    let Some(held) = queues.take_held(seat, number) else {
        unreachable!()
    };
    let left = leave_alone(mem, held);
    queues.hold_at(seat, place, left);
}

/// The message of that number leaves a seat: a queued one is taken out, and its loan ends; a held one is left alone.
fn leave_message<W: SwapStore>(mem: &mut Memory<W>, queues: &mut Queues, seat: u8, number: Number)
    requires sound { IsMemorySound W.slot_count mem.old }
    requires usable { IsUsable mem.old }
    requires seat { seat < SERVER_LIMIT }
    requires seats { length queues.old ≡ SERVER_LIMIT }
    requires message { IsLeavable (loans (ledger W.held mem.old)) number (seat_of queues.old seat) }
    ensures queues { queues.new ≡ changed_at seat (without_message number) queues.old }
    ensures ledger { let queued = is_queued number (seat_of queues.old seat) in
        let old = ledger W.held mem.old in
        ledger W.held mem.new ≡ (if queued then end_loan number old else orphan_loan (processes mem.old) number old) }
    ensures stays { Stays W.SwapStore mem.old mem.new }
{
    match queues.take_queued(seat, number) {
        Some(ended) => {
            spend(mem, ended);
        }
        None => leave_held(mem, queues, seat, number),
    }
}

/// What the threads of a process wait for at the server of a seat leaves it. A seat without a server has no message.
fn leave_seat<W: SwapStore>(
    mem: &mut Memory<W>,
    servers: &Servers,
    queues: &mut Queues,
    seat: u8,
    pid: Pid,
)
    requires sound { IsMemorySound W.slot_count mem.old }
    requires usable { IsUsable mem.old }
    requires seat { seat < SERVER_LIMIT }
    requires messages { AreOpen (loans (ledger W.held mem.old)) servers.now queues.old }
    ensures alike { let old = standing (ledger W.held mem.old) servers.now queues.old in
        let new = standing (ledger W.held mem.new) servers.now queues.new in
        LeavesAlike (processes mem.old) pid old new }
    ensures messages { AreOpen (loans (ledger W.held mem.new)) servers.now queues.new }
    ensures left { AreOfOthers pid (seat_of queues.new seat) }
    ensures others { (other : ℕ) → other ≢ seat → seat_of queues.new other ≡ seat_of queues.old other }
    ensures stays { Stays W.SwapStore mem.old mem.new }
{
    if servers.at_seat(seat).is_none() {
        return;
    }
    while let Some(number) = queues.first_of(seat, pid) {
        leave_message(mem, queues, seat, number);
    }
}

/// What the threads of a process wait for at any server leaves it.
pub(crate) fn leave_servers<W: SwapStore>(
    mem: &mut Memory<W>,
    servers: &Servers,
    queues: &mut Queues,
    pid: Pid,
)
    requires sound { IsMemorySound W.slot_count mem.old }
    requires usable { IsUsable mem.old }
    requires messages { AreOpen (loans (ledger W.held mem.old)) servers.now queues.old }
    ensures left { let old = standing (ledger W.held mem.old) servers.now queues.old in
        let new = standing (ledger W.held mem.new) servers.now queues.new in
        HasLeft (processes mem.old) pid old new }
    ensures messages { AreOpen (loans (ledger W.held mem.new)) servers.now queues.new }
    ensures stays { Stays W.SwapStore mem.old mem.new }
{
    for seat in 0..SERVER_LIMIT {
        leave_seat(mem, servers, queues, seat as u8, pid);
    }
}
