//! What of a machine no part holds is written, with the size of the machine.

ghost use Rattle.std.specs.Prelude.{◌≡◌, ◌≤◌, ℕ, length, unwrap_or, Some};
ghost use Rattle.std.specs.Option.{option_map};
ghost use Rattle.machine_model.specs.State.Machine.{Reservation};
ghost use Rattle.save_path.specs.Fitting.{AreNumbersFit};
ghost use Rattle.save_path.specs.Saved.{saved_machine};
ghost use Rattle.save_path.specs.Written.{Appends, Fits, reserved_numbers};
ghost use Rattle.suspend_image.specs.Reading.{greatest};
ghost use Rattle.suspend_image.specs.SavedRows.{machine_row};
ghost use Rattle.suspend_image.specs.Spelling.{machine_bytes};
ghost use Rattle.vm_memory.specs.Memory.{processes};
ghost use Rattle.vm_memory.specs.Sound.{IsSound};
ghost use Rattle.xk_parts.specs.Parts.{Parts, as_reservation};

use server_table::Servers;
use suspend_image::Sheet;
use vm_memory::Memory;
use xk_base::ThreadId;
use xk_ports::SwapStore;

/// What of a machine no part holds.
#[derive(Clone, Copy)]
pub struct Numbers {
    /// Whose turn it is.
    pub cursor: ThreadId,
    /// The number that the next accepted message gets.
    pub next: u32,
    /// Steps done.
    pub steps: u32,
    /// The compare value of the timer, where it is armed.
    pub compare: Option<u32>,
    /// The thread that has reserved an address, and that address.
    pub reserved: Option<(ThreadId, u32)>,
}

// The compare value; 0 where there is none.
fn compare_word(compare: Option<u32>) -> u32
    ensures is { result ≡ unwrap_or compare 0 }
    ensures fit { (at : ℕ) → compare ≡ Some at → at ≤ greatest }
{
    compare.unwrap_or(0)
}

// The words of a reservation: whether there is one, its thread, and the address.
fn reserved_words(reserved: Option<(ThreadId, u32)>) -> [u32; 4]
    ensures are { result ≡ reserved_numbers (option_map as_reservation reserved) }
    ensures four { length result ≡ 4 }
    ensures fit { (r : Reservation) → option_map as_reservation reserved ≡ Some r → r.address ≤ greatest }
{
    match reserved {
        Some((who, address)) => [1, u32::from(who.pid.0), u32::from(who.tid.0), address],
        None => [0; 4],
    }
}

/// Appends the numbers of a machine that was made for so many processes.
pub(crate) fn write_numbers<W: SwapStore>(
    sheet: &mut Sheet,
    mem: &Memory<W>,
    servers: &Servers,
    procs: u32,
    numbers: Numbers,
)
    requires sound { IsSound W.slot_count mem.now }
    requires procs { procs ≡ processes mem.now }
    requires room { Fits sheet.old 52 }
    // .. whatever its other parts are
    ensures words { (parts : Parts W) → parts.mem ≡ Some mem.now → parts.servers ≡ servers.now
        → Appends sheet.old sheet.new (machine_bytes (machine_row (saved_machine W.held numbers parts))) 52 }
    ensures fit { (parts : Parts W) → AreNumbersFit (saved_machine W.held numbers parts) }
{
    let Numbers {
        cursor,
        next,
        steps,
        compare,
        reserved,
    } = numbers;
    sheet.push_words(&[
        mem.cap(),
        procs,
        steps,
        u32::from(cursor.pid.0),
        u32::from(cursor.tid.0),
        next,
        servers.next_serial().0,
        u32::from(compare.is_some()),
        compare_word(compare),
    ]);
    sheet.push_words(&reserved_words(reserved));
}
