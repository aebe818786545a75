//! The user places of all processes by number, in the order in which states and tables list them.

ghost use Rattle.std.specs.Prelude.{◌≡◌, ◌<◌, ◌*◌};
ghost use Rattle.ledger_model.specs.Places.{page_at, place_at, places_of_process};
ghost use Rattle.xk_base.specs.declared.limits.TheConstants.{PROCESS_LIMIT};

use xk_base::{Pid, Place, Vpn};

/// The user places of a process: the pages of its five windows.
pub const PLACES_OF_PROCESS: u32 = 20_464;

// The page number of the user place of that number in a process.
fn page_at(number: u32) -> u32
    requires { number < places_of_process }
    ensures { result ≡ page_at number }
{
    match number {
        0..4_080 => 0x0_0010 + number,
        4_080..8_176 => 0x2_0000 + (number - 4_080),
        8_176..12_272 => 0x4_0000 + (number - 8_176),
        12_272..16_368 => 0x6_0000 + (number - 12_272),
        _ => 0x7_F000 + (number - 16_368),
    }
}

/// The user place of that number: those of the first process come first, and those of each in the order of its pages.
#[tactic(auto, unfolding(ledger_model::specs::Places::place_at))]
pub fn place_at(number: u32) -> Place
    requires { number < places_of_process * PROCESS_LIMIT }
    ensures { result ≡ place_at number }
{
    Place {
        pid: Pid(2 + (number / PLACES_OF_PROCESS) as u8),
        vpn: Vpn(page_at(number % PLACES_OF_PROCESS)),
    }
}
