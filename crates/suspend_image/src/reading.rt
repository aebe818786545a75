//! A state file is read.

pub mod broken;
pub mod claims;
pub mod numbers;
pub mod pages;
pub mod procs;
pub mod servers;
pub mod threads;
pub mod words;

ghost use Rattle.std.specs.Prelude.{◌≡◌, ◌<◌, ◌≤◌, ◌^◌, length, None, Ok, IfOk, IfErr, IfNone};
ghost use Rattle.kernel_args.specs.Faults.{first_fault};
ghost use Rattle.suspend_image.specs.Reading.{Gives};
ghost use Rattle.suspend_image.specs.Forms.{Spells};
ghost use Rattle.suspend_image.specs.StateFaults.{state_at, is_not_state as is_not_state_of, is_bad_state_check, header_faults};
ghost use Rattle.suspend_image.specs.StateFaults.{state_fault, IsFault};
ghost use Rattle.machine_model.specs.Runs.Matched.{Matched};
ghost use Rattle.snapshot_rows.specs.Machines.{machine_of};
ghost use Rattle.suspend_image.specs.FileFaults.{IsRefused, state_unmatched};
ghost use Rattle.snapshot_matching.specs.UnmatchedParts.{number_of};
ghost use Rattle.suspend_image.specs.declared.faults.StateError.TheVariants.{Fault};

use crate::faults::{
    NOT_STATE, STATE_CHECK, STATE_FORM, STATE_LENGTH, STATE_UNMATCHED, StateError,
};
use crate::reading::broken::Broken;
use crate::reading::claims::front_claims;
use crate::reading::numbers::{front_numbers, front_reserved, front_timer};
use crate::reading::pages::{front_orphans, front_pages};
use crate::reading::procs::front_procs;
use crate::reading::servers::front_servers;
use crate::reading::threads::front_threads;
use crate::reading::words::word;
use byteorder::{ByteOrder, LittleEndian};
use kernel_args::{ArgFault, crc_x25};
use snapshot_matching::{Part, first_unmatched};
use snapshot_rows::State;
use std::alloc::Global;

/// The bytes in front of the parts of a state: its name, its length and its check number.
const HEADER_SIZE: usize = 16;

/// The parts of a state, which fill the bytes.
#[tactic(auto, unfolding(crate::specs::StateFaults::state_at))]
fn parts(alloc: Global, size: u32, bytes: &[u8]) -> Result<State, Broken>
    ensures { Gives (λ s. s) result (state_at size bytes.now) }
{
    let (numbers, rest) = front_numbers(bytes)?;
    let n = numbers.n;
    let (timer, rest) = front_timer(rest)?;
    let (reserved, rest) = front_reserved(n, rest)?;
    let (procs, rest) = front_procs(alloc, n, rest)?;
    let (many_threads, rest) = word(rest)?;
    let (threads, rest) = front_threads(alloc, n, many_threads, rest)?;
    let (many_servers, rest) = word(rest)?;
    let (servers, rest) = front_servers(alloc, n, many_servers, rest)?;
    let (many_claims, rest) = word(rest)?;
    let (claims, rest) = front_claims(alloc, n, many_claims, rest)?;
    let (many_pages, rest) = word(rest)?;
    let (pages, rest) = front_pages(alloc, size, n, many_pages, rest)?;
    let (many_orphans, rest) = word(rest)?;
    let (orphans, rest) = front_orphans(alloc, size, n, many_orphans, rest)?;
    if !rest.is_empty() {
        return Err(Broken::Form(rest.len()));
    }
    Ok(State {
        cap: numbers.cap,
        n,
        steps: numbers.steps,
        cursor_pid: numbers.cursor_pid,
        cursor_tid: numbers.cursor_tid,
        next_number: numbers.next_number,
        next_serial: numbers.next_serial,
        armed: timer.armed,
        compare: timer.compare,
        reserved: reserved.reserved,
        reserved_pid: reserved.pid,
        reserved_tid: reserved.tid,
        reserved_address: reserved.address,
        procs,
        threads,
        servers,
        claims,
        pages,
        orphans,
    })
}

/// Whether there are fewer than 16 bytes, or the first eight differ.
#[tactic(auto, unfolding(crate::specs::StateFaults::is_not_state))]
fn is_not_state(bytes: &[u8]) -> bool
    ensures { result ≡ is_not_state_of bytes.now }
{
    bytes.len() < HEADER_SIZE || &bytes[..8] != b"XousSt01".as_slice()
}

/// Whether the check number isn't that of the bytes behind it.
#[tactic(auto, unfolding(crate::specs::StateFaults::is_bad_state_check))]
fn has_wrong_check(bytes: &[u8]) -> bool
    requires { 16 ≤ length bytes.now }
    ensures { result ≡ is_bad_state_check bytes.now }
{
    LittleEndian::read_u32(&bytes[12..]) != crc_x25(&bytes[HEADER_SIZE..]) as u32
}

/// The first fault of the first 16 bytes. Without one the file is as long as it says.
#[tactic(auto, unfolding(crate::specs::StateFaults::header_faults, crate::specs::StateFaults::is_not_state))]
fn header_fault(bytes: &[u8]) -> Option<ArgFault>
    ensures fault { result ≡ first_fault (header_faults bytes.now) }
    ensures long { IfNone result (16 ≤ length bytes.now) }
    ensures few { IfNone result (length bytes.now < 2 ^ 32) }
{
    let (what, at) = if is_not_state(bytes) {
        (NOT_STATE, 0)
    } else if LittleEndian::read_u32(&bytes[8..]) as usize != bytes.len() {
        (STATE_LENGTH, 8)
    } else if has_wrong_check(bytes) {
        (STATE_CHECK, 12)
    } else {
        return None;
    };
    Some(ArgFault { what, at })
}

/// The state that a file spells, or the first fault of its form.
#[tactic(auto, unfolding(crate::specs::StateFaults::state_fault))]
fn spelled_state(alloc: Global, bytes: &[u8]) -> Result<State, StateError>
    ensures spelled { IfOk result (Spells bytes.now) }
    ensures fault { IfErr result (IsFault (state_fault bytes.now)) }
{
    if let Some(fault) = header_fault(bytes) {
        return Err(StateError::Fault(fault));
    }
    let size = bytes.len() as u32;
    match parts(alloc, size, &bytes[HEADER_SIZE..]) {
        Ok(state) => Ok(state),
        Err(Broken::Form(left)) => Err(StateError::Fault(ArgFault {
            what: STATE_FORM,
            at: (size as usize).saturating_sub(left) as u32,
        })),
        Err(Broken::NoMemory) => Err(StateError::NoMemory),
    }
}

/// The fault of a state that the machine can't be in.
fn unmatched(part: Part) -> StateError
    ensures { result ≡ Fault (record { what = state_unmatched; at = number_of part }) }
{
    StateError::Fault(ArgFault {
        what: STATE_UNMATCHED,
        at: part.number(),
    })
}

/// Reads a state file: the state that it spells, one that the machine can be in, or its first fault.
pub fn read_state(alloc: Global, bytes: &[u8]) -> Result<State, StateError>
    ensures spelled { IfOk result (Spells bytes.now) }
    ensures matched { IfOk result (λ state. Matched (machine_of bytes.now state)) }
    ensures fault { IfErr result (IsRefused bytes.now) }
{
    let state = spelled_state(alloc, bytes)?;
    match first_unmatched(alloc, &state)? {
        None => Ok(state),
        Some(part) => Err(unmatched(part)),
    }
}
