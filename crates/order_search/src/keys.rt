//! Keys by which a search of orders tells nodes apart: digests of the bytes that spell them, but for what nodes leave out of a state.

ghost use Rattle.std.specs.Prelude.{◌≡◌, ◌≤◌, ◌++◌, IfOk, drop, length, take};
ghost use Rattle.machine_model.specs.State.Machine.{Machine};
ghost use Rattle.sha2.specs.Sha256.{sha256};
ghost use Rattle.suspend_image.specs.StateBytes.{saved_bytes};
ghost use Rattle.order_model.specs.Moves.{Asked, Bound, Point};
ghost use Rattle.order_model.specs.Nodes.{node_of, set_aside};
ghost use Rattle.order_search.specs.Keys.{HasParts, IsToldOf, has_bound, key_of};
ghost use Rattle.order_search.specs.Marks.{marked};

use crate::marks::push_marked;
use sha2::{Digest, Sha256};
use std::alloc::{AllocError, Global};
use suspend_image::Sheet;

/// Where the count of steps stands in state bytes, and the cursor's pid and tid.
const STEPS_AT: u32 = 24;

const PID_AT: u32 = 28;

const TID_AT: u32 = 32;

/// Sets aside what a node leaves out of a state: its cursor, and the count of steps where it isn't kept.
fn set_aside(sheet: &mut Sheet, counts: bool)
    requires long { 36 ≤ length sheet.old.bytes }
    ensures parts { (bound : Bound) (m : Machine) → sheet.old.bytes ≡ saved_bytes m → counts ≡ has_bound bound
        → HasParts (set_aside bound m) sheet.new.bytes }
    ensures long { length sheet.new.bytes ≡ length sheet.old.bytes }
    ensures room { sheet.new.room ≡ sheet.old.room }
{
    sheet.set_word(PID_AT, 2);
    sheet.set_word(TID_AT, 1);
    if counts {
        return;
    }
    sheet.set_word(STEPS_AT, 0);
}

/// The length of state bytes, and their parts with marks.
fn parts_bytes(alloc: Global, bytes: &[u8]) -> Result<Vec<u8>, AllocError>
    requires long { 36 ≤ length bytes.now }
    ensures { IfOk result (λ told. told.items ≡ take 4 (drop 8 bytes.now) ++ marked (drop 16 bytes.now)) }
{
    let mut told = Vec::new(alloc);
    told.extend_from_slice(&bytes[8..12])?;
    push_marked(&mut told, &bytes[16..])?;
    Ok(told)
}

/// The digest of what is told of a state, what is beside it, and the console.
fn digest_of(told: &[u8], beside: &[u8], console: &[u8]) -> [u8; 32]
    ensures { result ≡ sha256 ((told.now ++ beside.now) ++ console.now) }
{
    let mut hasher = Sha256::new();
    hasher.update(told);
    hasher.update(beside);
    hasher.update(console);
    hasher.finalize()
}

/// The key of the node of a state whose state bytes the sheet has, with those of the events that came and of what processes ended with,
/// and with these bytes on the console. A node without a count of steps has none in its key. What the node leaves out is set aside in the
/// sheet.
pub(crate) fn node_key(
    alloc: Global,
    sheet: &mut Sheet,
    counts: bool,
    beside: &[u8],
    console: &[u8],
) -> Result<[u8; 32], AllocError>
    requires long { 36 ≤ length sheet.old.bytes }
    ensures key { (asked : Asked) (p : Point) → IsToldOf asked p sheet.old.bytes counts beside.now console.now
        → IfOk result (λ key. key ≡ key_of asked (node_of asked p)) }
    ensures room { sheet.new.room ≡ sheet.old.room }
{
    set_aside(sheet, counts);
    let told = parts_bytes(alloc, sheet.as_slice())?;
    Ok(digest_of(&told, beside, console))
}
