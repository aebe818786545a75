//! Images are read.

ghost use Rattle.std.specs.Prelude.{◌≡◌, ◌≤◌, length, None, IfOk, OnOk, IfErr};
ghost use Rattle.kernel_args.specs.Image.{process_limit, Spells, IsSoundArgs};
ghost use Rattle.kernel_args.specs.Tags.{IsTag, is_slots as is_slots_of};
ghost use Rattle.kernel_args.specs.Faults.{first_fault, tag_faults, at_start, row_fault, args_fault, IsFault};
ghost use Rattle.kernel_args.specs.Reading.{tag_of, before_with, AddsTag, SpellsRow};
ghost use Rattle.kernel_args.specs.declared.faults.ArgsError.TheVariants.{Fault, NoMemory as OutOfMemory};

use crate::args::Args;
use crate::check_number::crc_x25;
use crate::faults::{
    ArgFault, ArgsError, BAD_CHECK, BAD_INI, BAD_NAMES, BAD_SLOTS, BAD_TOTAL, NO_PROCESS,
    TOO_MANY_PROCESSES,
};
use crate::found::Found;
use crate::header::{HEADER_SIZE, SECOND_VERSION, header_fault, header_of};
use crate::names::append_names;
use crate::process::{process_limit, process_of};
use crate::slots::slots_of;
use crate::tag::{TagAt, front_tag};
use std::alloc::Global;
use xk_base::NoMemory;

impl From<NoMemory> for ArgsError {
    ghost from_gives = { λ _ e. e ≡ OutOfMemory };

    fn from(_e: NoMemory) -> ArgsError {
        ArgsError::NoMemory
    }
}

/// A fault of this number at an offset.
fn fault(what: u8, at: u32) -> ArgsError
    ensures { result ≡ Fault (record { what = what; at = at }) }
{
    ArgsError::Fault(ArgFault { what, at })
}

/// Whether the tag is a `SwpS`, which is read in version 2 alone.
fn is_slots(version: u32, tag: &TagAt<'_>) -> bool
    ensures { result ≡ is_slots_of version (tag_of tag.now) }
{
    version == SECOND_VERSION && tag.name == b"SwpS".as_slice()
}

/// Reads a tag at an offset into what the tags before it spell.
fn read_tag(
    alloc: Global,
    version: u32,
    tag: &TagAt<'_>,
    at: u32,
    found: &mut Found,
) -> Result<(), ArgsError>
    requires tag { IsTag (tag_of tag.now) }
    requires few { length found.old.procs ≤ process_limit version }
    ensures ok { OnOk result (AddsTag version (tag_of tag.now) found.old found.new) }
    ensures fault { IfErr result (IsFault (first_fault (tag_faults (before_with version at found.old) (tag_of tag.now)))) }
{
    if crc_x25(tag.contents) != tag.check {
        return Err(fault(BAD_CHECK, at));
    }
    if tag.name == b"IniE".as_slice() {
        if found.procs.as_slice().len() >= process_limit(version) as usize {
            return Err(fault(TOO_MANY_PROCESSES, at));
        }
        match process_of(alloc, version, tag.contents)? {
            None => return Err(fault(BAD_INI, at)),
            Some(process) => found.procs.push(process)?,
        }
    } else if tag.name == b"PNam".as_slice() {
        if !append_names(alloc, &mut found.names, tag.contents)? {
            return Err(fault(BAD_NAMES, at));
        }
    } else if is_slots(version, tag) {
        match slots_of(tag.contents) {
            Some(slots) if found.slots.is_none() => found.slots = Some(slots),
            _ => return Err(fault(BAD_SLOTS, at)),
        }
    }
    Ok(())
}

/// Reads the row of tags behind the header of an image of this version.
fn read_row(alloc: Global, version: u32, row: &[u8]) -> Result<Found, ArgsError>
    requires { length row.now ≤ 67108836 }
    ensures ok { IfOk result (SpellsRow version row.now) }
    ensures fault { IfErr result (IsFault (row_fault (at_start version) row.now)) }
{
    let mut found = Found::new(alloc);
    let mut rest = row;
    while !rest.is_empty() {
        let at = (HEADER_SIZE + (row.len() - rest.len())) as u32;
        match front_tag(rest) {
            None => return Err(fault(BAD_TOTAL, at)),
            Some((tag, after)) => {
                read_tag(alloc, version, &tag, at, &mut found)?;
                rest = after;
            }
        }
    }
    if found.procs.as_slice().is_empty() {
        return Err(fault(NO_PROCESS, (HEADER_SIZE + row.len()) as u32));
    }
    Ok(found)
}

/// Reads the arguments at the front of an image of at most 64 MiB. A fault is the first that the
/// image has. Want of memory can be answered for any image.
pub fn read_args(alloc: Global, bytes: &[u8]) -> Result<Args, ArgsError>
    requires { length bytes.now ≤ 67108864 }
    ensures spelled { IfOk result (Spells bytes.now) }
    ensures sound { IfOk result IsSoundArgs }
    ensures no_fault { OnOk result (args_fault bytes.now ≡ None) }
    ensures fault { IfErr result (IsFault (args_fault bytes.now)) }
{
    if let Some(fault) = header_fault(bytes) {
        return Err(ArgsError::Fault(fault));
    }
    let header = header_of(bytes);
    let (front, _) = bytes.split_at(header.words as usize * 4);
    let (_, row) = front.split_at(HEADER_SIZE);
    let found = read_row(alloc, header.version, row)?;
    let ram_name = header.ram_name;
    Ok(Args {
        words: header.words,
        version: header.version,
        ram_start: header.ram_start,
        ram_size: header.ram_size,
        ram_name,
        slots: found.slots,
        procs: found.procs,
        names: found.names,
    })
}
