//! Images are written.

ghost use Rattle.std.specs.Prelude.{◌≡◌, ◌<◌, ◌≤◌, ◌+◌, ◌*◌, ◌++◌, ◌^◌, ℕ, List, length, map, IfOk, OnOk, IfSome, MatchOption, IsTrue};
ghost use Rattle.std.specs.Prelude.{◌==◌, is_some, ◌↔◌, All};
ghost use Rattle.std.specs.List.{flat_map, AllByRecursion};
ghost use Rattle.kernel_args.specs.Contents.{IsSection, IsProcess};
ghost use Rattle.kernel_args.specs.Image.{process_limit as process_limit_of, Spells};
ghost use Rattle.kernel_args.specs.Writing.{with_size, with_load, header_row, slots_row, process_row, row_size, names_row};
ghost use Rattle.kernel_args.specs.Writing.{names_contents as names_contents_of, HasPid, IsWritable, written};
ghost use Rattle.xk_base.specs.declared.limits.TheConstants.{PROCESS_LIMIT, SLOT_LIMIT};

use crate::appending::{
    append_tag, header_contents, names_contents, process_contents, slots_contents,
};
use crate::args::{Args, KNOWN_FLAGS, ProcArgs, ProcName, Section};
use crate::header::{HEADER_SIZE, SECOND_VERSION, is_bad_ram, is_bad_version};
use crate::process::process_limit;
use std::alloc::Global;
use xk_base::limits::{SECTION_LIMIT, SLOT_LIMIT};
use xk_base::{NoMemory, Row};

/// The size above that of any contents in bytes: a length field has 16 bits and counts words.
const CONTENTS_LIMIT: usize = 262_144;

/// The size above that of any section in bytes: its field has 24 bits.
const SECTION_SIZE_LIMIT: u32 = 0x100_0000;

/// Whether the size of the section has 24 bits and its flags are known.
fn is_section(section: &Section) -> bool
    ensures { IsTrue result ↔ IsSection section.now }
{
    // read for the prover alone: its range, which the contract states
    let _addr = section.addr;
    section.size < SECTION_SIZE_LIMIT && section.flags <= KNOWN_FLAGS
}

/// Whether the sizes of the sections have 24 bits and their flags are known.
fn are_sections(sections: &[Section]) -> bool
    ensures { IsTrue result ↔ All IsSection sections.now }
{
    sections.iter().all(is_section)
}

/// Whether the check number of a process is given exactly in version 2.
fn is_check_of(version: u32, check: Option<u16>) -> bool
    ensures { IsTrue result ↔ ((is_some check ≡ (version == 2)) × IfSome check (λ c. c < 2 ^ 16)) }
{
    match check {
        Some(_check) => version == SECOND_VERSION,
        None => version != SECOND_VERSION,
    }
}

/// Whether it has a check number exactly in version 2, and one to 32 sections, which can be written.
fn is_process(version: u32, process: &ProcArgs) -> bool
    ensures { IsTrue result ↔ IsProcess version process.now }
{
    // read for the prover alone: their ranges, which the contract states
    let (_load, _entry) = (process.load, process.entry);
    let sections = process.sections.as_slice();
    is_check_of(version, process.check)
        && (1..=SECTION_LIMIT as usize).contains(&sections.len())
        && are_sections(sections)
}

/// The size in bytes of the `IniE` of a process that can be written, which has few sections.
fn row_size(process: &ProcArgs) -> u32
    ensures { result ≡ row_size process.now }
{
    let sections = process
        .sections
        .as_slice()
        .len()
        .min(SECTION_LIMIT as usize);
    let check_size = if process.check.is_some() { 4 } else { 0 };
    16 + check_size + 8 * sections as u32
}

/// The size in bytes of the `IniE` of at most 64 processes, or None where one can't be written.
fn processes_size(version: u32, processes: &[ProcArgs]) -> Option<usize>
    requires { length processes.now ≤ PROCESS_LIMIT }
    ensures { MatchOption result (¬ All (IsProcess version) processes.now)
        (λ n. All (IsProcess version) processes.now × (n ≡ length (flat_map process_row processes.now)) × (n ≤ 276 * PROCESS_LIMIT)) }
{
    if !processes.iter().all(|process| is_process(version, process)) {
        return None;
    }
    Some(
        processes
            .iter()
            .map(|process| row_size(process) as usize)
            .sum(),
    )
}

/// The size in bytes of the contents of a `PNam`, or None where its length field doesn't hold it.
fn names_size(names: &[ProcName]) -> Option<usize>
    ensures { MatchOption result (4 * 65536 ≤ length (names_contents_of names.now))
        (λ n. All HasPid names.now × (n ≡ length (names_contents_of names.now)) × (n < 4 * 65536)) }
{
    let mut size = 0;
    for name in names {
        // read for the prover alone: its range, which the contract states
        let _pid = name.pid;
        let len = name.name.as_slice().len();
        if len >= CONTENTS_LIMIT {
            return None;
        }
        size += 8 + len.next_multiple_of(4);
        if size >= CONTENTS_LIMIT {
            return None;
        }
    }
    Some(size)
}

/// The size in bytes of the `PNam`, which is there where there is a name, or None where its length
/// field doesn't hold it.
fn names_tag_size(names: &[ProcName]) -> Option<usize>
    ensures { MatchOption result (4 * 65536 ≤ length (names_contents_of names.now))
        (λ n. All HasPid names.now × (n ≡ length (names_row names.now)) × (length (names_contents_of names.now) < 4 * 65536)
        × (n < 8 + 4 * 65536)) }
{
    let size = names_size(names)?;
    if names.is_empty() {
        Some(0)
    } else {
        Some(8 + size)
    }
}

/// Whether an image of this version has this many processes.
fn is_process_count(version: u32, count: usize) -> bool
    ensures { IsTrue result ↔ ((1 ≤ count) × (count ≤ process_limit_of version)) }
{
    (1..=process_limit(version) as usize).contains(&count)
}

/// The size in bytes of the `SwpS`, which is there where slots are given.
fn slots_size(slots: Option<u32>) -> usize
    ensures { result ≡ length (slots_row slots) }
{
    if slots.is_some() { 12 } else { 0 }
}

/// Whether the number of slots can be given in an image of this version.
fn are_slots(version: u32, slots: Option<u32>) -> bool
    ensures { IsTrue result ↔ IfSome slots (λ n. (version ≡ 2) × (n ≤ SLOT_LIMIT)) }
{
    slots.is_none_or(|n| version == SECOND_VERSION && n <= SLOT_LIMIT)
}

/// Whether the arguments can be written: each section's size is below 2^24, each process has a check number
/// exactly in version 2, slots are given only in version 2, the row of tags has `args.words` words, each tag fits
/// its length field, and the row has no fault.
pub fn writable(args: &Args) -> bool
    ensures { IsTrue result ↔ IsWritable args.now }
{
    let processes = args.procs.as_slice();
    if is_bad_version(args.version)
        || is_bad_ram(args.ram_start, args.ram_size)
        || !are_slots(args.version, args.slots)
        || !is_process_count(args.version, processes.len())
    {
        return false;
    }
    let Some(processes_size) = processes_size(args.version, processes) else {
        return false;
    };
    let Some(names_size) = names_tag_size(args.names.as_slice()) else {
        return false;
    };
    HEADER_SIZE + slots_size(args.slots) + processes_size + names_size == args.words as usize * 4
}

/// Appends the `XArg` of this version, whose row of tags has this many words.
pub fn append_header(
    alloc: Global,
    out: &mut Row<u8>,
    words: u32,
    version: u32,
    args: &Args,
) -> Result<(), NoMemory>
    requires { length args.now.ram_name ≡ 4 }
    ensures { OnOk result (out.new ≡ out.old ++ header_row (with_size words version args.now)) }
{
    let contents = header_contents(alloc, words, version, args)?;
    append_tag(out, b"XArg", contents.as_slice())
}

fn append_slots(alloc: Global, out: &mut Row<u8>, slots: Option<u32>) -> Result<(), NoMemory>
    ensures { OnOk result (out.new ≡ out.old ++ slots_row slots) }
{
    if let Some(slots) = slots {
        let contents = slots_contents(alloc, slots)?;
        append_tag(out, b"SwpS", contents.as_slice())?;
    }
    Ok(())
}

/// Appends the `IniE` of the process with this load offset and check number.
pub fn append_process(
    alloc: Global,
    out: &mut Row<u8>,
    load: u32,
    check: Option<u16>,
    process: &ProcArgs,
) -> Result<(), NoMemory>
    requires { length process.now.sections ≤ 32 }
    ensures { OnOk result (out.new ≡ out.old ++ process_row (with_load load check process.now)) }
{
    let contents = process_contents(alloc, load, check, process)?;
    append_tag(out, b"IniE", contents.as_slice())
}

fn append_processes(
    alloc: Global,
    out: &mut Row<u8>,
    processes: &[ProcArgs],
) -> Result<(), NoMemory>
    requires { All (λ p. length p.sections ≤ 32) processes.now }
    ensures { OnOk result (out.new ≡ out.old ++ flat_map process_row processes.now) }
{
    for process in processes {
        append_process(alloc, out, process.load, process.check, process)?;
    }
    Ok(())
}

fn append_names(alloc: Global, out: &mut Row<u8>, names: &[ProcName]) -> Result<(), NoMemory>
    requires { length (names_contents_of names.now) < 4 * 65536 }
    ensures { OnOk result (out.new ≡ out.old ++ names_row names.now) }
{
    if names.is_empty() {
        return Ok(());
    }
    let contents = names_contents(alloc, names)?;
    append_tag(out, b"PNam", contents.as_slice())
}

/// The row of tags of arguments that can be written: the header, the slots where they are given, the processes in
/// order, then the names where there are any. With any bytes after it, it spells the arguments.
pub fn write_args(alloc: Global, args: &Args) -> Result<Row<u8>, NoMemory>
    requires { IsWritable args.now }
    ensures written { IfOk result (λ row. row ≡ written args.now) }
    ensures read_back { IfOk result (λ row. (more : List ℕ) → Spells (row ++ more) args.now) }
{
    let mut out = Row::new(alloc);
    append_header(alloc, &mut out, args.words, args.version, args)?;
    append_slots(alloc, &mut out, args.slots)?;
    append_processes(alloc, &mut out, args.procs.as_slice())?;
    append_names(alloc, &mut out, args.names.as_slice())?;
    Ok(out)
}
