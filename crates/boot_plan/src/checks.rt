//! The faults of a plan.

ghost use Rattle.std.specs.Prelude.{◌≡◌, ◌<◌, ◌≤◌, ◌+◌, ◌*◌, ◌&&◌, [], length, map, sum_by, All, Some, IfSome};
ghost use Rattle.std.specs.List.{list_any};
ghost use Rattle.kernel_args.specs.Faults.{first_fault};
ghost use Rattle.kernel_args.specs.Image.{IsSoundArgs};
ghost use Rattle.kernel_args.specs.Loads.{file_sizes, is_load_outside};
ghost use Rattle.boot_plan.specs.Sections.{shares_page, has_page, is_executable};
ghost use Rattle.boot_plan.specs.Faults.{IsFaultAt, section_faults, sections_faults, is_bad_load, is_entry_outside, process_faults};
ghost use Rattle.boot_plan.specs.Faults.{processes_faults, is_ram_too_small, plan_fault};
ghost use Rattle.boot_plan.specs.FirstPages.{process_pages, process_plan};
ghost use Rattle.xk_base.specs.declared.limits.TheConstants.{PROCESS_LIMIT, SLOT_LIMIT};

use crate::capacity::capacity_of;
use crate::faults::{
    BAD_LOAD, ENTRY_OUTSIDE, LOAD_OUTSIDE, RAM_TOO_SMALL, SECTION_MISALIGNED, SECTION_OUTSIDE,
    SECTIONS_OVERLAP,
};
use crate::pages::STACK_PAGES;
use crate::sections::{has_page, is_executable, leaves_window, page_count, shares_page};
use crate::slots::slots_used;
use kernel_args::{ArgFault, Args, ProcArgs, Section, crc_x25, file_sizes, loaded_bytes};
use xk_base::limits::{PAGE_SIZE, TABLE_FRAMES};

fn fault(what: u8, at: u32) -> Option<ArgFault>
    ensures { result ≡ Some (record { what = what; at = at }) }
{
    Some(ArgFault { what, at })
}

/// Whether the section shares a page with some of the others.
fn overlaps_any(section: &Section, others: &[Section]) -> bool
    ensures { result ≡ list_any (shares_page section.now) others.now }
{
    others.iter().any(|other| shares_page(section, other))
}

/// The first fault of a section behind these earlier ones of its process.
fn section_fault(pid: u32, earlier: &[Section], section: &Section) -> Option<ArgFault>
    ensures { result ≡ first_fault (section_faults pid earlier.now section.now) }
{
    if section.addr % PAGE_SIZE != 0 {
        return fault(SECTION_MISALIGNED, pid);
    }
    if leaves_window(section) {
        return fault(SECTION_OUTSIDE, pid);
    }
    if overlaps_any(section, earlier) {
        return fault(SECTIONS_OVERLAP, pid);
    }
    None
}

/// The first fault of the section at this place, behind those before it.
fn fault_at(pid: u32, sections: &[Section], i: usize) -> Option<ArgFault>
    requires { i < length sections.now }
    ensures { IsFaultAt pid [] sections.now i result }
{
    section_fault(pid, &sections[..i], &sections[i])
}

/// The first fault of the sections of a process.
fn sections_fault(pid: u32, sections: &[Section]) -> Option<ArgFault>
    ensures { result ≡ first_fault (sections_faults pid [] sections.now) }
{
    (0..sections.len()).find_map(|i| fault_at(pid, sections, i))
}

/// Whether the bytes of the sections begin in the row of tags, which has this many words, or pass
/// the end of the file.
fn loads_outside(words: u32, file_len: u32, process: &ProcArgs) -> bool
    requires { length process.now.sections ≤ 32 }
    ensures { result ≡ is_load_outside words file_len process.now }
{
    let load = process.load;
    (load as u64) < 4 * words as u64
        || load > file_len
        || file_sizes(process.sections.as_slice()) > (file_len - load) as u64
}

/// Whether the check word of the process isn't that of the bytes of its sections.
fn has_bad_load(file: &[u8], process: &ProcArgs) -> bool
    requires few { length process.now.sections ≤ 32 }
    requires within { process.now.load + file_sizes process.now.sections ≤ length file.now }
    ensures { result ≡ is_bad_load file.now process.now }
{
    match process.check {
        Some(check) => crc_x25(loaded_bytes(file, process)) != check,
        None => false,
    }
}

/// Whether the page is one of an executable section.
fn has_code(sections: &[Section], vpn: u32) -> bool
    ensures { result ≡ list_any (λ s. is_executable s && has_page vpn s) sections.now }
{
    sections
        .iter()
        .any(|s| is_executable(s) && has_page(s, vpn))
}

/// Whether the entry isn't that of an instruction in an executable section.
fn enters_outside(process: &ProcArgs) -> bool
    ensures { result ≡ is_entry_outside process.now }
{
    process.entry % 4 != 0 || !has_code(process.sections.as_slice(), process.entry / PAGE_SIZE)
}

/// The first fault of a process with this pid; `words` is the size of the row of tags.
#[tactic(auto, using(crate::proofs::FirstFaultLemmas::first_fault_append))]
fn process_fault(words: u32, file: &[u8], pid: u32, process: &ProcArgs) -> Option<ArgFault>
    requires few { length process.now.sections ≤ 32 }
    requires size { length file.now ≤ 67108864 }
    ensures { result ≡ first_fault (process_faults words file.now pid process.now) }
{
    let found = sections_fault(pid, process.sections.as_slice());
    if found.is_some() {
        return found;
    }
    if loads_outside(words, file.len() as u32, process) {
        return fault(LOAD_OUTSIDE, pid);
    }
    if has_bad_load(file, process) {
        return fault(BAD_LOAD, pid);
    }
    if enters_outside(process) {
        return fault(ENTRY_OUTSIDE, pid);
    }
    None
}

/// The first fault of the processes of an image.
fn processes_fault(words: u32, file: &[u8], processes: &[ProcArgs]) -> Option<ArgFault>
    requires few { length processes.now ≤ PROCESS_LIMIT }
    requires sections { All (λ p. length p.sections ≤ 32) processes.now }
    requires size { length file.now ≤ 67108864 }
    ensures { result ≡ first_fault (processes_faults words file.now 2 processes.now) }
{
    let mut pid = 2;
    for process in processes {
        let found = process_fault(words, file, pid, process);
        if found.is_some() {
            return found;
        }
        pid += 1;
    }
    None
}

/// How many pages a process starts with.
fn first_pages(process: &ProcArgs) -> u32
    requires { length process.now.sections ≤ 32 }
    ensures count { result ≡ length (process_pages process.now) }
    ensures few { result ≤ 33554441 }
{
    let mut count = STACK_PAGES + 1;
    for section in process.sections.as_slice() {
        count += page_count(section);
    }
    count
}

/// How many pages processes start with.
fn all_first_pages(processes: &[ProcArgs]) -> u32
    requires few { length processes.now ≤ PROCESS_LIMIT }
    requires sections { All (λ p. length p.sections ≤ 32) processes.now }
    ensures { result ≡ sum_by (λ p. length p.pages) (map process_plan processes.now) }
{
    let mut count = 0;
    for process in processes {
        count += first_pages(process);
    }
    count
}

/// Whether RAM hasn't room for the tables, a page and the free frame, or RAM and slots haven't
/// room for the first pages.
fn has_small_ram(args: &Args, asked: Option<u32>) -> bool
    requires sound { IsSoundArgs args.now }
    requires few_slots { IfSome asked (λ n. n ≤ SLOT_LIMIT) }
    ensures { result ≡ is_ram_too_small args.now asked }
{
    let frames = args.ram_size / PAGE_SIZE;
    let processes = args.procs.as_slice().len() as u32;
    let slots = slots_used(args, asked);
    frames < TABLE_FRAMES * processes + 2
        || capacity_of(frames, processes, slots) < all_first_pages(args.procs.as_slice())
}

/// The first fault of the plan of an image of this file, for a run that asks for these slots.
#[tactic(auto, using(crate::proofs::FirstFaultLemmas::first_fault_append))]
pub(crate) fn find_fault(args: &Args, file: &[u8], asked: Option<u32>) -> Option<ArgFault>
    requires sound { IsSoundArgs args.now }
    requires size { length file.now ≤ 67108864 }
    requires few_slots { IfSome asked (λ n. n ≤ SLOT_LIMIT) }
    ensures { result ≡ plan_fault args.now file.now asked }
{
    let found = processes_fault(args.words, file, args.procs.as_slice());
    if found.is_some() {
        return found;
    }
    if has_small_ram(args, asked) {
        return fault(RAM_TOO_SMALL, 0);
    }
    None
}
