//! The pages with which a process starts.

ghost use Rattle.std.specs.Prelude.{◌≡◌, ◌≤◌, ◌<◌, ◌+◌, ◌^◌, [], ◌∷◌, ◌++◌, length, map, IfOk, OnOk};
ghost use Rattle.std.specs.List.{range_with_len};
ghost use Rattle.kernel_args.specs.Loads.{file_size, file_sizes};
ghost use Rattle.boot_plan.specs.Sections.{page_count};
ghost use Rattle.boot_plan.specs.FirstPages.{section_page, section_run, sections_pages, zero_page, stack_pages, interrupt_page};
ghost use Rattle.boot_plan.specs.FirstPages.{process_pages};

use crate::plans::PagePlan;
use crate::sections::{first_page, is_executable, is_writable, page_count};
use kernel_args::{ProcArgs, Section, file_size, is_zero_filled};
use std::alloc::Global;
use xk_base::limits::PAGE_SIZE;
use xk_base::{NoMemory, Right, Row, Vpn};

/// The first page of the stack of the first thread.
const STACK_FIRST: u32 = 0x7_FFF8;
/// How many pages that stack has.
pub(crate) const STACK_PAGES: u32 = 8;
/// The page that is the stack of the interrupt thread.
const INTERRUPT_PAGE: u32 = 0x7_F000;

/// Page `i` of a section whose bytes stand in the file from `offset` on.
fn section_page(offset: u32, section: &Section, i: u32) -> PagePlan
    requires fits { offset + file_size section.now < 2 ^ 32 }
    requires within { i < page_count section.now.size }
    requires few { i < 1048576 }
    ensures { result ≡ section_page offset section.now i }
{
    let start = i * PAGE_SIZE;
    PagePlan {
        vpn: Vpn(first_page(section) + i),
        right: Right {
            w: is_writable(section),
            x: is_executable(section),
        },
        from: if is_zero_filled(section) {
            0
        } else {
            offset + start
        },
        len: file_size(section).saturating_sub(start).min(PAGE_SIZE),
    }
}

/// Appends the pages of a section whose bytes stand in the file from `offset` on.
fn push_section(rows: &mut Row<PagePlan>, offset: u32, section: &Section) -> Result<(), NoMemory>
    requires { offset + file_size section.now < 2 ^ 32 }
    ensures { OnOk result (rows.new ≡ rows.old ++ section_run offset section.now) }
{
    for i in 0..page_count(section) {
        rows.push(section_page(offset, section, i))?;
    }
    Ok(())
}

/// Appends the pages of the sections of a process.
fn push_sections(rows: &mut Row<PagePlan>, process: &ProcArgs) -> Result<(), NoMemory>
    requires { process.now.load + file_sizes process.now.sections < 2 ^ 32 }
    ensures { OnOk result (rows.new ≡ rows.old ++ sections_pages process.now.load process.now.sections) }
{
    let mut offset = process.load;
    for section in process.sections.as_slice() {
        push_section(rows, offset, section)?;
        offset += file_size(section);
    }
    Ok(())
}

/// A page of zeros that may be written and not executed.
fn zero_page(vpn: u32) -> PagePlan
    ensures { result ≡ zero_page vpn }
{
    PagePlan {
        vpn: Vpn(vpn),
        right: Right { w: true, x: false },
        from: 0,
        len: 0,
    }
}

/// The pages with which a process starts.
pub(crate) fn process_pages(alloc: Global, process: &ProcArgs) -> Result<Row<PagePlan>, NoMemory>
    requires { process.now.load + file_sizes process.now.sections < 2 ^ 32 }
    ensures { IfOk result (λ rows. rows ≡ process_pages process.now) }
{
    let mut rows = Row::new(alloc);
    push_sections(&mut rows, process)?;
    for i in 0..STACK_PAGES {
        rows.push(zero_page(STACK_FIRST + i))?;
    }
    rows.push(zero_page(INTERRUPT_PAGE))?;
    Ok(rows)
}
