//! The sections of a process.

ghost use Rattle.std.specs.Prelude.{◌≡◌, ◌≤◌, ◌<◌, ◌/◌, not};
ghost use Rattle.std.specs.List.{list_any};
ghost use Rattle.xk_base.specs.Numbers.Windows.{in_window};
ghost use Rattle.xk_base.specs.declared.windows.Window.TheVariants.{Image};
ghost use Rattle.boot_plan.specs.Sections.{page_count, section_pages, has_page, shares_page, is_writable, is_executable};

use kernel_args::Section;
use xk_base::Window;
use xk_base::limits::PAGE_SIZE;

/// The bits of a section's flags.
const WRITABLE: u8 = 1;

const EXECUTABLE: u8 = 4;

/// Whether the section's pages may be written.
pub(crate) fn is_writable(section: &Section) -> bool
    ensures { result ≡ is_writable section.now }
{
    section.flags & WRITABLE != 0
}

/// Whether the section's pages may be executed.
#[tactic(auto, using(crate::proofs::FlagLemmas::mask_four))]
pub(crate) fn is_executable(section: &Section) -> bool
    ensures { result ≡ is_executable section.now }
{
    section.flags & EXECUTABLE != 0
}

/// The page number of the section's address.
pub(crate) fn first_page(section: &Section) -> u32
    ensures first { result ≡ section.now.addr / 4096 }
    ensures few { result < 1048576 }
{
    section.addr / PAGE_SIZE
}

/// How many pages the section has.
pub(crate) fn page_count(section: &Section) -> u32
    ensures count { result ≡ page_count section.now.size }
    ensures few { result ≤ 1048576 }
{
    section.size.div_ceil(PAGE_SIZE)
}

/// Whether the page is one of the section's.
#[tactic(auto, using(crate::proofs::RangeLemmas::in_run_is))]
pub(crate) fn has_page(section: &Section, vpn: u32) -> bool
    ensures { result ≡ has_page vpn section.now }
{
    let first = first_page(section);
    (first..first + page_count(section)).contains(&vpn)
}

/// Whether some page is one of both sections.
pub(crate) fn shares_page(a: &Section, b: &Section) -> bool
    ensures { result ≡ shares_page a.now b.now }
{
    let first = first_page(a);
    let second = first_page(b);
    first.max(second) < (first + page_count(a)).min(second + page_count(b))
}

/// Whether the section has a page outside the Image window.
pub(crate) fn leaves_window(section: &Section) -> bool
    ensures { result ≡ list_any (λ vpn. not (in_window Image vpn)) (section_pages section.now) }
{
    let first = first_page(section);
    let count = page_count(section);
    count > 0 && (first < Window::Image.first().0 || first + count - 1 > Window::Image.last().0)
}
