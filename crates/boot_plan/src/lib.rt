//! The plan of a kernel image: which pages its processes start with, or the first fault of the
//! plan.
#![tactic(auto)]

mod capacity;
mod checks;
mod faults;
mod laws;
mod pages;
mod planning;
mod plans;
mod sections;
mod slots;

pub use capacity::cap;
pub use faults::{
    BAD_LOAD, ENTRY_OUTSIDE, LOAD_OUTSIDE, PlanError, RAM_TOO_SMALL, SECTION_MISALIGNED,
    SECTION_OUTSIDE, SECTIONS_OVERLAP, TOO_LONG,
};
pub use laws::{fault_numbers_are_pinned, image_has_one_first_fault, sections_stand_in_pages};
pub use planning::plan;
pub use plans::{BootPlan, PagePlan, ProcPlan};
