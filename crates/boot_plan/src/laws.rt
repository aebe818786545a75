//! What holds of the plan of any arguments.

ghost use Rattle.std.specs.Prelude.{◌≡◌, ◌<◌, ℕ, ◌+◌, ◌*◌, ◌%◌, List, [], ◌∷◌, ◌++◌, length, map, take, slice_index, slice_index_or, Any};
ghost use Rattle.std.specs.Prelude.{Option};
ghost use Rattle.std.specs.List.{flat_map};
ghost use Rattle.kernel_args.specs.declared.args.ProcArgs.{ProcArgs};
ghost use Rattle.kernel_args.specs.declared.args.Section.{Section};
ghost use Rattle.kernel_args.specs.declared.faults.ArgFault.{ArgFault};
ghost use Rattle.kernel_args.specs.Loads.{file_sizes};
ghost use Rattle.boot_plan.specs.Sections.{page_count, section_pages};
ghost use Rattle.boot_plan.specs.FirstPages.{process_pages, stack_pages, interrupt_page};
ghost use Rattle.boot_plan.specs.Content.{HoldsByte};
ghost use Rattle.boot_plan.specs.FaultNumbers.{section_outside, section_misaligned, sections_overlap, load_outside, entry_outside};
ghost use Rattle.boot_plan.specs.FaultNumbers.{ram_too_small, too_long, bad_load};
ghost use Rattle.boot_plan.specs.ImageFault.{IsImageFault};
ghost use Rattle.boot_plan.specs.declared.faults.TheConstants.{SECTION_OUTSIDE, SECTION_MISALIGNED, SECTIONS_OVERLAP, LOAD_OUTSIDE};
ghost use Rattle.boot_plan.specs.declared.faults.TheConstants.{ENTRY_OUTSIDE, RAM_TOO_SMALL, TOO_LONG, BAD_LOAD};

/// A process starts with the pages of its sections, its stack and its interrupt page, and its
/// sections stand there with their bytes, each from its address on, and zeros up to the end of
/// its last page. The function does nothing; its contract is the law.
pub fn sections_stand_in_pages()
    ensures pages { (p : ProcArgs) → map (λ page. page.vpn.0) (process_pages p)
        ≡ flat_map section_pages p.sections ++ (stack_pages ++ interrupt_page ∷ []) }
    ensures bytes { (file : List ℕ) (p : ProcArgs) (i k : ℕ) (d : Section) → i < length p.sections
        → (slice_index_or p.sections i d).addr % 4096 ≡ 0
        → k < 4096 * page_count (slice_index_or p.sections i d).size
        → Any (HoldsByte file (p.load + file_sizes (take i p.sections)) (slice_index_or p.sections i d) k) (process_pages p) }
{}

/// Law: the faults of a plan, and a file that is too long, have these numbers.
pub fn fault_numbers_are_pinned()
    ensures section_outside { SECTION_OUTSIDE ≡ section_outside }
    ensures section_misaligned { SECTION_MISALIGNED ≡ section_misaligned }
    ensures sections_overlap { SECTIONS_OVERLAP ≡ sections_overlap }
    ensures load_outside { LOAD_OUTSIDE ≡ load_outside }
    ensures entry_outside { ENTRY_OUTSIDE ≡ entry_outside }
    ensures ram_too_small { RAM_TOO_SMALL ≡ ram_too_small }
    ensures too_long { TOO_LONG ≡ too_long }
    ensures bad_load { BAD_LOAD ≡ bad_load }
{}

/// An image has exactly one answer for the slots that are asked for: its first fault, or that it has
/// none. The function does nothing; its contract is the law.
pub fn image_has_one_first_fault()
    ensures some { (bytes : List ℕ) (asked : Option ℕ) → ((i : ℕ) → slice_index bytes i < 256)
        → (fault : Option ArgFault) × IsImageFault bytes asked fault }
    ensures once { (bytes : List ℕ) (asked : Option ℕ) (one other : Option ArgFault)
        → IsImageFault bytes asked one → IsImageFault bytes asked other → one ≡ other }
{
    kernel_args::spelled_once_or_faulty();
}
