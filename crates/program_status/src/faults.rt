//! The names of faults.

ghost use Rattle.std.specs.Prelude.{◌≡◌, ◌≤◌, length};
ghost use Rattle.program_status.specs.FaultNames.{name_of};

/// The fault of a state whose pages can't be split into frames and the slots that are asked for.
pub const BAD_SPLIT: u8 = 25;

/// The name of the fault of an image or of a state file, by its number.
pub fn fault_name(what: u8) -> &'static [u8]
    ensures name { result.now ≡ name_of what }
    ensures short { length result.now ≤ 17 }
{
    match what {
        kernel_args::TOO_SHORT => b"TooShort",
        kernel_args::NOT_XARG => b"NotXArg",
        kernel_args::BAD_VERSION => b"BadVersion",
        kernel_args::BAD_TOTAL => b"BadTotal",
        kernel_args::BAD_CHECK => b"BadCheck",
        kernel_args::BAD_RAM => b"BadRam",
        kernel_args::NO_PROCESS => b"NoProcess",
        kernel_args::TOO_MANY_PROCESSES => b"TooManyProcesses",
        kernel_args::BAD_INI => b"BadIni",
        kernel_args::BAD_NAMES => b"BadNames",
        kernel_args::BAD_SLOTS => b"BadSlots",
        boot_plan::SECTION_OUTSIDE => b"SectionOutside",
        boot_plan::SECTION_MISALIGNED => b"SectionMisaligned",
        boot_plan::SECTIONS_OVERLAP => b"SectionsOverlap",
        boot_plan::LOAD_OUTSIDE => b"LoadOutside",
        boot_plan::BAD_LOAD => b"BadLoad",
        boot_plan::ENTRY_OUTSIDE => b"EntryOutside",
        boot_plan::RAM_TOO_SMALL => b"RamTooSmall",
        boot_plan::TOO_LONG => b"TooLong",
        suspend_image::NOT_STATE => b"NotState",
        suspend_image::STATE_LENGTH => b"StateLength",
        suspend_image::STATE_CHECK => b"StateCheck",
        suspend_image::STATE_FORM => b"StateForm",
        suspend_image::STATE_UNMATCHED => b"StateUnmatched",
        BAD_SPLIT => b"BadSplit",
        _ => b"Unnamed",
    }
}
