//! Where the pages come from that differ between two runs.

ghost use Rattle.confidentiality_laws.specs.Differences.{CausesMakeNoDifference};

/// A step, an event and the end of a turn make no difference in the bytes of pages: each page is
/// afterwards the same in both, or holds in both what one and the same page held before.
pub fn causes_make_no_difference()
    ensures { CausesMakeNoDifference }
{}
