//! What one step, event or end of a turn may do to the loan of a number.

ghost use Rattle.loan_laws.specs.Fates.{AllHaveFates};

/// From each matched state every cause opens the loan of a number, keeps it, or closes it, and it opens, is kept and closes as is
/// said of each.
pub fn every_number_has_its_fate()
    ensures { AllHaveFates }
{}
