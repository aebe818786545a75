//! Two histories of one list of events, from states that differ only in bytes of pages.

ghost use Rattle.std.specs.Prelude.{ℕ, List};
ghost use Rattle.xk_base.specs.declared.events.Event.{Event};
ghost use Rattle.confidentiality_laws.specs.TwoHistories.{StartSideBySide};
ghost use Rattle.confidentiality_laws.specs.TwoRuns.{IsSideBySide};
ghost use Rattle.machine_model.specs.State.Machine.{Machine};
ghost use Rattle.machine_laws.specs.HistoryMoments.{moments_of};

/// Their moments are then two runs side by side, so that whatever is said of such runs holds of them.
pub fn histories_are_side_by_side()
    ensures { (events : List Event) (limit : ℕ) (m n : Machine) → StartSideBySide events limit m n
        → IsSideBySide m n (moments_of events limit m) (moments_of events limit n) }
{}
