//! The listings of a ledger.

ghost use Rattle.ledger_model.specs.Lawful.{IsLawful};
ghost use Rattle.ledger_model.specs.Ledger.{Ledger};
ghost use Rattle.ledger_model.specs.Listings.{home_places, orphan_places};
ghost use Rattle.ledger_model.specs.Places.{is_before};
ghost use Rattle.std.specs.List.{AllPairs, Contains};
ghost use Rattle.std.specs.Prelude.{IsTrue, is_some, ℕ, ◌↔◌, ◌≢◌};
ghost use Rattle.xk_base.specs.declared.ids.Place.{Place};

/// The first listing has each home once, in the order of places.
pub fn homes_are_listed()
    ensures members { (procs capacity : ℕ) (ledger : Ledger) (p : Place) → IsLawful procs capacity ledger
        → Contains (home_places procs ledger) p ↔ IsTrue (is_some (ledger.home p)) }
    ensures ascends { (procs : ℕ) (ledger : Ledger)
        → AllPairs (λ p q. IsTrue (is_before p q)) (home_places procs ledger) }
    ensures once { (procs : ℕ) (ledger : Ledger) → AllPairs (λ p q. p ≢ q) (home_places procs ledger) }
{}

/// The second listing has each place of an orphan once, in the order of places.
pub fn orphans_are_listed()
    ensures members { (procs capacity : ℕ) (ledger : Ledger) (p : Place) → IsLawful procs capacity ledger
        → Contains (orphan_places procs ledger) p ↔ IsTrue (is_some (ledger.orphan p)) }
    ensures ascends { (procs : ℕ) (ledger : Ledger)
        → AllPairs (λ p q. IsTrue (is_before p q)) (orphan_places procs ledger) }
    ensures once { (procs : ℕ) (ledger : Ledger) → AllPairs (λ p q. p ≢ q) (orphan_places procs ledger) }
{}
