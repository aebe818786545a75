//! Places, runs of places, and their numbering.

ghost use Rattle.ledger_model.specs.Ledger.{Ledger};
ghost use Rattle.ledger_model.specs.Places.{count_places, in_run, is_before, is_user_place, place_after, place_at, places_of_process, run};
ghost use Rattle.std.specs.Prelude.{Bool, IsFalse, IsTrue, length, slice_index_or, ℕ, ◌*◌, ◌+◌, ◌<◌, ◌↔◌, ◌≡◌};
ghost use Rattle.xk_base.specs.declared.ids.Place.{Place};

/// The user places of the processes are numbered from 0, in their order, and each has its number.
pub fn places_are_numbered()
    ensures ascends { (j k : ℕ) → j < k → IsTrue (is_before (place_at j) (place_at k)) }
    ensures lies { (procs k : ℕ) → k < places_of_process * procs → IsTrue (is_user_place procs (place_at k)) }
    ensures reached { (procs : ℕ) (p : Place) → IsTrue (is_user_place procs p)
        → (k : ℕ) × (k < places_of_process * procs) × (place_at k ≡ p) }
{}

/// A run of n places is the list of the n places from its first upwards, and the test for it holds
/// of these alone.
pub fn run_is_its_places()
    ensures length { (first : Place) (n : ℕ) → length (run first n) ≡ n }
    ensures places { (first : Place) (n i : ℕ) (other : Place) → i < n
        → slice_index_or (run first n) i other ≡ place_after first i }
    ensures members { (first : Place) (n : ℕ) (p : Place)
        → IsTrue (in_run first n p) ↔ ((i : ℕ) × (i < n) × (p ≡ place_after first i)) }
{}

/// Where one test holds and another fails on a run of n user places, and they agree elsewhere, the
/// first counts n more.
pub fn run_counts()
    ensures { (procs : ℕ) (first : Place) (n : ℕ) (f g : Place → Bool)
        → ((i : ℕ) → i < n → IsTrue (is_user_place procs (place_after first i)))
        → ((p : Place) → IsTrue (in_run first n p) → IsTrue (f p) × IsFalse (g p))
        → ((p : Place) → IsFalse (in_run first n p) → f p ≡ g p)
        → count_places procs f ≡ count_places procs g + n }
{}

/// Two ledgers that agree at every place are equal.
pub fn equal_places_equal_ledgers()
    ensures { (a b : Ledger) → ((p : Place) → a.home p ≡ b.home p)
        → ((p : Place) → a.orphan p ≡ b.orphan p) → a ≡ b }
{}
