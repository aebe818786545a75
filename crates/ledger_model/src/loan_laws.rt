//! The life of a loan.

ghost use Rattle.ledger_model.specs.Conditions.{CanGive, CanLend, CanPass, may_lend, may_move};
ghost use Rattle.ledger_model.specs.Lawful.{IsLawful};
ghost use Rattle.ledger_model.specs.Ledger.{Ledger, Orphan, Orphaned, Page, PageLoan, loan_at, pages};
ghost use Rattle.ledger_model.specs.Life.{IsBack, IsStillLent, LedgerStep, May, MayAll, NoneEnds, after, after_all, ends, lends, passes};
ghost use Rattle.ledger_model.specs.Loans.{IsFresh, LoanRun, Stands, bare, loans, with_holder, without_lender};
ghost use Rattle.ledger_model.specs.Places.{in_run, place_after};
ghost use Rattle.ledger_model.specs.Reach.{holder_may, is_free, reach};
ghost use Rattle.ledger_model.specs.RunTests.{any_free, any_not_sent, is_exclusive};
ghost use Rattle.ledger_model.specs.Steps.{end_loan, lend, orphan_loan, pass};
ghost use Rattle.std.specs.Prelude.{Bool, IsFalse, IsTrue, List, None, Some, if◌then◌else◌, ℕ, ◌<◌, ◌≡◌, ◌≢◌};
ghost use Rattle.xk_base.specs.declared.ids.Number.{Number};
ghost use Rattle.xk_base.specs.declared.ids.Place.{Place};
ghost use Rattle.xk_base.specs.declared.pages.Access.{Access};
ghost use Rattle.xk_base.specs.declared.pages.LoanKind.{LoanKind};

/// Ledgers that are equal but for their bytes have the same loans and as many pages, give the same
/// accesses to the same pages, and are lawful alike.
pub fn equal_without_bytes()
    ensures loans { (a b : Ledger) → bare b ≡ bare a → loans b ≡ loans a }
    ensures pages { (procs : ℕ) (a b : Ledger) → bare b ≡ bare a → pages procs b ≡ pages procs a }
    ensures reach { (procs : ℕ) (a b : Ledger) (p : Place) (access : Access) → bare b ≡ bare a
        → reach procs b p access ≡ reach procs a p access }
    ensures lawful { (procs capacity : ℕ) (a b : Ledger) → bare b ≡ bare a → IsLawful procs capacity a
        → IsLawful procs capacity b }
{}

/// The conditions of the steps of loans say nothing of bytes.
pub fn conditions_without_bytes()
    ensures lend { (procs : ℕ) (a b : Ledger) → bare b ≡ bare a
        → (from : Place) (n : ℕ) (to : Place) (kind : LoanKind) (number : Number)
        → CanLend procs a from n to kind number → CanLend procs b from n to kind number }
    ensures give { (procs : ℕ) (a b : Ledger) → bare b ≡ bare a → (from : Place) (n : ℕ) (to : Place)
        → CanGive procs a from n to → CanGive procs b from n to }
    ensures pass { (procs : ℕ) (a b : Ledger) → bare b ≡ bare a → (loan : LoanRun) (to : Place)
        → CanPass procs a loan to → CanPass procs b loan to }
{}

/// Pages that a process may send may be lent and moved: all are there, and none is on loan, is the
/// console, or is to be lent mutably and has no w.
pub fn sendable_pages_may_be_lent()
    ensures lend { (procs : ℕ) (ledger : Ledger) (from : Place) (n : ℕ) (kind : LoanKind)
        → IsFalse (any_free procs ledger from n) → IsFalse (any_not_sent procs ledger from n (is_exclusive kind))
        → (p : Place) → IsTrue (in_run from n p) → IsTrue (may_lend kind (ledger.home p)) }
    ensures give { (procs : ℕ) (ledger : Ledger) (from : Place) (n : ℕ) (mutably : Bool)
        → IsFalse (any_free procs ledger from n) → IsFalse (any_not_sent procs ledger from n mutably)
        → (p : Place) → IsTrue (in_run from n p) → IsTrue (may_move (ledger.home p)) }
{}

/// A loan stands after its lend.
pub fn loan_stands_once_lent()
    ensures { (procs : ℕ) (from : Place) (n : ℕ) (to : Place) (kind : LoanKind) (number : Number) (ledger : Ledger)
        → CanLend procs ledger from n to kind number
        → Stands (loans (lend from n to kind number ledger))
        (record { lender = Some from; holder = to; count = n; kind = kind; number = number }) }
{}

/// A loan that is passed on stands at its new holder's places.
pub fn passed_loan_stands()
    ensures { (procs : ℕ) (ledger : Ledger) (loan : LoanRun) (to : Place) → CanPass procs ledger loan to
        → Stands (loans (pass loan.number loan.holder to ledger)) (with_holder to loan) }
{}

/// A standing loan still stands after each step of another number.
pub fn standing_loan_stands()
    ensures { (procs capacity : ℕ) (step : LedgerStep) (ledger : Ledger) (loan : LoanRun)
        → IsLawful procs capacity ledger → May procs capacity step ledger
        → IsFalse (ends loan.number step) → IsFalse (lends loan.number step) → IsFalse (passes loan.number step)
        → Stands (loans ledger) loan → Stands (loans (after procs step ledger)) loan }
{}

/// A fresh number stays fresh until it is lent, and a number is fresh again after its end.
pub fn fresh_number_stays_fresh()
    ensures stays { (procs capacity : ℕ) (step : LedgerStep) (ledger : Ledger) (number : Number)
        → IsLawful procs capacity ledger → May procs capacity step ledger
        → IsFalse (lends number step) → IsFresh (loans ledger) number
        → IsFresh (loans (after procs step ledger)) number }
    ensures ended { (number : Number) (ledger : Ledger) → IsFresh (loans (end_loan number ledger)) number }
{}

/// The places of a standing loan are a run on both sides, in the same order: its i-th page is on
/// loan to the i-th place of its holder, or is the orphan there.
pub fn places_of_a_number_are_runs()
    ensures lent { (ledger : Ledger) (loan : LoanRun) (from : Place) (i : ℕ) → Stands (loans ledger) loan
        → loan.lender ≡ Some from → i < loan.count
        → loan_at ledger (place_after from i)
        ≡ Some (record { holder = place_after loan.holder i; kind = loan.kind; number = loan.number }) }
    ensures orphans { (ledger : Ledger) (loan : LoanRun) (i : ℕ) → Stands (loans ledger) loan
        → loan.lender ≡ None → i < loan.count
        → (orphan : Orphan) × (ledger.orphan (place_after loan.holder i) ≡ Some orphan)
        × (orphan.kind ≡ loan.kind) × (orphan.number ≡ loan.number) }
{}

/// Two standing loans of different numbers share no place, neither of their holders nor of their
/// lenders.
pub fn numbers_share_no_place()
    ensures holders { (procs capacity : ℕ) (ledger : Ledger) (a b : LoanRun) (i j : ℕ)
        → IsLawful procs capacity ledger → Stands (loans ledger) a → Stands (loans ledger) b
        → a.number ≢ b.number → i < a.count → j < b.count
        → place_after a.holder i ≢ place_after b.holder j }
    ensures lenders { (ledger : Ledger) (a b : LoanRun) (from other : Place) (i j : ℕ) → Stands (loans ledger) a
        → Stands (loans ledger) b → a.lender ≡ Some from → b.lender ≡ Some other
        → a.number ≢ b.number → i < a.count → j < b.count
        → place_after from i ≢ place_after other j }
{}

/// No two pages are on loan to one place, and no place is two of home, holder place and orphan's
/// place. So a page has one owner, the process of its home, and at most one loan.
pub fn page_has_one_owner_and_one_loan()
    ensures one_page { (procs capacity : ℕ) (ledger : Ledger) → IsLawful procs capacity ledger
        → (p q : Place) (a b : PageLoan) → loan_at ledger p ≡ Some a → loan_at ledger q ≡ Some b
        → a.holder ≡ b.holder → p ≡ q }
    ensures no_home { (procs capacity : ℕ) (ledger : Ledger) → IsLawful procs capacity ledger
        → (p : Place) (loan : PageLoan) → loan_at ledger p ≡ Some loan
        → ledger.home loan.holder ≡ None }
    ensures no_orphan { (procs capacity : ℕ) (ledger : Ledger) → IsLawful procs capacity ledger
        → (p : Place) (loan : PageLoan) → loan_at ledger p ≡ Some loan
        → ledger.orphan loan.holder ≡ None }
    ensures kernel { (procs capacity : ℕ) (ledger : Ledger) → IsLawful procs capacity ledger
        → (p : Place) (orphan : Orphan) → ledger.orphan p ≡ Some orphan → ledger.home p ≡ None }
{}

/// While its loan lasts a page keeps its home, its right and its loan over every step, and under a
/// Shared loan its bytes. The holder's place changes only where the step passes that loan on.
pub fn page_on_loan_keeps_its_right()
    ensures page { (procs capacity : ℕ) (step : LedgerStep) (ledger : Ledger) (p : Place) (page : Page) (loan : PageLoan)
        → IsLawful procs capacity ledger → May procs capacity step ledger
        → IsFalse (ends loan.number step) → ledger.home p ≡ Some page → page.loan ≡ Some loan
        → (now : Page) × ((after procs step ledger).home p ≡ Some now) × IsStillLent loan page now }
    ensures holder { (procs capacity : ℕ) (step : LedgerStep) (ledger : Ledger) (p : Place) (loan : PageLoan)
        → IsLawful procs capacity ledger → May procs capacity step ledger
        → IsFalse (ends loan.number step) → IsFalse (passes loan.number step)
        → loan_at ledger p ≡ Some loan → loan_at (after procs step ledger) p ≡ Some loan }
{}

/// A loan gives back what it took. After a lend, any list of steps, each under its condition and
/// none of them ending that number, and the end of the number, each page of the loan is at its
/// home, without a loan, with the right from just before the lend, and under a Shared loan with the
/// bytes from then.
pub fn loan_gives_back()
    ensures { (procs capacity : ℕ) (from : Place) (n : ℕ) (to : Place) (kind : LoanKind) (number : Number) (ledger : Ledger)
        (steps : List LedgerStep)
        → IsLawful procs capacity ledger → CanLend procs ledger from n to kind number
        → MayAll procs capacity steps (lend from n to kind number ledger) → NoneEnds number steps
        → (i : ℕ) (page : Page) → i < n → ledger.home (place_after from i) ≡ Some page
        → (back : Page)
        × ((end_loan number (after_all procs steps (lend from n to kind number ledger))).home (place_after from i) ≡ Some back)
        × IsBack kind page back }
{}

/// When a lender dies its loan stands as orphans: they are reached by the holder alone, and no page
/// of the loan is left at its home.
pub fn orphans_are_their_holders()
    ensures stands { (procs capacity : ℕ) (ledger : Ledger) (loan : LoanRun) (from : Place)
        → IsLawful procs capacity ledger → Stands (loans ledger) loan → loan.lender ≡ Some from
        → Stands (loans (orphan_loan procs loan.number ledger)) (without_lender loan) }
    ensures holder { (procs capacity : ℕ) (ledger : Ledger) (loan : LoanRun) (from : Place) (i : ℕ) (access : Access)
        → IsLawful procs capacity ledger → Stands (loans ledger) loan → loan.lender ≡ Some from
        → i < loan.count
        → reach procs (orphan_loan procs loan.number ledger) (place_after loan.holder i) access
        ≡ (if holder_may loan.kind access then Some (Orphaned (place_after loan.holder i)) else None) }
    ensures lender { (procs : ℕ) (ledger : Ledger) (loan : LoanRun) (from : Place) (i : ℕ)
        → Stands (loans ledger) loan → loan.lender ≡ Some from → i < loan.count
        → (orphan_loan procs loan.number ledger).home (place_after from i) ≡ None }
{}

/// The end of a loan, with a lender or of orphans, frees its holder's places: nobody reaches a page
/// there.
pub fn end_frees_the_holder()
    ensures free { (procs capacity : ℕ) (ledger : Ledger) (loan : LoanRun) (i : ℕ)
        → IsLawful procs capacity ledger → Stands (loans ledger) loan → i < loan.count
        → IsTrue (is_free procs (end_loan loan.number ledger) (place_after loan.holder i)) }
    ensures nobody { (procs capacity : ℕ) (ledger : Ledger) (loan : LoanRun) (i : ℕ) (access : Access)
        → IsLawful procs capacity ledger → Stands (loans ledger) loan → i < loan.count
        → reach procs (end_loan loan.number ledger) (place_after loan.holder i) access ≡ None }
{}
