//! What a process reaches.

ghost use Rattle.ledger_model.specs.Conditions.{CanLend};
ghost use Rattle.ledger_model.specs.Lawful.{IsLawful};
ghost use Rattle.ledger_model.specs.Ledger.{Bytes, Console, Contents, Homed, Ledger, Orphan, Orphaned, Page, PageLoan, PageName};
ghost use Rattle.ledger_model.specs.Ledger.{contents_of, loan_at};
ghost use Rattle.ledger_model.specs.Loans.{bare};
ghost use Rattle.ledger_model.specs.Places.{place_after};
ghost use Rattle.ledger_model.specs.Reach.{holder_may, home_may, is_free, lender_may, reach};
ghost use Rattle.ledger_model.specs.Steps.{lend, write, written};
ghost use Rattle.std.specs.Prelude.{IsTrue, List, None, Some, if◌then◌else◌, ℕ, ◌<◌, ◌≡◌, ◌≢◌, ◌⊎◌};
ghost use Rattle.xk_base.specs.declared.ids.Number.{Number};
ghost use Rattle.xk_base.specs.declared.ids.Place.{Place};
ghost use Rattle.xk_base.specs.declared.pages.Access.{Access};
ghost use Rattle.xk_base.specs.declared.pages.Access.TheVariants.{Fetch, Load, Store};
ghost use Rattle.xk_base.specs.declared.pages.LoanKind.{LoanKind};

/// At each kind of place the process reaches what the table says: its own page, the page on loan to
/// it, the orphan there, or nothing.
pub fn reach_is_the_table()
    ensures home { (procs : ℕ) (ledger : Ledger) (p : Place) (page : Page) (access : Access)
        → ledger.home p ≡ Some page
        → reach procs ledger p access
        ≡ (if home_may page.right page.loan access then Some (Homed p) else None) }
    ensures holder { (procs capacity : ℕ) (ledger : Ledger) (p : Place) (loan : PageLoan) (access : Access)
        → IsLawful procs capacity ledger → loan_at ledger p ≡ Some loan
        → reach procs ledger loan.holder access
        ≡ (if holder_may loan.kind access then Some (Homed p) else None) }
    ensures orphan { (procs capacity : ℕ) (ledger : Ledger) (p : Place) (orphan : Orphan) (access : Access)
        → IsLawful procs capacity ledger → ledger.orphan p ≡ Some orphan
        → reach procs ledger p access
        ≡ (if holder_may orphan.kind access then Some (Orphaned p) else None) }
    ensures free { (procs : ℕ) (ledger : Ledger) (p : Place) (access : Access)
        → IsTrue (is_free procs ledger p) → reach procs ledger p access ≡ None }
{}

/// A place is free exactly where it is no home, no orphan's place and no holder place.
pub fn free_place_is_unused()
    ensures unused { (procs capacity : ℕ) (ledger : Ledger) (p : Place) → IsLawful procs capacity ledger
        → IsTrue (is_free procs ledger p)
        → (ledger.home p ≡ None) × (ledger.orphan p ≡ None)
        × ((q : Place) (loan : PageLoan) → loan_at ledger q ≡ Some loan → loan.holder ≢ p) }
    ensures free { (procs : ℕ) (ledger : Ledger) (p : Place) → ledger.home p ≡ None → ledger.orphan p ≡ None
        → ((q : Place) (loan : PageLoan) → loan_at ledger q ≡ Some loan → loan.holder ≢ p)
        → IsTrue (is_free procs ledger p) }
{}

/// After a loan both sides reach its pages as the table says: the lender by the rows for a page on
/// loan, and the holder, at the place as far along in its run, by the rows for a holder place.
pub fn reach_after_lend()
    ensures lender { (procs : ℕ) (from : Place) (n : ℕ) (to : Place) (kind : LoanKind) (number : Number) (ledger : Ledger)
        → CanLend procs ledger from n to kind number → (i : ℕ) (page : Page) (access : Access)
        → i < n → ledger.home (place_after from i) ≡ Some page
        → reach procs (lend from n to kind number ledger) (place_after from i) access
        ≡ (if lender_may kind page.right access then Some (Homed (place_after from i)) else None) }
    ensures holder { (procs capacity : ℕ) (from : Place) (n : ℕ) (to : Place) (kind : LoanKind) (number : Number) (ledger : Ledger)
        → IsLawful procs capacity ledger → CanLend procs ledger from n to kind number
        → (i : ℕ) (access : Access) → i < n
        → reach procs (lend from n to kind number ledger) (place_after to i) access
        ≡ (if holder_may kind access then Some (Homed (place_after from i)) else None) }
{}

/// A page that is reached is a page of the ledger.
pub fn reached_page_is_there()
    ensures { (procs : ℕ) (ledger : Ledger) (p : Place) (access : Access) (name : PageName)
        → reach procs ledger p access ≡ Some name
        → (contents : Contents) × (contents_of ledger name ≡ Some contents) }
{}

/// A page is reached from its home and from the holder place of its loan alone, and an orphan from
/// its place.
pub fn page_is_reached_from_two_places()
    ensures { (procs : ℕ) (ledger : Ledger) (p : Place) (access : Access) (name : PageName)
        → reach procs ledger p access ≡ Some name
        → (name ≡ Homed p)
        ⊎ ((name ≡ Orphaned p)
        ⊎ ((q : Place) × (loan : PageLoan) × (loan_at ledger q ≡ Some loan) × (loan.holder ≡ p) × (name ≡ Homed q))) }
{}

/// The console is loaded by its owner, stored to where its right has w, and never fetched.
pub fn console_is_reached_by_its_owner()
    ensures load { (procs capacity : ℕ) (ledger : Ledger) (p : Place) (page : Page)
        → IsLawful procs capacity ledger → ledger.home p ≡ Some page → page.contents ≡ Console
        → reach procs ledger p Load ≡ Some (Homed p) }
    ensures store { (procs capacity : ℕ) (ledger : Ledger) (p : Place) (page : Page)
        → IsLawful procs capacity ledger → ledger.home p ≡ Some page → page.contents ≡ Console
        → reach procs ledger p Store ≡ (if page.right.w then Some (Homed p) else None) }
    ensures fetch { (procs capacity : ℕ) (ledger : Ledger) (p : Place) (page : Page)
        → IsLawful procs capacity ledger → ledger.home p ≡ Some page → page.contents ≡ Console
        → reach procs ledger p Fetch ≡ None }
{}

/// A write changes the bytes of the named page alone: rights and loans stay, and every other page
/// its bytes. A write to the console changes nothing.
pub fn write_changes_one_page()
    ensures changed { (name : PageName) (offset : ℕ) (bytes old : List ℕ) (ledger : Ledger)
        → contents_of ledger name ≡ Some (Bytes old)
        → contents_of (write name offset bytes ledger) name
        ≡ Some (Bytes (written old offset bytes)) }
    ensures console { (name : PageName) (offset : ℕ) (bytes : List ℕ) (ledger : Ledger)
        → contents_of ledger name ≡ Some Console
        → contents_of (write name offset bytes ledger) name ≡ Some Console }
    ensures others { (name other : PageName) (offset : ℕ) (bytes : List ℕ) (ledger : Ledger) → other ≢ name
        → contents_of (write name offset bytes ledger) other ≡ contents_of ledger other }
    ensures rights { (name : PageName) (offset : ℕ) (bytes : List ℕ) (ledger : Ledger)
        → bare (write name offset bytes ledger) ≡ bare ledger }
{}
