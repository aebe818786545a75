//! A plain program beside the definitions: what is reached, and the least run, on a small ledger that
//! is given as lists of entries.

ghost use Rattle.std.specs.Prelude.{◌≡◌, ℕ, ◌+◌, ◌<◌, ◌^◌, IsTrue, false};
ghost use Rattle.std.specs.List.{find};
ghost use Rattle.std.specs.Option.{option_map};
ghost use Rattle.ledger_model.specs.LeastRun.{is_free_run, least_run};
ghost use Rattle.ledger_model.specs.Ledger.{Console};
ghost use Rattle.ledger_model.specs.Places.{same_place, place_after};
ghost use Rattle.ledger_model.specs.Reach.{is_held_at, role_at, owner_may, lender_may, holder_may, may, page_at_role, reach, is_free};
ghost use Rattle.ledger_model.specs.Reach.{is_free_role};
ghost use Rattle.ledger_model.specs.Small.{ledger_of, is_listed, name_of, role_of, loan_of_entry, page_of_entry};
ghost use Rattle.ledger_model.specs.Steps.{new_page};

use xk_base::{Access, LoanKind, Number, Pid, Place, Right, Vpn, Window};

/// The loan of a page.
#[derive(Clone, Copy, Debug, PartialEq, Eq)]
pub struct LoanEntry {
    pub holder: Place,
    pub kind: LoanKind,
    pub number: Number,
}

/// A page of zeros, or the console.
#[derive(Clone, Copy, Debug, PartialEq, Eq)]
pub struct PageEntry {
    pub home: Place,
    pub right: Right,
    pub console: bool,
    pub loan: Option<LoanEntry>,
}

/// An orphan.
#[derive(Clone, Copy, Debug, PartialEq, Eq)]
pub struct OrphanEntry {
    pub holder: Place,
    pub kind: LoanKind,
    pub number: Number,
}

/// Which page is reached: the one with that home, or the orphan at that place.
#[derive(Clone, Copy, Debug, PartialEq, Eq)]
pub enum Reached {
    Page(Place),
    Orphan(Place),
}

/// What a place is.
#[derive(Clone, Copy, Debug, PartialEq, Eq)]
pub enum PlaceRole {
    Free,
    Home(PageEntry),
    /// With the home of the page that is on loan to it.
    Holder(Place, LoanEntry),
    Orphan(OrphanEntry),
}

impl PageEntry {
    /// The console at its home. It can't be executed.
    pub fn console(home: Place, w: bool) -> PageEntry
        ensures home { result.home ≡ home }
        ensures page { page_of_entry result ≡ new_page (record { w = w; x = false }) Console }
    {
        PageEntry {
            home,
            right: Right { w, x: false },
            console: true,
            loan: None,
        }
    }
}

fn is_same(p: Place, q: Place) -> bool
    ensures { result ≡ same_place p q }
{
    p.pid.0 == q.pid.0 && p.vpn.0 == q.vpn.0
}

fn is_holder(page: &PageEntry, place: Place) -> bool
    ensures { result ≡ is_held_at place (option_map loan_of_entry page.now.loan) }
{
    match page.loan {
        None => false,
        Some(loan) => is_same(loan.holder, place),
    }
}

fn page_at(pages: &[PageEntry], place: Place) -> Option<PageEntry>
    ensures { result ≡ find (λ e. same_place e.home place) pages.now }
{
    pages.iter().copied().find(|e| is_same(e.home, place))
}

fn orphan_at(orphans: &[OrphanEntry], place: Place) -> Option<OrphanEntry>
    ensures { result ≡ find (λ e. same_place e.holder place) orphans.now }
{
    orphans.iter().copied().find(|e| is_same(e.holder, place))
}

fn lent_to(pages: &[PageEntry], place: Place) -> Option<PageEntry>
    ensures { result ≡ find (λ e. is_held_at place (option_map loan_of_entry e.loan)) pages.now }
{
    pages.iter().copied().find(|e| is_holder(e, place))
}

fn can_owner(right: Right, access: Access) -> bool
    ensures { result ≡ owner_may right access }
{
    match access {
        Access::Load => true,
        Access::Store => right.w,
        Access::Fetch => right.x,
    }
}

fn can_lender(kind: LoanKind, right: Right, access: Access) -> bool
    ensures { result ≡ lender_may kind right access }
{
    match (kind, access) {
        (LoanKind::Shared, Access::Load) => true,
        (LoanKind::Shared, Access::Store) => false,
        (LoanKind::Shared, Access::Fetch) => right.x,
        (LoanKind::Exclusive, _) => false,
    }
}

fn can_holder(kind: LoanKind, access: Access) -> bool
    ensures { result ≡ holder_may kind access }
{
    match access {
        Access::Load => true,
        Access::Store => kind == LoanKind::Exclusive,
        Access::Fetch => false,
    }
}

/// What a place is. The pages stand in the order of their homes.
pub fn role(pages: &[PageEntry], orphans: &[OrphanEntry], place: Place) -> PlaceRole
    ensures { (procs : ℕ) → IsTrue (is_listed procs pages.now)
        → role_of result ≡ role_at procs (ledger_of pages.now orphans.now) place }
{
    match page_at(pages, place) {
        Some(page) => PlaceRole::Home(page),
        None => match orphan_at(orphans, place) {
            Some(orphan) => PlaceRole::Orphan(orphan),
            None => match lent_to(pages, place) {
                Some(page) => {
                    let home = page.home;
                    match page.loan {
                        Some(loan) => PlaceRole::Holder(home, loan),
                        None => PlaceRole::Free,
                    }
                }
                None => PlaceRole::Free,
            },
        },
    }
}

fn can_role(role: &PlaceRole, access: Access) -> bool
    ensures { result ≡ may (role_of role.now) access }
{
    match role {
        PlaceRole::Free => false,
        PlaceRole::Home(page) => match page.loan {
            None => can_owner(page.right, access),
            Some(loan) => can_lender(loan.kind, page.right, access),
        },
        PlaceRole::Holder(_, loan) => can_holder(loan.kind, access),
        PlaceRole::Orphan(orphan) => can_holder(orphan.kind, access),
    }
}

fn page_of_role(place: Place, role: &PlaceRole) -> Option<Reached>
    ensures { option_map name_of result ≡ page_at_role place (role_of role.now) }
{
    match role {
        PlaceRole::Free => None,
        PlaceRole::Home(_) => Some(Reached::Page(place)),
        PlaceRole::Holder(home, _) => Some(Reached::Page(*home)),
        PlaceRole::Orphan(_) => Some(Reached::Orphan(place)),
    }
}

fn is_free_of(role: &PlaceRole) -> bool
    ensures { result ≡ is_free_role (role_of role.now) }
{
    match role {
        PlaceRole::Free => true,
        PlaceRole::Home(_) => false,
        PlaceRole::Holder(_, _) => false,
        PlaceRole::Orphan(_) => false,
    }
}

/// Which page the process of a place reaches there by an access, and `None` where it hasn't that
/// access. The pages stand in the order of their homes.
pub fn reached_page(
    pages: &[PageEntry],
    orphans: &[OrphanEntry],
    place: Place,
    access: Access,
) -> Option<Reached>
    ensures { (procs : ℕ) → IsTrue (is_listed procs pages.now)
        → option_map name_of result ≡ reach procs (ledger_of pages.now orphans.now) place access }
{
    let role = role(pages, orphans, place);
    if can_role(&role, access) {
        page_of_role(place, &role)
    } else {
        None
    }
}

/// Whether a place is no home, holder place or orphan's place. The pages stand in the order of their
/// homes.
pub fn is_free_place(pages: &[PageEntry], orphans: &[OrphanEntry], place: Place) -> bool
    ensures { (procs : ℕ) → IsTrue (is_listed procs pages.now)
        → result ≡ is_free procs (ledger_of pages.now orphans.now) place }
{
    let role = role(pages, orphans, place);
    is_free_of(&role)
}

/// Whether the n places from the first on are free.
fn is_run_free(pages: &[PageEntry], orphans: &[OrphanEntry], first: Place, n: u32) -> bool
    requires { first.vpn.0 + n < 2 ^ 32 }
    ensures { (procs : ℕ) → IsTrue (is_listed procs pages.now)
        → result ≡ is_free_run procs (ledger_of pages.now orphans.now) first n }
{
    for i in 0..n {
        let place = Place {
            pid: first.pid,
            vpn: Vpn(first.vpn.0 + i),
        };
        if !is_free_place(pages, orphans, place) {
            return false;
        }
    }
    true
}

/// The first page of the least free run of n places in a window of the process, and `None` where
/// there is none. The pages stand in the order of their homes.
pub fn find_least_run(
    pages: &[PageEntry],
    orphans: &[OrphanEntry],
    pid: Pid,
    window: Window,
    n: u32,
) -> Option<Vpn>
    ensures { (procs : ℕ) → IsTrue (is_listed procs pages.now)
        → result ≡ least_run procs (ledger_of pages.now orphans.now) pid window n }
{
    let first = window.first().0;
    let count = window.last().0 + 1 - first;
    for k in 0..count {
        let vpn = Vpn(first + k);
        if n <= count - k && is_run_free(pages, orphans, Place { pid, vpn }, n) {
            return Some(vpn);
        }
    }
    None
}
