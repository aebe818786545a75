//! A small memory of one process, and what the tests do with it: two pages come to it, are lent, passed, ended, orphaned and
//! moved, and go out to a slot and come back.

ghost use Rattle.ledger_model.specs.Loans.{LoanRun};
ghost use Rattle.ledger_model.specs.Places.{in_run, is_place_in};
ghost use Rattle.loan_flags.specs.Keeping.{entries_of};
ghost use Rattle.phys_pages.specs.Owners.{HasSeat, infos};
ghost use Rattle.std.specs.Prelude.{IfOk, IfSome, IsSome, IsTrue, Some, is_some, ◌+◌, ◌<◌, ◌≡◌};
ghost use Rattle.sv32_space.specs.EntryLoans.{IsUnlent, StandsIn};
ghost use Rattle.sv32_space.specs.declared.sides.Entry.TheVariants.{Free};
ghost use Rattle.xk_base.specs.declared.windows.Window.TheVariants.{Message};
ghost use Rattle.xk_base.specs.Numbers.Windows.{window_at};

use loan_flags::{Loan, end_run, free_run, give_run, lend_run, may_send, orphan_run, pass_run};
use phys_pages::{Owners, PageInfo, Ram, Seat};
use std::alloc::Global;
use std::marker::Model;
use sv32_space::{Entry, Side, entry_at, leaf, new_space, set_entry};
use swap_map::{bring, evict};
use xk_base::{Frame, LoanKind, MemKind, NoMemory, Number, Pid, Place, Right, Slot, Vpn, Window};
use xk_ports::{MemStore, SwapStore};

const START: u32 = 0x4000_0000;

/// The first of two pages, in the Heap window.
pub const FIRST: u32 = 0x2_0000;

/// The first page of the Message window.
pub const MESSAGE: u32 = 0x4_0000;

/// The words of two free places.
pub const FREE: [u32; 2] = [0, 0];

/// The memory of one process.
#[derive(Drop)]
pub struct Space {
    ram: Ram,
    owners: Owners,
}

impl Model for Space {
    ghost use Rattle.loan_flags.specs.Keeping.{Tables, tables};
    ghost use Rattle.phys_pages.specs.Owners.{extent};
    ghost use Rattle.std.specs.Prelude.{◌≡◌};
    ghost use Rattle.sv32_space.specs.Tie.{agrees};

    ghost Value = { Tables };

    ghost view = { λ s. tables s.ram s.owners };

    ghost invariant = { λ s. agrees s.ram s.owners × (extent s.owners ≡ record { first = 21; frames = 43; slots = 16 }) };
}

fn place(vpn: u32) -> Place
    ensures { result ≡ record { pid = record { 0 = 2 }; vpn = record { 0 = vpn } } }
{
    Place {
        pid: Pid(2),
        vpn: Vpn(vpn),
    }
}

/// A process without a page, and no loan of message 7. Frame 22 holds sevens.
#[tactic(auto, using(phys_pages::proofs::PageLemmas::page_writes, crate::proofs::SmallSpaceLemmas::none_unlent))]
fn empty(alloc: Global) -> Result<Space, NoMemory>
    ensures unlent { IfOk result (λ s. IsUnlent (infos s.owners) (record { 0 = 7 })) }
{
    let mut ram = Ram::new(alloc, START, 64)?;
    ram.page_mut(Frame(22)).fill(7);
    new_space(&mut ram, Frame(0));
    let owners = Owners::new(alloc, Frame(21), 43, 16)?;
    Ok(Space { ram, owners })
}

/// A page with R and W comes to a place and a seat, where both are free.
fn put(s: &mut Space, vpn: u32, seat: Seat) -> bool
    requires unlent { IsUnlent (infos s.old.owners) (record { 0 = 7 }) }
    requires window { IsSome (window_at vpn) }
    requires seat { HasSeat (record { first = 21; frames = 43; slots = 16 }) seat }
    ensures unlent { IsUnlent (infos s.new.owners) (record { 0 = 7 }) }
{
    let home = place(vpn);
    let Some(Entry::Free) = entry_at(&s.ram, home) else {
        return false;
    };
    if s.owners.info(seat).is_some() {
        return false;
    }
    set_entry(
        &mut s.ram,
        home,
        Entry::At {
            side: Side::Own(Right { w: true, x: false }),
            seat,
        },
    );
    s.owners.set(
        seat,
        Some(PageInfo {
            home: Some(home),
            loan: None,
        }),
    );
    true
}

/// Two pages, the first in frame 22 and the second at a seat, if they came to their places.
pub fn two_pages(alloc: Global, second: Seat) -> Option<Space>
    requires seat { HasSeat (record { first = 21; frames = 43; slots = 16 }) second }
    ensures unlent { IfSome result (λ s. IsUnlent (infos s.owners) (record { 0 = 7 })) }
{
    let Ok(mut s) = empty(alloc) else {
        return None;
    };
    let is_first_there = put(&mut s, FIRST, Seat::Frame(Frame(22)));
    let is_second_there = put(&mut s, FIRST + 1, second);
    if is_first_there && is_second_there {
        Some(s)
    } else {
        None
    }
}

/// The words of two entries.
pub fn words(s: &Space, vpn: u32) -> [u32; 2]
    requires low { vpn + 1 < 4294967296 }
    requires first { IsSome (window_at vpn) }
    requires second { IsSome (window_at (vpn + 1)) }
{
    [leaf(&s.ram, place(vpn)), leaf(&s.ram, place(vpn + 1))]
}

/// No page is at the seat.
pub fn is_free(s: &Space, seat: Seat) -> bool
    requires { HasSeat (record { first = 21; frames = 43; slots = 16 }) seat }
{
    s.owners.info(seat).is_none()
}

/// Frame 30 holds sevens.
pub fn has_sevens(s: &Space) -> bool {
    s.ram.page(Frame(30)) == [7; 4096].as_slice()
}

/// The first of two free places in the Message window.
fn free_places(s: &Space) -> Option<Place>
    ensures free { IfSome result (λ to. (p : Place) → IsTrue (in_run to 2 p) → entries_of s.now p ≡ Some Free) }
    ensures lies { IfSome result (λ to. (p : Place) → IsTrue (in_run to 2 p) → IsTrue (is_place_in 1 Message p)) }
{
    let vpn = free_run(&s.ram, Pid(2), Window::Message, 2)?;
    Some(place(vpn.0))
}

/// Lends the two pages by message 7.
pub fn lend(s: &mut Space, kind: LoanKind) -> Option<Loan>
    requires unlent { IsUnlent (infos s.old.owners) (record { 0 = 7 }) }
    ensures stands { IfSome result (λ loan. StandsIn (entries_of s.new) (infos s.new.owners) loan) }
    ensures lender { IfSome result (λ loan. IsTrue (is_some loan.lender)) }
    ensures count { IfSome result (λ loan. loan.count ≡ 2) }
{
    let sent = match kind {
        LoanKind::Shared => MemKind::Lend,
        LoanKind::Exclusive => MemKind::LendMut,
    };
    let to = free_places(s)?;
    match may_send(&s.ram, place(FIRST), 2, sent) {
        Ok(()) => Some(lend_run(
            &mut s.ram,
            &mut s.owners,
            place(FIRST),
            2,
            to,
            kind,
            Number(7),
        )),
        Err(_) => None,
    }
}

/// Passes the loan on to the next free places.
pub fn pass(s: &mut Space, loan: Loan) -> Loan
    requires stands { StandsIn (entries_of s.old) (infos s.old.owners) loan }
    requires lender { IsTrue (is_some loan.lender) }
    requires count { loan.count ≡ 2 }
    ensures stands { StandsIn (entries_of s.new) (infos s.new.owners) result }
{
    match free_places(s) {
        Some(to) => pass_run(&mut s.ram, &mut s.owners, loan, to),
        None => loan,
    }
}

/// Takes the lender from the loan.
pub fn orphan(s: &mut Space, loan: Loan) -> Loan
    requires stands { StandsIn (entries_of s.old) (infos s.old.owners) loan }
    requires lender { IsTrue (is_some loan.lender) }
    ensures stands { StandsIn (entries_of s.new) (infos s.new.owners) result }
{
    orphan_run(&mut s.ram, &mut s.owners, loan)
}

/// Ends the loan.
pub fn end(s: &mut Space, loan: Loan)
    requires stands { StandsIn (entries_of s.old) (infos s.old.owners) loan }
{
    end_run(&mut s.ram, &mut s.owners, loan);
}

/// Moves the two pages.
pub fn give(s: &mut Space) -> bool {
    let Some(to) = free_places(s) else {
        return false;
    };
    match may_send(&s.ram, place(FIRST), 2, MemKind::Move) {
        Ok(()) => {
            give_run(&mut s.ram, &mut s.owners, place(FIRST), 2, to);
            true
        }
        Err(_) => false,
    }
}

/// Puts the page of frame 22 out to slot 5, where there is one and the slot is free.
pub fn goes_out(s: &mut Space, store: &mut MemStore) -> bool
    ensures loans { (loan : LoanRun) → StandsIn (entries_of s.old) (infos s.old.owners) loan
        → StandsIn (entries_of s.new) (infos s.new.owners) loan }
{
    if s.owners.info(Seat::Frame(Frame(22))).is_none()
        || s.owners.info(Seat::Slot(Slot(5))).is_some()
        || store.slots() < 16
    {
        return false;
    }
    evict(&mut s.ram, &mut s.owners, store, Frame(22), Slot(5)).is_ok()
}

/// Brings the page of slot 5 to frame 30, where there is one and the frame is free.
pub fn comes_back(s: &mut Space, store: &mut MemStore) -> bool
    ensures loans { (loan : LoanRun) → StandsIn (entries_of s.old) (infos s.old.owners) loan
        → StandsIn (entries_of s.new) (infos s.new.owners) loan }
{
    if s.owners.info(Seat::Slot(Slot(5))).is_none()
        || s.owners.info(Seat::Frame(Frame(30))).is_some()
        || store.slots() < 16
    {
        return false;
    }
    bring(&mut s.ram, &mut s.owners, store, Slot(5), Frame(30)).is_ok()
}
