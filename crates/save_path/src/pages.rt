//! The pages and orphans of a state are written with their bytes. Those that are out are brought in one by one.

ghost use Rattle.std.specs.Prelude.{◌≡◌, ◌<◌, ◌≤◌, ◌+◌, ◌*◌, length, IfOk, IsTrue, None, OnOk, Some, [], if◌then◌else◌};
ghost use Rattle.ledger_model.specs.Lawful.{IsLawful};
ghost use Rattle.ledger_model.specs.Ledger.{Bytes, Console};
ghost use Rattle.ledger_model.specs.Places.{place_at, places_of_process};
ghost use Rattle.vm_memory.specs.Bytes.{MeansBytes};
ghost use Rattle.vm_memory.specs.Memory.{IsUsable, capacity_of, ledger, processes};
ghost use Rattle.vm_memory.specs.Sound.{IsSound};
ghost use Rattle.vm_memory.specs.Using.Access.{reaches_bytes};
ghost use Rattle.xk_base.specs.declared.pages.Access.TheVariants.{Load};
ghost use Rattle.xk_base.specs.declared.limits.TheConstants.{PROCESS_LIMIT};
ghost use Rattle.save_path.specs.Pages.{AppendsBytes, AppendsText, as_loan, reading_place, seen_page};
ghost use Rattle.save_path.specs.Rows.{home_at, home_texts, orphan_at, orphan_texts};
ghost use Rattle.suspend_image.specs.SavedRows.{loan_number, orphan_row, page_row, right_number};
ghost use Rattle.save_path.specs.Written.{AppendsTexts, Fits, ReadsPages};

use crate::places::{PLACES_OF_PROCESS, place_at};
use crate::used::next_used;
use phys_pages::LoanInfo;
use suspend_image::{OrphanRow, PageRow, Sheet, write_orphan_words, write_page_words};
use vm_memory::{Here, Memory};
use xk_base::{Access, Failed, LoanKind, Number, Place, Right};
use xk_ports::SwapStore;

fn loan_number(kind: LoanKind) -> u32
    ensures { result ≡ loan_number kind }
{
    match kind {
        LoanKind::Shared => 1,
        LoanKind::Exclusive => 2,
    }
}

// The number of a page's right.
fn right_number(right: Right, console: bool) -> u32
    ensures { result ≡ right_number right (if console then Console else Bytes []) }
{
    4 * u32::from(console) + 2 * u32::from(right.x) + u32::from(right.w)
}

// The row of a page at its home.
fn page_row(home: Place, right: Right, console: bool, loan: Option<LoanInfo>) -> PageRow
    ensures { result ≡ page_row 0 home (seen_page right console loan) }
{
    let mut row = PageRow {
        pid: u32::from(home.pid.0),
        page: home.vpn.0,
        right: right_number(right, console),
        holder_pid: 0,
        holder_page: 0,
        kind: 0,
        number: 0,
        from: 0,
    };
    if let Some(loan) = loan {
        row.holder_pid = u32::from(loan.holder.pid.0);
        row.holder_page = loan.holder.vpn.0;
        row.kind = loan_number(loan.kind);
        row.number = loan.number.0;
    }
    row
}

fn orphan_row(place: Place, kind: LoanKind, number: Number) -> OrphanRow
    ensures { result ≡ orphan_row 0 place (record { kind = kind; bytes = []; number = number }) }
{
    OrphanRow {
        pid: u32::from(place.pid.0),
        page: place.vpn.0,
        kind: loan_number(kind),
        number: number.0,
        from: 0,
    }
}

// Where a page can be read: at its home, unless its holder has it alone.
fn reading_place(home: Place, loan: Option<LoanInfo>) -> Place
    ensures { result ≡ reading_place home (as_loan loan) }
{
    match loan {
        Some(loan) => match loan.kind {
            LoanKind::Shared => home,
            LoanKind::Exclusive => loan.holder,
        },
        None => home,
    }
}

// Appends the bytes of the page at a place that its process may load.
fn write_contents<W: SwapStore>(
    mem: &mut Memory<W>,
    sheet: &mut Sheet,
    at: Place,
) -> Result<(), Failed>
    requires sound { IsSound W.slot_count mem.old }
    requires usable { IsUsable mem.old }
    requires may { IsTrue (reaches_bytes (processes mem.old) (ledger W.held mem.old) at Load) }
    requires room { Fits sheet.old 4096 }
    ensures reads { ReadsPages W.SwapStore mem.old mem.new result }
    ensures bytes { OnOk result (AppendsBytes (processes mem.new) (ledger W.held mem.new) at sheet.old sheet.new) }
    ensures room { sheet.new.room ≡ sheet.old.room }
{
    if !mem.reach(at, Access::Load)? {
        unreachable!();
    }
    sheet.push_bytes(mem.bytes(at));
    Ok(())
}

// Appends the page whose home has that number, and answers whether it is a home.
fn write_home<W: SwapStore>(
    mem: &mut Memory<W>,
    sheet: &mut Sheet,
    number: u32,
) -> Result<bool, Failed>
    requires sound { IsSound W.slot_count mem.old }
    requires usable { IsUsable mem.old }
    requires number { number < places_of_process * PROCESS_LIMIT }
    requires room { Fits sheet.old 4124 }
    ensures reads { ReadsPages W.SwapStore mem.old mem.new result }
    ensures text { IfOk result (AppendsText (MeansBytes W.SwapStore mem.old) sheet.old sheet.new (home_at (ledger W.held mem.old) number)) }
    ensures room { sheet.new.room ≡ sheet.old.room }
{
    let home = place_at(number);
    let Here::Own {
        right,
        console,
        loan,
    } = mem.at(home)
    else {
        return Ok(false);
    };
    write_page_words(sheet, &page_row(home, right, console, loan));
    if !console {
        write_contents(mem, sheet, reading_place(home, loan))?;
    }
    Ok(true)
}

// Appends the orphan whose place has that number, and answers whether it is an orphan's.
fn write_orphan<W: SwapStore>(
    mem: &mut Memory<W>,
    sheet: &mut Sheet,
    number: u32,
) -> Result<bool, Failed>
    requires sound { IsSound W.slot_count mem.old }
    requires usable { IsUsable mem.old }
    requires number { number < places_of_process * PROCESS_LIMIT }
    requires room { Fits sheet.old 4124 }
    ensures reads { ReadsPages W.SwapStore mem.old mem.new result }
    ensures text { IfOk result
        (AppendsText (MeansBytes W.SwapStore mem.old) sheet.old sheet.new (orphan_at (ledger W.held mem.old) number)) }
    ensures room { sheet.new.room ≡ sheet.old.room }
{
    let place = place_at(number);
    let Here::Lent {
        kind,
        lender,
        number: message,
    } = mem.at(place)
    else {
        return Ok(false);
    };
    if lender.is_some() {
        return Ok(false);
    }
    write_orphan_words(sheet, &orphan_row(place, kind, message));
    write_contents(mem, sheet, place)?;
    Ok(true)
}

/// Appends the number of pages, and the pages in order of their homes.
pub(crate) fn write_homes<W: SwapStore>(
    mem: &mut Memory<W>,
    sheet: &mut Sheet,
    procs: u32,
) -> Result<(), Failed>
    requires sound { IsSound W.slot_count mem.old }
    requires usable { IsUsable mem.old }
    requires procs { procs ≤ PROCESS_LIMIT }
    requires made { procs ≡ processes mem.old }
    requires room { Fits sheet.old (4 + 4124 * (length (home_texts procs (ledger W.held mem.old)) + 1)) }
    ensures reads { ReadsPages W.SwapStore mem.old mem.new result }
    ensures texts { OnOk result
        (AppendsTexts (MeansBytes W.SwapStore mem.old) sheet.old sheet.new (home_texts procs (ledger W.held mem.old))) }
    ensures room { sheet.new.room ≡ sheet.old.room }
{
    let at = sheet.as_slice().len() as u32;
    sheet.push_word(0);
    let end = PLACES_OF_PROCESS * procs;
    let mut many = 0;
    let mut number = next_used(mem, 0, end);
    'places: while number < end {
        many += u32::from(write_home(mem, sheet, number)?);
        number = next_used(mem, number + 1, end);
    }
    sheet.set_word(at, many);
    Ok(())
}

/// Appends the number of orphans, and the orphans in order of their places.
pub(crate) fn write_orphans<W: SwapStore>(
    mem: &mut Memory<W>,
    sheet: &mut Sheet,
    procs: u32,
) -> Result<(), Failed>
    requires sound { IsSound W.slot_count mem.old }
    requires usable { IsUsable mem.old }
    requires procs { procs ≤ PROCESS_LIMIT }
    requires made { procs ≡ processes mem.old }
    requires room { Fits sheet.old (4 + 4124 * (length (orphan_texts procs (ledger W.held mem.old)) + 1)) }
    ensures reads { ReadsPages W.SwapStore mem.old mem.new result }
    ensures texts { OnOk result
        (AppendsTexts (MeansBytes W.SwapStore mem.old) sheet.old sheet.new (orphan_texts procs (ledger W.held mem.old))) }
    ensures room { sheet.new.room ≡ sheet.old.room }
{
    let at = sheet.as_slice().len() as u32;
    sheet.push_word(0);
    let end = PLACES_OF_PROCESS * procs;
    let mut many = 0;
    let mut number = next_used(mem, 0, end);
    'places: while number < end {
        many += u32::from(write_orphan(mem, sheet, number)?);
        number = next_used(mem, number + 1, end);
    }
    sheet.set_word(at, many);
    Ok(())
}
