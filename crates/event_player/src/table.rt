//! The table of the pages of a kernel's state.

ghost use Rattle.std.specs.Prelude.{◌≡◌, ◌+◌, ◌≤◌, ◌<◌, ◌++◌, length, OnOk, OnErr};
ghost use Rattle.arrayvec.specs.ArrayVec.{array_vec_len};
ghost use Rattle.xk_base.specs.Outside.{Rose};
ghost use Rattle.xk_kernel.specs.Sound.{IsSound, IsUsable};
ghost use Rattle.xk_kernel.specs.State.{machine_of};
ghost use Rattle.xk_ports.specs.Told.{Grows, GrowsByProperPrefix};
ghost use Rattle.event_player.specs.Table.{hold_text, kind_text, loan_text, message_text, orphan_line, orphans_text, page_line, pages_text};
ghost use Rattle.event_player.specs.Table.{place_text, right_text, table_of};

use host_io::text::{Line, put, put_five_digits, put_number};
use phys_pages::LoanInfo;
use save_path::{PLACES_OF_PROCESS, place_at};
use vm_memory::Here;
use xk_base::limits::PROCESS_LIMIT;
use xk_base::{Failed, LoanKind, Number, Place, Right};
use xk_kernel::Kernel;
use xk_ports::{Sink, SwapStore, put_all};

/// The user places of as many processes as there can be.
const PLACES: u32 = PLACES_OF_PROCESS * PROCESS_LIMIT;

fn put_place(line: &mut Line, place: Place)
    requires { array_vec_len line.old + 16 ≤ 128 }
    ensures text { line.new.items ≡ line.old.items ++ place_text place }
    ensures len { array_vec_len line.new ≤ array_vec_len line.old + 16 }
{
    put_number(line, u32::from(place.pid.0));
    put(line, b" ");
    put_five_digits(line, place.vpn.0);
}

fn put_right(line: &mut Line, right: Right)
    requires { array_vec_len line.old + 3 ≤ 128 }
    ensures text { line.new.items ≡ line.old.items ++ right_text right }
    ensures len { array_vec_len line.new ≡ array_vec_len line.old + 3 }
{
    put(line, b"r");
    put(line, if right.w { b"w" } else { b"-" });
    put(line, if right.x { b"x" } else { b"-" });
}

fn kind_name(kind: LoanKind) -> &'static [u8]
    ensures name { result.now ≡ kind_text kind }
    ensures short { length result.now ≤ 7 }
{
    match kind {
        LoanKind::Shared => b"lent",
        LoanKind::Exclusive => b"mutable",
    }
}

fn put_number_of_message(line: &mut Line, number: Number)
    requires { array_vec_len line.old + 15 ≤ 128 }
    ensures text { line.new.items ≡ line.old.items ++ message_text number }
    ensures len { array_vec_len line.new ≤ array_vec_len line.old + 15 }
{
    put(line, b" msg ");
    put_number(line, number.0);
}

fn put_loan(line: &mut Line, loan: LoanInfo)
    requires { array_vec_len line.old + 42 ≤ 128 }
    ensures text { line.new.items ≡ line.old.items ++ loan_text loan }
    ensures len { array_vec_len line.new ≤ array_vec_len line.old + 42 }
{
    put(line, kind_name(loan.kind));
    put(line, b" to ");
    put_place(line, loan.holder);
    put_number_of_message(line, loan.number);
}

/// Appends what is said of a page behind its right.
fn put_hold(line: &mut Line, console: bool, loan: Option<LoanInfo>)
    requires { array_vec_len line.old + 42 ≤ 128 }
    ensures text { line.new.items ≡ line.old.items ++ hold_text console loan }
    ensures len { array_vec_len line.new ≤ array_vec_len line.old + 42 }
{
    match loan {
        Some(loan) => put_loan(line, loan),
        None => {
            if console {
                put(line, b"console");
            } else {
                put(line, b"own");
            }
        }
    }
}

/// The line of a page at its home.
fn home_line(place: Place, right: Right, console: bool, loan: Option<LoanInfo>) -> Line
    ensures { result.items ≡ page_line place (Here.Own right console loan) }
{
    let mut line = Line::new();
    put_place(&mut line, place);
    put(&mut line, b" ");
    put_right(&mut line, right);
    put(&mut line, b" ");
    put_hold(&mut line, console, loan);
    put(&mut line, b"\n");
    line
}

/// The line of an orphan at the place where it is held.
fn held_line(place: Place, kind: LoanKind, number: Number) -> Line
    ensures { result.items ≡ orphan_line place (Here.Lent kind None number) }
{
    let mut line = Line::new();
    put(&mut line, b"orphan ");
    put_place(&mut line, place);
    put(&mut line, b" ");
    put(&mut line, kind_name(kind));
    put_number_of_message(&mut line, number);
    put(&mut line, b"\n");
    line
}

/// Writes the line of the page whose home the place is, if it is one.
fn write_page<K: Sink>(place: Place, here: Here, out: &mut K) -> Result<(), Failed>
    ensures appended { OnOk result (Grows (K.written out.old) (K.written out.new) (page_line place here)) }
    ensures front { OnErr result (GrowsByProperPrefix (K.written out.old) (K.written out.new) (page_line place here)) }
    ensures cause { OnErr result (Rose (K.faults out.old) (K.faults out.new)) }
    ensures never_falls { K.faults out.old ≤ K.faults out.new }
{
    match here {
        Here::Own {
            right,
            console,
            loan,
        } => put_all(out, home_line(place, right, console, loan).as_slice()),
        Here::Lent { .. } | Here::Nothing => Ok(()),
    }
}

/// Writes the line of the orphan that is held at the place, if one is.
fn write_orphan<K: Sink>(place: Place, here: Here, out: &mut K) -> Result<(), Failed>
    ensures appended { OnOk result (Grows (K.written out.old) (K.written out.new) (orphan_line place here)) }
    ensures front { OnErr result (GrowsByProperPrefix (K.written out.old) (K.written out.new) (orphan_line place here)) }
    ensures cause { OnErr result (Rose (K.faults out.old) (K.faults out.new)) }
    ensures never_falls { K.faults out.old ≤ K.faults out.new }
{
    match here {
        Here::Lent {
            kind,
            lender,
            number,
        } => match lender {
            None => put_all(out, held_line(place, kind, number).as_slice()),
            Some(_) => Ok(()),
        },
        Here::Own { .. } | Here::Nothing => Ok(()),
    }
}

/// Writes the lines of all pages, in the order of their homes.
fn write_pages<K: Sink, W: SwapStore>(kernel: &Kernel<W>, out: &mut K) -> Result<(), Failed>
    requires sound { IsSound W.SwapStore kernel.now }
    requires usable { IsUsable kernel.now }
    ensures appended { OnOk result (Grows (K.written out.old) (K.written out.new) (pages_text (machine_of W.held kernel.now))) }
    ensures front { OnErr result (GrowsByProperPrefix (K.written out.old) (K.written out.new) (pages_text (machine_of W.held kernel.now))) }
    ensures cause { OnErr result (Rose (K.faults out.old) (K.faults out.new)) }
    ensures never_falls { K.faults out.old ≤ K.faults out.new }
{
    for number in 0..PLACES {
        let place = place_at(number);
        write_page(place, kernel.at(place), out)?;
    }
    Ok(())
}

/// Writes the lines of all orphans, in the order of the places where they are held.
fn write_orphans<K: Sink, W: SwapStore>(kernel: &Kernel<W>, out: &mut K) -> Result<(), Failed>
    requires sound { IsSound W.SwapStore kernel.now }
    requires usable { IsUsable kernel.now }
    ensures appended { OnOk result (Grows (K.written out.old) (K.written out.new) (orphans_text (machine_of W.held kernel.now))) }
    ensures front { OnErr result (GrowsByProperPrefix (K.written out.old) (K.written out.new) (orphans_text (machine_of W.held kernel.now))) }
    ensures cause { OnErr result (Rose (K.faults out.old) (K.faults out.new)) }
    ensures never_falls { K.faults out.old ≤ K.faults out.new }
{
    for number in 0..PLACES {
        let place = place_at(number);
        write_orphan(place, kernel.at(place), out)?;
    }
    Ok(())
}

/// Writes the table.
pub fn write_table<K: Sink, W: SwapStore>(kernel: &Kernel<W>, out: &mut K) -> Result<(), Failed>
    requires sound { IsSound W.SwapStore kernel.now }
    requires usable { IsUsable kernel.now }
    ensures appended { OnOk result (Grows (K.written out.old) (K.written out.new) (table_of (machine_of W.held kernel.now))) }
    ensures front { OnErr result (GrowsByProperPrefix (K.written out.old) (K.written out.new) (table_of (machine_of W.held kernel.now))) }
    ensures cause { OnErr result (Rose (K.faults out.old) (K.faults out.new)) }
    ensures never_falls { K.faults out.old ≤ K.faults out.new }
{
    write_pages(kernel, out)?;
    write_orphans(kernel, out)
}
