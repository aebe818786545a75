//! What is told as records come is gathered, and what is told at the end is written.

ghost use Rattle.std.specs.Prelude.{◌≡◌, ◌≤◌, true, OnOk, OnErr};
ghost use Rattle.xk_base.specs.Outside.{Rose};
ghost use Rattle.xk_ports.specs.Told.{Grows, GrowsByProperPrefix};
ghost use Rattle.trace_text.specs.Lines.{line_of, end_line_of};
ghost use Rattle.xk_kernel.specs.Sound.{IsSound, IsUsable};
ghost use Rattle.xk_kernel.specs.State.{machine_of};
ghost use Rattle.event_player.specs.Gathering.{Gathers, GathersPart, text};
ghost use Rattle.event_player.specs.Telling.{closing, console_byte, last_line, told, told_of};

use crate::ending::Ending;
use crate::gathering::{Held, gather};
use crate::table::write_table;
use crate::telling::Telling;
use arrayvec::ArrayVec;
use trace_text::{EndWord, end_line, line};
use xk_base::{Failed, Rec, What};
use xk_kernel::Kernel;
use xk_ports::{Sink, SwapStore, put_all};

/// Gathers the line of a record.
fn gather_record<K: Sink>(rec: &Rec, out: &mut K, held: &mut Held) -> Result<(), Failed>
    ensures gathered { OnOk result (Gathers (text (K.written out.old) held.old.items)
        (text (K.written out.new) held.new.items) (line_of rec.now)) }
    ensures front { OnErr result (GathersPart (text (K.written out.old) held.old.items)
        (text (K.written out.new) held.new.items) (line_of rec.now)) }
    ensures cause { OnErr result (Rose (K.faults out.old) (K.faults out.new)) }
    ensures never_falls { K.faults out.old ≤ K.faults out.new }
{
    let mut text = ArrayVec::new();
    line(rec, &mut text);
    gather(text.as_slice(), out, held)
}

/// Gathers the byte that went to the console, if one did.
fn gather_byte<K: Sink>(what: &What, out: &mut K, held: &mut Held) -> Result<(), Failed>
    ensures gathered { OnOk result (Gathers (text (K.written out.old) held.old.items)
        (text (K.written out.new) held.new.items) (console_byte what.now)) }
    ensures front { OnErr result (GathersPart (text (K.written out.old) held.old.items)
        (text (K.written out.new) held.new.items) (console_byte what.now)) }
    ensures cause { OnErr result (Rose (K.faults out.old) (K.faults out.new)) }
    ensures never_falls { K.faults out.old ≤ K.faults out.new }
{
    match *what {
        What::Byte(_, byte) => gather(&[byte], out, held),
        What::Call(_, _)
        | What::Reply(_, _)
        | What::Retry(_)
        | What::Fault(_, _, _)
        | What::End(_)
        | What::Irq(_, _)
        | What::Gone(_) => Ok(()),
    }
}

/// Gathers what is told as a record comes.
fn gather_told<K: Sink>(
    tells: Telling,
    rec: &Rec,
    out: &mut K,
    held: &mut Held,
) -> Result<(), Failed>
    ensures gathered { OnOk result (Gathers (text (K.written out.old) held.old.items)
        (text (K.written out.new) held.new.items) (told_of tells rec.now)) }
    ensures front { OnErr result (GathersPart (text (K.written out.old) held.old.items)
        (text (K.written out.new) held.new.items) (told_of tells rec.now)) }
    ensures cause { OnErr result (Rose (K.faults out.old) (K.faults out.new)) }
    ensures never_falls { K.faults out.old ≤ K.faults out.new }
{
    match tells {
        Telling::Trace => gather_record(rec, out, held),
        Telling::Run => gather_byte(&rec.what, out, held),
        Telling::Ledger | Telling::Nothing => Ok(()),
    }
}

/// Gathers what is told as records come, in order.
pub fn gather_records<K: Sink>(
    tells: Telling,
    records: &[Rec],
    out: &mut K,
    held: &mut Held,
) -> Result<(), Failed>
    ensures gathered { OnOk result (Gathers (text (K.written out.old) held.old.items)
        (text (K.written out.new) held.new.items) (told tells records.now)) }
    ensures front { OnErr result (GathersPart (text (K.written out.old) held.old.items)
        (text (K.written out.new) held.new.items) (told tells records.now)) }
    ensures cause { OnErr result (Rose (K.faults out.old) (K.faults out.new)) }
    ensures never_falls { K.faults out.old ≤ K.faults out.new }
{
    for rec in records {
        gather_told(tells, rec, out, held)?;
    }
    Ok(())
}

/// Writes the last line.
fn write_end<K: Sink>(steps: u32, why: EndWord, out: &mut K) -> Result<(), Failed>
    ensures appended { OnOk result (Grows (K.written out.old) (K.written out.new) (end_line_of steps why)) }
    ensures front { OnErr result (GrowsByProperPrefix (K.written out.old) (K.written out.new) (end_line_of steps why)) }
    ensures cause { OnErr result (Rose (K.faults out.old) (K.faults out.new)) }
    ensures never_falls { K.faults out.old ≤ K.faults out.new }
{
    let mut text = ArrayVec::new();
    end_line(steps, why, &mut text);
    put_all(out, text.as_slice())
}

/// Writes the last line of a history that ended in this way, if it has one.
fn write_last_line<K: Sink>(ending: Ending, steps: u32, out: &mut K) -> Result<(), Failed>
    ensures appended { OnOk result (Grows (K.written out.old) (K.written out.new) (last_line steps ending)) }
    ensures front { OnErr result (GrowsByProperPrefix (K.written out.old) (K.written out.new) (last_line steps ending)) }
    ensures cause { OnErr result (Rose (K.faults out.old) (K.faults out.new)) }
    ensures never_falls { K.faults out.old ≤ K.faults out.new }
{
    match ending {
        Ending::Played => write_end(steps, EndWord::Done, out),
        Ending::LimitMet => write_end(steps, EndWord::Limit, out),
        Ending::BadLine(_) => Ok(()),
    }
}

/// Writes what is told at the end of a history that came to the kernel's state and ended in this way.
pub fn write_closing<K: Sink, W: SwapStore>(
    kernel: &Kernel<W>,
    tells: Telling,
    ending: Ending,
    out: &mut K,
) -> Result<(), Failed>
    requires sound { IsSound W.SwapStore kernel.now }
    requires usable { IsUsable kernel.now }
    ensures appended { OnOk result (Grows (K.written out.old) (K.written out.new) (closing tells (machine_of W.held kernel.now) ending)) }
    ensures front { OnErr result (GrowsByProperPrefix (K.written out.old) (K.written out.new)
        (closing tells (machine_of W.held kernel.now) ending)) }
    ensures cause { OnErr result (Rose (K.faults out.old) (K.faults out.new)) }
    ensures never_falls { K.faults out.old ≤ K.faults out.new }
{
    match tells {
        Telling::Trace => write_last_line(ending, kernel.steps(), out),
        Telling::Run | Telling::Nothing => Ok(()),
        Telling::Ledger => {
            write_table(kernel, out)?;
            write_last_line(ending, kernel.steps(), out)
        }
    }
}
