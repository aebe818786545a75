//! What `check` writes of a plan.

ghost use Rattle.std.specs.Prelude.{◌≡◌, ◌+◌, ◌≤◌, ◌<◌, ◌^◌, length, sum_by, OnOk, OnErr};
ghost use Rattle.xk_base.specs.declared.limits.TheConstants.{FRAME_LIMIT, PROCESS_LIMIT};
ghost use Rattle.boot_plan.specs.Lawful.{IsLawfulPlan};
ghost use Rattle.xk_base.specs.Outside.{Rose};
ghost use Rattle.xk_ports.specs.Told.{Grows, GrowsByProperPrefix};
ghost use Rattle.xous_program.specs.Summary.{process_line, process_lines, ram_line, summary_of, total_line};

use boot_plan::{BootPlan, ProcPlan, cap};
use host_io::text::{Line, put, put_number, put_word};
use xk_base::Failed;
use xk_ports::{Sink, put_all};

fn ram_line(plan: &BootPlan) -> Line
    requires { plan.now.frames ≤ FRAME_LIMIT }
    ensures { result.items ≡ ram_line plan.now }
{
    let mut line = Line::new();
    put(&mut line, b"ram ");
    put_word(&mut line, plan.ram_start);
    put(&mut line, b" ");
    put_word(&mut line, plan.frames * 4096);
    put(&mut line, b"\n");
    line
}

fn process_line(pid: u32, process: &ProcPlan) -> Line
    requires { length process.now.pages < 2 ^ 32 }
    ensures { result.items ≡ process_line pid process.now }
{
    let mut line = Line::new();
    put(&mut line, b"pid ");
    put_number(&mut line, pid);
    put(&mut line, b" entry ");
    put_word(&mut line, process.entry);
    put(&mut line, b" sections ");
    put_number(&mut line, process.sections);
    put(&mut line, b" pages ");
    put_number(&mut line, process.pages.as_slice().len() as u32);
    put(&mut line, b"\n");
    line
}

/// How many first pages processes have in all.
fn count_pages(processes: &[ProcPlan]) -> u32
    requires { sum_by (λ p. length p.pages) processes.now < 2 ^ 32 }
    ensures { result ≡ sum_by (λ p. length p.pages) processes.now }
{
    let mut pages = 0u32;
    for process in processes {
        pages += process.pages.as_slice().len() as u32;
    }
    pages
}

fn total_line(plan: &BootPlan, file_len: u32) -> Line
    requires { IsLawfulPlan file_len plan.now }
    ensures { result.items ≡ total_line plan.now }
{
    let mut line = Line::new();
    put(&mut line, b"pages ");
    put_number(&mut line, count_pages(plan.procs.as_slice()));
    put(&mut line, b" cap ");
    put_number(&mut line, cap(plan));
    put(&mut line, b"\n");
    line
}

/// Writes the line of each process.
fn write_processes<K: Sink>(processes: &[ProcPlan], out: &mut K) -> Result<(), Failed>
    requires few { length processes.now ≤ PROCESS_LIMIT }
    requires pages { sum_by (λ p. length p.pages) processes.now < 2 ^ 32 }
    ensures appended { OnOk result (Grows (K.written out.old) (K.written out.new) (process_lines 2 processes.now)) }
    ensures front { OnErr result (GrowsByProperPrefix (K.written out.old) (K.written out.new) (process_lines 2 processes.now)) }
    ensures cause { OnErr result (Rose (K.faults out.old) (K.faults out.new)) }
    ensures never_falls { K.faults out.old ≤ K.faults out.new }
{
    let mut pid = 2u32;
    for process in processes {
        put_all(out, process_line(pid, process).as_slice())?;
        pid += 1;
    }
    Ok(())
}

/// Writes the summary of the plan of a file of so many bytes.
pub fn write_summary<K: Sink>(plan: &BootPlan, file_len: u32, out: &mut K) -> Result<(), Failed>
    requires { IsLawfulPlan file_len plan.now }
    ensures appended { OnOk result (Grows (K.written out.old) (K.written out.new) (summary_of plan.now)) }
    ensures front { OnErr result (GrowsByProperPrefix (K.written out.old) (K.written out.new) (summary_of plan.now)) }
    ensures cause { OnErr result (Rose (K.faults out.old) (K.faults out.new)) }
    ensures never_falls { K.faults out.old ≤ K.faults out.new }
{
    put_all(out, ram_line(plan).as_slice())?;
    write_processes(plan.procs.as_slice(), out)?;
    put_all(out, total_line(plan, file_len).as_slice())
}
