//! The record of an interrupt goes to its place among those of its step.

ghost use Rattle.std.specs.Prelude.{ℕ, List, ◌≡◌, ◌+◌, ◌≤◌, ◌<◌, ◌++◌, ◌∷◌, [], All, length};
ghost use Rattle.irq_path.specs.Placing.{LogTells, irq_place, log_of, moved_to};
ghost use Rattle.machine_model.specs.Stepping.Timer.{stands_after_irq, with_irq};
ghost use Rattle.xk_base.specs.declared.limits.TheConstants.{RECORD_LIMIT};
ghost use Rattle.xk_base.specs.declared.records.Rec.{Rec as Record};
ghost use Rattle.xk_base.specs.declared.records.What.{What as Happened};
ghost use Rattle.xk_base.specs.declared.records.What.TheVariants.{Irq};

use xk_base::limits::RECORD_LIMIT;
use xk_base::{Log, Pid, Rec, What};

/// How many records a step may have.
const RECORDS: usize = RECORD_LIMIT as usize;

/// Whether it stands after a record that the process gets an interrupt: the record of a death, or of an
/// interrupt of a process with a greater pid.
fn stands_after_irq(pid: Pid, what: What) -> bool
    ensures { result ≡ stands_after_irq pid what }
{
    match what {
        What::Gone(_) => true,
        What::Irq(other, _) => pid.0 < other.0,
        _ => false,
    }
}

/// How many of the records stand before the first that stands after one that the process gets an
/// interrupt: all where none does.
fn irq_place(pid: Pid, records: &[Rec]) -> usize
    ensures { result ≡ irq_place pid records.now }
{
    'records: for k in 0..records.len() {
        if stands_after_irq(pid, records[k].what) {
            return k;
        }
    }
    records.len()
}

/// Appends records, which are of the log's step, in their order.
fn push_all(log: &mut Log, records: &[Rec])
    requires room { length log.old.records + length records.now ≤ log.old.room }
    requires step { All (λ rec. rec.step ≡ log.old.step) records.now }
    ensures { log.new ≡ record log.old { records = log.old.records ++ records.now } }
{
    'records: for k in 0..records.len() {
        log.push(records[k].what);
    }
}

/// The last record goes to a place before it, ahead of those that stand there. A log can only be appended
/// to, so it is read out and filled again.
fn move_last(log: &mut Log, place: usize)
    requires place { place < length log.old.records }
    requires few { length log.old.records ≤ RECORD_LIMIT }
    requires room { length log.old.records ≤ log.old.room }
    requires step { All (λ rec. rec.step ≡ log.old.step) log.old.records }
    ensures place { (xs : List Record) (x : Record) → log.old.records ≡ xs ++ x ∷ []
        → log.new ≡ record log.old { records = moved_to place x xs } }
    ensures room { log.new.room ≡ log.old.room }
{
    let records = log.as_slice();
    let last = records.len() - 1;
    let moved = records[last];
    let mut all = [moved; RECORDS];
    all[..last].copy_from_slice(&records[..last]);
    log.clear(moved.step);
    push_all(log, &all[..place]);
    log.push(moved.what);
    push_all(log, &all[place..last]);
}

/// The last record of a step, which tells that the process gets an interrupt, goes to its place among the others.
pub fn place_irq(log: &mut Log, pid: Pid)
    requires few { length log.old.records ≤ RECORD_LIMIT }
    requires room { length log.old.records ≤ log.old.room }
    requires step { All (λ rec. rec.step ≡ log.old.step) log.old.records }
    ensures place { (told : List Happened) (k : ℕ) → LogTells log.old (told ++ Irq pid k ∷ [])
        → log.new ≡ log_of (with_irq (record { pid = pid; number = k }) told) log.old }
    ensures room { log.new.room ≡ log.old.room }
{
    let place = irq_place(pid, log.as_slice());
    if place < log.as_slice().len() {
        move_last(log, place);
    }
}
