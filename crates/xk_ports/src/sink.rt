//! A sink: a stream that bytes are appended to.

ghost use Rattle.std.specs.Prelude.{◌≡◌, ◌<◌, ◌≤◌, [], ℕ, List, Option, length, take, IfOk, OnOk, OnErr};
ghost use Rattle.xk_base.specs.Outside.{Rose};
ghost use Rattle.xk_ports.specs.Told.{Grows, GrowsByProperPrefix};

use xk_base::Failed;

/// A stream that bytes are appended to.
pub trait Sink {
    /// Where it is told: all bytes that were appended.
    ghost written: { Self → Option (List ℕ) };

    /// The count of faults.
    ghost faults: { Self → ℕ };

    /// Appends the first bytes of `bytes`, and answers how many: at least one. A failed write
    /// appends nothing; a device that takes nothing of a piece has failed.
    fn write(&mut self, bytes: &[u8]) -> Result<usize, Failed>
        requires { 0 < length bytes.now }
        ensures some { IfOk result (λ n. 0 < n) }
        ensures fits { IfOk result (λ n. n ≤ length bytes.now) }
        ensures appended { IfOk result (λ n. Grows (written self.old) (written self.new) (take n bytes.now)) }
        ensures nothing { OnErr result (Grows (written self.old) (written self.new) []) }
        ensures cause { OnErr result (Rose (faults self.old) (faults self.new)) }
        ensures never_falls { faults self.old ≤ faults self.new };

    /// The count has a greatest value, at which it stays.
    ghost bounded: { (sink : Self) → faults sink ≤ 18446744073709551615 };
}

/// Appends all of `bytes`, or a proper part from their front where the sink failed.
pub fn put_all<K: Sink>(out: &mut K, bytes: &[u8]) -> Result<(), Failed>
    ensures appended { OnOk result (Grows (K.written out.old) (K.written out.new) bytes.now) }
    ensures front { OnErr result (GrowsByProperPrefix (K.written out.old) (K.written out.new) bytes.now) }
    ensures cause { OnErr result (Rose (K.faults out.old) (K.faults out.new)) }
    ensures never_falls { K.faults out.old ≤ K.faults out.new }
{
    let mut rest = bytes;
    while !rest.is_empty() {
        let taken = out.write(rest)?;
        rest = &rest[taken..];
    }
    Ok(())
}
