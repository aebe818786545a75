//! What `demo` counts of the records of a history.

ghost use Rattle.std.specs.Prelude.{◌≡◌, ◌<◌, ◌≤◌, ◌+◌, ◌^◌, [], ◌∷◌, ◌++◌, List, length};
ghost use Rattle.xk_base.specs.declared.records.Rec.{Rec as Record};
ghost use Rattle.demo_load.specs.Totals.{demo_line, totals_of};

use host_io::text::{Line, put, put_number};
use xk_base::{Rec, What};

/// The server's process.
const SERVER: u8 = 2;

/// The first word of the answer to a client whose page came back.
const RETURNED: u32 = 18;

/// The number of the call by which a process ends.
const TERMINATE_PROCESS: u32 = 22;

/// What was counted.
#[derive(Clone, Copy, Debug, PartialEq, Eq)]
pub struct Totals {
    /// The answers to clients whose page came back.
    pub sends: u32,
    /// The sum modulo 2^32 of the words with which processes ended.
    pub sum: u32,
    /// The deaths.
    pub gone: u32,
}

impl Totals {
    /// Nothing was counted.
    #[tactic(auto, unfolding(crate::specs::Totals::totals_of))]
    pub fn new() -> Totals
        ensures { result ≡ totals_of [] }
    {
        Totals {
            sends: 0,
            sum: 0,
            gone: 0,
        }
    }

    /// Counts a record.
    fn count(&mut self, rec: &Rec)
        requires few { self.old.sends + 1 < 2 ^ 32 }
        requires few_gone { self.old.gone + 1 < 2 ^ 32 }
        ensures counted { (before : List Record) → self.old ≡ totals_of before → self.new ≡ totals_of (before ++ rec.now ∷ []) }
        ensures sends { self.new.sends ≤ self.old.sends + 1 }
        ensures gone { self.new.gone ≤ self.old.gone + 1 }
    {
        match rec.what {
            What::Call(_, words) => {
                if words[0] == TERMINATE_PROCESS {
                    self.sum = self.sum.wrapping_add(words[1]);
                }
            }
            What::Reply(thread, words) => {
                if thread.pid.0 != SERVER && words[0] == RETURNED {
                    self.sends += 1;
                }
            }
            What::Gone(_) => self.gone += 1,
            What::Retry(_)
            | What::Byte(_, _)
            | What::Fault(_, _, _)
            | What::End(_)
            | What::Irq(_, _) => {}
        }
    }

    /// Counts records, before which so few were counted that these can be.
    pub fn count_all(&mut self, records: &[Rec])
        requires few { self.old.sends + length records.now < 2 ^ 32 }
        requires few_gone { self.old.gone + length records.now < 2 ^ 32 }
        ensures counted { (before : List Record) → self.old ≡ totals_of before → self.new ≡ totals_of (before ++ records.now) }
        ensures sends { self.new.sends ≤ self.old.sends + length records.now }
        ensures gone { self.new.gone ≤ self.old.gone + length records.now }
    {
        for rec in records {
            self.count(rec);
        }
    }
}

/// The line of a load of so many clients.
pub fn demo_line(clients: u32, totals: Totals) -> Line
    ensures { result.items ≡ demo_line clients totals }
{
    let mut line = Line::new();
    put(&mut line, b"demo ");
    put_number(&mut line, clients);
    put(&mut line, b" sends ");
    put_number(&mut line, totals.sends);
    put(&mut line, b" sum ");
    put_number(&mut line, totals.sum);
    put(&mut line, b" gone ");
    put_number(&mut line, totals.gone);
    put(&mut line, b"\n");
    line
}
