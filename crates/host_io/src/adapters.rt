//! The real files and streams. Each object counts its faults and tells no content: what a file or a
//! terminal holds is trusted and not proved.

ghost use Rattle.std.specs.Prelude.{◌≡◌, ◌≤◌, length, IsSome, IfSome};

use std::fs;
use std::io::{Read, Write};
use std::rt::Files;
use xk_base::Failed;
use xk_ports::{FileSlot, Host, Sink};

/// The files of the machine that runs the program.
#[derive(Drop)]
pub struct FileHost<'a, R: Files> {
    rt: &'a R,
    first: Option<R::File>,
    second: Option<R::File>,
    faults: u64,
}

impl<'a, R: Files> FileHost<'a, R> {
    /// A host with no file picked, and no fault so far.
    pub fn new(rt: &'a R) -> FileHost<'a, R>
        ensures { result.faults ≡ 0 }
    {
        FileHost {
            rt,
            first: None,
            second: None,
            faults: 0,
        }
    }
}

impl<'a, R: Files> Host for FileHost<'a, R> {
    ghost use Rattle.std.specs.Prelude.{None, is_some, min};
    ghost use Rattle.std.proofs.Common.{arith};
    ghost use Rattle.host_io.specs.Adapters.{at_slot};

    ghost file = { λ host. None };

    ghost is_picked = { λ host slot. at_slot slot (is_some host.first) (is_some host.second) };

    ghost left = { λ host slot. None };

    ghost asked = { λ host. None };

    ghost faults = { λ host. min host.faults 18446744073709551615 };

    ghost bounded = { λ host. Prim.omega arith };

    fn pick_file(&mut self, which: FileSlot, name: &str) -> Result<(), Failed> {
        match fs::open(self.rt, name) {
            Ok(file) => {
                match which {
                    FileSlot::First => self.first = Some(file),
                    FileSlot::Second => self.second = Some(file),
                }
                Ok(())
            }
            Err(_) => {
                self.faults = self.faults.saturating_add(1);
                Err(Failed)
            }
        }
    }

    fn read(&mut self, which: FileSlot, into: &mut [u8]) -> Result<usize, Failed> {
        let count = match which {
            FileSlot::First => read_some(&mut self.first, into),
            FileSlot::Second => read_some(&mut self.second, into),
        };
        if count.is_none() {
            self.faults = self.faults.saturating_add(1);
        }
        count.ok_or(Failed)
    }
}

/// Reads from a picked file; `None` where that fails.
fn read_some<F: Read>(file: &mut Option<F>, into: &mut [u8]) -> Option<usize>
    requires { IsSome file.old }
    ensures picked { IsSome file.new }
    ensures fits { IfSome result (λ count. count ≤ length into.new) }
{
    match file {
        Some(file) => file.read(into).ok(),
        None => unreachable!(),
    }
}

/// Standard output over its writer.
pub type StdSink<W> = WriterSink<W>;

/// Standard error over its writer.
pub type ErrSink<W> = WriterSink<W>;

/// A stream that bytes are written to.
#[derive(Drop)]
pub struct WriterSink<W: Write + Drop> {
    writer: W,
    faults: u64,
}

impl<W: Write + Drop> WriterSink<W> {
    /// A sink over a writer, with no fault so far.
    pub fn new(writer: W) -> WriterSink<W>
        ensures { result.faults ≡ 0 }
    {
        WriterSink { writer, faults: 0 }
    }
}

impl<W: Write + Drop> Sink for WriterSink<W> {
    ghost use Rattle.std.specs.Prelude.{None, min};
    ghost use Rattle.std.proofs.Common.{arith};

    ghost written = { λ sink. None };

    ghost faults = { λ sink. min sink.faults 18446744073709551615 };

    ghost bounded = { λ sink. Prim.omega arith };

    fn write(&mut self, bytes: &[u8]) -> Result<usize, Failed> {
        match self.writer.write(bytes) {
            Ok(count) if count > 0 => Ok(count),
            _ => {
                self.faults = self.faults.saturating_add(1);
                Err(Failed)
            }
        }
    }
}
